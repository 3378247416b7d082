// The month program: the figures of up to 64 traces, `00.bin` upward, each in a new session started from `policy.bin`, and of all of
// them in total (change request No. 6). The files are in the working folder. The text is `month_text` of them: its lines are those of
// `figures`, and the loops here read, count and write. What fails outside is told on standard error, and there is then no total line.
// `sent` counts the bytes handed to standard output.
#![tactic(auto)]

ghost use Rattle.std.specs.Prelude.{◌≡◌, length};
ghost use Rattle.std.specs.Fd.{file_raw_fd};
ghost use Rattle.answers.specs.Outcomes.{refusal_number};
ghost use Rattle.image.specs.Image.{check_of, policy_in};
ghost use Rattle.session.specs.Limits.{session_length};
ghost use Rattle.session.specs.Session.{start_of};
ghost use Rattle.listing.specs.Lines.{policy_line};
ghost use Rattle.figures.specs.Counters.{counters, no_counters};
ghost use Rattle.files.specs.Calls.{DoneOrTold, OpenedAs, Handed};
ghost use Rattle.month.specs.Runs.{TraceCounted, TraceShown, TracesShown, MonthOf, MonthShown};

use answers::Refusal;
use figures::{COUNT_LIMIT, TRACE_LIMIT};
use files::Failure;
use image::CONTAINER_LIMIT;
use listing::BUFFER_SIZE;
use session::SESSION_LENGTH;
use std::fs::File;

// One byte more than a policy may have: a longer file is refused for its length and not read further.
const POLICY_ROOM: usize = image::IMAGE_LIMIT + 1;

// The bytes of a part of a trace: 8,192 whole records.
const PART_SIZE: usize = 65536;

// A trace in parts of whole records, only the last of which may end short, counted to its end or until it is too long: how many records
// it has. Nothing says that a file ends, so the turns are counted, to more than any file has.
fn add_file(
    rt: &HostRuntime,
    file: &File,
    name: &[u8],
    session: &mut [u64],
    counts: &mut [u32; COUNT_LIMIT],
    alerted: &mut [u32],
) -> Result<u64, Failure>
    requires { OpenedAs name.now (file_raw_fd file.now) × (counts.old ≡ no_counters.counts) × (alerted.old ≡ no_counters.alerted) }
    ensures { DoneOrTold result (λ records. TraceCounted name.now session.old (counters records counts.new alerted.new)) }
{
    // Kept: a rule of the project: no heap, so the array has room for the most that there can be.
    let mut part = [0u8; PART_SIZE];
    let mut records: u64 = 0;
    let mut place: u64 = 0;
    for _ in 0..u64::MAX {
        let got = files::read_part(rt, file, name, &mut part, &mut place)?;
        records = figures::add_part(&part[..got.size], session, counts, alerted, records);
        if got.last || figures::too_long(records) {
            return Ok(records);
        }
    }
    files::tell_spent(rt, name);
    Err(Failure)
}

// Trace number n, which is there: counted in a new session, shown, and added to the total, whose records are answered.
fn show_trace(
    rt: &HostRuntime,
    n: usize,
    file: &File,
    name: &[u8],
    policy: &[u8],
    session: &mut [u64],
    totals: &mut [u32; COUNT_LIMIT],
    sums: &mut [u32; CONTAINER_LIMIT],
    total: u64,
    out: &mut [u8; BUFFER_SIZE],
    sent: &mut u64,
) -> Result<u64, Failure>
    requires { OpenedAs name.now (file_raw_fd file.now) × (check_of policy.now ≡ 0) × (length session.old ≡ session_length) }
    ensures { DoneOrTold result (λ summed.
        TraceShown n name.now (start_of (policy_in policy.now)) (counters total totals.old sums.old)
        (counters summed totals.new sums.new) sent.old sent.new) }
{
    let mut counts = [0u32; COUNT_LIMIT];
    let mut alerted = [0u32; CONTAINER_LIMIT];
    let _ = session::start(policy, session);
    let records = add_file(rt, file, name, session, &mut counts, &mut alerted)?;
    let end = figures::put_trace(out, n, records, &counts, &alerted);
    files::write_front(rt, out, end, sent)?;
    Ok(figures::add_total(totals, sums, total, &counts, &alerted, records))
}

// The lines of the traces up to the first missing name, and the counts in total, whose records are answered.
fn show_traces(
    rt: &HostRuntime,
    policy: &[u8],
    session: &mut [u64],
    totals: &mut [u32; COUNT_LIMIT],
    sums: &mut [u32; CONTAINER_LIMIT],
    out: &mut [u8; BUFFER_SIZE],
    sent: &mut u64,
) -> Result<u64, Failure>
    requires { (check_of policy.now ≡ 0) × (length session.old ≡ session_length) × (totals.old ≡ no_counters.counts) × (sums.old ≡ no_counters.alerted) }
    ensures { DoneOrTold result (λ total.
        TracesShown (start_of (policy_in policy.now)) (counters total totals.new sums.new) sent.old sent.new) }
{
    let mut total: u64 = 0;
    for n in 0..TRACE_LIMIT {
        let name = figures::trace_name(n);
        let Some(file) = files::open(rt, &name)? else {
            return Ok(total);
        };
        total = show_trace(
            rt, n, &file, &name, policy, session, totals, sums, total, out, sent,
        )?;
    }
    Ok(total)
}

// The lines of the traces and the total line, as far as nothing fails.
fn show_month(
    rt: &HostRuntime,
    policy: &[u8],
    session: &mut [u64],
    out: &mut [u8; BUFFER_SIZE],
    sent: &mut u64,
) -> Result<(), Failure>
    requires { (check_of policy.now ≡ 0) × (length session.old ≡ session_length) }
    ensures { DoneOrTold result (λ _. MonthOf (start_of (policy_in policy.now)) sent.old sent.new) }
{
    let mut totals = [0u32; COUNT_LIMIT];
    let mut sums = [0u32; CONTAINER_LIMIT];
    show_traces(rt, policy, session, &mut totals, &mut sums, out, sent)?;
    let end = figures::put_total(out, &totals, &sums);
    files::write_front(rt, out, end, sent)
}

// The one line of a refused policy.
// Kept: no plainer: the watch program has the same function, and no crate that both stand on knows `files` and the listing.
fn refuse(
    rt: &HostRuntime,
    refusal: Refusal,
    out: &mut [u8; BUFFER_SIZE],
    sent: &mut u64,
) -> Result<(), Failure>
    ensures { DoneOrTold result (λ _. Handed (policy_line (refusal_number refusal)) sent.old sent.new) }
{
    let end = trace_listing::list_refused(out, refusal.number());
    files::write_front(rt, out, end, sent)
}

// The whole program.
fn show_all(rt: &HostRuntime, sent: &mut u64) -> Result<(), Failure>
    ensures { DoneOrTold result (λ _. MonthShown sent.old sent.new) }
{
    let mut out = [0u8; BUFFER_SIZE];
    // The session's buffer, which each start fills.
    let mut session = [0u64; SESSION_LENGTH];
    // Kept: a rule of the project: no heap, so the array has room for the most that there can be.
    let mut policy = [0u8; POLICY_ROOM];
    let n = files::load(rt, b"policy.bin", &mut policy)?;
    if let Err(refusal) = image::check(&policy[..n]) {
        return refuse(rt, refusal, &mut out, sent);
    }
    show_month(rt, &policy[..n], &mut session, &mut out, sent)
}

fn main(rt: HostRuntime) {
    let mut sent: u64 = 0;
    let _ = show_all(&rt, &mut sent);
}
