// The watch program: lists what the monitor answers to each record of `trace.bin` in a session started from `policy.bin`
// (the paper, "Checked examples"). Both files are in the working folder. The listing is `listing_of` of the two files: its text is
// that of `trace_listing`, and the loop here reads, lists and writes. What fails outside is told on standard error, and the
// listing then has no total line. `sent` counts the bytes handed to standard output.
#![tactic(auto)]

ghost use Rattle.std.specs.Fd.{file_raw_fd};
ghost use Rattle.answers.specs.Outcomes.{refusal_number};
ghost use Rattle.files.specs.Calls.{DoneOrTold, OpenedAs, Handed};
ghost use Rattle.listing.specs.Lines.{policy_line};
ghost use Rattle.watch.specs.Runs.{TraceListed, Watched, ListingShown};

use answers::{Refusal, Tally};
use files::Failure;
use listing::BUFFER_SIZE;
use session::SESSION_LENGTH;
use std::fs::File;
use trace_listing::PART_LIMIT;

// One byte more than a policy may have: a longer file is refused for its length and not read further.
const POLICY_ROOM: usize = image::IMAGE_LIMIT + 1;

// The trace in parts of whole records: only the last may end short. Nothing says that a file ends, so the turns are counted, to more
// than any file has.
fn list_file(
    rt: &HostRuntime,
    file: &File,
    name: &[u8],
    session: &mut [u64],
    out: &mut [u8; BUFFER_SIZE],
    sent: &mut u64,
) -> Result<Tally, Failure>
    requires { OpenedAs name.now (file_raw_fd file.now) }
    ensures { DoneOrTold result (λ tally. TraceListed name.now session.old session.new tally sent.old sent.new) }
{
    let mut part = [0u8; PART_LIMIT];
    let mut tally = answers::no_tally();
    let mut place: u64 = 0;
    for _ in 0..u64::MAX {
        let got = files::read_part(rt, file, name, &mut part, &mut place)?;
        let listed = trace_listing::list_part(&part, got.size, session, out, tally);
        tally = listed.tally;
        files::write_front(rt, out, listed.end, sent)?;
        if got.last {
            return Ok(tally);
        }
    }
    files::tell_spent(rt, name);
    Err(Failure)
}

// The steps. A missing trace has none.
fn list_trace(
    rt: &HostRuntime,
    name: &[u8],
    session: &mut [u64],
    out: &mut [u8; BUFFER_SIZE],
    sent: &mut u64,
) -> Result<Tally, Failure>
    ensures { DoneOrTold result (λ tally. TraceListed name.now session.old session.new tally sent.old sent.new) }
{
    match files::open(rt, name)? {
        Some(file) => list_file(rt, &file, name, session, out, sent),
        None => Ok(answers::no_tally()),
    }
}

// The heading, the steps and the total line, as far as nothing fails.
fn watch(
    rt: &HostRuntime,
    session: &mut [u64],
    out: &mut [u8; BUFFER_SIZE],
    sent: &mut u64,
) -> Result<(), Failure>
    ensures { DoneOrTold result (λ _. Watched session.old sent.old sent.new) }
{
    let heading = trace_listing::list_heading(out);
    files::write_front(rt, out, heading, sent)?;
    let tally = list_trace(rt, b"trace.bin", session, out, sent)?;
    let total = trace_listing::list_total(out, tally);
    files::write_front(rt, out, total, sent)
}

// The one line of a refused policy.
fn refuse(
    rt: &HostRuntime,
    refusal: Refusal,
    out: &mut [u8; BUFFER_SIZE],
    sent: &mut u64,
) -> Result<(), Failure>
    ensures { DoneOrTold result (λ _. Handed (policy_line (refusal_number refusal)) sent.old sent.new) }
{
    let end = trace_listing::list_refused(out, refusal.number());
    files::write_front(rt, out, end, sent)
}

// The whole program.
fn show_listing(rt: &HostRuntime, sent: &mut u64) -> Result<(), Failure>
    ensures { DoneOrTold result (λ _. ListingShown sent.old sent.new) }
{
    let mut out = [0u8; BUFFER_SIZE];
    // The session's buffer, which the start fills.
    let mut session = [0u64; SESSION_LENGTH];
    // Kept: a rule of the project: no heap, so the array has room for the most that there can be.
    let mut policy = [0u8; POLICY_ROOM];
    let n = files::load(rt, b"policy.bin", &mut policy)?;
    if let Err(refusal) = session::start(&policy[..n], &mut session) {
        return refuse(rt, refusal, &mut out, sent);
    }
    watch(rt, &mut session, &mut out, sent)
}

fn main(rt: HostRuntime) {
    let mut sent: u64 = 0;
    let _ = show_listing(&rt, &mut sent);
}
