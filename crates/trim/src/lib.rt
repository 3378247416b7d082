// A trace trimmed to its alert (change request No. 13).
#![tactic(auto)]

ghost use Rattle.std.specs.Prelude.{◌≡◌, true, false, ◌<◌, ◌≤◌, ◌%◌, length, MatchOption};
ghost use Rattle.lists.specs.Lists.{every};
ghost use Rattle.lists.specs.Counting.{count_from};
ghost use Rattle.image.specs.Image.{check_of, policy_in};
ghost use Rattle.session.specs.Limits.{users_at};
ghost use Rattle.session.specs.Session.{start_of};
ghost use Rattle.records.specs.Records.{record_length};
ghost use Rattle.monitor.specs.Steps.{step_effect};
ghost use Rattle.trim.specs.Trims.{trim_limit, record_at, cut_counts, last_of, front_of, trimmed_of, trim_answer, trim_effect};
ghost use Rattle.trim.specs.Replays.{in_trace, whole_trace, Leaves, Replayed, Tried, Paired, Passable, Passed, Trimmable, Kept, Found};

use answers::Refusal;
use image::CONTAINER_LIMIT;
use records::RECORD_LENGTH;
use session::{ROW_WIDTH, SESSION_LENGTH, USERS_AT};

// The most records of a trace that is trimmed, and the bytes that the output must have.
pub const TRIM_LIMIT: usize = 256;

// ---- cuts

// The records at these positions, one after the other on the session: whether each is accepted.
fn replay(session: &mut [u64], trace: &[u8], positions: &[u8]) -> bool
    requires { every (in_trace trace.now) positions.now ≡ true }
    ensures { Replayed session.old trace.now positions.now session.new result }
{
    for &k in positions {
        let at = k as usize * RECORD_LENGTH;
        let answer = monitor::step(session, &trace[at..at + RECORD_LENGTH]);
        if !answers::is_accepted(answer) {
            return false;
        }
    }
    true
}

// Whether the cut counts that has these positions in front of the last one.
fn cut_counts(session: &mut [u64], trace: &[u8], positions: &[u8], last: usize) -> bool
    requires { (every (in_trace trace.now) positions.now ≡ true) × (in_trace trace.now last ≡ true) × (last < trim_limit) }
    ensures { Tried session.old trace.now positions.now last session.new result }
{
    if !replay(session, trace, positions) {
        return false;
    }
    let at = last * RECORD_LENGTH;
    let answer = monitor::step(session, &trace[at..at + RECORD_LENGTH]);
    answers::is_alert(answer)
}

// Whether a cut counts that goes on with these positions from the session on, tried on a second one. Of that one only the first numbers
// can differ.
fn counts_behind(
    before: &[u64],
    work: &mut [u64],
    trace: &[u8],
    rest: &[u8],
    last: usize,
    wide: usize,
) -> bool
    requires { (Paired before.now work.old trace.now wide) × (every (in_trace trace.now) rest.now ≡ true) × (in_trace trace.now last ≡ true) × (last < trim_limit) }
    ensures { (result ≡ cut_counts before.now trace.now last rest.now) × (Paired before.now work.new trace.now wide) }
{
    session::copy(&before[0..wide], &mut work[0..wide]);
    cut_counts(work, trace, rest, last)
}

// The record at a position, on the session.
fn keep(before: &mut [u64], trace: &[u8], k: u8)
    requires { in_trace trace.now k ≡ true }
    ensures { before.new ≡ step_effect before.old (record_at trace.now k) }
{
    let at = k as usize * RECORD_LENGTH;
    monitor::step(before, &trace[at..at + RECORD_LENGTH]);
}

// ---- passes

// One pass over the first n positions, on a session as the start left it and a second one to try cuts on: the kept ones come to the
// front. How many they are.
fn pass(
    before: &mut [u64],
    work: &mut [u64],
    trace: &[u8],
    positions: &mut [u8],
    n: usize,
    last: usize,
    wide: usize,
) -> usize
    requires { Passable before.old work.old trace.now positions.old n last wide }
    ensures { Passed before.old trace.now positions.old n last wide positions.new work.new result }
{
    let mut kept: usize = 0;
    for i in 0..n {
        let k = positions[i];
        if !counts_behind(before, work, trace, &positions[i + 1..n], last, wide) {
            keep(before, trace, k);
            positions[kept] = k;
            kept += 1;
        }
    }
    kept
}

// Passes over the positions in front of the last, each from a session started anew, until one drops nothing. How many are left.
fn passes(
    image: &[u8],
    before: &mut [u64],
    work: &mut [u64],
    trace: &[u8],
    positions: &mut [u8],
    last: usize,
    wide: usize,
) -> usize
    requires { Trimmable image.now trace.now positions.old before.old work.old last wide }
    ensures { Kept image.now trace.now positions.new last result }
{
    let mut n = last + 1;
    let mut kept = last;
    // Kept: no plainer. How many passes there are is not known before: the loop ends with the first pass that drops nothing.
    while kept < n {
        n = kept;
        let _ = session::start(image, before);
        kept = pass(before, work, trace, positions, n, last, wide);
    }
    kept
}

// ---- the rows that a trace names

// How many numbers at the front of a session have the rows that the records of the trace can change.
fn named_rows(trace: &[u8]) -> usize
    requires { length trace.now % record_length ≡ 0 }
    ensures { (result ≤ users_at) × Leaves trace.now result }
{
    let mut most: usize = 0;
    for i in 0..trace.len() / RECORD_LENGTH {
        let at = i * RECORD_LENGTH;
        let request = records::request_of(&trace[at..at + RECORD_LENGTH]);
        most = most.max(request.p).max(request.o);
    }
    if CONTAINER_LIMIT <= most {
        return USERS_AT;
    }
    (most + 1) * ROW_WIDTH
}

// ---- the whole

// Each place has its number.
fn number(positions: &mut [u8])
    requires { length positions.old ≡ trim_limit }
    ensures { positions.new ≡ count_from 0 trim_limit }
{
    for i in 0..TRIM_LIMIT {
        positions[i] = i as u8;
    }
}

// The kept positions of a trace of whole records, at the front of those given. How many they are, if the trace counts.
fn kept_positions(image: &[u8], trace: &[u8], positions: &mut [u8]) -> Option<usize>
    requires { (check_of image.now ≡ 0) × (whole_trace trace.now ≡ true) × (length positions.old ≡ trim_limit) }
    ensures { MatchOption result
        (cut_counts (start_of (policy_in image.now)) trace.now (last_of trace.now) (front_of trace.now) ≡ false)
        (Found image.now trace.now positions.new) }
{
    let mut before = [0u64; SESSION_LENGTH];
    let mut work = [0u64; SESSION_LENGTH];
    let last = trace.len() / RECORD_LENGTH - 1;
    number(positions);
    let _ = session::start(image, &mut work);
    if !cut_counts(&mut work, trace, &positions[0..last], last) {
        return None;
    }
    let wide = named_rows(trace);
    let kept = passes(image, &mut before, &mut work, trace, positions, last, wide);
    positions[kept] = last as u8;
    Some(kept + 1)
}

// The trace has whole records, from 1 to 256.
fn whole_trace(trace: &[u8]) -> bool
    ensures { result ≡ whole_trace trace.now }
{
    if trace.len() % RECORD_LENGTH != 0 {
        return false;
    }
    if trace.len() == 0 {
        return false;
    }
    trace.len() <= TRIM_LIMIT * RECORD_LENGTH
}

// The positions of the records to which the trace is trimmed, at the front of the output, which must have 256 bytes: how many they are, or
// the refusal, and then the output is as it was.
pub fn trim(image: &[u8], trace: &[u8], out: &mut [u8]) -> Result<usize, Refusal>
    ensures { (trimmed_of result ≡ trim_answer image.now trace.now out.old) × (out.new ≡ trim_effect image.now trace.now out.old) }
{
    if out.len() < TRIM_LIMIT {
        return Err(Refusal::LentLength);
    }
    image::check(image)?;
    if !whole_trace(trace) {
        return Err(Refusal::TrimTrace);
    }
    // Kept: a rule of the project: no heap, so the array has room for the most that there can be.
    let mut positions = [0u8; TRIM_LIMIT];
    let Some(kept) = kept_positions(image, trace, &mut positions) else {
        return Err(Refusal::TrimTrace);
    };
    out[..kept].copy_from_slice(&positions[..kept]);
    Ok(kept)
}
