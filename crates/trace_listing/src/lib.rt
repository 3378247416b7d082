// The listing of a trace, part by part, into a lent buffer (the paper, "Checked examples").
#![tactic(auto)]

ghost use Rattle.std.specs.Prelude.{◌≡◌, ◌+◌, ◌≤◌, length, take};
ghost use Rattle.fields.specs.Writing.{Wrote};
ghost use Rattle.listing.specs.Buffer.{line_limit, buffer_size, ListedText};
ghost use Rattle.listing.specs.Lines.{heading, total_of, policy_line};
ghost use Rattle.trace_listing.specs.Listings.{record_line};
ghost use Rattle.trace_listing.specs.PartListings.{part_limit, ListedRecord, ListedPart};

use answers::{Answer, Tally};
use listing::BUFFER_SIZE;
use records::RECORD_LENGTH;

// The records of a part at most, and its bytes.
const PART_RECORDS: usize = 512;

pub const PART_LIMIT: usize = PART_RECORDS * RECORD_LENGTH;

// The tally of the records so far, and the place behind their lines.
#[derive(Clone, Copy)]
pub struct Listed {
    pub tally: Tally,
    pub end: usize,
}

// The line of a record.
fn put_record(out: &mut [u8], at: usize, step: u64, bytes: &[u8], answer: Answer) -> usize
    requires { at + line_limit ≤ length out.old }
    ensures { Wrote (record_line step bytes.now answer) out.old out.new at result }
{
    if bytes.len() != RECORD_LENGTH {
        return listing::put_short(out, at, step);
    }
    let q = records::request_of(bytes);
    listing::put_step(out, at, step, q.code as u64, q.p as u64, q.o as u64, answer)
}

// The line of a record behind those so far, and the record counted.
fn list_record(out: &mut [u8], run: Listed, bytes: &[u8], answer: Answer) -> Listed
    requires { run.end + line_limit ≤ length out.old }
    ensures { ListedRecord bytes.now answer run out.old out.new result }
{
    let tally = run.tally;
    let step = answers::more(tally.records);
    let end = put_record(out, run.end, step, bytes, answer);
    Listed {
        tally: answers::count(tally, answer),
        end,
    }
}

// The records of a part, each run on the session, listed and counted.
fn list_records(part: &[u8], session: &mut [u64], out: &mut [u8], begun: Tally) -> Listed
    requires { (length part.now ≤ part_limit) × (length out.old ≡ buffer_size) }
    ensures { ListedPart part.now begun session.old session.new out.old out.new result }
{
    let mut run = Listed {
        tally: begun,
        end: 0,
    };
    for bytes in part.chunks(RECORD_LENGTH) {
        let answer = monitor::step(session, bytes);
        run = list_record(out, run, bytes, answer);
    }
    run
}

// The first n bytes of a part, all of it where n is more: each record run on the session, listed into the buffer and counted
// behind those before it. Any bytes and any numbers end in a listing, and the buffer has room for it. A full part ends with a whole
// record.
pub fn list_part(
    part: &[u8; PART_LIMIT],
    n: usize,
    session: &mut [u64],
    out: &mut [u8; BUFFER_SIZE],
    begun: Tally,
) -> Listed
    ensures { (length part.now ≡ part_limit) × ListedPart (take n part.now) begun session.old session.new out.old out.new result }
{
    let whole: &[u8] = part;
    if n < whole.len() {
        return list_records(&whole[..n], session, out, begun);
    }
    list_records(whole, session, out, begun)
}

// ---- the other lines

// The first line, which names the fields.
pub fn list_heading(out: &mut [u8; BUFFER_SIZE]) -> usize
    ensures { ListedText heading out.old out.new result }
{
    listing::put_heading(out, 0)
}

// The last line.
pub fn list_total(out: &mut [u8; BUFFER_SIZE], tally: Tally) -> usize
    ensures { ListedText (total_of tally) out.old out.new result }
{
    listing::put_total(out, 0, tally.records, tally.alerts, tally.refused)
}

// The only line where the policy is refused.
pub fn list_refused(out: &mut [u8; BUFFER_SIZE], refusal: u32) -> usize
    ensures { ListedText (policy_line refusal) out.old out.new result }
{
    listing::put_policy_refused(out, 0, refusal as u64)
}
