// The month's figures: the records of a trace counted by their answers, and the lines that show the counts (change request No. 6).
#![tactic(auto)]

ghost use Rattle.std.specs.Prelude.{◌≡◌, ℕ, ◌+◌, ◌*◌, ◌%◌, ◌^◌, ◌≤◌, [], ◌∷◌, ◌++◌, length, if◌then◌else◌, slice_index};
ghost use Rattle.answers.specs.Refusals.{trace_length};
ghost use Rattle.listing.specs.Text.{decimal};
ghost use Rattle.listing.specs.Lines.{newline, leading};
ghost use Rattle.listing.specs.Buffer.{field_limit};
ghost use Rattle.fields.specs.Writing.{Wrote};
ghost use Rattle.monitor.specs.PartSessions.{part_session};
ghost use Rattle.listing.specs.Buffer.{ListedText};
ghost use Rattle.figures.specs.Figures.{count_limit, test_at, too_many};
ghost use Rattle.figures.specs.Lines.{name_of, rate_fields, container_fields, trace_line, month_total_line};
ghost use Rattle.figures.specs.Counters.{counters, values_below, one_added, counts_with, alerted_with, counted, figures_in, total_with, part_counters};
ghost use Rattle.figures.specs.Buffer.{counts_text, alerted_text, figures_text, counts_limit, alerted_limit, figures_limit};

use answers::{Answer, Refusal};
use image::CONTAINER_LIMIT;
use listing::{BUFFER_SIZE, NEWLINE};
use records::RECORD_LENGTH;

// The records of a trace at most.
const RECORD_LIMIT: u64 = 1000000;

// The traces of a month at most.
pub const TRACE_LIMIT: usize = 64;

// The bytes of a trace's name.
pub const NAME_LENGTH: usize = 6;

// The code of the digit 0.
const ZERO: u8 = 48;

// The counts of a trace beside its records: of accepted steps, alerts, refused and blocked steps, in the order of the lines.
pub const COUNT_LIMIT: usize = 4;

// The places of two of them, of which the rate is made.
const ACCEPTED: usize = 0;

const ALERTS: usize = 1;

// ---- counting

// The answer is counted at this place.
fn passes(test: usize, answer: Answer) -> bool
    ensures { result ≡ test_at test answer }
{
    match test {
        0 => answers::is_accepted(answer),
        1 => answers::is_alert(answer),
        2 => answers::is_refused(answer),
        3 => answers::is_blocked(answer),
        _ => false,
    }
}

// One more at a place.
fn add_one(numbers: &mut [u32], k: usize)
    ensures { numbers.new ≡ one_added numbers.old k }
{
    if k < numbers.len() {
        numbers[k] = numbers[k].wrapping_add(1);
    }
}

// One more in the count of this test, if the answer passes it.
fn add_count(counts: &mut [u32], test: usize, answer: Answer)
    ensures { counts.new ≡ (if test_at test answer then one_added counts.old test else counts.old) }
{
    if passes(test, answer) {
        add_one(counts, test);
    }
}

// One more answer, in each count that it passes the test of.
fn add_counts(counts: &mut [u32], answer: Answer)
    requires { length counts.old ≡ count_limit }
    ensures { counts.new ≡ counts_with counts.old answer }
{
    for test in 0..COUNT_LIMIT {
        add_count(counts, test, answer);
    }
}

// One more alert of its receiver, if the answer is an alert.
fn add_alert(alerted: &mut [u32], answer: Answer)
    ensures { alerted.new ≡ alerted_with alerted.old answer }
{
    if !answers::is_alert(answer) {
        return;
    }
    match answer {
        Answer::Given(_, received) => add_one(alerted, received.receiver),
        Answer::Refused(_) => {}
    }
}

// One more record, which was answered so: the records with it.
fn add_answer(
    counts: &mut [u32; COUNT_LIMIT],
    alerted: &mut [u32],
    records: u64,
    answer: Answer,
) -> u64
    ensures { counters result counts.new alerted.new ≡ counted (counters records counts.old alerted.old) answer }
{
    add_counts(counts, answer);
    add_alert(alerted, answer);
    answers::more(records)
}

// A part of a trace: each record run on the session, and counted behind those before it. Any bytes and any numbers are counted.
pub fn add_part(
    part: &[u8],
    session: &mut [u64],
    counts: &mut [u32; COUNT_LIMIT],
    alerted: &mut [u32],
    begun: u64,
) -> u64
    ensures { (counters result counts.new alerted.new
        ≡ part_counters (counters begun counts.old alerted.old) session.old part.now)
        × (session.new ≡ part_session session.old part.now) }
{
    let mut records = begun;
    for bytes in part.chunks(RECORD_LENGTH) {
        let answer = monitor::step(session, bytes);
        records = add_answer(counts, alerted, records, answer);
    }
    records
}

// A trace of so many records is too long: it is left out, and nothing of it need be read any more.
pub fn too_long(records: u64) -> bool
    ensures { result ≡ too_many records }
{
    RECORD_LIMIT < records
}

// Each number added to its like.
fn add_numbers(total: &mut [u32], numbers: &[u32])
    requires { length total.old ≡ length numbers.now }
    ensures { total.new ≡ values_below (λ k. (slice_index total.old k + slice_index numbers.now k) % 2 ^ 32) (length numbers.now) }
{
    for (k, &n) in numbers.iter().enumerate() {
        total[k] = total[k].wrapping_add(n);
    }
}

// The counts of a trace added to those of the total, unless the trace is too long: the records in total.
pub fn add_total(
    totals: &mut [u32; COUNT_LIMIT],
    sums: &mut [u32; CONTAINER_LIMIT],
    total: u64,
    counts: &[u32; COUNT_LIMIT],
    alerted: &[u32; CONTAINER_LIMIT],
    records: u64,
) -> u64
    ensures { counters result totals.new sums.new
        ≡ total_with (counters total totals.old sums.old) (counters records counts.now alerted.now) }
{
    if too_long(records) {
        return total;
    }
    add_numbers(totals, counts);
    add_numbers(sums, alerted);
    total.wrapping_add(records)
}

// ---- the lines

// The name of a trace.
pub fn trace_name(n: usize) -> [u8; NAME_LENGTH]
    ensures { result ≡ name_of n }
{
    let tens = ZERO + (n / 10 % 10) as u8;
    let ones = ZERO + (n % 10) as u8;
    [tens, ones, b'.', b'b', b'i', b'n']
}

// A count behind another field.
fn put_count(out: &mut [u8], at: usize, n: u32) -> usize
    requires { at + field_limit ≤ length out.old }
    ensures { Wrote (leading (decimal n ∷ [])) out.old out.new at result }
{
    listing::put_field(out, at, n as u64)
}

// The counts, in their order.
fn put_counts(out: &mut [u8], at: usize, counts: &[u32; COUNT_LIMIT]) -> usize
    requires { at + counts_limit ≤ length out.old }
    ensures { Wrote (counts_text counts.now) out.old out.new at result }
{
    let mut next = at;
    for &n in counts {
        next = put_count(out, next, n);
    }
    next
}

// The rate: 1,000 times the alerts by the accepted steps, quotient and remainder, or `none`.
fn put_rate(out: &mut [u8], at: usize, alerts: u32, accepted: u32) -> usize
    requires { at + 2 * field_limit ≤ length out.old }
    ensures { Wrote (leading (rate_fields alerts accepted)) out.old out.new at result }
{
    if accepted == 0 {
        return listing::put_text(out, at, b" none");
    }
    let thousandfold = 1000 * (alerts as u64);
    let steps = accepted as u64;
    let next = listing::put_field(out, at, thousandfold / steps);
    listing::put_field(out, next, thousandfold % steps)
}

// Number and alerts of a container that alerted.
fn put_container_alerts(out: &mut [u8], at: usize, c: usize, alerts: u32) -> usize
    requires { at + 2 * field_limit ≤ length out.old }
    ensures { Wrote (leading (container_fields c alerts)) out.old out.new at result }
{
    if alerts == 0 {
        return at;
    }
    let next = listing::put_field(out, at, c as u64);
    put_count(out, next, alerts)
}

// Number and alerts of each container that alerted, rising.
fn put_alerted(out: &mut [u8], at: usize, alerted: &[u32; CONTAINER_LIMIT]) -> usize
    requires { at + alerted_limit ≤ length out.old }
    ensures { Wrote (alerted_text alerted.now) out.old out.new at result }
{
    let mut next = at;
    for (c, &alerts) in alerted.iter().enumerate() {
        next = put_container_alerts(out, next, c, alerts);
    }
    next
}

// All that stands behind the name.
fn put_figures(
    out: &mut [u8],
    at: usize,
    counts: &[u32; COUNT_LIMIT],
    alerted: &[u32; CONTAINER_LIMIT],
) -> usize
    requires { at + figures_limit ≤ length out.old }
    ensures { (records : ℕ) → Wrote (figures_text (figures_in (counters records counts.now alerted.now))) out.old out.new at result }
{
    let rate = put_counts(out, at, counts);
    let alerts = put_rate(out, rate, counts[ALERTS], counts[ACCEPTED]);
    let end = put_alerted(out, alerts, alerted);
    out[end] = NEWLINE;
    end + 1
}

// The end of the line of a trace that is too long.
fn put_too_long(out: &mut [u8], at: usize) -> usize
    requires { at + figures_limit ≤ length out.old }
    ensures { Wrote (leading (decimal trace_length ∷ []) ++ (newline ∷ [])) out.old out.new at result }
{
    let end = listing::put_field(out, at, Refusal::TraceLength as u64);
    out[end] = NEWLINE;
    end + 1
}

// The line of a trace: its figures, or 19.
pub fn put_trace(
    out: &mut [u8; BUFFER_SIZE],
    n: usize,
    records: u64,
    counts: &[u32; COUNT_LIMIT],
    alerted: &[u32; CONTAINER_LIMIT],
) -> usize
    ensures { ListedText (trace_line n (figures_in (counters records counts.now alerted.now))) out.old out.new result }
{
    let name = trace_name(n);
    let next = listing::put_text(out, 0, &name);
    if too_long(records) {
        return put_too_long(out, next);
    }
    put_figures(out, next, counts, alerted)
}

// The last line.
pub fn put_total(
    out: &mut [u8; BUFFER_SIZE],
    counts: &[u32; COUNT_LIMIT],
    alerted: &[u32; CONTAINER_LIMIT],
) -> usize
    ensures { (records : ℕ) → ListedText (month_total_line (figures_in (counters records counts.now alerted.now))) out.old out.new result }
{
    let next = listing::put_text(out, 0, b"total");
    put_figures(out, next, counts, alerted)
}
