// The figures of a trace in lent numbers of 64 bits, and figures added to a total: the counts of the month's figures (crates/figures), for callers.
#![tactic(auto)]

ghost use Rattle.std.specs.Prelude.{◌≡◌, ◌+◌, ◌<◌, ◌≤◌, length, slice_index};
ghost use Rattle.answers.specs.Outcomes.{outcome_number};
ghost use Rattle.totals.specs.Totals.{figures_length, total_refusal, total_numbers, total_session, add_refusal, add_figures};
ghost use Rattle.totals.specs.Places.{refused_count_at, blocked_count_at, count_place, one_counted, event_counted, finished};

use answers::{Answer, Refusal, Verdict};
use image::CONTAINER_LIMIT;
use records::RECORD_LENGTH;
use session::SESSION_LENGTH;

// Where each number of figures stands, and how many there are: the records, those accepted, the alerts, those refused and blocked, then the
// alerts of each container.
const RECORDS_AT: usize = 0;

const ACCEPTED_AT: usize = 1;

const ALERTS_AT: usize = 2;

const REFUSED_AT: usize = 3;

const BLOCKED_AT: usize = 4;

const CONTAINERS_AT: usize = 5;

pub const FIGURES_LENGTH: usize = CONTAINERS_AT + CONTAINER_LIMIT;

// ---- counting

// One more at a place.
fn add_at(figures: &mut [u64], k: usize)
    requires { k < length figures.old }
    ensures { figures.new ≡ one_counted figures.old k }
{
    figures[k] = answers::more(figures[k]);
}

// The last count that an answer belongs to.
fn count_place(answer: Answer) -> usize
    ensures { result ≡ count_place answer }
{
    match answer {
        Answer::Given(verdict, _) => match verdict {
            Verdict::Quiet => ACCEPTED_AT,
            Verdict::Alert => ALERTS_AT,
            Verdict::Blocked => BLOCKED_AT,
        },
        Answer::Refused(_) => REFUSED_AT,
    }
}

// One more record, which was not answered quiet.
fn add_event(figures: &mut [u64], answer: Answer)
    requires { length figures.old ≡ figures_length }
    ensures { figures.new ≡ event_counted figures.old answer }
{
    add_at(figures, count_place(answer));
    if !answers::is_alert(answer) {
        return;
    }
    let received = answers::received_of(answer);
    let receiver = received.receiver;
    if receiver < CONTAINER_LIMIT {
        add_at(figures, CONTAINERS_AT + receiver);
    }
}

// So many records in all: those that are neither refused nor blocked are accepted.
fn finish(figures: &mut [u64], records: u64)
    requires { (length figures.old ≡ figures_length) × (slice_index figures.old refused_count_at + slice_index figures.old blocked_count_at ≤ records) }
    ensures { figures.new ≡ finished figures.old records }
{
    let accepted = records - figures[REFUSED_AT] - figures[BLOCKED_AT];
    figures[RECORDS_AT] = records;
    figures[ACCEPTED_AT] = accepted;
}

// The figures of the records of the trace, run on the session to their end; 9 unless the session has 5,536 numbers and the figures
// 261, and all is as it was. Any bytes and any numbers are counted.
pub fn count_trace(session: &mut [u64], trace: &[u8], figures: &mut [u64]) -> Result<(), Refusal>
    ensures { (outcome_number result ≡ total_refusal session.old figures.old)
        × (session.new ≡ total_session session.old trace.now figures.old)
        × (figures.new ≡ total_numbers session.old trace.now figures.old) }
{
    if session.len() != SESSION_LENGTH {
        return Err(Refusal::LentLength);
    }
    if figures.len() != FIGURES_LENGTH {
        return Err(Refusal::LentLength);
    }
    figures.fill(0);
    let mut records: u64 = 0;
    for bytes in trace.chunks(RECORD_LENGTH) {
        let answer = monitor::step(session, bytes);
        records += 1;
        if !answers::is_quiet(answer) {
            add_event(figures, answer);
        }
    }
    finish(figures, records);
    Ok(())
}

// ---- sums

// Each number of the figures added to its like in the total; 9 unless both have 261, and all is as it was. The sums wrap at 2 to the 64.
pub fn add(total: &mut [u64], figures: &[u64]) -> Result<(), Refusal>
    ensures { (outcome_number result ≡ add_refusal total.old figures.now)
        × (total.new ≡ add_figures total.old figures.now) }
{
    if total.len() != FIGURES_LENGTH {
        return Err(Refusal::LentLength);
    }
    if figures.len() != FIGURES_LENGTH {
        return Err(Refusal::LentLength);
    }
    for (k, &n) in figures.iter().enumerate() {
        total[k] = total[k].wrapping_add(n);
    }
    Ok(())
}
