// The events of a trace: each record that is not answered quiet, with its place, gathered into lent numbers.
#![tactic(auto)]

ghost use Rattle.std.specs.Prelude.{◌≡◌, ◌+◌, ◌≤◌, length};
ghost use Rattle.fields.specs.Writing.{Wrote};
ghost use Rattle.events.specs.Events.{event_length, event_of, gathered_of, gathered, gather_session, gather_events};

use answers::{Answer, Refusal};
use records::RECORD_LENGTH;
use session::SESSION_LENGTH;

// The numbers of an event, and where each stands behind its place.
pub const EVENT_LENGTH: usize = 5;

const EVENT_ANSWER_AT: usize = 1;

const EVENT_RECEIVER_AT: usize = 2;

const EVENT_TAG_AT: usize = 3;

const EVENT_POSITION_AT: usize = 4;

// What is gathered: how many records are taken, and how many events are written.
#[derive(Clone, Copy)]
pub struct Gathered {
    pub taken: usize,
    pub written: usize,
}

// The event of the record at this place, which was answered so.
fn put_event(events: &mut [u64], at: usize, place: usize, answer: Answer)
    requires { at + event_length ≤ length events.old }
    ensures { Wrote (event_of place answer) events.old events.new at (at + event_length) }
{
    let received = answers::received_of(answer);
    events[at] = place as u64;
    events[at + EVENT_ANSWER_AT] = answers::number(answer) as u64;
    events[at + EVENT_RECEIVER_AT] = received.receiver as u64;
    events[at + EVENT_TAG_AT] = received.tag;
    events[at + EVENT_POSITION_AT] = received.position as u64;
}

// The records of the trace on the session, which must have 5,536 numbers, with an event for each that is not answered quiet, up to the first
// record for which there is no room for one more event. Any bytes and any numbers end in an answer.
pub fn gather_events(
    session: &mut [u64],
    trace: &[u8],
    events: &mut [u64],
) -> Result<Gathered, Refusal>
    ensures { (gathered_of result ≡ gathered session.old trace.now events.old)
        × (session.new ≡ gather_session session.old trace.now events.old)
        × (events.new ≡ gather_events session.old trace.now events.old) }
{
    if session.len() != SESSION_LENGTH {
        return Err(Refusal::LentLength);
    }
    if events.len() < EVENT_LENGTH {
        return Err(Refusal::LentLength);
    }
    let room = events.len() / EVENT_LENGTH;
    let mut taken: usize = 0;
    let mut written: usize = 0;
    for bytes in trace.chunks(RECORD_LENGTH) {
        let answer = monitor::step(session, bytes);
        let place = taken;
        taken += 1;
        if !answers::is_quiet(answer) {
            put_event(events, written * EVENT_LENGTH, place, answer);
            written += 1;
            if written == room {
                return Ok(Gathered { taken, written });
            }
        }
    }
    Ok(Gathered { taken, written })
}
