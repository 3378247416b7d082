// The monitor: a record on a lent session, and a run over many records (the paper, "Operations" and "Refused ..").
#![tactic(auto)]

ghost use Rattle.std.specs.Prelude.{◌≡◌, ◌<◌};
ghost use Rattle.answers.specs.Refusals.{operation_record};
ghost use Rattle.answers.specs.Answers.{received, refused, answer_number, received_after};
ghost use Rattle.monitor.specs.Steps.{step_answer, step_effect};
ghost use Rattle.monitor.specs.Stops.{ran, ran_effect};

use answers::{Answer, Received, Refusal, Verdict};
use records::RECORD_LENGTH;
use session::SESSION_LENGTH;

// One step: the record on the session, which must have 5,536 numbers. Any bytes and any numbers end in an answer, whose number comes
// back; receiver, tag and position are written where they are lent, and a refusal leaves them. A record's bytes are read once, and 7 is
// answered before a frame is built.
pub fn step_into(
    session: &mut [u64],
    bytes: &[u8],
    receiver: &mut u64,
    tag: &mut u64,
    position: &mut u32,
) -> u32
    ensures { (result ≡ answer_number (step_answer session.old bytes.now))
        × (session.new ≡ step_effect session.old bytes.now)
        × (received receiver.new tag.new position.new
        ≡ received_after (step_answer session.old bytes.now) (received receiver.old tag.old position.old))
        × (position.old < 256 → position.new < 256) }
{
    if session.len() != SESSION_LENGTH {
        return Refusal::LentLength as u32;
    }
    if bytes.len() != RECORD_LENGTH {
        return Refusal::OperationRecord as u32;
    }
    let w = records::word_of(bytes);
    if !records::is_record_word(w) {
        return Refusal::OperationRecord as u32;
    }
    operations::perform_word(session, w, receiver, tag, position)
}

// The same with the answer by value.
pub fn step(session: &mut [u64], bytes: &[u8]) -> Answer
    ensures { (result ≡ step_answer session.old bytes.now) × (session.new ≡ step_effect session.old bytes.now) }
{
    let mut receiver: u64 = 0;
    let mut tag: u64 = 0;
    let mut position: u32 = 0;
    let number = step_into(session, bytes, &mut receiver, &mut tag, &mut position);
    answers::answer_with(number, receiver, tag, position)
}

// ---- a run

// What a run comes to: the answer at which it stops, and how many records it takes.
#[derive(Clone, Copy)]
pub struct Ran {
    pub answer: Answer,
    pub taken: usize,
}

// A run that stops at a record which 7 refuses.
fn refused_at(taken: usize) -> Ran
    ensures { result ≡ record { answer = refused operation_record; taken = taken } }
{
    Ran {
        answer: Answer::Refused(Refusal::OperationRecord as u32),
        taken,
    }
}

// The records of the trace on the session, which must have 5,536 numbers, up to and with the first that is not answered quiet. Any
// bytes and any numbers end in an answer.
pub fn run(session: &mut [u64], trace: &[u8]) -> Ran
    ensures { (result ≡ ran session.old trace.now) × (session.new ≡ ran_effect session.old trace.now) }
{
    if session.len() != SESSION_LENGTH {
        return Ran {
            answer: Answer::Refused(Refusal::LentLength as u32),
            taken: 0,
        };
    }
    let mut receiver: u64 = 0;
    let mut tag: u64 = 0;
    let mut position: u32 = 0;
    let mut taken: usize = 0;
    for bytes in trace.chunks(RECORD_LENGTH) {
        taken += 1;
        if bytes.len() != RECORD_LENGTH {
            return refused_at(taken);
        }
        let w = records::word_of(bytes);
        if !records::is_record_word(w) {
            return refused_at(taken);
        }
        let number = operations::perform_word(session, w, &mut receiver, &mut tag, &mut position);
        if number != answers::QUIET_NUMBER {
            return Ran {
                answer: answers::answer_with(number, receiver, tag, position),
                taken,
            };
        }
    }
    Ran {
        answer: Answer::Given(
            Verdict::Quiet,
            Received {
                receiver: 0,
                tag: 0,
                position: 0,
            },
        ),
        taken,
    }
}
