// What the product answers: the refusal numbers, the answer to a record, and the tally of a run (the paper, "Operations" and
// "Refused because ..").
#![tactic(auto)]

ghost use Rattle.std.specs.Prelude.{◌≡◌, ◌<◌, ◌||◌, if◌then◌else◌};
ghost use Rattle.answers.specs.Answers.{received, is_quiet, is_alert, is_blocked, is_refused, accepted, received_of, answer_number, answer_with};
ghost use Rattle.answers.specs.Tallies.{more, no_tally, tallied};
ghost use Rattle.answers.specs.Outcomes.{refusal_number, outcome_number};

use std::num::wrapping_add_u64;

// ---- the refusals

// Why an input, or a record, is refused, with the paper's numbers.
#[derive(Clone, Copy, Debug, PartialEq, Eq)]
pub enum Refusal {
    // An image under 18 or over 20,480 bytes.
    ImageLength = 1,
    // The leading number or the pairs of an image.
    Sections = 2,
    // A section whose length is no multiple of its record's, or with too many records.
    RecordCount = 3,
    RuleRecord = 4,
    ContainerRecord = 5,
    // A user's rule number.
    UserRule = 6,
    OperationRecord = 7,
    Matrix = 8,
    // A session of the wrong length, or an output that is too short.
    LentLength = 9,
    // A row of the session that the record names.
    Row = 10,
    // The process is none.
    NoProcess = 11,
    // The object is of the wrong kind.
    WrongKind = 12,
    // The object is not free.
    NotFree = 13,
    // The user is not declared.
    NotDeclared = 14,
    // A meet of over 8 mixtures.
    OverLimit = 15,
    // A text of profiles: its length, its grammar, or a path profiled twice.
    ProfileText = 16,
    // Profiles with over 32 paths, or with a rule of over 8 mixtures.
    ProfileLimit = 17,
    // A new file for another user than the one on whose behalf the process runs.
    OtherUser = 18,
    // A trace of over 1,000,000 records.
    TraceLength = 19,
    // Two images of different shapes, or a consent that is not 32 bytes of 0 and 1.
    CompositionInput = 20,
    // Two images whose composition has a rule of over 8 mixtures, or over 256 rules.
    CompositionLimit = 21,
    // A trace that cannot be trimmed to its alert.
    TrimTrace = 22,
    // A game whose objects are not two, or of which a count is outside its bounds.
    GameBounds = 23,
    // An explanation of a number that is no container's or no atom's.
    ExplainBounds = 24,
    // An explanation of a trace whose last record is neither answered by an alert nor blocked.
    ExplainTrace = 25,
}

impl Refusal {
    // The paper's number.
    pub fn number(self) -> u32
        ensures { result ≡ refusal_number self }
    {
        self as u32
    }
}

// An outcome that gives nothing as one number: 0, or the refusal's.
pub fn outcome_number(outcome: Result<(), Refusal>) -> u32
    ensures { result ≡ outcome_number outcome }
{
    match outcome {
        Ok(()) => 0,
        Err(refusal) => refusal.number(),
    }
}

// The number of a quiet answer.
// Kept: the C interface: an answer goes to C as one number, which these and the refusals are.
pub const QUIET_NUMBER: u32 = 0;

// The number of an alert, apart from every refusal.
pub const ALERT_NUMBER: u32 = 256;

// The number of an access that was blocked.
pub const BLOCKED_NUMBER: u32 = 257;

// ---- the answer to a record

// What an access that was not refused is answered.
#[derive(Clone, Copy)]
pub enum Verdict {
    Quiet,
    Alert,
    Blocked,
}

// The receiver of an access, its tag afterwards, and the position of the first mixture of its permit rule that covers the tag; what
// these would be, where the access was blocked.
#[derive(Clone, Copy)]
pub struct Received {
    pub receiver: usize,
    pub tag: u64,
    pub position: u8,
}

// A verdict on what was received, or the refusal's number.
// Kept: what may not change: `answer_with` gives `Refused` with every number, and the definitions of the steps answer `refused n` by the number.
#[derive(Clone, Copy)]
pub enum Answer {
    Given(Verdict, Received),
    Refused(u32),
}

// The access was made, and is permitted.
pub fn is_quiet(answer: Answer) -> bool
    ensures { result ≡ is_quiet answer }
{
    matches!(answer, Answer::Given(Verdict::Quiet, _))
}

// The access was made, and is not permitted.
pub fn is_alert(answer: Answer) -> bool
    ensures { result ≡ is_alert answer }
{
    matches!(answer, Answer::Given(Verdict::Alert, _))
}

// The access would not be permitted, its receiver is guarded, and it was not made.
pub fn is_blocked(answer: Answer) -> bool
    ensures { result ≡ is_blocked answer }
{
    matches!(answer, Answer::Given(Verdict::Blocked, _))
}

// The access is not permitted: it was answered by an alert, or blocked.
pub fn is_forbidden(answer: Answer) -> bool
    ensures { result ≡ (is_alert answer || is_blocked answer) }
{
    matches!(answer, Answer::Given(Verdict::Alert | Verdict::Blocked, _))
}

// The record was refused.
pub fn is_refused(answer: Answer) -> bool
    ensures { result ≡ is_refused answer }
{
    matches!(answer, Answer::Refused(_))
}

// The access was made.
pub fn is_accepted(answer: Answer) -> bool
    ensures { result ≡ accepted answer }
{
    matches!(answer, Answer::Given(Verdict::Quiet | Verdict::Alert, _))
}

// The receiver, its tag and the position; zeros in a refusal.
pub fn received_of(answer: Answer) -> Received
    ensures { result ≡ received_of answer }
{
    match answer {
        Answer::Given(_, received) => received,
        Answer::Refused(_) => Received {
            receiver: 0,
            tag: 0,
            position: 0,
        },
    }
}

// The answer as one number.
pub fn number(answer: Answer) -> u32
    ensures { result ≡ answer_number answer }
{
    match answer {
        Answer::Given(Verdict::Quiet, _) => QUIET_NUMBER,
        Answer::Given(Verdict::Alert, _) => ALERT_NUMBER,
        Answer::Given(Verdict::Blocked, _) => BLOCKED_NUMBER,
        Answer::Refused(n) => n,
    }
}

// The answer that a number and what was received stand for: of a refusal the number alone.
pub fn answer_with(number: u32, receiver: u64, tag: u64, position: u32) -> Answer
    requires { position < 256 }
    ensures { result ≡ answer_with number (received receiver tag position) }
{
    let e = Received {
        receiver: receiver as usize,
        tag,
        position: position as u8,
    };
    if number == QUIET_NUMBER {
        return Answer::Given(Verdict::Quiet, e);
    }
    if number == ALERT_NUMBER {
        return Answer::Given(Verdict::Alert, e);
    }
    if number == BLOCKED_NUMBER {
        return Answer::Given(Verdict::Blocked, e);
    }
    Answer::Refused(number)
}

// ---- the tally of a run

// How many records there were, and how many of them were answered by an alert, and refused. The counts wrap at 2 to the 64.
#[derive(Clone, Copy)]
pub struct Tally {
    pub records: u64,
    pub alerts: u64,
    pub refused: u64,
}

// The tally before the first record.
pub fn no_tally() -> Tally
    ensures { result ≡ no_tally }
{
    Tally {
        records: 0,
        alerts: 0,
        refused: 0,
    }
}

// One more.
pub fn more(n: u64) -> u64
    ensures { result ≡ more n }
{
    wrapping_add_u64(n, 1)
}

// One more, or as many.
fn counted_if(counts: bool, n: u64) -> u64
    ensures { result ≡ (if counts then more n else n) }
{
    if counts {
        return more(n);
    }
    n
}

// The tally with one more record, which was answered so.
pub fn count(tally: Tally, answer: Answer) -> Tally
    ensures { result ≡ tallied tally answer }
{
    Tally {
        records: more(tally.records),
        alerts: counted_if(is_alert(answer), tally.alerts),
        refused: counted_if(is_refused(answer), tally.refused),
    }
}
