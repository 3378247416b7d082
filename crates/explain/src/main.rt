// The explain program: for each record of `trace.bin` that is answered by an alert or blocked, in a session started from `policy.bin`, the
// rule that forbids, the atom that each of its mixtures lacks, and how that came to the receiver. Both files are in the working folder. The text is
// `explanations_of` of the two files: its lines are those of `explanations`, and the loops here run, explain and write. What fails
// outside is told on standard error, and there is then no total line. `sent` counts the bytes handed to standard output.
#![tactic(auto)]

ghost use Rattle.std.specs.Prelude.{◌≡◌, cond, [], ◌+◌, ◌≤◌, ◌<◌, length, take, drop, get_or};
ghost use Rattle.lists.specs.Lists.{elem};
ghost use Rattle.fields.specs.Bytes.{Bytes};
ghost use Rattle.rules.specs.Answers.{tag_width};
ghost use Rattle.image.specs.Limits.{container_limit};
ghost use Rattle.image.specs.Policy.{rule_at};
ghost use Rattle.image.specs.Image.{check_of, policy_in};
ghost use Rattle.session.specs.Session.{start_of};
ghost use Rattle.certificate.specs.Whys.{answered, why_chain_at, why_atoms_at};
ghost use Rattle.answers.specs.Answers.{is_blocked};
ghost use Rattle.answers.specs.Outcomes.{refusal_number};
ghost use Rattle.listing.specs.Lines.{leading, policy_line};
ghost use Rattle.explanations.specs.Lines.{step_fields};
ghost use Rattle.explanations.specs.Buffer.{ended};
ghost use Rattle.files.specs.Calls as calls;
ghost use Rattle.files.specs.Calls.{DoneOrTold, Handed};
ghost use Rattle.explain.specs.Texts.{way_text, mixtures_of, mixtures_text, explanation_text, is_forbidden, trace_text};
ghost use Rattle.explain.specs.Runs.{trace_size, record_limit, Asked, WhyNumbers, rule_told, mixture_text, RecordsShown, TraceExplained, ExplanationsShown};

use answers::{Answer, Refusal};
use certificate::{
    WHY_ATOMS_AT, WHY_CHAIN_AT, WHY_COUNT_AT, WHY_HOLDER_AT, WHY_KIND_AT, WHY_LENGTH, WHY_OWNER_AT,
    WHY_RECEIVER_AT, WHY_RECORD_AT, WHY_RULE_AT,
};
use explanations::BUFFER_SIZE;
use files::Failure;
use image::CONTAINER_LIMIT;
use records::RECORD_LENGTH;
use session::SESSION_LENGTH;

// One byte more than a policy may have: a longer file is refused for its length and not read further.
const POLICY_ROOM: usize = image::IMAGE_LIMIT + 1;

// The most records of a trace, its bytes, and one byte more: a longer file is told and not read further.
const RECORD_LIMIT: usize = 131072;

const TRACE_SIZE: usize = RECORD_LIMIT * RECORD_LENGTH;

const TRACE_ROOM: usize = TRACE_SIZE + 1;

// The links that so many records need.
const LINKS_LENGTH: usize = witness::FIRST_NODE + 2 * RECORD_LIMIT;

// What a session was given: an accepted policy, and a trace of no more records than are explained.
#[derive(Clone, Copy)]
struct Given<'a> {
    image: &'a [u8],
    trace: &'a [u8],
    ghost bytes: { Bytes image.now },
    ghost accepted: { check_of image.now ≡ 0 },
    ghost few: { length trace.now ≤ trace_size },
}

// What an explanation is found in and handed on from: the links and the steps of a chain, the buffer of a line, and the count of the bytes
// that standard output took.
#[derive(Drop)]
struct Explainer<'a> {
    rt: &'a HostRuntime,
    links: [u64; LINKS_LENGTH],
    steps: [u64; RECORD_LIMIT],
    out: [u8; BUFFER_SIZE],
    sent: u64,
}

// How many records a trace has, and how many of them are explained.
#[derive(Clone, Copy)]
struct Counts {
    records: u64,
    explained: u64,
}

// The steps of a chain, each part handed on before the next is written.
fn hand_steps(
    rt: &HostRuntime,
    numbers: &[u64],
    out: &mut [u8; BUFFER_SIZE],
    sent: &mut u64,
) -> Result<(), Failure>
    ensures { DoneOrTold result (λ _. Handed (leading (step_fields numbers.now)) sent.old sent.new) }
{
    let mut at: usize = 0;
    // Kept: `explanations::part_at`, which may not change, gives the part that begins at a place.
    while at < numbers.len() {
        let part = explanations::part_at(numbers, at);
        let end = explanations::put_steps(out, 0, part);
        files::write_front(rt, out, end, sent)?;
        at += part.len();
    }
    Ok(())
}

// Whether an earlier mixture lacks the same atom as mixture number j.
fn lacked_before(why: &[u64], j: usize) -> bool
    requires { why_atoms_at + j < length why.now }
    ensures { result ≡ elem (get_or why.now (why_atoms_at + j) 0) (take j (drop why_atoms_at why.now)) }
{
    explanations::is_among(&why[WHY_ATOMS_AT..WHY_ATOMS_AT + j], why[WHY_ATOMS_AT + j])
}

// One more, if the answer is explained.
fn explained_with(explained: u64, answer: Answer) -> u64
    requires { explained < record_limit }
    ensures { result ≡ cond (is_forbidden answer) (explained + 1) explained }
{
    if answers::is_forbidden(answer) {
        return explained + 1;
    }
    explained
}

// The trace has more records than are explained.
fn tell_too_long(rt: &HostRuntime)
    ensures { calls.Told }
{
    files::tell(rt, b"trace.bin: over 131,072 records\n");
}

impl Given<'_> {
    // Mixture number j of a rule of the image, as it stands there.
    fn mixture(&self, rule: usize, j: usize) -> u64
        requires { j < length (rule_at (policy_in self.now.image.now).rules rule) }
        ensures { result ≡ get_or (rule_at (policy_in self.now.image.now).rules rule) j 0 }
    {
        let bounded = certificate::rule_at(self.image, rule);
        let mixtures = bounded.mixtures;
        mixtures[j]
    }
}

impl Explainer<'_> {
    // A line that ends with the steps of a chain, which are the numbers from `first` on: what stands before them is at the front of the buffer.
    fn hand_line(&mut self, end: usize, first: usize) -> Result<(), Failure>
        requires { first ≤ length self.old.steps }
        ensures { DoneOrTold result (λ _. Handed (ended (take end self.old.out) (drop first self.old.steps)) self.old.sent self.new.sent) }
    {
        let Explainer {
            rt,
            steps,
            out,
            sent,
            ..
        } = self;
        files::write_front(rt, out, end, sent)?;
        hand_steps(rt, &steps[first..], out, sent)?;
        files::write_whole(rt, b"\n", sent)
    }

    // ---- one explanation

    // How an atom came into a container.
    fn show_way(&mut self, given: &Given, c: usize, atom: usize) -> Result<(), Failure>
        requires { (c < container_limit) × (atom < tag_width) }
        ensures { DoneOrTold result (λ _. Handed (way_text given.now.image.now given.now.trace.now c atom) self.old.sent self.new.sent) }
    {
        let Given { image, trace } = *given;
        let explained = witness::explain(image, trace, c, atom, &mut self.links, &mut self.steps);
        let found = explained.unwrap();
        let file = found.file.unwrap_or(CONTAINER_LIMIT);
        let end = explanations::put_way(&mut self.out, 0, atom as u64, file as u64);
        self.hand_line(end, found.first)
    }

    // A mixture, the atom that it lacks and, unless an earlier one lacks the same, how that came to the receiver.
    fn show_mixture(
        &mut self,
        given: &Given,
        why: &[u64; WHY_LENGTH],
        j: usize,
    ) -> Result<(), Failure>
        requires { Asked given.now.image.now given.now.trace.now × WhyNumbers given.now.image.now given.now.trace.now why.now
            × (j < length (mixtures_of given.now.image.now given.now.trace.now)) }
        ensures { DoneOrTold result (λ _. Handed (mixture_text given.now.image.now given.now.trace.now j) self.old.sent self.new.sent) }
    {
        let atom = why[WHY_ATOMS_AT + j];
        let mixture = given.mixture(why[WHY_RULE_AT] as usize, j);
        let end = explanations::put_lacks(&mut self.out, 0, mixture, atom);
        files::write_front(self.rt, &self.out, end, &mut self.sent)?;
        if lacked_before(why, j) {
            return Ok(());
        }
        self.show_way(given, why[WHY_RECEIVER_AT] as usize, atom as usize)
    }

    // The mixtures of the rule.
    fn show_mixtures(&mut self, given: &Given, why: &[u64; WHY_LENGTH]) -> Result<(), Failure>
        requires { Asked given.now.image.now given.now.trace.now × WhyNumbers given.now.image.now given.now.trace.now why.now }
        ensures { DoneOrTold result (λ _. Handed (mixtures_text given.now.image.now given.now.trace.now) self.old.sent self.new.sent) }
    {
        for j in 0..why[WHY_COUNT_AT] as usize {
            self.show_mixture(given, why, j)?;
        }
        Ok(())
    }

    // The rule that forbids.
    fn show_rule(&mut self, why: &[u64; WHY_LENGTH]) -> Result<(), Failure>
        requires { get_or why.now why_chain_at 0 ≤ record_limit }
        ensures { DoneOrTold result (λ _. Handed (rule_told why.now self.old.steps) self.old.sent self.new.sent) }
    {
        let end = explanations::put_rule(
            &mut self.out,
            0,
            why[WHY_KIND_AT],
            why[WHY_RULE_AT],
            why[WHY_OWNER_AT],
            why[WHY_RECORD_AT],
            why[WHY_HOLDER_AT],
        );
        self.hand_line(end, why[WHY_CHAIN_AT] as usize)
    }

    // The last record of a trace, which is answered by an alert or blocked.
    fn show_explanation(&mut self, given: &Given, n: u64, blocked: bool) -> Result<(), Failure>
        requires { Asked given.now.image.now given.now.trace.now × (blocked ≡ is_blocked (answered given.now.image.now given.now.trace.now)) }
        ensures { DoneOrTold result (λ _. Handed (explanation_text given.now.image.now given.now.trace.now n) self.old.sent self.new.sent) }
    {
        let mut told = [0u64; WHY_LENGTH];
        let Given { image, trace } = *given;
        let _ = certificate::why(image, trace, &mut self.links, &mut self.steps, &mut told);
        let end = explanations::put_found(&mut self.out, 0, blocked, n, told[WHY_RECEIVER_AT]);
        files::write_front(self.rt, &self.out, end, &mut self.sent)?;
        self.show_rule(&told)?;
        self.show_mixtures(given, &told)
    }

    // ---- the trace

    // The last record of a trace, which is answered so.
    fn show_record(&mut self, given: &Given, n: u64, answer: Answer) -> Result<(), Failure>
        requires { answer ≡ answered given.now.image.now given.now.trace.now }
        ensures { DoneOrTold result (λ _.
            Handed (cond (is_forbidden answer) (explanation_text given.now.image.now given.now.trace.now n) []) self.old.sent self.new.sent) }
    {
        if !answers::is_forbidden(answer) {
            return Ok(());
        }
        self.show_explanation(given, n, answers::is_blocked(answer))
    }

    // The records of a trace, each run on the session and explained.
    fn show_records(
        &mut self,
        given: &Given,
        session: &mut [u64; SESSION_LENGTH],
    ) -> Result<Counts, Failure>
        requires { session.old ≡ start_of (policy_in given.now.image.now) }
        ensures { DoneOrTold result (λ counts.
            RecordsShown given.now.image.now given.now.trace.now counts.records counts.explained self.old.sent self.new.sent) }
    {
        let Given { image, trace } = *given;
        let mut at: usize = 0;
        let mut records: u64 = 0;
        let mut explained: u64 = 0;
        // Kept: no plainer, since a record is explained by the trace up to its end, so that its place is counted even beside `chunks`.
        while at < trace.len() {
            let bytes = records::record_at(trace, at);
            let answer = monitor::step(session, bytes);
            at += bytes.len();
            let up_to = Given {
                image,
                trace: &trace[..at],
            };
            self.show_record(&up_to, records, answer)?;
            explained = explained_with(explained, answer);
            records += 1;
        }
        Ok(Counts { records, explained })
    }

    // The explanations and the total line, as far as nothing fails.
    fn show_trace(
        &mut self,
        given: &Given,
        session: &mut [u64; SESSION_LENGTH],
    ) -> Result<(), Failure>
        requires { session.old ≡ start_of (policy_in given.now.image.now) }
        ensures { DoneOrTold result (λ _. Handed (trace_text given.now.image.now given.now.trace.now) self.old.sent self.new.sent) }
    {
        let counts = self.show_records(given, session)?;
        let end = explanations::put_total(&mut self.out, 0, counts.records, counts.explained);
        files::write_front(self.rt, &self.out, end, &mut self.sent)
    }

    // ---- the files

    // The trace of the file. A missing one has no record.
    fn show_file(
        &mut self,
        image: &[u8],
        trace: &mut [u8],
        session: &mut [u64; SESSION_LENGTH],
    ) -> Result<(), Failure>
        requires { (check_of image.now ≡ 0) × (session.old ≡ start_of (policy_in image.now)) × (length trace.old ≡ trace_size + 1) }
        ensures { DoneOrTold result (λ _. TraceExplained image.now self.old.sent self.new.sent) }
    {
        let n = files::load(self.rt, b"trace.bin", trace)?;
        if TRACE_SIZE < n {
            tell_too_long(self.rt);
            return Err(Failure);
        }
        let given = Given {
            image,
            trace: &trace[..n],
        };
        self.show_trace(&given, session)
    }

    // The one line of a refused policy.
    fn refuse(&mut self, refusal: Refusal) -> Result<(), Failure>
        ensures { DoneOrTold result (λ _. Handed (policy_line (refusal_number refusal)) self.old.sent self.new.sent) }
    {
        let end = listing::put_policy_refused(&mut self.out, 0, refusal.number() as u64);
        files::write_front(self.rt, &self.out, end, &mut self.sent)
    }

    // Both files.
    fn show_files(&mut self, trace: &mut [u8; TRACE_ROOM]) -> Result<(), Failure>
        ensures { DoneOrTold result (λ _. ExplanationsShown self.old.sent self.new.sent) }
    {
        // The session's buffer, which the start fills.
        let mut session = [0u64; SESSION_LENGTH];
        // Kept: a rule of the project: no heap, so the array has room for the most that there can be.
        let mut policy = [0u8; POLICY_ROOM];
        let n = files::load(self.rt, b"policy.bin", &mut policy)?;
        if let Err(refusal) = session::start(&policy[..n], &mut session) {
            return self.refuse(refusal);
        }
        self.show_file(&policy[..n], trace, &mut session)
    }
}

// The whole program, with room for the trace and for the chains.
fn show_explanations(rt: &HostRuntime, sent: &mut u64) -> Result<(), Failure>
    ensures { DoneOrTold result (λ _. ExplanationsShown sent.old sent.new) }
{
    let mut trace = [0u8; TRACE_ROOM];
    let mut explainer = Explainer {
        rt,
        links: [0; LINKS_LENGTH],
        steps: [0; RECORD_LIMIT],
        out: [0; BUFFER_SIZE],
        sent: *sent,
    };
    let shown = explainer.show_files(&mut trace);
    *sent = explainer.sent;
    shown
}

fn main(rt: HostRuntime) {
    let mut sent: u64 = 0;
    let _ = show_explanations(&rt, &mut sent);
}
