// Why the last record of a trace is answered by an alert or blocked: the rule that forbids, where it comes from, and an atom that each
// of its mixtures lacks (the paper, "Chains").
#![tactic(auto)]

ghost use Rattle.std.specs.Prelude.{◌≡◌, true, false, MatchOption, map, ◌+◌, ◌/◌, ◌^◌, ◌≤◌, ◌<◌, length, take, drop};
ghost use Rattle.std.proofs.Math.ListN.{get_elem?};
ghost use Rattle.answers.specs.Outcomes.{outcome_number};
ghost use Rattle.fields.specs.Writing.{overwritten};
ghost use Rattle.rules.specs.Answers.{tag_width, mixture_limit, padded, bounded_of};
ghost use Rattle.image.specs.Limits.{container_limit, mixture_size};
ghost use Rattle.image.specs.Policy.{rule_at, owner_at};
ghost use Rattle.image.specs.Image.{mixtures_in, check_of, policy_in};
ghost use Rattle.records.specs.Records.{step_in, Asked};
ghost use Rattle.records.specs.Traces.{trace_records};
ghost use Rattle.monitor.specs.Steps.{step_answer, step_effect};
ghost use Rattle.monitor.specs.Runs.{run_answers, run_effect};
ghost use Rattle.witness.specs.Found.{found_numbers, Inside};
ghost use Rattle.witness.specs.Told.{at_end};
ghost use Rattle.certificate.specs.Origins.{lacks_at, lacked_by};
ghost use Rattle.certificate.specs.Whys.{permit_of, run_of, user_number, covers_by, no_reason, own_reason, user_reason};
ghost use Rattle.certificate.specs.Whys.{why_length, last_answer, forbidden_last, why_refusal, why_effect, why_steps, why_links};
ghost use Rattle.certificate.specs.Marks.{next_mark, marks_on, marks_all, own_marks, judgement_of, MarkGood};
ghost use Rattle.certificate.specs.Marks.{forbids_at, Roomy, FileFound, Searched, told_of, run_told, exec_at, exec_links, mark_reason, mark_links, numbers_by};

use answers::{Answer, Received, Refusal, Verdict};
use image::{Accepted, CONTAINER_LIMIT};
use records::{RECORD_LENGTH, Request};
use rules::{Bounded, MIXTURE_LIMIT, TAG_WIDTH};
use session::SESSION_LENGTH;
use witness::Found;

// ---- the atom that a mixture lacks

// The tag has the atom k, and the mixture lacks it.
fn lacks(tag: u64, mixture: u64, k: usize) -> bool
    requires { k < tag_width }
    ensures { result ≡ lacks_at tag mixture k }
{
    if (tag >> k) % 2 == 0 {
        return false;
    }
    (mixture >> k) % 2 == 0
}

// The least atom of the tag that the mixture lacks; 64 if it holds them all.
fn lacked_by(tag: u64, mixture: u64) -> u64
    ensures { result ≡ lacked_by tag mixture }
{
    for k in 0..TAG_WIDTH {
        if lacks(tag, mixture, k) {
            return k as u64;
        }
    }
    TAG_WIDTH as u64
}

// Of each of the mixtures, zeros behind.
fn lacked(tag: u64, mixtures: &[u64]) -> [u64; MIXTURE_LIMIT]
    requires { length mixtures.now ≤ mixture_limit }
    ensures { result ≡ padded (map (lacked_by tag) mixtures.now) }
{
    let mut atoms = [0u64; MIXTURE_LIMIT];
    for (i, &mixture) in mixtures.iter().enumerate() {
        atoms[i] = lacked_by(tag, mixture);
    }
    atoms
}

// ---- origins

// The origin of a container as a mark: below 256 the container of the image whose own permit rule it is, 256 for none, and 257 + n for
// the new file or the exec that is record number n.
// Kept: a rule of the project: the marks stand in one array of 256 numbers, a mark being a container's or a record's number, or nowhere.
const NOWHERE_MARK: usize = 256;

const FIRST_MARK: usize = 257;

// The mark that record number n, which asks for q, leaves at its receiver.
fn next_mark(marks: &[u64], n: usize, q: Request) -> u64
    requires { (length marks.now ≡ container_limit) × (n < 2 ^ 62) × Asked q }
    ensures { result ≡ next_mark marks.now n (step_in q) }
{
    let p = q.p;
    if q.code == records::EXEC_CODE {
        return (FIRST_MARK + n) as u64;
    }
    if q.code == records::NEW_FILE_CODE {
        return (FIRST_MARK + n) as u64;
    }
    if q.code == records::FORK_CODE {
        return marks[p];
    }
    if records::NEW_VOLATILE_CODE <= q.code {
        return NOWHERE_MARK as u64;
    }
    let to = witness::receiver_of(q);
    marks[to]
}

// Record number n on the session, and its mark where it is accepted: the answer.
fn follow_record(session: &mut [u64], bytes: &[u8], marks: &mut [u64], n: usize) -> Answer
    requires { (length marks.old ≡ container_limit) × (n < 2 ^ 62) }
    ensures { (result ≡ step_answer session.old bytes.now)
        × (session.new ≡ step_effect session.old bytes.now)
        × (marks.new ≡ marks_on marks.old n session.old bytes.now) }
{
    let answer = monitor::step(session, bytes);
    if !answers::is_accepted(answer) {
        return answer;
    }
    let q = records::request_of(bytes);
    let to = witness::receiver_of(q);
    let mark = next_mark(marks, n, q);
    marks[to] = mark;
    answer
}

// The records of a trace on the session, one after the other: the last answer; quiet, with zeros, if there is none.
fn follow_trace(session: &mut [u64], trace: &[u8], marks: &mut [u64]) -> Answer
    requires { length marks.old ≡ container_limit }
    ensures { (result ≡ last_answer (run_answers session.old (trace_records trace.now)))
        × (session.new ≡ run_effect session.old (trace_records trace.now))
        × (marks.new ≡ marks_all marks.old 0 session.old (trace_records trace.now)) }
{
    let mut answer = Answer::Given(
        Verdict::Quiet,
        Received {
            receiver: 0,
            tag: 0,
            position: 0,
        },
    );
    for (n, bytes) in trace.chunks(RECORD_LENGTH).enumerate() {
        answer = follow_record(session, bytes, marks, n);
    }
    answer
}

// Each container has its own mark.
fn mark_own(marks: &mut [u64])
    requires { length marks.old ≡ container_limit }
    ensures { marks.new ≡ own_marks }
{
    for c in 0..CONTAINER_LIMIT {
        marks[c] = c as u64;
    }
}

// The last answer to a trace, which forbids: its receiver and tag, and the mark of the receiver.
#[derive(Clone, Copy)]
pub struct Judgement {
    pub receiver: usize,
    pub tag: u64,
    pub mark: usize,
}

// The trace on the session that the image starts; none if its last answer does not forbid.
#[inline(never)]
fn judgement_of(image: Accepted<'_>, trace: &[u8]) -> Option<Judgement>
    ensures { MatchOption result (forbidden_last image.entry.bytes.now trace.now ≡ false)
        (λ j. (forbidden_last image.entry.bytes.now trace.now ≡ true) × (j ≡ judgement_of image.entry.bytes.now trace.now)) }
{
    let mut session = [0u64; SESSION_LENGTH];
    let mut marks = [0u64; CONTAINER_LIMIT];
    mark_own(&mut marks);
    let Ok(()) = session::start(image.bytes, &mut session) else {
        unreachable!();
    };
    let answer = follow_trace(&mut session, trace, &mut marks);
    if !answers::is_forbidden(answer) {
        return None;
    }
    let received = answers::received_of(answer);
    let receiver = received.receiver;
    Some(Judgement {
        receiver,
        tag: received.tag,
        mark: marks[receiver] as usize,
    })
}

// ---- the rules of an image that is not refused

// The number of the rule of user u; that of the unrestricted rule if there is no such user.
fn user_number(image: Accepted<'_>, u: usize) -> usize
    ensures { result ≡ user_number (policy_in image.entry.bytes.now) u }
{
    let users = image.section(1);
    if users.len() / image::USER_SIZE <= u {
        return image::UNRESTRICTED_NUMBER;
    }
    fields::read16(users, u * image::USER_SIZE)
}

// The number of the permit rule of container c; that of the unrestricted rule if there is no such container.
fn permit_number(image: Accepted<'_>, c: usize) -> usize
    ensures { result ≡ permit_of (get_elem? (policy_in image.entry.bytes.now).containers c) }
{
    let containers = image.section(0);
    if containers.len() / image::CONTAINER_SIZE <= c {
        return image::UNRESTRICTED_NUMBER;
    }
    fields::read16(
        containers,
        c * image::CONTAINER_SIZE + image::CONTAINER_PERMIT_AT,
    )
}

// The number of its run rule.
// Kept: no plainer: one function with the place of the field as a parameter would have a contract by cases of that place.
fn run_number(image: Accepted<'_>, c: usize) -> usize
    ensures { result ≡ run_of (get_elem? (policy_in image.entry.bytes.now).containers c) }
{
    let containers = image.section(0);
    if containers.len() / image::CONTAINER_SIZE <= c {
        return image::UNRESTRICTED_NUMBER;
    }
    fields::read16(
        containers,
        c * image::CONTAINER_SIZE + image::CONTAINER_RUN_AT,
    )
}

// The owner of the rule with the number n.
fn owner_at(image: Accepted<'_>, n: usize) -> usize
    ensures { result ≡ owner_at (policy_in image.entry.bytes.now).owners n }
{
    let rules = image.section(2);
    if n == image::UNRESTRICTED_NUMBER {
        return image::NO_OWNER;
    }
    if rules.len() / image::RULE_SIZE <= n {
        return image::NO_OWNER;
    }
    fields::read16(rules, n * image::RULE_SIZE + image::RULE_OWNER_AT)
}

// The `count` mixtures from `first` on, in the image's own order.
fn span_rule(m: &[u8], first: usize, count: usize) -> Bounded
    requires { (count ≤ mixture_limit) × (first + count ≤ length m.now / mixture_size) }
    ensures { result ≡ bounded_of (take count (drop first (mixtures_in m.now))) }
{
    let mut mixtures = [0u64; MIXTURE_LIMIT];
    for j in 0..count {
        mixtures[j] = fields::read64(m, (first + j) * image::MIXTURE_SIZE);
    }
    Bounded { count, mixtures }
}

// The rule with the number n, in the image's own order; without mixtures if there is no such rule.
pub fn rule_at(image: &[u8], n: usize) -> Bounded
    requires { check_of image.now ≡ 0 }
    ensures { result ≡ bounded_of (rule_at (policy_in image.now).rules n) }
{
    if n == image::UNRESTRICTED_NUMBER {
        return rules::unrestricted();
    }
    let rules = image::section(image, 2);
    let m = image::section(image, 3);
    if rules.len() / image::RULE_SIZE <= n {
        return span_rule(m, 0, 0);
    }
    let first = fields::read16(rules, n * image::RULE_SIZE);
    let count = fields::read16(rules, n * image::RULE_SIZE + image::RULE_COUNT_AT);
    span_rule(m, first, count)
}

// It covers the tag.
fn covers_by(image: Accepted<'_>, n: usize, tag: u64) -> bool
    ensures { result ≡ covers_by (policy_in image.entry.bytes.now) n tag }
{
    let rule = rule_at(image.bytes, n);
    let mixtures = rule.mixtures;
    let count = rule.count;
    rules::covers(&mixtures[0..count], tag)
}

// Container c is a file whose run rule does not cover the tag.
fn run_forbids(image: Accepted<'_>, c: usize, tag: u64) -> bool
    ensures { result ≡ forbids_at (policy_in image.entry.bytes.now) tag (get_elem? (policy_in image.entry.bytes.now).containers c) }
{
    let containers = image.section(0);
    if containers.len() / image::CONTAINER_SIZE <= c {
        return false;
    }
    if !image::is_file(fields::read8(
        containers,
        c * image::CONTAINER_SIZE + image::CONTAINER_KIND_AT,
    ) as u64)
    {
        return false;
    }
    !covers_by(image, run_number(image, c), tag)
}

// ---- the search for a run rule

// The chain of the run rule of container f into o, by the trace.
fn find_file(
    image: Accepted<'_>,
    trace: &[u8],
    f: usize,
    o: usize,
    links: &mut [u64],
    steps: &mut [u64],
) -> Found
    requires { (o < container_limit) × Roomy trace.now links.old steps.old }
    ensures { FileFound image.entry.bytes.now trace.now (run_of (get_elem? (policy_in image.entry.bytes.now).containers f)) o
        links.old steps.old (found_numbers result) links.new steps.new × Inside result.file }
{
    let rule = rule_at(image.bytes, run_number(image, f));
    let mixtures = rule.mixtures;
    let count = rule.count;
    witness::find_rule(image.bytes, trace, o, &mixtures[0..count], links, steps)
}

// Of the files of the image in rising number whose run rule does not cover the tag, the first whose run rule has a chain into o.
fn search(
    image: Accepted<'_>,
    trace: &[u8],
    o: usize,
    tag: u64,
    links: &mut [u64],
    steps: &mut [u64],
) -> Found
    requires { (o < container_limit) × Roomy trace.now links.old steps.old }
    ensures { Searched image.entry.bytes.now trace.now tag o links.old steps.old (found_numbers result) links.new steps.new × Inside result.file }
{
    let containers = image.section(0);
    let count = containers.len() / image::CONTAINER_SIZE;
    for f in 0..count {
        if run_forbids(image, f, tag) {
            let found = find_file(image, trace, f, o, links, steps);
            if found.file.is_some() {
                return found;
            }
        }
    }
    Found {
        file: None,
        first: steps.len(),
    }
}

// ---- the rule that is told

// Where a rule comes from: the container's own, the user's who made it, of an exec the user's or a run rule.
// Kept: the C interface: the origin goes to C as one of the seventeen numbers of `why`.
const OWN_ORIGIN: u64 = 0;

const MADE_ORIGIN: u64 = 1;

const USER_ORIGIN: u64 = 2;

const RUN_ORIGIN: u64 = 3;

// The rule: where it comes from, the record, the container, user or file, its number, and where the chain of a run rule begins.
#[derive(Clone, Copy)]
pub struct Told {
    pub kind: u64,
    pub at: u64,
    pub holder: u64,
    pub rule: usize,
    pub first: usize,
}

// No rule.
fn no_told(room: usize) -> Told
    ensures { result ≡ told_of room no_reason }
{
    Told {
        kind: OWN_ORIGIN,
        at: 0,
        holder: 0,
        rule: image::UNRESTRICTED_NUMBER,
        first: room,
    }
}

// The own rule of container c.
fn own_told(image: Accepted<'_>, c: usize, room: usize) -> Told
    ensures { result ≡ told_of room (own_reason (policy_in image.entry.bytes.now) c) }
{
    Told {
        kind: OWN_ORIGIN,
        at: 0,
        holder: c as u64,
        rule: permit_number(image, c),
        first: room,
    }
}

// The rule of user u, by record number n.
fn user_told(image: Accepted<'_>, kind: u64, n: usize, u: usize, room: usize) -> Told
    ensures { result ≡ told_of room (user_reason (policy_in image.entry.bytes.now) kind n u) }
{
    Told {
        kind,
        at: n as u64,
        holder: u as u64,
        rule: user_number(image, u),
        first: room,
    }
}

// The run rule that was found, of the exec that is record number n.
fn run_told(image: Accepted<'_>, n: usize, found: Found) -> Told
    requires { Inside found.file }
    ensures { result ≡ run_told (policy_in image.entry.bytes.now) n (found_numbers found) }
{
    let Some(file) = found.file else {
        return no_told(found.first);
    };
    Told {
        kind: RUN_ORIGIN,
        at: n as u64,
        holder: file as u64,
        rule: run_number(image, file),
        first: found.first,
    }
}

// Of the exec that is record number n and asks for q, after the trace: the user's rule if it does not cover the tag, else a run rule.
fn tell_exec(
    image: Accepted<'_>,
    trace: &[u8],
    links: &mut [u64],
    steps: &mut [u64],
    tag: u64,
    n: usize,
    q: Request,
) -> Told
    requires { (q.o < container_limit) × Roomy trace.now links.old steps.old }
    ensures { (result ≡ told_of (length steps.old) (exec_at image.entry.bytes.now trace.now n q.o q.u tag))
        × (steps.new ≡ at_end (exec_at image.entry.bytes.now trace.now n q.o q.u tag).chain steps.old)
        × (links.new ≡ exec_links image.entry.bytes.now trace.now q.o q.u tag links.old) }
{
    let o = q.o;
    let u = q.u;
    if !covers_by(image, user_number(image, u), tag) {
        return user_told(image, USER_ORIGIN, n, u, steps.len());
    }
    let found = search(image, trace, o, tag, links, steps);
    run_told(image, n, found)
}

// The rule that does not cover the tag, by the mark of the container.
fn tell(
    image: Accepted<'_>,
    trace: &[u8],
    links: &mut [u64],
    steps: &mut [u64],
    tag: u64,
    mark: usize,
) -> Told
    requires { MarkGood trace.now mark × Roomy trace.now links.old steps.old }
    ensures { (result ≡ told_of (length steps.old) (mark_reason image.entry.bytes.now trace.now tag mark))
        × (steps.new ≡ at_end (mark_reason image.entry.bytes.now trace.now tag mark).chain steps.old)
        × (links.new ≡ mark_links image.entry.bytes.now trace.now tag mark links.old) }
{
    if mark < CONTAINER_LIMIT {
        return own_told(image, mark, steps.len());
    }
    if mark == NOWHERE_MARK {
        return no_told(steps.len());
    }
    let n = mark - FIRST_MARK;
    let at = n * RECORD_LENGTH;
    let q = records::request_of(&trace[at..at + RECORD_LENGTH]);
    if q.code == records::NEW_FILE_CODE {
        return user_told(image, MADE_ORIGIN, n, q.u, steps.len());
    }
    tell_exec(image, &trace[0..at], links, steps, tag, n, q)
}

// ---- the numbers

// The numbers at the front of the output.
fn put(numbers: &[u64], out: &mut [u64])
    requires { length numbers.now ≤ length out.old }
    ensures { out.new ≡ overwritten numbers.now 0 out.old }
{
    out[..numbers.len()].copy_from_slice(numbers);
}

// How many numbers are told, and where each stands: the receiver, its tag, the origin of the rule, its record, its container, user or file, the
// number of the rule, its owner, where the records of its chain begin, how many mixtures it has, and the atoms that these lack.
pub const WHY_LENGTH: usize = 17;

pub const WHY_RECEIVER_AT: usize = 0;

pub const WHY_KIND_AT: usize = 2;

pub const WHY_RECORD_AT: usize = 3;

pub const WHY_HOLDER_AT: usize = 4;

pub const WHY_RULE_AT: usize = 5;

pub const WHY_OWNER_AT: usize = 6;

pub const WHY_CHAIN_AT: usize = 7;

pub const WHY_COUNT_AT: usize = 8;

pub const WHY_ATOMS_AT: usize = 9;

// What is told of the container with the tag.
fn put_told(image: Accepted<'_>, receiver: usize, tag: u64, told: Told, out: &mut [u64])
    requires { why_length ≤ length out.old }
    ensures { out.new ≡ overwritten (numbers_by (policy_in image.entry.bytes.now) receiver tag told) 0 out.old }
{
    let rule = rule_at(image.bytes, told.rule);
    let mixtures = rule.mixtures;
    let count = rule.count;
    let atoms = lacked(tag, &mixtures[0..count]);
    let numbers = [
        receiver as u64,
        tag,
        told.kind,
        told.at,
        told.holder,
        told.rule as u64,
        owner_at(image, told.rule) as u64,
        told.first as u64,
        count as u64,
        atoms[0],
        atoms[1],
        atoms[2],
        atoms[3],
        atoms[4],
        atoms[5],
        atoms[6],
        atoms[7],
    ];
    put(&numbers, out);
}

// Why the last record of the trace is answered by an alert or blocked, the trace run on the session that the image starts: the 17
// numbers at the front of the output, the records of a run rule's chain at the end of the steps, and what its search left in the links. Else
// the refusal, and all is as it was.
pub fn why(
    image: &[u8],
    trace: &[u8],
    links: &mut [u64],
    steps: &mut [u64],
    out: &mut [u64],
) -> Result<(), Refusal>
    ensures { (outcome_number result ≡ why_refusal image.now trace.now links.old steps.old out.old)
        × (out.new ≡ why_effect image.now trace.now links.old steps.old out.old)
        × (steps.new ≡ why_steps image.now trace.now links.old steps.old out.old)
        × (links.new ≡ why_links image.now trace.now links.old steps.old out.old) }
{
    if !witness::lent_good(trace, links, steps) || out.len() < WHY_LENGTH {
        return Err(Refusal::LentLength);
    }
    let image = image::accept(image)?;
    let Some(judged) = judgement_of(image, trace) else {
        return Err(Refusal::ExplainTrace);
    };
    let told = tell(image, trace, links, steps, judged.tag, judged.mark);
    put_told(image, judged.receiver, judged.tag, told, out);
    Ok(())
}
