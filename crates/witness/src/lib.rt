// How an atom came into a container, and how a run rule did: a chain, step by step (the paper, "Chains").
#![tactic(auto)]

ghost use Rattle.std.specs.Prelude.{◌≡◌, true, not, IfOk, ◌+◌, ◌/◌, ◌%◌, ◌≤◌, ◌<◌, length, take, drop};
ghost use Rattle.std.proofs.Math.ListN.{get_elem?};
ghost use Rattle.lists.specs.Lists.{same_list};
ghost use Rattle.rules.specs.Answers.{data_width, tag_width};
ghost use Rattle.image.specs.Limits.{container_limit, container_size, rule_size, mixture_size};
ghost use Rattle.image.specs.Policy.{named, rule_at, container_good};
ghost use Rattle.image.specs.Image.{part, container_in, mixtures_in, check_of, policy_in};
ghost use Rattle.chains.specs.History.{receiver};
ghost use Rattle.records.specs.Records.{step_in, Asked};
ghost use Rattle.records.specs.Traces.{trace_records};
ghost use Rattle.monitor.specs.Steps.{step_effect};
ghost use Rattle.witness.specs.Witness.{starts_as};
ghost use Rattle.witness.specs.Found.{found_numbers, Inside};
ghost use Rattle.witness.specs.Told.{item_of};
ghost use Rattle.witness.specs.Links.{node_of, main_item};
ghost use Rattle.witness.specs.Nodes.{held_length, place_of, main_source, running_source, taken_node, next_node, ends_main, ends_running, held_after, links_after};
ghost use Rattle.witness.specs.Nodes.{is_step, tracks, tracks_on, tracks_all, family_of, Followable, is_rule, FamilyFollowed, family_links, start_node, Begun, Backed, ToldBack};
ghost use Rattle.witness.specs.Explains.{rule_found, rule_steps, rule_links, atom_found, atom_steps, atom_links, lent_good, explained, explain_answer, explain_steps, explain_links};

use answers::{Answer, Refusal};
use image::{Accepted, CONTAINER_LIMIT};
use records::{RECORD_LENGTH, Request};
use session::SESSION_LENGTH;

// The nodes that are held: one for each container's data atom or run rule, then one for each container's running atom.
const HELD_LENGTH: usize = 512;

// The first node of the first record.
pub const FIRST_NODE: usize = 258;

// A chain: the number of the file where it begins, if there is one, and where the numbers of its records stand in the buffer, from there to
// its end.
#[derive(Clone, Copy)]
pub struct Found {
    pub file: Option<usize>,
    pub first: usize,
}

// What is followed through a trace: a data atom with its running atom, or a run rule.
#[derive(Clone, Copy)]
enum Followed<'a> {
    Atom(usize),
    Rule(&'a [u64]),
}

// It is a run rule.
fn is_rule(followed: Followed<'_>) -> bool
    ensures { result ≡ is_rule (family_of followed.entry) }
{
    matches!(followed, Followed::Rule(_))
}

// ---- one step

// The node of what is taken up, if anything is.
fn taken_node(from: u64, node: u64) -> u64
    ensures { result ≡ taken_node from node }
{
    if from == 0 {
        return 0;
    }
    node
}

// The receiver's node: its own if it has one that is not ended, else the new one if something is taken up.
fn next_node(own: u64, from: u64, ends: bool, node: u64) -> u64
    ensures { result ≡ next_node own from ends node }
{
    if ends {
        return taken_node(from, node);
    }
    if own == 0 {
        return taken_node(from, node);
    }
    own
}

// The receiver of a step.
pub fn receiver_of(q: Request) -> usize
    requires { Asked q }
    ensures { (result ≡ receiver (step_in q)) × (result < container_limit) }
{
    if q.code == records::READ_CODE {
        return q.p;
    }
    if q.code == records::EXEC_CODE {
        return q.p;
    }
    q.o
}

// The node of what a step puts down as data or, where a run rule is followed, as that rule.
fn main_source(held: &[u64], followed: Followed<'_>, q: Request) -> u64
    requires { (length held.now ≡ held_length) × Asked q }
    ensures { result ≡ main_source (is_rule (family_of followed.entry)) held.now (step_in q) }
{
    let p = q.p;
    let o = q.o;
    if q.code == records::READ_CODE {
        return held[o];
    }
    if q.code == records::WRITE_CODE {
        return held[p];
    }
    if q.code == records::APPEND_CODE {
        return held[p];
    }
    if q.code == records::FORK_CODE {
        return held[p];
    }
    if q.code != records::EXEC_CODE {
        return 0;
    }
    match followed {
        Followed::Atom(_) => 0,
        Followed::Rule(_) => held[o],
    }
}

// The node of what a step puts down as running; none where a run rule is followed.
fn running_source(held: &[u64], followed: Followed<'_>, q: Request) -> u64
    requires { (length held.now ≡ held_length) × Asked q }
    ensures { result ≡ running_source (is_rule (family_of followed.entry)) held.now (step_in q) }
{
    let p = CONTAINER_LIMIT + q.p;
    let o = q.o;
    if is_rule(followed) {
        return 0;
    }
    if q.code == records::EXEC_CODE {
        return held[o];
    }
    if q.code == records::WRITE_CODE {
        return held[p];
    }
    if q.code == records::APPEND_CODE {
        return held[p];
    }
    if q.code == records::FORK_CODE {
        return held[p];
    }
    0
}

// The step ends the data that its receiver held or, where a run rule is followed, that rule.
fn ends_main(followed: Followed<'_>, q: Request) -> bool
    requires { Asked q }
    ensures { result ≡ ends_main (is_rule (family_of followed.entry)) (step_in q) }
{
    if q.code == records::WRITE_CODE {
        return true;
    }
    if q.code == records::EXEC_CODE {
        return is_rule(followed);
    }
    records::END_CODE <= q.code
}

// It ends what its receiver held as running.
fn ends_running(q: Request) -> bool
    requires { Asked q }
    ensures { result ≡ ends_running (step_in q) }
{
    ends_main(Followed::Rule(&[]), q)
}

// Record number n, which is a step and asks for q: the nodes held, and the links of its own nodes.
fn carry(held: &mut [u64], links: &mut [u64], followed: Followed<'_>, n: usize, q: Request)
    requires { (length held.old ≡ held_length) × (node_of n + 2 ≤ length links.old) × Asked q }
    ensures { (held.new ≡ held_after (is_rule (family_of followed.entry)) held.old n (step_in q))
        × (links.new ≡ links_after (is_rule (family_of followed.entry)) held.old links.old n (step_in q)) }
{
    let to = receiver_of(q);
    let node = FIRST_NODE + 2 * n;
    let main = main_source(held, followed, q);
    let running = running_source(held, followed, q);
    let main_node = next_node(held[to], main, ends_main(followed, q), node as u64);
    let running_node = next_node(
        held[CONTAINER_LIMIT + to],
        running,
        ends_running(q),
        (node + 1) as u64,
    );
    held[to] = main_node;
    held[CONTAINER_LIMIT + to] = running_node;
    links[node] = main;
    links[node + 1] = running;
}

// ---- a trace

// The record is a step of the history: it was accepted or, as the last of an explanation, not refused.
fn is_step(told: bool, answer: Answer) -> bool
    ensures { result ≡ is_step told answer }
{
    if told {
        return !answers::is_refused(answer);
    }
    answers::is_accepted(answer)
}

// Record number n on the session; where it is a step, its nodes and links.
fn follow_record(
    session: &mut [u64],
    bytes: &[u8],
    held: &mut [u64],
    links: &mut [u64],
    followed: Followed<'_>,
    told: bool,
    n: usize,
)
    requires { (length held.old ≡ held_length) × (node_of n + 2 ≤ length links.old) }
    ensures { (tracks held.new links.new ≡ tracks_on (is_rule (family_of followed.entry)) told (tracks held.old links.old) n session.old bytes.now)
        × (session.new ≡ step_effect session.old bytes.now) }
{
    let answer = monitor::step(session, bytes);
    if is_step(told, answer) {
        carry(held, links, followed, n, records::request_of(bytes));
    }
}

// The records of a trace on the session, one after the other. Where an atom is followed they are those of an explanation, whose last counts
// unless it is refused.
fn follow_trace(
    session: &mut [u64],
    trace: &[u8],
    held: &mut [u64],
    links: &mut [u64],
    followed: Followed<'_>,
)
    requires { (length held.old ≡ held_length) × (node_of (length (trace_records trace.now)) ≤ length links.old) }
    ensures { tracks held.new links.new
        ≡ tracks_all (is_rule (family_of followed.entry)) (not (is_rule (family_of followed.entry))) (tracks held.old links.old) 0 session.old (trace_records trace.now) }
{
    let told = !is_rule(followed);
    let count = trace.len().div_ceil(RECORD_LENGTH);
    for (n, bytes) in trace.chunks(RECORD_LENGTH).enumerate() {
        let last = told && n + 1 == count;
        follow_record(session, bytes, held, links, followed, last, n);
    }
}

// ---- the way back

// From a node by the links to a file: the numbers of the records, rising, at the end of the buffer.
fn trace_back(links: &[u64], node: u64, steps: &mut [u64]) -> Found
    requires { (node < length links.now) × Backed links.now node (length steps.old) }
    ensures { ToldBack links.now node steps.old (found_numbers result) steps.new × Inside result.file }
{
    let mut v = node as usize;
    let mut first = steps.len();
    // Kept: no plainer. The walk goes from node to node along the links, and no range or slice has its places in order.
    while FIRST_NODE <= v {
        first -= 1;
        steps[first] = ((v - FIRST_NODE) / 2) as u64;
        v = links[v] as usize;
    }
    if v == 0 {
        return Found { file: None, first };
    }
    Found {
        file: Some(v - 1),
        first,
    }
}

// ---- the start

// The mixtures from `first` on are those of the rule.
fn same_mixtures(m: &[u8], first: usize, rule: &[u64]) -> bool
    requires { first + length rule.now ≤ length m.now / mixture_size }
    ensures { result ≡ same_list (take (length rule.now) (drop first (mixtures_in m.now))) rule.now }
{
    for (j, &mixture) in rule.iter().enumerate() {
        if fields::read64(m, (first + j) * image::MIXTURE_SIZE) != mixture {
            return false;
        }
    }
    true
}

// The rule with the number n is this rule, mixture by mixture.
fn is_rule_at(image: Accepted<'_>, n: usize, rule: &[u64]) -> bool
    requires { named (length (part image.bytes.now 2) / rule_size) n ≡ true }
    ensures { result ≡ same_list (rule_at (policy_in image.entry.bytes.now).rules n) rule.now }
{
    if n == image::UNRESTRICTED_NUMBER {
        let all = [rules::ALL_ATOMS];
        return rules::same(&all, rule);
    }
    let rules = image.section(2);
    let first = fields::read16(rules, n * image::RULE_SIZE);
    let count = fields::read16(rules, n * image::RULE_SIZE + image::RULE_COUNT_AT);
    if count != rule.len() {
        return false;
    }
    same_mixtures(image.section(3), first, rule)
}

// What is followed starts in the container of the image whose record is r.
fn starts(image: Accepted<'_>, r: &[u8], followed: Followed<'_>) -> bool
    requires { (length r.now ≡ container_size)
        × (container_good (length (part image.bytes.now 2) / rule_size) (container_in r.now) ≡ true)
        × Followable followed }
    ensures { result ≡ starts_as (policy_in image.entry.bytes.now).rules (main_item (family_of followed.entry)) (container_in r.now) }
{
    if !image::is_file(fields::read8(r, image::CONTAINER_KIND_AT) as u64) {
        return false;
    }
    match followed {
        Followed::Atom(d) => fields::read8(r, image::CONTAINER_ATOM_AT) == d,
        Followed::Rule(rule) => is_rule_at(image, fields::read16(r, image::CONTAINER_RUN_AT), rule),
    }
}

// The node of container number c at the start.
fn start_node(image: Accepted<'_>, c: usize, followed: Followed<'_>) -> u64
    requires { (c < container_limit) × Followable followed }
    ensures { result ≡ start_node (policy_in image.entry.bytes.now).rules (main_item (family_of followed.entry))
        (get_elem? (policy_in image.entry.bytes.now).containers c) c }
{
    let containers = image.section(0);
    if containers.len() / image::CONTAINER_SIZE <= c {
        return 0;
    }
    let at = c * image::CONTAINER_SIZE;
    if !starts(image, &containers[at..at + image::CONTAINER_SIZE], followed) {
        return 0;
    }
    (c + 1) as u64
}

// The nodes at the start.
fn begin(held: &mut [u64], image: Accepted<'_>, followed: Followed<'_>)
    requires { (length held.old ≡ held_length) × Followable followed }
    ensures { Begun (policy_in image.entry.bytes.now).containers (policy_in image.entry.bytes.now).rules (family_of followed.entry) held.new }
{
    for c in 0..CONTAINER_LIMIT {
        held[c] = start_node(image, c, followed);
        held[CONTAINER_LIMIT + c] = 0;
    }
}

// The nodes after the trace, on the session that the image starts.
fn follow(
    image: Accepted<'_>,
    trace: &[u8],
    followed: Followed<'_>,
    held: &mut [u64],
    links: &mut [u64],
)
    requires { Followable followed × (length held.old ≡ held_length) × (node_of (length (trace_records trace.now)) ≤ length links.old) }
    ensures { FamilyFollowed image.entry.bytes.now trace.now (family_of followed.entry) held.new links.new
        × (links.new ≡ family_links image.entry.bytes.now trace.now (family_of followed.entry) links.old) }
{
    let mut session = [0u64; SESSION_LENGTH];
    let Ok(()) = session::start(image.bytes, &mut session) else {
        unreachable!();
    };
    begin(held, image, followed);
    follow_trace(&mut session, trace, held, links, followed);
}

// ---- the chain of a run rule

// How the run rule came into container c: the accepted records of the trace on the session that the image starts.
pub fn find_rule(
    image: &[u8],
    trace: &[u8],
    c: usize,
    rule: &[u64],
    links: &mut [u64],
    steps: &mut [u64],
) -> Found
    requires { (check_of image.now ≡ 0) × (node_of (length (trace_records trace.now)) ≤ length links.old) × (length (trace_records trace.now) ≤ length steps.old) × (c < container_limit) }
    ensures { (found_numbers result ≡ rule_found image.now trace.now rule.now c steps.old)
        × (steps.new ≡ rule_steps image.now trace.now rule.now c steps.old)
        × (links.new ≡ rule_links image.now trace.now rule.now links.old)
        × Inside result.file }
{
    let mut held = [0u64; HELD_LENGTH];
    let image = Accepted { bytes: image };
    follow(image, trace, Followed::Rule(rule), &mut held, links);
    trace_back(links, held[c], steps)
}

// ---- the chain of an atom

// Where the node of the atom k in container c stands.
fn place_of(k: usize, c: usize) -> usize
    requires { c < container_limit }
    ensures { (result ≡ place_of (item_of k) c) × (result < held_length) }
{
    if k < image::DATA_WIDTH {
        return c;
    }
    CONTAINER_LIMIT + c
}

// How the atom k came into container c.
fn find_atom(
    image: Accepted<'_>,
    trace: &[u8],
    c: usize,
    k: usize,
    links: &mut [u64],
    steps: &mut [u64],
) -> Found
    requires { (node_of (length (trace_records trace.now)) ≤ length links.old)
        × (length (trace_records trace.now) ≤ length steps.old)
        × (c < container_limit)
        × (k < tag_width) }
    ensures { (found_numbers result ≡ atom_found image.entry.bytes.now trace.now c k steps.old)
        × (steps.new ≡ atom_steps image.entry.bytes.now trace.now c k steps.old)
        × (links.new ≡ atom_links image.entry.bytes.now trace.now (k % data_width) links.old)
        × Inside result.file }
{
    let mut held = [0u64; HELD_LENGTH];
    let followed = Followed::Atom(k % image::DATA_WIDTH);
    follow(image, trace, followed, &mut held, links);
    trace_back(links, held[place_of(k, c)], steps)
}

// ---- the explanation

// There are two links for each record behind those of the files, and room for the number of each record.
pub fn lent_good(trace: &[u8], links: &[u64], steps: &[u64]) -> bool
    ensures { result ≡ lent_good trace.now links.now steps.now }
{
    let count = trace.len().div_ceil(RECORD_LENGTH);
    if links.len() < FIRST_NODE + 2 * count {
        return false;
    }
    count <= steps.len()
}

// How the atom came into the container: the records of the trace, the last unless it is refused and the accepted ones before it, on the
// session that the image starts. The links must be 258 and two for each record, the steps one for each. The chain, with the
// numbers of its records, rising, at the end of the steps; or the refusal, and then everything is as it was.
pub fn explain(
    image: &[u8],
    trace: &[u8],
    container: usize,
    atom: usize,
    links: &mut [u64],
    steps: &mut [u64],
) -> Result<Found, Refusal>
    ensures { (explained result ≡ explain_answer image.now trace.now container atom links.old steps.old)
        × (links.new ≡ explain_links image.now trace.now container atom links.old steps.old)
        × (steps.new ≡ explain_steps image.now trace.now container atom links.old steps.old)
        × IfOk result (λ found. Inside found.file) }
{
    if !lent_good(trace, links, steps) {
        return Err(Refusal::LentLength);
    }
    let image = image::accept(image)?;
    if CONTAINER_LIMIT <= container || rules::TAG_WIDTH <= atom {
        return Err(Refusal::ExplainBounds);
    }
    Ok(find_atom(image, trace, container, atom, links, steps))
}
