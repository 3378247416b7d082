// The operations on a lent session: what a request is refused for because of the session, and what it does (the paper,
// "Operations" and "Refused because of the session").
#![tactic(auto)]

ghost use Rattle.std.specs.Prelude.{◌≡◌, true, cond, ◌&&◌, ◌||◌, [], ◌∷◌, eqb, ◌≤◌, ◌<◌, length, get_or, take};
ghost use Rattle.lists.specs.Conditions.{first_failed};
ghost use Rattle.answers.specs.Answers.{received, quiet, blocked, answer_number, received_after};
ghost use Rattle.answers.specs.Outcomes.{outcome_number};
ghost use Rattle.answers.specs.Refusals.{other_user};
ghost use Rattle.rules.specs.Rules.{no_position, meet};
ghost use Rattle.rules.specs.Placewise.{placewise};
ghost use Rattle.rules.specs.Answers.{mixture_limit, bounded_of, bounded_if_fits};
ghost use Rattle.image.specs.Limits.{container_limit, process_kind, last_kind, kind_in};
ghost use Rattle.rule_words.specs.Words.{rule_of};
ghost use Rattle.session.specs.Limits.{session_length, row_width, nobody};
ghost use Rattle.session.specs.Rows.{row_of, permit_words, run_words, container_row_good, free_words, put_row};
ghost use Rattle.chains.specs.History.{read, write, append, exec, fork, new_file, new_volatile};
ghost use Rattle.records.specs.Codes.{code_at};
ghost use Rattle.fields.specs.Bytes.{bytes_of};
ghost use Rattle.records.specs.Records.{record_length, request_in, step_in, record_good};
ghost use Rattle.operations.specs.View.{view};
ghost use Rattle.operations.specs.Effects.{Named, rows_good, perform_answer, perform_effect};
ghost use Rattle.operations.specs.EarlyTests.{meets_placewise};
ghost use Rattle.operations.specs.EarlyTests.{first_conditions, Ready, late_answer, late_effect, absorb_answer, absorb_effect, launch_answer, launch_effect};
ghost use Rattle.operations.specs.EarlyTests.{Kept, KeptAt, UsedAt, words_from, content_words, new_words, cover_verdict, cover_answer, guards_at, withheld_answer};

use answers::{Answer, Received, Refusal, Verdict};
use image::{FILE_KIND, PROCESS_KIND, VOLATILE_KIND};
use records::{Code, Request};
use rule_words::RULE_WIDTH;
use rules::{Bounded, NO_POSITION};
use session::{
    BEHALF_AT, DECLARED, KIND_AT, NOBODY, PERMIT_AT, ROW_WIDTH, RUN_AT, TAG_AT, USER_RULE_AT,
    USER_WIDTH, USERS_AT,
};

// ---- the refusals that come before a meet

// A container of the kind serves as the object: it is one of the kinds that a code needs.
fn object_fits(need: u8, kind: u64) -> bool
    requires { kind ≤ last_kind }
    ensures { result ≡ kind_in need kind }
{
    (need >> kind) % 2 == 1
}

// The row of the process is as the session says. The usual rows, whose rules have one mixture each, are tested in place; the others by a
// function that is called. Process and object have a function each, so that this one has two callers: with one it would be put in place
// too, and the usual rows would pay for its frame.
// Kept: the C interface: a session is lent as one slice, of which rows and rules are parts, so that their lengths stand in the clauses.
fn process_row_good(row: &[u64]) -> bool
    requires { length row.now ≡ row_width }
    ensures { result ≡ container_row_good row.now }
{
    if session::singles(row) {
        return session::single_row_good(row);
    }
    session::container_row_good(&row[0..ROW_WIDTH])
}

// The same of the object's.
// Kept: tried and slower: with one function for both the usual rows would pay for its frame, as said above.
fn object_row_good(row: &[u64]) -> bool
    requires { length row.now ≡ row_width }
    ensures { result ≡ container_row_good row.now }
{
    if session::singles(row) {
        return session::single_row_good(row);
    }
    session::container_row_good(&row[0..ROW_WIDTH])
}

// The rows that the request names are as the session says: the refusal 10 where they are not.
fn rows_good(s: &[u64], q: Request, need: Code) -> bool
    requires { (Named s.now q) × (need ≡ code_at q.code) }
    ensures { result ≡ rows_good s.now (step_in q) }
{
    let a = q.p * ROW_WIDTH;
    if !process_row_good(&s[a..a + ROW_WIDTH]) {
        return false;
    }
    let b = q.o * ROW_WIDTH;
    if !object_row_good(&s[b..b + ROW_WIDTH]) {
        return false;
    }
    if !need.user {
        return true;
    }
    let c = USERS_AT + q.u * USER_WIDTH;
    session::user_row_good(&s[c..c + USER_WIDTH])
}

// The refusal 18 of a new file for the user.
fn behalf_refusal(behalf: u64, u: usize) -> Result<(), Refusal>
    ensures { outcome_number result ≡ cond (eqb behalf nobody || eqb behalf u) 0 other_user }
{
    if behalf == NOBODY {
        return Ok(());
    }
    if behalf == u as u64 {
        return Ok(());
    }
    Err(Refusal::OtherUser)
}

// The refusals 10 to 14 and 18 in their order.
fn early_refusal(s: &[u64], q: Request, need: Code) -> Result<(), Refusal>
    requires { (Named s.now q) × (need ≡ code_at q.code) }
    ensures { outcome_number result ≡ first_failed (first_conditions s.now (step_in q)) }
{
    if !rows_good(s, q, need) {
        return Err(Refusal::Row);
    }
    let a = q.p * ROW_WIDTH;
    if !image::is_process(s[a + KIND_AT]) {
        return Err(Refusal::NoProcess);
    }
    let b = q.o * ROW_WIDTH;
    if !object_fits(need.object, s[b + KIND_AT]) {
        if need.object == image::FREE_KINDS {
            return Err(Refusal::NotFree);
        }
        return Err(Refusal::WrongKind);
    }
    if !need.user {
        return Ok(());
    }
    let c = USERS_AT + q.u * USER_WIDTH;
    if s[c] != DECLARED {
        return Err(Refusal::NotDeclared);
    }
    if q.code != records::NEW_FILE_CODE {
        return Ok(());
    }
    behalf_refusal(behalf_of(s, q.p), q.u)
}

// ---- what is read

// The tag of a container.
fn tag_of(s: &[u64], c: usize) -> u64
    requires { (length s.now ≡ session_length) × (c < container_limit) }
    ensures { result ≡ ((view s.now).row c).tag }
{
    s[c * ROW_WIDTH + TAG_AT]
}

// The user on whose behalf a container runs.
fn behalf_of(s: &[u64], c: usize) -> u64
    requires { (length s.now ≡ session_length) × (c < container_limit) }
    ensures { result ≡ ((view s.now).row c).behalf }
{
    s[c * ROW_WIDTH + BEHALF_AT]
}

// A rule of the session, to be written: the words as they stand, the unused ones being 0.
fn rule_copy(ws: &[u64]) -> Bounded
    requires { Kept ws.now }
    ensures { result ≡ bounded_of (rule_of ws.now) }
{
    Bounded {
        count: ws[0] as usize,
        mixtures: [ws[1], ws[2], ws[3], ws[4], ws[5], ws[6], ws[7], ws[8]],
    }
}

// The rule at a place of the session, to be written.
fn rule_at(s: &[u64], at: usize) -> Bounded
    requires { KeptAt s.now at }
    ensures { result ≡ bounded_of (rule_of (words_from s.now at)) }
{
    rule_copy(&s[at..at + RULE_WIDTH])
}

// The intersections place by place are the meet, as far as two quick tests tell: mostly they are, where the rules have equally many
// mixtures.
fn meets_placewise(r: &[u64], v: &[u64]) -> bool
    ensures { result ≡ meets_placewise r.now v.now }
{
    if r.len() != v.len() {
        return false;
    }
    if rules::within(r, v) {
        return true;
    }
    rules::alike(r, v)
}

// The intersections of two rules of the session place by place, to be written: the words as they meet, the unused ones being 0 in both.
fn placewise_words(a: &[u64], b: &[u64]) -> Bounded
    requires { (Kept a.now) × (Kept b.now) × (length (rule_of a.now) ≡ length (rule_of b.now)) }
    ensures { result ≡ bounded_of (placewise (rule_of a.now) (rule_of b.now)) }
{
    Bounded {
        count: a[0] as usize,
        mixtures: [
            a[1] & b[1],
            a[2] & b[2],
            a[3] & b[3],
            a[4] & b[4],
            a[5] & b[5],
            a[6] & b[6],
            a[7] & b[7],
            a[8] & b[8],
        ],
    }
}

// The meet of two rules of the session. Place by place where that is the meet; a rule that refines the other is their meet too.
fn meet_kept(a: &[u64], b: &[u64]) -> Option<Bounded>
    requires { (Kept a.now) × (Kept b.now) }
    ensures { result ≡ bounded_if_fits (meet (rule_of a.now) (rule_of b.now)) }
{
    let r = rule_words::rule_of(a);
    let v = rule_words::rule_of(b);
    if meets_placewise(r, v) {
        return Some(placewise_words(a, b));
    }
    if rules::refines(r, v) {
        return Some(rule_copy(a));
    }
    if rules::refines(v, r) {
        return Some(rule_copy(b));
    }
    rules::meet(r, v)
}

// The meet of the rules at two places of the session.
fn meet_at(s: &[u64], x: usize, y: usize) -> Option<Bounded>
    requires { (KeptAt s.now x) × (KeptAt s.now y) }
    ensures { result ≡ bounded_if_fits (meet (rule_of (words_from s.now x)) (rule_of (words_from s.now y))) }
{
    meet_kept(&s[x..x + RULE_WIDTH], &s[y..y + RULE_WIDTH])
}

// Both counts are those of rules of one mixture, the usual ones: these go first, in a straight line.
fn both_single(n: u64, k: u64) -> bool
    ensures { result ≡ (eqb n 1 && eqb k 1) }
{
    if n == 1 {
        return k == 1;
    }
    false
}

// The one mixture of their meet.
fn mixture_at(s: &[u64], x: usize, y: usize) -> u64
    requires { (KeptAt s.now x) × (KeptAt s.now y) × ((eqb (get_or s.now x 0) 1 && eqb (get_or s.now y 0) 1) ≡ true) }
    ensures { result ∷ [] ≡ meet (rule_of (words_from s.now x)) (rule_of (words_from s.now y)) }
{
    s[x + 1] & s[y + 1]
}

// ---- a row that is lent

// The tag and the run rule of a row.
fn set_content(row: &mut [u64], tag: u64, run: Bounded)
    requires { length row.old ≡ row_width }
    ensures { row.new ≡ content_words row.old tag run }
{
    row[TAG_AT] = tag;
    rule_words::put_rule(&mut row[RUN_AT..RUN_AT + RULE_WIDTH], run);
}

// The tag of a row, and the mixture of its run rule, which has one already: the other words stay.
fn set_single(row: &mut [u64], tag: u64, mixture: u64)
    requires { (length row.old ≡ row_width) × (Kept (run_words row.old)) × (get_or (run_words row.old) 0 0 ≡ 1) }
    ensures { row.new ≡ content_words row.old tag (bounded_of (mixture ∷ [])) }
{
    row[TAG_AT] = tag;
    row[RUN_AT + 1] = mixture;
}

// Quiet if the tag is covered.
fn verdict_of(covered: bool) -> Verdict
    ensures { result ≡ cover_verdict covered }
{
    if covered {
        return Verdict::Quiet;
    }
    Verdict::Alert
}

// Whether the row's permit rule covers its tag, and at which position.
fn cover_answer(row: &[u64], receiver: usize) -> Answer
    requires { (length row.now ≡ row_width) × (get_or (permit_words row.now) 0 0 ≤ mixture_limit) }
    ensures { result ≡ cover_answer receiver (row_of row.now).permit (row_of row.now).tag }
{
    let tag = row[TAG_AT];
    let rule = rule_words::rule_of(&row[PERMIT_AT..PERMIT_AT + RULE_WIDTH]);
    let place = rules::cover_place(rule, tag);
    let verdict = verdict_of(place != NO_POSITION);
    let position = place as u8;
    Answer::Given(
        verdict,
        Received {
            receiver,
            tag,
            position,
        },
    )
}

// Gives the receiver's row a tag and a run rule, and answers.
fn update(row: &mut [u64], receiver: usize, tag: u64, run: Bounded) -> Answer
    requires { (length row.old ≡ row_width) × (get_or (permit_words row.old) 0 0 ≤ mixture_limit) }
    ensures { (result ≡ cover_answer receiver (row_of row.old).permit tag) × (row.new ≡ content_words row.old tag run) }
{
    set_content(row, tag, run);
    cover_answer(row, receiver)
}

// The same where the run rule has one mixture, before and afterwards.
fn narrow(row: &mut [u64], receiver: usize, tag: u64, mixture: u64) -> Answer
    requires { (length row.old ≡ row_width) × (get_or (permit_words row.old) 0 0 ≤ mixture_limit) × (Kept (run_words row.old)) × (get_or (run_words row.old) 0 0 ≡ 1) }
    ensures { (result ≡ cover_answer receiver (row_of row.old).permit tag) × (row.new ≡ content_words row.old tag (bounded_of (mixture ∷ []))) }
{
    set_single(row, tag, mixture);
    cover_answer(row, receiver)
}

// Makes the receiver's row that of a process, and answers. Put in place at each call: the answer would else go through memory twice.
#[inline(always)]
fn replace(
    row: &mut [u64],
    receiver: usize,
    tag: u64,
    permit: Bounded,
    run: Bounded,
    behalf: u64,
) -> Answer
    requires { (length row.old ≡ row_width) × (permit.count ≤ mixture_limit) }
    ensures { (result ≡ cover_answer receiver (take permit.count permit.mixtures) tag) × (row.new ≡ new_words process_kind tag permit run behalf) }
{
    session::put_row(row, PROCESS_KIND, tag, permit, run, behalf);
    cover_answer(row, receiver)
}

// The container is guarded, and its permit rule does not cover the tag.
fn guards(s: &[u64], c: usize, tag: u64) -> bool
    requires { UsedAt s.now c }
    ensures { result ≡ guards_at s.now c tag }
{
    let a = c * ROW_WIDTH;
    if !image::is_guarded(s[a + KIND_AT]) {
        return false;
    }
    let rule = rule_words::rule_of(&s[a + PERMIT_AT..a + PERMIT_AT + RULE_WIDTH]);
    !rules::covers(rule, tag)
}

// The answer to an access that is blocked: no mixture covers the tag.
fn blocked(receiver: usize, tag: u64) -> Answer
    ensures { result ≡ blocked receiver tag no_position }
{
    Answer::Given(
        Verdict::Blocked,
        Received {
            receiver,
            tag,
            position: NO_POSITION as u8,
        },
    )
}

// The position of the empty tag in a rule of so many mixtures, each of which covers it.
fn empty_position(count: usize) -> u8
    ensures { result ≡ cond (eqb count 0) no_position 0 }
{
    if count == 0 {
        return NO_POSITION as u8;
    }
    0
}

// The answer to an append into a container that guards itself from the tag: 15 comes first.
fn withheld(s: &[u64], receiver: usize, giver: usize, tag: u64) -> Answer
    requires { (UsedAt s.now receiver) × (UsedAt s.now giver) }
    ensures { result ≡ withheld_answer s.now receiver giver tag }
{
    let a = receiver * ROW_WIDTH;
    let b = giver * ROW_WIDTH;
    if both_single(s[a + RUN_AT], s[b + RUN_AT]) {
        return blocked(receiver, tag);
    }
    let met = meet_kept(
        &s[a + RUN_AT..a + RUN_AT + RULE_WIDTH],
        &s[b + RUN_AT..b + RUN_AT + RULE_WIDTH],
    );
    if met.is_none() {
        return Answer::Refused(Refusal::OverLimit as u32);
    }
    blocked(receiver, tag)
}

// ---- the operations

// The receiver takes in what the giver has: it gets the tag, and the meet of both run rules. Put in place at each call, as `replace` is.
#[inline(always)]
fn absorb(s: &mut [u64], receiver: usize, giver: usize, tag: u64) -> Answer
    requires { (UsedAt s.old receiver) × (UsedAt s.old giver) }
    ensures { (result ≡ absorb_answer s.old receiver giver tag) × (s.new ≡ absorb_effect s.old receiver giver tag) }
{
    let a = receiver * ROW_WIDTH;
    let b = giver * ROW_WIDTH;
    if both_single(s[a + RUN_AT], s[b + RUN_AT]) {
        let mixture = mixture_at(s, a + RUN_AT, b + RUN_AT);
        return narrow(&mut s[a..a + ROW_WIDTH], receiver, tag, mixture);
    }
    let Some(met) = meet_kept(
        &s[a + RUN_AT..a + RUN_AT + RULE_WIDTH],
        &s[b + RUN_AT..b + RUN_AT + RULE_WIDTH],
    ) else {
        return Answer::Refused(Refusal::OverLimit as u32);
    };
    update(&mut s[a..a + ROW_WIDTH], receiver, tag, met)
}

// Code 1: the process reads the object.
fn read(s: &mut [u64], p: usize, o: usize) -> Answer
    requires { Ready s.old (read p o) }
    ensures { (result ≡ late_answer s.old (read p o)) × (s.new ≡ late_effect s.old (read p o)) }
{
    let held = tag_of(s, p);
    let stored = tag_of(s, o);
    let tag = rules::add_data_atoms(held, stored);
    absorb(s, p, o, tag)
}

// Code 2: the process writes the object anew.
fn write(s: &mut [u64], p: usize, o: usize) -> Answer
    requires { Ready s.old (write p o) }
    ensures { (result ≡ late_answer s.old (write p o)) × (s.new ≡ late_effect s.old (write p o)) }
{
    let rule = rule_at(s, p * ROW_WIDTH + RUN_AT);
    let tag = tag_of(s, p);
    if guards(s, o, tag) {
        return blocked(o, tag);
    }
    let at = o * ROW_WIDTH;
    update(&mut s[at..at + ROW_WIDTH], o, tag, rule)
}

// Code 3: the process adds to the object.
fn append(s: &mut [u64], p: usize, o: usize) -> Answer
    requires { Ready s.old (append p o) }
    ensures { (result ≡ late_answer s.old (append p o)) × (s.new ≡ late_effect s.old (append p o)) }
{
    let held = tag_of(s, p);
    let stored = tag_of(s, o);
    let tag = stored | held;
    if guards(s, o, tag) {
        return withheld(s, o, p, tag);
    }
    absorb(s, o, p, tag)
}

// The process becomes what runs the object for the user, under the permit rule; it keeps its data atoms.
fn launch(s: &mut [u64], p: usize, o: usize, u: usize, permit: Bounded) -> Answer
    requires { (UsedAt s.old p) × (UsedAt s.old o) × (permit.count ≤ mixture_limit) }
    ensures { (result ≡ launch_answer s.old p o permit) × (s.new ≡ launch_effect s.old p o u permit) }
{
    let run = rule_at(s, o * ROW_WIDTH + RUN_AT);
    let running = rules::running_atoms(tag_of(s, o));
    let tag = rules::add_data_atoms(running, tag_of(s, p));
    let a = p * ROW_WIDTH;
    replace(&mut s[a..a + ROW_WIDTH], p, tag, permit, run, u as u64)
}

// Code 4: the process executes the object for the user.
fn exec(s: &mut [u64], p: usize, o: usize, u: usize) -> Answer
    requires { Ready s.old (exec p o u) }
    ensures { (result ≡ late_answer s.old (exec p o u)) × (s.new ≡ late_effect s.old (exec p o u)) }
{
    let x = o * ROW_WIDTH + RUN_AT;
    let y = USERS_AT + u * USER_WIDTH + USER_RULE_AT;
    if both_single(s[x], s[y]) {
        let permit = rules::one(mixture_at(s, x, y));
        return launch(s, p, o, u, permit);
    }
    let Some(permit) = meet_at(s, x, y) else {
        return Answer::Refused(Refusal::OverLimit as u32);
    };
    launch(s, p, o, u, permit)
}

// Code 5: the object becomes a copy of the process.
fn fork(s: &mut [u64], p: usize, o: usize) -> Answer
    requires { Ready s.old (fork p o) }
    ensures { (result ≡ late_answer s.old (fork p o)) × (s.new ≡ late_effect s.old (fork p o)) }
{
    let permit = rule_at(s, p * ROW_WIDTH + PERMIT_AT);
    let run = rule_at(s, p * ROW_WIDTH + RUN_AT);
    let tag = tag_of(s, p);
    let behalf = behalf_of(s, p);
    let b = o * ROW_WIDTH;
    replace(&mut s[b..b + ROW_WIDTH], o, tag, permit, run, behalf)
}

// Code 6: the object becomes a file of the user.
fn new_file(s: &mut [u64], p: usize, o: usize, u: usize) -> Answer
    requires { Ready s.old (new_file p o u) }
    ensures { (result ≡ late_answer s.old (new_file p o u)) × (s.new ≡ late_effect s.old (new_file p o u)) }
{
    let permit = rule_at(s, USERS_AT + u * USER_WIDTH + USER_RULE_AT);
    let position = empty_position(permit.count);
    let all = rules::unrestricted();
    let b = o * ROW_WIDTH;
    session::put_row(&mut s[b..b + ROW_WIDTH], FILE_KIND, 0, permit, all, NOBODY);
    Answer::Given(
        Verdict::Quiet,
        Received {
            receiver: o,
            tag: 0,
            position,
        },
    )
}

// Code 7: the object becomes a volatile.
fn new_volatile(s: &mut [u64], p: usize, o: usize) -> Answer
    requires { Ready s.old (new_volatile p o) }
    ensures { (result ≡ late_answer s.old (new_volatile p o)) × (s.new ≡ late_effect s.old (new_volatile p o)) }
{
    let all = rules::unrestricted();
    let b = o * ROW_WIDTH;
    session::put_row(&mut s[b..b + ROW_WIDTH], VOLATILE_KIND, 0, all, all, NOBODY);
    Answer::Given(
        Verdict::Quiet,
        Received {
            receiver: o,
            tag: 0,
            position: 0,
        },
    )
}

// Codes 8 and 9: the container leaves, and its number is free; a free row has no mixture.
fn release(s: &mut [u64], c: usize) -> Answer
    requires { (length s.old ≡ session_length) × (c < container_limit) }
    ensures { (result ≡ quiet c 0 no_position) × (s.new ≡ put_row s.old c free_words) }
{
    let a = c * ROW_WIDTH;
    rule_words::clear(&mut s[a..a + ROW_WIDTH]);
    Answer::Given(
        Verdict::Quiet,
        Received {
            receiver: c,
            tag: 0,
            position: NO_POSITION as u8,
        },
    )
}

// ---- by code

// What a request that is not refused by 10 to 14 or 18 does: 15, or the effect and the answer.
fn by_code(s: &mut [u64], q: Request) -> Answer
    requires { (Named s.old q) × (Ready s.old (step_in q)) }
    ensures { (result ≡ late_answer s.old (step_in q)) × (s.new ≡ late_effect s.old (step_in q)) }
{
    let Request { p, o, u, .. } = q;
    match q.code {
        records::READ_CODE => read(s, p, o),
        records::WRITE_CODE => write(s, p, o),
        records::APPEND_CODE => append(s, p, o),
        records::EXEC_CODE => exec(s, p, o, u),
        records::FORK_CODE => fork(s, p, o),
        records::NEW_FILE_CODE => new_file(s, p, o, u),
        records::NEW_VOLATILE_CODE => new_volatile(s, p, o),
        _ => release(s, o),
    }
}

// A request on the session, with what its code needs: the refusal, or the effect and the answer.
fn perform(s: &mut [u64], q: Request, need: Code) -> Answer
    requires { (Named s.old q) × (need ≡ code_at q.code) }
    ensures { (result ≡ perform_answer s.old (step_in q)) × (s.new ≡ perform_effect s.old (step_in q)) }
{
    match early_refusal(s, q, need) {
        Ok(()) => by_code(s, q),
        Err(refusal) => Answer::Refused(refusal.number()),
    }
}

// A record that 7 does not refuse, as the number that its bytes spell, on a session that 9 does not refuse. The answer's number comes
// back, and receiver, tag and position where they are lent, so that none of it goes through memory twice.
pub fn perform_word(
    s: &mut [u64],
    w: u64,
    receiver: &mut u64,
    tag: &mut u64,
    position: &mut u32,
) -> u32
    requires { (length s.old ≡ session_length) × (record_good (bytes_of record_length w) ≡ true) }
    ensures { (result ≡ answer_number (perform_answer s.old (step_in (request_in (bytes_of record_length w)))))
        × (s.new ≡ perform_effect s.old (step_in (request_in (bytes_of record_length w))))
        × (received receiver.new tag.new position.new
        ≡ received_after (perform_answer s.old (step_in (request_in (bytes_of record_length w)))) (received receiver.old tag.old position.old))
        × (position.old < 256 → position.new < 256) }
{
    let q = records::request_in(w);
    let need = records::code_at(q.code);
    let answer = perform(s, q, need);
    if answers::is_refused(answer) {
        return answers::number(answer);
    }
    let e = answers::received_of(answer);
    *receiver = e.receiver as u64;
    *tag = e.tag;
    *position = e.position as u32;
    answers::number(answer)
}

// The same of the record's bytes, with the answer by value.
pub fn perform_record(s: &mut [u64], bytes: &[u8]) -> Answer
    requires { (length s.old ≡ session_length) × (record_good bytes.now ≡ true) }
    ensures { (result ≡ perform_answer s.old (step_in (request_in bytes.now)))
        × (s.new ≡ perform_effect s.old (step_in (request_in bytes.now))) }
{
    let q = records::request_of(&bytes[0..records::RECORD_LENGTH]);
    let need = records::code_at(q.code);
    perform(s, q, need)
}
