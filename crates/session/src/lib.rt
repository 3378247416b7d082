// The session: the test of a row, and the start (the paper, "Session").
#![tactic(auto)]

ghost use Rattle.std.specs.Prelude.{◌≡◌, true, ◌||◌, [], ◌∷◌, ◌++◌, map, eqb, ltb, ◌*◌, ◌/◌, ◌≤◌, length, replicate};
ghost use Rattle.answers.specs.Outcomes.{outcome_number};
ghost use Rattle.rules.specs.Answers.{data_width};
ghost use Rattle.image.specs.Limits.{no_atom, container_limit, user_limit, container_size, user_size, rule_size};
ghost use Rattle.lists.specs.Lists.{every};
ghost use Rattle.image.specs.Policy.{named, container_good};
ghost use Rattle.image.specs.Image.{container_in, containers_in, users_in, rules_in};
ghost use Rattle.image.specs.Normal.{normal_at, place_of};
ghost use Rattle.session.specs.Limits.{row_width, user_width};
ghost use Rattle.session.specs.Rows.{behalf_good, container_row_good, singles, user_words, user_row_good};
ghost use Rattle.session.specs.Session.{filled, start_tag, place_words, start_answer, start_effect};

use answers::Refusal;
use image::RuleSections;
use rules::Bounded;

// ---- the numbers of the layout, in words

// The places in a container row, and how many they are.
pub const KIND_AT: usize = 0;

pub const TAG_AT: usize = 1;

pub const PERMIT_AT: usize = 2;

pub const RUN_AT: usize = PERMIT_AT + rule_words::RULE_WIDTH;

pub const BEHALF_AT: usize = RUN_AT + rule_words::RULE_WIDTH;

pub const ROW_WIDTH: usize = BEHALF_AT + 1;

// The number there of a process that runs on behalf of no user, and of every file and volatile.
pub const NOBODY: u64 = 65535;

// The places in a user row, and how many they are.
pub const DECLARED_AT: usize = 0;

pub const USER_RULE_AT: usize = 1;

pub const USER_WIDTH: usize = USER_RULE_AT + rule_words::RULE_WIDTH;

// The first number of a declared user's row.
pub const DECLARED: u64 = 1;

// The user rows begin behind the container rows.
pub const USERS_AT: usize = image::CONTAINER_LIMIT * ROW_WIDTH;

pub const SESSION_LENGTH: usize = USERS_AT + image::USER_LIMIT * USER_WIDTH;

// ---- the test of a row

// The number behind the rules of a row in use: the user of a process, or nobody.
fn behalf_good(kind: u64, behalf: u64) -> bool
    ensures { result ≡ behalf_good kind behalf }
{
    if behalf == NOBODY {
        return true;
    }
    if !image::is_process(kind) {
        return false;
    }
    behalf < image::USER_LIMIT as u64
}

// The container row is as the session keeps it. The test that a free row is 0 names the length, which is then a constant in the
// loop, and the call needs no length.
// Kept: the C interface: a session is lent as one slice, of which rows and rules are parts, so that their lengths stand in the clauses.
pub fn container_row_good(row: &[u64]) -> bool
    requires { length row.now ≡ row_width }
    ensures { result ≡ container_row_good row.now }
{
    let kind = row[KIND_AT];
    if image::is_free(kind) {
        return rule_words::all_zero(&row[0..ROW_WIDTH]);
    }
    if !image::used_kind(kind) {
        return false;
    }
    if !rule_words::kept_well(&row[PERMIT_AT..PERMIT_AT + rule_words::RULE_WIDTH]) {
        return false;
    }
    if !rule_words::kept_well(&row[RUN_AT..RUN_AT + rule_words::RULE_WIDTH]) {
        return false;
    }
    behalf_good(kind, row[BEHALF_AT])
}

// The rules of the row have one mixture each, the usual ones: such rows are tested in place.
pub fn singles(row: &[u64]) -> bool
    requires { length row.now ≡ row_width }
    ensures { result ≡ singles row.now }
{
    if row[PERMIT_AT] != 1 {
        return false;
    }
    row[RUN_AT] == 1
}

// A row whose rules have one mixture each is as the session keeps it: a straight line. No such row is free.
pub fn single_row_good(row: &[u64]) -> bool
    requires { (length row.now ≡ row_width) × (singles row.now ≡ true) }
    ensures { result ≡ container_row_good row.now }
{
    let kind = row[KIND_AT];
    if !image::used_kind(kind) {
        return false;
    }
    if !rule_words::none_behind(&row[PERMIT_AT..PERMIT_AT + rule_words::RULE_WIDTH]) {
        return false;
    }
    if !rule_words::none_behind(&row[RUN_AT..RUN_AT + rule_words::RULE_WIDTH]) {
        return false;
    }
    behalf_good(kind, row[BEHALF_AT])
}

// The user row is as the session keeps it.
pub fn user_row_good(row: &[u64]) -> bool
    requires { length row.now ≡ user_width }
    ensures { result ≡ user_row_good row.now }
{
    let first = row[DECLARED_AT];
    if first == 0 {
        return rule_words::all_zero(row);
    }
    if first != DECLARED {
        return false;
    }
    rule_words::kept_well(&row[USER_RULE_AT..USER_RULE_AT + rule_words::RULE_WIDTH])
}

// ---- the start

// The row of a user whose rule has the number n.
fn put_user(row: &mut [u64], rules: RuleSections, n: usize)
    requires { (length row.old ≡ user_width) × (named (length rules.records.now / rule_size) n ≡ true) }
    ensures { row.new ≡ user_words (normal_at (rules_in rules.entry.records.now rules.entry.mixtures.now) n) }
{
    row[DECLARED_AT] = DECLARED;
    image::put_rule_at(
        &mut row[USER_RULE_AT..USER_RULE_AT + rule_words::RULE_WIDTH],
        rules,
        n,
    );
}

// The user rows: those of the users, over zeros.
fn fill_users(out: &mut [u64], users: &[u8], rules: RuleSections)
    requires { (out.old ≡ replicate (user_limit * user_width) 0)
        × (length users.now / user_size ≤ user_limit) × (every (named (length rules.records.now / rule_size)) (users_in users.now) ≡ true) }
    ensures { out.new ≡ filled user_width user_limit
        (map user_words (map (normal_at (rules_in rules.entry.records.now rules.entry.mixtures.now)) (users_in users.now))) }
{
    for i in 0..users.len() / image::USER_SIZE {
        let at = i * USER_WIDTH;
        put_user(
            &mut out[at..at + USER_WIDTH],
            rules,
            fields::read16(users, i * image::USER_SIZE),
        );
    }
}

// What a container that names the atom holds.
fn start_tag(atom: usize) -> u64
    requires { (ltb atom data_width || eqb atom no_atom) ≡ true }
    ensures { result ≡ start_tag atom }
{
    if atom == image::NO_ATOM {
        return 0;
    }
    1 << atom
}

// The numbers of a row in use.
pub fn put_row(row: &mut [u64], kind: u64, tag: u64, permit: Bounded, run: Bounded, behalf: u64)
    requires { length row.old ≡ row_width }
    ensures { row.new ≡ kind ∷ tag ∷ ((permit.count ∷ permit.mixtures) ++ ((run.count ∷ run.mixtures) ++ (behalf ∷ []))) }
{
    row[BEHALF_AT] = behalf;
    row[KIND_AT] = kind;
    row[TAG_AT] = tag;
    rule_words::put_rule(
        &mut row[PERMIT_AT..PERMIT_AT + rule_words::RULE_WIDTH],
        permit,
    );
    rule_words::put_rule(&mut row[RUN_AT..RUN_AT + rule_words::RULE_WIDTH], run);
}

// The row of a container record.
fn put_container_row(row: &mut [u64], r: &[u8], rules: RuleSections)
    requires { (length row.old ≡ row_width) × (length r.now ≡ container_size)
        × (container_good (length rules.records.now / rule_size) (container_in r.now) ≡ true) }
    ensures { row.new ≡ place_words (place_of (rules_in rules.entry.records.now rules.entry.mixtures.now) (container_in r.now)) }
{
    row[BEHALF_AT] = NOBODY;
    row[KIND_AT] = fields::read8(r, image::CONTAINER_KIND_AT) as u64;
    row[TAG_AT] = start_tag(fields::read8(r, image::CONTAINER_ATOM_AT));
    image::put_rule_at(
        &mut row[PERMIT_AT..PERMIT_AT + rule_words::RULE_WIDTH],
        rules,
        fields::read16(r, image::CONTAINER_PERMIT_AT),
    );
    image::put_rule_at(
        &mut row[RUN_AT..RUN_AT + rule_words::RULE_WIDTH],
        rules,
        fields::read16(r, image::CONTAINER_RUN_AT),
    );
}

// The container rows: those of the containers, over zeros.
fn fill_containers(out: &mut [u64], cs: &[u8], rules: RuleSections)
    requires { (out.old ≡ replicate (container_limit * row_width) 0)
        × (length cs.now / container_size ≤ container_limit) × (every (container_good (length rules.records.now / rule_size)) (containers_in cs.now) ≡ true) }
    ensures { out.new ≡ filled row_width container_limit
        (map place_words (map (place_of (rules_in rules.entry.records.now rules.entry.mixtures.now)) (containers_in cs.now))) }
{
    for i in 0..cs.len() / image::CONTAINER_SIZE {
        let at = i * ROW_WIDTH;
        let r = i * image::CONTAINER_SIZE;
        put_container_row(
            &mut out[at..at + ROW_WIDTH],
            &cs[r..r + image::CONTAINER_SIZE],
            rules,
        );
    }
}

// The session of an image's policy, whatever stood there.
pub fn start(image: &[u8], session: &mut [u64]) -> Result<(), Refusal>
    ensures { (outcome_number result ≡ start_answer image.now session.old) × (session.new ≡ start_effect image.now session.old) }
{
    if session.len() != SESSION_LENGTH {
        return Err(Refusal::LentLength);
    }
    let policy = image::accept(image)?;
    rule_words::clear(session);
    let rules = policy.rules();
    fill_containers(&mut session[0..USERS_AT], policy.containers(), rules);
    fill_users(
        &mut session[USERS_AT..SESSION_LENGTH],
        policy.users(),
        rules,
    );
    Ok(())
}

// The numbers of a session over those of another.
pub fn copy(from: &[u64], to: &mut [u64])
    requires { length from.now ≡ length to.old }
    ensures { to.new ≡ from.now }
{
    to.copy_from_slice(from);
}
