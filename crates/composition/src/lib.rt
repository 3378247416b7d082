// Two policies composed, with the consent of the owners of sources (change request No. 11, after source document 003).
#![tactic(auto)]

ghost use Rattle.std.specs.Prelude.{◌≡◌, true, ◌&&◌, map, ◌+◌, ◌*◌, ◌/◌, ◌≤◌, ◌<◌, length, get_or};
ghost use Rattle.lists.specs.Counting.{count_from};
ghost use Rattle.lists.specs.Lists.{same_list, joined};
ghost use Rattle.fields.specs.Bytes.{bytes_of};
ghost use Rattle.fields.specs.Writing.{Wrote};
ghost use Rattle.rules.specs.Rules.{normal};
ghost use Rattle.rules.specs.Answers.{mixture_limit, bounded_if_fits};
ghost use Rattle.rule_words.specs.Words.{rule_width, kept_well};
ghost use Rattle.image.specs.Limits.{user_size, container_limit, container_size, user_limit, rule_size, output_bound};
ghost use Rattle.image.specs.Policy.{owner_at, named};
ghost use Rattle.image.specs.Image.{policy_in, containers_in, owners_in};
ghost use Rattle.image.specs.Normal.{use_at, container_bytes};
ghost use Rattle.normaliser.specs.Writer.{form_width, form_row};
ghost use Rattle.composition.specs.Composed.{consent_good, consenting, enters, entering, composed_rule, composed_owner, composed_use};
ghost use Rattle.composition.specs.Images.{same_containers, same_shape, input_good, composition_of, compose_answer, compose_effect};
ghost use Rattle.composition.specs.Tables.{entering_limit, Entered, WordsComposed, used_numbers, UsePut, Paired, pair_uses, use_count, UsesPut, own_numbers, pair_owned, PairWritten};

use answers::Refusal;
use image::Accepted;
use rules::Bounded;

// The most mixtures of two rules.
const ENTERING_LIMIT: usize = 2 * rules::MIXTURE_LIMIT;

// The words of the rows of the most uses, and the bytes of the most containers and users.
const USE_WORDS: usize = normaliser::USE_LIMIT * normaliser::FORM_WIDTH;

const CONTAINER_BYTES: usize = image::CONTAINER_LIMIT * image::CONTAINER_SIZE;

const USER_BYTES: usize = image::USER_LIMIT * image::USER_SIZE;

// ---- consent

// 32 bytes, each 0 or 1.
fn consent_good(consent: &[u8]) -> bool
    ensures { result ≡ consent_good consent.now }
{
    if consent.len() != image::DATA_WIDTH {
        return false;
    }
    consent.iter().all(|&b| b <= 1)
}

// The atoms that consent, each with its twin.
fn consent_set(consent: &[u8]) -> u64
    requires { consent_good consent.now ≡ true }
    ensures { result ≡ consenting consent.now }
{
    let mut atoms: u64 = 0;
    for &b in consent.iter().rev() {
        atoms = b as u64 + 2 * atoms;
    }
    atoms | rules::running_atoms(atoms)
}

// ---- two rules

// The mixture enters: all its atoms consent, or the other rule covers it.
fn enters(m: u64, other: &[u64], consent: u64) -> bool
    requires { length other.now ≤ mixture_limit }
    ensures { result ≡ enters consent other.now m }
{
    if consent & m == m {
        return true;
    }
    rules::covers(other, m)
}

// Puts the mixtures of a rule that enter behind the first n of the list: how many it then has.
fn list_entering(list: &mut [u64], n: usize, rule: &[u64], other: &[u64], consent: u64) -> usize
    requires { (length list.old ≡ entering_limit) × (n + length rule.now ≤ entering_limit) × (length other.now ≤ mixture_limit) }
    ensures { Entered (entering consent other.now rule.now) list.old list.new n result }
{
    let mut at = n;
    for &m in rule {
        if enters(m, other, consent) {
            list[at] = m;
            at += 1;
        }
    }
    at
}

// The rule composed of two in normal form, by way of the list of what enters.
fn composed(r: &[u64], s: &[u64], consent: u64) -> Option<Bounded>
    requires { (length r.now ≤ mixture_limit) × (length s.now ≤ mixture_limit) × (normal r.now ≡ r.now) × (normal s.now ≡ s.now) }
    ensures { result ≡ bounded_if_fits (composed_rule consent r.now s.now) }
{
    // Kept: a rule of the project: no heap, so the array has room for the most that there can be.
    let mut list = [0u64; ENTERING_LIMIT];
    let n = list_entering(&mut list, 0, r, s, consent);
    let m = list_entering(&mut list, n, s, r, consent);
    rules::normal(&list[0..m])
}

// The words of two rules in normal form: equal ones stay.
fn compose_words(words: &mut [u64], other: &[u64], consent: u64) -> bool
    requires { (length words.old ≡ rule_width) × (length other.now ≡ rule_width) × (kept_well words.old ≡ true) × (kept_well other.now ≡ true) }
    ensures { WordsComposed consent words.old other.now words.new result }
{
    if rules::same(words, other) {
        return true;
    }
    let Some(rule) = composed(
        rule_words::rule_of(words),
        rule_words::rule_of(other),
        consent,
    ) else {
        return false;
    };
    rule_words::put_rule(words, rule);
    true
}

// ---- two uses of a rule

// The owner of the rule with the number n.
fn owner_at(rules: &[u8], n: usize) -> u64
    requires { named (length rules.now / rule_size) n ≡ true }
    ensures { result ≡ owner_at (owners_in rules.now) n }
{
    if n == image::UNRESTRICTED_NUMBER {
        return image::NO_OWNER as u64;
    }
    fields::read16(rules, n * image::RULE_SIZE + image::RULE_OWNER_AT) as u64
}

// An owner stays where both agree.
fn common_owner(a: u64, b: u64) -> u64
    ensures { result ≡ composed_owner a b }
{
    if a == b {
        return a;
    }
    image::NO_OWNER as u64
}

// The row of the rule with the number n.
fn put_use(row: &mut [u64], policy: Accepted, n: usize)
    requires { (length row.old ≡ form_width) × (named (length (policy_in policy.bytes.now).rules) n ≡ true) }
    ensures { row.new ≡ form_row (use_at (policy_in policy.entry.bytes.now) n) }
{
    let rules = policy.rules();
    image::put_rule_at(&mut row[0..normaliser::OWNER_WORD], rules, n);
    row[normaliser::OWNER_WORD] = owner_at(rules.records, n);
}

// The row of the rule with the number i of the first image composed with the rule with the number j of the second, if it fits.
fn put_composed(
    row: &mut [u64],
    first: Accepted,
    i: usize,
    second: Accepted,
    j: usize,
    consent: u64,
) -> bool
    requires { (length row.old ≡ form_width)
        × (named (length (policy_in first.bytes.now).rules) i ≡ true) × (named (length (policy_in second.bytes.now).rules) j ≡ true) }
    ensures { UsePut (composed_use consent (use_at (policy_in first.entry.bytes.now) i) (use_at (policy_in second.entry.bytes.now) j)) row.new result }
{
    put_use(row, first, i);
    // Kept: a rule of the project: no heap, so the array has room for the most that there can be.
    let mut other = [0u64; normaliser::FORM_WIDTH];
    put_use(&mut other, second, j);
    row[normaliser::OWNER_WORD] = common_owner(
        row[normaliser::OWNER_WORD],
        other[normaliser::OWNER_WORD],
    );
    compose_words(
        &mut row[0..normaliser::OWNER_WORD],
        &other[0..normaliser::OWNER_WORD],
        consent,
    )
}

// ---- all uses

// The rule number of use k: permit then run of each container, then the users.
fn number_at(policy: Accepted, k: usize) -> usize
    requires { k < use_count policy.bytes.now }
    ensures { result ≡ get_or (used_numbers (policy_in policy.entry.bytes.now)) k 0 }
{
    let containers = policy.containers();
    let n = 2 * (containers.len() / image::CONTAINER_SIZE);
    if k < n {
        let at = k / 2 * image::CONTAINER_SIZE;
        if k % 2 == 0 {
            return fields::read16(containers, at + image::CONTAINER_PERMIT_AT);
        }
        return fields::read16(containers, at + image::CONTAINER_RUN_AT);
    }
    fields::read16(policy.users(), (k - n) * image::USER_SIZE)
}

// The rows of all uses, if each fits.
fn put_uses(forms: &mut [u64], first: Accepted, second: Accepted, consent: u64) -> bool
    requires { (length forms.old ≡ use_count first.bytes.now * form_width) × Paired first.bytes.now second.bytes.now }
    ensures { UsesPut (pair_uses consent first.entry.bytes.now second.entry.bytes.now) forms.new result }
{
    let count = forms.len() / normaliser::FORM_WIDTH;
    for k in 0..count {
        let at = k * normaliser::FORM_WIDTH;
        let i = number_at(first, k);
        let j = number_at(second, k);
        if !put_composed(
            &mut forms[at..at + normaliser::FORM_WIDTH],
            first,
            i,
            second,
            j,
            consent,
        ) {
            return false;
        }
    }
    true
}

// ---- the policy

// The containers, each with two rules of its own.
fn put_places(out: &mut [u8], containers: &[u8]) -> usize
    requires { (length containers.now / container_size ≤ container_limit) × (container_limit * container_size ≤ length out.old) }
    ensures { Wrote (joined (map container_bytes (own_numbers 0 (containers_in containers.now)))) out.old out.new 0 result }
{
    let n = containers.len() / image::CONTAINER_SIZE;
    let mut at: usize = 0;
    for i in 0..n {
        let from = i * image::CONTAINER_SIZE;
        let kind = fields::read8(containers, from + image::CONTAINER_KIND_AT);
        let atom = fields::read8(containers, from + image::CONTAINER_ATOM_AT);
        at = normaliser::put_container_record(out, at, kind, atom, 2 * i, 2 * i + 1);
    }
    at
}

// The users, each with a rule of its own, from a number on.
fn put_users(out: &mut [u8], from: usize, n: usize) -> usize
    requires { (n ≤ user_limit) × (from ≤ 2 * container_limit) × (user_limit * user_size ≤ length out.old) }
    ensures { Wrote (joined (map (bytes_of user_size) (count_from from n))) out.old out.new 0 result }
{
    let mut at: usize = 0;
    for i in 0..n {
        at = fields::put16(out, at, from + i);
    }
    at
}

// Writes the normal image of two images composed and gives its length, if each rule fits and there are not too many.
fn write_pair(first: Accepted, second: Accepted, consent: u64, out: &mut [u8]) -> Option<usize>
    requires { Paired first.bytes.now second.bytes.now × (output_bound ≤ length out.old) }
    ensures { PairWritten (pair_owned consent first.entry.bytes.now second.entry.bytes.now) out.old out.new result }
{
    let containers = first.containers();
    let n = containers.len() / image::CONTAINER_SIZE;
    let u = first.users().len() / image::USER_SIZE;
    // Kept: a rule of the project: no heap, so the array has room for the most that there can be.
    let mut forms = [0u64; USE_WORDS];
    let w = (2 * n + u) * normaliser::FORM_WIDTH;
    if !put_uses(&mut forms[0..w], first, second, consent) {
        return None;
    }
    // Kept: a rule of the project: no heap, so the array has room for the most that there can be.
    let mut places = [0u8; CONTAINER_BYTES];
    let a = put_places(&mut places, containers);
    // Kept: a rule of the project: no heap, so the array has room for the most that there can be.
    let mut users = [0u8; USER_BYTES];
    let b = put_users(&mut users, 2 * n, u);
    let length = normaliser::write_policy(&places[0..a], &users[0..b], &forms[0..w], out);
    if length == 0 { None } else { Some(length) }
}

// ---- two images

// The containers agree in number, kind and atom.
fn same_containers(a: &[u8], b: &[u8]) -> bool
    ensures { result ≡ same_containers (containers_in a.now) (containers_in b.now) }
{
    let n = a.len() / image::CONTAINER_SIZE;
    if b.len() / image::CONTAINER_SIZE != n {
        return false;
    }
    for i in 0..n {
        let at = i * image::CONTAINER_SIZE;
        if fields::read8(a, at + image::CONTAINER_KIND_AT)
            != fields::read8(b, at + image::CONTAINER_KIND_AT)
        {
            return false;
        }
        if fields::read8(a, at + image::CONTAINER_ATOM_AT)
            != fields::read8(b, at + image::CONTAINER_ATOM_AT)
        {
            return false;
        }
    }
    true
}

// The images have one shape: the same containers, and as many users.
fn same_shape(first: Accepted, second: Accepted) -> bool
    ensures { result ≡ same_shape (policy_in first.entry.bytes.now) (policy_in second.entry.bytes.now) }
{
    if !same_containers(first.containers(), second.containers()) {
        return false;
    }
    first.users().len() / image::USER_SIZE == second.users().len() / image::USER_SIZE
}

// The images can be composed: one shape, and a consent.
fn input_good(first: Accepted, second: Accepted, consent: &[u8]) -> bool
    ensures { result ≡ input_good first.entry.bytes.now second.entry.bytes.now consent.now }
{
    if !same_shape(first, second) {
        return false;
    }
    consent_good(consent)
}

// Two images are the same bytes. No branch depends on them.
fn same_bytes(a: &[u8], b: &[u8]) -> bool
    ensures { result ≡ same_list a.now b.now }
{
    if a.len() != b.len() {
        return false;
    }
    let mut all: u8 = 0;
    for (i, &x) in a.iter().enumerate() {
        all |= x ^ b[i];
    }
    all == 0
}

// It is one image twice, and there is a consent.
fn is_repeated(first: &[u8], second: &[u8], consent: &[u8]) -> bool
    ensures { result ≡ (consent_good consent.now && same_list first.now second.now) }
{
    if !consent_good(consent) {
        return false;
    }
    same_bytes(first, second)
}

// Writes two images composed as a normal image and gives its length: an image with itself as its normal image; else 9, then what the first
// image is refused for, then the second, then 20 and 21.
pub fn compose(
    first: &[u8],
    second: &[u8],
    consent: &[u8],
    out: &mut [u8],
) -> Result<usize, Refusal>
    ensures { (composition_of result ≡ compose_answer first.now second.now consent.now out.old)
        × (out.new ≡ compose_effect first.now second.now consent.now out.old) }
{
    if is_repeated(first, second, consent) {
        return normaliser::normalise(first, out);
    }
    if out.len() < image::OUTPUT_BOUND {
        return Err(Refusal::LentLength);
    }
    let first = image::accept(first)?;
    let second = image::accept(second)?;
    if !input_good(first, second, consent) {
        return Err(Refusal::CompositionInput);
    }
    write_pair(first, second, consent_set(consent), out).ok_or(Refusal::CompositionLimit)
}
