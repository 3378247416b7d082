// The normaliser, and the writer of normal images that it and other producers of a policy call (the paper, "Policy image").
#![tactic(auto)]

ghost use Rattle.std.specs.Prelude.{◌≡◌, true, cond, ◌&&◌, [], map, ◌+◌, ◌*◌, ◌/◌, ◌≤◌, ◌<◌, eqb, length, get_or, take, IfOk};
ghost use Rattle.lists.specs.Lists.{joined, every, position};
ghost use Rattle.fields.specs.Bytes.{records};
ghost use Rattle.fields.specs.Writing.{Wrote};
ghost use Rattle.image.specs.Limits.{pair_size, unrestricted_number, container_size, user_size, rule_size, mixture_size, header_size, output_bound};
ghost use Rattle.image.specs.Image.{containers_in, users_in};
ghost use Rattle.image.specs.Normal.{container_bytes, span_bytes, framed, normal_image, same_use, free_use};
ghost use Rattle.answers.specs.Outcomes.{outcome_number};
ghost use Rattle.normaliser.specs.Normaliser.{written_number, normal_answer, normal_effect, normal_refusal};
ghost use Rattle.normaliser.specs.Writer.{form_width, form_row, normal_use, form_in, use_limit, container_uses, policy_given, policy_at, form_words, Tabled, Answered};
ghost use Rattle.normaliser.specs.Hashes.{words_at, mixed, slot_limit, hash_of, alike, slot_of, Hashed};
ghost use Rattle.normaliser.specs.Tables.{form_at, form_good, class_of, Classified, class_at, class_named, with_class, with_classes, Ordered, Placeable, new_number, found, Cleared, word_limit};
ghost use Rattle.normaliser.specs.Sections.{pair_bytes, header_bytes, container_section, user_section, rule_section, mixture_bytes, mixture_section, Writable, owned_in, SectionsAccepted};

use answers::Refusal;
use image::RuleSections;

// The words of a rule's row: those of the rule, and behind them its owner.
pub const FORM_WIDTH: usize = rule_words::RULE_WIDTH + 1;

pub const OWNER_WORD: usize = rule_words::RULE_WIDTH;

// The most uses of a rule: two for each container, one for each user. A policy has no more rules to write.
pub const USE_LIMIT: usize = 2 * image::CONTAINER_LIMIT + image::USER_LIMIT;

// The most rules for which small tables do, and how many slots the small and the large tables have.
const FEW_RULES: usize = 16;

const FEW_SLOTS: usize = 64;

const MANY_SLOTS: usize = 2048;

// How a hash is made: by how many of its 64 bits a number is rotated for each word, how many numbers of half as many bits there are, and
// the factor that spreads them.
const WORD_BITS: u64 = 64;

const ROTATION: u64 = 5;

const ROTATED_BACK: u64 = WORD_BITS - ROTATION;

const HALF_WORDS: u64 = 1 << 32;

const SPREAD_FACTOR: u64 = 2654435761;

// What a spread number times the number of slots is divided by.
const KEY_DIVISOR: usize = HALF_WORDS as usize;

// The words of the rows of few rules, and of as many as an image can have.
const FEW_WORDS: usize = FEW_RULES * FORM_WIDTH;

const MANY_WORDS: usize = image::RULE_LIMIT * FORM_WIDTH;

// ---- records

// Two numbers of 16 bits: the two rules of a container, or the offset and length of a section.
fn put_pair(out: &mut [u8], at: usize, a: usize, b: usize) -> usize
    requires { at + pair_size ≤ length out.old }
    ensures { Wrote (pair_bytes a b) out.old out.new at result }
{
    let next = fields::put16(out, at, a);
    fields::put16(out, next, b)
}

// A container record.
pub fn put_container_record(
    out: &mut [u8],
    at: usize,
    kind: usize,
    atom: usize,
    permit: usize,
    run: usize,
) -> usize
    requires { at + container_size ≤ length out.old }
    ensures { Wrote (container_bytes (record { kind = kind; atom = atom; permit = permit; run = run })) out.old out.new at result }
{
    let a = fields::put8(out, at, kind);
    let b = fields::put8(out, a, atom);
    put_pair(out, b, permit, run)
}

// A rule record.
fn put_rule_record(out: &mut [u8], at: usize, first: usize, count: usize, owner: usize) -> usize
    requires { at + rule_size ≤ length out.old }
    ensures { Wrote (span_bytes (record { first = first; count = count; owner = owner })) out.old out.new at result }
{
    let next = put_pair(out, at, first, count);
    fields::put16(out, next, owner)
}

// ---- classes of equal rules

// The row is that of the unrestricted rule without an owner.
fn is_unrestricted(words: &[u64]) -> bool
    requires { length words.now ≡ form_width }
    ensures { result ≡ same_use (form_in words.now) free_use }
{
    if words[0] != 1 {
        return false;
    }
    if words[1] != rules::ALL_ATOMS {
        return false;
    }
    words[OWNER_WORD] as usize == image::NO_OWNER
}

// The first rule with the words of rule k.
fn first_same(forms: &[u64], k: usize) -> usize
    requires { k < length forms.now / form_width }
    ensures { result ≡ position (words_at forms.now k) (records form_width forms.now) }
{
    let a = k * FORM_WIDTH;
    for j in 0..k {
        let b = j * FORM_WIDTH;
        if rules::same(&forms[a..a + FORM_WIDTH], &forms[b..b + FORM_WIDTH]) {
            return j;
        }
    }
    k
}

// The class of a rule, given the first rule with its words.
fn class_by(words: &[u64], first: usize) -> usize
    requires { length words.now ≡ form_width }
    ensures { result ≡ cond (same_use (form_in words.now) free_use) unrestricted_number first }
{
    if is_unrestricted(words) {
        return image::UNRESTRICTED_NUMBER;
    }
    first
}

// A number that depends on all of the words.
fn mixed(words: &[u64]) -> u64
    ensures { result ≡ mixed 0 words.now }
{
    let mut h: u64 = 0;
    for &word in words {
        h = (h << ROTATION | h >> ROTATED_BACK) ^ word;
    }
    h
}

// The hash of a rule in a table of n slots.
fn hash(words: &[u64], n: usize) -> usize
    requires { (0 < n) × (n ≤ slot_limit) }
    ensures { (result ≡ hash_of n words.now) × (result < n) }
{
    let h = mixed(words);
    let folded = (h / HALF_WORDS + h % HALF_WORDS) % HALF_WORDS;
    let spread = folded * SPREAD_FACTOR % HALF_WORDS;
    spread as usize * n / KEY_DIVISOR
}

// The rows have the same first mixture and the same owner.
fn alike(a: &[u64], b: &[u64]) -> bool
    requires { (length a.now ≡ form_width) × (length b.now ≡ form_width) }
    ensures { result ≡ alike a.now b.now }
{
    if a[1] != b[1] {
        return false;
    }
    a[OWNER_WORD] == b[OWNER_WORD]
}

// The place of rule k in the hash table: that of its hash, or the one opposite if a rule is there that is not alike.
fn slot(forms: &[u64], slots: &[u16], k: usize) -> usize
    requires { (k < length forms.now / form_width) × Hashed forms.now slots.now k }
    ensures { (result ≡ slot_of forms.now slots.now (words_at forms.now k)) × (result < length slots.now) }
{
    let a = k * FORM_WIDTH;
    let h = hash(&forms[a..a + FORM_WIDTH], slots.len());
    let j = slots[h] as usize;
    if j == 0 {
        return h;
    }
    let b = (j - 1) * FORM_WIDTH;
    if alike(&forms[a..a + FORM_WIDTH], &forms[b..b + FORM_WIDTH]) {
        return h;
    }
    slots.len() - 1 - h
}

// The class of rule k, given those before it. A rule before it at its place is looked at first; without one it is the first of its class.
fn class_of(forms: &[u64], classes: &[u16], slots: &mut [u16], k: usize) -> usize
    requires { (k < length forms.now / form_width) × Classified forms.now classes.now k × Hashed forms.now slots.old k }
    ensures { (result ≡ class_of forms.now k) × Hashed forms.now slots.new (k + 1) }
{
    let a = k * FORM_WIDTH;
    let h = slot(forms, slots, k);
    let j = slots[h] as usize;
    if j == 0 {
        slots[h] = (k + 1) as u16;
        return class_by(&forms[a..a + FORM_WIDTH], k);
    }
    let b = (j - 1) * FORM_WIDTH;
    if rules::same(&forms[a..a + FORM_WIDTH], &forms[b..b + FORM_WIDTH]) {
        return classes[j - 1] as usize;
    }
    class_by(&forms[a..a + FORM_WIDTH], first_same(forms, k))
}

// The class of each rule.
fn classify(forms: &[u64], classes: &mut [u16], slots: &mut [u16])
    requires { (length forms.now / form_width ≤ length classes.old) × (length classes.old ≤ use_limit) × Hashed forms.now slots.old 0 }
    ensures { Classified forms.now classes.new (length forms.now / form_width) }
{
    let n = forms.len() / FORM_WIDTH;
    for k in 0..n {
        let v = class_of(forms, classes, slots, k);
        classes[k] = v as u16;
    }
}

// ---- classes by first use

// The class of rule number k takes the next place, unless it is the unrestricted one or has a place: how many places are taken.
// Kept: no plainer. A struct of order, ranks and m would have `Ordered` as its ghost field, which does not hold between the two writes below.
fn place(classes: &[u16], order: &mut [u16], ranks: &mut [u16], m: usize, k: usize) -> usize
    requires { Placeable classes.now order.old ranks.old m k }
    ensures { (take result order.new ≡ with_class (take m order.old) (class_at classes.now k)) × Ordered order.new ranks.new result }
{
    if k == image::UNRESTRICTED_NUMBER {
        return m;
    }
    let v = classes[k] as usize;
    if v == image::UNRESTRICTED_NUMBER {
        return m;
    }
    if ranks[v] != 0 {
        return m;
    }
    order[m] = v as u16;
    ranks[v] = (m + 1) as u16;
    m + 1
}

// The classes of the containers' rules, permit then run.
fn place_containers(
    containers: &[u8],
    classes: &[u16],
    order: &mut [u16],
    ranks: &mut [u16],
) -> usize
    requires { (every (class_named classes.now (length ranks.old)) (container_uses (containers_in containers.now)) ≡ true)
        × (length (with_classes [] (map (class_at classes.now) (container_uses (containers_in containers.now)))) ≤ length order.old)
        × Ordered order.old ranks.old 0 }
    ensures { (take result order.new ≡ with_classes [] (map (class_at classes.now) (container_uses (containers_in containers.now))))
        × Ordered order.new ranks.new result }
{
    let n = containers.len() / image::CONTAINER_SIZE;
    let mut m: usize = 0;
    for i in 0..n {
        let at = i * image::CONTAINER_SIZE;
        let permit = fields::read16(containers, at + 2);
        let run = fields::read16(containers, at + 4);
        let next = place(classes, order, ranks, m, permit);
        m = place(classes, order, ranks, next, run);
    }
    m
}

// The classes of the users' rules, behind the first m.
fn place_users(
    users: &[u8],
    classes: &[u16],
    order: &mut [u16],
    ranks: &mut [u16],
    m: usize,
) -> usize
    requires { (every (class_named classes.now (length ranks.old)) (users_in users.now) ≡ true)
        × (length (with_classes (take m order.old) (map (class_at classes.now) (users_in users.now))) ≤ length order.old)
        × Ordered order.old ranks.old m }
    ensures { (take result order.new ≡ with_classes (take m order.old) (map (class_at classes.now) (users_in users.now)))
        × Ordered order.new ranks.new result }
{
    let n = users.len() / image::USER_SIZE;
    let mut k = m;
    for i in 0..n {
        let rule = fields::read16(users, i * image::USER_SIZE);
        k = place(classes, order, ranks, k, rule);
    }
    k
}

// ---- new numbers

// How the rule numbers change: the class of each rule, and the place of each class in the order of first use, counted from 1.
#[derive(Clone, Copy)]
struct Numbering<'a> {
    classes: &'a [u16],
    ranks: &'a [u16],
}

impl Numbering<'_> {
    // The new number of rule k.
    fn number(&self, k: usize) -> usize
        requires { found self.now.classes.now self.now.ranks.now k ≡ true }
        ensures { result ≡ new_number self.now.classes.now self.now.ranks.now k }
    {
        if k == image::UNRESTRICTED_NUMBER {
            return image::UNRESTRICTED_NUMBER;
        }
        let v = self.classes[k] as usize;
        if v == image::UNRESTRICTED_NUMBER {
            return image::UNRESTRICTED_NUMBER;
        }
        (self.ranks[v] - 1) as usize
    }

    // The containers with their new rule numbers: the place behind them.
    fn write_containers(&self, out: &mut [u8], start: usize, containers: &[u8]) -> usize
        requires { (start + length containers.now / container_size * container_size ≤ length out.old)
            × (every (found self.now.classes.now self.now.ranks.now) (container_uses (containers_in containers.now)) ≡ true) }
        ensures { Wrote (container_section containers.now self.now.classes.now self.now.ranks.now) out.old out.new start result }
    {
        let n = containers.len() / image::CONTAINER_SIZE;
        let mut at = start;
        for i in 0..n {
            let from = i * image::CONTAINER_SIZE;
            let kind = fields::read8(containers, from);
            let atom = fields::read8(containers, from + 1);
            let permit = self.number(fields::read16(containers, from + 2));
            let run = self.number(fields::read16(containers, from + 4));
            at = put_container_record(out, at, kind, atom, permit, run);
        }
        at
    }

    // The users with their new rule numbers: the place behind them.
    fn write_users(&self, out: &mut [u8], start: usize, users: &[u8]) -> usize
        requires { (start + length users.now / user_size * user_size ≤ length out.old)
            × (every (found self.now.classes.now self.now.ranks.now) (users_in users.now) ≡ true) }
        ensures { Wrote (user_section users.now self.now.classes.now self.now.ranks.now) out.old out.new start result }
    {
        let n = users.len() / image::USER_SIZE;
        let mut at = start;
        for i in 0..n {
            let rule = self.number(fields::read16(users, i * image::USER_SIZE));
            at = fields::put16(out, at, rule);
        }
        at
    }
}

// The rule records of the rules in order: the place behind them.
fn write_spans(out: &mut [u8], start: usize, forms: &[u64], order: &[u16]) -> usize
    requires { (start + length order.now * rule_size ≤ length out.old) × (every (form_good forms.now) order.now ≡ true) }
    ensures { Wrote (rule_section forms.now order.now) out.old out.new start result }
{
    let mut at = start;
    let mut first: usize = 0;
    for &k in order {
        let v = k as usize * FORM_WIDTH;
        let count = forms[v] as usize;
        let owner = forms[v + OWNER_WORD] as usize;
        at = put_rule_record(out, at, first, count, owner);
        first += count;
    }
    at
}

// The mixtures of a rule: the place behind them.
fn write_rule(out: &mut [u8], start: usize, rule: &[u64]) -> usize
    requires { start + length rule.now * mixture_size ≤ length out.old }
    ensures { Wrote (mixture_bytes rule.now) out.old out.new start result }
{
    let mut at = start;
    for &mixture in rule {
        at = fields::put64(out, at, mixture);
    }
    at
}

// The mixtures of the rules in order: the place behind them.
fn write_mixtures(out: &mut [u8], start: usize, forms: &[u64], order: &[u16]) -> usize
    requires { (start + length (joined (map (form_at forms.now) order.now)) * mixture_size ≤ length out.old) × (every (form_good forms.now) order.now ≡ true) }
    ensures { Wrote (mixture_section forms.now order.now) out.old out.new start result }
{
    let mut at = start;
    for &k in order {
        let v = k as usize * FORM_WIDTH;
        let count = forms[v] as usize;
        at = write_rule(out, at, &forms[v + 1..v + 1 + count]);
    }
    at
}

// The header of an image whose sections have c, u, r and m bytes.
fn write_header(out: &mut [u8], c: usize, u: usize, r: usize, m: usize) -> usize
    requires { header_size + c + u + r + m ≤ length out.old }
    ensures { Wrote (header_bytes c u r m) out.old out.new 0 result }
{
    let second = image::HEADER_SIZE + c;
    let third = second + u;
    let a = fields::put16(out, 0, image::LEADING_NUMBER);
    let b = put_pair(out, a, image::HEADER_SIZE, c);
    let d = put_pair(out, b, second, u);
    let e = put_pair(out, d, third, r);
    put_pair(out, e, third + r, m)
}

// ---- the image

// A policy in tables: containers and users as an image has them, rules in words and in normal form.
#[derive(Clone, Copy)]
struct TabledPolicy<'a> {
    containers: &'a [u8],
    users: &'a [u8],
    forms: &'a [u64],
    ghost tabled: { Tabled containers.now users.now forms.now },
}

impl TabledPolicy<'_> {
    // The image of the tables: its length.
    fn write_image(&self, out: &mut [u8], numbering: &Numbering, order: &[u16]) -> usize
        requires { Writable self.now.containers.now self.now.users.now self.now.forms.now numbering.now.classes.now numbering.now.ranks.now order.now out.old }
        ensures { Wrote
            (framed (container_section self.now.containers.now numbering.now.classes.now numbering.now.ranks.now)
            (user_section self.now.users.now numbering.now.classes.now numbering.now.ranks.now)
            (rule_section self.now.forms.now order.now)
            (mixture_section self.now.forms.now order.now))
            out.old out.new 0 result }
    {
        let a = image::HEADER_SIZE;
        let b = numbering.write_containers(out, a, self.containers);
        let c = numbering.write_users(out, b, self.users);
        let d = write_spans(out, c, self.forms, order);
        let end = write_mixtures(out, d, self.forms, order);
        write_header(out, b - a, c - b, d - c, end - d);
        end
    }

    // Its normal image, by way of tables for classes, hashes, order and ranks.
    // Kept: no plainer. This function alone takes all four tables; those that it calls take the two or three of them that they use.
    fn write_by(
        &self,
        classes: &mut [u16],
        slots: &mut [u16],
        order: &mut [u16],
        ranks: &mut [u16],
        out: &mut [u8],
    ) -> usize
        requires { Cleared self.now.forms.now classes.old slots.old order.old ranks.old × (output_bound ≤ length out.old) }
        ensures { Answered (policy_at self.now.containers.now self.now.users.now self.now.forms.now) out.old out.new result }
    {
        classify(self.forms, classes, slots);
        let first = place_containers(self.containers, classes, order, ranks);
        let m = place_users(self.users, classes, order, ranks, first);
        if image::RULE_LIMIT < m {
            return 0;
        }
        let numbering = Numbering { classes, ranks };
        self.write_image(out, &numbering, &order[0..m])
    }

    // Its normal image, by way of tables for so many rules, with so many slots. Small tables are quick to clear.
    fn write_sized<const USES: usize, const SLOTS: usize>(&self, out: &mut [u8]) -> usize
        requires { (length self.now.forms.now / form_width ≤ USES) × (USES ≤ use_limit) × (0 < SLOTS) × (SLOTS ≤ slot_limit) × (output_bound ≤ length out.old) }
        ensures { Answered (policy_at self.now.containers.now self.now.users.now self.now.forms.now) out.old out.new result }
    {
        let mut classes = [0u16; USES];
        let mut slots = [0u16; SLOTS];
        let mut order = [0u16; USES];
        let mut ranks = [0u16; USES];
        self.write_by(&mut classes, &mut slots, &mut order, &mut ranks, out)
    }
}

// The normal image of a policy: containers and users as an image has them, rules in words and in normal form.
// Its length; 0 if it would need over 256 rules, and the output is as it was.
pub fn write_policy(containers: &[u8], users: &[u8], forms: &[u64], out: &mut [u8]) -> usize
    requires { Tabled containers.now users.now forms.now × (output_bound ≤ length out.old) }
    ensures { Answered (policy_at containers.now users.now forms.now) out.old out.new result }
{
    let policy = TabledPolicy {
        containers,
        users,
        forms,
    };
    if forms.len() / FORM_WIDTH <= FEW_RULES {
        policy.write_sized::<FEW_RULES, FEW_SLOTS>(out)
    } else {
        policy.write_sized::<USE_LIMIT, MANY_SLOTS>(out)
    }
}

// ---- the normaliser

// The sections of an image that is accepted.
#[derive(Clone, Copy)]
struct Sections<'a> {
    containers: &'a [u8],
    users: &'a [u8],
    rules: RuleSections<'a>,
    ghost accepted: { SectionsAccepted containers.now users.now rules.records.now rules.mixtures.now },
}

impl Sections<'_> {
    // How many rules they have.
    fn rule_count(&self) -> usize
        ensures { result ≡ length self.now.rules.records.now / rule_size }
    {
        self.rules.records.len() / image::RULE_SIZE
    }

    // Rule k in normal form, with its owner.
    fn put_row(&self, row: &mut [u64], k: usize)
        requires { (length row.old ≡ form_width) × (k < length self.now.rules.records.now / rule_size) }
        ensures { row.new ≡ form_row (normal_use (get_or (owned_in self.now.rules.records.now self.now.rules.mixtures.now) k free_use)) }
    {
        image::put_own_rule(&mut row[0..OWNER_WORD], self.rules, k);
        let owner = k * image::RULE_SIZE + image::RULE_OWNER_AT;
        row[OWNER_WORD] = fields::read16(self.rules.records, owner) as u64;
    }

    // The rules in normal form.
    fn fill_forms(&self, forms: &mut [u64])
        requires { length forms.old ≡ length self.now.rules.records.now / rule_size * form_width }
        ensures { forms.new ≡ form_words (owned_in self.now.rules.records.now self.now.rules.mixtures.now) }
    {
        for k in 0..self.rule_count() {
            let at = k * FORM_WIDTH;
            self.put_row(&mut forms[at..at + FORM_WIDTH], k);
        }
    }

    // The normal image of their policy, by way of so many words for the rules and tables of so many rules and slots: its length.
    fn rewrite_sized<const WORDS: usize, const USES: usize, const SLOTS: usize>(
        &self,
        out: &mut [u8],
    ) -> usize
        requires { (length self.now.rules.records.now / rule_size * form_width ≤ WORDS) × (WORDS ≤ word_limit)
            × (length self.now.rules.records.now / rule_size ≤ USES) × (USES ≤ use_limit) × (0 < SLOTS) × (SLOTS ≤ slot_limit) × (output_bound ≤ length out.old) }
        ensures { Wrote (normal_image (policy_given self.now.containers.now self.now.users.now (owned_in self.now.rules.records.now self.now.rules.mixtures.now)))
            out.old out.new 0 result }
    {
        // Kept: a rule of the project: no heap, so the array has room for the most that there can be.
        let mut words = [0u64; WORDS];
        let words = &mut words[..];
        let forms = &mut words[..self.rule_count() * FORM_WIDTH];
        self.fill_forms(forms);
        let policy = TabledPolicy {
            containers: self.containers,
            users: self.users,
            forms,
        };
        policy.write_sized::<USES, SLOTS>(out)
    }

    // There is no container and no user, so that no rule is in use.
    fn names_nothing(&self) -> bool
        ensures { result ≡ (eqb (length self.now.containers.now) 0 && eqb (length self.now.users.now) 0) }
    {
        self.containers.len() == 0 && self.users.len() == 0
    }

    // The normal image of their policy: its length. Without any use of a rule it is a header alone, and no table is made.
    fn rewrite(&self, out: &mut [u8]) -> usize
        requires { output_bound ≤ length out.old }
        ensures { Wrote (normal_image (policy_given self.now.containers.now self.now.users.now (owned_in self.now.rules.records.now self.now.rules.mixtures.now)))
            out.old out.new 0 result }
    {
        if self.names_nothing() {
            return write_header(out, 0, 0, 0, 0);
        }
        if self.rule_count() <= FEW_RULES {
            self.rewrite_sized::<FEW_WORDS, FEW_RULES, FEW_SLOTS>(out)
        } else {
            self.rewrite_sized::<MANY_WORDS, USE_LIMIT, MANY_SLOTS>(out)
        }
    }
}

// The normal image of an image: its length, or the refusal.
pub fn normalise(image: &[u8], out: &mut [u8]) -> Result<usize, Refusal>
    ensures { (written_number result ≡ normal_answer image.now out.old) × (out.new ≡ normal_effect image.now out.old)
        × IfOk result (λ n. n ≤ output_bound) × (outcome_number result ≡ normal_refusal image.now out.old) }
{
    if out.len() < image::OUTPUT_BOUND {
        return Err(Refusal::LentLength);
    }
    let policy = image::accept(image)?;
    let sections = Sections {
        containers: policy.containers(),
        users: policy.users(),
        rules: policy.rules(),
    };
    Ok(sections.rewrite(out))
}
