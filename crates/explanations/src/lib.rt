// The lines that explain an alert or a blocked access, into a lent buffer. Each function writes its text at a place of the buffer and
// returns the place behind it; every other byte is left. The steps of a chain are written in parts.
#![tactic(auto)]

ghost use Rattle.std.specs.Prelude.{[], ◌∷◌, ◌+◌, ◌*◌, ◌≤◌, ◌≡◌, length, take, drop};
ghost use Rattle.lists.specs.Lists.{elem};
ghost use Rattle.fields.specs.Ascii.{ascii};
ghost use Rattle.fields.specs.Writing.{Wrote};
ghost use Rattle.listing.specs.Text.{decimal};
ghost use Rattle.listing.specs.Lines.{leading};
ghost use Rattle.listing.specs.Buffer.{field_limit, line_limit};
ghost use Rattle.explanations.specs.Lines.{step_field, step_fields, found_line, origin_word, rule_fields, lacks_line, way_fields, explained_total_line};
ghost use Rattle.explanations.specs.Buffer.{opened, part_limit};

use listing::{NEWLINE, SPACE};

// The bytes of a buffer: a part of 2,048 steps of at most 21 bytes fits, and so does any other line.
pub const BUFFER_SIZE: usize = 65536;

// The most steps of a part.
const PART_LIMIT: usize = 2048;

// The origins of a rule: the container's own permit rule, the rule of the user who made the file, that of an exec's user. Any other is a
// run rule.
// Kept: the C interface: the origin comes in as one of the numbers that `certificate::why` gives.
const OWN_ORIGIN: u64 = 0;

const MADE_ORIGIN: u64 = 1;

const USER_ORIGIN: u64 = 2;

// The step of a record behind another field.
fn put_step(out: &mut [u8], at: usize, n: u64) -> usize
    requires { at + field_limit ≤ length out.old }
    ensures { Wrote (leading (step_field n ∷ [])) out.old out.new at result }
{
    listing::put_field(out, at, answers::more(n))
}

// The line of what is explained: record number n, whose receiver is c.
pub fn put_found(out: &mut [u8], at: usize, blocked: bool, n: u64, c: u64) -> usize
    requires { at + line_limit ≤ length out.old }
    ensures { Wrote (found_line blocked n c) out.old out.new at result }
{
    let step = answers::more(n);
    if blocked {
        let next = listing::put_named(out, at, b"blocked ", step, SPACE);
        return listing::put_number(out, next, c, NEWLINE);
    }
    let next = listing::put_named(out, at, b"alert ", step, SPACE);
    listing::put_number(out, next, c, NEWLINE)
}

// The word of a rule's origin behind the first field.
fn put_origin(out: &mut [u8], at: usize, origin: u64) -> usize
    requires { at + line_limit ≤ length out.old }
    ensures { Wrote (opened (ascii "rule") (origin_word origin ∷ [])) out.old out.new at result }
{
    if origin == OWN_ORIGIN {
        return listing::put_text(out, at, b"rule own");
    }
    if origin == MADE_ORIGIN {
        return listing::put_text(out, at, b"rule made");
    }
    if origin == USER_ORIGIN {
        return listing::put_text(out, at, b"rule user");
    }
    listing::put_text(out, at, b"rule run")
}

// Two numbers, each behind another field.
fn put_pair(out: &mut [u8], at: usize, m: u64, n: u64) -> usize
    requires { at + 2 * field_limit ≤ length out.old }
    ensures { Wrote (leading (decimal m ∷ decimal n ∷ [])) out.old out.new at result }
{
    let next = listing::put_field(out, at, m);
    listing::put_field(out, next, n)
}

// The line of a rule up to the steps of its chain.
// Kept: no plainer: a writer with the buffer and the place inside would need the same bound in each clause, since it says how much room is left.
pub fn put_rule(
    out: &mut [u8],
    at: usize,
    origin: u64,
    rule: u64,
    owner: u64,
    n: u64,
    holder: u64,
) -> usize
    requires { at + line_limit ≤ length out.old }
    ensures { Wrote (opened (ascii "rule") (rule_fields origin rule owner n holder)) out.old out.new at result }
{
    let word = put_origin(out, at, origin);
    let next = put_pair(out, word, rule, owner);
    if origin == OWN_ORIGIN {
        return next;
    }
    put_pair(out, next, answers::more(n), holder)
}

// The line of a mixture and of the atom that it lacks.
pub fn put_lacks(out: &mut [u8], at: usize, mixture: u64, atom: u64) -> usize
    requires { at + line_limit ≤ length out.old }
    ensures { Wrote (lacks_line mixture atom) out.old out.new at result }
{
    let word = listing::put_text(out, at, b"lacks ");
    let next = listing::put_tag(out, word, mixture);
    listing::put_number(out, next, atom, NEWLINE)
}

// The line of an atom's way up to its steps.
pub fn put_way(out: &mut [u8], at: usize, atom: u64, file: u64) -> usize
    requires { at + line_limit ≤ length out.old }
    ensures { Wrote (opened (ascii "way") (way_fields atom file)) out.old out.new at result }
{
    let next = listing::put_text(out, at, b"way");
    put_pair(out, next, atom, file)
}

// The numbers from a place on, as many as a part has.
pub fn part_at(numbers: &[u64], at: usize) -> &[u64]
    requires { at ≤ length numbers.now }
    ensures { result.now ≡ take part_limit (drop at numbers.now) }
{
    if numbers.len() - at < PART_LIMIT {
        return &numbers[at..];
    }
    &numbers[at..at + PART_LIMIT]
}

// The steps of a part.
pub fn put_steps(out: &mut [u8], at: usize, numbers: &[u64]) -> usize
    requires { at + field_limit * length numbers.now ≤ length out.old }
    ensures { Wrote (leading (step_fields numbers.now)) out.old out.new at result }
{
    let mut next = at;
    for &n in numbers {
        next = put_step(out, next, n);
    }
    next
}

// The number is one of these.
pub fn is_among(numbers: &[u64], n: u64) -> bool
    ensures { result ≡ elem n numbers.now }
{
    numbers.contains(&n)
}

// The last line.
pub fn put_total(out: &mut [u8], at: usize, records: u64, explained: u64) -> usize
    requires { at + line_limit ≤ length out.old }
    ensures { Wrote (explained_total_line records explained) out.old out.new at result }
{
    let next = listing::put_named(out, at, b"total ", records, SPACE);
    listing::put_named(out, next, b"explained ", explained, NEWLINE)
}
