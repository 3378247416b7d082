// The listing that the watch program prints, line by line, into a lent buffer (the paper, "Checked examples").
// Each function writes its text at a place of the buffer and returns the place behind it. Every other byte is left by the
// public ones; a part of a step's line may change up to four bytes behind it, which the next part overwrites.
#![tactic(auto)]

ghost use Rattle.std.specs.Prelude.{◌≡◌, [], ◌∷◌, ◌++◌, ◌+◌, ◌%◌, ◌≤◌, ◌<◌, length};
ghost use Rattle.fields.specs.Bytes.{bytes_of};
ghost use Rattle.fields.specs.Writing.{Wrote};
ghost use Rattle.answers.specs.declared.Answer.TheVariants.{Given};
ghost use Rattle.listing.specs.Text.{digit, digits, decimal_limit, decimal, tag_digits, hexadecimal};
ghost use Rattle.listing.specs.Lines.{space, newline, line, spaced, leading, operation_word, verdict_word, answer_word, answer_fields, heading, step_line, short_line, total_line, policy_line};
ghost use Rattle.listing.specs.Buffer.{WroteWithSpare, word_least, word_limit, word_of, letters_of, Spells, field_limit, operation_limit, access_limit, position_limit, answer_limit, line_limit};

use answers::{Answer, Received, Verdict};

// The code of the digit 0.
const ZERO: u8 = 48;

// What a letter's code has beside its value and the code of the digit 0: 10 gives the code of `a`.
const LETTERS: u64 = 39;

pub const SPACE: u8 = 32;

pub const NEWLINE: u8 = 10;

// The bytes of a buffer for lines: 512 lines of at most 122 bytes fit, and so does the longest line of figures.
pub const BUFFER_SIZE: usize = 65536;

// A text as it is given.
pub fn put_text(out: &mut [u8], at: usize, text: &[u8]) -> usize
    requires { at + length text.now ≤ length out.old }
    ensures { Wrote text.now out.old out.new at result }
{
    let next = at + text.len();
    out[at..next].copy_from_slice(text);
    next
}

// How many digits a number has in decimal.
fn decimal_places(n: u64) -> usize
    ensures { result ≡ length (decimal n) }
{
    let mut k: usize = 1;
    let mut rest = n;
    // Kept: no plainer, since it goes over what is left of a number, and over no range and no slice.
    while rest >= 10 {
        rest /= 10;
        k += 1;
    }
    k
}

// A number of any length in decimal, from the last digit to the first.
pub fn put_long(out: &mut [u8], at: usize, n: u64) -> usize
    requires { at + decimal_limit ≤ length out.old }
    ensures { Wrote (decimal n) out.old out.new at result }
{
    let k = decimal_places(n);
    let mut rest = n;
    for i in (0..k).rev() {
        out[at + i] = ZERO + (rest % 10) as u8;
        rest /= 10;
    }
    at + k
}

// The three digits of a number below 1,000 as the bytes of a number, the highest first: with t for n / 10 and h for n / 100
// it is h + 256 (t - 10 h) + 65,536 (n - 10 t), and 48 in each byte.
fn three_digits(n: u64) -> u64
    requires { n < 1000 }
    ensures { bytes_of 3 result ≡ digits 10 3 n }
{
    n * 65536 + 0x303030 - n / 10 * 655104 - n / 100 * 2559
}

// How many of three digits a number below 1,000 does not need.
fn unused_digits(n: u64) -> usize
    requires { n < 1000 }
    ensures { result + length (decimal n) ≡ 3 }
{
    if n < 10 {
        return 2;
    }
    if n < 100 {
        return 1;
    }
    0
}

// A number below 1,000 in decimal.
fn put_short_number(out: &mut [u8], at: usize, n: u64) -> usize
    requires { (n < 1000) × (at + 4 ≤ length out.old) }
    ensures { WroteWithSpare (decimal n) 3 out.old out.new at result }
{
    let k = unused_digits(n);
    fields::put32(out, at, (three_digits(n) >> (8 * k)) as usize);
    at + (3 - k)
}

// The last three digits of a number.
fn put_group(out: &mut [u8], at: usize, n: u64) -> usize
    requires { at + 4 ≤ length out.old }
    ensures { WroteWithSpare (digits 10 3 n) 1 out.old out.new at result }
{
    fields::put32(out, at, three_digits(n % 1000) as usize);
    at + 3
}

// A number of four to six digits.
fn put_thousands(out: &mut [u8], at: usize, n: u64) -> usize
    requires { (1000 ≤ n) × (n < 1000000) × (at + 7 ≤ length out.old) }
    ensures { WroteWithSpare (decimal n) 1 out.old out.new at result }
{
    let next = put_short_number(out, at, n / 1000);
    put_group(out, next, n)
}

// A number of seven to nine digits.
fn put_millions(out: &mut [u8], at: usize, n: u64) -> usize
    requires { (1000000 ≤ n) × (n < 1000000000) × (at + 10 ≤ length out.old) }
    ensures { WroteWithSpare (decimal n) 1 out.old out.new at result }
{
    let next = put_thousands(out, at, n / 1000);
    put_group(out, next, n)
}

// A number in decimal. Up to nine digits are written three at a time.
fn put_decimal(out: &mut [u8], at: usize, n: u64) -> usize
    requires { at + decimal_limit ≤ length out.old }
    ensures { WroteWithSpare (decimal n) 3 out.old out.new at result }
{
    if n < 1000 {
        return put_short_number(out, at, n);
    }
    if n < 1000000 {
        return put_thousands(out, at, n);
    }
    if n < 1000000000 {
        return put_millions(out, at, n);
    }
    put_long(out, at, n)
}

// Eight hexadecimal digits as the bytes of a number, the highest first, all at once: the halves, quarters and eighths of x
// are laid apart. A value from 10 on reaches 16 once 6 is added, and is written as a letter.
fn eight_digits(x: u64) -> u64
    requires { x < 4294967296 }
    ensures { bytes_of 8 result ≡ digits 16 8 x }
{
    let two = x / 65536 + x % 65536 * 4294967296;
    let four = (two / 256 & 0x000000ff000000ff) + (two & 0x000000ff000000ff) * 65536;
    let eight = (four / 16 & 0x000f000f000f000f) + (four & 0x000f000f000f000f) * 256;
    let letters = (eight + 0x0606060606060606) / 16 & 0x0101010101010101;
    eight + 0x3030303030303030 + letters * LETTERS
}

// A tag.
fn put_hexadecimal(out: &mut [u8], at: usize, tag: u64) -> usize
    requires { at + tag_digits ≤ length out.old }
    ensures { Wrote (hexadecimal tag) out.old out.new at result }
{
    let next = fields::put64(out, at, eight_digits(tag / 4294967296));
    fields::put64(out, next, eight_digits(tag % 4294967296))
}

// A number and the byte behind it.
pub fn put_number(out: &mut [u8], at: usize, n: u64, end: u8) -> usize
    requires { at + decimal_limit < length out.old }
    ensures { Wrote (decimal n ++ (end ∷ [])) out.old out.new at result }
{
    let next = put_long(out, at, n);
    out[next] = end;
    next + 1
}

// A number behind another field.
pub fn put_field(out: &mut [u8], at: usize, n: u64) -> usize
    requires { at + field_limit ≤ length out.old }
    ensures { Wrote (leading (decimal n ∷ [])) out.old out.new at result }
{
    out[at] = SPACE;
    put_long(out, at + 1, n)
}

// A tag or a mixture, and the space behind it.
pub fn put_tag(out: &mut [u8], at: usize, tag: u64) -> usize
    requires { at + tag_digits < length out.old }
    ensures { Wrote (hexadecimal tag ++ (space ∷ [])) out.old out.new at result }
{
    let next = put_hexadecimal(out, at, tag);
    out[next] = SPACE;
    next + 1
}

// The last digit of a number and the end of its line.
fn put_last_digit(out: &mut [u8], at: usize, n: u8) -> usize
    requires { at + 1 < length out.old }
    ensures { Wrote (digit (n % 10) ∷ newline ∷ []) out.old out.new at result }
{
    out[at] = ZERO + n % 10;
    out[at + 1] = NEWLINE;
    at + 2
}

// A position and the end of its line: one digit in most lines, three where there is none.
fn put_position(out: &mut [u8], at: usize, n: u8) -> usize
    requires { at + position_limit < length out.old }
    ensures { Wrote (decimal n ++ (newline ∷ [])) out.old out.new at result }
{
    if n < 10 {
        return put_last_digit(out, at, n);
    }
    if n < 100 {
        out[at] = ZERO + n / 10;
        return put_last_digit(out, at + 1, n);
    }
    let next = put_group(out, at, n as u64);
    out[next] = NEWLINE;
    next + 1
}

// A text, a number and the byte behind it.
pub fn put_named(out: &mut [u8], at: usize, name: &[u8], n: u64, end: u8) -> usize
    requires { at + length name.now + decimal_limit < length out.old }
    ensures { Wrote (name.now ++ (decimal n ++ (end ∷ []))) out.old out.new at result }
{
    let next = put_text(out, at, name);
    put_number(out, next, n, end)
}

// A word of at most eight letters: the bytes of a number, the first letter lowest, and how many of them it has.
#[derive(Clone, Copy)]
struct Word {
    letters: u64,
    length: usize,
}

fn word_of(letters: u64, length: usize) -> Word
    ensures { result ≡ word_of letters length }
{
    Word { letters, length }
}

// An operation's word.
fn operation_word(code: u64) -> Word
    ensures { Spells (operation_word code) result }
{
    match code {
        1 => word_of(0x2020202064616572, 4),
        2 => word_of(0x2020206574697277, 5),
        3 => word_of(0x2020646e65707061, 6),
        4 => word_of(0x2020202063657865, 4),
        5 => word_of(0x202020206b726f66, 4),
        6 => word_of(0x20202020656c6966, 4),
        7 => word_of(0x656c6974616c6f76, 8),
        8 => word_of(0x2020202020646e65, 3),
        9 => word_of(0x20206574656c6564, 6),
        _ => word_of(0x202020726568746f, 5),
    }
}

// A verdict's word.
fn verdict_word(verdict: Verdict) -> Word
    ensures { Spells (verdict_word verdict) result }
{
    match verdict {
        Verdict::Quiet => word_of(0x2020207465697571, 5),
        Verdict::Alert => word_of(0x2020207472656c61, 5),
        Verdict::Blocked => word_of(0x2064656b636f6c62, 7),
    }
}

// A word and the space behind it.
fn put_word(out: &mut [u8], at: usize, word: Word) -> usize
    requires { (word_least ≤ word.length) × (word.length ≤ word_limit) × (at + word_limit < length out.old) }
    ensures { WroteWithSpare (letters_of word ++ (space ∷ [])) 4 out.old out.new at result }
{
    fields::put64(out, at, word.letters);
    let next = at + word.length;
    out[next] = SPACE;
    next + 1
}

// An operation's word and the space behind it.
fn put_operation(out: &mut [u8], at: usize, code: u64) -> usize
    requires { at + operation_limit < length out.old }
    ensures { WroteWithSpare (operation_word code ++ (space ∷ [])) 4 out.old out.new at result }
{
    put_word(out, at, operation_word(code))
}

// A step's number and the space behind it.
fn put_step_number(out: &mut [u8], at: usize, n: u64) -> usize
    requires { at + decimal_limit < length out.old }
    ensures { WroteWithSpare (decimal n ++ (space ∷ [])) 2 out.old out.new at result }
{
    let next = put_decimal(out, at, n);
    out[next] = SPACE;
    next + 1
}

// A container's number and the space behind it.
fn put_container_number(out: &mut [u8], at: usize, n: u64) -> usize
    requires { at + decimal_limit < length out.old }
    ensures { WroteWithSpare (decimal n ++ (space ∷ [])) 2 out.old out.new at result }
{
    if n < 1000 {
        let next = put_short_number(out, at, n);
        out[next] = SPACE;
        return next + 1;
    }
    put_number(out, at, n, SPACE)
}

// The fields of a step's line before the verdict.
fn put_access(out: &mut [u8], at: usize, step: u64, code: u64, p: u64, o: u64) -> usize
    requires { at + access_limit ≤ length out.old }
    ensures { WroteWithSpare (spaced (decimal step ∷ operation_word code ∷ decimal p ∷ decimal o ∷ [])) 2 out.old out.new at result }
{
    let op = put_step_number(out, at, step);
    let subject = put_operation(out, op, code);
    let object = put_container_number(out, subject, p);
    put_container_number(out, object, o)
}

// A verdict's word, the receiver, its tag and the position.
fn put_verdict(out: &mut [u8], at: usize, verdict: Verdict, received: Received) -> usize
    requires { at + answer_limit ≤ length out.old }
    ensures { Wrote (line (answer_word (Given verdict received)) (answer_fields (Given verdict received))) out.old out.new at result }
{
    let to = put_word(out, at, verdict_word(verdict));
    let tag = put_container_number(out, to, received.receiver as u64);
    let position = put_tag(out, tag, received.tag);
    put_position(out, position, received.position)
}

// The fields of a step's line from the verdict on.
fn put_answer(out: &mut [u8], at: usize, answer: Answer) -> usize
    requires { at + answer_limit ≤ length out.old }
    ensures { Wrote (line (answer_word answer) (answer_fields answer)) out.old out.new at result }
{
    match answer {
        Answer::Given(verdict, received) => put_verdict(out, at, verdict, received),
        Answer::Refused(number) => put_named(out, at, b"refused ", number as u64, NEWLINE),
    }
}

// The first line, which names the fields.
// Kept: no plainer: a writer with the buffer and the place inside would need the same bound in each clause, since it says how much room is left.
pub fn put_heading(out: &mut [u8], at: usize) -> usize
    requires { at + line_limit ≤ length out.old }
    ensures { Wrote heading out.old out.new at result }
{
    put_text(out, at, b"step op p o verdict at tag pos\n")
}

// A step's line.
pub fn put_step(
    out: &mut [u8],
    at: usize,
    step: u64,
    code: u64,
    p: u64,
    o: u64,
    answer: Answer,
) -> usize
    requires { at + line_limit ≤ length out.old }
    ensures { Wrote (step_line step code p o answer) out.old out.new at result }
{
    let next = put_access(out, at, step, code, p, o);
    put_answer(out, next, answer)
}

// The line of a short last record.
pub fn put_short(out: &mut [u8], at: usize, step: u64) -> usize
    requires { at + line_limit ≤ length out.old }
    ensures { Wrote (short_line step) out.old out.new at result }
{
    let next = put_number(out, at, step, SPACE);
    put_text(out, next, b"other 0 0 refused 7\n")
}

// The last line.
pub fn put_total(out: &mut [u8], at: usize, records: u64, alerts: u64, refused: u64) -> usize
    requires { at + line_limit ≤ length out.old }
    ensures { Wrote (total_line records alerts refused) out.old out.new at result }
{
    let second = put_named(out, at, b"total ", records, SPACE);
    let third = put_named(out, second, b"alerts ", alerts, SPACE);
    put_named(out, third, b"refused ", refused, NEWLINE)
}

// The only line where the policy is refused.
pub fn put_policy_refused(out: &mut [u8], at: usize, number: u64) -> usize
    requires { at + line_limit ≤ length out.old }
    ensures { Wrote (policy_line number) out.old out.new at result }
{
    put_named(out, at, b"policy refused ", number, NEWLINE)
}
