// The policy derived from an access matrix (the paper, "Matrix").
#![tactic(auto)]

ghost use Rattle.std.specs.Prelude.{◌≡◌, map, ◌+◌, ◌*◌, ◌≤◌, ◌<◌, length, replicate};
ghost use Rattle.fields.specs.Writing.{Wrote};
ghost use Rattle.lists.specs.Lists.{joined};
ghost use Rattle.rules.specs.Rules.{normal};
ghost use Rattle.rules.specs.Answers.{mixture_limit};
ghost use Rattle.rule_words.specs.Words.{rule_width, rule_of, words_of};
ghost use Rattle.image.specs.Limits.{container_size};
ghost use Rattle.image.specs.Normal.{container_bytes};
ghost use Rattle.normaliser.specs.Writer.{unowned, form_width, form_row, normal_use, form_words};
ghost use Rattle.matrix.specs.Limits.{subject_limit, object_limit};
ghost use Rattle.lists.specs.Counting.{count_from};
ghost use Rattle.derivation.specs.Derived.{permit_of, object_file, subject_process, derived_refusal, derived_answer, derived_effect};
ghost use Rattle.answers.specs.Outcomes.{outcome_number};
ghost use Rattle.normaliser.specs.Normaliser.{written_number};

use answers::Refusal;

// The bytes of the most containers, and the words of the rows of the most rules.
const CONTAINER_BYTES: usize = (matrix::OBJECT_LIMIT + matrix::SUBJECT_LIMIT)
    * image::CONTAINER_SIZE;

const RULE_WORDS: usize = matrix::OBJECT_LIMIT * normaliser::FORM_WIDTH;

// What each subject reads, and what it writes: as many rows of each, and of no more subjects than a matrix has.
#[derive(Clone, Copy)]
struct Rights<'a> {
    reads: &'a [u32],
    writes: &'a [u32],
    ghost even: { length writes.now ≡ length reads.now },
    ghost few: { length reads.now ≤ subject_limit },
}

// Writes the objects, as files with their own atoms and their own permit rules.
fn put_objects(out: &mut [u8], start: usize, n: usize) -> usize
    requires { (n ≤ object_limit) × (start + n * container_size ≤ length out.old) }
    ensures { Wrote (joined (map container_bytes (map object_file (count_from 0 n)))) out.old out.new start result }
{
    let mut at = start;
    for b in 0..n {
        at = normaliser::put_container_record(
            out,
            at,
            image::FILE_KIND as usize,
            b,
            b,
            image::UNRESTRICTED_NUMBER,
        );
    }
    at
}

// Writes the subjects, as processes.
fn put_subjects(out: &mut [u8], start: usize, n: usize) -> usize
    requires { (n ≤ subject_limit) × (start + n * container_size ≤ length out.old) }
    ensures { Wrote (joined (map container_bytes (replicate n subject_process))) out.old out.new start result }
{
    let mut at = start;
    for _ in 0..n {
        at = normaliser::put_container_record(
            out,
            at,
            image::PROCESS_KIND as usize,
            image::NO_ATOM,
            image::UNRESTRICTED_NUMBER,
            image::UNRESTRICTED_NUMBER,
        );
    }
    at
}

// The permit rule of object b in words of zeros, as it is stated: what each writer reads, and b; or just b.
fn list_permit(words: &mut [u64], rights: Rights, b: usize)
    requires { (b < object_limit) × (words.old ≡ replicate rule_width 0) }
    ensures { words.new ≡ words_of (permit_of rights.entry.reads.now rights.entry.writes.now b) }
{
    let own = 1u64 << b;
    let mut count: usize = 0;
    for (s, &r) in rights.reads.iter().enumerate() {
        if (rights.writes[s] >> b) % 2 == 1 {
            count += 1;
            words[count] = r as u64 | own;
        }
    }
    if count == 0 {
        words[0] = 1;
        words[1] = own;
        return;
    }
    words[0] = count as u64;
}

// The rule of the words in normal form: mostly it is so. Else the sieve makes it, so that the code which sorts first stands
// where images are read and nowhere else.
fn settle(words: &mut [u64])
    requires { (length (rule_of words.old) ≤ mixture_limit) × (words.old ≡ words_of (rule_of words.old)) }
    ensures { words.new ≡ words_of (normal (rule_of words.old)) }
{
    if rule_words::kept_well(words) {
        return;
    }
    if let Some(rule) = rules::normal(rule_words::rule_of(words)) {
        rule_words::put_rule(words, rule);
    }
}

// The permit rule of object b in normal form.
fn put_permit(words: &mut [u64], rights: Rights, b: usize)
    requires { (b < object_limit) × (words.old ≡ replicate rule_width 0) }
    ensures { words.new ≡ words_of (normal (permit_of rights.entry.reads.now rights.entry.writes.now b)) }
{
    list_permit(words, rights, b);
    settle(words);
}

// The row of the permit rule of object b, which nobody owns, in a row of zeros.
fn put_row(row: &mut [u64], rights: Rights, b: usize)
    requires { (b < object_limit) × (row.old ≡ replicate form_width 0) }
    ensures { row.new ≡ form_row (normal_use (unowned (permit_of rights.entry.reads.now rights.entry.writes.now b))) }
{
    put_permit(&mut row[0..normaliser::OWNER_WORD], rights, b);
    row[normaliser::OWNER_WORD] = image::NO_OWNER as u64;
}

// The rows of the permit rules of the first n objects, in words of zeros.
fn put_permits(words: &mut [u64], rights: Rights, n: usize)
    requires { (n ≤ object_limit) × (words.old ≡ replicate (n * form_width) 0) }
    ensures { words.new ≡ form_words (map unowned (map (permit_of rights.entry.reads.now rights.entry.writes.now) (count_from 0 n))) }
{
    for b in 0..n {
        let at = b * normaliser::FORM_WIDTH;
        put_row(&mut words[at..at + normaliser::FORM_WIDTH], rights, b);
    }
}

// Writes the derived policy as a normal image and gives its length. The output's length is looked at first, then the matrix.
pub fn derive(reads: &[u32], writes: &[u32], objects: u32, out: &mut [u8]) -> Result<u32, Refusal>
    ensures { (written_number result ≡ derived_answer reads.now writes.now objects out.old)
        × (out.new ≡ derived_effect reads.now writes.now objects out.old)
        × (outcome_number result ≡ derived_refusal reads.now writes.now objects out.old) }
{
    if out.len() < image::OUTPUT_BOUND {
        return Err(Refusal::LentLength);
    }
    if !matrix::matrix_good(reads, writes, objects) {
        return Err(Refusal::Matrix);
    }
    let n = objects as usize;
    // Kept: a rule of the project: no heap, so the array has room for the most that there can be.
    let mut containers = [0u8; CONTAINER_BYTES];
    let subjects = put_objects(&mut containers, 0, n);
    let end = put_subjects(&mut containers, subjects, reads.len());
    let mut users = [0u8; image::USER_SIZE];
    fields::put16(&mut users, 0, image::UNRESTRICTED_NUMBER);
    // Kept: a rule of the project: no heap, so the array has room for the most that there can be.
    let mut words = [0u64; RULE_WORDS];
    let w = n * normaliser::FORM_WIDTH;
    put_permits(&mut words[0..w], Rights { reads, writes }, n);
    Ok(normaliser::write_policy(&containers[0..end], &users, &words[0..w], out) as u32)
}
