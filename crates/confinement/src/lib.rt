// The policy that profiles stand for, written as a normal image (change request No. 1).
#![tactic(auto)]

ghost use Rattle.std.specs.Prelude.{◌≡◌, ℕ, ◌+◌, ◌*◌, ◌^◌, ◌≤◌, ◌<◌, length, get_or, take, replicate, cond, [], map, IfOk};
ghost use Rattle.rules.specs.Answers.{data_width, tag_width};
ghost use Rattle.normaliser.specs.Writer.{form_width};
ghost use Rattle.confinement.specs.Tables.{cell_count, meets, file_bits, row_mixture, mixtures, column_at, chosen_by, chosen_at, permit_from, inherited_from};
ghost use Rattle.confinement.specs.Tables.{run_from, Listed, FormPut, rule_from, rule_count, FormsPut, table_policy, TabulatedOfSome, PolicyWritten};
ghost use Rattle.answers.specs.Outcomes.{outcome_number};
ghost use Rattle.normaliser.specs.Normaliser.{written_number};
ghost use Rattle.confinement.specs.Images.{profile_answer, profile_effect, profile_refusal};
ghost use Rattle.confinement.specs.Confinement.{files_from};
ghost use Rattle.fields.specs.Writing.{Wrote};
ghost use Rattle.lists.specs.Lists.{joined};
ghost use Rattle.image.specs.Limits.{container_size, output_bound};
ghost use Rattle.image.specs.Normal.{container_bytes};

use answers::Refusal;

mod scan;

// As many paths, and as many programs, as there are data atoms.
const PATHS: usize = 32;

// The places of the table of modes, the bytes of the most containers, and the words of the most rules.
const CELLS: usize = PATHS * PATHS;

const CONTAINER_BYTES: usize = (PATHS + 1) * image::CONTAINER_SIZE;

const FORM_WORDS: usize = 2 * PATHS * normaliser::FORM_WIDTH;

// The bits of the modes by which a file is read, executed, written, executed unconfined, by inheriting, and under its own profile.
const READING: u64 = 17;

const EXECUTING: u64 = 992;

const WRITING: u64 = 6;

const UNCONFINED: u64 = 768;

const INHERITING: u64 = 32;

const CONFINED: u64 = 192;

// ---- run mixtures

// Two sets of bits meet.
fn meets(bits: u64, wanted: u64) -> bool
    ensures { result ≡ meets bits wanted }
{
    bits & wanted != 0
}

// The mixture of one atom, or none.
fn atom_if(there: bool, k: usize) -> u64
    requires { k < tag_width }
    ensures { result ≡ cond there (2 ^ k) 0 }
{
    if there {
        return 1 << k;
    }
    0
}

// The atoms of the path with atom k that a program has by these modes on it.
fn file_atoms(k: usize, bits: u64) -> u64
    requires { k < data_width }
    ensures { result ≡ file_bits k bits }
{
    atom_if(meets(bits, READING), k) | atom_if(meets(bits, EXECUTING), PATHS + k)
}

// The run mixture of a program by the number of its own path and its modes on each path.
fn run_mixture(own: usize, row: &[u64]) -> u64
    requires { (own < data_width) × (length row.now ≤ data_width) }
    ensures { result ≡ row_mixture own row.now }
{
    let mut mixture = atom_if(true, PATHS + own);
    for (k, &bits) in row.iter().enumerate() {
        mixture |= file_atoms(k, bits);
    }
    mixture
}

// The run mixtures of m programs, of n paths.
fn put_mixtures(runs: &mut [u64], own: &[usize], modes: &[u64], n: usize, m: usize)
    requires { (n ≤ data_width) × (m ≤ data_width) × (length runs.old ≡ data_width) × (length own.now ≡ data_width)
        × (length modes.now ≡ cell_count) × ((j : ℕ) → j < m → get_or own.now j 0 < data_width) }
    ensures { take m runs.new ≡ mixtures own.now modes.now n m }
{
    for j in 0..m {
        let a = j * PATHS;
        runs[j] = run_mixture(own[j], &modes[a..a + n]);
    }
}

// ---- the programs of a path

// The run mixtures, with more atoms, of the programs that have a wanted mode on the path with atom k: how many.
fn choose(words: &mut [u64], modes: &[u64], runs: &[u64], k: usize, wanted: u64, more: u64) -> usize
    requires { (k < data_width) × (length words.old ≡ data_width) × (length runs.now ≤ data_width) × (length modes.now ≡ cell_count) }
    ensures { Listed (chosen_by wanted more (column_at modes.now k (length runs.now)) runs.now) words.new result }
{
    let mut count: usize = 0;
    for (j, &run) in runs.iter().enumerate() {
        let bits = modes[j * PATHS + k];
        if meets(bits, wanted) {
            words[count] = run | more;
            count += 1;
        }
    }
    count
}

// The run mixtures of the programs whose own path has this number: how many.
fn choose_own(words: &mut [u64], own: &[usize], runs: &[u64], k: usize) -> usize
    requires { (length words.old ≡ data_width) × (length own.now ≡ length runs.now) × (length runs.now ≤ data_width) }
    ensures { Listed (chosen_at k own.now runs.now) words.new result }
{
    let mut count: usize = 0;
    for (j, &run) in runs.iter().enumerate() {
        if own[j] == k {
            words[count] = run;
            count += 1;
        }
    }
    count
}

// ---- the rules of a path

// The permit rule of the path with atom k as it is stated: how many mixtures.
fn list_permit(words: &mut [u64], modes: &[u64], runs: &[u64], k: usize) -> usize
    requires { (k < data_width) × (length words.old ≡ data_width) × (length runs.now ≤ data_width) × (length modes.now ≡ cell_count) }
    ensures { Listed (permit_from k (column_at modes.now k (length runs.now)) runs.now) words.new result }
{
    let own = atom_if(true, k);
    let count = choose(words, modes, runs, k, WRITING, own);
    if count != 0 {
        return count;
    }
    words[0] = own;
    1
}

// Its run rule where no program is profiled under it or names it unconfined.
fn list_inherited(words: &mut [u64], modes: &[u64], runs: &[u64], k: usize) -> usize
    requires { (k < data_width) × (length words.old ≡ data_width) × (length runs.now ≤ data_width) × (length modes.now ≡ cell_count) }
    ensures { Listed (inherited_from (column_at modes.now k (length runs.now)) runs.now) words.new result }
{
    let count = choose(words, modes, runs, k, INHERITING, 0);
    if count != 0 {
        return count;
    }
    if choose(words, modes, runs, k, CONFINED, 0) != 0 {
        return 0;
    }
    words[0] = rules::ALL_ATOMS;
    1
}

// Its run rule as it is stated: how many mixtures.
fn list_run(words: &mut [u64], own: &[usize], modes: &[u64], runs: &[u64], k: usize) -> usize
    requires { (k < data_width) × (length words.old ≡ data_width) × (length own.now ≡ length runs.now) × (length runs.now ≤ data_width) × (length modes.now ≡ cell_count) }
    ensures { Listed (run_from k own.now (column_at modes.now k (length runs.now)) runs.now) words.new result }
{
    let count = choose_own(words, own, runs, k);
    if count != 0 {
        return count;
    }
    if choose(words, modes, runs, k, UNCONFINED, 0) != 0 {
        words[0] = rules::ALL_ATOMS;
        return 1;
    }
    list_inherited(words, modes, runs, k)
}

// ---- the rules as rows

// The normal form of the mixtures as a row without an owner, if it fits.
fn put_form(form: &mut [u64], mixtures: &[u64]) -> bool
    requires { (length form.old ≡ form_width) × (length mixtures.now ≤ data_width) }
    ensures { FormPut mixtures.now form.old form.new result }
{
    let Some(rule) = rules::normal(mixtures) else {
        return false;
    };
    rule_words::put_rule(&mut form[0..normaliser::OWNER_WORD], rule);
    form[normaliser::OWNER_WORD] = image::NO_OWNER as u64;
    true
}

// The i-th rule, of permit rule and run rule of each path in turn.
fn put_path_rule(
    form: &mut [u64],
    words: &mut [u64],
    own: &[usize],
    modes: &[u64],
    runs: &[u64],
    i: usize,
) -> bool
    requires { (length form.old ≡ form_width) × (length words.old ≡ data_width) × (i < rule_count)
        × (length own.now ≡ length runs.now) × (length runs.now ≤ data_width) × (length modes.now ≡ cell_count) }
    ensures { FormPut (rule_from own.now modes.now runs.now i) form.old form.new result }
{
    let k = i / 2;
    if i % 2 == 0 {
        let permits = list_permit(words, modes, runs, k);
        return put_form(form, &words[..permits]);
    }
    let mixtures = list_run(words, own, modes, runs, k);
    put_form(form, &words[..mixtures])
}

// The rows of the first rules, if each fits.
fn put_rules(
    forms: &mut [u64],
    words: &mut [u64],
    own: &[usize],
    modes: &[u64],
    runs: &[u64],
    count: usize,
) -> bool
    requires { (length forms.old ≡ rule_count * form_width) × (length words.old ≡ data_width) × (count ≤ rule_count)
        × (length own.now ≡ length runs.now) × (length runs.now ≤ data_width) × (length modes.now ≡ cell_count) }
    ensures { FormsPut (rule_from own.now modes.now runs.now) count forms.new result }
{
    for i in 0..count {
        let at = i * normaliser::FORM_WIDTH;
        if !put_path_rule(
            &mut forms[at..at + normaliser::FORM_WIDTH],
            words,
            own,
            modes,
            runs,
            i,
        ) {
            return false;
        }
    }
    true
}

// ---- the policy

// Writes n files, each with its atom and its two rules.
fn put_files(out: &mut [u8], n: usize) -> usize
    requires { (n ≤ data_width) × (n * container_size ≤ length out.old) }
    ensures { Wrote (joined (map container_bytes (files_from 0 (replicate n [])))) out.old out.new 0 result }
{
    let mut at = 0;
    for k in 0..n {
        at = normaliser::put_container_record(
            out,
            at,
            image::FILE_KIND as usize,
            k,
            2 * k,
            2 * k + 1,
        );
    }
    at
}

// Writes the policy of the tables as a normal image and gives its length, or refuses by 17 where a rule does not fit.
#[inline(never)]
fn write_tables(
    own: &[usize],
    modes: &[u64],
    n: usize,
    m: usize,
    out: &mut [u8],
) -> Result<usize, Refusal>
    requires { TabulatedOfSome own.now modes.now n m × (output_bound ≤ length out.old) }
    ensures { PolicyWritten (table_policy own.now modes.now n m) out.old out.new result }
{
    // Kept: a rule of the project: no heap, so the array has room for the most that there can be.
    let mut runs = [0u64; PATHS];
    put_mixtures(&mut runs, own, modes, n, m);
    let mut words = [0u64; PATHS];
    // Kept: a rule of the project: no heap, so the array has room for the most that there can be.
    let mut forms = [0u64; FORM_WORDS];
    let count = 2 * n;
    if !put_rules(
        &mut forms,
        &mut words,
        &own[0..m],
        modes,
        &runs[0..m],
        count,
    ) {
        return Err(Refusal::ProfileLimit);
    }
    // Kept: a rule of the project: no heap, so the array has room for the most that there can be.
    let mut containers = [0u8; CONTAINER_BYTES];
    let process = put_files(&mut containers, n);
    let end = normaliser::put_container_record(
        &mut containers,
        process,
        image::PROCESS_KIND as usize,
        image::NO_ATOM,
        image::UNRESTRICTED_NUMBER,
        image::UNRESTRICTED_NUMBER,
    );
    let mut users = [0u8; image::USER_SIZE];
    fields::put16(&mut users, 0, image::UNRESTRICTED_NUMBER);
    let w = count * normaliser::FORM_WIDTH;
    Ok(normaliser::write_policy(&containers[0..end], &users, &forms[0..w], out))
}

// Writes the policy that a text of profiles stands for as a normal image and gives its length, or the refusal: 9, then 16, then 17.
pub fn derive(text: &[u8], out: &mut [u8]) -> Result<usize, Refusal>
    ensures { (written_number result ≡ profile_answer text.now out.old) × (out.new ≡ profile_effect text.now out.old)
        × IfOk result (λ n. n ≤ output_bound) × (outcome_number result ≡ profile_refusal text.now out.old) }
{
    if out.len() < image::OUTPUT_BOUND {
        return Err(Refusal::LentLength);
    }
    // Kept: a rule of the project: no heap, so the array has room for the most that there can be.
    let mut words = [0u32; profiles::WORD_LIMIT];
    let Some(lines) = profiles::scan_text(text, &mut words) else {
        return Err(Refusal::ProfileText);
    };
    let mut starts = [0usize; PATHS];
    let mut sizes = [0usize; PATHS];
    let mut own = [0usize; PATHS];
    let mut modes = [0u64; CELLS];
    let counts = scan::fill_tables(
        text,
        &words[0..lines],
        &mut starts,
        &mut sizes,
        &mut own,
        &mut modes,
    );
    let n = counts.paths;
    if PATHS < n {
        return Err(Refusal::ProfileLimit);
    }
    write_tables(&own, &modes, n, counts.programs, out)
}
