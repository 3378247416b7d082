// The pass over the lines of a text that is good (change request No. 1): its paths by their places, and its programs with their
// modes.
ghost use Rattle.std.specs.Prelude.{◌≡◌, true, ◌+◌, ◌≤◌, ◌<◌, length, replicate};
ghost use Rattle.lists.specs.Lists.{same_list, position};
ghost use Rattle.rules.specs.Answers.{data_width};
ghost use Rattle.profiles.specs.Texts.{text_good};
ghost use Rattle.profiles.specs.LineWords.{text_words};
ghost use Rattle.confinement.specs.Tables.{path_at, cell_count};
ghost use Rattle.confinement.specs.Scans.{table_paths, PathSpans, hint_count, Hinted, Placed, LineAdded, Scanned};

// As many paths as there are data atoms.
const PATHS: usize = 32;

// ---- paths

// Two paths of the same length are the same. Most comparisons are of a path with itself, so all bytes are looked at.
fn same_bytes(text: &[u8], a: usize, b: usize, size: usize) -> bool
    requires { (a + size ≤ length text.now) × (b + size ≤ length text.now) }
    ensures { result ≡ same_list (path_at text.now a size) (path_at text.now b size) }
{
    let mut same = true;
    for i in 0..size {
        if text[a + i] != text[b + i] {
            same = false;
        }
    }
    same
}

// Two paths are the same.
fn same_path(text: &[u8], a: usize, size: usize, b: usize, other: usize) -> bool
    requires { (a + size ≤ length text.now) × (b + other ≤ length text.now) }
    ensures { result ≡ same_list (path_at text.now a size) (path_at text.now b other) }
{
    if size != other {
        return false;
    }
    same_bytes(text, a, b, size)
}

// The number of a path in the table of n paths; n if it is not there.
fn find(
    text: &[u8],
    starts: &[usize],
    sizes: &[usize],
    n: usize,
    start: usize,
    size: usize,
) -> usize
    requires { PathSpans text.now starts.now sizes.now n × (start + size ≤ length text.now) }
    ensures { result ≡ position (path_at text.now start size) (table_paths text.now starts.now sizes.now n) }
{
    for j in 0..n {
        if same_path(text, start, size, starts[j], sizes[j]) {
            return j;
        }
    }
    n
}

fn byte_at(text: &[u8], at: usize) -> usize
    requires { at < length text.now }
    ensures { result < 256 }
{
    text[at] as usize
}

// A place among the hints, from a few bytes of a path.
fn hint_place(text: &[u8], start: usize, size: usize) -> usize
    requires { start + size ≤ length text.now }
    ensures { result < hint_count }
{
    if size < 3 {
        return 0;
    }
    let end = start + size;
    let first = byte_at(text, start + 1) + 31 * byte_at(text, start + 2);
    let last = byte_at(text, end - 1) + 31 * byte_at(text, end - 2);
    (7 * first + last + 53 * byte_at(text, start + size / 2)) % 256
}

// The hint is the number of a path in the table of n paths.
fn is_hinted(
    text: &[u8],
    starts: &[usize],
    sizes: &[usize],
    n: usize,
    hint: usize,
    start: usize,
    size: usize,
) -> bool
    requires { PathSpans text.now starts.now sizes.now n × (start + size ≤ length text.now) }
    ensures { Hinted text.now starts.now sizes.now n hint (path_at text.now start size) result }
{
    if n <= hint {
        return false;
    }
    same_path(text, start, size, starts[hint], sizes[hint])
}

// The number of a path in the table of n paths, compared with a hint first; n if it is not there.
fn number_of(
    text: &[u8],
    starts: &[usize],
    sizes: &[usize],
    n: usize,
    hint: usize,
    start: usize,
    size: usize,
) -> usize
    requires { PathSpans text.now starts.now sizes.now n × (start + size ≤ length text.now) }
    ensures { result ≡ position (path_at text.now start size) (table_paths text.now starts.now sizes.now n) }
{
    if is_hinted(text, starts, sizes, n, hint, start, size) {
        return hint;
    }
    find(text, starts, sizes, n, start, size)
}

// A path's number, and how many paths there are with it.
#[derive(Clone, Copy)]
struct Number {
    number: usize,
    count: usize,
}

// The path takes its number in the table of n paths: the next one if it is new, 32 if there is no room.
fn place(
    text: &[u8],
    starts: &mut [usize],
    sizes: &mut [usize],
    hints: &mut [usize],
    n: usize,
    start: usize,
    size: usize,
) -> Number
    requires { PathSpans text.now starts.old sizes.old n × (start + size ≤ length text.now) × (length hints.old ≡ hint_count) }
    ensures { Placed text.now starts.old sizes.old n (path_at text.now start size)
        starts.new sizes.new hints.new result.number result.count }
{
    let h = hint_place(text, start, size);
    let hint = hints[h];
    let number = number_of(text, starts, sizes, n, hint, start, size);
    hints[h] = number;
    if number < n {
        return Number { number, count: n };
    }
    if n == PATHS {
        return Number {
            number: PATHS,
            count: n,
        };
    }
    starts[n] = start;
    sizes[n] = size;
    Number {
        number: n,
        count: n + 1,
    }
}

// ---- the text

// How many paths and programs a text has.
#[derive(Clone, Copy)]
pub struct Counts {
    pub paths: usize,
    pub programs: usize,
}

// There are more than 32 paths.
fn too_many() -> Counts
    ensures { result.paths ≡ data_width + 1 }
{
    Counts {
        paths: PATHS + 1,
        programs: 0,
    }
}

// A line whose path has this number adds a program if it has no modes, and modes to the last program otherwise: how many programs there are
// with it, 33 if there is no room.
fn add_line(own: &mut [usize], modes: &mut [u64], m: usize, number: usize, bits: u64) -> usize
    requires { (m ≤ data_width) × (length own.old ≡ data_width) × (length modes.old ≡ cell_count) × ((bits ≡ 0 → ⊥) → 1 ≤ m) }
    ensures { LineAdded own.old modes.old m number bits own.new modes.new result }
{
    if PATHS <= number {
        return PATHS + 1;
    }
    if bits == 0 {
        if m == PATHS {
            return PATHS + 1;
        }
        own[m] = number;
        return m + 1;
    }
    let cell = (m - 1) * PATHS + number;
    modes[cell] = modes[cell] | bits;
    m
}

// The tables of the text from the numbers of its lines, with hints. There are not more programs than paths.
fn fill_hinted(
    text: &[u8],
    words: &[u32],
    starts: &mut [usize],
    sizes: &mut [usize],
    own: &mut [usize],
    modes: &mut [u64],
    hints: &mut [usize],
) -> Counts
    requires { (text_good text.now ≡ true) × (words.now ≡ text_words text.now) × (length starts.old ≡ data_width)
        × (length sizes.old ≡ data_width) × (length own.old ≡ data_width) × (modes.old ≡ replicate cell_count 0)
        × (length hints.old ≡ hint_count) }
    ensures { Scanned text.now starts.new sizes.new own.new modes.new result.paths result.programs }
{
    let mut n = 0;
    let mut m = 0;
    for &word in words {
        let line = profiles::named_path(word);
        let placed = place(text, starts, sizes, hints, n, line.start, line.size);
        n = placed.count;
        m = add_line(own, modes, m, placed.number, line.modes);
        if PATHS < m {
            return too_many();
        }
    }
    Counts {
        paths: n,
        programs: m,
    }
}

// The paths of the text in order of first appearance, and its programs by the number of each one's own path and its modes on
// each path.
pub fn fill_tables(
    text: &[u8],
    words: &[u32],
    starts: &mut [usize],
    sizes: &mut [usize],
    own: &mut [usize],
    modes: &mut [u64],
) -> Counts
    requires { (text_good text.now ≡ true) × (words.now ≡ text_words text.now) × (length starts.old ≡ data_width)
        × (length sizes.old ≡ data_width) × (length own.old ≡ data_width) × (modes.old ≡ replicate cell_count 0) }
    ensures { Scanned text.now starts.new sizes.new own.new modes.new result.paths result.programs }
{
    let mut hints = [0usize; 256];
    fill_hinted(text, words, starts, sizes, own, modes, &mut hints)
}
