// Paths profiled twice: how those that are profiled are remembered (change request No. 1). Notes and Marks have the definitions.
ghost use Rattle.std.specs.Prelude.{◌≡◌, true, false, map, length, take, drop};
ghost use Rattle.lists.specs.Lists.{every, same_list, position};
ghost use Rattle.profiles.specs.Notes.{path_hash, noted_path, note_good, PathAt, ToNote, noted_place, with_note};
ghost use Rattle.profiles.specs.Marks.{mark_words, has_mark, with_mark, Marked, Unnoted};

use crate::{LENGTH_LIMIT, MARK_WORDS, TEXT_LIMIT};

// The places of a text, of which a note has one.
const NOTE_PLACES: u64 = TEXT_LIMIT as u64;

// The hash of a path: the factor of the sum, and its limit.
const HASH_FACTOR: u64 = 1000003;

const HASH_LIMIT: u64 = 1 << 42;

// The bits of a word, and the marks that the words have.
const WORD_BITS: u64 = 64;

const MARK_LIMIT: u64 = WORD_BITS * MARK_WORDS as u64;

// The hash of a path: its length, and a sum of its bytes.
fn path_hash(path: &[u8]) -> u64
    ensures { result ≡ path_hash path.now }
{
    let mut sum: u64 = 0;
    for &b in path {
        sum = (sum * HASH_FACTOR + b as u64) % HASH_LIMIT;
    }
    (path.len() as u64) + LENGTH_LIMIT * sum
}

// The note is of the path at a place.
fn is_noted(text: &[u8], note: u64, at: usize, length: usize, hash: u64) -> bool
    requires { PathAt text.now at length hash × (note_good text.now note ≡ true) }
    ensures { result ≡ same_list (take length (drop at text.now)) (noted_path text.now note) }
{
    if note / NOTE_PLACES != hash {
        return false;
    }
    let other = (note % NOTE_PLACES) as usize;
    text[at..at + length] == text[other..other + length]
}

// Whether the hash is marked, and from now on it is.
fn mark(marks: &mut [u64], hash: u64) -> bool
    requires { length marks.old ≡ mark_words }
    ensures { (result ≡ has_mark marks.old hash) × (marks.new ≡ with_mark marks.old hash) }
{
    let place = hash / LENGTH_LIMIT % MARK_LIMIT;
    let j = (place / WORD_BITS) as usize;
    let bit = place % WORD_BITS;
    let word = marks[j];
    marks[j] = word | (1 << bit);
    (word >> bit) % 2 == 1
}

// The place of the path among those of the notes, their number if none is of it. Nothing is looked for if its hash is not marked.
fn find_path(
    text: &[u8],
    notes: &[u64],
    at: usize,
    length: usize,
    hash: u64,
    possible: bool,
) -> usize
    requires { PathAt text.now at length hash × (every (note_good text.now) notes.now ≡ true)
        × (possible ≡ false → Unnoted text.now notes.now (take length (drop at text.now))) }
    ensures { result ≡ position (take length (drop at text.now)) (map (noted_path text.now) notes.now) }
{
    if !possible {
        return notes.len();
    }
    for (j, &note) in notes.iter().enumerate() {
        if is_noted(text, note, at, length, hash) {
            return j;
        }
    }
    notes.len()
}

// The place of the path among those of the first `count` notes; if none is of it, that is `count`, and it is noted there. Its hash is marked.
pub fn note_path(
    text: &[u8],
    notes: &mut [u64],
    marks: &mut [u64],
    count: usize,
    at: usize,
    length: usize,
) -> usize
    requires { ToNote text.now notes.old count at length × Marked notes.old marks.old count }
    ensures { (result ≡ noted_place text.now notes.old count at length) × (notes.new ≡ with_note text.now notes.old count at length)
        × (marks.new ≡ with_mark marks.old (path_hash (take length (drop at text.now)))) }
{
    let hash = path_hash(&text[at..at + length]);
    let possible = mark(marks, hash);
    let place = find_path(text, &notes[0..count], at, length, hash, possible);
    if place < count {
        return place;
    }
    notes[count] = hash * NOTE_PLACES + at as u64;
    place
}
