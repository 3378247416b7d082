// The text of profiles (change request No. 1): the test of a text, and the numbers of its lines. The module scanning has the line at a
// place, notes the paths that are profiled.
#![tactic(auto)]

ghost use Rattle.std.specs.Prelude.{◌≡◌, true, ◌+◌, ◌*◌, ◌≤◌, ◌<◌, length};
ghost use Rattle.profiles.specs.Reading.{reading_of};
ghost use Rattle.profiles.specs.Texts.{text_limit, reads_well, text_good};
ghost use Rattle.profiles.specs.Notes.{length_limit};
ghost use Rattle.profiles.specs.Marks.{mark_words};
ghost use Rattle.profiles.specs.Scanning.{modes_limit};
ghost use Rattle.profiles.specs.LineWords.{line_word, named_path, word_limit, may_stand, scanned, Judged, scanned_of, table_of, profile_least, entry_least};

mod notes;
mod scanning;

// ---- the bytes and numbers of the format

// The most bytes of a text.
pub const TEXT_LIMIT: usize = 16384;

// The least and the most bytes of a path.
pub const PATH_LEAST: usize = 2;

pub const PATH_MOST: usize = 64;

// The bytes of `profile ` before a path, of ` {` and byte 10 behind it, and of `,` or `}` and byte 10.
pub const WORD_LENGTH: usize = 8;

pub const PROFILE_END: usize = 3;

pub const LINE_END: usize = 2;

// The bits of the modes r, w, a, l, m, ix, px, Px, ux, Ux.
pub const MODE_R: u64 = 1;

pub const MODE_W: u64 = 2;

pub const MODE_A: u64 = 4;

pub const MODE_L: u64 = 8;

pub const MODE_M: u64 = 16;

pub const MODE_IX: u64 = 32;

pub const MODE_PX: u64 = 64;

pub const MODE_PX_SCRUBBED: u64 = 128;

pub const MODE_UX: u64 = 256;

pub const MODE_UX_SCRUBBED: u64 = 512;

// ---- what is scanned

// A mode's bit and its length.
#[derive(Clone, Copy)]
pub struct ScannedMode {
    pub bit: u64,
    pub width: usize,
}

// The bits of modes, and the place behind them.
#[derive(Clone, Copy)]
pub struct ScannedModes {
    pub bits: u64,
    pub next: usize,
}

// What a line is: a profile's first, an entry, or a profile's last.
#[derive(Clone, Copy, Debug, PartialEq, Eq)]
pub enum LineKind {
    Profile,
    Entry,
    End,
}

// A line: what it is, where its path begins and how long that is, the bits of its modes, and where the next line begins.
#[derive(Clone, Copy)]
pub struct ScannedLine {
    pub kind: LineKind,
    pub path: usize,
    pub length: usize,
    pub modes: u64,
    pub next: usize,
}

// ---- lines that name a path

// Above the length of every path.
pub const LENGTH_LIMIT: u64 = 128;

// The places of a text and the lengths of a path, in the number of a line.
const PLACES: u32 = TEXT_LIMIT as u32;

const LENGTHS: u32 = LENGTH_LIMIT as u32;

// The least bytes of a profile's first line, and of any line that names a path: its shortest has a space and one letter of a mode.
const PROFILE_LEAST: usize = WORD_LENGTH + PATH_LEAST + PROFILE_END;

const ENTRY_LEAST: usize = PATH_LEAST + 2 + LINE_END;

// Numbers enough for every text.
pub const WORD_LIMIT: usize = TEXT_LIMIT / ENTRY_LEAST + 1;

// The path that a line names: where it begins, how long it is, and the modes on it, none in a profile's first line.
#[derive(Clone, Copy)]
pub struct NamedPath {
    pub start: usize,
    pub size: usize,
    pub modes: u64,
}

// The number of a line.
fn line_word(line: ScannedLine) -> u32
    requires { (line.path < text_limit) × (line.length < length_limit) × (line.modes < modes_limit) }
    ensures { result ≡ line_word line }
{
    line.path as u32 + PLACES * (line.length as u32 + LENGTHS * line.modes as u32)
}

// The path of the line that has this number.
pub fn named_path(word: u32) -> NamedPath
    ensures { result ≡ named_path word }
{
    NamedPath {
        start: (word % PLACES) as usize,
        size: (word / PLACES % LENGTHS) as usize,
        modes: (word / (PLACES * LENGTHS)) as u64,
    }
}

// ---- the text

// A profile's first line stands outside of profiles, the others inside of one.
#[tactic(auto, unfolding(crate::specs::LineWords::may_stand))]
fn may_stand(kind: LineKind, inside: bool) -> bool
    ensures { result ≡ may_stand kind inside }
{
    match kind {
        LineKind::Profile => !inside,
        LineKind::Entry | LineKind::End => inside,
    }
}

// Notes enough for a text of few profiles, and the most bytes of such a text; notes enough for every text.
const FEW_PROFILES: usize = 64;

const SHORT_LIMIT: usize = FEW_PROFILES * PROFILE_LEAST;

const PROFILE_LIMIT: usize = TEXT_LIMIT / PROFILE_LEAST + 1;

// The words with a mark for each of so many hashes.
pub const MARK_WORDS: usize = 128;

// How many lines of a text name a path, if its lines are profiles, and no path is profiled twice; the numbers of these lines. There are not
// more notes and numbers than room for them, by the least bytes of the lines.
fn scan_lines(text: &[u8], notes: &mut [u64], marks: &mut [u64], words: &mut [u32]) -> Option<usize>
    requires { (length text.now ≤ text_limit) × (length text.now ≤ profile_least * length notes.old) × (length marks.old ≡ mark_words)
        × (length text.now ≤ entry_least * length words.old) }
    ensures { Judged text.now words.new (reads_well (reading_of text.now)) (scanned result) }
{
    let mut at = 0;
    let mut profiles = 0;
    let mut count = 0;
    let mut inside = false;
    // Kept: no plainer: a turn moves `at` by the length of a line, which is known only when the line is read.
    while at < text.len() {
        let line = scanning::line_at(text, at)?;
        if !may_stand(line.kind, inside) {
            return None;
        }
        words[count] = line_word(line);
        at = line.next;
        match line.kind {
            LineKind::Profile => {
                if notes::note_path(text, notes, marks, profiles, line.path, line.length)
                    < profiles
                {
                    return None;
                }
                profiles += 1;
                count += 1;
                inside = true;
            }
            LineKind::Entry => count += 1,
            LineKind::End => inside = false,
        }
    }
    if inside { None } else { Some(count) }
}

// The same with so many notes; few are quick to clear. Put in place twice, both arrays would stand in one frame.
#[inline(never)]
fn scan_sized<const NOTES: usize>(text: &[u8], words: &mut [u32]) -> Option<usize>
    requires { (length text.now ≤ text_limit) × (length text.now ≤ profile_least * NOTES) × (NOTES ≤ text_limit) × (length words.old ≡ word_limit) }
    ensures { Judged text.now words.new (reads_well (reading_of text.now)) (scanned result) }
{
    let mut notes = [0u64; NOTES];
    let mut marks = [0u64; MARK_WORDS];
    scan_lines(text, &mut notes, &mut marks, words)
}

// How many lines of a text name a path, if it is not too long, has a reading, and profiles no path twice; then the numbers of these lines in
// front.
fn judge_text(text: &[u8], words: &mut [u32]) -> Option<usize>
    requires { length words.old ≡ word_limit }
    ensures { Judged text.now words.new (text_good text.now) (scanned result) }
{
    if TEXT_LIMIT < text.len() {
        return None;
    }
    if text.len() <= SHORT_LIMIT {
        scan_sized::<FEW_PROFILES>(text, words)
    } else {
        scan_sized::<PROFILE_LIMIT>(text, words)
    }
}

// The same, with zeros behind the numbers, and zeros alone for a text that is not good.
fn scan_table(text: &[u8], words: &mut [u32]) -> Option<usize>
    requires { length words.old ≡ word_limit }
    ensures { (scanned result ≡ scanned_of text.now) × (words.new ≡ table_of text.now) }
{
    let Some(count) = judge_text(text, words) else {
        words.fill(0);
        return None;
    };
    words[count..].fill(0);
    Some(count)
}

// How many lines of a good text name a path, with the numbers of these lines and zeros behind them, or zeros alone.
pub fn scan_text(text: &[u8], words: &mut [u32; WORD_LIMIT]) -> Option<usize>
    ensures { (scanned result ≡ scanned_of text.now) × (words.new ≡ table_of text.now) }
{
    scan_table(text, words)
}
