// A text scanned from a place: the bytes of a path, modes, the line (change request No. 1). Scanning has the definitions.
ghost use Rattle.std.specs.Prelude.{◌≡◌, ◌≢◌, ◌+◌, ◌≤◌, ◌<◌, length, get_or, drop};
ghost use Rattle.profiles.specs.Profiles.{is_between, is_path_byte, path_good};
ghost use Rattle.profiles.specs.Tokens.{starts};
ghost use Rattle.profiles.specs.Reading.{path_in};
ghost use Rattle.profiles.specs.Scanning.{letter_p, closing_brace, with_x, mode_at, modes_at, line_at};

use crate::{
    LINE_END, LineKind, MODE_A, MODE_IX, MODE_L, MODE_M, MODE_PX, MODE_PX_SCRUBBED, MODE_R,
    MODE_UX, MODE_UX_SCRUBBED, MODE_W, PATH_LEAST, PATH_MOST, PROFILE_END, ScannedLine,
    ScannedMode, ScannedModes, WORD_LENGTH,
};

// The bytes that the grammar names alone.
const DOT: u8 = b'.';

const SLASH: u8 = b'/';

const P: u8 = b'p';

const X: u8 = b'x';

const BRACE: u8 = b'}';

// ---- bytes

// The byte at a place, 0 behind the end.
fn byte(text: &[u8], at: usize) -> u8
    ensures { result ≡ get_or text.now at 0 }
{
    if at < text.len() {
        return text[at];
    }
    0
}

// The word stands at a place.
fn starts(text: &[u8], at: usize, word: &[u8]) -> bool
    requires { at ≤ length text.now }
    ensures { result ≡ starts word.now (drop at text.now) }
{
    text[at..].starts_with(word)
}

fn is_between(low: u8, high: u8, b: u8) -> bool
    ensures { result ≡ is_between low high b }
{
    if b < low {
        return false;
    }
    b <= high
}

// A small letter, a capital, a digit, a dot or a slash.
fn is_path_byte(b: u8) -> bool
    ensures { result ≡ is_path_byte b }
{
    if is_between(b'a', b'z', b) {
        return true;
    }
    if is_between(b'A', b'Z', b) {
        return true;
    }
    if is_between(b'0', b'9', b) {
        return true;
    }
    if b == DOT {
        return true;
    }
    b == SLASH
}

// ---- paths

// The place behind the bytes of a path.
fn path_end(text: &[u8], at: usize) -> usize
    requires { at ≤ length text.now }
    ensures { result ≡ at + length (path_in (drop at text.now)) }
{
    for i in at..text.len() {
        if !is_path_byte(text[i]) {
            return i;
        }
    }
    text.len()
}

// A slash and 1 to 63 bytes behind it, `end` being the place behind the bytes of a path.
fn path_good(text: &[u8], at: usize, end: usize) -> bool
    requires { end ≡ at + length (path_in (drop at text.now)) }
    ensures { result ≡ path_good (path_in (drop at text.now)) }
{
    if byte(text, at) != SLASH {
        return false;
    }
    if end - at < PATH_LEAST {
        return false;
    }
    end - at <= PATH_MOST
}

// ---- modes

// The mode of two letters that has this bit, if the second is x.
#[tactic(auto, unfolding(crate::specs::Scanning::with_x))]
fn with_x(second: u8, bit: u64) -> Option<ScannedMode>
    ensures { result ≡ with_x second bit }
{
    (second == X).then_some(ScannedMode { bit, width: 2 })
}

// The mode of one letter that has this bit.
fn letter(bit: u64) -> Option<ScannedMode>
    ensures { result ≡ Some (record { bit = bit; width = 1 }) }
{
    Some(ScannedMode { bit, width: 1 })
}

// The mode at a place.
fn mode_at(text: &[u8], at: usize) -> Option<ScannedMode>
    requires { at < length text.now }
    ensures { result ≡ mode_at text.now at }
{
    let second = byte(text, at + 1);
    match byte(text, at) {
        b'r' => letter(MODE_R),
        b'w' => letter(MODE_W),
        b'a' => letter(MODE_A),
        b'l' => letter(MODE_L),
        b'm' => letter(MODE_M),
        b'i' => with_x(second, MODE_IX),
        b'p' => with_x(second, MODE_PX),
        b'P' => with_x(second, MODE_PX_SCRUBBED),
        b'u' => with_x(second, MODE_UX),
        b'U' => with_x(second, MODE_UX_SCRUBBED),
        _ => None,
    }
}

// The modes at a place.
fn modes_at(text: &[u8], at: usize) -> ScannedModes
    requires { at ≤ length text.now }
    ensures { result ≡ modes_at text.now at }
{
    let mut i = at;
    let mut bits: u64 = 0;
    // Kept: no plainer: a turn moves `i` by the length of a mode, one byte or two.
    while i < text.len() {
        let Some(mode) = mode_at(text, i) else {
            return ScannedModes { bits, next: i };
        };
        i += mode.width;
        bits |= mode.bit;
    }
    ScannedModes { bits, next: i }
}

// ---- lines

// The line `profile PATH {` at a place that has the letter p.
fn profile_line(text: &[u8], at: usize) -> Option<ScannedLine>
    requires { (at ≤ length text.now) × (get_or text.now at 0 ≡ letter_p) }
    ensures { result ≡ line_at text.now at }
{
    if !starts(text, at, b"profile ") {
        return None;
    }
    let path = at + WORD_LENGTH;
    let end = path_end(text, path);
    if !path_good(text, path, end) {
        return None;
    }
    if !starts(text, end, b" {\n") {
        return None;
    }
    Some(ScannedLine {
        kind: LineKind::Profile,
        path,
        length: end - path,
        modes: 0,
        next: end + PROFILE_END,
    })
}

// The line `PATH MODES,` at a place.
fn entry_line(text: &[u8], at: usize) -> Option<ScannedLine>
    requires { (at ≤ length text.now) × (get_or text.now at 0 ≢ letter_p) × (get_or text.now at 0 ≢ closing_brace) }
    ensures { result ≡ line_at text.now at }
{
    let end = path_end(text, at);
    if !path_good(text, at, end) {
        return None;
    }
    if !starts(text, end, b" ") {
        return None;
    }
    let first = end + 1;
    let modes = modes_at(text, first);
    let next = modes.next;
    if next == first {
        return None;
    }
    if !starts(text, next, b",\n") {
        return None;
    }
    Some(ScannedLine {
        kind: LineKind::Entry,
        path: at,
        length: end - at,
        modes: modes.bits,
        next: next + LINE_END,
    })
}

// The line `}` at a place that has this byte.
fn end_line(text: &[u8], at: usize) -> Option<ScannedLine>
    requires { (at ≤ length text.now) × (get_or text.now at 0 ≡ closing_brace) }
    ensures { result ≡ line_at text.now at }
{
    if !starts(text, at, b"}\n") {
        return None;
    }
    Some(ScannedLine {
        kind: LineKind::End,
        path: at,
        length: 0,
        modes: 0,
        next: at + LINE_END,
    })
}

// The line at a place.
pub fn line_at(text: &[u8], at: usize) -> Option<ScannedLine>
    requires { at ≤ length text.now }
    ensures { result ≡ line_at text.now at }
{
    let first = byte(text, at);
    if first == P {
        return profile_line(text, at);
    }
    if first == BRACE {
        return end_line(text, at);
    }
    entry_line(text, at)
}
