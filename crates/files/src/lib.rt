// Files and standard output for the programs: what fails outside is told on standard error, in one line with the file's name and
// the system's text, and never passes for a complete result. What the system took and gave is stated by `write_some`, `read_some`, `open`
// and `tell`, which are to be believed (specs/Calls.antt); everything else is proved from these. The counts of the bytes moved are lent, so
// that no call is forgotten. The runtime is the system's own and no stand-in, since only of the system is that believed.
#![tactic(auto)]

ghost use Rattle.std.specs.Prelude.{◌≤◌, ⊤, length, take};
ghost use Rattle.std.specs.Fd.{file_raw_fd};
ghost use Rattle.files.specs.Calls.{Told, DoneOrTold, Handed, OpenedAs, WroteSome, ReadSome, OpenedFile, PartRead, FileLoaded};

use std::fs::File;
use std::io::{Error, ErrorKind, Print, Read, Write};
use std::time::Duration;
use std::{fs, str, thread};

// Room for the system's text of an error, with its number: Linux's texts have fifty bytes at most.
const TEXT_SIZE: usize = 256;

// What stands before the error's number where std shows an error.
const NUMBER: &[u8] = b" (os error ";

// How many thousandths of a second other processes run before a call that would wait is tried again.
const PAUSE_MILLIS: u64 = 1;

// The system's error for bytes that are no text: std opens no file of such a name.
const NO_TEXT: i32 = 84;

// What failed outside: it was told on standard error.
#[derive(Clone, Copy, Debug, PartialEq, Eq)]
pub struct Failure;

// ---- standard error

// A text on standard error.
pub fn tell(rt: &HostRuntime, text: &[u8])
    ensures { Told }
{
    let _ = rt.stderr().write_all(text);
}

// More turns than any run has are spent.
pub fn tell_spent(rt: &HostRuntime, name: &[u8])
    ensures { Told }
{
    tell(rt, name);
    tell(rt, b": tried too often\n");
}

fn tell_output_spent(rt: &HostRuntime)
    ensures { Told }
{
    tell_spent(rt, b"standard output");
}

// How many of the bytes stand before the number of an error that std shows.
fn before_number(shown: &[u8]) -> usize
    ensures { result ≤ length shown.now }
{
    for at in 0..shown.len() {
        if shown[at..].starts_with(NUMBER) {
            return at;
        }
    }
    shown.len()
}

// The system's text of an error, at the front of the buffer, and how long it is.
fn put_error(error: &Error, text: &mut [u8; TEXT_SIZE]) -> usize
    ensures { result ≤ TEXT_SIZE }
{
    let mut rest: &mut [u8] = text;
    let _ = write!(rest, "{error}");
    let shown = TEXT_SIZE.saturating_sub(rest.len());
    before_number(&text[..shown])
}

// What the system says of the call that failed.
fn tell_error(rt: &HostRuntime, name: &[u8], error: &Error)
    ensures { Told }
{
    // Kept: a rule of the project: no heap, so the array has room for the most that there can be.
    let mut text = [0u8; TEXT_SIZE];
    let size = put_error(error, &mut text);
    tell(rt, name);
    tell(rt, b": ");
    tell(rt, &text[..size]);
    tell(rt, b"\n");
}

// A call on this file that failed is to be tried again where a signal came, or where it would wait, and then other processes run
// first. Any other failure is told.
fn passing(rt: &HostRuntime, name: &[u8], error: &Error) -> Result<(), Failure>
    ensures { DoneOrTold result (λ _. ⊤) }
{
    match error.kind() {
        ErrorKind::Interrupted => Ok(()),
        ErrorKind::WouldBlock => {
            thread::sleep(rt, Duration::from_millis(PAUSE_MILLIS));
            Ok(())
        }
        _ => {
            tell_error(rt, name, error);
            Err(Failure)
        }
    }
}

// ---- standard output

// One write of the bytes: how many were taken, or none yet and it is to be tried again. A write that takes nothing has failed.
fn write_some(rt: &HostRuntime, bytes: &[u8], sent: &mut u64) -> Result<Option<usize>, Failure>
    ensures { WroteSome result bytes.now sent.old sent.new }
{
    match rt.stdout().write_some(bytes) {
        Ok(0) => {
            tell(rt, b"standard output: nothing was taken\n");
            Err(Failure)
        }
        Ok(n) => {
            *sent = sent.wrapping_add(n as u64);
            Ok(Some(n))
        }
        Err(error) => {
            passing(rt, b"standard output", &error)?;
            Ok(None)
        }
    }
}

// All of the bytes on standard output, unless a failure was told. Nothing says how often a write must be tried again, so the turns are
// counted, to more than any run has.
pub fn write_whole(rt: &HostRuntime, bytes: &[u8], sent: &mut u64) -> Result<(), Failure>
    ensures { DoneOrTold result (λ _. Handed bytes.now sent.old sent.new) }
{
    let mut done: usize = 0;
    for _ in 0..u64::MAX {
        if done == bytes.len() {
            return Ok(());
        }
        if let Some(n) = write_some(rt, &bytes[done..], sent)? {
            done += n;
        }
    }
    tell_output_spent(rt);
    Err(Failure)
}

// The first bytes of a buffer, all of it where `end` lies behind it, unless a failure was told.
pub fn write_front(rt: &HostRuntime, out: &[u8], end: usize, sent: &mut u64) -> Result<(), Failure>
    ensures { DoneOrTold result (λ _. Handed (take end out.now) sent.old sent.new) }
{
    if end < out.len() {
        return write_whole(rt, &out[..end], sent);
    }
    write_whole(rt, out, sent)
}

// ---- files

// The file of this name opened for reading, none where it is missing: any other failure is told.
pub fn open(rt: &HostRuntime, name: &[u8]) -> Result<Option<File>, Failure>
    ensures { OpenedFile result name.now }
{
    let Ok(path) = str::from_utf8(name) else {
        tell_error(rt, name, &Error::from_raw_os_error(NO_TEXT));
        return Err(Failure);
    };
    match fs::open(rt, path) {
        Ok(file) => Ok(Some(file)),
        Err(error) if error.kind() == ErrorKind::NotFound => Ok(None),
        Err(error) => {
            tell_error(rt, name, &error);
            Err(Failure)
        }
    }
}

// One read into the buffer: how many bytes were read, or none yet and it is to be tried again.
fn read_some(
    rt: &HostRuntime,
    file: &File,
    name: &[u8],
    buf: &mut [u8],
    place: &mut u64,
) -> Result<Option<usize>, Failure>
    requires { OpenedAs name.now (file_raw_fd file.now) }
    ensures { ReadSome result name.now buf.new place.old place.new }
{
    let mut reader: &File = file;
    match reader.read(buf) {
        Ok(n) => {
            *place = place.wrapping_add(n as u64);
            Ok(Some(n))
        }
        Err(error) => {
            passing(rt, name, &error)?;
            Ok(None)
        }
    }
}

// What was read: how many bytes stand at the front of the buffer, and whether they are the last.
#[derive(Clone, Copy)]
pub struct Part {
    pub size: usize,
    pub last: bool,
}

// The next bytes of a file, until the buffer is full or the file ends. A failure is told under the file's name. The turns are
// counted as in a write.
pub fn read_part(
    rt: &HostRuntime,
    file: &File,
    name: &[u8],
    buf: &mut [u8],
    place: &mut u64,
) -> Result<Part, Failure>
    requires { OpenedAs name.now (file_raw_fd file.now) }
    ensures { DoneOrTold result (λ part. PartRead name.now part buf.new place.old place.new) }
{
    let mut size: usize = 0;
    for _ in 0..u64::MAX {
        if size == buf.len() {
            return Ok(Part { size, last: false });
        }
        match read_some(rt, file, name, &mut buf[size..], place)? {
            Some(0) => return Ok(Part { size, last: true }),
            Some(n) => size += n,
            None => {}
        }
    }
    tell_spent(rt, name);
    Err(Failure)
}

// The first bytes of a file, as many as the buffer holds, and none where it is missing: how many they are.
pub fn load(rt: &HostRuntime, name: &[u8], buf: &mut [u8]) -> Result<usize, Failure>
    ensures { DoneOrTold result (λ size. (size ≤ length buf.new) × FileLoaded name.now (take size buf.new) (length buf.new)) }
{
    let mut place: u64 = 0;
    let Some(file) = open(rt, name)? else {
        return Ok(0);
    };
    let part = read_part(rt, &file, name, buf, &mut place)?;
    Ok(part.size)
}
