// Numbers in bytes, little-endian (the paper: "Stored numbers are little-endian").
#![tactic(auto)]

ghost use Rattle.std.specs.Prelude.{◌≡◌, ◌+◌, ◌^◌, ◌≤◌, ◌<◌, length};
ghost use Rattle.fields.specs.Bytes.{bytes_of, field};
ghost use Rattle.fields.specs.Writing.{Wrote};

pub fn read8(s: &[u8], at: usize) -> usize
    requires { at + 1 ≤ length s.now }
    ensures { (result ≡ field s.now at 1) × (result < 2 ^ 8) }
{
    s[at] as usize
}

pub fn read16(s: &[u8], at: usize) -> usize
    requires { at + 2 ≤ length s.now }
    ensures { (result ≡ field s.now at 2) × (result < 2 ^ 16) }
{
    u16::from_le_bytes([s[at], s[at + 1]]) as usize
}

pub fn read32(s: &[u8], at: usize) -> usize
    requires { at + 4 ≤ length s.now }
    ensures { (result ≡ field s.now at 4) × (result < 2 ^ 32) }
{
    u32::from_le_bytes([s[at], s[at + 1], s[at + 2], s[at + 3]]) as usize
}

pub fn read64(s: &[u8], at: usize) -> u64
    requires { at + 8 ≤ length s.now }
    ensures { result ≡ field s.now at 8 }
{
    u64::from_le_bytes([
        s[at],
        s[at + 1],
        s[at + 2],
        s[at + 3],
        s[at + 4],
        s[at + 5],
        s[at + 6],
        s[at + 7],
    ])
}

// The lowest bytes of a number at a place of a lent buffer, and the place behind them.
fn put<const WIDTH: usize>(out: &mut [u8], at: usize, v: u64) -> usize
    requires { (WIDTH ≤ 8) × (at + WIDTH ≤ length out.old) }
    ensures { Wrote (bytes_of WIDTH v) out.old out.new at result }
{
    let next = at + WIDTH;
    out[at..next].copy_from_slice(&v.to_le_bytes()[..WIDTH]);
    next
}

// The lowest byte.
pub fn put8(out: &mut [u8], at: usize, v: usize) -> usize
    requires { at + 1 ≤ length out.old }
    ensures { Wrote (bytes_of 1 v) out.old out.new at result }
{
    put::<1>(out, at, v as u64)
}

// The two lowest bytes.
pub fn put16(out: &mut [u8], at: usize, v: usize) -> usize
    requires { at + 2 ≤ length out.old }
    ensures { Wrote (bytes_of 2 v) out.old out.new at result }
{
    put::<2>(out, at, v as u64)
}

// The four lowest bytes.
pub fn put32(out: &mut [u8], at: usize, v: usize) -> usize
    requires { at + 4 ≤ length out.old }
    ensures { Wrote (bytes_of 4 v) out.old out.new at result }
{
    put::<4>(out, at, v as u64)
}

// The eight bytes of a number of 64 bits.
pub fn put64(out: &mut [u8], at: usize, v: u64) -> usize
    requires { at + 8 ≤ length out.old }
    ensures { Wrote (bytes_of 8 v) out.old out.new at result }
{
    put::<8>(out, at, v)
}
