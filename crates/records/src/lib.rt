// The operation record: the table of codes, and what a record of 8 bytes asks for (the paper, "Operations").
#![tactic(auto)]

ghost use Rattle.std.specs.Prelude.{◌≡◌, ◌&&◌, ◌≤◌, ◌<◌, length, take, drop};
ghost use Rattle.fields.specs.Bytes.{bytes_of};
ghost use Rattle.records.specs.Codes.{code_count, code_at};
ghost use Rattle.records.specs.Records.{record_length, request_in, user_fits, own_object, record_good};
ghost use Rattle.records.specs.Numbers.{zeros_good};

use image::USER_LIMIT;

// ---- the codes

// Kept: the C interface: a record is lent with its code as a byte, and `request_in` answers for every byte.
pub const READ_CODE: usize = 1;

pub const WRITE_CODE: usize = 2;

pub const APPEND_CODE: usize = 3;

pub const EXEC_CODE: usize = 4;

pub const FORK_CODE: usize = 5;

pub const NEW_FILE_CODE: usize = 6;

pub const NEW_VOLATILE_CODE: usize = 7;

pub const END_CODE: usize = 8;

// The places of the table: one for each code, the last being delete, and place 0, which is no code.
pub const CODE_COUNT: usize = 10;

// What a code needs of its object, as the set of the kinds that serve, and whether it names a user.
// Kept: no plainer: `user` tells whether a code names a user, and no field beside it depends on that.
#[derive(Clone, Copy)]
pub struct Code {
    pub object: u8,
    pub user: bool,
}

// The table of codes: 0 no code, 1 read, 2 write, 3 append, 4 exec, 5 fork, 6 new file, 7 new volatile, 8 end, 9 delete.
const CODES: [Code; CODE_COUNT] = [
    Code {
        object: image::NO_KINDS,
        user: false,
    },
    Code {
        object: image::STORE_KINDS,
        user: false,
    },
    Code {
        object: image::STORE_KINDS,
        user: false,
    },
    Code {
        object: image::STORE_KINDS,
        user: false,
    },
    Code {
        object: image::FILE_KINDS,
        user: true,
    },
    Code {
        object: image::FREE_KINDS,
        user: false,
    },
    Code {
        object: image::FREE_KINDS,
        user: true,
    },
    Code {
        object: image::FREE_KINDS,
        user: false,
    },
    Code {
        object: image::PROCESS_KINDS,
        user: false,
    },
    Code {
        object: image::STORE_KINDS,
        user: false,
    },
];

// The table's row of a code.
pub fn code_at(code: usize) -> Code
    requires { (1 ≤ code) × (code < code_count) }
    ensures { result ≡ code_at code }
{
    CODES[code]
}

// ---- the record

// The bytes of a record.
pub const RECORD_LENGTH: usize = 8;

// What the bytes and the fields of a record are worth in the number that it spells, the code being worth 1.
const ZERO_WORTH: u64 = 256;

const PROCESS_WORTH: u64 = 65536;

const PROCESS_HIGH_WORTH: u64 = 16777216;

const OBJECT_WORTH: u64 = 4294967296;

const OBJECT_HIGH_WORTH: u64 = 1099511627776;

const USER_WORTH: u64 = 281474976710656;

// How many values a byte has, and a field of two.
const BYTE_VALUES: u64 = 256;

const FIELD_VALUES: u64 = 65536;

// The user field of a record whose code names no user.
const NO_USER: usize = 65535;

// What a record asks for.
#[derive(Clone, Copy)]
pub struct Request {
    pub code: usize,
    pub p: usize,
    pub o: usize,
    pub u: usize,
}

// The number that the bytes of a record spell: they are read once, and all that follows is told by it.
pub fn word_of(bytes: &[u8]) -> u64
    requires { length bytes.now ≡ record_length }
    ensures { bytes_of record_length result ≡ bytes.now }
{
    fields::read64(bytes, 0)
}

// What the record of a number asks for.
pub fn request_in(w: u64) -> Request
    ensures { result ≡ request_in (bytes_of record_length w) }
{
    Request {
        code: (w % BYTE_VALUES) as usize,
        p: (w / PROCESS_WORTH % FIELD_VALUES) as usize,
        o: (w / OBJECT_WORTH % FIELD_VALUES) as usize,
        u: (w / USER_WORTH) as usize,
    }
}

// What the bytes of a record ask for.
pub fn request_of(bytes: &[u8]) -> Request
    requires { length bytes.now ≡ record_length }
    ensures { result ≡ request_in bytes.now }
{
    request_in(word_of(bytes))
}

// The zero byte and the upper bytes of both containers are 0. Each is a test of the number, and the compiler makes one of the three.
fn zeros_good(w: u64) -> bool
    ensures { result ≡ zeros_good (bytes_of record_length w) }
{
    if w / ZERO_WORTH % BYTE_VALUES != 0 {
        return false;
    }
    if w / PROCESS_HIGH_WORTH % BYTE_VALUES != 0 {
        return false;
    }
    w / OBJECT_HIGH_WORTH % BYTE_VALUES == 0
}

// The user field is set exactly where the code names a user, and an end names its process as its object. The table of codes has
// which codes name a user, but would be laid in memory before a record that is none is refused.
fn user_good(q: Request) -> bool
    requires { (1 ≤ q.code) × (q.code < code_count) }
    ensures { result ≡ (user_fits q && own_object q) }
{
    if q.code == EXEC_CODE {
        return q.u < USER_LIMIT;
    }
    if q.code == NEW_FILE_CODE {
        return q.u < USER_LIMIT;
    }
    if q.u != NO_USER {
        return false;
    }
    if q.code == END_CODE {
        return q.o == q.p;
    }
    true
}

// The number spells an operation record: the refusal 7 where it does not.
pub fn is_record_word(w: u64) -> bool
    ensures { result ≡ record_good (bytes_of record_length w) }
{
    let q = request_in(w);
    if q.code == 0 {
        return false;
    }
    if CODE_COUNT <= q.code {
        return false;
    }
    if !zeros_good(w) {
        return false;
    }
    user_good(q)
}

// The bytes are an operation record: the refusal 7 where they are not.
pub fn is_record(bytes: &[u8]) -> bool
    ensures { result ≡ record_good bytes.now }
{
    if bytes.len() != RECORD_LENGTH {
        return false;
    }
    is_record_word(word_of(bytes))
}

// ---- a trace

// The record that begins at a place of the trace: 8 bytes, or what is left.
pub fn record_at(trace: &[u8], at: usize) -> &[u8]
    requires { at < length trace.now }
    ensures { result.now ≡ take record_length (drop at trace.now) }
{
    if trace.len() - at < RECORD_LENGTH {
        return &trace[at..];
    }
    &trace[at..at + RECORD_LENGTH]
}
