//! The fields of a record.
ghost use Rattle.std.specs.Prelude.{◌≡◌, ◌≤◌, ◌<◌, ◌+◌, drop, length};
ghost use Rattle.byteorder.specs.Endian.{little_number};
ghost use Rattle.basic_record.specs.BasicRecords.{arg_logged, event_in, func_in, kind_byte, kind_numbered, pid_in, tag_in, thread_in};

use byteorder::{ByteOrder, LittleEndian};
use fdr_record::{Event, Kind};

/// The type of basic logs. That of traces is 1.
pub const BASIC_TYPE: u16 = 0;

/// The version of basic logs.
pub const BASIC_VERSION: u16 = 3;

/// The length of a record, in bytes.
pub const RECORD_BYTES: usize = 32;

/// The places of a passing's fields.
const CPU_AT: usize = 2;

const KIND_AT: usize = 3;

const FUNCTION_AT: usize = 4;

const COUNTER_AT: usize = 8;

const THREAD_AT: usize = 16;

const PROCESS_AT: usize = 20;

const ARGUMENT_AT: usize = 24;

/// The number in the four bytes at a place, lowest byte first.
pub fn u32_at(bytes: &[u8], at: usize) -> u32
    requires { at + 4 ≤ length bytes.now }
    ensures { result ≡ little_number 4 (drop at bytes.now) }
{
    LittleEndian::read_u32(&bytes[at..])
}

/// The number in the eight bytes at a place, lowest byte first.
pub fn u64_at(bytes: &[u8], at: usize) -> u64
    requires { at + 8 ≤ length bytes.now }
    ensures { result ≡ little_number 8 (drop at bytes.now) }
{
    LittleEndian::read_u64(&bytes[at..])
}

/// The first two bytes of a record, as a number. They are 0 for a passing (`RecordType`).
pub fn tag_in(bytes: &[u8]) -> u16
    requires { 32 ≤ length bytes.now }
    ensures { result ≡ tag_in bytes.now }
{
    LittleEndian::read_u16(bytes)
}

/// The byte that says the kind of a passing.
pub fn kind_byte(bytes: &[u8]) -> u8
    requires { 32 ≤ length bytes.now }
    ensures { result ≡ kind_byte bytes.now }
{
    bytes[KIND_AT]
}

/// The kind with this number, if it is one.
pub fn kind_of(number: u8) -> Option<Kind>
    ensures { result ≡ kind_numbered number }
{
    match number {
        0 => Some(Kind::Entry),
        1 => Some(Kind::Exit),
        2 => Some(Kind::TailExit),
        3 => Some(Kind::EntryArgs),
        _ => None,
    }
}

/// The function of a record: of a passing, or of the argument of an entry.
pub fn func_in(bytes: &[u8]) -> u32
    requires { 32 ≤ length bytes.now }
    ensures { result ≡ func_in bytes.now }
{
    u32_at(bytes, FUNCTION_AT)
}

/// The thread of a passing.
pub fn thread_in(bytes: &[u8]) -> u32
    requires { 32 ≤ length bytes.now }
    ensures { result ≡ thread_in bytes.now }
{
    u32_at(bytes, THREAD_AT)
}

/// The process of a passing.
pub fn pid_in(bytes: &[u8]) -> u32
    requires { 32 ≤ length bytes.now }
    ensures { result ≡ pid_in bytes.now }
{
    u32_at(bytes, PROCESS_AT)
}

/// The argument of an event of this kind, or 0 if it logs none.
pub fn arg_logged(kind: Kind, arg: u64) -> u64
    ensures { result ≡ arg_logged kind arg }
{
    match kind {
        Kind::Entry | Kind::Exit | Kind::TailExit => 0,
        Kind::EntryArgs => arg,
    }
}

/// The event of a passing of this kind. Its CPU was a byte.
pub fn event_in(kind: Kind, bytes: &[u8]) -> Event
    requires { 32 ≤ length bytes.now }
    ensures says { result ≡ event_in kind bytes.now }
    ensures narrow { result.cpu < 256 }
{
    Event {
        tsc: u64_at(bytes, COUNTER_AT),
        arg: arg_logged(kind, u64_at(bytes, ARGUMENT_AT)),
        func: func_in(bytes),
        cpu: u16::from(bytes[CPU_AT]),
        kind,
    }
}
