//! The line of a record in a dump, put together from its end to its start.

ghost use Rattle.std.specs.Prelude.{◌≡◌, ◌+◌, ◌≤◌, [], ◌++◌, codes, decimal, length};
ghost use Rattle.trace_forms.specs.Dumps.{kind_word, record_line, record_text};

use crate::row::{MOST_DIGITS, ROOM, Row};
use fdr_record::{Kind, Rec};

/// The length of the longest name of a record, with a blank after it.
const MOST_OF_NAME: usize = 19;

/// The length of the longest text between two numbers of a record.
const MOST_BETWEEN: usize = 7;

/// The length of the longest text of a record.
const MOST_OF_RECORD: usize = MOST_OF_NAME + MOST_DIGITS + MOST_BETWEEN + MOST_DIGITS;

/// Puts the line of the record at a place into an empty row.
#[inline(always)]
pub(crate) fn put_line(row: &mut Row, at: usize, rec: &Rec)
    requires { row.old ≡ [] }
    ensures { row.new ≡ record_line at rec.now }
{
    row.put(b"\n");
    put_record(row, rec);
    row.put(b" ");
    row.put_number(at as u64);
}

/// Puts the name of a record, and its fields, before the row.
#[inline(always)]
fn put_record(row: &mut Row, rec: &Rec)
    requires { MOST_OF_RECORD + length row.old ≤ ROOM }
    ensures text { row.new ≡ record_text rec.now ++ row.old }
    ensures short { length row.new ≤ MOST_OF_RECORD + length row.old }
{
    match *rec {
        Rec::Extents { size } => put_one(row, b"extents ", size),
        Rec::NewBuffer { thread } => put_one(row, b"new-buffer ", u64::from(thread)),
        Rec::WallTime { wall } => {
            put_two(row, b"wall-time ", wall.secs, b".", u64::from(wall.micros));
        }
        Rec::Pid { pid } => put_one(row, b"pid ", u64::from(pid)),
        Rec::NewCpu { cpu, tsc } => put_two(row, b"new-cpu ", u64::from(cpu), b" ", tsc),
        Rec::TscWrap { tsc } => put_one(row, b"tsc-wrap ", tsc),
        Rec::CallArg { value } => put_one(row, b"call-argument ", value),
        Rec::Function { kind, func, delta } => put_function(row, kind, func, delta),
    }
}

/// Puts a name and a number before the row.
fn put_one(row: &mut Row, name: &[u8], number: u64)
    requires name { length name.now ≤ MOST_OF_NAME }
    requires room { MOST_OF_RECORD + length row.old ≤ ROOM }
    ensures text { row.new ≡ name.now ++ decimal number ++ row.old }
    ensures short { length row.new ≤ MOST_OF_RECORD + length row.old }
{
    row.put_number(number);
    row.put(name);
}

/// Puts a name and two numbers before the row, with something between them.
fn put_two(row: &mut Row, name: &[u8], first: u64, between: &[u8], second: u64)
    requires name { length name.now ≤ MOST_OF_NAME }
    requires between { length between.now ≤ MOST_BETWEEN }
    requires room { MOST_OF_RECORD + length row.old ≤ ROOM }
    ensures text { row.new ≡ name.now ++ decimal first ++ between.now ++ decimal second ++ row.old }
    ensures short { length row.new ≤ MOST_OF_RECORD + length row.old }
{
    row.put_number(second);
    row.put(between);
    row.put_number(first);
    row.put(name);
}

/// Puts a function record before the row.
#[inline(always)]
fn put_function(row: &mut Row, kind: Kind, func: u32, delta: u32)
    requires { MOST_OF_RECORD + length row.old ≤ ROOM }
    ensures text { row.new ≡ record_text (Rec.Function kind func delta) ++ row.old }
    ensures short { length row.new ≤ MOST_OF_RECORD + length row.old }
{
    row.put_number(u64::from(delta));
    row.put(b" delta ");
    row.put_number(u64::from(func));
    put_kind(row, kind);
}

/// Puts the name of a function record of this kind before the row.
#[inline(always)]
fn put_kind(row: &mut Row, kind: Kind)
    requires { MOST_OF_NAME + length row.old ≤ ROOM }
    ensures text { row.new ≡ codes "function " ++ kind_word kind ++ codes " " ++ row.old }
    ensures short { length row.new ≤ MOST_OF_NAME + length row.old }
{
    match kind {
        Kind::Entry => row.put(b"function enter "),
        Kind::Exit => row.put(b"function exit "),
        Kind::TailExit => row.put(b"function tail-exit "),
        Kind::EntryArgs => row.put(b"function enter-arg "),
    }
}
