//! The records of the basic mode.
ghost use Rattle.std.specs.Prelude.{◌≡◌, ◌≤◌, ◌<◌, ◌+◌, ◌^◌, [], ◌∷◌, MatchOption, OnOk, length, take};
ghost use Rattle.fdr_file.specs.Traces.{logs_arg};
ghost use Rattle.runtime_log.specs.BasicLogs.{argument_in, is_lost, passing_rows, process_of, same_owner, tagged_rows, takes_argument};
ghost use Rattle.runtime_log.specs.declared.basic.Passing.{Passing as ThePassing};
ghost use Rattle.runtime_log.specs.private.Passings.{argued_by, event_at, record_at, run_head};

use crate::blocks::Head;
use crate::fault::LogFault;
use crate::version::BasicVersion;
use basic_record::{
    RECORD_BYTES, event_in, func_in, kind_byte, kind_of, pid_in, tag_in, thread_in, u32_at, u64_at,
};
use fdr_file::TraceFault;
use fdr_record::{Event, Kind};
use xray_io::Wall;

/// The number of functions that a trace has ids for.
const FUNCTIONS: u32 = 1 << 28;

/// The tag of a passing (`RecordType` of `XRayRecord`).
const PASSING: u16 = 0;

/// The tag of an argument (`RecordType` of `XRayArgPayload`).
const ARGUMENT: u16 = 1;

/// The places of an argument's fields. Its function is where that of a passing is.
const ARGUMENT_THREAD_AT: usize = 8;

const ARGUMENT_PROCESS_AT: usize = 12;

const VALUE_AT: usize = 16;

/// Whose record it is.
#[derive(Clone, Copy)]
pub struct RecordOwner {
    /// The thread's id.
    pub thread: u32,
    /// The process.
    pub pid: u32,
}

/// What a record says.
#[derive(Clone, Copy)]
pub enum BasicRec {
    /// A passing.
    Passed {
        /// Whose.
        owner: RecordOwner,
        /// The event.
        event: Event,
    },
    /// The argument of an entry.
    Argument {
        /// Whose.
        owner: RecordOwner,
        /// The function that was entered.
        func: u32,
        /// The argument.
        value: u64,
    },
}

/// The process that a record of this version names: 0 if it names none.
fn process_of(version: BasicVersion, pid: u32) -> u32
    ensures { result ≡ process_of version pid }
{
    match version {
        BasicVersion::Early => 0,
        BasicVersion::Third => pid,
    }
}

/// Whether a thread and a process are those of another owner.
fn same_owner(one: RecordOwner, other: RecordOwner) -> bool
    ensures { result ≡ same_owner one other }
{
    one.thread == other.thread && one.pid == other.pid
}

/// Whether an event of this kind logs an argument.
fn logs_arg(kind: Kind) -> bool
    ensures { result ≡ logs_arg kind }
{
    match kind {
        Kind::Entry | Kind::Exit | Kind::TailExit => false,
        Kind::EntryArgs => true,
    }
}

/// The passing that a record says, which is at this place of the log.
fn passing_in(version: BasicVersion, place: u64, bytes: &[u8]) -> Result<BasicRec, LogFault>
    requires { 32 ≤ length bytes.now }
    ensures { result ≡ passing_rows version place bytes.now }
{
    let number = kind_byte(bytes);
    let Some(kind) = kind_of(number) else {
        return Err(LogFault::Kind(place, number));
    };
    let func = func_in(bytes);
    if func >= FUNCTIONS {
        return Err(LogFault::Function(place, func));
    }
    let owner = RecordOwner {
        thread: thread_in(bytes),
        pid: process_of(version, pid_in(bytes)),
    };
    let event = event_in(kind, bytes);
    Ok(BasicRec::Passed { owner, event })
}

/// The argument that a record says.
fn argument_in(version: BasicVersion, bytes: &[u8]) -> BasicRec
    requires { 32 ≤ length bytes.now }
    ensures { result ≡ argument_in version bytes.now }
{
    BasicRec::Argument {
        owner: RecordOwner {
            thread: u32_at(bytes, ARGUMENT_THREAD_AT),
            pid: process_of(version, u32_at(bytes, ARGUMENT_PROCESS_AT)),
        },
        func: func_in(bytes),
        value: u64_at(bytes, VALUE_AT),
    }
}

/// The record that bytes begin with, at this place of the log.
fn record_in(version: BasicVersion, place: u64, bytes: &[u8]) -> Result<BasicRec, LogFault>
    ensures reads { result ≡ tagged_rows version place bytes.now }
    ensures whole { OnOk result (32 ≤ length bytes.now) }
{
    if bytes.len() < RECORD_BYTES {
        return Err(LogFault::Trace(TraceFault::Short(place)));
    }
    match tag_in(bytes) {
        PASSING => passing_in(version, place, bytes),
        ARGUMENT => Ok(argument_in(version, bytes)),
        tag => Err(LogFault::Tag(place, tag)),
    }
}

/// Whether a record is the entry that an argument of this owner and this function, directly behind it,
/// belongs to.
fn takes_argument(before: BasicRec, of: RecordOwner, function: u32) -> bool
    ensures { result ≡ takes_argument before of function }
{
    match before {
        BasicRec::Passed { owner, event } => {
            logs_arg(event.kind) && event.func == function && same_owner(owner, of)
        }
        BasicRec::Argument { .. } => false,
    }
}

/// Whether a record is an argument that has lost its entry, since that one isn't directly before it.
pub(crate) fn is_lost(before: Option<BasicRec>, rec: BasicRec) -> bool
    ensures { result ≡ is_lost before rec }
{
    match rec {
        BasicRec::Passed { .. } => false,
        BasicRec::Argument { owner, func, .. } => match before {
            Some(before) => !takes_argument(before, owner, func),
            None => true,
        },
    }
}

/// A passing of a basic log: where its record begins, and whose it is.
#[derive(Clone, Copy)]
pub(crate) struct Passing {
    /// The place of its record. A log has fewer than 2^30 bytes.
    pub(crate) at: u32,
    /// The thread.
    pub(crate) thread: u32,
    /// The process.
    pub(crate) pid: u32,
}

impl Passing {
    /// What is said of the block of a run of passings that begins with this one.
    pub(crate) fn head(&self) -> Head
        ensures { result ≡ run_head self.now }
    {
        Head {
            thread: self.thread,
            pid: self.pid,
            wall: Wall { secs: 0, micros: 0 },
        }
    }
}

/// The bytes of the record that bytes begin with, or all of them if it isn't whole.
fn record_bytes(rest: &[u8]) -> &[u8]
    ensures { result.now ≡ take 32 rest.entry.now }
{
    if rest.len() < RECORD_BYTES {
        rest
    } else {
        &rest[..RECORD_BYTES]
    }
}

/// The record at a place of a log, and `Short` if none is whole there.
pub(crate) fn record_at(
    version: BasicVersion,
    bytes: &[u8],
    at: usize,
) -> Result<BasicRec, LogFault>
    ensures reads { result ≡ record_at version bytes.now at }
    ensures whole { OnOk result (at + 32 ≤ length bytes.now) }
{
    if at >= bytes.len() {
        return Err(LogFault::Trace(TraceFault::Short(at as u64)));
    }
    record_in(version, at as u64, record_bytes(&bytes[at..]))
}

/// The event of this owner's passing, with the argument that a record says, if that one belongs to it.
fn argued_by(owner: RecordOwner, event: Event, next: Result<BasicRec, LogFault>) -> Event
    ensures { result ≡ argued_by owner event next }
{
    let Ok(
        BasicRec::Argument {
            owner: of,
            func,
            value,
        },
    ) = next
    else {
        return event;
    };
    if takes_argument(BasicRec::Passed { owner, event }, of, func) {
        Event {
            arg: value,
            ..event
        }
    } else {
        event
    }
}

/// The event of the passing at a place, with the argument that the record behind it says, if that one
/// belongs to it. Some event if no passing is there.
fn event_at(version: BasicVersion, bytes: &[u8], at: usize) -> Event
    requires { at < 2 ^ 32 }
    ensures { result ≡ event_at version bytes.now at }
{
    match record_at(version, bytes, at) {
        Ok(BasicRec::Passed { owner, event }) => {
            argued_by(owner, event, record_at(version, bytes, at + RECORD_BYTES))
        }
        Ok(BasicRec::Argument { .. }) | Err(_) => Event {
            tsc: 0,
            arg: 0,
            func: 0,
            cpu: 0,
            kind: Kind::Entry,
        },
    }
}

/// The events of passings of a log, one after the other.
#[derive(Clone, Copy)]
pub(crate) struct BasicEvents<'a> {
    /// The version of the log.
    version: BasicVersion,
    /// The log.
    bytes: &'a [u8],
    /// The passings that are left.
    passings: &'a [Passing],
}

impl<'a> BasicEvents<'a> {
    /// The events of these passings.
    pub(crate) fn new(
        version: BasicVersion,
        bytes: &'a [u8],
        passings: &'a [Passing],
    ) -> BasicEvents<'a>
        ensures version { result.version ≡ version }
        ensures bytes { result.bytes.now ≡ bytes.entry.now }
        ensures passings { result.passings.now ≡ passings.entry.now }
    {
        BasicEvents {
            version,
            bytes,
            passings,
        }
    }

    /// The next event.
    #[inline(always)]
    pub(crate) fn next(&mut self) -> Option<Event>
        ensures version { self.new.version ≡ self.old.version }
        ensures bytes { self.new.bytes.now ≡ self.old.bytes.now }
        ensures gives { MatchOption result (self.old.passings.now ≡ []) (λ event. (passing : ThePassing)
            × (self.old.passings.now ≡ passing ∷ self.new.passings.now) × (event ≡ event_at self.old.version self.old.bytes.now passing.at)) }
    {
        let (passing, later) = self.passings.split_first()?;
        self.passings = later;
        Some(event_at(self.version, self.bytes, passing.at as usize))
    }
}
