//! The line of an event.
ghost use Rattle.std.specs.Prelude.{◌≡◌, ◌+◌, ◌≤◌, [], ◌++◌, length};
ghost use Rattle.function_names.specs.Name.{naming};
ghost use Rattle.xray_io.specs.Text.{AddsText};
ghost use Rattle.yaml_convert.specs.Yaml.{arg_text, event_end, event_line, event_start, event_kind_text};
ghost use Rattle.yaml_convert.specs.private.Stamps.{happened_text};

use crate::row::{ROOM, Row};
use crate::stamp::Stamp;
use fdr_record::{Event, Kind};
use function_names::{NameForm, Names, add_name};
use xray_io::{Sink, Text, WriteFault};

/// The length of the longest argument, with its key.
const MOST_OF_ARG: usize = 32;

/// The length of the longest word for a kind.
const MOST_OF_KIND: usize = 18;

/// Adds the line of an event. The stamp is kept from line to line.
pub(crate) fn add_event<S: Sink>(
    text: &mut Text<S>,
    stamp: &mut Stamp,
    thread: u32,
    pid: u32,
    event: &Event,
    names: Names,
) -> Result<(), WriteFault>
    ensures { AddsText S.written S.faults S.along text.old text.new
        (event_line (naming names.entry)
        (record { thread = thread; pid = pid; event = event.now })) result }
{
    let mut row = Row::new();
    put_start(&mut row, event);
    text.bytes(row.as_slice())?;
    add_name(text, names, NameForm::Quoted, event.func)?;
    add_end(text, stamp, thread, pid, event)
}

/// Adds the text after the name of its function.
fn add_end<S: Sink>(
    text: &mut Text<S>,
    stamp: &mut Stamp,
    thread: u32,
    pid: u32,
    event: &Event,
) -> Result<(), WriteFault>
    ensures { AddsText S.written S.faults S.along text.old text.new
        (event_end (record { thread = thread; pid = pid; event = event.now })) result }
{
    stamp.renew(event.cpu, thread, pid);
    text.bytes(stamp.as_slice())?;
    let mut row = Row::new();
    put_happened(&mut row, event);
    text.bytes(row.as_slice())
}

/// Puts the text before the name of its function into an empty row.
#[inline]
fn put_start(row: &mut Row, event: &Event)
    requires { row.old ≡ [] }
    ensures { row.new ≡ event_start event.now }
{
    row.put(b", function: '");
    row.put_number(u64::from(event.func));
    row.put(b"  - { type: 0, func-id: ");
}

/// Puts the text from its kind on into an empty row.
#[inline]
fn put_happened(row: &mut Row, event: &Event)
    requires { row.old ≡ [] }
    ensures { row.new ≡ happened_text event.now }
{
    row.put(b" }\n");
    row.put_number(event.tsc);
    row.put(b", tsc: ");
    put_arg(row, event);
    put_kind(row, event.kind);
}

/// Puts the argument of an event before the row, if it logs one.
#[inline]
fn put_arg(row: &mut Row, event: &Event)
    requires { MOST_OF_ARG + length row.old ≤ ROOM }
    ensures text { row.new ≡ arg_text event.now.kind event.now.arg ++ row.old }
    ensures short { length row.new ≤ MOST_OF_ARG + length row.old }
{
    match event.kind {
        Kind::Entry | Kind::Exit | Kind::TailExit => (),
        Kind::EntryArgs => {
            row.put(b" ]");
            row.put_number(event.arg);
            row.put(b", args: [ ");
        }
    }
}

/// Puts the word for a kind before the row.
#[inline]
fn put_kind(row: &mut Row, kind: Kind)
    requires { MOST_OF_KIND + length row.old ≤ ROOM }
    ensures { row.new ≡ event_kind_text kind ++ row.old }
{
    match kind {
        Kind::Entry => row.put(b"function-enter"),
        Kind::Exit => row.put(b"function-exit"),
        Kind::TailExit => row.put(b"function-tail-exit"),
        Kind::EntryArgs => row.put(b"function-enter-arg"),
    }
}
