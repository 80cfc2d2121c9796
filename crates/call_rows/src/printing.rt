//! The calls of a trace, printed as they end.

ghost use Rattle.std.specs.Prelude.{◌≡◌, [], Ok, reverse};
ghost use Rattle.std.specs.{List.{flat_map}, Option.{option_to_list}};
ghost use Rattle.fdr_file.specs.declared.trace.Trace.{Trace};
ghost use Rattle.fdr_file.specs.{EventsLeft.{events_left}, Prefixes.{ReadsAsTrace}, Traces.{trace_of}};
ghost use Rattle.function_names.specs.Name.{naming};
ghost use Rattle.xray_io.specs.Text.{AddsText};
ghost use Rattle.call_rows.specs.{CallRows.{call_rows_of, rows_after, wanted_rows}, CallText.{call_line, call_list_text}};
ghost use Rattle.call_rows.specs.Printing.{AddsCalls, WritesCalls};
ghost use Rattle.call_rows.specs.declared.printing.CallsFault.TheVariants.{NoMemory as Refused, Unwritten};

use crate::filter::CallFilter;
use crate::fold::CallFold;
use crate::row::CallRow;
use crate::text::{add_row, head_line};
use account_report::AccountLayout;
use fdr_file::EventCursor;
use function_names::Names;
use stack_rebuild::{a_thread_goes_on, each_pair_is_a_whole_call};
use std::alloc::Global;
use thiserror::Error;
use xray_io::{NoMemory, Sink, Text, WriteFault};

/// Why calls aren't printed whole.
#[derive(Clone, Copy, Debug, PartialEq, Eq, Error)]
pub enum CallsFault {
    /// Memory for the open calls was refused.
    #[error("out of memory")]
    NoMemory,
    /// The sink refused bytes.
    #[error("not written")]
    Unwritten,
}

impl From<NoMemory> for CallsFault {
    ghost from_gives = { λ _ e. e ≡ Refused };

    fn from(_error: NoMemory) -> CallsFault {
        CallsFault::NoMemory
    }
}

impl From<WriteFault> for CallsFault {
    ghost from_gives = { λ _ e. e ≡ Unwritten };

    fn from(_error: WriteFault) -> CallsFault {
        CallsFault::Unwritten
    }
}

/// Writes the calls of the trace that bytes read as, each as it ends: a head line, and a line for
/// each call that is wanted. No list of events or of rows is made. [`CallsText`](crate::CallsText)
/// says what is printed.
///
/// The bytes have to be a trace: `TraceScan` and `read_trace` of `fdr_file` say whether they are.
/// After a fault the sink was given a prefix of the text.
pub fn write_calls<S: Sink>(
    alloc: Global,
    bytes: &[u8],
    wanted: &CallFilter,
    names: Names,
    format: AccountLayout,
    sink: &mut S,
) -> Result<(), CallsFault>
    requires { ReadsAsTrace bytes.now }
    ensures writes { (trace : Trace) → trace_of bytes.now ≡ Ok trace
        → WritesCalls S.written S.faults S.along sink.old sink.new
        (call_list_text format (naming names.entry) (wanted_rows wanted.now (call_rows_of trace.blocks)))
        result }
{
    let mut text = Text::new(sink);
    add_calls(alloc, &mut text, bytes, wanted, names, format)?;
    text.done()?;
    Ok(())
}

/// Adds the calls of the trace that bytes read as, each as it ends.
pub fn add_calls<S: Sink>(
    alloc: Global,
    to: &mut Text<S>,
    bytes: &[u8],
    wanted: &CallFilter,
    names: Names,
    format: AccountLayout,
) -> Result<(), CallsFault>
    requires { ReadsAsTrace bytes.now }
    ensures adds { (trace : Trace) → trace_of bytes.now ≡ Ok trace
        → AddsCalls S.written S.faults S.along to.old to.new
        (call_list_text format (naming names.entry) (wanted_rows wanted.now (call_rows_of trace.blocks)))
        result }
{
    to.bytes(head_line(format))?;
    add_left(
        alloc,
        to,
        &mut EventCursor::new(bytes),
        wanted,
        names,
        format,
    )
}

/// Adds the lines of the calls that the events make that a cursor has still to give.
fn add_left<S: Sink>(
    alloc: Global,
    to: &mut Text<S>,
    cursor: &mut EventCursor,
    wanted: &CallFilter,
    names: Names,
    format: AccountLayout,
) -> Result<(), CallsFault>
    ensures { AddsCalls S.written S.faults S.along to.old to.new
        (flat_map (call_line format (naming names.entry))
        (wanted_rows wanted.now (rows_after (reverse (events_left cursor.old))))) result }
{
    a_thread_goes_on();
    each_pair_is_a_whole_call();
    let mut fold = CallFold::new(alloc);
    'calls: while let Some((thread, pid, event)) = cursor.next() {
        let row = fold.next(thread, pid, &event)?;
        add_wanted(to, &row, wanted, names, format)?;
    }
    Ok(())
}

/// Adds the line of a call, if there is one and it is wanted.
#[inline(always)]
fn add_wanted<S: Sink>(
    to: &mut Text<S>,
    row: &Option<CallRow>,
    wanted: &CallFilter,
    names: Names,
    format: AccountLayout,
) -> Result<(), WriteFault>
    ensures { AddsText S.written S.faults S.along to.old to.new
        (flat_map (call_line format (naming names.entry))
        (wanted_rows wanted.now (option_to_list row.now))) result }
{
    if let Some(row) = row {
        if wanted.wants(row) {
            return add_row(to, row, names, format);
        }
    }
    Ok(())
}
