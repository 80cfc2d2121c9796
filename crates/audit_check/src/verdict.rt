//! The verdict on an audit and a trace.

ghost use Rattle.std.specs.Prelude.{◌++◌, ⊤, decimal};
ghost use Rattle.machine_step.specs.Texts.{line_feed};
ghost use Rattle.xray_io.specs.Text.{AddsText};

use xray_io::{Piece, Printed, Sink, Text, WriteFault};

/// The verdict on an audit and a trace, for an image and a script. If several rows differ, it is the
/// first of them in this order, with the least thread of which it differs: `Ends`, `Marks`, `Counts`,
/// `Recycled`, `Trace`. Threads count from 1.
#[derive(Clone, Copy, Debug, PartialEq, Eq)]
pub enum Verdict {
    /// Everything agrees. So the marks of each thread are those of some order of its loads and the
    /// script's stores, and the trace holds exactly the last whole segments of the events that they
    /// record. It doesn't say that one order of all threads together gives the marks of all.
    Yes,
    /// This thread's end, or the number of its passings, isn't that of its plain run.
    Ends(u32),
    /// This thread doesn't have a mark for each of its passings, or no loads that follow the script
    /// give these marks.
    Marks(u32),
    /// This thread's recorded passings, segments or recycled segments aren't counted as its marks say,
    /// or it has lost its last segment.
    Counts(u32),
    /// The number of recycled segments isn't the sum of those of the threads, or isn't how many
    /// segments the threads' queue had no spare buffer for.
    Recycled,
    /// The trace isn't, byte for byte, the file of the segments that are left.
    Trace,
}

/// A verdict is printed as a line: `yes`, or `no`, the row, and the thread if the row has one.
impl Printed for Verdict {
    ghost use Rattle.audit_check.specs.Texts.{verdict_text};

    ghost text = { verdict_text };

    ghost ready = { λ _. ⊤ };

    fn add_to<S: Sink>(&self, to: &mut Text<S>) -> Result<(), WriteFault> {
        match *self {
            Verdict::Yes => to.bytes(b"yes\n"),
            Verdict::Ends(thread) => add_row(to, b"no ends ", thread),
            Verdict::Marks(thread) => add_row(to, b"no marks ", thread),
            Verdict::Counts(thread) => add_row(to, b"no counts ", thread),
            Verdict::Recycled => to.bytes(b"no recycled\n"),
            Verdict::Trace => to.bytes(b"no trace\n"),
        }
    }
}

/// Adds a line of a row and a thread.
fn add_row<S: Sink>(to: &mut Text<S>, row: &'static [u8], thread: u32) -> Result<(), WriteFault>
    ensures { AddsText S.written S.faults S.along to.old to.new
        (row.now ++ decimal thread ++ line_feed) result }
{
    to.pieces(&[
        Piece::Bytes(row),
        Piece::Number(u128::from(thread)),
        Piece::Bytes(b"\n"),
    ])
}
