//! The text of marks. Each run of equal marks is printed as its character and its length.

ghost use Rattle.std.specs.Prelude.{◌≡◌, ◌<◌, ◌≤◌, ◌+◌, [], ◌∷◌, ◌++◌, ⊤, length, drop};
ghost use Rattle.handler_word.specs.Runs.{mark_byte, runs_of, run_text, runs_text};
ghost use Rattle.xray_io.specs.Text.{AddsText};
ghost use Rattle.xray_io.specs.Writes.{WritesText};

use crate::{Mark, Marks};
use xray_io::{Piece, Printed, Sink, Text, WriteFault, write_text};

/// Marks are printed as their runs, as `.3 n1 +20 a2`. Each longest run of equal marks is its character
/// and its length, and there is a space between runs. The text is `-` if there are no marks.
impl Printed for Marks {
    ghost text = { λ marks. runs_text marks.items };

    ghost ready = { λ _. ⊤ };

    fn add_to<S: Sink>(&self, to: &mut Text<S>) -> Result<(), WriteFault> {
        if self.is_empty() {
            return to.bytes(b"-");
        }
        let first = run_at(self, 0);
        add_run(to, b"", first)?;
        let mut end = first.length;
        'runs: while end < self.len() {
            let run = run_at(self, end);
            add_run(to, b" ", run)?;
            end += run.length;
        }
        Ok(())
    }
}

/// Writes the marks as their runs: each longest run of equal marks as its character and its length,
/// with a space between runs, or `-` if there are no marks.
///
/// Takes no memory. On `WriteFault` a prefix of the text was written, and the sink counted a fault.
pub fn write_runs<S: Sink>(marks: &Marks, sink: &mut S) -> Result<(), WriteFault>
    ensures writes { WritesText S.written S.faults S.along sink.old sink.new
        (runs_text marks.now.items) result }
{
    write_text(marks, sink)
}

/// A run of equal marks, and its length.
#[derive(Clone, Copy)]
struct Run {
    mark: Mark,
    length: u32,
}

/// The longest run that begins with the mark of this number.
fn run_at(marks: &Marks, start: u32) -> Run
    requires { start < length marks.now.items }
    ensures run { runs_of (drop start marks.now.items)
        ≡ (result.mark, result.length) ∷ runs_of (drop (start + result.length) marks.now.items) }
    ensures some { 0 < result.length }
    ensures within { start + result.length ≤ length marks.now.items }
{
    let mark = marks.get(start);
    let len = marks.len();
    let mut end = start + 1;
    'same: while end < len && marks.get(end) == mark {
        end += marks.alike_from(end, mark);
    }
    Run {
        mark,
        length: end - start,
    }
}

/// Adds a run, with `before` before it.
fn add_run<S: Sink>(text: &mut Text<S>, before: &'static [u8], run: Run) -> Result<(), WriteFault>
    ensures { AddsText S.written S.faults S.along text.old text.new
        (before.now ++ run_text (run.mark, run.length)) result }
{
    text.pieces(&[
        Piece::Bytes(before),
        Piece::Bytes(mark_symbol(run.mark)),
        Piece::Number(u128::from(run.length)),
    ])
}

/// The character of a mark.
fn mark_symbol(mark: Mark) -> &'static [u8]
    ensures { result.now ≡ mark_byte mark ∷ [] }
{
    match mark {
        Mark::Skipped => b".",
        Mark::NoHandler => b"n",
        Mark::NotLogging => b"f",
        Mark::Recorded => b"+",
        Mark::RecordedArg => b"a",
    }
}
