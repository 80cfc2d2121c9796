//! The state text of a thread: its plain text, and the marks of its passings.

ghost use Rattle.machine_step.specs.Texts.{marks_line, plain_text, state_text};
ghost use Rattle.machine_step.specs.{Traced.{IsDone, state_at}, EndedText.{ended_text, thread_text}};
ghost use Rattle.xray_io.specs.Text.{AddsText};
ghost use Rattle.xray_io.specs.Writes.{WritesText};

use crate::cpu::Cpu;
use crate::end::End;
use crate::plain_text::{add_counts, add_output, add_registers};
use crate::want::Want;
use handler_word::Marks;
use xray_io::{Printed, Sink, Text, WriteFault};

/// A thread that has ended is printed as its state text: the three lines of its plain text and one
/// of its marks, each with its line feed.
impl Printed for Cpu<'_> {
    ghost text = { thread_text };

    ghost ready = { λ cpu. IsDone cpu.want };

    fn add_to<S: Sink>(&self, to: &mut Text<S>) -> Result<(), WriteFault> {
        add_state(to, self.thread(), self)
    }
}

/// Writes the state text of a thread that has ended, under this number: the three lines of its plain
/// text, and the line of its marks.
///
/// Takes no memory. On `WriteFault` a prefix of the text was written, and the sink counted a fault.
pub fn write_state<S: Sink>(thread: u32, cpu: &Cpu, sink: &mut S) -> Result<(), WriteFault>
    requires done { IsDone cpu.now.want }
    ensures writes { WritesText S.written S.faults S.along sink.old sink.new
        (ended_text thread cpu.now cpu.now.want) result }
{
    let mut text = Text::new(sink);
    add_state(&mut text, thread, cpu)?;
    text.done()
}

/// Adds the four lines of a thread that has ended.
fn add_state<S: Sink>(text: &mut Text<S>, thread: u32, cpu: &Cpu) -> Result<(), WriteFault>
    requires { IsDone cpu.now.want }
    ensures { AddsText S.written S.faults S.along text.old text.new
        (ended_text thread cpu.now cpu.now.want) result }
{
    match cpu.want() {
        Want::Done(end) => add_ended(text, thread, end, cpu),
        Want::Gate(_) | Want::Load(_) => unreachable!(),
    }
}

/// Adds the four lines of a thread with this end.
fn add_ended<S: Sink>(
    text: &mut Text<S>,
    thread: u32,
    end: End,
    cpu: &Cpu,
) -> Result<(), WriteFault>
    ensures { AddsText S.written S.faults S.along text.old text.new
        (state_text thread end (state_at 0 cpu.now) cpu.now.marks) result }
{
    add_plain(text, thread, end, cpu)?;
    add_marks(text, cpu.marks())
}

/// Adds the three lines of the plain text.
fn add_plain<S: Sink>(
    text: &mut Text<S>,
    thread: u32,
    end: End,
    cpu: &Cpu,
) -> Result<(), WriteFault>
    ensures { AddsText S.written S.faults S.along text.old text.new
        (plain_text thread end (state_at 0 cpu.now)) result }
{
    add_counts(text, thread, end, cpu.instructions(), cpu.passings())?;
    add_registers(text, cpu.registers(), cpu.zf())?;
    add_output(text, cpu.output())
}

/// Adds the line of a thread's marks to a text that may say more.
pub fn add_marks<S: Sink>(text: &mut Text<S>, marks: &Marks) -> Result<(), WriteFault>
    ensures { AddsText S.written S.faults S.along text.old text.new
        (marks_line marks.now.items) result }
{
    text.bytes(b"marks ")?;
    marks.add_to(text)?;
    text.bytes(b"\n")
}
