//! The text of the audit.

ghost use Rattle.std.specs.Prelude.{◌≡◌, ◌++◌, ◌<◌, ◌*◌, ◌^◌, length, All};
ghost use Rattle.std.specs.List.{flat_map};
ghost use Rattle.machine_step.specs.{Texts.{marks_line}, Traced.{IsDone}};
ghost use Rattle.trace_flush.specs.Audit.{audit_text, buffers_text, limits_text, recycled_by, recycled_line, setup_lines, stamps_text, thread_audit, thread_audits};
ghost use Rattle.trace_flush.specs.private.Parts.{first_text, rest_of, said_of, segments_text, start_text};
ghost use Rattle.xray_io.specs.{Text.{AddsText}, Writes.{WritesText}};

use crate::line::AuditLine;
use handler_word::Marks;
use machine_step::{Cpu, Limits, Setup, add_marks, end_name};
use xray_io::{Piece, Printed, Sink, Text, WriteFault, write_text};

/// The audit of a run whose threads have all ended: what it was made with, two lines for each
/// thread in order, and how many segments were recycled.
#[derive(Clone, Copy)]
pub struct Audit<'a, 'i> {
    /// What the run was made with.
    pub setup: &'a Setup,
    /// What is said of each thread.
    pub lines: &'a [AuditLine],
    /// The threads, as many as lines and in the same order.
    pub cpus: &'a [Cpu<'i>],
}

impl Printed for Audit<'_, '_> {
    ghost text = { λ audit. audit_text audit.setup.now (thread_audits audit.lines.now audit.cpus.now)
        (recycled_by audit.lines.now) };

    ghost ready = { λ audit. (length audit.lines.now ≡ length audit.cpus.now)
        × All (λ cpu. IsDone cpu.want) audit.cpus.now };

    fn add_to<S: Sink>(&self, to: &mut Text<S>) -> Result<(), WriteFault> {
        add_setup(to, self.setup)?;
        add_threads(to, Detail::Audit, self.lines, self.cpus)?;
        add_recycled(to, self.lines)
    }
}

/// Writes the audit of a run whose threads have all ended. `lines` has one line for each thread. On
/// `WriteFault` a prefix of the audit was written, and the sink counted a fault.
pub fn write_audit<S: Sink>(
    setup: &Setup,
    lines: &[AuditLine],
    cpus: &[Cpu],
    sink: &mut S,
) -> Result<(), WriteFault>
    requires count { length lines.now ≡ length cpus.now }
    requires done { All (λ cpu. IsDone cpu.want) cpus.now }
    ensures { WritesText S.written S.faults S.along sink.old sink.new
        (audit_text setup.now (thread_audits lines.now cpus.now) (recycled_by lines.now)) result }
{
    write_text(&Audit { setup, lines, cpus }, sink)
}

/// Adds the line of the format and the line of the setup.
fn add_setup<S: Sink>(text: &mut Text<S>, setup: &Setup) -> Result<(), WriteFault>
    ensures { AddsText S.written S.faults S.along text.old text.new (setup_lines setup.now) result }
{
    add_buffers(text, setup)?;
    add_limits(text, &setup.limits)?;
    add_stamps(text, setup)
}

/// Adds the line of the format, the threads and the buffers.
fn add_buffers<S: Sink>(text: &mut Text<S>, setup: &Setup) -> Result<(), WriteFault>
    ensures { AddsText S.written S.faults S.along text.old text.new
        (buffers_text setup.now) result }
{
    text.pieces(&[
        Piece::Bytes(b"xray-audit 1\nthreads="),
        Piece::Number(u128::from(setup.threads)),
        Piece::Bytes(b" buffer-size="),
        Piece::Number(u128::from(setup.size)),
        Piece::Bytes(b" buffer-max="),
        Piece::Number(u128::from(setup.max)),
    ])
}

/// Adds the limits and the stamps of each thread.
fn add_limits<S: Sink>(text: &mut Text<S>, limits: &Limits) -> Result<(), WriteFault>
    ensures { AddsText S.written S.faults S.along text.old text.new
        (limits_text limits.now) result }
{
    text.pieces(&[
        Piece::Bytes(b" fuel="),
        Piece::Number(u128::from(limits.fuel)),
        Piece::Bytes(b" passings="),
        Piece::Number(u128::from(limits.passings)),
        Piece::Bytes(b" tick="),
        Piece::Number(u128::from(limits.tick)),
        Piece::Bytes(b" tsc="),
        Piece::Number(u128::from(limits.tsc)),
        Piece::Bytes(b" cpus="),
        Piece::Number(u128::from(limits.cpus)),
        Piece::Bytes(b" migrate="),
        Piece::Number(u128::from(limits.migrate)),
    ])
}

/// Adds the process, the wall time and the counter's frequency, which the trace has too.
fn add_stamps<S: Sink>(text: &mut Text<S>, setup: &Setup) -> Result<(), WriteFault>
    ensures { AddsText S.written S.faults S.along text.old text.new (stamps_text setup.now) result }
{
    text.pieces(&[
        Piece::Bytes(b" pid="),
        Piece::Number(u128::from(setup.pid)),
        Piece::Bytes(b" wall="),
        Piece::Number(u128::from(setup.wall.secs)),
        Piece::Bytes(b"."),
        Piece::Number(u128::from(setup.wall.micros)),
        Piece::Bytes(b" frequency="),
        Piece::Number(u128::from(setup.frequency)),
        Piece::Bytes(b"\n"),
    ])
}

/// How much is said of each thread.
#[derive(Clone, Copy)]
pub(crate) enum Detail {
    /// The two lines of the audit.
    Audit,
    /// The line of the summary.
    Summary,
}

/// Adds the lines of each thread.
pub(crate) fn add_threads<S: Sink>(
    text: &mut Text<S>,
    detail: Detail,
    lines: &[AuditLine],
    cpus: &[Cpu],
) -> Result<(), WriteFault>
    requires { length lines.now ≡ length cpus.now }
    ensures { AddsText S.written S.faults S.along text.old text.new
        (flat_map (said_of detail) (thread_audits lines.now cpus.now)) result }
{
    'threads: for (line, cpu) in lines.iter().zip(cpus.iter()) {
        add_thread(text, detail, line, cpu.marks())?;
    }
    Ok(())
}

/// Adds the lines of a thread.
fn add_thread<S: Sink>(
    text: &mut Text<S>,
    detail: Detail,
    line: &AuditLine,
    marks: &Marks,
) -> Result<(), WriteFault>
    ensures { AddsText S.written S.faults S.along text.old text.new
        (said_of detail (thread_audit line.now marks.now.items)) result }
{
    add_start(text, line, marks)?;
    add_rest(text, detail, line, marks)
}

/// Adds how a thread ended, its passings and those that recorded an event.
fn add_start<S: Sink>(text: &mut Text<S>, line: &AuditLine, marks: &Marks) -> Result<(), WriteFault>
    ensures { AddsText S.written S.faults S.along text.old text.new
        (start_text (thread_audit line.now marks.now.items)) result }
{
    text.pieces(&[
        Piece::Bytes(b"thread "),
        Piece::Number(u128::from(line.thread)),
        Piece::Bytes(b" "),
        Piece::Bytes(end_name(line.end)),
        Piece::Bytes(b" passings "),
        Piece::Number(u128::from(marks.len())),
        Piece::Bytes(b" recorded "),
        Piece::Number(u128::from(marks.recorded())),
    ])
}

/// Adds what is said of a thread after its start.
fn add_rest<S: Sink>(
    text: &mut Text<S>,
    detail: Detail,
    line: &AuditLine,
    marks: &Marks,
) -> Result<(), WriteFault>
    ensures { AddsText S.written S.faults S.along text.old text.new
        (rest_of detail line.now marks.now.items) result }
{
    match detail {
        Detail::Audit => add_whole_rest(text, line, marks),
        Detail::Summary => add_first(text, line),
    }
}

/// Adds the segments of a thread and its marks.
fn add_whole_rest<S: Sink>(
    text: &mut Text<S>,
    line: &AuditLine,
    marks: &Marks,
) -> Result<(), WriteFault>
    ensures { AddsText S.written S.faults S.along text.old text.new
        (segments_text line.now ++ marks_line marks.now.items) result }
{
    add_segments(text, line)?;
    add_marks(text, marks)
}

/// Adds the segments of a thread and how many of them were recycled, which ends its line.
fn add_segments<S: Sink>(text: &mut Text<S>, line: &AuditLine) -> Result<(), WriteFault>
    ensures { AddsText S.written S.faults S.along text.old text.new (segments_text line.now) result }
{
    text.pieces(&[
        Piece::Bytes(b" segments "),
        Piece::Number(u128::from(line.segments)),
        Piece::Bytes(b" first "),
        Piece::Number(u128::from(line.first)),
        Piece::Bytes(b"\n"),
    ])
}

/// Adds how many segments of a thread were recycled, which ends its line.
fn add_first<S: Sink>(text: &mut Text<S>, line: &AuditLine) -> Result<(), WriteFault>
    ensures { AddsText S.written S.faults S.along text.old text.new (first_text line.now) result }
{
    text.pieces(&[
        Piece::Bytes(b" first "),
        Piece::Number(u128::from(line.first)),
        Piece::Bytes(b"\n"),
    ])
}

/// Adds the line with the number of recycled segments.
pub(crate) fn add_recycled<S: Sink>(
    text: &mut Text<S>,
    lines: &[AuditLine],
) -> Result<(), WriteFault>
    ensures { AddsText S.written S.faults S.along text.old text.new
        (recycled_line (recycled_by lines.now)) result }
{
    text.pieces(&[
        Piece::Bytes(b"recycled "),
        Piece::Number(recycled(lines)),
        Piece::Bytes(b"\n"),
    ])
}

/// How many segments of all threads were recycled.
fn recycled(lines: &[AuditLine]) -> u128
    ensures { result ≡ recycled_by lines.now }
{
    lines.iter().map(|line| u128::from(line.first)).sum()
}
