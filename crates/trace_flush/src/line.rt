//! A thread's line of the audit.

ghost use Rattle.std.specs.Prelude.{◌≡◌, ◌≤◌, ◌+◌, ◌++◌, All, length, vec_len, vec_capacity};
ghost use Rattle.machine_step.specs.Traced.{IsDone};
ghost use Rattle.trace_flush.specs.Lines.{end_of, audit_lines_of};

use machine_step::{Cpu, End, Want};

/// What the audit says of a thread, except its marks.
#[derive(Clone, Copy)]
pub struct AuditLine {
    /// The number of the thread, from 1.
    pub thread: u32,
    /// How it ended.
    pub end: End,
    /// How many segments its events were cut into, including the recycled ones. Each segment had a
    /// buffer.
    pub segments: u32,
    /// How many of its segments are lost because their buffers were used again. Segments count from
    /// 0, so this is the number of the first one that is left.
    pub first: u32,
}

/// How a thread has ended.
fn end(cpu: &Cpu) -> End
    requires { IsDone cpu.now.want }
    ensures { result ≡ end_of cpu.now.want }
{
    match cpu.want() {
        Want::Done(end) => end,
        Want::Gate(_) | Want::Load(_) => unreachable!(),
    }
}

/// Adds the lines of the threads of a run, by the numbers of their segments and of their lost
/// segments. `lines` needs room for them.
pub fn add_audit_lines(cpus: &[Cpu], segments: &[u32], first: &[u32], lines: &mut Vec<AuditLine>)
    requires done { All (λ cpu. IsDone cpu.want) cpus.now }
    requires segments { length segments.now ≡ length cpus.now }
    requires first { length first.now ≡ length cpus.now }
    requires room { vec_len lines.old + length cpus.now ≤ vec_capacity lines.old }
    ensures lines { lines.new.items ≡ lines.old.items ++ audit_lines_of cpus.now segments.now first.now }
    ensures capacity { vec_capacity lines.new ≡ vec_capacity lines.old }
{
    for i in 0..cpus.len() {
        let cpu = &cpus[i];
        lines.push_reserved(AuditLine {
            thread: cpu.thread(),
            end: end(cpu),
            segments: segments[i],
            first: first[i],
        });
    }
}
