//! What is written of traced threads that have ended, whatever ran them: the trace, the audit, and
//! the state texts.
ghost use Rattle.std.specs.Prelude.{◌≡◌, ◌≢◌, ◌≤◌, [], ◌∷◌, IfOk, IsTrue, List, None, length, vec_capacity};
ghost use Rattle.std.specs.List.{All, flat_map};
ghost use Rattle.fdr_file.specs.Files.{file_bytes};
ghost use Rattle.machine_step.specs.{EndedText.{thread_text}, Traced.{IsDone}};
ghost use Rattle.trace_flush.specs.{Audit.{audit_text, recycled_by, thread_audits}, Flush.{run_header}};
ghost use Rattle.traced_run.specs.{Left.{LeavesInAnyOrder}, Runs.{ThreadRun}};
ghost use Rattle.xray_io.specs.World.{desk_view, sink_view};
ghost use Rattle.xray_program.specs.Traced.{state_texts, written_of};
ghost use Rattle.xray_program.specs.private.Works.{Delivers, KeepsOthers};

use crate::delivery::{Output, TwoOutputs, deliver};
use crate::stop::Stop;
use fdr_buffer::Buffer;
use fdr_file::TraceFile;
use machine_step::{Cpu, Setup};
use std::alloc::Global;
use step_sim::SimEnd;
use thread_run::RunEnd;
use trace_flush::{Audit, AuditLine, a_run_is_audited, add_audit_lines, arrange, trace_header};
use xray_io::{Desk, Each, NoMemory, Sink};

/// The outputs of a command that runs traced threads.
#[derive(Clone, Copy)]
pub(crate) struct TraceFiles<'a> {
    /// The name of the trace file.
    pub(crate) trace: &'a str,
    /// The name of the audit.
    pub(crate) audit: &'a str,
    ghost apart: { trace.now ≢ audit.now },
}

/// What traced threads leave when they have ended.
#[derive(Drop)]
pub(crate) struct RunLeft<'i> {
    /// The threads, in order.
    pub(crate) cpus: Vec<Cpu<'i>>,
    /// How many segments the events of each thread were cut into.
    pub(crate) segments: Vec<u32>,
    /// How many of these segments are lost. Segments count from 0, so this is the number of the first
    /// one that is left.
    pub(crate) first: Vec<u32>,
    /// The buffers. Those with an event hold the segments that are left, in any order.
    pub(crate) buffers: Vec<Buffer>,
}

impl<'i> From<SimEnd<'i>> for RunLeft<'i> {
    ghost from_gives = { λ end left. (left.cpus ≡ end.cpus) × (left.segments ≡ end.segments)
        × (left.first ≡ end.first) × (left.buffers ≡ end.buffers) };

    fn from(end: SimEnd<'i>) -> Self {
        let SimEnd {
            cpus,
            sealed: _,
            segments,
            first,
            buffers,
        } = end;
        RunLeft {
            cpus,
            segments,
            first,
            buffers,
        }
    }
}

impl<'i> From<RunEnd<'i>> for RunLeft<'i> {
    ghost from_gives = { λ end left. (left.cpus ≡ end.cpus) × (left.segments ≡ end.segments)
        × (left.first ≡ end.first) × (left.buffers ≡ end.buffers) };

    fn from(end: RunEnd<'i>) -> Self {
        let RunEnd {
            cpus,
            seats: _,
            segments,
            first,
            buffers,
        } = end;
        RunLeft {
            cpus,
            segments,
            first,
            buffers,
        }
    }
}

/// Room for the audit's lines of `threads` threads. It is asked for before the threads start.
pub(crate) fn room_for(alloc: Global, threads: u32) -> Result<Vec<AuditLine>, NoMemory>
    ensures none { IfOk result (λ lines. lines.items ≡ []) }
    ensures room { IfOk result (λ lines. vec_capacity lines ≡ threads) }
{
    let lines = Vec::with_capacity(alloc, threads as usize)?;
    Ok(lines)
}

/// Puts the buffers of a run in order, and writes what it left: the trace, then the audit, and then
/// the state texts on out. `lines` is empty, with room for one line per thread.
pub(crate) fn deliver_run<'a, D: Desk, O: Sink>(
    desk: &mut D,
    out: &mut O,
    files: &TraceFiles<'a>,
    setup: &Setup,
    left: RunLeft,
    mut lines: Vec<AuditLine>,
) -> Result<(), Stop<'a>>
    requires left { (runs : List ThreadRun) × LeavesInAnyOrder setup.now runs
        left.cpus.items left.segments.items left.first.items left.buffers.items }
    requires none { lines.items ≡ [] }
    requires room { length left.cpus.items ≤ vec_capacity lines }
    ensures delivers { let seen = desk_view D.held D.read_faults D.write_faults in
        let got = sink_view O.written O.faults in
        (runs : List ThreadRun) → LeavesInAnyOrder setup.now runs left.entry.cpus.items
        left.entry.segments.items left.entry.first.items left.entry.buffers.items
        → Delivers (written_of files.now.trace.now files.now.audit.now setup.now runs) (state_texts 1 runs) None
        (seen desk.old) (seen desk.new) (got out.old) (got out.new) (D.along desk.old desk.new) result }
    ensures others { let seen = desk_view D.held D.read_faults D.write_faults in
        KeepsOthers (files.now.trace.now ∷ files.now.audit.now ∷ []) (seen desk.old) (seen desk.new) }
{
    let RunLeft {
        cpus,
        segments,
        first,
        mut buffers,
    } = left;
    arrange(&mut buffers);
    // Called for its contract: the audit of these lines is that of the run.
    a_run_is_audited();
    add_audit_lines(&cpus, &segments, &first, &mut lines);
    deliver_texts(desk, out, files, setup, &cpus, &lines, &buffers)
}

/// Writes the trace of these buffers, then the audit of these lines, and then the state texts on out.
fn deliver_texts<'a, D: Desk, O: Sink>(
    desk: &mut D,
    out: &mut O,
    files: &TraceFiles<'a>,
    setup: &Setup,
    cpus: &[Cpu],
    lines: &[AuditLine],
    buffers: &[Buffer],
) -> Result<(), Stop<'a>>
    requires begun { All (λ buffer. IsTrue buffer.begun) buffers.now }
    requires count { length lines.now ≡ length cpus.now }
    requires done { All (λ cpu. IsDone cpu.want) cpus.now }
    ensures delivers { let seen = desk_view D.held D.read_faults D.write_faults in
        let got = sink_view O.written O.faults in
        Delivers ((files.now.trace.now, file_bytes (run_header setup.now) buffers.now)
        ∷ (files.now.audit.now, audit_text setup.now (thread_audits lines.now cpus.now) (recycled_by lines.now)) ∷ [])
        (flat_map thread_text cpus.now) None
        (seen desk.old) (seen desk.new) (got out.old) (got out.new) (D.along desk.old desk.new) result }
    ensures others { let seen = desk_view D.held D.read_faults D.write_faults in
        KeepsOthers (files.now.trace.now ∷ files.now.audit.now ∷ []) (seen desk.old) (seen desk.new) }
{
    let header = trace_header(setup);
    let trace = TraceFile {
        header: &header,
        buffers,
    };
    let audit = Audit { setup, lines, cpus };
    let outputs = TwoOutputs {
        first: Output {
            name: files.trace,
            text: &trace,
        },
        second: Output {
            name: files.audit,
            text: &audit,
        },
    };
    deliver(desk, out, &outputs, &Each(cpus), None)
}
