//! Logs as traces.
ghost use Rattle.std.specs.Prelude.{◌≡◌, ◌≢◌, ◌⊎◌, ◌<◌, ◌≤◌, ◌^◌, All, List, [], Err, IfErr, IfOk, Ok, length, map};
ghost use Rattle.fdr_buffer.specs.declared.buffer.TheConstants.{LARGEST_SIZE};
ghost use Rattle.fdr_file.specs.declared.fault.TraceFault.TheVariants.{NoMemory as NoRoom};
ghost use Rattle.runtime_log.specs.declared.fault.LogFault.TheVariants.{Trace};
ghost use Rattle.runtime_log.specs.Facts.{facts_of};
ghost use Rattle.runtime_log.specs.Imports.{IsImport, trace_file, trace_taken};
ghost use Rattle.runtime_log.specs.Logs.{Log as TheLog, LogBlock as SaidBlock, logged};
ghost use Rattle.runtime_log.specs.private.{Choices.{AreAt, LiesWithin}, Headers.{mode_of}, Notes.{AreFew}, Packings.{HasPacked}, Passings.{events_of_passings, runs_of}};

use crate::basic::Passing;
use crate::blocks::{BlockEvents, LogBlock, LogBlocks, Mode};
use crate::facts::{Counts, Facts};
use crate::fault::LogFault;
use crate::packing::{Packing, log_facts};
use crate::reading::{read_mode, trace_header};
use crate::taken::{LeftOut, take_blocks};
use crate::threads::{run_len, thread_passings};
use crate::version::{BasicVersion, LogVersion};
use std::alloc::Global;
use std::marker::Model;
use xray_io::NoMemory;

/// A log, as the file of a trace, and what is said of the import.
#[derive(Drop)]
pub struct ImportedLog {
    file: Vec<u8>,
    facts: Facts,
}

impl Model for ImportedLog {
    ghost use Rattle.std.specs.Prelude.{ℕ, List};
    ghost use Rattle.runtime_log.specs.declared.facts.Facts.{Facts};

    ghost Value = { List ℕ × Facts };

    ghost view = { λ imported. (imported.file.items, imported.facts) };
}

impl ImportedLog {
    /// The bytes of the trace.
    pub fn file(&self) -> &[u8]
        ensures { result.now ≡ self.now.0 }
    {
        &self.file
    }

    /// What was taken of the log, and what was left out.
    pub fn facts(&self) -> &Facts
        ensures { result.now ≡ self.now.1 }
    {
        &self.facts
    }
}

/// The file and the facts of blocks, one after the other.
fn pack_blocks(
    mut packing: Packing,
    bytes: &[u8],
    version: LogVersion,
    blocks: &[LogBlock],
) -> Result<(Vec<u8>, Facts), NoMemory>
    requires few { (length bytes.now < 2 ^ 30) × (length blocks.now < 2 ^ 30) }
    requires within { All (LiesWithin bytes.now) blocks.now }
    requires none { (packing.notes.facts.events ≡ 0) × (packing.notes.facts.blocks ≡ 0)
        × AreFew packing.notes.facts × (packing.buffer.size ≡ LARGEST_SIZE) }
    ensures { (log : TheLog) (taken : List SaidBlock) → HasPacked log [] packing
        → AreAt bytes.now version blocks.now taken → All (λ b. b.block.events ≢ []) taken
        → IfOk result (λ made. (made.0.items ≡ trace_file (trace_taken log.header (map (λ b. b.block) taken)))
        × (made.1 ≡ facts_of log (map (λ b. b.block) taken))) }
{
    'adding: for block in blocks {
        packing.add(block.head(), BlockEvents::of(bytes, version, block))?;
    }
    Ok(packing.finish())
}

/// The file and the facts of the passings of a basic log. Each run of them with one thread and one
/// process is a block.
fn pack_runs(
    mut packing: Packing,
    version: BasicVersion,
    bytes: &[u8],
    passings: &[Passing],
) -> Result<(Vec<u8>, Facts), NoMemory>
    requires few { length passings.now < 2 ^ 30 }
    requires none { (packing.notes.facts.events ≡ 0) × (packing.notes.facts.blocks ≡ 0)
        × AreFew packing.notes.facts × (packing.buffer.size ≡ LARGEST_SIZE) }
    ensures { (log : TheLog) → HasPacked log [] packing
        → IfOk result (λ made. (made.0.items ≡ trace_file (trace_taken log.header (runs_of (events_of_passings version bytes.now passings.now))))
        × (made.1 ≡ facts_of log (runs_of (events_of_passings version bytes.now passings.now)))) }
{
    let mut left = passings;
    'packing: while let Some((first, others)) = left.split_first() {
        let (run, later) = left.split_at(1 + run_len(first, others));
        packing.add(first.head(), BlockEvents::of_passings(version, bytes, run))?;
        left = later;
    }
    Ok(packing.finish())
}

/// The trace of a log of the Flight Data Recorder mode, and what is said of it.
fn import_recorder(
    alloc: Global,
    bytes: &[u8],
    version: LogVersion,
) -> Result<(Vec<u8>, Facts), LogFault>
    requires few { (32 ≤ length bytes.now) × (length bytes.now < 2 ^ 30) }
    requires mode { mode_of bytes.now ≡ Ok (Mode.Recorder version) }
    ensures imports { IfOk result (λ made. IsImport bytes.now made.0.items made.1) }
    ensures refuses { IfErr result (λ fault. (fault ≡ Trace NoRoom) ⊎ (logged bytes.now ≡ Err fault)) }
{
    let blocks = LogBlocks::read(alloc, bytes, version)?;
    let (taken, left) = take_blocks(alloc, bytes, &blocks.blocks)?;
    let header = trace_header(bytes, Mode::Recorder(version));
    let counts = Counts {
        custom: blocks.custom,
        typed: blocks.typed,
        lost: 0,
        cut: blocks.cut,
        frequency: header.frequency,
    };
    let facts = log_facts(counts, left);
    let packing = Packing::new(alloc, &header, bytes.len(), facts)?;
    Ok(pack_blocks(packing, bytes, version, &taken)?)
}

/// The trace of a basic log, and what is said of it.
fn import_basic(
    alloc: Global,
    bytes: &[u8],
    version: BasicVersion,
) -> Result<(Vec<u8>, Facts), LogFault>
    requires few { (32 ≤ length bytes.now) × (length bytes.now < 2 ^ 30) }
    requires mode { mode_of bytes.now ≡ Ok (Mode.Basic version) }
    ensures imports { IfOk result (λ made. IsImport bytes.now made.0.items made.1) }
    ensures refuses { IfErr result (λ fault. (fault ≡ Trace NoRoom) ⊎ (logged bytes.now ≡ Err fault)) }
{
    let (passings, lost) = thread_passings(alloc, version, bytes)?;
    let header = trace_header(bytes, Mode::Basic(version));
    let left = LeftOut {
        doubled: 0,
        empty: 0,
    };
    let counts = Counts {
        custom: 0,
        typed: 0,
        lost,
        cut: 0,
        frequency: header.frequency,
    };
    let packing = Packing::new(alloc, &header, bytes.len(), log_facts(counts, left))?;
    Ok(pack_runs(packing, version, bytes, &passings)?)
}

/// Makes a trace of a log that LLVM's runtime wrote. The log has fewer than 2^30 bytes.
///
/// A log of the Flight Data Recorder mode is of version 2 to 5, and a basic log of version 1 to 3. The
/// trace is of version 3. It has the flags and the frequency of the log, and the size of a buffer that
/// a log of the Flight Data Recorder mode names. Threads ascend. A block whose events need more than
/// 1,048,576 bytes is cut.
///
/// Each block of a log of the Flight Data Recorder mode that has events is a block of the same thread,
/// wall time and process. A block whose bytes stood before is left out. The blocks of a thread are in
/// the order of time: of their wall times, then their first counters, then their places. Custom and
/// typed events are left out.
///
/// The events of each thread of a basic log are in the order of the log, and none is left out. Each run
/// of one process among them is a block, with the wall time 0. The process is 0 in version 1 and 2. An
/// argument that doesn't directly follow its entry is left out.
///
/// Bytes that aren't a log are refused by their first fault; see `LogFault`. `NoMemory` may be returned
/// in place of any other result.
pub fn import_log(alloc: Global, bytes: &[u8]) -> Result<ImportedLog, LogFault>
    requires few { length bytes.now < 2 ^ 30 }
    ensures imports { IfOk result (λ made. IsImport bytes.now made.0 made.1) }
    ensures refuses { IfErr result (λ fault. (fault ≡ Trace NoRoom) ⊎ (logged bytes.now ≡ Err fault)) }
{
    let mode = match read_mode(bytes) {
        Ok(mode) => mode,
        Err(fault) => return Err(LogFault::Trace(fault)),
    };
    let (file, facts) = match mode {
        Mode::Recorder(version) => import_recorder(alloc, bytes, version)?,
        Mode::Basic(version) => import_basic(alloc, bytes, version)?,
    };
    Ok(ImportedLog { file, facts })
}
