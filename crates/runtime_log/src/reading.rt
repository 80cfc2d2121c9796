//! All blocks of a log of the Flight Data Recorder mode, in the order of the file.
ghost use Rattle.std.specs.Prelude.{◌≡◌, ◌⊎◌, ◌<◌, ◌≤◌, ◌+◌, ◌==◌, if◌then◌else◌, ◌++◌, ◌^◌, [], List, Ok, Err, IfErr, IfOk, OnOk, drop, length, option_map, option_to_list};
ghost use Rattle.fdr_file.specs.declared.fault.TraceFault.TheVariants.{NoMemory as NoRoom};
ghost use Rattle.fdr_file.specs.declared.trace.Block.{Block as TheBlock};
ghost use Rattle.fdr_file.specs.Scanning.{empty_block};
ghost use Rattle.fdr_file.specs.Traces.{block_length};
ghost use Rattle.runtime_log.specs.declared.fault.LogFault.TheVariants.{Trace};
ghost use Rattle.runtime_log.specs.Logs.{BlockSoFar, LogBlock as SaidBlock, as_log, block_with, log_block_in, one_custom, one_typed, recorder_blocks};
ghost use Rattle.runtime_log.specs.Versions.{basic_version_of, is_version, log_version_of};
ghost use Rattle.runtime_log.specs.declared.blocks.Mode.TheVariants as TheMode;
ghost use Rattle.runtime_log.specs.private.Choices.{IsAt, Shows, counter_first};
ghost use Rattle.runtime_log.specs.private.Headers.{header_for, mode_of};
ghost use Rattle.runtime_log.specs.private.Readings.{AreRead, HasRead, MayPass, RecordsRead, walk_reads};

use crate::blocks::{LogBlock, LogBlocks, Mode};
use crate::fault::LogFault;
use crate::own_event::OwnKind;
use crate::version::{BasicVersion, LogVersion};
use crate::walk::BlockWalk;
use basic_record::BASIC_TYPE;
use byteorder::{ByteOrder, LittleEndian};
use fdr_file::{HEADER_BYTES, Header, Told, TraceFault, VERSION, header_fields};
use fdr_record::Event;
use std::alloc::Global;
use xray_io::Wall;

/// The place of the type in a header.
const TYPE_AT: usize = 2;

/// The type of logs of the Flight Data Recorder mode.
const RECORDER: u16 = 1;

/// Whether logs of some mode have the version with this number.
fn is_version(number: u16) -> bool
    ensures { result ≡ is_version number }
{
    LogVersion::of(number).is_some() || BasicVersion::of(number).is_some()
}

/// The Flight Data Recorder mode in the version with this number, if it has that version.
fn recorder_mode(number: u16) -> Option<Mode>
    ensures { result ≡ option_map TheMode.Recorder (log_version_of number) }
{
    match LogVersion::of(number) {
        Some(version) => Some(Mode::Recorder(version)),
        None => None,
    }
}

/// The basic mode in the version with this number, if it has that version.
fn basic_mode(number: u16) -> Option<Mode>
    ensures { result ≡ option_map TheMode.Basic (basic_version_of number) }
{
    match BasicVersion::of(number) {
        Some(version) => Some(Mode::Basic(version)),
        None => None,
    }
}

/// The mode of a log, or why its header isn't that of one.
pub(crate) fn read_mode(bytes: &[u8]) -> Result<Mode, TraceFault>
    ensures reads { result ≡ mode_of bytes.now }
    ensures whole { OnOk result (32 ≤ length bytes.now) }
{
    if bytes.len() < HEADER_BYTES {
        return Err(TraceFault::Short(0));
    }
    let number = LittleEndian::read_u16(bytes);
    if !is_version(number) {
        return Err(TraceFault::Version(number));
    }
    let mode = match LittleEndian::read_u16(&bytes[TYPE_AT..]) {
        RECORDER => recorder_mode(number),
        BASIC_TYPE => basic_mode(number),
        form => return Err(TraceFault::Form(form)),
    };
    match mode {
        Some(mode) => Ok(mode),
        None => Err(TraceFault::Version(number)),
    }
}

/// The header of the trace of a log. A basic log says the size of no buffer.
pub(crate) fn trace_header(bytes: &[u8], mode: Mode) -> Header
    requires { 32 ≤ length bytes.now }
    ensures { result ≡ header_for mode bytes.now }
{
    let fields = header_fields(bytes);
    let size = match mode {
        Mode::Recorder(_) => fields.size,
        Mode::Basic(_) => 0,
    };
    Header {
        version: VERSION,
        size,
        ..fields
    }
}

/// The counter of the first of two events, if there are any.
#[inline(always)]
fn first_counter(entry: Option<Event>, event: Option<Event>) -> Option<u64>
    ensures { result ≡ counter_first (option_to_list entry ++ option_to_list event) }
{
    match (entry, event) {
        (Some(entry), _) => Some(entry.tsc),
        (None, Some(event)) => Some(event.tsc),
        (None, None) => None,
    }
}

/// The way after the stretch that is next in a block, if one is, and if the counter of the block's first
/// event is known.
#[inline(always)]
fn past_stretch<'a>(walk: BlockWalk<'a>, first: Option<u64>) -> BlockWalk<'a>
    requires few { walk.at + length walk.rest.now < 2 ^ 32 }
    ensures { MayPass walk.entry first result }
{
    if first.is_none() {
        return walk;
    }
    match walk.stretch(usize::MAX) {
        Some((_, next)) => next,
        None => walk,
    }
}

/// A block that begins at a place, before any record.
fn opened(at: usize) -> LogBlock
    ensures begin { result.begin ≡ at }
    ensures shows { Shows result (empty_block 0 (record { secs = 0; micros = 0 }) 0) }
{
    LogBlock {
        begin: at,
        end: at,
        thread: 0,
        pid: 0,
        wall: Wall { secs: 0, micros: 0 },
        first: None,
    }
}

impl LogBlock {
    /// Takes what a record says of the block.
    #[inline(always)]
    fn hear(&mut self, told: Told)
        ensures shows { (b : TheBlock) → Shows self.old b → Shows self.new (block_with told b) }
        ensures places { (self.new.begin ≡ self.old.begin) × (self.new.end ≡ self.old.end) }
    {
        match told {
            Told::Nothing => (),
            Told::Begun { thread, wall, pid } => {
                self.thread = thread;
                self.wall = wall;
                self.pid = pid;
            }
            Told::Noted { entry, event } => {
                self.first = self.first.or(first_counter(entry, event));
            }
        }
    }
}

/// How many records are cut at the end of a block, by how many bytes are left of one: one or none.
fn one_cut(cut: usize) -> u64
    ensures is { result ≡ (if cut == 0 then 0 else 1) }
    ensures few { result ≤ 1 }
{
    if cut == 0 { 0 } else { 1 }
}

impl LogBlocks {
    /// No block.
    fn new(alloc: Global) -> LogBlocks
        ensures { (result.blocks.items ≡ []) × (result.custom ≡ 0) × (result.typed ≡ 0) × (result.cut ≡ 0) }
    {
        LogBlocks {
            blocks: Vec::new(alloc),
            custom: 0,
            typed: 0,
            cut: 0,
        }
    }

    /// Counts an event of the program's own, if it is one. A log has fewer than 2^32.
    #[inline(always)]
    fn count(&mut self, own: Option<OwnKind>)
        requires few { (self.old.custom < 2 ^ 32) × (self.old.typed < 2 ^ 32) }
        ensures custom { self.new.custom ≡ self.old.custom + one_custom own }
        ensures typed { self.new.typed ≡ self.old.typed + one_typed own }
        ensures others { (self.new.blocks ≡ self.old.blocks) × (self.new.cut ≡ self.old.cut) }
    {
        match own {
            Some(OwnKind::Custom) => self.custom += 1,
            Some(OwnKind::Typed) => self.typed += 1,
            None => (),
        }
    }

    /// Takes the records of a block that are left.
    fn read_records(&mut self, mut walk: BlockWalk, block: &mut LogBlock) -> Result<(), TraceFault>
        requires few { walk.at + length walk.rest.now < 2 ^ 32 }
        requires counts { (self.old.custom ≤ walk.at) × (self.old.typed ≤ walk.at) }
        ensures reads { (so : BlockSoFar) → walk.entry.stage ≡ so.stage → Shows block.old so.block
            → OnOk result (RecordsRead self.old self.new so block.new (walk_reads walk.entry so)) }
        ensures refuses { (so : BlockSoFar) → walk.entry.stage ≡ so.stage
            → IfErr result (λ fault. walk_reads walk.entry so ≡ Err fault) }
        ensures counts { OnOk result ((self.new.custom ≤ walk.entry.at + length walk.entry.rest.now)
            × (self.new.typed ≤ walk.entry.at + length walk.entry.rest.now)) }
        ensures places { OnOk result ((block.new.begin ≡ block.old.begin)
            × (block.new.end ≡ walk.entry.at + length walk.entry.rest.now)) }
        ensures others { (self.new.blocks ≡ self.old.blocks) × (self.new.cut ≡ self.old.cut) }
    {
        'records: while walk.left() > 0 {
            let (told, own) = walk.step()?;
            self.count(own);
            block.hear(told);
            walk = past_stretch(walk, block.first);
        }
        block.end = walk.at() as usize;
        Ok(())
    }

    /// The block that begins at a place of a log of the Flight Data Recorder mode.
    fn read_block(
        &mut self,
        version: LogVersion,
        bytes: &[u8],
        at: usize,
    ) -> Result<LogBlock, TraceFault>
        requires few { length bytes.now < 2 ^ 32 }
        requires within { at ≤ length bytes.now }
        requires counts { (self.old.custom ≤ at) × (self.old.typed ≤ at) × (self.old.cut ≤ at) }
        ensures reads { IfOk result (λ placed. (b : SaidBlock) × (log_block_in version (at, drop at bytes.now) ≡ Ok b)
            × IsAt bytes.now version placed b
            × (self.new.custom ≡ self.old.custom + b.custom) × (self.new.typed ≡ self.old.typed + b.typed)
            × (self.new.cut ≡ self.old.cut + b.cut)) }
        ensures refuses { IfErr result (λ fault. log_block_in version (at, drop at bytes.now) ≡ Err fault) }
        ensures counts { IfOk result (λ placed. (self.new.custom ≤ placed.end) × (self.new.typed ≤ placed.end)
            × (self.new.cut ≤ placed.end)) }
        ensures places { IfOk result (λ placed. (placed.begin ≡ at)
            × (placed.end ≡ at + block_length (drop at bytes.now))) }
        ensures others { self.new.blocks ≡ self.old.blocks }
    {
        let first = BlockWalk::open(version, at as u64, &bytes[at..])?;
        let mut block = opened(at);
        self.read_records(first.walk, &mut block)?;
        block.end += first.cut;
        self.cut += one_cut(first.cut);
        Ok(block)
    }

    /// The blocks of a log of the Flight Data Recorder mode.
    fn read_recorder(&mut self, version: LogVersion, bytes: &[u8]) -> Result<(), LogFault>
        requires few { (32 ≤ length bytes.now) × (length bytes.now < 2 ^ 32) }
        requires none { (self.old.blocks.items ≡ []) × (self.old.custom ≡ 0) × (self.old.typed ≡ 0)
            × (self.old.cut ≡ 0) }
        ensures { HasRead version bytes.now self.new result }
    {
        let mut at = HEADER_BYTES;
        'reading: while at < bytes.len() {
            let block = match self.read_block(version, bytes, at) {
                Ok(block) => block,
                Err(fault) => return Err(LogFault::Trace(fault)),
            };
            at = block.end;
            self.blocks.push(block)?;
        }
        Ok(())
    }

    /// All blocks of a log of this version.
    pub(crate) fn read(
        alloc: Global,
        bytes: &[u8],
        version: LogVersion,
    ) -> Result<LogBlocks, LogFault>
        requires few { (32 ≤ length bytes.now) × (length bytes.now < 2 ^ 32) }
        ensures reads { IfOk result (λ blocks. (said : List SaidBlock) × (recorder_blocks version bytes.now ≡ Ok said)
            × AreRead version bytes.now said blocks) }
        ensures refuses { IfErr result (λ fault. (fault ≡ Trace NoRoom) ⊎ (as_log (recorder_blocks version bytes.now) ≡ Err fault)) }
    {
        let mut blocks = LogBlocks::new(alloc);
        blocks.read_recorder(version, bytes)?;
        Ok(blocks)
    }
}
