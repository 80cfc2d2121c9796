//! A trace, compared with the segments of runs.

ghost use Rattle.std.specs.Prelude.{◌≡◌, ◌<◌, ◌≤◌, ◌+◌, ◌^◌, ◌∷◌, ◌++◌, ◌↔◌, [], ℕ, List, IfOk, IsTrue, if◌then◌else◌, length, nat_le};
ghost use Rattle.fdr_record.specs.declared.event.Event.{Event};
ghost use Rattle.fdr_record.specs.declared.rec.Rec.TheVariants.{Extents};
ghost use Rattle.fdr_record.specs.{Recordable.{IsRecordable}, Records.{record_bytes}};
ghost use Rattle.fdr_buffer.specs.Segments.{segments};
ghost use Rattle.fdr_file.specs.Files.{block_bytes, header_bytes};
ghost use Rattle.machine_step.specs.declared.setup.Setup.{Setup};
ghost use Rattle.machine_step.specs.Setups.{IsSetup};
ghost use Rattle.trace_flush.specs.Flush.{run_header};
ghost use Rattle.xray_io.specs.Memory.{sink_bytes};
ghost use Rattle.audit_check.specs.private.Blocks.{HasCompared, HasNoted, begun_with, kept_bytes, whole_of};

use fdr_buffer::{Buffer, a_segment_grows, one_event_fits};
use fdr_file::write_file;
use fdr_record::{Event, METADATA_BYTES, Rec, put_rec};
use machine_step::Setup;
use std::alloc::Global;
use trace_flush::trace_header;
use xray_io::{MemSink, NoMemory, Wall, WriteFault};

/// The bytes of a trace that aren't compared yet.
#[derive(Clone, Copy)]
pub(crate) struct TraceLeft<'a> {
    left: &'a [u8],
    /// Whether all bytes before them were the same. If not, it doesn't matter which bytes are left.
    same: bool,
}

impl<'a> TraceLeft<'a> {
    /// A trace whose header is compared with that of the setup.
    pub(crate) fn new(
        alloc: Global,
        setup: &Setup,
        trace: &'a [u8],
    ) -> Result<TraceLeft<'a>, NoMemory>
        ensures { IfOk result (HasCompared trace.now (header_bytes (run_header setup.now))) }
    {
        let header = header_of(alloc, setup)?;
        let mut trace = TraceLeft {
            left: trace,
            same: true,
        };
        trace.take(header.bytes());
        Ok(trace)
    }

    /// Compares the next bytes with these.
    fn take(&mut self, bytes: &[u8])
        ensures { (trace before : List ℕ) → HasCompared trace before self.old
            → HasCompared trace (before ++ bytes.now) self.new }
    {
        match self.left.strip_prefix(bytes) {
            Some(left) => self.left = left,
            None => self.same = false,
        }
    }

    /// Compares the next bytes with the block of a buffer.
    fn take_block(&mut self, buffer: &Buffer)
        ensures { (trace before : List ℕ) → HasCompared trace before self.old
            → HasCompared trace (before ++ block_bytes buffer.now) self.new }
    {
        let bytes = buffer.bytes();
        self.take(&extents(bytes.len() as u64));
        self.take(bytes);
    }

    /// Whether the whole trace was the same.
    pub(crate) fn is_same(&self) -> bool
        ensures { (trace bytes : List ℕ) → HasCompared trace bytes self.now
            → IsTrue result ↔ (trace ≡ bytes) }
    {
        let none_left = self.left.is_empty();
        self.same && none_left
    }
}

/// The header of a trace of this setup.
fn header_of(alloc: Global, setup: &Setup) -> Result<MemSink, NoMemory>
    ensures { IfOk result (λ sink. sink_bytes sink ≡ header_bytes (run_header setup.now)) }
{
    let header = trace_header(setup);
    let mut sink = MemSink::new(alloc, Vec::new(alloc));
    match write_file(&header, &[], &mut sink) {
        Ok(()) => Ok(sink),
        Err(WriteFault) => Err(NoMemory),
    }
}

/// The extents of a block that has `size` bytes after them.
fn extents(size: u64) -> [u8; METADATA_BYTES]
    ensures { result ≡ record_bytes (Extents size) }
{
    let mut bytes = [0; METADATA_BYTES];
    put_rec(&Rec::Extents { size }, &mut bytes, 0);
    bytes
}

/// The events of a thread, on their way into segments. Only the segment that is open is kept. Those that
/// are whole were compared with the trace, except the first ones, which are lost.
#[derive(Drop)]
pub(crate) struct Recording {
    /// The open segment. It isn't begun before the first event.
    buffer: Buffer,
    thread: u32,
    /// How many segments are whole.
    whole: u32,
    /// How many segments are lost.
    lost: u32,
    wall: Wall,
    pid: u32,
}

impl Recording {
    /// A thread without events. As many of its segments are lost as `lost` says.
    pub(crate) fn new(
        alloc: Global,
        setup: &Setup,
        thread: u32,
        lost: u32,
    ) -> Result<Recording, NoMemory>
        requires { IsSetup setup.now }
        ensures whole { IfOk result (λ recording. recording.whole ≡ 0) }
        ensures noted { IfOk result (HasNoted setup.now thread lost []) }
    {
        Ok(Recording {
            buffer: Buffer::new(alloc, setup.size)?,
            thread,
            whole: 0,
            lost,
            wall: setup.wall,
            pid: setup.pid,
        })
    }

    /// Notes an event: in the open segment if there is room, and otherwise in the next one.
    pub(crate) fn note(&mut self, event: &Event, trace: &mut TraceLeft)
        requires recordable { IsRecordable event.now }
        requires room { self.old.whole + 1 < 2 ^ 32 }
        ensures noted { (setup : Setup) (thread lost : ℕ) (events : List Event)
            → HasNoted setup thread lost events self.old
            → HasNoted setup thread lost (events ++ event.now ∷ []) self.new }
        ensures whole { self.new.whole ≤ self.old.whole + 1 }
        ensures compared { (setup : Setup) (thread lost : ℕ) (events : List Event) (all before : List ℕ)
            → HasNoted setup thread lost events self.old
            → HasCompared all (before ++ kept_bytes setup lost thread (whole_of setup.size events)) trace.old
            → HasCompared all (before ++ kept_bytes setup lost thread (whole_of setup.size (events ++ event.now ∷ [])))
            trace.new }
    {
        a_segment_grows();
        if !self.buffer.begun() {
            self.begin(event);
        } else if self.buffer.fits(event) {
            self.buffer.put(event);
        } else {
            self.compare(trace);
            self.whole += 1;
            self.begin(event);
        }
    }

    /// Ends the last segment. Returns how many there are.
    pub(crate) fn finish(self, trace: &mut TraceLeft) -> u32
        requires { self.whole + 1 < 2 ^ 32 }
        ensures segments { (setup : Setup) (thread lost : ℕ) (events : List Event)
            → HasNoted setup thread lost events self → result ≡ length (segments setup.size events) }
        ensures compared { (setup : Setup) (thread lost : ℕ) (events : List Event) (all before : List ℕ)
            → HasNoted setup thread lost events self
            → HasCompared all (before ++ kept_bytes setup lost thread (whole_of setup.size events)) trace.old
            → HasCompared all (before ++ kept_bytes setup lost thread (segments setup.size events)) trace.new }
    {
        if self.buffer.begun() {
            self.compare(trace);
            self.whole + 1
        } else {
            0
        }
    }

    /// Begins the next segment, with an event.
    fn begin(&mut self, event: &Event)
        requires { IsRecordable event.now }
        ensures { self.new ≡ begun_with self.old event.now }
    {
        one_event_fits();
        self.buffer
            .begin(self.thread, self.whole, self.wall, self.pid);
        self.buffer.put(event);
    }

    /// Compares the open segment with the trace, unless it is lost.
    fn compare(&self, trace: &mut TraceLeft)
        ensures { (all before : List ℕ) → HasCompared all before trace.old
            → HasCompared all
            (before ++ (if nat_le self.now.lost self.now.whole then block_bytes self.now.buffer else []))
            trace.new }
    {
        if self.lost <= self.whole {
            trace.take_block(&self.buffer);
        }
    }
}
