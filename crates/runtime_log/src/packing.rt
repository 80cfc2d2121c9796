//! The events of blocks as the file of a trace.
ghost use Rattle.std.specs.Prelude.{◌≡◌, ◌≢◌, ◌≤◌, ◌<◌, ◌+◌, ◌++◌, ◌^◌, ℕ, All, IsTrue, List, [], ◌∷◌, IfOk, OnOk, length};
ghost use Rattle.fdr_buffer.specs.declared.buffer.TheConstants.{LARGEST_SIZE};
ghost use Rattle.fdr_file.specs.Files.{block_bytes, file_bytes};
ghost use Rattle.fdr_file.specs.declared.trace.Block.{Block as TheBlock};
ghost use Rattle.fdr_record.specs.declared.event.Event.{Event as TheEvent};
ghost use Rattle.fdr_record.specs.Recordable.{IsRecordable};
ghost use Rattle.runtime_log.specs.declared.blocks.BlockEvents.{BlockEvents as TheEvents};
ghost use Rattle.runtime_log.specs.declared.packing.Packing.{Packing as ThePacking};
ghost use Rattle.runtime_log.specs.Logs.{Log as TheLog};
ghost use Rattle.runtime_log.specs.private.{Choices.{AreLeftOut}, Coming.{MayGive, events_to_come}, Notes.{AreFew, EndsWith}, Packings.{Adds, AreOfLog, EndsIn, Fills, HasPacked, Heads, NoEvents, SaysOfLog, filled_for}};

use crate::blocks::{BlockEvents, Head};
use crate::facts::{Counts, Facts};
use crate::notes::Notes;
use crate::taken::LeftOut;
use fdr_buffer::{Buffer, LARGEST_SIZE, a_segment_grows, one_event_fits};
use fdr_file::{Header, extents, write_file};
use fdr_record::Event;
use std::alloc::Global;
use xray_io::{MemSink, NoMemory};

/// The file of a trace, as it grows.
#[derive(Drop)]
pub(crate) struct Packing {
    /// The bytes so far.
    file: Vec<u8>,
    /// The block that is being filled.
    buffer: Buffer,
    /// What the events so far say.
    notes: Notes,
}

/// The facts before any block is taken, by the numbers of what the log has.
pub(crate) fn log_facts(counts: Counts, left: LeftOut) -> Facts
    ensures none { NoEvents result }
    ensures log { (log : TheLog) → AreOfLog log counts → AreLeftOut log.blocks left → SaysOfLog log result }
{
    Facts {
        blocks: 0,
        threads: 0,
        events: 0,
        arguments: 0,
        custom: counts.custom,
        typed: counts.typed,
        doubled: left.doubled,
        empty: left.empty,
        first: None,
        last: None,
        back: 0,
        lost: counts.lost,
        cut: counts.cut,
        frequency: counts.frequency,
    }
}

/// Adds the bytes of a header.
fn add_header(alloc: Global, file: &mut Vec<u8>, header: &Header) -> Result<(), NoMemory>
    requires { header.now.version ≡ 3 }
    ensures { OnOk result (file.new.items ≡ file.old.items ++ file_bytes header.now []) }
{
    let mut sink = MemSink::new(alloc, Vec::new(alloc));
    match write_file(header, &[], &mut sink) {
        Ok(()) => {
            file.extend_from_slice(sink.bytes())?;
            Ok(())
        }
        Err(_) => Err(NoMemory),
    }
}

impl Packing {
    /// The file of no block. It is given room for so many bytes.
    pub(crate) fn new(
        alloc: Global,
        header: &Header,
        room: usize,
        facts: Facts,
    ) -> Result<Packing, NoMemory>
        requires version { header.now.version ≡ 3 }
        requires none { NoEvents facts }
        ensures packs { (log : TheLog) → log.header ≡ header.now → SaysOfLog log facts
            → IfOk result (λ packing. HasPacked log [] packing) }
        ensures none { IfOk result (λ packing. (packing.notes.facts.events ≡ 0)
            × (packing.notes.facts.blocks ≡ 0) × AreFew packing.notes.facts
            × (packing.buffer.size ≡ LARGEST_SIZE)) }
    {
        let mut file = Vec::with_capacity(alloc, room)?;
        add_header(alloc, &mut file, header)?;
        Ok(Packing {
            file,
            buffer: Buffer::new(alloc, LARGEST_SIZE)?,
            notes: Notes::new(facts),
        })
    }

    /// The file and the facts.
    pub(crate) fn finish(self) -> (Vec<u8>, Facts)
        ensures file { result.0.items ≡ self.file.items }
        ensures facts { result.1 ≡ self.notes.facts }
    {
        (self.file, self.notes.facts)
    }

    /// Adds the buffer as a block.
    #[inline(never)]
    fn flush(&mut self) -> Result<(), NoMemory>
        requires { IsTrue self.old.buffer.begun }
        ensures file { OnOk result (self.new.file.items ≡ self.old.file.items ++ block_bytes self.old.buffer) }
        ensures others { (self.new.buffer ≡ self.old.buffer) × (self.new.notes ≡ self.old.notes) }
    {
        let bytes = self.buffer.bytes();
        let head = extents(bytes.len() as u64);
        self.file.extend_from_slice(&head)?;
        self.file.extend_from_slice(bytes)?;
        Ok(())
    }

    /// Begins a buffer for a block, with an event.
    #[inline(never)]
    fn begin(&mut self, head: Head, event: &Event)
        requires recordable { IsRecordable event.now }
        requires size { self.old.buffer.size ≡ LARGEST_SIZE }
        ensures buffer { self.new.buffer ≡ filled_for head (event.now ∷ []) }
        ensures others { (self.new.file ≡ self.old.file) × (self.new.notes ≡ self.old.notes) }
    {
        one_event_fits();
        self.buffer.begin(head.thread, 0, head.wall, head.pid);
        self.buffer.put(event);
    }

    /// Adds an event of a block, which has events before it.
    #[inline(always)]
    fn put(&mut self, head: Head, event: &Event) -> Result<(), NoMemory>
        requires recordable { IsRecordable event.now }
        requires begun { IsTrue self.old.buffer.begun × (self.old.buffer.size ≡ LARGEST_SIZE) }
        ensures fills { (file : List ℕ) (events : List TheEvent) → Fills head file events self.old
            → OnOk result (Fills head file (events ++ event.now ∷ []) self.new) }
        ensures begun { IsTrue self.new.buffer.begun × (self.new.buffer.size ≡ LARGEST_SIZE) }
        ensures last { OnOk result (EndsIn self.new.buffer event.now) }
        ensures notes { self.new.notes ≡ self.old.notes }
    {
        a_segment_grows();
        if self.buffer.fits(event) {
            self.buffer.put(event);
        } else {
            self.flush()?;
            self.begin(head, event);
        }
        Ok(())
    }

    /// Adds the events of the stretch that is next of a block, as many as the buffer has room for. `last`
    /// is the event that was added last.
    #[inline(always)]
    fn add_stretch(&mut self, head: Head, last: &Event, events: &mut BlockEvents)
        requires may { MayGive events.old }
        requires begun { IsTrue self.old.buffer.begun × (self.old.buffer.size ≡ LARGEST_SIZE) }
        requires last { EndsIn self.old.buffer last.now × EndsWith self.old.notes head.thread last.now.tsc }
        requires room { self.old.notes.facts.events + length (events_to_come events.old) < 2 ^ 63 }
        requires few { AreFew self.old.notes.facts }
        ensures may { MayGive events.new }
        ensures begun { IsTrue self.new.buffer.begun × (self.new.buffer.size ≡ LARGEST_SIZE) }
        ensures adds { (first : ThePacking) (all : TheEvents) → Adds head first all events.old self.old
            → Adds head first all events.new self.new }
        ensures recordable { All IsRecordable (events_to_come events.old)
            → All IsRecordable (events_to_come events.new) }
        ensures room { self.new.notes.facts.events + length (events_to_come events.new)
            ≡ self.old.notes.facts.events + length (events_to_come events.old) }
        ensures fewer { length (events_to_come events.new) ≤ length (events_to_come events.old) }
        ensures few { AreFew self.new.notes.facts }
    {
        a_segment_grows();
        let Some(stretch) = events.stretch(last, self.buffer.room()) else {
            return;
        };
        self.notes
            .note_stretch(head.thread, stretch.count, stretch.last.tsc);
        self.buffer
            .put_records(stretch.records, stretch.count, &stretch.last);
    }

    /// Adds the events of a block, as one block or as several. It has events.
    pub(crate) fn add(&mut self, head: Head, mut events: BlockEvents) -> Result<(), NoMemory>
        requires may { MayGive events }
        requires recordable { All IsRecordable (events_to_come events) }
        requires room { self.old.notes.facts.events + length (events_to_come events) < 2 ^ 63 }
        requires few { (self.old.notes.facts.blocks < 2 ^ 32) × AreFew self.old.notes.facts }
        requires size { self.old.buffer.size ≡ LARGEST_SIZE }
        ensures packs { (log : TheLog) (taken : List TheBlock) (b : TheBlock)
            → HasPacked log taken self.old → Heads head b
            → b.events ≢ [] → events_to_come events.entry ≡ b.events
            → OnOk result (HasPacked log (taken ++ b ∷ []) self.new) }
        ensures room { OnOk result (self.new.notes.facts.events
            ≡ self.old.notes.facts.events + length (events_to_come events.entry)) }
        ensures blocks { OnOk result (self.new.notes.facts.blocks ≡ self.old.notes.facts.blocks + 1) }
        ensures few { AreFew self.new.notes.facts }
        ensures size { self.new.buffer.size ≡ LARGEST_SIZE }
    {
        self.notes.facts.blocks += 1;
        let Some(first) = events.next() else {
            return Ok(());
        };
        self.notes.note(head.thread, &first);
        self.begin(head, &first);
        'events: while let Some(event) = events.next() {
            self.notes.note(head.thread, &event);
            self.put(head, &event)?;
            self.add_stretch(head, &event, &mut events);
        }
        self.flush()
    }
}
