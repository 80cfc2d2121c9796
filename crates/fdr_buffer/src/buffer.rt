//! A buffer with one segment of a thread's events.

ghost use Rattle.std.specs.Prelude.{◌≡◌, ◌<◌, ◌≤◌, ◌+◌, ◌^◌, [], ◌∷◌, ◌++◌, List, true, length, IsTrue, IfOk};
ghost use Rattle.fdr_buffer.specs.{Segments.{GoesOn, has_room, preamble_length, segment_bytes}, Filled.{Filled, empty_buffer, used_bytes}};
ghost use Rattle.fdr_buffer.specs.private.Buffer.{filled_in, IsFilled};
ghost use Rattle.fdr_buffer.specs.Fits.{BufferFits};
ghost use Rattle.fdr_record.specs.declared.event.Event.{Event as TheEvent};
ghost use Rattle.fdr_record.specs.Recordable.{IsRecordable};

use crate::lead::Lead;
use crate::writing::{put_bytes, put_event, put_preamble};
use fdr_record::Event;
use std::alloc::Global;
use std::marker::Model;
use xray_io::{NoMemory, Wall};

/// The least size of a buffer, in bytes: its preamble, and the most that the records of one event
/// take, which are a CPU, an entry and the entry's argument.
pub const LEAST_SIZE: u32 = 88;

/// The largest size of a buffer, in bytes.
pub const LARGEST_SIZE: u32 = 1_048_576;

/// The most buffers of a run.
pub const MOST_BUFFERS: u32 = 1_024;

/// The most bytes of a trace file, which holds all buffers of a run.
pub const TRACE_LIMIT: u64 = 67_108_864;

/// The bytes of one segment of a thread's events. First comes a preamble: the thread, a wall time
/// and the process, as `begin` was given them. The records of the events follow. LLVM's
/// `xray_fdr_controller.h` fills its buffers with the same kinds of records. The size of a buffer
/// never changes.
#[derive(Drop)]
pub struct Buffer {
    /// As many bytes as the size of the buffer.
    bytes: Vec<u8>,
    /// How many of the bytes are used: 0 until the buffer is begun.
    used: usize,
    /// What the buffer was begun for. All fields are 0 until then.
    thread: u32,
    serial: u32,
    wall: Wall,
    pid: u32,
    /// How many events it holds.
    count: u32,
    /// The last event, if there is one.
    last: Option<Event>,
}

impl Model for Buffer {
    ghost Value = { Filled };

    ghost view = { filled_in };

    ghost invariant = { IsFilled };
}

impl Buffer {
    /// A buffer of `size` bytes that holds no segment yet. `NoMemory` means that an allocation was
    /// refused.
    pub fn new(alloc: Global, size: u32) -> Result<Buffer, NoMemory>
        requires least { LEAST_SIZE ≤ size }
        requires most { size ≤ LARGEST_SIZE }
        ensures { IfOk result (λ buffer. buffer ≡ empty_buffer size) }
    {
        Ok(Buffer {
            bytes: vec![in alloc; 0; size as usize]?,
            used: 0,
            thread: 0,
            serial: 0,
            wall: Wall { secs: 0, micros: 0 },
            pid: 0,
            count: 0,
            last: None,
        })
    }

    /// Empties the buffer, and begins segment `serial` (from 0) of the thread in it. Writes the 48
    /// bytes that every segment begins with: NewBuffer, WalltimeMarker and Pid.
    pub fn begin(&mut self, thread: u32, serial: u32, wall: Wall, pid: u32)
        ensures begun { self.new ≡ record {
          size = self.old.size;
          begun = true;
          thread = thread;
          serial = serial;
          wall = wall;
          pid = pid;
          events = [];
        } }
        // The size of a buffer is in its range.
        ensures least { LEAST_SIZE ≤ self.old.size }
        ensures most { self.old.size ≤ LARGEST_SIZE }
    {
        self.used = put_preamble(&mut self.bytes, thread, wall, pid);
        self.thread = thread;
        self.serial = serial;
        self.wall = wall;
        self.pid = pid;
        self.count = 0;
        self.last = None;
    }

    /// Whether there is room for the event's records after those in the buffer. The buffer has to
    /// be begun.
    pub fn fits(&self, event: &Event) -> bool
        requires { IsTrue self.now.begun }
        ensures { result ≡ has_room self.now.size (self.now.events ++ event.now ∷ []) }
    {
        Lead::of(self.last, event).len(event) <= self.bytes.len() - self.used
    }

    /// Adds an event after the others. The buffer has to be begun, and the event has to fit; `fits`
    /// says whether it does. The function's id has to be below 2^28, and the argument 0 if the
    /// event's kind logs none.
    pub fn put(&mut self, event: &Event)
        requires begun { IsTrue self.old.begun }
        requires room { IsTrue (has_room self.old.size (self.old.events ++ event.now ∷ [])) }
        requires recordable { IsRecordable event.now }
        ensures { self.new ≡ record self.old { events = self.old.events ++ event.now ∷ [] } }
    {
        let lead = Lead::of(self.last, event);
        self.used = put_event(&mut self.bytes, self.used, lead, event);
        self.count += 1;
        self.last = Some(*event);
    }

    /// How many bytes of records there is room for after those in the buffer. The buffer has to be
    /// begun.
    pub fn room(&self) -> usize
        requires { IsTrue self.now.begun }
        ensures { preamble_length + length (segment_bytes self.now.events) + result ≡ self.now.size }
    {
        self.bytes.len() - self.used
    }

    /// Adds several events after the others, by their records: `records` has the bytes that `put`
    /// writes for these events, one after the other. `count` is how many events they are, and `last`
    /// the last of them. The buffer has to be begun, and the records have to fit; `room` says how many
    /// bytes do.
    pub fn put_records(&mut self, records: &[u8], count: u32, last: &Event)
        requires begun { IsTrue self.old.begun }
        requires room { preamble_length + length (segment_bytes self.old.events) + length records.now
            ≤ self.old.size }
        requires says { (more : List TheEvent) × GoesOn self.old.events records.now count last.now more }
        ensures { (more : List TheEvent) → GoesOn self.old.events records.now count last.now more
            → self.new ≡ record self.old { events = self.old.events ++ more } }
    {
        self.used = put_bytes(&mut self.bytes, self.used, records);
        self.count += count;
        self.last = Some(*last);
    }

    /// The bytes of the segment, including its preamble. There are none if the buffer isn't begun.
    pub fn bytes(&self) -> &[u8]
        ensures bytes { result.now ≡ used_bytes self.now }
        // What a buffer holds fits its records and its size.
        ensures fits { BufferFits self.now }
    {
        &self.bytes[..self.used]
    }

    /// The thread that the buffer was begun for.
    pub fn thread(&self) -> u32
        ensures { result ≡ self.now.thread }
    {
        self.thread
    }

    /// The number of the segment that the buffer was begun for, counted from 0 for each thread.
    pub fn serial(&self) -> u32
        ensures { result ≡ self.now.serial }
    {
        self.serial
    }

    /// How many events the buffer holds.
    pub fn events(&self) -> u32
        ensures { result ≡ length self.now.events }
    {
        self.count
    }

    /// Whether the buffer was begun.
    pub fn begun(&self) -> bool
        ensures { result ≡ self.now.begun }
    {
        self.used > 0
    }
}
