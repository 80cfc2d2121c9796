//! The buffers of a replay.

ghost use Rattle.std.specs.Prelude.{◌≡◌, ◌≢◌, ◌<◌, ◌≤◌, ◌+◌, ◌-◌, ◌^◌, ◌++◌, ◌∷◌, [], ℕ, List, All, IfOk, IfSome, Some, length, replicate, slice_get, slice_index, true, filter, vec_len, vec_capacity};
ghost use Rattle.std.specs.List.{flat_map};
ghost use Rattle.fdr_buffer.specs.Filled.{Filled, empty_buffer};
ghost use Rattle.fdr_record.specs.Recordable.{IsRecordable};
ghost use Rattle.machine_step.specs.Setups.{IsSetup};
ghost use Rattle.step_sim.specs.Recorded.{numbers_from};
ghost use Rattle.step_sim.specs.private.Counts.{CanLose, is_of, lost_after, segments_held};

use crate::ring::Ring;
use fdr_buffer::{Buffer, LARGEST_SIZE, LEAST_SIZE, a_segment_grows, segments_hold_all};
use fdr_record::Event;
use machine_step::Setup;
use std::alloc::Global;
use xray_io::{NoMemory, Wall};

/// The buffers of all threads. Each thread has one in its hand, and the others are in a queue. A
/// thread whose hand is full puts it at the end of the queue and takes the first one. If that holds
/// a segment, the segment is lost.
#[derive(Drop)]
pub(crate) struct Pool {
    /// The buffer that each thread fills, in the order of the threads.
    hands: Vec<Buffer>,
    queue: Ring<Buffer>,
    /// How many buffers each thread has put into the queue.
    sealed: Vec<u32>,
    /// How many of these were taken away again.
    first: Vec<u32>,
    wall: Wall,
    pid: u32,
}

/// What the buffers of a replay leave, in the order of the threads.
#[derive(Drop)]
pub(crate) struct Left {
    /// How many buffers each thread has put into the queue.
    pub(crate) sealed: Vec<u32>,
    /// How many segments each thread has: one per buffer that it has put into the queue, and the
    /// one in its hand.
    pub(crate) segments: Vec<u32>,
    /// How many of each thread's segments are lost, because their buffers were taken out of the
    /// queue again. Segments count from 0, so this is the number of the first one that is left.
    pub(crate) first: Vec<u32>,
    /// The buffers that hold a segment, thread by thread. Those of a thread are in the order of its
    /// segments.
    pub(crate) kept: Vec<Buffer>,
}

impl Pool {
    ghost use Rattle.step_sim.specs.Pool.{first_stock};
    ghost use Rattle.traced_run.specs.Kept.{stamp_of};
    ghost use Rattle.step_sim.specs.private.Holding.{CanNote, IsFull, NotesEvent, PoolHolds};
    ghost use Rattle.step_sim.specs.private.Recording.{NotesAny};

    /// The buffers before the first event. None of them is begun.
    pub(crate) fn new(alloc: Global, setup: &Setup) -> Result<Pool, NoMemory>
        requires { IsSetup setup.now }
        ensures { IfOk result (PoolHolds (stamp_of setup.now) setup.now.threads (λ _. [])
            (first_stock (setup.now.max - setup.now.threads))) }
    {
        let spare = setup.max - setup.threads;
        Ok(Pool {
            hands: fresh_buffers(alloc, setup.threads, setup.size)?,
            queue: Ring::new(fresh_buffers(alloc, spare, setup.size)?),
            sealed: vec![in alloc; 0; setup.threads as usize]?,
            first: vec![in alloc; 0; setup.threads as usize]?,
            wall: setup.wall,
            pid: setup.pid,
        })
    }

    /// Notes the event of a load of a thread, if there is one.
    #[inline(always)]
    pub(crate) fn note_any(&mut self, thread: u32, event: Option<Event>)
        requires { IfSome event (λ event. CanNote self.old thread × IsRecordable event) }
        ensures { NotesAny self.old self.new thread event }
    {
        match event {
            Some(event) => self.note(thread, &event),
            None => (),
        }
    }

    /// Notes an event of a thread: in its hand if there is room, and otherwise in the next buffer.
    fn note(&mut self, thread: u32, event: &Event)
        requires can { CanNote self.old thread }
        requires recordable { IsRecordable event.now }
        ensures { NotesEvent self.old self.new thread event.now }
    {
        a_segment_grows();
        segments_hold_all();
        let i = thread as usize - 1;
        if !self.hands[i].begun() {
            let hand = &mut self.hands[i];
            hand.begin(thread, 0, self.wall, self.pid);
            hand.put(event);
        } else if self.hands[i].fits(event) {
            self.hands[i].put(event);
        } else {
            self.turn(thread, event);
        }
    }

    /// What the buffers leave. `kept` and `segments` have to be empty, with room for all.
    pub(crate) fn collect(self, threads: u32, mut kept: Vec<Buffer>, mut segments: Vec<u32>) -> Left
        requires empty { kept.items ≡ [] }
        requires room { length self.queue + vec_len self.hands ≤ vec_capacity kept }
        requires uncounted { segments.items ≡ [] }
        requires counts { vec_len self.hands ≤ vec_capacity segments }
        requires same { length self.sealed.items ≡ length self.hands.items }
        requires fit { All (λ n. n + 1 < 2 ^ 32) self.sealed.items }
        ensures sealed { result.sealed.items ≡ self.sealed.items }
        ensures segment_count { length result.segments.items ≡ length self.hands.items }
        ensures segments { (i : ℕ) (hand : Filled) (n : ℕ) → slice_get self.hands.items i ≡ Some hand
            → slice_get self.sealed.items i ≡ Some n
            → slice_get result.segments.items i ≡ Some (segments_held hand n) }
        ensures first { result.first.items ≡ self.first.items }
        ensures kept { result.kept.items
            ≡ flat_map (λ t. filter (is_of t) self.queue ++ filter (is_of t) self.hands.items)
            (numbers_from 1 threads) }
    {
        let Pool {
            mut hands,
            queue,
            sealed,
            first,
            wall: _,
            pid: _,
        } = self;
        count_segments(&hands, &sealed, &mut segments);
        let mut rest = queue.into_items();
        for before in 0..threads {
            take_of(&mut rest, before + 1, &mut kept);
            take_of(&mut hands, before + 1, &mut kept);
        }
        Left {
            sealed,
            segments,
            first,
            kept,
        }
    }

    /// Notes an event of a thread whose hand has no room for it. The hand goes to the end of the
    /// queue, and the event begins a segment in the first buffer of the queue.
    fn turn(&mut self, thread: u32, event: &Event)
        requires can { CanNote self.old thread }
        requires full { IsFull self.old thread event.now }
        requires recordable { IsRecordable event.now }
        ensures { NotesEvent self.old self.new thread event.now }
    {
        a_segment_grows();
        segments_hold_all();
        let i = thread as usize - 1;
        self.sealed[i] += 1;
        let hand = &mut self.hands[i];
        self.queue.exchange(hand);
        count_lost(&mut self.first, &self.sealed, hand);
        hand.begin(thread, self.sealed[i], self.wall, self.pid);
        hand.put(event);
    }
}

/// Room for this many items, with no items in it.
pub(crate) fn room_for<T>(alloc: Global, count: u32) -> Result<Vec<T>, NoMemory>
    ensures empty { IfOk result (λ items. items.items ≡ []) }
    ensures room { IfOk result (λ items. vec_capacity items ≡ count) }
{
    Ok(Vec::with_capacity(alloc, count as usize)?)
}

/// This many buffers of a size, none of them begun.
fn fresh_buffers(alloc: Global, count: u32, size: u32) -> Result<Vec<Buffer>, NoMemory>
    requires least { LEAST_SIZE ≤ size }
    requires most { size ≤ LARGEST_SIZE }
    ensures { IfOk result (λ buffers. buffers.items ≡ replicate count (empty_buffer size)) }
{
    let mut buffers = Vec::with_capacity(alloc, count as usize)?;
    for _buffer in 0..count {
        buffers.push(Buffer::new(alloc, size)?)?;
    }
    Ok(buffers)
}

/// Counts the segments of each thread: those that it has put into the queue, and the one in its
/// hand.
fn count_segments(hands: &[Buffer], sealed: &[u32], segments: &mut Vec<u32>)
    requires empty { segments.old.items ≡ [] }
    requires room { length hands.now ≤ vec_capacity segments.old }
    requires same { length sealed.now ≡ length hands.now }
    requires fit { All (λ n. n + 1 < 2 ^ 32) sealed.now }
    ensures count { length segments.new.items ≡ length hands.now }
    ensures each { (i : ℕ) (hand : Filled) (n : ℕ) → slice_get hands.now i ≡ Some hand
        → slice_get sealed.now i ≡ Some n
        → slice_get segments.new.items i ≡ Some (segments_held hand n) }
{
    for i in 0..hands.len() {
        segments.push_reserved(if hands[i].begun() { sealed[i] + 1 } else { 0 });
    }
}

/// Moves the buffers of a thread's segments after those in `kept`, in order. There are few buffers,
/// so the list is searched each time.
fn take_of(rest: &mut Vec<Buffer>, thread: u32, kept: &mut Vec<Buffer>)
    requires room { vec_len kept.old + vec_len rest.old ≤ vec_capacity kept.old }
    ensures kept { kept.new.items ≡ kept.old.items ++ filter (is_of thread) rest.old.items }
    ensures others { (other : ℕ) → other ≢ thread
        → filter (is_of other) rest.new.items ≡ filter (is_of other) rest.old.items }
    ensures len { vec_len kept.new + vec_len rest.new ≡ vec_len kept.old + vec_len rest.old }
    ensures capacity { vec_capacity kept.new ≡ vec_capacity kept.old }
{
    let mut place = 0;
    while place < rest.len() {
        if rest[place].begun() && rest[place].thread() == thread {
            let buffer = rest.remove(place);
            kept.push_reserved(buffer);
        } else {
            place += 1;
        }
    }
}

/// Counts a lost segment, if the buffer that was taken away held one. The counts of buffers in the
/// queue say whose it was.
fn count_lost(first: &mut Vec<u32>, sealed: &[u32], taken: &Buffer)
    requires { taken.now.begun ≡ true → CanLose first.old.items sealed.now taken.now.thread }
    ensures { first.new.items ≡ lost_after taken.now first.old.items }
{
    if taken.begun() {
        let owner = taken.thread() as usize - 1;
        // The thread has lost no more segments than it has put into the queue.
        prove!(first[owner] < sealed[owner]);
        first[owner] += 1;
    }
}
