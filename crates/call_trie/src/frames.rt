//! The open calls of a thread.

ghost use Rattle.std.specs.Prelude.{◌≡◌, ◌≤◌, ◌<◌, ◌+◌, ◌-◌, ◌%◌, ◌^◌, ◌++◌, ⊤, ℕ, List, [], ◌∷◌, All, count_by, length, map, take, IfOk, MatchOption, slice_index_or, slice_set, vec_capacity};
ghost use Rattle.stack_rebuild.specs.OpenPaths.{innermost_path, open_from, with_spent};
ghost use Rattle.stack_rebuild.specs.PathSums.{path_at};
ghost use Rattle.stack_rebuild.specs.Stacks.{most_open};
ghost use Rattle.call_trie.specs.private.Frames.{AreCounts, is_like, node_in, open_in, open_path};

use stack_rebuild::MOST_OPEN;
use std::alloc::{AllocError, Global};
use std::marker::Model;

/// What is kept of an open call.
#[derive(Clone, Copy)]
pub(crate) struct Frame {
    /// The number of its path's node.
    pub(crate) node: u32,
    /// The id of its function.
    pub(crate) func: u32,
    /// The counter at its entry, in cycles.
    pub(crate) tsc: u64,
    /// The durations of the pairs that were made directly in it so far.
    pub(crate) spent: u128,
}

/// How many counts there are. Functions whose ids have the same remainder share a count.
const COUNTS: usize = 8192;

/// The frames of the open calls of a thread, at most 4,096. In contracts they are a list, outermost
/// first. All memory is taken when they are made.
///
/// Most exits end the innermost call. For any other exit, the counts tell whether a call of its
/// function may be open. Only if one may, the frames are searched.
#[derive(Drop)]
pub(crate) struct Frames {
    frames: Vec<Frame>,
    /// How many frames are of functions with each remainder.
    counts: Vec<u32>,
}

impl Model for Frames {
    ghost use Rattle.std.specs.Prelude.{List};
    ghost use Rattle.call_trie.specs.declared.frames.Frame.{Frame};

    ghost Value = { List Frame };

    ghost use Rattle.call_trie.specs.private.FrameLists.{AreFrames, frames_in};

    ghost view = { frames_in };

    ghost invariant = { AreFrames };
}

impl Frames {
    /// No frame.
    pub(crate) fn new(alloc: Global) -> Result<Frames, AllocError>
        ensures { IfOk result (λ frames. frames ≡ []) }
    {
        let frames = Vec::with_capacity(alloc, MOST_OPEN)?;
        let counts = vec![in alloc; 0; COUNTS]?;
        Ok(Frames { frames, counts })
    }

    /// How many calls are open.
    pub(crate) fn len(&self) -> usize
        ensures count { result ≡ length self.now }
        ensures few { result ≤ most_open }
    {
        self.frames.len()
    }

    /// The number of the innermost frame's node, or that of the empty path if there is no frame.
    pub(crate) fn innermost(&self) -> u32
        ensures path { (paths : List (List ℕ)) → path_at paths 0 ≡ []
            → path_at paths result ≡ innermost_path (open_in paths self.now) }
        ensures within { (count : ℕ) → 0 < count → All (λ node. node < count) (map node_in self.now)
            → result < count }
    {
        innermost(&self.frames)
    }

    /// Opens a call inside the others.
    pub(crate) fn begin(&mut self, frame: Frame)
        requires { length self.old < most_open }
        ensures { self.new ≡ self.old ++ frame ∷ [] }
    {
        count_up(&mut self.counts, frame.func);
        self.frames.push_reserved(frame);
    }

    /// Ends the innermost open call of a function, and all calls that were made in it. Returns its
    /// frame.
    pub(crate) fn end(&mut self, func: u32) -> Option<Frame>
        ensures ended { (paths : List (List ℕ)) → MatchOption result
            ((open_from func (open_in paths self.old) ≡ []) × (self.new ≡ self.old))
            (λ frame. open_from func (open_in paths self.old)
            ≡ open_path paths frame ∷ open_in paths self.new) }
        ensures place { MatchOption result ⊤ (λ frame.
            (place : ℕ) × (place < length self.old) × (self.new ≡ take place self.old)
            × ((d : Frame) → slice_index_or self.old place d ≡ frame)) }
    {
        let place = self.place_of(func)?;
        'ending: while self.len() > place + 1 {
            self.end_innermost();
        }
        self.end_innermost()
    }

    /// The place of the innermost frame of a function, counted from the outermost one, from 0.
    fn place_of(&self, func: u32) -> Option<usize>
        ensures { (paths : List (List ℕ)) → MatchOption result
            (open_from func (open_in paths self.now) ≡ [])
            (λ place. (d : Frame) → (place < length self.now)
            × (open_from func (open_in paths self.now)
            ≡ open_path paths (slice_index_or self.now place d) ∷ open_in paths (take place self.now))) }
    {
        if self.counts[func as usize % COUNTS] == 0 {
            return None;
        }
        innermost_of(&self.frames, func)
    }

    /// Ends the innermost call.
    fn end_innermost(&mut self) -> Option<Frame>
        ensures { MatchOption result ((self.old ≡ []) × (self.new ≡ []))
            (λ frame. self.old ≡ self.new ++ frame ∷ []) }
    {
        let frame = self.frames.pop()?;
        count_down(&mut self.counts, frame.func);
        Some(frame)
    }

    /// Adds a duration to what was spent in the innermost call.
    pub(crate) fn spend(&mut self, duration: u64)
        requires { All (λ frame. frame.spent < 2 ^ 127) self.old }
        ensures spent { (paths : List (List ℕ)) → open_in paths self.new
            ≡ with_spent duration (open_in paths self.old) }
        ensures nodes { map node_in self.new ≡ map node_in self.old }
    {
        spend(&mut self.frames, duration);
    }
}

/// Counts one more call of a function.
fn count_up(counts: &mut Vec<u32>, func: u32)
    requires { (frames : List Frame) × AreCounts frames counts.old.items × (length frames < most_open) }
    ensures { (frames : List Frame) (frame : Frame) → AreCounts frames counts.old.items
        → frame.func ≡ func → AreCounts (frames ++ frame ∷ []) counts.new.items }
{
    counts[func as usize % COUNTS] += 1;
}

/// Counts one call of a function fewer.
fn count_down(counts: &mut Vec<u32>, func: u32)
    requires { (frames : List Frame) × (frame : Frame) × (frame.func ≡ func)
        × AreCounts (frames ++ frame ∷ []) counts.old.items }
    ensures { (frames : List Frame) (frame : Frame) → frame.func ≡ func
        → AreCounts (frames ++ frame ∷ []) counts.old.items → AreCounts frames counts.new.items }
{
    counts[func as usize % COUNTS] -= 1;
}

/// The number of the innermost frame's node, or that of the empty path if there is no frame.
fn innermost(frames: &[Frame]) -> u32
    ensures path { (paths : List (List ℕ)) → path_at paths 0 ≡ []
        → path_at paths result ≡ innermost_path (open_in paths frames.now) }
    ensures within { (count : ℕ) → 0 < count → All (λ node. node < count) (map node_in frames.now)
        → result < count }
{
    match frames.last() {
        Some(frame) => frame.node,
        None => 0,
    }
}

/// The place of the innermost frame of a function, counted from the outermost one, from 0.
fn innermost_of(frames: &[Frame], func: u32) -> Option<usize>
    ensures { (paths : List (List ℕ)) → MatchOption result
        (open_from func (open_in paths frames.now) ≡ [])
        (λ place. (d : Frame) → (place < length frames.now)
        × (open_from func (open_in paths frames.now)
        ≡ open_path paths (slice_index_or frames.now place d) ∷ open_in paths (take place frames.now))) }
{
    let mut place = frames.len();
    'searching: while place > 0 {
        place -= 1;
        if frames[place].func == func {
            return Some(place);
        }
    }
    None
}

/// Adds a duration to what was spent in the innermost frame.
fn spend(frames: &mut Vec<Frame>, duration: u64)
    requires { All (λ frame. frame.spent < 2 ^ 127) frames.old.items }
    ensures spent { (paths : List (List ℕ)) → open_in paths frames.new.items
        ≡ with_spent duration (open_in paths frames.old.items) }
    ensures nodes { map node_in frames.new.items ≡ map node_in frames.old.items }
    ensures like { (b : ℕ) → count_by (is_like b) frames.new.items ≡ count_by (is_like b) frames.old.items }
    ensures capacity { vec_capacity frames.new ≡ vec_capacity frames.old }
{
    if let Some(frame) = frames.last_mut() {
        frame.spent += u128::from(duration);
    }
}
