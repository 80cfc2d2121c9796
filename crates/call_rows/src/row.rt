//! The row of a call.

/// A call: an entry and the exit that ends it, and what surrounds the two. Counters and durations are
/// in cycles.
#[derive(Clone, Copy)]
pub struct CallRow {
    /// The number of its entry among all events of the trace, in the order of the file, from 0.
    pub call: u64,
    /// The number of the innermost entry of its thread that was open just before its own. That one
    /// may be in no pair.
    pub parent: Option<u64>,
    /// The thread.
    pub thread: u32,
    /// The process of its entry.
    pub process: u32,
    /// The CPU of its entry.
    pub cpu: u16,
    /// The counter at its entry.
    pub start: u64,
    /// How far the counter advanced from the entry to the exit, in 64 bits.
    pub duration: u64,
    /// The duration less those of the calls whose parent is this one's entry, or 0 if that is
    /// negative.
    pub own: u64,
    /// How many entries of its thread were open just before its own.
    pub depth: u64,
    /// The argument, if its entry logs one. It is 0 if none was logged.
    pub arg: Option<u64>,
    /// The id of the function.
    pub func: u32,
    /// The number of the exit or tail exit that ends it, among all events of the trace. It isn't
    /// printed: it says in which order calls end.
    pub end: u64,
}

/// What calls are ordered by.
#[derive(Clone, Copy, PartialEq, Eq)]
pub enum CallKey {
    /// The order in which they end in the file.
    End,
    /// The number of the entry.
    Call,
    /// The counter at the entry.
    Start,
    /// The duration.
    Duration,
    /// The duration without the calls made directly in it.
    Own,
    /// How many entries were open.
    Depth,
}
