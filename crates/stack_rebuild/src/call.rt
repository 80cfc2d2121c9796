//! Open calls.

/// An open call: its entry was recorded, and no exit that ends it.
#[derive(Clone, Copy)]
pub struct Call {
    /// The position of its entry among the events of its thread, from 0.
    pub entry: usize,
    /// The counter at its entry, in cycles.
    pub tsc: u64,
    /// The id of the function.
    pub func: u32,
}

/// An entry, and the exit that ends its call.
#[derive(Clone, Copy, Debug, PartialEq, Eq)]
pub struct Pair {
    /// The id of the function.
    pub func: u32,
    /// The position of the entry among the events of its thread, from 0.
    pub entry: usize,
    /// The position of the exit or tail exit, from 0.
    pub exit: usize,
    /// How far the counter advanced from the entry to the exit, in cycles and in 64 bits.
    pub duration: u64,
}
