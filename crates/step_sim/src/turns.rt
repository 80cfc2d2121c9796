//! The lines of schedules.

/// A line of a schedule: whose turns come next, and how many.
#[derive(Clone, Copy, Debug, PartialEq, Eq)]
pub enum Turns {
    /// `t T K`: a thread makes loads.
    Thread {
        /// The thread, from 1.
        thread: u32,
        /// How many loads, at least 1.
        count: u32,
    },
    /// `p K`: the patcher makes micro steps.
    Patcher {
        /// How many micro steps, at least 1.
        count: u32,
    },
}
