//! Wall times.

/// A wall time, counted from 1970-01-01 00:00:00 UTC.
#[derive(Debug, Clone, Copy, PartialEq, Eq)]
pub struct Wall {
    /// The whole seconds.
    pub secs: u64,
    /// Microseconds within the second, below 1,000,000.
    pub micros: u32,
}
