//! The limits of threads.

/// The limits of a thread, and how its passings are stamped. What is asked of them is said by
/// `AreLimits` of `specs/Setups.antt`.
#[derive(Clone, Copy)]
pub struct Limits {
    /// The most instructions that a thread makes, at most 1,000,000,000.
    pub fuel: u64,
    /// The most passings that a thread makes, at most 1,048,576.
    pub passings: u32,
    /// By how many cycles each instruction advances the counter.
    pub tick: u64,
    /// The counter at a thread's start, in cycles.
    pub tsc: u64,
    /// How many CPUs there are, at least 1. They are numbered from 0.
    pub cpus: u16,
    /// How many passings a thread makes before it moves to the next CPU, from 1 to 1,048,576.
    pub migrate: u32,
}
