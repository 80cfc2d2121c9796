//! What an audit states.

use handler_word::Marks;
use machine_step::{End, Setup};

/// What an audit states of a thread. The numbers are those of the text: they may disagree with the
/// marks, and with each other.
#[derive(Drop)]
pub struct AuditEntry {
    /// The number of the thread, from 1.
    pub thread: u32,
    /// How it ended.
    pub end: End,
    /// How many sleds it passed.
    pub passings: u32,
    /// How many of its passings recorded an event.
    pub recorded: u32,
    /// How many segments its events were cut into, including the recycled ones.
    pub segments: u32,
    /// How many of its segments were recycled. These are its first ones.
    pub first: u32,
    /// The marks of its passings.
    pub marks: Marks,
}

/// What an audit states: what the run was made with, how each thread ended, and how many segments
/// were recycled.
#[derive(Drop)]
pub struct Audit {
    /// What the run was made with.
    pub setup: Setup,
    /// What is stated of each thread, thread 1 first.
    pub entries: Vec<AuditEntry>,
    /// How many segments of all threads were recycled.
    pub recycled: u64,
}
