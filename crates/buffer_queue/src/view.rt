//! What a pass knows, for contracts only: no value of this type is made.

use fdr_buffer::Buffer;
use machine_step::Setup;

/// What a pass of a pool knows.
pub struct View {
    /// Whether it is the pass that a queue is made with. It opens the pool, and does nothing else.
    pub opens: bool,
    /// Whether it is a thread's pass that wasn't handed back.
    pub live: bool,
    /// The thread's number, from 1.
    pub thread: u32,
    /// What the pool was made with.
    pub setup: Setup,
    /// The buffers that the thread has sealed, the first one first. In clauses this is a list of any
    /// length.
    pub sealed: [Buffer; 0],
    /// Whether it is between a put and the take after it.
    pub between: bool,
    /// Of pass 1: how many passes were made, its own among them.
    pub given: u32,
    /// Of pass 1: how many fresh buffers were queued.
    pub pushed: u32,
    /// Of pass 1: the buffers that were drained, the first one first.
    pub drained: [Buffer; 0],
    /// Of pass 1: what the threads of the passes that were handed back have sealed, thread 2 first.
    pub returned: [[Buffer; 0]; 0],
}
