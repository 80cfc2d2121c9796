//! A passing whose loads are made before the thread is told of them.

use crate::stage::Stage;

/// Where a thread's passing is, apart from the thread.
///
/// The thread wants the head of a sled. A caller loads the words that `Cpu::word` says, one after the
/// other, and learns by `Cpu::after` where each load brings the passing. The thread changes only by
/// `Cpu::come_to`.
#[derive(Clone, Copy)]
pub struct Underway {
    /// The number of the sled.
    pub(crate) sled: u32,
    pub(crate) stage: Stage,
}
