//! Where the order of threads can be set from outside.

/// What a traced thread passes before each of its passings, and the patcher before each store that
/// it makes while threads run. A gate may wait or count. It returns nothing and changes no result.
/// Threads share it.
pub trait Gate {
    /// Thread `thread` (from 1) is about to make its passing `passing` (from 0) of a sled.
    fn before(&self, thread: u32, passing: u32);

    /// The patcher is about to make the store at micro step `place`, counted from 0 among all micro
    /// steps. Awaits pass no gate, and neither do the stores before the script's `go`.
    fn before_store(&self, place: u64);
}

/// The gate that is always open: it does nothing.
#[derive(Clone, Copy)]
pub struct OpenGate;

impl Gate for OpenGate {
    fn before(&self, _thread: u32, _passing: u32) {}

    fn before_store(&self, _place: u64) {}
}
