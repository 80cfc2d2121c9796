//! Events.

/// What a passing records, as a function record of LLVM XRay's Flight Data Recorder mode says it.
#[derive(Clone, Copy, Debug, PartialEq, Eq)]
pub enum Kind {
    /// A function was entered.
    Entry,
    /// A function returned.
    Exit,
    /// A function was left by a jump to another one, which returns in its place. LLVM calls it a
    /// tail exit.
    TailExit,
    /// A function was entered, and its first argument was logged (`EnterArg` of compiler-rt's
    /// `xray_fdr_log_writer.h`).
    EntryArgs,
}

/// One event of a thread: it entered or left a function, at this counter, on this CPU. The widest
/// fields come first, so that an event takes 24 bytes.
#[derive(Clone, Copy, Debug, PartialEq, Eq)]
pub struct Event {
    /// The counter at the passing, in cycles, as a processor's time-stamp counter counts them.
    pub tsc: u64,
    /// The function's first argument, if the kind is `EntryArgs`. It is 0 for any other kind.
    pub arg: u64,
    /// The id of the function, from 1. A function record has 28 bits for it.
    pub func: u32,
    /// The number of the CPU that the thread was on.
    pub cpu: u16,
    /// What happened.
    pub kind: Kind,
}

/// How many bytes an event takes in memory.
pub const EVENT_BYTES: usize = size_of::<Event>();

const _: () = prove!(EVENT_BYTES == 24);
