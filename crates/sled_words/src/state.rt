//! The values of the words after those of the sleds.

/// The state of a log, with the numbers of `XRayLogInitStatus` (`xray_log_interface.h`).
#[derive(Clone, Copy)]
pub enum LogState {
    /// 0, before the log is initialized.
    Uninitialized,
    /// 1, while it is initialized.
    Initializing,
    /// 2, in which it records.
    Initialized,
    /// 3, while it is finalized.
    Finalizing,
    /// 4, after it was finalized.
    Finalized,
}

/// The word of a handler, or of an argument handler, that isn't set.
pub const NO_HANDLER: u64 = 0;

/// The word of a handler, or of an argument handler, that is set.
pub const HANDLER_SET: u64 = 1;

/// A release word that holds its thread.
pub const HELD: u64 = 0;

/// A release word that lets its thread go on.
pub const RELEASED: u64 = 1;
