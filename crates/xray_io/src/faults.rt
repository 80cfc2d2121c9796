//! What a device, or a function that calls one, may return in place of its result.
ghost use Rattle.std.specs.Prelude.{◌≡◌};
ghost use Rattle.xray_io.specs.declared.faults.ReadError.TheVariants.{NoMemory};

use std::alloc::{AllocError, AllocFailed};

/// A device didn't do what it was asked to do, and counted a fault.
#[derive(Clone, Copy, Debug, PartialEq, Eq)]
pub struct Failed;

/// Why a read of a desk gave no bytes.
#[derive(Clone, Copy, Debug, PartialEq, Eq)]
pub enum ReadFail {
    /// The desk reports that it doesn't hold the name. This is no fault.
    Missing,
    /// The read failed, and the desk counted a fault of reading.
    Failed,
}

/// An allocation was refused. It may also stand for a count or a sum beyond its type, which no data
/// in memory reaches.
#[derive(Debug, Clone, Copy, PartialEq, Eq)]
pub struct NoMemory;

/// A sink failed, and counted a fault. A prefix of the bytes may have been written.
#[derive(Debug, Clone, Copy, PartialEq, Eq)]
pub struct WriteFault;

/// Why a name couldn't be read whole.
#[derive(Debug, Clone, Copy, PartialEq, Eq)]
pub enum ReadError {
    /// A read failed, or the desk doesn't hold the name.
    ReadFault,
    /// The name holds more bytes than the limit.
    TooLong,
    /// An allocation was refused.
    NoMemory,
}

impl From<AllocError> for ReadError {
    ghost from_gives = { λ _ error. error ≡ NoMemory };

    fn from(_: AllocError) -> Self {
        ReadError::NoMemory
    }
}

impl From<AllocError> for NoMemory {
    fn from(_: AllocError) -> Self {
        NoMemory
    }
}

impl<T: Drop> From<AllocFailed<T>> for NoMemory {
    fn from(_: AllocFailed<T>) -> Self {
        NoMemory
    }
}
