//! The ends of threads.

/// How a thread ends.
#[derive(Clone, Copy, Debug, PartialEq, Eq)]
pub enum End {
    /// By `ret` on an empty stack.
    Returned,
    /// Before an instruction, with all fuel used.
    Fuel,
    /// Before a sled, with all passings used.
    Passings,
    /// At an `out` with 65,536 bytes in the output.
    OutputFull,
    /// At a push or a call with 65,536 values on the stack.
    StackFull,
    /// At a pop on an empty stack.
    StackEmpty,
    /// At an address where no unit begins.
    BadTarget,
}
