//! What threads wait for.

use crate::end::End;

/// What a thread wants next.
#[derive(Clone, Copy, Debug, PartialEq, Eq)]
pub enum Want {
    /// To be let into the passing of this number, counted from 0.
    Gate(u32),
    /// The value of the word of this number: the next load of the passing that it is in.
    Load(u32),
    /// Nothing: it has ended in this way.
    Done(End),
}
