//! Why bytes aren't a record.

use thiserror::Error;

/// Why no record could be read. If several of these apply, the first in this order is the answer.
#[derive(Clone, Copy, Debug, PartialEq, Eq, Error)]
pub enum RecFault {
    /// No byte is left, or the record is cut off. The lowest bit of a record's first byte says its
    /// length: 8 bytes if it is 0, and 16 if it is 1.
    #[error("the record is cut off")]
    Short,
    /// A function record with an action that isn't a `Kind`: 4 to 7.
    #[error("no function record has the action {0}")]
    Action(u8),
    /// A metadata record of a kind that isn't a `Rec`: 1, 5, 8, or 10 to 127.
    #[error("no metadata record of the kind {0} is read")]
    Kind(u8),
}
