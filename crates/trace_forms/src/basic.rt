//! Basic logs: the places of their fields, and why bytes aren't a log.

use thiserror::Error;

/// Why `read_basic` gives no trace. The answer is the first of the header's faults: `Short`,
/// `Version`, `Form`. If the header has none, it is the fault of the first record that has one, and
/// the first of `Short`, `Tag` and `Kind` if a record has several. A place is the byte offset of a
/// record, counted from the file's start.
#[derive(Clone, Copy, Debug, PartialEq, Eq, Error)]
pub enum BasicFault {
    /// The file ends too early. If it has fewer bytes than a header, the place is 0. Otherwise a
    /// record has to begin at this place, and 1 to 31 bytes are left.
    #[error("the file ends within the record or header at {0}")]
    Short(u64),
    /// The header's version, if it isn't 3.
    #[error("version {0} isn't read")]
    Version(u16),
    /// The header's type, if it isn't 0, which is that of basic logs.
    #[error("logs of the type {0} aren't read")]
    Form(u16),
    /// The first two bytes of the record at this place, as a number, if they aren't 0.
    #[error("the record at {0} begins with {1}")]
    Tag(u64, u16),
    /// The number for the kind of the record at this place, if it is above 3.
    #[error("the record at {0} is of the kind {1}")]
    Kind(u64, u8),
    /// Memory for the blocks and their events was refused.
    #[error("out of memory")]
    NoMemory,
}
