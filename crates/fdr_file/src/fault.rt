//! Why bytes aren't a trace.

use fdr_record::RecFault;
use thiserror::Error;

/// Why `read_trace` gives no trace. The answer is the first of the header's faults: `Short`,
/// `Version`, `Form`. If the header has none, it is the fault of the first place that has one. If
/// several apply at one place, the first of these is the answer. Where a block begins: `Short` for
/// fewer than 16 bytes, `Bad`, `Order`, `Extents`, and `Short` for extents beyond the file's end.
/// Within a block: `Extents`, `Bad`, `Order`, `NoBase`. A place is the byte offset of a record,
/// counted from the file's start.
#[derive(Clone, Copy, Debug, PartialEq, Eq, Error)]
pub enum TraceFault {
    /// The file ends too early. If it has fewer bytes than a header, the place is 0. Otherwise a
    /// block has to begin at this place, and the bytes left are fewer than a `BufferExtents` record
    /// has, or fewer than that record names.
    #[error("the file ends within the block or header at {0}")]
    Short(u64),
    /// The header's version, if it isn't 2 or 3. The runtime of LLVM 14, for example, writes version
    /// 5.
    #[error("version {0} isn't read")]
    Version(u16),
    /// The header's type, if it isn't 1, which is that of the Flight Data Recorder mode.
    #[error("files of the type {0} aren't read")]
    Form(u16),
    /// The record at this place isn't allowed there. A block begins with `BufferExtents`,
    /// `NewBuffer`, `WalltimeMarker` and in version 3 `Pid`, and goes on with `NewCPUId`, `TSCWrap`,
    /// function and `CallArgument` records. A `CallArgument` may stand only directly behind an entry
    /// that logs its argument, or behind another `CallArgument`.
    #[error("the record at {0} may not stand there")]
    Order(u64),
    /// The extents at this place name fewer bytes than a preamble has: 48 in version 3, and 32 in
    /// version 2. Or the record at this place doesn't end within the block, whose end the extents
    /// say.
    #[error("the block's extents are too short at {0}")]
    Extents(u64),
    /// The bytes at this place aren't a record, because of their action or their kind.
    #[error("no record stands at {0}: {1}")]
    Bad(u64, RecFault),
    /// The record at this place counts from a counter, but no `NewCPUId` comes before it in its
    /// block.
    #[error("no counter stands before the record at {0}")]
    NoBase(u64),
    /// Memory for the blocks and their events was refused.
    #[error("out of memory")]
    NoMemory,
}
