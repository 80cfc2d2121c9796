//! Records.

ghost use Rattle.std.specs.Prelude.{◌≡◌, length};
ghost use Rattle.fdr_record.specs.Records.{length_of, record_bytes};

use crate::Kind;
use crate::layout::{FUNCTION_BYTES, METADATA_BYTES};
use xray_io::Wall;

/// A record of a trace (LLVM's `xray_fdr_log_records.h`): one function record, or a metadata record.
#[derive(Clone, Copy)]
pub enum Rec {
    /// A thread's buffer begins (`NewBuffer`).
    NewBuffer {
        /// The thread's id.
        thread: u32,
    },
    /// The function records after this one were made on this CPU (`NewCPUId`).
    NewCpu {
        /// The CPU's number.
        cpu: u16,
        /// The CPU's counter, in cycles. The deltas of the function records after this one count
        /// from it.
        tsc: u64,
    },
    /// The whole counter, if a delta can't reach it (`TSCWrap`). compiler-rt writes one as soon as
    /// the delta is above 2^31 - 1.
    TscWrap {
        /// The counter, in cycles. The deltas of the function records after this one count from it.
        tsc: u64,
    },
    /// When the buffer was begun (`WalltimeMarker`).
    WallTime {
        /// The wall time. Reading doesn't check that its microseconds are below 1,000,000.
        wall: Wall,
    },
    /// The process that the thread belongs to (`Pid`).
    Pid {
        /// The process's id.
        pid: u32,
    },
    /// The argument of the function record before it (`CallArgument`).
    CallArg {
        /// The argument's value.
        value: u64,
    },
    /// How many bytes the next buffer in a file has (`BufferExtents`).
    Extents {
        /// How many bytes after this record belong to the buffer.
        size: u64,
    },
    /// A function was entered or left (`FunctionRecord`).
    Function {
        /// What happened.
        kind: Kind,
        /// The function's id, below 2^28.
        func: u32,
        /// How far the counter has advanced since the last record with a counter or a delta, in
        /// cycles.
        delta: u32,
    },
}

/// The length of a record in bytes: 8 for a function record, and 16 for any other.
pub fn rec_len(rec: &Rec) -> usize
    ensures length { result ≡ length_of rec.now }
    ensures bytes { result ≡ length (record_bytes rec.now) }
{
    match rec {
        Rec::Function { .. } => FUNCTION_BYTES,
        Rec::NewBuffer { .. }
        | Rec::NewCpu { .. }
        | Rec::TscWrap { .. }
        | Rec::WallTime { .. }
        | Rec::Pid { .. }
        | Rec::CallArg { .. }
        | Rec::Extents { .. } => METADATA_BYTES,
    }
}
