//! Reading traces from the bytes of a file.

ghost use Rattle.std.specs.Prelude.{◌≡◌, ◌⊎◌, Err};
ghost use Rattle.fdr_file.specs.declared.fault.TraceFault.TheVariants.{NoMemory};
ghost use Rattle.fdr_file.specs.Traces.{trace_of};

use crate::keep::KeepAll;
use crate::{Trace, TraceFault, TraceScan};
use std::alloc::Global;

/// Reads a trace file of version 3, as LLVM's `FDRTraceWriter.cpp` writes it: a header of 32 bytes,
/// and then blocks up to the file's end. A block is a `BufferExtents` record and as many bytes as
/// that names. These are `NewBuffer`, `WalltimeMarker`, `Pid`, and then `NewCPUId`, `TSCWrap` and
/// function records. The CPU of an event is that of the last `NewCPUId` before it. Its counter is
/// the last whole counter plus all deltas since, in 64 bits. A block may have no events, and a
/// function may have any id. Some bytes are ignored: the header's flags above the second, its
/// reserved bytes, and the bytes of a metadata record after its fields.
///
/// Bytes that aren't a trace are refused by the fault of the first place that has one; see
/// `TraceFault`. `NoMemory` may come in place of any answer.
pub fn read_trace(alloc: Global, bytes: &[u8]) -> Result<Trace, TraceFault>
    ensures reads { (result ≡ Err NoMemory) ⊎ (result ≡ trace_of bytes.now) }
{
    let mut scan = TraceScan::new();
    let mut keep = KeepAll::new(alloc);
    scan.feed(bytes, &mut keep)?;
    let header = scan.finish()?;
    Ok(Trace {
        header,
        blocks: keep.into_blocks(),
    })
}

/// A refused allocation ends the reading.
impl<E: Into<xray_io::NoMemory> + Drop> From<E> for TraceFault {
    ghost from_gives = { λ _ fault. fault ≡ NoMemory };

    fn from(_error: E) -> TraceFault {
        TraceFault::NoMemory
    }
}
