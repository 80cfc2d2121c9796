//! Files of listed events, fed to a taker in pieces of a few bytes.

ghost use Rattle.std.specs.Prelude.{◌<◌, [], OnOk};
ghost use Rattle.fdr_file.specs.Scanning.{blocks_given};

use crate::event_traces::Said;
use fdr_file::{Header, Taker, TraceFault, TraceScan};
use fdr_record::Kind;
use std::alloc::{AllocError, Global};
use test_helpers::trace_parts::HEADER;
use xray_io::NoMemory;

/// Extents of 72 bytes, and the first byte of a record that names a thread.
const EXTENTS_72: &[u8] = b"\x0F\x48\0\0\0\0\0\0\0\0\0\0\0\0\0\0\x01";

/// The end of that record, the wall time 0, process 1, and the first bytes of a record of CPU 0.
const TO_CPU_0: &[u8] = b"\0\0\0\0\0\0\0\0\0\0\0\
\x09\0\0\0\0\0\0\0\0\0\0\0\0\0\0\0\
\x13\x01\0\0\0\0\0\0\0\0\0\0\0\0\0\0\
\x05\0\0";

/// The end of that record.
const CPU_END: &[u8] = b"\0\0\0\0\0";

/// A delta of 0.
const NO_DELTA: &[u8] = b"\0\0\0\0";

/// What a record of a function begins with, if the function is number 0.
fn kind_bits(kind: Kind) -> u32 {
    match kind {
        Kind::Entry => 0,
        Kind::Exit => 2,
        Kind::TailExit => 4,
        Kind::EntryArgs => 6,
    }
}

/// Adds a block of one event.
fn add_block(bytes: &mut Vec<u8>, said: Said) -> Result<(), AllocError> {
    let (thread, kind, func, tsc) = said;
    let event = func.wrapping_mul(16) | kind_bits(kind);
    bytes.extend_from_slice(EXTENTS_72)?;
    bytes.extend_from_slice(&thread.to_le_bytes())?;
    bytes.extend_from_slice(TO_CPU_0)?;
    bytes.extend_from_slice(&tsc.to_le_bytes())?;
    bytes.extend_from_slice(CPU_END)?;
    bytes.extend_from_slice(&event.to_le_bytes())?;
    bytes.extend_from_slice(NO_DELTA)
}

/// A file with a block for each event. Its functions are below 2^28.
pub fn file_of(alloc: Global, events: &[Said]) -> Result<Vec<u8>, AllocError> {
    let mut bytes = Vec::from_slice(alloc, HEADER)?;
    for said in events {
        add_block(&mut bytes, *said)?;
    }
    Ok(bytes)
}

/// Feeds a file to a taker in pieces of this many bytes, and ends the stream.
pub fn feed_pieces<K: Taker>(
    bytes: &[u8],
    size: usize,
    taker: &mut K,
) -> Result<Result<Header, TraceFault>, NoMemory>
    requires none { K.took taker.old [] }
    requires some { 0 < size }
    ensures { OnOk result (K.took taker.new (blocks_given bytes.now)) }
{
    let mut scan = TraceScan::new();
    let mut from = 0;
    'feeding: while from < bytes.len() {
        let len = size.min(bytes.len() - from);
        scan.feed(&bytes[from..from + len], taker)?;
        from += len;
    }
    Ok(scan.finish())
}
