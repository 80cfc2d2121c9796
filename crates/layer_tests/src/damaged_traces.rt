//! Calls of `fdr_file` on damaged traces and on prefixes of traces, read whole and in pieces.

ghost use Rattle.std.specs.Prelude.{◌<◌, ⊤};

use crate::checks::check_same_at;
use crate::trace_files::{FIELDS_OF_88, HEADER_FIELDS, one_block};
use fdr_file::*;
use fdr_record::{Event, Kind, RecFault};
use std::alloc::Global;
use std::process::Abort;
use std::test::Fail;
use test_helpers::trace_parts::{THREE_BLOCKS, file};
use xray_io::{NoMemory, Wall};

/// Counts the blocks and the events of a trace.
#[derive(Clone, Copy, Debug, PartialEq, Eq, Drop)]
struct Counts {
    blocks: usize,
    events: usize,
}

impl Taker for Counts {
    ghost took = { λ _ _. ⊤ };

    ghost refusals = { λ _. 0 };

    fn block(&mut self, _thread: u32, _wall: Wall, _pid: u32) -> Result<(), NoMemory> {
        self.blocks = self.blocks.saturating_add(1);
        Ok(())
    }

    fn event(&mut self, _event: &Event) -> Result<(), NoMemory> {
        self.events = self.events.saturating_add(1);
        Ok(())
    }
}

/// The header of a file that is read in pieces of this size, and how many blocks and events it has.
fn read_in_pieces(bytes: &[u8], size: usize) -> Result<(Header, Counts), TraceFault>
    requires { 0 < size }
{
    let mut counts = Counts {
        blocks: 0,
        events: 0,
    };
    let mut scan = TraceScan::new();
    let mut from = 0;
    'feeding: while from < bytes.len() {
        let len = size.min(bytes.len() - from);
        scan.feed(&bytes[from..from + len], &mut counts)?;
        from += len;
    }
    Ok((scan.finish()?, counts))
}

/// Checks a file that isn't a trace: its fault, read whole and in pieces, and the length of its
/// longest prefix that is a trace.
pub(crate) fn check_fault(
    rt: &impl Abort,
    alloc: Global,
    bytes: &[u8],
    fault: TraceFault,
    prefix: Result<usize, TraceFault>,
    place: usize,
) {
    check_same_at(rt, &read_trace(alloc, bytes).err(), &Some(fault), &place);
    check_same_at(rt, &read_in_pieces(bytes, 1).err(), &Some(fault), &place);
    check_same_at(rt, &read_in_pieces(bytes, 7).err(), &Some(fault), &place);
    check_same_at(rt, &read_in_pieces(bytes, 4096).err(), &Some(fault), &place);
    check_same_at(rt, &readable(bytes), &prefix, &place);
}

/// Checks a trace: its header and so many blocks and events, in pieces of each size, and that it is
/// its longest prefix.
pub(crate) fn check_trace(
    rt: &impl Abort,
    bytes: &[u8],
    header: Header,
    blocks: usize,
    events: usize,
) {
    let wanted = Ok((header, Counts { blocks, events }));
    let place = bytes.len();
    check_same_at(rt, &read_in_pieces(bytes, 1), &wanted, &place);
    check_same_at(rt, &read_in_pieces(bytes, 7), &wanted, &place);
    check_same_at(rt, &read_in_pieces(bytes, 4096), &wanted, &place);
    check_same_at(rt, &readable(bytes), &Ok(place), &place);
}

/// A place in the file of one block, the byte that is put there, and why the file is refused.
const DAMAGES: [(usize, u8, TraceFault); 22] = [
    (32, 0x01, TraceFault::Order(32)),
    (32, 0x10, TraceFault::Order(32)),
    (32, 0x0B, TraceFault::Bad(32, RecFault::Kind(5))),
    (32, 0x06, TraceFault::Order(32)),
    (33, 0x2F, TraceFault::Extents(32)),
    (33, 0x51, TraceFault::Short(32)),
    (33, 0x4F, TraceFault::Extents(120)),
    (40, 0x80, TraceFault::Short(32)),
    (48, 0x09, TraceFault::Order(48)),
    (64, 0x13, TraceFault::Order(64)),
    (80, 0x05, TraceFault::Order(80)),
    (96, 0x07, TraceFault::NoBase(96)),
    (96, 0x01, TraceFault::Order(96)),
    (96, 0x10, TraceFault::NoBase(96)),
    (112, 0x0F, TraceFault::Order(112)),
    (112, 0x11, TraceFault::Bad(112, RecFault::Kind(8))),
    (112, 0x18, TraceFault::Bad(112, RecFault::Action(4))),
    (120, 0x11, TraceFault::Extents(120)),
    (0, 0x02, TraceFault::Order(80)),
    (0, 0x04, TraceFault::Version(4)),
    (1, 0x01, TraceFault::Version(259)),
    (2, 0x00, TraceFault::Form(0)),
];

/// The file of one block, with one byte changed. If the header has the fault, no prefix is a trace.
/// Otherwise the header is the longest prefix that is one.
#[test]
fn damaged_files_are_refused(rt: HostRuntime) -> Result<(), Fail> {
    for (at, to, fault) in &DAMAGES {
        let mut bytes = one_block(rt.alloc())?;
        if let Some(byte) = bytes.get_mut(*at) {
            *byte = *to;
        }
        let is_of_header = matches!(fault, TraceFault::Version(_) | TraceFault::Form(_));
        let prefix = if is_of_header { Err(*fault) } else { Ok(32) };
        check_fault(&rt, rt.alloc(), &bytes, *fault, prefix, *at);
    }
    Ok(())
}

/// The number of blocks of a prefix of the file of three blocks, if it is a trace. Otherwise its fault, and the
/// length of its longest prefix that is a trace.
fn prefix_wanted(len: usize) -> Result<usize, (TraceFault, Result<usize, TraceFault>)> {
    match len {
        0..=31 => Err((TraceFault::Short(0), Err(TraceFault::Short(0)))),
        32 => Ok(0),
        33..=119 => Err((TraceFault::Short(32), Ok(32))),
        120 => Ok(1),
        121..=207 => Err((TraceFault::Short(120), Ok(120))),
        208 => Ok(2),
        209..=295 => Err((TraceFault::Short(208), Ok(208))),
        _ => Ok(3),
    }
}

#[test]
fn prefixes_that_end_with_a_block_are_traces(rt: HostRuntime) -> Result<(), Fail> {
    let bytes = file(rt.alloc(), &THREE_BLOCKS)?;
    check_same_at(&rt, &bytes.len(), &296, &0);
    for len in 0..=bytes.len() {
        let prefix = &bytes[..len];
        match prefix_wanted(len) {
            Ok(blocks) => check_trace(&rt, prefix, FIELDS_OF_88, blocks, blocks),
            Err((fault, longest)) => {
                check_fault(&rt, rt.alloc(), prefix, fault, longest, len);
            }
        }
    }
    Ok(())
}
