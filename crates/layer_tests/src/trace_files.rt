//! Calls of `fdr_file`: files byte by byte, as the format says.

use crate::checks::{check_same, check_same_list};
use fdr_file::*;
use fdr_record::{Event, Kind};
use std::alloc::{AllocError, Global};
use std::process::Abort;
use std::test::Fail;
use test_helpers::trace_parts::{
    CPU, CPU_1_AT_2, CPU_AT_2, ENTRY, EXIT, EXIT_AFTER_2, EXTENTS_80, EXTENTS_96, HEADER, ONE_CALL,
    PREAMBLE, THREE_BLOCKS, file,
};
use xray_io::Wall;

/// A file of one block, with an entry of function 1 at counter 0 and its exit at 2.
pub(crate) fn one_block(alloc: Global) -> Result<Vec<u8>, AllocError> {
    file(alloc, &ONE_CALL)
}

/// An event: its CPU, its function, its kind and its counter.
type Said = (u16, u32, Kind, u64);

/// The event that is said.
fn said(said: Said) -> Event {
    let (cpu, func, kind, tsc) = said;
    event(cpu, func, kind, tsc)
}

fn event(cpu: u16, func: u32, kind: Kind, tsc: u64) -> Event {
    Event {
        cpu,
        func,
        kind,
        tsc,
        arg: 0,
    }
}

/// What a block says of its buffer: the thread, the wall time and the process.
type Begun = (u32, Wall, u32);

/// The epoch.
const EPOCH: Wall = Wall { secs: 0, micros: 0 };

/// Checks what a block says.
fn check_block(rt: &impl Abort, block: &Block, begun: Begun, events: &[Event]) {
    check_same(rt, &(block.thread, block.wall, block.pid), &begun);
    check_same_list(rt, block.events.as_slice(), events);
}

/// Checks the header of a file and its last block, of which there are so many.
fn check_file(
    rt: &impl Abort,
    alloc: Global,
    bytes: &[u8],
    header: &Header,
    blocks: usize,
    begun: Begun,
    events: &[Event],
) -> Result<(), Fail> {
    let trace = read_trace(alloc, bytes)?;
    check_same(rt, &trace.header, header);
    check_same(rt, &trace.blocks.as_slice().len(), &blocks);
    match trace.blocks.as_slice().last() {
        Some(block) => check_block(rt, block, begun, events),
        None => panic!(rt; "no block"),
    }
    Ok(())
}

/// The header with these bytes: a constant and nonstop counter, and buffers of 16,384 bytes.
pub(crate) const HEADER_FIELDS: Header = Header {
    version: 3,
    constant: true,
    nonstop: true,
    frequency: 0,
    size: 16_384,
};

/// Checks that a file has this header, and only one block, of thread 1 with these events.
fn check_one_block(
    rt: &impl Abort,
    alloc: Global,
    bytes: &[u8],
    events: &[Event],
) -> Result<(), Fail> {
    check_file(rt, alloc, bytes, &HEADER_FIELDS, 1, (1, EPOCH, 1), events)
}

/// CPU 0 at the last counter.
const CPU_AT_LAST: &[u8] = b"\x05\0\0\xFF\xFF\xFF\xFF\xFF\xFF\xFF\xFF\0\0\0\0\0";

/// The whole counters 0 and 2^32.
const WRAP_TO_0: &[u8] = b"\x07\0\0\0\0\0\0\0\0\0\0\0\0\0\0\0";

const WRAP_TO_2_32: &[u8] = b"\x07\0\0\0\0\x01\0\0\0\0\0\0\0\0\0\0";

/// The parts of a block of two events, and these events.
const DELTAS: [(&[&[u8]], [Said; 2]); 6] = [
    (
        &[EXTENTS_80, PREAMBLE, CPU, ENTRY, EXIT_AFTER_2],
        [(0, 1, Kind::Entry, 0), (0, 1, Kind::Exit, 2)],
    ),
    (
        &[EXTENTS_96, PREAMBLE, CPU, ENTRY, WRAP_TO_2_32, EXIT],
        [(0, 1, Kind::Entry, 0), (0, 1, Kind::Exit, 1 << 32)],
    ),
    (
        &[EXTENTS_96, PREAMBLE, CPU_AT_LAST, ENTRY, WRAP_TO_0, EXIT],
        [(0, 1, Kind::Entry, u64::MAX), (0, 1, Kind::Exit, 0)],
    ),
    (
        &[EXTENTS_80, PREAMBLE, CPU_AT_LAST, ENTRY, EXIT_AFTER_2],
        [(0, 1, Kind::Entry, u64::MAX), (0, 1, Kind::Exit, 1)],
    ),
    (
        &[
            EXTENTS_96,
            PREAMBLE,
            CPU,
            EXIT_AFTER_2,
            CPU_1_AT_2,
            EXIT_AFTER_2,
        ],
        [(0, 1, Kind::Exit, 2), (1, 1, Kind::Exit, 4)],
    ),
    (
        &[
            EXTENTS_80,
            PREAMBLE,
            CPU_AT_2,
            b"\x14\0\0\0\x01\0\0\0",
            b"\xF2\xFF\xFF\xFF\xFF\xFF\xFF\xFF",
        ],
        [
            (0, 1, Kind::TailExit, 3),
            (0, (1 << 28) - 1, Kind::Exit, (1 << 32) + 2),
        ],
    ),
];

#[test]
fn deltas_add_up_from_the_last_whole_counter(rt: HostRuntime) -> Result<(), Fail> {
    for (parts, events) in &DELTAS {
        let block = file(rt.alloc(), parts)?;
        let bytes = file(rt.alloc(), &[HEADER, &block])?;
        check_one_block(&rt, rt.alloc(), &bytes, &events.map(said))?;
    }
    Ok(())
}

/// Extents of 144 bytes.
const EXTENTS_144: &[u8] = b"\x0F\x90\0\0\0\0\0\0\0\0\0\0\0\0\0\0";

/// An entry of function 1 that logs its argument, and the arguments 7 and 9.
const ENTRY_WITH_ARG: &[u8] = b"\x16\0\0\0\x01\0\0\0";

const ARG_7: &[u8] = b"\x0D\x07\0\0\0\0\0\0\0\0\0\0\0\0\0\0";

const ARG_9: &[u8] = b"\x0D\x09\0\0\0\0\0\0\0ABCDEFG";

/// A block whose entries have two arguments, none and one. The last of them ends it.
const ARGUMENTS: [&[u8]; 11] = [
    HEADER,
    EXTENTS_144,
    PREAMBLE,
    CPU,
    ENTRY_WITH_ARG,
    ARG_7,
    ARG_9,
    ENTRY_WITH_ARG,
    EXIT_AFTER_2,
    ENTRY_WITH_ARG,
    ARG_9,
];

/// An entry of function 1 at this counter, with this argument.
fn entry_with(tsc: u64, arg: u64) -> Event {
    Event {
        arg,
        ..event(0, 1, Kind::EntryArgs, tsc)
    }
}

#[test]
fn an_entry_has_the_first_argument_behind_it(rt: HostRuntime) -> Result<(), Fail> {
    let bytes = file(rt.alloc(), &ARGUMENTS)?;
    let events = [
        entry_with(1, 7),
        entry_with(2, 0),
        event(0, 1, Kind::Exit, 4),
        entry_with(5, 9),
    ];
    check_one_block(&rt, rt.alloc(), &bytes, &events)?;
    read_trace(rt.alloc(), &bytes)?;
    let mut cursor = EventCursor::new(&bytes);
    for event in &events {
        check_same(&rt, &cursor.next(), &Some((1, 1, *event)));
    }
    check_same(&rt, &cursor.next(), &None);
    Ok(())
}

/// The header of `THREE_BLOCKS`.
pub(crate) const FIELDS_OF_88: Header = Header {
    size: 88,
    ..HEADER_FIELDS
};

/// A file of version 3, laid out as LLVM's runtime does it. It has flags of which only two have a
/// meaning, a frequency, reserved bytes and blocks of two threads. The bytes after the fields of its
/// metadata records were never cleared. One buffer was begun and has no event.
const AS_LLVM: [&[u8]; 9] = [
    b"\x03\0\x01\0\x02\0\0\x80\0\x5E\xD0\xB2\0\0\0\0\0\0\x01\0\0\0\0\0ABCDEFGH",
    b"\x0F\x30\0\0\0\0\0\0\0ABCDEFG",
    PREAMBLE,
    b"\x0F\x58\0\0\0\0\0\0\0ABCDEFG",
    b"\x01\x39\x30\0\0ABCDEFGHIJK",
    b"\x09\x80\x43\x6D\x38\0\0\0\0\x3F\x42\x0F\0ABC",
    b"\x13\xE8\x03\0\0ABCDEFGHIJK",
    b"\x05\x03\0\x10\0\0\0\0\0\0\0ABCDE",
    b"\x50\0\0\0\x05\0\0\0\x60\0\0\0\x01\0\0\0\x62\0\0\0\0\0\0\0",
];

#[test]
fn a_version_3_file_in_the_runtimes_layout_is_read(rt: HostRuntime) -> Result<(), Fail> {
    let header = Header {
        version: 3,
        constant: false,
        nonstop: true,
        frequency: 3_000_000_000,
        size: 65_536,
    };
    let wall = Wall {
        secs: 946_684_800,
        micros: 999_999,
    };
    let events = [
        event(3, 5, Kind::Entry, 21),
        event(3, 6, Kind::Entry, 22),
        event(3, 6, Kind::Exit, 22),
    ];
    let bytes = file(rt.alloc(), &AS_LLVM)?;
    let begun = (12_345, wall, 1_000);
    check_file(&rt, rt.alloc(), &bytes, &header, 2, begun, &events)
}

#[test]
fn lists_are_given_back(rt: HostRuntime) -> Result<(), Fail> {
    let exit = event(0, 1, Kind::Exit, 2);
    let events = Events::new(vec![in rt.alloc(); exit; 2]?).into_vec();
    check_same_list(&rt, &events, &[exit, exit]);
    let mut blocks = Vec::new(rt.alloc());
    blocks.push(Block {
        thread: 7,
        wall: EPOCH,
        pid: 1,
        events: Events::new(events),
    })?;
    let blocks = Blocks::new(blocks).into_vec();
    check_same(&rt, &blocks.len(), &1);
    for block in &blocks {
        check_block(&rt, block, (7, EPOCH, 1), &[exit, exit]);
    }
    Ok(())
}
