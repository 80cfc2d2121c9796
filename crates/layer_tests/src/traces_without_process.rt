//! Calls of `fdr_file` on traces of version 2, whose blocks name no process.

use crate::checks::check_same;
use crate::damaged_traces::{check_fault, check_trace};
use crate::trace_files::{HEADER_FIELDS, one_block};
use fdr_file::*;
use fdr_record::RecFault;
use std::alloc::{AllocError, Global};
use std::test::Fail;
use test_helpers::trace_parts::{ONE_CALL_WITHOUT_PROCESS, file};

/// A header of version 2.
const FIELDS: Header = Header {
    version: 2,
    ..HEADER_FIELDS
};

/// A file of one block with this call.
fn one_call(alloc: Global) -> Result<Vec<u8>, AllocError> {
    file(alloc, &ONE_CALL_WITHOUT_PROCESS)
}

#[test]
fn a_block_of_version_2_is_of_process_0(rt: HostRuntime) -> Result<(), Fail> {
    let bytes = one_call(rt.alloc())?;
    check_same(&rt, &bytes.len(), &112);
    check_trace(&rt, &bytes, FIELDS, 1, 2);
    let trace = read_trace(rt.alloc(), &bytes)?;
    check_same(&rt, &trace.header, &FIELDS);
    let with_process = one_block(rt.alloc())?;
    let wanted = read_trace(rt.alloc(), &with_process)?;
    let [block] = trace.blocks.as_slice() else {
        return Err("blocks".into());
    };
    let [other] = wanted.blocks.as_slice() else {
        return Err("other blocks".into());
    };
    check_same(
        &rt,
        &(block.thread, block.wall, block.pid),
        &(1, other.wall, 0),
    );
    check_same(&rt, &block.events.as_slice(), &other.events.as_slice());
    Ok(())
}

/// A place in the file of one call, the byte that is put there, and why the file is refused.
const DAMAGES: [(usize, u8, TraceFault); 28] = [
    (32, 0x01, TraceFault::Order(32)),
    (32, 0x10, TraceFault::Order(32)),
    (32, 0x06, TraceFault::Order(32)),
    (32, 0x0B, TraceFault::Bad(32, RecFault::Kind(5))),
    (32, 0x08, TraceFault::Bad(32, RecFault::Action(4))),
    (33, 0x1F, TraceFault::Extents(32)),
    (33, 0x41, TraceFault::Short(32)),
    (33, 0x3F, TraceFault::Extents(104)),
    (40, 0x80, TraceFault::Short(32)),
    (48, 0x09, TraceFault::Order(48)),
    (64, 0x13, TraceFault::Order(64)),
    (64, 0x05, TraceFault::Order(64)),
    (80, 0x13, TraceFault::Order(80)),
    (80, 0x0D, TraceFault::Order(80)),
    (80, 0x07, TraceFault::NoBase(80)),
    (80, 0x01, TraceFault::Order(80)),
    (80, 0x10, TraceFault::NoBase(80)),
    (96, 0x0F, TraceFault::Order(96)),
    (96, 0x0D, TraceFault::Order(96)),
    (96, 0x13, TraceFault::Order(96)),
    (96, 0x11, TraceFault::Bad(96, RecFault::Kind(8))),
    (96, 0x18, TraceFault::Bad(96, RecFault::Action(4))),
    (104, 0x11, TraceFault::Extents(104)),
    (0, 0x03, TraceFault::Order(80)),
    (0, 0x04, TraceFault::Version(4)),
    (0, 0x01, TraceFault::Version(1)),
    (1, 0x01, TraceFault::Version(258)),
    (2, 0x00, TraceFault::Form(0)),
];

#[test]
fn damaged_files_of_version_2_are_refused(rt: HostRuntime) -> Result<(), Fail> {
    for (at, to, fault) in &DAMAGES {
        let mut bytes = one_call(rt.alloc())?;
        if let Some(byte) = bytes.get_mut(*at) {
            *byte = *to;
        }
        let is_of_header = matches!(fault, TraceFault::Version(_) | TraceFault::Form(_));
        let prefix = if is_of_header { Err(*fault) } else { Ok(32) };
        check_fault(&rt, rt.alloc(), &bytes, *fault, prefix, *at);
    }
    Ok(())
}
