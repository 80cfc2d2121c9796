//! Reports on traces that come a byte a read, and on faults that are followed by many bytes.
use crate::checks::{check_same, check_same_at};
use crate::runs::{assert_left, run_line};
use std::alloc::Global;
use std::process::Abort;
use std::sync::Wait;
use std::test::Fail;
use std::thread::Threads;
use test_helpers::WatchedDesk;
use test_helpers::trace_parts::{HEADER, THREE_BLOCKS, file};
use xray_io::MemDesk;

/// The reports on a trace.
const REPORTS: [&str; 3] = ["account t", "stack t", "convert t"];

/// A desk that fails at these calls, and holds these bytes as `t`.
fn desk_with(alloc: Global, failing: &[u64], bytes: &[u8]) -> Result<MemDesk, Fail> {
    let mut desk = MemDesk::new(alloc, Vec::from_slice(alloc, failing)?);
    desk.put("t", bytes)?;
    Ok(desk)
}

/// Checks that each report on a file is the same if it comes a byte a read, and that all of the file
/// is read, whether or not it is a trace.
fn check_reports<R: Abort + Threads + Wait + Sync + AllocGlobal>(
    rt: &R,
    bytes: &[u8],
) -> Result<(), Fail> {
    for line in &REPORTS {
        let mut desk = desk_with(rt.alloc(), &[], bytes)?;
        let wanted = run_line(rt, line, &mut desk)?;
        let mut watched = WatchedDesk::new(rt.alloc(), desk);
        let run = run_line(rt, line, &mut watched)?;
        assert_left(rt, &run, wanted.status, &wanted.out, &wanted.err, line);
        check_same_at(rt, &watched.next(), &(bytes.len() as u64), line);
        check_same_at(rt, &watched.is_in_order(), &true, line);
    }
    Ok(())
}

#[test]
fn a_trace_that_comes_byte_by_byte_has_the_same_reports(rt: HostRuntime) -> Result<(), Fail> {
    let bytes = file(rt.alloc(), &THREE_BLOCKS)?;
    check_same(&rt, &bytes.len(), &296);
    for len in 0..=bytes.len() {
        check_reports(&rt, &bytes[..len])?;
    }
    for at in 0..bytes.len() {
        for to in [0x01, 0x80] {
            let mut changed = Vec::from_slice(rt.alloc(), &bytes)?;
            if let Some(byte) = changed.get_mut(at) {
                *byte ^= to;
            }
            check_reports(&rt, &changed)?;
        }
    }
    Ok(())
}

/// The most bytes of a trace.
const LIMIT: usize = 67_108_864;

/// A header, and a record of a kind that isn't known.
const FAULTY: [&[u8]; 2] = [HEADER, b"\x0B"];

/// A number of bytes, the call of the desk that fails, the status, and the line on err. A read asks
/// for 65,536 bytes.
const AFTER_A_FAULT: [(usize, u64, u8, &str); 4] = [
    (65_536, 2, 2, "xray: t: trace Bad 32 Kind 5\n"),
    (65_537, 1, 3, "xray: t: read fault\n"),
    (LIMIT, 4096, 2, "xray: t: trace Bad 32 Kind 5\n"),
    (LIMIT + 1, 4096, 6, "xray: t: too long\n"),
];

/// What comes after a fault is read: a later read fault, or one byte too many, decides.
#[test]
fn a_fault_in_the_first_block_ends_no_reading(rt: HostRuntime) -> Result<(), Fail> {
    for (length, failing, status, line) in &AFTER_A_FAULT {
        let mut bytes = file(rt.alloc(), &FAULTY)?;
        bytes.resize(*length, 0)?;
        for report in &REPORTS {
            let mut desk = desk_with(rt.alloc(), &[*failing], &bytes)?;
            let run = run_line(&rt, report, &mut desk)?;
            assert_left(&rt, &run, *status, "", line, report);
        }
    }
    Ok(())
}
