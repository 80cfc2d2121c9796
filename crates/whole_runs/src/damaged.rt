//! Damaged traces and images, and prefixes of a trace: each is refused with the place of its first
//! fault, by every command that reads it.
use crate::cases::{CASE, Case, IMAGE, check_case};
use crate::runs::{assert_left, assert_no_fault, run_line};
use std::alloc::{AllocError, Global};
use std::process::Abort;
use std::sync::Wait;
use std::test::Fail;
use std::thread::Threads;
use test_helpers::trace_parts::{ONE_CALL, THREE_BLOCKS, file};
use xray_io::MemDesk;

/// Damages of a file: bytes and their places, the length to which the file is cut or extended by a
/// zero, and the refusal on err.
type Damage = (&'static [(usize, u8)], usize, &'static str);

/// The length of the file of one call.
const TRACE: usize = 128;

/// The place of its first block is 32, and of its last records 112 and 120.
const TRACES: [Damage; 15] = [
    (&[(32, 0x01)], TRACE, "Order 32"),
    (&[(32, 0x10)], TRACE, "Order 32"),
    (&[(32, 0x0B)], TRACE, "Bad 32 Kind 5"),
    (&[(32, 0x06)], TRACE, "Order 32"),
    (&[(33, 0x2F)], TRACE, "Extents 32"),
    (&[(33, 0x51)], TRACE, "Short 32"),
    (&[(33, 0x4F)], TRACE, "Extents 120"),
    (&[(40, 0x80)], TRACE, "Short 32"),
    (&[(48, 0x09)], TRACE, "Order 48"),
    (&[(96, 0x07)], TRACE, "NoBase 96"),
    (&[(112, 0x11)], TRACE, "Bad 112 Kind 8"),
    (&[(112, 0x1E)], TRACE, "Bad 112 Action 7"),
    (&[(112, 0x18)], TRACE, "Bad 112 Action 4"),
    (&[(120, 0x11)], TRACE, "Extents 120"),
    // A block that is cut off is short before it is damaged.
    (&[(96, 0x07)], 120, "Short 32"),
];

/// Damages of the header.
const HEADERS: [Damage; 3] = [
    (&[(0, 0x04)], TRACE, "Version 4"),
    (&[(2, 0x00)], TRACE, "Form 0"),
    (&[], 0, "Short 0"),
];

/// The length of the image.
const WHOLE: usize = 170;

const IMAGES: [Damage; 16] = [
    (&[], 63, "Short"),
    (&[], 169, "Short"),
    (&[], 171, "Trailing"),
    (&[(0, 0x59)], WHOLE, "Magic"),
    (&[(4, 0x02)], WHOLE, "Version"),
    (
        &[(16, 0xFF), (17, 0xFF), (18, 0xFF), (19, 0xFF)],
        WHOLE,
        "Limit Code",
    ),
    (&[(28, 0x01)], WHOLE, "Limit Entry"),
    (&[(8, 0x08)], WHOLE, "Limit Base"),
    (&[(33, 0x00), (34, 0x00), (36, 0x02)], WHOLE, "Far 0"),
    (&[(65, 0x08)], WHOLE, "Sled 0"),
    (&[(75, 0x0F)], WHOLE, "Code 11 Unknown 65"),
    (&[(102, 0x20)], WHOLE, "Names 0"),
    (&[(138, 0x14)], WHOLE, "MapOrder 1"),
    (&[(154, 0x00)], WHOLE, "Odd 1"),
    (&[(156, 0x02)], WHOLE, "MapOrder 1"),
    (&[(156, 0x03)], WHOLE, "Odd 1"),
];

/// The file of an image without sleds, whose only instruction jumps to the end of the code.
const JUMPS_OUT: [u8; 79] = [
    b'X', b'R', b'I', b'M', 1, 0, 0, 0, 0x00, 0x10, 0, 0, 0, 0, 0, 0, //
    5, 0, 0, 0, 1, 0, 0, 0, 0, 0, 0, 0, 0, 0, 0, 0, //
    0x00, 0x10, 0x20, 0, 0, 0, 0, 0, 0x10, 0x10, 0x20, 0, 0, 0, 0, 0, //
    0x20, 0x10, 0x20, 0, 0, 0, 0, 0, 0x30, 0x10, 0x20, 0, 0, 0, 0, 0, //
    0xE9, 0x00, 0x00, 0x00, 0x00, //
    0x00, 0x10, 0, 0, 0, 0, 0, 0, 1, b'a',
];

/// A file with these damages.
fn damaged(alloc: Global, bytes: &[u8], damage: &Damage) -> Result<Vec<u8>, AllocError> {
    let (changes, length, _) = *damage;
    let mut file = Vec::from_slice(alloc, bytes)?;
    file.push(0)?;
    for (place, byte) in changes {
        if let Some(old) = file.get_mut(*place) {
            *old = *byte;
        }
    }
    file.truncate(length);
    Ok(file)
}

/// Checks that commands refuse a file, the only one on the desk, with a line on err.
fn check_refused<R: Abort + Threads + Wait + Sync + AllocGlobal>(
    rt: &R,
    commands: &[&str],
    name: &str,
    bytes: &[u8],
    err: &str,
) -> Result<(), Fail> {
    for words in commands {
        let mut desk = MemDesk::new(rt.alloc(), Vec::new(rt.alloc()));
        desk.put(name, bytes)?;
        let run = run_line(rt, words, &mut desk)?;
        assert_left(rt, &run, 2, "", err, words);
    }
    Ok(())
}

/// The commands that read a trace: those that refuse each damage, and the one that prints what is before it.
const TRACE_READERS: [&str; 5] = [
    "account t",
    "stack t",
    "convert t",
    "convert t --format trace-event",
    "fdr-dump t",
];

const REPORTS: &[&str] = &[
    "account t",
    "stack t",
    "convert t",
    "convert t --format trace-event",
];

const IMAGE_READERS: [&str; 4] = ["plain i", "extract i", "sim i s c t a", "run i s t a"];

#[test]
fn a_damaged_trace_is_refused_at_its_first_fault(rt: HostRuntime) -> Result<(), Fail> {
    let whole = file(rt.alloc(), &ONE_CALL)?;
    for damage in &TRACES {
        let bytes = damaged(rt.alloc(), &whole, damage)?;
        let err = format!(in rt.alloc(); "xray: t: trace {}\n", damage.2)?;
        check_refused(&rt, REPORTS, "t", &bytes, &err)?;
        let dump = Case {
            files: &[("t", &[&bytes])],
            line: "fdr-dump t",
            out: &["0 header version 3 type 1\nstop 32 ", damage.2, "\n"],
            ..CASE
        };
        check_case(&rt, &dump)?;
    }
    Ok(())
}

#[test]
fn a_damaged_header_or_image_is_refused_at_its_first_fault(rt: HostRuntime) -> Result<(), Fail> {
    let whole = file(rt.alloc(), &ONE_CALL)?;
    for damage in &HEADERS {
        let bytes = damaged(rt.alloc(), &whole, damage)?;
        let err = format!(in rt.alloc(); "xray: t: trace {}\n", damage.2)?;
        check_refused(&rt, &TRACE_READERS, "t", &bytes, &err)?;
    }
    for damage in &IMAGES {
        let bytes = damaged(rt.alloc(), &IMAGE, damage)?;
        let err = format!(in rt.alloc(); "xray: i: image {}\n", damage.2)?;
        check_refused(&rt, &IMAGE_READERS, "i", &bytes, &err)?;
    }
    check_refused(
        &rt,
        &IMAGE_READERS,
        "i",
        &JUMPS_OUT,
        "xray: i: image Target 0\n",
    )
}

/// The place of the fault of a prefix of a file of three blocks, or `None` if the prefix is a trace.
fn fault_of_prefix(length: usize) -> Option<usize> {
    match length {
        32 | 120 | 208 | 296 => None,
        0..=31 => Some(0),
        33..=119 => Some(32),
        121..=207 => Some(120),
        _ => Some(208),
    }
}

#[test]
fn prefixes_that_end_with_a_block_are_accepted(rt: HostRuntime) -> Result<(), Fail> {
    let bytes = file(rt.alloc(), &THREE_BLOCKS)?;
    for length in 0..=bytes.len() {
        let mut desk = MemDesk::new(rt.alloc(), Vec::new(rt.alloc()));
        desk.put("t", &bytes[..length])?;
        let run = run_line(&rt, "account t", &mut desk)?;
        match fault_of_prefix(length) {
            Some(place) => {
                let err = format!(in rt.alloc(); "xray: t: trace Short {place}\n")?;
                assert_left(&rt, &run, 2, "", &err, "account t");
            }
            None => assert_no_fault(&rt, &run),
        }
    }
    Ok(())
}
