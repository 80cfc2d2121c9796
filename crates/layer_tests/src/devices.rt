//! Calls of `xray_io`, for what no clause says: that they succeed, the digits that are printed, and
//! the edge to the system.

use crate::checks::{check_same, check_same_at, check_same_list};
use std::alloc::Global;
use std::fs;
use std::test::Fail;
use test_helpers::WatchedDesk;
use xray_io::{
    Desk, Each, ErrSink, FileDesk, MemDesk, MemSink, OutSink, Piece, ReadError, Text, read_whole,
    write_all, write_text,
};

/// A text of 100,000 bytes. It is one piece and a half, so that two reads give bytes.
fn long_text(alloc: Global) -> Result<String, Fail> {
    Ok("0123456789".repeat(alloc, 10_000)?)
}

/// Names, limits, and the lengths that are read of them.
const WHOLE: [(&str, u64, Result<usize, ReadError>); 7] = [
    ("empty", 0, Ok(0)),
    ("five", 4, Err(ReadError::TooLong)),
    ("five", 5, Ok(5)),
    ("five", u64::MAX, Ok(5)),
    ("long", 100_000, Ok(100_000)),
    ("long", 99_999, Err(ReadError::TooLong)),
    ("none", 5, Err(ReadError::ReadFault)),
];

#[test]
fn a_name_is_read_whole_within_its_limit(rt: HostRuntime) -> Result<(), Fail> {
    let alloc = rt.alloc();
    let long = long_text(alloc)?;
    let mut desk = MemDesk::new(alloc, Vec::new(alloc));
    desk.put("empty", b"")?;
    desk.put("five", b"hello")?;
    desk.put("long", long.as_bytes())?;
    for (name, limit, wanted) in &WHOLE {
        match read_whole(alloc, &mut desk, name, *limit) {
            Ok(bytes) => {
                check_same_at(&rt, &Ok(bytes.len()), wanted, name);
                check_same(&rt, &Some(bytes.as_slice()), &desk.get(name));
            }
            Err(error) => check_same_at(&rt, &Err(error), wanted, name),
        }
    }
    Ok(())
}

/// What a reading of five bytes, one byte a call, leaves after.
fn read_five(alloc: Global, limit: u64) -> Result<(Result<usize, ReadError>, WatchedDesk), Fail> {
    let mut desk = MemDesk::new(alloc, Vec::new(alloc));
    desk.put("five", b"hello")?;
    let mut watched = WatchedDesk::new(alloc, desk);
    let read = match read_whole(alloc, &mut watched, "five", limit) {
        Ok(bytes) => Ok(bytes.len()),
        Err(error) => Err(error),
    };
    Ok((read, watched))
}

/// Limits, and what comes of such a reading: the answer, the place after the last byte that was
/// given, and the greatest place up to which a read asked. One byte past the limit shows that there
/// are too many. A read asks for 65,536 bytes at most, and five of them end after the fifth byte.
const FIVE: [(u64, Result<usize, ReadError>, u64, u64); 6] = [
    (0, Err(ReadError::TooLong), 1, 1),
    (4, Err(ReadError::TooLong), 5, 5),
    (5, Ok(5), 5, 6),
    (6, Ok(5), 5, 7),
    (65_537, Ok(5), 5, 65_538),
    (70_000, Ok(5), 5, 65_541),
];

#[test]
fn short_reads_go_on_and_ask_for_no_byte_twice_or_in_vain(rt: HostRuntime) -> Result<(), Fail> {
    for (limit, wanted, next, greatest) in &FIVE {
        let (read, watched) = read_five(rt.alloc(), *limit)?;
        check_same_at(&rt, &read, wanted, limit);
        assert!(rt; watched.is_in_order());
        check_same_at(&rt, &watched.next(), next, limit);
        check_same_at(&rt, &watched.greatest(), greatest, limit);
    }
    Ok(())
}

/// Numbers, and how many hexadecimal digits they have at least.
const HEXADECIMAL: [(u64, usize); 8] = [
    (0, 0),
    (0, 1),
    (0x200, 8),
    (0xabc, 2),
    (15, 2),
    (16, 2),
    (u64::MAX, 16),
    (1, 20),
];

#[test]
fn numbers_are_printed_in_their_digits(rt: HostRuntime) -> Result<(), Fail> {
    let mut sink = MemSink::new(rt.alloc(), Vec::new(rt.alloc()));
    for number in [0, 41, u64::MAX as u128, u128::MAX] {
        let pieces = [Piece::Number(number), Piece::Bytes(b" ")];
        write_text(&Each(&pieces), &mut sink)?;
    }
    let mut text = Text::new(&mut sink);
    for (number, digits) in &HEXADECIMAL {
        text.hex(*number, *digits)?;
        text.bytes(b" ")?;
    }
    text.done()?;
    let wanted = b"0 41 18446744073709551615 340282366920938463463374607431768211455 \
        0 0 00000200 abc 0f 10 ffffffffffffffff 00000000000000000001 ";
    check_same_list(&rt, sink.bytes(), wanted);
    Ok(())
}

/// A call of a desk.
enum Call {
    Read(u64),
    Create,
    Append(&'static [u8]),
}

/// Makes a call. Returns how many bytes it moved, if it didn't fail.
fn make<D: Desk>(desk: &mut D, name: &str, call: &Call) -> Option<usize> {
    match call {
        Call::Read(from) => desk.read(name, *from, &mut [0; 8]).ok(),
        Call::Create => match desk.create(name) {
            Ok(()) => Some(0),
            Err(_) => None,
        },
        Call::Append(bytes) => desk.append(name, bytes).ok(),
    }
}

/// What stands before the name of a file in a name of it, calls on these names in turn by one desk,
/// and how many bytes they move. The file holds something at first. A name that is in use is not
/// created again, nor is another name of its file.
const FILE_CALLS: [(&str, Call, Option<usize>); 8] = [
    ("", Call::Read(1), Some(2)),
    ("/dev/..", Call::Append(b" one"), Some(4)),
    ("/dev/..", Call::Create, None),
    ("", Call::Create, None),
    ("", Call::Append(b" two"), Some(4)),
    ("", Call::Append(b""), Some(0)),
    ("", Call::Read(4), Some(7)),
    ("/dev/none", Call::Read(0), None),
];

#[test]
fn files_are_read_and_written_by_their_names(rt: HostRuntime) -> Result<(), Fail> {
    let alloc = rt.alloc();
    let name = format!(in alloc; "/tmp/xray_io-{}", std::process::id(rt.process()))?;
    fs::write(&rt, name.as_str(), b"old".as_slice())?;
    let mut desk = FileDesk::new(&rt);
    for (prefix, call, wanted) in &FILE_CALLS {
        let path = format!(in alloc; "{prefix}{name}")?;
        check_same_at(&rt, &make(&mut desk, &path, call), wanted, prefix);
    }
    let bytes = read_whole(alloc, &mut desk, name.as_str(), 11)?;
    check_same_list(&rt, bytes.as_slice(), b"old one two");
    let zeros = read_whole(alloc, &mut desk, "/dev/zero", 99_999).err();
    check_same(&rt, &zeros, &Some(ReadError::TooLong));
    fs::remove_file(&rt, name.as_str())?;
    Ok(())
}

#[test]
fn the_streams_take_bytes(rt: HostRuntime) -> Result<(), Fail> {
    write_all(&mut OutSink::new(&rt), b"out\n")?;
    write_all(&mut ErrSink::new(rt.stderr()), b"err\n")?;
    Ok(())
}
