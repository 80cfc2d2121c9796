//! Calls of `handler_word`: marks as they are kept, counted and printed.

use crate::checks::{check_same, check_same_list};
use handler_word::{Mark, Marks};
use std::alloc::Global;
use std::process::Abort;
use std::test::Fail;
use xray_io::{MemSink, write_text};

/// The mark of a character in the rows below.
fn mark_of(symbol: u8) -> Mark {
    match symbol {
        b'.' => Mark::Skipped,
        b'n' => Mark::NoHandler,
        b'f' => Mark::NotLogging,
        b'a' => Mark::RecordedArg,
        _ => Mark::Recorded,
    }
}

/// These marks, added one by one, in room for just as many.
fn marks_of(rt: &impl Abort, alloc: Global, symbols: &[u8]) -> Result<Marks, Fail> {
    assert!(rt; symbols.len() < 100);
    let mut marks = Marks::new(alloc, symbols.len() as u32)?;
    for symbol in symbols {
        assert!(rt; !marks.is_full());
        marks.add(mark_of(*symbol));
    }
    assert!(rt; marks.is_full());
    Ok(marks)
}

/// Marks as characters, how many of them are recorded, and their text.
const RUNS: [(&[u8], u32, &[u8]); 11] = [
    (b"", 0, b"-"),
    (b"..", 0, b".2"),
    (b"++", 2, b"+2"),
    (b"ff", 0, b"f2"),
    (b"n.", 0, b"n1 .1"),
    (b"..++", 2, b".2 +2"),
    (b".+.+", 2, b".1 +1 .1 +1"),
    (b".nf++fn.", 2, b".1 n1 f1 +2 f1 n1 .1"),
    (b"nnnnnnnnnnn+++++f", 5, b"n11 +5 f1"),
    (b"a", 1, b"a1"),
    (b".a+aannnaaaaaa", 10, b".1 a1 +1 a2 n3 a6"),
];

#[test]
fn marks_are_kept_counted_and_printed_as_runs(rt: HostRuntime) -> Result<(), Fail> {
    for (symbols, recorded, text) in &RUNS {
        let marks = marks_of(&rt, rt.alloc(), symbols)?;
        check_same(&rt, &marks.recorded(), recorded);
        check_same(&rt, &marks.is_empty(), &symbols.is_empty());
        for (n, symbol) in symbols.iter().enumerate() {
            assert!(rt; n < marks.len() as usize);
            check_same(&rt, &marks.get(n as u32), &mark_of(*symbol));
        }
        let mut sink = MemSink::new(rt.alloc(), Vec::new(rt.alloc()));
        write_text(&marks, &mut sink)?;
        check_same_list(&rt, sink.bytes(), text);
    }
    Ok(())
}
