//! Calls of `account_report`, with rows that were worked by hand and their text, and of
//! `stack_rebuild`, with the pairs of a thread; and each report, written by one call.

use crate::checks::{check_same, check_same_list, check_same_text};
use crate::event_traces::{NESTED, Said, printed, trace_of};
use crate::fed_traces::file_of;
use account_report::*;
use fdr_file::read_trace;
use fdr_record::Kind;
use function_names::Names;
use stack_rebuild::{Pair, StackForm, pairs, stacks, thread_events, write_stack};
use std::alloc::Global;
use std::process::Abort;
use std::test::Fail;
use xray_io::MemSink;
use yaml_convert::{write_yaml, write_yaml_bytes};

/// The text of rows, without an image.
fn text_of(alloc: Global, rows: &[AccountRow], format: AccountLayout) -> Result<String, Fail> {
    let text = AccountText {
        rows,
        latencies: latencies(rows),
        names: Names::Ids,
        format,
    };
    printed(alloc, &text)
}

const CSV_HEAD: &str = "funcid,count,min,med,90p,99p,max,sum,entries,exits,function\n";

/// Checks the lines of the rows of events.
fn check_rows(rt: &impl Abort, alloc: Global, events: &[Said], lines: &str) -> Result<(), Fail> {
    let rows = account(alloc, &trace_of(alloc, events)?)?;
    let text = text_of(alloc, &rows, AccountLayout::Csv)?;
    check_same(rt, &text.as_str().strip_prefix(CSV_HEAD), &Some(lines));
    Ok(())
}

/// Events, and the lines of their rows.
const ROWS: [(&[Said], &str); 9] = [
    (&[], ""),
    // Each exit ends the innermost call of its function.
    (&NESTED, "1,2,10,35,35,35,35,45,1,0,#1\n"),
    // The counter wraps.
    (
        &[(1, Kind::Entry, 3, u64::MAX), (1, Kind::TailExit, 3, 0)],
        "3,1,1,1,1,1,1,1,0,0,#3\n",
    ),
    // Exits without an entry, and an entry without an exit.
    (
        &[(1, Kind::Exit, 2, 5), (1, Kind::TailExit, 2, 6)],
        "2,0,-,-,-,-,-,-,0,2,#2\n",
    ),
    (&[(1, Kind::Entry, 2, 5)], "2,0,-,-,-,-,-,-,1,0,#2\n"),
    // A call that ends with the one that it was made in, and then its own exit.
    (
        &[
            (1, Kind::Entry, 9, 0),
            (1, Kind::Entry, 2, 1),
            (1, Kind::Exit, 9, 10),
            (1, Kind::Exit, 2, 12),
        ],
        "2,0,-,-,-,-,-,-,1,1,#2\n9,1,10,10,10,10,10,10,0,0,#9\n",
    ),
    // Two threads with one function.
    (
        &[
            (1, Kind::Entry, 7, 0),
            (2, Kind::Entry, 7, 100),
            (1, Kind::Exit, 7, 1),
            (2, Kind::Exit, 7, 102),
        ],
        "7,2,1,2,2,2,2,3,0,0,#7\n",
    ),
    // A duration of no cycles, and the greatest id.
    (
        &[(4, Kind::Entry, u32::MAX, 8), (4, Kind::Exit, u32::MAX, 8)],
        "4294967295,1,0,0,0,0,0,0,0,0,#4294967295\n",
    ),
    // A sum that doesn't fit 64 bits.
    (
        &[
            (1, Kind::Entry, 1, 1),
            (1, Kind::Exit, 1, 0),
            (1, Kind::Entry, 1, 1),
            (1, Kind::Exit, 1, 0),
        ],
        "1,2,18446744073709551615,18446744073709551615,18446744073709551615,18446744073709551615,\
         18446744073709551615,36893488147419103230,0,0,#1\n",
    ),
];

#[test]
fn a_row_counts_the_pairs_of_its_function_and_the_events_in_none(
    rt: HostRuntime,
) -> Result<(), Fail> {
    for (events, lines) in &ROWS {
        check_rows(&rt, rt.alloc(), events, lines)?;
    }
    Ok(())
}

#[test]
fn percentiles_are_items_of_the_ascending_durations(rt: HostRuntime) -> Result<(), Fail> {
    for (longest, shortest, line) in [
        (4, 4, "1,1,4,4,4,4,4,4,0,0,#1\n"),
        (10, 1, "1,10,1,6,10,10,10,55,0,0,#1\n"),
        (100, 1, "1,100,1,51,91,100,100,5050,0,0,#1\n"),
    ] {
        let mut events = Vec::new(rt.alloc());
        for duration in (shortest..=longest).rev() {
            events.push((1, Kind::Entry, 1, 0))?;
            events.push((1, Kind::Exit, 1, duration))?;
        }
        check_rows(&rt, rt.alloc(), &events, line)?;
    }
    Ok(())
}

/// The pairs of [`NESTED`], in the order of their exits.
const NESTED_PAIRS: [Pair; 2] = [
    Pair {
        func: 1,
        entry: 2,
        exit: 3,
        duration: 10,
    },
    Pair {
        func: 1,
        entry: 1,
        exit: 4,
        duration: 35,
    },
];

#[test]
fn the_pairs_of_a_thread_are_those_of_its_events(rt: HostRuntime) -> Result<(), Fail> {
    let alloc = rt.alloc();
    let events = thread_events(alloc, &trace_of(alloc, &NESTED)?, 1)?;
    check_same_list(&rt, &pairs(alloc, &events)?, &NESTED_PAIRS);
    Ok(())
}

/// A row of a function with one call of one cycle.
const ROW: AccountRow = AccountRow {
    func: 3,
    count: 1,
    min: 1,
    med: 1,
    p90: 1,
    p99: 1,
    max: 1,
    sum: 1,
    entries: 0,
    exits: 0,
};

/// Two rows, one with numbers that are wider than their columns.
const WIDE_ROWS: [AccountRow; 2] = [
    AccountRow {
        max: 12_345_678_901,
        sum: 12_345_678_901,
        ..ROW
    },
    AccountRow {
        func: 4,
        count: 0,
        ..ROW
    },
];

/// The text of these rows.
const WIDE: &str = "Functions with latencies: 1\n    \
    funcid      count        min        med        90p        99p        \
    max        sum    entries      exits function\n         \
    3          1          1          1          1          1 12345678901 \
    12345678901          0          0 #3\n         4          0          -          -          -          \
    -          -          -          0          0 #4\n";

#[test]
fn columns_are_aligned_and_a_longer_number_is_printed_whole(rt: HostRuntime) -> Result<(), Fail> {
    let text = text_of(rt.alloc(), &WIDE_ROWS, AccountLayout::Text)?;
    check_same_text(&rt, text.as_str(), WIDE);
    Ok(())
}

#[test]
fn a_document_of_bytes_is_that_of_their_trace(rt: HostRuntime) -> Result<(), Fail> {
    let alloc = rt.alloc();
    let bytes = file_of(alloc, &NESTED)?;
    let trace = read_trace(alloc, &bytes)?;
    let mut sink = MemSink::new(alloc, Vec::new(alloc));
    write_yaml_bytes(&bytes, None, &mut sink)?;
    let mut whole = MemSink::new(alloc, Vec::new(alloc));
    write_yaml(&trace, None, &mut whole)?;
    check_same_list(&rt, sink.bytes(), whole.bytes());
    Ok(())
}

/// The account of [`NESTED`] as csv, its stacks for flame graphs, and the YAML of its first event.
const REPORTS: &str = "funcid,count,min,med,90p,99p,max,sum,entries,exits,function\n\
    1,2,10,35,35,35,35,45,1,0,#1\n\
    #1;#1 25\n\
    #1;#1;#1 10\n\
    ---\nheader:\n  version: 3\n  type: 1\n  constant-tsc: true\n  nonstop-tsc: true\n  cycle-frequency: 0\n\
    records:\n  - { type: 0, func-id: 1, function: '#1', cpu: 0, thread: 1, process: 1, \
    kind: function-enter, tsc: 0 }\n...\n";

#[test]
fn a_report_is_written_by_one_call(rt: HostRuntime) -> Result<(), Fail> {
    let alloc = rt.alloc();
    let mut sink = MemSink::new(alloc, Vec::new(alloc));
    let trace = trace_of(alloc, &NESTED)?;
    let rows = account(alloc, &trace)?;
    write_account(&rows, latencies(&rows), None, true, &mut sink)?;
    write_stack(&stacks(alloc, &trace)?, None, StackForm::Flame, &mut sink)?;
    write_yaml(&trace_of(alloc, &NESTED[..1])?, None, &mut sink)?;
    check_same_text(&rt, std::str::from_utf8(sink.bytes())?, REPORTS);
    Ok(())
}
