//! Calls of `call_rows`: the calls of a trace in an order, and printed as they end. The lines are those of
//! the model of `tools/`.

use crate::checks::check_same_text;
use crate::event_traces::{Said, printed};
use crate::fed_traces::{feed_pieces, file_of};
use account_report::AccountLayout;
use call_rows::*;
use fdr_file::read_trace;
use fdr_record::Kind;
use function_names::Names;
use std::alloc::Global;
use std::process::Abort;
use std::test::Fail;
use xray_io::MemSink;

/// How many bytes a scan is fed at once. Each record is longer.
const PIECE: usize = 7;

/// Two threads. The call of 7 has no exit, and two calls of 8 that are made in it take as long. The
/// call of 9 logs its argument. Its second exit ends no call.
const CALLS: [Said; 8] = [
    (1, Kind::Entry, 7, 0),
    (2, Kind::EntryArgs, 9, 100),
    (1, Kind::Entry, 8, 1),
    (1, Kind::Exit, 8, 4),
    (2, Kind::Exit, 9, 140),
    (1, Kind::Entry, 8, 5),
    (1, Kind::TailExit, 8, 8),
    (2, Kind::Exit, 9, 150),
];

/// All calls.
const ALL: CallFilter = CallFilter {
    function: None,
    thread: None,
    least: 0,
};

/// The calls in the order in which they end.
const BY_END: &str =
    "call,parent,thread,process,cpu,start,duration,self,depth,arg,funcid,function\n\
    2,0,1,1,0,1,3,3,1,,8,#8\n\
    1,,2,1,0,100,40,40,0,0,9,#9\n\
    5,0,1,1,0,5,3,3,1,,8,#8\n";

/// The two longest.
const LONGEST: &str =
    "      call     parent     thread    process        cpu      start   duration       self      depth        arg     funcid function\n         1          -          2          1          0        100         40         40          0          0          9 #9\n         2          0          1          1          0          1          3          3          1          -          8 #8\n";

/// The calls of 8, the last of them first.
const OF_8_TURNED: &str =
    "call,parent,thread,process,cpu,start,duration,self,depth,arg,funcid,function\n\
    5,0,1,1,0,5,3,3,1,,8,#8\n\
    2,0,1,1,0,1,3,3,1,,8,#8\n";

/// The text of the calls of a file that is fed in pieces.
fn text_of(
    alloc: Global,
    wanted: CallFilter,
    order: CallOrder,
    format: AccountLayout,
) -> Result<String, Fail> {
    let mut kept = KeptCalls::new(alloc, wanted, order);
    feed_pieces(&file_of(alloc, &CALLS)?, PIECE, &mut kept)??;
    let rows = kept.rows();
    let text = CallsText {
        rows: &rows,
        names: Names::Ids,
        format,
    };
    printed(alloc, &text)
}

#[test]
fn calls_are_listed_in_an_order(rt: HostRuntime) -> Result<(), Fail> {
    let longest = CallOrder {
        key: CallKey::Duration,
        descending: true,
        top: Some(2),
    };
    let text = text_of(rt.alloc(), ALL, longest, AccountLayout::Text)?;
    check_same_text(&rt, text.as_str(), LONGEST);
    let of_8 = CallFilter {
        function: Some(8),
        ..ALL
    };
    let turned = CallOrder {
        key: CallKey::End,
        descending: true,
        top: None,
    };
    let text = text_of(rt.alloc(), of_8, turned, AccountLayout::Csv)?;
    check_same_text(&rt, text.as_str(), OF_8_TURNED);
    Ok(())
}

#[test]
fn calls_are_printed_as_they_end(rt: HostRuntime) -> Result<(), Fail> {
    let alloc = rt.alloc();
    let bytes = file_of(alloc, &CALLS)?;
    let _trace = read_trace(alloc, &bytes)?;
    let mut sink = MemSink::new(alloc, Vec::new(alloc));
    write_calls(
        alloc,
        &bytes,
        &ALL,
        Names::Ids,
        AccountLayout::Csv,
        &mut sink,
    )?;
    check_same_text(&rt, std::str::from_utf8(sink.bytes())?, BY_END);
    let order = CallOrder {
        key: CallKey::End,
        descending: false,
        top: None,
    };
    let rows = calls_in_order(alloc, &bytes, &ALL, &order)?;
    let text = CallsText {
        rows: &rows,
        names: Names::Ids,
        format: AccountLayout::Csv,
    };
    check_same_text(&rt, printed(alloc, &text)?.as_str(), BY_END);
    Ok(())
}
