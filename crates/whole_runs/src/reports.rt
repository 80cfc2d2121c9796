//! `account`, `calls`, `stack`, `convert` and `fdr-dump`: what they print of traces and basic logs, and what they refuse.
use crate::cases::{CASE, Case, I, check_case};
use std::test::Fail;
use test_helpers::trace_parts::{
    BASIC_EVENTS, BASIC_HEADER, CPU, ENTRY, EXIT, EXIT_AFTER_2, EXTENTS_72, EXTENTS_80, EXTENTS_96,
    HEADER, HEADER_OF_2, LOG_OF_ONE_CALL, NESTED, ONE_CALL, ONE_CALL_WITHOUT_PROCESS, ONE_EXIT,
    PREAMBLE, RECURSION, THREAD_1, TWO_FUNCTIONS, WALL_0,
};

const TEXT_OF_NONE: &str =
    "Functions with latencies: 0\n    funcid      count        min        med        \
    90p        99p        max        sum    entries      exits function\n";

const TEXT_OF_ONE_CALL: &str =
    "Functions with latencies: 1\n    funcid      count        min        med        \
    90p        99p        max        sum    entries      exits function\n         1          1          \
    2          2          2          2          2          2          0          0 main\n";

const TEXT_OF_NO_ROWS: &str =
    "Functions with latencies: 2\n    funcid      count        min        med        \
    90p        99p        max        sum    entries      exits function\n";

const CSV_OF_ONE_EXIT: &str = "funcid,count,min,med,90p,99p,max,sum,entries,exits,function\n\
    1,0,-,-,-,-,-,-,0,1,main\n";

const CSV_OF_RECURSION: &str = "funcid,count,min,med,90p,99p,max,sum,entries,exits,function\n\
    1,2,10,35,35,35,35,45,1,0,#1\n";

const CSV_OF_ONE_NAME: &str = "funcid,count,min,med,90p,99p,max,sum,entries,exits,function\n\
    1,1,5,5,5,5,5,5,0,0,main\n2,1,1,1,1,1,1,1,0,0,#2\n";

const CSV_OF_THE_SLOWEST: &str = "funcid,count,min,med,90p,99p,max,sum,entries,exits,function\n\
    1,1,5,5,5,5,5,5,0,0,#1\n";

/// The words of an account of the function that took longest.
const SLOWEST: &str = "account t --top 1 --sort=99p --sortorder=desc --format=csv";

/// Calls as `tools/model/calls_model.py` has them.
const CALLS_OF_THREE: &str = "      call     parent     thread    process        cpu      start   \
    duration       self      depth        arg     funcid function\n         \
    2          1          1          1          0          2          4          \
    4          2          -          3 #3\n         \
    1          0          1          1          0          1          7          \
    3          1          -          2 #2\n         \
    0          -          1          1          0          0         10          \
    3          0          -          1 main\n";

const CALLS_OF_RECURSION: &str =
    "call,parent,thread,process,cpu,start,duration,self,depth,arg,funcid,function\n\
    1,0,1,1,0,10,35,25,1,,1,#1\n2,1,1,1,0,20,10,10,2,,1,#1\n";

const LONG_CALLS: &str =
    "call,parent,thread,process,cpu,start,duration,self,depth,arg,funcid,function\n\
    2,1,1,1,0,2,4,4,2,,3,#3\n1,0,1,1,0,1,7,3,1,,2,#2\n";

const CALLS_OF_2: &str =
    "call,parent,thread,process,cpu,start,duration,self,depth,arg,funcid,function\n\
    1,0,1,1,0,1,7,3,1,,2,#2\n";

const NO_CALLS: &str =
    "call,parent,thread,process,cpu,start,duration,self,depth,arg,funcid,function\n";

/// The words of the calls that took 4 cycles or more, ordered by what they took themselves.
const LONG: &str = "calls t --sort self --sortorder desc --top 2 --least 4 --format=csv";

const STACKS_OF_ONE_CALL: &str =
    "     count        sum       self stack\n         1          2          2 main\n";

const YAML_OF_NONE: &str = "---\nheader:\n  version: 3\n  type: 1\n  constant-tsc: true\n  \
    nonstop-tsc: true\n  cycle-frequency: 0\nrecords: []\n...\n";

const YAML_OF_ONE_CALL: &str = "---\nheader:\n  version: 3\n  type: 1\n  constant-tsc: true\n  \
    nonstop-tsc: true\n  cycle-frequency: 0\nrecords:\n  \
    - { type: 0, func-id: 1, function: 'main', cpu: 0, thread: 1, process: 1, kind: function-enter, tsc: 0 }\n  \
    - { type: 0, func-id: 1, function: 'main', cpu: 0, thread: 1, process: 1, kind: function-exit, tsc: 2 }\n...\n";

const YAML_WITHOUT_PROCESS: &str = "---\nheader:\n  version: 2\n  type: 1\n  constant-tsc: true\n  \
    nonstop-tsc: true\n  cycle-frequency: 0\nrecords:\n  \
    - { type: 0, func-id: 1, function: 'main', cpu: 0, thread: 1, process: 0, kind: function-enter, tsc: 0 }\n  \
    - { type: 0, func-id: 1, function: 'main', cpu: 0, thread: 1, process: 0, kind: function-exit, tsc: 2 }\n...\n";

/// The flame graph of no row, as `tools/model/flame_model.py` has it.
const PICTURE_OF_NONE: &str = "\
    <svg xmlns=\"http://www.w3.org/2000/svg\" width=\"1200\" height=\"80\" viewBox=\"0 0 1200 80\" \
    font-family=\"monospace\" font-size=\"12\">\n\
    <rect width=\"1200\" height=\"80\" fill=\"#f8f4e4\"/>\n\
    <text x=\"600\" y=\"28\" font-size=\"17\" text-anchor=\"middle\">Flame graph: 0 cycles</text>\n\
    <text x=\"10\" y=\"68\">Frames narrower than 0.1 pixels, which are left out: 0</text>\n\
    </svg>\n";

/// That of two rows, whose outermost caller has none.
const PICTURE_OF_RECURSION: &str = "\
    <svg xmlns=\"http://www.w3.org/2000/svg\" width=\"1200\" height=\"128\" viewBox=\"0 0 1200 128\" \
    font-family=\"monospace\" font-size=\"12\">\n\
    <rect width=\"1200\" height=\"128\" fill=\"#f8f4e4\"/>\n\
    <text x=\"600\" y=\"28\" font-size=\"17\" text-anchor=\"middle\">Flame graph: 35 cycles</text>\n\
    <g><title>#1: count 0, sum 0, self 0</title><rect x=\"10.000\" y=\"80\" width=\"1180.000\" \
    height=\"15\" rx=\"2\" fill=\"rgb(236,189,37)\"/><text x=\"13.000\" y=\"92\">#1</text></g>\n\
    <g><title>#1: count 1, sum 35, self 25</title><rect x=\"10.000\" y=\"64\" width=\"1180.000\" \
    height=\"15\" rx=\"2\" fill=\"rgb(236,189,37)\"/><text x=\"13.000\" y=\"76\">#1</text></g>\n\
    <g><title>#1: count 1, sum 10, self 10</title><rect x=\"852.857\" y=\"48\" width=\"337.143\" \
    height=\"15\" rx=\"2\" fill=\"rgb(236,189,37)\"/><text x=\"855.857\" y=\"60\">#1</text></g>\n\
    <text x=\"10\" y=\"116\">Frames narrower than 0.1 pixels, which are left out: 0</text>\n\
    </svg>\n";

const EVENTS_OF_ONE_CALL: &str = "{\"traceEvents\":[\
    {\"cpu\":0,\"name\":\"main\",\"ph\":\"B\",\"pid\":1,\"tid\":1,\"ts\":0},\
    {\"cpu\":0,\"name\":\"main\",\"ph\":\"E\",\"pid\":1,\"tid\":1,\"ts\":2}]}\n";

const LOG: &str = "\x03\0\0\0\x03\0\0\0\0\0\0\0\0\0\0\0\0\0\0\0\0\0\0\0\0\0\0\0\0\0\0\0\
    \0\0\0\0\x01\0\0\0\0\0\0\0\0\0\0\0\x01\0\0\0\x01\0\0\0\0\0\0\0\0\0\0\0\
    \0\0\0\x01\x01\0\0\0\x02\0\0\0\0\0\0\0\x01\0\0\0\x01\0\0\0\0\0\0\0\0\0\0\0";

const EMPTY_LOG: &str = "\x03\0\0\0\x03\0\0\0\0\0\0\0\0\0\0\0\0\0\0\0\0\0\0\0\0\0\0\0\0\0\0\0";

const DUMP_OF_ONE_CALL: &str = "0 header version 3 type 1\n32 extents 80\n48 new-buffer 1\n\
    64 wall-time 0.0\n80 pid 1\n96 new-cpu 0 0\n112 function enter 1 delta 0\n\
    120 function exit 1 delta 2\nend 128\n";

/// A sled map that names function 1.
const MAP: &[u8] = b"---\n\
    - { id: 1, address: 0x1000, function: 0x1000, kind: function-enter, always-instrument: true, \
    function-name: 'f<char>(caf\xC3\xA9, int)', version: 2 }\n...\n";

/// The picture of the call, as the model of `tools` draws it.
const PICTURE_OF_NAMED: &str = "\
    <svg xmlns=\"http://www.w3.org/2000/svg\" width=\"1200\" height=\"96\" viewBox=\"0 0 1200 96\" \
    font-family=\"monospace\" font-size=\"12\">\n\
    <rect width=\"1200\" height=\"96\" fill=\"#f8f4e4\"/>\n\
    <text x=\"600\" y=\"28\" font-size=\"17\" text-anchor=\"middle\">Flame graph: 2 cycles</text>\n\
    <g><title>f&lt;char&gt;(café, int): count 1, sum 2, self 2</title>\
    <rect x=\"10.000\" y=\"48\" width=\"1180.000\" height=\"15\" rx=\"2\" fill=\"rgb(236,189,37)\"/>\
    <text x=\"13.000\" y=\"60\">f&lt;char&gt;(café, int)</text></g>\n\
    <text x=\"10\" y=\"84\">Frames narrower than 0.1 pixels, which are left out: 0</text>\n\
    </svg>\n";

/// Function 1, the counter 2, thread 5, process 6 and the argument 7.
const LATER_FIELDS: &[u8] = b"\x01\0\0\0\x02\0\0\0\0\0\0\0\x05\0\0\0\x06\0\0\0\x07\0\0\0\0\0\0\0";

/// What YAML prints of a record of a basic log, before its kind and after it.
const HEAD_OF_KIND: &str =
    "---\nheader:\n  version: 3\n  type: 1\n  constant-tsc: true\n  nonstop-tsc: true\n  \
    cycle-frequency: 0\nrecords:\n  - { type: 0, func-id: 1, function: '#1', cpu: 4, thread: 5, process: 6, kind: ";

const END_OF_KIND: &str = ", tsc: 2 }\n...\n";

/// The parts of a trace or of a log, words, and what is printed.
type Printed = (&'static [&'static [u8]], &'static str, &'static str);

const PRINTED: [Printed; 40] = [
    // `account`.
    (&[HEADER], "account t", TEXT_OF_NONE),
    (&ONE_CALL, "account t i", TEXT_OF_ONE_CALL),
    (&ONE_EXIT, "account t i --format csv", CSV_OF_ONE_EXIT),
    (&RECURSION, "account --format=csv t", CSV_OF_RECURSION),
    (
        &TWO_FUNCTIONS,
        "account t i --format csv --sort funcid",
        CSV_OF_ONE_NAME,
    ),
    (&TWO_FUNCTIONS, SLOWEST, CSV_OF_THE_SLOWEST),
    (&TWO_FUNCTIONS, "account t i --top 0", TEXT_OF_NO_ROWS),
    // `calls`.
    (&NESTED, "calls t i", CALLS_OF_THREE),
    (
        &RECURSION,
        "calls t --format csv --sort=call",
        CALLS_OF_RECURSION,
    ),
    (&NESTED, LONG, LONG_CALLS),
    (
        &NESTED,
        "calls t --function 2 --thread=1 --format csv",
        CALLS_OF_2,
    ),
    (&ONE_EXIT, "calls t --format csv", NO_CALLS),
    // `stack` and `convert`.
    (&ONE_CALL, "stack t i", STACKS_OF_ONE_CALL),
    (
        &RECURSION,
        "stack t --format=flame",
        "#1;#1 25\n#1;#1;#1 10\n",
    ),
    (
        &NESTED,
        "stack t --format flame",
        "#1 3\n#1;#2 3\n#1;#2;#3 4\n",
    ),
    (&[HEADER], "stack --format flame t", ""),
    (&[HEADER], "stack t --format svg", PICTURE_OF_NONE),
    (&RECURSION, "stack t --format=svg", PICTURE_OF_RECURSION),
    (&ONE_CALL, "convert t i", YAML_OF_ONE_CALL),
    (
        &ONE_CALL_WITHOUT_PROCESS,
        "convert t i",
        YAML_WITHOUT_PROCESS,
    ),
    (&ONE_CALL_WITHOUT_PROCESS, "stack t i", STACKS_OF_ONE_CALL),
    (&[HEADER], "convert t --format yaml", YAML_OF_NONE),
    // Further forms, and basic logs.
    (
        &ONE_CALL,
        "convert t i --format trace-event",
        EVENTS_OF_ONE_CALL,
    ),
    (&ONE_CALL, "convert t --format basic", LOG),
    (
        &LOG_OF_ONE_CALL,
        "convert t i --input basic",
        YAML_OF_ONE_CALL,
    ),
    (
        &LOG_OF_ONE_CALL,
        "convert t i --input=basic --format=trace-event",
        EVENTS_OF_ONE_CALL,
    ),
    (
        &LOG_OF_ONE_CALL,
        "convert t --format basic --input basic",
        LOG,
    ),
    (&ONE_CALL, "fdr-dump t", DUMP_OF_ONE_CALL),
    (
        &[HEADER],
        "convert t --format trace-event",
        "{\"traceEvents\":[]}\n",
    ),
    (&[HEADER], "convert t --format basic", EMPTY_LOG),
    (&[BASIC_HEADER], "convert t --input basic", YAML_OF_NONE),
    (
        &[BASIC_HEADER],
        "convert t --input basic --format basic",
        EMPTY_LOG,
    ),
    (
        &[HEADER],
        "fdr-dump t",
        "0 header version 3 type 1\nend 32\n",
    ),
    (
        // An entry on CPU 255.
        &[
            HEADER,
            EXTENTS_72,
            PREAMBLE,
            b"\x05\xFF\0\0\0\0\0\0\0\0\0\0\0\0\0\0",
            ENTRY,
        ],
        "convert t --format trace-event",
        "{\"traceEvents\":[{\"cpu\":255,\"name\":\"#1\",\"ph\":\"B\",\"pid\":1,\"tid\":1,\"ts\":0}]}\n",
    ),
    // The names of a sled map.
    (
        &ONE_CALL,
        "account t --map m",
        "Functions with latencies: 1\n    \
        funcid      count        min        med        90p        99p        max        sum    entries      exits function\n         \
        1          1          2          2          2          2          2          2          0          0 f<char>(café, int)\n",
    ),
    (
        &ONE_CALL,
        "account t --map m --format=csv",
        "funcid,count,min,med,90p,99p,max,sum,entries,exits,function\n\
        1,1,2,2,2,2,2,2,0,0,\"f<char>(café, int)\"\n",
    ),
    (
        &ONE_CALL,
        "stack --map=m t --format=flame",
        "f<char>(café, int) 2\n",
    ),
    (&ONE_CALL, "stack t --map m --format svg", PICTURE_OF_NAMED),
    (
        &ONE_CALL,
        "convert t --map m",
        "---\nheader:\n  version: 3\n  type: 1\n  constant-tsc: true\n  nonstop-tsc: true\n  \
        cycle-frequency: 0\nrecords:\n  \
        - { type: 0, func-id: 1, function: 'f<char>(café, int)', cpu: 0, thread: 1, process: 1, \
        kind: function-enter, tsc: 0 }\n  \
        - { type: 0, func-id: 1, function: 'f<char>(café, int)', cpu: 0, thread: 1, process: 1, \
        kind: function-exit, tsc: 2 }\n...\n",
    ),
    (
        &ONE_CALL,
        "convert t --format=trace-event --map=m",
        "{\"traceEvents\":[\
        {\"cpu\":0,\"name\":\"f<char>(café, int)\",\"ph\":\"B\",\"pid\":1,\"tid\":1,\"ts\":0},\
        {\"cpu\":0,\"name\":\"f<char>(café, int)\",\"ph\":\"E\",\"pid\":1,\"tid\":1,\"ts\":2}]}\n",
    ),
];

#[test]
fn a_trace_is_printed_as_its_words_ask(rt: HostRuntime) -> Result<(), Fail> {
    for (parts, line, text) in &PRINTED {
        let case = Case {
            files: &[("t", *parts), I, ("m", &[MAP])],
            line,
            out: &[*text],
            ..CASE
        };
        check_case(&rt, &case)?;
    }
    Ok(())
}

/// The numbers of kinds of a basic log, and what YAML prints of them.
const KINDS: [(&[u8], &str); 4] = [
    (b"\0", "function-enter"),
    (b"\x01", "function-exit"),
    (b"\x02", "function-tail-exit"),
    (b"\x03", "function-enter-arg, args: [ 7 ]"),
];

#[test]
fn a_log_has_four_kinds(rt: HostRuntime) -> Result<(), Fail> {
    for (kind, word) in &KINDS {
        let case = Case {
            files: &[("t", &[BASIC_HEADER, b"\0\0\x04", *kind, LATER_FIELDS])],
            line: "convert t --input basic",
            out: &[HEAD_OF_KIND, *word, END_OF_KIND],
            ..CASE
        };
        check_case(&rt, &case)?;
    }
    Ok(())
}

/// All of a header but its last byte.
const CUT_HEADER: &[u8] = b"\x03\0\x01\0\x03\0\0\0\0\0\0\0\0\0\0\0\0\x40\0\0\0\0\0\0\0\0\0\0\0\0\0";

/// A header of version 4, and one of type 0.
const VERSION_4: &[u8] =
    b"\x04\0\x01\0\x03\0\0\0\0\0\0\0\0\0\0\0\0\x40\0\0\0\0\0\0\0\0\0\0\0\0\0\0";

const TYPE_0: &[u8] = b"\x03\0\0\0\x03\0\0\0\0\0\0\0\0\0\0\0\0\x40\0\0\0\0\0\0\0\0\0\0\0\0\0\0";

/// All of a header of a basic log but its last byte.
const CUT_BASIC_HEADER: &[u8] =
    b"\x03\0\0\0\x03\0\0\0\0\0\0\0\0\0\0\0\0\0\0\0\0\0\0\0\0\0\0\0\0\0\0";

/// The parts of a trace, words, the status, and the line on err.
type Refusal = (&'static [&'static [u8]], &'static str, u8, &'static str);

/// What is refused. The image `j` and the map `k` are cut, and `n` is absent. The trace is refused before them.
const REFUSALS: [Refusal; 30] = [
    (&[CUT_HEADER], "account t i", 2, "xray: t: trace Short 0\n"),
    (&[VERSION_4], "account t i", 2, "xray: t: trace Version 4\n"),
    (&[TYPE_0], "account t i", 2, "xray: t: trace Form 0\n"),
    (
        &[HEADER, b"\x0F\x50\0\0\0\0\0\0"],
        "account t i",
        2,
        "xray: t: trace Short 32\n",
    ),
    (
        &[HEADER, EXTENTS_80, PREAMBLE],
        "account t i",
        2,
        "xray: t: trace Short 32\n",
    ),
    (
        &[HEADER, PREAMBLE],
        "account t i",
        2,
        "xray: t: trace Order 32\n",
    ),
    (
        &[HEADER, EXTENTS_80, CPU, CPU, CPU, CPU, CPU],
        "account t i",
        2,
        "xray: t: trace Order 48\n",
    ),
    (
        &[HEADER, b"\x0F\x2F\0\0\0\0\0\0\0\0\0\0\0\0\0\0"],
        "account t i",
        2,
        "xray: t: trace Extents 32\n",
    ),
    (
        &[
            HEADER_OF_2,
            b"\x0F\x1F\0\0\0\0\0\0\0\0\0\0\0\0\0\0",
            THREAD_1,
            WALL_0,
        ],
        "account t i",
        2,
        "xray: t: trace Extents 32\n",
    ),
    (
        &[HEADER_OF_2, EXTENTS_72, PREAMBLE, CPU, ENTRY],
        "account t i",
        2,
        "xray: t: trace Order 80\n",
    ),
    (
        &[HEADER, b"\x08\0\0\0\0\0\0\0", EXIT],
        "account t i",
        2,
        "xray: t: trace Bad 32 Action 4\n",
    ),
    (
        &[HEADER, EXTENTS_72, PREAMBLE, b"\x11\0\0\0\0\0\0\0", CPU],
        "account t i",
        2,
        "xray: t: trace Bad 96 Kind 8\n",
    ),
    (
        &[HEADER, EXTENTS_72, PREAMBLE, ENTRY, CPU],
        "account t i",
        2,
        "xray: t: trace NoBase 96\n",
    ),
    (&ONE_CALL, "account t j", 2, "xray: j: image Short\n"),
    (
        &ONE_CALL,
        "account i i",
        2,
        "xray: i: trace Version 21080\n",
    ),
    (&ONE_CALL, "account t n", 3, "xray: n: read fault\n"),
    (&ONE_CALL, "account n i", 3, "xray: n: read fault\n"),
    (
        &ONE_CALL,
        "convert t --input basic",
        2,
        "xray: t: trace Form 1\n",
    ),
    (&LOG_OF_ONE_CALL, "convert t", 2, "xray: t: trace Form 0\n"),
    (&LOG_OF_ONE_CALL, "fdr-dump t", 2, "xray: t: trace Form 0\n"),
    (
        &[BASIC_HEADER, b"\0\0\0\x04", LATER_FIELDS],
        "convert t --input basic",
        2,
        "xray: t: trace Kind 32 4\n",
    ),
    (
        &[BASIC_HEADER, BASIC_EVENTS, b"\0\x01\0\x01", LATER_FIELDS],
        "convert t --input basic --format basic",
        2,
        "xray: t: trace Tag 96 256\n",
    ),
    (
        // An entry on CPU 256, after one on CPU 0.
        &[
            HEADER,
            EXTENTS_96,
            PREAMBLE,
            CPU,
            ENTRY,
            b"\x05\0\x01\0\0\0\0\0\0\0\0\0\0\0\0\0",
            EXIT_AFTER_2,
        ],
        "convert t i --format basic",
        2,
        "xray: t: trace Cpu 1\n",
    ),
    (&[], "fdr-dump t", 2, "xray: t: trace Short 0\n"),
    // A basic log that is cut is short.
    (
        &[CUT_BASIC_HEADER],
        "convert t --input basic",
        2,
        "xray: t: trace Short 0\n",
    ),
    (
        &[BASIC_HEADER, b"\0"],
        "convert t --input basic",
        2,
        "xray: t: trace Short 32\n",
    ),
    (
        &[BASIC_HEADER, BASIC_EVENTS, &[0; 31]],
        "convert t --input basic",
        2,
        "xray: t: trace Short 96\n",
    ),
    // A map is taken after the trace.
    (
        &RECURSION,
        "account t --map k",
        2,
        "xray: k: map Syntax 2\n",
    ),
    (&RECURSION, "stack t --map n", 3, "xray: n: read fault\n"),
    (&RECURSION, "convert n --map m", 3, "xray: n: read fault\n"),
];

#[test]
fn what_is_refused_leaves_nothing_on_out(rt: HostRuntime) -> Result<(), Fail> {
    for (parts, line, status, err) in &REFUSALS {
        let case = Case {
            files: &[
                ("t", *parts),
                I,
                ("j", &[b"XRIM"]),
                ("m", &[MAP]),
                ("k", &[b"---\n"]),
            ],
            line,
            status: *status,
            err,
            ..CASE
        };
        check_case(&rt, &case)?;
    }
    Ok(())
}
