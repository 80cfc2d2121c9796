//! What `Display` prints of each fault. No clause says so.

use crate::checks::check_same_text;
use asm_text::AsmFault;
use fdr_file::TraceFault;
use fdr_record::RecFault;
use patch_script::ScriptFault;
use run_order::OrderFault;
use runtime_log::LogFault;
use stack_rebuild::StackFault;
use std::fmt::Display;
use std::process::Abort;
use std::test::Fail;
use step_sim::{ScheduleFault, SimFault};
use subset_decode::DecodeFault;
use xray_image::{ImageFault, Which};

const OF_DECODING: [(DecodeFault, &str); 3] = [
    (DecodeFault::Short, "the instruction is cut off"),
    (
        DecodeFault::Unknown(255),
        "no instruction goes on with the byte 255",
    ),
    (DecodeFault::Register(10), "register 10 can't be named"),
];

const OF_IMAGES: [(ImageFault, &str); 13] = [
    (ImageFault::Short, "the file is too short"),
    (ImageFault::Magic, "the file doesn't begin with XRIM"),
    (ImageFault::Version, "the version isn't known"),
    (
        ImageFault::Limit(Which::Base),
        "the header's field is out of range: Base",
    ),
    (ImageFault::Trailing, "bytes follow the last entry"),
    (
        ImageFault::Code(7, DecodeFault::Register(4)),
        "no instruction at 7: register 4 can't be named",
    ),
    (ImageFault::Sled(4294967295), "no sled at 4294967295"),
    (
        ImageFault::Names(0),
        "function 0 has a bad start or a bad name",
    ),
    (
        ImageFault::MapOrder(3),
        "map entry 3 and sled 3 differ in address, or one is missing",
    ),
    (ImageFault::Odd(2), "entry 2 doesn't fit its sled"),
    (ImageFault::Far(5), "entry 5 is too far from its trampoline"),
    (ImageFault::Target(11), "the branch at 11 goes to no unit"),
    (ImageFault::NoMemory, "out of memory"),
];

const OF_TEXTS: [(AsmFault, &str); 7] = [
    (
        AsmFault::Syntax(1),
        "line 1 is no line of the language, or stands in a wrong place",
    ),
    (
        AsmFault::Register(2),
        "line 2 names a register that can't be named",
    ),
    (
        AsmFault::Range(3),
        "line 3 has a number that is out of range",
    ),
    (AsmFault::Repeat(4), "line 4 defines a name again"),
    (AsmFault::Limit(5), "line 5 exceeds a limit"),
    (AsmFault::Label(6), "line 6 has a name without a place"),
    (AsmFault::NoMemory, "out of memory"),
];

const OF_SCRIPTS: [(ScriptFault, &str); 9] = [
    (ScriptFault::Limit(1), "line 1 is one command too many"),
    (ScriptFault::Syntax(2), "line 2 is no command"),
    (ScriptFault::Function(3), "line 3 names no function"),
    (ScriptFault::Thread(4), "line 4 names no thread"),
    (
        ScriptFault::Go(5),
        "line 5 stands on the wrong side of go, or go is missing",
    ),
    (
        ScriptFault::Hold(6),
        "line 6 holds or releases a thread out of order, or a release is missing",
    ),
    (
        ScriptFault::Log(7),
        "line 7 can't follow in the log's state",
    ),
    (
        ScriptFault::SelfWait(8),
        "line 8 waits for a thread that waits for a later line",
    ),
    (ScriptFault::NoMemory, "out of memory"),
];

const OF_SCHEDULES: [(ScheduleFault, &str); 4] = [
    (ScheduleFault::Syntax(1), "line 1 is no line of a schedule"),
    (ScheduleFault::Thread(2), "line 2 names no thread"),
    (ScheduleFault::Limit, "too many lines"),
    (ScheduleFault::NoMemory, "out of memory"),
];

const OF_REPLAYS: [(SimFault, &str); 2] = [
    (SimFault::Waits(1), "line 1 may wait"),
    (SimFault::NoMemory, "out of memory"),
];

const OF_ORDERS: [(OrderFault, &str); 4] = [
    (
        OrderFault::Ends(16),
        "thread 16 doesn't end as it is said to",
    ),
    (
        OrderFault::Marks(1),
        "the marks of thread 1 don't follow the script",
    ),
    (
        OrderFault::Long,
        "the order has too many lines for a schedule",
    ),
    (OrderFault::NoMemory, "out of memory"),
];

const OF_RECORDS: [(RecFault, &str); 3] = [
    (RecFault::Short, "the record is cut off"),
    (RecFault::Action(4), "no function record has the action 4"),
    (
        RecFault::Kind(127),
        "no metadata record of the kind 127 is read",
    ),
];

const OF_TRACES: [(TraceFault, &str); 8] = [
    (
        TraceFault::Short(32),
        "the file ends within the block or header at 32",
    ),
    (TraceFault::Version(5), "version 5 isn't read"),
    (
        TraceFault::Form(65535),
        "files of the type 65535 aren't read",
    ),
    (
        TraceFault::Order(48),
        "the record at 48 may not stand there",
    ),
    (
        TraceFault::Extents(18446744073709551615),
        "the block's extents are too short at 18446744073709551615",
    ),
    (
        TraceFault::Bad(96, RecFault::Kind(8)),
        "no record stands at 96: no metadata record of the kind 8 is read",
    ),
    (
        TraceFault::NoBase(112),
        "no counter stands before the record at 112",
    ),
    (TraceFault::NoMemory, "out of memory"),
];

const OF_STACKS: [(StackFault, &str); 2] = [
    (
        StackFault::Deep(9),
        "more calls of thread 9 are open than are followed",
    ),
    (StackFault::NoMemory, "out of memory"),
];

const OF_LOGS: [(LogFault, &str); 4] = [
    (
        LogFault::Trace(TraceFault::Version(6)),
        "version 6 isn't read",
    ),
    (LogFault::Tag(32, 2), "the record at 32 begins with 2"),
    (LogFault::Kind(64, 4), "the record at 64 is of the kind 4"),
    (
        LogFault::Function(96, 268435456),
        "the record at 96 is of the function 268435456",
    ),
];

/// Checks that each fault prints its text.
fn check_texts<R: Abort + AllocGlobal, F: Display>(rt: &R, rows: &[(F, &str)]) -> Result<(), Fail> {
    for (fault, text) in rows {
        let printed = format!(in rt.alloc(); "{fault}")?;
        check_same_text(rt, printed.as_str(), text);
    }
    Ok(())
}

#[test]
fn each_fault_prints_its_text(rt: HostRuntime) -> Result<(), Fail> {
    check_texts(&rt, &OF_DECODING)?;
    check_texts(&rt, &OF_IMAGES)?;
    check_texts(&rt, &OF_TEXTS)?;
    check_texts(&rt, &OF_SCRIPTS)?;
    check_texts(&rt, &OF_SCHEDULES)?;
    check_texts(&rt, &OF_REPLAYS)?;
    check_texts(&rt, &OF_ORDERS)?;
    check_texts(&rt, &OF_RECORDS)?;
    check_texts(&rt, &OF_TRACES)?;
    check_texts(&rt, &OF_STACKS)?;
    check_texts(&rt, &OF_LOGS)?;
    Ok(())
}
