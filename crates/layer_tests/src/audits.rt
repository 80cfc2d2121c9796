//! Audits and traces of a run of one thread, and their verdicts.

use crate::checks::check_same_at;
use audit_check::{AuditFault, Verdict, check_audit, read_audit};
use patch_script::read_script;
use std::alloc::Global;
use std::process::Abort;
use std::test::Fail;
use test_helpers::images::OUTPUTS_AN_A;
use text_lines::count_lines;
use xray_image::read_image;

/// The script that traces everything from before the start.
const TRACED: &[u8] = b"patch\nset_handler\ninit\ngo\n";

/// The rows that the audit of a run of `OUTPUTS_AN_A` begins with.
const SETUP: &[u8] =
    b"xray-audit 1\nthreads=1 buffer-size=16384 buffer-max=100 fuel=10000000 passings=1048576 tick=1 tsc=0 cpus=1 migrate=1048576 pid=1 wall=0.0 frequency=0\n";

/// The other rows.
const BOTH_RECORDED: &[u8] =
    b"thread 1 returned passings 2 recorded 2 segments 1 first 0\nmarks +2\nrecycled 0\n";

/// The trace of that run: a header, and a block of one entry and one exit.
const TRACE: [u8; 128] = [
    3, 0, 1, 0, 3, 0, 0, 0, 0, 0, 0, 0, 0, 0, 0, 0, 0, 0x40, 0, 0, 0, 0, 0, 0, 0, 0, 0, 0, 0, 0, 0,
    0, 0x0F, 0x50, 0, 0, 0, 0, 0, 0, 0, 0, 0, 0, 0, 0, 0, 0, 1, 1, 0, 0, 0, 0, 0, 0, 0, 0, 0, 0, 0,
    0, 0, 0, 9, 0, 0, 0, 0, 0, 0, 0, 0, 0, 0, 0, 0, 0, 0, 0, 0x13, 1, 0, 0, 0, 0, 0, 0, 0, 0, 0, 0,
    0, 0, 0, 0, 5, 0, 0, 0, 0, 0, 0, 0, 0, 0, 0, 0, 0, 0, 0, 0, 0x10, 0, 0, 0, 0, 0, 0, 0, 0x12, 0,
    0, 0, 2, 0, 0, 0,
];

/// An audit with these rows after that of the setup.
fn audit_with(alloc: Global, rows: &[u8]) -> Result<Vec<u8>, Fail> {
    let mut audit = Vec::from_slice(alloc, SETUP)?;
    audit.extend_from_slice(rows)?;
    Ok(audit)
}

/// The verdict on an audit with these rows and a trace, for a script.
fn verdict_of(
    rt: &impl Abort,
    alloc: Global,
    script: &[u8],
    rows: &[u8],
    trace: &[u8],
) -> Result<Verdict, Fail> {
    let image = read_image(alloc, &OUTPUTS_AN_A)?;
    let audit = read_audit(alloc, &audit_with(alloc, rows)?)?;
    assert!(rt; count_lines(script) < 100);
    let script = read_script(alloc, script, &image, audit.setup.threads)?;
    Ok(check_audit(alloc, &image, &script, &audit, trace)?)
}

/// Checks the verdict on an audit with these rows and a trace, for a script.
fn check_verdict(
    rt: &impl Abort,
    alloc: Global,
    script: &[u8],
    rows: &[u8],
    trace: &[u8],
    wanted: Verdict,
) -> Result<(), Fail> {
    let verdict = verdict_of(rt, alloc, script, rows, trace)?;
    check_same_at(rt, &verdict, &wanted, &rows);
    Ok(())
}

/// Rows of audits, how many first bytes of the trace there are, and the verdict.
const VERDICTS: [(&[u8], usize, Verdict); 11] = [
    (BOTH_RECORDED, 128, Verdict::Yes),
    (
        b"thread 1 returned passings 1 recorded 2 segments 1 first 0\nmarks +2\nrecycled 0\n",
        128,
        Verdict::Ends(1),
    ),
    (
        b"thread 1 fuel passings 2 recorded 2 segments 1 first 0\nmarks +2\nrecycled 0\n",
        128,
        Verdict::Ends(1),
    ),
    (
        b"thread 1 returned passings 2 recorded 0 segments 0 first 0\nmarks .2\nrecycled 0\n",
        32,
        Verdict::Marks(1),
    ),
    (
        b"thread 1 returned passings 2 recorded 1 segments 1 first 0\nmarks +1\nrecycled 0\n",
        128,
        Verdict::Marks(1),
    ),
    (
        b"thread 1 returned passings 2 recorded 1 segments 1 first 0\nmarks +1 a1\nrecycled 0\n",
        128,
        Verdict::Marks(1),
    ),
    (
        b"thread 1 returned passings 2 recorded 1 segments 1 first 0\nmarks +2\nrecycled 0\n",
        128,
        Verdict::Counts(1),
    ),
    (
        b"thread 1 returned passings 2 recorded 2 segments 2 first 0\nmarks +2\nrecycled 0\n",
        128,
        Verdict::Counts(1),
    ),
    (
        b"thread 1 returned passings 2 recorded 2 segments 1 first 1\nmarks +2\nrecycled 1\n",
        32,
        Verdict::Counts(1),
    ),
    (
        b"thread 1 returned passings 2 recorded 2 segments 1 first 0\nmarks +2\nrecycled 1\n",
        128,
        Verdict::Recycled,
    ),
    (BOTH_RECORDED, 127, Verdict::Trace),
];

#[test]
fn each_row_of_the_table_gives_its_verdict(rt: HostRuntime) -> Result<(), Fail> {
    for (rows, length, verdict) in &VERDICTS {
        let trace = TRACE.get(..*length).ok_or("trace")?;
        check_verdict(&rt, rt.alloc(), TRACED, rows, trace, *verdict)?;
    }
    Ok(())
}

/// The script that traces everything from before the start, and then no more.
const UNPATCHED: &[u8] = b"patch\nset_handler\ninit\ngo\nunpatch\n";

/// The same, after the first passing of the thread.
const UNPATCHED_AFTER_1: &[u8] = b"patch\nset_handler\ninit\ngo\nawait 1 1\nunpatch\n";

/// The same, while the thread is held at its first passing.
const UNPATCHED_AT_1: &[u8] = b"patch\nset_handler\ninit\nhold 1 1\ngo\nunpatch\nrelease 1\n";

/// The same as the first, and then everything again.
const PATCHED_TWICE: &[u8] = b"patch\nset_handler\ninit\ngo\nunpatch\npatch\n";

/// Scripts, marks, and the verdict. The audit has wrong counts, so that is the verdict if the marks
/// follow the script.
const MARKS: [(&[u8], &[u8], Verdict); 8] = [
    (UNPATCHED, b"+1 .1", Verdict::Counts(1)),
    (UNPATCHED, b".2", Verdict::Counts(1)),
    (UNPATCHED, b".1 +1", Verdict::Counts(1)),
    (PATCHED_TWICE, b".1 +1", Verdict::Counts(1)),
    (UNPATCHED_AFTER_1, b".2", Verdict::Marks(1)),
    (UNPATCHED_AFTER_1, b"+1 .1", Verdict::Counts(1)),
    (UNPATCHED_AT_1, b"+2", Verdict::Marks(1)),
    (UNPATCHED_AT_1, b"+1 .1", Verdict::Counts(1)),
];

/// The rows of an audit with these marks.
fn rows_with(alloc: Global, marks: &[u8]) -> Result<Vec<u8>, Fail> {
    let begun = b"thread 1 returned passings 2 recorded 9 segments 1 first 0\nmarks ";
    let mut rows = Vec::from_slice(alloc, begun)?;
    rows.extend_from_slice(marks)?;
    rows.extend_from_slice(b"\nrecycled 0\n")?;
    Ok(rows)
}

#[test]
fn marks_follow_the_script(rt: HostRuntime) -> Result<(), Fail> {
    for (script, marks, verdict) in &MARKS {
        let rows = rows_with(rt.alloc(), marks)?;
        check_verdict(&rt, rt.alloc(), script, &rows, &TRACE, *verdict)?;
    }
    Ok(())
}

/// Rows of audits, and the number of the first bad line.
const REFUSED: [(&[u8], u32); 16] = [
    (b"", 3),
    (
        b"thread 1 returned passings 2 recorded 2 segments 1 first 0\nmarks +2\nrecycled 0",
        5,
    ),
    (
        b"thread 1 returned passings 2 recorded 2 segments 1 first 0\nmarks +2\nrecycled 0\nx",
        6,
    ),
    (
        b"thread 1 returned passings 2 recorded 2 segments 1 first 0\nmarks +2\nrecycled 0\n\n",
        6,
    ),
    (
        b"thread 1 returned passings 2 recorded 2 segments 1 first 0\nmarks +2\nrecycled 00\n",
        5,
    ),
    (
        b"thread 1 returned passings 2 recorded 2 segments 1 first 0\nmarks +2\n",
        5,
    ),
    (
        b"thread 1 returned passings 2 recorded 2 segments 1 first 0\nmarks +1 +1\nrecycled 0\n",
        4,
    ),
    (
        b"thread 1 returned passings 2 recorded 2 segments 1 first 0\nmarks +0\nrecycled 0\n",
        4,
    ),
    (
        b"thread 1 returned passings 2 recorded 2 segments 1 first 0\nmarks \nrecycled 0\n",
        4,
    ),
    (
        b"thread 1 returned passings 2 recorded 2 segments 1 first 0\nmarks +1048577\nrecycled 0\n",
        4,
    ),
    (
        b"thread 1 returned passings 2 recorded 2 segments 1 first 0\nmarks +1048576 .1\nrecycled 0\n",
        4,
    ),
    (
        b"thread 1 returned passings 2 recorded 2 segments 1 first 0\nmarks +2 \nrecycled 0\n",
        4,
    ),
    (
        b"thread 2 returned passings 2 recorded 2 segments 1 first 0\nmarks +2\nrecycled 0\n",
        3,
    ),
    (
        b"thread 1 returned passings 4294967296 recorded 2 segments 1 first 0\nmarks +2\nrecycled 0\n",
        3,
    ),
    (
        b"thread 1 gone passings 2 recorded 2 segments 1 first 0\nmarks +2\nrecycled 0\n",
        3,
    ),
    (
        b"thread 1 returned passings 2 recorded 2 segments 1 first 0\nmarks -\nrecycled 18446744073709551616\n",
        5,
    ),
];

#[test]
fn audits_are_refused_at_their_first_bad_line(rt: HostRuntime) -> Result<(), Fail> {
    for (rows, line) in &REFUSED {
        let audit = audit_with(rt.alloc(), rows)?;
        let fault = read_audit(rt.alloc(), &audit).err();
        check_same_at(&rt, &fault, &Some(AuditFault::Form(*line)), rows);
    }
    Ok(())
}
