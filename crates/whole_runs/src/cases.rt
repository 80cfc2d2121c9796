//! Cases: files, lines that are run over them, and what the last one leaves. A table of cases is data, and costs the
//! proof nothing.
use crate::checks::check_same_at;
use crate::runs::{assert_left, assert_no_fault, run_at, run_line};
use std::alloc::Global;
use std::process::Abort;
use std::sync::Wait;
use std::test::Fail;
use std::thread::Threads;
use test_helpers::images::OUTPUTS_AN_A;
use test_helpers::trace_parts::file;
use xray_io::{Gate, MemDesk, OpenGate};

/// A file: its name, and the parts of its bytes.
pub type File<'r> = (&'r str, &'r [&'r [u8]]);

/// A file that a run leaves: its name, how many bytes come first, the parts of the bytes after them, and how many bytes
/// come last.
pub type Left<'r> = (&'r str, usize, &'r [&'r [u8]], usize);

/// A run and what it leaves.
#[derive(Clone, Copy)]
pub struct Case<'r> {
    /// What the desk holds.
    pub files: &'r [File<'r>],
    /// Lines that are run first, without a fault.
    pub before: &'r [&'r str],
    pub line: &'r str,
    pub status: u8,
    /// The parts of the text on out.
    pub out: &'r [&'r str],
    pub err: &'r str,
    pub left: &'r [Left<'r>],
}

/// A case of nothing. The others say how they differ.
pub const CASE: Case = Case {
    files: &[],
    before: &[],
    line: "",
    status: 0,
    out: &[],
    err: "",
    left: &[],
};

/// The line on err if the words say no command.
pub const BAD_LINE: &str = "xray: bad command line\n";

/// An image of 170 bytes. Its only function, at 0x1000, is an entry sled, `mov eax, 0x41`, `out 1, al`, and an exit
/// sled.
pub const IMAGE: [u8; 170] = OUTPUTS_AN_A;

/// The file of this image.
pub const I: File = ("i", &[&IMAGE]);

/// The lines that assemble the text `x`.
pub const ASSEMBLE: &[&str] = &["asm x i"];

/// A desk that holds files.
pub fn desk_of(alloc: Global, files: &[File]) -> Result<MemDesk, Fail> {
    let mut desk = MemDesk::new(alloc, Vec::new(alloc));
    for (name, parts) in files {
        desk.put(name, &file(alloc, parts)?)?;
    }
    Ok(desk)
}

/// The text of parts, one after the other.
pub fn joined(alloc: Global, parts: &[&str]) -> Result<String, Fail> {
    let mut text = String::new(alloc);
    for part in parts {
        text.push_str(part)?;
    }
    Ok(text)
}

/// Checks a file that a run left. A failure also shows a text.
fn check_left<R: Abort + AllocGlobal>(
    rt: &R,
    desk: &MemDesk,
    left: &Left,
    text: &str,
) -> Result<(), Fail> {
    let (name, first, parts, last) = *left;
    let wanted = file(rt.alloc(), parts)?;
    let held = desk.get(name).unwrap_or(b"");
    let end = first.saturating_add(wanted.len());
    check_same_at(rt, &held.get(first..end), &Some(wanted.as_slice()), text);
    check_same_at(rt, &held.len(), &end.saturating_add(last), text);
    Ok(())
}

/// Runs a case, and checks what it leaves.
pub fn check_case<R: Abort + Threads + Wait + Sync + AllocGlobal>(
    rt: &R,
    case: &Case,
) -> Result<(), Fail> {
    check_case_at(rt, case, &OpenGate)
}

/// Runs a case with a gate for its line, and checks what it leaves.
pub fn check_case_at<R: Abort + Threads + Wait + Sync + AllocGlobal, G: Gate + Sync>(
    rt: &R,
    case: &Case,
    gate: &G,
) -> Result<(), Fail> {
    let mut desk = desk_of(rt.alloc(), case.files)?;
    for line in case.before {
        assert_no_fault(rt, &run_line(rt, line, &mut desk)?);
    }
    let run = run_at(rt, case.line, &mut desk, gate)?;
    let out = joined(rt.alloc(), case.out)?;
    assert_left(rt, &run, case.status, out.as_str(), case.err, case.line);
    for left in case.left {
        check_left(rt, &desk, left, case.line)?;
    }
    Ok(())
}

/// Checks each case of a table.
pub fn check_cases<R: Abort + Threads + Wait + Sync + AllocGlobal>(
    rt: &R,
    cases: &[Case],
) -> Result<(), Fail> {
    for case in cases {
        check_case(rt, case)?;
    }
    Ok(())
}
