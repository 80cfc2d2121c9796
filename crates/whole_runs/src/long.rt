//! Inputs of many equal parts: limits, and what is above them.
use crate::cases::{CASE, Case, I, check_case};
use crate::states::STATE;
use crate::texts::SIM;
use std::test::Fail;
use test_helpers::trace_parts::{CPU, HEADER, PREAMBLE, file};

/// Words, an input, its first parts, a part that comes then and how often, the status, the parts of the text on out,
/// and the line on err.
type Long = (
    &'static str,
    &'static str,
    &'static [&'static [u8]],
    (&'static str, usize),
    u8,
    &'static [&'static str],
    &'static str,
);

const LONG: [Long; 10] = [
    // The last head is that of the exit sled. There may be 1,024 commands.
    (
        SIM,
        "s",
        &[b"go\n"],
        ("patch\n", 1023),
        0,
        &[STATE, "marks .1 n1\n"],
        "",
    ),
    (
        SIM,
        "s",
        &[],
        ("patch\n", 1025),
        2,
        &[],
        "xray: s: script Limit 1025\n",
    ),
    (
        SIM,
        "c",
        &[],
        ("p 0\n", 1_048_577),
        2,
        &[],
        "xray: c: schedule Limit\n",
    ),
    (
        SIM,
        "s",
        &[],
        ("\n", 1_048_577),
        6,
        &[],
        "xray: s: too long\n",
    ),
    (
        "plain i",
        "i",
        &[],
        ("-", 4_194_305),
        6,
        &[],
        "xray: i: too long\n",
    ),
    (
        "asm x o",
        "x",
        &[b"fn a\n"],
        ("ret\n", 4096),
        2,
        &[],
        "xray: x: text Limit 4097\n",
    ),
    // A text may have 4,194,304 bytes.
    (
        "asm x o",
        "x",
        &[b"fn a\nret\n#"],
        ("-", 4_194_294),
        0,
        &[],
        "",
    ),
    (
        "asm x o",
        "x",
        &[b"fn a\nret\n#"],
        ("-", 4_194_295),
        6,
        &[],
        "xray: x: too long\n",
    ),
    // A thread may have 4,096 open calls.
    (
        "stack t --format flame",
        "t",
        &[
            HEADER,
            b"\x0F\x40\x80\0\0\0\0\0\0\0\0\0\0\0\0\0",
            PREAMBLE,
            CPU,
        ],
        ("\x10\0\0\0\0\0\0\0", 4096),
        0,
        &[],
        "",
    ),
    (
        "stack t --format flame",
        "t",
        &[
            HEADER,
            b"\x0F\x48\x80\0\0\0\0\0\0\0\0\0\0\0\0\0",
            PREAMBLE,
            CPU,
        ],
        ("\x10\0\0\0\0\0\0\0", 4097),
        2,
        &[],
        "xray: t: trace Deep 1\n",
    ),
];

#[test]
fn inputs_have_limits(rt: HostRuntime) -> Result<(), Fail> {
    for (line, name, parts, (part, count), status, out, err) in &LONG {
        let first = file(rt.alloc(), parts)?;
        let rest = part.repeat(rt.alloc(), *count)?;
        let case = Case {
            files: &[
                I,
                ("s", &[b"go\n"]),
                ("c", &[b"t 1 1\np 8184"]),
                (*name, &[&first, rest.as_bytes()]),
            ],
            line,
            status: *status,
            out,
            err,
            ..CASE
        };
        check_case(&rt, &case)?;
    }
    Ok(())
}
