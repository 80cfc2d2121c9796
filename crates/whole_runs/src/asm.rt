//! `asm`, and what the other commands do with the images that it writes.
use crate::cases::{ASSEMBLE, CASE, Case, IMAGE, Left, check_case};
use crate::states::{CALL_STATE, ODD_EXIT_STATE, STATE, TAIL_JUMP_STATE};
use crate::texts::{ARGUMENT, CALL, FIBONACCI, ODD_EXIT, STRAIGHT_LINE, TAIL_JUMP};
use std::test::Fail;
use test_helpers::images::CALLS;

/// The place of the code in a file.
const CODE: usize = 64;

/// The code of texts. The bytes are those of the processor's manual; sleds and places are worked by hand.
const ODD_EXIT_CODE: &[u8] = &[
    0xEB, 0x09, 0x66, 0x0F, 0x1F, 0x84, 0x00, 0x00, 0x02, 0x00, 0x00, 0xE6, 0x00, 0x90, //
    0xC3, 0x2E, 0x66, 0x0F, 0x1F, 0x84, 0x00, 0x00, 0x02, 0x00, 0x00, //
];

const TAIL_JUMP_CODE: &[u8] = &[
    0xEB, 0x09, 0x66, 0x0F, 0x1F, 0x84, 0x00, 0x00, 0x02, 0x00, 0x00, 0x90, //
    0xEB, 0x09, 0x66, 0x0F, 0x1F, 0x84, 0x00, 0x00, 0x02, 0x00, 0x00, //
    0xE9, 0x00, 0x00, 0x00, 0x00, //
    0xEB, 0x09, 0x66, 0x0F, 0x1F, 0x84, 0x00, 0x00, 0x02, 0x00, 0x00, 0x90, //
    0xC3, 0x2E, 0x66, 0x0F, 0x1F, 0x84, 0x00, 0x00, 0x02, 0x00, 0x00, //
];

const FIBONACCI_CODE: &[u8] = &[
    0xBF, 0x14, 0x00, 0x00, 0x00, 0xE8, 0x02, 0x00, 0x00, 0x00, 0xC3, 0x90, //
    0xEB, 0x09, 0x66, 0x0F, 0x1F, 0x84, 0x00, 0x00, 0x02, 0x00, 0x00, //
    0xB9, 0x00, 0x00, 0x00, 0x00, 0x48, 0x01, 0xCF, 0x0F, 0x85, 0x0C, 0x00, 0x00, 0x00, 0x90, //
    0xC3, 0x2E, 0x66, 0x0F, 0x1F, 0x84, 0x00, 0x00, 0x02, 0x00, 0x00, //
    0xB9, 0x01, 0x00, 0x00, 0x00, 0x48, 0x29, 0xCF, 0x0F, 0x85, 0x0E, 0x00, 0x00, 0x00, //
    0x48, 0x01, 0xC8, //
    0xC3, 0x2E, 0x66, 0x0F, 0x1F, 0x84, 0x00, 0x00, 0x02, 0x00, 0x00, //
    0x57, 0xE8, 0xB9, 0xFF, 0xFF, 0xFF, 0x5F, 0xB9, 0x01, 0x00, 0x00, 0x00, 0x48, 0x29, 0xCF, //
    0xE8, 0xAB, 0xFF, 0xFF, 0xFF, 0x90, //
    0xC3, 0x2E, 0x66, 0x0F, 0x1F, 0x84, 0x00, 0x00, 0x02, 0x00, 0x00, //
];

/// How thread 1 ends in the image of the recursive function.
const FIBONACCI_STATE: &str = "thread 1 returned instructions 213132 passings 43782\n\
    rax=1a6d rcx=0 rdx=0 rbx=0 rbp=0 rsi=0 rdi=0 r8=0 r9=0 r11=0 r12=0 r13=0 r14=0 r15=0 zf=1\n\
    output -\n";

/// The sled maps of the texts.
const STRAIGHT_LINE_MAP: &str = "---\n\
    - { id: 1, address: 0x0000000000001000, function: 0x0000000000001000, kind: function-enter, \
    always-instrument: true, function-name: 'main' }\n\
    - { id: 1, address: 0x0000000000001012, function: 0x0000000000001000, kind: function-exit, \
    always-instrument: true, function-name: 'main' }\n\
    ...\n";

const ODD_EXIT_MAP: &str = "---\n\
    - { id: 1, address: 0x0000000000001000, function: 0x0000000000001000, kind: function-enter, \
    always-instrument: true, function-name: 'main' }\n\
    - { id: 1, address: 0x000000000000100e, function: 0x0000000000001000, kind: function-exit, \
    always-instrument: true, function-name: 'main' }\n\
    ...\n";

const ARGUMENT_MAP: &str = "---\n\
    - { id: 1, address: 0x0000000000001000, function: 0x0000000000001000, kind: function-enter-arg, \
    always-instrument: true, function-name: 'main' }\n\
    - { id: 1, address: 0x000000000000100e, function: 0x0000000000001000, kind: function-exit, \
    always-instrument: true, function-name: 'main' }\n\
    ...\n";

const CALL_MAP: &str = "---\n\
    - { id: 1, address: 0x0000000000001000, function: 0x0000000000001000, kind: function-enter, \
    always-instrument: true, function-name: 'main' }\n\
    - { id: 1, address: 0x0000000000001010, function: 0x0000000000001000, kind: function-exit, \
    always-instrument: true, function-name: 'main' }\n\
    - { id: 2, address: 0x000000000000101c, function: 0x000000000000101c, kind: function-enter, \
    always-instrument: true, function-name: 'f' }\n\
    - { id: 2, address: 0x0000000000001028, function: 0x000000000000101c, kind: function-exit, \
    always-instrument: true, function-name: 'f' }\n\
    ...\n";

const TAIL_JUMP_MAP: &str = "---\n\
    - { id: 1, address: 0x0000000000001000, function: 0x0000000000001000, kind: function-enter, \
    always-instrument: true, function-name: 'a' }\n\
    - { id: 1, address: 0x000000000000100c, function: 0x0000000000001000, kind: tail-exit, \
    always-instrument: true, function-name: 'a' }\n\
    - { id: 2, address: 0x000000000000101c, function: 0x000000000000101c, kind: function-enter, \
    always-instrument: true, function-name: 'b' }\n\
    - { id: 2, address: 0x0000000000001028, function: 0x000000000000101c, kind: function-exit, \
    always-instrument: true, function-name: 'b' }\n\
    ...\n";

const FIBONACCI_MAP: &str = "---\n\
    - { id: 1, address: 0x000000000000100c, function: 0x000000000000100c, kind: function-enter, \
    always-instrument: true, function-name: 'fib' }\n\
    - { id: 1, address: 0x0000000000001026, function: 0x000000000000100c, kind: function-exit, \
    always-instrument: true, function-name: 'fib' }\n\
    - { id: 1, address: 0x0000000000001042, function: 0x000000000000100c, kind: function-exit, \
    always-instrument: true, function-name: 'fib' }\n\
    - { id: 1, address: 0x0000000000001062, function: 0x000000000000100c, kind: function-exit, \
    always-instrument: true, function-name: 'fib' }\n\
    ...\n";

/// The map of the straight line with relative addresses, which is at the end of its image.
const RELATIVE_MAP: &[u8] = &[
    0x00, 0x00, 0xF0, 0xFF, 0xFF, 0xFF, 0xFF, 0xFF, 0xF8, 0xFF, 0xEF, 0xFF, 0xFF, 0xFF, 0xFF, 0xFF,
    0, 1, 2, 0, 0, 0, 0, 0, 0, 0, 0, 0, 0, 0, 0, 0, //
    0xF2, 0xFF, 0xEF, 0xFF, 0xFF, 0xFF, 0xFF, 0xFF, 0xD8, 0xFF, 0xEF, 0xFF, 0xFF, 0xFF, 0xFF, 0xFF,
    1, 1, 2, 0, 0, 0, 0, 0, 0, 0, 0, 0, 0, 0, 0, 0, //
];

/// A text and what its image is: what `plain` prints of it, where some bytes are in it, what `extract` prints of it.
struct Assembled<'r> {
    text: &'r [u8],
    state: &'r str,
    image: Left<'r>,
    map: &'r str,
}

const ASSEMBLED: [Assembled; 6] = [
    Assembled {
        text: STRAIGHT_LINE,
        state: STATE,
        image: ("i", 0, &[&IMAGE], 0),
        map: STRAIGHT_LINE_MAP,
    },
    Assembled {
        text: ODD_EXIT,
        state: ODD_EXIT_STATE,
        image: ("i", CODE, &[ODD_EXIT_CODE], 77),
        map: ODD_EXIT_MAP,
    },
    Assembled {
        text: ARGUMENT,
        state: ODD_EXIT_STATE,
        image: ("i", CODE, &[ODD_EXIT_CODE], 77),
        map: ARGUMENT_MAP,
    },
    Assembled {
        text: CALL,
        state: CALL_STATE,
        image: ("i", 0, &[&CALLS], 0),
        map: CALL_MAP,
    },
    Assembled {
        text: TAIL_JUMP,
        state: TAIL_JUMP_STATE,
        image: ("i", CODE, &[TAIL_JUMP_CODE], 148),
        map: TAIL_JUMP_MAP,
    },
    Assembled {
        text: FIBONACCI,
        state: FIBONACCI_STATE,
        image: ("i", CODE, &[FIBONACCI_CODE], 153),
        map: FIBONACCI_MAP,
    },
];

#[test]
fn texts_become_images_that_run_and_have_their_sleds(rt: HostRuntime) -> Result<(), Fail> {
    for assembled in &ASSEMBLED {
        let case = Case {
            files: &[("x", &[assembled.text])],
            before: ASSEMBLE,
            line: "plain i",
            out: &[assembled.state],
            left: &[assembled.image],
            ..CASE
        };
        check_case(&rt, &case)?;
    }
    Ok(())
}

/// The lines that assemble the text `x` with addresses of each kind in the sled map.
const EACH_MAP: [&[&str]; 2] = [ASSEMBLE, &["asm x --map-version=2 i"]];

#[test]
fn images_have_their_sleds_whatever_their_addresses(rt: HostRuntime) -> Result<(), Fail> {
    for before in &EACH_MAP {
        for assembled in &ASSEMBLED {
            let case = Case {
                files: &[("x", &[assembled.text])],
                before,
                line: "extract i",
                out: &[assembled.map],
                ..CASE
            };
            check_case(&rt, &case)?;
        }
    }
    Ok(())
}

/// Texts, lines that assemble them, and what is in the image.
const OPTIONS: [(&[u8], &str, Left); 6] = [
    (
        STRAIGHT_LINE,
        "asm x i --map-version 2",
        ("i", 106, &[RELATIVE_MAP], 0),
    ),
    // The threshold is a number of instruction lines.
    (RETURNS, "asm x i", ("i", 0, &[b"XRIM"], 157)),
    (RETURNS, "asm x --threshold 0 i", ("i", 0, &[b"XRIM"], 157)),
    (
        RETURNS,
        "asm --threshold=+01 x i",
        ("i", 0, &[b"XRIM"], 157),
    ),
    (RETURNS, "asm x i --threshold 2", ("i", 0, &[b"XRIM"], 71)),
    (
        RETURNS,
        "asm --threshold=4294967295 -- x i",
        ("i", 0, &[b"XRIM"], 71),
    ),
];

/// A function with one instruction line.
const RETURNS: &[u8] = b"fn a\nret\n";

#[test]
fn images_are_as_the_options_ask(rt: HostRuntime) -> Result<(), Fail> {
    for (text, line, left) in &OPTIONS {
        let case = Case {
            files: &[("x", &[*text])],
            line,
            left: &[*left],
            ..CASE
        };
        check_case(&rt, &case)?;
    }
    Ok(())
}

/// Texts, and the lines on err.
const REFUSALS: [(&[u8], &str); 30] = [
    (b"", "xray: t: text Syntax 1\n"),
    (b"mov eax, 1", "xray: t: text Syntax 1\n"),
    (b"fn a", "xray: t: text Syntax 2\n"),
    (b"fn a\n", "xray: t: text Syntax 2\n"),
    (b"fn a\nfn b\nret", "xray: t: text Syntax 2\n"),
    (b"fn a\nret\nbase 16", "xray: t: text Syntax 3\n"),
    (b"base 16\nbase 16\nfn a\nret", "xray: t: text Syntax 2\n"),
    (b"entry a\nentry a\nfn a\nret", "xray: t: text Syntax 2\n"),
    (b"x:\nfn a\nret", "xray: t: text Syntax 1\n"),
    (b"fn a arg\nret", "xray: t: text Syntax 1\n"),
    (b"fn a\nmov eax,1\nret", "xray: t: text Syntax 2\n"),
    (b"fn a\nout 0X1\nret", "xray: t: text Syntax 2\n"),
    (
        b"fn a\nout 18446744073709551616",
        "xray: t: text Syntax 2\n",
    ),
    (b"fn 1a\nret", "xray: t: text Syntax 1\n"),
    (b"fn a\nb: ret", "xray: t: text Syntax 2\n"),
    (b"fn a\nret\r", "xray: t: text Syntax 2\n"),
    (b"mov r10d, 1", "xray: t: text Syntax 1\n"),
    (b"fn a\nmov r10d, 1\nret", "xray: t: text Register 2\n"),
    (
        b"fn a\nmov r10d, 99999999999\nret",
        "xray: t: text Register 2\n",
    ),
    (b"fn a\nadd rax, esp\nret", "xray: t: text Register 2\n"),
    (b"base 0x1001\nfn a\nret", "xray: t: text Range 1\n"),
    (b"base 0x7FFF00000010\nfn a\nret", "xray: t: text Range 1\n"),
    (b"fn a\nout 256\nret", "xray: t: text Range 2\n"),
    (
        b"fn a\nmov eax, 0x100000000\nret",
        "xray: t: text Range 2\n",
    ),
    (b"fn a\nret\nfn a\nret", "xray: t: text Repeat 3\n"),
    (b"fn a\nret\na:\nret", "xray: t: text Repeat 3\n"),
    (b"fn a\njmp b\nret", "xray: t: text Label 2\n"),
    (b"fn a\ntailjmp b\nret", "xray: t: text Label 2\n"),
    (b"entry b\nfn a\nb:\nret", "xray: t: text Label 1\n"),
    (b"fn a\njmp b\nret\nb:", "xray: t: text Label 4\n"),
];

/// An image that was there before is there after a refusal.
const KEPT: &[Left] = &[("i", 0, &[b"old"], 0)];

#[test]
fn a_refused_text_leaves_the_image_that_was_there(rt: HostRuntime) -> Result<(), Fail> {
    for (text, err) in &REFUSALS {
        let case = Case {
            files: &[("t", &[*text]), ("i", &[b"old"])],
            line: "asm t i",
            status: 2,
            err,
            left: KEPT,
            ..CASE
        };
        check_case(&rt, &case)?;
    }
    Ok(())
}
