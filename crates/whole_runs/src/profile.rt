//! `profile`: the stacks of threads that run beside a script, and recorders that stop.
use crate::cases::{ASSEMBLE, CASE, Case, check_cases};
use crate::states::{CALL_STATE, SECOND_CALL_STATE, TAIL_JUMP_STATE, TWO_CALLS_STATE};
use crate::texts::{BOTH, CALL, HELD, TAIL_JUMP, TRACED, TWO_CALLS};
use std::test::Fail;

/// The rows of `main`, which calls `f` once.
const ROWS: &str = "     count        sum       self stack\n         \
    1          2          2 main\n         1          0          0 main;f\n";

/// A function that calls itself without an end.
const ENDLESS: &[u8] = b"fn f always\n    call f\n    ret\n";

/// What is printed of a thread that has come to the limit of its calls, each of which was recorded.
const AT_4096: &str = "thread 1 passings instructions 4096 passings 4096\n\
    rax=0 rcx=0 rdx=0 rbx=0 rbp=0 rsi=0 rdi=1 r8=0 r9=0 r11=0 r12=0 r13=0 r14=0 r15=0 zf=0\n\
    output -\nmarks +4096\n";

/// The same of one call more.
const AT_4097: &str = "thread 1 passings instructions 4097 passings 4097\n\
    rax=0 rcx=0 rdx=0 rbx=0 rbp=0 rsi=0 rdi=1 r8=0 r9=0 r11=0 r12=0 r13=0 r14=0 r15=0 zf=0\n\
    output -\nmarks +4097\n";

/// The flame graph of `main`, which calls `f`, as `flame_model.py` has it.
const PICTURE: &str = "\
    <svg xmlns=\"http://www.w3.org/2000/svg\" width=\"1200\" height=\"112\" viewBox=\"0 0 1200 112\" \
    font-family=\"monospace\" font-size=\"12\">\n\
    <rect width=\"1200\" height=\"112\" fill=\"#f8f4e4\"/>\n\
    <text x=\"600\" y=\"28\" font-size=\"17\" text-anchor=\"middle\">Flame graph: 2 cycles</text>\n\
    <g><title>main: count 1, sum 2, self 2</title><rect x=\"10.000\" y=\"64\" width=\"1180.000\" \
    height=\"15\" rx=\"2\" fill=\"rgb(236,189,37)\"/><text x=\"13.000\" y=\"76\">main</text></g>\n\
    <text x=\"10\" y=\"100\">Frames narrower than 0.1 pixels, which are left out: 1</text>\n\
    </svg>\n";

/// Calls `f` twice.
const CALLED_TWICE: &[u8] = b"base 0x1000\nfn main always\ncall f\ncall f\nret\nfn f always\nret\n";

/// What is printed of its thread.
const CALLED_TWICE_STATE: &str = "thread 1 returned instructions 5 passings 6\n\
    rax=0 rcx=0 rdx=0 rbx=0 rbp=0 rsi=0 rdi=1 r8=0 r9=0 r11=0 r12=0 r13=0 r14=0 r15=0 zf=0\n\
    output -\n";

const CASES: [Case; 16] = [
    Case {
        files: &[("x", &[CALL]), ("s", &[TRACED])],
        before: ASSEMBLE,
        line: "profile i s --format flame",
        out: &[CALL_STATE, "marks +4\n", "main 2\nmain;f 0\n"],
        ..CASE
    },
    Case {
        files: &[("x", &[CALL]), ("s", &[TRACED])],
        before: ASSEMBLE,
        line: "profile i s",
        out: &[CALL_STATE, "marks +4\n", ROWS],
        ..CASE
    },
    Case {
        files: &[("x", &[CALL]), ("s", &[TRACED])],
        before: ASSEMBLE,
        line: "profile i s --format svg",
        out: &["<!--\n", CALL_STATE, "marks +4\n", "-->\n", PICTURE],
        ..CASE
    },
    Case {
        files: &[("x", &[CALL]), ("s", &[TRACED])],
        before: ASSEMBLE,
        line: "profile i s --threads 2 --format flame",
        out: &[
            CALL_STATE,
            "marks +4\n",
            SECOND_CALL_STATE,
            "marks +4\n",
            "main 4\nmain;f 0\n",
        ],
        ..CASE
    },
    // Two paths are opened: there are nodes for both, or for one.
    Case {
        files: &[("x", &[CALL]), ("s", &[TRACED])],
        before: ASSEMBLE,
        line: "profile i s --nodes 2 --format flame",
        out: &[CALL_STATE, "marks +4\n", "main 2\nmain;f 0\n"],
        ..CASE
    },
    Case {
        files: &[("x", &[CALL]), ("s", &[TRACED])],
        before: ASSEMBLE,
        line: "profile i s --nodes 1",
        status: 7,
        out: &[CALL_STATE, "marks +4\n"],
        err: "xray: profile: full 1\n",
        ..CASE
    },
    // Both recorders stop, and the lesser thread is named.
    Case {
        files: &[("x", &[CALL]), ("s", &[TRACED])],
        before: ASSEMBLE,
        line: "profile i s --nodes 1 --threads 2",
        status: 7,
        out: &[CALL_STATE, "marks +4\n", SECOND_CALL_STATE, "marks +4\n"],
        err: "xray: profile: full 1\n",
        ..CASE
    },
    Case {
        files: &[("x", &[CALL]), ("s", &[b"go\n"])],
        before: ASSEMBLE,
        line: "profile i s --format flame",
        out: &[CALL_STATE, "marks .4\n"],
        ..CASE
    },
    // Each call opens a path of its own, and none ends. So there are no rows.
    Case {
        files: &[("x", &[ENDLESS]), ("s", &[TRACED])],
        before: ASSEMBLE,
        line: "profile i s --passings 4096 --format flame",
        out: &[AT_4096],
        ..CASE
    },
    Case {
        files: &[("x", &[ENDLESS]), ("s", &[TRACED])],
        before: ASSEMBLE,
        line: "profile i s --passings 4096 --nodes 4095",
        status: 7,
        out: &[AT_4096],
        err: "xray: profile: full 1\n",
        ..CASE
    },
    // One entry is too deep and has no node: it counts as too deep.
    Case {
        files: &[("x", &[ENDLESS]), ("s", &[TRACED])],
        before: ASSEMBLE,
        line: "profile i s --passings 4097",
        status: 7,
        out: &[AT_4097],
        err: "xray: profile: deep 1\n",
        ..CASE
    },
    Case {
        files: &[("x", &[ENDLESS]), ("s", &[TRACED])],
        before: ASSEMBLE,
        line: "profile i s --passings 4097 --nodes 8192",
        status: 7,
        out: &[AT_4097],
        err: "xray: profile: deep 1\n",
        ..CASE
    },
    // A tail exit ends the call of its function.
    Case {
        files: &[("x", &[TAIL_JUMP]), ("s", &[TRACED])],
        before: ASSEMBLE,
        line: "profile i s --format flame",
        out: &[TAIL_JUMP_STATE, "marks +4\na 0\nb 0\n"],
        ..CASE
    },
    // The counter wraps within a call.
    Case {
        files: &[("x", &[CALL]), ("s", &[TRACED])],
        before: ASSEMBLE,
        line: "profile i s --format flame --tsc 18446744073709551615",
        out: &[CALL_STATE, "marks +4\n", "main 2\nmain;f 0\n"],
        ..CASE
    },
    // Each entry of a function logs its argument.
    Case {
        files: &[("x", &[TWO_CALLS]), ("s", &[BOTH])],
        before: ASSEMBLE,
        line: "profile i s --format flame",
        out: &[TWO_CALLS_STATE, "marks a1 +1 a1 +1\nf 2\n"],
        ..CASE
    },
    // The sleds are patched in the middle of the first call: its exit is recorded and its entry isn't.
    Case {
        files: &[("x", &[CALLED_TWICE]), ("s", &[HELD])],
        before: ASSEMBLE,
        line: "profile i s --format flame",
        out: &[CALLED_TWICE_STATE, "marks .2 +4\nf 0\n"],
        ..CASE
    },
];

#[test]
fn threads_are_profiled_as_their_words_ask(rt: HostRuntime) -> Result<(), Fail> {
    check_cases(&rt, &CASES)
}
