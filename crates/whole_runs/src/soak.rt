//! `soak`: what it prints of a number, and the inputs that it draws.
use crate::cases::{CASE, Case, check_cases};
use std::test::Fail;
use xray_program::soak_inputs;

/// What `tools/model/soak_model.py` says for seed 1.
const SUMMARY_OF_1: &str = "soak 1\n\
    thread 1 returned passings 37324 recorded 402 first 0\n\
    thread 2 returned passings 37324 recorded 492 first 0\n\
    thread 3 returned passings 37324 recorded 464 first 0\n\
    thread 4 returned passings 37324 recorded 694 first 0\n\
    recycled 0\n\
    trace 16912\n\
    pairs 935 entries 128 exits 54\n";

const CASES: [Case; 2] = [
    Case {
        line: "soak 1",
        out: &[SUMMARY_OF_1],
        ..CASE
    },
    Case {
        line: "soak +01",
        out: &[SUMMARY_OF_1],
        ..CASE
    },
];

#[test]
fn a_number_has_the_same_summary_in_each_run(rt: HostRuntime) -> Result<(), Fail> {
    check_cases(&rt, &CASES)
}

/// The first lines of the text of seed 0, by the model of `soak_inputs`. The first function has two
/// rounds.
const TEXT_OF_0: &[u8] = b"base 0x1000\nfn f0 always\nmov eax, 17\nout 1\ncall f1\n\
    mov eax, 109\nout 1\ncall f1\nret\nfn f1 always\n";

#[test]
fn the_inputs_of_a_number_are_given(rt: HostRuntime) -> Result<(), Fail> {
    let (text, script, schedule) = soak_inputs(rt.alloc(), 0)?;
    assert!(rt; text.starts_with(TEXT_OF_0));
    assert!(rt; script.starts_with(b"patch\nset_handler\ninit\ngo\n"));
    assert!(rt; schedule.starts_with(b"t 2 131\nt 4 20\n"));
    Ok(())
}
