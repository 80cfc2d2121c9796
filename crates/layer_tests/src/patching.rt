//! Calls of `sled_patch`: runs of scripts over the table of an image with one function that prints
//! an A. `whole_runs` has threads that run beside a script.

use crate::checks::{check_same, check_same_list};
use crate::code_table::begin;
use sled_patch::{run_prefix, run_script};
use sled_words::code_bytes;
use std::process::Abort;
use std::sync::Wait;
use std::test::Fail;
use test_helpers::images::OUTPUTS_AN_A;
use xray_image::read_image;
use xray_io::OpenGate;

/// The code that a script for one thread leaves of [`OUTPUTS_AN_A`], if it makes this many stores.
fn code_after<R: Abort + Wait + AllocGlobal>(
    rt: &R,
    text: &[u8],
    stores: u64,
) -> Result<Vec<u8>, Fail> {
    let image = read_image(rt.alloc(), &OUTPUTS_AN_A)?;
    let (table, mut seat) = begin(rt, &image, text)?;
    assert!(rt; table.word_count() == 13);
    run_prefix(&table, &mut seat);
    run_script(rt, &table, &mut seat, &OpenGate);
    assert!(rt; seat.place() == stores);
    let mut last = [0; 13];
    table.close(seat, &mut last);
    Ok(code_bytes(rt.alloc(), &image, &last)?)
}

/// A sled that was patched keeps the bytes after its head. A sled that never was stays as it was.
#[test]
fn unpatching_leaves_the_head_and_the_bytes_that_follow(rt: HostRuntime) -> Result<(), Fail> {
    let code = code_after(&rt, b"patch\nunpatch\ngo\n", 10)?;
    let bytes = [
        0xEB, 0x09, 1, 0, 0, 0, 0xE8, 0xF5, 0xFF, 0x1F, 0, 0xB8, 0x41, 0, 0, 0, 0xE6, 0x01, 0xC3,
        0xBA, 1, 0, 0, 0, 0xE9, 0xF3, 0xFF, 0x1F, 0,
    ];
    check_same_list(&rt, code.as_slice(), bytes.as_slice());
    let code = code_after(&rt, b"go\nunpatch\n", 2)?;
    check_same(&rt, &Some(code.as_slice()), &OUTPUTS_AN_A.get(64..93));
    Ok(())
}
