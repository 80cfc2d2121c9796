//! Calls of `machine_step`: an image for each end of a thread. `whole_runs` has what is printed of
//! threads.

use crate::checks::check_same_at;
use crate::image_files::image_file;
use crate::setups::DEFAULT_LIMITS;
use machine_step::{End, Limits, Steps, one_end, plain_run, some_end};
use std::test::Fail;
use xray_image::read_image;

mod traced;

/// How thread 1 ends in an image with only this code, and how many instructions it makes.
fn end_of(rt: &HostRuntime, code: &[u8], fuel: u64) -> Result<(End, u64), Fail> {
    let limits = Limits {
        fuel,
        ..DEFAULT_LIMITS
    };
    let file = image_file(rt.alloc(), code, &[(0x1000, "f")], &[])?;
    let image = read_image(rt.alloc(), &file)?;
    let steps = Steps::new(rt.alloc(), &image)?;
    let end = plain_run(rt.alloc(), &steps, 1, limits)?;
    Ok((end.end, end.instructions))
}

/// Code, fuel, and the end and the instructions of thread 1.
const ENDS: [(&[u8], u64, End, u64); 8] = [
    // ret
    (&[0xC3], 1, End::Returned, 1),
    (&[0xC3], 0, End::Fuel, 0),
    // pop rax
    (&[0x58], 1, End::StackEmpty, 0),
    // f: call f
    (
        &[0xE8, 0xFB, 0xFF, 0xFF, 0xFF],
        65_537,
        End::StackFull,
        65_536,
    ),
    (&[0xE8, 0xFB, 0xFF, 0xFF, 0xFF], 65_536, End::Fuel, 65_536),
    // f: out 1, al; jmp f
    (
        &[0xE6, 0x01, 0xE9, 0xF9, 0xFF, 0xFF, 0xFF],
        131_073,
        End::OutputFull,
        131_072,
    ),
    // mov ecx, 0x1001; push rcx; ret
    (&[0xB9, 0x01, 0x10, 0, 0, 0x51, 0xC3], 3, End::BadTarget, 3),
    // mov eax, 0x41
    (&[0xB8, 0x41, 0, 0, 0], 1, End::BadTarget, 1),
];

#[test]
fn each_end_comes_where_its_rule_says(rt: HostRuntime) -> Result<(), Fail> {
    one_end();
    some_end();
    for (code, fuel, end, instructions) in &ENDS {
        let found = end_of(&rt, code, *fuel)?;
        check_same_at(&rt, &found, &(*end, *instructions), code);
    }
    Ok(())
}
