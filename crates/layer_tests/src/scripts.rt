//! Calls of `patch_script`: the micro steps of a script for one small image. `whole_runs` has
//! refusals.

use crate::checks::check_same;
use patch_script::*;
use std::alloc::Global;
use std::test::Fail;
use test_helpers::images::OUTPUTS_AN_A;
use text_lines::count_lines;
use xray_image::{Image, read_image};

/// The script of a text with fewer than 2,000 lines, for one thread.
fn script_of(alloc: Global, text: &[u8], image: &Image) -> Result<Script, ScriptFault> {
    if count_lines(text) > 2_000 {
        return Err(ScriptFault::NoMemory);
    }
    read_script(alloc, text, image, 1)
}

/// The micro step of a store.
fn store(word: u32, value: u64) -> Micro {
    Micro::Store { word, value }
}

#[test]
fn micro_steps_are_found_by_their_places(rt: HostRuntime) -> Result<(), Fail> {
    let image = read_image(rt.alloc(), &OUTPUTS_AN_A)?;
    let text =
        b"unpatch\nhold 1 2\npatch\nset_handler\nset_arg_handler\ninit\ngo\nawait 1 2\nrelease 1\n\
        unpatch_function 1\nremove_arg_handler\n";
    let script = script_of(rt.alloc(), text, &image)?;
    let steps = [
        store(0, 0x09EB),
        store(4, 0x2EC3),
        store(1, 1),
        store(2, 0xE8),
        store(3, 0x1F_FFF5),
        store(0, 0xBA41),
        store(5, 1),
        store(6, 0xE9),
        store(7, 0x1F_FFF3),
        store(4, 0xBA41),
        store(8, 1),
        store(12, 1),
        store(9, 1),
        store(9, 2),
        Micro::Await {
            thread: 1,
            count: 2,
        },
        store(10, 1),
        store(0, 0x09EB),
        store(4, 0xBAC3),
        store(12, 0),
        Micro::End,
    ];
    for (place, expected) in steps.iter().enumerate() {
        check_same(&rt, &(script.micro(place as u64)), expected);
    }
    check_same(&rt, &script.start(), &14);
    check_same(&rt, &script.total(), &19);
    check_same(&rt, &script.hold_of(1), &Some(2));
    check_same(&rt, &script.hold_of(2), &None);
    check_same(&rt, &script.waits(), &Some(2));
    Ok(())
}
