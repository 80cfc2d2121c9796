//! The order of a run of one thread that waited.

use crate::checks::check_same_list;
use audit_check::read_audit;
use patch_script::read_script;
use run_order::order_run;
use std::process::Abort;
use std::test::Fail;
use step_sim::Turns;
use test_helpers::images::OUTPUTS_AN_A;
use text_lines::count_lines;
use xray_image::read_image;

/// The thread is held before its second passing until both sleds are patched.
const SCRIPT: &[u8] = b"set_handler\ninit\nhold 1 1\ngo\nawait 1 1\npatch\nrelease 1\n";

/// The audit of each run of `OUTPUTS_AN_A` beside this script.
const AUDIT: &[u8] =
    b"xray-audit 1\nthreads=1 buffer-size=16384 buffer-max=100 fuel=10000000 passings=1048576 tick=1 tsc=0 cpus=1 migrate=1048576 pid=1 wall=0.0 frequency=0\nthread 1 returned passings 2 recorded 1 segments 1 first 0\nmarks .1 +1\nrecycled 0\n";

/// One load of the entry sled's head, the eight stores of `patch`, and the loads of the exit sled.
const TURNS: [Turns; 3] = [
    Turns::Thread {
        thread: 1,
        count: 1,
    },
    Turns::Patcher { count: 8 },
    Turns::Thread {
        thread: 1,
        count: 6,
    },
];

#[test]
fn an_order_has_the_turns_of_its_run(rt: HostRuntime) -> Result<(), Fail> {
    let alloc = rt.alloc();
    let image = read_image(alloc, &OUTPUTS_AN_A)?;
    let audit = read_audit(alloc, AUDIT)?;
    assert!(rt; count_lines(SCRIPT) < 100);
    let script = read_script(alloc, SCRIPT, &image, audit.setup.threads)?;
    let order = order_run(alloc, &image, &script, &audit)?;
    check_same_list(&rt, order.lines(), &TURNS);
    Ok(())
}
