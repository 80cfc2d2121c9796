//! A call of `step_sim`, and of `write_audit` of `trace_flush`. `whole_runs` has replays of each kind.

use crate::checks::{check_same, check_same_list};
use crate::setups::DEFAULT_SETUP;
use machine_step::{Cpu, End, Steps, Want};
use patch_script::read_script;
use std::test::Fail;
use step_sim::{read_schedule, simulate};
use test_helpers::images::OUTPUTS_AN_A;
use text_lines::count_lines;
use trace_flush::write_audit;
use xray_image::read_image;
use xray_io::MemSink;

/// The script that traces everything from before the start.
const TRACED: &[u8] = b"patch\nset_handler\ninit\ngo";

#[test]
fn a_thread_of_a_replay_returns(rt: HostRuntime) -> Result<(), Fail> {
    let alloc = rt.alloc();
    let image = read_image(alloc, &OUTPUTS_AN_A)?;
    let steps = Steps::new(alloc, &image)?;
    assert!(rt; count_lines(TRACED) < 100);
    let script = read_script(alloc, TRACED, &image, 1)?;
    let schedule = read_schedule(alloc, b"t 1 2\n", 1)?;
    let end = simulate(alloc, &steps, &script, &schedule, &DEFAULT_SETUP)?;
    let returned = |cpu: &Cpu| matches!(cpu.want(), Want::Done(End::Returned));
    check_same(&rt, &end.cpus.len(), &1);
    assert!(rt; end.cpus.iter().all(returned));
    Ok(())
}

#[test]
fn an_audit_without_threads_has_its_setup(rt: HostRuntime) -> Result<(), Fail> {
    let mut sink = MemSink::new(rt.alloc(), Vec::new(rt.alloc()));
    write_audit(&DEFAULT_SETUP, &[], &[], &mut sink)?;
    let wanted = b"xray-audit 1\n\
        threads=1 buffer-size=16384 buffer-max=100 fuel=10000000 passings=1048576 tick=1 tsc=0 cpus=1 \
        migrate=1048576 pid=1 wall=0.0 frequency=0\n\
        recycled 0\n";
    check_same_list(&rt, sink.bytes(), wanted);
    Ok(())
}
