//! Calls of `machine_step`: traced threads, load by load.

use crate::checks::check_same;
use crate::passings::{ENTRY, EXIT, HAS_ENDED, Load, NO_HANDLER, RECORDS, pass};
use crate::setups::DEFAULT_LIMITS;
use fdr_record::{Event, Kind};
use machine_step::{Cpu, End, Limits, Steps, Want};
use std::alloc::Global;
use std::process::Abort;
use std::test::Fail;
use test_helpers::images::OUTPUTS_AN_A;
use xray_image::read_image;
use xray_io::{MemSink, write_text};

/// The entry into function 1 at counter 0, and the exit at counter 2, on processor 0.
const ENTERED: Event = Event {
    cpu: 0,
    func: 1,
    kind: Kind::Entry,
    tsc: 0,
    arg: 0,
};

const LEFT: Event = Event {
    cpu: 0,
    func: 1,
    kind: Kind::Exit,
    tsc: 2,
    arg: 0,
};

/// Loads of a thread, and the events that come of them.
type Loaded = (&'static [Load], Option<Event>);

/// The loads of threads that return, with their events, and then their marks.
const RETURNED: [(&[Loaded], &[u8]); 3] = [
    // Both sleds are patched, and the passings recorded.
    (
        &[
            (&ENTRY, None),
            (&RECORDS, Some(ENTERED)),
            (&EXIT, None),
            (&RECORDS, Some(LEFT)),
        ],
        b"+2\n",
    ),
    // There is no handler, and then a log that has ended.
    (
        &[
            (&ENTRY, None),
            (&NO_HANDLER, None),
            (&EXIT, None),
            (&HAS_ENDED, None),
        ],
        b"n1 f1\n",
    ),
    // The sleds are unpatched.
    (&[(&[(0, 0x09EB)], None), (&[(4, 0xBAC3)], None)], b".2\n"),
];

/// The text of these threads, up to their marks.
const STATE: &[u8] = b"thread 1 returned instructions 3 passings 2\n\
    rax=41 rcx=0 rdx=0 rbx=0 rbp=0 rsi=0 rdi=1 r8=0 r9=0 r11=0 r12=0 r13=0 r14=0 r15=0 zf=0\n\
    output 41\nmarks ";

/// The text of a thread that has ended.
fn text_of(alloc: Global, cpu: &Cpu) -> Result<MemSink, Fail> {
    let mut sink = MemSink::new(alloc, Vec::new(alloc));
    if let Want::Done(_) = cpu.want() {
        write_text(cpu, &mut sink)?;
    }
    Ok(sink)
}

/// Checks the events and the marks of a thread that makes these loads.
fn check_returned(
    rt: &impl Abort,
    alloc: Global,
    steps: &Steps,
    loaded: &[Loaded],
    marks: &[u8],
) -> Result<(), Fail> {
    let mut cpu = Cpu::new(alloc, steps, 1, 1, None, DEFAULT_LIMITS)?;
    for (loads, event) in loaded {
        check_same(rt, &pass(&mut cpu, loads)?, event);
    }
    let text = text_of(alloc, &cpu)?;
    check_same(rt, &text.bytes().strip_prefix(STATE), &Some(marks));
    Ok(())
}

/// Checks the loads of a thread that is held. Two sleds have eight words. The handler's word follows
/// them, then the state's, and then the release words of thread 1 and thread 2.
fn check_held(rt: &impl Abort, alloc: Global, steps: &Steps) -> Result<(), Fail> {
    let limits = Limits {
        passings: 1,
        ..DEFAULT_LIMITS
    };
    let mut cpu = Cpu::new(alloc, steps, 2, 3, Some(0), limits)?;
    pass(&mut cpu, &[(11, 0), (11, 0), (11, 1)])?;
    // The head of an exit sled isn't allowed in an entry sled.
    if let Want::Load(_) = cpu.want() {
        assert!(rt; !cpu.allowed(0x2EC3));
    }
    check_same(rt, &pass(&mut cpu, &[(0, 0x09EB)])?, &None);
    check_same(rt, &cpu.want(), &Want::Done(End::Passings));
    Ok(())
}

#[test]
fn each_value_leads_to_its_event_its_mark_or_its_release(rt: HostRuntime) -> Result<(), Fail> {
    let image = read_image(rt.alloc(), &OUTPUTS_AN_A)?;
    let steps = Steps::new(rt.alloc(), &image)?;
    for (loaded, marks) in &RETURNED {
        check_returned(&rt, rt.alloc(), &steps, loaded, marks)?;
    }
    check_held(&rt, rt.alloc(), &steps)
}
