//! The plain run of a thread.

ghost use Rattle.std.specs.Prelude.{◌≡◌, ℕ, length, slice_index, IfOk};
ghost use Rattle.machine_step.specs.PlainEnd.{IsPlainEnd};
ghost use Rattle.machine_step.specs.private.Machine.{state_at, IsWithin, RunsFrom};

use crate::end::End;
use crate::limits::Limits;
use crate::machine::Machine;
use crate::plain_end::PlainEnd;
use crate::step::Way;
use crate::steps::Steps;
use std::alloc::Global;
use subset_decode::REGISTERS;
use xray_io::NoMemory;

/// Runs a thread from the start of the entry function to its end. Its number is in rdi. Entry and
/// tail sleds do nothing, exit sleds are a `ret`, and each sled that is passed is counted. An
/// instruction uses one unit of fuel, and the passing of a sled uses none.
///
/// `NoMemory` means that an allocation was refused.
pub fn plain_run(
    alloc: Global,
    steps: &Steps,
    thread: u32,
    limits: Limits,
) -> Result<PlainEnd, NoMemory>
    ensures run { IfOk result (IsPlainEnd steps.now limits thread) }
    ensures registers { IfOk result (λ e. length e.regs.items ≡ 16) }
    // rsp and r10 are 0, since no instruction names them.
    ensures unnamed { IfOk result (λ e.
        (slice_index e.regs.items 4 ≡ 0) × (slice_index e.regs.items 10 ≡ 0)) }
{
    let mut regs = vec![in alloc; 0; REGISTERS]?;
    let mut machine = Machine::new(alloc, thread)?;
    let end = run(&mut machine, steps, limits);
    regs.copy_from_slice(machine.registers.all());
    Ok(PlainEnd {
        thread,
        end,
        regs,
        zf: machine.zero_flag,
        output: machine.output.into_bytes(),
        instructions: machine.instructions,
        passings: machine.passings,
    })
}

/// Runs a machine from the start of the entry function to its end.
fn run(machine: &mut Machine, steps: &Steps, limits: Limits) -> End
    requires within { IsWithin limits machine.old }
    ensures { (thread : ℕ) → RunsFrom steps.now limits thread
        (state_at steps.now.entry machine.old) result machine.new }
{
    let mut place = steps.start();
    'steps: loop {
        let step = steps.at(place);
        match machine.step(step, place, limits) {
            Way::To(next) => place = next,
            Way::Back(address) => place = steps.place_of(address),
            Way::Ends(end) => return end,
        }
    }
}
