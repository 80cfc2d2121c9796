//! The inputs of `soak`, which are drawn from a number, and their replay.
ghost use Rattle.std.specs.Prelude.{◌≡◌, ◌<◌, ◌≤◌, ℕ, length, IfErr, IfOk, None, Ok};
ghost use Rattle.std.specs.Str.Lines.{lines};
ghost use Rattle.asm_text.specs.{Assembling.{statements_said}, Layout.{StatementLines}, Programs.{program_said}};
ghost use Rattle.patch_script.specs.{Plans.{waiting_line}, Refusals.{commands_of}};
ghost use Rattle.soak_inputs.specs.Inputs.{soak_schedule, soak_script, soak_text};
ghost use Rattle.step_sim.specs.Replayed.{IsSimulated};
ghost use Rattle.xray_program.specs.Soak.{AreInputs, soak_setup};
ghost use Rattle.xray_program.specs.private.{Drawn.{InputLaws}, SimInputs.{AreReadFor}};

use crate::sim_inputs::SimInputs;
use asm_text::{an_assembled_file_is_accepted, assemble};
use fault_words::Fault;
use machine_step::{Limits, Setup, Steps};
use patch_script::read_script;
use soak_inputs::{
    SOAK_THREADS, SoakInputs, the_schedule_is_read, the_script_is_read, the_text_is_assembled,
};
use std::alloc::Global;
use step_sim::{SimEnd, SimStart, read_schedule};
use xray_image::{Image, read_image};
use xray_io::{NoMemory, Wall};

/// The least number of instruction lines with which a function gets sleds.
const THRESHOLD: u32 = 1;

/// What each replay is made with.
pub(crate) const SOAK_SETUP: Setup = Setup {
    threads: SOAK_THREADS,
    size: 4_096,
    max: 64,
    limits: Limits {
        fuel: 10_000_000,
        passings: 65_536,
        tick: 1,
        tsc: 0,
        cpus: 4,
        migrate: 1_000,
    },
    pid: 1,
    wall: Wall { secs: 0, micros: 0 },
    frequency: 0,
};

/// What a reader has returned for an input that isn't refused: the value, or out of memory.
pub(crate) fn unrefused<X: Drop, F: Fault>(read: Result<X, F>) -> Result<X, NoMemory>
    requires { IfErr read (λ fault. F.told fault ≡ None) }
    ensures { IfOk result (λ value. read ≡ Ok value) }
{
    match read {
        Ok(value) => Ok(value),
        Err(fault) => match fault.refusal() {
            Some(_) => unreachable!(),
            None => Err(NoMemory),
        },
    }
}

/// A law: none of the inputs of a number is refused, and neither text nor script is too long.
pub(crate) fn each_input_is_read()
    ensures laws { InputLaws }
    ensures text_lines { (number : ℕ) → length (lines (soak_text number)) ≤ 1024 }
    ensures script_lines { (number : ℕ) → length (lines (soak_script number)) ≤ 1024 }
{
    an_assembled_file_is_accepted();
    the_text_is_assembled();
    the_script_is_read();
    the_schedule_is_read();
}

/// The inputs that `soak` draws from a number: the assembler text, the script and the schedule, in
/// this order. `NoMemory` means that an allocation was refused.
pub fn soak_inputs(alloc: Global, number: u64) -> Result<(Vec<u8>, Vec<u8>, Vec<u8>), NoMemory>
    ensures text { IfOk result (λ inputs. inputs.0.items ≡ soak_text number) }
    ensures script { IfOk result (λ inputs. inputs.1.items ≡ soak_script number) }
    ensures schedule { IfOk result (λ inputs. inputs.2.items ≡ soak_schedule number) }
{
    let SoakInputs {
        text,
        script,
        schedule,
    } = soak_inputs::soak_inputs(alloc, number)?;
    Ok((text, script, schedule))
}

/// The inputs of a number, each as it is read.
pub(crate) fn drawn_inputs(alloc: Global, number: u64) -> Result<SimInputs, NoMemory>
    ensures inputs { IfOk result (λ inputs. AreInputs number inputs.image inputs.script inputs.schedule) }
    ensures fit { IfOk result (AreReadFor SOAK_THREADS) }
{
    // Called for its contract: none of the inputs is refused.
    each_input_is_read();
    let (text, script, schedule) = soak_inputs(alloc, number)?;
    let image = image_of(alloc, &text)?;
    let script = unrefused(read_script(alloc, &script, &image, SOAK_THREADS))?;
    let schedule = unrefused(read_schedule(alloc, &schedule, SOAK_THREADS))?;
    Ok(SimInputs {
        image,
        script,
        schedule,
    })
}

/// The image that a text is assembled to.
fn image_of(alloc: Global, text: &[u8]) -> Result<Image, NoMemory>
    requires said { (said : StatementLines) × (statements_said text.now ≡ Ok said) }
    requires few { length (lines text.now) < u32.MAX }
    ensures { (said : StatementLines) → statements_said text.now ≡ Ok said
        → IfOk result (λ program. program ≡ program_said 1 said) }
{
    let file = unrefused(assemble(alloc, text, THRESHOLD, false))?;
    unrefused(read_image(alloc, &file))
}

/// What the replay of inputs leaves in whose script nobody waits.
pub(crate) fn replayed<'s>(
    alloc: Global,
    steps: &'s Steps<'s>,
    inputs: &SimInputs,
) -> Result<SimEnd<'s>, NoMemory>
    requires steps { inputs.now.image ≡ steps.now }
    requires fit { AreReadFor SOAK_THREADS inputs.now }
    requires still { waiting_line inputs.now.script.lines ≡ None }
    ensures { IfOk result (λ end. IsSimulated inputs.now.image (commands_of inputs.now.script.lines)
        inputs.now.schedule soak_setup end.cpus.items end.sealed.items end.segments.items end.first.items
        end.buffers.items) }
{
    let start = unrefused(SimStart::new(alloc, steps, &inputs.script, &SOAK_SETUP))?;
    Ok(start.play(&inputs.schedule))
}
