//! The schedule.
ghost use Rattle.std.specs.Prelude.{◌≡◌, ◌++◌, ◌∷◌, [], IfOk, OnOk};
ghost use Rattle.step_sim.specs.WrittenSchedules.{schedule_text};
ghost use Rattle.soak_inputs.specs.Schedules.{after_turns, schedule, turns_drawn};

use crate::SOAK_THREADS;
use crate::draws::Draws;
use crate::lines::add_number;
use std::alloc::Global;
use xray_io::NoMemory;

/// How many lines there are.
const LINES: u32 = 4000;

/// Who may have turns: the patcher, and each thread.
const PARTIES: u64 = 1 + SOAK_THREADS as u64;

/// The most turns of the patcher in a line.
const STEPS: u64 = 8;

/// The most turns of a thread in a line.
const LOADS: u64 = 200;

/// The schedule that is drawn next.
pub(crate) fn write_schedule(alloc: Global, draws: &mut Draws) -> Result<Vec<u8>, NoMemory>
    ensures { IfOk result (λ text. text.items ≡ schedule_text (schedule draws.old)) }
{
    let mut text = Vec::new(alloc);
    for _ in 0..LINES {
        add_turns(&mut text, draws)?;
    }
    Ok(text)
}

/// Adds a line of turns.
fn add_turns(text: &mut Vec<u8>, draws: &mut Draws) -> Result<(), NoMemory>
    ensures text { OnOk result (text.new.items ≡ text.old.items ++ schedule_text (turns_drawn draws.old ∷ [])) }
    ensures after { OnOk result (draws.new ≡ after_turns draws.old) }
{
    match draws.draw(PARTIES) {
        0 => add_number(text, b"p ", 1 + draws.draw(STEPS), b"\n"),
        thread => {
            add_number(text, b"t ", thread, b" ")?;
            add_number(text, b"", 1 + draws.draw(LOADS), b"\n")
        }
    }
}
