//! The lines of a schedule that is being made.

ghost use Rattle.std.specs.Prelude.{◌≡◌, ◌<◌, ◌+◌, ◌^◌, ◌∷◌, ◌++◌, [], List, IfOk, OnOk, replicate};
ghost use Rattle.step_sim.specs.declared.turns.Turns.{Turns as Line};
ghost use Rattle.step_sim.specs.declared.turns.Turns.TheVariants.{Thread, Patcher};
ghost use Rattle.run_order.specs.private.Ordered.{joined};
ghost use Rattle.run_order.specs.private.Lines.{HasJoined, steps_line};

use std::alloc::Global;
use step_sim::Turns;
use xray_io::NoMemory;

/// The lines of a schedule that is being made. Micro steps wait until a thread has loads, since those
/// that come one after the other are on one line.
#[derive(Drop)]
pub(crate) struct ScheduleLines {
    pub(crate) lines: Vec<Turns>,
    /// How many micro steps wait.
    pub(crate) steps: u32,
}

impl ScheduleLines {
    /// No lines yet.
    pub(crate) fn new(alloc: Global) -> Self
        ensures joined { HasJoined [] result }
        ensures steps { result.steps ≡ 0 }
    {
        ScheduleLines {
            lines: Vec::new(alloc),
            steps: 0,
        }
    }

    /// Adds micro steps.
    pub(crate) fn micro_steps(&mut self, count: u32)
        requires { self.old.steps + count < 2 ^ 32 }
        ensures joined { (turns : List Line) → HasJoined turns self.old
            → HasJoined (turns ++ replicate count (Patcher 1)) self.new }
        ensures steps { self.new.steps ≡ self.old.steps + count }
    {
        self.steps += count;
    }

    /// Adds loads of a thread.
    pub(crate) fn loads(&mut self, thread: u32, loads: u32) -> Result<(), NoMemory>
        ensures joined { OnOk result ((turns : List Line) → HasJoined turns self.old
            → HasJoined (turns ++ Thread thread loads ∷ []) self.new) }
        ensures steps { OnOk result (self.new.steps ≡ 0) }
    {
        self.write_steps()?;
        self.lines.push(Turns::Thread {
            thread,
            count: loads,
        })?;
        Ok(())
    }

    /// The lines, with the micro steps that wait.
    pub(crate) fn done(mut self) -> Result<Vec<Turns>, NoMemory>
        ensures { IfOk result (λ lines. (turns : List Line) → HasJoined turns self → lines.items ≡ joined turns) }
    {
        self.write_steps()?;
        Ok(self.lines)
    }

    /// Writes the line of the micro steps that wait.
    fn write_steps(&mut self) -> Result<(), NoMemory>
        ensures lines { OnOk result (self.new.lines.items ≡ self.old.lines.items ++ steps_line self.old.steps) }
        ensures steps { OnOk result (self.new.steps ≡ 0) }
    {
        if self.steps > 0 {
            self.lines.push(Turns::Patcher { count: self.steps })?;
            self.steps = 0;
        }
        Ok(())
    }
}
