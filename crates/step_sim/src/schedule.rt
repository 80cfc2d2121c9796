//! Schedules, and the texts that they are read from.

ghost use Rattle.std.specs.Prelude.{◌≡◌, ◌≤◌, ◌⊎◌, All, IfOk};
ghost use Rattle.step_sim.specs.declared.fault.ScheduleFault.TheVariants.{NoMemory};
ghost use Rattle.step_sim.specs.Schedules.{schedule_of, AreTurnsOf};

use crate::fault::ScheduleFault;
use crate::line::read_line;
use crate::turns::Turns;
use sled_words::MAX_THREADS;
use std::alloc::Global;
use std::marker::Model;
use text_lines::{Lines, count_lines};

/// The most lines that the text of a schedule may have.
const LINES_LIMIT: usize = 1_048_576;

/// A stated order of loads and stores: whose turns come when. In contracts it is the list of the
/// turns, in order.
#[derive(Drop)]
pub struct Schedule {
    lines: Vec<Turns>,
}

impl Model for Schedule {
    ghost use Rattle.std.specs.Prelude.{List};
    ghost use Rattle.step_sim.specs.declared.turns.Turns.{Turns};

    ghost Value = { List Turns };

    ghost view = { λ s. s.lines.items };
}

impl Schedule {
    /// The turns, in order: one item for each line of the text that has words.
    pub fn lines(&self) -> &[Turns]
        ensures { result.now ≡ self.now }
    {
        &self.lines
    }
}

/// The schedule that a text gives to `threads` threads, 1 to 16 of them, numbered from 1. A line `t
/// T K` is K turns of thread T, each of which is a load. A line `p K` is K turns of the patcher,
/// each of which is a micro step. K is at least 1 and fits 32 bits. A line without words is
/// skipped.
///
/// A text that isn't a schedule is refused by its first fault; see `ScheduleFault`. `NoMemory` may
/// come in place of any answer.
pub fn read_schedule(alloc: Global, text: &[u8], threads: u32) -> Result<Schedule, ScheduleFault>
    requires { (1 ≤ threads) × (threads ≤ MAX_THREADS) }
    ensures reads { (result ≡ Err NoMemory) ⊎ (result ≡ schedule_of threads text.now) }
    // What a replay with this many threads asks of its schedule.
    ensures within { IfOk result (All (AreTurnsOf threads)) }
{
    let count = count_lines(text);
    if count > LINES_LIMIT {
        return Err(ScheduleFault::Limit);
    }
    let mut lines = Vec::with_capacity(alloc, count)?;
    for line in Lines::with_few_lines(text) {
        if let Some(turns) = read_line(&line, threads)? {
            lines.push(turns)?;
        }
    }
    Ok(Schedule { lines })
}

/// A refused allocation ends the reading.
impl<E: Into<xray_io::NoMemory> + Drop> From<E> for ScheduleFault {
    ghost from_gives = { λ _ fault. fault ≡ NoMemory };

    fn from(_error: E) -> ScheduleFault {
        ScheduleFault::NoMemory
    }
}
