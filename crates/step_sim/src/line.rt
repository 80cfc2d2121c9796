//! A line of a schedule, as the turns that it gives.

ghost use Rattle.std.specs.Prelude.{◌≡◌, IfOk, IfSome};
ghost use Rattle.step_sim.specs.Schedules.{loads_of, said_by, patcher_said, turns_said, AreTurnsOf};
ghost use Rattle.step_sim.specs.private.Faults.{decided, line_faults, line_turns, said_faults};
ghost use Rattle.step_sim.specs.private.Readings.{listed};

use crate::fault::ScheduleFault;
use crate::turns::Turns;
use text_lines::{Line, Operands, Words, parse_number, read_operands};

/// What the words of a line say. A number is `None` if its word isn't one.
#[derive(Clone, Copy)]
pub(crate) enum Said {
    /// There are no words.
    Nothing,
    /// `t T K`: a thread makes loads.
    Loads {
        /// T, the number of the thread.
        thread: Option<u32>,
        /// K, how many loads.
        count: Option<u32>,
    },
    /// `p K`: the patcher makes micro steps.
    Steps {
        /// K, how many micro steps.
        count: Option<u32>,
    },
    /// The words aren't those of a schedule.
    Unknown,
}

/// What the words after `t` say.
fn loads_of(words: Words) -> Said
    ensures { result ≡ loads_of words.entry }
{
    match read_operands(words) {
        Operands::Two(thread, count) => Said::Loads {
            thread: parse_number(thread),
            count: parse_number(count),
        },
        _ => Said::Unknown,
    }
}

/// What the words after `p` say.
fn steps_of(words: Words) -> Said
    ensures { result ≡ patcher_said words.entry }
{
    match read_operands(words) {
        Operands::One(count) => Said::Steps {
            count: parse_number(count),
        },
        _ => Said::Unknown,
    }
}

/// What the words of a line say.
fn said_by(mut words: Words) -> Said
    ensures { result ≡ said_by words.entry }
{
    let Some(who) = words.next() else {
        return Said::Nothing;
    };
    if who == b"t".as_slice() {
        loads_of(words)
    } else if who == b"p".as_slice() {
        steps_of(words)
    } else {
        Said::Unknown
    }
}

/// The turns of a line that says this, or its first refusal.
fn judged(said: Said, number: u32, threads: u32) -> Result<Option<Turns>, ScheduleFault>
    ensures reads { listed result ≡ decided (said_faults threads number said) (turns_said said) }
    ensures within { IfOk result (λ turns. IfSome turns (AreTurnsOf threads)) }
{
    match said {
        Said::Nothing => Ok(None),
        Said::Loads {
            thread,
            count: Some(count),
        } if count > 0 => match thread {
            Some(thread) if thread > 0 && thread <= threads => {
                Ok(Some(Turns::Thread { thread, count }))
            }
            _ => Err(ScheduleFault::Thread(number)),
        },
        Said::Steps { count: Some(count) } if count > 0 => Ok(Some(Turns::Patcher { count })),
        _ => Err(ScheduleFault::Syntax(number)),
    }
}

/// The turns of a line, or none if it has no words. If the line is refused, its first refusal.
pub(crate) fn read_line(line: &Line, threads: u32) -> Result<Option<Turns>, ScheduleFault>
    ensures reads { listed result
        ≡ decided (line_faults threads (line.now.number, line.now.bytes.now))
        (line_turns (line.now.number, line.now.bytes.now)) }
    ensures within { IfOk result (λ turns. IfSome turns (AreTurnsOf threads)) }
{
    if !line.is_clean() {
        return Err(ScheduleFault::Syntax(line.number));
    }
    judged(said_by(line.words()), line.number, threads)
}
