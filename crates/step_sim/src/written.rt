//! Schedules that are written of turns.
ghost use Rattle.step_sim.specs.WrittenSchedules.{WrittenSchedulesRead};

use text_lines::{a_written_number_is_itself, a_written_text_is_its_words};

/// A law, as the contract of a function that does nothing. A schedule that is written of turns, a
/// line each, is read as these turns.
pub fn a_written_schedule_is_read()
    ensures { WrittenSchedulesRead }
{
    a_written_text_is_its_words();
    a_written_number_is_itself();
}
