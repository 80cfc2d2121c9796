//! Laws of the inputs. Each law is the contract of a function that does nothing.
ghost use Rattle.std.specs.{Prelude.{◌≡◌, ◌≤◌, ℕ, length, None, Ok}, List.{enumerate_from}};
ghost use Rattle.std.specs.Str.Lines.{lines};
ghost use Rattle.xray_image.specs.{Ids.{id_count}, Program.{Program}};
ghost use Rattle.asm_text.specs.{Assembling.{statements_said}, Programs.{program_said}};
ghost use Rattle.patch_script.specs.{Plans.{plan_of, waiting_line}, WrittenScripts.{written_plan}};
ghost use Rattle.step_sim.specs.Schedules.{schedule_of};
ghost use Rattle.soak_inputs.specs.Inputs.{soak_commands, soak_schedule, soak_script, soak_text, soak_turns};
ghost use Rattle.soak_inputs.specs.Said.{soak_said};

use asm_text::{a_written_text_is_read, functions_that_say_always_have_ids};
use patch_script::a_written_script_is_read;
use step_sim::a_written_schedule_is_read;
use text_lines::{a_written_number_is_itself, a_written_text_is_its_words};

/// The text of any number isn't refused. Its program has 64 function ids, whatever the threshold. It
/// has at most 1,024 lines.
pub fn the_text_is_assembled()
    ensures said { (number : ℕ) → statements_said (soak_text number) ≡ Ok (soak_said number) }
    ensures ids { (number threshold : ℕ) → id_count (program_said threshold (soak_said number)) ≡ 64 }
    ensures lines { (number : ℕ) → length (lines (soak_text number)) ≤ 1024 }
{
    a_written_number_is_itself();
    a_written_text_is_its_words();
    a_written_text_is_read();
    functions_that_say_always_have_ids();
}

/// The script of any number isn't refused for four threads and a program with 64 function ids or
/// more. No thread waits in it, and nor does the patcher. It has at most 1,024 lines.
pub fn the_script_is_read()
    ensures plan { (number : ℕ) (program : Program) → 64 ≤ id_count program
        → plan_of program 4 (soak_script number) ≡ Ok (written_plan program 4 (soak_commands number)) }
    ensures waits { (number : ℕ) (program : Program) → 64 ≤ id_count program
        → waiting_line (enumerate_from 1 (soak_commands number)) ≡ None }
    ensures lines { (number : ℕ) → length (lines (soak_script number)) ≤ 1024 }
{
    a_written_number_is_itself();
    a_written_text_is_its_words();
    a_written_script_is_read();
}

/// The schedule of any number isn't refused for four threads.
pub fn the_schedule_is_read()
    ensures { (number : ℕ) → schedule_of 4 (soak_schedule number) ≡ Ok (soak_turns number) }
{
    a_written_schedule_is_read();
}
