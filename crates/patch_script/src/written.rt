//! Scripts that are written of commands.
ghost use Rattle.patch_script.specs.WrittenScripts.{WrittenScriptsRead};

use text_lines::{a_written_number_is_itself, a_written_text_is_its_words};

/// A law, as the contract of a function that does nothing. A script that is written of commands, a
/// line each, is read as these commands, if each of them may follow those before it and nothing is
/// missing at the end.
pub fn a_written_script_is_read()
    ensures { WrittenScriptsRead }
{
    a_written_text_is_its_words();
    a_written_number_is_itself();
}
