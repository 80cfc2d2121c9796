//! Texts that are written of words. Each law is the contract of a function that does nothing.
ghost use Rattle.asm_text.specs.WrittenTexts.{AllHaveIds, WrittenTextsRead};

use text_lines::a_written_text_is_its_words;

/// If each line of a text is written of words that say a statement, and the lines are in order,
/// then the text isn't refused, and says these statements. It has at most 1,024 lines.
pub fn a_written_text_is_read()
    ensures { WrittenTextsRead }
{
    a_written_text_is_its_words();
}

/// If each function says `always`, then there are as many function ids as functions.
pub fn functions_that_say_always_have_ids()
    ensures { AllHaveIds }
{}
