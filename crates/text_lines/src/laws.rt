//! Laws of texts that are written of words. Each law is the contract of a function that does
//! nothing.
ghost use Rattle.text_lines.specs.Written.{WrittenNumbersRead, WrittenTextsRead};

/// A text that is written of words is read as these words, line after line.
pub fn a_written_text_is_its_words()
    ensures { WrittenTextsRead }
{}

/// A number that is written in decimal is a word, and is read as itself.
pub fn a_written_number_is_itself()
    ensures { WrittenNumbersRead }
{}
