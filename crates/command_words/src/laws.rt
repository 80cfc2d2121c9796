//! Laws of what words say. Each law is the contract of a function that does nothing.
ghost use Rattle.command_words.specs.{Files.{AreOfTheirRows}, Ranges.{OutputsAreApart}};

/// A command that words say follows from its row in the table of commands: its word, its files in
/// the order of their names, and which of them are outputs. No two outputs have the same name.
pub fn commands_follow_their_rows()
    ensures rows { AreOfTheirRows }
    ensures outputs { OutputsAreApart }
{}
