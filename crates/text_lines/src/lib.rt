//! The lines, words, keywords and numbers of the text inputs: scripts, schedules and assembler
//! texts.
//!
//! A text is bytes. A line ends with LF, which the last line may lack. One CR directly before an LF
//! is no part of the line. `#` begins a comment, which runs to the end of its line and may hold any
//! bytes. Words are separated by spaces and tabs. Outside comments a line may hold tabs and the
//! bytes 0x20 to 0x7E.
#![tactic(auto)]

mod keywords;
mod laws;
mod numerals;
mod operands;
mod text;
mod tokens;

pub use keywords::keyword_in;
pub use laws::{a_written_number_is_itself, a_written_text_is_its_words};
pub use numerals::{parse_digits, parse_number};
pub use operands::{Operands, read_operands};
pub use text::{Line, Lines, count_lines};
pub use tokens::Words;
