//! The assembler: from a text of functions, labels and instructions to an image file with sleds.
//!
//! `line` reads a line as what it says, and `operands` checks its operands. `first_pass` gathers
//! the lines with their names and totals, and refuses the first that may not follow. After that
//! `layout` gives each line its place and `targets` gives each name its place. `ending` refuses
//! names without places. `code`, `file`, `map` and `header` write the bytes.
#![tactic(auto)]

mod assembling;
mod code;
mod ending;
mod fault;
mod fields;
mod file;
mod first_pass;
mod header;
mod keyword;
mod laid_text;
mod laws;
mod layout;
mod line;
mod map;
mod name_table;
mod names;
mod numbers;
mod operands;
mod refusal;
mod registers;
mod statement;
mod targets;
mod totals;
mod width;
mod write;
mod written;

pub use assembling::assemble;
pub use fault::AsmFault;
pub use laws::{
    an_assembled_file_is_accepted, both_map_versions_hold_one_program, each_sled_is_of_its_function,
};
pub use written::{a_written_text_is_read, functions_that_say_always_have_ids};
