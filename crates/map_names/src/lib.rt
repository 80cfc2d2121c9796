//! Sled maps as texts, and the names that they give to functions.
//!
//! A sled map is what `xray extract` prints, or LLVM's `llvm-xray extract --symbolize` for a compiled
//! program: a YAML document with a line for each sled. `entry` reads a line, whose name `quote` reads
//! if it stands between quotation marks. `reading` reads a text. `laws` says how lines are spelled.
#![tactic(auto)]

mod entry;
mod fault;
mod laws;
mod naming;
mod parts;
mod quote;
mod reading;
mod refusal;

pub use fault::MapFault;
pub use laws::{a_line_is_the_pieces_of_its_entry, a_map_is_the_lines_of_its_entries};
pub use naming::MapNames;
pub use reading::read_map;
