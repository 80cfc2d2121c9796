//! The sled map of a compiled program, straight from its ELF file: the sleds of the section
//! `xray_instr_map` with the ids that LLVM's runtime gives, and the names that the file has.
//!
//! `parts` finds the sections. `sled` reads an entry, and `sleds` all of them. `index` and `numbering`
//! number the sleds. `program` puts this together, and `line` prints it as a sled map.
#![tactic(auto)]

mod facts;
mod fault;
mod hex;
mod index;
mod laws;
mod line;
mod numbering;
mod parts;
mod program;
mod refusal;
mod sled;
mod sleds;

pub use facts::MapFacts;
pub use fault::ProgramFault;
pub use laws::a_map_is_read_as_its_names;
pub use numbering::NumberedSled;
pub use program::{ProgramMap, read_program};
pub use sled::{MapSled, MapSledKind};
