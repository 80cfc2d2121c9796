//! The sections of an ELF file, its names of functions, and the words that its relocations set: files
//! of 64 bits for x86-64, lowest byte first, that are programs or shared objects (System V ABI).
//!
//! `header` checks the header. `section` and `sections` find sections, and the bytes that they have.
//! `symbol`, `symbols` and `names` find the name of the function at an address. `addends` finds what
//! a relocation sets.
#![tactic(auto)]

mod addends;
mod fault;
mod header;
mod names;
mod numbers;
mod refusal;
mod section;
mod sections;
mod symbol;
mod symbols;

pub use addends::{Addends, read_addends};
pub use fault::ElfFault;
pub use names::read_names;
pub use numbers::{u32_at, u64_at};
pub use section::Section;
pub use sections::{content, read_sections, section_named, section_names};
pub use symbol::Symbol;
pub use symbols::FunctionNames;
