//! The instructions of the traced machine and their x86-64 encodings, both ways. `encode` gives the
//! one encoding of an instruction. `decode` reads the instruction at a place of some code. The
//! encodings are those of the Intel SDM, volume 2.
#![tactic(auto)]

mod code;
mod fault;
mod instr;
mod laws;
pub mod opcodes;
mod reading;
mod reg;
mod writing;

pub use code::{CONDITIONAL_LENGTH, Code, LONGEST, NEAR_LENGTH, RETURN_LENGTH};
pub use fault::DecodeFault;
pub use instr::Instr;
pub use laws::{an_encoding_reads_back, no_encoding_begins_another, one_answer, one_instruction};
pub use reading::decode;
pub use reg::{REGISTERS, Reg};
pub use writing::encode;
