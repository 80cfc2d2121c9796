//! The words that a line on err gives for a text that can't be assembled.

use crate::fault::AsmFault;
use fault_words::{Fault, Words};

impl Fault for AsmFault {
    ghost use Rattle.asm_text.specs.FaultWords.{asm_words};

    ghost told = { asm_words };

    fn refusal(&self) -> Option<Words<'static>> {
        match *self {
            AsmFault::Syntax(line) => Some(Words::numbered(b"Syntax ", line)),
            AsmFault::Register(line) => Some(Words::numbered(b"Register ", line)),
            AsmFault::Range(line) => Some(Words::numbered(b"Range ", line)),
            AsmFault::Repeat(line) => Some(Words::numbered(b"Repeat ", line)),
            AsmFault::Limit(line) => Some(Words::numbered(b"Limit ", line)),
            AsmFault::Label(line) => Some(Words::numbered(b"Label ", line)),
            AsmFault::NoMemory => None,
        }
    }
}
