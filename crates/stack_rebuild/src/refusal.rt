//! The words of a trace that has no stacks.

use crate::stack_row::StackFault;
use fault_words::{Fault, Words};

impl Fault for StackFault {
    ghost use Rattle.stack_rebuild.specs.FaultWords.{stack_words};

    ghost told = { stack_words };

    fn refusal(&self) -> Option<Words<'static>> {
        match *self {
            StackFault::Deep(thread) => Some(Words::numbered(b"Deep ", thread)),
            StackFault::NoMemory => None,
        }
    }
}
