//! The words that a line on err gives for a text that isn't a script.

use crate::fault::ScriptFault;
use fault_words::{Fault, Words};

impl Fault for ScriptFault {
    ghost use Rattle.patch_script.specs.FaultWords.{script_words};

    ghost told = { script_words };

    fn refusal(&self) -> Option<Words<'static>> {
        match *self {
            ScriptFault::Limit(line) => Some(Words::numbered(b"Limit ", line)),
            ScriptFault::Syntax(line) => Some(Words::numbered(b"Syntax ", line)),
            ScriptFault::Function(line) => Some(Words::numbered(b"Function ", line)),
            ScriptFault::Thread(line) => Some(Words::numbered(b"Thread ", line)),
            ScriptFault::Go(line) => Some(Words::numbered(b"Go ", line)),
            ScriptFault::Hold(line) => Some(Words::numbered(b"Hold ", line)),
            ScriptFault::Log(line) => Some(Words::numbered(b"Log ", line)),
            ScriptFault::SelfWait(line) => Some(Words::numbered(b"SelfWait ", line)),
            ScriptFault::NoMemory => None,
        }
    }
}
