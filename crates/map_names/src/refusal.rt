//! The words that a line on err gives for a text that isn't a sled map.

use crate::fault::MapFault;
use fault_words::{Fault, Words};

impl Fault for MapFault {
    ghost use Rattle.map_names.specs.FaultWords.{map_words};

    ghost told = { map_words };

    fn refusal(&self) -> Option<Words<'static>> {
        match *self {
            MapFault::Syntax(line) => Some(Words::numbered(b"Syntax ", line)),
            MapFault::NoMemory => None,
        }
    }
}
