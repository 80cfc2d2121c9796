//! The words that a line on err gives for a text that isn't a schedule, or for a script that isn't
//! replayed.

use crate::fault::ScheduleFault;
use crate::sim_fault::SimFault;
use fault_words::{Fault, Words};

impl Fault for ScheduleFault {
    ghost use Rattle.step_sim.specs.FaultWords.{schedule_words};

    ghost told = { schedule_words };

    fn refusal(&self) -> Option<Words<'static>> {
        match *self {
            ScheduleFault::Syntax(line) => Some(Words::numbered(b"Syntax ", line)),
            ScheduleFault::Thread(line) => Some(Words::numbered(b"Thread ", line)),
            ScheduleFault::Limit => Some(Words::name(b"Limit")),
            ScheduleFault::NoMemory => None,
        }
    }
}

impl Fault for SimFault {
    ghost use Rattle.step_sim.specs.FaultWords.{sim_words};

    ghost told = { sim_words };

    fn refusal(&self) -> Option<Words<'static>> {
        match *self {
            SimFault::Waits(line) => Some(Words::numbered(b"Waits ", line)),
            SimFault::NoMemory => None,
        }
    }
}
