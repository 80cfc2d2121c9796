//! The units of an image in the form that the machine runs.

ghost use Rattle.std.specs.Prelude.{◌≡◌};
ghost use Rattle.machine_step.specs.private.Steps.{sled_at, wants_fuel};

use crate::end::End;
use subset_decode::Reg;

/// What is at a place of the code. Places are the numbers of units. One more place comes after
/// them, with nothing at it. A branch names the place that it leads to.
#[derive(Clone, Copy)]
pub(crate) enum Step {
    Mov { dst: Reg, imm: u32 },
    Add { dst: Reg, src: Reg },
    Sub { dst: Reg, src: Reg },
    Push { reg: Reg },
    Pop { reg: Reg },
    /// `back` is the address after it.
    Call { target: u32, back: u64 },
    Jmp { target: u32 },
    Jnz { target: u32 },
    Ret,
    Out,
    /// A sled that does nothing, at an entry or before a tail jump. `sled` is its number in the
    /// map.
    Passing { sled: u32 },
    /// A sled that returns, at an exit. `sled` is its number in the map.
    Leaving { sled: u32 },
    /// The alignment byte.
    Pad,
    /// No unit: the place of all addresses where no unit begins.
    Nowhere,
}

impl Step {
    /// Whether it is an instruction, and so wants fuel. A sled that returns wants fuel only after
    /// its passing.
    #[inline]
    pub(crate) fn wants_fuel(&self) -> bool
        ensures { result ≡ wants_fuel self.now }
    {
        !matches!(
            *self,
            Step::Passing { .. } | Step::Leaving { .. } | Step::Pad | Step::Nowhere
        )
    }

    /// The number of the sled, if it is one.
    #[inline]
    pub(crate) fn sled(&self) -> Option<u32>
        ensures { result ≡ sled_at self.now }
    {
        match *self {
            Step::Passing { sled } | Step::Leaving { sled } => Some(sled),
            _ => None,
        }
    }
}

/// Where a step leads.
#[derive(Clone, Copy)]
pub(crate) enum Way {
    /// To this place.
    To(usize),
    /// Back to this address, popped by a `ret`.
    Back(u64),
    /// The thread ends.
    Ends(End),
}
