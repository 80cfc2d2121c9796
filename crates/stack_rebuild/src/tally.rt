//! What is kept of the pairs of a path.

ghost use Rattle.std.specs.Prelude.{◌≡◌, OnOk};
ghost use Rattle.stack_rebuild.specs.PathSums.{both_tallies, no_tally, with_pair};

use crate::totals::added;
use xray_io::NoMemory;

/// What pairs say of a path. Durations are in cycles.
#[derive(Clone, Copy)]
pub struct Tally {
    /// How many pairs have the path.
    pub count: u64,
    /// The sum of their durations.
    pub sum: u128,
    /// The sum of their durations, each without those of its direct children, and at least 0.
    pub own: u128,
}

impl Tally {
    /// No pair.
    pub fn none() -> Tally
        ensures { result ≡ no_tally }
    {
        Tally {
            count: 0,
            sum: 0,
            own: 0,
        }
    }

    /// One more pair.
    pub(crate) fn add(&mut self, duration: u64, own: u128) -> Result<(), NoMemory>
        ensures { OnOk result (self.new ≡ with_pair duration own self.old) }
    {
        self.count = self.count.checked_add(1).ok_or(NoMemory)?;
        self.sum = added(self.sum, u128::from(duration))?;
        self.own = added(self.own, own)?;
        Ok(())
    }

    /// The pairs of another tally, too.
    pub(crate) fn add_all(&mut self, other: &Tally) -> Result<(), NoMemory>
        ensures { OnOk result (self.new ≡ both_tallies self.old other.now) }
    {
        self.count = self.count.checked_add(other.count).ok_or(NoMemory)?;
        self.sum = added(self.sum, other.sum)?;
        self.own = added(self.own, other.own)?;
        Ok(())
    }
}
