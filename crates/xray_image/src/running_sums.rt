//! Running sums of small numbers.

ghost use Rattle.std.specs.Prelude.{◌≡◌, ◌≤◌, ◌<◌, ◌+◌, ◌^◌, [], ◌∷◌, ◌++◌, length, slice_get, Some, IfOk, OnOk};
ghost use Rattle.xray_image.specs.private.RunningSums.{sums_in, IsSound, HasBegunBlock};

use std::alloc::{AllocError, Global};

/// How many sums a block has.
const BLOCK: usize = 16;

/// The largest number that may be added. The last sum of a block is fifteen additions above the
/// first, at most 255. So the distance of any sum from the first of its block fits a byte.
pub(crate) const LARGEST_STEP: u32 = u8::MAX as u32 / (BLOCK as u32 - 1);

/// For each of some numbers, the sum of the numbers before it. It is stored in a byte and a
/// quarter: the sum at which its block begins, and the distance from that.
#[derive(Drop)]
pub(crate) struct RunningSums {
    /// For each block, its first sum.
    firsts: Vec<u32>,
    /// For each number, how far its sum is above the first of its block.
    steps: Vec<u8>,
    /// The sum of all numbers.
    total: u32,
}

impl RunningSums {
    /// No numbers yet. Asks for room for `room` numbers.
    pub(crate) fn with_room(alloc: Global, room: usize) -> Result<RunningSums, AllocError>
        ensures sums { IfOk result (λ sums. sums_in sums ≡ []) }
        ensures total { IfOk result (λ sums. sums.total ≡ 0) }
        ensures sound { IfOk result IsSound }
    {
        Ok(RunningSums {
            firsts: Vec::with_capacity(alloc, room / BLOCK + 1)?,
            steps: Vec::with_capacity(alloc, room)?,
            total: 0,
        })
    }

    /// Begins a block, if the next sum is the first of one.
    fn begin_block(&mut self) -> Result<(), AllocError>
        requires { IsSound self.old }
        ensures begun { OnOk result (HasBegunBlock self.old.firsts.items self.new.firsts.items
            (length self.old.steps.items) self.old.total) }
        ensures steps { self.new.steps ≡ self.old.steps }
        ensures total { self.new.total ≡ self.old.total }
    {
        if self.steps.len().is_multiple_of(BLOCK) {
            self.firsts.push(self.total)?;
        }
        Ok(())
    }

    /// Adds a number after the others.
    pub(crate) fn push(&mut self, number: u32) -> Result<(), AllocError>
        requires sound { IsSound self.old }
        requires small { number ≤ LARGEST_STEP }
        requires fits { self.old.total + number < 2 ^ 32 }
        ensures sums { OnOk result (sums_in self.new ≡ sums_in self.old ++ self.old.total ∷ []) }
        ensures total { OnOk result (self.new.total ≡ self.old.total + number) }
        ensures sound { OnOk result (IsSound self.new) }
    {
        self.begin_block()?;
        let block = self.steps.len() / BLOCK;
        self.steps.push((self.total - self.firsts[block]) as u8)?;
        self.total += number;
        Ok(())
    }

    /// How many numbers there are.
    pub(crate) fn len(&self) -> usize
        ensures { result ≡ length (sums_in self.now) }
    {
        self.steps.len()
    }

    /// The sum of the numbers before the one with this number, counted from 0.
    pub(crate) fn get(&self, number: usize) -> u32
        requires exists { number < length (sums_in self.now) }
        requires sound { IsSound self.now }
        ensures sum { slice_get (sums_in self.now) number ≡ Some result }
        ensures within { result ≤ self.now.total }
    {
        self.firsts[number / BLOCK] + u32::from(self.steps[number])
    }
}
