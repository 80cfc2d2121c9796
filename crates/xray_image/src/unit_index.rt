//! Which unit begins at an address.

ghost use Rattle.std.specs.Prelude.{◌≡◌, ◌≤◌, ◌<◌, ◌+◌, ◌-◌, ◌/◌, ◌^◌, ℕ, List, length, Contains, slice_get, slice_index, slice_set, Some, MatchOption, IfOk, OnOk};
ghost use Rattle.std.specs.List.Sorted.{IsStrictlyIncreasing};
ghost use Rattle.xray_image.specs.Program.{addresses};
ghost use Rattle.xray_image.specs.private.Index.{AreWithin, IsIndexOf, HasBegun};
ghost use Rattle.xray_image.specs.private.UnitTable.{units_in, IsSoundTable};

use crate::unit::UnitTable;
use std::alloc::{AllocError, Global};

/// How many bytes of the code make a block.
const BLOCK: usize = 128;

/// The mark of a byte of the code at which no unit begins.
const NO_UNIT: u8 = u8::MAX;

/// The units of a code by their addresses, in about one byte for each byte of the code. The number
/// of a unit is that of the first unit of its block, plus its number within the block.
#[derive(Drop)]
pub(crate) struct UnitIndex {
    /// The address of the code's first byte.
    base: u64,
    /// For each block of the code, how many units begin before it. The last block is that of the
    /// last unit.
    firsts: Vec<u32>,
    /// For each byte of the code, the number within its block of the unit that begins there, from
    /// 0, or `NO_UNIT`.
    steps: Vec<u8>,
}

impl UnitIndex {
    /// Begins all blocks up to this one that aren't begun. The next unit is their first.
    fn begin_blocks(&mut self, block: usize, number: u32) -> Result<(), AllocError>
        ensures begun { OnOk result
            (HasBegun self.old.firsts.items self.new.firsts.items block number) }
        ensures reaches { OnOk result (block < length self.new.firsts.items) }
        ensures steps { self.new.steps ≡ self.old.steps }
        ensures base { self.new.base ≡ self.old.base }
    {
        while self.firsts.len() <= block {
            self.firsts.push(number)?;
        }
        Ok(())
    }

    /// Adds a unit after the others, by its place in the code.
    fn add(&mut self, place: usize, number: u32) -> Result<(), AllocError>
        requires within { place < length self.old.steps.items }
        requires above { (b : ℕ) → b < length self.old.firsts.items
            → slice_index self.old.firsts.items b ≤ number }
        requires near { place / BLOCK < length self.old.firsts.items
            → number < slice_index self.old.firsts.items (place / BLOCK) + NO_UNIT }
        ensures begun { OnOk result
            (HasBegun self.old.firsts.items self.new.firsts.items (place / BLOCK) number) }
        ensures reaches { OnOk result (place / BLOCK < length self.new.firsts.items) }
        ensures steps { OnOk result (self.new.steps.items ≡ slice_set self.old.steps.items place
            (number - slice_index self.new.firsts.items (place / BLOCK))) }
        ensures base { self.new.base ≡ self.old.base }
    {
        let block = place / BLOCK;
        self.begin_blocks(block, number)?;
        self.steps[place] = (number - self.firsts[block]) as u8;
        Ok(())
    }

    /// The index of units in ascending address, within a code of this length.
    pub(crate) fn new(
        alloc: Global,
        base: u64,
        code_length: usize,
        units: &UnitTable,
    ) -> Result<UnitIndex, AllocError>
        requires within { AreWithin base code_length (addresses (units_in units.now)) }
        requires ascending { IsStrictlyIncreasing (addresses (units_in units.now)) }
        requires few { length (units_in units.now) < 2 ^ 32 - 1 }
        requires sound { IsSoundTable units.now }
        ensures index { IfOk result (IsIndexOf (addresses (units_in units.now))) }
    {
        let mut index = UnitIndex {
            base,
            firsts: Vec::new(alloc),
            steps: vec![in alloc; NO_UNIT; code_length]?,
        };
        for number in 0..units.len() {
            let address = units.address(number);
            index.add((address - base) as usize, number as u32)?;
        }
        Ok(index)
    }

    /// The number of the unit that begins at an address.
    pub(crate) fn find(&self, address: u64) -> Option<u32>
        ensures { (all : List ℕ) → IsIndexOf all self.now
            → MatchOption result (Contains all address → ⊥) (λ i. slice_get all i ≡ Some address) }
    {
        let place = address.checked_sub(self.base)?;
        if place >= self.steps.len() as u64 {
            return None;
        }
        let place = place as usize;
        let step = self.steps[place];
        if step == NO_UNIT {
            return None;
        }
        let first = *self.firsts.get(place / BLOCK)?;
        first.checked_add(u32::from(step))
    }
}
