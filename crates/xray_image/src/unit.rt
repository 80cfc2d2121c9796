//! The units of a code, and how they are stored.

ghost use Rattle.std.specs.Prelude.{◌≡◌, ◌≤◌, ◌<◌, ◌+◌, ◌^◌, [], ◌∷◌, ◌++◌, length, slice_get, Some, IfOk, OnOk};
ghost use Rattle.xray_image.specs.Program.{addresses};
ghost use Rattle.xray_image.specs.private.UnitTable.{unit_at, units_in, IsSoundTable};

use crate::running_sums::{LARGEST_STEP, RunningSums};
use crate::unit_reader::what_stands;
use std::alloc::{AllocError, Global};
use subset_decode::Instr;

/// What a unit of the code is.
#[derive(Clone, Copy, Debug, PartialEq, Eq)]
pub enum What {
    /// An instruction.
    Plain(Instr),
    /// The sled of this number, from 0 in ascending address.
    Sled(u32),
    /// The alignment byte 90, which does nothing.
    Pad,
}

/// One step of the code, and the address where it begins: an instruction, a sled or an alignment
/// byte.
#[derive(Clone, Copy, Debug, PartialEq, Eq)]
pub struct Unit {
    /// The address of its first byte.
    pub address: u64,
    /// What it is.
    pub what: What,
}

/// The units of a code in ascending address, stored as the code and the places where they begin. A
/// unit is decoded whenever it is asked for.
#[derive(Drop)]
pub(crate) struct UnitTable {
    /// The address of the code's first byte.
    base: u64,
    code: Vec<u8>,
    /// The places of the units in the code. Each is the sum of the lengths before it.
    places: RunningSums,
    /// How many sleds come before each unit.
    sleds: RunningSums,
}

impl UnitTable {
    /// A table without units, for a code whose first byte has the address `base`. It asks for
    /// room for as many units as a code of this length may have.
    pub(crate) fn new(alloc: Global, base: u64, code: &[u8]) -> Result<UnitTable, AllocError>
        requires low { base < 2 ^ 63 }
        requires short { length code.now < 2 ^ 32 }
        ensures units { IfOk result (λ table. units_in table ≡ []) }
        ensures base { IfOk result (λ table. table.base ≡ base) }
        ensures code { IfOk result (λ table. table.code.items ≡ code.now) }
        ensures place { IfOk result (λ table. table.places.total ≡ 0) }
        ensures sleds { IfOk result (λ table. table.sleds.total ≡ 0) }
        ensures sound { IfOk result IsSoundTable }
    {
        Ok(UnitTable {
            base,
            code: Vec::from_slice(alloc, code)?,
            places: RunningSums::with_room(alloc, code.len())?,
            sleds: RunningSums::with_room(alloc, code.len())?,
        })
    }

    /// Adds a unit after the others, by its width in bytes and the number of sleds in it, 0 or 1.
    pub(crate) fn push(&mut self, width: u32, sleds: u32) -> Result<(), AllocError>
        requires sound { IsSoundTable self.old }
        requires width { width ≤ LARGEST_STEP }
        requires sleds { sleds ≤ 1 }
        requires within { self.old.places.total + width ≤ length self.old.code.items }
        requires few { self.old.sleds.total + sleds < 2 ^ 32 }
        ensures units { OnOk result (units_in self.new ≡ units_in self.old
            ++ unit_at self.old.base self.old.code.items (self.old.places.total, self.old.sleds.total) ∷ []) }
        ensures base { OnOk result (self.new.base ≡ self.old.base) }
        ensures code { OnOk result (self.new.code ≡ self.old.code) }
        ensures place { OnOk result (self.new.places.total ≡ self.old.places.total + width) }
        ensures sleds { OnOk result (self.new.sleds.total ≡ self.old.sleds.total + sleds) }
        ensures sound { OnOk result (IsSoundTable self.new) }
    {
        self.places.push(width)?;
        self.sleds.push(sleds)?;
        Ok(())
    }

    /// The bytes of the code.
    pub(crate) fn code(&self) -> &[u8]
        ensures { result.now ≡ self.now.code.items }
    {
        &self.code
    }

    /// How many units there are.
    pub(crate) fn len(&self) -> usize
        requires { IsSoundTable self.now }
        ensures { result ≡ length (units_in self.now) }
    {
        self.places.len()
    }

    /// The address of the unit of this number, from 0.
    pub(crate) fn address(&self, number: usize) -> u64
        requires exists { number < length (units_in self.now) }
        requires sound { IsSoundTable self.now }
        ensures { slice_get (addresses (units_in self.now)) number ≡ Some result }
    {
        self.base + u64::from(self.places.get(number))
    }

    /// The unit of this number, from 0.
    pub(crate) fn get(&self, number: usize) -> Unit
        requires exists { number < length (units_in self.now) }
        requires sound { IsSoundTable self.now }
        ensures { slice_get (units_in self.now) number ≡ Some result }
    {
        let place = self.places.get(number);
        let (_, bytes) = self.code.split_at(place as usize);
        Unit {
            address: self.base + u64::from(place),
            what: what_stands(bytes, self.sleds.get(number)),
        }
    }
}
