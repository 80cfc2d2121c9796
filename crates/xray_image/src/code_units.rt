//! All units of a code, and the sleds among them.

ghost use Rattle.std.specs.Prelude.{◌≡◌, ◌≤◌, ◌<◌, ◌^◌, ◌+◌, ◌⊎◌, [], ◌∷◌, ◌++◌, length, OnOk, IfOk, IfErr};
ghost use Rattle.xray_image.specs.Units.{sleds_in, places_from};
ghost use Rattle.xray_image.specs.private.Reading.{HasUnits, IsReadTo};
ghost use Rattle.xray_image.specs.Table.{UnitsStop};
ghost use Rattle.xray_image.specs.private.UnitTable.{unit_at, units_in, IsSoundTable};
ghost use Rattle.xray_image.specs.private.Views.{piece_of, places_in, fault_at, AreTablesTo};

use crate::fault::ImageFault;
use crate::running_sums::LARGEST_STEP;
use crate::unit::UnitTable;
use crate::unit_reader::{NoUnit, RawUnit, read_unit};
use std::alloc::Global;

/// A sled as the code shows it.
#[derive(Clone, Copy)]
pub(crate) struct SledSpot {
    /// The address of its first byte.
    pub(crate) address: u64,
    /// The displacement of its nop.
    pub(crate) shift: u32,
    /// Whether it begins with a return, as an exit sled does.
    pub(crate) returns: bool,
}

/// The units of a code, and the sleds among them, both in ascending address.
#[derive(Drop)]
pub(crate) struct CodeUnits {
    pub(crate) units: UnitTable,
    pub(crate) sleds: Vec<SledSpot>,
}

impl NoUnit {
    /// The fault at a place of the code.
    fn at(self, place: u32) -> ImageFault
        ensures { result ≡ fault_at place self }
    {
        match self {
            NoUnit::Sled => ImageFault::Sled(place),
            NoUnit::Code(fault) => ImageFault::Code(place, fault),
        }
    }
}

impl CodeUnits {
    /// Adds the sled at an address, if the unit there is a sled.
    fn add_sled(&mut self, address: u64, raw: RawUnit) -> Result<(), ImageFault>
        ensures sleds { OnOk result (places_in self.new ≡ places_in self.old
            ++ places_from address (piece_of raw ∷ [])) }
        ensures units { self.new.units ≡ self.old.units }
        ensures full { IfErr result (λ fault. fault ≡ ImageFault.NoMemory) }
    {
        let (shift, returns) = match raw {
            RawUnit::Instruction(_) | RawUnit::Align => return Ok(()),
            RawUnit::JumpSled(shift) => (shift, false),
            RawUnit::ReturnSled(shift) => (shift, true),
        };
        self.sleds.push(SledSpot {
            address,
            shift,
            returns,
        })?;
        Ok(())
    }

    /// Adds a unit at an address, with its width in bytes, after the others.
    fn add(&mut self, address: u64, raw: RawUnit, width: u32) -> Result<(), ImageFault>
        requires sound { IsSoundTable self.old.units }
        requires width { width ≤ LARGEST_STEP }
        requires within { self.old.units.places.total + width ≤ length self.old.units.code.items }
        requires few { self.old.units.sleds.total + 1 < 2 ^ 32 }
        ensures units { OnOk result (units_in self.new.units ≡ units_in self.old.units
            ++ unit_at self.old.units.base self.old.units.code.items
            (self.old.units.places.total, self.old.units.sleds.total) ∷ []) }
        ensures sleds { OnOk result (places_in self.new ≡ places_in self.old
            ++ places_from address (piece_of raw ∷ [])) }
        ensures base { OnOk result (self.new.units.base ≡ self.old.units.base) }
        ensures code { OnOk result (self.new.units.code ≡ self.old.units.code) }
        ensures place { OnOk result (self.new.units.places.total
            ≡ self.old.units.places.total + width) }
        ensures counted { OnOk result (self.new.units.sleds.total
            ≡ self.old.units.sleds.total + sleds_in (piece_of raw)) }
        ensures sound { OnOk result (IsSoundTable self.new.units) }
        ensures full { IfErr result (λ fault. fault ≡ ImageFault.NoMemory) }
    {
        let sleds = raw.sleds();
        self.add_sled(address, raw)?;
        self.units.push(width, sleds)?;
        Ok(())
    }

    /// Adds the unit at a place of the code, and returns the place after it.
    fn add_next(&mut self, base: u64, code: &[u8], at: usize) -> Result<usize, ImageFault>
        requires base { base < 2 ^ 63 }
        requires code { length code.now < 2 ^ 32 }
        requires left { at < length code.now }
        requires tables { AreTablesTo base code.now at self.old }
        requires read { IsReadTo base code.now at (units_in self.old.units) (places_in self.old) }
        ensures tables { IfOk result (λ next. AreTablesTo base code.now next self.new) }
        ensures read { IfOk result (λ next.
            IsReadTo base code.now next (units_in self.new.units) (places_in self.new)) }
        ensures next { IfOk result (λ next. at < next) }
        ensures refused { IfErr result (λ fault. (fault ≡ ImageFault.NoMemory)
            ⊎ UnitsStop base code.now fault) }
    {
        let address = base + at as u64;
        let (_, left) = code.split_at(at);
        match read_unit(address, left) {
            Ok((raw, length)) => {
                self.add(address, raw, length as u32)?;
                Ok(at + length)
            }
            Err(none) => Err(none.at(at as u32)),
        }
    }

    /// The units of the code whose first byte has the address `base`. If they don't cover the code,
    /// the answer is the fault at the first place where no unit stands.
    pub(crate) fn read(alloc: Global, base: u64, code: &[u8]) -> Result<CodeUnits, ImageFault>
        requires base { base < 2 ^ 63 }
        requires code { length code.now < 2 ^ 32 }
        ensures found { IfOk result (λ read.
            HasUnits base code.now (units_in read.units) (places_in read)) }
        ensures tables { IfOk result (AreTablesTo base code.now (length code.now)) }
        ensures refused { IfErr result (λ fault. (fault ≡ ImageFault.NoMemory)
            ⊎ UnitsStop base code.now fault) }
    {
        let mut read = CodeUnits {
            units: UnitTable::new(alloc, base, code)?,
            sleds: Vec::new(alloc),
        };
        let mut at = 0;
        while at < code.len() {
            at = read.add_next(base, code, at)?;
        }
        Ok(read)
    }
}
