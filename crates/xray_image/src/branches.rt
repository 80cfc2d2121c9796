//! Where the branches of a code go.

ghost use Rattle.std.specs.Prelude.{◌≡◌, ◌<◌, ◌^◌, ◌+◌, ◌↔◌, ℕ, List, length, Contains, IsTrue, IfSome, FitsSigned, OnOk, IfErr};
ghost use Rattle.std.specs.Int.{w128};
ghost use Rattle.subset_decode.specs.Encoding.{spelling};
ghost use Rattle.xray_image.specs.declared.unit.Unit.{Unit};
ghost use Rattle.xray_image.specs.private.Index.{AreWithin, IsIndexOf};
ghost use Rattle.xray_image.specs.Program.{addresses, branch_target, BranchReaches};
ghost use Rattle.xray_image.specs.private.Reading.{IsFirstFault};
ghost use Rattle.xray_image.specs.private.UnitTable.{units_in, IsSoundTable};
ghost use Rattle.xray_image.specs.Table.{BranchesRightly, place_of_unit};

use crate::fault::ImageFault;
use crate::unit::{Unit, UnitTable, What};
use crate::unit_index::UnitIndex;
use subset_decode::{CONDITIONAL_LENGTH, Instr, NEAR_LENGTH};

/// Where an instruction at an address goes, as a whole number, if it is a branch. The distance of a
/// branch counts from the address after it.
fn target(address: u64, instr: &Instr) -> Option<i128>
    ensures target { result ≡ branch_target (address + length (spelling instr.now)) instr.now }
    ensures fits { IfSome result (FitsSigned w128) }
{
    let address = i128::from(address);
    match *instr {
        Instr::Call { rel } | Instr::Jmp { rel } => Some(
            address + i128::from(NEAR_LENGTH) + i128::from(rel),
        ),
        Instr::Jnz { rel } => Some(address + i128::from(CONDITIONAL_LENGTH) + i128::from(rel)),
        Instr::Mov { .. }
        | Instr::Add { .. }
        | Instr::Sub { .. }
        | Instr::Push { .. }
        | Instr::Pop { .. }
        | Instr::Ret
        | Instr::Out { .. } => None,
    }
}

/// Whether a unit that branches goes to a unit. Units that don't branch pass.
fn branch_reaches_unit(index: &UnitIndex, unit: &Unit) -> bool
    ensures { (units : List Unit) → IsIndexOf (addresses units) index.now
        → ((a : ℕ) → Contains (addresses units) a → a < 2 ^ 64)
        → IsTrue result ↔ BranchReaches units unit.now }
{
    let What::Plain(instr) = unit.what else {
        return true;
    };
    let Some(target) = target(unit.address, &instr) else {
        return true;
    };
    match u64::try_from(target) {
        Ok(address) => index.find(address).is_some(),
        Err(_) => false,
    }
}

/// Checks each branch. `Target` gives the place of the first that goes to no unit's address.
pub(crate) fn check_branches(
    base: u64,
    index: &UnitIndex,
    units: &UnitTable,
) -> Result<(), ImageFault>
    requires index { IsIndexOf (addresses (units_in units.now)) index.now }
    requires base { base < 2 ^ 63 }
    requires sound { IsSoundTable units.now }
    requires within { AreWithin base (2 ^ 32) (addresses (units_in units.now)) }
    ensures right { OnOk result ((i : ℕ) → BranchesRightly (units_in units.now) i) }
    ensures refused { IfErr result (IsFirstFault (BranchesRightly (units_in units.now))
        (λ i. ImageFault.Target (place_of_unit base (units_in units.now) i))) }
{
    for number in 0..units.len() {
        let unit = units.get(number);
        if !branch_reaches_unit(index, &unit) {
            return Err(ImageFault::Target((unit.address - base) as u32));
        }
    }
    Ok(())
}
