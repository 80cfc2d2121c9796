//! Reading images from the bytes of a file.

ghost use Rattle.std.specs.Prelude.{◌≡◌, ◌<◌, ◌^◌, ◌⊎◌, ℕ, List, length, map, true, All, Ok, Err, OnOk, IfOk, IfErr};
ghost use Rattle.std.specs.List.Sorted.{IsNonDecreasingBy};
ghost use Rattle.xray_image.specs.private.ImageView.{named_function};
ghost use Rattle.xray_image.specs.private.{Index.{AreWithin, IsIndexOf}, Judging.{IsJudged}};
ghost use Rattle.xray_image.specs.Program.{Program, IsAccepted, addresses, is_name_byte};
ghost use Rattle.xray_image.specs.Table.{ImageReading, ReadsAs, ReadsProgram};
ghost use Rattle.xray_image.specs.private.UnitTable.{units_in, IsSoundTable};
ghost use Rattle.xray_image.specs.private.Views.{entry_of, function_of, places_in, program_read};

use crate::branches::check_branches;
use crate::code_units::CodeUnits;
use crate::fault::ImageFault;
use crate::functions::check_functions;
use crate::header::Header;
use crate::ids::FunctionIds;
use crate::image::{Function, Image};
use crate::laws::one_verdict;
use crate::parts::{FileParts, FunctionEntry};
use crate::sled_map::{check_distances, check_entries, check_order, read_sleds};
use crate::unit_index::UnitIndex;
use std::alloc::{AllocError, Global};

/// Checks what a file says of its code, in the order of the refusals: the functions, the order of
/// the map, its entries, the distances to the trampolines, and the branches.
fn check_program(
    alloc: Global,
    header: &Header,
    parts: &FileParts<'_>,
    code: &CodeUnits,
    index: &UnitIndex,
) -> Result<(), ImageFault>
    requires index { IsIndexOf (addresses (units_in code.now.units)) index.now }
    requires sound { IsSoundTable code.now.units }
    requires base { header.now.base < 2 ^ 63 }
    requires within { AreWithin header.now.base (2 ^ 32) (addresses (units_in code.now.units)) }
    requires functions { length parts.now.functions.items < 2 ^ 32 }
    requires spots { length code.now.sleds.items < 2 ^ 32 }
    requires entries { length parts.now.entries.items < 2 ^ 32 }
    ensures fit { OnOk result (IsJudged (map entry_of parts.now.entries.items) (places_in code.now)
        (program_read header.now parts.now code.now)) }
    ensures refused { IfErr result (λ fault. (fault ≡ ImageFault.NoMemory)
        ⊎ ReadsProgram (map entry_of parts.now.entries.items) (places_in code.now)
        (program_read header.now parts.now code.now) (Err fault)) }
{
    check_functions(alloc, header.base, index, &parts.functions)?;
    check_order(&code.sleds, &parts.entries)?;
    check_entries(&parts.functions, &code.sleds, &parts.entries)?;
    check_distances(&header.trampolines, &code.sleds, &parts.entries)?;
    check_branches(header.base, index, &code.units)?;
    Ok(())
}

/// The functions, with copies of their names.
fn named_functions(
    alloc: Global,
    entries: &[FunctionEntry<'_>],
) -> Result<Vec<Function>, AllocError>
    requires { All (λ f. All (λ b. is_name_byte b ≡ true) f.name) (map function_of entries.now) }
    ensures { IfOk result (λ functions.
        map named_function functions.items ≡ map function_of entries.now) }
{
    let mut functions = Vec::with_capacity(alloc, entries.len())?;
    for entry in entries {
        functions.push(Function::new(alloc, entry.start, entry.name)?)?;
    }
    Ok(functions)
}

/// The image of an accepted file.
fn image_of(
    alloc: Global,
    header: &Header,
    parts: &FileParts<'_>,
    code: CodeUnits,
    index: UnitIndex,
) -> Result<Image, AllocError>
    requires accepted { (bytes : List ℕ) × IsAccepted bytes (program_read header.now parts.now code) }
    requires judged { IsJudged (map entry_of parts.now.entries.items) (places_in code)
        (program_read header.now parts.now code) }
    requires ascend { IsNonDecreasingBy (λ place. place.address) (places_in code) }
    requires index { IsIndexOf (addresses (units_in code.units)) index }
    requires table { code.units.base ≡ header.now.base }
    requires code { code.units.code.items ≡ parts.now.code.now }
    requires sound { IsSoundTable code.units }
    requires entry { header.now.entry_index < length parts.now.functions.items }
    requires functions { length parts.now.functions.items < 2 ^ 32 }
    requires entries { length parts.now.entries.items < 2 ^ 32 }
    ensures { IfOk result (λ image. image ≡ program_read header.now parts.now code) }
{
    let functions = named_functions(alloc, &parts.functions)?;
    let ids = FunctionIds::new(alloc, &parts.functions, &parts.entries)?;
    let sleds = read_sleds(alloc, &code.sleds, &parts.entries, &ids.of_entries)?;
    Ok(Image {
        base: header.base,
        entry: parts.functions[header.entry_index as usize].start,
        functions,
        units: code.units,
        sleds,
        trampolines: header.trampolines,
        index,
        ids: ids.functions,
    })
}

/// Reads an image file: its header, its parts and its units. Then checks what the file says of
/// them.
fn read_program(alloc: Global, bytes: &[u8]) -> Result<Image, ImageFault>
    ensures { (result ≡ Err ImageFault.NoMemory) ⊎ ReadsAs bytes.now result }
{
    let header = Header::read(bytes)?;
    let parts = FileParts::read(alloc, &header, bytes)?;
    let code = CodeUnits::read(alloc, header.base, parts.code)?;
    let index = UnitIndex::new(alloc, header.base, parts.code.len(), &code.units)?;
    check_program(alloc, &header, &parts, &code, &index)?;
    Ok(image_of(alloc, &header, &parts, code, index)?)
}

/// Reads an image file. If it isn't accepted, the answer is the first refusal of the table that
/// applies; see `ImageFault`. `NoMemory` means that an allocation was refused.
pub fn read_image(alloc: Global, bytes: &[u8]) -> Result<Image, ImageFault>
    // The answer is what the file reads as, unless memory runs out.
    ensures reads { (result ≡ Err ImageFault.NoMemory) ⊎ ReadsAs bytes.now result }
    ensures exact { (verdict : ImageReading) → ReadsAs bytes.now verdict
        → (result ≡ verdict) ⊎ (result ≡ Err ImageFault.NoMemory) }
    // A file is read as an image exactly when it is accepted, unless memory runs out.
    ensures found { IfOk result (IsAccepted bytes.now) }
    ensures complete { (program : Program) → IsAccepted bytes.now program
        → (result ≡ Ok program) ⊎ (result ≡ Err ImageFault.NoMemory) }
{
    one_verdict();
    read_program(alloc, bytes)
}

/// A refused allocation ends the reading.
impl<E: Into<xray_io::NoMemory> + Drop> From<E> for ImageFault {
    ghost use Rattle.xray_image.specs.declared.fault.ImageFault.TheVariants.{NoMemory};

    ghost from_gives = { λ _ fault. fault ≡ NoMemory };

    fn from(_error: E) -> ImageFault {
        ImageFault::NoMemory
    }
}
