//! From a text to its image.

ghost use Rattle.std.specs.Prelude.{◌≡◌, ◌<◌, ◌⊎◌, length, IfOk};
ghost use Rattle.std.specs.Str.Lines.{lines};
ghost use Rattle.asm_text.specs.declared.fault.AsmFault.TheVariants.{NoMemory};
ghost use Rattle.asm_text.specs.{Assembling.{assembled, seen}, Programs.{IsProgramOf}};

use crate::ending::resolve;
use crate::fault::AsmFault;
use crate::first_pass::read_text;
use crate::laid_text::LaidText;
use crate::map::MapVersion;
use crate::write::write_file;
use std::alloc::Global;
use text_lines::count_lines;

/// The image file of an assembler text. A function gets sleds if it says `always` or `args`, and
/// none if it says `never`. If it says nothing, it gets sleds if it has at least `threshold`
/// instruction lines. The sleds are those of compiler-rt's `xray_x86_64.cpp`: one at the function's
/// entry, one in place of each `ret`, and one before each tail jump. If the function says `args`,
/// the entry sled logs the first argument.
///
/// If `relative` is true, the entries of the sled map have version 2, in which an address counts
/// from the field that holds it. Otherwise they have version 0, and their addresses are absolute.
///
/// A text that can't be assembled is refused by its first fault; see `AsmFault`. `NoMemory` may
/// come in place of any answer. The text has to have fewer than `u32::MAX` lines.
pub fn assemble(
    alloc: Global,
    text: &[u8],
    threshold: u32,
    relative: bool,
) -> Result<Vec<u8>, AsmFault>
    requires { length (lines text.now) < u32.MAX }
    ensures made { (result ≡ Err NoMemory) ⊎ (seen result ≡ assembled text.now threshold relative) }
    // Each file is accepted by the definition of image files, and holds exactly the program that
    // the text says, in both versions.
    ensures accepted { IfOk result (λ file. IsProgramOf text.now threshold file.items) }
{
    let pass = read_text(alloc, text)?;
    if pass.totals.end_early() {
        return Err(AsmFault::Syntax(count_lines(text) as u32 + 1));
    }
    let laid = LaidText::new(alloc, threshold, pass)?;
    resolve(&laid.lines, &laid.names, &laid.targets)?;
    Ok(write_file(alloc, &laid, MapVersion::new(relative))?)
}

/// A refused allocation ends the assembling.
impl<E: Into<xray_io::NoMemory> + Drop> From<E> for AsmFault {
    ghost from_gives = { λ _ fault. fault ≡ NoMemory };

    fn from(_error: E) -> AsmFault {
        AsmFault::NoMemory
    }
}
