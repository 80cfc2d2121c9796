//! Laws of the definitions. Each law is the contract of a function that does nothing.

ghost use Rattle.std.specs.Prelude.{◌≡◌, Bool, List, ℕ, Ok, Some, true, false};
ghost use Rattle.xray_image.specs.declared.sled.Sled.{Sled};
ghost use Rattle.xray_image.specs.{Ids.{name_of}, Program.{IsAccepted, Program}};
ghost use Rattle.asm_text.specs.{Layout.{StatementLines}, Writing.{image_bytes}};
ghost use Rattle.asm_text.specs.Assembling.{assembled, statements_said, image_of};
ghost use Rattle.asm_text.specs.Programs.{program_said, sled_at_line, function_over};

use xray_image::one_reading;

/// If a text isn't refused, its image is accepted by the definition of image files, with the
/// program that the text says.
pub fn an_assembled_file_is_accepted()
    ensures { (text : List ℕ) (threshold : ℕ) (relative : Bool) (said : StatementLines)
        → statements_said text ≡ Ok said
        → IsAccepted (image_bytes (image_of threshold relative said)) (program_said threshold said) }
{}

/// The two images of a text, with absolute and with relative addresses in their maps, hold equal
/// programs.
pub fn both_map_versions_hold_one_program()
    ensures { (text : List ℕ) (threshold : ℕ) (absolute relative : List ℕ) (p q : Program)
        → assembled text threshold false ≡ Ok absolute → assembled text threshold true ≡ Ok relative
        → IsAccepted absolute p → IsAccepted relative q → p ≡ q }
{
    one_reading();
}

/// Each sled belongs to the function in whose lines it is. The name by the sled's id is that of the
/// last function line up to the sled's line.
pub fn each_sled_is_of_its_function()
    ensures { (text : List ℕ) (threshold : ℕ) (said : StatementLines) → statements_said text ≡ Ok said
        → (i : ℕ) (sled : Sled) → sled_at_line threshold said i ≡ Some sled
        → name_of (program_said threshold said) sled.id ≡ function_over said i }
{}
