//! Laws of the definitions. Each law is the contract of a function that does nothing.

ghost use Rattle.std.specs.Prelude.{◌≡◌, ◌<◌, ◌↔◌, List, ℕ, All, Ok};
ghost use Rattle.xray_image.specs.{Units.{Piece, IsUnits}, Program.{Program, IsAccepted}};
ghost use Rattle.xray_image.specs.Table.{ImageReading, ReadsAs};

use subset_decode::{one_answer, one_instruction};

/// No code has two lists of units.
pub fn one_unit_list()
    ensures { (code : List ℕ) (ps qs : List Piece) → IsUnits code ps → IsUnits code qs → ps ≡ qs }
{
    one_instruction();
}

/// No file has two readings.
pub fn one_reading()
    ensures { (bytes : List ℕ) (p q : Program) → IsAccepted bytes p → IsAccepted bytes q → p ≡ q }
{
    one_instruction();
}

/// The table of refusals decides each file in at most one way. It accepts exactly the accepted
/// files, to which none of its rows applies.
pub fn one_verdict()
    ensures one { (bytes : List ℕ) (v w : ImageReading) → ReadsAs bytes v → ReadsAs bytes w → v ≡ w }
    ensures accepted { (bytes : List ℕ) (program : Program)
        → IsAccepted bytes program ↔ ReadsAs bytes (Ok program) }
{
    one_instruction();
    one_answer();
}

/// The table of refusals decides each file, whatever its bytes are. It reads as a program, or it is
/// refused by the first row that applies. With `one_verdict`, there is exactly one way.
pub fn some_verdict()
    ensures { (bytes : List ℕ) → All (λ b. b < 256) bytes → (verdict : ImageReading) × ReadsAs bytes verdict }
{
    one_answer();
}
