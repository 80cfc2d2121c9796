//! The refusals at the end of the text.

ghost use Rattle.std.specs.{Prelude.{◌≡◌, ◌∷◌, List, MatchResult, Ok, Err}, List.{list_any}};
ghost use Rattle.asm_text.specs.Layout.{Placed, names_function, next_place};
ghost use Rattle.asm_text.specs.Refusals.{is_unresolved, resolved};
ghost use Rattle.asm_text.specs.private.FirstPass.{IsNames};
ghost use Rattle.asm_text.specs.private.Laying.{line_placed, placed_in, lines_of, ArePlaces};

use crate::fault::AsmFault;
use crate::layout::Laid;
use crate::name_table::NameTable;
use crate::statement::Statement;

/// Whether some function has this name.
fn has_function(laid: &[Laid], name: &[u8]) -> bool
    ensures { result ≡ list_any (λ line. names_function name.now line.1)
        (lines_of (placed_in laid.now)) }
{
    laid.iter().any(|line| line.statement.names_function(name))
}

/// Whether a line's name has no place. `target` is the place of the next instruction line or
/// function, from this line on.
fn is_unresolved(laid: &[Laid], names: &NameTable, line: &Laid, target: Option<u32>) -> bool
    ensures { (following : List Placed) → IsNames (lines_of (placed_in laid.now)) names.now
        → target ≡ next_place (line_placed line.now ∷ following)
        → result ≡ is_unresolved (lines_of (placed_in laid.now)) (line_placed line.now).statement
        (lines_of following) }
{
    match &line.statement {
        Statement::Entry(name) => !has_function(laid, *name),
        Statement::Label(_) => target.is_none(),
        Statement::Does(operation) => match operation.target_name() {
            Some(name) => names.line_of(name).is_none(),
            None => false,
        },
        Statement::Base(_) | Statement::Function { .. } => false,
    }
}

/// Refuses the first line with a name that has no place.
pub(crate) fn resolve(
    laid: &[Laid],
    names: &NameTable,
    targets: &[Option<u32>],
) -> Result<(), AsmFault>
    requires { ArePlaces (placed_in laid.now) names.now targets.now }
    ensures { let lines = lines_of (placed_in laid.now) in
        MatchResult result (λ _. resolved lines lines ≡ Ok lines)
        (λ e. resolved lines lines ≡ Err e) }
{
    for (i, line) in laid.iter().enumerate() {
        if is_unresolved(laid, names, line, targets[i]) {
            return Err(AsmFault::Label(line.line));
        }
    }
    Ok(())
}
