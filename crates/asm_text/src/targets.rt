//! The places that names stand for.

ghost use Rattle.std.specs.Prelude.{◌≡◌, List, IfOk};
ghost use Rattle.asm_text.specs.Layout.{Placed, own_place, place_of};
ghost use Rattle.asm_text.specs.private.Laying.{line_placed, placed_in, next_places, earlier, ArePlaces};

use crate::layout::Laid;
use crate::name_table::NameTable;
use crate::statement::Statement;
use std::alloc::{AllocError, Global};

/// The place that a line gives: that of an instruction line's first byte, or a function's start.
fn own_place(line: &Laid) -> Option<u32>
    ensures { result ≡ own_place (line_placed line.now) }
{
    match line.statement {
        Statement::Function { .. } => Some(line.owner.start),
        Statement::Does(_) => Some(line.place),
        Statement::Base(_) | Statement::Entry(_) | Statement::Label(_) => None,
    }
}

/// The place that a line gives, or else that of the line after it.
fn place_before(line: &Laid, next: Option<u32>) -> Option<u32>
    ensures { result ≡ earlier (own_place (line_placed line.now)) next }
{
    match own_place(line) {
        Some(place) => Some(place),
        None => next,
    }
}

/// For each line, the place of the next instruction line or function, from this line on.
pub(crate) fn targets(alloc: Global, laid: &[Laid]) -> Result<Vec<Option<u32>>, AllocError>
    ensures { IfOk result (λ targets. targets.items ≡ next_places (placed_in laid.now)) }
{
    let mut targets = Vec::new(alloc);
    let mut next = None;
    for i in (0..laid.len()).rev() {
        next = place_before(&laid[i], next);
        targets.push(next)?;
    }
    targets.reverse();
    Ok(targets)
}

/// The place of a name: a function's start, or for a label the place of the next instruction line
/// or function.
pub(crate) fn place_of(names: &NameTable, targets: &[Option<u32>], name: &[u8]) -> Option<u32>
    ensures { (all : List Placed) → ArePlaces all names.now targets.now
        → result ≡ place_of name.now all }
{
    match names.line_of(name) {
        Some(line) if line < targets.len() => targets[line],
        _ => None,
    }
}
