//! The functions of the image file, and the kinds of its sleds.

ghost use Rattle.std.specs.Prelude.{◌≡◌, ◌≤◌, ◌++◌, OnOk, length};
ghost use Rattle.std.specs.List.{flat_map};
ghost use Rattle.asm_text.specs.Layout.{functions, sled_kind};
ghost use Rattle.asm_text.specs.Writing.{function_bytes};
ghost use Rattle.asm_text.specs.private.{Views.{statement_said}, Laying.{line_placed, placed_in}};
ghost use Rattle.asm_text.specs.private.Files.{function_line_bytes, HasShortName, AreShortNames};

use crate::fields::push_u64;
use crate::layout::Laid;
use crate::statement::{Operation, Statement};
use std::alloc::AllocError;
use xray_image::SledKind;
use xray_image::format::{BASE_LIMIT, NAME_LIMIT};

/// Adds the entry of a function.
fn push_function(out: &mut Vec<u8>, start: u64, name: &[u8]) -> Result<(), AllocError>
    requires { length name.now ≤ NAME_LIMIT }
    ensures { OnOk result (out.new.items ≡ out.old.items
        ++ function_bytes (record { start = start; name = name.now })) }
{
    push_u64(out, start)?;
    out.push(name.len() as u8)?;
    out.extend_from_slice(name)
}

/// Adds the function that a line begins, if it begins one.
fn push_function_line(out: &mut Vec<u8>, base: u64, line: &Laid) -> Result<(), AllocError>
    requires base { base ≤ BASE_LIMIT }
    requires name { HasShortName (statement_said line.now.statement) }
    ensures { OnOk result (out.new.items ≡ out.old.items
        ++ function_line_bytes base (line_placed line.now)) }
{
    match &line.statement {
        Statement::Function { name, .. } => {
            push_function(out, base + u64::from(line.owner.start), *name)
        }
        Statement::Base(_) | Statement::Entry(_) | Statement::Label(_) | Statement::Does(_) => Ok(
            (),
        ),
    }
}

/// The kind of the sled that a line of an instrumented function has.
pub(crate) fn kind_of(statement: &Statement) -> Option<u8>
    ensures { result ≡ sled_kind (statement_said statement.now) }
{
    match statement {
        Statement::Function { choice, .. } => Some(choice.entry_kind().number()),
        Statement::Does(Operation::Return) => Some(SledKind::Exit.number()),
        Statement::Does(Operation::TailJump { .. }) => Some(SledKind::Tail.number()),
        Statement::Does(Operation::Plain(_) | Operation::Go { .. })
        | Statement::Base(_)
        | Statement::Entry(_)
        | Statement::Label(_) => None,
    }
}

/// Adds the entries of all functions.
pub(crate) fn push_functions(out: &mut Vec<u8>, base: u64, lines: &[Laid]) -> Result<(), AllocError>
    requires base { base ≤ BASE_LIMIT }
    requires names { AreShortNames lines.now }
    ensures { OnOk result (out.new.items ≡ out.old.items
        ++ flat_map function_bytes (functions base (placed_in lines.now))) }
{
    for line in lines {
        push_function_line(out, base, line)?;
    }
    Ok(())
}
