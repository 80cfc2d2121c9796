//! Where the lines begin.

ghost use Rattle.std.specs.Prelude.{◌≡◌, ◌≤◌, IfOk};
ghost use Rattle.asm_text.specs.Layout.{widths, all_parts, by_threshold, lines_placed, owner_of, instruction_lines};
ghost use Rattle.asm_text.specs.private.{FirstPass.{lines_in}, Views.{statement_said}};
ghost use Rattle.asm_text.specs.private.Laying.{owner_in, placed_in};

use crate::first_pass::NumberedStatement;
use crate::statement::{Choice, Statement};
use crate::width::line_width;
use std::alloc::{AllocError, Global};
use xray_image::format::CODE_LIMIT;

/// The function that a line belongs to.
#[derive(Clone, Copy)]
pub(crate) struct Owner {
    /// Whether it is instrumented.
    pub(crate) traced: bool,
    /// Whether it says `always` or `args`.
    pub(crate) always: bool,
    /// Where it starts: at its entry sled, if it has one.
    pub(crate) start: u32,
}

/// A line with its function and its place, in bytes from the code's first.
#[derive(Clone, Copy)]
pub(crate) struct Laid<'a> {
    /// The line's number, from 1.
    pub(crate) line: u32,
    pub(crate) statement: Statement<'a>,
    pub(crate) owner: Owner,
    /// The place where the line begins. If the line has an alignment byte of its own, that is the
    /// byte's place.
    pub(crate) place: u32,
}

/// How many instruction lines there are before the next function.
fn instruction_lines(entries: &[NumberedStatement]) -> usize
    ensures { result ≡ instruction_lines (lines_in entries.now) }
{
    let mut count = 0;
    for entry in entries {
        match entry.statement {
            Statement::Function { .. } => return count,
            Statement::Does(_) => count += 1,
            Statement::Base(_) | Statement::Entry(_) | Statement::Label(_) => {}
        }
    }
    count
}

/// Whether a function is instrumented, by what it says and by the lines after it.
fn is_traced(threshold: u32, choice: Choice, following: &[NumberedStatement]) -> bool
    ensures { result ≡ by_threshold threshold choice (instruction_lines (lines_in following.now)) }
{
    match choice {
        Choice::Always | Choice::Args => true,
        Choice::Never => false,
        Choice::ByLength => threshold as usize <= instruction_lines(following),
    }
}

/// The function that a line belongs to, by that of the line before it and by the lines after it.
fn line_owner(
    threshold: u32,
    place: u32,
    owner: Owner,
    statement: &Statement,
    following: &[NumberedStatement],
) -> Owner
    requires { place ≤ CODE_LIMIT }
    ensures { owner_in result ≡ owner_of (by_threshold threshold) place (owner_in owner)
        (statement_said statement.now) (lines_in following.now) }
{
    match statement {
        Statement::Function { choice, .. } => {
            let traced = is_traced(threshold, *choice, following);
            Owner {
                traced,
                always: choice.is_always(),
                start: if traced { place + place % 2 } else { place },
            }
        }
        Statement::Base(_) | Statement::Entry(_) | Statement::Label(_) | Statement::Does(_) =>
            owner,
    }
}

/// All lines at their places.
pub(crate) fn lay_out<'a>(
    alloc: Global,
    threshold: u32,
    entries: &[NumberedStatement<'a>],
) -> Result<Vec<Laid<'a>>, AllocError>
    requires { widths (all_parts (by_threshold threshold) (lines_in entries.now)) ≤ CODE_LIMIT }
    ensures { IfOk result (λ laid. placed_in laid.items
        ≡ lines_placed (by_threshold threshold) (lines_in entries.now)) }
{
    let mut laid = Vec::new(alloc);
    let mut place = 0;
    let mut owner = Owner {
        traced: false,
        always: false,
        start: 0,
    };
    for (i, entry) in entries.iter().enumerate() {
        let (_, following) = entries.split_at(i + 1);
        owner = line_owner(threshold, place, owner, &entry.statement, following);
        laid.push(Laid {
            line: entry.line,
            statement: entry.statement,
            owner,
            place,
        })?;
        place += line_width(owner.traced, place, &entry.statement);
    }
    Ok(laid)
}
