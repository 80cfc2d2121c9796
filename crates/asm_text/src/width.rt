//! How many bytes and sleds a line makes.

ghost use Rattle.std.specs.Prelude.{◌≡◌, ◌≤◌, ◌+◌, ◌%◌, ℕ, length, nat_lt, sum_by, if◌then◌else◌};
ghost use Rattle.subset_decode.specs.Encoding.{spelling};
ghost use Rattle.asm_text.specs.Layout.{widths, sleds_of_part, parts_of_line, traced_parts, plain_parts, branch_width};
ghost use Rattle.asm_text.specs.private.Views.{statement_said, operation_checked, plain_instr, register_number};

use crate::registers::Register;
use crate::statement::{Branch, Operation, Plain, Statement};
use subset_decode::{CONDITIONAL_LENGTH, LONGEST, NEAR_LENGTH, RETURN_LENGTH};
use xray_image::format::SLED_LENGTH;

/// The first register whose number doesn't fit the three bits that an opcode has for it.
const FIRST_EXTENDED: u8 = 8;

/// The length of `mov` in bytes, without its prefix.
const MOVE_LENGTH: u32 = 5;

/// The length of `add` and `sub` in bytes, with their prefix.
const TWO_REGISTERS_LENGTH: u32 = 3;

/// The length of `push` and `pop` in bytes, without their prefix.
const STACK_LENGTH: u32 = 1;

/// The length of `out` in bytes.
const PORT_LENGTH: u32 = 2;

/// How many bytes the prefix has that an opcode with this register needs.
fn prefix_width(reg: Register) -> u32
    ensures { result ≡ (if nat_lt (register_number reg) 8 then 0 else 1) }
{
    if reg.reg().number() < FIRST_EXTENDED {
        0
    } else {
        1
    }
}

/// How many bytes an instruction has that goes to no name.
fn instr_width(plain: &Plain) -> u32
    ensures width { result ≡ length (spelling (plain_instr plain.now)) }
    ensures few { result ≤ LONGEST }
{
    match *plain {
        Plain::Mov { dst, .. } => prefix_width(dst) + MOVE_LENGTH,
        Plain::Add { .. } => TWO_REGISTERS_LENGTH,
        Plain::Sub { .. } => TWO_REGISTERS_LENGTH,
        Plain::Push { reg } => prefix_width(reg) + STACK_LENGTH,
        Plain::Pop { reg } => prefix_width(reg) + STACK_LENGTH,
        Plain::Out { .. } => PORT_LENGTH,
    }
}

/// How many bytes a branch has.
fn branch_width(branch: Branch) -> u32
    ensures width { result ≡ branch_width branch }
    ensures few { result ≤ CONDITIONAL_LENGTH }
{
    match branch {
        Branch::Call | Branch::Jmp => NEAR_LENGTH,
        Branch::Jnz => CONDITIONAL_LENGTH,
    }
}

/// How many bytes a sled has at a place. If the place is odd, that includes the alignment byte
/// before it.
fn aligned_width(place: u32) -> u32
    ensures width { result ≡ place % 2 + SLED_LENGTH }
    ensures few { result ≤ SLED_LENGTH + 1 }
{
    place % 2 + SLED_LENGTH as u32
}

/// How many bytes an instruction line makes in a function that isn't instrumented.
fn plain_width(operation: &Operation) -> u32
    ensures width { result ≡ widths (plain_parts (operation_checked operation.now)) }
    ensures few { result ≤ LONGEST }
{
    match operation {
        Operation::Plain(plain) => instr_width(plain),
        Operation::Go { branch, .. } => branch_width(*branch),
        Operation::TailJump { .. } => NEAR_LENGTH,
        Operation::Return => RETURN_LENGTH,
    }
}

/// How many bytes an instruction line makes in an instrumented function, if it begins at this
/// place.
#[tactic(auto, using(crate::proofs::WidthLemmas::widths_aligned, crate::proofs::WidthLemmas::widths_aligned_branch))]
fn traced_width(place: u32, operation: &Operation) -> u32
    ensures width { result ≡ widths (traced_parts place (operation_checked operation.now)) }
    ensures few { result ≤ SLED_LENGTH + 1 + NEAR_LENGTH }
{
    match operation {
        Operation::Plain(_) | Operation::Go { .. } => plain_width(operation),
        Operation::TailJump { .. } => aligned_width(place) + NEAR_LENGTH,
        Operation::Return => aligned_width(place),
    }
}

/// How many bytes a line makes, if it begins at this place. `traced` says whether its function is
/// instrumented.
#[tactic(auto, using(crate::proofs::WidthLemmas::widths_aligned))]
pub(crate) fn line_width(traced: bool, place: u32, statement: &Statement) -> u32
    ensures width { result ≡ widths (parts_of_line traced place (statement_said statement.now)) }
    ensures few { result ≤ SLED_LENGTH + 1 + NEAR_LENGTH }
{
    match statement {
        Statement::Function { .. } if traced => aligned_width(place),
        Statement::Does(operation) if traced => traced_width(place, operation),
        Statement::Does(operation) => plain_width(operation),
        Statement::Base(_)
        | Statement::Entry(_)
        | Statement::Function { .. }
        | Statement::Label(_) => 0,
    }
}

/// How many sleds a line makes, wherever it begins.
#[tactic(auto, using(crate::proofs::WidthLemmas::sleds_aligned, crate::proofs::WidthLemmas::sleds_aligned_branch))]
pub(crate) fn line_sleds(traced: bool, statement: &Statement) -> u32
    ensures sleds { (place : ℕ) → result
        ≡ sum_by sleds_of_part (parts_of_line traced place (statement_said statement.now)) }
    ensures few { result ≤ 1 }
{
    match statement {
        Statement::Function { .. } if traced => 1,
        Statement::Does(Operation::TailJump { .. } | Operation::Return) if traced => 1,
        Statement::Base(_)
        | Statement::Entry(_)
        | Statement::Function { .. }
        | Statement::Label(_)
        | Statement::Does(_) => 0,
    }
}
