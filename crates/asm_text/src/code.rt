//! The bytes of the code.

ghost use Rattle.std.specs.Prelude.{◌≡◌, ◌≤◌, ◌*◌, ◌%◌, ◌++◌, ◌∷◌, ◌==◌, pos, ◌-ℤ◌, OnOk, if◌then◌else◌};
ghost use Rattle.std.specs.List.{flat_map};
ghost use Rattle.subset_decode.specs.Encoding.{spelling};
ghost use Rattle.xray_image.specs.Units.{nop_bytes, piece_bytes};
ghost use Rattle.asm_text.specs.Layout.{sled_shift, branch_to, pieces, line_pieces, piece_of, plain_parts, traced_parts, Jump};
ghost use Rattle.asm_text.specs.private.Views.{operation_checked};
ghost use Rattle.asm_text.specs.private.Laying.{line_placed, parts_bytes};
ghost use Rattle.asm_text.specs.private.LaidTexts.{all_in, IsLaidText};

use crate::fields::push_u32;
use crate::laid_text::LaidText;
use crate::layout::Laid;
use crate::statement::{Branch, Operation, Statement};
use crate::width::line_width;
use std::alloc::AllocError;
use subset_decode::{Instr, encode};
use xray_image::format::{ALIGNMENT, CODE_LIMIT, JUMP_HEAD, NOP, RETURN_HEAD};

/// The displacement of the nop in each sled, as LLVM's compiler writes it: `nopw 512(%rax,%rax,1)`.
const SHIFT: u32 = 512;

/// Adds an instruction.
fn push_instr(out: &mut Vec<u8>, instr: &Instr) -> Result<(), AllocError>
    ensures { OnOk result (out.new.items ≡ out.old.items ++ spelling instr.now) }
{
    out.extend_from_slice(encode(instr).as_slice())
}

/// Adds a sled: its head, and the nop that fills it.
fn push_filled(out: &mut Vec<u8>, head: &[u8; 2]) -> Result<(), AllocError>
    ensures { OnOk result (out.new.items ≡ out.old.items ++ (head.now ++ nop_bytes sled_shift)) }
{
    out.extend_from_slice(head)?;
    out.extend_from_slice(&NOP)?;
    push_u32(out, SHIFT)
}

/// Adds the sled with this head at a place. If the place is odd, an alignment byte comes before the
/// sled.
fn push_sled(out: &mut Vec<u8>, place: u32, head: &[u8; 2]) -> Result<(), AllocError>
    ensures { let sled = head.now ++ nop_bytes sled_shift in OnOk result (out.new.items
        ≡ out.old.items ++ (if place % 2 == 0 then sled else ALIGNMENT ∷ sled)) }
{
    if !place.is_multiple_of(2) {
        out.push(ALIGNMENT)?;
    }
    push_filled(out, head)
}

/// A branch to a target. The distance counts from the place after the branch, which is `following`.
fn branch(branch: Branch, target: u32, following: u32) -> Instr
    requires target { target ≤ CODE_LIMIT }
    requires following { following ≤ 2 * CODE_LIMIT }
    ensures { result ≡ branch_to branch (pos target -ℤ pos following) }
{
    let rel = target as i32 - following as i32;
    match branch {
        Branch::Call => Instr::Call { rel },
        Branch::Jmp => Instr::Jmp { rel },
        Branch::Jnz => Instr::Jnz { rel },
    }
}

/// Adds a branch to a name.
fn push_branch(
    out: &mut Vec<u8>,
    text: &LaidText,
    kind: Branch,
    name: &[u8],
    following: u32,
) -> Result<(), AllocError>
    requires text { IsLaidText text.now }
    requires following { following ≤ 2 * CODE_LIMIT }
    ensures { OnOk result (out.new.items ≡ out.old.items
        ++ piece_bytes (piece_of (all_in text.now) following (Jump kind name.now))) }
{
    push_instr(out, &branch(kind, text.target_of(name), following))
}

/// Adds an instruction line of a function that isn't instrumented.
fn push_plain(
    out: &mut Vec<u8>,
    text: &LaidText,
    operation: &Operation,
    following: u32,
) -> Result<(), AllocError>
    requires text { IsLaidText text.now }
    requires following { following ≤ 2 * CODE_LIMIT }
    ensures { OnOk result (out.new.items ≡ out.old.items
        ++ parts_bytes (all_in text.now) following (plain_parts (operation_checked operation.now))) }
{
    match operation {
        Operation::Plain(plain) => push_instr(out, &plain.instr()),
        Operation::Go { branch, name } => push_branch(out, text, *branch, *name, following),
        Operation::TailJump { name } => push_branch(out, text, Branch::Jmp, *name, following),
        Operation::Return => push_instr(out, &Instr::Ret),
    }
}

/// Adds an instruction line of an instrumented function.
fn push_traced(
    out: &mut Vec<u8>,
    text: &LaidText,
    place: u32,
    operation: &Operation,
    following: u32,
) -> Result<(), AllocError>
    requires text { IsLaidText text.now }
    requires following { following ≤ 2 * CODE_LIMIT }
    ensures { OnOk result (out.new.items ≡ out.old.items
        ++ parts_bytes (all_in text.now) following
        (traced_parts place (operation_checked operation.now))) }
{
    match operation {
        Operation::Plain(_) | Operation::Go { .. } => push_plain(out, text, operation, following),
        Operation::TailJump { name } => {
            push_sled(out, place, &JUMP_HEAD)?;
            push_branch(out, text, Branch::Jmp, *name, following)
        }
        Operation::Return => push_sled(out, place, &RETURN_HEAD),
    }
}

/// Adds a line.
#[tactic(auto, using(crate::proofs::CodeLemmas::sled_alone))]
fn push_line(out: &mut Vec<u8>, text: &LaidText, line: &Laid) -> Result<(), AllocError>
    requires text { IsLaidText text.now }
    requires place { line.now.place ≤ CODE_LIMIT }
    ensures { OnOk result (out.new.items ≡ out.old.items
        ++ flat_map piece_bytes (line_pieces (all_in text.now) (line_placed line.now))) }
{
    let traced = line.owner.traced;
    let following = line.place + line_width(traced, line.place, &line.statement);
    match &line.statement {
        Statement::Function { .. } if traced => push_sled(out, line.place, &JUMP_HEAD),
        Statement::Does(operation) if traced => {
            push_traced(out, text, line.place, operation, following)
        }
        Statement::Does(operation) => push_plain(out, text, operation, following),
        Statement::Base(_)
        | Statement::Entry(_)
        | Statement::Function { .. }
        | Statement::Label(_) => Ok(()),
    }
}

/// Adds the whole code.
pub(crate) fn push_code(out: &mut Vec<u8>, text: &LaidText) -> Result<(), AllocError>
    requires { IsLaidText text.now }
    ensures { OnOk result (out.new.items ≡ out.old.items
        ++ flat_map piece_bytes (pieces (all_in text.now))) }
{
    for line in &text.lines {
        push_line(out, text, line)?;
    }
    Ok(())
}
