//! Checks of a line's operands.

ghost use Rattle.std.specs.Prelude.{◌≡◌, true, false, MatchResult};
ghost use Rattle.subset_decode.specs.Registers.{is_reserved};
ghost use Rattle.asm_text.specs.private.Views.{register_number, statement_said, statement_spoken, operation_checked, operation_written, operation_of, statement_of_spoken, Tells};

use crate::fault::AsmFault;
use crate::registers::{Register, RegisterWord};
use crate::statement::{Operation, Plain, RawOperation, RawStatement, Statement};
use xray_image::format::{BASE_ALIGNMENT, BASE_LIMIT};

/// The register, or the fault `Register` if it can't be named.
fn register(line: u32, word: RegisterWord) -> Result<Register, AsmFault>
    ensures { MatchResult result (λ reg. (register_number reg ≡ word) × (is_reserved word ≡ false))
        (λ e. (e ≡ AsmFault.Register line) × (is_reserved word ≡ true)) }
{
    match word.register() {
        Some(reg) => Ok(reg),
        None => Err(AsmFault::Register(line)),
    }
}

/// The operation of an instruction line. `Register` if it names a register that can't be named, and
/// `Range` if a number doesn't fit its field.
fn checked_operation<'a>(line: u32, written: &RawOperation<'a>) -> Result<Operation<'a>, AsmFault>
    ensures { Tells operation_checked result (operation_of line (operation_written written.now)) }
{
    match *written {
        RawOperation::Mov { dst, imm } => {
            let dst = register(line, dst)?;
            let imm = u32::try_from(imm).map_err(|_| AsmFault::Range(line))?;
            Ok(Operation::Plain(Plain::Mov { dst, imm }))
        }
        RawOperation::Add { dst, src } => {
            let dst = register(line, dst)?;
            let src = register(line, src)?;
            Ok(Operation::Plain(Plain::Add { dst, src }))
        }
        RawOperation::Sub { dst, src } => {
            let dst = register(line, dst)?;
            let src = register(line, src)?;
            Ok(Operation::Plain(Plain::Sub { dst, src }))
        }
        RawOperation::Push { reg } => {
            let reg = register(line, reg)?;
            Ok(Operation::Plain(Plain::Push { reg }))
        }
        RawOperation::Pop { reg } => {
            let reg = register(line, reg)?;
            Ok(Operation::Plain(Plain::Pop { reg }))
        }
        RawOperation::Out { port } => {
            let port = u8::try_from(port).map_err(|_| AsmFault::Range(line))?;
            Ok(Operation::Plain(Plain::Out { port }))
        }
        RawOperation::Go { branch, name } => Ok(Operation::Go { branch, name }),
        RawOperation::TailJump { name } => Ok(Operation::TailJump { name }),
        RawOperation::Return => Ok(Operation::Return),
    }
}

/// What a line says, with checked operands, or its refusal.
pub(crate) fn checked<'a>(line: u32, spoken: &RawStatement<'a>) -> Result<Statement<'a>, AsmFault>
    ensures { Tells statement_said result (statement_of_spoken line (statement_spoken spoken.now)) }
{
    match spoken {
        RawStatement::Base(address) => {
            let address = *address;
            if !address.is_multiple_of(BASE_ALIGNMENT) || address > BASE_LIMIT {
                return Err(AsmFault::Range(line));
            }
            Ok(Statement::Base(address))
        }
        RawStatement::Entry(name) => Ok(Statement::Entry(*name)),
        RawStatement::Function { name, choice } => Ok(Statement::Function {
            name: *name,
            choice: *choice,
        }),
        RawStatement::Label(name) => Ok(Statement::Label(*name)),
        RawStatement::Does(written) => Ok(Statement::Does(checked_operation(line, written)?)),
    }
}
