//! What a line says.

ghost use Rattle.std.specs.Prelude.{◌≡◌, option_copied};

use crate::registers::{Register, RegisterWord};
use subset_decode::Instr;
use xray_image::SledKind;

/// When a function is instrumented.
#[derive(Clone, Copy)]
pub(crate) enum Choice {
    /// Depending on its number of instruction lines.
    ByLength,
    /// In any case.
    Always,
    /// In any case, with argument logging at its entry.
    Args,
    /// In no case.
    Never,
}

impl Choice {
    ghost use Rattle.xray_image.specs.Kinds.{kind_number};
    ghost use Rattle.asm_text.specs.Layout.{entry_kind, is_always};

    /// Whether the function is always instrumented.
    pub(crate) fn is_always(self) -> bool
        ensures { result ≡ is_always self }
    {
        match self {
            Choice::Always | Choice::Args => true,
            Choice::ByLength | Choice::Never => false,
        }
    }

    /// The kind of the function's entry sled, if it has one.
    pub(crate) fn entry_kind(self) -> SledKind
        ensures { kind_number result ≡ entry_kind self }
    {
        match self {
            Choice::ByLength | Choice::Always | Choice::Never => SledKind::Entry,
            Choice::Args => SledKind::Args,
        }
    }
}

/// The branches that go to a name.
#[derive(Clone, Copy)]
pub(crate) enum Branch {
    Call,
    Jmp,
    Jnz,
}

/// What an instruction line asks for, as it is written. It may name registers that instructions
/// can't name, and its numbers may be larger than their fields.
#[derive(Clone, Copy)]
pub(crate) enum RawOperation<'a> {
    Mov {
        dst: RegisterWord,
        imm: u64,
    },
    Add {
        dst: RegisterWord,
        src: RegisterWord,
    },
    Sub {
        dst: RegisterWord,
        src: RegisterWord,
    },
    Push {
        reg: RegisterWord,
    },
    Pop {
        reg: RegisterWord,
    },
    Out {
        port: u64,
    },
    Go {
        branch: Branch,
        name: &'a [u8],
    },
    TailJump {
        name: &'a [u8],
    },
    Return,
}

/// What a line says. Its instruction is as it is written, or with checked operands.
#[derive(Clone, Copy)]
pub(crate) enum AnyStatement<'a, O> {
    /// The address of the code's first byte.
    Base(u64),
    /// The entry function.
    Entry(&'a [u8]),
    /// Begins a function.
    Function { name: &'a [u8], choice: Choice },
    /// A label.
    Label(&'a [u8]),
    /// An instruction line.
    Does(O),
}

/// What a line says, as it is written.
pub(crate) type RawStatement<'a> = AnyStatement<'a, RawOperation<'a>>;

/// What a line says, with checked operands.
pub(crate) type Statement<'a> = AnyStatement<'a, Operation<'a>>;

/// An instruction that goes to no name.
#[derive(Clone, Copy)]
pub(crate) enum Plain {
    Mov { dst: Register, imm: u32 },
    Add { dst: Register, src: Register },
    Sub { dst: Register, src: Register },
    Push { reg: Register },
    Pop { reg: Register },
    Out { port: u8 },
}

impl Plain {
    ghost use Rattle.asm_text.specs.private.Views.{plain_instr};

    /// The instruction.
    pub(crate) fn instr(&self) -> Instr
        ensures { result ≡ plain_instr self.now }
    {
        match *self {
            Plain::Mov { dst, imm } => Instr::Mov {
                dst: dst.reg(),
                imm,
            },
            Plain::Add { dst, src } => Instr::Add {
                dst: dst.reg(),
                src: src.reg(),
            },
            Plain::Sub { dst, src } => Instr::Sub {
                dst: dst.reg(),
                src: src.reg(),
            },
            Plain::Push { reg } => Instr::Push { reg: reg.reg() },
            Plain::Pop { reg } => Instr::Pop { reg: reg.reg() },
            Plain::Out { port } => Instr::Out { port },
        }
    }
}

/// What an instruction line asks for, with checked operands.
#[derive(Clone, Copy)]
pub(crate) enum Operation<'a> {
    /// An instruction that goes to no name.
    Plain(Plain),
    /// A branch to a name.
    Go { branch: Branch, name: &'a [u8] },
    /// A tail jump to a name.
    TailJump { name: &'a [u8] },
    /// A return.
    Return,
}

impl<'a> Operation<'a> {
    ghost use Rattle.asm_text.specs.Refusals.{target_name};
    ghost use Rattle.asm_text.specs.private.Views.{operation_checked};

    /// The name that the operation goes to.
    pub(crate) fn target_name(&self) -> Option<&'a [u8]>
        ensures { option_copied result ≡ target_name (operation_checked self.now) }
    {
        match self {
            Operation::Go { name, .. } => Some(*name),
            Operation::TailJump { name } => Some(*name),
            Operation::Plain(_) | Operation::Return => None,
        }
    }
}

impl<'a> AnyStatement<'a, Operation<'a>> {
    ghost use Rattle.asm_text.specs.Layout.{names_function};
    ghost use Rattle.asm_text.specs.private.{Views.{statement_said}, FirstPass.{name_defined}};

    /// The name that the statement defines, for a function or a label.
    pub(crate) fn defined_name(&self) -> Option<&'a [u8]>
        ensures { option_copied result ≡ name_defined (statement_said self.now) }
    {
        match self {
            Statement::Function { name, .. } => Some(*name),
            Statement::Label(name) => Some(*name),
            Statement::Base(_) | Statement::Entry(_) | Statement::Does(_) => None,
        }
    }

    /// Whether the statement begins a function of this name.
    pub(crate) fn names_function(&self, name: &[u8]) -> bool
        ensures { result ≡ names_function name.now (statement_said self.now) }
    {
        match self {
            Statement::Function { name: other, .. } => *other == name,
            Statement::Base(_) | Statement::Entry(_) | Statement::Label(_) | Statement::Does(_) =>
                false,
        }
    }
}
