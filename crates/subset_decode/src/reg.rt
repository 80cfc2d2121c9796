//! The general registers.

ghost use Rattle.std.specs.Prelude.{◌≡◌, ◌↔◌, ℕ, IsSome, IfSome};
ghost use Rattle.subset_decode.specs.Registers.{IsRegister};

use std::marker::Model;

/// A general register by its number. Numbers 0 to 15 are rax, rcx, rdx, rbx, rsp, rbp, rsi, rdi and
/// r8 to r15, as in the encodings (Intel SDM, volume 2). Two numbers can't be named. 4 is rsp,
/// which belongs to the stack instructions. 10 is r10, in which a patched sled puts the function
/// id.
#[derive(Clone, Copy, Debug, PartialEq, Eq)]
pub struct Reg(u8);

impl Model for Reg {
    ghost Value = { ℕ };

    ghost view = { λ r. r.0 };

    ghost invariant = { λ r. IsRegister r.0 };

    ghost inverse = { λ n. record { 0 = n } };
}

/// The number of rsp.
const STACK_POINTER: u8 = 4;

/// The number of r10.
const SLED_SCRATCH: u8 = 10;

/// How many general registers there are.
pub const REGISTERS: usize = 16;

impl Reg {
    /// The register with this number. The answer is `None` exactly for 4, 10 and numbers above 15.
    pub fn new(n: u8) -> Option<Self>
        ensures named { IsSome result ↔ IsRegister n }
        ensures value { IfSome result (λ reg. reg ≡ n) }
    {
        if n == STACK_POINTER || n == SLED_SCRATCH || usize::from(n) >= REGISTERS {
            return None;
        }
        Some(Reg(n))
    }

    /// The register's number: 0 to 15, without 4 and 10.
    pub fn number(&self) -> u8
        ensures value { result ≡ self.now }
        ensures named { IsRegister result }
    {
        self.0
    }
}
