//! The general registers of a thread.

ghost use Rattle.std.specs.Prelude.{◌≡◌, slice_index};

use std::marker::Model;
use subset_decode::{REGISTERS, Reg};

/// The number of rax, whose low byte is AL.
const RAX: usize = 0;

/// The number of rdi, which holds a thread's own number at its start, and the first argument of a
/// function that is entered.
const RDI: usize = 7;

/// The values of the general registers. Those that no instruction names stay 0.
#[derive(Drop)]
pub(crate) struct Registers {
    values: [u64; REGISTERS],
}

impl Model for Registers {
    ghost use Rattle.std.specs.Prelude.{◌≡◌, ℕ, List, slice_index};

    ghost Value = { List ℕ };

    ghost view = { λ r. r.values };

    ghost invariant = { λ r. (slice_index r.values 4 ≡ 0) × (slice_index r.values 10 ≡ 0) };
}

impl Registers {
    ghost use Rattle.std.specs.Prelude.{◌%◌, replicate, slice_set};

    /// The registers of a thread before its first step.
    pub(crate) fn new(thread: u32) -> Self
        ensures { result ≡ slice_set (replicate 16 0) 7 thread }
    {
        let mut values = [0; REGISTERS];
        values[RDI] = u64::from(thread);
        Registers { values }
    }

    /// The value of a register.
    #[inline]
    pub(crate) fn get(&self, reg: Reg) -> u64
        ensures { result ≡ slice_index self.now reg }
    {
        self.values[usize::from(reg.number())]
    }

    /// Gives a register a value.
    #[inline]
    pub(crate) fn set(&mut self, reg: Reg, value: u64)
        ensures { self.new ≡ slice_set self.old reg value }
    {
        self.values[usize::from(reg.number())] = value;
    }

    /// AL, the low byte of rax.
    #[inline]
    pub(crate) fn al(&self) -> u8
        ensures { result ≡ slice_index self.now 0 % 256 }
    {
        (self.values[RAX] % 256) as u8
    }

    /// The first argument of a function that is entered, by the System V calling convention: rdi.
    #[inline]
    pub(crate) fn first_argument(&self) -> u64
        ensures { result ≡ slice_index self.now 7 }
    {
        self.values[RDI]
    }

    /// All values, by the registers' numbers.
    pub(crate) fn all(&self) -> &[u64; REGISTERS]
        ensures values { result.now ≡ self.now }
        ensures unnamed { (slice_index self.now 4 ≡ 0) × (slice_index self.now 10 ≡ 0) }
    {
        &self.values
    }
}
