//! A symbol of a function.

ghost use Rattle.std.specs.Prelude.{◌≡◌, ◌≤◌, ◌+◌, ◌*◌, length};
ghost use Rattle.elf_file.specs.Symbols.{has_section, is_better, is_function_at, name_begin, name_length, rank_of, symbol_at};

use crate::numbers::{from_place, u8_at, u16_at, u32_at, u64_at};

/// The length of a symbol in its table, in bytes.
pub(crate) const SYMBOL_BYTES: usize = 24;

/// The places of a symbol's fields (`Elf64_Sym`).
const INFO_AT: usize = 4;

const SECTION_AT: usize = 6;

const ADDRESS_AT: usize = 8;

const SIZE_AT: usize = 16;

/// The type of functions (`STT_FUNC`).
const FUNCTION: u8 = 2;

/// Bound for all files (`STB_GLOBAL`), and so, but after all that are (`STB_WEAK`).
const GLOBAL: u8 = 1;

const WEAK: u8 = 2;

/// The first number of a section that means no section (`SHN_LORESERVE`), but for the one behind
/// which a larger number stands elsewhere (`SHN_XINDEX`).
const FIRST_RESERVED: u16 = 0xFF00;

const NUMBERED_ELSEWHERE: u16 = 0xFFFF;

/// A symbol that names a function.
#[derive(Clone, Copy, Debug, PartialEq, Eq)]
pub struct Symbol {
    /// The address of the function.
    pub address: u64,
    /// How it is bound: 2 for global, 1 for weak, 0 for the rest.
    pub rank: u8,
    /// Where its name begins in the table of names.
    pub begin: u64,
    /// How many bytes its name has.
    pub size: u64,
}

/// Whether a symbol with this number of a section lies in one.
fn has_section(number: u16) -> bool
    ensures { result ≡ has_section number }
{
    number != 0 && (number < FIRST_RESERVED || number == NUMBERED_ELSEWHERE)
}

/// Whether the symbol at a place is a function, with a section and a size.
#[tactic(auto, unfolding(crate::specs::Symbols::is_function_at))]
pub(crate) fn is_function_at(table: &[u8], place: usize) -> bool
    requires { place + 24 ≤ length table.now }
    ensures { result ≡ is_function_at table.now place }
{
    u8_at(table, place + INFO_AT) % 16 == FUNCTION
        && has_section(u16_at(table, place + SECTION_AT))
        && u64_at(table, place + SIZE_AT) != 0
}

/// How widely a symbol of this binding is bound.
fn rank_of(binding: u8) -> u8
    ensures { result ≡ rank_of binding }
{
    match binding {
        GLOBAL => 2,
        WEAK => 1,
        _ => 0,
    }
}

/// Where the name of the symbol at a place begins.
pub(crate) fn name_begin(table: &[u8], place: usize) -> u32
    requires { place + 24 ≤ length table.now }
    ensures { result ≡ name_begin table.now place }
{
    u32_at(table, place)
}

/// How many bytes the name has that begins at a place, or `None` if it doesn't end.
#[tactic(auto, unfolding(crate::specs::Symbols::name_length))]
pub(crate) fn name_length(names: &[u8], begin: usize) -> Option<usize>
    ensures { result ≡ name_length names.now begin }
{
    from_place(names, begin).iter().position(|byte| *byte == 0)
}

impl Symbol {
    /// The symbol at a place, whose name has `size` bytes.
    pub(crate) fn at(table: &[u8], place: usize, size: usize) -> Symbol
        requires { place + 24 ≤ length table.now }
        ensures { result ≡ symbol_at table.now place size }
    {
        Symbol {
            address: u64_at(table, place + ADDRESS_AT),
            rank: rank_of(u8_at(table, place + INFO_AT) / 16),
            begin: u64::from(name_begin(table, place)),
            size: size as u64,
        }
    }

    /// Whether it names a function better than another: it is more widely bound, or as widely and
    /// its name is longer.
    pub(crate) fn is_better(&self, other: &Symbol) -> bool
        ensures { result ≡ is_better self.now other.now }
    {
        other.rank < self.rank || (self.rank == other.rank && other.size < self.size)
    }
}
