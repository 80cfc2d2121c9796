//! The names of functions by their addresses.

ghost use Rattle.std.specs.Prelude.{◌≡◌, ◌≤◌, ◌<◌, ◌+◌, ◌*◌, ◌^◌, ◌++◌, ◌∷◌, [], ℕ, List, OnOk, length, take, drop};
ghost use Rattle.elf_file.specs.Readings.{IsElfReading};
ghost use Rattle.elf_file.specs.Symbols.{SymbolNames, best_at, function_name_at, symbol_rows, symbols_in};
ghost use Rattle.elf_file.specs.Views.{names_held};
ghost use Rattle.elf_file.specs.private.Tables.{HoldsBest, Took, names_from};
ghost use Rattle.elf_file.specs.declared.symbol.Symbol.{Symbol as TheSymbol};

use crate::fault::ElfFault;
use crate::numbers::from_place;
use crate::symbol::{SYMBOL_BYTES, Symbol, is_function_at, name_begin, name_length};
use std::alloc::Global;
use std::collections::HashMap;
use xray_io::NoMemory;

/// The names of the functions of a file, by their addresses.
#[derive(Drop)]
pub struct FunctionNames {
    /// The table of names.
    names: Vec<u8>,
    best: HashMap<u64, Symbol>,
}

/// So many bytes from a place on, or fewer where the bytes end.
fn part(bytes: &[u8], begin: u64, size: u64) -> &[u8]
    ensures { result.now ≡ take size (drop begin bytes.now) }
{
    let rest = from_place(bytes, begin as usize);
    let size = size.min(rest.len() as u64) as usize;
    &rest[..size]
}

impl FunctionNames {
    /// No names, but a table of the names to come.
    pub(crate) fn new(alloc: Global, names: Vec<u8>) -> FunctionNames
        ensures names { result.names.items ≡ names.items }
        ensures none { HoldsBest [] result }
    {
        FunctionNames {
            names,
            best: HashMap::new(alloc),
        }
    }

    /// Takes a symbol, unless the one that it has for its address names the function as well.
    fn add(&mut self, symbol: Symbol) -> Result<(), NoMemory>
        ensures took { OnOk result ((symbols : List TheSymbol) → HoldsBest symbols self.old →
            HoldsBest (symbols ++ symbol ∷ []) self.new) }
        ensures names { self.new.names.items ≡ self.old.names.items }
    {
        if let Some(known) = self.best.get(&symbol.address) {
            if !symbol.is_better(known) {
                return Ok(());
            }
        }
        self.best.insert(symbol.address, symbol)?;
        Ok(())
    }

    /// Takes the symbol of a number, if it is a function. The table is at `offset` in the file.
    #[tactic(auto, unfolding(crate::specs::Symbols::symbol_rows))]
    fn take_symbol(&mut self, offset: u64, table: &[u8], number: usize) -> Result<(), ElfFault>
        requires inside { 24 * number + 24 ≤ length table.now }
        requires place { offset + length table.now < 2 ^ 64 }
        ensures took { (symbols : List TheSymbol) → HoldsBest symbols self.old →
            Took self.new result (symbol_rows offset table.now self.old.names.items symbols number) }
        ensures names { self.new.names.items ≡ self.old.names.items }
    {
        let place = SYMBOL_BYTES * number;
        if !is_function_at(table, place) {
            return Ok(());
        }
        let begin = name_begin(table, place) as usize;
        let Some(size) = name_length(&self.names, begin) else {
            return Err(ElfFault::Name(offset + place as u64));
        };
        match self.add(Symbol::at(table, place, size)) {
            Ok(()) => Ok(()),
            Err(NoMemory) => Err(ElfFault::NoMemory),
        }
    }

    /// The name of the function at an address. It is empty if the file has none.
    pub fn name_at(&self, address: u64) -> &[u8]
        ensures { result.now ≡ function_name_at (names_held self.now) address }
    {
        match self.best.get(&address) {
            Some(symbol) => part(&self.names, symbol.begin, symbol.size),
            None => b"",
        }
    }
}

/// The names of functions that a table of symbols gives, which is at `offset` in the file.
pub(crate) fn read_symbols(
    alloc: Global,
    offset: u64,
    table: &[u8],
    names: &[u8],
) -> Result<FunctionNames, ElfFault>
    requires { offset + length table.now < 2 ^ 64 }
    ensures { IsElfReading names_held (names_from offset table.now names.now) result }
{
    let mut held = FunctionNames::new(alloc, names.to_vec(alloc)?);
    for number in 0..table.len() / SYMBOL_BYTES {
        match held.take_symbol(offset, table, number) {
            Ok(()) => {}
            Err(fault) => return Err(fault),
        }
    }
    Ok(held)
}
