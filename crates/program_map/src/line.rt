//! The text of a sled map.
ghost use Rattle.std.specs.Prelude.{◌≡◌, ◌==◌, ⊤, true};
ghost use Rattle.std.specs.Fmt.{digits};
ghost use Rattle.std.specs.List.{flat_map, list_any};
ghost use Rattle.xray_io.specs.Text.{AddsText};
ghost use Rattle.map_names.specs.Spelling.{single_byte};
ghost use Rattle.elf_file.specs.Views.{names_held};
ghost use Rattle.program_map.specs.MapText.{line_name_at, map_kind_word, map_line, map_text, map_truth_word, named_line, sled_name};
ghost use Rattle.program_map.specs.Programs.{program_held};
ghost use Rattle.program_map.specs.private.MapLines.{IsKnownName, part_text};

use crate::hex::{MOST_DIGITS, put_digits};
use crate::numbering::NumberedSled;
use crate::program::ProgramMap;
use crate::sled::MapSledKind;
use elf_file::FunctionNames;
use xray_io::{Each, Printed, Sink, Text, WriteFault};

/// The quotation mark that stands around names, and is doubled in them.
const MARK: u8 = b'\'';

/// The byte that ends a line.
const LINE_FEED: u8 = b'\n';

/// A part of a line.
#[derive(Clone, Copy)]
enum LinePart<'a> {
    /// These bytes.
    Plain(&'a [u8]),
    /// A number in decimal digits.
    Decimal(u128),
    /// A number in upper-case hexadecimal digits.
    Address(u64),
    /// A name, with its quotation marks doubled.
    Quoted(&'a [u8]),
}

impl Printed for LinePart<'_> {
    ghost text = { part_text };

    ghost ready = { λ _. ⊤ };

    fn add_to<S: Sink>(&self, to: &mut Text<S>) -> Result<(), WriteFault> {
        match *self {
            LinePart::Plain(bytes) => to.bytes(bytes),
            LinePart::Decimal(n) => to.number(n),
            LinePart::Address(n) => add_address(to, n),
            LinePart::Quoted(name) => add_quoted(to, name),
        }
    }
}

/// Adds a number in upper-case hexadecimal digits.
#[tactic(auto, using(std::proofs::lemmas::List::take_rest))]
fn add_address<S: Sink>(to: &mut Text<S>, n: u64) -> Result<(), WriteFault>
    ensures { AddsText S.written S.faults S.along to.old to.new (digits 16 true n) result }
{
    let mut buffer = [0; MOST_DIGITS];
    let start = put_digits(n, &mut buffer);
    to.bytes(&buffer[start..])
}

/// Adds a name, with its quotation marks doubled.
fn add_quoted<S: Sink>(to: &mut Text<S>, name: &[u8]) -> Result<(), WriteFault>
    ensures { AddsText S.written S.faults S.along to.old to.new (flat_map single_byte name.now) result }
{
    if has_mark(name) {
        return add_doubled(to, name);
    }
    to.bytes(name)
}

/// Whether a name has a quotation mark.
fn has_mark(name: &[u8]) -> bool
    ensures { result ≡ list_any (λ b. b == 39) name.now }
{
    name.iter().any(|byte| *byte == MARK)
}

/// Adds a byte of a name.
fn add_byte<S: Sink>(to: &mut Text<S>, byte: u8) -> Result<(), WriteFault>
    ensures { AddsText S.written S.faults S.along to.old to.new (single_byte byte) result }
{
    if byte == MARK {
        return to.bytes(b"''");
    }
    to.bytes(&[byte])
}

/// Adds a name byte by byte.
fn add_doubled<S: Sink>(to: &mut Text<S>, name: &[u8]) -> Result<(), WriteFault>
    ensures { AddsText S.written S.faults S.along to.old to.new (flat_map single_byte name.now) result }
{
    for byte in name {
        add_byte(to, *byte)?;
    }
    Ok(())
}

/// The word for a kind of sleds.
fn map_kind_word(kind: MapSledKind) -> &'static [u8]
    ensures { result.now ≡ map_kind_word kind }
{
    match kind {
        MapSledKind::FunctionEnter => b"function-enter",
        MapSledKind::FunctionExit => b"function-exit",
        MapSledKind::TailExit => b"tail-exit",
        MapSledKind::LogArgsEnter => b"log-args-enter",
        MapSledKind::CustomEvent => b"custom-event",
        MapSledKind::TypedEvent => b"typed-event",
    }
}

/// The word for a yes or no.
fn map_truth_word(holds: bool) -> &'static [u8]
    ensures { result.now ≡ map_truth_word holds }
{
    if holds { b"true" } else { b"false" }
}

/// Whether a name has a line feed.
fn has_line_feed(name: &[u8]) -> bool
    ensures { result ≡ list_any (λ b. b == 10) name.now }
{
    name.iter().any(|byte| *byte == LINE_FEED)
}

/// The name of the function at an address, as a line has it.
fn line_name_at<'a>(names: &'a FunctionNames, function: u64) -> &'a [u8]
    ensures { result.now ≡ line_name_at (names_held names.now) function }
{
    let name = names.name_at(function);
    if has_line_feed(name) {
        return b"";
    }
    name
}

/// The name of a sled's function.
pub(crate) fn sled_name<'a>(names: &'a FunctionNames, sled: &NumberedSled) -> &'a [u8]
    ensures { result.now ≡ sled_name (names_held names.now) sled.now }
{
    line_name_at(names, sled.sled.function)
}

/// A function and its name. Sleds of a function stand side by side, so that its name is found once.
#[derive(Clone, Copy)]
pub(crate) struct KnownName<'a> {
    pub(crate) function: u64,
    pub(crate) name: &'a [u8],
}

impl<'a> KnownName<'a> {
    /// The name of the function at an address.
    fn of(names: &'a FunctionNames, function: u64) -> KnownName<'a>
        ensures known { IsKnownName (names_held names.now) result }
        ensures function { result.function ≡ function }
    {
        let name = line_name_at(names, function);
        KnownName { function, name }
    }

    /// The same for another address.
    fn next(self, names: &'a FunctionNames, function: u64) -> KnownName<'a>
        requires { IsKnownName (names_held names.now) self }
        ensures known { IsKnownName (names_held names.now) result }
        ensures function { result.function ≡ function }
    {
        if self.function == function {
            return self;
        }
        KnownName::of(names, function)
    }
}

/// Adds the line of a sled whose function has this name.
fn add_sled<S: Sink>(to: &mut Text<S>, name: &[u8], sled: &NumberedSled) -> Result<(), WriteFault>
    ensures { AddsText S.written S.faults S.along to.old to.new (named_line name.now sled.now) result }
{
    let id = u128::from(sled.id);
    let version = u128::from(sled.sled.version);
    let kind = map_kind_word(sled.sled.kind);
    let always = map_truth_word(sled.sled.always);
    Each(&[
        LinePart::Plain(b"- { id: "),
        LinePart::Decimal(id),
        LinePart::Plain(b", address: 0x"),
        LinePart::Address(sled.sled.address),
        LinePart::Plain(b", function: 0x"),
        LinePart::Address(sled.sled.function),
        LinePart::Plain(b", kind: "),
        LinePart::Plain(kind),
        LinePart::Plain(b", always-instrument: "),
        LinePart::Plain(always),
        LinePart::Plain(b", function-name: '"),
        LinePart::Quoted(name),
        LinePart::Plain(b"', version: "),
        LinePart::Decimal(version),
        LinePart::Plain(b" }\n"),
    ])
    .add_to(to)
}

/// Adds the lines of sleds.
fn add_sleds<S: Sink>(
    to: &mut Text<S>,
    names: &FunctionNames,
    sleds: &[NumberedSled],
) -> Result<(), WriteFault>
    ensures { AddsText S.written S.faults S.along to.old to.new (flat_map (map_line (names_held names.now)) sleds.now) result }
{
    let mut known = KnownName::of(names, 0);
    for sled in sleds {
        known = known.next(names, sled.sled.function);
        add_sled(to, known.name, sled)?;
    }
    Ok(())
}

impl Printed for ProgramMap {
    ghost text = { λ map. map_text (program_held map) };

    ghost ready = { λ _. ⊤ };

    fn add_to<S: Sink>(&self, to: &mut Text<S>) -> Result<(), WriteFault> {
        to.bytes(b"---\n")?;
        add_sleds(to, &self.names, &self.sleds)?;
        to.bytes(b"...\n")
    }
}
