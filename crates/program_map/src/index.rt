//! The index of functions, the section `xray_fn_idx`.

ghost use Rattle.std.specs.Prelude.{◌≡◌, ◌<◌, ◌≤◌, ◌+◌, ◌*◌, ◌/◌, ◌^◌, ◌++◌, IfOk, IfSome, OnOk, length, map, option_map};
ghost use Rattle.program_map.specs.Numbering.{entry_sleds, index_sleds, is_absolute, is_within_map, span_absolute, span_by, span_relative, with_id};
ghost use Rattle.program_map.specs.Readings.{IsProgramReading};
ghost use Rattle.program_map.specs.private.Indexes.{is_absolute_form, span_held};
ghost use Rattle.program_map.specs.private.Views.{parts_held};

use crate::fault::ProgramFault;
use crate::numbering::NumberedSled;
use crate::parts::{ENTRY_BYTES, ProgramParts};
use crate::sled::{MapSled, address_in, word_there};
use elf_file::{Section, u64_at};
use std::alloc::{AllocFailed, Global};

/// The length of an entry of the index, in bytes.
pub(crate) const INDEX_BYTES: usize = 16;

/// The place of the second word of an entry.
const SECOND_AT: usize = 8;

/// How many bytes of addresses an entry of the map has.
const ENTRY_ADDRESSES: u128 = ENTRY_BYTES as u128;

/// From the address of a function's first sled up to an address behind its last one.
#[derive(Clone, Copy)]
pub(crate) struct SledSpan {
    pub(crate) begin: u128,
    pub(crate) end: u128,
}

/// The form of an index.
#[derive(Clone, Copy)]
enum Form {
    /// Addresses.
    Absolute,
    /// An address that counts from its word, and how many sleds there are.
    Relative,
}

/// The sleds of an entry of which both addresses stand there.
fn span_absolute(parts: &ProgramParts, index: &Section, table: &[u8], number: usize) -> SledSpan
    requires { 16 * number + 16 ≤ length table.now }
    ensures { span_held result ≡ span_absolute (parts_held parts.now).settings index.now table.now number }
{
    let place = INDEX_BYTES * number;
    let begin = word_there(
        &parts.addends,
        address_in(index, place),
        u64_at(table, place),
    );
    let end = word_there(
        &parts.addends,
        address_in(index, place + SECOND_AT),
        u64_at(table, place + SECOND_AT),
    );
    SledSpan {
        begin: u128::from(begin),
        end: u128::from(end),
    }
}

/// The sleds of an entry whose address counts from its word.
fn span_relative(index: &Section, table: &[u8], number: usize) -> SledSpan
    requires { 16 * number + 16 ≤ length table.now }
    ensures { span_held result ≡ span_relative index.now table.now number }
{
    let place = INDEX_BYTES * number;
    let begin = u128::from(address_in(index, place).wrapping_add(u64_at(table, place)));
    let count = u128::from(u64_at(table, place + SECOND_AT));
    SledSpan {
        begin,
        end: begin + ENTRY_ADDRESSES * count,
    }
}

/// The form of an index that isn't empty, by its first word.
fn form_of(parts: &ProgramParts, index: &Section, table: &[u8]) -> Form
    requires table { 16 ≤ length table.now }
    requires map { length parts.now.table.now < 2 ^ 64 }
    ensures { is_absolute_form result ≡ is_absolute (parts_held parts.now) index.now table.now }
{
    let first = word_there(&parts.addends, address_in(index, 0), u64_at(table, 0));
    let begin = parts.section.address;
    if begin <= first && u128::from(first) < u128::from(begin) + parts.table.len() as u128 {
        Form::Absolute
    } else {
        Form::Relative
    }
}

/// The sleds of an entry of an index of this form.
fn span_in(
    form: Form,
    parts: &ProgramParts,
    index: &Section,
    table: &[u8],
    number: usize,
) -> SledSpan
    requires { 16 * number + 16 ≤ length table.now }
    ensures { span_held result ≡ span_by (is_absolute_form form) (parts_held parts.now) index.now table.now number }
{
    match form {
        Form::Absolute => span_absolute(parts, index, table, number),
        Form::Relative => span_relative(index, table, number),
    }
}

impl SledSpan {
    /// Whether it begins and ends at entries of the map.
    fn is_within(&self, parts: &ProgramParts) -> bool
        requires { length parts.now.table.now < 2 ^ 64 }
        ensures { result ≡ is_within_map (parts_held parts.now) (span_held self.now) }
    {
        let begin = u128::from(parts.section.address);
        let end = begin + parts.table.len() as u128;
        begin <= self.begin
            && self.begin <= self.end
            && self.end <= end
            && (self.begin - begin) % ENTRY_ADDRESSES == 0
            && (self.end - self.begin) % ENTRY_ADDRESSES == 0
    }
}

/// Puts sleds of a function behind those that are numbered.
#[tactic(auto, using(std::proofs::lemmas::List::take_more))]
fn add_sleds(
    numbered: &mut Vec<NumberedSled>,
    id: u32,
    sleds: &[MapSled],
) -> Result<(), AllocFailed<NumberedSled>>
    ensures { OnOk result (numbered.new.items ≡ numbered.old.items ++ map (with_id id) sleds.now) }
{
    for sled in sleds {
        numbered.push(NumberedSled { id, sled: *sled })?;
    }
    Ok(())
}

/// The sleds of an entry, if it is a part of the map, and has at most `room` of them.
#[tactic(auto, unfolding(crate::specs::Numbering::entry_sleds))]
fn entry_sleds<'a>(
    parts: &ProgramParts,
    sleds: &'a [MapSled],
    span: SledSpan,
    room: usize,
) -> Option<&'a [MapSled]>
    requires map { length parts.now.table.now < 2 ^ 63 }
    requires sleds { length sleds.now ≡ length parts.now.table.now / 32 }
    ensures said { option_map (λ own. own.now) result ≡ entry_sleds (parts_held parts.now) sleds.now (span_held span) room }
    ensures few { IfSome result (λ own. length own.now ≤ room) }
{
    if !span.is_within(parts) {
        return None;
    }
    let count = ((span.end - span.begin) / ENTRY_ADDRESSES) as usize;
    if count > room {
        return None;
    }
    let first = ((span.begin - u128::from(parts.section.address)) / ENTRY_ADDRESSES) as usize;
    Some(&sleds[first..first + count])
}

/// The sleds that an index numbers.
pub(crate) fn read_index(
    alloc: Global,
    parts: &ProgramParts,
    sleds: &[MapSled],
    index: &Section,
    table: &[u8],
) -> Result<Vec<NumberedSled>, ProgramFault>
    requires map { length parts.now.table.now < 2 ^ 63 }
    requires sleds { length sleds.now ≡ length parts.now.table.now / 32 }
    requires short { index.now.offset + length table.now < 68719476736 }
    ensures said { IsProgramReading (λ numbered. numbered.items)
        (index_sleds (parts_held parts.now) index.now table.now sleds.now) result }
    ensures few { IfOk result (λ numbered. length numbered.items ≤ length sleds.now) }
{
    let mut numbered = Vec::new(alloc);
    if table.len() < INDEX_BYTES {
        return Ok(numbered);
    }
    let form = form_of(parts, index, table);
    for number in 0..table.len() / INDEX_BYTES {
        let span = span_in(form, parts, index, table, number);
        let room = sleds.len() - numbered.len();
        let Some(own) = entry_sleds(parts, sleds, span, room) else {
            return Err(ProgramFault::Index(index.offset + (INDEX_BYTES * number) as u64));
        };
        add_sleds(&mut numbered, number as u32 + 1, own)?;
    }
    Ok(numbered)
}
