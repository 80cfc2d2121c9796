//! A line of a sled map as the entry that it says.

ghost use Rattle.std.specs.Prelude.{◌≡◌, codes, option_and_then, option_map, IfOk, Some};
ghost use Rattle.std.specs.List.{list_all};
ghost use Rattle.map_names.specs.Entries.{after_truth, before_brace, before_line_end, before_version, entry_said, id_in, is_address, is_entry, is_event, is_exit, is_kind, is_plain_byte, name_said, name_spelled, no_name, past_field, past_fields, unquoted_name};
ghost use Rattle.map_names.specs.private.Parts.{entry_read, fields_in};

use crate::parts::{after_label, before_ending, field_in};
use crate::quote::Quote;
use std::alloc::{AllocError, Global};
use text_lines::{parse_digits, parse_number};

/// The id of a function and its name, which is empty if the map doesn't have it.
#[derive(Drop)]
pub(crate) struct IdName {
    pub(crate) id: u32,
    pub(crate) name: Vec<u8>,
}

/// Whether a word is an address: `0x`, and a number in hexadecimal digits that fits 64 bits.
#[tactic(auto, unfolding(crate::specs::Entries::is_address))]
fn is_address(word: &[u8]) -> bool
    ensures { result ≡ is_address word.now }
{
    match after_label(b"0x", word) {
        Some(digits) => parse_digits(16, digits).is_some(),
        None => false,
    }
}

/// Whether a word names a kind of sleds at which a function is entered.
#[tactic(auto, unfolding(crate::specs::Entries::is_entry))]
fn is_entry(word: &[u8]) -> bool
    ensures { result ≡ is_entry word.now }
{
    word == b"function-enter".as_slice()
        || word == b"function-enter-arg".as_slice()
        || word == b"log-args-enter".as_slice()
}

/// Whether a word names a kind of sleds at which a function is left.
#[tactic(auto, unfolding(crate::specs::Entries::is_exit))]
fn is_exit(word: &[u8]) -> bool
    ensures { result ≡ is_exit word.now }
{
    word == b"function-exit".as_slice() || word == b"tail-exit".as_slice()
}

/// Whether a word names a kind of sleds that log an event of the program's own.
#[tactic(auto, unfolding(crate::specs::Entries::is_event))]
fn is_event(word: &[u8]) -> bool
    ensures { result ≡ is_event word.now }
{
    word == b"custom-event".as_slice() || word == b"typed-event".as_slice()
}

/// Whether a word names a kind of sleds.
#[tactic(auto, unfolding(crate::specs::Entries::is_kind))]
fn is_kind(word: &[u8]) -> bool
    ensures { result ≡ is_kind word.now }
{
    is_entry(word) || is_exit(word) || is_event(word)
}

/// What follows a field with this label whose value is an address.
#[tactic(auto, unfolding(crate::specs::Entries::past_field))]
fn past_address<'a>(label: &[u8], bytes: &'a [u8]) -> Option<&'a [u8]>
    ensures { option_map (λ rest. rest.now) result ≡ past_field label.now is_address bytes.now }
{
    let (value, rest) = field_in(label, bytes)?;
    if is_address(value) { Some(rest) } else { None }
}

/// What follows the field of the kind.
#[tactic(auto, unfolding(crate::specs::Entries::past_field))]
fn past_kind(bytes: &[u8]) -> Option<&[u8]>
    ensures { option_map (λ rest. rest.now) result ≡ past_field (codes " kind: ") is_kind bytes.now }
{
    let (value, rest) = field_in(b" kind: ", bytes)?;
    if is_kind(value) { Some(rest) } else { None }
}

/// What follows the word that says whether the function is always instrumented.
#[tactic(auto, unfolding(crate::specs::Entries::after_truth))]
fn after_truth(bytes: &[u8]) -> Option<&[u8]>
    ensures { option_map (λ rest. rest.now) result ≡ after_truth bytes.now }
{
    if let Some(rest) = after_label(b"true", bytes) {
        return Some(rest);
    }
    after_label(b"false", bytes)
}

/// What stands before the brace at the end of a line, and before the blank that may stand before the
/// brace.
#[tactic(auto, unfolding(crate::specs::Entries::before_brace))]
fn before_brace(bytes: &[u8]) -> Option<&[u8]>
    ensures { option_map (λ part. part.now) result ≡ before_brace bytes.now }
{
    if let Some(part) = before_ending(b" }", bytes) {
        return Some(part);
    }
    before_ending(b"}", bytes)
}

/// What stands before the version, if there is one.
#[tactic(auto, unfolding(crate::specs::Entries::before_version))]
fn before_version(bytes: &[u8]) -> &[u8]
    ensures { Some result.now ≡ before_version bytes.entry.now }
{
    if let Some(part) = before_ending(b", version: 2", bytes) {
        return part;
    }
    if let Some(part) = before_ending(b", version: 1", bytes) {
        return part;
    }
    if let Some(part) = before_ending(b", version: 0", bytes) {
        return part;
    }
    bytes
}

/// What stands before the end of a line: before the brace, and the version, if there is one.
#[tactic(auto, unfolding(crate::specs::Entries::before_line_end))]
fn before_line_end(bytes: &[u8]) -> Option<&[u8]>
    ensures { option_map (λ part. part.now) result ≡ before_line_end bytes.now }
{
    let part = before_brace(bytes)?;
    Some(before_version(part))
}

/// What follows the fields between the id and the name, if they are as they have to be.
#[tactic(auto, unfolding(crate::specs::Entries::past_fields))]
fn past_fields(bytes: &[u8]) -> Option<&[u8]>
    ensures { option_map (λ part. part.now) result ≡ past_fields bytes.now }
{
    let bytes = past_address(b" address: ", bytes)?;
    let bytes = past_address(b" function: ", bytes)?;
    let bytes = past_kind(bytes)?;
    after_truth(after_label(b" always-instrument: ", bytes)?)
}

/// The id of a line, and what follows its field.
#[tactic(auto, unfolding(crate::specs::Entries::id_in))]
fn id_in(line: &[u8]) -> Option<(u32, &[u8])>
    ensures { option_map (λ start. (start.0, start.1.now)) result ≡ id_in line.now }
{
    let (value, rest) = field_in(b"- { id: ", line)?;
    let id = parse_number(value)?;
    Some((id, rest))
}

/// The id of a line, and what follows the fields before its name.
fn fields_in(line: &[u8]) -> Option<(u32, &[u8])>
    ensures { option_map (λ said. (said.0, said.1.now)) result ≡ fields_in line.now }
{
    let (id, rest) = id_in(line)?;
    let rest = past_fields(rest)?;
    Some((id, rest))
}

/// Whether a byte may stand in a name without quotation marks.
#[tactic(auto, unfolding(crate::specs::Entries::is_plain_byte))]
fn is_plain_byte(byte: u8) -> bool
    ensures { result ≡ is_plain_byte byte }
{
    matches!(byte, b'a'..=b'z' | b'A'..=b'Z' | b'0'..=b'9' | b'_' | b'-' | b'^' | b'.' | b',' | b' ' | b'\t')
}

/// Whether all of some bytes may stand in a name without quotation marks.
fn are_plain(bytes: &[u8]) -> bool
    ensures { result ≡ list_all is_plain_byte bytes.now }
{
    bytes.iter().all(|byte| is_plain_byte(*byte))
}

/// The name that bytes without quotation marks are.
#[tactic(auto, unfolding(crate::specs::Entries::unquoted_name))]
fn unquoted_name(alloc: Global, bytes: &[u8]) -> Result<Option<Vec<u8>>, AllocError>
    ensures { IfOk result (λ name. option_map (λ n. n.items) name ≡ unquoted_name bytes.now) }
{
    if bytes.is_empty() || !are_plain(bytes) {
        return Ok(None);
    }
    let name = Vec::from_slice(alloc, bytes)?;
    Ok(Some(name))
}

/// The name that is written so, or `None` if no name is.
#[tactic(auto, unfolding(crate::specs::Entries::name_spelled))]
fn name_spelled(alloc: Global, bytes: &[u8]) -> Result<Option<Vec<u8>>, AllocError>
    ensures { IfOk result (λ name. option_map (λ n. n.items) name ≡ name_spelled bytes.now) }
{
    if let Some(inner) = Quote::Single.between(bytes) {
        return Quote::Single.read(alloc, inner);
    }
    if let Some(inner) = Quote::Double.between(bytes) {
        return Quote::Double.read(alloc, inner);
    }
    unquoted_name(alloc, bytes)
}

/// The name before the end of a line, or `None` if it isn't as it has to be.
fn name_before_end(alloc: Global, bytes: &[u8]) -> Result<Option<Vec<u8>>, AllocError>
    ensures { IfOk result (λ name. option_map (λ n. n.items) name
        ≡ option_and_then name_spelled (before_line_end bytes.now)) }
{
    match before_line_end(bytes) {
        Some(written) => name_spelled(alloc, written),
        None => Ok(None),
    }
}

/// No name, if a line is at its end.
#[tactic(auto, unfolding(crate::specs::Entries::no_name))]
fn no_name(alloc: Global, bytes: &[u8]) -> Option<Vec<u8>>
    ensures { option_map (λ n. n.items) result ≡ option_and_then no_name (before_line_end bytes.now) }
{
    match before_line_end(bytes) {
        Some(part) if part.is_empty() => Some(Vec::new(alloc)),
        Some(_) | None => None,
    }
}

/// The name that the rest of a line says, behind the other fields: none, or the one that is written
/// there. `None` if the rest isn't as it has to be.
#[tactic(auto, unfolding(crate::specs::Entries::name_said))]
fn name_said(alloc: Global, bytes: &[u8]) -> Result<Option<Vec<u8>>, AllocError>
    ensures { IfOk result (λ name. option_map (λ n. n.items) name ≡ name_said bytes.now) }
{
    match after_label(b", function-name: ", bytes) {
        Some(written) => name_before_end(alloc, written),
        None => Ok(no_name(alloc, bytes)),
    }
}

/// The entry that a line says, or `None` if it says none.
#[tactic(auto, unfolding(crate::specs::Entries::entry_said))]
pub(crate) fn read_entry(alloc: Global, line: &[u8]) -> Result<Option<IdName>, AllocError>
    ensures { IfOk result (λ read. option_map entry_read read ≡ entry_said line.now) }
{
    let Some((id, rest)) = fields_in(line) else {
        return Ok(None);
    };
    let Some(name) = name_said(alloc, rest)? else {
        return Ok(None);
    };
    Ok(Some(IdName { id, name }))
}
