//! Names within the strings of JSON.

ghost use Rattle.std.specs.{Prelude.{◌≡◌, ◌<◌, IfSome}, List.{list_all}, Option.{option_map_or}};
ghost use Rattle.json.specs.Print.{escape, escape_byte, escape_letter as short_escape};
ghost use Rattle.xray_io.specs.Text.{AddsText};
ghost use Rattle.function_names.specs.Name.{naming, number_text, plain_name};
ghost use Rattle.trace_forms.specs.private.Texts.{is_plain_byte};

use function_names::{NameForm, Names, add_name};
use xray_io::{Piece, Sink, Text, WriteFault};

/// The first byte that may stand in a string as it is.
const SPACE: u8 = b' ';

/// What a short escape begins with.
const BACKSLASH: u8 = b'\\';

/// The letter of the short escape of a byte, if it has one.
fn escape_letter(byte: u8) -> Option<u8>
    ensures letter { option_map_or (λ letter. letter) result 0 ≡ short_escape byte }
    ensures some { IfSome result (λ letter. 0 < letter) }
{
    match byte {
        b'"' | BACKSLASH => Some(byte),
        0x08 => Some(b'b'),
        0x0c => Some(b'f'),
        b'\n' => Some(b'n'),
        b'\r' => Some(b'r'),
        b'\t' => Some(b't'),
        _ => None,
    }
}

/// Whether a byte may stand in a string as it is.
fn is_plain(byte: u8) -> bool
    ensures { result ≡ is_plain_byte byte }
{
    byte >= SPACE && byte != b'"' && byte != BACKSLASH
}

/// Adds what stands in a string for a byte.
fn add_byte<S: Sink>(text: &mut Text<S>, byte: u8) -> Result<(), WriteFault>
    ensures { AddsText S.written S.faults S.along text.old text.new (escape_byte byte) result }
{
    match escape_letter(byte) {
        Some(letter) => text.bytes(&[BACKSLASH, letter]),
        None => add_other_byte(text, byte),
    }
}

/// The same, for a byte that has no short escape.
fn add_other_byte<S: Sink>(text: &mut Text<S>, byte: u8) -> Result<(), WriteFault>
    requires { short_escape byte ≡ 0 }
    ensures { AddsText S.written S.faults S.along text.old text.new (escape_byte byte) result }
{
    if byte < SPACE {
        text.pieces(&[
            Piece::Bytes(b"\\u"),
            Piece::Hex {
                number: u64::from(byte),
                digits: 4,
            },
        ])
    } else {
        text.bytes(&[byte])
    }
}

/// Whether bytes may stand in a string as they are.
fn are_plain(bytes: &[u8]) -> bool
    ensures { result ≡ list_all is_plain_byte bytes.now }
{
    bytes.iter().all(|&byte| is_plain(byte))
}

/// Adds bytes as they stand between the quotation marks of a string.
pub(crate) fn add_escaped<S: Sink>(text: &mut Text<S>, bytes: &[u8]) -> Result<(), WriteFault>
    ensures { AddsText S.written S.faults S.along text.old text.new (escape bytes.now) result }
{
    if are_plain(bytes) {
        text.bytes(bytes)
    } else {
        add_each(text, bytes)
    }
}

/// The same, byte by byte.
fn add_each<S: Sink>(text: &mut Text<S>, bytes: &[u8]) -> Result<(), WriteFault>
    ensures { AddsText S.written S.faults S.along text.old text.new (escape bytes.now) result }
{
    'escaping: for byte in bytes {
        add_byte(text, *byte)?;
    }
    Ok(())
}

/// Adds the name of the function with an id, as it stands in a string.
pub(crate) fn add_escaped_name<S: Sink>(
    text: &mut Text<S>,
    names: Names,
    id: u32,
) -> Result<(), WriteFault>
    ensures { AddsText S.written S.faults S.along text.old text.new
        (escape (plain_name (naming names.entry) id)) result }
{
    match names.name_of(id) {
        Some(name) => add_escaped(text, name),
        None => add_number(text, id),
    }
}

/// Adds the text for a name that isn't known. Nothing in it is escaped.
fn add_number<S: Sink>(text: &mut Text<S>, id: u32) -> Result<(), WriteFault>
    ensures { AddsText S.written S.faults S.along text.old text.new
        (escape (number_text id)) result }
{
    add_name(text, Names::Ids, NameForm::Plain, id)
}
