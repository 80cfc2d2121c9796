//! Names in a text of XML.

ghost use Rattle.std.specs.Prelude.{◌≡◌, ◌<◌, drop, take};
ghost use Rattle.function_names.specs.Name.{number_text};
ghost use Rattle.xray_io.specs.Text.{AddsText};
ghost use Rattle.flame_graph.specs.Characters.{characters};
ghost use Rattle.flame_graph.specs.FlameText.{cut_text, is_outside, shortened, xml_byte, xml_character, xml_characters, xml_text, xml_wide};

use crate::characters::{Characters, fits};
use itoa::write_digits;
use xray_io::{Sink, Text, WriteFault};

/// What stands before an id.
const MARK: u8 = b'#';

/// The length of a mark and the longest id.
pub(crate) const ROOM: usize = 11;

/// What stands for what has no place in a text of XML: U+FFFD in UTF-8.
const REPLACEMENT: [u8; 3] = [0xEF, 0xBF, 0xBD];

/// U+FFFE, which no text of XML has.
const FFFE: &[u8] = b"\xEF\xBF\xBE";

/// U+FFFF, which none has either.
const FFFF: &[u8] = b"\xEF\xBF\xBF";

/// Writes the name of a function that isn't known, so that it goes to the end of the word. Returns
/// where it begins.
pub(crate) fn put_number(word: &mut [u8; ROOM], id: u32) -> usize
    ensures within { result < ROOM }
    ensures text { drop result word.new ≡ number_text id }
{
    let start = write_digits(u64::from(id), word, ROOM) - 1;
    word[start] = MARK;
    start
}

/// Adds the part of a name that has room for this many characters.
pub(crate) fn add_shortened<S: Sink>(
    to: &mut Text<S>,
    room: usize,
    name: &[u8],
) -> Result<(), WriteFault>
    ensures { AddsText S.written S.faults S.along to.old to.new (shortened room name.now) result }
{
    if fits(room, name) {
        return add_xml(to, name);
    }
    add_cut(to, room.saturating_sub(2), name)
}

/// Adds the first characters of a name, and two dots.
fn add_cut<S: Sink>(to: &mut Text<S>, most: usize, name: &[u8]) -> Result<(), WriteFault>
    ensures { AddsText S.written S.faults S.along to.old to.new (cut_text most name.now) result }
{
    add_first(to, most, name)?;
    to.bytes(b"..")
}

/// Adds a name.
pub(crate) fn add_xml<S: Sink>(to: &mut Text<S>, name: &[u8]) -> Result<(), WriteFault>
    ensures { AddsText S.written S.faults S.along to.old to.new (xml_text name.now) result }
{
    add_first(to, name.len(), name)
}

/// Adds the first characters of a name, at most this many.
fn add_first<S: Sink>(to: &mut Text<S>, most: usize, name: &[u8]) -> Result<(), WriteFault>
    ensures { AddsText S.written S.faults S.along to.old to.new
        (xml_characters (take most (characters name.now))) result }
{
    let mut characters = Characters::new(name);
    'characters: for _ in 0..most {
        match characters.next() {
            None => return Ok(()),
            Some(character) => add_character(to, character)?,
        }
    }
    Ok(())
}

/// Adds a character of a name.
fn add_character<S: Sink>(to: &mut Text<S>, character: &[u8]) -> Result<(), WriteFault>
    ensures { AddsText S.written S.faults S.along to.old to.new
        (xml_character character.now) result }
{
    if character.len() == 1 {
        add_xml_byte(to, character[0])
    } else {
        add_wide(to, character)
    }
}

/// Adds a character of several bytes.
fn add_wide<S: Sink>(to: &mut Text<S>, character: &[u8]) -> Result<(), WriteFault>
    ensures { AddsText S.written S.faults S.along to.old to.new (xml_wide character.now) result }
{
    if is_outside(character) {
        to.bytes(&REPLACEMENT)
    } else {
        to.bytes(character)
    }
}

/// Whether a character is one of those that no text of XML has.
fn is_outside(character: &[u8]) -> bool
    ensures { result ≡ is_outside character.now }
{
    let is_fffe = character == FFFE;
    is_fffe || character == FFFF
}

/// Adds a character of one byte.
fn add_xml_byte<S: Sink>(to: &mut Text<S>, byte: u8) -> Result<(), WriteFault>
    ensures { AddsText S.written S.faults S.along to.old to.new (xml_byte byte) result }
{
    if byte == b'&' {
        to.bytes(b"&amp;")
    } else if byte == b'<' {
        to.bytes(b"&lt;")
    } else if byte == b'>' {
        to.bytes(b"&gt;")
    } else if byte == b'"' {
        to.bytes(b"&quot;")
    } else if b' ' <= byte && byte <= b'~' {
        to.bytes(&[byte])
    } else {
        to.bytes(&REPLACEMENT)
    }
}
