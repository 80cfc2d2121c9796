//! The name of the function with an id.

ghost use Rattle.std.specs.Prelude.{◌≡◌, ◌≤◌, ◌<◌, ◌+◌, ◌++◌, drop, length};
ghost use Rattle.std.specs.List.{flat_map};
ghost use Rattle.xray_io.specs.Text.{AddsText};
ghost use Rattle.map_names.specs.Naming.{no_names};
ghost use Rattle.function_names.specs.Name.{callee_text, name_text, naming, number_text};

use crate::form::{NameForm, add_spelled};
use crate::names::Names;
use itoa::write_digits;
use xray_io::{Sink, Text, WriteFault};

/// What stands before an id.
const MARK: u8 = b'#';

/// What stands before a name in a path.
const SEPARATOR: u8 = b';';

/// The length of a separator, a mark and the longest id.
const ROOM: usize = 12;

/// How many numbers of callees are added in one piece.
const AT_ONCE: usize = 16;

/// The length of so many of them, if each is as long as may be.
const LINE: usize = AT_ONCE * ROOM;

/// Adds the name of the function with an id, in a form. If the name isn't known, adds `#` and the id in
/// decimal digits.
///
/// On `WriteFault` a prefix of what the text was given is written, and the sink counted a fault.
pub fn add_name<S: Sink>(
    text: &mut Text<S>,
    names: Names,
    form: NameForm,
    id: u32,
) -> Result<(), WriteFault>
    ensures { AddsText S.written S.faults S.along text.old text.new
        (name_text form (naming names.entry) id) result }
{
    match names.name_of(id) {
        Some(name) => add_spelled(text, form, name),
        None => add_number(text, id),
    }
}

/// Adds the text for a name that isn't known.
fn add_number<S: Sink>(text: &mut Text<S>, id: u32) -> Result<(), WriteFault>
    ensures { AddsText S.written S.faults S.along text.old text.new (number_text id) result }
{
    let mut word = [0; ROOM];
    let start = put_number(&mut word, id);
    text.bytes(&word[start..])
}

/// Adds the names of callees, each as a frame after `;`. In a path they stand after the name of the
/// outermost caller.
///
/// On `WriteFault` a prefix of what the text was given is written, and the sink counted a fault.
pub fn add_callee_names<S: Sink>(
    text: &mut Text<S>,
    names: Names,
    ids: &[u32],
) -> Result<(), WriteFault>
    ensures { AddsText S.written S.faults S.along text.old text.new
        (flat_map (callee_text (naming names.entry)) ids.now) result }
{
    match names {
        Names::Ids => add_callee_numbers(text, ids),
        Names::Image(_) | Names::Map(_) => add_each_callee(text, names, ids),
    }
}

/// Adds the name of each callee after `;`.
fn add_each_callee<S: Sink>(text: &mut Text<S>, names: Names, ids: &[u32]) -> Result<(), WriteFault>
    ensures { AddsText S.written S.faults S.along text.old text.new
        (flat_map (callee_text (naming names.entry)) ids.now) result }
{
    'callees: for id in ids {
        add_callee(text, names, *id)?;
    }
    Ok(())
}

/// Adds the name of a callee after `;`.
fn add_callee<S: Sink>(text: &mut Text<S>, names: Names, id: u32) -> Result<(), WriteFault>
    ensures { AddsText S.written S.faults S.along text.old text.new
        (callee_text (naming names.entry) id) result }
{
    text.bytes(&[SEPARATOR])?;
    add_name(text, names, NameForm::Frame, id)
}

/// Adds `;` and the text for a name that isn't known, for each id.
fn add_callee_numbers<S: Sink>(text: &mut Text<S>, ids: &[u32]) -> Result<(), WriteFault>
    ensures { AddsText S.written S.faults S.along text.old text.new
        (flat_map (callee_text no_names) ids.now) result }
{
    let mut left = ids;
    'adding: while !left.is_empty() {
        let (some, rest) = left.split_at(left.len().min(AT_ONCE));
        add_some_numbers(text, some)?;
        left = rest;
    }
    Ok(())
}

/// Adds `;` and the text for a name that isn't known, for each of a few ids, in one piece.
fn add_some_numbers<S: Sink>(text: &mut Text<S>, ids: &[u32]) -> Result<(), WriteFault>
    requires { length ids.now ≤ AT_ONCE }
    ensures { AddsText S.written S.faults S.along text.old text.new
        (flat_map (callee_text no_names) ids.now) result }
{
    let mut words = [0; LINE];
    let start = put_callee_numbers(&mut words, ids);
    text.bytes(&words[start..])
}

/// Writes `;` and the text for a name that isn't known, for each of a few ids, so that they go to the
/// end of the words. Returns where they begin.
fn put_callee_numbers(words: &mut [u8; LINE], ids: &[u32]) -> usize
    requires { length ids.now ≤ AT_ONCE }
    ensures within { result ≤ LINE }
    ensures text { drop result words.new ≡ flat_map (callee_text no_names) ids.now }
{
    let mut start = LINE;
    let mut left = ids.len();
    'putting: while left > 0 {
        left -= 1;
        start = put_callee_number(words, start, ids[left]);
    }
    start
}

/// Writes `;` and the text for a name that isn't known, so that they end at a place of the words.
/// Returns where they begin.
fn put_callee_number(words: &mut [u8; LINE], end: usize, id: u32) -> usize
    requires { (ROOM ≤ end) × (end ≤ LINE) }
    ensures within { (end ≤ result + ROOM) × (result ≤ LINE) }
    ensures text { drop result words.new ≡ callee_text no_names id ++ drop end words.old }
{
    let start = write_digits(u64::from(id), words, end) - 2;
    words[start + 1] = MARK;
    words[start] = SEPARATOR;
    start
}

/// Writes the text for a name that isn't known, so that it goes to the end of the word. Returns
/// where it begins.
fn put_number(word: &mut [u8; ROOM], id: u32) -> usize
    ensures within { (0 < result) × (result < ROOM) }
    ensures text { drop result word.new ≡ number_text id }
{
    let start = write_digits(u64::from(id), word, ROOM) - 1;
    word[start] = MARK;
    start
}
