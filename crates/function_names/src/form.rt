//! The forms in which names are written.

ghost use Rattle.std.specs.Prelude.{◌≡◌, ◌==◌, ◌++◌, ◌∷◌, [], if◌then◌else◌};
ghost use Rattle.std.specs.List.{flat_map, list_all, list_any};
ghost use Rattle.xray_io.specs.Text.{AddsText};
ghost use Rattle.function_names.specs.Name.{byte_text, marks_around, needs_marks, spelled};
ghost use Rattle.function_names.specs.private.Bytes.{is_itself};

use xray_io::{Sink, Text, WriteFault};

/// The form of a name in a text.
#[derive(Clone, Copy)]
pub enum NameForm {
    /// As it is, for readers.
    Plain,
    /// A field of csv: between double quotation marks if it has a comma, such a mark or the end of a
    /// line, with each mark in it doubled.
    Field,
    /// A frame of a path, whose frames are joined by semicolons. A colon stands for each semicolon in
    /// it, as in the stacks that FlameGraph's scripts write.
    Frame,
    /// A text of YAML between single quotation marks, with each mark in it doubled. The marks around
    /// it are no part of this form.
    Quoted,
}

/// Whether a byte of a name is written as itself.
fn is_itself(form: NameForm, byte: u8) -> bool
    ensures { result ≡ is_itself form byte }
{
    match form {
        NameForm::Plain => true,
        NameForm::Field => byte != b'"',
        NameForm::Frame => byte != b';',
        NameForm::Quoted => byte != b'\'',
    }
}

/// Whether all bytes of a name are written as themselves.
fn are_themselves(form: NameForm, name: &[u8]) -> bool
    ensures { result ≡ list_all (is_itself form) name.now }
{
    name.iter().all(|byte| is_itself(form, *byte))
}

/// Adds a byte, or another text in place of one byte.
fn add_one<S: Sink>(
    text: &mut Text<S>,
    byte: u8,
    replaced: u8,
    other: &[u8],
) -> Result<(), WriteFault>
    ensures { AddsText S.written S.faults S.along text.old text.new
        (if byte == replaced then other.now else byte ∷ []) result }
{
    if byte == replaced {
        text.bytes(other)
    } else {
        text.bytes(&[byte])
    }
}

/// Adds a byte of a name.
fn add_byte<S: Sink>(text: &mut Text<S>, form: NameForm, byte: u8) -> Result<(), WriteFault>
    ensures { AddsText S.written S.faults S.along text.old text.new (byte_text form byte) result }
{
    match form {
        NameForm::Plain => text.bytes(&[byte]),
        NameForm::Field => add_one(text, byte, b'"', b"\"\""),
        NameForm::Frame => add_one(text, byte, b';', b":"),
        NameForm::Quoted => add_one(text, byte, b'\'', b"''"),
    }
}

/// Adds the bytes of a name, one by one.
fn add_each<S: Sink>(text: &mut Text<S>, form: NameForm, name: &[u8]) -> Result<(), WriteFault>
    ensures { AddsText S.written S.faults S.along text.old text.new
        (flat_map (byte_text form) name.now) result }
{
    'bytes: for byte in name {
        add_byte(text, form, *byte)?;
    }
    Ok(())
}

/// Adds the bytes of a name.
#[tactic(auto, using(crate::proofs::Bytes::themselves))]
fn add_bytes<S: Sink>(text: &mut Text<S>, form: NameForm, name: &[u8]) -> Result<(), WriteFault>
    ensures { AddsText S.written S.faults S.along text.old text.new
        (flat_map (byte_text form) name.now) result }
{
    if are_themselves(form, name) {
        return text.bytes(name);
    }
    add_each(text, form, name)
}

/// Whether a byte of a field of csv needs marks around the field.
fn needs_marks(byte: u8) -> bool
    ensures { result ≡ needs_marks byte }
{
    matches!(byte, b',' | b'"' | b'\n' | b'\r')
}

/// Whether a field of csv needs marks around it.
fn has_special(name: &[u8]) -> bool
    ensures { result ≡ list_any needs_marks name.now }
{
    name.iter().any(|byte| needs_marks(*byte))
}

/// The marks around a name.
fn marks_around(form: NameForm, name: &[u8]) -> &'static [u8]
    ensures { result.now ≡ marks_around form name.now }
{
    match form {
        NameForm::Field => { if has_special(name) { b"\"" } else { b"" } }
        NameForm::Plain | NameForm::Frame | NameForm::Quoted => b"",
    }
}

/// Adds a name between marks.
fn add_between<S: Sink>(
    text: &mut Text<S>,
    marks: &[u8],
    form: NameForm,
    name: &[u8],
) -> Result<(), WriteFault>
    ensures { AddsText S.written S.faults S.along text.old text.new
        (marks.now ++ flat_map (byte_text form) name.now ++ marks.now) result }
{
    text.bytes(marks)?;
    add_bytes(text, form, name)?;
    text.bytes(marks)
}

/// Adds a name in a form.
pub(crate) fn add_spelled<S: Sink>(
    text: &mut Text<S>,
    form: NameForm,
    name: &[u8],
) -> Result<(), WriteFault>
    ensures { AddsText S.written S.faults S.along text.old text.new (spelled form name.now) result }
{
    let marks = marks_around(form, name);
    add_between(text, marks, form, name)
}
