//! The line of a frame.

ghost use Rattle.std.specs.Prelude.{◌≡◌, ◌<◌, ◌^◌};
ghost use Rattle.function_names.specs.Name.{naming, plain_name};
ghost use Rattle.xray_io.specs.Text.{AddsText};
ghost use Rattle.flame_graph.specs.FlameText.{baseline_text, box_text, calls_text, colour_text, corner_text, fitting, hint_text, label_text, frame_line, room_text, size_text};

use crate::frame::Calls;
use crate::names::{ROOM, add_shortened, add_xml, put_number};
use function_names::Names;
use xray_io::{Piece, Sink, Text, WriteFault};

/// Where a frame is drawn, and how wide: `left` and `width` in thousandths of a pixel, from the left
/// end of the lowest row, and `top` in pixels from the upper end of the picture.
#[derive(Clone, Copy)]
pub(crate) struct Place {
    pub(crate) left: u128,
    pub(crate) width: u128,
    pub(crate) top: u128,
}

/// Adds the line of a frame, with the name of its function.
pub(crate) fn add_frame_line<S: Sink>(
    to: &mut Text<S>,
    place: &Place,
    func: u32,
    names: Names,
    calls: &Calls,
) -> Result<(), WriteFault>
    requires left { place.now.left < 2 ^ 64 }
    requires width { place.now.width < 2 ^ 64 }
    requires top { place.now.top < 2 ^ 64 }
    ensures { AddsText S.written S.faults S.along to.old to.new
        (frame_line place.now.left place.now.width place.now.top func
        (plain_name (naming names.entry) func) calls.now) result }
{
    if let Some(name) = names.name_of(func) {
        return add_line(to, place, func, name, calls);
    }
    let mut word = [0; ROOM];
    let start = put_number(&mut word, func);
    add_line(to, place, func, &word[start..], calls)
}

/// Adds the line of a frame whose function has this name.
fn add_line<S: Sink>(
    to: &mut Text<S>,
    place: &Place,
    func: u32,
    name: &[u8],
    calls: &Calls,
) -> Result<(), WriteFault>
    requires left { place.now.left < 2 ^ 64 }
    requires width { place.now.width < 2 ^ 64 }
    requires top { place.now.top < 2 ^ 64 }
    ensures { AddsText S.written S.faults S.along to.old to.new
        (frame_line place.now.left place.now.width place.now.top func name.now calls.now) result }
{
    add_hint(to, name, calls)?;
    add_box(to, place, u128::from(func))?;
    add_label(to, place, name)
}

/// Adds what is shown of a frame under the pointer.
fn add_hint<S: Sink>(to: &mut Text<S>, name: &[u8], calls: &Calls) -> Result<(), WriteFault>
    ensures { AddsText S.written S.faults S.along to.old to.new (hint_text name.now calls.now) result }
{
    to.bytes(b"<g><title>")?;
    add_xml(to, name)?;
    add_calls(to, calls)
}

/// Adds what is known of a frame's calls.
fn add_calls<S: Sink>(to: &mut Text<S>, calls: &Calls) -> Result<(), WriteFault>
    ensures { AddsText S.written S.faults S.along to.old to.new (calls_text calls.now) result }
{
    to.pieces(&[
        Piece::Bytes(b": count "),
        Piece::Number(u128::from(calls.count)),
        Piece::Bytes(b", sum "),
        Piece::Number(calls.sum),
        Piece::Bytes(b", self "),
        Piece::Number(calls.own),
        Piece::Bytes(b"</title>"),
    ])
}

/// What is free to the left of the frames, in thousandths of a pixel.
const MARGIN: u128 = 10_000;

/// Adds the rectangle of a frame.
fn add_box<S: Sink>(to: &mut Text<S>, place: &Place, id: u128) -> Result<(), WriteFault>
    requires left { place.now.left < 2 ^ 64 }
    requires id { id < 2 ^ 32 }
    ensures { AddsText S.written S.faults S.along to.old to.new
        (box_text place.now.left place.now.width place.now.top id) result }
{
    add_corner(to, place.left + MARGIN, place.top)?;
    add_size(to, place.width)?;
    add_colour(to, id)
}

/// Adds the left upper corner of a rectangle.
fn add_corner<S: Sink>(to: &mut Text<S>, left: u128, top: u128) -> Result<(), WriteFault>
    ensures { AddsText S.written S.faults S.along to.old to.new (corner_text left top) result }
{
    to.pieces(&[
        Piece::Bytes(b"<rect x=\""),
        Piece::Number(left / 1000),
        Piece::Bytes(b"."),
        Piece::Number(left / 100 % 10),
        Piece::Number(left / 10 % 10),
        Piece::Number(left % 10),
        Piece::Bytes(b"\" y=\""),
        Piece::Number(top),
        Piece::Bytes(b"\""),
    ])
}

/// Adds the width and the height of a rectangle.
fn add_size<S: Sink>(to: &mut Text<S>, width: u128) -> Result<(), WriteFault>
    ensures { AddsText S.written S.faults S.along to.old to.new (size_text width) result }
{
    to.pieces(&[
        Piece::Bytes(b" width=\""),
        Piece::Number(width / 1000),
        Piece::Bytes(b"."),
        Piece::Number(width / 100 % 10),
        Piece::Number(width / 10 % 10),
        Piece::Number(width % 10),
        Piece::Bytes(b"\" height=\"15\" rx=\"2\""),
    ])
}

/// Adds the colour of a function.
fn add_colour<S: Sink>(to: &mut Text<S>, id: u128) -> Result<(), WriteFault>
    requires { id < 2 ^ 32 }
    ensures { AddsText S.written S.faults S.along to.old to.new (colour_text id) result }
{
    to.pieces(&[
        Piece::Bytes(b" fill=\"rgb("),
        Piece::Number(205 + id * 31 % 50),
        Piece::Bytes(b","),
        Piece::Number(100 + id * 89 % 120),
        Piece::Bytes(b","),
        Piece::Number(id * 37 % 55),
        Piece::Bytes(b")\"/>"),
    ])
}

/// What is free to the left of the label of the first frame, in thousandths of a pixel.
const LABEL_MARGIN: u128 = 13_000;

/// How far below the top of a frame its label stands, in pixels.
const BASELINE: u128 = 12;

/// The least number of characters that a label has room for.
const LEAST_ROOM: usize = 3;

/// Adds the label of a frame, if there is room for it, and what ends the line.
fn add_label<S: Sink>(to: &mut Text<S>, place: &Place, name: &[u8]) -> Result<(), WriteFault>
    requires left { place.now.left < 2 ^ 64 }
    requires width { place.now.width < 2 ^ 64 }
    requires top { place.now.top < 2 ^ 64 }
    ensures { AddsText S.written S.faults S.along to.old to.new
        (label_text place.now.left place.now.width place.now.top name.now) result }
{
    let room = fitting(place.width);
    if room < LEAST_ROOM {
        return to.bytes(b"</g>\n");
    }
    add_text(
        to,
        place.left + LABEL_MARGIN,
        place.top + BASELINE,
        room,
        name,
    )
}

/// Adds a label that has room for this many characters.
fn add_text<S: Sink>(
    to: &mut Text<S>,
    left: u128,
    bottom: u128,
    room: usize,
    name: &[u8],
) -> Result<(), WriteFault>
    ensures { AddsText S.written S.faults S.along to.old to.new
        (room_text left bottom room name.now) result }
{
    add_baseline(to, left, bottom)?;
    add_shortened(to, room, name)?;
    to.bytes(b"</text></g>\n")
}

/// Adds where a label stands.
fn add_baseline<S: Sink>(to: &mut Text<S>, left: u128, top: u128) -> Result<(), WriteFault>
    ensures { AddsText S.written S.faults S.along to.old to.new (baseline_text left top) result }
{
    to.pieces(&[
        Piece::Bytes(b"<text x=\""),
        Piece::Number(left / 1000),
        Piece::Bytes(b"."),
        Piece::Number(left / 100 % 10),
        Piece::Number(left / 10 % 10),
        Piece::Number(left % 10),
        Piece::Bytes(b"\" y=\""),
        Piece::Number(top),
        Piece::Bytes(b"\">"),
    ])
}

/// The width of a character, in thousandths of a pixel.
const CHARACTER: u128 = 7_300;

/// What is free beside a label, in thousandths of a pixel.
const BESIDE: u128 = 6_000;

/// How many characters fit into a width in thousandths of a pixel.
fn fitting(width: u128) -> usize
    requires { width < 2 ^ 64 }
    ensures { result ≡ fitting width }
{
    (width.saturating_sub(BESIDE) / CHARACTER) as usize
}
