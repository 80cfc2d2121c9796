//! The picture.

ghost use Rattle.std.specs.{Prelude.{◌≡◌, ◌^◌, ◌<◌, ◌≤◌, map}, Option.{option_map}};
ghost use Rattle.function_names.specs.Name.{image_names, naming};
ghost use Rattle.stack_rebuild.specs.Stacks.{told};
ghost use Rattle.xray_io.specs.{Text.{AddsText}, Writes.{WritesText}};
ghost use Rattle.flame_graph.specs.FlameText.{flame_text, foot_text, head_text, seconds_text, start_text, total_text};
ghost use Rattle.flame_graph.specs.{Frames.{AreStacks}, Laws.{AreRowPrefixes, LowestAddUp, NoneOverlap, NoneSticksOut, NoneTwice}};

use crate::sums::{levels_of, total_of};
use crate::walk::{LEVEL, Picture, add_frames};
use function_names::Names;
use stack_rebuild::StackRow;
use xray_image::Image;
use xray_io::{Piece, Printed, Sink, Text, WriteFault, write_text};

/// Stacks, which are printed as a flame graph: a picture in SVG 1.1, with nothing from elsewhere in
/// it.
///
/// Each frame is a rectangle on a line of its own. It stands on that of its caller, and is as wide as
/// the time that was spent in it and in the frames above it. Frames that are narrower than a tenth of
/// a pixel are left out, and the last line says how many.
///
/// The rows have to be in ascending order of their paths, each path once and with a function, as
/// `stacks` and `StackFold::rows` give them.
#[derive(Clone, Copy)]
pub struct FlameGraph<'a> {
    /// The rows.
    pub rows: &'a [StackRow],
    /// What names the functions of the paths. If a name isn't known, `#` and the id are printed.
    pub names: Names<'a>,
    /// How often the counter advances, in cycles a second, as the header of the trace has it. If it
    /// is 0, the total is printed in cycles, and otherwise in seconds.
    pub frequency: u64,
}

impl Printed for FlameGraph<'_> {
    ghost text = { λ flame. flame_text flame.frequency (naming flame.names)
        (map told flame.rows.now) };

    ghost ready = { λ flame. AreStacks (map told flame.rows.now) };

    fn add_to<S: Sink>(&self, to: &mut Text<S>) -> Result<(), WriteFault> {
        let picture = Picture {
            rows: self.rows,
            names: self.names,
            total: total_of(self.rows),
            levels: levels_of(self.rows),
        };
        add_head(to, self.frequency, picture.levels, picture.total)?;
        let mut left = 0;
        add_frames(to, &picture, &mut left)?;
        add_foot(to, picture.levels, left)
    }
}

/// Writes a flame graph of rows, with the names that an image gives to the functions of the paths.
/// [`FlameGraph`] says what is printed. No memory is taken. After a `WriteFault` the sink was given a
/// prefix of the text.
pub fn write_flame_graph<S: Sink>(
    rows: &[StackRow],
    image: Option<&Image>,
    frequency: u64,
    sink: &mut S,
) -> Result<(), WriteFault>
    requires { AreStacks (map told rows.now) }
    ensures writes { WritesText S.written S.faults S.along sink.old sink.new
        (flame_text frequency (image_names (option_map (λ image. image.now) image.entry))
        (map told rows.now)) result }
    ensures prefixes { AreRowPrefixes (map told rows.now) }
    ensures once { NoneTwice (map told rows.now) }
    ensures apart { NoneOverlap (map told rows.now) }
    ensures within { NoneSticksOut (map told rows.now) }
    ensures adds_up { LowestAddUp (map told rows.now) }
{
    write_text(
        &FlameGraph {
            rows,
            names: Names::of_image(image),
            frequency,
        },
        sink,
    )
}

/// Adds what stands before the frames.
fn add_head<S: Sink>(
    to: &mut Text<S>,
    frequency: u64,
    levels: usize,
    total: u128,
) -> Result<(), WriteFault>
    requires { levels ≤ 4096 }
    ensures { AddsText S.written S.faults S.along to.old to.new
        (head_text frequency levels total) result }
{
    add_start(to, levels)?;
    add_total(to, u128::from(frequency), total)?;
    to.bytes(b"</text>\n")
}

/// Adds what stands before the total.
fn add_start<S: Sink>(to: &mut Text<S>, levels: usize) -> Result<(), WriteFault>
    requires { levels ≤ 4096 }
    ensures { AddsText S.written S.faults S.along to.old to.new (start_text levels) result }
{
    let height = AROUND + levels as u128 * LEVEL;
    to.pieces(&[
        Piece::Bytes(b"<svg xmlns=\"http://www.w3.org/2000/svg\" width=\"1200\" height=\""),
        Piece::Number(height),
        Piece::Bytes(b"\" viewBox=\"0 0 1200 "),
        Piece::Number(height),
        Piece::Bytes(
            b"\" font-family=\"monospace\" font-size=\"12\">\n<rect width=\"1200\" height=\"",
        ),
        Piece::Number(height),
        Piece::Bytes(
            b"\" fill=\"#f8f4e4\"/>\n<text x=\"600\" y=\"28\" font-size=\"17\" text-anchor=\"middle\">Flame graph: ",
        ),
    ])
}

/// What is free above and below the frames, in pixels.
const AROUND: u128 = 80;

/// How many parts of a second are printed.
const MILLIONTHS: u128 = 1_000_000;

/// Adds a total.
fn add_total<S: Sink>(to: &mut Text<S>, frequency: u128, total: u128) -> Result<(), WriteFault>
    requires { frequency < 2 ^ 64 }
    ensures { AddsText S.written S.faults S.along to.old to.new
        (total_text frequency total) result }
{
    if frequency == 0 {
        return to.pieces(&[Piece::Number(total), Piece::Bytes(b" cycles")]);
    }
    add_seconds(
        to,
        total / frequency,
        total % frequency * MILLIONTHS / frequency,
    )
}

/// Adds seconds, and millionths of a second.
fn add_seconds<S: Sink>(to: &mut Text<S>, seconds: u128, millionths: u128) -> Result<(), WriteFault>
    ensures { AddsText S.written S.faults S.along to.old to.new
        (seconds_text seconds millionths) result }
{
    to.pieces(&[
        Piece::Number(seconds),
        Piece::Bytes(b"."),
        Piece::Number(millionths / 100_000 % 10),
        Piece::Number(millionths / 10_000 % 10),
        Piece::Number(millionths / 1_000 % 10),
        Piece::Number(millionths / 100 % 10),
        Piece::Number(millionths / 10 % 10),
        Piece::Number(millionths % 10),
        Piece::Bytes(b" seconds"),
    ])
}

/// Adds what stands after the frames.
fn add_foot<S: Sink>(to: &mut Text<S>, levels: usize, left: u128) -> Result<(), WriteFault>
    requires { levels ≤ 4096 }
    ensures { AddsText S.written S.faults S.along to.old to.new (foot_text levels left) result }
{
    to.pieces(&[
        Piece::Bytes(b"<text x=\"10\" y=\""),
        Piece::Number(FOOT + levels as u128 * LEVEL),
        Piece::Bytes(b"\">Frames narrower than 0.1 pixels, which are left out: "),
        Piece::Number(left),
        Piece::Bytes(b"</text>\n</svg>\n"),
    ])
}

/// Where the last line stands if there are no frames, in pixels from the upper end of the picture.
const FOOT: u128 = 68;
