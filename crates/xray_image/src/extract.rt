//! The text of a sled map.

ghost use Rattle.std.specs.{Prelude.{◌≡◌, [], ⊤}, Option.{unwrap_or}};
ghost use Rattle.xray_io.specs.Text.{AddsText};
ghost use Rattle.xray_io.specs.Writes.{WritesText};
ghost use Rattle.xray_image.specs.Extract.{extract_text, sled_line, kind_text, truth_text};
ghost use Rattle.xray_image.specs.Ids.{name_of};

use crate::image::Image;
use crate::sled::{Sled, SledKind};
use xray_io::{Piece, Printed, Sink, Text, WriteFault, write_text};

/// How many hexadecimal digits an address is printed with.
const ADDRESS_DIGITS: usize = 16;

/// The sled map of an image as YAML, with the fields of `llvm-xray extract` except the version. The
/// document has a line for each sled, in the order of the map.
#[derive(Clone, Copy)]
pub struct SledMap<'a>(pub &'a Image);

impl Printed for SledMap<'_> {
    ghost text = { λ map. extract_text map.0.now };

    ghost ready = { λ _. ⊤ };

    fn add_to<S: Sink>(&self, to: &mut Text<S>) -> Result<(), WriteFault> {
        let image = self.0;
        to.bytes(b"---\n")?;
        for number in 0..image.sled_count() {
            let sled = image.sled(number);
            add_sled(to, image, &sled)?;
        }
        to.bytes(b"...\n")
    }
}

/// Writes the sled map of an image as YAML, as a `SledMap` of it is printed.
///
/// Takes no memory. On `WriteFault` a prefix of the text was written, and the sink counted a fault.
pub fn write_extract<S: Sink>(image: &Image, sink: &mut S) -> Result<(), WriteFault>
    ensures writes { WritesText S.written S.faults S.along sink.old sink.new
        (extract_text image.now) result }
{
    write_text(&SledMap(image), sink)
}

/// Adds the line of a sled.
fn add_sled<S: Sink>(text: &mut Text<S>, image: &Image, sled: &Sled) -> Result<(), WriteFault>
    ensures { AddsText S.written S.faults S.along text.old text.new
        (sled_line image.now sled.now) result }
{
    let id = u128::from(sled.id);
    let name = name_bytes(image, sled.id);
    text.pieces(&[
        Piece::Bytes(b"- { id: "),
        Piece::Number(id),
        Piece::Bytes(b", address: 0x"),
        Piece::Hex {
            number: sled.address,
            digits: ADDRESS_DIGITS,
        },
        Piece::Bytes(b", function: 0x"),
        Piece::Hex {
            number: sled.function,
            digits: ADDRESS_DIGITS,
        },
        Piece::Bytes(b", kind: "),
        Piece::Bytes(kind_bytes(sled.kind)),
        Piece::Bytes(b", always-instrument: "),
        Piece::Bytes(truth_bytes(sled.always)),
        Piece::Bytes(b", function-name: '"),
        Piece::Bytes(name),
        Piece::Bytes(b"' }\n"),
    ])
}

/// The name of the function with an id.
fn name_bytes(image: &Image, id: u32) -> &[u8]
    ensures { result.now ≡ unwrap_or (name_of image.now id) [] }
{
    match image.name_of(id) {
        Some(name) => name.as_bytes(),
        None => b"",
    }
}

/// The word for a kind of sleds.
fn kind_bytes(kind: SledKind) -> &'static [u8]
    ensures { result.now ≡ kind_text kind }
{
    match kind {
        SledKind::Entry => b"function-enter",
        SledKind::Exit => b"function-exit",
        SledKind::Tail => b"tail-exit",
        SledKind::Args => b"function-enter-arg",
    }
}

/// The word for a yes or no.
fn truth_bytes(holds: bool) -> &'static [u8]
    ensures { result.now ≡ truth_text holds }
{
    if holds { b"true" } else { b"false" }
}
