//! The YAML text of a trace.

ghost use Rattle.std.specs.{Prelude.{◌≡◌, ⊤}, Option.{option_map}};
ghost use Rattle.function_names.specs.Name.{image_names, naming};
ghost use Rattle.xray_io.specs.{Piece.{piece_text}, Text.{AddsText}, Writes.{WritesText}};
ghost use Rattle.yaml_convert.specs.Yaml.{header_text, yaml_text};
ghost use Rattle.xray_image.specs.Extract.{truth_text};

use crate::records::add_records;
use fdr_file::{Header, Trace, TraceCursor};
use function_names::Names;
use xray_image::Image;
use xray_io::{Piece, Printed, Sink, Text, WriteFault, write_text};

/// A trace as a YAML document with the keys of `llvm-xray convert -f=yaml`: its header, and a line
/// for each event. Unlike there, events stay block by block, in the order of the file, and records
/// have no `data`.
///
/// The type of the header is always 1, that of the Flight Data Recorder mode. The type of a record is
/// always 0. `process` is the process of the event's block, and `tsc` its counter in cycles. An entry
/// that logs its argument has it in `args`.
#[derive(Clone, Copy)]
pub struct YamlText<'a> {
    /// The trace.
    pub trace: &'a Trace,
    /// What names the functions of the events. If a name isn't known, `#` and the id are printed.
    pub names: Names<'a>,
}

impl Printed for YamlText<'_> {
    ghost text = { λ yaml. yaml_text (naming yaml.names) yaml.trace.now };

    ghost ready = { λ _. ⊤ };

    fn add_to<S: Sink>(&self, to: &mut Text<S>) -> Result<(), WriteFault> {
        add_header(to, &self.trace.header)?;
        add_records(to, &mut TraceCursor::new(self.trace), self.names)?;
        to.bytes(b"...\n")
    }
}

/// Writes a trace as a YAML document, with the names that an image gives to its functions.
/// [`YamlText`] says what is printed. No memory is taken. After a `WriteFault` the sink was given a
/// prefix of the text.
pub fn write_yaml<S: Sink>(
    trace: &Trace,
    image: Option<&Image>,
    sink: &mut S,
) -> Result<(), WriteFault>
    ensures writes { WritesText S.written S.faults S.along sink.old sink.new
        (yaml_text (image_names (option_map (λ image. image.now) image.entry)) trace.now) result }
{
    let names = Names::of_image(image);
    write_text(&YamlText { trace, names }, sink)
}

/// Adds the header.
pub(crate) fn add_header<S: Sink>(text: &mut Text<S>, header: &Header) -> Result<(), WriteFault>
    ensures { AddsText S.written S.faults S.along text.old text.new
        (header_text header.now) result }
{
    text.pieces(&[
        Piece::Bytes(b"---\nheader:\n  version: "),
        Piece::Number(u128::from(header.version)),
        Piece::Bytes(b"\n  type: 1\n  constant-tsc: "),
        truth(header.constant),
        Piece::Bytes(b"\n  nonstop-tsc: "),
        truth(header.nonstop),
        Piece::Bytes(b"\n  cycle-frequency: "),
        Piece::Number(u128::from(header.frequency)),
        Piece::Bytes(b"\n"),
    ])
}

/// The word for a yes or no.
fn truth(holds: bool) -> Piece<'static>
    ensures { piece_text result ≡ truth_text holds }
{
    match holds {
        true => Piece::Bytes(b"true"),
        false => Piece::Bytes(b"false"),
    }
}
