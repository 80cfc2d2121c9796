//! The YAML text of a trace, from the bytes of its file.

ghost use Rattle.std.specs.{Prelude.{◌≡◌, Ok}, Option.{option_map}};
ghost use Rattle.fdr_file.specs.declared.trace.Trace.{Trace};
ghost use Rattle.fdr_file.specs.Traces.{trace_of};
ghost use Rattle.function_names.specs.Name.{image_names, naming};
ghost use Rattle.xray_io.specs.Writes.{WritesText};
ghost use Rattle.yaml_convert.specs.Yaml.{yaml_of_bytes, yaml_text};

use crate::records::add_records;
use crate::yaml::add_header;
use fdr_file::EventCursor;
use function_names::Names;
use xray_image::Image;
use xray_io::{Printed, Sink, Text, WriteFault, write_text};

/// The trace that bytes read as, as the YAML document that [`YamlText`](crate::YamlText) prints. No
/// list of its events is made.
///
/// The bytes have to be a trace: `TraceScan` and `read_trace` of `fdr_file` say whether they are.
#[derive(Clone, Copy)]
pub struct YamlBytes<'a> {
    /// The bytes of the file.
    pub bytes: &'a [u8],
    /// What names the functions of the events. If a name isn't known, `#` and the id are printed.
    pub names: Names<'a>,
}

impl Printed for YamlBytes<'_> {
    ghost text = { λ yaml. yaml_of_bytes (naming yaml.names) yaml.bytes.now };

    ghost ready = { λ yaml. (trace : Trace) × (trace_of yaml.bytes.now ≡ Ok trace) };

    fn add_to<S: Sink>(&self, to: &mut Text<S>) -> Result<(), WriteFault> {
        let mut cursor = EventCursor::new(self.bytes);
        add_header(to, &cursor.header())?;
        add_records(to, &mut cursor, self.names)?;
        to.bytes(b"...\n")
    }
}

/// Writes the trace that bytes read as, with the names that an image gives to its functions. The
/// bytes have to be a trace. What is written is what `write_yaml` writes of it, but no list of its
/// events is made. No memory is taken. After a `WriteFault` the sink was given a prefix of the text.
pub fn write_yaml_bytes<S: Sink>(
    bytes: &[u8],
    image: Option<&Image>,
    sink: &mut S,
) -> Result<(), WriteFault>
    requires { (trace : Trace) × (trace_of bytes.now ≡ Ok trace) }
    ensures writes { (trace : Trace) → trace_of bytes.now ≡ Ok trace
        → WritesText S.written S.faults S.along sink.old sink.new
        (yaml_text (image_names (option_map (λ image. image.now) image.entry)) trace) result }
{
    let names = Names::of_image(image);
    write_text(&YamlBytes { bytes, names }, sink)
}
