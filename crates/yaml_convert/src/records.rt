//! The records of a YAML document: a line for each event.

ghost use Rattle.std.specs.List.{flat_map};
ghost use Rattle.function_names.specs.Name.{naming};
ghost use Rattle.xray_io.specs.Text.{AddsText};
ghost use Rattle.yaml_convert.specs.Yaml.{event_line, records_text};

use crate::line::add_event;
use crate::stamp::Stamp;
use fdr_file::EventSource;
use function_names::Names;
use xray_io::{Sink, Text, WriteFault};

/// Adds the records of the events that are still to come.
pub(crate) fn add_records<S: Sink, E: EventSource>(
    text: &mut Text<S>,
    events: &mut E,
    names: Names,
) -> Result<(), WriteFault>
    ensures { AddsText S.written S.faults S.along text.old text.new
        (records_text (naming names.entry) (E.left events.old)) result }
{
    match events.next_event() {
        None => text.bytes(b"records: []\n"),
        Some((thread, pid, event)) => {
            text.bytes(b"records:\n")?;
            let mut stamp = Stamp::new(event.cpu, thread, pid);
            add_event(text, &mut stamp, thread, pid, &event, names)?;
            add_lines(text, &mut stamp, events, names)
        }
    }
}

/// Adds the lines of these events.
fn add_lines<S: Sink, E: EventSource>(
    text: &mut Text<S>,
    stamp: &mut Stamp,
    events: &mut E,
    names: Names,
) -> Result<(), WriteFault>
    ensures { AddsText S.written S.faults S.along text.old text.new
        (flat_map (event_line (naming names.entry)) (E.left events.old)) result }
{
    'lines: while let Some((thread, pid, event)) = events.next_event() {
        add_event(text, stamp, thread, pid, &event, names)?;
    }
    Ok(())
}
