//! Trace events and basic logs, from the bytes of a trace.

ghost use Rattle.std.specs.Prelude.{◌≡◌, Ok};
ghost use Rattle.fdr_file.specs.declared.trace.Trace.{Trace};
ghost use Rattle.fdr_file.specs.{Prefixes.{ReadsAsTrace}, ThreadEvents.{thread_events}, Traces.{trace_of}};
ghost use Rattle.trace_forms.specs.BasicLogs.{wide_cpu as first_wide};

use crate::basic_text::{add_log, find_wide};
use crate::trace_events::add_events;
use fdr_file::EventCursor;
use function_names::Names;
use xray_io::{Printed, Sink, Text, WriteFault};

/// The events of the trace that bytes read as, as the text that [`EventsText`](crate::EventsText)
/// prints. No list of the events is made.
///
/// The bytes have to be a trace: `TraceScan` and `read_trace` of `fdr_file` say whether they are.
#[derive(Clone, Copy)]
pub struct EventsBytes<'a> {
    /// The bytes of the file.
    pub bytes: &'a [u8],
    /// What names the functions of the events. If a name isn't known, it is `#` and the id.
    pub names: Names<'a>,
}

impl Printed for EventsBytes<'_> {
    ghost use Rattle.function_names.specs.Name.{naming};
    ghost use Rattle.trace_forms.specs.TraceEvents.{events_of_bytes};

    ghost text = { λ t. events_of_bytes (naming t.names) t.bytes.now };

    ghost ready = { λ t. ReadsAsTrace t.bytes.now };

    fn add_to<S: Sink>(&self, to: &mut Text<S>) -> Result<(), WriteFault> {
        add_events(to, &mut EventCursor::new(self.bytes), self.names)
    }
}

/// The trace that bytes read as, as the basic log that [`BasicText`](crate::BasicText) prints. No list
/// of its events is made.
///
/// The bytes have to be a trace, and each CPU has to be below 256; see [`wide_cpu_of_bytes`].
#[derive(Clone, Copy)]
pub struct BasicBytes<'a> {
    /// The bytes of the file.
    pub bytes: &'a [u8],
}

impl Printed for BasicBytes<'_> {
    ghost use Rattle.std.specs.Prelude.{None};
    ghost use Rattle.trace_forms.specs.BasicLogs.{log_of_bytes};

    ghost text = { λ log. log_of_bytes log.bytes.now };

    ghost ready = { λ log. (trace : Trace) × (trace_of log.bytes.now ≡ Ok trace)
        × (first_wide (thread_events trace.blocks) ≡ None) };

    fn add_to<S: Sink>(&self, to: &mut Text<S>) -> Result<(), WriteFault> {
        let mut cursor = EventCursor::new(self.bytes);
        let header = cursor.header();
        add_log(to, &header, &mut cursor)
    }
}

/// The number, from 0, of the first event whose CPU is above 255, of the trace that bytes read as.
/// `None` if each CPU fits. The bytes have to be a trace. No list of its events is made.
pub fn wide_cpu_of_bytes(bytes: &[u8]) -> Option<u64>
    requires { ReadsAsTrace bytes.now }
    ensures { (trace : Trace) → trace_of bytes.now ≡ Ok trace
        → result ≡ first_wide (thread_events trace.blocks) }
{
    find_wide(&mut EventCursor::new(bytes))
}
