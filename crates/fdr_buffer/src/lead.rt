//! What comes before an event's function record.

ghost use Rattle.std.specs.Prelude.{◌≡◌, ◌<◌, ◌≤◌, ◌^◌, ℕ, length};
ghost use Rattle.fdr_record.specs.declared.event.Event.{Event};
ghost use Rattle.fdr_buffer.specs.Segments.{bytes_of, function_records, records_of};
ghost use Rattle.fdr_buffer.specs.private.Leads.{lead_records};

use fdr_record::{Event, FUNCTION_BYTES, Kind, METADATA_BYTES};

/// The length in bytes of the function record of an event, and of its argument if it logs one.
fn function_len(event: &Event) -> usize
    ensures length { (delta : ℕ) → result ≡ length (bytes_of (function_records event.now delta)) }
    ensures few { result ≤ 24 }
{
    match event.kind {
        Kind::Entry | Kind::Exit | Kind::TailExit => FUNCTION_BYTES,
        Kind::EntryArgs => FUNCTION_BYTES + METADATA_BYTES,
    }
}

/// How an event's records say its CPU and counter.
#[derive(Clone, Copy)]
pub(crate) enum Lead {
    /// A `NewCPUId` record comes first. The event is the first of its segment, or it is on another
    /// CPU than the event before it.
    Cpu,
    /// A `TSCWrap` record comes first. The counter is below that of the event before, or at least
    /// 2^32 cycles above it. LLVM's runtime already writes this record from 2^31 cycles on
    /// (`xray_fdr_controller.h`).
    Wrap,
    /// No other record comes first. The function record says by how many cycles the counter has
    /// advanced since the event before.
    Delta(u32),
}

impl Lead {
    /// The lead of an event. `before` is the event before it in its segment.
    pub(crate) fn of(before: Option<Event>, event: &Event) -> Lead
        ensures records { lead_records result event.now ≡ records_of before event.now }
        ensures cpu { event.now.cpu < 2 ^ 16 }
        ensures tsc { event.now.tsc < 2 ^ 64 }
        ensures arg { event.now.arg < 2 ^ 64 }
    {
        let Event {
            cpu,
            tsc,
            arg: _arg,
            ..
        } = *event;
        let Some(before) = before else {
            return Lead::Cpu;
        };
        if before.cpu != cpu {
            return Lead::Cpu;
        }
        match tsc.checked_sub(before.tsc).map(u32::try_from) {
            Some(Ok(delta)) => Lead::Delta(delta),
            _ => Lead::Wrap,
        }
    }

    /// The length in bytes of the records of an event with this lead.
    pub(crate) fn len(self, event: &Event) -> usize
        ensures { result ≡ length (bytes_of (lead_records self event.now)) }
    {
        match self {
            Lead::Cpu | Lead::Wrap => METADATA_BYTES + function_len(event),
            Lead::Delta(_) => function_len(event),
        }
    }
}
