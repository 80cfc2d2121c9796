//! Further forms of a trace: trace events as JSON, basic logs, and dumps.
#![tactic(auto)]

mod basic;
mod basic_reading;
mod basic_text;
mod dump;
mod escaped;
mod gathered;
mod laws;
mod of_bytes;
mod record_row;
mod refusal;
mod row;
mod runs;
mod trace_events;

pub use basic::BasicFault;
pub use basic_reading::read_basic;
pub use basic_text::{BasicText, wide_cpu, write_basic};
pub use dump::{DumpText, write_dump};
pub use laws::{a_basic_log_reads_back, runs_are_longest};
pub use of_bytes::{BasicBytes, EventsBytes, wide_cpu_of_bytes};
pub use trace_events::{EventFault, EventsText, MOST_EVENTS, event_text, has_too_many};
