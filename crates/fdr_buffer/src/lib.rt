//! Buffers of events: the records of a thread's events, one after the other. A buffer holds one
//! segment of the thread's events. The segments of a thread are its events in order, each segment
//! filled as far as its buffer allows. The records are those of LLVM XRay's Flight Data Recorder
//! mode.
#![tactic(auto)]

mod buffer;
mod laws;
mod lead;
mod writing;

pub use buffer::{Buffer, LARGEST_SIZE, LEAST_SIZE, MOST_BUFFERS, TRACE_LIMIT};
pub use laws::{a_body_has_room, a_segment_grows, one_event_fits, segments_hold_all};
