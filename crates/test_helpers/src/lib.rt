//! What tests share: a desk that moves one byte a call and records its reads and its faults, a sink
//! that records its faults, images, a compiled program, and the parts of trace files.
#![tactic(auto)]

pub mod images;
pub mod programs;
pub mod trace_parts;
mod watched_desk;
mod watched_sink;

pub use watched_desk::{DeskCall, DeskFault, WatchedDesk};
pub use watched_sink::WatchedSink;
