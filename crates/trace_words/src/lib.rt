//! The words that a line on err gives for a file that isn't a trace.
#![tactic(auto)]

mod refusal;

pub use refusal::TraceRefusal;
