//! Marks: what the passings of a thread met, and the text of their runs.
#![tactic(auto)]

mod mark;
mod marks;
mod runs;

pub use mark::Mark;
pub use marks::Marks;
pub use runs::write_runs;
