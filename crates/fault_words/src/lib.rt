//! The words that a line on err gives for a refused input: the name of the refusal and its values,
//! as `Code 0 Register 10`.
//!
//! The fault of each reader has its words in the reader's own crate, by the trait `Fault`.
#![tactic(auto)]

mod fault;
mod words;

pub use fault::Fault;
pub use words::Words;
