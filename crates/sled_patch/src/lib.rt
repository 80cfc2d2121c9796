//! Runs of a script over a code table: the patcher's loop.
#![tactic(auto)]

mod run;

pub use run::{run_prefix, run_script};
