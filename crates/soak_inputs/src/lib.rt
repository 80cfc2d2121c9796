//! The inputs of `soak`: a large lawful assembler text, script and schedule, all drawn from one
//! number.
#![tactic(auto)]

mod draws;
mod inputs;
mod laws;
mod lines;
mod schedule;
mod script;
mod text;

pub use inputs::{SOAK_FUNCTIONS, SOAK_THREADS, SoakInputs, soak_inputs};
pub use laws::{the_schedule_is_read, the_script_is_read, the_text_is_assembled};
