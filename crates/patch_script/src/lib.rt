//! Patch scripts: which texts are scripts, and what their commands mean as stores.
//!
//! `line` reads a line as a command. `standing` keeps what the commands so far have done. By that,
//! `reading` refuses the first line that may not follow. `placed` gives each command its place
//! among the micro steps. The micro steps of a script aren't stored, since there may be some
//! sixteen million. Each is found by its place.
#![tactic(auto)]

mod command;
mod fault;
mod first_patches;
mod keyword;
mod laws;
mod line;
mod micro;
mod placed;
mod reading;
mod refusal;
mod script;
mod sleds;
mod standing;
mod written;

pub use command::PatchCommand;
pub use fault::ScriptFault;
pub use laws::{
    a_patched_head_has_patched_parts, awaits_bound_passings, each_script_keeps_sleds,
    each_script_lets_threads_end, each_word_has_a_code_value, stores_give_the_code,
};
pub use micro::Micro;
pub use reading::read_script;
pub use script::Script;
pub use written::a_written_script_is_read;
