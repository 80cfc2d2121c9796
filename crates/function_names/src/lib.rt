//! The names of functions in texts about a trace.
//!
//! `names` has where names come from, `form` how they are written, and `name` the text for a function.
//! `laws` says how names are read back.
#![tactic(auto)]

mod form;
mod laws;
mod name;
mod names;

pub use form::NameForm;
pub use laws::{an_extracted_map_names_as_the_image, csv_reads_names_back, yaml_reads_names_back};
pub use name::{add_callee_names, add_name};
pub use names::Names;
