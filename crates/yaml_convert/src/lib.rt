//! Traces as YAML.
#![tactic(auto)]

mod line;
mod records;
mod row;
mod stamp;
mod yaml;
mod yaml_bytes;

pub use yaml::{YamlText, write_yaml};
pub use yaml_bytes::{YamlBytes, write_yaml_bytes};
