//! The image of a traced program: the container file with its code, functions and sled map.
//!
//! `image/reading` reads a file: its `header`, the `parts` after it with what the entries of the map
//! say (`map_entry`), and the units of its code (`code_units`, each by `unit_reader`). Then it checks
//! the `functions`, the map (`sled_map`) and the `branches`, and gives `ids`. An `Image` keeps where
//! its units begin (`unit`, `running_sums`), and finds a unit by its address (`unit_index`).
//! `extract` prints the sled map. `format` has what readers and writers share.
#![tactic(auto)]

mod branches;
mod code_units;
mod extract;
mod fault;
mod fields;
pub mod format;
mod functions;
mod header;
mod ids;
mod image;
mod laws;
mod map_entry;
mod parts;
mod refusal;
mod running_sums;
mod sled;
mod sled_map;
mod unit;
mod unit_index;
mod unit_reader;

pub use extract::{SledMap, write_extract};
pub use fault::{ImageFault, Which};
pub use image::{Image, read_image};
pub use laws::{one_reading, one_unit_list, one_verdict, some_verdict};
pub use sled::{Sled, SledKind};
pub use unit::{Unit, What};
