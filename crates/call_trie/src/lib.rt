//! A live call trie: a recorder that keeps sums, and no events.
//!
//! `TrieRecorder` takes the events of one thread (`Recorder` of `fdr_record`). It has a node for each
//! distinct path on which a function was called, and a frame for each open call (`frames`). `nodes`
//! has the paths and what is counted of each; `table` finds the node of a path with one more function
//! in one step on average. `merged` makes the rows of a stack report of the recorders of all threads.
#![tactic(auto)]

mod frames;
mod laws;
mod merging;
mod nodes;
mod recorder;
mod state;
mod table;

pub use laws::the_first_excess_decides_the_state;
pub use merging::merged;
pub use recorder::{MOST_NODES, TrieRecorder};
pub use state::TrieState;
