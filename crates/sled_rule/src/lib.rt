//! Code words that threads load while one patcher stores them, under a rule.
//!
//! A `CodeTable` has the words and the script. Calls go by seats: the patcher has one, and so has
//! each thread. By notes and tallies one of them learns what another knows. `views` has what a seat
//! knows. `law` has the rule that all of it keeps between any two steps. `slots` says where words are
//! kept.
#![tactic(auto)]

mod closing;
mod law;
mod opening;
mod patcher;
mod plays;
mod seats;
mod slots;
mod table;
mod views;
mod worker;

pub use law::CodeRule;
pub use seats::{Note, PatchSeat, Tally, WorkSeat};
pub use table::CodeTable;
pub use views::{Load, Met, NoteView, PatchView, TallyView, View, WorkView};
