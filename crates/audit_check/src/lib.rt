//! A judge of finished runs. `read_audit` reads the audit of a run, and `check_audit` says whether the
//! audit and a trace are those of some lawful run of an image beside a script.
//!
//! `row` takes the parts of a row of an audit, `setup` and `thread_rows` read the rows, and `reading` all
//! of them. `turns` has the places at which a word changes, `switches` those of a whole script, and
//! `follower` judges marks by them, with the searches of `searches`. `blocks` compares a trace, segment by
//! segment. `judging` takes each thread through its plain run and puts the rows of the verdict together.
//! `placing` takes them through it to place their loads, which `stop` keeps.
#![tactic(auto)]

mod audit;
mod blocks;
mod fault;
mod follower;
mod judging;
mod laws;
mod placing;
mod reading;
mod row;
mod searches;
mod setup;
mod stop;
mod switches;
mod thread_rows;
mod turns;
mod verdict;

pub use audit::{Audit, AuditEntry};
pub use fault::AuditFault;
pub use judging::check_audit;
pub use laws::{a_lawful_run_is_accepted, one_reading, one_verdict, some_reading, some_verdict};
pub use placing::{PlaceFault, place_loads};
pub use reading::read_audit;
pub use stop::{Stop, add_stop};
pub use verdict::Verdict;
