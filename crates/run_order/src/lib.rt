//! The order of a finished run: a script that doesn't wait, and a schedule whose replay has the marks of
//! the run.
#![tactic(auto)]

mod fault;
mod free;
mod laws;
mod lines;
mod merging;
mod order;
mod ordering;
mod waits;

pub use fault::OrderFault;
pub use free::FreeText;
pub use laws::{
    a_lawful_run_is_ordered, a_script_reads_without_its_waits, an_order_is_a_merge,
    an_order_is_a_schedule, an_order_keeps_the_waits, an_order_leaves_its_run,
    each_lawful_run_has_one_order, one_order_of_an_audit,
};
pub use order::Order;
pub use ordering::order_run;
