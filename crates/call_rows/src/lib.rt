//! The calls of a trace, one by one: a row for each, in the order in which they end.
#![tactic(auto)]

mod filter;
mod fold;
mod frames;
mod kept;
mod laws;
mod line;
mod order;
mod printing;
mod row;
mod text;

pub use filter::CallFilter;
pub use fold::CallFold;
pub use kept::{KeptCalls, calls_in_order};
pub use laws::{
    an_account_sums_the_calls_of_each_function, each_parent_encloses_its_call,
    rows_stand_in_the_order_of_ends,
};
pub use order::{CallOrder, order_calls};
pub use printing::{CallsFault, add_calls, write_calls};
pub use row::{CallKey, CallRow};
pub use text::CallsText;
