//! The account of a trace: how often each function was called, and how long its calls took.
#![tactic(auto)]

mod fold;
mod laws;
mod order;
mod ranks;
mod report;
mod row;
mod tallies;
mod tally;
mod text;

pub use fold::AccountFold;
pub use laws::{a_row_sums_the_stacks_of_its_function, each_entry_and_exit_is_counted};
pub use order::order_rows;
pub use report::{account, latencies};
pub use row::{AccountRow, SortKey};
pub use text::{AccountLayout, AccountText, write_account};
