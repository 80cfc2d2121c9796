//! The calls that a trace's events make: which are open, and which entry each exit belongs to.
//!
//! The stacks of a trace, too. `calls` takes the events of a thread, and keeps its open calls
//! (`open_calls`, `counts`). For stacks, `fold` takes blocks and events one by one, and
//! `thread_stack` adds each pair to the `tally` of its path. `path_sums` has the paths as a tree
//! (`node`, `links`). `rows` makes the rows, and `stack_text` prints them. `stacks_of` folds a whole trace.
#![tactic(auto)]

mod call;
mod calls;
mod counts;
mod fold;
mod laws;
mod links;
mod matching;
mod node;
mod open_calls;
mod path_order;
mod path_sums;
mod refusal;
mod rows;
mod stack_row;
mod stack_text;
mod stacks_of;
mod tally;
mod thread_stack;
mod totals;

pub use call::{Call, Pair};
pub use calls::ThreadCalls;
pub use fold::{MOST_OPEN, StackFold};
pub use laws::{
    a_path_weighs_its_sum_and_what_is_in_no_sum, a_path_whose_calls_are_all_timed_weighs_its_sum,
    a_thread_goes_on, a_thread_makes_its_own_pairs, an_exit_ends_an_open_call,
    each_exit_ends_one_call, each_pair_is_a_whole_call, pairs_nest_or_are_apart,
    stacks_are_of_threads,
};
pub use matching::{pairs, thread_events};
pub use path_sums::PathSums;
pub use rows::rows_of;
pub use stack_row::{StackFault, StackRow};
pub use stack_text::{StackForm, StackText, write_stack};
pub use stacks_of::stacks;
pub use tally::Tally;
