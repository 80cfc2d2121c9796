//! The top call: all that the program does, from the words of its command line to what it writes.
//!
//! The words are read first, together with the wall time (`command_words`). A command is one module
//! (`sim`, `plain`, `extract`, `asm`, `account`, `calls`, `stack`, `convert`, `dump`, `check`, `soak`,
//! `import`, `load_order` of `order`, `map_program` of `map`), which implements `Work`, or starts
//! threads (`run`, `profile`).
//! It takes its inputs in their order (`doing_of`, `input`). Each is read, measured and judged before
//! the next is opened, so the first that fails decides. Then it does its work, and writes its outputs
//! and its text (`delivery`). What is written of traced threads is in `traced`.
//! The inputs of `soak` are `drawn`, and its text is a `summary`. Last, if something stopped the
//! call, a line on err says what (`stop`).
//!
//! What a command takes and leaves is a case of `doing_of` in `specs/Commands.antt`, and `Comes` of
//! `specs/Doings.antt` is what it means. The contract of the call is one record: `Answered` of
//! `specs/Answers.antt`, over what was said, the world before the call and the world after it. Another
//! command is another case of `doing_of`. The record doesn't change. `StartsLate` of
//! `specs/Started.antt` says when threads are started.
#![tactic(auto)]

mod account;
mod account_options;
mod asm;
mod call;
mod calls;
mod calls_options;
mod check;
mod check_inputs;
mod convert;
mod delivery;
mod drawn;
mod dump;
mod extract;
mod file_bytes;
mod import;
mod input;
mod inputs;
mod laws;
mod load_order;
mod log;
mod map_program;
mod names;
mod order_inputs;
mod plain;
mod profile;
mod readable_file;
mod report_inputs;
mod run;
mod run_inputs;
mod script_file;
mod script_inputs;
mod setups;
mod sim;
mod sim_inputs;
mod soak;
mod stack;
mod stated_audit;
mod stop;
mod stream;
mod summary;
mod trace_feed;
mod traced;
mod work;

pub use call::{may_wait, out_of_memory, xray, xray_still, xray_through};
pub use drawn::soak_inputs;
pub use laws::{
    a_lawful_run_has_small_numbers, a_profile_prints_the_stacks_of_a_run,
    a_run_is_imported_as_itself, a_run_is_replayed, a_script_that_records_all_leaves_one_outcome,
    accepted_inputs_mean_done, accepted_orders_are_written, inputs_follow_the_rows, one_meaning,
    only_profiles_mean_7, pictures_add_up, refusal_is_the_only_meaning, reports_take_a_run,
    some_meaning, stamps_and_buffers_change_no_text, what_is_done_is_traced,
    what_is_left_is_accepted, what_is_ordered_is_replayed,
};
