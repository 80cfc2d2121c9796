//! Runs of traced threads: how each thread goes, what all of them leave, and which of their events
//! are left in buffers. The crate has no code, only definitions and laws. Code that makes a run, in
//! a stated order or on real threads, says by these definitions what the run leaves. Code that
//! writes a run's trace and audit says by them what is written.
#![tactic(auto)]

mod laws;

pub use laws::{
    a_released_thread_sees_all_earlier_stores, a_run_fits_its_buffers, a_run_leaves_few_buffers,
    a_run_without_losses_is_whole, a_script_that_records_all_leaves_one_run,
    a_script_that_sets_all_before_go_records_all, a_whole_run_executes_to_its_end,
    kept_buffers_hold_events, lost_and_left_segments_hold_all, passings_are_few, passings_fit,
    patched_sleds_name_their_trampolines, some_file_holds, some_losses_are_of_a_queue,
    stamps_change_no_run,
};
