//! Schedules, and replays: a stated order of loads and stores.
//!
//! `schedule` reads a text, whose lines `line` reads as `turns`. `start` takes all memory of a
//! replay. `replay` takes the turns: `thread` makes loads, and `patcher` micro steps. Events go to
//! the buffers of `pool`, whose queue is a `ring`. `simulate` does all of a replay in one call.
#![tactic(auto)]

mod along;
mod fault;
mod in_one;
mod laws;
mod line;
mod patcher;
mod pool;
mod refusal;
mod replay;
mod ring;
mod schedule;
mod sim_fault;
mod start;
mod thread;
mod turns;
mod written;

pub use along::{a_replay_reads_along, marks_of_a_replay_follow, no_replay_tears_a_sled};
pub use fault::ScheduleFault;
pub use in_one::simulate;
pub use laws::{
    a_replay_loses_few, buffers_change_no_replay, lost_segments_are_the_oldest, one_pooled_replay,
    one_replay, one_run, some_replay, some_run, the_first_buffers_are_taken,
};
pub use replay::SimEnd;
pub use schedule::{Schedule, read_schedule};
pub use sim_fault::SimFault;
pub use start::SimStart;
pub use turns::Turns;
pub use written::a_written_schedule_is_read;
