//! The machine: what a thread does, step by step.
//!
//! `steps` turns the units of an image into steps (`step`). `machine` makes one step of a thread,
//! over its `registers`, `stack` and `output`. `running` makes a plain run, which ends with a
//! `PlainEnd`. `cpu` is a traced thread: `stand` says where it is and runs it from one sled to the
//! next, `stage` says what it loads in a passing, `allowed` which values it may find, and `stamp`
//! which event comes of it. `plain_text` and `state_text` print threads that have ended.
#![tactic(auto)]

mod allowed;
mod cpu;
mod end;
mod laws;
mod limits;
mod machine;
mod output;
mod plain_end;
mod plain_text;
mod registers;
mod running;
mod setup;
mod stack;
mod stage;
mod stamp;
mod stand;
mod state_text;
mod step;
mod steps;
mod underway;
mod want;

pub use cpu::Cpu;
pub use end::End;
pub use laws::{
    a_traced_thread_ends_as_its_plain_run, allowed_loads_are_whole, one_end,
    one_state_before_a_passing, passings_are_limited, some_end, some_marks_follow,
    wanted_loads_have_one_value, what_follows_is_allowed,
};
pub use limits::Limits;
pub use plain_end::PlainEnd;
pub use plain_text::{end_name, write_plain};
pub use running::plain_run;
pub use setup::Setup;
pub use state_text::{add_marks, write_state};
pub use steps::Steps;
pub use subset_decode::REGISTERS;
pub use underway::Underway;
pub use want::Want;
