//! Flame graphs: the stacks of a trace as a picture.
//!
//! `flame` prints the picture. `walk` goes through the rows once and keeps the frames that are open;
//! `open_frames` opens them. `sums` has the totals, `scale` places, `line` the line of a frame, and
//! `names` its name, whose `characters` may have several bytes. `laws` says what is true of every picture.
#![tactic(auto)]

mod characters;
mod flame;
mod frame;
mod laws;
mod line;
mod names;
mod open_frames;
mod scale;
mod sums;
mod walk;

pub use flame::{FlameGraph, write_flame_graph};
pub use frame::Calls;
pub use laws::{
    a_frame_begins_after_the_rows_before_it, a_frame_weighs_the_sum_that_is_shown,
    each_prefix_is_a_frame_once, frames_of_a_height_are_apart, names_are_escaped, names_are_text,
    no_frame_sticks_out, stacks_can_be_drawn, stacks_of_threads_can_be_drawn,
    the_lowest_frames_add_up,
};
