//! The options of a profile.
ghost use Rattle.std.specs.Prelude.{◌≡◌, IfSome};
ghost use Rattle.command_words.specs.Ranges.{AreProfileOptions};
ghost use Rattle.command_words.specs.Words.{profile_options_in};
ghost use Rattle.command_words.specs.private.CodeViews.{line_view};

use crate::line::Line;
use crate::report_options::{StackFormat, stack_format_in};
use crate::run_options::{Bounds, Stamps, bounds_in, stamps_in};
use crate::tables::NODES;

/// All options of a profile.
#[derive(Clone, Copy)]
pub struct ProfileOptions {
    /// The limits of its threads.
    pub bounds: Bounds,
    /// How passings are stamped.
    pub stamps: Stamps,
    /// The most nodes of a thread's call trie, from 1 to 262,144.
    pub nodes: u32,
    /// The form in which the stacks are printed.
    pub format: StackFormat,
}

/// All options of a profile. `None` if a value isn't allowed.
#[tactic(auto, unfolding(crate::specs::Words::profile_options_in))]
pub(crate) fn profile_options_in(line: &Line<'_>) -> Option<ProfileOptions>
    ensures reads { result ≡ profile_options_in (line_view line.now) }
    ensures ranges { IfSome result AreProfileOptions }
{
    let bounds = bounds_in(line)?;
    let stamps = stamps_in(line)?;
    let nodes = NODES.number_given(line)?;
    let format = stack_format_in(line)?;
    Some(ProfileOptions {
        bounds,
        stamps,
        nodes: nodes as u32,
        format,
    })
}
