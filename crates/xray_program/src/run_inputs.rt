//! The words of commands that run threads beside a script, and their inputs, once both of them were
//! judged.
ghost use Rattle.command_words.specs.Ranges.{AreProfileOptions, AreRunOptions};

use crate::traced::TraceFiles;
use command_words::{ProfileOptions, RunOptions};
use patch_script::Script;
use xray_image::Image;

/// `run IMAGE SCRIPT TRACE AUDIT`.
#[derive(Drop)]
pub(crate) struct Run<'a> {
    /// The image file's name.
    pub(crate) image: &'a str,
    /// The name of the patcher's script.
    pub(crate) script: &'a str,
    /// The names of the trace and the audit, which are the outputs.
    pub(crate) files: TraceFiles<'a>,
    /// What the threads are run with.
    pub(crate) options: RunOptions,
    ghost ranges: { AreRunOptions options },
}

/// `profile IMAGE SCRIPT`.
#[derive(Drop)]
pub(crate) struct Profile<'a> {
    /// The image file's name.
    pub(crate) image: &'a str,
    /// The name of the patcher's script.
    pub(crate) script: &'a str,
    /// What the threads are run with, and how their stacks are printed.
    pub(crate) options: ProfileOptions,
    ghost ranges: { AreProfileOptions options },
}

/// An image, and a script for it.
#[derive(Drop)]
pub(crate) struct RunInputs {
    /// The image.
    pub(crate) image: Image,
    /// The script of the patcher, for this image and a number of threads.
    pub(crate) script: Script,
}
