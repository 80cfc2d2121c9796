//! The inputs of `sim`, once all of them were judged.

use patch_script::Script;
use step_sim::Schedule;
use xray_image::Image;

/// The inputs of `sim`.
#[derive(Drop)]
pub(crate) struct SimInputs {
    /// The image.
    pub(crate) image: Image,
    /// The script of the patcher, for this image and a number of threads.
    pub(crate) script: Script,
    /// The turns of the threads and the patcher.
    pub(crate) schedule: Schedule,
}
