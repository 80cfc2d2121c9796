//! The inputs of `order`, once all of them were judged.

use crate::script_file::ScriptFile;
use crate::stated_audit::StatedAudit;
use xray_image::Image;

/// The inputs of `order`.
#[derive(Drop)]
pub(crate) struct OrderInputs {
    /// The image.
    pub(crate) image: Image,
    /// What the audit states.
    pub(crate) audit: StatedAudit,
    /// The script of the patcher, for this image and the audit's number of threads, with its text.
    pub(crate) script: ScriptFile,
}
