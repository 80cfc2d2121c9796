//! The inputs of `check`, once all of them were judged.

use crate::file_bytes::FileBytes;
use crate::stated_audit::StatedAudit;
use patch_script::Script;
use xray_image::Image;

/// The inputs of `check`.
#[derive(Drop)]
pub(crate) struct CheckInputs {
    /// The image.
    pub(crate) image: Image,
    /// What the audit states.
    pub(crate) audit: StatedAudit,
    /// The script of the patcher, for this image and the audit's number of threads.
    pub(crate) script: Script,
    /// The bytes of the trace.
    pub(crate) trace: FileBytes,
}
