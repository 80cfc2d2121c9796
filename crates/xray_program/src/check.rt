//! `check`: whether an audit and a trace are those of a lawful run of an image beside a script.

use crate::check_inputs::CheckInputs;
use crate::delivery::{NoOutputs, deliver};
use crate::input::{take, take_bytes};
use crate::inputs::{AuditKind, ImageKind, ScriptKind};
use crate::stop::Stop;
use crate::work::Work;
use audit_check::check_audit;
use command_words::TRACE_LIMIT;
use std::alloc::Global;
use xray_io::{Desk, Sink};

/// `check IMAGE SCRIPT TRACE AUDIT`.
#[derive(Drop)]
pub(crate) struct Check<'a> {
    /// The image file's name.
    pub(crate) image: &'a str,
    /// The name of the patcher's script.
    pub(crate) script: &'a str,
    /// The trace's name.
    pub(crate) trace: &'a str,
    /// The audit's name.
    pub(crate) audit: &'a str,
}

impl<'a> Work<'a> for Check<'a> {
    ghost use Rattle.xray_program.specs.private.CheckInputs.{AreReadFor, AreValues};
    ghost use Rattle.command_words.specs.Words as words;

    type Inputs = CheckInputs;

    ghost says = { λ c. words.Check c.image.now c.script.now c.trace.now c.audit.now };

    ghost means = { λ _. AreValues };

    ghost fits = { λ _. AreReadFor };

    fn take<D: Desk>(&self, alloc: Global, desk: &mut D) -> Result<CheckInputs, Stop<'a>> {
        let image = take(alloc, desk, self.image, &ImageKind)?;
        let audit = take(alloc, desk, self.audit, &AuditKind)?;
        let threads = audit.threads();
        let kind = ScriptKind {
            image: &image,
            threads,
        };
        let script = take(alloc, desk, self.script, &kind)?;
        let trace = take_bytes(alloc, desk, self.trace, TRACE_LIMIT)?;
        Ok(CheckInputs {
            image,
            audit,
            script,
            trace,
        })
    }

    fn finish<D: Desk, O: Sink>(
        &self,
        alloc: Global,
        inputs: &CheckInputs,
        desk: &mut D,
        out: &mut O,
    ) -> Result<(), Stop<'a>> {
        let audit = inputs.audit.audit();
        let trace = inputs.trace.bytes();
        let verdict = check_audit(alloc, &inputs.image, &inputs.script, audit, trace)?;
        deliver(desk, out, &NoOutputs, &verdict, None)
    }
}
