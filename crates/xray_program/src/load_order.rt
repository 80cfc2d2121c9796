//! `order`: the order of a finished run's loads and stores, as a schedule that replays it.
ghost use Rattle.std.specs.Prelude.{◌≢◌};

use crate::delivery::{Output, TwoOutputs, deliver};
use crate::input::{fault_stop, take};
use crate::inputs::{AUDIT, AuditKind, ImageKind, ScriptFileKind, ScriptKind};
use crate::order_inputs::OrderInputs;
use crate::stop::Stop;
use crate::work::Work;
use run_order::{FreeText, order_run};
use std::alloc::Global;
use xray_io::{Desk, Piece, Sink};

/// `order IMAGE SCRIPT AUDIT FREE SCHEDULE`.
#[derive(Drop)]
pub(crate) struct LoadOrder<'a> {
    /// The image file's name.
    pub(crate) image: &'a str,
    /// The name of the patcher's script.
    pub(crate) script: &'a str,
    /// The audit's name.
    pub(crate) audit: &'a str,
    /// The name of the script without its waits, which is an output.
    pub(crate) free: &'a str,
    /// The name of the schedule, which is an output.
    pub(crate) schedule: &'a str,
    ghost apart: { free.now ≢ schedule.now },
}

impl<'a> Work<'a> for LoadOrder<'a> {
    ghost use Rattle.xray_program.specs.private.OrderInputs.{AreReadFor, AreValues};
    ghost use Rattle.command_words.specs.Words as words;

    type Inputs = OrderInputs;

    ghost says = { λ o. words.Order o.image.now o.script.now o.audit.now o.free.now o.schedule.now };

    ghost means = { λ _. AreValues };

    ghost fits = { λ _. AreReadFor };

    fn take<D: Desk>(&self, alloc: Global, desk: &mut D) -> Result<OrderInputs, Stop<'a>> {
        let image = take(alloc, desk, self.image, &ImageKind)?;
        let audit = take(alloc, desk, self.audit, &AuditKind)?;
        let threads = audit.threads();
        let kind = ScriptFileKind {
            script: ScriptKind {
                image: &image,
                threads,
            },
        };
        let script = take(alloc, desk, self.script, &kind)?;
        Ok(OrderInputs {
            image,
            audit,
            script,
        })
    }

    fn finish<D: Desk, O: Sink>(
        &self,
        alloc: Global,
        inputs: &OrderInputs,
        desk: &mut D,
        out: &mut O,
    ) -> Result<(), Stop<'a>> {
        let audit = inputs.audit.audit();
        match order_run(alloc, &inputs.image, inputs.script.script(), audit) {
            Ok(order) => {
                let free = FreeText(inputs.script.text());
                let outputs = TwoOutputs {
                    first: Output {
                        name: self.free,
                        text: &free,
                    },
                    second: Output {
                        name: self.schedule,
                        text: &order,
                    },
                };
                deliver(desk, out, &outputs, &Piece::Bytes(b""), None)
            }
            Err(fault) => Err(fault_stop(self.audit, AUDIT, &fault)),
        }
    }
}
