//! `sim`: the replay of a schedule over an image and a script.
ghost use Rattle.command_words.specs.Ranges.{AreRunOptions};

use crate::input::{fault_stop, take};
use crate::inputs::{ImageKind, SCRIPT, ScheduleKind, ScriptKind};
use crate::laws::what_runs_leave;
use crate::setups::setup_of;
use crate::sim_inputs::SimInputs;
use crate::stop::Stop;
use crate::traced::{RunLeft, TraceFiles, deliver_run, room_for};
use crate::work::Work;
use command_words::RunOptions;
use machine_step::Steps;
use std::alloc::Global;
use step_sim::SimStart;
use traced_run::kept_buffers_hold_events;
use xray_io::{Desk, Sink};

/// `sim IMAGE SCRIPT SCHEDULE TRACE AUDIT`.
#[derive(Drop)]
pub(crate) struct Sim<'a> {
    /// The image file's name.
    pub(crate) image: &'a str,
    /// The name of the patcher's script.
    pub(crate) script: &'a str,
    /// The name of the schedule.
    pub(crate) schedule: &'a str,
    /// The names of the trace and the audit, which are the outputs.
    pub(crate) files: TraceFiles<'a>,
    /// What the replay is made with.
    pub(crate) options: RunOptions,
    ghost ranges: { AreRunOptions options },
}

impl<'a> Work<'a> for Sim<'a> {
    ghost use Rattle.xray_program.specs.private.SimInputs.{AreReadFor, AreValues};
    ghost use Rattle.command_words.specs.Words as words;

    type Inputs = SimInputs;

    ghost says = { λ s. words.Sim s.image.now s.script.now s.schedule.now
        s.files.trace.now s.files.audit.now s.options };

    ghost means = { λ _. AreValues };

    ghost fits = { λ s inputs. AreReadFor s.options.bounds.threads inputs };

    fn take<D: Desk>(&self, alloc: Global, desk: &mut D) -> Result<SimInputs, Stop<'a>> {
        let threads = self.options.bounds.threads;
        let image = take(alloc, desk, self.image, &ImageKind)?;
        let kind = ScriptKind {
            image: &image,
            threads,
        };
        let script = take(alloc, desk, self.script, &kind)?;
        let schedule = take(alloc, desk, self.schedule, &ScheduleKind { threads })?;
        Ok(SimInputs {
            image,
            script,
            schedule,
        })
    }

    fn finish<D: Desk, O: Sink>(
        &self,
        alloc: Global,
        inputs: &SimInputs,
        desk: &mut D,
        out: &mut O,
    ) -> Result<(), Stop<'a>> {
        let setup = setup_of(self.options);
        let lines = room_for(alloc, setup.threads)?;
        let steps = Steps::new(alloc, &inputs.image)?;
        match SimStart::new(alloc, &steps, &inputs.script, &setup) {
            Ok(start) => {
                // Called for their contracts: buffers in order are also in any order, the image was
                // accepted, and threads of a replay over it run lawfully.
                kept_buffers_hold_events();
                inputs.image.each_was_accepted();
                what_runs_leave();
                let left = RunLeft::from(start.play(&inputs.schedule));
                deliver_run(desk, out, &self.files, &setup, left, lines)
            }
            Err(fault) => Err(fault_stop(self.script, SCRIPT, &fault)),
        }
    }
}
