//! What is done in one thread.

use crate::worker::{Turn, Worker};
use crossbeam_utils::Backoff;
use fdr_record::Recorder;
use std::sync::Wait;
use xray_io::Gate;

/// Something that one thread does to its end.
pub(crate) trait Work {
    /// It may be done.
    ghost ready: { Self → Type 0 };

    /// It was done.
    ghost worked: { Self → Self → Type 0 };

    /// Does it. May wait for other threads.
    fn work<T: Wait, G: Gate>(&mut self, rt: &T, gate: &G)
        requires { ready self.old }
        ensures { worked self.old self.new };
}

impl<R: Recorder> Work for Worker<'_, '_, R> {
    ghost use Rattle.thread_run.specs.Workers.{HasRunOut, IsGoing};

    ghost ready = { IsGoing R.stands };

    ghost worked = { HasRunOut R.stands R.follows };

    /// Runs the worker to its end. As long as its release word holds it, yields and runs it again.
    fn work<T: Wait, G: Gate>(&mut self, rt: &T, gate: &G) {
        let backoff = Backoff::new();
        'turns: for _ in rt.forever() {
            match self.run(gate) {
                Turn::Done => return,
                Turn::Held => backoff.snooze(),
            }
        }
        unreachable!()
    }
}
