//! `plain`: the plain runs of an image's threads.
ghost use Rattle.std.specs.Prelude.{◌≡◌, IfOk};
ghost use Rattle.xray_program.specs.private.Ends.{AreEnds};

use crate::delivery::{NoOutputs, deliver};
use crate::input::take;
use crate::inputs::ImageKind;
use crate::setups::plain_limits;
use crate::stop::Stop;
use crate::work::Work;
use command_words::Bounds;
use machine_step::{PlainEnd, Steps, plain_run};
use std::alloc::Global;
use xray_image::Image;
use xray_io::{Desk, Each, NoMemory, Sink};

/// `plain IMAGE`.
#[derive(Drop)]
pub(crate) struct Plain<'a> {
    /// The image file's name.
    pub(crate) image: &'a str,
    /// The limits of the threads.
    pub(crate) bounds: Bounds,
}

impl<'a> Work<'a> for Plain<'a> {
    ghost use Rattle.std.specs.Prelude.{◌≡◌, ⊤};
    ghost use Rattle.command_words.specs.Words as words;

    type Inputs = Image;

    ghost says = { λ p. words.Plain p.image.now p.bounds };

    ghost means = { λ _ image program. image ≡ program };

    ghost fits = { λ _ _. ⊤ };

    fn take<D: Desk>(&self, alloc: Global, desk: &mut D) -> Result<Image, Stop<'a>> {
        take(alloc, desk, self.image, &ImageKind)
    }

    fn finish<D: Desk, O: Sink>(
        &self,
        alloc: Global,
        image: &Image,
        desk: &mut D,
        out: &mut O,
    ) -> Result<(), Stop<'a>> {
        let ends = run_threads(alloc, image, self.bounds)?;
        deliver(desk, out, &NoOutputs, &Each(&ends), None)
    }
}

/// Runs the threads, each to its end.
fn run_threads(alloc: Global, image: &Image, bounds: Bounds) -> Result<Vec<PlainEnd>, NoMemory>
    ensures { IfOk result (λ ends. AreEnds image.now bounds bounds.threads ends.items) }
{
    let steps = Steps::new(alloc, image)?;
    let mut ends = Vec::new(alloc);
    for thread in 0..bounds.threads {
        ends.push(plain_run(alloc, &steps, thread + 1, plain_limits(bounds))?)?;
    }
    Ok(ends)
}
