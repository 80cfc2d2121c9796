//! `extract`: the text of an image's sled map.
use crate::delivery::{NoOutputs, deliver};
use crate::input::take;
use crate::inputs::ImageKind;
use crate::stop::Stop;
use crate::work::Work;
use std::alloc::Global;
use xray_image::{Image, SledMap};
use xray_io::{Desk, Sink};

/// `extract IMAGE`.
#[derive(Drop)]
pub(crate) struct Extract<'a> {
    /// The image file's name.
    pub(crate) image: &'a str,
}

impl<'a> Work<'a> for Extract<'a> {
    ghost use Rattle.std.specs.Prelude.{◌≡◌, ⊤};
    ghost use Rattle.command_words.specs.Words as words;

    type Inputs = Image;

    ghost says = { λ e. words.Extract e.image.now };

    ghost means = { λ _ image program. image ≡ program };

    ghost fits = { λ _ _. ⊤ };

    fn take<D: Desk>(&self, alloc: Global, desk: &mut D) -> Result<Image, Stop<'a>> {
        take(alloc, desk, self.image, &ImageKind)
    }

    fn finish<D: Desk, O: Sink>(
        &self,
        _alloc: Global,
        image: &Image,
        desk: &mut D,
        out: &mut O,
    ) -> Result<(), Stop<'a>> {
        deliver(desk, out, &NoOutputs, &SledMap(image), None)
    }
}
