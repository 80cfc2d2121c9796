//! `asm`: an assembler text as an image file.
use crate::delivery::{Output, deliver};
use crate::file_bytes::FileBytes;
use crate::input::take;
use crate::inputs::TextKind;
use crate::stop::Stop;
use crate::work::Work;
use std::alloc::Global;
use xray_io::{Desk, Piece, Sink};

/// `asm TEXT IMAGE`.
#[derive(Drop)]
pub(crate) struct Asm<'a> {
    /// The assembler text's name.
    pub(crate) text: &'a str,
    /// The name of the image file, which is the output.
    pub(crate) image: &'a str,
    /// The least number of instruction lines with which a function gets sleds.
    pub(crate) threshold: u32,
    /// Whether the addresses of the sled map are relative.
    pub(crate) relative: bool,
}

impl<'a> Work<'a> for Asm<'a> {
    ghost use Rattle.std.specs.Prelude.{◌≡◌, ⊤};
    ghost use Rattle.command_words.specs.Words as words;

    type Inputs = FileBytes;

    ghost says = { λ a. words.Asm a.text.now a.image.now a.threshold a.relative };

    ghost means = { λ _ made file. made ≡ file };

    ghost fits = { λ _ _. ⊤ };

    fn take<D: Desk>(&self, alloc: Global, desk: &mut D) -> Result<FileBytes, Stop<'a>> {
        let kind = TextKind {
            threshold: self.threshold,
            relative: self.relative,
        };
        take(alloc, desk, self.text, &kind)
    }

    fn finish<D: Desk, O: Sink>(
        &self,
        _alloc: Global,
        file: &FileBytes,
        desk: &mut D,
        out: &mut O,
    ) -> Result<(), Stop<'a>> {
        let text = Piece::Bytes(&file.bytes);
        let output = Output {
            name: self.image,
            text: &text,
        };
        deliver(desk, out, &output, &Piece::Bytes(b""), None)
    }
}
