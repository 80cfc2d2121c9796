//! A text whose lines have their places.

ghost use Rattle.std.specs.Prelude.{◌≡◌, ◌≤◌, unwrap_or, IfOk};
ghost use Rattle.asm_text.specs.Layout.{place_of, by_threshold, lines_placed};

use crate::first_pass::FirstPass;
use crate::layout::{Laid, lay_out};
use crate::name_table::NameTable;
use crate::targets::{place_of, targets};
use std::alloc::{AllocError, Global};
use xray_image::format::CODE_LIMIT;

/// The lines of a text at their places, and where their names lead.
#[derive(Drop)]
pub(crate) struct LaidText<'a> {
    pub(crate) lines: Vec<Laid<'a>>,
    pub(crate) names: NameTable<'a>,
    /// For each line, the place of the next instruction line or function.
    pub(crate) targets: Vec<Option<u32>>,
}

impl LaidText<'_> {
    ghost use Rattle.asm_text.specs.private.LaidTexts.{all_in, IsLaidText};

    /// The place that a name stands for, or 0 if it stands for none.
    pub(crate) fn target_of(&self, name: &[u8]) -> u32
        requires { IsLaidText self.now }
        ensures value { result ≡ unwrap_or (place_of name.now (all_in self.now)) 0 }
        ensures within { result ≤ CODE_LIMIT }
    {
        place_of(&self.names, &self.targets, name).unwrap_or(0)
    }
}

impl<'a> LaidText<'a> {
    ghost use Rattle.asm_text.specs.private.{Fits.{AllFit}, FirstPass.{lines_in, IsFirstPass}};
    ghost use Rattle.asm_text.specs.private.{LaidTexts.{all_in}, Files.{IsWritable}};

    /// Lays out the lines that were read.
    pub(crate) fn new(
        alloc: Global,
        threshold: u32,
        pass: FirstPass<'a>,
    ) -> Result<LaidText<'a>, AllocError>
        requires pass { IsFirstPass pass }
        requires fit { AllFit (lines_in pass.entries.items) }
        ensures lines { IfOk result (λ text. all_in text
            ≡ lines_placed (by_threshold threshold) (lines_in pass.entry.entries.items)) }
        ensures writable { IfOk result IsWritable }
    {
        let FirstPass { entries, names, .. } = pass;
        let lines = lay_out(alloc, threshold, &entries)?;
        let targets = targets(alloc, &lines)?;
        Ok(LaidText {
            lines,
            names,
            targets,
        })
    }
}
