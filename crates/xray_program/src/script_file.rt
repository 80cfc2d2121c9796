//! A script with its text.
ghost use Rattle.std.specs.Prelude.{◌≡◌};

use patch_script::Script;
use std::marker::Model;

/// A script that was read, with its text.
#[derive(Drop)]
pub(crate) struct ScriptFile {
    pub(crate) text: Vec<u8>,
    pub(crate) script: Script,
}

impl Model for ScriptFile {
    ghost use Rattle.xray_program.specs.Inputs.{WholeScript};

    ghost Value = { WholeScript };

    ghost view = { λ f. record { text = f.text.items; plan = f.script } };
}

impl ScriptFile {
    /// The text.
    pub(crate) fn text(&self) -> &[u8]
        ensures { result.now ≡ self.now.text }
    {
        &self.text
    }

    /// What it says.
    pub(crate) fn script(&self) -> &Script
        ensures { result.now ≡ self.now.plan }
    {
        &self.script
    }
}
