//! The script.
ghost use Rattle.std.specs.Prelude.{◌≡◌, ◌++◌, ◌∷◌, [], IfOk, OnOk};
ghost use Rattle.patch_script.specs.WrittenScripts.{script_text};
ghost use Rattle.soak_inputs.specs.Scripts.{after_change, after_script, change, script};

use crate::SOAK_FUNCTIONS;
use crate::draws::Draws;
use crate::lines::{add_bytes, add_number};
use std::alloc::Global;
use xray_io::NoMemory;

/// How many changes there are after `go`.
const CHANGES: u32 = 100;

/// How many kinds of changes there are.
const KINDS: u64 = 4;

/// The script that is drawn next.
pub(crate) fn write_script(alloc: Global, draws: &mut Draws) -> Result<Vec<u8>, NoMemory>
    ensures text { IfOk result (λ text. text.items ≡ script_text (script draws.old)) }
    ensures after { OnOk result (draws.new ≡ after_script draws.old) }
{
    let mut text = Vec::from_slice(alloc, b"patch\nset_handler\ninit\ngo\n")?;
    for _ in 0..CHANGES {
        add_change(&mut text, draws)?;
    }
    Ok(text)
}

/// Adds the line of a change.
fn add_change(text: &mut Vec<u8>, draws: &mut Draws) -> Result<(), NoMemory>
    ensures text { OnOk result (text.new.items ≡ text.old.items ++ script_text (change draws.old ∷ [])) }
    ensures after { OnOk result (draws.new ≡ after_change draws.old) }
{
    match draws.draw(KINDS) {
        0 => add_number(
            text,
            b"patch_function ",
            1 + draws.draw(SOAK_FUNCTIONS),
            b"\n",
        ),
        1 => add_number(
            text,
            b"unpatch_function ",
            1 + draws.draw(SOAK_FUNCTIONS),
            b"\n",
        ),
        2 => add_bytes(text, b"remove_handler\n"),
        _ => add_bytes(text, b"set_handler\n"),
    }
}
