//! The inputs of a command that runs threads beside a script.
ghost use Rattle.std.specs.Prelude.{IfOk};
ghost use Rattle.command_words.specs.Ranges.{IsThreadCount};
ghost use Rattle.xray_io.specs.World.{desk_view};
ghost use Rattle.xray_program.specs.Commands.{takes_script};
ghost use Rattle.xray_program.specs.private.{RunInputs.{AreValues, IsReadFor}, Turns.{Turns}};

use crate::input::take;
use crate::inputs::{ImageKind, ScriptKind};
use crate::run_inputs::RunInputs;
use crate::stop::Stop;
use std::alloc::Global;
use xray_io::Desk;

/// Takes the image, and then the script for it and for this many threads. The first that fails
/// decides.
pub(crate) fn take_script<'a, D: Desk>(
    alloc: Global,
    desk: &mut D,
    image: &'a str,
    script: &'a str,
    threads: u32,
) -> Result<RunInputs, Stop<'a>>
    requires few { IsThreadCount threads }
    ensures turns { let seen = desk_view D.held D.read_faults D.write_faults in
        Turns (takes_script image.now script.now threads) AreValues
        (seen desk.old) (seen desk.new) (D.along desk.old desk.new) result }
    ensures fits { IfOk result (IsReadFor threads) }
{
    let program = take(alloc, desk, image, &ImageKind)?;
    let kind = ScriptKind {
        image: &program,
        threads,
    };
    let plan = take(alloc, desk, script, &kind)?;
    Ok(RunInputs {
        image: program,
        script: plan,
    })
}
