//! A command: which inputs it takes, and what it does with them.
ghost use Rattle.std.specs.Prelude.{ℕ, List, Some, IfOk};
ghost use Rattle.command_words.specs.Words.{Command, outputs_of};
ghost use Rattle.xray_io.specs.World.{desk_view, sink_view};
ghost use Rattle.xray_program.specs.Commands.{doing_of};
ghost use Rattle.xray_program.specs.private.Stops.{answer_of, told_of};
ghost use Rattle.xray_program.specs.private.Turns.{ComesOfAll, Turns};
ghost use Rattle.xray_program.specs.private.Works.{Ends, Finishes, KeepsOthers};

use crate::stop::Stop;
use std::alloc::Global;
use xray_io::{Desk, Sink};

/// A command that waits for nobody, with the names and the options that its words say.
///
/// `take` takes its inputs, each in its turn, and does nothing else. `finish` does the work over
/// them. It asks for all the memory that it needs, and then writes the outputs and the text by
/// `deliver`.
pub(crate) trait Work<'a> {
    /// The inputs, once all of them were judged.
    type Inputs: Drop;

    /// What the words say.
    ghost says: { Self → Command };

    /// What the inputs say of the values that the names read as.
    ghost means: { (self : Self) → Self.Inputs → (doing_of (says self)).Values → Type 0 };

    /// What has to be true between the inputs.
    ghost fits: { Self → Self.Inputs → Type 0 };

    /// Takes the inputs in their order (`doing_of`). The first that fails decides.
    fn take<D: Desk>(&self, alloc: Global, desk: &mut D) -> Result<Self::Inputs, Stop<'a>>
        ensures turns { let seen = desk_view D.held D.read_faults D.write_faults in
            Turns (doing_of (says self.now)).takes (means self.now)
            (seen desk.old) (seen desk.new) (D.along desk.old desk.new) result }
        ensures fits { IfOk result (fits self.now) };

    /// Does the work over the inputs, and writes what comes of them.
    fn finish<D: Desk, O: Sink>(
        &self,
        alloc: Global,
        inputs: &Self::Inputs,
        desk: &mut D,
        out: &mut O,
    ) -> Result<(), Stop<'a>>
        requires { fits self.now inputs.now }
        ensures finishes { let seen = desk_view D.held D.read_faults D.write_faults in
            let got = sink_view O.written O.faults in
            Finishes (ComesOfAll (means self.now inputs.now) (doing_of (says self.now)).leaves)
            (seen desk.old) (seen desk.new) (got out.old) (got out.new)
            (D.along desk.old desk.new) result }
        ensures others { let seen = desk_view D.held D.read_faults D.write_faults in
            KeepsOthers (outputs_of (says self.now)) (seen desk.old) (seen desk.new) };
}

/// Does all of a command, and leaves err as it is.
pub(crate) fn perform<'a, W: Work<'a>, D: Desk, O: Sink>(
    alloc: Global,
    work: &W,
    desk: &mut D,
    out: &mut O,
) -> Result<(), Stop<'a>>
    ensures { let seen = desk_view D.held D.read_faults D.write_faults in
        let got = sink_view O.written O.faults in
        Ends (Some (W.says work.now)) (seen desk.old) (seen desk.new) (got out.old) (got out.new)
        (D.along desk.old desk.new) (answer_of result) (told_of result) }
{
    let inputs = work.take(alloc, desk)?;
    work.finish(alloc, &inputs, desk, out)
}
