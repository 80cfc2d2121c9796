//! The end of a command's work: its outputs are written, and then its text.
ghost use Rattle.std.specs.Prelude.{◌≡◌, ℕ, List, [], ◌∷◌, Contains, Option, option_map, IfErr, OnOk};
ghost use Rattle.fault_words.specs.Words.{words_text};
ghost use Rattle.xray_io.specs.Calls.{Went};
ghost use Rattle.xray_io.specs.World.{desk_view, sink_view};
ghost use Rattle.xray_program.specs.Outputs.{NoFault, OutputsAreWhole};
ghost use Rattle.xray_program.specs.private.Works.{AreMakings, Delivers, KeepsOthers, StopsOutputs, names_of};

use crate::stop::Stop;
use fault_words::Words;
use xray_io::{Desk, Printed, Sink, Text, WriteFault, write_output, write_text};

/// The name of the standard output in a line on err.
const OUT: &str = "output";

/// The outputs of a command.
pub(crate) trait Outputs<'a> {
    /// The name and the bytes of each output, in the order in which they are written.
    ghost all: { Self → List (List ℕ × List ℕ) };

    /// They can be written, and no two have the same name.
    ghost ready: { Self → Type 0 };

    /// Creates and writes each output in its turn. After one that failed, nothing more is done.
    fn write<D: Desk>(&self, desk: &mut D) -> Result<(), Stop<'a>>
        requires { ready self.now }
        ensures whole { OnOk result (OutputsAreWhole (all self.now) (D.held desk.old) (D.held desk.new)) }
        ensures stops { let seen = desk_view D.held D.read_faults D.write_faults in
            IfErr result (StopsOutputs (all self.now) (seen desk.old) (seen desk.new)) }
        ensures calm { let seen = desk_view D.held D.read_faults D.write_faults in
            OnOk result (NoFault (seen desk.old) (seen desk.new)) }
        ensures made { let seen = desk_view D.held D.read_faults D.write_faults in
            Went (D.along desk.old desk.new) (AreMakings (all self.now) (seen desk.old) (seen desk.new) result) }
        ensures others { let seen = desk_view D.held D.read_faults D.write_faults in
            KeepsOthers (names_of (all self.now)) (seen desk.old) (seen desk.new) };
}

/// A command without outputs.
#[derive(Drop)]
pub(crate) struct NoOutputs;

impl<'a> Outputs<'a> for NoOutputs {
    ghost use Rattle.std.specs.Prelude.{[], ⊤};

    ghost all = { λ _. [] };

    ghost ready = { λ _. ⊤ };

    #[tactic(auto, using(crate::proofs::MadeOutputs::none_whole))]
    fn write<D: Desk>(&self, _desk: &mut D) -> Result<(), Stop<'a>> {
        Ok(())
    }
}

/// An output of a command: its name, and what is written to it, part by part.
#[derive(Drop)]
pub(crate) struct Output<'a, 't, P> {
    /// Its name.
    pub(crate) name: &'a str,
    /// What is written to it.
    pub(crate) text: &'t P,
}

impl<'a, P: Printed> Outputs<'a> for Output<'a, '_, P> {
    ghost use Rattle.std.specs.Prelude.{[], ◌∷◌};

    ghost all = { λ o. (o.name.now, P.text o.text.now) ∷ [] };

    ghost ready = { λ o. P.ready o.text.now };

    fn write<D: Desk>(&self, desk: &mut D) -> Result<(), Stop<'a>> {
        match write_output(desk, self.name, self.text) {
            Ok(()) => Ok(()),
            Err(WriteFault) => Err(Stop::Unwritten(self.name)),
        }
    }
}

/// Two outputs of a command, of different names.
#[derive(Drop)]
pub(crate) struct TwoOutputs<'a, 't, P, Q> {
    /// The one that is written first.
    pub(crate) first: Output<'a, 't, P>,
    /// The one that is written once the first is whole.
    pub(crate) second: Output<'a, 't, Q>,
}

impl<'a, P: Printed, Q: Printed> Outputs<'a> for TwoOutputs<'a, '_, P, Q> {
    ghost use Rattle.std.specs.Prelude.{◌≢◌, [], ◌∷◌};

    ghost all = { λ o. (o.first.name.now, P.text o.first.text.now)
        ∷ (o.second.name.now, Q.text o.second.text.now) ∷ [] };

    ghost ready = { λ o. (o.first.name.now ≢ o.second.name.now)
        × P.ready o.first.text.now × Q.ready o.second.text.now };

    fn write<D: Desk>(&self, desk: &mut D) -> Result<(), Stop<'a>> {
        match write_output(desk, self.first.name, self.first.text) {
            Ok(()) => match write_output(desk, self.second.name, self.second.text) {
                Ok(()) => Ok(()),
                Err(WriteFault) => Err(Stop::Unwritten(self.second.name)),
            },
            Err(WriteFault) => Err(Stop::Unwritten(self.first.name)),
        }
    }
}

/// Two texts, one after the other.
#[derive(Clone, Copy)]
pub(crate) struct Both<'t, P, Q> {
    /// The one that is printed first.
    pub(crate) first: &'t P,
    /// The one that follows it.
    pub(crate) second: &'t Q,
}

impl<P: Printed, Q: Printed> Printed for Both<'_, P, Q> {
    ghost use Rattle.std.specs.Prelude.{◌++◌};

    ghost text = { λ both. P.text both.first.now ++ Q.text both.second.now };

    ghost ready = { λ both. P.ready both.first.now × Q.ready both.second.now };

    fn add_to<S: Sink>(&self, to: &mut Text<S>) -> Result<(), WriteFault> {
        self.first.add_to(to)?;
        self.second.add_to(to)
    }
}

/// Creates and writes the outputs, each in its turn, and then writes the text on out. After a
/// failure nothing more is done. If all was written, but something is wrong all the same, that is
/// reported.
pub(crate) fn deliver<'a, W: Outputs<'a>, P: Printed, D: Desk, O: Sink>(
    desk: &mut D,
    out: &mut O,
    outputs: &W,
    text: &P,
    trouble: Option<Words<'a>>,
) -> Result<(), Stop<'a>>
    requires outputs { W.ready outputs.now }
    requires text { P.ready text.now }
    ensures delivers { let seen = desk_view D.held D.read_faults D.write_faults in
        let got = sink_view O.written O.faults in
        Delivers (W.all outputs.now) (P.text text.now) (option_map words_text trouble.entry)
        (seen desk.old) (seen desk.new) (got out.old) (got out.new)
        (D.along desk.old desk.new) result }
    ensures others { let seen = desk_view D.held D.read_faults D.write_faults in
        KeepsOthers (names_of (W.all outputs.now)) (seen desk.old) (seen desk.new) }
{
    outputs.write(desk)?;
    match write_text(text, out) {
        Ok(()) => match trouble {
            Some(words) => Err(Stop::Fell(words)),
            None => Ok(()),
        },
        Err(WriteFault) => Err(Stop::Unwritten(OUT)),
    }
}
