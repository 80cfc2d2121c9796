//! What is said of an import.
ghost use Rattle.std.specs.{Prelude.{◌≡◌, ◌++◌}, List.{flat_map}};
ghost use Rattle.xray_io.specs.Piece.{piece_text};
ghost use Rattle.runtime_log.specs.Facts.{counters_text, left_out_text, left_records_text, right_or_dash, taken_text};
ghost use Rattle.runtime_log.specs.private.FactLines.{line_text};

use xray_io::{Each, Piece, Printed, Sink, Text, WriteFault};

/// The width of a number. A longer one is printed whole.
const WIDTH: usize = 20;

/// What was taken of a log, and what was left out.
#[derive(Clone, Copy, Debug, PartialEq, Eq)]
pub struct Facts {
    /// How many blocks were taken.
    pub blocks: u64,
    /// How many threads they are of.
    pub threads: u64,
    /// How many events they have.
    pub events: u64,
    /// How many of these are entries that log their arguments.
    pub arguments: u64,
    /// How many custom events all blocks of the log have.
    pub custom: u64,
    /// How many typed events.
    pub typed: u64,
    /// How many blocks have the bytes of a block before them.
    pub doubled: u64,
    /// How many of the other blocks have no events.
    pub empty: u64,
    /// The least counter of an event that was taken, if there is one.
    pub first: Option<u64>,
    /// The greatest counter.
    pub last: Option<u64>,
    /// How many threads have an event with a lower counter than the event before it.
    pub back: u64,
    /// How many arguments of a basic log have lost their entries.
    pub lost: u64,
    /// How many records are cut at the ends of blocks.
    pub cut: u64,
    /// How many times the counter advances in a second, as the log says.
    pub frequency: u64,
}

/// The numbers of what a log has.
#[derive(Clone, Copy)]
pub(crate) struct Counts {
    /// How many custom events its blocks have.
    pub(crate) custom: u64,
    /// How many typed events.
    pub(crate) typed: u64,
    /// How many arguments have lost their entries.
    pub(crate) lost: u64,
    /// How many records are cut at the ends of blocks.
    pub(crate) cut: u64,
    /// How many times the counter advances in a second.
    pub(crate) frequency: u64,
}

impl Printed for Facts {
    ghost use Rattle.std.specs.Prelude.{⊤};
    ghost use Rattle.runtime_log.specs.Facts.{facts_text};

    ghost text = { facts_text };

    ghost ready = { λ _. ⊤ };

    fn add_to<S: Sink>(&self, to: &mut Text<S>) -> Result<(), WriteFault> {
        Each(&self.taken()).add_to(to)?;
        Each(&self.left_out()).add_to(to)?;
        Each(&self.numbers()).add_to(to)
    }
}

impl Facts {
    /// What was taken.
    fn taken(&self) -> [Line; 4]
        ensures { flat_map line_text result ≡ taken_text self.now }
    {
        [
            Line(Some(self.blocks), b"blocks"),
            Line(Some(self.threads), b"threads"),
            Line(Some(self.events), b"events"),
            Line(Some(self.arguments), b"entries with arguments"),
        ]
    }

    /// What was left out.
    fn left_out(&self) -> [Line; 4]
        ensures { flat_map line_text result ≡ left_out_text self.now }
    {
        [
            Line(Some(self.custom), b"custom events left out"),
            Line(Some(self.typed), b"typed events left out"),
            Line(Some(self.doubled), b"doubled blocks left out"),
            Line(Some(self.empty), b"empty blocks left out"),
        ]
    }

    /// The counters of the events, the records that were left out, and the frequency of the counter.
    fn numbers(&self) -> [Line; 6]
        ensures { flat_map line_text result ≡ counters_text self.now ++ left_records_text self.now }
    {
        [
            Line(self.first, b"first counter"),
            Line(self.last, b"last counter"),
            Line(Some(self.back), b"threads whose counter goes back"),
            Line(Some(self.lost), b"arguments without an entry left out"),
            Line(Some(self.cut), b"cut records left out"),
            Line(Some(self.frequency), b"cycles a second"),
        ]
    }
}

/// A line: a number, if there is one, and what it is.
#[derive(Clone, Copy)]
struct Line(Option<u64>, &'static [u8]);

impl Printed for Line {
    ghost use Rattle.std.specs.Prelude.{⊤};
    ghost use Rattle.runtime_log.specs.private.FactLines.{line_text};

    ghost text = { line_text };

    ghost ready = { λ _. ⊤ };

    #[tactic(auto, unfolding(crate::specs::Facts::counter_line))]
    fn add_to<S: Sink>(&self, to: &mut Text<S>) -> Result<(), WriteFault> {
        to.pieces(&[
            right(self.0),
            Piece::Bytes(b" "),
            Piece::Bytes(self.1),
            Piece::Bytes(b"\n"),
        ])
    }
}

/// A number at the right end of its places, or a dash in place of none.
fn right(number: Option<u64>) -> Piece<'static>
    ensures { piece_text result ≡ right_or_dash number }
{
    match number {
        Some(number) => Piece::Right {
            number: u128::from(number),
            width: WIDTH,
        },
        None => Piece::Bytes(b"                   -"),
    }
}
