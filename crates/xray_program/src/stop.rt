//! What ends a call before all is done.
ghost use Rattle.std.specs.Prelude.{◌≡◌, ◌++◌};
ghost use Rattle.fault_words.specs.Words.{words_text};
ghost use Rattle.xray_io.specs.{Piece.{text_of}, World.{sink_view}};
ghost use Rattle.xray_program.specs.{Answers.{Says}, Outcomes.{Refused, err_line, err_line_of}};
ghost use Rattle.xray_program.specs.private.Stops.{stop_line, stop_status};

use fault_words::Words;
use xray_io::{Each, NoMemory, Piece, Sink, write_text};

/// The start of each line on err.
const PROGRAM: Piece = Piece::Bytes(b"xray: ");

/// The end of a line.
const LINE_FEED: Piece = Piece::Bytes(b"\n");

/// What ends a call before all is done. It names the input or output that is to blame.
#[derive(Clone, Copy)]
pub(crate) enum Stop<'a> {
    /// The words say no command.
    BadLine,
    /// An input can't be read: a read failed, or the desk doesn't hold the name.
    Unread(&'a str),
    /// An input has more bytes than its limit.
    TooLong(&'a str),
    /// An input isn't accepted.
    Refused {
        /// The input's name.
        name: &'a str,
        /// The word for the kind of input.
        kind: &'a str,
        /// The words for what is wrong with it.
        words: Words<'a>,
    },
    /// All was written, and something is wrong all the same. These words say what.
    Fell(Words<'a>),
    /// An output can't be written. The standard output is named `output`.
    Unwritten(&'a str),
    /// Memory ran out.
    NoMemory,
}

impl From<NoMemory> for Stop<'_> {
    ghost use Rattle.xray_program.specs.declared.stop.Stop.TheVariants as stops;

    ghost from_gives = { λ _ stop. stop ≡ stops.NoMemory };

    fn from(_error: NoMemory) -> Self {
        Stop::NoMemory
    }
}

impl Stop<'_> {
    /// The program's status: 1 to 7.
    pub(crate) fn status(&self) -> u8
        ensures { result ≡ stop_status self.now }
    {
        match self {
            Stop::BadLine => 1,
            Stop::Refused { .. } => 2,
            Stop::Unread(_) => 3,
            Stop::Unwritten(_) => 4,
            Stop::NoMemory => 5,
            Stop::TooLong(_) => 6,
            Stop::Fell(_) => 7,
        }
    }

    /// Writes its line on err. If err fails, nothing reports that.
    pub(crate) fn report<E: Sink>(&self, err: &mut E)
        ensures { let heard = sink_view E.written E.faults in
            Says (heard err.old) (heard err.new) (stop_line self.now) }
    {
        match self {
            Stop::BadLine => say(
                err,
                &[PROGRAM, Piece::Bytes(b"bad command line"), LINE_FEED],
            ),
            Stop::Unread(name) => say_of(err, name, b": read fault"),
            Stop::TooLong(name) => say_of(err, name, b": too long"),
            Stop::Refused { name, kind, words } => say(err, &refused_line(name, kind, words)),
            Stop::Fell(trouble) => say(err, &fallen_line(trouble)),
            Stop::Unwritten(name) => say_of(err, name, b": write fault"),
            Stop::NoMemory => say(err, &[PROGRAM, Piece::Bytes(b"out of memory"), LINE_FEED]),
        }
    }
}

/// The line on err for an input that is refused.
fn refused_line<'x>(name: &'x str, kind: &'x str, words: &Words<'x>) -> [Piece<'x>; 10]
    ensures { text_of result ≡ err_line_of (Refused name.now kind.now (words_text words.now)) }
{
    [
        PROGRAM,
        Piece::Bytes(name.as_bytes()),
        Piece::Bytes(b": "),
        Piece::Bytes(kind.as_bytes()),
        Piece::Bytes(b" "),
        words.first,
        words.second,
        words.third,
        words.fourth,
        LINE_FEED,
    ]
}

/// The line on err if all was written, but something is wrong all the same.
fn fallen_line<'x>(trouble: &Words<'x>) -> [Piece<'x>; 6]
    ensures { text_of result ≡ err_line (words_text trouble.now) }
{
    [
        PROGRAM,
        trouble.first,
        trouble.second,
        trouble.third,
        trouble.fourth,
        LINE_FEED,
    ]
}

/// Writes a line on err about what happened to a file of this name.
fn say_of<'x, E: Sink>(err: &mut E, name: &'x str, what: &'x [u8])
    ensures { let heard = sink_view E.written E.faults in
        Says (heard err.old) (heard err.new) (err_line (name.now ++ what.now)) }
{
    say(
        err,
        &[
            PROGRAM,
            Piece::Bytes(name.as_bytes()),
            Piece::Bytes(what),
            LINE_FEED,
        ],
    )
}

/// Writes a line on err. If err fails, a prefix of the line was written.
fn say<E: Sink>(err: &mut E, line: &[Piece])
    ensures { let heard = sink_view E.written E.faults in
        Says (heard err.old) (heard err.new) (text_of line.now) }
{
    let _ = write_text(&Each(line), err);
}
