//! One passing of a sled, load by load.
ghost use Rattle.std.specs.Prelude.{◌≡◌, ◌≤◌, ◌<◌, length};
ghost use Rattle.machine_step.specs.Loads.{sled_logs_args};
ghost use Rattle.machine_step.specs.private.Stages.{after_load, first_stage, handlers_by, word_at};

use handler_word::Mark;
use sled_words::{
    HELD, LogState, MAX_THREADS, NO_HANDLER, PATCHED_HEAD, Part, arg_handler_word, handler_word,
    release_word, state_word, word_of,
};
use xray_image::{Image, SledKind};

/// The state of a log that records.
const INITIALIZED: u64 = LogState::Initialized as u64;

/// The word of a passing that a thread loads next.
#[derive(Clone, Copy)]
pub(crate) enum Stage {
    /// The thread's release word, if the script holds the thread here.
    Release,
    /// The sled's head.
    Head,
    /// The id of a sled whose head was patched.
    Id,
    /// Its opcode.
    Opcode,
    /// Its offset.
    Offset,
    /// The argument handler's word, if the sled logs arguments.
    ArgHandler,
    /// The handler's word, if no argument handler was found.
    Handler,
    /// The log's state, if a handler is set.
    State,
    /// The log's state, if an argument handler is set.
    ArgState,
}

/// What a load leads to: another load of the passing, or its mark.
#[derive(Clone, Copy)]
pub(crate) enum Next {
    /// The passing loads another word, or the same one again.
    Loads(Stage),
    /// The passing has its mark.
    Ends(Mark),
}

/// The stage that a passing begins with.
pub(crate) fn first_stage(hold: Option<u32>, passing: u32) -> Stage
    ensures { result ≡ first_stage hold passing }
{
    match hold {
        Some(held) if held == passing => Stage::Release,
        _ => Stage::Head,
    }
}

/// The number of the word that is loaded at a stage of a passing of this sled.
#[inline(always)]
pub(crate) fn word_at(image: &Image, threads: u32, thread: u32, sled: u32, stage: Stage) -> u32
    requires exists { sled < length image.now.sleds }
    requires thread { thread ≤ MAX_THREADS }
    requires threads { threads ≤ MAX_THREADS }
    ensures { result ≡ word_at image.now threads thread sled stage }
{
    image.sleds_stand_in_units();
    match stage {
        Stage::Release => release_word(image, thread),
        Stage::Head => word_of(sled, Part::Head),
        Stage::Id => word_of(sled, Part::Id),
        Stage::Opcode => word_of(sled, Part::Opcode),
        Stage::Offset => word_of(sled, Part::Offset),
        Stage::ArgHandler => arg_handler_word(image, threads),
        Stage::Handler => handler_word(image),
        Stage::State | Stage::ArgState => state_word(image),
    }
}

/// What the load of a value leads to, in a passing of this sled.
#[inline(always)]
pub(crate) fn after_load(image: &Image, sled: u32, stage: Stage, value: u64) -> Next
    requires { sled < length image.now.sleds }
    ensures { result ≡ after_load (sled_logs_args image.now sled) stage value }
{
    match stage {
        Stage::Release if value == HELD => Next::Loads(Stage::Release),
        Stage::Release => Next::Loads(Stage::Head),
        Stage::Head if value == PATCHED_HEAD => Next::Loads(Stage::Id),
        Stage::Head => Next::Ends(Mark::Skipped),
        Stage::Id => Next::Loads(Stage::Opcode),
        Stage::Opcode => Next::Loads(Stage::Offset),
        Stage::Offset => Next::Loads(after_offset(image, sled)),
        Stage::ArgHandler if value == NO_HANDLER => Next::Loads(Stage::Handler),
        Stage::ArgHandler => Next::Loads(Stage::ArgState),
        Stage::Handler if value == NO_HANDLER => Next::Ends(Mark::NoHandler),
        Stage::Handler => Next::Loads(Stage::State),
        Stage::State if value == INITIALIZED => Next::Ends(Mark::Recorded),
        Stage::ArgState if value == INITIALIZED => Next::Ends(Mark::RecordedArg),
        Stage::State | Stage::ArgState => Next::Ends(Mark::NotLogging),
    }
}

/// The stage after the offset of this sled: only a sled that logs arguments loads the argument
/// handler's word.
fn after_offset(image: &Image, sled: u32) -> Stage
    requires { sled < length image.now.sleds }
    ensures { result ≡ handlers_by (sled_logs_args image.now sled) }
{
    match image.sled(sled).kind {
        SledKind::Args => Stage::ArgHandler,
        SledKind::Entry | SledKind::Exit | SledKind::Tail => Stage::Handler,
    }
}
