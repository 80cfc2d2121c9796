//! What a passing looks for to get its mark.

ghost use Rattle.std.specs.Prelude.{◌≡◌, ◌≤◌, ℕ, false, length, map, true};
ghost use Rattle.xray_image.specs.Program.{Program};
ghost use Rattle.machine_step.specs.Loads.{logs_args, sled_logs_args};
ghost use Rattle.audit_check.specs.Places.{head_searches};
ghost use Rattle.audit_check.specs.private.Searches.{search_of, searches_by};

use handler_word::Mark;
use xray_image::SledKind;

/// What a passing looks for: words that have values which lead on to its mark.
#[derive(Clone, Copy)]
pub(crate) enum Sought {
    /// A patched head.
    Patched,
    /// A head that isn't patched.
    Unpatched,
    /// That an argument handler is set, or that none is.
    ArgHandler { set: bool },
    /// That a handler is set, or that none is.
    Handler { set: bool },
    /// A handler of either kind.
    EitherHandler,
    /// A log that records, or one that doesn't.
    Log { records: bool },
    /// What no word has: the mark isn't one of the sled.
    Nothing,
}

const SKIPPED: &[Sought] = &[Sought::Unpatched];

const NO_HANDLER: &[Sought] = &[Sought::Patched, Sought::Handler { set: false }];

const NO_HANDLER_OF_ARGS: &[Sought] = &[
    Sought::Patched,
    Sought::ArgHandler { set: false },
    Sought::Handler { set: false },
];

const NOT_LOGGING: &[Sought] = &[
    Sought::Patched,
    Sought::Handler { set: true },
    Sought::Log { records: false },
];

const NOT_LOGGING_ARGS: &[Sought] = &[
    Sought::Patched,
    Sought::EitherHandler,
    Sought::Log { records: false },
];

const RECORDED: &[Sought] = &[
    Sought::Patched,
    Sought::Handler { set: true },
    Sought::Log { records: true },
];

const RECORDED_WITHOUT_ARG: &[Sought] = &[
    Sought::Patched,
    Sought::ArgHandler { set: false },
    Sought::Handler { set: true },
    Sought::Log { records: true },
];

const RECORDED_ARG: &[Sought] = &[
    Sought::Patched,
    Sought::ArgHandler { set: true },
    Sought::Log { records: true },
];

const NEVER: &[Sought] = &[Sought::Patched, Sought::Nothing];

/// What a passing at a sled of this kind looks for, one after the other, to get a mark.
pub(crate) fn sought_for(kind: SledKind, mark: Mark) -> &'static [Sought]
    ensures few { length result.now ≤ 4 }
    ensures searches { (program : Program) (threads : ℕ) (code : ℕ → ℕ → ℕ) (sled : ℕ)
        → sled_logs_args program sled ≡ logs_args kind
        → map (search_of program threads code sled) result.now ≡ head_searches program threads code sled mark }
{
    match kind {
        SledKind::Args => sought_with_args(mark),
        SledKind::Entry | SledKind::Exit | SledKind::Tail => sought_without_args(mark),
    }
}

/// The same at a sled that logs arguments.
fn sought_with_args(mark: Mark) -> &'static [Sought]
    ensures few { length result.now ≤ 4 }
    ensures searches { (program : Program) (threads : ℕ) (code : ℕ → ℕ → ℕ) (sled : ℕ)
        → map (search_of program threads code sled) result.now ≡ searches_by program threads code true sled mark }
{
    match mark {
        Mark::Skipped => SKIPPED,
        Mark::NoHandler => NO_HANDLER_OF_ARGS,
        Mark::NotLogging => NOT_LOGGING_ARGS,
        Mark::Recorded => RECORDED_WITHOUT_ARG,
        Mark::RecordedArg => RECORDED_ARG,
    }
}

/// The same at a sled that logs no arguments.
fn sought_without_args(mark: Mark) -> &'static [Sought]
    ensures few { length result.now ≤ 4 }
    ensures searches { (program : Program) (threads : ℕ) (code : ℕ → ℕ → ℕ) (sled : ℕ)
        → map (search_of program threads code sled) result.now ≡ searches_by program threads code false sled mark }
{
    match mark {
        Mark::Skipped => SKIPPED,
        Mark::NoHandler => NO_HANDLER,
        Mark::NotLogging => NOT_LOGGING,
        Mark::Recorded => RECORDED,
        Mark::RecordedArg => NEVER,
    }
}
