//! The kinds of steps. Each says what its seat learns.

ghost use Rattle.sled_rule.specs.private.Plays.{fetched, counted, patched, looked, confirmed};
ghost use Rattle.sled_rule.specs.declared.views.View.TheVariants.{Patch, Work, Note, Tally, Spent};
ghost use Rattle.sled_rule.specs.Steps.{patch_of, work_of, note_of, tally_of};
ghost use Rattle.sled_rule.specs.Views.{giving, hearing, heeding, meeting, next_work, note_at, tally_at};

use crate::views::View;
use atomic_table::{Join, Play, Split};

/// A thread loads a word.
pub(crate) struct Fetch;

impl Play<(), View> for Fetch {
    ghost then = { fetched };
}

/// A thread stores its count.
pub(crate) struct Count;

impl Play<(), View> for Count {
    ghost then = { counted };
}

/// The patcher makes a store of its script.
pub(crate) struct Patching;

impl Play<(), View> for Patching {
    ghost then = { patched };
}

/// The patcher loads the count of a thread that it awaits.
pub(crate) struct Look;

impl Play<(), View> for Look {
    ghost then = { looked };
}

/// The patcher learns what the rule says of the threads that it has met.
pub(crate) struct Confirm;

impl Play<(), View> for Confirm {
    ghost then = { confirmed };
}

/// The patcher gives a thread its seat.
pub(crate) struct Give;

impl Split<View> for Give {
    ghost left = { λ v. Patch (giving (patch_of v)) };

    ghost right = { λ v. Work (next_work (patch_of v)) };
}

/// The patcher writes its place into a note.
pub(crate) struct WriteNote;

impl Split<View> for WriteNote {
    ghost left = { λ v. Patch (patch_of v) };

    ghost right = { λ v. Note (note_at (patch_of v)) };
}

/// A thread writes its count into a tally.
pub(crate) struct WriteTally;

impl Split<View> for WriteTally {
    ghost left = { λ v. Work (work_of v) };

    ghost right = { λ v. Tally (tally_at (work_of v)) };
}

/// A thread takes in a note.
pub(crate) struct Hear;

impl Join<View> for Hear {
    ghost both = { λ v w. Work (hearing (work_of v) (note_of w)) };

    ghost spent = { Spent };
}

/// The patcher takes in a tally.
pub(crate) struct Heed;

impl Join<View> for Heed {
    ghost both = { λ v w. Patch (heeding (patch_of v) (tally_of w)) };

    ghost spent = { Spent };
}

/// The patcher takes back a thread's seat.
pub(crate) struct Meet;

impl Join<View> for Meet {
    ghost both = { λ v w. Patch (meeting (patch_of v) (work_of w)) };

    ghost spent = { Spent };
}
