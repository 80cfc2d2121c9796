//! The seats of a table: what the patcher, a thread, a note and a tally know of it. They have no
//! lifetime, and may go to other threads.

ghost use Rattle.std.specs.Prelude.{◌≡◌, ◌<◌, ◌≤◌, []};
ghost use Rattle.sled_rule.specs.declared.views.View.TheVariants.{Patch, Work, Note, Tally};
ghost use Rattle.sled_rule.specs.{Following.{IsFollowing, rises_prop}, Plans.{total_in}};
ghost use Rattle.sled_rule.specs.Steps.{patch_of, work_of, note_of, tally_of};

use crate::views::View;
use atomic_table::Seat;

/// The patcher's seat. Its holder makes the script's micro steps, one after the other.
#[derive(Drop)]
pub struct PatchSeat {
    pub(crate) place: u64,
    pub(crate) given: u32,
    /// The number of the command that a micro step was last found at.
    pub(crate) near: u32,
    pub(crate) seat: Seat<(), View>,
    ghost is: { (seat.me.0 ≡ Patch (patch_of seat.me.0)) × (seat.me.1 ≡ []) },
    ghost at: { (place ≡ (patch_of seat.me.0).place) × (given ≡ (patch_of seat.me.0).given) },
    ghost within: { (patch_of seat.me.0).place ≤ total_in (patch_of seat.me.0).script },
}

/// A thread's seat. Its holder loads words for this thread.
#[derive(Drop)]
pub struct WorkSeat {
    pub(crate) thread: u32,
    pub(crate) count: u64,
    pub(crate) seat: Seat<(), View>,
    ghost is: { (seat.me.0 ≡ Work (work_of seat.me.0)) × (seat.me.1 ≡ []) },
    ghost at: { (thread ≡ (work_of seat.me.0).thread) × (count ≡ (work_of seat.me.0).count) },
    ghost follows: { IsFollowing (work_of seat.me.0) } by { rises_prop _ _ _ _ _ },
    ghost one: { (0 < thread) × (thread ≤ (work_of seat.me.0).script.threads) },
}

/// A place of the patcher. After hearing it, a thread loads nothing older.
#[derive(Drop)]
pub struct Note {
    pub(crate) seat: Seat<(), View>,
    ghost is: { (seat.me.0 ≡ Note (note_of seat.me.0)) × (seat.me.1 ≡ []) },
}

/// A thread and a count of its passings. After heeding it, the patcher passes each await of the
/// thread for at most that many.
#[derive(Drop)]
pub struct Tally {
    pub(crate) seat: Seat<(), View>,
    ghost is: { (seat.me.0 ≡ Tally (tally_of seat.me.0)) × (seat.me.1 ≡ []) },
}

impl PatchSeat {
    ghost use Rattle.sled_rule.specs.Seats.{patch_view};

    /// How many micro steps were made.
    #[inline]
    pub fn place(&self) -> u64
        ensures place { result ≡ (patch_view self.now).place }
        ensures within { result ≤ total_in (patch_view self.now).script }
    {
        self.place
    }
}

impl WorkSeat {
    ghost use Rattle.sled_rule.specs.Seats.{work_view};

    /// The thread's number, from 1.
    #[inline]
    pub fn thread(&self) -> u32
        ensures { result ≡ (work_view self.now).thread }
    {
        self.thread
    }

    /// How many passings the thread has made, or 2^64 - 1 if it has ended.
    #[inline]
    pub fn count(&self) -> u64
        ensures { result ≡ (work_view self.now).count }
    {
        self.count
    }
}
