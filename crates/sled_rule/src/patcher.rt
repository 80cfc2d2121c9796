//! What the patcher does with its seat.

ghost use Rattle.std.specs.Prelude.{◌≡◌, ◌<◌, ◌≤◌, ◌↔◌, ℕ, [], slice_index, true, IsTrue};
ghost use Rattle.patch_script.specs.declared.micro.Micro.TheVariants.{Await};
ghost use Rattle.patch_script.specs.Plans.{IsWithin};
ghost use Rattle.sled_rule.specs.declared.views.View.TheVariants.{Patch};
ghost use Rattle.sled_rule.specs.Plans.{micro_in, start_in, total_in, IsAwaitAt, IsStoreAt};
ghost use Rattle.sled_rule.specs.Seats.{patch_view, work_view, note_view, tally_view, script_of, IsPatcherOf, IsWorkerOf, IsNoteOf, IsTallyOf, IsLooked};
ghost use Rattle.sled_rule.specs.Steps.{patch_of};
ghost use Rattle.sled_rule.specs.Views.{advanced, ended_count, giving, heeding, looked_at, meeting, next_work, note_at};

use crate::plays::{Confirm, Give, Heed, Look, Meet, Patching, WriteNote};
use crate::seats::{Note, PatchSeat, Tally, WorkSeat};
use crate::slots::{code_slot, progress_slot};
use crate::table::CodeTable;
use crate::views::View;
use atomic_table::Seat;
use patch_script::{Micro, stores_give_the_code};

impl CodeTable {
    /// The micro step at the place, which is made next. The answer is `End` exactly when all were
    /// made. The seat keeps where the step was found, so that the next one needs no search.
    #[inline]
    pub fn next_micro(&self, seat: &mut PatchSeat) -> Micro
        requires own { IsPatcherOf self.now seat.old }
        ensures own { IsPatcherOf self.now seat.new }
        ensures same { patch_view seat.new ≡ patch_view seat.old }
        ensures micro { micro_in (script_of self.now) (patch_view seat.old).place ≡ result }
        ensures within { IsWithin (script_of self.now) result }
        ensures end { (result ≡ Micro.End) ↔ ((patch_view seat.old).place ≡ total_in (script_of self.now)) }
    {
        self.script.micro_near(seat.place, &mut seat.near)
    }

    /// Whether the place is the one where threads start.
    pub fn is_at_start(&self, seat: &PatchSeat) -> bool
        requires own { IsPatcherOf self.now seat.now }
        ensures { IsTrue result ↔ ((patch_view seat.now).place ≡ start_in (script_of self.now)) }
    {
        seat.place == self.script.start()
    }

    /// Makes the micro step at the place, which is a store.
    pub fn store_next(&self, seat: &mut PatchSeat)
        requires own { IsPatcherOf self.now seat.old }
        requires store { IsStoreAt (script_of self.now) (patch_view seat.old).place }
        ensures own { IsPatcherOf self.now seat.new }
        ensures view { patch_view seat.new ≡ advanced (patch_view seat.old) }
    {
        match self.next_micro(seat) {
            Micro::Store { word, value } => self.make_store(seat, word, value),
            Micro::Await { .. } | Micro::End => unreachable!(),
        }
    }

    /// Makes the micro step at the place, which is a store of this value in this word, as
    /// `next_micro` has returned.
    #[inline]
    pub fn make_store(&self, seat: &mut PatchSeat, word: u32, value: u64)
        requires own { IsPatcherOf self.now seat.old }
        requires next { micro_in (script_of self.now) (patch_view seat.old).place ≡ Micro.Store word value }
        requires within { IsWithin (script_of self.now) (Micro.Store word value) }
        ensures own { IsPatcherOf self.now seat.new }
        ensures view { patch_view seat.new ≡ advanced (patch_view seat.old) }
    {
        stores_give_the_code();
        self.table
            .shared
            .store::<Patching>(&mut seat.seat, code_slot(word), value);
        seat.place += 1;
    }

    /// Looks whether the thread that the micro step at the place awaits has made its passings. If
    /// it has, the await is passed. Loads the thread's progress word once.
    pub fn look(&self, seat: &mut PatchSeat) -> bool
        requires own { IsPatcherOf self.now seat.old }
        requires waits { IsAwaitAt (script_of self.now) (patch_view seat.old).place }
        ensures own { IsPatcherOf self.now seat.new }
        ensures looked { IsLooked (patch_view seat.old) result (patch_view seat.new) }
        // If it is known that an await's count is reached, the await is passed.
        ensures known { (thread count : ℕ)
            → micro_in (script_of self.now) (patch_view seat.old).place ≡ Await thread count
            → count ≤ slice_index (patch_view seat.old).known thread → result ≡ true }
    {
        match self.next_micro(seat) {
            Micro::Await { thread, count } => self.look_for(seat, thread, count),
            Micro::Store { .. } | Micro::End => unreachable!(),
        }
    }

    /// Looks whether a thread has made `count` passings, which the micro step at the place awaits.
    fn look_for(&self, seat: &mut PatchSeat, thread: u32, count: u32) -> bool
        requires own { IsPatcherOf self.now seat.old }
        requires next { micro_in (script_of self.now) (patch_view seat.old).place ≡ Micro.Await thread count }
        requires within { IsWithin (script_of self.now) (Micro.Await thread count) }
        ensures own { IsPatcherOf self.now seat.new }
        ensures looked { IsLooked (patch_view seat.old) result (patch_view seat.new) }
        ensures known { count ≤ slice_index (patch_view seat.old).known thread → result ≡ true }
    {
        let value = self.load_progress(&mut seat.seat, thread, count);
        if value < u64::from(count) {
            false
        } else {
            seat.place += 1;
            true
        }
    }

    /// Loads the progress word of a thread that the micro step at the place awaits.
    fn load_progress(&self, seat: &mut Seat<(), View>, thread: u32, count: u32) -> u64
        requires table { seat.old.table_id ≡ self.now.table.shared.table_id }
        requires script { (patch_of seat.old.me.0).script ≡ script_of self.now }
        requires is { seat.old.me.0 ≡ Patch (patch_of seat.old.me.0) }
        requires bare { seat.old.me.1 ≡ [] }
        requires thread { thread ≤ (script_of self.now).threads }
        requires step { micro_in (script_of self.now) (patch_of seat.old.me.0).place ≡ Await thread count }
        ensures table { seat.new.table_id ≡ seat.old.table_id }
        ensures grows { slice_index (patch_of seat.old.me.0).known thread ≤ result }
        ensures known { slice_index (patch_of seat.new.me.0).known thread ≡ result }
        ensures view { seat.new.me.0 ≡ Patch (looked_at (patch_of seat.old.me.0) thread count result) }
        ensures bare { seat.new.me.1 ≡ [] }
    {
        stores_give_the_code();
        let slot = progress_slot(self.word_len, thread);
        self.table.shared.load::<Look>(seat, slot)
    }

    /// The seat of the next thread, from 1 on. It has seen all stores before the place where
    /// threads start. Seats are given at that place.
    pub fn split(&self, seat: &mut PatchSeat) -> WorkSeat
        requires own { IsPatcherOf self.now seat.old }
        requires starts { (patch_view seat.old).place ≡ start_in (script_of self.now) }
        requires few { (patch_view seat.old).given < (script_of self.now).threads }
        ensures own { IsPatcherOf self.now seat.new }
        ensures view { patch_view seat.new ≡ giving (patch_view seat.old) }
        ensures own_worker { IsWorkerOf self.now result }
        ensures worker { work_view result ≡ next_work (patch_view seat.old) }
    {
        seat.given += 1;
        let next = self.table.shared.split_seat::<Give>(&mut seat.seat);
        WorkSeat {
            thread: seat.given,
            count: 0,
            seat: next,
        }
    }

    /// Takes back the seat of a thread that has ended.
    pub fn meet(&self, seat: &mut PatchSeat, worker: WorkSeat)
        requires own { IsPatcherOf self.now seat.old }
        requires own_worker { IsWorkerOf self.now worker }
        requires ended { (work_view worker).count ≡ ended_count }
        ensures own { IsPatcherOf self.now seat.new }
        ensures view { patch_view seat.new ≡ meeting (patch_view seat.old) (work_view worker) }
        ensures seen { (work_view worker).seen ≤ (patch_view seat.old).place }
    {
        let WorkSeat {
            thread: _,
            count: _,
            seat: ended,
        } = worker;
        self.table.shared.join_seat::<Meet>(&mut seat.seat, ended);
        self.table.shared.load::<Confirm>(&mut seat.seat, 0);
    }

    /// Writes the place into a note for a thread. The seat stays as it is.
    pub fn note(&self, seat: &mut PatchSeat) -> Note
        requires own { IsPatcherOf self.now seat.old }
        ensures own { IsPatcherOf self.now seat.new }
        ensures same { patch_view seat.new ≡ patch_view seat.old }
        ensures own_note { IsNoteOf self.now result }
        ensures note { note_view result ≡ note_at (patch_view seat.old) }
    {
        let seat = self.table.shared.split_seat::<WriteNote>(&mut seat.seat);
        Note { seat }
    }

    /// Takes in a tally. If the tally's count is more than what is known of its thread, it is known
    /// from then on.
    pub fn heed(&self, seat: &mut PatchSeat, tally: Tally)
        requires own { IsPatcherOf self.now seat.old }
        requires own_tally { IsTallyOf self.now tally }
        ensures own { IsPatcherOf self.now seat.new }
        ensures view { patch_view seat.new ≡ heeding (patch_view seat.old) (tally_view tally) }
    {
        let Tally { seat: told } = tally;
        self.table.shared.join_seat::<Heed>(&mut seat.seat, told);
    }
}
