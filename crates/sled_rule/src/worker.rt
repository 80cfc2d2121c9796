//! What a thread does with its seat.

ghost use Rattle.std.specs.Prelude.{◌≡◌, ◌+◌, ◌<◌, ◌≤◌, ◌^◌, ◌↔◌, IsTrue};
ghost use Rattle.sled_words.specs.Words.{code_word_count};
ghost use Rattle.sled_rule.specs.Plans.{IsCodeIn};
ghost use Rattle.sled_rule.specs.Seats.{work_view, note_view, tally_view, script_of, IsWorkerOf, IsNoteOf, IsTallyOf};
ghost use Rattle.sled_rule.specs.Steps.{IsFetched};
ghost use Rattle.sled_rule.specs.Views.{counting, ended_count, hearing, tally_at};

use crate::plays::{Count, Fetch, Hear, WriteTally};
use crate::seats::{Note, Tally, WorkSeat};
use crate::slots::{code_slot, is_code_word, progress_slot};
use crate::table::CodeTable;
use patch_script::awaits_bound_passings;

impl CodeTable {
    /// How many code words there are.
    pub fn code_word_count(&self) -> u32
        ensures { result ≡ code_word_count (script_of self.now).program (script_of self.now).threads }
    {
        self.word_len as u32 - self.threads
    }

    /// Whether the word of this number is a code word, which may be fetched.
    #[inline]
    pub fn is_code_word(&self, word: u32) -> bool
        ensures { IsTrue result ↔ IsCodeIn (script_of self.now) word }
    {
        is_code_word(self.word_len, self.threads, word)
    }

    /// Loads a code word. Its value is that at a place of the script which
    /// isn't before what the seat has seen. From then on the seat has seen that place.
    #[inline]
    pub fn fetch(&self, seat: &mut WorkSeat, word: u32) -> u64
        requires own { IsWorkerOf self.now seat.old }
        requires word { IsCodeIn (script_of self.now) word }
        ensures own { IsWorkerOf self.now seat.new }
        ensures fetched { IsFetched (work_view seat.old) word result (work_view seat.new) }
    {
        awaits_bound_passings();
        self.table
            .shared
            .load::<Fetch>(&mut seat.seat, code_slot(word))
    }

    /// The thread has made one more passing. Stores the count in its progress word.
    #[inline]
    pub fn passed(&self, seat: &mut WorkSeat)
        requires own { IsWorkerOf self.now seat.old }
        requires going { (work_view seat.old).count < 2 ^ 32 }
        ensures own { IsWorkerOf self.now seat.new }
        ensures view { work_view seat.new ≡ counting (work_view seat.old) ((work_view seat.old).count + 1) }
    {
        self.count_to(seat, seat.count + 1);
    }

    /// The thread has ended. Stores 2^64 - 1 in its progress word, so that no await waits for it
    /// any more.
    pub fn ended(&self, seat: &mut WorkSeat)
        requires own { IsWorkerOf self.now seat.old }
        requires going { (work_view seat.old).count < ended_count }
        ensures own { IsWorkerOf self.now seat.new }
        ensures view { work_view seat.new ≡ counting (work_view seat.old) ended_count }
    {
        self.count_to(seat, u64::MAX);
    }

    /// Stores a count that isn't less than the one before.
    #[inline]
    fn count_to(&self, seat: &mut WorkSeat, count: u64)
        requires own { IsWorkerOf self.now seat.old }
        requires more { (work_view seat.old).count ≤ count }
        ensures own { IsWorkerOf self.now seat.new }
        ensures view { work_view seat.new ≡ counting (work_view seat.old) count }
    {
        let slot = progress_slot(self.word_len, seat.thread);
        self.table
            .shared
            .store::<Count>(&mut seat.seat, slot, count);
        seat.count = count;
    }

    /// Writes the thread's count into a tally for the patcher. The seat stays as it is.
    pub fn tally(&self, seat: &mut WorkSeat) -> Tally
        requires own { IsWorkerOf self.now seat.old }
        ensures own { IsWorkerOf self.now seat.new }
        ensures same { work_view seat.new ≡ work_view seat.old }
        ensures own_tally { IsTallyOf self.now result }
        ensures tally { tally_view result ≡ tally_at (work_view seat.old) }
    {
        let seat = self.table.shared.split_seat::<WriteTally>(&mut seat.seat);
        Tally { seat }
    }

    /// Takes in a note. If the note's place is later than what the seat has seen, the seat has seen
    /// that place from then on.
    pub fn hear(&self, seat: &mut WorkSeat, note: Note)
        requires own { IsWorkerOf self.now seat.old }
        requires own_note { IsNoteOf self.now note }
        ensures own { IsWorkerOf self.now seat.new }
        ensures view { work_view seat.new ≡ hearing (work_view seat.old) (note_view note) }
    {
        let Note { seat: told } = note;
        self.table.shared.join_seat::<Hear>(&mut seat.seat, told);
    }
}
