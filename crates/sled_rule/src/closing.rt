//! How a table ends.

ghost use Rattle.std.specs.Prelude.{◌≡◌, ℕ, ◌+◌, ◌-◌, ◌*◌, ◌<◌, ◌≤◌, length, slice_index};
ghost use Rattle.std.specs.Slots.{slots_items, slots_len, IsFull};
ghost use mathlib.Core.Option.{some};
ghost use lib.ListN.{get_elem?};
ghost use Rattle.sled_words.specs.Words.{progress_word, word_count};
ghost use Rattle.sled_words.specs.declared.words.TheConstants.{MAX_THREADS};
ghost use Rattle.patch_script.specs.Plans.{Plan};
ghost use Rattle.sled_rule.specs.Plans.{IsCodeIn, code_in, most_words, words_in};
ghost use Rattle.sled_rule.specs.Slots.{code_slot, progress_slot, slot_count};
ghost use Rattle.sled_rule.specs.Seats.{patch_view, script_of, AllMet, IsPatcherOf};
ghost use Rattle.sled_rule.specs.Views.{ended_count};

use crate::seats::PatchSeat;
use crate::slots::slot_of;
use crate::table::CodeTable;
use atomic_table::Closed;
use std::alloc::Global;

impl CodeTable {
    /// How many words there are by number: the code words, and a progress word per thread.
    pub fn word_count(&self) -> u32
        ensures { result ≡ word_count (script_of self.now).program (script_of self.now).threads }
    {
        self.word_len as u32
    }

    /// Ends the table, and writes its last words into a slice, each at its number: those of the
    /// script at the place, and the progress words of the threads. All seats that were given have
    /// to be met before.
    pub fn close(self, seat: PatchSeat, into: &mut [u64])
        requires own { IsPatcherOf self seat }
        requires met { AllMet (patch_view seat) }
        requires room { length into.old ≡ word_count (script_of self).program (script_of self).threads }
        ensures code { (word : ℕ) → IsCodeIn (script_of self) word
            → slice_index into.new word ≡ code_in (script_of self) (patch_view seat).place word }
        ensures ended { (thread : ℕ) → 0 < thread → thread ≤ (patch_view seat).given
            → slice_index into.new (progress_word (script_of self).program (script_of self).threads thread)
            ≡ ended_count }
        // A thread without a seat has made no passing.
        ensures idle { (thread : ℕ) → (patch_view seat).given < thread → thread ≤ (script_of self).threads
            → slice_index into.new (progress_word (script_of self).program (script_of self).threads thread) ≡ 0 }
    {
        let CodeTable {
            script: _,
            threads,
            word_len,
            table,
        } = self;
        let PatchSeat {
            place: _,
            given: _,
            near: _,
            seat: last,
        } = seat;
        let closed = table.close_with(last);
        copy_words(&closed, word_len, threads, into);
        closed.free();
    }
}

/// Copies the words from their slots to their numbers. There are `word_len` words for this many
/// threads.
fn copy_words(closed: &Closed<(), Global>, word_len: usize, threads: u32, into: &mut [u64])
    requires full { IsFull closed.now.words }
    requires few { word_len ≤ most_words }
    requires few_threads { threads ≤ MAX_THREADS }
    requires room { (plan : Plan) × (word_len ≡ words_in plan) × (threads ≡ plan.threads)
        × (length into.old ≡ word_len)
        × (slots_len closed.now.words ≡ slot_count plan) }
    ensures code { (plan : Plan) (word : ℕ) → word_len ≡ words_in plan → threads ≡ plan.threads
        → IsCodeIn plan word → word < length into.old
        → get_elem? (slots_items closed.now.words) (code_slot plan word)
        ≡ some (slice_index into.new word) }
    ensures progress { (plan : Plan) (thread : ℕ) → word_len ≡ words_in plan → threads ≡ plan.threads
        → 0 < thread → thread ≤ threads
        → progress_word plan.program plan.threads thread < length into.old
        → get_elem? (slots_items closed.now.words) (progress_slot plan thread)
        ≡ some (slice_index into.new (progress_word plan.program plan.threads thread)) }
{
    for word in 0..into.len() {
        into[word] = closed.word(slot_of(word_len, threads, word as u32));
    }
}
