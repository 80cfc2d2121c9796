//! Where a table keeps its words. A code word has its number as its slot. The progress words come
//! after the numbers of all words, each in a pair of cache lines of its own.
#![tactic(auto, unfolding(crate::specs::Plans::words_in, crate::specs::Slots::code_slot))]

ghost use Rattle.std.specs.Prelude.{◌≡◌, ◌+◌, ◌*◌, ◌<◌, ◌≤◌, ◌↔◌, ◌⊎◌, ℕ, IsTrue};
ghost use Rattle.sled_words.specs.Words.{progress_word, word_count};
ghost use Rattle.sled_words.specs.declared.words.TheConstants.{MAX_THREADS};
ghost use Rattle.patch_script.specs.Plans.{Plan};
ghost use Rattle.sled_rule.specs.Plans.{IsCodeIn, most_words, words_in};
ghost use Rattle.sled_rule.specs.Slots.{code_slot, progress_slot, slot_count};

/// How many slots a progress word takes: 128 bytes, since processors fetch cache lines in pairs.
const APART: usize = 16;

/// Whether the word of this number is a code word, if there are this many words for this many
/// threads. All code words but the argument handler's, which is the last word, come before the
/// progress words.
#[inline]
pub(crate) fn is_code_word(word_len: usize, threads: u32, word: u32) -> bool
    ensures number { IsTrue result ↔ (word + 1 + threads < word_len) ⊎ (word + 1 ≡ word_len) }
    ensures code { (plan : Plan) → word_len ≡ words_in plan → threads ≡ plan.threads
        → IsTrue result ↔ IsCodeIn plan word }
{
    let following = word as usize + 1;
    following + (threads as usize) < word_len || following == word_len
}

/// The slot of a code word.
#[inline]
pub(crate) fn code_slot(word: u32) -> usize
    ensures { (plan : Plan) → result ≡ code_slot plan word }
{
    word as usize
}

/// The slot of a thread's progress word, if there are this many words.
#[inline]
pub(crate) fn progress_slot(word_len: usize, thread: u32) -> usize
    requires few_words { word_len ≤ most_words }
    requires few_threads { thread ≤ MAX_THREADS }
    ensures { (plan : Plan) → word_len ≡ words_in plan → result ≡ progress_slot plan thread }
{
    word_len + APART * thread as usize
}

/// How many slots a table for this many threads has, if there are this many words.
pub(crate) fn slot_count(word_len: usize, threads: u32) -> usize
    requires few_words { word_len ≤ most_words }
    requires few_threads { threads ≤ MAX_THREADS }
    ensures { result ≡ word_len + APART * (threads + 1) }
{
    word_len + APART * (threads as usize + 1)
}

/// The slot of the word of this number, a code word or a progress word, if there are this many words
/// for this many threads.
pub(crate) fn slot_of(word_len: usize, threads: u32, word: u32) -> usize
    requires few_words { word_len ≤ most_words }
    requires few_threads { threads ≤ MAX_THREADS }
    requires within { word < word_len }
    ensures code { (plan : Plan) → word_len ≡ words_in plan → threads ≡ plan.threads
        → IsCodeIn plan word → result ≡ code_slot plan word }
    ensures progress { (plan : Plan) (thread : ℕ) → word_len ≡ words_in plan → threads ≡ plan.threads
        → 0 < thread → thread ≤ threads → word ≡ progress_word plan.program plan.threads thread
        → result ≡ progress_slot plan thread }
    ensures within { (plan : Plan) → word_len ≡ words_in plan → threads ≡ plan.threads
        → result < slot_count plan }
{
    if is_code_word(word_len, threads, word) {
        return code_slot(word);
    }
    // The progress words come right before the last word.
    let thread = word + threads + 2 - word_len as u32;
    progress_slot(word_len, thread)
}
