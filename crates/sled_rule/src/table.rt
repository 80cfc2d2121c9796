//! The table: its words and its script.

ghost use Rattle.std.specs.Prelude.{◌≡◌, ◌+◌, ◌*◌, ◌<◌, ◌≤◌};
ghost use Rattle.patch_script.specs.Limits.{most_micros};
ghost use Rattle.sled_rule.specs.Plans.{most_words, total_in, words_in};
ghost use Rattle.sled_words.specs.declared.words.TheConstants.{MAX_THREADS};
ghost use Rattle.sled_rule.specs.Slots.{slot_count};

use crate::law::CodeRule;
use crate::views::View;
use atomic_table::Table;
use patch_script::Script;
use std::alloc::Global;

/// The words of an image's sleds and of the threads that pass them. One patcher stores in them what
/// a script says, while threads load them.
///
/// Every step is one sequentially consistent load or store of one word. No step waits for another
/// thread.
#[derive(Drop)]
pub struct CodeTable {
    pub(crate) script: Script,
    pub(crate) threads: u32,
    /// How many words there are by number.
    pub(crate) word_len: usize,
    pub(crate) table: Table<(), View, Script, CodeRule, Global>,
    ghost key: { table.shared.key ≡ script },
    ghost all_threads: { threads ≡ script.threads },
    ghost few_threads: { threads ≤ MAX_THREADS },
    ghost counted: { word_len ≡ words_in script },
    ghost few_words: { word_len ≤ most_words },
    ghost few_steps: { total_in script ≤ most_micros },
    ghost no_slots: { table.shared.table_id.slots ≡ 0 },
    ghost sized: { table.shared.table_id.words ≡ slot_count script },
}
