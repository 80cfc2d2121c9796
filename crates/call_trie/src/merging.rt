//! The stacks of several threads.

ghost use Rattle.std.specs.Prelude.{◌≡◌, All, IfOk, List, map};
ghost use Rattle.fdr_record.specs.declared.event.Event.{Event};
ghost use Rattle.stack_rebuild.specs.Stacks.{stack_of_threads, told};
ghost use Rattle.call_trie.specs.Merging.{AllStandFor};

use crate::recorder::TrieRecorder;
use crate::state::TrieState;
use stack_rebuild::{PathSums, StackRow, rows_of};
use std::alloc::Global;
use xray_io::NoMemory;

/// The stacks of threads, each with its recorder: a row for each path that has a pair of an entry and
/// an exit, over all threads, in ascending order of the paths as lists of numbers. All recorders still
/// take events. `NoMemory` means that an allocation was refused.
pub fn merged(alloc: Global, tries: &[TrieRecorder]) -> Result<Vec<StackRow>, NoMemory>
    requires { All (λ trie. trie.state ≡ TrieState.Live) tries.now }
    ensures { IfOk result (λ rows. (threads : List (List Event)) → AllStandFor tries.now threads
        → map told rows.items ≡ stack_of_threads threads) }
{
    let mut sums = PathSums::new(alloc);
    'merging: for trie in tries {
        trie.add_to(alloc, &mut sums)?;
    }
    rows_of(alloc, sums)
}
