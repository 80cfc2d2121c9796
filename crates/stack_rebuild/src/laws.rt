//! Laws of the pairs of a thread's events, and of stacks. Each law is the contract of a function that does nothing.

ghost use Rattle.std.specs.{Prelude.{◌≡◌, ◌≢◌, ◌<◌, ◌⊎◌, ◌++◌, ◌∷◌, ℕ, List, [], All, map}, List.{AllPairs}};
ghost use Rattle.fdr_record.specs.declared.event.Event.{Event};
ghost use Rattle.fdr_file.specs.declared.trace.Block.{Block};
ghost use Rattle.stack_rebuild.specs.{Calls.{pairs_of}, Histories.{events_of_thread, pairs_of_blocks, pairs_of_thread}};
ghost use Rattle.stack_rebuild.specs.OpenPaths.{next_stacked, stacked_after};
ghost use Rattle.stack_rebuild.specs.PairLaws.{EndsAnOpenCall, EndsBefore, IsInside, IsWholeCall};
ghost use Rattle.stack_rebuild.specs.{Stacks.{AreThreadsOf, stack_of, stack_of_threads}, Weights.{WeighsNoMore, WeighsSum}};

/// Each exit is in at most one pair, and so is each entry. Pairs stand in the order of their exits.
pub fn each_exit_ends_one_call()
    ensures exits { (events : List Event)
        → AllPairs (λ pair later. pair.exit < later.exit) (pairs_of events) }
    ensures entries { (events : List Event)
        → AllPairs (λ pair later. pair.entry ≢ later.entry) (pairs_of events) }
{}

/// Each pair is an entry and a later exit of one function, which ends the innermost open call of
/// it. Its duration is how far the counter advanced between the two, in 64 bits.
pub fn each_pair_is_a_whole_call()
    ensures { (events : List Event) → All (IsWholeCall events) (pairs_of events) }
{}

/// An exit or tail exit is in a pair exactly if a call of its function is open just before it.
pub fn an_exit_ends_an_open_call()
    ensures { (events : List Event) (at : ℕ) → EndsAnOpenCall events at }
{}

/// Pairs of a thread are nested or apart: of two pairs, the one with the earlier exit is inside the
/// other, or ends before the other begins.
pub fn pairs_nest_or_are_apart()
    ensures { (events : List Event)
        → AllPairs (λ pair later. IsInside pair later ⊎ EndsBefore pair later) (pairs_of events) }
{}

/// The pairs that a thread has among those of blocks are the pairs of its own events.
pub fn a_thread_makes_its_own_pairs()
    ensures { (blocks : List Block) (thread : ℕ)
        → pairs_of_thread thread (pairs_of_blocks blocks)
        ≡ pairs_of (events_of_thread thread blocks) }
{}

/// What one more event changes. An entry opens a call inside the innermost one. An exit or tail exit
/// ends the innermost open call of its function, if there is one, and with it the calls inside that
/// one: the pair of the call is added, and its duration is spent in the call outside it. All other
/// open calls and all earlier pairs stay as they were.
pub fn a_thread_goes_on()
    ensures { (events : List Event) (e : Event)
        → stacked_after (events ++ e ∷ []) ≡ next_stacked e (stacked_after events) }
{}

/// The stacks of blocks are those of their threads, each with its own events.
pub fn stacks_are_of_threads()
    ensures { (blocks : List Block) (threads : List ℕ) → AreThreadsOf blocks threads
        → stack_of blocks
        ≡ stack_of_threads (map (λ thread. events_of_thread thread blocks) threads) }
{}

/// The time in the calls themselves, of the row of a path and all rows below it, is the `sum` of the
/// path's row; and the time of the calls that were made directly in calls without an exit, on the path
/// or below it; and how much longer than a call there the calls made directly in it took.
pub fn a_path_weighs_its_sum_and_what_is_in_no_sum()
    ensures { (threads : List (List Event)) (path : List ℕ) → WeighsSum threads path }
{}

/// So a path weighs as much as its `sum`, if each call on it and below it has its exit, and the calls
/// made directly in a call there took no longer than the call.
pub fn a_path_whose_calls_are_all_timed_weighs_its_sum()
    ensures { (threads : List (List Event)) (path : List ℕ) → WeighsNoMore threads path }
{}
