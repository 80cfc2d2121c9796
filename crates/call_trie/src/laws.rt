//! A law of the states of recorders. It is the contract of a function that does nothing.

ghost use Rattle.std.specs.Prelude.{ℕ, List};
ghost use Rattle.fdr_record.specs.declared.event.Event.{Event};
ghost use Rattle.call_trie.specs.TrieLaws.{FirstExcessDecides, StaysLive};

/// The state after events is what is too much after the fewest first events after which anything is.
/// If nothing is too much after any of the first events, the state is `Live`.
pub fn the_first_excess_decides_the_state()
    ensures decides { (room : ℕ) (events : List Event) → FirstExcessDecides room events }
    ensures live { (room : ℕ) (events : List Event) → StaysLive room events }
{}
