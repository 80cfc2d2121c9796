//! A recorder that keeps a call trie.

ghost use Rattle.std.specs.Prelude.{◌≡◌, ◌≤◌, ◌<◌, ◌-◌, ◌^◌, ◌++◌, List, [], ◌∷◌, length, IfOk, OnOk};
ghost use Rattle.fdr_record.specs.declared.event.Event.{Event};
ghost use Rattle.fdr_record.specs.Recordable.{IsRecordable};
ghost use Rattle.stack_rebuild.specs.OpenPaths.{innermost_path};
ghost use Rattle.stack_rebuild.specs.PathSums.{AreSums};
ghost use Rattle.stack_rebuild.specs.Stacks.{Timed, timed_pairs};
ghost use Rattle.call_trie.specs.private.Paths.{HasRoot};

use crate::frames::{Frame, Frames};
use crate::nodes::Nodes;
use crate::state::TrieState;
use fdr_record::{Event, Kind, Recorder};
use stack_rebuild::{MOST_OPEN, PathSums, a_thread_goes_on};
use std::alloc::Global;
use std::marker::Model;
use xray_io::NoMemory;

/// The most nodes that a recorder may have.
pub const MOST_NODES: u32 = 262_144;

/// Records the events of one thread in a call trie: a node for each distinct path on which a function
/// was called, with the sums of a stack report's row. It keeps no event.
///
/// It takes all its memory when it is made: for its nodes, and for 4,096 open calls. If an entry needs
/// more, the recorder stops, and its state says why.
#[derive(Drop)]
pub struct TrieRecorder {
    state: TrieState,
    nodes: Nodes,
    /// The open calls, outermost first.
    frames: Frames,
}

impl Model for TrieRecorder {
    ghost use Rattle.call_trie.specs.Tries.{Trie};

    ghost Value = { Trie };

    ghost use Rattle.call_trie.specs.private.Recorders.{IsTrie, trie_in};

    ghost view = { trie_in };

    ghost invariant = { IsTrie };
}

impl TrieRecorder {
    ghost use Rattle.call_trie.specs.Tries.{StandsFor};
    ghost use Rattle.call_trie.specs.private.Steps.{AreRoomy, Enters, Leaves};

    /// A recorder with so many nodes, which stands for no event. `NoMemory` means that an allocation
    /// was refused.
    pub fn new(alloc: Global, nodes: u32) -> Result<TrieRecorder, NoMemory>
        requires { (1 ≤ nodes) × (nodes ≤ MOST_NODES) }
        ensures room { IfOk result (λ trie. trie.room ≡ nodes) }
        ensures no_events { IfOk result (λ trie. StandsFor trie []) }
    {
        let frames = Frames::new(alloc)?;
        let nodes = Nodes::new(alloc, nodes)?;
        Ok(TrieRecorder {
            state: TrieState::Live,
            nodes,
            frames,
        })
    }

    /// Whether it still takes events.
    pub fn state(&self) -> TrieState
        ensures { result ≡ self.now.state }
    {
        self.state
    }

    /// Takes an entry.
    fn enter(&mut self, func: u32, tsc: u64)
        ensures { let path = innermost_path self.old.calls ++ func ∷ [] in
            Enters (record { func = func; path = path; tsc = tsc; spent = 0 }) self.old self.new }
    {
        if self.frames.len() == MOST_OPEN {
            self.state = TrieState::Deep;
            return;
        }
        match self.nodes.node_of(self.frames.innermost(), func) {
            Some(node) => {
                self.frames.begin(Frame {
                    node,
                    func,
                    tsc,
                    spent: 0,
                });
            }
            None => self.state = TrieState::Full,
        }
    }

    /// Takes an exit or tail exit. It ends the innermost open call of its function, if there is one,
    /// and all calls that were made in that one.
    fn leave(&mut self, func: u32, tsc: u64)
        requires { AreRoomy self.old }
        ensures { Leaves func tsc self.old self.new }
    {
        if let Some(ended) = self.frames.end(func) {
            let duration = tsc.wrapping_sub(ended.tsc);
            let own = u128::from(duration).saturating_sub(ended.spent);
            self.frames.spend(duration);
            self.nodes.add_pair(ended.node, duration, own);
        }
    }

    /// Adds what it says of each path to sums.
    pub(crate) fn add_to(&self, alloc: Global, sums: &mut PathSums) -> Result<(), NoMemory>
        requires live { self.now.state ≡ TrieState.Live }
        requires root { HasRoot sums.old.paths }
        ensures root { OnOk result (HasRoot sums.new.paths) }
        ensures sums { OnOk result ((before : List Timed) (events : List Event)
            → AreSums sums.old.paths sums.old.tallies before → StandsFor self.now events
            → AreSums sums.new.paths sums.new.tallies (before ++ timed_pairs events)) }
    {
        // Called for its contract: the path of each pair has a node.
        a_thread_goes_on();
        self.nodes.add_to(alloc, sums)
    }
}

impl Recorder for TrieRecorder {
    ghost use Rattle.call_trie.specs.Tries.{HasSameRoom, StandsFor, same_along, same_itself};

    ghost stands = { StandsFor };

    ghost follows = { HasSameRoom };

    ghost follows_itself = { same_itself };

    ghost follows_along = { same_along };

    /// Once its state isn't `Live`, it changes nothing.
    fn note(&mut self, event: Event)
        requires recordable { IsRecordable event }
        requires room { (events : List Event) × StandsFor self.old events × (length events < 2 ^ 32 - 1) }
        ensures noted { (events : List Event) → StandsFor self.old events
            → StandsFor self.new (events ++ event ∷ []) }
        ensures follows { HasSameRoom self.old self.new }
        ensures stopped { (self.old.state ≡ TrieState.Live → ⊥) → self.new ≡ self.old }
    {
        // Called for its contract: what one more event changes.
        a_thread_goes_on();
        match self.state {
            TrieState::Live => match event.kind {
                Kind::Entry | Kind::EntryArgs => self.enter(event.func, event.tsc),
                Kind::Exit | Kind::TailExit => self.leave(event.func, event.tsc),
            },
            TrieState::Full | TrieState::Deep => {}
        }
    }
}
