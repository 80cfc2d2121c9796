//! The nodes of a trie: its paths, and what is counted of each.

ghost use Rattle.std.specs.Prelude.{◌≡◌, ◌≤◌, ◌<◌, ◌↔◌, ◌+◌, ◌-◌, ◌^◌, ◌++◌, List, [], ◌∷◌, length, IfOk, IsTrue, MatchOption, OnOk, slice_index_or, slice_set};
ghost use Rattle.stack_rebuild.specs.PathSums.{AreSums, no_tally, path_at, with_pair};
ghost use Rattle.stack_rebuild.specs.Stacks.{Timed};
ghost use Rattle.call_trie.specs.private.Paths.{AreTallies, GetsNode, GetsNone, HasRoot, IsAt, IsNew};
ghost use Rattle.call_trie.specs.private.Steps.{IsRoomy};

use crate::table::{Step, Table};
use stack_rebuild::{PathSums, Tally};
use std::alloc::{AllocError, Global};
use std::marker::Model;
use xray_io::NoMemory;

/// The paths of a trie, each with a number and a tally. The empty path has number 0, and no tally. In
/// contracts they are a list of paths and a list of tallies, both by the numbers, and for how many
/// paths there is room.
///
/// A node is the step to its path and its tally. All memory is taken when the nodes are made.
#[derive(Drop)]
pub(crate) struct Nodes {
    /// The steps to the paths, by their numbers.
    table: Table,
    /// The tallies of the paths; that of number 1 comes first.
    tallies: Vec<Tally>,
}

impl Model for Nodes {
    ghost use Rattle.call_trie.specs.private.Paths.{Numbered};
    ghost use Rattle.call_trie.specs.private.Nodes.{AreNodes, numbered_in};

    ghost Value = { Numbered };

    ghost view = { numbered_in };

    ghost invariant = { AreNodes };
}

impl Nodes {
    /// Only the empty path, with room for so many more.
    pub(crate) fn new(alloc: Global, room: u32) -> Result<Nodes, AllocError>
        requires { (0 < room) × (room ≤ 262144) }
        ensures { IfOk result (λ nodes.
            nodes ≡ record { room = room; paths = [] ∷ []; tallies = [] }) }
    {
        let table = Table::new(alloc, room)?;
        let tallies = Vec::with_capacity(alloc, room as usize)?;
        Ok(Nodes { table, tallies })
    }

    /// Whether there is a node for each path that there is room for.
    pub(crate) fn is_full(&self) -> bool
        ensures full { IsTrue result ↔ (length self.now.paths ≡ self.now.room + 1) }
        ensures few { length self.now.paths ≤ self.now.room + 1 }
    {
        self.table.len() == self.table.room()
    }

    /// The number of a path with one more function. If the path is new, it gets a node; there is no
    /// number if none is left.
    pub(crate) fn node_of(&mut self, parent: u32, func: u32) -> Option<u32>
        requires { parent < length self.old.paths }
        ensures { let path = path_at self.old.paths parent ++ func ∷ [] in
            MatchOption result (GetsNone path self.old self.new) (GetsNode path self.old self.new) }
    {
        match self.child(parent, func) {
            Some(node) => Some(node),
            None if self.is_full() => None,
            None => Some(self.add(parent, func)),
        }
    }

    /// The number of a path with one more function.
    fn child(&self, parent: u32, func: u32) -> Option<u32>
        requires { parent < length self.now.paths }
        ensures child { MatchOption result
            (IsNew self.now.paths (path_at self.now.paths parent ++ func ∷ []))
            (IsAt self.now.paths (path_at self.now.paths parent ++ func ∷ [])) }
    {
        self.table.find(Step { parent, func })
    }

    /// Adds a node for a path with one more function, and returns its number.
    fn add(&mut self, parent: u32, func: u32) -> u32
        requires parent { parent < length self.old.paths }
        requires absent { IsNew self.old.paths (path_at self.old.paths parent ++ func ∷ []) }
        requires room { length self.old.paths ≤ self.old.room }
        ensures added { self.new ≡ record {
          room = self.old.room;
          paths = self.old.paths ++ (path_at self.old.paths parent ++ func ∷ []) ∷ [];
          tallies = self.old.tallies ++ no_tally ∷ [];
        } }
        ensures number { result ≡ length self.old.paths }
    {
        self.tallies.push_reserved(Tally::none());
        self.table.add(Step { parent, func })
    }

    /// One more pair of the path with this number.
    pub(crate) fn add_pair(&mut self, number: u32, duration: u64, own: u128)
        requires number { (0 < number) × (number < length self.old.paths) }
        requires roomy { IsRoomy (slice_index_or self.old.tallies (number - 1) no_tally) }
        requires own { own ≤ duration }
        ensures { self.new ≡ record self.old {
          tallies = slice_set self.old.tallies (number - 1) (with_pair duration own
              (slice_index_or self.old.tallies (number - 1) no_tally));
        } }
    {
        let tally = &mut self.tallies[number as usize - 1];
        tally.count += 1;
        tally.sum += u128::from(duration);
        tally.own += own;
    }

    /// Adds the tallies of all paths to sums.
    pub(crate) fn add_to(&self, alloc: Global, sums: &mut PathSums) -> Result<(), NoMemory>
        requires { HasRoot sums.old.paths }
        ensures root { OnOk result (HasRoot sums.new.paths) }
        ensures sums { OnOk result ((before pairs : List Timed)
            → AreSums sums.old.paths sums.old.tallies before
            → AreTallies self.now.paths self.now.tallies pairs
            → AreSums sums.new.paths sums.new.tallies (before ++ pairs)) }
    {
        // The number in the sums of each path.
        let mut numbers = Vec::with_capacity(alloc, self.tallies.len())?;
        numbers.push(0)?;
        'adding: for place in 0..self.table.len() {
            let step = self.table.step(place + 1);
            let number = sums.number_of(numbers[step.parent as usize], step.func)?;
            sums.add_tally(number, &self.tallies[place as usize])?;
            numbers.push(number)?;
        }
        Ok(())
    }
}
