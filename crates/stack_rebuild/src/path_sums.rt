//! The paths so far, and the sums over the pairs of each.

ghost use Rattle.std.specs.Prelude.{◌≡◌, ◌<◌, ◌++◌, ℕ, List, [], ◌∷◌, length, IfOk, IfSome, IsPermutation, MatchOption, OnErr, OnOk, slice_index_or};
ghost use Rattle.std.specs.List.{range_with_len};
ghost use Rattle.stack_rebuild.specs.private.Links.{entered_link};
ghost use Rattle.stack_rebuild.specs.private.PathNumbers.{number_in, path_by};
ghost use Rattle.stack_rebuild.specs.PathSums.{AreOfPath, AreSums, HasNumber, no_tally, path_at};
ghost use Rattle.stack_rebuild.specs.Stacks.{Timed};

use crate::links::Link;
use crate::node::{Node, Step, add_pair, add_pairs, depth_of, link, links_of, plant, tally_of};
use crate::path_order::in_order;
use crate::tally::Tally;
use std::alloc::Global;
use std::collections::HashMap;
use std::marker::Model;
use xray_io::NoMemory;

/// The paths so far, each with a number and a tally. The empty path has number 0. In contracts they
/// are a list of paths and a list of tallies, both by the numbers.
///
/// They form a tree. A path is its last function, and the number of the path before that. The empty
/// path is put there with the first other path, so that no memory is taken before. Numbers are less
/// than 2^32.
#[derive(Drop)]
pub struct PathSums {
    /// The paths, by their numbers.
    nodes: Vec<Node>,
    /// The numbers of the paths by their steps, without those that links lead to.
    numbers: HashMap<Step, u32>,
}

/// Enters the number of a linked path in the table, since another path is to take the place of the link.
fn enter(numbers: &mut HashMap<Step, u32>, parent: u32, link: Link) -> Result<(), NoMemory>
    ensures entered { OnOk result ((other : Step) → number_in numbers.new other
        ≡ entered_link parent link numbers.old other) }
    ensures same { OnErr result ((other : Step) → number_in numbers.new other ≡ number_in numbers.old other) }
{
    if link.number == 0 {
        return Ok(());
    }
    let step = Step {
        parent,
        func: link.func,
    };
    numbers.insert(step, link.number)?;
    Ok(())
}

impl Model for PathSums {
    ghost use Rattle.stack_rebuild.specs.PathSums.{Summed};

    ghost Value = { Summed };

    ghost use Rattle.stack_rebuild.specs.private.PathTree.{summed_in, IsTree};

    ghost view = { summed_in };

    ghost invariant = { IsTree };
}

impl PathSums {
    /// Only the empty path, and no pairs.
    pub fn new(alloc: Global) -> PathSums
        ensures { AreSums result.paths result.tallies [] }
    {
        PathSums {
            nodes: Vec::new(alloc),
            numbers: HashMap::new(alloc),
        }
    }

    /// The number of a path with one more function. `parent` is the number of the path without it.
    /// `NoMemory` means that an allocation was refused, or that there are 2^32 paths. The sums are
    /// then as they were.
    #[inline(always)]
    pub fn number_of(&mut self, parent: usize, func: u32) -> Result<usize, NoMemory>
        requires { parent < length self.old.paths }
        ensures number { IfOk result (λ n.
            HasNumber (path_at self.old.paths parent ++ func ∷ []) n self.old.paths self.new.paths) }
        ensures sums { OnOk result ((pairs : List Timed)
            → AreSums self.old.paths self.old.tallies pairs
            → AreSums self.new.paths self.new.tallies pairs) }
    {
        let Ok(parent) = u32::try_from(parent) else {
            return Err(NoMemory);
        };
        let step = Step { parent, func };
        match self.linked(step) {
            Some(number) => Ok(number),
            None => self.number_of_step(step),
        }
    }

    /// The number of a step's path, if a link leads to it.
    #[inline(always)]
    fn linked(&self, step: Step) -> Option<usize>
        ensures { IfSome result (λ n.
            HasNumber (path_by self.now.paths step) n self.now.paths self.now.paths) }
    {
        let number = links_of(&self.nodes, step.parent).to(step.func)?;
        Some(number as usize)
    }

    /// The number of a step's path, if it has one.
    fn found(&self, step: Step) -> Option<usize>
        requires { step.parent < length self.now.paths }
        ensures { MatchOption result
            ((n : ℕ) → n < length self.now.paths
            → path_at self.now.paths n ≡ path_by self.now.paths step → ⊥)
            (λ n. HasNumber (path_by self.now.paths step) n self.now.paths self.now.paths) }
    {
        let links = links_of(&self.nodes, step.parent);
        match links.to(step.func) {
            Some(number) => Some(number as usize),
            None => {
                if links.before.number == 0 {
                    return None;
                }
                let number = self.numbers.get(&step)?;
                Some(*number as usize)
            }
        }
    }

    /// The number of a step's path.
    #[inline(never)]
    fn number_of_step(&mut self, step: Step) -> Result<usize, NoMemory>
        requires { step.parent < length self.old.paths }
        ensures number { IfOk result (λ n.
            HasNumber (path_by self.old.paths step) n self.old.paths self.new.paths) }
        ensures sums { OnOk result ((pairs : List Timed)
            → AreSums self.old.paths self.old.tallies pairs
            → AreSums self.new.paths self.new.tallies pairs) }
    {
        match self.found(step) {
            Some(number) => Ok(number),
            None => self.add_path(step),
        }
    }

    /// Gives a number to a path that has none.
    fn add_path(&mut self, step: Step) -> Result<usize, NoMemory>
        requires parent { step.parent < length self.old.paths }
        requires absent { (n : ℕ) → n < length self.old.paths
            → path_at self.old.paths n ≡ path_by self.old.paths step → ⊥ }
        ensures number { IfOk result (λ n.
            HasNumber (path_by self.old.paths step) n self.old.paths self.new.paths) }
        ensures sums { OnOk result ((pairs : List Timed)
            → AreSums self.old.paths self.old.tallies pairs
            → AreSums self.new.paths self.new.tallies pairs) }
    {
        plant(&mut self.nodes)?;
        let Ok(number) = u32::try_from(self.nodes.len()) else {
            return Err(NoMemory);
        };
        let before = links_of(&self.nodes, step.parent).before;
        enter(&mut self.numbers, step.parent, before)?;
        let node = Node::after(&self.nodes, step);
        self.nodes.push(node)?;
        let func = step.func;
        link(&mut self.nodes, step.parent, Link { number, func });
        Ok(number as usize)
    }

    /// One more pair of a path with this number.
    pub(crate) fn add(&mut self, number: usize, duration: u64, own: u128) -> Result<(), NoMemory>
        ensures paths { self.new.paths ≡ self.old.paths }
        ensures sums { OnOk result ((pairs : List Timed)
            → AreSums self.old.paths self.old.tallies pairs
            → number < length self.old.paths
            → AreSums self.new.paths self.new.tallies (pairs ++ record {
              path = path_at self.old.paths number;
              duration = duration;
              own = own;
            } ∷ [])) }
    {
        plant(&mut self.nodes)?;
        add_pair(&mut self.nodes, number, duration, own)
    }

    /// Adds what some pairs say of the path with this number. All of them have this path. `NoMemory`
    /// means that an allocation was refused, or that a sum passes its type. After it no clause says
    /// what the sums are.
    pub fn add_tally(&mut self, number: usize, tally: &Tally) -> Result<(), NoMemory>
        requires { number < length self.old.paths }
        ensures paths { self.new.paths ≡ self.old.paths }
        ensures sums { OnOk result ((pairs more : List Timed)
            → AreSums self.old.paths self.old.tallies pairs
            → AreOfPath (path_at self.old.paths number) tally.now more
            → AreSums self.new.paths self.new.tallies (pairs ++ more)) }
    {
        plant(&mut self.nodes)?;
        add_pairs(&mut self.nodes, number, tally)
    }

    /// The tally of the path with this number.
    pub(crate) fn tally(&self, number: usize) -> Tally
        ensures { result ≡ slice_index_or self.now.tallies number no_tally }
    {
        tally_of(&self.nodes, number)
    }

    /// The path with this number.
    pub(crate) fn path(&self, alloc: Global, number: usize) -> Result<Vec<u32>, NoMemory>
        requires { number < length self.now.paths }
        ensures { IfOk result (λ path. path.items ≡ path_at self.now.paths number) }
    {
        let mut path = Vec::with_capacity(alloc, depth_of(&self.nodes, number) as usize)?;
        let mut number = number;
        'climbing: while number > 0 {
            let step = self.step_to(number);
            path.push(step.func)?;
            number = step.parent as usize;
        }
        path.reverse();
        Ok(path)
    }

    /// The step that leads to the path with this number.
    fn step_to(&self, number: usize) -> Step
        requires some { 0 < number }
        requires within { number < length self.now.paths }
        ensures climbs { result.parent < number }
        ensures path { path_at self.now.paths number ≡ path_by self.now.paths result }
    {
        self.nodes[number].step()
    }

    /// The numbers of all paths, each once.
    pub(crate) fn order(&mut self, alloc: Global) -> Result<Vec<u32>, NoMemory>
        ensures order { IfOk result (λ order.
            IsPermutation (range_with_len 0 (length self.old.paths)) order.items) }
        ensures same { self.new ≡ self.old }
    {
        plant(&mut self.nodes)?;
        in_order(alloc, &self.nodes)
    }
}
