//! The tree of paths.

ghost use Rattle.std.specs.Prelude.{◌≡◌, ◌<◌, length, map, OnOk, slice_index_or, slice_set};
ghost use Rattle.stack_rebuild.specs.private.Links.{links_by, no_links, with_link};
ghost use Rattle.stack_rebuild.specs.private.PathTree.{all_links, depth_in, links_in, sibling_in, step_of, steps_in, tallies_in, tally_in};
ghost use Rattle.stack_rebuild.specs.PathSums.{both_tallies, no_tally, with_pair};

use crate::links::{Link, Links};
use crate::tally::Tally;
use xray_io::NoMemory;

/// A step from one path to a longer one: the number of the path, and the function that it goes on
/// with.
#[derive(Clone, Copy, PartialEq, Eq, Hash)]
pub(crate) struct Step {
    /// The number of the path without its last function.
    pub(crate) parent: u32,
    /// The id of the function.
    pub(crate) func: u32,
}

/// A path and its tally. The next sibling and the depth only save time.
#[derive(Clone, Copy)]
pub(crate) struct Node {
    /// The step that leads to the path.
    step: Step,
    /// The path that was the latest one with the same parent before this one, or 0 if there is none.
    sibling: u32,
    /// How many functions the path has.
    depth: u32,
    /// The paths that go on from it.
    links: Links,
    /// Its tally. As fields, these take 16 bytes fewer than a `Tally`, which ends at a multiple of 16.
    count: u64,
    sum: u128,
    own: u128,
}

impl Node {
    /// The empty path, without a pair. No step leads to it.
    pub(crate) fn empty() -> Node
        ensures links { result.links ≡ no_links }
        ensures tally { tally_in result ≡ no_tally }
    {
        Node {
            step: Step { parent: 0, func: 0 },
            sibling: 0,
            depth: 0,
            links: Links::none(),
            count: 0,
            sum: 0,
            own: 0,
        }
    }

    /// The path of a step, without a pair.
    pub(crate) fn after(nodes: &[Node], step: Step) -> Node
        ensures step { step_of result ≡ step }
        ensures links { result.links ≡ no_links }
        ensures tally { tally_in result ≡ no_tally }
    {
        Node {
            step,
            sibling: links_of(nodes, step.parent).latest.number,
            depth: depth_of(nodes, step.parent as usize).saturating_add(1),
            links: Links::none(),
            count: 0,
            sum: 0,
            own: 0,
        }
    }

    /// The step that leads to the path.
    pub(crate) fn step(&self) -> Step
        ensures { result ≡ step_of self.now }
    {
        self.step
    }

    /// The tally of the path.
    fn tally(&self) -> Tally
        ensures { result ≡ tally_in self.now }
    {
        Tally {
            count: self.count,
            sum: self.sum,
            own: self.own,
        }
    }

    /// One more pair of the path.
    #[inline(always)]
    fn add(&mut self, duration: u64, own: u128) -> Result<(), NoMemory>
        ensures step { step_of self.new ≡ step_of self.old }
        ensures links { links_in self.new ≡ links_in self.old }
        ensures tally { OnOk result (tally_in self.new ≡ with_pair duration own (tally_in self.old)) }
    {
        let mut tally = self.tally();
        tally.add(duration, own)?;
        self.count = tally.count;
        self.sum = tally.sum;
        self.own = tally.own;
        Ok(())
    }

    /// More pairs of the path.
    fn add_all(&mut self, more: &Tally) -> Result<(), NoMemory>
        ensures step { step_of self.new ≡ step_of self.old }
        ensures links { links_in self.new ≡ links_in self.old }
        ensures tally { OnOk result (tally_in self.new ≡ both_tallies (tally_in self.old) more.now) }
    {
        let mut tally = self.tally();
        tally.add_all(more)?;
        self.count = tally.count;
        self.sum = tally.sum;
        self.own = tally.own;
        Ok(())
    }
}

/// The paths that go on from the path with this number.
#[inline(always)]
pub(crate) fn links_of(nodes: &[Node], number: u32) -> Links
    ensures { result ≡ links_by (map links_in nodes.now) number }
{
    match nodes.get(number as usize) {
        Some(node) => node.links,
        None => Links::none(),
    }
}

/// The number of the next path with the same parent, or 0.
pub(crate) fn sibling_of(nodes: &[Node], number: u32) -> u32
    ensures { result ≡ slice_index_or (map sibling_in nodes.now) number 0 }
{
    match nodes.get(number as usize) {
        Some(node) => node.sibling,
        None => 0,
    }
}

/// How many functions the path has.
pub(crate) fn depth_of(nodes: &[Node], number: usize) -> u32
    ensures { result ≡ slice_index_or (map depth_in nodes.now) number 0 }
{
    match nodes.get(number) {
        Some(node) => node.depth,
        None => 0,
    }
}

/// Adds the empty path, unless there is a path.
pub(crate) fn plant(nodes: &mut Vec<Node>) -> Result<(), NoMemory>
    ensures some { OnOk result (0 < length nodes.new.items) }
    ensures steps { steps_in nodes.new.items ≡ steps_in nodes.old.items }
    ensures links { all_links nodes.new.items ≡ all_links nodes.old.items }
    ensures tallies { tallies_in nodes.new.items ≡ tallies_in nodes.old.items }
{
    if nodes.is_empty() {
        nodes.push(Node::empty())?;
    }
    Ok(())
}

/// Links a path with its parent, whose number this is.
pub(crate) fn link(nodes: &mut Vec<Node>, parent: u32, link: Link)
    ensures steps { map step_of nodes.new.items ≡ map step_of nodes.old.items }
    ensures links { parent < length nodes.old.items → map links_in nodes.new.items
        ≡ slice_set (map links_in nodes.old.items) parent
        (with_link link (links_by (map links_in nodes.old.items) parent)) }
    ensures tallies { map tally_in nodes.new.items ≡ map tally_in nodes.old.items }
{
    if let Some(node) = nodes.get_mut(parent as usize) {
        node.links = node.links.with(link);
    }
}

/// The tally of the path with this number.
pub(crate) fn tally_of(nodes: &[Node], number: usize) -> Tally
    ensures { result ≡ slice_index_or (map tally_in nodes.now) number no_tally }
{
    match nodes.get(number) {
        Some(node) => node.tally(),
        None => Tally::none(),
    }
}

/// One more pair of the path with this number.
pub(crate) fn add_pair(
    nodes: &mut Vec<Node>,
    number: usize,
    duration: u64,
    own: u128,
) -> Result<(), NoMemory>
    ensures steps { map step_of nodes.new.items ≡ map step_of nodes.old.items }
    ensures links { all_links nodes.new.items ≡ all_links nodes.old.items }
    ensures tallies { OnOk result (number < length nodes.old.items → map tally_in nodes.new.items
        ≡ slice_set (map tally_in nodes.old.items) number
        (with_pair duration own (slice_index_or (map tally_in nodes.old.items) number no_tally))) }
{
    match nodes.get_mut(number) {
        Some(node) => node.add(duration, own),
        None => Ok(()),
    }
}

/// More pairs of the path with this number.
pub(crate) fn add_pairs(nodes: &mut Vec<Node>, number: usize, tally: &Tally) -> Result<(), NoMemory>
    ensures steps { map step_of nodes.new.items ≡ map step_of nodes.old.items }
    ensures links { all_links nodes.new.items ≡ all_links nodes.old.items }
    ensures tallies { OnOk result (number < length nodes.old.items → map tally_in nodes.new.items
        ≡ slice_set (map tally_in nodes.old.items) number
        (both_tallies (slice_index_or (map tally_in nodes.old.items) number no_tally) tally.now)) }
{
    match nodes.get_mut(number) {
        Some(node) => node.add_all(tally),
        None => Ok(()),
    }
}
