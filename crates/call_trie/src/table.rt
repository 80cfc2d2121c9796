//! Where the steps of a trie are found.

ghost use Rattle.std.specs.Prelude.{◌≡◌, ◌≤◌, ◌<◌, ◌+◌, ◌-◌, ◌^◌, ◌++◌, [], ◌∷◌, length, IfOk, MatchOption, slice_index_or};
ghost use Rattle.call_trie.specs.private.Chains.{AreChained, HasNone, IsNumberOf, bucket_in};

use std::alloc::{AllocError, Global};
use std::marker::Model;

/// How many buckets there are for each step that a table has room for.
const BUCKETS_PER_STEP: usize = 2;

/// An odd number by which the number of a path is multiplied, before the function is added. With this
/// one and the next, steps are spread over buckets about as if by chance: see the numbers in this
/// crate's README.
const PARENT_FACTOR: u64 = 0xB3CC_92D2_C080_C6B5;

/// An odd number by which the mixture of both is multiplied.
const STEP_FACTOR: u64 = 0x5399_EAB9_6E03_949D;

/// A step from one path to a longer one.
#[derive(Clone, Copy, PartialEq, Eq)]
pub(crate) struct Step {
    /// The number of the path without its last function.
    pub(crate) parent: u32,
    /// The id of the last function.
    pub(crate) func: u32,
}

/// Steps with their numbers, from 1 on, in the order in which they were added. All memory is taken
/// when the table is made. In contracts it is a list of steps, and for how many it has room.
///
/// The steps are spread over buckets. The steps of a bucket are chained from the latest one to the
/// first, by their numbers. 0 is the number of no step, and ends a chain.
#[derive(Drop)]
pub(crate) struct Table {
    room: u32,
    /// The steps, by their numbers.
    steps: Vec<Step>,
    /// For each step the number of the latest one before it in its bucket.
    before: Vec<u32>,
    /// For each bucket the number of its latest step.
    latest: Vec<u32>,
}

impl Model for Table {
    ghost use Rattle.call_trie.specs.private.Chains.{Steps};
    ghost use Rattle.call_trie.specs.private.Tables.{IsTable, steps_in};

    ghost Value = { Steps };

    ghost view = { steps_in };

    ghost invariant = { IsTable };
}

/// The bucket of a step, of so many buckets.
#[tactic(auto, unfolding(crate::specs::private::Chains::bucket_in))]
fn bucket_of(buckets: usize, step: Step) -> usize
    requires { (0 < buckets) × (buckets < 2 ^ 32) }
    ensures is { result ≡ bucket_in buckets step }
    ensures within { result < buckets }
{
    let both = u64::from(step.parent)
        .wrapping_mul(PARENT_FACTOR)
        .wrapping_add(u64::from(step.func));
    let mixed = (both ^ (both >> 32)).wrapping_mul(STEP_FACTOR);
    let part = mixed >> 32;
    let scaled = part * buckets as u64;
    (scaled >> 32) as usize
}

/// The number of a step among the steps of its bucket.
fn number_in(steps: &[Step], before: &[u32], latest: &[u32], step: Step) -> Option<u32>
    requires chained { AreChained (length latest.now) steps.now before.now latest.now }
    requires buckets { (0 < length latest.now) × (length latest.now < 2 ^ 32) }
    ensures { MatchOption result (HasNone steps.now step) (IsNumberOf steps.now step) }
{
    let mut number = latest[bucket_of(latest.len(), step)];
    'walking: while number > 0 {
        let place = number as usize - 1;
        if steps[place] == step {
            return Some(number);
        }
        number = before[place];
    }
    None
}

impl Table {
    /// A table without a step, and with room for so many.
    pub(crate) fn new(alloc: Global, room: u32) -> Result<Table, AllocError>
        requires { (0 < room) × (room ≤ 262144) }
        ensures { IfOk result (λ table. table ≡ record { room = room; steps = [] }) }
    {
        let steps = Vec::with_capacity(alloc, room as usize)?;
        let before = Vec::with_capacity(alloc, room as usize)?;
        let latest = vec![in alloc; 0; BUCKETS_PER_STEP * room as usize]?;
        Ok(Table {
            room,
            steps,
            before,
            latest,
        })
    }

    /// How many steps there are.
    pub(crate) fn len(&self) -> u32
        ensures count { result ≡ length self.now.steps }
        ensures few { result ≤ self.now.room }
    {
        self.steps.len() as u32
    }

    /// For how many steps there is room.
    pub(crate) fn room(&self) -> u32
        ensures { result ≡ self.now.room }
    {
        self.room
    }

    /// The step with this number.
    pub(crate) fn step(&self, number: u32) -> Step
        requires { (0 < number) × (number ≤ length self.now.steps) }
        ensures { IsNumberOf self.now.steps result number }
    {
        self.steps[number as usize - 1]
    }

    /// The number of a step.
    pub(crate) fn find(&self, step: Step) -> Option<u32>
        ensures { MatchOption result (HasNone self.now.steps step)
            (IsNumberOf self.now.steps step) }
    {
        number_in(&self.steps, &self.before, &self.latest, step)
    }

    /// Adds a step, and returns its number.
    pub(crate) fn add(&mut self, step: Step) -> u32
        requires { length self.old.steps < self.old.room }
        ensures added { self.new
            ≡ record { room = self.old.room; steps = self.old.steps ++ step ∷ [] } }
        ensures number { result ≡ length self.old.steps + 1 }
    {
        let bucket = bucket_of(self.latest.len(), step);
        let number = self.steps.len() as u32 + 1;
        self.before.push_reserved(self.latest[bucket]);
        self.steps.push_reserved(step);
        self.latest[bucket] = number;
        number
    }
}
