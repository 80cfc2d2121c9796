//! What is kept of each function while events are taken.

ghost use Rattle.std.specs.Prelude.{◌≡◌, ◌+◌, sum, IfOk, OnOk};
ghost use Rattle.account_report.specs.private.Tallies.{durations_in, has_events, no_tally, row_with, with_event};

use crate::ranks::ranks_in;
use crate::row::AccountRow;
use fdr_record::Kind;
use stack_rebuild::Pair;
use std::alloc::Global;
use std::marker::Model;
use xray_io::NoMemory;

/// The durations of a function's pairs, and how many entries and exits it had.
#[derive(Drop)]
pub(crate) struct Tally {
    durations: Vec<u64>,
    entries: u64,
    exits: u64,
}

impl Model for Tally {
    ghost use Rattle.account_report.specs.private.Tallies.{Tallied};

    ghost Value = { Tallied };

    ghost view = { λ t. record {
      durations = t.durations.items;
      entries = t.entries;
      exits = t.exits;
    } };
}

impl Tally {
    /// A function without an event.
    pub(crate) fn new(alloc: Global) -> Tally
        ensures { result ≡ no_tally }
    {
        Tally {
            durations: Vec::new(alloc),
            entries: 0,
            exits: 0,
        }
    }

    /// One more event, and the pair that it makes.
    #[inline(always)]
    pub(crate) fn add(&mut self, kind: Kind, pair: &Option<Pair>) -> Result<(), NoMemory>
        ensures { OnOk result (self.new ≡ with_event kind (durations_in pair.now) self.old) }
    {
        if let Some(pair) = pair {
            self.durations.push(pair.duration)?;
        }
        match kind {
            Kind::Entry | Kind::EntryArgs => self.entries = one_more(self.entries)?,
            Kind::Exit | Kind::TailExit => self.exits = one_more(self.exits)?,
        }
        Ok(())
    }

    /// Whether it had an event.
    pub(crate) fn has_events(&self) -> bool
        ensures { result ≡ has_events self.now }
    {
        self.entries > 0 || self.exits > 0
    }

    /// The row of the function with this id.
    pub(crate) fn into_row(self, func: u32) -> AccountRow
        ensures { result ≡ row_with func self.durations self.entries self.exits }
    {
        let Tally {
            mut durations,
            entries,
            exits,
        } = self;
        row(func, &mut durations, entries, exits)
    }
}

/// The number after a count. No trace in memory reaches a count beyond its type, so `NoMemory` stands
/// for that too.
fn one_more(count: u64) -> Result<u64, NoMemory>
    ensures { IfOk result (λ more. more ≡ count + 1) }
{
    count.checked_add(1).ok_or(NoMemory)
}

/// The row of a function with these durations, in any order, and with these numbers of entries and
/// exits. Each pair has one entry and one exit.
fn row(func: u32, durations: &mut [u64], entries: u64, exits: u64) -> AccountRow
    ensures { result ≡ row_with func durations.old entries exits }
{
    let count = durations.len() as u64;
    let sum = total(durations);
    let ranks = ranks_in(durations);
    AccountRow {
        func,
        count,
        min: ranks.min,
        med: ranks.med,
        p90: ranks.p90,
        p99: ranks.p99,
        max: ranks.max,
        sum,
        entries: entries.saturating_sub(count),
        exits: exits.saturating_sub(count),
    }
}

/// The sum of durations.
fn total(durations: &[u64]) -> u128
    ensures { result ≡ sum durations.now }
{
    durations.iter().map(|duration| u128::from(*duration)).sum()
}
