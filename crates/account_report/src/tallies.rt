//! What is kept of all functions while events are taken.

ghost use Rattle.std.specs.{Prelude.{◌≡◌, ◌≤◌, ◌<◌, ◌==◌, ◌&&◌, ◌||◌, ◌++◌, ℕ, [], length, map, nat_eq, nat_le, IsPermutation, is_some, if◌then◌else◌, IfOk, OnOk}, HashMap.{IsUnique, get}};
ghost use Rattle.account_report.specs.private.Tallies.{durations_in, first_entries, row_of_entry, tally_tabled, tally_listed, with_event};
ghost use Rattle.account_report.specs.private.AllTallies.{AreTallies, entries_in, tally_in};

use crate::row::AccountRow;
use crate::tally::Tally;
use fdr_record::Event;
use stack_rebuild::Pair;
use std::alloc::Global;
use std::collections::HashMap;
use xray_io::NoMemory;

/// Functions with ids below this are found by their ids, without a search.
pub(crate) const FEW: u32 = 4_096;

/// What is kept of all functions.
#[derive(Drop)]
pub(crate) struct Tallies {
    /// The functions with ids below `FEW`, by their ids, up to the highest that had an event.
    first: Vec<Tally>,
    /// The other functions that had an event.
    others: HashMap<u32, Tally>,
}

impl Tallies {
    /// No function.
    pub(crate) fn new(alloc: Global) -> Tallies
        ensures { AreTallies result [] }
    {
        Tallies {
            first: Vec::new(alloc),
            others: HashMap::new(alloc),
        }
    }

    /// Takes one more event, and the pair that it makes.
    #[inline(always)]
    pub(crate) fn add(
        &mut self,
        alloc: Global,
        event: &Event,
        pair: &Option<Pair>,
    ) -> Result<(), NoMemory>
        ensures tallied { OnOk result ((func : ℕ) → tally_in self.new func
            ≡ (if event.now.func == func
            then with_event event.now.kind (durations_in pair.now) (tally_in self.old func)
            else tally_in self.old func)) }
        ensures few { OnOk result (length self.old.first.items ≤ FEW
            → length self.new.first.items ≤ FEW) }
        ensures present { OnOk result ((func : ℕ) → is_some (get nat_eq self.new.others func)
            ≡ ((nat_le FEW func && (event.now.func == func))
            || is_some (get nat_eq self.old.others func))) }
    {
        if event.func < FEW {
            add_first(alloc, &mut self.first, event, pair)?;
            return Ok(());
        }
        add_other(alloc, &mut self.others, event, pair)?;
        Ok(())
    }

    /// A row for each function that had an event, in any order.
    pub(crate) fn into_rows(self, alloc: Global) -> Result<Vec<AccountRow>, NoMemory>
        ensures rows { IfOk result (λ rows.
            IsPermutation (map row_of_entry (entries_in self)) rows.items) }
        ensures unique { IsUnique nat_eq self.others }
    {
        let Tallies { first, others } = self;
        let mut rows = Vec::with_capacity(alloc, others.len())?;
        'others: for (func, tally) in others {
            rows.push(tally.into_row(func))?;
        }
        add_rows(&mut rows, first)?;
        Ok(rows)
    }
}

/// Adds the rows of the functions of a list that had an event.
fn add_rows(rows: &mut Vec<AccountRow>, mut first: Vec<Tally>) -> Result<(), NoMemory>
    ensures { OnOk result (IsPermutation
        (map row_of_entry (first_entries 0 first.items) ++ rows.old.items) rows.new.items) }
{
    'adding: while let Some(tally) = first.pop() {
        if tally.has_events() {
            rows.push(tally.into_row(id_at(first.len())?))?;
        }
    }
    Ok(())
}

/// The id of the function at a place of a list. No list has more functions than there are ids.
fn id_at(place: usize) -> Result<u32, NoMemory>
    ensures { IfOk result (λ id. id ≡ place) }
{
    match u32::try_from(place) {
        Ok(id) => Ok(id),
        Err(_) => Err(NoMemory),
    }
}

/// Takes an event of a function with an id below `FEW`.
#[inline(always)]
fn add_first(
    alloc: Global,
    first: &mut Vec<Tally>,
    event: &Event,
    pair: &Option<Pair>,
) -> Result<(), NoMemory>
    requires { event.now.func < FEW }
    ensures tallied { OnOk result ((func : ℕ) → tally_listed first.new.items func
        ≡ (if event.now.func == func
        then with_event event.now.kind (durations_in pair.now) (tally_listed first.old.items func)
        else tally_listed first.old.items func)) }
    ensures few { OnOk result (length first.old.items ≤ FEW → length first.new.items ≤ FEW) }
{
    let at = event.func as usize;
    reach(alloc, first, at)?;
    first[at].add(event.kind, pair)?;
    Ok(())
}

/// Adds functions without an event up to this id.
fn reach(alloc: Global, first: &mut Vec<Tally>, at: usize) -> Result<(), NoMemory>
    requires { at < FEW }
    ensures same { OnOk result ((func : ℕ) → tally_listed first.new.items func
        ≡ tally_listed first.old.items func) }
    ensures there { OnOk result (at < length first.new.items) }
    ensures few { OnOk result (length first.old.items ≤ FEW → length first.new.items ≤ FEW) }
{
    'reaching: while first.len() <= at {
        first.push(Tally::new(alloc))?;
    }
    Ok(())
}

/// Takes an event of a function of the table.
#[inline(never)]
fn add_other(
    alloc: Global,
    others: &mut HashMap<u32, Tally>,
    event: &Event,
    pair: &Option<Pair>,
) -> Result<(), NoMemory>
    ensures tallied { OnOk result ((func : ℕ) → tally_tabled others.new func
        ≡ (if event.now.func == func
        then with_event event.now.kind (durations_in pair.now) (tally_tabled others.old func)
        else tally_tabled others.old func)) }
    ensures present { OnOk result ((func : ℕ) → is_some (get nat_eq others.new func)
        ≡ ((event.now.func == func) || is_some (get nat_eq others.old func))) }
{
    match others.get_mut(&event.func) {
        Some(tally) => tally.add(event.kind, pair),
        None => {
            let mut tally = Tally::new(alloc);
            tally.add(event.kind, pair)?;
            others.insert(event.func, tally)?;
            Ok(())
        }
    }
}
