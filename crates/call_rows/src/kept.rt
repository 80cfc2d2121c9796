//! The calls of a trace in an order.

ghost use Rattle.std.specs.Prelude.{◌≡◌, ◌≤◌, ◌++◌, [], ◌∷◌, List, Ok, length, reverse, IfOk, IfSome, IsSome, OnOk, OnErr};
ghost use Rattle.xray_io.specs.Faults.{Rose};
ghost use Rattle.fdr_file.specs.declared.trace.{Block.{Block}, Trace.{Trace}};
ghost use Rattle.fdr_file.specs.Scanning.{empty_block, longer_block};
ghost use Rattle.fdr_file.specs.{EventsLeft.{events_left}, Prefixes.{ReadsAsTrace}, Traces.{trace_of}};
ghost use Rattle.call_rows.specs.{CallOrders.{arranged_calls}, CallRows.{call_rows_of, rows_after, wanted_rows}};
ghost use Rattle.call_rows.specs.Keeping.{order_by, kept_filter};
ghost use Rattle.call_rows.specs.private.{FirstRows.{Collects}, Folding.{KeepsCalls}};

use crate::filter::CallFilter;
use crate::fold::CallFold;
use crate::order::{CallOrder, FirstRows};
use crate::row::CallRow;
use fdr_file::{EventCursor, Taker};
use fdr_record::Event;
use std::alloc::Global;
use xray_io::{NoMemory, Wall};

/// Takes blocks and their events, and keeps the first of the calls that are wanted, in an order. If
/// `top` calls are listed, it keeps at most twice as many; otherwise it keeps all.
#[derive(Drop)]
pub struct KeptCalls {
    wanted: CallFilter,
    fold: CallFold,
    /// The thread and the process of the last block.
    thread: u32,
    pid: u32,
    first: FirstRows,
    /// How many times memory was refused.
    refused: u64,
}

impl KeptCalls {
    /// Before the first block.
    pub fn new(alloc: Global, wanted: CallFilter, order: CallOrder) -> KeptCalls
        ensures took { ⟦<KeptCalls as Taker>⟧.took result [] }
        ensures wanted { kept_filter result ≡ wanted }
        ensures order { order_by result ≡ order }
    {
        KeptCalls {
            wanted,
            fold: CallFold::new(alloc),
            thread: 0,
            pid: 0,
            first: FirstRows::new(alloc, order),
            refused: 0,
        }
    }

    /// Which calls are kept.
    pub fn wanted(&self) -> CallFilter
        ensures { result ≡ kept_filter self.now }
    {
        self.wanted
    }

    /// In which order they are listed.
    pub fn order(&self) -> CallOrder
        ensures { result ≡ order_by self.now }
    {
        self.first.order()
    }

    /// The rows of the wanted calls of the blocks that were taken: the first ones in order.
    pub fn rows(self) -> Vec<CallRow>
        ensures { (blocks : List Block) → ⟦<KeptCalls as Taker>⟧.took self blocks
            → result.items
            ≡ arranged_calls (order_by self) (wanted_rows (kept_filter self) (call_rows_of blocks)) }
    {
        self.first.into_rows()
    }

    /// The rows of the calls that are wanted, in this order, of the blocks that were taken. `None` if
    /// others were kept, or in another order.
    pub fn rows_for(self, wanted: &CallFilter, order: &CallOrder) -> Option<Vec<CallRow>>
        ensures rows { IfSome result (λ rows. (blocks : List Block)
            → ⟦<KeptCalls as Taker>⟧.took self blocks
            → rows.items ≡ arranged_calls order.now (wanted_rows wanted.now (call_rows_of blocks))) }
        ensures some { kept_filter self ≡ wanted.now → order_by self ≡ order.now → IsSome result }
    {
        if self.wanted.is_same(wanted) && self.first.order().is_same(order) {
            return Some(self.rows());
        }
        None
    }

    /// Takes an event of the last block.
    #[inline(always)]
    fn add(&mut self, event: &Event) -> Result<(), NoMemory>
        ensures added { OnOk result ((blocks : List Block) (last : Block)
            → KeepsCalls self.old (blocks ++ last ∷ [])
            → KeepsCalls self.new (blocks ++ longer_block last event.now ∷ [])) }
        ensures same { self.new.refused ≡ self.old.refused }
    {
        let row = self.fold.next(self.thread, self.pid, event)?;
        self.first.add_wanted(&self.wanted, &row)
    }
}

/// Counts a refusal, if there is one.
fn counted(refused: u64, answer: Result<(), NoMemory>) -> u64
    ensures rose { OnErr answer (Rose refused result) }
    ensures later { refused ≤ result }
{
    match answer {
        Ok(()) => refused,
        Err(_) => refused.saturating_add(1),
    }
}

impl Taker for KeptCalls {
    ghost took = { KeepsCalls };

    ghost refusals = { λ kept. kept.refused };

    fn block(&mut self, thread: u32, _wall: Wall, pid: u32) -> Result<(), NoMemory> {
        self.thread = thread;
        self.pid = pid;
        Ok(())
    }

    #[inline(always)]
    fn event(&mut self, event: &Event) -> Result<(), NoMemory> {
        let answer = self.add(event);
        self.refused = counted(self.refused, answer);
        answer
    }
}

/// The rows of the wanted calls of the trace that bytes read as: the first ones in order. If `top`
/// calls are listed, at most twice as many are kept on the way; otherwise all are.
///
/// The bytes have to be a trace: `TraceScan` and `read_trace` of `fdr_file` say whether they are.
/// `NoMemory` means that an allocation was refused.
pub fn calls_in_order(
    alloc: Global,
    bytes: &[u8],
    wanted: &CallFilter,
    order: &CallOrder,
) -> Result<Vec<CallRow>, NoMemory>
    requires { ReadsAsTrace bytes.now }
    ensures rows { IfOk result (λ rows. (trace : Trace) → trace_of bytes.now ≡ Ok trace
        → rows.items
        ≡ arranged_calls order.now (wanted_rows wanted.now (call_rows_of trace.blocks))) }
{
    let mut first = FirstRows::new(alloc, *order);
    collect(alloc, &mut EventCursor::new(bytes), wanted, &mut first)?;
    Ok(first.into_rows())
}

/// Takes the calls that the events make that a cursor has still to give.
fn collect(
    alloc: Global,
    cursor: &mut EventCursor,
    wanted: &CallFilter,
    first: &mut FirstRows,
) -> Result<(), NoMemory>
    ensures collects { OnOk result (Collects first.old wanted.now []
        → Collects first.new wanted.now (reverse (events_left cursor.old))) }
    ensures order { first.new.order ≡ first.old.order }
{
    let mut fold = CallFold::new(alloc);
    'calls: while let Some((thread, pid, event)) = cursor.next() {
        let row = fold.next(thread, pid, &event)?;
        first.add_wanted(wanted, &row)?;
    }
    Ok(())
}
