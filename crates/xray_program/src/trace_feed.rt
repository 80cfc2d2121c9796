//! A trace that is taken piece by piece.
ghost use Rattle.std.specs.Prelude.{◌≡◌, ℕ, List, [], Ok, Err, IfErr, IfOk};
ghost use Rattle.fdr_file.specs.declared.trace.Trace.{Trace};
ghost use Rattle.fdr_file.specs.Traces.{trace_of};
ghost use Rattle.xray_program.specs.private.TraceFeeds.{IsTraceFed};

use fdr_file::{Header, Taker, TraceFault, TraceScan};
use xray_io::{Feed, NoMemory};

/// A trace that is scanned piece by piece, and what takes its blocks and events.
#[derive(Drop)]
pub(crate) struct TraceFeed<K> {
    scan: TraceScan,
    taker: K,
}

impl<K: Taker + Drop> TraceFeed<K> {
    /// Before the first piece. The taker took no block.
    pub(crate) fn new(taker: K) -> TraceFeed<K>
        requires { K.took taker [] }
        ensures { IsTraceFed K.took result [] }
    {
        TraceFeed {
            scan: TraceScan::new(),
            taker,
        }
    }

    /// The taker, which took all blocks of the trace. The answer is an error if the bytes aren't a
    /// trace.
    pub(crate) fn finish(self) -> Result<K, TraceFault>
        ensures takes { IfOk result (λ taker. (bytes : List ℕ) → IsTraceFed K.took self bytes →
            (trace : Trace) × K.took taker trace.blocks × (trace_of bytes ≡ Ok trace)) }
        ensures faults { IfErr result (λ fault. (bytes : List ℕ) → IsTraceFed K.took self bytes →
            trace_of bytes ≡ Err fault) }
    {
        match self.scan.finish() {
            Ok(_) => Ok(self.taker),
            Err(fault) => Err(fault),
        }
    }

    /// The trace's header, and the taker, which took all blocks of the trace. The answer is an error
    /// if the bytes aren't a trace.
    pub(crate) fn finish_with_header(self) -> Result<(Header, K), TraceFault>
        ensures takes { IfOk result (λ taken. (bytes : List ℕ) → IsTraceFed K.took self bytes →
            (trace : Trace) × (taken.0 ≡ trace.header) × K.took taken.1 trace.blocks
            × (trace_of bytes ≡ Ok trace)) }
        ensures faults { IfErr result (λ fault. (bytes : List ℕ) → IsTraceFed K.took self bytes →
            trace_of bytes ≡ Err fault) }
    {
        match self.scan.finish() {
            Ok(header) => Ok((header, self.taker)),
            Err(fault) => Err(fault),
        }
    }
}

impl<K: Taker> Feed for TraceFeed<K> {
    ghost fed = { IsTraceFed K.took };

    fn feed(&mut self, piece: &[u8]) -> Result<(), NoMemory> {
        self.scan.feed(piece, &mut self.taker)
    }
}
