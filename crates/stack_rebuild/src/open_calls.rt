//! The open calls of a thread.

ghost use Rattle.std.specs.Prelude.{◌≡◌, ◌<◌, ◌++◌, [], ◌∷◌, reverse, length, IfOk, OnOk, MatchOption, IsTrue, count_by, nat_lt};
ghost use Rattle.stack_rebuild.specs.Calls.{from_innermost};
ghost use Rattle.stack_rebuild.specs.private.Counts.{is_of};

use crate::call::Call;
use crate::counts::{count_down, count_of, count_up};
use std::alloc::Global;
use std::collections::HashMap;
use std::marker::Model;
use xray_io::NoMemory;

/// The open calls of a thread. In contracts they are a list, outermost first.
///
/// Most exits end the innermost call. So the calls of each function are counted only when an exit
/// is of another function than the innermost call. Whether any call of it is open is then seen
/// without a search.
#[derive(Drop)]
pub(crate) struct OpenCalls {
    calls: Vec<Call>,
    /// How many calls are counted, from the outermost on.
    counted: usize,
    /// How many of the counted calls are of each function.
    counts: HashMap<u32, usize>,
}

impl Model for OpenCalls {
    ghost use Rattle.std.specs.Prelude.{List};
    ghost use Rattle.stack_rebuild.specs.declared.call.Call.{Call};

    ghost Value = { List Call };

    ghost use Rattle.stack_rebuild.specs.private.OpenCalls.{calls_in, IsCounted};

    ghost view = { calls_in };

    ghost invariant = { IsCounted };
}

impl OpenCalls {
    /// No call.
    pub(crate) fn new(alloc: Global) -> OpenCalls
        ensures { result ≡ [] }
    {
        OpenCalls {
            calls: Vec::new(alloc),
            counted: 0,
            counts: HashMap::new(alloc),
        }
    }

    /// How many calls are open.
    pub(crate) fn depth(&self) -> usize
        ensures { result ≡ length self.now }
    {
        self.calls.len()
    }

    /// Opens a call inside the open ones.
    pub(crate) fn open_call(&mut self, call: Call) -> Result<(), NoMemory>
        ensures { OnOk result (self.new ≡ self.old ++ call ∷ []) }
    {
        self.calls.push(call)?;
        Ok(())
    }

    /// Ends the innermost open call of a function, and all calls that were made in it.
    #[inline(always)]
    pub(crate) fn end_call(&mut self, func: u32) -> Result<Option<Call>, NoMemory>
        ensures { IfOk result (λ ended. MatchOption ended
            ((from_innermost func (reverse self.old) ≡ []) × (self.new ≡ self.old))
            (λ call. from_innermost func (reverse self.old) ≡ call ∷ reverse self.new)) }
    {
        if self.is_innermost(func) {
            return Ok(self.end_innermost());
        }
        if !self.has_open(func)? {
            return Ok(None);
        }
        Ok(self.end_calls_to(func))
    }

    /// Whether the innermost open call is of a function.
    fn is_innermost(&self, func: u32) -> bool
        ensures { IsTrue result → from_innermost func (reverse self.now) ≡ reverse self.now }
    {
        match self.calls.last() {
            Some(call) => call.func == func,
            None => false,
        }
    }

    /// Ends the innermost call.
    #[inline(always)]
    fn end_innermost(&mut self) -> Option<Call>
        ensures { MatchOption result ((self.old ≡ []) × (self.new ≡ []))
            (λ call. self.old ≡ self.new ++ call ∷ []) }
    {
        let call = self.calls.pop()?;
        if self.calls.len() < self.counted {
            count_down(&mut self.counts, call.func);
            self.counted -= 1;
        }
        Some(call)
    }

    /// Ends the innermost calls, up to one of a function.
    #[inline(never)]
    fn end_calls_to(&mut self, func: u32) -> Option<Call>
        requires { 0 < count_by (is_of func) self.old }
        ensures { MatchOption result ⊥
            (λ call. from_innermost func (reverse self.old) ≡ call ∷ reverse self.new) }
    {
        'ending: while let Some(call) = self.end_innermost() {
            if call.func == func {
                return Some(call);
            }
        }
        None
    }

    /// Whether a call of a function is open. Counts the calls that aren't counted.
    #[inline(never)]
    fn has_open(&mut self, func: u32) -> Result<bool, NoMemory>
        ensures found { IfOk result (λ is. is ≡ nat_lt 0 (count_by (is_of func) self.old)) }
        ensures same { self.new ≡ self.old }
    {
        'counting: while let Some(call) = self.calls.get(self.counted) {
            count_up(&mut self.counts, call.func)?;
            self.counted += 1;
        }
        Ok(count_of(&self.counts, func) > 0)
    }
}
