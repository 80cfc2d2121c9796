//! The stack of a thread.

ghost use Rattle.std.specs.Prelude.{◌≡◌, ◌≢◌, ◌==◌, [], ◌∷◌, length, IfOk, MatchOption};

use std::alloc::{AllocError, Global};
use std::marker::Model;

/// The most values on a stack.
pub const STACK_LIMIT: usize = 65_536;

/// The values that were pushed, including return addresses, top first. The room has a fixed size.
#[derive(Drop)]
pub(crate) struct Stack {
    values: Vec<u64>,
}

impl Model for Stack {
    ghost use Rattle.std.specs.Prelude.{◌≤◌, ℕ, List, reverse, vec_len, vec_capacity};
    ghost use Rattle.machine_step.specs.declared.stack.TheConstants.{STACK_LIMIT};

    ghost Value = { List ℕ };

    ghost view = { λ s. reverse s.values.items };

    ghost invariant = { λ s.
        (vec_len s.values ≤ STACK_LIMIT) × (STACK_LIMIT ≤ vec_capacity s.values) };
}

impl Stack {
    /// An empty stack.
    pub(crate) fn new(alloc: Global) -> Result<Self, AllocError>
        ensures { IfOk result (λ stack. stack ≡ []) }
    {
        Ok(Stack {
            values: Vec::with_capacity(alloc, STACK_LIMIT)?,
        })
    }

    /// Whether there is no room for another value.
    #[inline]
    pub(crate) fn is_full(&self) -> bool
        ensures { result ≡ (length self.now == STACK_LIMIT) }
    {
        self.values.len() == STACK_LIMIT
    }

    /// Pushes a value.
    #[inline]
    pub(crate) fn push(&mut self, value: u64)
        requires { length self.old ≢ STACK_LIMIT }
        ensures { self.new ≡ value ∷ self.old }
    {
        self.values.push_reserved(value);
    }

    /// Pops the value on top, or returns `None` if there is none.
    #[inline]
    pub(crate) fn pop(&mut self) -> Option<u64>
        ensures { MatchOption result ((self.old ≡ []) × (self.new ≡ []))
            (λ value. self.old ≡ value ∷ self.new) }
    {
        self.values.pop()
    }
}
