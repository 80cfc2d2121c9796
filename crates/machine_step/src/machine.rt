//! A thread between two steps, and what a step does to it.

ghost use Rattle.std.specs.Prelude.{◌≡◌, ◌<◌, ◌+◌, ◌^◌, ◌==◌, ◌&&◌, false, IfOk, IsSome};
ghost use Rattle.machine_step.specs.private.Machine.{first_machine, IsWithin, loading, computing, pushing, popping, returning, putting, going, staying, leaving, passing, acting, stepping};
ghost use Rattle.machine_step.specs.private.Steps.{sled_at, wants_fuel};

use crate::end::End;
use crate::limits::Limits;
use crate::output::Output;
use crate::registers::Registers;
use crate::stack::Stack;
use crate::step::{Step, Way};
use std::alloc::{AllocError, Global};
use subset_decode::Reg;

/// All of a thread except its place.
#[derive(Drop)]
pub(crate) struct Machine {
    pub(crate) registers: Registers,
    pub(crate) zero_flag: bool,
    pub(crate) stack: Stack,
    pub(crate) output: Output,
    pub(crate) instructions: u64,
    pub(crate) passings: u32,
}

impl Machine {
    /// A thread before its first step. Asks for all the room that its steps need.
    pub(crate) fn new(alloc: Global, thread: u32) -> Result<Self, AllocError>
        ensures { IfOk result (λ m. m ≡ first_machine thread) }
    {
        Ok(Machine {
            registers: Registers::new(thread),
            zero_flag: false,
            stack: Stack::new(alloc)?,
            output: Output::new(alloc)?,
            instructions: 0,
            passings: 0,
        })
    }

    /// Makes the step at a place.
    #[inline(always)]
    pub(crate) fn step(&mut self, step: &Step, place: usize, limits: Limits) -> Way
        requires within { IsWithin limits self.old }
        requires place { place + 1 < 2 ^ 64 }
        ensures way { result ≡ (stepping limits place self.old step.now).way }
        ensures left { self.new ≡ (stepping limits place self.old step.now).left }
        ensures within { IsWithin limits self.new }
    {
        if self.lacks_fuel(step, limits.fuel) {
            return Way::Ends(End::Fuel);
        }
        self.act(step, place, limits)
    }

    /// Makes the step of a sled at a place: passes the sled.
    #[inline(always)]
    pub(crate) fn step_over(&mut self, step: &Step, place: usize, limits: Limits) -> Way
        requires within { IsWithin limits self.old }
        requires place { place + 1 < 2 ^ 64 }
        requires sled { IsSome (sled_at step.now) }
        ensures way { result ≡ (stepping limits place self.old step.now).way }
        ensures left { self.new ≡ (stepping limits place self.old step.now).left }
        ensures within { IsWithin limits self.new }
    {
        match *step {
            Step::Passing { .. } => self.pass(place + 1, limits),
            Step::Leaving { .. } => self.leave(limits),
            _ => unreachable!(),
        }
    }

    /// Whether a step is an instruction, with no fuel left for it.
    #[inline]
    fn lacks_fuel(&self, step: &Step, fuel: u64) -> bool
        ensures { result ≡ (wants_fuel step.now && (self.now.instructions == fuel)) }
    {
        self.instructions == fuel && step.wants_fuel()
    }

    /// Makes a step that has the fuel that it wants.
    #[inline(always)]
    fn act(&mut self, step: &Step, place: usize, limits: Limits) -> Way
        requires within { IsWithin limits self.old }
        requires fuel { (wants_fuel step.now && (self.old.instructions == limits.fuel)) ≡ false }
        requires place { place + 1 < 2 ^ 64 }
        ensures way { result ≡ (acting limits place self.old step.now).way }
        ensures left { self.new ≡ (acting limits place self.old step.now).left }
        ensures within { IsWithin limits self.new }
    {
        match *step {
            Step::Mov { dst, imm } => self.set_register(place + 1, dst, u64::from(imm)),
            Step::Add { dst, src } => {
                let sum = self
                    .registers
                    .get(dst)
                    .wrapping_add(self.registers.get(src));
                self.compute(place + 1, dst, sum)
            }
            Step::Sub { dst, src } => {
                let difference = self
                    .registers
                    .get(dst)
                    .wrapping_sub(self.registers.get(src));
                self.compute(place + 1, dst, difference)
            }
            Step::Push { reg } => {
                let value = self.registers.get(reg);
                self.push(place + 1, value)
            }
            Step::Pop { reg } => self.pop(place + 1, reg),
            Step::Call { target, back } => self.push(target as usize, back),
            Step::Jmp { target } => self.go(target as usize),
            Step::Jnz { target } => {
                let next = if self.zero_flag {
                    place + 1
                } else {
                    target as usize
                };
                self.go(next)
            }
            Step::Ret => self.go_back(),
            Step::Out => self.put(place + 1),
            Step::Passing { .. } => self.pass(place + 1, limits),
            Step::Leaving { .. } => self.leave(limits),
            Step::Pad => Way::To(place + 1),
            Step::Nowhere => Way::Ends(End::BadTarget),
        }
    }

    /// Passes a sled that does nothing, if a passing is left.
    #[inline]
    fn pass(&mut self, next: usize, limits: Limits) -> Way
        requires { IsWithin limits self.old }
        ensures way { result ≡ (passing limits self.old (staying next)).way }
        ensures left { self.new ≡ (passing limits self.old (staying next)).left }
        ensures within { IsWithin limits self.new }
    {
        if self.passings == limits.passings {
            return Way::Ends(End::Passings);
        }
        self.passings += 1;
        Way::To(next)
    }

    /// Passes a sled that returns, if a passing is left.
    #[inline]
    fn leave(&mut self, limits: Limits) -> Way
        requires { IsWithin limits self.old }
        ensures way { result ≡ (passing limits self.old (leaving limits)).way }
        ensures left { self.new ≡ (passing limits self.old (leaving limits)).left }
        ensures within { IsWithin limits self.new }
    {
        if self.passings == limits.passings {
            return Way::Ends(End::Passings);
        }
        self.passings += 1;
        if self.instructions == limits.fuel {
            return Way::Ends(End::Fuel);
        }
        self.go_back()
    }

    /// Goes on at a place.
    #[inline]
    fn go(&mut self, place: usize) -> Way
        requires fuel { self.old.instructions + 1 < 2 ^ 64 }
        ensures way { result ≡ (going place self.old).way }
        ensures left { self.new ≡ (going place self.old).left }
    {
        self.instructions += 1;
        Way::To(place)
    }

    /// Gives a register a value, and goes on.
    #[inline]
    fn set_register(&mut self, next: usize, dst: Reg, value: u64) -> Way
        requires fuel { self.old.instructions + 1 < 2 ^ 64 }
        ensures way { result ≡ (loading next dst value self.old).way }
        ensures left { self.new ≡ (loading next dst value self.old).left }
    {
        self.registers.set(dst, value);
        self.go(next)
    }

    /// Gives a register a value that was computed, and sets the zero flag by it.
    #[inline]
    fn compute(&mut self, next: usize, dst: Reg, value: u64) -> Way
        requires fuel { self.old.instructions + 1 < 2 ^ 64 }
        ensures way { result ≡ (computing next dst value self.old).way }
        ensures left { self.new ≡ (computing next dst value self.old).left }
    {
        self.registers.set(dst, value);
        self.zero_flag = value == 0;
        self.go(next)
    }

    /// Pushes a value, if there is room.
    #[inline]
    fn push(&mut self, next: usize, value: u64) -> Way
        requires fuel { self.old.instructions + 1 < 2 ^ 64 }
        ensures way { result ≡ (pushing next value self.old).way }
        ensures left { self.new ≡ (pushing next value self.old).left }
    {
        if self.stack.is_full() {
            return Way::Ends(End::StackFull);
        }
        self.stack.push(value);
        self.go(next)
    }

    /// Pops a value into a register, if there is one.
    #[inline]
    fn pop(&mut self, next: usize, reg: Reg) -> Way
        requires fuel { self.old.instructions + 1 < 2 ^ 64 }
        ensures way { result ≡ (popping next reg self.old self.old.stack).way }
        ensures left { self.new ≡ (popping next reg self.old self.old.stack).left }
    {
        match self.stack.pop() {
            None => Way::Ends(End::StackEmpty),
            Some(value) => self.set_register(next, reg, value),
        }
    }

    /// Returns to the address on top of the stack, or from the thread.
    #[inline]
    fn go_back(&mut self) -> Way
        requires fuel { self.old.instructions + 1 < 2 ^ 64 }
        ensures way { result ≡ (returning self.old self.old.stack).way }
        ensures left { self.new ≡ (returning self.old self.old.stack).left }
    {
        self.instructions += 1;
        match self.stack.pop() {
            None => Way::Ends(End::Returned),
            Some(address) => Way::Back(address),
        }
    }

    /// Outputs AL, if there is room.
    #[inline]
    fn put(&mut self, next: usize) -> Way
        requires fuel { self.old.instructions + 1 < 2 ^ 64 }
        ensures way { result ≡ (putting next self.old).way }
        ensures left { self.new ≡ (putting next self.old).left }
    {
        if self.output.is_full() {
            return Way::Ends(End::OutputFull);
        }
        let byte = self.registers.al();
        self.output.push(byte);
        self.go(next)
    }
}
