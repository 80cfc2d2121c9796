//! A traced thread.

ghost use Rattle.std.specs.Prelude.{◌≡◌, ◌<◌, ◌≤◌, ◌↔◌, ◌∷◌, ◌++◌, ℕ, List, [], length, slice_get, slice_index, Some, Option, IsTrue, IsSome, IfOk, IfSome};
ghost use Rattle.sled_words.specs.Words.{state_word};
ghost use Rattle.machine_step.specs.declared.end.End.{End};
ghost use Rattle.machine_step.specs.{PlainStep.{Passing, PlainRun, State}, Loads.{Load}, Setups.{AreLimits}};
ghost use Rattle.machine_step.specs.Events.{events_in, recorded};

use crate::allowed::allows;
use crate::end::End;
use crate::limits::Limits;
use crate::machine::Machine;
use crate::stage::{Next, Stage, after_load, first_stage, word_at};
use crate::stamp::event_at;
use crate::stand::{Stand, pass_sled, run_to_sled};
use crate::steps::Steps;
use crate::underway::Underway;
use crate::want::Want;
use fdr_record::Event;
use handler_word::{Mark, Marks};
use sled_words::MAX_THREADS;
use std::alloc::Global;
use std::marker::Model;
use subset_decode::REGISTERS;
use xray_io::NoMemory;

/// A thread whose sleds may be patched between two of its loads.
///
/// It runs the plain instructions by itself up to the next sled. Then it wants the words of its
/// passing, one load after the other. `want` says what it wants, `opened` lets it into a passing,
/// and `give` gives it a value. Each value has to be one that `allowed` accepts. Then, before each
/// passing, the thread is where its plain run is before the same passing. A patched sled also
/// writes r10, which no instruction names and no text prints.
#[derive(Drop)]
pub struct Cpu<'a> {
    steps: &'a Steps<'a>,
    limits: Limits,
    thread: u32,
    threads: u32,
    hold: Option<u32>,
    machine: Machine,
    marks: Marks,
    stand: Stand,
}

impl<'a> Model for Cpu<'a> {
    ghost use Rattle.machine_step.specs.Traced.{Traced};

    ghost Value = { Traced };

    ghost use Rattle.machine_step.specs.private.Inside.{traced, IsSound};

    ghost view = { traced };

    ghost invariant = { IsSound };
}

impl<'a> Cpu<'a> {
    ghost use Rattle.machine_step.specs.Traced.{Allows, HasLoaded, IsFresh, IsGate, IsKept, IsLoad, IsLoadable, IsSameThread, IsThreadOf, MarksAdded, StandsAs, ending_mark, load_of, loads_left};
    ghost use Rattle.machine_step.specs.Underway.{IsPassingOf, WantsHead, in_passing};

    /// A thread before its first load. It has run to its first sled, or to its end if it comes to
    /// none. Threads count from 1. `hold` is the passing before which the script holds the thread.
    /// All threads of an image borrow its steps.
    ///
    /// `NoMemory` means that an allocation was refused.
    pub fn new(
        alloc: Global,
        steps: &'a Steps<'a>,
        thread: u32,
        threads: u32,
        hold: Option<u32>,
        limits: Limits,
    ) -> Result<Cpu<'a>, NoMemory>
        requires thread { (1 ≤ thread) × (thread ≤ threads) }
        requires threads { threads ≤ MAX_THREADS }
        requires limits { AreLimits limits }
        ensures thread { IfOk result (IsThreadOf steps.now thread threads hold limits) }
        ensures fresh { IfOk result IsFresh }
        ensures loads { IfOk result (λ cpu. (passed : List Passing) (end : End) (last : State)
            → PlainRun steps.now limits thread passed end last → HasLoaded cpu passed []) }
    {
        let marks = Marks::new(alloc, limits.passings)?;
        let mut machine = Machine::new(alloc, thread)?;
        let stand = run_to_sled(&mut machine, steps, limits, steps.start());
        Ok(Cpu {
            steps,
            limits,
            thread,
            threads,
            hold,
            machine,
            marks,
            stand,
        })
    }

    /// What the thread wants next.
    #[inline]
    pub fn want(&self) -> Want
        ensures want { result ≡ self.now.want }
        // Before a passing, the thread is where its plain run comes to it. At its end, it is where
        // its plain run ends.
        ensures stands { StandsAs self.now self.now.want }
        ensures word { IsLoadable self.now self.now.want }
        // The passing that it wants to be let into comes after those that have marks.
        ensures gate { (passing : ℕ) → result ≡ Want.Gate passing → passing ≡ length self.now.marks }
    {
        match self.stand {
            Stand::Gate { .. } => Want::Gate(self.machine.passings),
            Stand::Loading { sled, stage, .. } => Want::Load(word_at(
                self.steps.image(),
                self.threads,
                self.thread,
                sled,
                stage,
            )),
            Stand::Ended { end } => Want::Done(end),
        }
    }

    /// Lets the thread into the passing that it wants to be let into.
    #[inline]
    pub fn opened(&mut self)
        requires { IsGate self.old.want }
        ensures loads { (passed : List Passing) (loads : List Load)
            → HasLoaded self.old passed loads → HasLoaded self.new passed loads }
        ensures want { IsLoad self.new.want }
        ensures same { self.new ≡ record self.old { want = self.new.want } }
        ensures nearer { loads_left self.new < loads_left self.old }
    {
        let Stand::Gate { place, sled } = self.stand else {
            unreachable!()
        };
        let stage = first_stage(self.hold, self.machine.passings);
        self.stand = Stand::Loading { place, sled, stage };
    }

    /// Whether the word that the thread wants may have this value. A release word, the handler's
    /// word and the argument handler's word are 0 or 1, and the state is 0 to 4. The head of a sled
    /// is patched or unpatched, and its other parts are what patching stores.
    pub fn allowed(&self, value: u64) -> bool
        requires { IsLoad self.now.want }
        ensures { IsTrue result ↔ Allows self.now self.now.want value }
    {
        match self.stand {
            Stand::Loading { sled, stage, .. } => allows(self.steps.image(), stage, sled, value),
            Stand::Gate { .. } | Stand::Ended { .. } => unreachable!(),
        }
    }

    /// Gives the thread the value of the word that it wants. If that ends the passing, the passing
    /// gets its mark, and the thread runs on to its next sled or to its end. The answer is the
    /// event of the passing exactly when the value is the state of a log that records. It has the
    /// function's argument, which is in rdi at the passing, if the passing found an argument handler.
    #[inline(always)]
    pub fn give(&mut self, value: u64) -> Option<Event>
        requires { Allows self.old self.old.want value }
        ensures thread { IsSameThread self.old self.new }
        ensures loads { (passed : List Passing) (loads : List Load) → HasLoaded self.old passed loads
            → HasLoaded self.new passed (loads ++ load_of self.old.want value) }
        ensures marks { MarksAdded self.old.marks self.new.marks self.new.want }
        // The mark is that of the loads of the passing, of which this is the last one.
        ensures mark { self.new.marks ≡ self.old.marks
            ++ ending_mark self.old.program self.old.recording self.old.want value }
        ensures some { IsSome result
            ↔ (self.old.want ≡ Want.Load (state_word self.old.program)) × (value ≡ 2) }
        ensures event { (passed : List Passing) (end : End) (last : State)
            → PlainRun self.old.program self.old.limits self.old.thread passed end last
            → recorded passed self.new.marks
            ≡ recorded passed self.old.marks ++ events_in result }

        // A release word of 0 changes nothing. Any other load brings the thread nearer to its end.
        ensures kept { IsKept self.old value → self.new ≡ self.old }
        ensures nearer { (IsKept self.old value → ⊥) → loads_left self.new < loads_left self.old }
    {
        let Stand::Loading { place, sled, stage } = self.stand else {
            unreachable!()
        };
        let image = self.steps.image();
        match after_load(image, sled, stage, value) {
            Next::Loads(stage) => {
                self.stand = Stand::Loading { place, sled, stage };
                None
            }
            Next::Ends(mark) => {
                let event = event_at(image, sled, self.thread, &self.machine, self.limits, mark);
                self.marks.add(mark);
                self.stand = pass_sled(&mut self.machine, self.steps, self.limits, place);
                event
            }
        }
    }

    /// The passing that the thread is in, exactly if it wants the head of a sled. Its loads may be made
    /// before the thread is told of them, by `word`, `after` and `come_to`.
    #[inline(always)]
    pub fn underway(&self) -> Option<Underway>
        ensures some { IsSome result ↔ WantsHead self.now }
        ensures of { IfSome result (IsPassingOf self.now) }
        ensures same { IfSome result (λ underway. in_passing self.now underway ≡ self.now) }
    {
        match self.stand {
            Stand::Loading { sled, stage, .. } => match stage {
                Stage::Head => Some(Underway { sled, stage }),
                _ => None,
            },
            Stand::Gate { .. } | Stand::Ended { .. } => None,
        }
    }

    /// The number of the word that a passing of the thread loads next.
    #[inline(always)]
    pub fn word(&self, underway: Underway) -> u32
        requires { IsPassingOf self.now underway }
        ensures word { (in_passing self.now underway).want ≡ Want.Load result }
        ensures there { IsLoadable (in_passing self.now underway) (in_passing self.now underway).want }
    {
        word_at(
            self.steps.image(),
            self.threads,
            self.thread,
            underway.sled,
            underway.stage,
        )
    }

    /// Where the load of this value brings a passing of the thread. The answer is `None` exactly when the
    /// value ends the passing.
    #[inline(always)]
    pub fn after(&self, underway: Underway, value: u64) -> Option<Underway>
        requires underway { IsPassingOf self.now underway }
        requires allowed { Allows (in_passing self.now underway) (in_passing self.now underway).want value }
        ensures of { IfSome result (IsPassingOf self.now) }
        ensures ends { IsSome result ↔ (ending_mark self.now.program (in_passing self.now underway).recording
            (in_passing self.now underway).want value ≡ []) }
        ensures loads { IfSome result (λ next. (passed : List Passing) (loads : List Load)
            → HasLoaded (in_passing self.now underway) passed loads
            → HasLoaded (in_passing self.now next) passed (loads ++ load_of (in_passing self.now underway).want value)) }
        // No load of it can hold the thread. Each brings the thread nearer to its end.
        ensures free { IsKept (in_passing self.now underway) value → ⊥ }
        ensures nearer { IfSome result (λ next.
            loads_left (in_passing self.now next) < loads_left (in_passing self.now underway)) }
    {
        match after_load(self.steps.image(), underway.sled, underway.stage, value) {
            Next::Loads(stage) => Some(Underway {
                sled: underway.sled,
                stage,
            }),
            Next::Ends(_) => None,
        }
    }

    /// Lets the thread come to where its passing is.
    #[inline(always)]
    pub fn come_to(&mut self, underway: Underway)
        requires { IsPassingOf self.old underway }
        ensures { self.new ≡ in_passing self.old underway }
    {
        let Stand::Loading { place, sled, .. } = self.stand else {
            unreachable!()
        };
        let stage = underway.stage;
        self.stand = Stand::Loading { place, sled, stage };
    }

    /// The number of the sled of the passing that the thread wants to be let into.
    #[inline]
    pub fn sled(&self) -> u32
        requires { IsGate self.now.want }
        ensures within { result < length self.now.program.sleds }
        ensures left { length self.now.marks < self.now.limits.passings }
        ensures passing { (passed : List Passing) (end : End) (last : State)
            → PlainRun self.now.program self.now.limits self.now.thread passed end last
            → (passing : Passing) × (slice_get passed (length self.now.marks) ≡ Some passing)
            × (passing.sled ≡ result) }
    {
        match self.stand {
            Stand::Gate { sled, .. } => sled,
            Stand::Loading { .. } | Stand::Ended { .. } => unreachable!(),
        }
    }

    /// Makes the passing that the thread wants to be let into, as one with this mark. The thread makes no
    /// loads, so the mark may be any, also one that no loads could give. A caller that knows the marks of
    /// a thread gets its events in this way. The answer is the event of the passing, if the mark records
    /// one.
    #[inline(always)]
    pub fn pass(&mut self, mark: Mark) -> Option<Event>
        requires { IsGate self.old.want }
        ensures thread { IsSameThread self.old self.new }
        ensures mark { self.new.marks ≡ self.old.marks ++ mark ∷ [] }
        ensures between { IsLoad self.new.want → ⊥ }
        ensures event { (passed : List Passing) (end : End) (last : State)
            → PlainRun self.old.program self.old.limits self.old.thread passed end last
            → recorded passed self.new.marks
            ≡ recorded passed self.old.marks ++ events_in result }
        ensures nearer { loads_left self.new < loads_left self.old }
    {
        let Stand::Gate { place, sled } = self.stand else {
            unreachable!()
        };
        let image = self.steps.image();
        let event = event_at(image, sled, self.thread, &self.machine, self.limits, mark);
        self.marks.add(mark);
        self.stand = pass_sled(&mut self.machine, self.steps, self.limits, place);
        event
    }

    /// The number of the thread, from 1.
    pub fn thread(&self) -> u32
        ensures { result ≡ self.now.thread }
    {
        self.thread
    }

    /// The value of the general register of this number, below 16, numbered as in `Reg`. rsp and
    /// r10, which no instruction names, are 0.
    pub fn reg(&self, n: u8) -> u64
        requires { n < REGISTERS }
        ensures { result ≡ slice_index self.now.registers n }
    {
        self.machine.registers.all()[usize::from(n)]
    }

    /// The values of all general registers, by their numbers.
    pub(crate) fn registers(&self) -> &[u64; REGISTERS]
        ensures { result.now ≡ self.now.registers }
    {
        self.machine.registers.all()
    }

    /// Whether the last `add` or `sub` gave 0. It is false before the first of them.
    pub fn zf(&self) -> bool
        ensures { result ≡ self.now.zero_flag }
    {
        self.machine.zero_flag
    }

    /// The bytes of all `out`s, in order.
    pub fn output(&self) -> &[u8]
        ensures { result.now ≡ self.now.output }
    {
        self.machine.output.bytes()
    }

    /// The marks of the passings that were made.
    pub fn marks(&self) -> &Marks
        ensures { result.now.items ≡ self.now.marks }
    {
        &self.marks
    }

    /// How many instructions were made.
    pub fn instructions(&self) -> u64
        ensures { result ≡ self.now.instructions }
    {
        self.machine.instructions
    }

    /// How many passings were made.
    pub fn passings(&self) -> u32
        ensures { result ≡ length self.now.marks }
    {
        self.machine.passings
    }
}
