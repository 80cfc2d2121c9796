//! One traced thread of a run.

ghost use Rattle.std.specs.Prelude.{◌≡◌, ◌<◌, ◌≤◌, ◌↔◌, ◌+◌, ◌-◌, ◌^◌, ℕ, [], List, Some, length, false, IfSome, IsSome, IsTrue};
ghost use Rattle.fdr_record.specs.declared.event.Event.{Event};
ghost use Rattle.fdr_record.specs.Recordable.{IsRecordable};
ghost use Rattle.sled_rule.specs.Seats.{patch_view, work_view, script_of, IsPatcherOf, IsWorkerOf};
ghost use Rattle.sled_rule.specs.{Plans.{start_in}, Views.{giving}};
ghost use Rattle.machine_step.specs.declared.want.Want.{Want};
ghost use Rattle.machine_step.specs.Traced.{IsDone, IsLoadable, loads_left};
ghost use Rattle.machine_step.specs.Underway.{IsPassingOf, in_passing};

use crate::laws::{a_thread_stands_as_it_wants, threads_start_within};
use fdr_record::{Event, Recorder};
use machine_step::{Cpu, Underway, Want, a_traced_thread_ends_as_its_plain_run};
use sled_rule::{CodeTable, PatchSeat, WorkSeat};
use traced_run::passings_are_few;
use xray_io::Gate;

/// How a turn of a worker ended.
#[derive(Clone, Copy)]
pub enum Turn {
    /// The thread is at its end.
    Done,
    /// The thread's release word is 0, so it can't begin its passing yet.
    Held,
}

/// How many words keep two workers of a list apart: 128 bytes, since processors fetch cache lines
/// in pairs.
const APART: usize = 16;

/// Where a passing is whose loads the thread hasn't been given yet.
#[derive(Clone, Copy)]
pub(crate) enum Found {
    /// Before its next load.
    More(Underway),
    /// After its last load, which found this value.
    Last { underway: Underway, value: u64 },
}

/// A traced thread, with its seat of a code table and a recorder of its events.
#[derive(Drop)]
pub struct Worker<'s, 't, R> {
    cpu: Cpu<'s>,
    seat: WorkSeat,
    table: &'t CodeTable,
    recorder: R,
    /// Nothing is kept here. It gives each worker cache lines of its own.
    apart: [u64; APART],
}

impl<'s, 't, R: Recorder> Worker<'s, 't, R> {
    ghost use Rattle.thread_run.specs.Workers.{cpu_of, seat_of, table_of, recorder_of, loads_of, HasEnded, HasMade, IsAtWork, IsFreshIn, IsFreshThread, IsGoing, IsSameWorker, WasHeld};
    ghost use Rattle.thread_run.specs.private.Steps.{CountIsBehind, HasCome, HasFetched, HasRead, HasTaken, HasTakenOne, IsFound, IsGiven, IsLast, IsNearer, Lacks, come_to, left_in};

    /// A worker before its first load.
    pub fn new(cpu: Cpu<'s>, seat: WorkSeat, table: &'t CodeTable, recorder: R) -> Self
        requires own { IsWorkerOf table.now seat }
        requires fresh { IsFreshIn (script_of table.now) cpu (work_view seat) }
        requires no_events { R.stands recorder [] }
        ensures going { IsGoing R.stands result }
        ensures cpu { cpu_of result ≡ cpu.entry }
        ensures table { table_of result ≡ table.now }
        ensures recorder { recorder_of result ≡ recorder }
    {
        threads_start_within(table.script());
        Worker {
            cpu,
            seat,
            table,
            recorder,
            apart: [0; APART],
        }
    }

    /// A worker of the next thread, before its first load. It gets the next seat of the table. The
    /// patcher is where threads start.
    pub fn start(cpu: Cpu<'s>, table: &'t CodeTable, patcher: &mut PatchSeat, recorder: R) -> Self
        requires own { IsPatcherOf table.now patcher.old }
        requires starts { (patch_view patcher.old).place ≡ start_in (script_of table.now) }
        requires few { (patch_view patcher.old).given < (script_of table.now).threads }
        requires fresh { IsFreshThread (script_of table.now) cpu }
        requires next { cpu.thread ≡ (patch_view patcher.old).given + 1 }
        requires no_events { R.stands recorder [] }
        ensures own { IsPatcherOf table.now patcher.new }
        ensures view { patch_view patcher.new ≡ giving (patch_view patcher.old) }
        ensures going { IsGoing R.stands result }
        ensures cpu { cpu_of result ≡ cpu.entry }
        ensures table { table_of result ≡ table.now }
        ensures recorder { recorder_of result ≡ recorder }
    {
        let seat = table.split(patcher);
        Worker::new(cpu, seat, table, recorder)
    }

    /// Runs the thread until it has ended, or until its release word holds it.
    pub fn run<G: Gate>(&mut self, gate: &G) -> Turn
        requires going { IsGoing R.stands self.old }
        ensures same { IsSameWorker R.follows self.old self.new }
        ensures held { (result ≡ Turn.Held) → IsGoing R.stands self.new × WasHeld self.old self.new }
        ensures done { (result ≡ Turn.Done) → HasEnded R.stands self.new × HasMade self.old self.new }
    {
        let mut want = self.cpu.want();
        'loads: loop {
            match want {
                Want::Gate(passing) => want = self.open(gate, passing),
                Want::Load(word) => match self.take(word) {
                    Some(event) => want = self.note(event),
                    None => {
                        want = self.go_on();
                        if is_load(want, word) {
                            return Turn::Held;
                        }
                    }
                },
                Want::Done(_) => {
                    self.finish();
                    return Turn::Done;
                }
            }
        }
    }

    /// Passes the gate, and lets the thread into the passing that it wants to be let into. Returns
    /// what the thread wants then.
    fn open<G: Gate>(&mut self, gate: &G, passing: u32) -> Want
        requires going { IsGoing R.stands self.old }
        requires gate { (cpu_of self.old).want ≡ Want.Gate passing }
        ensures same { IsSameWorker R.follows self.old self.new }
        ensures going { IsGoing R.stands self.new }
        ensures loads { loads_of self.new ≡ loads_of self.old }
        ensures nearer { loads_left (cpu_of self.new) < loads_left (cpu_of self.old) }
        ensures want { result ≡ (cpu_of self.new).want }
        ensures there { IsLoadable (cpu_of self.new) (cpu_of self.new).want }
    {
        gate.before(self.cpu.thread(), passing);
        self.cpu.opened();
        self.cpu.want()
    }

    /// Loads the word that the thread wants, and gives it the value. If the thread wants the head of a
    /// sled, makes the other loads of its passing too. Returns the event that comes of them, for the
    /// recorder. There is one only if the last of them ends the passing.
    #[inline(always)]
    fn take(&mut self, word: u32) -> Option<Event>
        requires going { IsGoing R.stands self.old }
        requires wants { (cpu_of self.old).want ≡ Want.Load word }
        requires there { IsLoadable (cpu_of self.old) (cpu_of self.old).want }
        ensures same { IsSameWorker R.follows self.old self.new }
        ensures taken { HasTaken word self.old self.new }
        ensures lacks { Lacks R.stands result self.new }
        ensures recordable { IfSome result (λ event. IsRecordable event) }
        ensures room { IfSome result (λ event. (events : List Event)
            × R.stands (recorder_of self.new) events × (length events < 2 ^ 32 - 1)) }
        ensures ends { IsSome result → (next : ℕ) → (cpu_of self.new).want ≡ Want.Load next → ⊥ }
    {
        match self.cpu.underway() {
            Some(underway) => self.take_all(underway),
            None => {
                // Without a variable of its own, the event of each passing would go through memory.
                let event = self.take_one(word);
                event
            }
        }
    }

    /// Loads the word that the thread wants, and gives it the value.
    #[inline(never)]
    fn take_one(&mut self, word: u32) -> Option<Event>
        requires going { IsGoing R.stands self.old }
        requires wants { (cpu_of self.old).want ≡ Want.Load word }
        requires there { IsLoadable (cpu_of self.old) (cpu_of self.old).want }
        ensures same { IsSameWorker R.follows self.old self.new }
        ensures taken { HasTakenOne word self.old self.new }
        ensures lacks { Lacks R.stands result self.new }
        ensures recordable { IfSome result (λ event. IsRecordable event) }
        ensures room { IfSome result (λ event. (events : List Event)
            × R.stands (recorder_of self.new) events × (length events < 2 ^ 32 - 1)) }
        ensures ends { IsSome result → (next : ℕ) → (cpu_of self.new).want ≡ Want.Load next → ⊥ }
    {
        let found = self.table.fetch(&mut self.seat, word);
        self.give(found)
    }

    /// Makes all loads of a passing, from the head of its sled on. The thread learns only where the last
    /// of them brings it, so that the loads are straight code.
    #[inline(always)]
    fn take_all(&mut self, underway: Underway) -> Option<Event>
        requires going { IsGoing R.stands self.old }
        requires of { IsPassingOf (cpu_of self.old) underway }
        requires at { in_passing (cpu_of self.old) underway ≡ cpu_of self.old }
        ensures same { IsSameWorker R.follows self.old self.new }
        ensures come { HasCome self.old self.new }
        ensures made { HasMade self.old self.new }
        ensures nearer { loads_left (cpu_of self.new) < loads_left (cpu_of self.old) }
        ensures lacks { Lacks R.stands result self.new }
        ensures recordable { IfSome result (λ event. IsRecordable event) }
        ensures room { IfSome result (λ event. (events : List Event)
            × R.stands (recorder_of self.new) events × (length events < 2 ^ 32 - 1)) }
        ensures ends { IsSome result → (next : ℕ) → (cpu_of self.new).want ≡ Want.Load next → ⊥ }
    {
        let head = self.load(Found::More(underway));
        match head {
            Found::Last { .. } => self.end(head),
            Found::More(_) => self.take_patched(head),
        }
    }

    /// Makes the loads of a passing after the head of a patched sled: its id, its opcode and its offset,
    /// and at most three more.
    #[inline(always)]
    fn take_patched(&mut self, head: Found) -> Option<Event>
        requires found { IsFound R.stands head self.old }
        ensures same { IsSameWorker R.follows self.old self.new }
        ensures come { HasCome self.old self.new }
        ensures made { HasMade self.old self.new }
        ensures nearer { loads_left (cpu_of self.new) ≤ left_in (cpu_of self.old) head }
        ensures lacks { Lacks R.stands result self.new }
        ensures recordable { IfSome result (λ event. IsRecordable event) }
        ensures room { IfSome result (λ event. (events : List Event)
            × R.stands (recorder_of self.new) events × (length events < 2 ^ 32 - 1)) }
        ensures ends { IsSome result → (next : ℕ) → (cpu_of self.new).want ≡ Want.Load next → ⊥ }
    {
        let id = self.load(head);
        let opcode = self.load(id);
        let offset = self.load(opcode);
        let found = self.load(offset);
        let found = self.load(found);
        let last = self.load(found);
        self.end(last)
    }

    /// Makes the next load of a passing, if it has one. Returns where the passing is then.
    #[inline(always)]
    fn load(&mut self, found: Found) -> Found
        requires found { IsFound R.stands found self.old }
        ensures found { IsFound R.stands result self.new }
        ensures read { HasRead found result self.old self.new }
        ensures nearer { IsNearer (cpu_of self.old) found result }
    {
        match found {
            Found::Last { .. } => found,
            Found::More(underway) => self.load_word(underway),
        }
    }

    /// Makes the next load of a passing. Returns where the passing is then.
    #[inline(always)]
    fn load_word(&mut self, underway: Underway) -> Found
        requires of { IsPassingOf (cpu_of self.old) underway }
        requires going { IsGoing R.stands (come_to self.old underway) }
        ensures found { IsFound R.stands result self.new }
        ensures read { HasRead (Found.More underway) result self.old self.new }
        ensures nearer { IsNearer (cpu_of self.old) (Found.More underway) result }
    {
        let word = self.cpu.word(underway);
        let value = self.table.fetch(&mut self.seat, word);
        match self.cpu.after(underway, value) {
            Some(next) => Found::More(next),
            None => Found::Last { underway, value },
        }
    }

    /// Lets the thread come to where its passing is, and gives it the value of the last load.
    #[inline(always)]
    fn end(&mut self, found: Found) -> Option<Event>
        requires found { IsFound R.stands found self.old }
        ensures same { IsSameWorker R.follows self.old self.new }
        ensures come { HasCome self.old self.new }
        ensures loads { loads_of self.new ≡ loads_of self.old }
        ensures left { loads_left (cpu_of self.new) ≤ left_in (cpu_of self.old) found }
        ensures nearer { IsLast found → loads_left (cpu_of self.new) < left_in (cpu_of self.old) found }
        ensures lacks { Lacks R.stands result self.new }
        ensures recordable { IfSome result (λ event. IsRecordable event) }
        ensures room { IfSome result (λ event. (events : List Event)
            × R.stands (recorder_of self.new) events × (length events < 2 ^ 32 - 1)) }
        ensures ends { IsSome result → (next : ℕ) → (cpu_of self.new).want ≡ Want.Load next → ⊥ }
    {
        match found {
            Found::More(underway) => {
                self.cpu.come_to(underway);
                None
            }
            Found::Last { underway, value } => {
                self.cpu.come_to(underway);
                self.give(value)
            }
        }
    }

    /// Gives the thread the value of the load that was made. Returns the event of it.
    #[inline(always)]
    fn give(&mut self, value: u64) -> Option<Event>
        requires fetched { HasFetched R.stands value self.old }
        ensures same { IsSameWorker R.follows self.old self.new }
        ensures seat { seat_of self.new ≡ seat_of self.old }
        ensures given { IsGiven (cpu_of self.old) value (cpu_of self.new) }
        ensures lacks { Lacks R.stands result self.new }
        ensures recordable { IfSome result (λ event. IsRecordable event) }
        ensures room { IfSome result (λ event. (events : List Event)
            × R.stands (recorder_of self.new) events × (length events < 2 ^ 32 - 1)) }
        ensures ends { IsSome result → (next : ℕ) → (cpu_of self.new).want ≡ Want.Load next → ⊥ }
    {
        let event = self.cpu.give(value);
        passings_are_few(&self.cpu);
        event
    }

    /// Notes the event of a load, and goes on.
    fn note(&mut self, event: Event) -> Want
        requires lacks { Lacks R.stands (Some event) self.old }
        requires following { CountIsBehind self.old }
        requires recordable { IsRecordable event }
        requires room { (events : List Event)
            × R.stands (recorder_of self.old) events × (length events < 2 ^ 32 - 1) }
        ensures same { IsSameWorker R.follows self.old self.new }
        ensures going { IsGoing R.stands self.new }
        ensures cpu { cpu_of self.new ≡ cpu_of self.old }
        ensures loads { loads_of self.new ≡ loads_of self.old }
        ensures want { result ≡ (cpu_of self.new).want }
        ensures there { IsLoadable (cpu_of self.new) (cpu_of self.new).want }
    {
        self.recorder.note(event);
        self.go_on()
    }

    /// Counts the passing if the last load ended it. Returns what the thread wants next.
    fn go_on(&mut self) -> Want
        requires at { IsAtWork R.stands self.old }
        requires following { CountIsBehind self.old }
        ensures same { IsSameWorker R.follows self.old self.new }
        ensures going { IsGoing R.stands self.new }
        ensures cpu { cpu_of self.new ≡ cpu_of self.old }
        ensures loads { loads_of self.new ≡ loads_of self.old }
        ensures want { result ≡ (cpu_of self.new).want }
        ensures there { IsLoadable (cpu_of self.new) (cpu_of self.new).want }
    {
        let next = self.cpu.want();
        match next {
            Want::Load(_) => next,
            Want::Gate(_) | Want::Done(_) => {
                self.tell();
                next
            }
        }
    }

    /// Counts one more passing in the table.
    fn tell(&mut self)
        requires at { IsAtWork R.stands self.old }
        requires one { (work_view (seat_of self.old)).count + 1 ≡ length (cpu_of self.old).marks }
        ensures same { IsSameWorker R.follows self.old self.new }
        ensures cpu { cpu_of self.new ≡ cpu_of self.old }
        ensures loads { loads_of self.new ≡ loads_of self.old }
        ensures going { IsGoing R.stands self.new }
    {
        passings_are_few(&self.cpu);
        self.table.passed(&mut self.seat);
    }

    /// Reports in the table that the thread has ended.
    fn finish(&mut self)
        requires going { IsGoing R.stands self.old }
        requires done { IsDone (cpu_of self.old).want }
        ensures same { IsSameWorker R.follows self.old self.new }
        ensures loads { loads_of self.new ≡ loads_of self.old }
        ensures ended { HasEnded R.stands self.new }
    {
        passings_are_few(&self.cpu);
        a_thread_stands_as_it_wants(&self.cpu);
        a_traced_thread_ends_as_its_plain_run();
        self.table.ended(&mut self.seat);
    }

    /// The thread, its seat and its recorder.
    pub fn parts(self) -> (Cpu<'s>, WorkSeat, R)
        ensures cpu { result.0 ≡ cpu_of self.entry }
        ensures seat { result.1 ≡ seat_of self.entry }
        ensures recorder { result.2 ≡ recorder_of self.entry }
    {
        (self.cpu, self.seat, self.recorder)
    }
}

/// Whether what a thread wants is this word.
fn is_load(want: Want, word: u32) -> bool
    ensures { IsTrue result ↔ (want ≡ Want.Load word) }
{
    match want {
        Want::Load(next) => next == word,
        Want::Gate(_) | Want::Done(_) => false,
    }
}
