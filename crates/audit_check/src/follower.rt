//! The marks of a thread, judged one after the other.

ghost use Rattle.std.specs.Prelude.{◌≡◌, ◌<◌, ◌≤◌, ◌+◌, ◌^◌, ◌∷◌, ◌++◌, [], ℕ, Some, false, true, List, length, IfOk, IfSome, OnOk, is_some, option_map};
ghost use Rattle.handler_word.specs.declared.mark.Mark.{Mark};
ghost use Rattle.patch_script.specs.declared.command.PatchCommand.{PatchCommand};
ghost use Rattle.patch_script.specs.Refusals.{commands_of};
ghost use Rattle.sled_words.specs.declared.part.Part.TheVariants.{Head};
ghost use Rattle.sled_words.specs.Words.{arg_handler_word, handler_word, release_word, state_word, word_of};
ghost use Rattle.machine_step.specs.Loads.{is_held_at};
ghost use Rattle.xray_image.specs.Program.{Program};
ghost use Rattle.audit_check.specs.private.Judging.{ArePassed, FindsBound, FindsPlace, HasJudged, IsReady, SameButGuesses, StopsAt, bounds_passing, lesser};
ghost use Rattle.audit_check.specs.private.LoadStops.{places_in};
ghost use Rattle.audit_check.specs.private.Searches.{AddsAll, AddsNext, Finds, FindsAll, FindsNext, HasPlaced, end_of, stop_of};
ghost use Rattle.audit_check.specs.private.Switches.{IsCourseOf, is_patched, is_recording, is_set};
ghost use Rattle.audit_check.specs.declared.searches.Sought.TheVariants.{EitherHandler as Either};

use crate::searches::{Sought, sought_for};
use crate::stop::{LoadStops, Stop};
use crate::switches::{Awaited, Course};
use handler_word::Mark;
use patch_script::Script;
use sled_words::PARTS;
use std::alloc::Global;
use xray_image::Image;
use xray_io::NoMemory;

/// What a passing finds by its searches.
#[derive(Clone, Copy)]
pub(crate) struct Found {
    /// The place of the last one.
    pub(crate) place: u32,
    /// How many loads all of them make.
    pub(crate) loads: u32,
}

/// For each word on which marks depend, how many of its turns were passed.
#[derive(Drop)]
struct Passed {
    heads: Vec<usize>,
    handler: usize,
    log: usize,
    arg_handler: usize,
    release: usize,
}

/// Judges whether the marks of a thread follow a script.
///
/// The passings of a thread come one after another, and each mark says what the loads of its passing
/// have found. A load has a place among the script's stores. Places never fall, and those of a passing
/// are within the first wait for it. If the loads of each passing are taken to be as early as they can
/// be, no passing takes away a place from the later ones. So the marks follow the script if each passing
/// in turn has a least place at which it may end with its mark.
#[derive(Drop)]
pub(crate) struct Follower<'a> {
    pub(crate) image: &'a Image,
    course: &'a Course,
    thread: u32,
    /// The passing before which the script holds the thread.
    hold: Option<u32>,
    /// How many passings were judged.
    passing: u32,
    /// The least place at which they may have ended with their marks, or `None` if there is none.
    place: Option<u32>,
    /// How many awaits of the script don't bound the next passing.
    awaits: usize,
    passed: Passed,
}

/// The lesser of two places, of which either may be missing.
fn lesser(first: Option<u32>, second: Option<u32>) -> Option<u32>
    ensures { result ≡ lesser first second }
{
    match (first, second) {
        (None, other) | (other, None) => other,
        (Some(first), Some(second)) => Some(first.min(second)),
    }
}

/// Where a passing ends, if it finds what it looks for.
#[inline]
fn end_of(found: Option<Found>) -> Option<u32>
    ensures { result ≡ end_of found }
{
    let found = found?;
    Some(found.place)
}

/// Loads at a place, if there is one.
fn stop_at(place: Option<u32>, loads: u32) -> Option<Stop>
    ensures found { result ≡ option_map (stop_of loads) place }
    ensures loads { IfSome result (λ stop. stop.loads ≡ loads) }
{
    let place = place?;
    Some(Stop { place, loads })
}

impl Awaited {
    /// Whether it waits for a thread's passing of this number, from 0.
    fn bounds(&self, thread: u32, passing: u32) -> bool
        ensures { result ≡ bounds_passing thread passing self.now }
    {
        self.thread == thread && passing < self.count
    }
}

impl<'a> Follower<'a> {
    /// Judges the marks of a thread before its first passing.
    pub(crate) fn new(
        alloc: Global,
        image: &'a Image,
        script: &Script,
        course: &'a Course,
        thread: u32,
    ) -> Result<Follower<'a>, NoMemory>
        requires { (1 ≤ thread) × (thread ≤ script.now.threads) }
        ensures thread { IfOk result (λ follower. follower.thread ≡ thread) }
        ensures judged { IfOk result (λ follower. (program : Program) (threads : ℕ) → image.now ≡ program
            → script.now.threads ≡ threads → IsCourseOf program threads (commands_of script.now.lines) course.now
            → HasJudged program threads (commands_of script.now.lines) follower [] []) }
        ensures placed { IfOk result (λ follower. (program : Program) (threads : ℕ)
            → IsCourseOf program threads (commands_of script.now.lines) course.now
            → HasPlaced program threads (commands_of script.now.lines) follower [] [] []) }
    {
        Ok(Follower {
            image,
            course,
            thread,
            hold: script.hold_of(thread),
            passing: 0,
            place: Some(course.start),
            awaits: 0,
            passed: Passed {
                heads: vec![in alloc; 0; image.sled_count() as usize]?,
                handler: 0,
                log: 0,
                arg_handler: 0,
                release: 0,
            },
        })
    }

    /// Whether the marks so far may be those of loads that follow the script.
    pub(crate) fn follows(&self) -> bool
        ensures { result ≡ is_some self.now.place }
    {
        self.place.is_some()
    }

    /// Judges the mark of the next passing, which is of this sled.
    #[inline]
    pub(crate) fn judge(&mut self, sled: u32, mark: Mark)
        requires ready { IsReady self.old }
        requires sled { sled < length self.old.image.now.sleds }
        requires room { self.old.passing + 1 < 2 ^ 32 }
        ensures ready { IsReady self.new }
        ensures passing { self.new.passing ≡ self.old.passing + 1 }
        ensures image { self.new.image ≡ self.old.image }
        ensures thread { self.new.thread ≡ self.old.thread }
        ensures judged { (program : Program) (threads : ℕ) (script : List PatchCommand) (sleds : List ℕ)
            (marks : List Mark) → HasJudged program threads script self.old sleds marks
            → HasJudged program threads script self.new (sleds ++ sled ∷ []) (marks ++ mark ∷ []) }
    {
        let bound = self.bound();
        self.place = end_of(self.next_found(sled, mark, bound));
        self.passing += 1;
    }

    /// Judges the mark of the next passing, and adds its loads, if the marks so far may be those of loads
    /// that follow the script.
    #[inline]
    pub(crate) fn judge_and_add(
        &mut self,
        sled: u32,
        mark: Mark,
        loads: &mut LoadStops,
    ) -> Result<(), NoMemory>
        requires ready { IsReady self.old }
        requires sled { sled < length self.old.image.now.sleds }
        requires room { self.old.passing + 1 < 2 ^ 32 }
        ensures ready { OnOk result (IsReady self.new) }
        ensures passing { OnOk result (self.new.passing ≡ self.old.passing + 1) }
        ensures image { OnOk result (self.new.image ≡ self.old.image) }
        ensures thread { OnOk result (self.new.thread ≡ self.old.thread) }
        ensures judged { OnOk result ((program : Program) (threads : ℕ) (script : List PatchCommand) (sleds : List ℕ)
            (marks : List Mark) → HasJudged program threads script self.old sleds marks
            → HasJudged program threads script self.new (sleds ++ sled ∷ []) (marks ++ mark ∷ [])) }
        ensures placed { OnOk result ((program : Program) (threads : ℕ) (script : List PatchCommand) (sleds : List ℕ)
            (marks : List Mark) → HasJudged program threads script self.old sleds marks
            → HasPlaced program threads script self.old sleds marks (places_in loads.old)
            → HasPlaced program threads script self.new (sleds ++ sled ∷ []) (marks ++ mark ∷ [])
            (places_in loads.new)) }
    {
        let bound = self.bound();
        let found = self.next_found(sled, mark, bound);
        self.add_loads(sled, mark, bound, found, loads)?;
        self.place = end_of(found);
        self.passing += 1;
        Ok(())
    }

    /// Adds the loads of the next passing, of which `found` is known. Most passings make all of them where
    /// the passing before has ended. Else the searches are made again.
    #[inline]
    fn add_loads(
        &mut self,
        sled: u32,
        mark: Mark,
        bound: u32,
        found: Option<Found>,
        loads: &mut LoadStops,
    ) -> Result<(), NoMemory>
        requires ready { IsReady self.old }
        requires sled { sled < length self.old.image.now.sleds }
        ensures same { OnOk result (SameButGuesses self.old self.new) }
        ensures added { OnOk result (FindsNext self.old sled mark bound found
            → AddsNext self.old sled mark bound loads.old loads.new) }
    {
        if let Some(here) = found {
            if self.place == Some(here.place) {
                loads.add(Stop {
                    place: here.place,
                    loads: here.loads,
                })?;
                return Ok(());
            }
        }
        self.add_next(sled, mark, bound, loads)?;
        Ok(())
    }

    /// Adds the loads of the next passing, search by search.
    #[inline(never)]
    fn add_next(
        &mut self,
        sled: u32,
        mark: Mark,
        bound: u32,
        loads: &mut LoadStops,
    ) -> Result<(), NoMemory>
        requires ready { IsReady self.old }
        requires sled { sled < length self.old.image.now.sleds }
        ensures same { OnOk result (SameButGuesses self.old self.new) }
        ensures added { OnOk result (AddsNext self.old sled mark bound loads.old loads.new) }
    {
        let Some(place) = self.place else {
            return Ok(());
        };
        let Some(from) = self.released(place, bound) else {
            return Ok(());
        };
        let sought = sought_for(self.image.sled(sled).kind, mark);
        self.add_all(sought, sled, from, bound, loads)?;
        Ok(())
    }

    /// Adds the loads of what is sought, one after the other, from a place on and within a bound.
    #[inline]
    fn add_all(
        &mut self,
        sought: &[Sought],
        sled: u32,
        from: u32,
        bound: u32,
        loads: &mut LoadStops,
    ) -> Result<(), NoMemory>
        requires ready { IsReady self.old }
        requires sled { sled < length self.old.image.now.sleds }
        ensures same { OnOk result (SameButGuesses self.old self.new) }
        ensures added { OnOk result (AddsAll self.old sought.now sled from bound loads.old loads.new) }
    {
        let mut place = from;
        for i in 0..sought.len() {
            let Some(stop) = self.find(sought[i], sled, place, bound) else {
                return Ok(());
            };
            loads.add(stop)?;
            place = stop.place;
        }
        Ok(())
    }

    /// The last place for the loads of the next passing.
    fn bound(&mut self) -> u32
        ensures same { self.new ≡ record self.old { awaits = self.new.awaits } }
        ensures bound { ArePassed self.old self.old.passing self.old.awaits
            → FindsBound self.old self.old.passing result }
        ensures passed { ArePassed self.old self.old.passing self.old.awaits
            → ArePassed self.new self.old.passing self.new.awaits }
    {
        self.pass_awaits();
        match self.course.awaits.get(self.awaits) {
            Some(awaited) => awaited.place,
            None => self.course.total,
        }
    }

    /// Goes on to the first await that bounds the next passing, or to the end of the awaits.
    #[inline]
    fn pass_awaits(&mut self)
        ensures same { self.new ≡ record self.old { awaits = self.new.awaits } }
        ensures passed { ArePassed self.old self.old.passing self.old.awaits
            → ArePassed self.new self.old.passing self.new.awaits }
        ensures stops { StopsAt self.new self.old.passing self.new.awaits }
    {
        let awaits = &self.course.awaits;
        'awaits: while self.awaits < awaits.len() {
            if awaits[self.awaits].bounds(self.thread, self.passing) {
                return;
            }
            self.awaits += 1;
        }
    }

    /// What the next passing finds, after those before it: it ends at the least place at which it may end
    /// with its mark.
    #[inline(always)]
    fn next_found(&mut self, sled: u32, mark: Mark, bound: u32) -> Option<Found>
        requires ready { IsReady self.old }
        requires sled { sled < length self.old.image.now.sleds }
        ensures same { SameButGuesses self.old self.new }
        ensures found { FindsNext self.old sled mark bound result }
    {
        let place = self.place?;
        let from = self.released(place, bound)?;
        let sought = sought_for(self.image.sled(sled).kind, mark);
        self.find_all(sought, sled, from, bound)
    }

    /// The first place at which the script doesn't hold the thread any more before its next passing.
    #[inline]
    fn released(&mut self, from: u32, bound: u32) -> Option<u32>
        requires { IsReady self.old }
        ensures same { SameButGuesses self.old self.new }
        ensures free { is_held_at self.old.hold self.old.passing ≡ false → result ≡ Some from }
        ensures held { is_held_at self.old.hold self.old.passing ≡ true
            → FindsPlace self.old (λ program threads. release_word program self.old.thread) is_set true from bound
            result }
    {
        if self.hold == Some(self.passing) {
            self.release(from, bound)
        } else {
            Some(from)
        }
    }

    /// Finds what is sought, one after the other, from a place on and within a bound.
    #[inline(always)]
    fn find_all(&mut self, sought: &[Sought], sled: u32, from: u32, bound: u32) -> Option<Found>
        requires ready { IsReady self.old }
        requires sled { sled < length self.old.image.now.sleds }
        requires few { length sought.now ≤ 4 }
        ensures same { SameButGuesses self.old self.new }
        ensures found { FindsAll self.old sought.now sled from bound result }
    {
        let mut found = Found {
            place: from,
            loads: 0,
        };
        for i in 0..sought.len() {
            let stop = self.find(sought[i], sled, found.place, bound)?;
            found.place = stop.place;
            found.loads += stop.loads;
        }
        Some(found)
    }

    /// Finds what is sought at the first place from a place on and within a bound.
    #[inline(always)]
    fn find(&mut self, sought: Sought, sled: u32, from: u32, bound: u32) -> Option<Stop>
        requires ready { IsReady self.old }
        requires sled { sled < length self.old.image.now.sleds }
        ensures same { SameButGuesses self.old self.new }
        ensures found { Finds self.old sought sled from bound result }
        ensures few { IfSome result (λ stop. stop.loads ≤ 4) }
    {
        match sought {
            // The other words of a patched sled may have any values, and are loaded at the same place.
            Sought::Patched => stop_at(self.head(sled, true, from, bound), PARTS),
            Sought::Unpatched => stop_at(self.head(sled, false, from, bound), 1),
            Sought::ArgHandler { set } => stop_at(self.arg_handler(set, from, bound), 1),
            Sought::Handler { set } => stop_at(self.handler(set, from, bound), 1),
            Sought::EitherHandler => self.either_handler(from, bound),
            Sought::Log { records } => stop_at(self.log(records, from, bound), 1),
            Sought::Nothing => None,
        }
    }

    /// The first place at which an argument handler is set, or a handler. The argument handler's word is
    /// loaded first, and if none is found there, the handler's word is loaded at the same place.
    fn either_handler(&mut self, from: u32, bound: u32) -> Option<Stop>
        ensures same { SameButGuesses self.old self.new }
        ensures found { (sled : ℕ) → Finds self.old Either sled from bound result }
        ensures few { IfSome result (λ stop. stop.loads ≤ 4) }
    {
        let by_argument = self.arg_handler(true, from, bound);
        let place = lesser(by_argument, self.handler(true, from, bound))?;
        if by_argument == Some(place) {
            Some(Stop { place, loads: 1 })
        } else {
            Some(Stop { place, loads: 2 })
        }
    }

    /// The first place at which the thread's release word lets it go on.
    #[inline]
    fn release(&mut self, from: u32, bound: u32) -> Option<u32>
        requires { IsReady self.old }
        ensures same { SameButGuesses self.old self.new }
        ensures place { FindsPlace self.old (λ program threads. release_word program self.old.thread) is_set true
            from bound result }
    {
        let release = &self.course.switches.releases[self.thread as usize - 1];
        release.first(true, from, bound, &mut self.passed.release)
    }

    /// The first place at which the head of a sled is patched, or isn't.
    #[inline]
    fn head(&mut self, sled: u32, patched: bool, from: u32, bound: u32) -> Option<u32>
        requires ready { IsReady self.old }
        requires sled { sled < length self.old.image.now.sleds }
        ensures same { SameButGuesses self.old self.new }
        ensures place { FindsPlace self.old (λ program threads. word_of sled Head) is_patched patched
            from bound result }
    {
        let passed = &mut self.passed.heads[sled as usize];
        self.course.switches.heads[sled as usize].first(patched, from, bound, passed)
    }

    /// The first place at which the handler is set, or isn't.
    #[inline]
    fn handler(&mut self, set: bool, from: u32, bound: u32) -> Option<u32>
        ensures same { SameButGuesses self.old self.new }
        ensures place { FindsPlace self.old (λ program threads. handler_word program) is_set set from bound result }
    {
        self.course
            .switches
            .handler
            .first(set, from, bound, &mut self.passed.handler)
    }

    /// The first place at which the argument handler is set, or isn't.
    #[inline]
    fn arg_handler(&mut self, set: bool, from: u32, bound: u32) -> Option<u32>
        ensures same { SameButGuesses self.old self.new }
        ensures place { FindsPlace self.old (λ program threads. arg_handler_word program threads) is_set set
            from bound result }
    {
        self.course
            .switches
            .arg_handler
            .first(set, from, bound, &mut self.passed.arg_handler)
    }

    /// The first place at which the log records, or doesn't.
    #[inline]
    fn log(&mut self, records: bool, from: u32, bound: u32) -> Option<u32>
        ensures same { SameButGuesses self.old self.new }
        ensures place { FindsPlace self.old (λ program threads. state_word program) is_recording records
            from bound result }
    {
        self.course
            .switches
            .log
            .first(records, from, bound, &mut self.passed.log)
    }
}
