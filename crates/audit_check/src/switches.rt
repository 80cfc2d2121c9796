//! What a script does to the words on which marks depend.

ghost use Rattle.std.specs.Prelude.{◌≡◌, ◌<◌, ◌≤◌, ◌+◌, ℕ, List, [], All, IfOk, OnOk, length};
ghost use Rattle.xray_image.specs.Program.{Program};
ghost use Rattle.patch_script.specs.declared.command.PatchCommand.{PatchCommand};
ghost use Rattle.patch_script.specs.{CodeAt.{code_at}, Limits.{most_micros}, Refusals.{commands_of}};
ghost use Rattle.audit_check.specs.private.Switches.{AreSwitches, IsCourseOf, IsNext, IsOfWords, TakesOne, TakesStep, TakesStore};

use crate::turns::Turns;
use patch_script::{Micro, Script, stores_give_the_code};
use sled_words::{
    LogState, MAX_THREADS, NO_HANDLER, PARTS, PATCHED_HEAD, arg_handler_word, handler_word,
    state_word,
};
use std::alloc::{AllocError, Global};
use xray_image::Image;
use xray_io::NoMemory;

/// The state of a log that records.
const INITIALIZED: u64 = LogState::Initialized as u64;

/// The turns of each word on which marks depend. The head of a sled is on if it is patched, a handler
/// if it is set, the log if it records, and a thread's release if it lets the thread go on. The other
/// words of a sled change no mark.
#[derive(Drop)]
pub(crate) struct Switches {
    /// Those of the heads, by the number of the sled.
    pub(crate) heads: Vec<Turns>,
    pub(crate) handler: Turns,
    pub(crate) log: Turns,
    pub(crate) arg_handler: Turns,
    /// Those of the release words, thread 1 first.
    pub(crate) releases: Vec<Turns>,
    /// The number of the handler's word, which is the first after those of the sleds.
    handler_word: u32,
    /// The number of the log's word. The release words come after it.
    state_word: u32,
    /// The number of the argument handler's word.
    arg_handler_word: u32,
}

/// A wait of the patcher.
#[derive(Clone, Copy)]
pub(crate) struct Awaited {
    /// Its place among the micro steps.
    pub(crate) place: u32,
    /// The thread that it waits for, from 1.
    pub(crate) thread: u32,
    /// Until the thread has made this many passings.
    pub(crate) count: u32,
}

/// The course of a script: its switches, and the waits that bound the loads of passings.
#[derive(Drop)]
pub(crate) struct Course {
    pub(crate) switches: Switches,
    /// In the order of their places.
    pub(crate) awaits: Vec<Awaited>,
    /// How many micro steps come before the threads start.
    pub(crate) start: u32,
    /// How many there are.
    pub(crate) total: u32,
}

/// Words that are all off.
fn all_off(alloc: Global, count: u32) -> Result<Vec<Turns>, NoMemory>
    ensures count { IfOk result (λ all. length all.items ≡ count) }
    ensures off { IfOk result (λ all. All (λ turns. turns.places.items ≡ []) all.items) }
{
    let mut all = Vec::with_capacity(alloc, count as usize)?;
    for _word in 0..count {
        all.push(Turns::new(alloc))?;
    }
    Ok(all)
}

impl Switches {
    /// All switches before the first micro step.
    fn new(alloc: Global, image: &Image, threads: u32) -> Result<Switches, NoMemory>
        requires { threads ≤ MAX_THREADS }
        ensures words { IfOk result (IsOfWords image.now threads) }
        ensures switches { IfOk result (λ switches. (script : List PatchCommand)
            → AreSwitches image.now threads (code_at image.now threads script) 0 switches) }
    {
        Ok(Switches {
            heads: all_off(alloc, image.sled_count())?,
            handler: Turns::new(alloc),
            log: Turns::new(alloc),
            arg_handler: Turns::new(alloc),
            releases: all_off(alloc, threads)?,
            handler_word: handler_word(image),
            state_word: state_word(image),
            arg_handler_word: arg_handler_word(image, threads),
        })
    }

    /// Notes a store of a value in a word: it has the value from the place on.
    fn store(&mut self, word: u32, value: u64, place: u32) -> Result<(), AllocError>
        requires { TakesStore self.old word }
        ensures words { OnOk result ((program : Program) (threads : ℕ) → IsOfWords program threads self.old
            → IsOfWords program threads self.new) }
        ensures switches { OnOk result ((program : Program) (threads : ℕ) (code : ℕ → ℕ → ℕ) (last : ℕ)
            → IsOfWords program threads self.old → AreSwitches program threads code last self.old
            → place ≡ last + 1 → IsNext code last word value → AreSwitches program threads code place self.new) }
    {
        if word < self.handler_word {
            self.store_part(word, value, place)
        } else if word == self.handler_word {
            self.handler.note(place, value != NO_HANDLER)
        } else if word == self.state_word {
            self.log.note(place, value == INITIALIZED)
        } else if word == self.arg_handler_word {
            self.arg_handler.note(place, value != NO_HANDLER)
        } else {
            self.releases[(word - self.state_word - 1) as usize].note(place, value != 0)
        }
    }

    /// Notes a store in a word of a sled, which matters if it is the head.
    fn store_part(&mut self, word: u32, value: u64, place: u32) -> Result<(), AllocError>
        requires words { TakesStore self.old word }
        requires part { word < self.old.handler_word }
        ensures words { OnOk result ((program : Program) (threads : ℕ) → IsOfWords program threads self.old
            → IsOfWords program threads self.new) }
        ensures switches { OnOk result ((program : Program) (threads : ℕ) (code : ℕ → ℕ → ℕ) (last : ℕ)
            → IsOfWords program threads self.old → AreSwitches program threads code last self.old
            → place ≡ last + 1 → IsNext code last word value → AreSwitches program threads code place self.new) }
    {
        if word % PARTS == 0 {
            self.heads[(word / PARTS) as usize].note(place, value == PATCHED_HEAD)
        } else {
            Ok(())
        }
    }
}

impl Course {
    /// The course of a script for this image.
    pub(crate) fn new(
        alloc: Global,
        image: &Image,
        script: &Script,
        threads: u32,
    ) -> Result<Course, NoMemory>
        requires program { script.now.program ≡ image.now }
        requires threads { script.now.threads ≡ threads }
        requires few { threads ≤ MAX_THREADS }
        ensures { IfOk result (IsCourseOf image.now threads (commands_of script.now.lines)) }
    {
        let total = script.total();
        let mut course = Course {
            switches: Switches::new(alloc, image, threads)?,
            awaits: Vec::new(alloc),
            start: script.start() as u32,
            total: total as u32,
        };
        let mut near = 0;
        for place in 0..total {
            course.take(script.micro_near(place, &mut near), place as u32)?;
        }
        Ok(course)
    }

    /// Takes the micro step at a place.
    fn take(&mut self, micro: Micro, place: u32) -> Result<(), NoMemory>
        requires step { TakesStep self.old micro }
        requires place { place < most_micros }
        ensures words { OnOk result ((program : Program) (threads : ℕ) → IsOfWords program threads self.old.switches
            → IsOfWords program threads self.new.switches) }
        ensures step { OnOk result (TakesOne self.old micro place self.new) }
    {
        stores_give_the_code();
        match micro {
            Micro::Store { word, value } => self.switches.store(word, value, place + 1)?,
            Micro::Await { thread, count } => self.awaits.push(Awaited {
                place,
                thread,
                count,
            })?,
            Micro::End => (),
        }
        Ok(())
    }
}
