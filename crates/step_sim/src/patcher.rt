//! The patcher of a replay, and the words under its stores.

ghost use Rattle.std.specs.Prelude.{◌≡◌, ◌≤◌, ◌<◌, ◌+◌, ℕ, List, IfOk, min, vec_len, slice_set};
ghost use Rattle.std.specs.Bool.{OnFalse};
ghost use Rattle.xray_image.specs.Program.{Program};
ghost use Rattle.patch_script.specs.declared.command.PatchCommand.{PatchCommand};
ghost use Rattle.patch_script.specs.{Micros.{start_of, total_of}, Refusals.{commands_of}};
ghost use Rattle.patch_script.specs.StoredWords.{stored};

use patch_script::{Micro, Script, stores_give_the_code};
use sled_words::{MAX_THREADS, initial_words};
use std::alloc::Global;
use xray_image::Image;
use xray_io::NoMemory;

/// The words of an image and its threads, and the script whose first micro steps were made in them.
#[derive(Drop)]
pub(crate) struct Patcher<'a> {
    script: &'a Script,
    /// The words by their numbers.
    words: Vec<u64>,
    /// How many micro steps were made.
    place: u64,
    /// The number of the command that a micro step was last found at.
    near: u32,
}

impl<'a> Patcher<'a> {
    ghost use Rattle.sled_words.specs.Words.{word_count};
    ghost use Rattle.patch_script.specs.CodeAt.{code_at};
    ghost use Rattle.step_sim.specs.private.Standing.{IsPatcherAt};

    /// The words as they are when the threads start: after the script's steps before `go`.
    pub(crate) fn new(
        alloc: Global,
        image: &Image,
        script: &'a Script,
        threads: u32,
    ) -> Result<Patcher<'a>, NoMemory>
        requires threads { threads ≤ MAX_THREADS }
        requires program { script.now.program ≡ image.now }
        requires same_threads { script.now.threads ≡ threads }
        ensures at { let commands = commands_of script.now.lines in
            IfOk result (IsPatcherAt image.now threads commands (start_of image.now threads commands)) }
        ensures words { IfOk result (λ p. vec_len p.words ≡ word_count image.now threads) }
    {
        stores_give_the_code();
        let words = initial_words(alloc, image, threads)?;
        let mut patcher = Patcher {
            script,
            words,
            place: 0,
            near: 0,
        };
        patcher.make_steps(script.start());
        Ok(patcher)
    }

    /// The value of a word.
    #[inline(always)]
    pub(crate) fn load(&self, word: u32) -> u64
        requires { word < vec_len self.now.words }
        ensures { (program : Program) (threads : ℕ) (script : List PatchCommand) (place : ℕ)
            → IsPatcherAt program threads script place self.now
            → result ≡ code_at program threads script place word }
    {
        self.words[word as usize]
    }

    /// Makes this many micro steps, or all that are left if there are fewer.
    pub(crate) fn make_steps(&mut self, count: u64)
        ensures at { (program : Program) (threads : ℕ) (script : List PatchCommand) (place : ℕ)
            → IsPatcherAt program threads script place self.old
            → IsPatcherAt program threads script (min (place + count) (total_of program threads script)) self.new }
        ensures words { vec_len self.new.words ≡ vec_len self.old.words }
    {
        for _step in 0..count {
            if !self.make_step() {
                return;
            }
        }
    }

    /// Makes the next micro step. Returns whether there was one.
    fn make_step(&mut self) -> bool
        ensures at { (program : Program) (threads : ℕ) (script : List PatchCommand) (place : ℕ)
            → IsPatcherAt program threads script place self.old
            → IsPatcherAt program threads script (min (place + 1) (total_of program threads script)) self.new }
        ensures words { vec_len self.new.words ≡ vec_len self.old.words }
        ensures left { OnFalse result ((program : Program) (threads : ℕ) (script : List PatchCommand) (place : ℕ)
            → IsPatcherAt program threads script place self.old → place ≡ total_of program threads script) }
    {
        stores_give_the_code();
        if self.place >= self.script.total() {
            return false;
        }
        let step = self.script.micro_near(self.place, &mut self.near);
        self.apply(step);
        self.place += 1;
        true
    }

    /// What a micro step does to the words. Nothing waits: the script has no `await`.
    fn apply(&mut self, step: Micro)
        ensures words { self.new.words.items ≡ stored self.old.words.items step }
        ensures room { vec_len self.new.words ≡ vec_len self.old.words }
        ensures script { self.new.script ≡ self.old.script }
        ensures place { self.new.place ≡ self.old.place }
    {
        if let Micro::Store { word, value } = step {
            self.store(word, value);
        }
    }

    /// Stores a value in a word.
    fn store(&mut self, word: u32, value: u64)
        ensures words { self.new.words.items ≡ slice_set self.old.words.items word value }
        ensures room { vec_len self.new.words ≡ vec_len self.old.words }
        ensures script { self.new.script ≡ self.old.script }
        ensures place { self.new.place ≡ self.old.place }
    {
        // A script stores only in words that exist.
        if let Some(held) = self.words.get_mut(word as usize) {
            *held = value;
        }
    }
}
