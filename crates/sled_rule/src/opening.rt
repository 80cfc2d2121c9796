//! How a table begins.

ghost use Rattle.std.specs.Prelude.{◌≡◌, ◌≤◌, ◌+◌, ◌*◌, ◌++◌, replicate, IfOk};
ghost use Rattle.sled_words.specs.{Parts.{initial_words as words_before}, Words.{word_count}};
ghost use Rattle.sled_rule.specs.{Seats.{patch_view, script_of, IsPatcherOf}, Views.{first_patch}};

use crate::seats::PatchSeat;
use crate::slots::slot_count;
use crate::table::CodeTable;
use atomic_table::Table;
use patch_script::{Script, stores_give_the_code};
use sled_words::{MAX_THREADS, initial_words, word_count};
use std::alloc::Global;
use xray_image::Image;
use xray_io::NoMemory;

impl CodeTable {
    /// A table with the words of an image and of `threads` threads, before the first micro step of
    /// a script that was read for both, and the patcher's seat.
    ///
    /// `NoMemory` means that an allocation was refused.
    pub fn new(
        alloc: Global,
        image: &Image,
        script: Script,
        threads: u32,
    ) -> Result<(CodeTable, PatchSeat), NoMemory>
        requires image { script.program ≡ image.now }
        requires threads { script.threads ≡ threads }
        requires few { threads ≤ MAX_THREADS }
        ensures own { IfOk result (λ made. IsPatcherOf made.0 made.1) }
        ensures script { IfOk result (λ made. script_of made.0 ≡ script) }
        ensures view { IfOk result (λ made. patch_view made.1 ≡ first_patch script) }
    {
        stores_give_the_code();
        script.micro_steps_are_few();
        let word_len = word_count(image, threads);
        let words = opening_words(alloc, image, threads, word_len)?;
        let (table, seat) = Table::of_words(alloc, &words, &script)?;
        let table = CodeTable {
            script,
            threads,
            word_len,
            table,
        };
        let seat = PatchSeat {
            place: 0,
            given: 0,
            near: 0,
            seat,
        };
        Ok((table, seat))
    }

    /// The script that the patcher goes through.
    pub fn script(&self) -> &Script
        ensures { result.now ≡ script_of self.now }
    {
        &self.script
    }
}

/// The words before the script, each in its slot. All words after those of the sleds are 0.
fn opening_words(
    alloc: Global,
    image: &Image,
    threads: u32,
    word_len: usize,
) -> Result<Vec<u64>, NoMemory>
    requires few { threads ≤ MAX_THREADS }
    requires words { word_len ≡ word_count image.now threads }
    ensures { IfOk result (λ words. words.items
        ≡ words_before image.now threads ++ replicate (16 * (threads + 1)) 0) }
{
    image.sleds_stand_in_units();
    let mut words = initial_words(alloc, image, threads)?;
    words.resize(slot_count(word_len, threads), 0)?;
    Ok(words)
}
