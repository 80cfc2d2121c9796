//! Threads that load all words of a code table again and again, while a patcher makes the micro steps of a script.
//!
//! `table_bench IMAGE SCRIPT THREADS ROUNDS` reads an image and a script. A round of a thread loads each code word, in
//! order, and counts as a passing. Each thread makes the ROUNDS that the words say. Then the program prints how many
//! threads there were, and how many micro steps were made. `bench/table` measures it.
#![tactic(auto)]

ghost use Rattle.std.specs.Prelude.{◌≡◌, ◌≤◌};

mod fetching;

use anyhow::{anyhow, ensure};
use fetching::{fetch_beside, seats_of_all};
use patch_script::{Script, read_script};
use sled_patch::run_prefix;
use sled_rule::CodeTable;
use sled_words::MAX_THREADS;
use std::sync::Wait;
use std::thread::Threads;
use std::{env, fs};
use text_lines::count_lines;
use xray_image::{Image, read_image};

/// Does what the words of the command line say, and prints what was done.
fn main(rt: HostRuntime) -> anyhow::Result<()> {
    let words: Vec<String> = env::args(&rt)?.skip(1).collect(rt.alloc())?;
    ensure!(
        words.len() == 4,
        "usage: table_bench IMAGE SCRIPT THREADS ROUNDS"
    );
    let threads: u32 = words[2].parse()?;
    ensure!(
        0 < threads && threads <= MAX_THREADS,
        "there are 1 to 16 threads"
    );
    let rounds: u32 = words[3].parse()?;
    let image = read_image(rt.alloc(), &fs::read(&rt, &words[0])?)?;
    let text = fs::read(&rt, &words[1])?;
    ensure!(count_lines(&text) <= MOST_LINES, "the script is too long");
    let script = read_script(rt.alloc(), &text, &image, threads)?;
    run(&rt, &image, script, threads, rounds)
}

/// How many lines a script may have here.
const MOST_LINES: usize = 65_536;

/// Lets the threads fetch while the patcher goes through the script.
fn run<R: Print + AllocGlobal + Threads + Wait + Sync>(
    rt: &R,
    image: &Image,
    script: Script,
    threads: u32,
    rounds: u32,
) -> anyhow::Result<()>
    requires image { script.program ≡ image.now }
    requires threads { script.threads ≡ threads }
    requires few { threads ≤ MAX_THREADS }
{
    let (table, mut patcher) = CodeTable::new(rt.alloc(), image, script, threads).map_err(
        |_| anyhow!("out of memory"),
    )?;
    run_prefix(&table, &mut patcher);
    let mut fetchers = seats_of_all(rt.alloc(), &table, &mut patcher, threads)?;
    let patcher = fetch_beside(rt, &table, patcher, &mut fetchers, rounds);
    for fetcher in &fetchers {
        ensure!(fetcher.found <= WIDEST, "no word has this value");
    }
    println!(rt;
        "threads {} micro steps {}",
        fetchers.len(),
        patcher.place()
    )?;
    Ok(())
}

/// The words have at most 32 bits.
const WIDEST: u64 = 0xFFFF_FFFF;
