//! Calls of `buffer_queue`: threads that seal segments in one pool.

ghost use Rattle.std.specs.Prelude.{◌≡◌, ◌<◌, ◌≤◌, ◌+◌, ◌^◌, length};
ghost use Rattle.machine_step.specs.Setups.{IsSetup};
ghost use Rattle.buffer_queue.specs.Passes.{IsOf, new_hand};

use buffer_queue::{Pool, PoolPass};
use fdr_buffer::Buffer;
use fdr_record::{Event, Kind};
use machine_step::{Limits, Setup};
use std::alloc::Global;
use std::sync::Wait;
use std::test::Fail;
use std::thread::{Threads, join};
use xray_io::Wall;

/// A setup with small buffers.
fn setup_of(threads: u32, max: u32) -> Setup
    requires threads { (1 ≤ threads) × (threads ≤ 16) }
    requires max { (threads ≤ max) × (max ≤ 1_024) }
    ensures setup { IsSetup result }
    ensures threads { result.threads ≡ threads }
    ensures max { result.max ≡ max }
    ensures size { result.size ≡ 128 }
{
    Setup {
        threads,
        size: 128,
        max,
        limits: Limits {
            fuel: 1,
            passings: 1,
            tick: 1,
            tsc: 0,
            cpus: 1,
            migrate: 1,
        },
        pid: 1,
        wall: Wall { secs: 0, micros: 0 },
        frequency: 1,
    }
}

/// Begins the thread's next segment in its hand, with one event, and seals it.
fn seal_one<R: Wait>(rt: &R, pool: &Pool, pass: &mut PoolPass, thread: u32, hand: Buffer) -> Buffer
    requires pass { IsOf pool.now pass.old }
    requires thread { pass.old.thread ≡ thread }
    requires few { length pass.old.sealed < 100 }
    requires size { hand.size ≡ pool.now.setup.size }
    ensures pass { IsOf pool.now pass.new }
    ensures thread { pass.new.thread ≡ thread }
    ensures count { length pass.new.sealed ≡ length pass.old.sealed + 1 }
    ensures size { result.size ≡ pool.now.setup.size }
{
    let mut hand = hand;
    hand.begin(thread, pass.sealed(), Wall { secs: 0, micros: 0 }, 1);
    let event = Event {
        kind: Kind::Entry,
        func: 1,
        cpu: 0,
        tsc: pass.sealed() as u64,
        arg: 0,
    };
    if hand.fits(&event) {
        hand.put(&event);
    }
    pool.turn(rt, pass, hand)
}

/// Seals three segments of a thread that has sealed none.
fn seal_three<R: Wait>(rt: &R, pool: &Pool, pass: PoolPass, thread: u32, hand: Buffer) -> PoolPass
    requires hand { (pass, hand) ≡ new_hand pool.now thread }
    ensures pass { IsOf pool.now result }
    ensures thread { result.thread ≡ thread }
    ensures count { length result.sealed ≡ 3 }
{
    let mut pass = pass;
    let hand = seal_one(rt, pool, &mut pass, thread, hand);
    let hand = seal_one(rt, pool, &mut pass, thread, hand);
    let _hand = seal_one(rt, pool, &mut pass, thread, hand);
    pass
}

/// Seals three segments of each of two threads at the same time.
fn seal_both<R: Threads + Wait + Sync>(
    rt: &R,
    pool: &Pool,
    first: PoolPass,
    first_hand: Buffer,
    second: PoolPass,
    second_hand: Buffer,
) -> (PoolPass, PoolPass)
    requires first { (first, first_hand) ≡ new_hand pool.now 1 }
    requires second { (second, second_hand) ≡ new_hand pool.now 2 }
    ensures first { IsOf pool.now result.0 × (result.0.thread ≡ 1) }
    ensures second { IsOf pool.now result.1 × (result.1.thread ≡ 2) }
{
    join(
        rt,
        || seal_three(rt, pool, first, 1, first_hand),
        || seal_three(rt, pool, second, 2, second_hand),
    )
}

/// What is left of five buffers after two threads, at the same time, have sealed three segments each.
fn run_two<R: Threads + Wait + Sync>(rt: &R, alloc: Global) -> Result<Vec<Buffer>, Fail> {
    let setup = setup_of(2, 5);
    let (pool, mut hands) = Pool::new(rt, alloc, &setup)?;
    let mut passes = Vec::with_capacity(alloc, 2)?;
    let mut left = Vec::with_capacity(alloc, 5)?;
    let (first, first_hand) = hands.remove(0);
    let (second, second_hand) = hands.remove(0);
    let (first, second) = seal_both(rt, &pool, first, first_hand, second, second_hand);
    passes.push_reserved(first);
    passes.push_reserved(second);
    pool.drain(rt, passes, &mut left);
    Ok(left)
}

/// Whether the segments of a thread follow one another, up to its segment 2.
fn are_last(left: &[Buffer], thread: u32) -> bool {
    let mut next = None;
    for buffer in left {
        if buffer.thread() != thread {
            continue;
        }
        let serial = buffer.serial();
        if next.is_some() && next != Some(serial) {
            return false;
        }
        next = Some(serial.wrapping_add(1));
    }
    next.is_none() || next == Some(3)
}

#[test]
fn two_threads_share_a_pool(rt: HostRuntime) -> Result<(), Fail> {
    let left = run_two(&rt, rt.alloc())?;
    assert!(rt; left.len() == 3);
    assert!(rt; left[0].begun() && left[1].begun() && left[2].begun());
    assert!(rt; are_last(left.as_slice(), 1));
    assert!(rt; are_last(left.as_slice(), 2));
    Ok(())
}
