//! How a pool ends: pass 1 is handed all other passes back, and takes all that is queued.

ghost use Rattle.std.specs.Prelude.{◌≡◌, ◌<◌, ◌≤◌, ◌+◌, [], ◌∷◌, length, true, vec_capacity, vec_len};
ghost use Rattle.crossbeam_queue.specs.Passes.{view, IsPassOf, IsSamePass};
ghost use Rattle.buffer_queue.specs.{Left.{AddsLeft}, Passes.{sealed_of, AreOf}};
ghost use Rattle.buffer_queue.specs.private.{Ready.{pool_is}, Steps.{MayDrain}};
ghost use Rattle.buffer_queue.specs.private.Changes.{draining, taking_in};

use crate::law::{Drains, HasDrained, Queue, TakesIn};
use crate::pass::PoolPass;
use crate::view::View;
use crossbeam_queue::Pass;
use fdr_buffer::Buffer;
use machine_step::Setup;
use std::sync::Wait;

/// Hands pass 1 the pass of the next thread back.
fn take_in(queue: &Queue, head: &mut Pass<Buffer, View>, other: PoolPass)
    requires queue { IsPassOf queue.now head.old }
    requires other { other.pool ≡ queue.now.table.shared.table_id }
    requires live { (view head.old).live ≡ true }
    requires first { (view head.old).thread ≡ 1 }
    requires next { other.thread ≡ length (view head.old).returned + 2 }
    ensures queue { IsSamePass head.old head.new }
    ensures head { view head.new ≡ taking_in (view head.old) other.sealed }
{
    queue.absorb::<TakesIn>(head, other.pass);
}

/// Hands pass 1 the passes of all other threads back, in the order of the threads.
pub(crate) fn take_in_all(
    queue: &Queue,
    head: Pass<Buffer, View>,
    others: Vec<PoolPass>,
    setup: &Setup,
) -> Pass<Buffer, View>
    requires queue { IsPassOf queue.now head }
    requires others { AreOf (pool_is queue.now.table.shared.table_id setup.now) 2 others.items }
    requires live { (view head).live ≡ true }
    requires first { (view head).thread ≡ 1 }
    requires none { (view head).returned ≡ [] }
    ensures queue { IsPassOf queue.now result }
    ensures head { view result ≡ record (view head) { returned = sealed_of others.items } }
{
    let mut head = head;
    // Only the contract reads the setup.
    let _setup = *setup;
    for other in others {
        take_in(queue, &mut head, other);
    }
    head
}

/// Takes the buffer at the front. There is one while fewer than all spare buffers were drained.
fn drain_one<R: Wait>(rt: &R, queue: &Queue, head: &mut Pass<Buffer, View>) -> Buffer
    requires queue { IsPassOf queue.now head.old }
    requires may { MayDrain (view head.old) }
    requires stocked { (view head.old).pushed + (view head.old).setup.threads ≡ (view head.old).setup.max }
    requires some { length (view head.old).drained + (view head.old).setup.threads < (view head.old).setup.max }
    ensures queue { IsSamePass head.old head.new }
    ensures head { view head.new ≡ draining (view head.old) result }
{
    match queue.pop_as::<Drains, R>(rt, head) {
        Some(buffer) => buffer,
        None => unreachable!(),
    }
}

/// Takes all that is queued, by pass 1 that has all other passes.
pub(crate) fn drain_all<R: Wait>(
    rt: &R,
    queue: &Queue,
    head: Pass<Buffer, View>,
    setup: &Setup,
    into: &mut Vec<Buffer>,
)
    requires queue { IsPassOf queue.now head }
    requires may { MayDrain (view head) }
    requires setup { (view head).setup ≡ setup.now }
    requires stocked { (view head).pushed + setup.now.threads ≡ setup.now.max }
    requires none { (view head).drained ≡ [] }
    requires room { vec_len into.old + setup.now.max ≤ vec_capacity into.old }
    ensures left { AddsLeft setup.now ((view head).sealed ∷ (view head).returned) into.old.items into.new.items }
    ensures capacity { vec_capacity into.new ≡ vec_capacity into.old }
{
    let mut head = head;
    for _drained in 0..setup.max - setup.threads {
        let buffer = drain_one(rt, queue, &mut head);
        into.push_reserved(buffer);
    }
    queue.learn_as::<HasDrained>(&mut head);
}
