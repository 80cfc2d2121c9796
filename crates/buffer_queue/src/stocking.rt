//! How a pool begins: fresh buffers are queued, and each thread gets a pass and a buffer.

ghost use Rattle.std.specs.Prelude.{◌≡◌, ◌<◌, ◌+◌, ◌-◌, IfOk};
ghost use Rattle.crossbeam_queue.specs.Passes.{view, IsPassOf, IsSamePass, ruled_capacity};
ghost use Rattle.machine_step.specs.Setups.{IsSetup};
ghost use Rattle.buffer_queue.specs.Passes.{new_pass, AreNew};
ghost use Rattle.buffer_queue.specs.private.{Ready.{pass_is, pool_is}, Steps.{MayGive, MayStock}};
ghost use Rattle.buffer_queue.specs.Views.{opener};
ghost use Rattle.buffer_queue.specs.private.Changes.{giving, head_view, new_view, stocking};

use crate::law::{Gives, Opening, Opens, Queue, Stocks};
use crate::pass::PoolPass;
use crate::view::View;
use crossbeam_queue::Pass;
use fdr_buffer::Buffer;
use machine_step::Setup;
use std::alloc::Global;
use std::marker::Brand;
use std::sync::Wait;
use xray_io::NoMemory;

/// Spends the pass that the queue was made with, and makes pass 1 with the setup that `O` names.
fn open<O: Opening>(queue: &Queue, unused: Pass<Buffer, View>, setup: &Setup) -> Pass<Buffer, View>
    requires queue { IsPassOf queue.now unused }
    requires view { view unused ≡ opener }
    requires picked { O.setup ≡ setup.now }
    requires setup { IsSetup setup.now }
    ensures queue { IsPassOf queue.now result }
    ensures head { view result ≡ head_view setup.now 1 0 }
{
    let mut unused = unused;
    // Only the contract reads the setup.
    let _setup = *setup;
    queue.another::<Opens<O>>(&mut unused)
}

/// Pass 1, which queues all fresh buffers and makes all other passes.
pub(crate) fn head_pass(
    queue: &Queue,
    unused: Pass<Buffer, View>,
    setup: &Setup,
) -> Pass<Buffer, View>
    requires queue { IsPassOf queue.now unused }
    requires view { view unused ≡ opener }
    requires setup { IsSetup setup.now }
    ensures queue { IsPassOf queue.now result }
    ensures head { view result ≡ head_view setup.now 1 0 }
{
    open::<Brand>(queue, unused, setup)
}

/// Queues a fresh buffer.
fn stock<R: Wait>(rt: &R, queue: &Queue, head: &mut Pass<Buffer, View>, fresh: Buffer)
    requires queue { IsPassOf queue.now head.old }
    requires room { ruled_capacity queue.now ≡ (view head.old).setup.max }
    requires may { MayStock (view head.old) fresh }
    ensures queue { IsSamePass head.old head.new }
    ensures head { view head.new ≡ stocking (view head.old) }
{
    match queue.push_as::<Stocks, R>(rt, head, fresh) {
        Ok(()) => {}
        Err(_) => unreachable!(),
    }
}

/// Queues all fresh buffers except one for each thread's hand.
pub(crate) fn stock_all<R: Wait>(
    rt: &R,
    alloc: Global,
    queue: &Queue,
    head: Pass<Buffer, View>,
    setup: &Setup,
) -> Result<Pass<Buffer, View>, NoMemory>
    requires queue { IsPassOf queue.now head }
    requires head { view head ≡ head_view setup.now 1 0 }
    requires room { ruled_capacity queue.now ≡ setup.now.max }
    requires setup { IsSetup setup.now }
    ensures queue { IfOk result (λ pass. IsPassOf queue.now pass) }
    ensures head { IfOk result (λ pass. view pass ≡ head_view setup.now 1 (setup.now.max - setup.now.threads)) }
{
    let mut head = head;
    for _pushed in 0..setup.max - setup.threads {
        let fresh = Buffer::new(alloc, setup.size)?;
        stock(rt, queue, &mut head, fresh);
    }
    Ok(head)
}

/// Makes the pass of the next thread.
fn give(queue: &Queue, head: &mut Pass<Buffer, View>) -> PoolPass
    requires queue { IsPassOf queue.now head.old }
    requires may { MayGive (view head.old) }
    requires given { 0 < (view head.old).given }
    ensures queue { IsSamePass head.old head.new }
    ensures head { view head.new ≡ giving (view head.old) }
    ensures pass { result ≡ pass_is queue.now.table.shared.table_id
        (new_view (view head.old).setup ((view head.old).given + 1)) }
{
    let pass = queue.another::<Gives>(head);
    PoolPass { pass, count: 0 }
}

/// Makes the passes of threads 2, 3 and so on, each with a fresh buffer.
pub(crate) fn give_all(
    alloc: Global,
    queue: &Queue,
    head: &mut Pass<Buffer, View>,
    setup: &Setup,
) -> Result<Vec<(PoolPass, Buffer)>, NoMemory>
    requires queue { IsPassOf queue.now head.old }
    requires head { view head.old ≡ head_view setup.now 1 (setup.now.max - setup.now.threads) }
    requires setup { IsSetup setup.now }
    ensures queue { IfOk result (λ hands. IsSamePass head.old head.new) }
    ensures head { IfOk result (λ hands.
        view head.new ≡ head_view setup.now setup.now.threads (setup.now.max - setup.now.threads)) }
    ensures hands { IfOk result (λ hands.
        AreNew (pool_is queue.now.table.shared.table_id setup.now) 2 setup.now.threads hands.items) }
{
    let mut hands = Vec::new(alloc);
    for _given in 1..setup.threads {
        let pass = give(queue, head);
        let fresh = Buffer::new(alloc, setup.size)?;
        hands.push((pass, fresh))?;
    }
    Ok(hands)
}

/// Pass 1 for its thread, after it has made all others.
pub(crate) fn first_pass(queue: &Queue, head: Pass<Buffer, View>, setup: &Setup) -> PoolPass
    requires queue { IsPassOf queue.now head }
    requires head { view head ≡ head_view setup.now setup.now.threads (setup.now.max - setup.now.threads) }
    requires setup { IsSetup setup.now }
    ensures { result ≡ new_pass (pool_is queue.now.table.shared.table_id setup.now) 1 }
{
    // Only the contract reads the setup.
    let _setup = *setup;
    PoolPass {
        pass: head,
        count: 0,
    }
}
