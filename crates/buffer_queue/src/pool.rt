//! The pool.

ghost use Rattle.std.specs.Prelude.{◌≡◌, ◌<◌, ◌≤◌, ◌+◌, ◌-◌, ◌^◌, IfOk, length, true, vec_capacity, vec_len};
ghost use Rattle.machine_step.specs.Setups.{IsSetup};
ghost use Rattle.buffer_queue.specs.Left.{AddsLeft};
ghost use Rattle.buffer_queue.specs.Passes.{sealed_of, sealing, AreNew, AreOf, IsOf};

use crate::draining::{drain_all, take_in_all};
use crate::law::Queue;
use crate::pass::PoolPass;
use crate::stocking::{first_pass, give_all, head_pass, stock_all};
use crate::turning::{put, take};
use fdr_buffer::Buffer;
use machine_step::Setup;
use std::alloc::Global;
use std::marker::Model;
use std::sync::Wait;
use xray_io::NoMemory;

/// A queue of buffers that all threads of a run share by `&`, without a lock. LLVM's
/// `xray_buffer_queue.h` has such a queue, with a lock.
#[derive(Drop)]
pub struct Pool {
    queue: Queue,
    setup: Setup,
}

impl Model for Pool {
    ghost use Rattle.std.specs.Prelude.{◌≡◌, ◌≤◌};
    ghost use Rattle.crossbeam_queue.specs.Passes.{ruled_capacity};
    ghost use Rattle.buffer_queue.specs.Passes.{PoolIs};

    ghost Value = { PoolIs };

    ghost view = { λ p. record { pool = p.queue.table.shared.table_id; setup = p.setup } };

    ghost invariant = { λ p. (ruled_capacity p.queue ≡ p.setup.max) × (1 ≤ p.setup.threads) };
}

impl Pool {
    /// A pool of `max` buffers of `size` bytes, all of them fresh. Gives each thread, from thread 1 on,
    /// its pass and one of the buffers, and queues the others. `NoMemory` comes when an allocation was
    /// refused.
    pub fn new<R: Wait>(
        rt: &R,
        alloc: Global,
        setup: &Setup,
    ) -> Result<(Pool, Vec<(PoolPass, Buffer)>), NoMemory>
        requires { IsSetup setup.now }
        ensures setup { IfOk result (λ made. made.0.setup ≡ setup.now) }
        ensures hands { IfOk result (λ made. AreNew made.0 1 setup.now.threads made.1.items) }
    {
        let (queue, unused) = Queue::ruled(alloc, setup.max as usize)?;
        let head = head_pass(&queue, unused, setup);
        let mut head = stock_all(rt, alloc, &queue, head, setup)?;
        let mut hands = give_all(alloc, &queue, &mut head, setup)?;
        let fresh = Buffer::new(alloc, setup.size)?;
        let first = first_pass(&queue, head, setup);
        hands.insert(0, (first, fresh))?;
        let pool = Pool {
            queue,
            setup: *setup,
        };
        Ok((pool, hands))
    }

    /// Seals a thread's full buffer: puts it at the back of the queue, and takes the buffer at the
    /// front. There always is one. What it holds is stale, and may be a segment of any thread.
    ///
    /// The full buffer is one of the thread's segments, with the next serial number. The call
    /// refuses nothing, and can't run out of memory. It may spin while another thread is about to
    /// end a put or a take.
    pub fn turn<R: Wait>(&self, rt: &R, pass: &mut PoolPass, full: Buffer) -> Buffer
        requires pass { IsOf self.now pass.old }
        requires size { full.size ≡ self.now.setup.size }
        requires thread { full.thread ≡ pass.old.thread }
        requires serial { full.serial ≡ length pass.old.sealed }
        requires few { full.serial < 2 ^ 32 - 1 }
        requires begun { full.begun ≡ true }
        ensures size { result.size ≡ self.now.setup.size }
        ensures sealed { pass.new ≡ sealing pass.old full }
    {
        put(rt, &self.queue, &mut pass.pass, full);
        let next = take(rt, &self.queue, &mut pass.pass);
        pass.count += 1;
        next
    }

    /// Moves all that is queued to the end of `into`, in the queue's order. All threads have to
    /// hand their passes back, thread 1 first, and `into` needs room for `max` more buffers.
    pub fn drain<R: Wait>(self, rt: &R, passes: Vec<PoolPass>, into: &mut Vec<Buffer>)
        requires passes { AreOf self 1 passes.items }
        requires all { vec_len passes ≡ self.setup.threads }
        requires room { vec_len into.old + self.setup.max ≤ vec_capacity into.old }
        ensures left { AddsLeft self.setup (sealed_of passes.items) into.old.items into.new.items }
        ensures capacity { vec_capacity into.new ≡ vec_capacity into.old }
    {
        let mut others = passes;
        let first = others.remove(0);
        let head = take_in_all(&self.queue, first.pass, others, &self.setup);
        drain_all(rt, &self.queue, head, &self.setup, into);
    }
}
