//! The pass of one thread.

ghost use Rattle.std.specs.Prelude.{◌≡◌, length};

use crate::view::View;
use crossbeam_queue::Pass;
use fdr_buffer::Buffer;
use std::marker::Model;

/// A thread's pass of a pool. It says how many buffers the thread has sealed. Contracts see which ones.
#[derive(Drop)]
pub struct PoolPass {
    pub(crate) pass: Pass<Buffer, View>,
    /// How many buffers were sealed.
    pub(crate) count: u32,
}

impl Model for PoolPass {
    ghost use Rattle.std.specs.Prelude.{◌≡◌, length, []};
    ghost use Rattle.buffer_queue.specs.Passes.{PassIs};
    ghost use Rattle.buffer_queue.specs.private.Ready.{known, pass_is, IsReady};

    ghost Value = { PassIs };

    ghost view = { λ p. pass_is p.pass.table_id (known p.pass) };

    ghost invariant = { λ p. IsReady (known p.pass) × (p.pass.me.1 ≡ []) × (p.count ≡ length (known p.pass).sealed) };
}

impl PoolPass {
    /// How many buffers the thread has sealed.
    pub fn sealed(&self) -> u32
        ensures { result ≡ length self.now.sealed }
    {
        self.count
    }
}
