//! How a thread exchanges its full buffer for one to fill: a put, and then a take.

ghost use Rattle.std.specs.Prelude.{◌≡◌, true};
ghost use Rattle.crossbeam_queue.specs.Passes.{view, IsPassOf, IsSamePass, ruled_capacity};
ghost use Rattle.buffer_queue.specs.private.{Steps.{MayPut}, Changes.{putting, taking}};

use crate::law::{Puts, Queue, Takes};
use crate::view::View;
use crossbeam_queue::Pass;
use fdr_buffer::Buffer;
use std::sync::Wait;

/// Puts a full buffer at the back. There is always room for it.
pub(crate) fn put<R: Wait>(rt: &R, queue: &Queue, pass: &mut Pass<Buffer, View>, full: Buffer)
    requires queue { IsPassOf queue.now pass.old }
    requires room { ruled_capacity queue.now ≡ (view pass.old).setup.max }
    requires may { MayPut (view pass.old) full }
    ensures queue { IsSamePass pass.old pass.new }
    ensures view { view pass.new ≡ putting (view pass.old) full }
{
    match queue.push_as::<Puts, R>(rt, pass, full) {
        Ok(()) => {}
        Err(_) => unreachable!(),
    }
}

/// Takes the buffer at the front, after a put. There is always one.
pub(crate) fn take<R: Wait>(rt: &R, queue: &Queue, pass: &mut Pass<Buffer, View>) -> Buffer
    requires queue { IsPassOf queue.now pass.old }
    requires live { (view pass.old).live ≡ true }
    requires between { (view pass.old).between ≡ true }
    ensures queue { IsSamePass pass.old pass.new }
    ensures view { view pass.new ≡ taking (view pass.old) }
    ensures size { result.size ≡ (view pass.old).setup.size }
{
    match queue.pop_as::<Takes, R>(rt, pass) {
        Some(buffer) => buffer,
        None => unreachable!(),
    }
}
