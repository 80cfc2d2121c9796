//! What a plain run of a thread leaves.

use crate::end::End;

/// The end of a thread whose sleds are only counted, and what it leaves.
#[derive(Drop)]
pub struct PlainEnd {
    /// The thread's number.
    pub thread: u32,
    /// How it ended.
    pub end: End,
    /// The values of the 16 registers, register n at place n, numbered as in `Reg`. Registers 4 and
    /// 10 are 0, since no instruction names them.
    pub regs: Vec<u64>,
    /// Whether the last `add` or `sub` gave 0. It is false before the first of them.
    pub zf: bool,
    /// The bytes of all `out`s, in order.
    pub output: Vec<u8>,
    /// How many instructions were made, at most the fuel.
    pub instructions: u64,
    /// How many sleds were passed, at most the limit of passings.
    pub passings: u32,
}
