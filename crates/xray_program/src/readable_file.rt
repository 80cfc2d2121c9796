//! A file that begins with a trace.
use std::marker::Model;

/// The bytes of a file, and how long their longest prefix is that is a trace.
#[derive(Drop)]
pub(crate) struct ReadableFile {
    pub(crate) bytes: Vec<u8>,
    pub(crate) end: usize,
}

impl Model for ReadableFile {
    ghost use Rattle.xray_program.specs.Inputs.{Readable};

    ghost Value = { Readable };

    ghost view = { λ f. record { bytes = f.bytes.items; len = f.end } };
}
