//! The header of an image file.

ghost use Rattle.std.specs.Prelude.{◌≡◌, ◌≤◌, length, OnOk, IfOk, IfErr};

use crate::fault::{ImageFault, Which};
use crate::fields::{u32_at, u64_at};
use crate::format::{
    ARGS_TRAMPOLINE_AT, BASE_ALIGNMENT, BASE_AT, BASE_LIMIT, CODE_LENGTH_AT, CODE_LIMIT,
    ENTRY_COUNT_AT, ENTRY_INDEX_AT, ENTRY_TRAMPOLINE_AT, EXIT_TRAMPOLINE_AT, FUNCTION_COUNT_AT,
    FUNCTION_LIMIT, HEADER_LENGTH, MAGIC, SLED_LIMIT, TAIL_TRAMPOLINE_AT, VERSION, VERSION_AT,
};
use crate::sled::SledKind;

/// The addresses of the handlers' trampolines, by the kind of the sleds that call them.
#[derive(Clone, Copy)]
pub(crate) struct Trampolines {
    pub(crate) entry: u64,
    pub(crate) exit: u64,
    pub(crate) tail: u64,
    pub(crate) args: u64,
}

impl Trampolines {
    ghost use Rattle.xray_image.specs.Program.{trampoline_of};
    ghost use Rattle.xray_image.specs.private.Views.{trampolines_of};

    /// The trampoline for a kind of sleds.
    pub(crate) fn of(&self, kind: SledKind) -> u64
        ensures { result ≡ trampoline_of (trampolines_of self.now) kind }
    {
        match kind {
            SledKind::Entry => self.entry,
            SledKind::Exit => self.exit,
            SledKind::Tail => self.tail,
            SledKind::Args => self.args,
        }
    }
}

/// The header's fields.
#[derive(Clone, Copy)]
pub(crate) struct Header {
    version: u32,
    pub(crate) base: u64,
    pub(crate) code_length: u32,
    pub(crate) functions: u32,
    pub(crate) entries: u32,
    pub(crate) entry_index: u32,
    pub(crate) trampolines: Trampolines,
}

impl Header {
    ghost use Rattle.xray_image.specs.{Header.{HasHeader}, Table.{ReadsAs}};
    ghost use Rattle.xray_image.specs.private.Views.{IsHeaderOf};

    /// The header of a file, or the first fault of its fields, in the order of the checks.
    pub(crate) fn read(bytes: &[u8]) -> Result<Header, ImageFault>
        ensures accepted { OnOk result (HasHeader bytes.now) }
        ensures fields { IfOk result (IsHeaderOf bytes.now) }
        ensures refused { IfErr result (λ fault. ReadsAs bytes.now (Err fault)) }
    {
        if bytes.len() < HEADER_LENGTH {
            return Err(ImageFault::Short);
        }
        if !bytes.starts_with(&MAGIC) {
            return Err(ImageFault::Magic);
        }
        let header = Header::fields(bytes);
        if header.version != VERSION {
            return Err(ImageFault::Version);
        }
        if header.code_length > CODE_LIMIT {
            return Err(ImageFault::Limit(Which::Code));
        }
        if header.functions == 0 || header.functions > FUNCTION_LIMIT {
            return Err(ImageFault::Limit(Which::Functions));
        }
        if header.entries > SLED_LIMIT {
            return Err(ImageFault::Limit(Which::Sleds));
        }
        if header.entry_index >= header.functions {
            return Err(ImageFault::Limit(Which::Entry));
        }
        if header.base % BASE_ALIGNMENT != 0 || header.base > BASE_LIMIT {
            return Err(ImageFault::Limit(Which::Base));
        }
        Ok(header)
    }

    /// The fields of the header, read from their places.
    fn fields(bytes: &[u8]) -> Header
        requires { HEADER_LENGTH ≤ length bytes.now }
        ensures { IsHeaderOf bytes.now result }
    {
        Header {
            version: u32_at(bytes, VERSION_AT),
            base: u64_at(bytes, BASE_AT),
            code_length: u32_at(bytes, CODE_LENGTH_AT),
            functions: u32_at(bytes, FUNCTION_COUNT_AT),
            entries: u32_at(bytes, ENTRY_COUNT_AT),
            entry_index: u32_at(bytes, ENTRY_INDEX_AT),
            trampolines: Trampolines {
                entry: u64_at(bytes, ENTRY_TRAMPOLINE_AT),
                exit: u64_at(bytes, EXIT_TRAMPOLINE_AT),
                tail: u64_at(bytes, TAIL_TRAMPOLINE_AT),
                args: u64_at(bytes, ARGS_TRAMPOLINE_AT),
            },
        }
    }
}
