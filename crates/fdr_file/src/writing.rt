//! Writing traces as the bytes of a file.

ghost use Rattle.std.specs.{Prelude.{◌≡◌, All, IsTrue, OnOk}, List.{flat_map}};
ghost use Rattle.xray_io.specs.{Text.{AddsText}, Writes.{WritesText}};
ghost use Rattle.fdr_record.specs.declared.rec.Rec.TheVariants.{Extents};
ghost use Rattle.fdr_record.specs.Records.{record_bytes};
ghost use Rattle.fdr_file.specs.Files.{block_bytes, file_bytes, flags_of, header_bytes, trace_told, BlockFits, HeaderFits};
ghost use Rattle.fdr_file.specs.Grammar.{IsTrace};

use crate::Header;
use crate::header::{CONSTANT, FDR, NONSTOP, RESERVED};
use fdr_buffer::Buffer;
use fdr_record::{METADATA_BYTES, Rec, put_rec};
use xray_io::{Piece, Printed, Sink, Text, WriteFault};

/// A header's flags as a number.
fn flags(header: &Header) -> u32
    ensures { result ≡ flags_of header.now }
{
    let constant = if header.constant { CONSTANT } else { 0 };
    let nonstop = if header.nonstop { NONSTOP } else { 0 };
    constant + nonstop
}

/// The extents of a block that has `size` bytes after them.
pub fn extents(size: u64) -> [u8; METADATA_BYTES]
    ensures { result ≡ record_bytes (Extents size) }
{
    let mut bytes = [0; METADATA_BYTES];
    put_rec(&Rec::Extents { size }, &mut bytes, 0);
    bytes
}

/// Adds a header.
fn add_header<S: Sink>(text: &mut Text<S>, header: &Header) -> Result<(), WriteFault>
    requires { header.now.version ≡ 3 }
    ensures fits { HeaderFits header.now }
    ensures adds { AddsText S.written S.faults S.along text.old text.new
        (header_bytes header.now) result }
{
    let version = header.version.to_le_bytes();
    let form = FDR.to_le_bytes();
    let flags = flags(header).to_le_bytes();
    let frequency = header.frequency.to_le_bytes();
    let size = header.size.to_le_bytes();
    text.pieces(&[
        Piece::Bytes(&version),
        Piece::Bytes(&form),
        Piece::Bytes(&flags),
        Piece::Bytes(&frequency),
        Piece::Bytes(&size),
        Piece::Bytes(&RESERVED),
    ])
}

/// Adds a block: extents, and the bytes of a buffer.
fn add_block<S: Sink>(text: &mut Text<S>, buffer: &Buffer) -> Result<(), WriteFault>
    requires { IsTrue buffer.now.begun }
    ensures fits { BlockFits buffer.now }
    ensures adds { AddsText S.written S.faults S.along text.old text.new
        (block_bytes buffer.now) result }
{
    let bytes = buffer.bytes();
    let extents = extents(bytes.len() as u64);
    text.pieces(&[Piece::Bytes(&extents), Piece::Bytes(bytes)])
}

/// Adds the blocks of buffers.
fn add_blocks<S: Sink>(text: &mut Text<S>, buffers: &[Buffer]) -> Result<(), WriteFault>
    requires { All (λ buffer. IsTrue buffer.begun) buffers.now }
    ensures fit { OnOk result (All BlockFits buffers.now) }
    ensures adds { AddsText S.written S.faults S.along text.old text.new
        (flat_map block_bytes buffers.now) result }
{
    for buffer in buffers {
        add_block(text, buffer)?;
    }
    Ok(())
}

/// Adds a whole file.
fn add_file<S: Sink>(
    text: &mut Text<S>,
    header: &Header,
    buffers: &[Buffer],
) -> Result<(), WriteFault>
    requires version { header.now.version ≡ 3 }
    requires begun { All (λ buffer. IsTrue buffer.begun) buffers.now }
    ensures trace { OnOk result
        (IsTrace (file_bytes header.now buffers.now) (trace_told header.now buffers.now)) }
    ensures adds { AddsText S.written S.faults S.along text.old text.new
        (file_bytes header.now buffers.now) result }
{
    add_header(text, header)?;
    add_blocks(text, buffers)
}

/// A trace file of version 3, which is written as `write_file` writes it.
#[derive(Clone, Copy)]
pub struct TraceFile<'a> {
    /// The header. Its version is 3.
    pub header: &'a Header,
    /// The buffers, each of which is begun.
    pub buffers: &'a [Buffer],
}

impl Printed for TraceFile<'_> {
    ghost text = { λ file. file_bytes file.header.now file.buffers.now };

    ghost ready = { λ file. (file.header.now.version ≡ 3)
        × All (λ buffer. IsTrue buffer.begun) file.buffers.now };

    fn add_to<S: Sink>(&self, to: &mut Text<S>) -> Result<(), WriteFault> {
        add_file(to, self.header, self.buffers)
    }
}

/// Writes a trace file of version 3: the header, and a block for each buffer. A block is a
/// `BufferExtents` record with the number of the buffer's bytes, and these bytes. LLVM's runtime
/// flushes its buffers as blocks too (`fdrLoggingFlush` of `xray_fdr_logging.cpp`), but that of
/// LLVM 14 writes version 5. Each buffer has to be begun, so that its block has a preamble. The
/// file is a trace by the grammar. It reads back as the header and the events of the buffers, in
/// order.
///
/// On `WriteFault` a prefix of the file was written, and the sink counted a fault.
pub fn write_file<S: Sink>(
    header: &Header,
    buffers: &[Buffer],
    sink: &mut S,
) -> Result<(), WriteFault>
    requires version { header.now.version ≡ 3 }
    requires begun { All (λ buffer. IsTrue buffer.begun) buffers.now }
    ensures trace { OnOk result
        (IsTrace (file_bytes header.now buffers.now) (trace_told header.now buffers.now)) }
    ensures writes { WritesText S.written S.faults S.along sink.old sink.new
        (file_bytes header.now buffers.now) result }
{
    let mut text = Text::new(sink);
    add_file(&mut text, header, buffers)?;
    text.done()
}
