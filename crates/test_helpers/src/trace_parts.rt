//! The parts of trace files, byte by byte, and a few files that are made of them.

use std::alloc::{AllocError, Global};

/// The first half of a header: version 3, type 1, a constant and nonstop counter, and a frequency of 0.
pub const FORMAT: &[u8] = b"\x03\0\x01\0\x03\0\0\0\0\0\0\0\0\0\0\0";

/// The second half of a header, with buffers of 88 bytes.
pub const BUFFERS_OF_88: &[u8] = b"\x58\0\0\0\0\0\0\0\0\0\0\0\0\0\0\0";

/// The same with buffers of 95 bytes.
pub const BUFFERS_OF_95: &[u8] = b"\x5F\0\0\0\0\0\0\0\0\0\0\0\0\0\0\0";

/// The same with buffers of 96 bytes.
pub const BUFFERS_OF_96: &[u8] = b"\x60\0\0\0\0\0\0\0\0\0\0\0\0\0\0\0";

/// The same with buffers of 16,384 bytes.
pub const BUFFERS_OF_16384: &[u8] = b"\0\x40\0\0\0\0\0\0\0\0\0\0\0\0\0\0";

/// A header of that format, with buffers of 16,384 bytes.
pub const HEADER: &[u8] =
    b"\x03\0\x01\0\x03\0\0\0\0\0\0\0\0\0\0\0\0\x40\0\0\0\0\0\0\0\0\0\0\0\0\0\0";

/// The same of version 2, whose blocks name no process.
pub const HEADER_OF_2: &[u8] =
    b"\x02\0\x01\0\x03\0\0\0\0\0\0\0\0\0\0\0\0\x40\0\0\0\0\0\0\0\0\0\0\0\0\0\0";

/// The same of version 5, in which the runtime records events of the program too.
pub const HEADER_OF_5: &[u8] =
    b"\x05\0\x01\0\x03\0\0\0\0\0\0\0\0\0\0\0\0\x40\0\0\0\0\0\0\0\0\0\0\0\0\0\0";

/// Extents of 64 bytes.
pub const EXTENTS_64: &[u8] = b"\x0F\x40\0\0\0\0\0\0\0\0\0\0\0\0\0\0";

/// Extents of 72 bytes.
pub const EXTENTS_72: &[u8] = b"\x0F\x48\0\0\0\0\0\0\0\0\0\0\0\0\0\0";

/// Extents of 80 bytes.
pub const EXTENTS_80: &[u8] = b"\x0F\x50\0\0\0\0\0\0\0\0\0\0\0\0\0\0";

/// Extents of 88 bytes.
pub const EXTENTS_88: &[u8] = b"\x0F\x58\0\0\0\0\0\0\0\0\0\0\0\0\0\0";

/// Extents of 96 bytes.
pub const EXTENTS_96: &[u8] = b"\x0F\x60\0\0\0\0\0\0\0\0\0\0\0\0\0\0";

/// Extents of 104 bytes.
pub const EXTENTS_104: &[u8] = b"\x0F\x68\0\0\0\0\0\0\0\0\0\0\0\0\0\0";

/// Extents of 112 bytes.
pub const EXTENTS_112: &[u8] = b"\x0F\x70\0\0\0\0\0\0\0\0\0\0\0\0\0\0";

/// Thread 1, the wall time 0, and process 1.
pub const PREAMBLE: &[u8] = b"\x01\x01\0\0\0\0\0\0\0\0\0\0\0\0\0\0\
    \x09\0\0\0\0\0\0\0\0\0\0\0\0\0\0\0\
    \x13\x01\0\0\0\0\0\0\0\0\0\0\0\0\0\0";

/// Thread 2, the wall time 0, and process 1.
pub const PREAMBLE_OF_2: &[u8] = b"\x01\x02\0\0\0\0\0\0\0\0\0\0\0\0\0\0\
    \x09\0\0\0\0\0\0\0\0\0\0\0\0\0\0\0\
    \x13\x01\0\0\0\0\0\0\0\0\0\0\0\0\0\0";

/// Thread 1.
pub const THREAD_1: &[u8] = b"\x01\x01\0\0\0\0\0\0\0\0\0\0\0\0\0\0";

/// The wall time 0.
pub const WALL_0: &[u8] = b"\x09\0\0\0\0\0\0\0\0\0\0\0\0\0\0\0";

/// Process 1.
pub const PROCESS_1: &[u8] = b"\x13\x01\0\0\0\0\0\0\0\0\0\0\0\0\0\0";

/// CPU 0 at counter 0.
pub const CPU: &[u8] = b"\x05\0\0\0\0\0\0\0\0\0\0\0\0\0\0\0";

/// CPU 0 at counter 1.
pub const CPU_AT_1: &[u8] = b"\x05\0\0\x01\0\0\0\0\0\0\0\0\0\0\0\0";

/// CPU 0 at counter 2.
pub const CPU_AT_2: &[u8] = b"\x05\0\0\x02\0\0\0\0\0\0\0\0\0\0\0\0";

/// CPU 1 at counter 2.
pub const CPU_1_AT_2: &[u8] = b"\x05\x01\0\x02\0\0\0\0\0\0\0\0\0\0\0\0";

/// An entry of function 1.
pub const ENTRY: &[u8] = b"\x10\0\0\0\0\0\0\0";

/// An exit of function 1, 0 cycles on.
pub const EXIT: &[u8] = b"\x12\0\0\0\0\0\0\0";

/// An entry of function 2, 1 cycle on.
pub const ENTRY_OF_2_AFTER_1: &[u8] = b"\x20\0\0\0\x01\0\0\0";

/// An exit of function 2, 0 cycles on.
pub const EXIT_OF_2: &[u8] = b"\x22\0\0\0\0\0\0\0";

/// An exit of function 1, 1 cycle on.
pub const EXIT_AFTER_1: &[u8] = b"\x12\0\0\0\x01\0\0\0";

/// An exit of function 1, 2 cycles on.
pub const EXIT_AFTER_2: &[u8] = b"\x12\0\0\0\x02\0\0\0";

/// A file of one block. Function 1 is called once, for 2 cycles.
pub const ONE_CALL: [&[u8]; 6] = [HEADER, EXTENTS_80, PREAMBLE, CPU, ENTRY, EXIT_AFTER_2];

/// A header of a basic log: version 3, type 0, a constant and nonstop counter, and a frequency of 0.
pub const BASIC_HEADER: &[u8] =
    b"\x03\0\0\0\x03\0\0\0\0\0\0\0\0\0\0\0\0\0\0\0\0\0\0\0\0\0\0\0\0\0\0\0";

/// The records of the same call in a basic log.
pub const BASIC_EVENTS: &[u8] =
    b"\0\0\0\0\x01\0\0\0\0\0\0\0\0\0\0\0\x01\0\0\0\x01\0\0\0\0\0\0\0\0\0\0\0\
    \0\0\0\x01\x01\0\0\0\x02\0\0\0\0\0\0\0\x01\0\0\0\x01\0\0\0\0\0\0\0\0\0\0\0";

/// The basic log of this file.
pub const LOG_OF_ONE_CALL: [&[u8]; 2] = [BASIC_HEADER, BASIC_EVENTS];

/// The same in version 2.
pub const ONE_CALL_WITHOUT_PROCESS: [&[u8]; 7] = [
    HEADER_OF_2,
    EXTENTS_64,
    THREAD_1,
    WALL_0,
    CPU,
    ENTRY,
    EXIT_AFTER_2,
];

/// A file of one block, with only an exit of function 1.
pub const ONE_EXIT: [&[u8]; 5] = [HEADER, EXTENTS_72, PREAMBLE, CPU_AT_2, EXIT];

/// A file of one block. Function 1 calls itself twice, and the outermost call doesn't end. Its
/// durations are 10 and 35.
pub const RECURSION: [&[u8]; 9] = [
    HEADER,
    EXTENTS_104,
    PREAMBLE,
    CPU,
    ENTRY,
    b"\x10\0\0\0\x0A\0\0\0",
    b"\x10\0\0\0\x0A\0\0\0",
    b"\x12\0\0\0\x0A\0\0\0",
    b"\x12\0\0\0\x0F\0\0\0",
];

/// A file of one block. Function 1 calls function 2, and that calls function 3 and leaves by a tail
/// jump. The three calls take 10, 7 and 4 cycles.
pub const NESTED: [&[u8]; 10] = [
    HEADER,
    EXTENTS_112,
    PREAMBLE,
    CPU,
    ENTRY,
    b"\x20\0\0\0\x01\0\0\0",
    b"\x30\0\0\0\x01\0\0\0",
    b"\x32\0\0\0\x04\0\0\0",
    b"\x24\0\0\0\x02\0\0\0",
    b"\x12\0\0\0\x02\0\0\0",
];

/// A file of one block. Function 2 is called for 1 cycle, and function 1 for 5.
pub const TWO_FUNCTIONS: [&[u8]; 8] = [
    HEADER,
    EXTENTS_96,
    PREAMBLE,
    CPU,
    b"\x20\0\0\0\0\0\0\0",
    b"\x22\0\0\0\x01\0\0\0",
    ENTRY,
    b"\x12\0\0\0\x05\0\0\0",
];

/// A file of 296 bytes with three blocks of one event each: the last one of thread 1, and the last
/// two of thread 2.
pub const THREE_BLOCKS: [&[u8]; 14] = [
    FORMAT,
    BUFFERS_OF_88,
    EXTENTS_72,
    PREAMBLE,
    CPU_AT_2,
    EXIT,
    EXTENTS_72,
    PREAMBLE_OF_2,
    CPU_AT_1,
    EXIT_OF_2,
    EXTENTS_72,
    PREAMBLE_OF_2,
    CPU_AT_2,
    EXIT,
];

/// The bytes of parts, one after the other.
pub fn file(alloc: Global, parts: &[&[u8]]) -> Result<Vec<u8>, AllocError> {
    let mut bytes = Vec::new(alloc);
    for part in parts {
        bytes.extend_from_slice(part)?;
    }
    Ok(bytes)
}

/// The bytes of blocks, one after the other. Each block is given by its parts.
pub fn file_of_blocks(alloc: Global, blocks: &[&[&[u8]]]) -> Result<Vec<u8>, AllocError> {
    let mut bytes = Vec::new(alloc);
    for block in blocks {
        bytes.extend_from_slice(&file(alloc, block)?)?;
    }
    Ok(bytes)
}
