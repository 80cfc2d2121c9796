//! Image files, put together from their parts.

use std::alloc::{AllocError, Global};

/// Adds a number in `length` bytes, lowest byte first.
fn put(bytes: &mut Vec<u8>, number: u64, length: usize) -> Result<(), AllocError> {
    let mut rest = number;
    for _byte in 0..length {
        bytes.push((rest % 256) as u8)?;
        rest /= 256;
    }
    Ok(())
}

/// The header of a code at 0x1000 with these counts of functions and map entries, and the code. The
/// entry function is the first.
pub fn header_and_code(
    alloc: Global,
    code: &[u8],
    functions: usize,
    entries: usize,
) -> Result<Vec<u8>, AllocError> {
    let mut bytes = b"XRIM".to_vec(alloc)?;
    put(&mut bytes, 1, 4)?;
    put(&mut bytes, 0x1000, 8)?;
    put(&mut bytes, code.len() as u64, 4)?;
    put(&mut bytes, functions as u64, 4)?;
    put(&mut bytes, entries as u64, 4)?;
    put(&mut bytes, 0, 4)?;
    for trampoline in [0x20_1000, 0x20_1010, 0x20_1020, 0x20_1030] {
        put(&mut bytes, trampoline, 8)?;
    }
    bytes.extend_from_slice(code)?;
    Ok(bytes)
}

/// Adds a function entry.
pub fn add_function(bytes: &mut Vec<u8>, start: u64, name: &[u8]) -> Result<(), AllocError> {
    put(bytes, start, 8)?;
    put(bytes, name.len() as u64, 1)?;
    bytes.extend_from_slice(name)?;
    Ok(())
}

/// Adds a map entry of a version, with these fields.
pub fn add_entry_of(
    bytes: &mut Vec<u8>,
    version: u8,
    sled: u64,
    function: u64,
    kind: u8,
) -> Result<(), AllocError> {
    put(bytes, sled, 8)?;
    put(bytes, function, 8)?;
    put(bytes, u64::from(kind), 2)?;
    put(bytes, u64::from(version), 14)
}

/// Adds a map entry of version 0.
pub fn add_entry(
    bytes: &mut Vec<u8>,
    sled: u64,
    function: u64,
    kind: u8,
) -> Result<(), AllocError> {
    add_entry_of(bytes, 0, sled, function, kind)
}

/// The file of a code at 0x1000, with functions by their starts and names, and with map entries by
/// sled, function and kind.
pub fn image_file(
    alloc: Global,
    code: &[u8],
    functions: &[(u64, &str)],
    entries: &[(u64, u64, u8)],
) -> Result<Vec<u8>, AllocError> {
    let mut bytes = header_and_code(alloc, code, functions.len(), entries.len())?;
    for (start, name) in functions {
        add_function(&mut bytes, *start, name.as_bytes())?;
    }
    for (sled, function, kind) in entries {
        add_entry(&mut bytes, *sled, *function, *kind)?;
    }
    Ok(bytes)
}
