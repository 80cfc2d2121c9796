//! The image file of a text whose lines have their places.

ghost use Rattle.std.specs.Prelude.{◌≡◌, ◌≤◌, ◌<◌, IfOk, length, option_copied, slice_get};
ghost use Rattle.std.specs.{List.{position_or_len, filter_map}, Str.{bytes_eq}};
ghost use Rattle.xray_image.specs.Limits.{most_code, most_functions, most_sleds};
ghost use Rattle.asm_text.specs.Layout.{functions, map_entries, base_of, entry_of, entry_in_line};
ghost use Rattle.asm_text.specs.Writing.{image_bytes};
ghost use Rattle.asm_text.specs.private.{Laying.{placed_in, lines_of}, LaidTexts.{all_in}};
ghost use Rattle.asm_text.specs.private.Files.{image_laid, is_relative, IsWritable, IsHeaderOf};

use crate::code::push_code;
use crate::file::{kind_of, push_functions};
use crate::header::{Header, push_header};
use crate::laid_text::LaidText;
use crate::layout::Laid;
use crate::map::{MapVersion, push_map};
use crate::statement::Statement;
use std::alloc::{AllocError, Global};

/// The base address of a text that gives none.
const DEFAULT_BASE: u64 = 4096;

/// The base address.
fn base_of(lines: &[Laid]) -> u64
    ensures { result ≡ base_of (lines_of (placed_in lines.now)) }
{
    for line in lines {
        if let Statement::Base(address) = line.statement {
            return address;
        }
    }
    DEFAULT_BASE
}

/// The name of the entry function, if the text gives one.
fn entry_name<'a>(lines: &[Laid<'a>]) -> Option<&'a [u8]>
    ensures { option_copied result ≡ slice_get (filter_map (λ line. entry_in_line line.1)
        (lines_of (placed_in lines.now))) 0 }
{
    for line in lines {
        if let Statement::Entry(name) = line.statement {
            return Some(name);
        }
    }
    None
}

/// How many functions there are.
fn count_functions(lines: &[Laid]) -> u32
    requires { length (functions 0 (placed_in lines.now)) ≤ most_functions }
    ensures { result ≡ length (functions 0 (placed_in lines.now)) }
{
    lines
        .iter()
        .filter(|line| matches!(line.statement, Statement::Function { .. }))
        .count() as u32
}

/// How many sleds there are.
fn count_sleds(lines: &[Laid]) -> u32
    requires { length (map_entries 0 (placed_in lines.now)) ≤ most_sleds }
    ensures { result ≡ length (map_entries 0 (placed_in lines.now)) }
{
    lines
        .iter()
        .filter(|line| line.owner.traced && kind_of(&line.statement).is_some())
        .count() as u32
}

/// The number of the function with this name, from 0.
fn function_number(lines: &[Laid], name: &[u8]) -> u32
    requires { length (functions 0 (placed_in lines.now)) ≤ most_functions }
    ensures { result ≡ position_or_len (λ f. bytes_eq f.name name.now)
        (functions 0 (placed_in lines.now)) }
{
    let mut number = 0;
    for line in lines {
        if let Statement::Function { name: other, .. } = line.statement {
            if other == name {
                return number;
            }
            number += 1;
        }
    }
    number
}

/// The number of the entry function. It is the first function if the text names none.
fn entry_of(lines: &[Laid]) -> u32
    requires { length (functions 0 (placed_in lines.now)) ≤ most_functions }
    ensures { result ≡ entry_of (lines_of (placed_in lines.now))
        (functions 0 (placed_in lines.now)) }
{
    match entry_name(lines) {
        Some(name) => function_number(lines, name),
        None => 0,
    }
}

/// What the header counts.
fn header_of(text: &LaidText, code: &[u8]) -> Header
    requires writable { IsWritable text.now }
    requires code { length code.now ≤ most_code }
    ensures { IsHeaderOf (all_in text.now) (length code.now) result }
{
    Header {
        base: base_of(&text.lines),
        code: code.len() as u32,
        functions: count_functions(&text.lines),
        entries: count_sleds(&text.lines),
        entry: entry_of(&text.lines),
    }
}

/// The image file, with a sled map of this version.
pub(crate) fn write_file(
    alloc: Global,
    text: &LaidText,
    version: MapVersion,
) -> Result<Vec<u8>, AllocError>
    requires { IsWritable text.now }
    ensures { IfOk result (λ file.
        file.items ≡ image_bytes (image_laid (is_relative version) (all_in text.now))) }
{
    let mut code = Vec::new(alloc);
    push_code(&mut code, text)?;
    let header = header_of(text, &code);
    let mut file = Vec::new(alloc);
    push_header(&mut file, &header)?;
    file.extend_from_slice(&code)?;
    push_functions(&mut file, header.base, &text.lines)?;
    push_map(&mut file, version, header.base, &text.lines)?;
    Ok(file)
}
