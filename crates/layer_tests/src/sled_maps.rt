//! Calls of `map_names`, with sled maps as LLVM 14 prints them. `whole_runs` has reports with their names.

ghost use Rattle.std.specs.Prelude.{◌<◌, length};

use crate::checks::check_same_at;
use map_names::{MapFault, read_map};
use std::alloc::Global;
use std::test::Fail;

/// A map whose names are written in each of the ways. The names of ids 1 to 4 are `LLVM_NAMES`.
const MAP: &[u8] = b"---
- { id: 1, address: 0x22E90, function: 0x22E90, kind: log-args-enter, always-instrument: true, function-name: '', version: 2 }
- { id: 1, address: 0x22ED6, function: 0x22E90, kind: function-exit, always-instrument: true, function-name: 'a<b, c>(int) const &', version: 2 }
- { id: 2, address: 0x22FB0, function: 0x22FB0, kind: custom-event, always-instrument: false, function-name: a,b, version: 1 }
- { id: 3, address: 0x22FC6, function: 0x22FB0, kind: tail-exit, always-instrument: true, function-name: 'it''s [u8; 4]', version: 2 }
- { id: 4, address: 0x22FE0, function: 0x22FE0, kind: function-enter, always-instrument: true, function-name: \"\\\"caf\xC3\xA9\\\"\\u200D\", version: 0 }
- { id: 4, address: 0x22FE0, function: 0x22FE0, kind: function-exit, always-instrument: true, function-name: second, version: 2 }
- { id: 9, address: 0x0000000000001012, function: 0x0000000000001000, kind: function-enter-arg, always-instrument: true, function-name: 'main' }
...
";

/// Ids, and what the map names them.
const NAMED: [(u32, Option<&[u8]>); 8] = [
    (0, None),
    (1, Some(b"a<b, c>(int) const &")),
    (2, Some(b"a,b")),
    (3, Some(b"it's [u8; 4]")),
    (4, Some(b"\"caf\xC3\xA9\"\\u200D")),
    (5, None),
    (9, Some(b"main")),
    (u32::MAX, None),
];

#[test]
fn a_map_names_functions(rt: HostRuntime) -> Result<(), Fail> {
    let names = read_map(rt.alloc(), MAP)?;
    for (id, name) in NAMED {
        check_same_at(&rt, &names.name_of(id), &name, &id);
    }
    Ok(())
}

/// A map with comments, with an entry without a name, and with braces that directly follow the last word.
const COMMENTED: &[u8] = b"# names
---
- { id: 1, address: 0x1, function: 0x1, kind: function-enter, always-instrument: true}
  # the name of id 1
- { id: 1, address: 0x2, function: 0x1, kind: function-exit, always-instrument: true, function-name: main}
- { id: 2, address: 0x3, function: 0x3, kind: function-enter, always-instrument: false, version: 2}
- { id: 3, address: 0x4, function: 0x4, kind: function-enter, always-instrument: true, function-name: 'f', version: 1}
...
#";

#[test]
fn a_map_with_comments_names_functions(rt: HostRuntime) -> Result<(), Fail> {
    let names = read_map(rt.alloc(), COMMENTED)?;
    let main: Option<&[u8]> = Some(b"main");
    let f: Option<&[u8]> = Some(b"f");
    check_same_at(&rt, &names.name_of(1), &main, &1);
    check_same_at(&rt, &names.name_of(2), &None, &2);
    check_same_at(&rt, &names.name_of(3), &f, &3);
    Ok(())
}

/// Texts, and the first line that refuses each, or 0 if it is a map.
const REFUSED: [(&[u8], u32); 12] = [
    (b"# x\n---\n\t# y\n...\n", 0),
    (b"# x\n", 2),
    (b"# x\n---\n# y\n\n...\n", 4),
    (b" \n---\n...\n", 1),
    (b"", 1),
    (b"--- \n...\n", 1),
    (b"---\n", 2),
    (b"---\n\n...\n", 2),
    (b"---\r\n...", 0),
    (b"---\n...\n\n", 3),
    (
        b"---\n- { id: 1, address: 0x1, function: 0x1, kind: function-enter, always-instrument: true, function-name: 'a'b' }\n...\n",
        2,
    ),
    (
        b"---\n- { id: 4294967296, address: 0x1, function: 0x1, kind: function-enter, always-instrument: true, function-name: '' }\n...\n",
        2,
    ),
];

/// The line that refuses a text, or 0 if it is a map.
fn refused(alloc: Global, text: &[u8]) -> u32
    requires { length text.now < u32.MAX }
{
    match read_map(alloc, text) {
        Ok(_) => 0,
        Err(MapFault::Syntax(line)) => line,
        Err(MapFault::NoMemory) => u32::MAX,
    }
}

#[test]
fn the_first_bad_line_refuses_a_text(rt: HostRuntime) {
    for (number, (text, line)) in REFUSED.iter().enumerate() {
        if text.len() < 1_000 {
            check_same_at(&rt, &refused(rt.alloc(), text), line, &number);
        }
    }
}
