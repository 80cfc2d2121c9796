//! Calls of `text_lines`: lines and their words. The tests of scripts, schedules and assembler
//! texts read numbers and keywords.

use crate::checks::{check_same, check_same_list};
use std::alloc::{AllocError, Global};
use std::test::Fail;
use text_lines::*;

/// Each line as its number, `!` if it isn't clean, its words with a space before each, and `;`.
fn shown(alloc: Global, text: &[u8]) -> Result<Vec<u8>, AllocError> {
    let mut shown = Vec::new(alloc);
    if text.len() > 99 {
        return Ok(shown);
    }
    for line in Lines::new(text) {
        shown.push(b'0' + (line.number % 10) as u8)?;
        if !line.is_clean() {
            shown.push(b'!')?;
        }
        for word in line.words() {
            shown.push(b' ')?;
            shown.extend_from_slice(word)?;
        }
        shown.push(b';')?;
    }
    Ok(shown)
}

/// Texts, and their lines as [`shown`] shows them.
const TEXTS: [(&[u8], &[u8]); 12] = [
    (b"", b""),
    (b"\n", b"1;"),
    (b"\n\n \t", b"1;2;3;"),
    (b"go", b"1 go;"),
    (b"go\n", b"1 go;"),
    (
        b"hold 1 20\r\n\tgo  # \xff\x00\r\np 3 ",
        b"1 hold 1 20;2 go;3 p 3;",
    ),
    (b"a#b c\n#\nd", b"1 a;2;3 d;"),
    (b"a\r", b"1! a\r;"),
    (b"\r\r\n\r\n", b"1! \r;2;"),
    (b"a\rb\n", b"1! a\rb;"),
    (b"\x7f\n~ \x1f\n\x80", b"1! \x7f;2! ~ \x1f;3! \x80;"),
    (b"mov eax, 1 # one\n.L1:\n", b"1 mov eax, 1;2 .L1:;"),
];

#[test]
fn lines_and_words_follow_the_rules_of_texts(rt: HostRuntime) -> Result<(), Fail> {
    for (text, expected) in &TEXTS {
        let found = shown(rt.alloc(), text)?;
        check_same_list(&rt, found.as_slice(), expected);
        let lines = expected.iter().filter(|byte| **byte == b';').count();
        check_same(&rt, &count_lines(text), &lines);
    }
    Ok(())
}
