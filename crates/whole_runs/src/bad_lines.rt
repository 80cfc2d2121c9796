//! Lines that say no command.
use crate::cases::{BAD_LINE, CASE, Case, check_case};
use std::test::Fail;

const BAD_LINES: [&str; 83] = [
    // No words, and commands with too few or too many names, or with an output named twice.
    "",
    "sim i s",
    "sim i s c",
    "sim i s c t t",
    "sim i s c t s",
    "sim i s c t a c",
    "run i s c t a",
    "sim -x s c t a",
    // Options of `plain` out of their range, twice, or unknown.
    "plain i --threads 17",
    "plain i --threads 0",
    "plain i --threads 1 --threads 1",
    "plain i --threads 1 --threads=1",
    "plain i --thread 1",
    "plain i --fuel 1000000001",
    "plain i --fuel 18446744073709551617",
    "plain i --fuel -1",
    // Words that lack a value or a name.
    "plain i --fuel",
    "plain i --fuel=",
    "plain i --fuel +",
    "plain i --fuel -- 1",
    "plain -- i --fuel 1",
    "plain i --help",
    "plain",
    "extract i --threads 1",
    // `sim`.
    "sim i s c t a --threads 17",
    "sim i s c t a --threads 0",
    "sim i s c t a --threads 1 --threads=1",
    "sim i s c t a --thread 1",
    "sim i s c t a --fuel 1000000001",
    "sim i s c t a --passings 1048577",
    "sim i s c t a --fuel",
    "sim i s -- c t a --fuel=1",
    "sim i s c t a --threshold 1",
    // `asm`.
    "asm",
    "asm t",
    "asm t i j",
    "asm t t",
    "asm -- t t",
    "asm t i --threshold",
    "asm t i --threshold 4294967296",
    "asm t i --threshold -1",
    "asm t i --threshold=1 --threshold=1",
    "asm t i --map-version=1",
    "asm t i --map-version 3",
    "extract i --map-version=2",
    "asm t i --threads 1",
    "plain i --threshold 1",
    // `stack` and `convert`.
    "stack t --format yaml",
    "stack t --format svg --format svg",
    "account t --format svg",
    "stack t --format=flame --format=flame",
    "stack t i i",
    "convert t --format flame",
    "convert t --format=yaml --format yaml",
    "convert",
    // A sled map that names functions.
    "account t i --map m",
    "stack --map=m t i",
    "convert t --map",
    "convert t --map=m --map=m",
    "extract i --map m",
    "profile i s --map m",
    // `soak`.
    "soak",
    "soak x",
    "soak 18446744073709551616",
    "soak 1 2",
    // `import`.
    "import l",
    "import l l",
    "import l t u",
    "import l t --map m",
    // Buffers out of their ranges, and the ends of a trace of at most 67,108,864 bytes.
    "sim i s c t a --buffer-size 87 --buffer-max 1",
    "sim i s c t a --buffer-size 1048577 --buffer-max 1",
    "sim i s c t a --buffer-size 88 --buffer-max 1025",
    "sim i s c t a --buffer-max 0 --threads 1",
    "sim i s c t a --buffer-max 3 --threads 4",
    "sim i s c t a --buffer-max 224 --buffer-size 299578",
    // `account`, `calls`, `map` and `profile`.
    "account",
    "account t i t",
    "account t --sort name",
    "calls t --sort count",
    "calls t --least -1",
    "map p",
    "map m m",
    "profile i s --nodes 0",
];

#[test]
fn a_line_that_says_no_command_is_refused(rt: HostRuntime) -> Result<(), Fail> {
    for line in &BAD_LINES {
        let case = Case {
            line,
            status: 1,
            err: BAD_LINE,
            ..CASE
        };
        check_case(&rt, &case)?;
    }
    Ok(())
}
