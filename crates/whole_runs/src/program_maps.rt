//! `map`.
use crate::cases::{CASE, Case, check_cases};
use std::test::Fail;
use test_helpers::programs::{FACTS, MAP, PROGRAM};

/// What `map` prints, writes and refuses.
const MAPS: [Case; 3] = [
    Case {
        files: &[("p", &[PROGRAM])],
        line: "map p m",
        out: &[FACTS],
        left: &[("m", 0, &[MAP], 0)],
        ..CASE
    },
    Case {
        files: &[("p", &[b"#!/bin/sh\n"])],
        line: "map p m",
        status: 2,
        err: "xray: p: program Magic 0\n",
        ..CASE
    },
    Case {
        line: "map p m",
        status: 3,
        err: "xray: p: read fault\n",
        ..CASE
    },
];

#[test]
fn a_program_gets_its_sled_map(rt: HostRuntime) -> Result<(), Fail> {
    check_cases(&rt, &MAPS)
}
