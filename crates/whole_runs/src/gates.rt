//! `run` at gates that leave its threads only one way to go on.
use crate::cases::{ASSEMBLE, CASE, Case, check_case_at};
use crate::checks::check_same_at;
use crate::states::{CALL_STATE, PATCHED, RETURNED, STATE, UNTOUCHED};
use crate::texts::{CALL, LIVE, STRAIGHT_LINE, TRACED};
use std::sync::atomic::{AtomicU64, Ordering};
use std::test::Fail;
use std::thread::yield_now;
use test_helpers::trace_parts::{
    CPU_AT_1, CPU_AT_2, EXIT, EXIT_AFTER_1, EXTENTS_72, EXTENTS_80, HEADER, PREAMBLE,
};
use xray_io::Gate;

/// How often a gate looks for what it waits for, before it gives up.
const TURNS: u32 = 5_000_000;

/// A sign that one thread gives and others see.
#[derive(Drop)]
struct Sign {
    given: AtomicU64,
}

impl Sign {
    fn new() -> Sign {
        Sign {
            given: AtomicU64::new(0),
        }
    }

    fn give(&self) {
        self.given.store(1, Ordering::SeqCst);
    }

    fn is_given(&self) -> bool {
        self.given.load(Ordering::SeqCst) == 1
    }

    /// Waits until the other sign is given. If it doesn't come, gives this one. Once this one is
    /// given, doesn't wait.
    fn wait_or_give(&self, other: &Sign) {
        for _turn in 0..TURNS {
            if other.is_given() || self.is_given() {
                return;
            }
            yield_now();
        }
        self.give();
    }
}

/// Where a gate is asked: before a passing of a thread, or before the store at a place.
#[derive(Clone, Copy, PartialEq, Drop)]
enum Point {
    Passing(u32, u32),
    Place(u64),
}

/// What is at one point goes on once something has come to another.
#[derive(Drop)]
struct Order {
    at: Point,
    after: Point,
    come: Sign,
}

impl Order {
    fn new(at: Point, after: Point) -> Order {
        Order {
            at,
            after,
            come: Sign::new(),
        }
    }
}

/// A gate that keeps these orders, and a sign that one of them was waited for in vain.
#[derive(Drop)]
struct Ordered<'a> {
    orders: &'a [Order],
    late: Sign,
}

impl Ordered<'_> {
    fn come_to(&self, point: Point) {
        for order in self.orders {
            if order.after == point {
                order.come.give();
            }
        }
        for order in self.orders {
            if order.at == point {
                self.late.wait_or_give(&order.come);
            }
        }
    }
}

impl Gate for Ordered<'_> {
    fn before(&self, thread: u32, passing: u32) {
        self.come_to(Point::Passing(thread, passing));
    }

    fn before_store(&self, place: u64) {
        self.come_to(Point::Place(place));
    }
}

/// A run, and the orders that its gate keeps: what is at the first point goes on once something has come to the second.
type Gated = (Case<'static>, &'static [(Point, Point)]);

/// Passing 0 of each of two threads goes on once the other thread has come to its own.
const EACH_AFTER_THE_OTHER: &[(Point, Point)] = &[
    (Point::Passing(1, 0), Point::Passing(2, 0)),
    (Point::Passing(2, 0), Point::Passing(1, 0)),
];

/// The store at place 3 goes on once the thread has come to passing 1, passing 1 once the patcher has come to place 15,
/// and the store there once the thread has come to passing 3.
const BY_TURNS: &[(Point, Point)] = &[
    (Point::Place(3), Point::Passing(1, 1)),
    (Point::Passing(1, 1), Point::Place(15)),
    (Point::Place(15), Point::Passing(1, 3)),
];

/// The script can't go on before the thread has made two passings. Passing 2 goes on once the patcher has come to the
/// last sled, and the store there once the thread has come to passing 3.
const AFTER_THE_AWAIT: &[(Point, Point)] = &[
    (Point::Place(4), Point::Passing(1, 1)),
    (Point::Passing(1, 2), Point::Place(16)),
    (Point::Place(16), Point::Passing(1, 3)),
];

/// Sixteen threads are held at their first passing. The last one is released first.
const HELD_AT_ONCE: &[u8] = b"hold 1 0\nhold 2 0\nhold 3 0\nhold 4 0\nhold 5 0\nhold 6 0\n\
    hold 7 0\nhold 8 0\nhold 9 0\nhold 10 0\nhold 11 0\nhold 12 0\nhold 13 0\nhold 14 0\n\
    hold 15 0\nhold 16 0\ngo\nrelease 16\nrelease 15\nrelease 14\nrelease 13\nrelease 12\n\
    release 11\nrelease 10\nrelease 9\nrelease 8\nrelease 7\nrelease 6\nrelease 5\n\
    release 4\nrelease 3\nrelease 2\nrelease 1\n";

/// The first release comes once all threads have come to their first passing, and each other one once the thread that
/// was released before it has come to its next passing. Two threads that shared one of the system would be late: the
/// one that is held keeps the other from its first passing.
const ONE_AFTER_THE_OTHER: &[(Point, Point)] = &[
    (Point::Place(0), Point::Passing(1, 0)),
    (Point::Place(0), Point::Passing(2, 0)),
    (Point::Place(0), Point::Passing(3, 0)),
    (Point::Place(0), Point::Passing(4, 0)),
    (Point::Place(0), Point::Passing(5, 0)),
    (Point::Place(0), Point::Passing(6, 0)),
    (Point::Place(0), Point::Passing(7, 0)),
    (Point::Place(0), Point::Passing(8, 0)),
    (Point::Place(0), Point::Passing(9, 0)),
    (Point::Place(0), Point::Passing(10, 0)),
    (Point::Place(0), Point::Passing(11, 0)),
    (Point::Place(0), Point::Passing(12, 0)),
    (Point::Place(0), Point::Passing(13, 0)),
    (Point::Place(0), Point::Passing(14, 0)),
    (Point::Place(0), Point::Passing(15, 0)),
    (Point::Place(0), Point::Passing(16, 0)),
    (Point::Place(1), Point::Passing(16, 1)),
    (Point::Place(2), Point::Passing(15, 1)),
    (Point::Place(3), Point::Passing(14, 1)),
    (Point::Place(4), Point::Passing(13, 1)),
    (Point::Place(5), Point::Passing(12, 1)),
    (Point::Place(6), Point::Passing(11, 1)),
    (Point::Place(7), Point::Passing(10, 1)),
    (Point::Place(8), Point::Passing(9, 1)),
    (Point::Place(9), Point::Passing(8, 1)),
    (Point::Place(10), Point::Passing(7, 1)),
    (Point::Place(11), Point::Passing(6, 1)),
    (Point::Place(12), Point::Passing(5, 1)),
    (Point::Place(13), Point::Passing(4, 1)),
    (Point::Place(14), Point::Passing(3, 1)),
    (Point::Place(15), Point::Passing(2, 1)),
];

const GATED: [Gated; 6] = [
    // Two threads run beside each other.
    (
        Case {
            files: &[("x", &[STRAIGHT_LINE]), ("s", &[TRACED])],
            before: ASSEMBLE,
            line: "run i s t a --wall 0 --threads 2",
            out: &[STATE, "marks +2\n", "thread 2", RETURNED, "2", PATCHED],
            left: &[("t", 0, &[HEADER], 192)],
            ..CASE
        },
        EACH_AFTER_THE_OTHER,
    ),
    (
        Case {
            files: &[("x", &[STRAIGHT_LINE]), ("s", &[TRACED])],
            before: ASSEMBLE,
            line: "profile i s --threads 2 --format flame",
            out: &[
                STATE,
                "marks +2\n",
                "thread 2",
                RETURNED,
                "2",
                PATCHED,
                "main 4\n",
            ],
            ..CASE
        },
        EACH_AFTER_THE_OTHER,
    ),
    // A thread and the patcher run beside each other. The thread records an entry of function 2 and an exit of
    // function 1.
    (
        Case {
            files: &[("x", &[CALL]), ("s", &[LIVE])],
            before: ASSEMBLE,
            line: "run i s t a --wall 0",
            out: &[CALL_STATE, "marks .1 +1 .1 +1\n"],
            left: &[(
                "t",
                0,
                &[
                    HEADER,
                    EXTENTS_80,
                    PREAMBLE,
                    CPU_AT_1,
                    ENTRY_OF_2,
                    EXIT_AFTER_1,
                ],
                0,
            )],
            ..CASE
        },
        BY_TURNS,
    ),
    (
        Case {
            files: &[("x", &[CALL]), ("s", &[LIVE])],
            before: ASSEMBLE,
            line: "profile i s --format flame",
            out: &[CALL_STATE, "marks .1 +1 .1 +1\n"],
            ..CASE
        },
        BY_TURNS,
    ),
    // A script that begins with an await patches in the middle. The thread records its last passing.
    (
        Case {
            files: &[
                ("x", &[CALL]),
                ("s", &[b"set_handler\ninit\ngo\nawait 1 2\npatch\n"]),
            ],
            before: ASSEMBLE,
            line: "run i s t a --wall 0",
            out: &[CALL_STATE, "marks .3 +1\n"],
            left: &[("t", 0, &[HEADER, EXTENTS_72, PREAMBLE, CPU_AT_2, EXIT], 0)],
            ..CASE
        },
        AFTER_THE_AWAIT,
    ),
    // Sixteen threads are held at once.
    (
        Case {
            files: &[("x", &[STRAIGHT_LINE]), ("s", &[HELD_AT_ONCE])],
            before: ASSEMBLE,
            line: "run i s t a --wall 0 --threads 16",
            out: &[
                "thread 1",
                RETURNED,
                "1",
                UNTOUCHED,
                "thread 2",
                RETURNED,
                "2",
                UNTOUCHED,
                "thread 3",
                RETURNED,
                "3",
                UNTOUCHED,
                "thread 4",
                RETURNED,
                "4",
                UNTOUCHED,
                "thread 5",
                RETURNED,
                "5",
                UNTOUCHED,
                "thread 6",
                RETURNED,
                "6",
                UNTOUCHED,
                "thread 7",
                RETURNED,
                "7",
                UNTOUCHED,
                "thread 8",
                RETURNED,
                "8",
                UNTOUCHED,
                "thread 9",
                RETURNED,
                "9",
                UNTOUCHED,
                "thread 10",
                RETURNED,
                "a",
                UNTOUCHED,
                "thread 11",
                RETURNED,
                "b",
                UNTOUCHED,
                "thread 12",
                RETURNED,
                "c",
                UNTOUCHED,
                "thread 13",
                RETURNED,
                "d",
                UNTOUCHED,
                "thread 14",
                RETURNED,
                "e",
                UNTOUCHED,
                "thread 15",
                RETURNED,
                "f",
                UNTOUCHED,
                "thread 16",
                RETURNED,
                "10",
                UNTOUCHED,
            ],
            ..CASE
        },
        ONE_AFTER_THE_OTHER,
    ),
];

/// An entry of function 2 at the first counter of a buffer.
const ENTRY_OF_2: &[u8] = b"\x20\0\0\0\0\0\0\0";

/// Each order is kept: none is waited for in vain, and something has come to each second point.
#[test]
fn threads_and_the_patcher_run_beside_each_other(rt: HostRuntime) -> Result<(), Fail> {
    for (case, points) in &GATED {
        let mut orders = Vec::new(rt.alloc());
        for (at, after) in *points {
            orders.push(Order::new(*at, *after))?;
        }
        let gate = Ordered {
            orders: &orders,
            late: Sign::new(),
        };
        check_case_at(&rt, case, &gate)?;
        check_same_at(&rt, &gate.late.is_given(), &false, case.line);
        for order in orders.as_slice() {
            check_same_at(&rt, &order.come.is_given(), &true, case.line);
        }
    }
    Ok(())
}
