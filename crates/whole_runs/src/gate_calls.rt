//! What the gate of a run is called with, and how often.
use crate::cases::desk_of;
use crate::checks::check_same;
use crate::runs::{assert_no_fault, run_at, run_line};
use std::alloc::{AllocError, Global};
use std::sync::atomic::{AtomicU64, Ordering};
use std::test::Fail;
use xray_io::Gate;

/// How many threads run.
const THREADS: u32 = 16;

/// How many passings each of them makes. It is more than 16 bits count.
const PASSINGS: u64 = 70_000;

/// A function that calls another one again and again. It ends by the limit of its passings.
const AGAIN: &[u8] = b"base 0x1000\nfn main always\nagain:\ncall f\njmp again\nfn f always\nret\n";

/// Three stores come before the start. The three sleds are patched at once, and unpatched once the
/// first thread has made all its passings. The script ends once the last thread has too.
const SCRIPT: &[u8] =
    b"set_handler\ninit\ngo\npatch\nawait 1 70000\nunpatch\nawait 16 70000\npatch_function 1\n";

/// The places of the stores after the start. An await is at 15, and another one at 19.
const PLACES: [u64; 19] = [
    3, 4, 5, 6, 7, 8, 9, 10, 11, 12, 13, 14, 16, 17, 18, 20, 21, 22, 23,
];

/// A gate that counts its calls. It sees whether each call has the number that is due.
#[derive(Drop)]
struct Counting {
    /// How many passings of each thread were announced.
    passings: Vec<AtomicU64>,
    /// How many stores were announced.
    stores: AtomicU64,
    /// How many calls had another number.
    wrong: AtomicU64,
}

impl Counting {
    fn new(alloc: Global) -> Result<Counting, AllocError> {
        let mut passings = Vec::new(alloc);
        for _ in 0..THREADS {
            passings.push(AtomicU64::new(0))?;
        }
        Ok(Counting {
            passings,
            stores: AtomicU64::new(0),
            wrong: AtomicU64::new(0),
        })
    }

    fn count_wrong(&self) {
        self.wrong.fetch_add(1, Ordering::SeqCst);
    }

    /// The count of a thread, if there is such a thread.
    fn count_of(&self, thread: u32) -> Option<&AtomicU64> {
        self.passings.get((thread as usize).checked_sub(1)?)
    }
}

impl Gate for Counting {
    fn before(&self, thread: u32, passing: u32) {
        match self.count_of(thread) {
            Some(count) => {
                if count.fetch_add(1, Ordering::SeqCst) != passing as u64 {
                    self.count_wrong();
                }
            }
            None => self.count_wrong(),
        }
    }

    fn before_store(&self, place: u64) {
        let count = self.stores.fetch_add(1, Ordering::SeqCst);
        if PLACES.get(count as usize) != Some(&place) {
            self.count_wrong();
        }
    }
}

/// Each thread calls the gate once for each of its passings, in their order, with its own number.
/// The patcher calls it once for each store after the start, in their order, and for no await.
#[test]
fn a_gate_is_called_once_for_each_passing_and_each_store(rt: HostRuntime) -> Result<(), Fail> {
    let gate = Counting::new(rt.alloc())?;
    let mut desk = desk_of(rt.alloc(), &[("x", &[AGAIN]), ("s", &[SCRIPT])])?;
    assert_no_fault(&rt, &run_line(&rt, "asm x i", &mut desk)?);
    let line = "run i s t a --wall 0 --threads 16 --passings 70000";
    let run = run_at(&rt, line, &mut desk, &gate)?;
    assert_no_fault(&rt, &run);
    for count in gate.passings.as_slice() {
        check_same(&rt, &count.load(Ordering::SeqCst), &PASSINGS);
    }
    check_same(&rt, &gate.stores.load(Ordering::SeqCst), &19);
    check_same(&rt, &gate.wrong.load(Ordering::SeqCst), &0);
    Ok(())
}
