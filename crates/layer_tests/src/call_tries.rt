//! Calls of `call_trie`: the rows of listed events. `tools/compare/profiles_beside.py` has those of runs.

ghost use Rattle.std.specs.Prelude.{◌≡◌, ◌≤◌, IfOk, List, length};
ghost use Rattle.fdr_record.specs.declared.event.Event.{Event};
ghost use Rattle.call_trie.specs.Tries.{StandsFor};

use crate::checks::check_same;
use crate::event_traces::{NESTED, Said, TURNS, printed};
use call_trie::{MOST_NODES, TrieRecorder, TrieState, merged};
use fdr_record::{Event, Kind, Recorder};
use function_names::Names;
use stack_rebuild::{StackForm, StackRow, StackText};
use std::alloc::Global;
use std::test::Fail;
use xray_io::NoMemory;

/// How many ids of functions there are.
const IDS: u32 = 1 << 28;

/// How many events a test notes at most in one recorder.
const MOST_EVENTS: u32 = 1_000_000;

/// A recorder, and how many events it has noted.
#[derive(Drop)]
struct Noted {
    trie: TrieRecorder,
    count: u32,
}

impl Noted {
    fn new(alloc: Global, nodes: u32) -> Result<Noted, NoMemory>
        requires { (1 ≤ nodes) × (nodes ≤ MOST_NODES) }
        ensures { IfOk result (λ noted. (events : List Event) × StandsFor noted.trie events
            × (length events ≡ noted.count)) }
    {
        let trie = TrieRecorder::new(alloc, nodes)?;
        Ok(Noted { trie, count: 0 })
    }

    /// Notes one more event, unless there were too many.
    fn note(&mut self, kind: Kind, func: u32, tsc: u64)
        requires { (events : List Event) × StandsFor self.old.trie events
            × (length events ≡ self.old.count) }
        ensures { (events : List Event) × StandsFor self.new.trie events
            × (length events ≡ self.new.count) }
    {
        if self.count >= MOST_EVENTS {
            return;
        }
        self.trie.note(Event {
            tsc,
            arg: 0,
            func: func % IDS,
            cpu: 0,
            kind,
        });
        self.count += 1;
    }
}

/// The text of rows.
fn text_of(alloc: Global, rows: &[StackRow]) -> Result<String, Fail> {
    let text = StackText {
        rows,
        names: Names::Ids,
        form: StackForm::Human,
    };
    printed(alloc, &text)
}

/// The text of the rows of two recorders.
fn text_of_both(alloc: Global, first: Noted, second: Noted) -> Result<String, Fail> {
    match (first.trie.state(), second.trie.state()) {
        (TrieState::Live, TrieState::Live) => {
            text_of(alloc, &merged(alloc, &[first.trie, second.trie])?)
        }
        _ => Err("a recorder has stopped".into()),
    }
}

/// Notes an event in the first recorder if it is of thread 1, or else in the second one.
fn note_in_one(first: &mut Noted, second: &mut Noted, said: &Said)
    requires first { (events : List Event) × StandsFor first.old.trie events
        × (length events ≡ first.old.count) }
    requires second { (events : List Event) × StandsFor second.old.trie events
        × (length events ≡ second.old.count) }
    ensures first { (events : List Event) × StandsFor first.new.trie events
        × (length events ≡ first.new.count) }
    ensures second { (events : List Event) × StandsFor second.new.trie events
        × (length events ≡ second.new.count) }
{
    let (thread, kind, func, tsc) = *said;
    if thread == 1 {
        first.note(kind, func, tsc);
    } else {
        second.note(kind, func, tsc);
    }
}

/// The text of the rows of events. A recorder has those of thread 1, and another one all others.
fn merged_text(alloc: Global, nodes: u32, events: &[Said]) -> Result<String, Fail>
    requires { (1 ≤ nodes) × (nodes ≤ MOST_NODES) }
{
    let mut first = Noted::new(alloc, nodes)?;
    let mut second = Noted::new(alloc, nodes)?;
    'noting: for said in events {
        note_in_one(&mut first, &mut second, said);
    }
    text_of_both(alloc, first, second)
}

const HEAD: &str = "     count        sum       self stack\n";

/// Events of threads 1 and 2, and the lines of their rows.
const ROWS: [(&[Said], &str); 9] = [
    (&[], ""),
    (
        &NESTED,
        "         1         35         25 #1;#1\n         1         10         10 #1;#1;#1\n",
    ),
    // Each exit ends a call of its own thread.
    (
        &TURNS,
        "         2         50         47 #7\n         1          3          3 #7;#8\n",
    ),
    // The counter wraps.
    (
        &[(1, Kind::Entry, 3, u64::MAX), (1, Kind::TailExit, 3, 0)],
        "         1          1          1 #3\n",
    ),
    // Exits without an entry, and an entry without an exit.
    (
        &[
            (1, Kind::Exit, 2, 5),
            (1, Kind::TailExit, 2, 6),
            (2, Kind::Entry, 2, 7),
        ],
        "",
    ),
    // An entry that logged an argument.
    (
        &[(2, Kind::EntryArgs, 4, 1), (2, Kind::Exit, 4, 5)],
        "         1          4          4 #4\n",
    ),
    // One function on two paths.
    (
        &[
            (1, Kind::Entry, 1, 0),
            (1, Kind::Entry, 3, 1),
            (1, Kind::Exit, 3, 3),
            (1, Kind::Exit, 1, 10),
            (1, Kind::Entry, 2, 20),
            (1, Kind::Entry, 3, 21),
            (1, Kind::Exit, 3, 26),
            (1, Kind::Exit, 2, 30),
        ],
        "         1         10          8 #1\n         1          2          2 #1;#3\n         \
         1         10          5 #2\n         1          5          5 #2;#3\n",
    ),
    // Functions whose ids have the same remainder by 8,192.
    (
        &[
            (1, Kind::Entry, 5, 0),
            (1, Kind::Exit, 8197, 2),
            (1, Kind::Entry, 8197, 3),
            (1, Kind::Exit, 5, 9),
        ],
        "         1          9          9 #5\n",
    ),
    // The counter falls within a call, and the call within it counts as longer.
    (
        &[
            (1, Kind::Entry, 1, 0),
            (1, Kind::Entry, 2, 10),
            (1, Kind::Exit, 2, 5),
            (1, Kind::Exit, 1, 8),
        ],
        "         1          8          0 #1\n         1 18446744073709551611 18446744073709551611 \
         #1;#2\n",
    ),
];

#[test]
fn recorders_have_the_rows_of_their_events(rt: HostRuntime) -> Result<(), Fail> {
    for (events, lines) in &ROWS {
        let text = merged_text(rt.alloc(), 8, events)?;
        check_same(&rt, &text.as_str().strip_prefix(HEAD), &Some(*lines));
    }
    Ok(())
}
