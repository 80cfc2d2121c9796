//! What the commands so far have done.

ghost use Rattle.std.specs.{Prelude.{◌≡◌, ◌<◌, ◌≤◌, ℕ, List, [], false}, List.{list_any}};
ghost use Rattle.patch_script.specs.declared.command.PatchCommand.{PatchCommand as Said};
ghost use Rattle.patch_script.specs.Refusals.{is_misplaced, breaks_hold, breaks_log, waits_for_itself, holds_for_good, names_no_thread};

use crate::command::PatchCommand;
use sled_words::MAX_THREADS;

/// Whether a thread waits before a passing.
#[derive(Clone, Copy, PartialEq, Eq)]
pub(crate) enum Hold {
    /// No command holds the thread.
    Free,
    /// The thread is held before a passing, and no command has released it.
    Held { passing: u32 },
    /// The thread was held before a passing, and a later command has released it.
    Released { passing: u32 },
}

/// The holds of all threads.
#[derive(Clone, Copy)]
pub(crate) struct Holds {
    threads: [Hold; MAX_THREADS as usize],
}

impl Holds {
    ghost use Rattle.patch_script.specs.private.Standing.{hold_in, with_hold, released_of, passing_of, any_held};

    /// No thread is held.
    fn new() -> Holds
        ensures { (thread : ℕ) → hold_in result thread ≡ Hold.Free }
    {
        Holds {
            threads: [Hold::Free; MAX_THREADS as usize],
        }
    }

    /// The hold of a thread. It is `Free` if there is no such thread.
    pub(crate) fn of(&self, thread: u32) -> Hold
        ensures { result ≡ hold_in self.now thread }
    {
        let Some(place) = thread.checked_sub(1) else {
            return Hold::Free;
        };
        self.threads
            .get(place as usize)
            .copied()
            .unwrap_or(Hold::Free)
    }

    /// Sets the hold of a thread.
    fn set(&mut self, thread: u32, hold: Hold)
        requires some { 0 < thread }
        requires few { thread ≤ 16 }
        ensures { (other : ℕ) → hold_in self.new other ≡ with_hold self.old thread hold other }
    {
        self.threads[thread as usize - 1] = hold;
    }

    /// Releases a thread that is held. Other threads stay as they are.
    fn release(&mut self, thread: u32)
        requires some { 0 < thread }
        requires few { thread ≤ 16 }
        ensures { (other : ℕ) → hold_in self.new other
            ≡ with_hold self.old thread (released_of (hold_in self.old thread)) other }
    {
        let released = match self.of(thread) {
            Hold::Free => Hold::Free,
            Hold::Held { passing } | Hold::Released { passing } => Hold::Released { passing },
        };
        self.set(thread, released);
    }

    /// The passing that a thread is held before.
    pub(crate) fn passing_of(&self, thread: u32) -> Option<u32>
        ensures { result ≡ passing_of (hold_in self.now thread) }
    {
        match self.of(thread) {
            Hold::Free => None,
            Hold::Held { passing } | Hold::Released { passing } => Some(passing),
        }
    }

    /// Whether some thread is held and not released.
    fn any_held(&self) -> bool
        ensures { result ≡ any_held self.now }
    {
        self.threads
            .iter()
            .any(|hold| matches!(hold, Hold::Held { .. }))
    }
}

/// The state of the log.
#[derive(Clone, Copy)]
pub(crate) enum Log {
    Uninitialized,
    Initialized,
    Finalized,
}

/// What the commands so far have done.
#[derive(Clone, Copy)]
pub(crate) struct Standing {
    /// Whether the threads have started.
    pub(crate) going: bool,
    log: Log,
    pub(crate) holds: Holds,
}

impl Standing {
    ghost use Rattle.patch_script.specs.private.Standing.{IsStanding, Follows};

    /// The state before all commands.
    pub(crate) fn new() -> Standing
        ensures { IsStanding [] result }
    {
        Standing {
            going: false,
            log: Log::Uninitialized,
            holds: Holds::new(),
        }
    }

    /// Whether a command is on the wrong side of `go`.
    pub(crate) fn misplaces(&self, command: PatchCommand) -> bool
        ensures { (before : List Said) → IsStanding before self.now
            → result ≡ is_misplaced before command }
    {
        match command {
            PatchCommand::Go | PatchCommand::Hold { .. } => self.going,
            PatchCommand::Release { .. } | PatchCommand::Await { .. } => !self.going,
            _ => false,
        }
    }

    /// Whether a command holds a thread that was held before, or releases one that isn't held or
    /// was released.
    pub(crate) fn breaks_hold(&self, command: PatchCommand) -> bool
        ensures { (before : List Said) → IsStanding before self.now
            → result ≡ breaks_hold before command }
    {
        match command {
            PatchCommand::Hold { thread, .. } => self.holds.of(thread) != Hold::Free,
            PatchCommand::Release { thread } => !matches!(self.holds.of(thread), Hold::Held { .. }),
            _ => false,
        }
    }

    /// Whether a command isn't allowed in the log's state.
    pub(crate) fn breaks_log(&self, command: PatchCommand) -> bool
        ensures { (before : List Said) → IsStanding before self.now
            → result ≡ breaks_log before command }
    {
        match command {
            PatchCommand::Init => self.log != Log::Uninitialized,
            PatchCommand::Finalize => self.log != Log::Initialized,
            _ => false,
        }
    }

    /// Whether a command awaits passings that a held thread can't make before it is released.
    pub(crate) fn waits_for_itself(&self, command: PatchCommand) -> bool
        ensures { (before : List Said) → IsStanding before self.now
            → result ≡ waits_for_itself before command }
    {
        match command {
            PatchCommand::Await { thread, count } => match self.holds.of(thread) {
                Hold::Held { passing } => passing < count,
                Hold::Free | Hold::Released { .. } => false,
            },
            _ => false,
        }
    }

    /// Takes a command that may follow.
    pub(crate) fn take(&mut self, command: PatchCommand)
        requires { names_no_thread 16 command ≡ false }
        ensures { Follows self.old command self.new }
    {
        match command {
            PatchCommand::Go => self.going = true,
            PatchCommand::Init => self.log = Log::Initialized,
            PatchCommand::Finalize => self.log = Log::Finalized,
            PatchCommand::Hold { thread, passing } => self
                .holds
                .set(thread, Hold::Held { passing }),
            PatchCommand::Release { thread } => self.holds.release(thread),
            _ => {}
        }
    }

    /// Whether a thread is held and never released.
    pub(crate) fn holds_for_good(&self) -> bool
        ensures { (script : List Said) → IsStanding script self.now
            → result ≡ list_any (holds_for_good script) script }
    {
        self.holds.any_held()
    }
}
