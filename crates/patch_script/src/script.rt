//! A script that was read, and what it says.

ghost use Rattle.std.specs.Prelude.{◌≡◌, ◌<◌, ◌≤◌, ◌↔◌, ℕ};
ghost use Rattle.patch_script.specs.Limits.{most_micros};
ghost use Rattle.patch_script.specs.Micros.{start_of, total_of, micro_at, hold_of};
ghost use Rattle.patch_script.specs.Refusals.{commands_of};
ghost use Rattle.patch_script.specs.Plans.{IsRead, IsOrderly, IsStore, IsWithin, waiting_line};

use crate::micro::Micro;
use crate::placed::PlacedCommands;
use crate::reading::Draft;
use crate::standing::Holds;
use std::marker::Model;

/// A patch script that was read for an image and a number of threads. In contracts it is its
/// commands with their lines, the image's program, and the number of threads.
///
/// Commands mean micro steps: single stores, and waits for a thread. Micro steps are numbered from
/// 0, in the order in which the patcher makes them.
#[derive(Drop)]
pub struct Script {
    placed: PlacedCommands,
    holds: Holds,
}

impl Model for Script {
    ghost use Rattle.patch_script.specs.Plans.{Plan};

    ghost Value = { Plan };

    ghost use Rattle.patch_script.specs.private.Scripts.{plan_in, IsSound};

    ghost view = { plan_in };

    ghost invariant = { IsSound };
}

impl Script {
    ghost use Rattle.patch_script.specs.private.Drafts.{IsWhole, plan_of_draft};

    /// The script of a whole text.
    pub(crate) fn of_draft(draft: Draft) -> Script
        requires { IsWhole draft }
        ensures { result ≡ plan_of_draft draft }
    {
        Script {
            placed: draft.placed,
            holds: draft.standing.holds,
        }
    }

    /// How many micro steps come before `go`, where the threads start.
    pub fn start(&self) -> u64
        ensures start { result ≡ start_of self.now.program self.now.threads (commands_of self.now.lines) }
        ensures within { result ≤ total_of self.now.program self.now.threads (commands_of self.now.lines) }
        // Before the threads start there are only stores.
        ensures stores { (place : ℕ) → place < result
            → IsStore (micro_at self.now.program self.now.threads (commands_of self.now.lines) place) }
        // A script is what some text says, and each of its commands may follow those before it.
        ensures read { IsRead self.now }
        ensures orderly { IsOrderly self.now }
    {
        self.placed.start
    }

    /// How many micro steps there are, at most 16,777,216.
    pub fn total(&self) -> u64
        ensures total { result ≡ total_of self.now.program self.now.threads (commands_of self.now.lines) }
        ensures few { result ≤ most_micros }
    {
        self.placed.total
    }

    /// A law: a script has at most 16,777,216 micro steps. The call does nothing.
    #[inline(always)]
    pub fn micro_steps_are_few(&self)
        ensures { total_of self.now.program self.now.threads (commands_of self.now.lines) ≤ most_micros }
    {
        // Reading a field brings in what holds of each script.
        let _total = self.placed.total;
    }

    /// The micro step of this number, counted from 0. The answer is `End` exactly when there are no
    /// more micro steps than that.
    pub fn micro(&self, p: u64) -> Micro
        ensures micro { result ≡ micro_at self.now.program self.now.threads (commands_of self.now.lines) p }
        ensures within { IsWithin self.now result }
        ensures end { (result ≡ Micro.End)
            ↔ (total_of self.now.program self.now.threads (commands_of self.now.lines) ≤ p) }
    {
        self.micro_near(p, &mut 0)
    }

    /// The same as `micro`. `near` is a guess at the command that the micro step belongs to: the
    /// number of a command, counted from 0. Any number gives the same answer. If it is that command,
    /// or the one before it, the call doesn't search. Leaves the number of that command in `near`,
    /// unless the answer is `End`.
    ///
    /// A caller that goes through the micro steps in order keeps `near` between its calls.
    pub fn micro_near(&self, p: u64, near: &mut u32) -> Micro
        ensures micro { result ≡ micro_at self.now.program self.now.threads (commands_of self.now.lines) p }
        ensures within { IsWithin self.now result }
        ensures end { (result ≡ Micro.End)
            ↔ (total_of self.now.program self.now.threads (commands_of self.now.lines) ≤ p) }
    {
        self.placed.micro_near(p, near)
    }

    /// The passing, counted from 0, before which the script holds a thread. The answer is `None`
    /// exactly when it doesn't hold the thread.
    pub fn hold_of(&self, thread: u32) -> Option<u32>
        ensures { result ≡ hold_of thread (commands_of self.now.lines) }
    {
        self.holds.passing_of(thread)
    }

    /// The line of the first `hold`, `release` or `await`. There a thread or the patcher may wait.
    /// The answer is `None` exactly when there is no such line.
    pub fn waits(&self) -> Option<u32>
        ensures { result ≡ waiting_line self.now.lines }
    {
        self.placed.waits
    }
}
