//! Commands in their places among the micro steps.

ghost use Rattle.std.specs.Prelude.{◌≡◌, ◌<◌, ◌≤◌, ◌+◌, ◌-◌, ◌^◌, ◌↔◌, ℕ, false, List, [], ◌∷◌, ◌++◌, length, slice_get, Some, None, IsTrue, IfOk, OnOk, if◌then◌else◌};
ghost use Rattle.xray_image.specs.declared.sled.Sled.{Sled};
ghost use Rattle.patch_script.specs.Micros.{micro_at, steps_of, patch_sled, unpatch_sled};
ghost use Rattle.patch_script.specs.{Plans.{is_waiting}, Refusals.{commands_of, has_go}};
ghost use Rattle.patch_script.specs.private.Sleds.{HasSleds};

use crate::command::PatchCommand;
use crate::first_patches::FirstPatches;
use crate::micro::Micro;
use crate::sleds::{SledRange, SledValues, sled_values};
use sled_words::{
    HANDLER_SET, LogState, MAX_THREADS, NO_HANDLER, PARTS, Part, RELEASED, arg_handler_word,
    handler_word, state_word, word_of,
};
use std::alloc::{AllocError, Global};
use std::snapshot::Snapshot;
use xray_image::Image;

/// How many stores patch a sled: one for each part.
const PATCH_STORES: u64 = PARTS as u64;

/// The part of a sled that patching stores at this step, the head last (`patchFunctionEntry` of
/// `xray_x86_64.cpp`).
fn part_stored(step: usize) -> Part
    requires { step < 4 }
    ensures { slice_get (Part.Id ∷ Part.Opcode ∷ Part.Offset ∷ Part.Head ∷ []) step ≡ Some result }
{
    match step {
        0 => Part::Id,
        1 => Part::Opcode,
        2 => Part::Offset,
        _ => Part::Head,
    }
}

/// The states that `init` stores, in the order of its micro steps.
const INIT_STATES: [LogState; 2] = [LogState::Initializing, LogState::Initialized];

/// The states that `finalize` stores, in the order of its micro steps.
const FINALIZE_STATES: [LogState; 2] = [LogState::Finalizing, LogState::Finalized];

/// A command with its place.
#[derive(Clone, Copy)]
pub(crate) struct Placed {
    /// The number of its line, from 1.
    pub(crate) line: u32,
    pub(crate) command: PatchCommand,
    /// The sleds that it patches or unpatches.
    sleds: SledRange,
    /// How many micro steps come before it.
    before: u64,
    /// How many micro steps come before it or are its own.
    after: u64,
}

/// Commands in their places, and what their micro steps are made of.
#[derive(Drop)]
pub(crate) struct PlacedCommands {
    /// The image, for contracts only.
    pub(crate) image: Snapshot<Image>,
    /// How many threads there are.
    pub(crate) threads: u32,
    pub(crate) commands: Vec<Placed>,
    /// How many micro steps there are.
    pub(crate) total: u64,
    /// How many of them come before `go`. If there is no `go`, this is the number of all.
    pub(crate) start: u64,
    /// The line of the first command at which a thread or the patcher may wait.
    pub(crate) waits: Option<u32>,
    first_patches: FirstPatches,
    sleds: Vec<SledValues>,
    /// The number of the handler's word, which is the first after those of the sleds.
    handler_word: u32,
    /// The number of the state's word. The release words of the threads come after it.
    state_word: u32,
    /// The number of the argument handler's word, which is the last.
    arg_handler_word: u32,
}

impl PatchCommand {
    ghost use Rattle.patch_script.specs.private.Placing.{step_count};

    /// How many micro steps a command has. `sleds` is the number of sleds that it patches or
    /// unpatches.
    fn step_count(self, sleds: u32) -> u64
        ensures { result ≡ step_count self sleds }
    {
        match self {
            PatchCommand::Patch | PatchCommand::PatchFunction { .. } => PATCH_STORES
                * u64::from(sleds),
            PatchCommand::Unpatch | PatchCommand::UnpatchFunction { .. } => u64::from(sleds),
            PatchCommand::SetHandler
            | PatchCommand::RemoveHandler
            | PatchCommand::SetArgHandler
            | PatchCommand::RemoveArgHandler => 1,
            PatchCommand::Init | PatchCommand::Finalize => 2,
            PatchCommand::Hold { .. } | PatchCommand::Go => 0,
            PatchCommand::Release { .. } | PatchCommand::Await { .. } => 1,
        }
    }

    /// The command's line, if a thread or the patcher may wait at it.
    fn waiting_line(self, line: u32) -> Option<u32>
        ensures { result ≡ (if is_waiting self then Some line else None) }
    {
        match self {
            PatchCommand::Hold { .. } | PatchCommand::Release { .. } | PatchCommand::Await { .. } =>
                Some(line),
            _ => None,
        }
    }
}

impl PlacedCommands {
    ghost use Rattle.patch_script.specs.private.Placing.{ArePlaced, MayBePlaced, lines_in, IsAt, step_count, patched_before};

    /// No commands, for an image and a number of threads.
    pub(crate) fn new(
        alloc: Global,
        image: &Image,
        threads: u32,
    ) -> Result<PlacedCommands, AllocError>
        requires { threads ≤ MAX_THREADS }
        ensures sound { IfOk result ArePlaced }
        ensures image { IfOk result (λ placed. placed.image.value ≡ image.now) }
        ensures threads { IfOk result (λ placed. placed.threads ≡ threads) }
        ensures lines { IfOk result (λ placed. lines_in placed ≡ []) }
    {
        let sleds = sled_values(alloc, image)?;
        let first_patches = FirstPatches::new(alloc, image.id_count())?;
        Ok(PlacedCommands {
            image: Snapshot::of(image),
            threads,
            commands: Vec::new(alloc),
            total: 0,
            start: 0,
            waits: None,
            first_patches,
            sleds,
            handler_word: handler_word(image),
            state_word: state_word(image),
            arg_handler_word: arg_handler_word(image, threads),
        })
    }

    /// The sleds that a command patches or unpatches.
    fn sleds_of(&self, command: PatchCommand) -> SledRange
        requires { ArePlaced self.now }
        ensures { HasSleds self.now.image.value command result }
    {
        match command {
            PatchCommand::Patch | PatchCommand::Unpatch => SledRange {
                start: 0,
                end: self.sleds.len() as u32,
            },
            PatchCommand::PatchFunction { id } | PatchCommand::UnpatchFunction { id } =>
                SledRange::of_function(&self.sleds, id),
            _ => SledRange::none(),
        }
    }

    /// Adds the command of a line. `going` says whether `go` came before it.
    pub(crate) fn push(
        &mut self,
        line: u32,
        command: PatchCommand,
        going: bool,
    ) -> Result<(), AllocError>
        requires sound { ArePlaced self.old }
        requires follows { MayBePlaced self.old command }
        requires going { going ≡ has_go (commands_of (lines_in self.old)) }
        ensures sound { OnOk result (ArePlaced self.new) }
        ensures image { OnOk result (self.new.image.value ≡ self.old.image.value) }
        ensures threads { OnOk result (self.new.threads ≡ self.old.threads) }
        ensures lines { OnOk result (lines_in self.new ≡ lines_in self.old ++ (line, command) ∷ []) }
    {
        let sleds = self.sleds_of(command);
        let number = self.commands.len() as u32;
        let after = self.total + command.step_count(sleds.len());
        self.commands.push(Placed {
            line,
            command,
            sleds,
            before: self.total,
            after,
        })?;
        self.first_patches.add(command, number);
        self.total = after;
        self.start = self.start_after(going);
        self.waits = self.waits.or(command.waiting_line(line));
        Ok(())
    }

    /// How many micro steps come before `go`. If `go` came earlier, the number stays. Otherwise it
    /// is that of all micro steps so far.
    fn start_after(&self, going: bool) -> u64
        ensures { result ≡ (if going then self.now.start else self.now.total) }
    {
        if going { self.start } else { self.total }
    }

    /// The micro step at a place. Looks for its command at the number `near` first, and leaves its
    /// number there. Any number gives the same answer.
    pub(crate) fn micro_near(&self, place: u64, near: &mut u32) -> Micro
        requires { ArePlaced self.now }
        ensures { result ≡ micro_at self.now.image.value self.now.threads (commands_of (lines_in self.now)) place }
    {
        if place >= self.total {
            return Micro::End;
        }
        let number = self.number_near(place, *near);
        let micro = self.micro_of(number, place);
        *near = number as u32;
        micro
    }

    /// The number of the command that the micro step at a place belongs to. Looks at the command with
    /// the number `near`, then at the one after it, and then among all.
    fn number_near(&self, place: u64, near: u32) -> usize
        requires sound { ArePlaced self.now }
        requires within { place < self.now.total }
        ensures { IsAt self.now place result }
    {
        let here = near as usize;
        let next = here + 1;
        if self.has_step(here, place) {
            here
        } else if self.has_step(next, place) {
            next
        } else {
            self.number_at(place)
        }
    }

    /// Whether the micro step at a place belongs to the command with this number.
    fn has_step(&self, number: usize, place: u64) -> bool
        requires { ArePlaced self.now }
        ensures { IsTrue result ↔ IsAt self.now place number }
    {
        match self.commands.get(number) {
            Some(placed) => placed.before <= place && place < placed.after,
            None => false,
        }
    }

    /// The number of the command that the micro step at a place belongs to.
    fn number_at(&self, place: u64) -> usize
        requires sound { ArePlaced self.now }
        requires within { place < self.now.total }
        ensures { IsAt self.now place result }
    {
        self.commands
            .partition_point(|placed| placed.before <= place)
            - 1
    }

    /// The micro step at a place, which belongs to the command with this number.
    fn micro_of(&self, number: usize, place: u64) -> Micro
        requires sound { ArePlaced self.now }
        requires at { IsAt self.now place number }
        ensures { result ≡ micro_at self.now.image.value self.now.threads (commands_of (lines_in self.now)) place }
    {
        let placed = self.commands[number];
        self.step(number as u32, placed, place - placed.before)
    }

    /// A micro step of the command with this number.
    fn step(&self, number: u32, placed: Placed, step: u64) -> Micro
        requires sound { ArePlaced self.now }
        requires placed { slice_get self.now.commands.items number ≡ Some placed }
        requires within { step < step_count placed.command (placed.sleds.end - placed.sleds.start) }
        ensures { slice_get
            (steps_of self.now.image.value self.now.threads (patched_before self.now number) placed.command) step
            ≡ Some result }
    {
        match placed.command {
            PatchCommand::Patch | PatchCommand::PatchFunction { .. } => self.patch_step(
                placed.sleds.start + (step / PATCH_STORES) as u32,
                (step % PATCH_STORES) as usize,
            ),
            PatchCommand::Unpatch | PatchCommand::UnpatchFunction { .. } => self.unpatch_step(
                number,
                placed.sleds.start + step as u32,
            ),
            PatchCommand::SetHandler => Micro::Store {
                word: self.handler_word,
                value: HANDLER_SET,
            },
            PatchCommand::RemoveHandler => Micro::Store {
                word: self.handler_word,
                value: NO_HANDLER,
            },
            PatchCommand::SetArgHandler => Micro::Store {
                word: self.arg_handler_word,
                value: HANDLER_SET,
            },
            PatchCommand::RemoveArgHandler => Micro::Store {
                word: self.arg_handler_word,
                value: NO_HANDLER,
            },
            PatchCommand::Init => Micro::Store {
                word: self.state_word,
                value: INIT_STATES[step as usize] as u64,
            },
            PatchCommand::Finalize => Micro::Store {
                word: self.state_word,
                value: FINALIZE_STATES[step as usize] as u64,
            },
            PatchCommand::Release { thread } => Micro::Store {
                word: self.state_word + thread,
                value: RELEASED,
            },
            PatchCommand::Await { thread, count } => Micro::Await { thread, count },
            PatchCommand::Hold { .. } | PatchCommand::Go => unreachable!(),
        }
    }

    /// The store that patches a part of a sled. Parts are numbered in the order of patching.
    fn patch_step(&self, sled: u32, part: usize) -> Micro
        requires sound { ArePlaced self.now }
        requires sled { sled < length self.now.image.value.sleds }
        requires part { part < 4 }
        ensures { (described : Sled) → slice_get self.now.image.value.sleds sled ≡ Some described
            → slice_get (patch_sled self.now.image.value (sled, described)) part ≡ Some result }
    {
        let part = part_stored(part);
        Micro::Store {
            word: word_of(sled, part),
            value: self.sleds[sled as usize].patched(part),
        }
    }

    /// The store by which the command with this number unpatches a sled.
    fn unpatch_step(&self, number: u32, sled: u32) -> Micro
        requires sound { ArePlaced self.now }
        requires sled { sled < length self.now.image.value.sleds }
        ensures { (described : Sled) → slice_get self.now.image.value.sleds sled ≡ Some described
            → result ≡ unpatch_sled (patched_before self.now number) (sled, described) }
    {
        let values = self.sleds[sled as usize];
        let was_patched = self.first_patches.patch_before(values.id, number);
        Micro::Store {
            word: word_of(sled, Part::Head),
            value: values.unpatched_head(was_patched),
        }
    }
}
