//! Reading scripts from their texts.

ghost use Rattle.std.specs.Prelude.{◌≡◌, ◌<◌, ◌≤◌, ◌⊎◌, ◌++◌, ◌∷◌, [], ◌+◌, List, ℕ, length, Ok, Err, IfOk, OnOk};
ghost use Rattle.std.specs.Str.Lines.{lines};
ghost use Rattle.text_lines.specs.Lines.{numbered_lines};
ghost use Rattle.xray_image.specs.{Program.{Program}, Ids.{id_count}};
ghost use Rattle.patch_script.specs.Limits.{most_commands};
ghost use Rattle.patch_script.specs.Refusals.{is_beyond, names_no_function, names_no_thread, with_line, read_lines};
ghost use Rattle.patch_script.specs.Plans.{plan_of};
ghost use Rattle.patch_script.specs.private.Drafts.{program_of, lines_of, IsDraft, MayFollow, Judges, HasLines, Takes, Reads};

use crate::command::PatchCommand;
use crate::fault::ScriptFault;
use crate::line::{command_in, is_blank};
use crate::placed::PlacedCommands;
use crate::script::Script;
use crate::standing::Standing;
use sled_words::MAX_THREADS;
use std::alloc::{AllocError, Global};
use text_lines::{Line, Lines, count_lines};
use xray_image::Image;

/// The most commands of a script.
const COMMAND_LIMIT: usize = 1024;

/// The commands that were read so far.
#[derive(Drop)]
pub(crate) struct Draft {
    /// How many function ids the image has.
    ids: u32,
    pub(crate) placed: PlacedCommands,
    pub(crate) standing: Standing,
}

/// Whether a number isn't one of those from 1 to `count`.
fn is_beyond(count: u32, number: u32) -> bool
    ensures { result ≡ is_beyond count number }
{
    number == 0 || number > count
}

impl Draft {
    /// No commands yet.
    fn new(alloc: Global, image: &Image, threads: u32) -> Result<Draft, ScriptFault>
        requires { threads ≤ MAX_THREADS }
        ensures { Reads image.now threads result (Ok []) }
    {
        Ok(Draft {
            ids: image.id_count(),
            placed: PlacedCommands::new(alloc, image, threads)?,
            standing: Standing::new(),
        })
    }

    /// Whether a command names a function that doesn't exist.
    fn names_no_function(&self, command: PatchCommand) -> bool
        ensures { (program : Program) → self.now.ids ≡ id_count program
            → result ≡ names_no_function program command }
    {
        match command {
            PatchCommand::PatchFunction { id } | PatchCommand::UnpatchFunction { id } => is_beyond(
                self.ids, id,
            ),
            _ => false,
        }
    }

    /// Whether a command names a thread that doesn't exist.
    fn names_no_thread(&self, command: PatchCommand) -> bool
        ensures { result ≡ names_no_thread self.now.placed.threads command }
    {
        match command {
            PatchCommand::Hold { thread, .. }
            | PatchCommand::Release { thread }
            | PatchCommand::Await { thread, .. } => is_beyond(self.placed.threads, thread),
            _ => false,
        }
    }

    /// The first refusal that applies to the command of a line, by the commands before it.
    fn judge(&self, line: u32, command: PatchCommand) -> Result<(), ScriptFault>
        requires { IsDraft self.now }
        ensures { Judges self.now line command result }
    {
        if self.names_no_function(command) {
            return Err(ScriptFault::Function(line));
        }
        if self.names_no_thread(command) {
            return Err(ScriptFault::Thread(line));
        }
        if self.standing.misplaces(command) {
            return Err(ScriptFault::Go(line));
        }
        if self.standing.breaks_hold(command) {
            return Err(ScriptFault::Hold(line));
        }
        if self.standing.breaks_log(command) {
            return Err(ScriptFault::Log(line));
        }
        if self.standing.waits_for_itself(command) {
            return Err(ScriptFault::SelfWait(line));
        }
        Ok(())
    }

    /// Adds a command that may follow.
    fn push(&mut self, line: u32, command: PatchCommand) -> Result<(), AllocError>
        requires sound { IsDraft self.old }
        requires admitted { MayFollow self.old command }
        requires room { length (lines_of self.old) < most_commands }
        ensures { OnOk result (HasLines self.old (lines_of self.old ++ (line, command) ∷ []) self.new) }
    {
        self.placed.push(line, command, self.standing.going)?;
        self.standing.take(command);
        Ok(())
    }

    /// Takes a line of the text, or refuses it.
    fn take_line(&mut self, line: &Line) -> Result<(), ScriptFault>
        requires { IsDraft self.old }
        ensures { Takes result self.old
            (with_line (program_of self.old) self.old.placed.threads (lines_of self.old)
            (line.now.number, line.now.bytes.now)) self.new }
    {
        if is_blank(line) {
            return Ok(());
        }
        if self.placed.commands.len() >= COMMAND_LIMIT {
            return Err(ScriptFault::Limit(line.number));
        }
        let Some(command) = command_in(line) else {
            return Err(ScriptFault::Syntax(line.number));
        };
        self.judge(line.number, command)?;
        self.push(line.number, command)?;
        Ok(())
    }
}

/// Reads all lines. The answer is the first refusal, if there is one.
fn read_lines(alloc: Global, text: &[u8], image: &Image, threads: u32) -> Result<Draft, ScriptFault>
    requires threads { threads ≤ MAX_THREADS }
    requires few { length (lines text.now) < u32.MAX }
    ensures { Reads image.now threads result
        (read_lines image.now threads [] (numbered_lines text.now)) }
{
    let mut draft = Draft::new(alloc, image, threads)?;
    for line in Lines::with_few_lines(text) {
        draft.take_line(&line)?;
    }
    Ok(draft)
}

/// Reads a script for an image and a number of threads, which is from 1 to 16. If the text isn't a
/// script, the answer is its first refusal; see `ScriptFault`. `NoMemory` may come in place of any
/// answer. The text has to have fewer than `u32::MAX` lines.
pub fn read_script(
    alloc: Global,
    text: &[u8],
    image: &Image,
    threads: u32,
) -> Result<Script, ScriptFault>
    requires some_thread { 0 < threads }
    requires few_threads { threads ≤ MAX_THREADS }
    requires few_lines { length (lines text.now) < u32.MAX }
    // The answer is the script of the text, or its first refusal.
    ensures reads { (result ≡ Err ScriptFault.NoMemory)
        ⊎ (result ≡ plan_of image.now threads text.now) }
    // A script is for the image and the threads that it was read with.
    ensures program { IfOk result (λ script. script.program ≡ image.now) }
    ensures threads { IfOk result (λ script. script.threads ≡ threads) }
{
    let draft = read_lines(alloc, text, image, threads)?;
    if !draft.standing.going {
        return Err(ScriptFault::Go(count_lines(text) as u32 + 1));
    }
    if draft.standing.holds_for_good() {
        return Err(ScriptFault::Hold(count_lines(text) as u32 + 1));
    }
    Ok(Script::of_draft(draft))
}

/// A refused allocation ends the reading.
impl<E: Into<xray_io::NoMemory> + Drop> From<E> for ScriptFault {
    ghost use Rattle.patch_script.specs.declared.fault.ScriptFault.TheVariants.{NoMemory};

    ghost from_gives = { λ _ fault. fault ≡ NoMemory };

    fn from(_error: E) -> ScriptFault {
        ScriptFault::NoMemory
    }
}
