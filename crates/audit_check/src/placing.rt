//! The places of the loads of all threads of which an audit states something.

ghost use Rattle.std.specs.Prelude.{◌≡◌, ◌≤◌, ◌<◌, ◌+◌, ◌^◌, ◌++◌, ◌⊎◌, ◌↔◌, ℕ, List, [], Err, IfOk, IsTrue, None, OnOk, length};
ghost use Rattle.xray_image.specs.Program.{IsAccepted, Program};
ghost use Rattle.handler_word.specs.declared.mark.Mark.{Mark as Given};
ghost use Rattle.patch_script.specs.Refusals.{commands_of};
ghost use Rattle.patch_script.specs.declared.command.PatchCommand.{PatchCommand};
ghost use Rattle.machine_step.specs.declared.end.End.{End as How};
ghost use Rattle.machine_step.specs.{PlainStep.{Passing, PlainRun, State}, Setups.{IsSetup}, Traced.{IsLoad}};
ghost use Rattle.traced_run.specs.Runs.{ThreadRun};
ghost use Rattle.audit_check.specs.declared.placing.PlaceFault.TheVariants.{NoMemory as OutOfMemory};
ghost use Rattle.audit_check.specs.Placings.{ArePlaced, placed_by};
ghost use Rattle.audit_check.specs.Statements.{NamesThreads, most_marks, said_by, statement_of};
ghost use Rattle.audit_check.specs.private.Judging.{IsReady};
ghost use Rattle.audit_check.specs.private.LoadStops.{places_in};
ghost use Rattle.audit_check.specs.private.Placed.{HasStopped, IsThreadPlaced, fault_by};
ghost use Rattle.audit_check.specs.private.Switches.{IsCourseOf};

use crate::audit::{Audit, AuditEntry};
use crate::follower::Follower;
use crate::judging::{Agreement, FirstThreads, Judge, Walked, ends_agree, mark_at, marks_agree};
use crate::stop::{LoadStops, Stop};
use crate::switches::Course;
use handler_word::Marks;
use machine_step::{Cpu, Steps, Want, one_end, passings_are_limited, some_end};
use patch_script::Script;
use std::alloc::Global;
use thiserror::Error;
use xray_image::Image;
use xray_io::NoMemory;

/// Why the loads of the threads of an audit have no places. If both rows differ, it is `Ends`, with the
/// least thread. Threads count from 1.
#[derive(Clone, Copy, Debug, Error)]
pub enum PlaceFault {
    /// This thread's end, or the number of its passings, isn't that of its plain run.
    #[error("thread {0} doesn't end as it is said to")]
    Ends(u32),
    /// This thread doesn't have a mark for each of its passings, or no loads that follow the script
    /// give these marks.
    #[error("the marks of thread {0} don't follow the script")]
    Marks(u32),
    /// Memory for the places was refused.
    #[error("out of memory")]
    NoMemory,
}

/// A refused allocation ends the placing.
impl<E: Into<NoMemory> + Drop> From<E> for PlaceFault {
    ghost use Rattle.std.specs.Prelude.{◌≡◌};
    ghost use Rattle.audit_check.specs.declared.placing.PlaceFault.TheVariants as faults;

    ghost from_gives = { λ _ fault. fault ≡ faults.NoMemory };

    fn from(_error: E) -> PlaceFault {
        PlaceFault::NoMemory
    }
}

/// The loads of each thread of the run that an audit states, thread 1 first. Each load is at the first
/// place of the script at which it may lead to its mark. `Ends` and `Marks` come exactly where
/// `check_audit` returns that verdict, with the same thread.
///
/// The script has to be one for this image and for the audit's number of threads, and the audit has to
/// state something of each of these threads, in order. An audit that was read does.
///
/// Takes time in proportion to the instructions of the plain runs, the marks and the micro steps of the
/// script. `NoMemory` means that an allocation was refused.
pub fn place_loads(
    alloc: Global,
    image: &Image,
    script: &Script,
    audit: &Audit,
) -> Result<Vec<Vec<Stop>>, PlaceFault>
    requires program { script.now.program ≡ image.now }
    requires threads { script.now.threads ≡ audit.now.setup.threads }
    requires names { NamesThreads (statement_of audit.now) }
    ensures { (result ≡ Err OutOfMemory)
        ⊎ ArePlaced image.now (commands_of script.now.lines) (statement_of audit.now) (placed_by result) }
{
    image.each_was_accepted();
    some_end();
    let steps = Steps::new(alloc, image)?;
    let course = Course::new(alloc, image, script, audit.setup.threads)?;
    let judge = Judge {
        steps: &steps,
        script,
        course: &course,
        setup: &audit.setup,
    };
    let mut first = FirstThreads::none();
    let mut threads = Vec::new(alloc);
    for entry in &audit.entries {
        let placed = judge.place(alloc, entry)?;
        first.note(entry.thread, placed.agreement);
        threads.push(placed.stops)?;
    }
    match fault_of(&first) {
        Some(fault) => Err(fault),
        None => Ok(threads),
    }
}

/// The first row that doesn't agree.
fn fault_of(first: &FirstThreads) -> Option<PlaceFault>
    ensures { result ≡ fault_by first.now.ends first.now.marks }
{
    if let Some(thread) = first.ends {
        Some(PlaceFault::Ends(thread))
    } else if let Some(thread) = first.marks {
        Some(PlaceFault::Marks(thread))
    } else {
        None
    }
}

/// A thread whose loads were placed.
#[derive(Drop)]
struct PlacedThread {
    /// Whether its end and its marks agree. Its counts aren't looked at.
    agreement: Agreement,
    /// Its loads, if its end and its marks agree.
    stops: Vec<Stop>,
}

impl Judge<'_> {
    /// Judges the end and the marks that are stated of a thread, and places its loads.
    fn place(&self, alloc: Global, entry: &AuditEntry) -> Result<PlacedThread, NoMemory>
        requires setup { IsSetup self.now.setup.now }
        requires program { self.now.script.now.program ≡ self.now.steps.now }
        requires threads { self.now.script.now.threads ≡ self.now.setup.now.threads }
        requires number { (1 ≤ entry.now.thread) × (entry.now.thread ≤ self.now.setup.now.threads) }
        requires course { IsCourseOf self.now.steps.now self.now.setup.now.threads
            (commands_of self.now.script.now.lines) self.now.course.now }
        ensures { IfOk result (λ placed. (run : ThreadRun)
            → PlainRun self.now.steps.now self.now.setup.now.limits entry.now.thread run.passed run.end run.last
            → run.marks ≡ entry.now.marks.items
            → IsThreadPlaced self.now.steps.now self.now.setup.now.threads (commands_of self.now.script.now.lines)
            entry.now.thread (said_by entry.now) run placed) }
    {
        let image = self.steps.image();
        let mut follower = Follower::new(alloc, image, self.script, self.course, entry.thread)?;
        let mut cpu = Cpu::new(
            alloc,
            self.steps,
            entry.thread,
            self.setup.threads,
            None,
            self.setup.limits,
        )?;
        let mut loads = LoadStops::new(alloc);
        let walked = walk_places(&mut cpu, &entry.marks, &mut follower, &mut loads)?;
        let agreement = Agreement {
            ends: ends_agree(entry, walked),
            marks: marks_agree(entry, &follower),
            counts: true,
        };
        Ok(PlacedThread {
            agreement,
            stops: loads.done()?,
        })
    }
}

/// Takes a thread through its plain run. Its marks are judged one after the other, and its loads are
/// placed.
fn walk_places(
    cpu: &mut Cpu,
    marks: &Marks,
    follower: &mut Follower,
    loads: &mut LoadStops,
) -> Result<Walked, NoMemory>
    requires accepted { (bytes : List ℕ) × IsAccepted bytes cpu.old.program }
    requires between { IsLoad cpu.old.want → ⊥ }
    requires ready { IsReady follower.old }
    requires image { follower.old.image.now ≡ cpu.old.program }
    requires passing { follower.old.passing ≡ length cpu.old.marks }
    requires few { length cpu.old.marks ≤ most_marks }
    requires limit { cpu.old.limits.passings ≤ most_marks }
    ensures end { IfOk result (λ walked. (bytes : List ℕ) (passed : List Passing) (end : How) (last : State)
        → IsAccepted bytes cpu.old.program
        → PlainRun cpu.old.program cpu.old.limits cpu.old.thread passed end last
        → (walked.end ≡ end) × (walked.passings ≡ length passed)) }
    ensures walked { OnOk result ((bytes : List ℕ) (threads : ℕ) (script : List PatchCommand)
        (passed : List Passing) (end : How) (last : State) → IsAccepted bytes cpu.old.program
        → PlainRun cpu.old.program cpu.old.limits cpu.old.thread passed end last → cpu.old.marks ≡ []
        → HasStopped cpu.old.program threads script marks.now.items passed 0 follower.old (places_in loads.old)
        → HasStopped cpu.old.program threads script marks.now.items passed (length passed) follower.new
        (places_in loads.new)) }
    ensures thread { OnOk result (follower.new.thread ≡ follower.old.thread) }
{
    one_end();
    some_end();
    passings_are_limited();
    'gates: loop {
        match cpu.want() {
            Want::Gate(passing) => {
                let mark = mark_at(marks, passing);
                follower.judge_and_add(cpu.sled(), mark, loads)?;
                let _event = cpu.pass(mark);
            }
            Want::Done(end) => {
                return Ok(Walked {
                    end,
                    passings: cpu.passings(),
                });
            }
            Want::Load(_) => unreachable!(),
        }
    }
}
