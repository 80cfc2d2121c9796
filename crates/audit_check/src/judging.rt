//! The verdict on an audit and a trace.

ghost use Rattle.std.specs.Prelude.{◌≡◌, ◌<◌, ◌≤◌, ◌+◌, ◌-◌, ◌==◌, ◌&&◌, ◌↔◌, ◌++◌, ℕ, List, [], None, IfOk, IsTrue, is_some, length, sum_by};
ghost use Rattle.xray_image.specs.Program.{IsAccepted, Program};
ghost use Rattle.patch_script.specs.Refusals.{commands_of};
ghost use Rattle.machine_step.specs.declared.end.End.{End as How};
ghost use Rattle.machine_step.specs.{PlainStep.{Passing, PlainRun, State}, Setups.{IsSetup}, Traced.{IsLoad}};
ghost use Rattle.traced_run.specs.Runs.{ThreadRun};
ghost use Rattle.audit_check.specs.private.Judging.{IsReady};
ghost use Rattle.audit_check.specs.private.Switches.{IsCourseOf};
ghost use Rattle.audit_check.specs.private.Walks.{AreCounted, HasWalked, IsFound, IsWayOf, KeepsLast, Way, first_of, mark_or_skipped, verdict_by};
ghost use Rattle.audit_check.specs.Rows.{RecycledAgrees};
ghost use Rattle.audit_check.specs.Statements.{NamesThreads, most_marks, said_by, statement_of};
ghost use Rattle.audit_check.specs.Verdicts.{IsJudged};

use crate::audit::{Audit, AuditEntry};
use crate::blocks::{Recording, TraceLeft};
use crate::follower::Follower;
use crate::switches::Course;
use crate::verdict::Verdict;
use handler_word::{Mark, Marks};
use machine_step::{Cpu, End, Setup, Steps, Want, one_end, passings_are_limited, some_end};
use patch_script::Script;
use std::alloc::Global;
use traced_run::passings_fit;
use xray_image::Image;
use xray_io::NoMemory;

/// Judges an audit and a trace against an image and a script. The answer is `Yes`, or the first row in
/// which they differ; see `Verdict`. Nothing is taken from whoever has made the files. Each thread is
/// run as its plain run, and it is asked whether some loads that follow the script give its marks.
///
/// The script has to be one for this image and for the audit's number of threads, and the audit has to
/// state something of each of these threads, in order. An audit that was read does. The trace may be any
/// bytes.
///
/// Takes time in proportion to the instructions of the plain runs, the marks, the micro steps of the
/// script and the trace. `NoMemory` means that an allocation was refused.
pub fn check_audit(
    alloc: Global,
    image: &Image,
    script: &Script,
    audit: &Audit,
    trace: &[u8],
) -> Result<Verdict, NoMemory>
    requires program { script.now.program ≡ image.now }
    requires threads { script.now.threads ≡ audit.now.setup.threads }
    requires names { NamesThreads (statement_of audit.now) }
    ensures { IfOk result (IsJudged image.now (commands_of script.now.lines) (statement_of audit.now) trace.now) }
{
    image.each_was_accepted();
    some_end();
    let steps = Steps::new(alloc, image)?;
    let course = Course::new(alloc, image, script, audit.setup.threads)?;
    let judge = Judge {
        steps: &steps,
        script,
        course: &course,
        setup: &audit.setup,
    };
    let mut left = TraceLeft::new(alloc, &audit.setup, trace)?;
    let mut first = FirstThreads::none();
    for entry in &audit.entries {
        let agreement = judge.thread(alloc, entry, &mut left)?;
        first.note(entry.thread, agreement);
    }
    Ok(first.verdict(recycles(audit), left.is_same()))
}

/// What threads are judged by.
#[derive(Clone, Copy)]
pub(crate) struct Judge<'a> {
    pub(crate) steps: &'a Steps<'a>,
    pub(crate) script: &'a Script,
    pub(crate) course: &'a Course,
    pub(crate) setup: &'a Setup,
}

/// Whether each of the rows of a thread agrees.
#[derive(Clone, Copy)]
pub(crate) struct Agreement {
    pub(crate) ends: bool,
    pub(crate) marks: bool,
    pub(crate) counts: bool,
}

/// The first thread of which each of these rows doesn't agree.
#[derive(Clone, Copy)]
pub(crate) struct FirstThreads {
    pub(crate) ends: Option<u32>,
    pub(crate) marks: Option<u32>,
    counts: Option<u32>,
}

/// A thread at the end of its plain run.
#[derive(Clone, Copy)]
pub(crate) struct Walked {
    pub(crate) end: End,
    pub(crate) passings: u32,
}

impl Judge<'_> {
    /// Judges what is stated of a thread, and compares its segments with the trace.
    fn thread(
        &self,
        alloc: Global,
        entry: &AuditEntry,
        trace: &mut TraceLeft,
    ) -> Result<Agreement, NoMemory>
        requires setup { IsSetup self.now.setup.now }
        requires program { self.now.script.now.program ≡ self.now.steps.now }
        requires threads { self.now.script.now.threads ≡ self.now.setup.now.threads }
        requires number { (1 ≤ entry.now.thread) × (entry.now.thread ≤ self.now.setup.now.threads) }
        requires course { IsCourseOf self.now.steps.now self.now.setup.now.threads
            (commands_of self.now.script.now.lines) self.now.course.now }
        ensures { IfOk result (λ agreement. (all before : List ℕ) (run : ThreadRun)
            → PlainRun self.now.steps.now self.now.setup.now.limits entry.now.thread run.passed run.end run.last
            → run.marks ≡ entry.now.marks.items → run.lost ≡ entry.now.first
            → IsFound (record {
              program = self.now.steps.now;
              script = commands_of self.now.script.now.lines;
              setup = self.now.setup.now;
              thread = entry.now.thread;
              lost = entry.now.first;
              marks = entry.now.marks.items;
              trace = all;
              before = before;
            }) (said_by entry.now) run agreement trace.old trace.new) }
    {
        let image = self.steps.image();
        let mut follower = Follower::new(alloc, image, self.script, self.course, entry.thread)?;
        let mut recording = Recording::new(alloc, self.setup, entry.thread, entry.first)?;
        let mut cpu = Cpu::new(
            alloc,
            self.steps,
            entry.thread,
            self.setup.threads,
            None,
            self.setup.limits,
        )?;
        let walked = walk(&mut cpu, &entry.marks, &mut follower, &mut recording, trace);
        let segments = recording.finish(trace);
        Ok(Agreement {
            ends: ends_agree(entry, walked),
            marks: marks_agree(entry, &follower),
            counts: counts_agree(entry, segments),
        })
    }
}

/// Whether a thread is stated to end as it does, and to make as many passings.
pub(crate) fn ends_agree(entry: &AuditEntry, walked: Walked) -> bool
    ensures { IsTrue result ↔ (entry.now.end ≡ walked.end) × (entry.now.passings ≡ walked.passings) }
{
    entry.end == walked.end && entry.passings == walked.passings
}

/// Whether a thread has a mark for each passing that is stated, and the marks follow the script.
pub(crate) fn marks_agree(entry: &AuditEntry, follower: &Follower) -> bool
    ensures { result ≡ (length entry.now.marks.items == entry.now.passings) && is_some follower.now.place }
{
    let follows = follower.follows();
    entry.marks.len() == entry.passings && follows
}

/// Whether a thread's recorded passings and its segments are counted as they are, and it has kept its last
/// segment.
fn counts_agree(entry: &AuditEntry, segments: u32) -> bool
    ensures { IsTrue result ↔ AreCounted (said_by entry.now) segments }
{
    let recorded = entry.marks.recorded();
    let kept = is_kept(entry);
    entry.recorded == recorded && entry.segments == segments && kept
}

/// Whether a thread is stated to have kept its last segment, if it has segments.
fn is_kept(entry: &AuditEntry) -> bool
    ensures { IsTrue result ↔ KeepsLast entry.now.segments entry.now.first }
{
    if entry.segments == 0 {
        entry.first == 0
    } else {
        entry.first < entry.segments
    }
}

/// Takes a thread through its plain run. Its marks are judged one after the other, and the events that
/// they record are noted.
fn walk(
    cpu: &mut Cpu,
    marks: &Marks,
    follower: &mut Follower,
    recording: &mut Recording,
    trace: &mut TraceLeft,
) -> Walked
    requires accepted { (bytes : List ℕ) × IsAccepted bytes cpu.old.program }
    requires between { IsLoad cpu.old.want → ⊥ }
    requires ready { IsReady follower.old }
    requires image { follower.old.image.now ≡ cpu.old.program }
    requires passing { follower.old.passing ≡ length cpu.old.marks }
    requires whole { recording.old.whole ≤ length cpu.old.marks }
    requires few { length cpu.old.marks ≤ most_marks }
    requires limit { cpu.old.limits.passings ≤ most_marks }
    ensures whole { recording.new.whole ≤ result.passings }
    ensures few { result.passings ≤ most_marks }
    ensures end { (bytes : List ℕ) (passed : List Passing) (end : How) (last : State)
        → IsAccepted bytes cpu.old.program
        → PlainRun cpu.old.program cpu.old.limits cpu.old.thread passed end last
        → (result.end ≡ end) × (result.passings ≡ length passed) }
    ensures walked { (bytes : List ℕ) (way : Way) (passed : List Passing) (end : How) (last : State)
        → IsAccepted bytes way.program → IsWayOf way cpu.old marks.now.items
        → PlainRun way.program way.setup.limits way.thread passed end last → cpu.old.marks ≡ []
        → HasWalked way passed 0 follower.old recording.old trace.old
        → HasWalked way passed (length passed) follower.new recording.new trace.new }
{
    one_end();
    some_end();
    passings_fit();
    passings_are_limited();
    'gates: loop {
        match cpu.want() {
            Want::Gate(passing) => {
                let mark = mark_at(marks, passing);
                follower.judge(cpu.sled(), mark);
                if let Some(event) = cpu.pass(mark) {
                    recording.note(&event, trace);
                }
            }
            Want::Done(end) => return Walked {
                end,
                passings: cpu.passings(),
            },
            Want::Load(_) => unreachable!(),
        }
    }
}

/// The mark of a passing. A passing without a mark is taken as skipped: its thread has fewer marks than
/// passings, whatever its other marks are.
pub(crate) fn mark_at(marks: &Marks, passing: u32) -> Mark
    ensures { result ≡ mark_or_skipped marks.now.items passing }
{
    if passing < marks.len() {
        marks.get(passing)
    } else {
        Mark::Skipped
    }
}

impl FirstThreads {
    /// All rows agree so far.
    pub(crate) fn none() -> Self
        ensures ends { result.ends ≡ None }
        ensures marks { result.marks ≡ None }
        ensures counts { result.counts ≡ None }
    {
        FirstThreads {
            ends: None,
            marks: None,
            counts: None,
        }
    }

    /// Notes which rows of the next thread agree.
    pub(crate) fn note(&mut self, thread: u32, agreement: Agreement)
        ensures ends { self.new.ends ≡ first_of self.old.ends thread agreement.ends }
        ensures marks { self.new.marks ≡ first_of self.old.marks thread agreement.marks }
        ensures counts { self.new.counts ≡ first_of self.old.counts thread agreement.counts }
    {
        self.ends = first_of(self.ends, thread, agreement.ends);
        self.marks = first_of(self.marks, thread, agreement.marks);
        self.counts = first_of(self.counts, thread, agreement.counts);
    }

    /// The verdict, after all threads. `recycled` and `same` say whether the rows of all threads agree.
    fn verdict(&self, recycled: bool, same: bool) -> Verdict
        ensures { result ≡ verdict_by self.now.ends self.now.marks self.now.counts recycled same }
    {
        if let Some(thread) = self.ends {
            Verdict::Ends(thread)
        } else if let Some(thread) = self.marks {
            Verdict::Marks(thread)
        } else if let Some(thread) = self.counts {
            Verdict::Counts(thread)
        } else if !recycled {
            Verdict::Recycled
        } else if !same {
            Verdict::Trace
        } else {
            Verdict::Yes
        }
    }
}

/// The first thread of which a row doesn't agree, after one more thread.
fn first_of(before: Option<u32>, thread: u32, agrees: bool) -> Option<u32>
    ensures { result ≡ first_of before thread agrees }
{
    if agrees {
        before
    } else {
        before.or(Some(thread))
    }
}

/// How many segments all threads are stated to have lost.
fn lost_segments(entries: &[AuditEntry]) -> u128
    ensures { result ≡ sum_by (λ entry. entry.first) entries.now }
{
    entries.iter().map(|entry| u128::from(entry.first)).sum()
}

/// How many segments all threads are stated to have queued. A thread keeps its last one.
fn queued_segments(entries: &[AuditEntry]) -> u128
    ensures { result ≡ sum_by (λ entry. entry.segments - 1) entries.now }
{
    entries
        .iter()
        .map(|entry| u128::from(entry.segments.saturating_sub(1)))
        .sum()
}

/// Whether as many segments are stated to be recycled as the threads have lost, and as their queue had
/// no spare buffers for.
fn recycles(audit: &Audit) -> bool
    requires { NamesThreads (statement_of audit.now) }
    ensures { IsTrue result ↔ RecycledAgrees (statement_of audit.now) }
{
    let recycled = u128::from(audit.recycled);
    let lost = lost_segments(&audit.entries);
    let spare = u128::from(audit.setup.max - audit.setup.threads);
    let unspared = queued_segments(&audit.entries).saturating_sub(spare);
    recycled == lost && recycled == unspared
}
