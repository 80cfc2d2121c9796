//! Reading an audit, row by row.

ghost use Rattle.std.specs.Prelude.{◌≡◌, ◌==◌, ◌≢◌, ◌⊎◌, ◌<◌, ◌≤◌, ◌+◌, ◌^◌, ◌∷◌, ◌++◌, ℕ, List, [], Ok, Err, MatchResult, IfErr, IfOk, drop, length, map, position, take};
ghost use Rattle.machine_step.specs.declared.setup.Setup.{Setup};
ghost use Rattle.machine_step.specs.{Setups.{IsSetup}, Texts.{marks_line}};
ghost use Rattle.trace_flush.specs.Audit.{ThreadAudit, recycled_line};
ghost use Rattle.audit_check.specs.declared.fault.AuditFault.TheVariants.{Form, NoMemory};
ghost use Rattle.audit_check.specs.declared.thread_rows.Counts.{Counts as Said};
ghost use Rattle.audit_check.specs.private.Lines.{AreFirst, HasTaken, Refuses, all_rows, counts_row, first_rows};
ghost use Rattle.audit_check.specs.private.Parts.{HasShortCounts, format_row};
ghost use Rattle.audit_check.specs.Reading.{ReadsAsAudit, whole_lines};
ghost use Rattle.audit_check.specs.Statements.{MayState, AuditStatement, most_marks, said_by, statement_of, text_of};

use crate::audit::{Audit, AuditEntry};
use crate::fault::AuditFault;
use crate::setup::read_setup;
use crate::thread_rows::{Counts, MOST_MARKS, read_counts, read_marks, read_recycled};
use handler_word::Marks;
use machine_step::Setup;
use std::alloc::Global;
use text_lines::a_written_number_is_itself;

/// The byte that ends a row.
const LINE_FEED: u8 = b'\n';

/// The first row of every audit.
const FORMAT: &[u8] = b"xray-audit 1\n";

/// Reads an audit, as `sim` and `run` write it. Whether it is true of any run isn't asked here: its
/// numbers and marks may be any, each within its range. Each thread has a row of counts and a row of
/// marks. Numbers are as they are printed, and the marks are in their longest runs.
///
/// Bytes that are no audit are refused by their first line that no audit goes on with; see
/// `AuditFault`. `NoMemory` may come in place of any answer.
pub fn read_audit(alloc: Global, bytes: &[u8]) -> Result<Audit, AuditFault>
    ensures reads { MatchResult result (λ audit. ReadsAsAudit bytes.now (Ok (statement_of audit)))
        (λ fault. (fault ≡ NoMemory) ⊎ ReadsAsAudit bytes.now (Err fault)) }
{
    let mut rows = Rows::new(bytes);
    rows.format()?;
    let setup = rows.setup()?;
    let entries = rows.entries(alloc, setup.threads)?;
    let recycled = rows.recycled()?;
    rows.end()?;
    Ok(Audit {
        setup,
        entries,
        recycled,
    })
}

/// The rows that are left of an audit.
#[derive(Drop)]
struct Rows<'a> {
    left: &'a [u8],
    /// The number of the row that was taken last, from 1.
    number: u32,
}

impl<'a> Rows<'a> {
    /// All rows.
    fn new(bytes: &'a [u8]) -> Self
        ensures rows { HasTaken bytes.now result [] }
        ensures number { result.number ≡ 0 }
    {
        Rows {
            left: bytes,
            number: 0,
        }
    }

    /// Takes the next row, with its line feed. If there is none, the audit is refused there.
    fn take(&mut self) -> Result<&'a [u8], AuditFault>
        requires { self.old.number < 1000 }
        ensures number { self.new.number ≡ self.old.number + 1 }
        ensures row { IfOk result (λ row. (bytes : List ℕ) (taken : List (List ℕ)) → HasTaken bytes self.old taken
            → HasTaken bytes self.new (taken ++ row.now ∷ [])) }
        ensures none { IfErr result (λ fault. (fault ≡ Form (self.old.number + 1)) × (self.old.left.now ≡ [])) }
    {
        self.number += 1;
        if self.left.is_empty() {
            return Err(AuditFault::Form(self.number));
        }
        let (row, left) = self.left.split_at(row_length(self.left));
        self.left = left;
        Ok(row)
    }

    /// The fault of the row that was taken last.
    fn fault(&self) -> AuditFault
        ensures { result ≡ Form self.now.number }
    {
        AuditFault::Form(self.number)
    }

    /// Takes the first row.
    fn format(&mut self) -> Result<(), AuditFault>
        requires { self.old.number ≡ 0 }
        ensures number { self.new.number ≡ 1 }
        ensures rows { (bytes : List ℕ) → HasTaken bytes self.old []
            → MatchResult result (λ _. HasTaken bytes self.new (format_row ∷ [])) (Refuses bytes) }
    {
        let row = self.take()?;
        if row == FORMAT {
            Ok(())
        } else {
            Err(self.fault())
        }
    }

    /// Takes the row of the setup.
    fn setup(&mut self) -> Result<Setup, AuditFault>
        requires { self.old.number ≡ 1 }
        ensures number { self.new.number ≡ 2 }
        ensures rows { (bytes : List ℕ) → HasTaken bytes self.old (format_row ∷ [])
            → MatchResult result (λ setup. IsSetup setup × HasTaken bytes self.new (first_rows setup []))
            (Refuses bytes) }
    {
        let row = self.take()?;
        match read_setup(row) {
            Some(setup) => Ok(setup),
            None => Err(self.fault()),
        }
    }

    /// Takes the rows of this many threads.
    fn entries(&mut self, alloc: Global, threads: u32) -> Result<Vec<AuditEntry>, AuditFault>
        requires number { self.old.number ≡ 2 }
        requires few { threads ≤ 16 }
        ensures number { self.new.number ≤ 34 }
        ensures rows { (bytes : List ℕ) (setup : Setup) → HasTaken bytes self.old (first_rows setup [])
            → IsSetup setup → setup.threads ≡ threads → MatchResult result (λ entries.
            HasTaken bytes self.new (first_rows setup (map said_by entries.items))
            × AreFirst setup (map said_by entries.items) × (length entries.items ≡ threads)) (Refuses bytes) }
    {
        let mut entries = Vec::with_capacity(alloc, threads as usize)?;
        for before in 0..threads {
            entries.push(self.entry(alloc, before + 1)?)?;
        }
        Ok(entries)
    }

    /// Takes the rows of a thread.
    fn entry(&mut self, alloc: Global, thread: u32) -> Result<AuditEntry, AuditFault>
        requires { self.old.number ≤ 32 }
        ensures number { self.new.number ≤ self.old.number + 2 }
        ensures rows { (bytes : List ℕ) (setup : Setup) (threads : List ThreadAudit)
            → HasTaken bytes self.old (first_rows setup threads) → AreFirst setup threads
            → thread ≡ length threads + 1 → thread ≤ setup.threads → MatchResult result (λ entry.
            HasTaken bytes self.new (first_rows setup (threads ++ said_by entry ∷ []))
            × AreFirst setup (threads ++ said_by entry ∷ [])) (Refuses bytes) }
    {
        let counts = self.counts(thread)?;
        let marks = self.marks(alloc)?;
        Ok(AuditEntry {
            thread,
            end: counts.end,
            passings: counts.passings,
            recorded: counts.recorded,
            segments: counts.segments,
            first: counts.first,
            marks,
        })
    }

    /// Takes the first row of a thread.
    fn counts(&mut self, thread: u32) -> Result<Counts, AuditFault>
        requires { self.old.number ≤ 32 }
        ensures number { self.new.number ≡ self.old.number + 1 }
        ensures rows { (bytes : List ℕ) (setup : Setup) (threads : List ThreadAudit)
            → HasTaken bytes self.old (first_rows setup threads) → AreFirst setup threads
            → thread ≡ length threads + 1 → thread ≤ setup.threads → MatchResult result (λ counts.
            HasShortCounts counts × HasTaken bytes self.new (first_rows setup threads ++ counts_row thread counts ∷ []))
            (Refuses bytes) }
    {
        a_written_number_is_itself();
        let row = self.take()?;
        match read_counts(row, thread) {
            Some(counts) => Ok(counts),
            None => Err(self.fault()),
        }
    }

    /// Takes the marks of a thread.
    fn marks(&mut self, alloc: Global) -> Result<Marks, AuditFault>
        requires { self.old.number ≤ 33 }
        ensures number { self.new.number ≤ self.old.number + 1 }
        ensures rows { (bytes : List ℕ) (setup : Setup) (threads : List ThreadAudit) (thread : ℕ) (counts : Said)
            → HasTaken bytes self.old (first_rows setup threads ++ counts_row thread counts ∷ [])
            → AreFirst setup threads → HasShortCounts counts → thread ≡ length threads + 1 → thread ≤ setup.threads
            → MatchResult result (λ marks. (length marks.items ≤ most_marks)
            × HasTaken bytes self.new
            (first_rows setup threads ++ counts_row thread counts ∷ marks_line marks.items ∷ []))
            (Refuses bytes) }
    {
        a_written_number_is_itself();
        let mut marks = Marks::new(alloc, MOST_MARKS)?;
        let row = self.take()?;
        match read_marks(row, &mut marks) {
            Some(()) => Ok(marks),
            None => Err(self.fault()),
        }
    }

    /// Takes the last row.
    fn recycled(&mut self) -> Result<u64, AuditFault>
        requires { self.old.number ≤ 34 }
        ensures number { self.new.number ≤ 35 }
        ensures rows { (bytes : List ℕ) (setup : Setup) (threads : List ThreadAudit)
            → HasTaken bytes self.old (first_rows setup threads) → AreFirst setup threads
            → length threads ≡ setup.threads → MatchResult result (λ recycled. (recycled < 2 ^ 64)
            × HasTaken bytes self.new (first_rows setup threads ++ recycled_line recycled ∷ [])) (Refuses bytes) }
    {
        a_written_number_is_itself();
        let row = self.take()?;
        match read_recycled(row) {
            Some(recycled) => Ok(recycled),
            None => Err(self.fault()),
        }
    }

    /// Whether no row is left. If one is, the audit is refused there.
    fn end(&self) -> Result<(), AuditFault>
        requires { self.now.number ≤ 35 }
        ensures { (bytes : List ℕ) (statement : AuditStatement) → MayState statement
            → HasTaken bytes self.now (all_rows statement)
            → MatchResult result (λ _. bytes ≡ text_of statement) (Refuses bytes) }
    {
        a_written_number_is_itself();
        if self.left.is_empty() {
            Ok(())
        } else {
            Err(AuditFault::Form(self.number + 1))
        }
    }
}

/// How many bytes the first row has, with its line feed.
fn row_length(bytes: &[u8]) -> usize
    ensures within { result ≤ length bytes.now }
    ensures row { bytes.now ≢ [] → whole_lines bytes.now
        ≡ take result bytes.now ∷ whole_lines (drop result bytes.now) }
{
    match first_feed(bytes) {
        Some(end) => end + 1,
        None => bytes.len(),
    }
}

/// The place of the first line feed.
fn first_feed(bytes: &[u8]) -> Option<usize>
    ensures { result ≡ position (λ byte. byte == 10) bytes.now }
{
    bytes.iter().position(|byte| *byte == LINE_FEED)
}
