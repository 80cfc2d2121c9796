//! The first pass over the lines. It makes all refusals except those at the text's end.

ghost use Rattle.std.specs.Prelude.{◌≡◌, ◌<◌, ℕ, List, [], ◌∷◌, ◌++◌, Some, option_copied, OnOk, IfOk, length, if◌then◌else◌};
ghost use Rattle.std.specs.Str.Lines.{lines};
ghost use Rattle.text_lines.specs.Lines.{numbered_lines};
ghost use Rattle.asm_text.specs.{Refusals.{repeats, statement_with_line, read_statements}, Layout.{StatementLines as Said}};
ghost use Rattle.asm_text.specs.private.{NameTables.{line_named}, Views.{statement_said}};
ghost use Rattle.asm_text.specs.private.Fits.{AllFit};
ghost use Rattle.asm_text.specs.private.FirstPass.{lines_in, IsFirstPass, IsNames, Takes, Admits, Reads, is_named};

use crate::fault::AsmFault;
use crate::line::read_line;
use crate::name_table::NameTable;
use crate::operands::checked;
use crate::statement::Statement;
use crate::totals::Totals;
use std::alloc::{AllocError, Global};
use text_lines::{Line, Lines};

/// What a line says, with the line's number.
#[derive(Clone, Copy)]
pub(crate) struct NumberedStatement<'a> {
    /// Its number, from 1.
    pub(crate) line: u32,
    pub(crate) statement: Statement<'a>,
}

/// What was read of the lines so far.
#[derive(Drop)]
pub(crate) struct FirstPass<'a> {
    pub(crate) entries: Vec<NumberedStatement<'a>>,
    pub(crate) names: NameTable<'a>,
    pub(crate) totals: Totals,
}

/// Whether an earlier line defines the name that the statement defines.
fn repeats(names: &NameTable, statement: &Statement) -> bool
    ensures { (before : Said) → IsNames before names.now
        → result ≡ repeats before (statement_said statement.now) }
{
    match statement.defined_name() {
        Some(name) => names.line_of(name).is_some(),
        None => false,
    }
}

/// Takes the name that a line defines, if it defines one.
fn define_name<'a>(
    names: &mut NameTable<'a>,
    name: Option<&'a [u8]>,
    line: usize,
) -> Result<(), AllocError>
    ensures { OnOk result ((q : List ℕ) → line_named names.new q
        ≡ (if is_named (option_copied name.entry) q then Some line else line_named names.old q)) }
{
    match name {
        Some(name) => names.define(name, line),
        None => Ok(()),
    }
}

impl<'a> FirstPass<'a> {
    /// No lines yet.
    pub(crate) fn new(alloc: Global) -> Self
        ensures lines { lines_in result.entries.items ≡ [] }
        ensures sound { IsFirstPass result }
    {
        FirstPass {
            entries: Vec::new(alloc),
            names: NameTable::new(alloc),
            totals: Totals::new(),
        }
    }

    /// The totals with one more statement, which is in its place and has good operands. `Repeat` or
    /// `Limit` if it may not follow.
    fn totals_with(&self, line: u32, statement: &Statement<'a>) -> Result<Totals, AsmFault>
        requires { IsFirstPass self.now }
        ensures { Admits self.now line (statement_said statement.now) result }
    {
        if repeats(&self.names, statement) {
            return Err(AsmFault::Repeat(line));
        }
        let totals = self.totals.with(statement);
        if totals.exceed_limits() {
            return Err(AsmFault::Limit(line));
        }
        Ok(totals)
    }

    /// Adds a statement that may follow.
    fn push(
        &mut self,
        line: u32,
        statement: Statement<'a>,
        totals: Totals,
    ) -> Result<(), AllocError>
        requires pass { IsFirstPass self.old }
        requires admitted { Admits self.old line (statement_said statement) (Ok totals) }
        ensures lines { OnOk result (lines_in self.new.entries.items
            ≡ lines_in self.old.entries.items ++ (line, statement_said statement.entry) ∷ []) }
        ensures sound { OnOk result (IsFirstPass self.new) }
    {
        let name = statement.defined_name();
        let place = self.entries.len();
        self.entries.push(NumberedStatement { line, statement })?;
        define_name(&mut self.names, name, place)?;
        self.totals = totals;
        Ok(())
    }

    /// Takes a line of the text, or refuses it.
    fn take_line(&mut self, line: &Line<'a>) -> Result<(), AsmFault>
        requires { IsFirstPass self.old }
        ensures { Takes result (statement_with_line (lines_in self.old.entries.items)
            (line.now.number, line.now.bytes.now)) self.new }
    {
        let spoken = match read_line(line) {
            Ok(Some(spoken)) => spoken,
            Ok(None) => return Ok(()),
            Err(fault) => return Err(fault),
        };
        if self.totals.misplaces(&spoken) {
            return Err(AsmFault::Syntax(line.number));
        }
        let statement = checked(line.number, &spoken)?;
        let totals = self.totals_with(line.number, &statement)?;
        self.push(line.number, statement, totals)?;
        Ok(())
    }
}

/// Reads all lines. The answer is the first refusal, if there is one.
pub(crate) fn read_text<'a>(alloc: Global, text: &'a [u8]) -> Result<FirstPass<'a>, AsmFault>
    requires { length (lines text.now) < u32.MAX }
    ensures reads { Reads result (read_statements [] (numbered_lines text.now)) }
    ensures fit { IfOk result (λ pass. AllFit (lines_in pass.entries.items)) }
{
    let mut pass = FirstPass::new(alloc);
    for line in Lines::with_few_lines(text) {
        pass.take_line(&line)?;
    }
    Ok(pass)
}
