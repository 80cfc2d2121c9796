//! The totals of the lines so far.

ghost use Rattle.std.specs.Prelude.{◌≡◌, ◌||◌, true, false, if◌then◌else◌};
ghost use Rattle.asm_text.specs.Layout.{is_function, is_instruction};
ghost use Rattle.asm_text.specs.private.Views.{statement_said};

use crate::statement::{Choice, RawStatement, Statement};
use crate::width::{line_sleds, line_width};
use xray_image::format::{CODE_LIMIT, FUNCTION_LIMIT, SLED_LIMIT};

/// Which functions have begun.
#[derive(Clone, Copy)]
enum Standing {
    /// No function has begun.
    Outside,
    /// The last function has no instruction line yet.
    Bare,
    /// The last function has instruction lines.
    Filled,
}

impl Standing {
    ghost use Rattle.asm_text.specs.private.FirstPass.{has_begun, lacks_lines};

    /// Whether a function has begun.
    fn has_begun(self) -> bool
        ensures { result ≡ has_begun self }
    {
        match self {
            Standing::Outside => false,
            Standing::Bare | Standing::Filled => true,
        }
    }

    /// Whether the last function has no instruction line yet.
    fn lacks_lines(self) -> bool
        ensures { result ≡ lacks_lines self }
    {
        match self {
            Standing::Bare => true,
            Standing::Outside | Standing::Filled => false,
        }
    }

    /// The same after one more line.
    fn with(self, statement: &Statement) -> Standing
        ensures begun { has_begun result
            ≡ (has_begun self || is_function (statement_said statement.now)) }
        ensures bare { lacks_lines result ≡ (if is_function (statement_said statement.now) then true
            else if is_instruction (statement_said statement.now) then false
            else lacks_lines self) }
    {
        match statement {
            Statement::Function { .. } => Standing::Bare,
            Statement::Does(_) => match self {
                Standing::Outside => Standing::Outside,
                Standing::Bare | Standing::Filled => Standing::Filled,
            },
            Statement::Base(_) | Statement::Entry(_) | Statement::Label(_) => self,
        }
    }
}

/// Totals of the lines so far. Each function that doesn't say `never` counts as instrumented.
#[derive(Clone, Copy)]
pub(crate) struct Totals {
    /// Whether a line gives the base.
    has_base: bool,
    /// Whether a line gives the entry function.
    has_entry: bool,
    standing: Standing,
    /// Whether the last function counts as instrumented.
    pub(crate) traced: bool,
    /// How many functions have begun.
    pub(crate) functions: u32,
    /// How many bytes of code there are.
    pub(crate) code: u32,
    /// How many sleds there are.
    pub(crate) sleds: u32,
}

impl Totals {
    ghost use Rattle.std.specs.Prelude.{[]};
    ghost use Rattle.asm_text.specs.{Refusals.{is_statement_misplaced, ends_early}, Layout.{StatementLines}};
    ghost use Rattle.asm_text.specs.private.FirstPass.{traced_after, Follows, IsTotals, IsWithin, totals_exceed};
    ghost use Rattle.asm_text.specs.private.Views.{statement_spoken};

    /// The totals of no lines.
    pub(crate) fn new() -> Totals
        ensures totals { IsTotals [] result }
        ensures within { IsWithin result }
    {
        Totals {
            has_base: false,
            has_entry: false,
            standing: Standing::Outside,
            traced: false,
            functions: 0,
            code: 0,
            sleds: 0,
        }
    }

    /// Whether a line may not come after those so far.
    pub(crate) fn misplaces(&self, spoken: &RawStatement) -> bool
        ensures { (lines : StatementLines) → IsTotals lines self.now
            → result ≡ is_statement_misplaced lines (statement_spoken spoken.now) }
    {
        match spoken {
            RawStatement::Base(_) => self.has_base || self.standing.has_begun(),
            RawStatement::Entry(_) => self.has_entry || self.standing.has_begun(),
            RawStatement::Function { .. } => self.standing.lacks_lines(),
            RawStatement::Label(_) | RawStatement::Does(_) => !self.standing.has_begun(),
        }
    }

    /// Whether the function of one more line counts as instrumented.
    fn traced_with(&self, statement: &Statement) -> bool
        ensures { result ≡ traced_after self.now.traced (statement_said statement.now) }
    {
        match statement {
            Statement::Function { choice, .. } => *choice != Choice::Never,
            Statement::Base(_) | Statement::Entry(_) | Statement::Label(_) | Statement::Does(_) =>
                self.traced,
        }
    }

    /// The totals with one more line.
    pub(crate) fn with(&self, statement: &Statement) -> Totals
        requires { IsWithin self.now }
        ensures { Follows self.now (statement_said statement.now) result }
    {
        let traced = self.traced_with(statement);
        Totals {
            has_base: self.has_base || matches!(statement, Statement::Base(_)),
            has_entry: self.has_entry || matches!(statement, Statement::Entry(_)),
            standing: self.standing.with(statement),
            traced,
            functions: self.functions + u32::from(matches!(statement, Statement::Function { .. })),
            code: self.code + line_width(traced, self.code, statement),
            sleds: self.sleds + line_sleds(traced, statement),
        }
    }

    /// Whether the text may not end here: no function has begun, or the last one has no instruction
    /// line.
    pub(crate) fn end_early(&self) -> bool
        ensures { (lines : StatementLines) → IsTotals lines self.now → result ≡ ends_early lines }
    {
        !self.standing.has_begun() || self.standing.lacks_lines()
    }

    /// Whether a limit is exceeded.
    pub(crate) fn exceed_limits(&self) -> bool
        ensures { result ≡ totals_exceed self.now }
    {
        self.functions > FUNCTION_LIMIT || self.code > CODE_LIMIT || self.sleds > SLED_LIMIT
    }
}
