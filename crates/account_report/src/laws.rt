//! Laws of the rows of an account. Each law is the contract of a function that does nothing.

ghost use Rattle.std.specs.Prelude.{List, All};
ghost use Rattle.fdr_file.specs.declared.trace.Block.{Block};
ghost use Rattle.account_report.specs.{Account.{account_of}, AccountLaws.{CountsEach, SumsStacks}};

/// In each row, the pairs and the entries in no pair are together as many as the entries into the
/// function. The pairs and the exits in no pair are as many as its exits and tail exits.
pub fn each_entry_and_exit_is_counted()
    ensures { (blocks : List Block) → All (CountsEach blocks) (account_of blocks) }
{}

/// The number of a function's pairs and the sum of their durations are those of the stacks whose
/// paths end in the function, added up.
pub fn a_row_sums_the_stacks_of_its_function()
    ensures { (blocks : List Block) → All (SumsStacks blocks) (account_of blocks) }
{}
