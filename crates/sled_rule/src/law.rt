//! The rule that the words and the seats' views keep.

use crate::views::View;
use atomic_table::TableRule;
use patch_script::Script;

/// The rule of the code table. Between any two steps the words are the code at the patcher's place,
/// and no seat knows anything that isn't so. The table's key is its script.
pub struct CodeRule;

impl TableRule<(), View, Script> for CodeRule {
    ghost use Rattle.sled_rule.specs.Rule.{KeepsCode, first_view};

    ghost holds = { KeepsCode };

    ghost first = { first_view };
}
