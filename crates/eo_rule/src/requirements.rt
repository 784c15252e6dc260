//! The conclusion of a rule under its requirements.
ghost use Rattle.std.specs.Prelude.{◌<◌, length};
ghost use Rattle.eo_sig.specs.Reading.{RuleBelow, read_pair, read_rule};
ghost use Rattle.eo_term.specs.Builds.{Builds};
ghost use Rattle.eo_term.specs.Growth.{Grows, tree_in};
ghost use Rattle.eo_rule.specs.Instance.{guarded_conclusion, under};

use eo_sig::RuleDecl;
use eo_term::{Id, OpCode, OpName, Table, TermRefused, builds_law, table_law};

/// The conclusion of a rule under its requirements, the first outermost.
pub(crate) fn guarded_conclusion(table: &mut Table, rule: &RuleDecl) -> Result<Id, TermRefused>
    requires { RuleBelow (length table.old.trees) rule.now }
    ensures gives { Builds table.new result (guarded_conclusion (read_rule table.old.trees rule.now)) }
    ensures grows { Grows table.old table.new }
{
    builds_law();
    table_law();
    let requirements = rule.requirements.as_slice();
    let mut left = requirements.len();
    let mut made = rule.conclusion;
    while left > 0 {
        left -= 1;
        let pair = requirements[left];
        made = under(table, pair, made)?;
    }
    Ok(made)
}

// A term under the requirement that the two of a pair have the same value.
fn under(table: &mut Table, pair: (Id, Id), id: Id) -> Result<Id, TermRefused>
    requires first { pair.0 < length table.old.trees }
    requires second { pair.1 < length table.old.trees }
    requires live { id < length table.old.trees }
    ensures gives { Builds table.new result (under (read_pair table.old.trees pair) (tree_in table.old id)) }
    ensures grows { Grows table.old table.new }
{
    table.intern_op(OpCode::Builtin(OpName::Requires), &[pair.0, pair.1, id])
}
