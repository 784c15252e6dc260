//! Single checks of a use of a rule.
ghost use Rattle.std.specs.Prelude.{◌≡◌, ◌<◌, List, length, option_map};
ghost use Rattle.eo_sig.specs.Reading.{SomeBelow, signature};
ghost use Rattle.eo_term.specs.Growth.{tree_in};
ghost use Rattle.eo_term.specs.Terms.{tree_at};
ghost use Rattle.eo_term.specs.Tree.{Tree};
ghost use Rattle.eo_type.specs.Known.{FitWith, Extends};
ghost use Rattle.eo_rule.specs.Answers.{GivesTerm, Passes};
ghost use Rattle.eo_rule.specs.Uses as spec;

use crate::RuleRefused;
use crate::values::value_type;
use eo_base::FaultName;
use eo_sig::Signature;
use eo_term::{Id, Table};
use eo_type::{Types, is_constant};

/// The number of the constant `Bool`.
const BOOL_CONSTANT: usize = 1;

/// An assumption is given just where the rule has one.
#[tactic(auto, unfolding(eo_base::specs::Checks::require))]
pub(crate) fn check_kind(wanted: Option<Id>, given: Option<Id>) -> Result<(), RuleRefused>
    ensures { (ts : List Tree) → Passes result (spec.check_kind (option_map (tree_at ts) wanted) (option_map (tree_at ts) given)) }
{
    match wanted {
        Some(_) => match given {
            Some(_) => Ok(()),
            None => Err(RuleRefused::Fault(FaultName::WrongKind)),
        },
        None => match given {
            Some(_) => Err(RuleRefused::Fault(FaultName::WrongKind)),
            None => Ok(()),
        },
    }
}

/// The term is a formula: its type is `Bool`.
pub(crate) fn check_formula(
    sig: &Signature,
    table: &mut Table,
    types: &mut Types,
    id: Id,
) -> Result<(), RuleRefused>
    requires { FitWith sig.now table.old types.old id }
    ensures passes { Passes result (spec.check_formula (signature table.old.trees sig.now) (tree_in table.old id)) }
    ensures extends { Extends sig.now table.old types.old table.new types.new }
{
    let ty = value_type(sig, table, types, id)?;
    if !is_constant(table, ty, BOOL_CONSTANT) {
        return Err(RuleRefused::Fault(FaultName::NotBool));
    }
    Ok(())
}

/// The term, if it is the one that is stated, or none is.
pub(crate) fn check_stated(table: &Table, stated: Option<Id>, id: Id) -> Result<Id, RuleRefused>
    requires stated { SomeBelow (length table.now.trees) stated }
    requires live { id < length table.now.trees }
    ensures { GivesTerm table.now result (spec.check_stated (option_map (tree_in table.now) stated) (tree_in table.now id)) }
{
    if !is_stated(table, stated, id) {
        return Err(RuleRefused::Fault(FaultName::ConclusionDiffers));
    }
    Ok(id)
}

// Whether the term is the one that is stated, or none is.
fn is_stated(table: &Table, stated: Option<Id>, id: Id) -> bool
    requires stated { SomeBelow (length table.now.trees) stated }
    requires live { id < length table.now.trees }
    ensures { result ≡ spec.is_stated (option_map (tree_in table.now) stated) (tree_in table.now id) }
{
    match stated {
        Some(formula) => table.is_same(formula, id),
        None => true,
    }
}
