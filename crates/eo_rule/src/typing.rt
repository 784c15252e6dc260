//! The types of a rule's parameters.
ghost use Rattle.std.specs.Prelude.{◌<◌, ℕ, length, map, All};
ghost use Rattle.eo_pattern.specs.Slots.{held, AreBelow};
ghost use Rattle.eo_sig.specs.Reading.{read_parameter, signature};
ghost use Rattle.eo_sig.specs.declared.records.Param.{Param};
ghost use Rattle.eo_term.specs.Growth.{tree_in};
ghost use Rattle.eo_type.specs.Known.{Fit, Extends};
ghost use Rattle.eo_rule.specs.Answers.{GivesAssignment};
ghost use Rattle.eo_rule.specs.Uses as spec;

use crate::RuleRefused;
use crate::laws::growing_law;
use crate::matching::match_list;
use crate::values::{settle_type, value_type};
use eo_base::FaultName;
use eo_pattern::Subst;
use eo_sig::{Param, Signature};
use eo_term::{Id, Table, table_law};
use eo_type::Types;
use std::alloc::Global;

/// Checks that the value of each parameter has its declared type. The parameters are taken from
/// the last to the first, and what a type gives a value to is then held.
pub(crate) fn check_types(
    alloc: Global,
    sig: &Signature,
    table: &mut Table,
    types: &mut Types,
    subst: &mut Subst,
    params: &[Param],
) -> Result<(), RuleRefused>
    requires params { All (λ (p : Param). p.ty < length table.old.trees) params.now }
    requires below { AreBelow (length table.old.trees) subst.old }
    requires fit { Fit sig.now table.old types.old }
    ensures gives { GivesAssignment table.new result subst.new (spec.check_types (signature table.old.trees sig.now)
        (held table.old.trees subst.old) 0 (map (read_parameter table.old.trees) params.now)) }
    ensures extends { Extends sig.now table.old types.old table.new types.new }
{
    table_law();
    sig.laws();
    let mut left = params.len();
    while left > 0 {
        left -= 1;
        let ty = params[left].ty;
        check_parameter(alloc, sig, table, types, subst, ty, left)?;
    }
    Ok(())
}

// The same for one parameter, whose number is `par`.
fn check_parameter(
    alloc: Global,
    sig: &Signature,
    table: &mut Table,
    types: &mut Types,
    subst: &mut Subst,
    ty: Id,
    par: usize,
) -> Result<(), RuleRefused>
    requires ty { ty < length table.old.trees }
    requires below { AreBelow (length table.old.trees) subst.old }
    requires fit { Fit sig.now table.old types.old }
    ensures gives { GivesAssignment table.new result subst.new (spec.check_type (signature table.old.trees sig.now)
        (held table.old.trees subst.old) (tree_in table.old ty) (held table.old.trees subst.old par)) }
    ensures extends { Extends sig.now table.old types.old table.new types.new }
{
    sig.laws();
    let Some(value) = subst.get(par) else {
        return Ok(());
    };
    check_value(alloc, sig, table, types, subst, ty, value)
}

// The same for the value of one parameter of this type.
fn check_value(
    alloc: Global,
    sig: &Signature,
    table: &mut Table,
    types: &mut Types,
    subst: &mut Subst,
    ty: Id,
    value: Id,
) -> Result<(), RuleRefused>
    requires ty { ty < length table.old.trees }
    requires value { value < length table.old.trees }
    requires below { AreBelow (length table.old.trees) subst.old }
    requires fit { Fit sig.now table.old types.old }
    ensures gives { GivesAssignment table.new result subst.new (spec.check_value (signature table.old.trees sig.now)
        (held table.old.trees subst.old) (tree_in table.old ty) (tree_in table.old value)) }
    ensures extends { Extends sig.now table.old types.old table.new types.new }
{
    sig.laws();
    growing_law();
    let found = value_type(sig, table, types, value)?;
    types.laws();
    let expected = settle_type(alloc, sig, table, subst, ty)?;
    match_list(table, subst, &[expected], &[found], FaultName::IllTyped)
}
