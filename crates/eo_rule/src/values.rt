//! Types and values of terms, with their faults.
ghost use Rattle.std.specs.Prelude.{◌≡◌, ◌<◌, length, IfOk, OnErr};
ghost use Rattle.eo_eval.specs.Faults.{value_or_fault};
ghost use Rattle.eo_eval.specs.Outcomes.{outcome_of, IsValueOf, MayBeValue};
ghost use Rattle.eo_pattern.specs.Matching.{put};
ghost use Rattle.eo_pattern.specs.Slots.{held, AreBelow};
ghost use Rattle.eo_sig.specs.Reading.{signature};
ghost use Rattle.eo_term.specs.Growth.{Grows, tree_in};
ghost use Rattle.eo_term.specs.Terms.{Terms};
ghost use Rattle.eo_type.specs.Known.{FitWith, Extends};
ghost use Rattle.eo_type.specs.Types.{settled};
ghost use Rattle.eo_rule.specs.Answers.{GivesTerm, GivesValue};
ghost use Rattle.eo_rule.specs.Reading.{Serves};
ghost use Rattle.eo_rule.specs.Uses.{typed, typed_or};

use crate::RuleRefused;
use eo_base::FaultName;
use eo_eval::{Evaluator, Outcome};
use eo_pattern::{Subst, substitute};
use eo_sig::Signature;
use eo_term::{Id, Table};
use eo_type::{Types, settle, settled_law};
use std::alloc::Global;

/// The type of a value, as the checks of rules and commands ask for it.
///
/// `IllTyped`: it has none, or none that is a value. `NumberRange`, `TermHeight`: a number in it is
/// out of range, or it is too tall. `Memory`: out of memory. A refused call leaves the table as it
/// was, and of the types those of terms that are there. The types that were kept stay in either case.
pub fn value_type(
    sig: &Signature,
    table: &mut Table,
    types: &mut Types,
    id: Id,
) -> Result<Id, RuleRefused>
    requires { FitWith sig.now table.old types.old id }
    ensures gives { GivesTerm table.new result (typed (signature table.old.trees sig.now) (tree_in table.old id)) }
    ensures refused { OnErr result (table.new ≡ table.old) }
    ensures extends { Extends sig.now table.old types.old table.new types.new }
{
    let mark = table.mark();
    match type_found(sig, table, types, id) {
        Ok(ty) => Ok(ty),
        Err(e) => {
            types.undo(table, mark);
            Err(e)
        }
    }
}

// The same, but that a refused call leaves the terms that it made.
fn type_found(
    sig: &Signature,
    table: &mut Table,
    types: &mut Types,
    id: Id,
) -> Result<Id, RuleRefused>
    requires { FitWith sig.now table.old types.old id }
    ensures gives { GivesTerm table.new result (typed (signature table.old.trees sig.now) (tree_in table.old id)) }
    ensures extends { Extends sig.now table.old types.old table.new types.new }
{
    let Some(ty) = types.type_of(sig, table, id)? else {
        return Err(RuleRefused::Fault(FaultName::IllTyped));
    };
    if !table.is_value(ty) {
        return Err(RuleRefused::Fault(FaultName::IllTyped));
    }
    Ok(ty)
}

/// A declared type with what is held substituted, settled. It is `IllTyped` where an operator in it has
/// no value.
pub(crate) fn settle_type(
    alloc: Global,
    sig: &Signature,
    table: &mut Table,
    subst: &Subst,
    ty: Id,
) -> Result<Id, RuleRefused>
    requires live { ty < length table.old.trees }
    requires below { AreBelow (length table.old.trees) subst.now }
    ensures gives { GivesTerm table.new result (typed_or (settled (put (held table.old.trees subst.now) (tree_in table.old ty)))) }
    ensures grows { Grows table.old table.new }
{
    let made = substitute(table, subst, ty)?;
    settled_type(alloc, sig, table, made)
}

// The same for a type in which all is substituted.
fn settled_type(
    alloc: Global,
    sig: &Signature,
    table: &mut Table,
    ty: Id,
) -> Result<Id, RuleRefused>
    requires live { ty < length table.old.trees }
    ensures gives { GivesTerm table.new result (typed_or (settled (tree_in table.old ty))) }
    ensures grows { Grows table.old table.new }
{
    settled_law();
    table.laws();
    let Some(found) = settle(alloc, sig, table, ty)? else {
        return Err(RuleRefused::Fault(FaultName::IllTyped));
    };
    Ok(found)
}

/// The value of a term, as the checks of rules and commands ask for it.
///
/// `Stuck`, `NumberRange`, `TermHeight`, `EvalDepth`, `EvalCalls`: it has none, and its evaluation
/// ends so. `Memory`: out of memory. A refused call leaves the table as it was, and of the types
/// those of terms that are there. The types that were kept stay in either case.
pub fn value_of(
    sig: &Signature,
    table: &mut Table,
    types: &mut Types,
    eval: &mut Evaluator,
    id: Id,
) -> Result<Id, RuleRefused>
    requires live { id < length table.old.trees }
    requires serves { Serves sig.now table.old types.old }
    ensures gives { GivesTerm table.new result (value_or_fault (outcome_of sig.now table.old id)) }
    ensures value { IfOk result (IsValueOf table.new) }
    ensures refused { OnErr result (table.new ≡ table.old) }
    ensures extends { Extends sig.now table.old types.old table.new types.new }
{
    let mark = table.mark();
    match value_found(sig, table, types, eval, id) {
        Ok(value) => Ok(value),
        Err(e) => {
            types.undo(table, mark);
            Err(e)
        }
    }
}

// The same, but that a refused call leaves the terms that it made.
fn value_found(
    sig: &Signature,
    table: &mut Table,
    types: &mut Types,
    eval: &mut Evaluator,
    id: Id,
) -> Result<Id, RuleRefused>
    requires live { id < length table.old.trees }
    requires serves { Serves sig.now table.old types.old }
    ensures gives { GivesTerm table.new result (value_or_fault (outcome_of sig.now table.old id)) }
    ensures value { IfOk result (IsValueOf table.new) }
    ensures extends { Extends sig.now table.old types.old table.new types.new }
{
    let outcome = eval.evaluate(sig, table, types, id)?;
    value_or_fault(outcome)
}

// The value with which an evaluation ended, or the fault that says how it ended with none.
fn value_or_fault(outcome: Outcome) -> Result<Id, RuleRefused>
    ensures gives { GivesValue outcome result }
    ensures value { (t : Terms) → MayBeValue t outcome → IfOk result (IsValueOf t) }
{
    match outcome {
        Outcome::Value(value) => Ok(value),
        Outcome::Stuck => Err(RuleRefused::Fault(FaultName::Stuck)),
        Outcome::Deep => Err(RuleRefused::Fault(FaultName::EvalDepth)),
        Outcome::Calls => Err(RuleRefused::Fault(FaultName::EvalCalls)),
        Outcome::Range => Err(RuleRefused::Fault(FaultName::NumberRange)),
        Outcome::Tall => Err(RuleRefused::Fault(FaultName::TermHeight)),
    }
}
