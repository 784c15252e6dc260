//! Uses of rules.
ghost use Rattle.std.specs.Prelude.{◌≡◌, ◌<◌, length, IfOk, OnErr};
ghost use Rattle.eo_eval.specs.Outcomes.{IsValueOf};
ghost use Rattle.eo_sig.specs.Reading.{RuleBelow, read_rule, rules_of, signature};
ghost use Rattle.eo_type.specs.Known.{Extends};
ghost use Rattle.eo_rule.specs.Answers.{AnswersOnly, GivesTerm};
ghost use Rattle.eo_rule.specs.Reading.{AreValuesIn, ConcludesIn, IsUseOf, Serves, UseBelow, conclusion_in, read_use};
ghost use Rattle.eo_rule.specs.Uses.{kind_conclusion, rule_conclusion};

use crate::checks::{check_formula, check_kind, check_stated};
use crate::concluding::conclude_value;
use crate::laws::{conclusion_law, growing_law};
use crate::matching::match_given;
use crate::typing::check_types;
use crate::{RuleRefused, RuleUse};
use eo_eval::Evaluator;
use eo_pattern::Subst;
use eo_sig::{RuleDecl, Signature};
use eo_term::{Id, Table};
use eo_type::Types;
use std::alloc::Global;

/// What the rule of this number concludes from premises and arguments, and from the assumption that
/// it discharges, as the Ethos manual has rules. The checks are made in this order, and the first
/// that fails is the fault:
///
/// - `WrongKind`: an assumption is given and the rule has none, or the other way round.
/// - `TermHeight`: the list of the premises, where the rule joins them, would be too tall.
/// - `PremiseMismatch`: there are more or fewer premises or arguments than patterns, or no values
///   of the parameters make the patterns equal to them.
/// - `IllTyped`, `NumberRange`, `TermHeight`: the value of a parameter has no type that is a value,
///   or not the declared one. The parameters are taken from the last to the first, and a type may
///   give a value to earlier parameters.
/// - `Stuck`, `NumberRange`, `TermHeight`, `EvalDepth`, `EvalCalls`: the conclusion under the
///   requirements has no value.
/// - `IllTyped`, `NumberRange`, `TermHeight`, `NotBool`: the value is no formula.
/// - `ConclusionDiffers`: it is not the formula that is stated.
///
/// `Memory`: out of memory. What is given are values, but that the stated formula may be any term.
/// The formula that is returned is the only instance of the rule, and a value; after a fault there is
/// no instance. A refused call leaves the table as it was, and of the types those of terms that are
/// there. The types that were kept stay in either case. What `subst` holds is dropped first: it is lent
/// so that its room serves many uses.
pub fn conclude(
    alloc: Global,
    sig: &Signature,
    table: &mut Table,
    types: &mut Types,
    eval: &mut Evaluator,
    subst: &mut Subst,
    rule: usize,
    given: &RuleUse,
) -> Result<Id, RuleRefused>
    requires rule { rule < length (rules_of sig.now) }
    requires given { IsUseOf table.old given.now }
    requires serves { Serves sig.now table.old types.old }
    ensures gives { GivesTerm table.new result (conclusion_in sig.now table.old rule given.now) }
    ensures instance { AnswersOnly table.new result (ConcludesIn sig.now table.old rule given.now) }
    ensures refused { OnErr result (table.new ≡ table.old) }
    ensures extends { Extends sig.now table.old types.old table.new types.new }
{
    let mark = table.mark();
    match conclude_or_leave(alloc, sig, table, types, eval, subst, rule, given) {
        Ok(formula) => Ok(formula),
        Err(e) => {
            types.undo(table, mark);
            Err(e)
        }
    }
}

// The same, but that a refused call leaves the terms that it made.
fn conclude_or_leave(
    alloc: Global,
    sig: &Signature,
    table: &mut Table,
    types: &mut Types,
    eval: &mut Evaluator,
    subst: &mut Subst,
    rule: usize,
    given: &RuleUse,
) -> Result<Id, RuleRefused>
    requires rule { rule < length (rules_of sig.now) }
    requires live { UseBelow (length table.old.trees) given.now }
    requires values { AreValuesIn table.old given.now }
    requires serves { Serves sig.now table.old types.old }
    ensures gives { GivesTerm table.new result (conclusion_in sig.now table.old rule given.now) }
    ensures instance { AnswersOnly table.new result (ConcludesIn sig.now table.old rule given.now) }
    ensures extends { Extends sig.now table.old types.old table.new types.new }
{
    conclusion_law();
    let rule = sig.rule_of(rule);
    conclude_by(alloc, sig, table, types, eval, subst, rule, given)
}

// What a rule concludes.
fn conclude_by(
    alloc: Global,
    sig: &Signature,
    table: &mut Table,
    types: &mut Types,
    eval: &mut Evaluator,
    subst: &mut Subst,
    rule: &RuleDecl,
    given: &RuleUse,
) -> Result<Id, RuleRefused>
    requires rule { RuleBelow (length table.old.trees) rule.now }
    requires live { UseBelow (length table.old.trees) given.now }
    requires serves { Serves sig.now table.old types.old }
    ensures gives { GivesTerm table.new result (rule_conclusion (signature table.old.trees sig.now)
        (read_rule table.old.trees rule.now) (read_use table.old.trees given.now)) }
    ensures value { IfOk result (IsValueOf table.new) }
    ensures extends { Extends sig.now table.old types.old table.new types.new }
{
    check_kind(rule.assumption, given.assumption)?;
    conclude_checked(alloc, sig, table, types, eval, subst, rule, given)
}

// The same, where an assumption is given just if the rule has one.
fn conclude_checked(
    alloc: Global,
    sig: &Signature,
    table: &mut Table,
    types: &mut Types,
    eval: &mut Evaluator,
    subst: &mut Subst,
    rule: &RuleDecl,
    given: &RuleUse,
) -> Result<Id, RuleRefused>
    requires rule { RuleBelow (length table.old.trees) rule.now }
    requires live { UseBelow (length table.old.trees) given.now }
    requires serves { Serves sig.now table.old types.old }
    ensures gives { GivesTerm table.new result (kind_conclusion (signature table.old.trees sig.now)
        (read_rule table.old.trees rule.now) (read_use table.old.trees given.now)) }
    ensures value { IfOk result (IsValueOf table.new) }
    ensures extends { Extends sig.now table.old types.old table.new types.new }
{
    sig.laws();
    types.laws();
    growing_law();
    match_given(sig, table, subst, rule, given)?;
    check_types(alloc, sig, table, types, subst, rule.params.as_slice())?;
    let formula = conclude_value(sig, table, types, eval, subst, rule)?;
    check_formula(sig, table, types, formula)?;
    check_stated(table, given.stated, formula)
}
