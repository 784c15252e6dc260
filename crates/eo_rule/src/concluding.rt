//! The value of a rule's conclusion.
ghost use Rattle.std.specs.Prelude.{◌<◌, length, IfOk};
ghost use Rattle.eo_eval.specs.Outcomes.{IsValueOf};
ghost use Rattle.eo_pattern.specs.Matching.{put};
ghost use Rattle.eo_pattern.specs.Slots.{held, AreBelow};
ghost use Rattle.eo_sig.specs.Reading.{RuleBelow, read_rule, signature};
ghost use Rattle.eo_term.specs.Builds.{Builds};
ghost use Rattle.eo_term.specs.Growth.{Grows};
ghost use Rattle.eo_type.specs.Known.{Extends};
ghost use Rattle.eo_rule.specs.Answers.{GivesTerm};
ghost use Rattle.eo_rule.specs.Instance.{guarded_conclusion};
ghost use Rattle.eo_rule.specs.Reading.{Serves};
ghost use Rattle.eo_rule.specs.Uses as spec;

use crate::RuleRefused;
use crate::laws::growing_law;
use crate::requirements::guarded_conclusion;
use crate::values::value_of;
use eo_eval::Evaluator;
use eo_pattern::{Subst, substitute};
use eo_sig::{RuleDecl, Signature};
use eo_term::{Id, Table, TermRefused, builds_law};
use eo_type::Types;

/// The value of a rule's conclusion under its requirements, with what is held substituted. Its
/// parameters are substituted before it is evaluated, and it is evaluated once.
pub(crate) fn conclude_value(
    sig: &Signature,
    table: &mut Table,
    types: &mut Types,
    eval: &mut Evaluator,
    subst: &Subst,
    rule: &RuleDecl,
) -> Result<Id, RuleRefused>
    requires rule { RuleBelow (length table.old.trees) rule.now }
    requires below { AreBelow (length table.old.trees) subst.now }
    requires serves { Serves sig.now table.old types.old }
    ensures gives { GivesTerm table.new result (spec.conclude_value (signature table.old.trees sig.now)
        (put (held table.old.trees subst.now) (guarded_conclusion (read_rule table.old.trees rule.now)))) }
    ensures value { IfOk result (IsValueOf table.new) }
    ensures extends { Extends sig.now table.old types.old table.new types.new }
{
    sig.laws();
    types.laws();
    let id = put_conclusion(table, subst, rule)?;
    table.laws();
    value_of(sig, table, types, eval, id)
}

// The conclusion under the requirements with what is held substituted.
fn put_conclusion(table: &mut Table, subst: &Subst, rule: &RuleDecl) -> Result<Id, TermRefused>
    requires rule { RuleBelow (length table.old.trees) rule.now }
    requires below { AreBelow (length table.old.trees) subst.now }
    ensures gives { Builds table.new result (put (held table.old.trees subst.now)
        (guarded_conclusion (read_rule table.old.trees rule.now))) }
    ensures grows { Grows table.old table.new }
{
    builds_law();
    growing_law();
    let guarded = guarded_conclusion(table, rule)?;
    substitute(table, subst, guarded)
}
