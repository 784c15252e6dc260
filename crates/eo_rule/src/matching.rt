//! The values of a rule's parameters: its patterns matched with what is given.
ghost use Rattle.std.specs.Prelude.{◌≡◌, ◌<◌, length, option_map, option_to_list, All};
ghost use Rattle.eo_base.specs.Checks.{value_or};
ghost use Rattle.eo_pattern.specs.Matching.{matching};
ghost use Rattle.eo_pattern.specs.Slots.{held, AreBelow};
ghost use Rattle.eo_sig.specs.Growth.{GrowsUnder};
ghost use Rattle.eo_sig.specs.Reading.{IsBelow, RuleBelow, SomeBelow, read_premises, read_rule, signature};
ghost use Rattle.eo_sig.specs.Signature.{premise_patterns};
ghost use Rattle.eo_term.specs.Growth.{tree_in, trees_in};
ghost use Rattle.eo_rule.specs.Answers.{GivesAssignment, GivesTerm};
ghost use Rattle.eo_rule.specs.Reading.{UseBelow, read_use};
ghost use Rattle.eo_rule.specs.Uses as spec;

use crate::laws::growing_law;
use crate::{RuleRefused, RuleUse};
use eo_base::FaultName;
use eo_lists::spell_list;
use eo_pattern::{Subst, match_with_room};
use eo_sig::{PremiseShape, RuleDecl, Signature};
use eo_term::{Id, Table};

/// Matches the patterns of a rule with what is given. The premises are joined before where the rule
/// joins them. The values of the parameters are then held, and nothing else.
pub(crate) fn match_given(
    sig: &Signature,
    table: &mut Table,
    subst: &mut Subst,
    rule: &RuleDecl,
    given: &RuleUse,
) -> Result<(), RuleRefused>
    requires rule { RuleBelow (length table.old.trees) rule.now }
    requires live { UseBelow (length table.old.trees) given.now }
    requires below { IsBelow (length table.old.trees) sig.now }
    ensures gives { GivesAssignment table.new result subst.new (spec.matched (signature table.old.trees sig.now)
        (read_rule table.old.trees rule.now) (read_use table.old.trees given.now)) }
    ensures grows { GrowsUnder sig.now table.old table.new }
{
    sig.laws();
    growing_law();
    let premises = given.premises.as_slice();
    match &rule.premises {
        PremiseShape::Each(patterns) => {
            match_use(table, subst, rule, given, patterns.as_slice(), premises)
        }
        PremiseShape::Joined { pattern, with } => {
            let list = join(sig, table, *with, premises)?;
            match_use(table, subst, rule, given, &[*pattern], &[list])
        }
    }
}

// The list of the premises, joined by the constant of this number.
fn join(sig: &Signature, table: &mut Table, with: usize, premises: &[Id]) -> Result<Id, RuleRefused>
    requires premises { All (λ i. i < length table.old.trees) premises.now }
    requires below { IsBelow (length table.old.trees) sig.now }
    ensures gives { GivesTerm table.new result (spec.joined (signature table.old.trees sig.now) with (trees_in table.old premises.now)) }
    ensures grows { GrowsUnder sig.now table.old table.new }
{
    let made = spell_list(sig, table, with, premises)?;
    table.laws();
    match made {
        Some(list) => Ok(list),
        None => Err(RuleRefused::Fault(FaultName::PremiseMismatch)),
    }
}

// Matches the patterns of a rule, of which those of the premises are these, with what is given and
// with these premises.
fn match_use(
    table: &Table,
    subst: &mut Subst,
    rule: &RuleDecl,
    given: &RuleUse,
    patterns: &[Id],
    premises: &[Id],
) -> Result<(), RuleRefused>
    requires rule { RuleBelow (length table.now.trees) rule.now }
    requires live { UseBelow (length table.now.trees) given.now }
    requires patterns { premise_patterns (read_premises table.now.trees rule.now.premises) ≡ trees_in table.now patterns.now }
    requires below { All (λ i. i < length table.now.trees) patterns.now }
    requires premises { All (λ i. i < length table.now.trees) premises.now }
    ensures { GivesAssignment table.now result subst.new (spec.match_use (read_rule table.now.trees rule.now)
        (option_map (tree_in table.now) given.now.«assumption») (trees_in table.now premises.now) (trees_in table.now given.now.args)) }
{
    let fault = FaultName::PremiseMismatch;
    subst.clear();
    match_assumption(table, subst, rule.assumption, given.assumption)?;
    match_list(table, subst, patterns, premises, fault)?;
    match_list(
        table,
        subst,
        rule.args.as_slice(),
        given.args.as_slice(),
        fault,
    )
}

// Matches the pattern of the assumption with the one that is given.
fn match_assumption(
    table: &Table,
    subst: &mut Subst,
    pattern: Option<Id>,
    given: Option<Id>,
) -> Result<(), RuleRefused>
    requires pattern { SomeBelow (length table.now.trees) pattern }
    requires given { SomeBelow (length table.now.trees) given }
    requires below { AreBelow (length table.now.trees) subst.old }
    ensures { GivesAssignment table.now result subst.new (spec.match_trees (held table.now.trees subst.old)
        (option_to_list (option_map (tree_in table.now) pattern)) (option_to_list (option_map (tree_in table.now) given))) }
{
    let fault = FaultName::PremiseMismatch;
    match pattern {
        Some(pattern) => match given {
            Some(given) => match_list(table, subst, &[pattern], &[given], fault),
            None => match_list(table, subst, &[pattern], &[], fault),
        },
        None => match given {
            Some(given) => match_list(table, subst, &[], &[given], fault),
            None => match_list(table, subst, &[], &[], fault),
        },
    }
}

/// Matches patterns with terms, in addition to what is held, which stays. The values of the
/// parameters of the patterns are then held too. `fault` is the refusal where they do not match.
pub(crate) fn match_list(
    table: &Table,
    subst: &mut Subst,
    patterns: &[Id],
    terms: &[Id],
    fault: FaultName,
) -> Result<(), RuleRefused>
    requires patterns { All (λ i. i < length table.now.trees) patterns.now }
    requires terms { All (λ i. i < length table.now.trees) terms.now }
    requires below { AreBelow (length table.now.trees) subst.old }
    ensures { GivesAssignment table.now result subst.new (value_or fault (matching (held table.now.trees subst.old)
        (trees_in table.now patterns.now) (trees_in table.now terms.now))) }
{
    if !match_with_room(table, subst, patterns, terms)? {
        return Err(RuleRefused::Fault(fault));
    }
    Ok(())
}
