//! What patterns may hold, and whether what they match gives each parameter a value.
ghost use Rattle.std.specs.Prelude.{◌≡◌, ℕ, ◌&&◌, ◌<◌, List, length, map, option_map, option_to_list, All};
ghost use Rattle.std.specs.List.{list_all};
ghost use Rattle.eo_term.specs.Tree.{Tree, is_plain, uses_only, occurs_in};
ghost use Rattle.eo_term.specs.Terms.{tree_at};
ghost use Rattle.eo_sig.specs.Signature as sig;
ghost use Rattle.eo_sig.specs.Parts.{parameters_in, pairs_in, uses_only_both, Solves};
ghost use Rattle.eo_sig.specs.Reading.{read_case, read_rule, read_premises, CaseBelow, RuleBelow, SomeBelow, PremisesBelow};
ghost use Rattle.eo_term.specs.ParamSet.{has, AddsAll};

use crate::{Case, Param, PremiseShape, RuleDecl};
use eo_term::{Id, ParamSet, Table};

/// Whether no term holds an operator.
pub(crate) fn are_plain(table: &Table, ids: &[Id]) -> bool
    requires { All (λ i. i < length table.now.trees) ids.now }
    ensures { result ≡ list_all is_plain (map (tree_at table.now.trees) ids.now) }
{
    for id in ids {
        if !table.is_plain(*id) {
            return false;
        }
    }
    true
}

/// Adds the parameters that occur in the terms.
fn add_occurring(table: &Table, ids: &[Id], known: &mut ParamSet)
    requires { All (λ i. i < length table.now.trees) ids.now }
    ensures { AddsAll (λ i. occurs_in i (map (tree_at table.now.trees) ids.now)) known.old known.new }
{
    for id in ids {
        known.add_all(table.parameters(*id));
    }
}

/// Whether no pattern of a case holds an operator.
pub(crate) fn cases_may_hold(table: &Table, cases: &[Case]) -> bool
    requires { All (CaseBelow (length table.now.trees)) cases.now }
    ensures { result ≡ list_all sig.case_may_hold (map (read_case table.now.trees) cases.now) }
{
    for case in cases {
        if !are_plain(table, case.patterns.as_slice()) {
            return false;
        }
    }
    true
}

/// Whether the body of each case uses only parameters of the case's patterns.
pub(crate) fn cases_are_bound(table: &Table, cases: &[Case]) -> bool
    requires { All (CaseBelow (length table.now.trees)) cases.now }
    ensures { result ≡ list_all sig.case_is_bound (map (read_case table.now.trees) cases.now) }
{
    for case in cases {
        if !case_is_bound(table, case) {
            return false;
        }
    }
    true
}

// Whether the body uses only parameters of the patterns.
fn case_is_bound(table: &Table, case: &Case) -> bool
    requires { CaseBelow (length table.now.trees) case.now }
    ensures { result ≡ sig.case_is_bound (read_case table.now.trees case.now) }
{
    let mut bound = ParamSet::new();
    add_occurring(table, case.patterns.as_slice(), &mut bound);
    table.uses_only(&bound, case.body)
}

/// Whether no pattern of the rule holds an operator.
pub(crate) fn rule_is_plain(table: &Table, d: &RuleDecl) -> bool
    requires { RuleBelow (length table.now.trees) d.now }
    ensures { result ≡ list_all is_plain (sig.rule_patterns (read_rule table.now.trees d.now)) }
{
    assumption_is_plain(table, d.assumption)
        && premises_are_plain(table, &d.premises)
        && are_plain(table, d.args.as_slice())
}

// Whether the pattern of an assumption, if there is one, holds no operator.
fn assumption_is_plain(table: &Table, pattern: Option<Id>) -> bool
    requires { SomeBelow (length table.now.trees) pattern }
    ensures { result ≡ list_all is_plain (option_to_list (option_map (tree_at table.now.trees) pattern)) }
{
    match pattern {
        Some(id) => table.is_plain(id),
        None => true,
    }
}

// Whether no pattern of premises holds an operator.
fn premises_are_plain(table: &Table, premises: &PremiseShape) -> bool
    requires { PremisesBelow (length table.now.trees) premises.now }
    ensures { result ≡ list_all is_plain (sig.premise_patterns (read_premises table.now.trees premises.now)) }
{
    match premises {
        PremiseShape::Each(ids) => are_plain(table, ids.as_slice()),
        PremiseShape::Joined { pattern, .. } => table.is_plain(*pattern),
    }
}

/// Whether the requirements and the conclusion use only parameters that get a value.
pub(crate) fn rule_is_bound(table: &Table, d: &RuleDecl) -> bool
    requires { RuleBelow (length table.now.trees) d.now }
    ensures { result ≡ sig.rule_is_bound (read_rule table.now.trees d.now) }
{
    let solved = solved_params(table, d);
    pairs_use_only(table, &solved, d.requirements.as_slice())
        && table.uses_only(&solved, d.conclusion)
}

// The parameters of the rule that get a value.
fn solved_params(table: &Table, d: &RuleDecl) -> ParamSet
    requires { RuleBelow (length table.now.trees) d.now }
    ensures { (j : ℕ) → has result j ≡ sig.is_solved (read_rule table.now.trees d.now) j }
{
    let mut known = in_patterns(table, d);
    solve(table, d.params.as_slice(), &mut known);
    known
}

// The parameters that occur in a pattern of the rule.
fn in_patterns(table: &Table, d: &RuleDecl) -> ParamSet
    requires { RuleBelow (length table.now.trees) d.now }
    ensures { (j : ℕ) → has result j ≡ occurs_in j (sig.rule_patterns (read_rule table.now.trees d.now)) }
{
    let mut known = ParamSet::new();
    add_assumption(table, d.assumption, &mut known);
    add_premises(table, &d.premises, &mut known);
    add_occurring(table, d.args.as_slice(), &mut known);
    known
}

// Adds the parameters that occur in the pattern of an assumption, if there is one.
fn add_assumption(table: &Table, pattern: Option<Id>, known: &mut ParamSet)
    requires { SomeBelow (length table.now.trees) pattern }
    ensures { AddsAll (λ j. occurs_in j (option_to_list (option_map (tree_at table.now.trees) pattern))) known.old known.new }
{
    match pattern {
        Some(id) => known.add_all(table.parameters(id)),
        None => {}
    }
}

// Adds the parameters that occur in a pattern of premises.
fn add_premises(table: &Table, premises: &PremiseShape, known: &mut ParamSet)
    requires { PremisesBelow (length table.now.trees) premises.now }
    ensures { AddsAll (λ j. occurs_in j (sig.premise_patterns (read_premises table.now.trees premises.now))) known.old known.new }
{
    match premises {
        PremiseShape::Each(ids) => add_occurring(table, ids.as_slice(), known),
        PremiseShape::Joined { pattern, .. } => known.add_all(table.parameters(*pattern)),
    }
}

// Adds the parameters that get a value by the types of those that have one, from the last to the
// first.
fn solve(table: &Table, params: &[Param], known: &mut ParamSet)
    requires { All (λ p. p.ty < length table.now.trees) params.now }
    ensures { Solves table.now params.now known.old known.new }
{
    let mut i = params.len();
    while i > 0 {
        i -= 1;
        let ty = params[i].ty;
        if known.has(i) {
            known.add_all(table.open_parameters(ty));
        }
    }
}

// Whether both sides of each pair use only parameters of the set.
fn pairs_use_only(table: &Table, known: &ParamSet, pairs: &[(Id, Id)]) -> bool
    requires { All (λ (q : ℕ × ℕ). (q.0 < length table.now.trees) × (q.1 < length table.now.trees)) pairs.now }
    ensures { result ≡ list_all (uses_only_both (has known.now)) (pairs_in table.now pairs.now) }
{
    for (a, b) in pairs {
        if !(table.uses_only(known, *a) && table.uses_only(known, *b)) {
            return false;
        }
    }
    true
}
