//! The terms of declarations, in the order of their trees, and declarations with other terms.
ghost use Rattle.std.specs.Prelude.{◌≡◌, ℕ, ◌<◌, ◌≤◌, ◌++◌, ◌∷◌, length, drop, map, flat_map, option_to_list, IfOk, OnOk};
ghost use Rattle.eo_reclaim.specs.Moving.{param_id, param_ids, attribute_ids, constant_ids, macro_ids, case_ids, program_ids};
ghost use Rattle.eo_reclaim.specs.Moving.{premise_ids, pair_ids, rule_ids};
ghost use Rattle.eo_reclaim.specs.Moving.{blank_param, blank_params, blank_attribute, blank_constant, blank_macro, blank_ids, blank_case};
ghost use Rattle.eo_reclaim.specs.Moving.{blank_program, blank_premises, blank_option, blank_pair, blank_rule, IsMoved};

use eo_base::Name;
use eo_sig::{
    Attribute, Case, Cases, ConstDecl, IdPairs, MacroDecl, Param, Params, PremiseShape,
    ProgramDecl, RuleDecl,
};
use eo_term::{Id, Ids};
use std::alloc::{AllocError, Global};
use std::marker::Model;

/// Terms that are handed out in order. Its model has those that are left.
#[derive(Drop)]
pub struct IdQueue {
    ids: Vec<Id>,
    next: usize,
}

impl Model for IdQueue {
    ghost use Rattle.std.specs.Prelude.{ℕ, List, drop};

    ghost Value = { List ℕ };

    ghost view = { λ a. drop a.next a.ids.items };
}

impl IdQueue {
    /// All of these terms are left.
    pub fn new(ids: Vec<Id>) -> IdQueue
        ensures { result ≡ ids.items }
    {
        IdQueue { ids, next: 0 }
    }

    /// The next term.
    pub fn next(&mut self) -> Id
        requires { 0 < length self.old }
        ensures { self.old ≡ result ∷ self.new }
    {
        let id = self.ids[self.next];
        self.next += 1;
        id
    }

    /// Those that are left.
    pub fn rest(&self) -> &[Id]
        ensures { result.now ≡ self.now }
    {
        match self.ids.as_slice().get(self.next..) {
            Some(rest) => rest,
            None => &[],
        }
    }
}

// ---- the terms of declarations

/// Appends the terms of a constant.
pub fn push_constant(d: &ConstDecl, ids: &mut Vec<Id>) -> Result<(), AllocError>
    ensures { OnOk result (ids.new.items ≡ ids.old.items ++ constant_ids d.now) }
{
    ids.push(d.ty)?;
    push_params(&d.params, ids)?;
    push_attribute(d.attribute, ids)
}

/// Appends the terms of a macro.
pub fn push_macro(d: &MacroDecl, ids: &mut Vec<Id>) -> Result<(), AllocError>
    ensures { OnOk result (ids.new.items ≡ ids.old.items ++ macro_ids d.now) }
{
    ids.push(d.tree)?;
    push_params(&d.params, ids)
}

/// Appends the terms of a program.
pub fn push_program(d: &ProgramDecl, ids: &mut Vec<Id>) -> Result<(), AllocError>
    ensures { OnOk result (ids.new.items ≡ ids.old.items ++ program_ids d.now) }
{
    ids.push(d.output)?;
    push_ids(&d.inputs, ids)?;
    push_params(&d.params, ids)?;
    push_cases(&d.cases, ids)
}

/// Appends the terms of a rule.
pub fn push_rule(d: &RuleDecl, ids: &mut Vec<Id>) -> Result<(), AllocError>
    ensures { OnOk result (ids.new.items ≡ ids.old.items ++ rule_ids d.now) }
{
    ids.push(d.conclusion)?;
    push_params(&d.params, ids)?;
    push_option(d.assumption, ids)?;
    push_premises(&d.premises, ids)?;
    push_ids(&d.args, ids)?;
    push_pairs(&d.requirements, ids)
}

/// Appends terms.
pub fn push_ids(more: &Ids, ids: &mut Vec<Id>) -> Result<(), AllocError>
    ensures { OnOk result (ids.new.items ≡ ids.old.items ++ more.now) }
{
    ids.extend_from_slice(more.as_slice())
}

fn push_option(id: Option<Id>, ids: &mut Vec<Id>) -> Result<(), AllocError>
    ensures { OnOk result (ids.new.items ≡ ids.old.items ++ option_to_list id) }
{
    match id {
        Some(id) => {
            ids.push(id)?;
            Ok(())
        }
        None => Ok(()),
    }
}

fn push_cases(cases: &Cases, ids: &mut Vec<Id>) -> Result<(), AllocError>
    ensures { OnOk result (ids.new.items ≡ ids.old.items ++ flat_map case_ids cases.now) }
{
    for case in cases.as_slice() {
        push_case(case, ids)?;
    }
    Ok(())
}

fn push_case(case: &Case, ids: &mut Vec<Id>) -> Result<(), AllocError>
    ensures { OnOk result (ids.new.items ≡ ids.old.items ++ case_ids case.now) }
{
    ids.push(case.body)?;
    push_ids(&case.patterns, ids)
}

fn push_premises(premises: &PremiseShape, ids: &mut Vec<Id>) -> Result<(), AllocError>
    ensures { OnOk result (ids.new.items ≡ ids.old.items ++ premise_ids premises.now) }
{
    match premises {
        PremiseShape::Each(patterns) => push_ids(patterns, ids),
        PremiseShape::Joined { pattern, .. } => {
            ids.push(*pattern)?;
            Ok(())
        }
    }
}

fn push_pairs(pairs: &IdPairs, ids: &mut Vec<Id>) -> Result<(), AllocError>
    ensures { OnOk result (ids.new.items ≡ ids.old.items ++ flat_map pair_ids pairs.now) }
{
    for pair in pairs.as_slice() {
        ids.push(pair.0)?;
        ids.push(pair.1)?;
    }
    Ok(())
}

fn push_params(params: &Params, ids: &mut Vec<Id>) -> Result<(), AllocError>
    ensures { OnOk result (ids.new.items ≡ ids.old.items ++ param_ids params.now) }
{
    for p in params.as_slice() {
        ids.push(p.ty)?;
    }
    Ok(())
}

fn push_attribute(attribute: Attribute, ids: &mut Vec<Id>) -> Result<(), AllocError>
    ensures { OnOk result (ids.new.items ≡ ids.old.items ++ attribute_ids attribute) }
{
    match attribute {
        Attribute::RightNil(id) => {
            ids.push(id)?;
            Ok(())
        }
        Attribute::LeftNil(id) => {
            ids.push(id)?;
            Ok(())
        }
        _ => Ok(()),
    }
}

// ---- declarations with other terms

/// Gives a constant the next terms.
pub fn move_constant(alloc: Global, d: &mut ConstDecl, ids: &mut IdQueue) -> Result<(), AllocError>
    requires { length (constant_ids d.old) ≤ length ids.old }
    ensures { OnOk result (IsMoved constant_ids blank_constant d.old ids.old d.new ids.new) }
{
    d.ty = ids.next();
    d.params = moved_params(alloc, &d.params, ids)?;
    d.attribute = moved_attribute(d.attribute, ids);
    Ok(())
}

/// Gives a macro the next terms.
pub fn move_macro(alloc: Global, d: &mut MacroDecl, ids: &mut IdQueue) -> Result<(), AllocError>
    requires { length (macro_ids d.old) ≤ length ids.old }
    ensures { OnOk result (IsMoved macro_ids blank_macro d.old ids.old d.new ids.new) }
{
    d.tree = ids.next();
    d.params = moved_params(alloc, &d.params, ids)?;
    Ok(())
}

fn moved_params(alloc: Global, params: &Params, ids: &mut IdQueue) -> Result<Params, AllocError>
    requires { length (param_ids params.now) ≤ length ids.old }
    ensures { IfOk result (λ ps. IsMoved param_ids blank_params params.now ids.old ps ids.new) }
{
    let mut moved = Params::new(alloc);
    for p in params.as_slice() {
        let q = moved_param(alloc, p, ids)?;
        moved.push(q)?;
    }
    Ok(moved)
}

fn moved_param(alloc: Global, p: &Param, ids: &mut IdQueue) -> Result<Param, AllocError>
    requires { 0 < length ids.old }
    ensures { IfOk result (λ q. IsMoved param_id blank_param p.now ids.old q ids.new) }
{
    let name = Name::new(alloc, p.name.as_bytes())?;
    Ok(Param {
        name,
        ty: ids.next(),
        implicit: p.implicit,
        list: p.list,
    })
}

fn moved_attribute(attribute: Attribute, ids: &mut IdQueue) -> Attribute
    requires { length (attribute_ids attribute) ≤ length ids.old }
    ensures { IsMoved attribute_ids blank_attribute attribute ids.old result ids.new }
{
    match attribute {
        Attribute::RightNil(_) => Attribute::RightNil(ids.next()),
        Attribute::LeftNil(_) => Attribute::LeftNil(ids.next()),
        _ => attribute,
    }
}

/// Gives a program the next terms.
pub fn move_program(alloc: Global, d: &mut ProgramDecl, ids: &mut IdQueue) -> Result<(), AllocError>
    requires { length (program_ids d.old) ≤ length ids.old }
    ensures { OnOk result (IsMoved program_ids blank_program d.old ids.old d.new ids.new) }
{
    d.output = ids.next();
    d.inputs = moved_ids(alloc, &d.inputs, ids)?;
    d.params = moved_params(alloc, &d.params, ids)?;
    d.cases = moved_cases(alloc, &d.cases, ids)?;
    Ok(())
}

/// Gives a rule the next terms.
pub fn move_rule(alloc: Global, d: &mut RuleDecl, ids: &mut IdQueue) -> Result<(), AllocError>
    requires { length (rule_ids d.old) ≤ length ids.old }
    ensures { OnOk result (IsMoved rule_ids blank_rule d.old ids.old d.new ids.new) }
{
    d.conclusion = ids.next();
    d.params = moved_params(alloc, &d.params, ids)?;
    d.assumption = moved_option(d.assumption, ids);
    d.premises = moved_premises(alloc, &d.premises, ids)?;
    d.args = moved_ids(alloc, &d.args, ids)?;
    d.requirements = moved_pairs(alloc, &d.requirements, ids)?;
    Ok(())
}

fn moved_ids(alloc: Global, old: &Ids, ids: &mut IdQueue) -> Result<Ids, AllocError>
    requires { length old.now ≤ length ids.old }
    ensures { IfOk result (λ is. IsMoved (λ is. is) blank_ids old.now ids.old is ids.new) }
{
    let mut moved = Ids::new(alloc);
    for _ in 0..old.as_slice().len() {
        let id = ids.next();
        moved.push(id)?;
    }
    Ok(moved)
}

fn moved_option(old: Option<Id>, ids: &mut IdQueue) -> Option<Id>
    requires { length (option_to_list old) ≤ length ids.old }
    ensures { IsMoved option_to_list blank_option old ids.old result ids.new }
{
    match old {
        Some(_) => Some(ids.next()),
        None => None,
    }
}

fn moved_cases(alloc: Global, cases: &Cases, ids: &mut IdQueue) -> Result<Cases, AllocError>
    requires { length (flat_map case_ids cases.now) ≤ length ids.old }
    ensures { IfOk result (λ ks. IsMoved (flat_map case_ids) (map blank_case) cases.now ids.old ks ids.new) }
{
    let mut moved = Cases::new(alloc);
    for case in cases.as_slice() {
        let k = moved_case(alloc, case, ids)?;
        moved.push(k)?;
    }
    Ok(moved)
}

fn moved_case(alloc: Global, case: &Case, ids: &mut IdQueue) -> Result<Case, AllocError>
    requires { length (case_ids case.now) ≤ length ids.old }
    ensures { IfOk result (λ k. IsMoved case_ids blank_case case.now ids.old k ids.new) }
{
    let body = ids.next();
    let patterns = moved_ids(alloc, &case.patterns, ids)?;
    Ok(Case { patterns, body })
}

fn moved_premises(
    alloc: Global,
    premises: &PremiseShape,
    ids: &mut IdQueue,
) -> Result<PremiseShape, AllocError>
    requires { length (premise_ids premises.now) ≤ length ids.old }
    ensures { IfOk result (λ p. IsMoved premise_ids blank_premises premises.now ids.old p ids.new) }
{
    match premises {
        PremiseShape::Each(patterns) => {
            let patterns = moved_ids(alloc, patterns, ids)?;
            Ok(PremiseShape::Each(patterns))
        }
        PremiseShape::Joined { with, .. } => Ok(PremiseShape::Joined {
            pattern: ids.next(),
            with: *with,
        }),
    }
}

fn moved_pairs(alloc: Global, pairs: &IdPairs, ids: &mut IdQueue) -> Result<IdPairs, AllocError>
    requires { length (flat_map pair_ids pairs.now) ≤ length ids.old }
    ensures { IfOk result (λ qs. IsMoved (flat_map pair_ids) (map blank_pair) pairs.now ids.old qs ids.new) }
{
    let mut moved = IdPairs::new(alloc);
    for _ in 0..pairs.as_slice().len() {
        let first = ids.next();
        let second = ids.next();
        moved.push((first, second))?;
    }
    Ok(moved)
}
