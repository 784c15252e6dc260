//! What a command that declares a rule declares.
ghost use Rattle.std.specs.Prelude.{◌≡◌, ◌<◌, List, length, All, IfOk, OnErr};
ghost use Rattle.eo_term.specs.Growth.{tree_in, Grows};
ghost use Rattle.eo_term.specs.Tree.{Tree, Con};
ghost use Rattle.eo_shape.specs.Reading.{read_pair, read_premises, read_rule as read_shape};
ghost use Rattle.eo_sig.specs.Growth.{GrowsUnder};
ghost use Rattle.eo_sig.specs.Reading.{signature, IsBelow, IsFreeRule};
ghost use Rattle.eo_declare.specs.Declarations.{joiner};
ghost use Rattle.eo_declare.specs.Declaring.{BoundBelow, rule_in, rule_over_in};
ghost use Rattle.eo_declare.specs.Gives.{GivesNumber, GivesRule};
ghost use Rattle.eo_declare.specs.RuleParts.{GivesSome, GivesMeant, GivesPair, GivesPairs, GivesParts, GivesPremises};
ghost use Rattle.eo_declare.specs.RuleParts.{optional_in, premises_in, requirement_in, requirements_in, rule_parts_in};
ghost use Rattle.eo_declare.specs.RuleParts.{premise_shape_in, rule_of_parts_in, MeantBelow, PartsBelow};
ghost use Rattle.eo_names.specs.Ready.{IsReady};
ghost use Rattle.eo_names.specs.Worlds.{world_of};

use crate::constants::meanings;
use crate::parameters::{Bound, bind};
use eo_base::Name;
use eo_base::limits::PARAMETERS;
use eo_elab::{ElabRefused, FileKind, Locals, term};
use eo_names::names_law;
use eo_sexp::Sexp;
use eo_shape::{PairShape, PairShapes, PremisesShape, RuleShape};
use eo_sig::{IdPairs, Params, PremiseShape, RuleDecl, Signature};
use eo_term::{Id, Ids, Node, Table};
use std::alloc::Global;

// What premises are matched with, before it is known whether the second term can join them.
#[derive(Drop)]
pub(crate) enum PremisesMeant {
    // A pattern for each.
    Each(Ids),
    // One pattern for all, and what joins them.
    Joined { pattern: Id, joiner: Id },
}

// The terms of a rule.
#[derive(Drop)]
pub(crate) struct RuleParts {
    assumption: Option<Id>,
    premises: PremisesMeant,
    args: Ids,
    requirements: IdPairs,
    conclusion: Id,
}

/// `(declare-rule NAME (PARAMETER ..) [:assumption PATTERN]
/// [:premises (PATTERN ..) | :premise-list PATTERN JOINER] [:args (PATTERN ..)]
/// [:requires ((TERM TERM) ..)] :conclusion TERM [:sorry])`: a rule.
///
/// A refusal is the first fault, in this order:
///
/// - `Redeclared`: the name may not be declared as a rule's.
/// - `Parameters`: there are more than 64.
/// - a fault of a term: of the parameters' types in order, where a name that an earlier parameter
///   has is `Redeclared`, of the assumption, of the premises in order and then of what joins them,
///   of the arguments, of the requirements, each from left to right, and of the conclusion.
/// - `BadPattern`: the premises are joined by what is no constant with a terminator at the right.
/// - `Memory`: out of memory.
pub fn declared_rule(
    alloc: Global,
    shape: &RuleShape<'_>,
    sig: &Signature,
    table: &mut Table,
) -> Result<RuleDecl, ElabRefused>
    requires { IsBelow (length table.old.trees) sig.now }
    ensures gives { GivesRule table.new result (rule_in table.old sig.now (read_shape shape.now)) }
    ensures free { IfOk result (λ d. IsFreeRule sig.now d.name) }
    ensures refused { OnErr result (table.new ≡ table.old) }
    ensures grows { GrowsUnder sig.now table.old table.new }
{
    sig.laws();
    let mark = table.mark();
    match rule(alloc, shape, sig, table) {
        Ok(d) => Ok(d),
        Err(e) => {
            table.release(mark);
            Err(e)
        }
    }
}

// The same, but that a refused call leaves the terms that it made.
fn rule(
    alloc: Global,
    shape: &RuleShape<'_>,
    sig: &Signature,
    table: &mut Table,
) -> Result<RuleDecl, ElabRefused>
    requires { IsBelow (length table.old.trees) sig.now }
    ensures gives { GivesRule table.new result (rule_in table.old sig.now (read_shape shape.now)) }
    ensures free { IfOk result (λ d. IsFreeRule sig.now d.name) }
    ensures grows { GrowsUnder sig.now table.old table.new }
{
    sig.laws();
    if !sig.is_free_rule(shape.name) {
        return Err(ElabRefused::Redeclared);
    }
    if shape.params.len() > PARAMETERS {
        return Err(ElabRefused::Parameters);
    }
    let bound = bind(alloc, &shape.params, FileKind::Proof, sig, table)?;
    rule_over(alloc, shape, bound, sig, table)
}

// A rule over parameters.
fn rule_over(
    alloc: Global,
    shape: &RuleShape<'_>,
    bound: Bound,
    sig: &Signature,
    table: &mut Table,
) -> Result<RuleDecl, ElabRefused>
    requires bound { BoundBelow (length table.old.trees) sig.now bound }
    ensures gives { GivesRule table.new result (rule_over_in table.old sig.now bound (read_shape shape.now)) }
    ensures name { IfOk result (λ d. d.name ≡ shape.now.name.now) }
    ensures grows { Grows table.old table.new }
{
    names_law();
    let Bound { params, locals } = bound;
    let parts = rule_parts(alloc, shape, &locals, sig, table)?;
    rule_of_parts(alloc, shape, params, parts, sig, table)
}

// The terms of a rule, in order.
fn rule_parts(
    alloc: Global,
    shape: &RuleShape<'_>,
    locals: &Locals,
    sig: &Signature,
    table: &mut Table,
) -> Result<RuleParts, ElabRefused>
    requires ready { IsReady (length table.old.trees) sig.now locals.now }
    ensures gives { GivesParts table.new result (rule_parts_in (world_of table.old sig.now locals.now) (read_shape shape.now)) }
    ensures grows { Grows table.old table.new }
{
    names_law();
    let assumption = optional(alloc, &shape.assumption, locals, sig, table)?;
    let premises = premises(alloc, &shape.premises, locals, sig, table)?;
    let args = meanings(alloc, &shape.args, locals, sig, table)?;
    let requirements = requirements(alloc, &shape.requirements, locals, sig, table)?;
    let conclusion = term(alloc, &shape.conclusion, locals, sig, table)?;
    Ok(RuleParts {
        assumption,
        premises,
        args,
        requirements,
        conclusion,
    })
}

// The meaning of a term, where there is one.
fn optional(
    alloc: Global,
    s: &Option<Sexp<'_>>,
    locals: &Locals,
    sig: &Signature,
    table: &mut Table,
) -> Result<Option<Id>, ElabRefused>
    requires ready { IsReady (length table.old.trees) sig.now locals.now }
    ensures gives { GivesSome table.new result (optional_in (world_of table.old sig.now locals.now) s.now) }
    ensures grows { Grows table.old table.new }
{
    match s {
        None => Ok(None),
        Some(s) => {
            let id = term(alloc, s, locals, sig, table)?;
            Ok(Some(id))
        }
    }
}

// What the premises are matched with.
fn premises(
    alloc: Global,
    shape: &PremisesShape<'_>,
    locals: &Locals,
    sig: &Signature,
    table: &mut Table,
) -> Result<PremisesMeant, ElabRefused>
    requires ready { IsReady (length table.old.trees) sig.now locals.now }
    ensures gives { GivesMeant table.new result (premises_in (world_of table.old sig.now locals.now) (read_premises shape.now)) }
    ensures grows { Grows table.old table.new }
{
    match shape {
        PremisesShape::Each(patterns) => {
            let ids = meanings(alloc, patterns, locals, sig, table)?;
            Ok(PremisesMeant::Each(ids))
        }
        PremisesShape::Joined { pattern, joiner } => {
            let (pattern, joiner) = two_terms(alloc, pattern, joiner, locals, sig, table)?;
            Ok(PremisesMeant::Joined { pattern, joiner })
        }
    }
}

// The meanings of two terms.
fn two_terms(
    alloc: Global,
    left: &Sexp<'_>,
    right: &Sexp<'_>,
    locals: &Locals,
    sig: &Signature,
    table: &mut Table,
) -> Result<(Id, Id), ElabRefused>
    requires ready { IsReady (length table.old.trees) sig.now locals.now }
    ensures gives { GivesPair table.new result (requirement_in (world_of table.old sig.now locals.now) (left.now, right.now)) }
    ensures grows { Grows table.old table.new }
{
    names_law();
    let left = term(alloc, left, locals, sig, table)?;
    let right = term(alloc, right, locals, sig, table)?;
    Ok((left, right))
}

// The meanings of pairs, in order.
fn requirements(
    alloc: Global,
    shapes: &PairShapes<'_>,
    locals: &Locals,
    sig: &Signature,
    table: &mut Table,
) -> Result<IdPairs, ElabRefused>
    requires ready { IsReady (length table.old.trees) sig.now locals.now }
    ensures gives { GivesPairs table.new result (requirements_in (world_of table.old sig.now locals.now) shapes.now) }
    ensures grows { Grows table.old table.new }
{
    names_law();
    let mut pairs = IdPairs::new(alloc);
    for shape in shapes.again() {
        let pair = requirement(alloc, &shape, locals, sig, table)?;
        pairs.push(pair)?;
    }
    Ok(pairs)
}

// The meanings of a pair.
fn requirement(
    alloc: Global,
    shape: &PairShape<'_>,
    locals: &Locals,
    sig: &Signature,
    table: &mut Table,
) -> Result<(Id, Id), ElabRefused>
    requires ready { IsReady (length table.old.trees) sig.now locals.now }
    ensures gives { GivesPair table.new result (requirement_in (world_of table.old sig.now locals.now) (read_pair shape.now)) }
    ensures grows { Grows table.old table.new }
{
    two_terms(alloc, &shape.left, &shape.right, locals, sig, table)
}

// The rule of these parameters and terms, where its premises can be joined.
fn rule_of_parts(
    alloc: Global,
    shape: &RuleShape<'_>,
    params: Params,
    parts: RuleParts,
    sig: &Signature,
    table: &Table,
) -> Result<RuleDecl, ElabRefused>
    requires params { All (λ p. p.ty < length table.now.trees) params }
    requires parts { PartsBelow (length table.now.trees) parts }
    ensures gives { GivesRule table.now result (rule_of_parts_in table.now sig.now params (read_shape shape.now) parts) }
    ensures name { IfOk result (λ d. d.name ≡ shape.now.name.now) }
{
    let RuleParts {
        assumption,
        premises,
        args,
        requirements,
        conclusion,
    } = parts;
    let premises = premise_shape(premises, sig, table)?;
    Ok(RuleDecl {
        name: Name::new(alloc, shape.name)?,
        params,
        assumption,
        premises,
        args,
        requirements,
        conclusion,
        sorry: shape.sorry,
    })
}

// What the premises are matched with, where they can be joined.
fn premise_shape(
    premises: PremisesMeant,
    sig: &Signature,
    table: &Table,
) -> Result<PremiseShape, ElabRefused>
    requires { MeantBelow (length table.now.trees) premises }
    ensures { GivesPremises table.now result (premise_shape_in table.now sig.now premises) }
{
    match premises {
        PremisesMeant::Each(patterns) => Ok(PremiseShape::Each(patterns)),
        PremisesMeant::Joined { pattern, joiner } => {
            let with = joining(joiner, sig, table)?;
            Ok(PremiseShape::Joined { pattern, with })
        }
    }
}

// The number of the constant that a term is, where it has a terminator at the right.
fn joining(id: Id, sig: &Signature, table: &Table) -> Result<usize, ElabRefused>
    requires { id < length table.now.trees }
    ensures { GivesNumber result (joiner (signature table.now.trees sig.now) (tree_in table.now id)) }
{
    match table.node(id) {
        Node::Con(k) => with_terminator(k, sig),
        _ => Err(ElabRefused::BadPattern),
    }
}

// The number of a constant that has a terminator at the right.
fn with_terminator(k: usize, sig: &Signature) -> Result<usize, ElabRefused>
    ensures { (ts : List Tree) → GivesNumber result (joiner (signature ts sig.now) (Con k)) }
{
    if !sig.has_terminator(k) {
        return Err(ElabRefused::BadPattern);
    }
    Ok(k)
}
