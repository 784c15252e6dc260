//! A constant folded over its arguments.
ghost use Rattle.std.specs.Prelude.{◌≡◌, ℕ, suc, ◌<◌, ◌≤◌, length, All, IfOk};
ghost use Rattle.eo_sig.specs.Reading.{AttributeBelow};
ghost use Rattle.eo_names.specs.Names.{AreBelow};
ghost use Rattle.eo_names.specs.Scopes.{bound_in};
ghost use Rattle.eo_names.specs.Ready.{IsReady};
ghost use Rattle.eo_term.specs.Growth.{trees_in, Grows};
ghost use Rattle.eo_names.specs.Gives.{GivesTree, GivesTurn, TakesTurn, BuildsTurn};
ghost use Rattle.eo_names.specs.Worlds.{world, folded_in, turns_in, turned_in};
ghost use Rattle.eo_names.specs.Grouped.{if_low};
ghost use Rattle.eo_names.specs.Turns.{after, TurnBelow, joins};

use crate::ElabRefused;
use crate::attributes::{attribute_of, group, least_count};
use crate::fold::apply_constant;
use crate::joins::{neighbours, pairs};
use crate::laws::names_law;
use crate::scope::Scope;
use eo_sig::{Attribute, SignatureView};
use eo_term::{HEIGHT_LIMIT, Id, Ids, Table, TermRefused};
use std::alloc::Global;

/// What a constant makes of its arguments.
#[derive(Drop)]
pub(crate) enum Turn {
    /// The term itself.
    Made(Id),
    /// Terms that the constant `by` joins.
    Joined { by: usize, items: Ids },
}

/// A constant on its arguments, as its attribute says.
///
/// `BadArity`: there are fewer than the attribute asks for. `Tall`: the term is too tall.
#[tactic(auto, unfolding(crate::specs::Folding::folded))]
pub(crate) fn fold_constant(
    alloc: Global,
    k: usize,
    args: &[Id],
    scope: &Scope<'_>,
    sig: &SignatureView<'_>,
    table: &mut Table,
) -> Result<Id, ElabRefused>
    requires ready { IsReady (length table.old.trees) sig.now (bound_in scope.now) }
    requires args { All (λ a. a < length table.old.trees) args.now }
    ensures gives { GivesTree table.new result (folded_in (world table.old sig.now scope.now) k (trees_in table.old args.now)) }
    ensures grows { Grows table.old table.new }
{
    if args.len() == 2 {
        return fold_two(k, args, scope, sig, table);
    }
    fold_within(alloc, k, k, args, scope, sig, table)
}

// The same on two arguments. Each attribute takes so many, and no other constant joins what it
// makes of them, however many turns there are.
fn fold_two(
    k: usize,
    args: &[Id],
    scope: &Scope<'_>,
    sig: &SignatureView<'_>,
    table: &mut Table,
) -> Result<Id, ElabRefused>
    requires ready { IsReady (length table.old.trees) sig.now (bound_in scope.now) }
    requires args { All (λ a. a < length table.old.trees) args.now }
    requires two { length args.now ≡ 2 }
    ensures gives { (turns : ℕ) → GivesTree table.new result
        (turned_in (world table.old sig.now scope.now) (suc turns) k (trees_in table.old args.now)) }
    ensures grows { Grows table.old table.new }
{
    names_law();
    let f = table.constant(k)?;
    let made = group(table, scope, f, attribute_of(sig, k), args)?;
    prove!(table.height(made) <= HEIGHT_LIMIT);
    Ok(made)
}

// The same, where the constants that join what it is applied to follow one another at most so
// often.
fn fold_within(
    alloc: Global,
    turns: usize,
    k: usize,
    args: &[Id],
    scope: &Scope<'_>,
    sig: &SignatureView<'_>,
    table: &mut Table,
) -> Result<Id, ElabRefused>
    requires ready { IsReady (length table.old.trees) sig.now (bound_in scope.now) }
    requires args { All (λ a. a < length table.old.trees) args.now }
    ensures gives { GivesTree table.new result (turned_in (world table.old sig.now scope.now) (suc turns) k (trees_in table.old args.now)) }
    ensures grows { Grows table.old table.new }
{
    names_law();
    let first = turn_of(alloc, k, args, scope, sig, table)?;
    take_turns(alloc, turns, first, scope, sig, table)
}

// What becomes of it in so many more turns.
fn take_turns(
    alloc: Global,
    turns: usize,
    first: Turn,
    scope: &Scope<'_>,
    sig: &SignatureView<'_>,
    table: &mut Table,
) -> Result<Id, ElabRefused>
    requires ready { IsReady (length table.old.trees) sig.now (bound_in scope.now) }
    requires first { TurnBelow (length table.old.trees) first }
    ensures gives { GivesTree table.new result (if_low (after (turns_in (world table.old sig.now scope.now) turns) table.old.trees first)) }
    ensures grows { Grows table.old table.new }
{
    names_law();
    let mut turn = first;
    let mut left = turns;
    loop {
        match turn {
            Turn::Made(made) => {
                prove!(table.height(made) <= HEIGHT_LIMIT);
                return Ok(made);
            }
            Turn::Joined { by, items } => {
                turn = next_turn(alloc, left, by, items.as_slice(), scope, sig, table)?;
                left = left.saturating_sub(1);
            }
        }
    }
}

// What the constant makes of its arguments, where so many turns are left.
fn next_turn(
    alloc: Global,
    left: usize,
    k: usize,
    items: &[Id],
    scope: &Scope<'_>,
    sig: &SignatureView<'_>,
    table: &mut Table,
) -> Result<Turn, ElabRefused>
    requires ready { IsReady (length table.old.trees) sig.now (bound_in scope.now) }
    requires items { All (λ a. a < length table.old.trees) items.now }
    ensures gives { TakesTurn (world table.old sig.now scope.now) table.new left result k (trees_in table.old items.now) }
    ensures less { IfOk result (λ t. joins t ≤ left) }
    ensures grows { Grows table.old table.new }
{
    if left == 0 {
        let made = apply_constant(table, k, items)?;
        return Ok(Turn::Made(made));
    }
    turn_of(alloc, k, items, scope, sig, table)
}

// What the constant makes of its arguments.
fn turn_of(
    alloc: Global,
    k: usize,
    args: &[Id],
    scope: &Scope<'_>,
    sig: &SignatureView<'_>,
    table: &mut Table,
) -> Result<Turn, ElabRefused>
    requires ready { IsReady (length table.old.trees) sig.now (bound_in scope.now) }
    requires args { All (λ a. a < length table.old.trees) args.now }
    ensures gives { GivesTurn (world table.old sig.now scope.now) table.new result k (trees_in table.old args.now) }
    ensures grows { Grows table.old table.new }
{
    names_law();
    let attribute = attribute_of(sig, k);
    if args.len() < least_count(attribute) {
        return Err(ElabRefused::BadArity);
    }
    let f = table.constant(k)?;
    Ok(turn_by(alloc, f, attribute, args, scope, table)?)
}

// What a term makes of its arguments by its attribute.
fn turn_by(
    alloc: Global,
    f: Id,
    attribute: Attribute,
    args: &[Id],
    scope: &Scope<'_>,
    table: &mut Table,
) -> Result<Turn, TermRefused>
    requires f { f < length table.old.trees }
    requires args { All (λ a. a < length table.old.trees) args.now }
    requires some { 1 ≤ length args.now }
    requires below { AttributeBelow (length table.old.trees) attribute }
    requires names { AreBelow (length table.old.trees) (bound_in scope.now) }
    ensures gives { BuildsTurn table.old table.new scope.now f attribute args.now result }
    ensures grows { Grows table.old table.new }
{
    if args.len() == 2 {
        let made = group(table, scope, f, attribute, args)?;
        return Ok(Turn::Made(made));
    }
    match attribute {
        Attribute::Chain(by) => {
            let items = neighbours(alloc, table, f, args)?;
            Ok(Turn::Joined { by, items })
        }
        Attribute::Pairs(by) => {
            let items = pairs(alloc, table, f, args)?;
            Ok(Turn::Joined { by, items })
        }
        other => {
            let made = group(table, scope, f, other, args)?;
            Ok(Turn::Made(made))
        }
    }
}
