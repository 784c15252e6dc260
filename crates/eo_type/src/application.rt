//! Types of applications: an argument's type is matched, and what is found is substituted.
ghost use Rattle.std.specs.Prelude.{◌≡◌, ◌<◌, length, None, Some, IsTrue, IsFalse, IfOk, IfSome, OnOk};
ghost use Rattle.eo_term.specs.Growth.{tree_in};
ghost use Rattle.eo_term.specs.Tree.{Tree};
ghost use Rattle.eo_pattern.specs.Matching.{assign, put};
ghost use Rattle.eo_pattern.specs.Slots.{held, AreBelow, AreEmpty};
ghost use Rattle.eo_type.specs.Types.{settled, application_type};
ghost use Rattle.eo_type.specs.Outcomes.{Yields, Gives};
ghost use Rattle.eo_type.specs.Parts.{matched_in};

use crate::refused::Stop;
use crate::settling::settle_term;
use eo_pattern::{Subst, match_terms, matching_law, substitute};
use eo_term::{Id, Node, Table};
use std::alloc::{AllocError, Global};

/// The type of a function of the type `fun` applied to `arg`, whose type is `ty`. The assignment gives
/// room alone.
pub(crate) fn application_type(
    alloc: Global,
    table: &mut Table,
    subst: &mut Subst,
    fun: Id,
    ty: Id,
    arg: Id,
) -> Result<Id, Stop>
    requires fun { fun < length table.old.trees }
    requires ty { ty < length table.old.trees }
    requires arg { arg < length table.old.trees }
    ensures { Yields table.old table.new result
        (application_type (tree_in table.old fun) (tree_in table.old ty) (tree_in table.old arg)) }
{
    if let Some(answer) = plain_application(table, fun, ty) {
        return answer;
    }
    subst.clear();
    application_with(alloc, table, subst, fun, ty, arg)
}

/// The same for a function type without parameters and operators, which is taken as it is; `None`
/// for any other.
pub(crate) fn plain_application(table: &Table, fun: Id, ty: Id) -> Option<Result<Id, Stop>>
    requires fun { fun < length table.now.trees }
    requires ty { ty < length table.now.trees }
    ensures { IfSome result (λ r. (x : Tree) → Gives table.now r (application_type (tree_in table.now fun) (tree_in table.now ty) x)) }
{
    if !table.is_closed(fun) || !table.is_plain(fun) {
        return None;
    }
    let Node::Arr { from, to } = table.node(fun) else {
        return None;
    };
    if !table.is_same(from, ty) {
        return Some(Err(Stop::Untyped));
    }
    Some(Ok(to))
}

// The same, with an assignment that holds nothing.
fn application_with(
    alloc: Global,
    table: &mut Table,
    subst: &mut Subst,
    fun: Id,
    ty: Id,
    arg: Id,
) -> Result<Id, Stop>
    requires empty { AreEmpty subst.old }
    requires fun { fun < length table.old.trees }
    requires ty { ty < length table.old.trees }
    requires arg { arg < length table.old.trees }
    ensures { Yields table.old table.new result
        (application_type (tree_in table.old fun) (tree_in table.old ty) (tree_in table.old arg)) }
{
    match table.node(fun) {
        Node::Arr { from, to } => {
            if !meets(table, subst, from, ty)? {
                return Err(Stop::Untyped);
            }
            settle_under(alloc, table, subst, to)
        }
        Node::Qar { par, ty: from, to } => {
            if !meets(table, subst, from, ty)? {
                return Err(Stop::Untyped);
            }
            assign(table, subst, par, arg)?;
            settle_under(alloc, table, subst, to)
        }
        Node::Con(_) => Err(Stop::Untyped),
        Node::Num(_) => Err(Stop::Untyped),
        Node::Bits { .. } => Err(Stop::Untyped),
        Node::Str(_) => Err(Stop::Untyped),
        Node::Par(_) => Err(Stop::Untyped),
        Node::Var { .. } => Err(Stop::Untyped),
        Node::App { .. } => Err(Stop::Untyped),
        Node::Op { .. } => Err(Stop::Untyped),
    }
}

/// A type with what is held substituted, settled.
pub(crate) fn settle_under(
    alloc: Global,
    table: &mut Table,
    subst: &Subst,
    ty: Id,
) -> Result<Id, Stop>
    requires live { ty < length table.old.trees }
    requires below { AreBelow (length table.old.trees) subst.now }
    ensures { Yields table.old table.new result (settled (put (held table.old.trees subst.now) (tree_in table.old ty))) }
{
    let made = substitute(table, subst, ty)?;
    settle_term(alloc, table, made)
}

/// Gives the parameter a term as its value.
pub(crate) fn assign(table: &Table, subst: &mut Subst, par: u8, id: Id) -> Result<(), AllocError>
    requires live { id < length table.now.trees }
    requires below { AreBelow (length table.now.trees) subst.old }
    ensures held { OnOk result (held table.now.trees subst.new ≡ assign (held table.now.trees subst.old) par (tree_in table.now id)) }
    ensures below { OnOk result (AreBelow (length table.now.trees) subst.new) }
{
    table.laws();
    subst.reserve(usize::from(par) + 1, 0)?;
    subst.put(par, id);
    Ok(())
}

// Whether a type matches the pattern. The values of the pattern's parameters are then held.
fn meets(table: &Table, subst: &mut Subst, pattern: Id, ty: Id) -> Result<bool, AllocError>
    requires empty { AreEmpty subst.old }
    requires pattern { pattern < length table.now.trees }
    requires ty { ty < length table.now.trees }
    ensures yes { IfOk result (λ b. IsTrue b → matched_in table.now pattern ty ≡ Some (held table.now.trees subst.new)) }
    ensures no { IfOk result (λ b. IsFalse b → matched_in table.now pattern ty ≡ None) }
    ensures below { OnOk result (AreBelow (length table.now.trees) subst.new) }
{
    matching_law();
    subst.reserve_for(table, pattern)?;
    Ok(match_terms(table, &[pattern], &[ty], subst))
}
