//! What is made of arguments that were read.
ghost use Rattle.std.specs.Prelude.{◌≡◌, ◌<◌, ◌≤◌, length, slice_get, All, OnErr};
ghost use Rattle.eo_base.specs.Limits.{parameters_limit};
ghost use Rattle.eo_pattern.specs.Matching.{put};
ghost use Rattle.eo_term.specs.Tree.{Op, to_trees};
ghost use Rattle.eo_term.specs.Terms.{HasArity};
ghost use Rattle.eo_names.specs.Folding.{arrow};
ghost use Rattle.eo_names.specs.Scopes.{bound_in};
ghost use Rattle.eo_names.specs.Usage.{plain_tree, UseBelow, Suits};
ghost use Rattle.eo_names.specs.Ready.{IsReady};
ghost use Rattle.eo_term.specs.Growth.{tree_in, trees_in, Grows};
ghost use Rattle.eo_term.specs.Builds.{Builds};
ghost use Rattle.eo_names.specs.Gives.{GivesTerm};
ghost use Rattle.eo_names.specs.Worlds.{world, made_in};

use crate::ElabRefused;
use crate::fold::{apply_constant, apply_to_all};
use crate::folding::fold_constant;
use crate::scope::Scope;
use crate::usage::Head;
use eo_pattern::{Subst, substitute};
use eo_sig::SignatureView;
use eo_term::{HEIGHT_LIMIT, Id, Node, OpCode, Table, TermRefused, builds_law};
use std::alloc::Global;

/// The term of arguments that are used so.
///
/// A refusal is the first fault:
///
/// - `BadArity`: a constant that is folded over them asks for more.
/// - `Tall`: the term, or one that goes into it, is taller than the limit.
/// - `Memory`: out of memory.
///
/// A refused call leaves the table as it was.
pub fn apply_head(
    alloc: Global,
    used: Head,
    args: &[Id],
    scope: &Scope<'_>,
    sig: &SignatureView<'_>,
    table: &mut Table,
) -> Result<Id, ElabRefused>
    requires ready { IsReady (length table.old.trees) sig.now (bound_in scope.now) }
    requires args { All (λ a. a < length table.old.trees) args.now }
    requires below { UseBelow (length table.old.trees) used }
    requires suits { Suits used (length args.now) }
    ensures gives { GivesTerm table.new result (made_in (world table.old sig.now scope.now) table.old used (trees_in table.old args.now)) }
    ensures refused { OnErr result (table.new ≡ table.old) }
    ensures grows { Grows table.old table.new }
{
    let mark = table.mark();
    match use_or_leave(alloc, used, args, scope, sig, table) {
        Ok(made) => Ok(made),
        Err(e) => {
            table.release(mark);
            Err(e)
        }
    }
}

// The same, but that a refused call leaves the terms that it made.
fn use_or_leave(
    alloc: Global,
    used: Head,
    args: &[Id],
    scope: &Scope<'_>,
    sig: &SignatureView<'_>,
    table: &mut Table,
) -> Result<Id, ElabRefused>
    requires ready { IsReady (length table.old.trees) sig.now (bound_in scope.now) }
    requires args { All (λ a. a < length table.old.trees) args.now }
    requires below { UseBelow (length table.old.trees) used }
    requires suits { Suits used (length args.now) }
    ensures gives { GivesTerm table.new result (made_in (world table.old sig.now scope.now) table.old used (trees_in table.old args.now)) }
    ensures grows { Grows table.old table.new }
{
    if let Head::Fold(k) = used {
        return fold_constant(alloc, k, args, scope, sig, table);
    }
    let made = use_plainly(alloc, used, args, table)?;
    prove!(table.height(made) <= HEIGHT_LIMIT);
    Ok(made)
}

// The same, where a constant that folds its arguments is applied to them one after another.
fn use_plainly(alloc: Global, used: Head, args: &[Id], table: &mut Table) -> Result<Id, TermRefused>
    requires args { All (λ a. a < length table.old.trees) args.now }
    requires below { UseBelow (length table.old.trees) used }
    requires suits { Suits used (length args.now) }
    ensures gives { Builds table.new result (plain_tree table.old.trees used (trees_in table.old args.now)) }
    ensures grows { Grows table.old table.new }
{
    match used {
        Head::Apply(f) => apply_to_all(table, f, args),
        Head::Underscore => apply_to_all(table, args[0], &args[1..]),
        Head::Arrow => arrow_or_leave(table, args),
        Head::Fold(k) => apply_constant(table, k, args),
        Head::Bind { binder, .. } => apply_constant(table, binder, args),
        Head::Macro(tree) => put_in(alloc, tree, args, table),
        Head::Operator(code) => apply_operator(table, code, args),
    }
}

// An operator or a program on its arguments.
fn apply_operator(table: &mut Table, code: OpCode, args: &[Id]) -> Result<Id, TermRefused>
    requires count { HasArity code (length args.now) }
    requires args { All (λ a. a < length table.old.trees) args.now }
    ensures gives { Builds table.new result (Op code (to_trees (trees_in table.old args.now))) }
    ensures grows { Grows table.old table.new }
{
    builds_law();
    table.intern_op(code, args)
}

/// The function type of one or more types, of which the last is that of its values.
///
/// `Tall`: the type is taller than the limit. `Memory`: out of memory. A refused call leaves the
/// table as it was.
pub fn function_type(table: &mut Table, types: &[Id]) -> Result<Id, TermRefused>
    requires types { All (λ a. a < length table.old.trees) types.now }
    requires some { 1 ≤ length types.now }
    ensures gives { Builds table.new result (arrow (trees_in table.old types.now)) }
    ensures refused { OnErr result (table.new ≡ table.old) }
    ensures grows { Grows table.old table.new }
{
    let mark = table.mark();
    match arrow_or_leave(table, types) {
        Ok(made) => Ok(made),
        Err(e) => {
            table.release(mark);
            Err(e)
        }
    }
}

// The same, but that a refused call leaves the types that it made.
fn arrow_or_leave(table: &mut Table, types: &[Id]) -> Result<Id, TermRefused>
    requires types { All (λ a. a < length table.old.trees) types.now }
    requires some { 1 ≤ length types.now }
    ensures gives { Builds table.new result (arrow (trees_in table.old types.now)) }
    ensures grows { Grows table.old table.new }
{
    builds_law();
    let mut left = types.len() - 1;
    let mut made = types[left];
    while left > 0 {
        left -= 1;
        made = table.intern(Node::Arr {
            from: types[left],
            to: made,
        })?;
    }
    Ok(made)
}

// The term with the arguments substituted for its parameters, of which there are at most 64.
fn put_in(alloc: Global, tree: Id, args: &[Id], table: &mut Table) -> Result<Id, TermRefused>
    requires tree { tree < length table.old.trees }
    requires args { All (λ a. a < length table.old.trees) args.now }
    requires few { length args.now ≤ parameters_limit }
    ensures gives { Builds table.new result (put (slice_get (trees_in table.old args.now)) (tree_in table.old tree)) }
    ensures grows { Grows table.old table.new }
{
    let mut values = Subst::new(alloc);
    values.reserve(args.len(), 0)?;
    for (i, a) in args.iter().enumerate() {
        values.put(i as u8, *a);
    }
    substitute(table, &values, tree)
}
