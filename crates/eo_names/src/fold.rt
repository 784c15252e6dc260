//! A constant applied to its arguments, as its attribute says.
ghost use Rattle.std.specs.Prelude.{◌<◌, ◌≤◌, length, All};
ghost use Rattle.eo_term.specs.Tree.{App, Con};
ghost use Rattle.eo_names.specs.Folding.{applied, applied_to_two, right};
ghost use Rattle.eo_names.specs.Names.{AreBelow};
ghost use Rattle.eo_names.specs.Scopes.{bound_in};
ghost use Rattle.eo_term.specs.Growth.{tree_in, trees_in, Grows};
ghost use Rattle.eo_term.specs.Builds.{Builds};
ghost use Rattle.eo_names.specs.Worlds.{left_in, onto_in, last_in, right_nil_in};

use crate::scope::Scope;
use eo_term::{Id, Ids, Node, OpCode, OpName, Table, TermRefused, builds_law};
use std::alloc::Global;

/// The application of a term to another.
pub(crate) fn apply(table: &mut Table, f: Id, a: Id) -> Result<Id, TermRefused>
    requires f { f < length table.old.trees }
    requires a { a < length table.old.trees }
    ensures gives { Builds table.new result (App (tree_in table.old f) (tree_in table.old a)) }
    ensures grows { Grows table.old table.new }
{
    table.intern(Node::App { fun: f, arg: a })
}

/// The application of a term to two others, one after the other.
pub(crate) fn apply_to_two(table: &mut Table, f: Id, a: Id, b: Id) -> Result<Id, TermRefused>
    requires f { f < length table.old.trees }
    requires a { a < length table.old.trees }
    requires b { b < length table.old.trees }
    ensures gives { Builds table.new result (applied_to_two (tree_in table.old f) (tree_in table.old a) (tree_in table.old b)) }
    ensures grows { Grows table.old table.new }
{
    let first = apply(table, f, a)?;
    apply(table, first, b)
}

/// The application of a term to each of the arguments, one after another.
pub(crate) fn apply_to_all(table: &mut Table, f: Id, args: &[Id]) -> Result<Id, TermRefused>
    requires f { f < length table.old.trees }
    requires args { All (λ a. a < length table.old.trees) args.now }
    ensures gives { Builds table.new result (applied (tree_in table.old f) (trees_in table.old args.now)) }
    ensures grows { Grows table.old table.new }
{
    builds_law();
    let mut made = f;
    for a in args {
        made = apply(table, made, *a)?;
    }
    Ok(made)
}

/// The application of the constant of this number to each of the arguments, one after another.
pub(crate) fn apply_constant(table: &mut Table, k: usize, args: &[Id]) -> Result<Id, TermRefused>
    requires args { All (λ a. a < length table.old.trees) args.now }
    ensures gives { Builds table.new result (applied (Con k) (trees_in table.old args.now)) }
    ensures grows { Grows table.old table.new }
{
    let f = table.constant(k)?;
    apply_to_all(table, f, args)
}

/// The arguments grouped from the left, after a first one.
pub(crate) fn group_left(
    table: &mut Table,
    f: Id,
    first: Id,
    args: &[Id],
) -> Result<Id, TermRefused>
    requires f { f < length table.old.trees }
    requires first { first < length table.old.trees }
    requires args { All (λ a. a < length table.old.trees) args.now }
    ensures gives { Builds table.new result (left_in table.old f first args.now) }
    ensures grows { Grows table.old table.new }
{
    builds_law();
    let mut made = first;
    for a in args {
        made = apply_to_two(table, f, made, *a)?;
    }
    Ok(made)
}

/// The arguments, of which there is at least one, grouped from the right.
pub(crate) fn group_right(table: &mut Table, f: Id, args: &[Id]) -> Result<Id, TermRefused>
    requires f { f < length table.old.trees }
    requires args { All (λ a. a < length table.old.trees) args.now }
    requires some { 1 ≤ length args.now }
    ensures gives { Builds table.new result (right (tree_in table.old f) (trees_in table.old args.now)) }
    ensures grows { Grows table.old table.new }
{
    builds_law();
    let mut left = args.len() - 1;
    let mut made = args[left];
    while left > 0 {
        left -= 1;
        made = apply_to_two(table, f, args[left], made)?;
    }
    Ok(made)
}

/// The arguments, of which there is at least one, grouped from the right before a terminator. One
/// that represents a list is joined to the rest, and in the last place it is the rest.
pub(crate) fn group_list(
    table: &mut Table,
    scope: &Scope<'_>,
    f: Id,
    nil: Id,
    args: &[Id],
) -> Result<Id, TermRefused>
    requires f { f < length table.old.trees }
    requires nil { nil < length table.old.trees }
    requires args { All (λ a. a < length table.old.trees) args.now }
    requires some { 1 ≤ length args.now }
    requires names { AreBelow (length table.old.trees) (bound_in scope.now) }
    ensures gives { Builds table.new result (right_nil_in table.old scope.now f nil args.now) }
    ensures grows { Grows table.old table.new }
{
    builds_law();
    let mut left = args.len() - 1;
    let mut made = last_of_list(table, scope, f, args[left], nil)?;
    while left > 0 {
        left -= 1;
        made = onto_list(table, scope, f, args[left], made)?;
    }
    Ok(made)
}

// The last argument before the terminator.
fn last_of_list(
    table: &mut Table,
    scope: &Scope<'_>,
    f: Id,
    a: Id,
    nil: Id,
) -> Result<Id, TermRefused>
    requires f { f < length table.old.trees }
    requires a { a < length table.old.trees }
    requires nil { nil < length table.old.trees }
    requires names { AreBelow (length table.old.trees) (bound_in scope.now) }
    ensures gives { Builds table.new result (last_in table.old scope.now f a nil) }
    ensures grows { Grows table.old table.new }
{
    if scope.is_list(table, a) {
        return Ok(a);
    }
    apply_to_two(table, f, a, nil)
}

// An argument before the rest of a list.
fn onto_list(
    table: &mut Table,
    scope: &Scope<'_>,
    f: Id,
    a: Id,
    rest: Id,
) -> Result<Id, TermRefused>
    requires f { f < length table.old.trees }
    requires a { a < length table.old.trees }
    requires rest { rest < length table.old.trees }
    requires names { AreBelow (length table.old.trees) (bound_in scope.now) }
    ensures gives { Builds table.new result (onto_in table.old scope.now f a rest) }
    ensures grows { Grows table.old table.new }
{
    if scope.is_list(table, a) {
        return table.intern_op(OpCode::Builtin(OpName::ListConcat), &[f, a, rest]);
    }
    apply_to_two(table, f, a, rest)
}
