//! A constant on its arguments, by its attribute.
ghost use Rattle.std.specs.Prelude.{◌≡◌, ℕ, ◌<◌, ◌≤◌, List, length, All};
ghost use Rattle.eo_term.specs.Tree.{Tree};
ghost use Rattle.eo_sig.specs.Reading.{signature, read_attribute, IsBelow, AttributeBelow};
ghost use Rattle.eo_names.specs.Folding.{attribute_at, least};
ghost use Rattle.eo_names.specs.Names.{AreBelow};
ghost use Rattle.eo_names.specs.Scopes.{bound_in};
ghost use Rattle.eo_term.specs.Growth.{Grows};
ghost use Rattle.eo_term.specs.Builds.{Builds};
ghost use Rattle.eo_names.specs.Worlds.{grouped_in};

use crate::fold::{apply_to_all, group_left, group_list, group_right};
use crate::scope::Scope;
use eo_sig::{Attribute, SignatureView};
use eo_term::{Id, Table, TermRefused};

/// How the constant of this number folds its arguments; plainly, where there is none.
pub fn attribute_of(sig: &SignatureView<'_>, k: usize) -> Attribute
    ensures value { (ts : List Tree) → read_attribute ts result ≡ attribute_at (signature ts sig.now) k }
    ensures below { (n : ℕ) → IsBelow n sig.now → AttributeBelow n result }
{
    if k >= sig.constants() {
        return Attribute::Plain;
    }
    sig.constant(k).attribute
}

/// The least number of arguments that the attribute asks for.
pub(crate) fn least_count(attribute: Attribute) -> usize
    ensures value { (ts : List Tree) → result ≡ least (read_attribute ts attribute) }
    ensures some { 1 ≤ result }
    ensures few { result ≤ 2 }
{
    match attribute {
        Attribute::Plain => 1,
        Attribute::RightNil(_) => 1,
        Attribute::LeftNil(_) => 1,
        Attribute::Right => 2,
        Attribute::Left => 2,
        Attribute::Chain(_) => 2,
        Attribute::Pairs(_) => 2,
        Attribute::Binder(_) => 1,
    }
}

/// The least number of arguments of the constant.
pub fn least_of(k: usize, sig: &SignatureView<'_>) -> usize
    ensures { (ts : List Tree) → result ≡ least (attribute_at (signature ts sig.now) k) }
{
    least_count(attribute_of(sig, k))
}

/// A constant on one or more arguments. One that joins what it is applied to, and a binder, are
/// applied plainly.
pub(crate) fn group(
    table: &mut Table,
    scope: &Scope<'_>,
    f: Id,
    attribute: Attribute,
    args: &[Id],
) -> Result<Id, TermRefused>
    requires f { f < length table.old.trees }
    requires args { All (λ a. a < length table.old.trees) args.now }
    requires some { 1 ≤ length args.now }
    requires below { AttributeBelow (length table.old.trees) attribute }
    requires names { AreBelow (length table.old.trees) (bound_in scope.now) }
    ensures gives { Builds table.new result (grouped_in table.old scope.now f attribute args.now) }
    ensures grows { Grows table.old table.new }
{
    match attribute {
        Attribute::Plain => apply_to_all(table, f, args),
        Attribute::RightNil(nil) => group_list(table, scope, f, nil, args),
        Attribute::LeftNil(nil) => group_left(table, f, nil, args),
        Attribute::Right => group_right(table, f, args),
        Attribute::Left => group_left(table, f, args[0], &args[1..]),
        Attribute::Chain(_) => apply_to_all(table, f, args),
        Attribute::Pairs(_) => apply_to_all(table, f, args),
        Attribute::Binder(_) => apply_to_all(table, f, args),
    }
}
