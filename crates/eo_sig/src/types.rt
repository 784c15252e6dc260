//! What declared types and terminators may hold.
ghost use Rattle.std.specs.Prelude.{◌≡◌, ◌<◌, List, length, is_some, All};
ghost use Rattle.std.specs.List.{list_any};
ghost use Rattle.eo_term.specs.Growth.{tree_in};
ghost use Rattle.eo_term.specs.Tree.{Tree, occurs_openly};
ghost use Rattle.eo_sig.specs.Signature as sig;
ghost use Rattle.eo_sig.specs.Parts.{parameters_in, Splits};
ghost use Rattle.eo_sig.specs.Reading.{read_attribute, AttributeBelow};

use crate::{Attribute, Param};
use eo_term::{Id, Node, Table};

// Whether the parameter occurs outside every operator in the type of an argument of a constant of
// this type. The table keeps with each term which parameters do, those of the result among them: so
// the arguments are asked one by one, up to the first in which it occurs.
fn occurs_in_argument(table: &Table, ty: Id, par: usize) -> bool
    requires { ty < length table.now.trees }
    ensures { result ≡ list_any (occurs_openly par) (sig.argument_types (tree_in table.now ty)) }
{
    let mut rest = ty;
    while let Some((argument, to)) = first_argument(table, rest) {
        if table.open_parameters(argument).has(par) {
            return true;
        }
        rest = to;
    }
    false
}

// The type of the first argument of a constant of this type, and the type of what it gives then.
pub(crate) fn first_argument(table: &Table, ty: Id) -> Option<(Id, Id)>
    requires { ty < length table.now.trees }
    ensures { Splits table.now ty result }
{
    match table.node(ty) {
        Node::Arr { from, to } => Some((from, to)),
        Node::Qar { ty: from, to, .. } => Some((from, to)),
        _ => None,
    }
}

/// Whether the types of the parameters may be declared.
pub(crate) fn may_type(table: &Table, params: &[Param]) -> bool
    requires { All (λ p. p.ty < length table.now.trees) params.now }
    ensures { result ≡ sig.may_type (parameters_in table.now params.now) }
{
    for p in params {
        if !table.may_be_type(p.ty) {
            return false;
        }
    }
    true
}

/// Whether the attribute's terminator is a value.
pub(crate) fn may_fold(table: &Table, attribute: &Attribute) -> bool
    requires { AttributeBelow (length table.now.trees) attribute.now }
    ensures { result ≡ sig.may_fold (read_attribute table.now.trees attribute.now) }
{
    match *attribute {
        Attribute::RightNil(n) | Attribute::LeftNil(n) => table.is_value(n),
        _ => true,
    }
}

/// Whether each implicit parameter occurs in the type of an argument, outside every operator.
pub(crate) fn implicit_occur(table: &Table, ty: Id, params: &[Param]) -> bool
    requires ty { ty < length table.now.trees }
    ensures { result ≡ sig.implicit_occur (sig.argument_types (tree_in table.now ty)) 0 (parameters_in table.now params.now) }
{
    for (i, p) in params.iter().enumerate() {
        if p.implicit && !occurs_in_argument(table, ty, i) {
            return false;
        }
    }
    true
}

/// Whether the attribute has a terminator at the right.
pub(crate) fn ends_at_right(attribute: &Attribute) -> bool
    ensures { (ts : List Tree) → result ≡ is_some (sig.terminator_of (read_attribute ts attribute.now)) }
{
    matches!(attribute, Attribute::RightNil(_))
}
