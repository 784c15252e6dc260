//! Truth values, and tests of terms.
ghost use Rattle.std.specs.Prelude.{◌≡◌, ◌<◌, length, All};
ghost use Rattle.std.specs.List.{list_all};
ghost use Rattle.eo_term.specs.Tree.{Con, truth, is_closed, is_value, tree_eq};
ghost use Rattle.eo_term.specs.Growth.{tree_in, trees_in, IsTerm};
ghost use Rattle.eo_type.specs.Types.{typed_if};
ghost use Rattle.eo_type.specs.Outcomes.{Gives};

use crate::refused::Stop;
use eo_term::{FALSE, Id, Node, TRUE, Table};

/// The constant of a truth value.
pub(crate) fn truth_value(table: &Table, value: bool) -> Id
    ensures { IsTerm table.now (truth value) result }
{
    table.laws();
    if value { TRUE } else { FALSE }
}

/// Whether the term is the constant of this number.
pub fn is_constant(table: &Table, id: Id, number: usize) -> bool
    requires { id < length table.now.trees }
    ensures { result ≡ tree_eq (tree_in table.now id) (Con number) }
{
    matches!(table.node(id), Node::Con(k) if k == number)
}

/// Whether two terms are equal.
pub(crate) fn is_equal(table: &Table, a: Id, b: Id) -> bool
    requires first { a < length table.now.trees }
    requires second { b < length table.now.trees }
    ensures { result ≡ tree_eq (tree_in table.now a) (tree_in table.now b) }
{
    table.is_same(a, b)
}

/// The term, if it is a value.
pub(crate) fn if_value(table: &Table, id: Id) -> Result<Id, Stop>
    requires { id < length table.now.trees }
    ensures gives { Gives table.now result (typed_if (is_value (tree_in table.now id)) (tree_in table.now id)) }
{
    if table.is_value(id) {
        Ok(id)
    } else {
        Err(Stop::Untyped)
    }
}

/// Whether none of the terms has a parameter.
pub(crate) fn are_closed(table: &Table, ids: &[Id]) -> bool
    requires { All (λ i. i < length table.now.trees) ids.now }
    ensures { result ≡ list_all is_closed (trees_in table.now ids.now) }
{
    for id in ids {
        if !table.is_closed(*id) {
            return false;
        }
    }
    true
}

/// Whether all terms are values.
pub(crate) fn are_values(table: &Table, ids: &[Id]) -> bool
    requires { All (λ i. i < length table.now.trees) ids.now }
    ensures { result ≡ list_all is_value (trees_in table.now ids.now) }
{
    for id in ids {
        if !table.is_value(*id) {
            return false;
        }
    }
    true
}
