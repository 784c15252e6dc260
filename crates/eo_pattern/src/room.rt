//! Matching for which room is made first.
ghost use Rattle.std.specs.Prelude.{◌≡◌, ◌<◌, length, All, None, Some, IfOk, OnErr, OnOk, IsTrue, IsFalse};
ghost use Rattle.eo_term.specs.Growth.{tree_in, trees_in};
ghost use Rattle.eo_pattern.specs.Matching.{matching};
ghost use Rattle.eo_pattern.specs.Slots.{held, AreBelow, AreEmpty, HasRoom};

use crate::{Subst, match_terms, matching_law};
use eo_term::{Id, Table};
use std::alloc::AllocError;

/// Whether the patterns match the terms, beside what is held: whether there are as many, and some
/// assignment that extends the present one, by just the patterns' parameters, makes them equal, one
/// to one. It is then held. On `false` nothing is held.
///
/// Room for the patterns is made first, and stays. The error is out of memory: what was held is
/// still held.
pub fn match_with_room(
    table: &Table,
    subst: &mut Subst,
    patterns: &[Id],
    terms: &[Id],
) -> Result<bool, AllocError>
    requires patterns { All (λ i. i < length table.now.trees) patterns.now }
    requires terms { All (λ i. i < length table.now.trees) terms.now }
    requires below { AreBelow (length table.now.trees) subst.old }
    ensures yes { IfOk result (λ b. IsTrue b → matching (held table.now.trees subst.old) (trees_in table.now patterns.now)
        (trees_in table.now terms.now) ≡ Some (held table.now.trees subst.new)) }
    ensures no { IfOk result (λ b. IsFalse b → matching (held table.now.trees subst.old) (trees_in table.now patterns.now)
        (trees_in table.now terms.now) ≡ None) }
    ensures empty { IfOk result (λ b. IsFalse b → AreEmpty subst.new) }
    ensures below { AreBelow (length table.now.trees) subst.new }
    ensures err { OnErr result (held table.now.trees subst.new ≡ held table.now.trees subst.old) }
{
    matching_law();
    if patterns.len() != terms.len() {
        subst.clear();
        return Ok(false);
    }
    make_room(table, subst, patterns)?;
    Ok(match_terms(table, patterns, terms, subst))
}

// Makes room for what the patterns may hold. What is held stays.
fn make_room(table: &Table, subst: &mut Subst, patterns: &[Id]) -> Result<(), AllocError>
    requires patterns { All (λ i. i < length table.now.trees) patterns.now }
    requires below { AreBelow (length table.now.trees) subst.old }
    ensures room { OnOk result (All (λ i. HasRoom subst.new (tree_in table.now i)) patterns.now) }
    ensures held { held table.now.trees subst.new ≡ held table.now.trees subst.old }
    ensures below { AreBelow (length table.now.trees) subst.new }
{
    for pattern in patterns {
        subst.reserve_for(table, *pattern)?;
    }
    Ok(())
}
