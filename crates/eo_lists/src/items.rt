//! Operations on items by their ids, which are equal exactly where their terms are.
ghost use Rattle.std.specs.Prelude.{◌≡◌, nat_eq, position, IfOk};
ghost use Rattle.eo_lists.specs.Lists.{set_of, includes};
ghost use Rattle.eo_lists.specs.Parts.{are_covered};

use crate::counts::{Counts, count};
use eo_term::{Id, Ids};
use indexmap::IndexSet;
use std::alloc::{AllocError, Global};

/// The place of the first item that is this one.
pub(crate) fn place_of(items: &[Id], item: Id) -> Option<usize>
    ensures { result ≡ position (nat_eq item) items.now }
{
    items.iter().position(|i| *i == item)
}

/// The first occurrence of each item, in order.
pub(crate) fn first_of_each(alloc: Global, items: &[Id]) -> Result<IndexSet<Id>, AllocError>
    ensures { IfOk result (λ s. s.keys ≡ set_of nat_eq items.now) }
{
    let mut found = IndexSet::new(alloc);
    for item in items {
        found.insert(*item)?;
    }
    Ok(found)
}

/// Whether each of the second items occurs among the first at least as often.
pub(crate) fn is_included(alloc: Global, items: &[Id], wanted: &[Id]) -> Result<bool, AllocError>
    ensures { IfOk result (λ b. b ≡ includes nat_eq items.now wanted.now) }
{
    let there = count(alloc, items)?;
    let here = count(alloc, wanted)?;
    Ok(are_covered(&there, &here, wanted))
}

// Whether none of the items was counted more often the second time.
fn are_covered(there: &Counts, here: &Counts, items: &[Id]) -> bool
    ensures { result ≡ are_covered there.now here.now items.now }
{
    items.iter().all(|i| here.of(*i) <= there.of(*i))
}
