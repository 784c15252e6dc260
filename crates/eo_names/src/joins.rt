//! What a constant that is joined by another makes of its arguments.
ghost use Rattle.std.specs.Prelude.{◌<◌, length, All};
ghost use Rattle.eo_names.specs.Folding.{links, all_pairs};
ghost use Rattle.eo_term.specs.Growth.{tree_in, trees_in, Grows};
ghost use Rattle.eo_term.specs.Builds.{BuildsAll};
ghost use Rattle.eo_names.specs.Gives.{AddsAll};
ghost use Rattle.eo_names.specs.Worlds.{with_each};

use crate::fold::apply_to_two;
use eo_term::{Id, Ids, Table, TermRefused, builds_law};
use std::alloc::Global;

/// A term on each two neighbours, in order.
pub(crate) fn neighbours(
    alloc: Global,
    table: &mut Table,
    f: Id,
    args: &[Id],
) -> Result<Ids, TermRefused>
    requires f { f < length table.old.trees }
    requires args { All (λ a. a < length table.old.trees) args.now }
    ensures gives { BuildsAll table.new result (links (tree_in table.old f) (trees_in table.old args.now)) }
    ensures grows { Grows table.old table.new }
{
    builds_law();
    let mut made = Ids::new(alloc);
    for i in 1..args.len() {
        let link = apply_to_two(table, f, args[i - 1], args[i])?;
        made.push(link)?;
    }
    Ok(made)
}

/// A term on each two arguments, by the first and then by the second.
pub(crate) fn pairs(
    alloc: Global,
    table: &mut Table,
    f: Id,
    args: &[Id],
) -> Result<Ids, TermRefused>
    requires f { f < length table.old.trees }
    requires args { All (λ a. a < length table.old.trees) args.now }
    ensures gives { BuildsAll table.new result (all_pairs (tree_in table.old f) (trees_in table.old args.now)) }
    ensures grows { Grows table.old table.new }
{
    builds_law();
    let mut made = Ids::new(alloc);
    for i in 0..args.len() {
        add_pairs(table, f, args[i], &args[i + 1..], &mut made)?;
    }
    Ok(made)
}

// Adds the term on one argument and on each of the others, in order.
fn add_pairs(
    table: &mut Table,
    f: Id,
    a: Id,
    others: &[Id],
    made: &mut Ids,
) -> Result<(), TermRefused>
    requires f { f < length table.old.trees }
    requires a { a < length table.old.trees }
    requires others { All (λ b. b < length table.old.trees) others.now }
    requires made { All (λ i. i < length table.old.trees) made.old }
    ensures adds { AddsAll table.old table.new made.old made.new result (with_each table.old f a others.now) }
    ensures grows { Grows table.old table.new }
{
    builds_law();
    for b in others {
        let pair = apply_to_two(table, f, a, *b)?;
        made.push(pair)?;
    }
    Ok(())
}
