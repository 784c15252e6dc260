//! Terms that spell lists.
ghost use Rattle.std.specs.Prelude.{◌<◌, length, fold, All};
ghost use Rattle.eo_term.specs.Tree.{App};
ghost use Rattle.eo_term.specs.Growth.{Grows, tree_in, trees_in};
ghost use Rattle.eo_term.specs.Builds.{Builds};
ghost use Rattle.eo_lists.specs.Lists.{link, spell};
ghost use Rattle.eo_lists.specs.Parts.{onto};

use eo_term::{Id, Node, Table, TermRefused, builds_law};

/// The term that spells the items by the constant `fun`, before what `end` spells.
pub(crate) fn build(table: &mut Table, fun: Id, end: Id, items: &[Id]) -> Result<Id, TermRefused>
    requires fun { fun < length table.old.trees }
    requires end { end < length table.old.trees }
    requires items { All (λ i. i < length table.old.trees) items.now }
    ensures gives { Builds table.new result (spell (tree_in table.old fun) (tree_in table.old end) (trees_in table.old items.now)) }
    ensures grows { Grows table.old table.new }
{
    builds_law();
    let mut left = items.len();
    let mut made = end;
    while left > 0 {
        left -= 1;
        made = put_before(table, fun, items[left], made)?;
    }
    Ok(made)
}

/// The same for the items in reverse.
pub(crate) fn build_reversed(
    table: &mut Table,
    fun: Id,
    end: Id,
    items: &[Id],
) -> Result<Id, TermRefused>
    requires fun { fun < length table.old.trees }
    requires end { end < length table.old.trees }
    requires items { All (λ i. i < length table.old.trees) items.now }
    ensures gives { Builds table.new result (fold (onto (tree_in table.old fun)) (tree_in table.old end) (trees_in table.old items.now)) }
    ensures grows { Grows table.old table.new }
{
    builds_law();
    let mut made = end;
    for item in items {
        made = put_before(table, fun, *item, made)?;
    }
    Ok(made)
}

/// The term that spells an item before what `rest` spells.
pub(crate) fn put_before(table: &mut Table, fun: Id, item: Id, rest: Id) -> Result<Id, TermRefused>
    requires fun { fun < length table.old.trees }
    requires item { item < length table.old.trees }
    requires rest { rest < length table.old.trees }
    ensures gives { Builds table.new result (link (tree_in table.old fun) (tree_in table.old item) (tree_in table.old rest)) }
    ensures grows { Grows table.old table.new }
{
    let front = apply(table, fun, item)?;
    apply(table, front, rest)
}

// The application of a term to another.
fn apply(table: &mut Table, fun: Id, arg: Id) -> Result<Id, TermRefused>
    requires fun { fun < length table.old.trees }
    requires arg { arg < length table.old.trees }
    ensures gives { Builds table.new result (App (tree_in table.old fun) (tree_in table.old arg)) }
    ensures grows { Grows table.old table.new }
{
    table.intern(Node::App { fun, arg })
}
