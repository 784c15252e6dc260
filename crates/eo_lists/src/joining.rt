//! Items that a constant joins into one list.
ghost use Rattle.std.specs.Prelude.{◌≡◌, ◌<◌, length, All, OnErr};
ghost use Rattle.eo_sig.specs.Growth.{GrowsUnder};
ghost use Rattle.eo_sig.specs.Reading.{IsBelow};
ghost use Rattle.eo_lists.specs.Joining.{list_in, list_from};
ghost use Rattle.eo_lists.specs.Outcomes.{GivesList};

use crate::build::build;
use crate::operators::answer;
use crate::spelling::terminator;
use eo_sig::Signature;
use eo_term::{Id, Node, Table, TermRefused};

/// The term that spells the items in order by the constant of that number; `None`, where the
/// constant has no terminator.
///
/// `Tall`: the term would be too tall. `Memory`: out of memory. A refused call leaves the table as
/// it was. The cost is that of a look-up by hash for each item.
pub fn spell_list(
    sig: &Signature,
    table: &mut Table,
    fun: usize,
    items: &[Id],
) -> Result<Option<Id>, TermRefused>
    requires items { All (λ i. i < length table.old.trees) items.now }
    requires below { IsBelow (length table.old.trees) sig.now }
    ensures gives { GivesList table.new result (list_in sig.now table.old fun items.now) }
    ensures refused { OnErr result (table.new ≡ table.old) }
    ensures grows { GrowsUnder sig.now table.old table.new }
{
    sig.laws();
    let mark = table.mark();
    match spell_by_number(sig, table, fun, items) {
        Ok(term) => Ok(term),
        Err(e) => {
            table.release(mark);
            Err(e)
        }
    }
}

// The same, but that a refused call leaves the terms that it made.
fn spell_by_number(
    sig: &Signature,
    table: &mut Table,
    fun: usize,
    items: &[Id],
) -> Result<Option<Id>, TermRefused>
    requires items { All (λ i. i < length table.old.trees) items.now }
    requires below { IsBelow (length table.old.trees) sig.now }
    ensures gives { GivesList table.new result (list_in sig.now table.old fun items.now) }
    ensures grows { GrowsUnder sig.now table.old table.new }
{
    sig.laws();
    let constant = table.intern(Node::Con(fun))?;
    spell_by(sig, table, constant, items)
}

// The same by the term that is the constant.
fn spell_by(
    sig: &Signature,
    table: &mut Table,
    fun: Id,
    items: &[Id],
) -> Result<Option<Id>, TermRefused>
    requires fun { fun < length table.old.trees }
    requires items { All (λ i. i < length table.old.trees) items.now }
    requires below { IsBelow (length table.old.trees) sig.now }
    ensures gives { GivesList table.new result (list_from sig.now table.old fun items.now) }
    ensures grows { GrowsUnder sig.now table.old table.new }
{
    sig.laws();
    let Some(end) = terminator(sig, table, fun) else {
        return Ok(None);
    };
    let made = build(table, fun, end, items);
    answer(made)
}
