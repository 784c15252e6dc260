//! The operators on lists: what a constant with a terminator spells, read and made.
#![tactic(auto)]

ghost use Rattle.std.specs.Prelude.{◌≡◌, ◌<◌, length, All, OnErr};
ghost use Rattle.eo_term.specs.Terms.{arity};
ghost use Rattle.eo_sig.specs.Growth.{GrowsUnder};
ghost use Rattle.eo_sig.specs.Reading.{IsBelow};
ghost use Rattle.eo_lists.specs.Outcomes.{IsListOperator, GivesList, value_in};

mod build;
mod counts;
mod items;
mod joining;
mod operators;
mod spelling;

use crate::operators::operate;
use crate::spelling::{Spelling, terminator};
use eo_sig::Signature;
use eo_term::{Id, OpName, Table, TermRefused};
pub use joining::spell_list;
use std::alloc::Global;

/// The value of an operator on lists, as in the Ethos manual; `None`, where it is stuck: its
/// first argument is no constant with a terminator, an argument that has to be a list spells none, or
/// `eo::list_nth` finds no item.
///
/// `Tall`: the value would be too tall. `Memory`: out of memory. A refused call leaves the table as
/// it was. The spine of a list is walked once, and the cost is that of a look-up by hash for each
/// item that is before a new rest: what spells the items after an erased one, or a list before
/// an empty one, is taken as it is.
pub fn list_op(
    alloc: Global,
    sig: &Signature,
    table: &mut Table,
    op: OpName,
    args: &[Id],
) -> Result<Option<Id>, TermRefused>
    requires list { IsListOperator op }
    requires count { length args.now ≡ arity op }
    requires args { All (λ i. i < length table.old.trees) args.now }
    requires below { IsBelow (length table.old.trees) sig.now }
    ensures gives { GivesList table.new result (value_in sig.now table.old op args.now) }
    ensures refused { OnErr result (table.new ≡ table.old) }
    ensures grows { GrowsUnder sig.now table.old table.new }
{
    sig.laws();
    let mark = table.mark();
    match value_of(alloc, sig, table, op, args) {
        Ok(value) => Ok(value),
        Err(e) => {
            table.release(mark);
            Err(e)
        }
    }
}

// The same, but that a refused call leaves the terms that it made.
fn value_of(
    alloc: Global,
    sig: &Signature,
    table: &mut Table,
    op: OpName,
    args: &[Id],
) -> Result<Option<Id>, TermRefused>
    requires list { IsListOperator op }
    requires count { length args.now ≡ arity op }
    requires args { All (λ i. i < length table.old.trees) args.now }
    requires below { IsBelow (length table.old.trees) sig.now }
    ensures gives { GivesList table.new result (value_in sig.now table.old op args.now) }
    ensures grows { GrowsUnder sig.now table.old table.new }
{
    sig.laws();
    let fun = args[0];
    let Some(end) = terminator(sig, table, fun) else {
        return Ok(None);
    };
    operate(alloc, table, &Spelling { fun, end }, op, &args[1..])
}
