//! How lists are spelled, and what a term spells.
ghost use Rattle.std.specs.Prelude.{◌≡◌, ◌<◌, length, option_map, IfOk};
ghost use Rattle.eo_sig.specs.Reading.{IsBelow};
ghost use Rattle.eo_lists.specs.Parts.{GivesTree, IsOver, Reads, Unlinks, spelled_in, terminator_in};

use eo_sig::{Attribute, Signature};
use eo_term::{Id, Ids, Node, Table};
use std::alloc::{AllocError, Global};

/// How lists are spelled: `fun` puts each item before the rest, and `end` is the empty list.
#[derive(Clone, Copy)]
pub(crate) struct Spelling {
    pub(crate) fun: Id,
    pub(crate) end: Id,
}

/// An item and the rest of the list.
#[derive(Clone, Copy)]
pub(crate) struct Link {
    pub(crate) item: Id,
    pub(crate) rest: Id,
}

/// The terminator of a term that is a constant and has one.
pub(crate) fn terminator(sig: &Signature, table: &Table, id: Id) -> Option<Id>
    requires live { id < length table.now.trees }
    requires below { IsBelow (length table.now.trees) sig.now }
    ensures { GivesTree table.now result (terminator_in sig.now table.now id) }
{
    let Node::Con(k) = table.node(id) else {
        return None;
    };
    if k >= sig.constants() {
        return None;
    }
    match sig.constant(k).attribute {
        Attribute::RightNil(end) => Some(end),
        _ => None,
    }
}

/// The items of the list that the term spells; none, where it spells no list.
pub(crate) fn items(
    alloc: Global,
    table: &Table,
    form: &Spelling,
    list: Id,
) -> Result<Option<Ids>, AllocError>
    requires { IsOver table.now form.now list }
    ensures { IfOk result (λ o. Reads table.now form.now list o) }
{
    let mut found = Ids::new(alloc);
    let mut rest = list;
    while !table.is_same(rest, form.end) {
        let Some(link) = unlink(table, form.fun, rest) else {
            return Ok(None);
        };
        found.push(link.item)?;
        rest = link.rest;
    }
    Ok(Some(found))
}

/// How many items that list has.
pub(crate) fn length_of(table: &Table, form: &Spelling, list: Id) -> Option<usize>
    requires { IsOver table.now form.now list }
    ensures { result ≡ option_map length (spelled_in table.now form.now list) }
{
    let mut count = 0;
    let mut rest = list;
    while !table.is_same(rest, form.end) {
        let Some(link) = unlink(table, form.fun, rest) else {
            return None;
        };
        count += 1;
        rest = link.rest;
    }
    Some(count)
}

/// The first item and the rest, where the constant is applied to them.
pub(crate) fn unlink(table: &Table, fun: Id, list: Id) -> Option<Link>
    requires fun { fun < length table.now.trees }
    requires list { list < length table.now.trees }
    ensures { Unlinks table.now fun list result }
{
    let (front, rest) = table.application(list)?;
    let (head, item) = table.application(front)?;
    if table.is_same(head, fun) {
        Some(Link { item, rest })
    } else {
        None
    }
}
