//! The operators on lists of one spelling.
ghost use Rattle.std.specs.Prelude.{◌≡◌, ◌<◌, ◌+◌, [], ◌∷◌, length, pos, All, Some};
ghost use Rattle.eo_term.specs.declared.OpName.TheVariants as name;
ghost use Rattle.eo_term.specs.Terms.{Terms, arity};
ghost use Rattle.eo_term.specs.Tree.{Tree, Num, truth};
ghost use Rattle.eo_term.specs.Growth.{Grows, IsTerm, tree_in, trees_in};
ghost use Rattle.eo_term.specs.Builds.{Builds};
ghost use Rattle.eo_lists.specs.Lists.{item_at};
ghost use Rattle.eo_lists.specs.Outcomes.{IsListOperator, GivesList};
ghost use Rattle.eo_lists.specs.Parts.{IsSpelling, IsOver, Operates, GivesTree, by_operator_in, put_in};

use crate::build::{build, build_reversed, put_before};
use crate::items::{first_of_each, is_included, place_of};
use crate::spelling::{Spelling, items, length_of, unlink};
use eo_term::{FALSE, Id, Ids, Node, OpName, TRUE, Table, TermRefused};
use std::alloc::Global;

/// The value of an operator, by its arguments after the constant.
pub(crate) fn operate(
    alloc: Global,
    table: &mut Table,
    form: &Spelling,
    op: OpName,
    args: &[Id],
) -> Result<Option<Id>, TermRefused>
    requires list { IsListOperator op }
    requires count { length args.now + 1 ≡ arity op }
    requires form { IsSpelling table.old form.now }
    requires args { All (λ i. i < length table.old.trees) args.now }
    ensures gives { GivesList table.new result (by_operator_in table.old form.now op args.now) }
    ensures grows { Grows table.old table.new }
{
    match op {
        OpName::Nil => Ok(Some(form.end)),
        OpName::Cons => cons(table, form, args[0], args[1]),
        OpName::ListLen => list_len(table, form, args[0]),
        OpName::ListConcat => list_concat(alloc, table, form, args[0], args[1]),
        OpName::ListNth => list_nth(alloc, table, form, args[0], args[1]),
        OpName::ListFind => list_find(alloc, table, form, args[0], args[1]),
        OpName::ListRev => list_rev(alloc, table, form, args[0]),
        OpName::ListErase => list_erase(alloc, table, form, args[0], args[1]),
        OpName::ListSetof => list_setof(alloc, table, form, args[0]),
        OpName::ListMinclude => list_minclude(alloc, table, form, args[0], args[1]),
        _ => Ok(None),
    }
}

// The item before the list.
fn cons(table: &mut Table, form: &Spelling, item: Id, list: Id) -> Result<Option<Id>, TermRefused>
    requires item { item < length table.old.trees }
    requires list { IsOver table.old form.now list }
    ensures { Operates table.old form.now name.Cons (item ∷ list ∷ []) table.new result }
{
    if length_of(table, form, list).is_none() {
        return Ok(None);
    }
    let made = put_before(table, form.fun, item, list);
    answer(made)
}

// How many items the list has.
fn list_len(table: &mut Table, form: &Spelling, list: Id) -> Result<Option<Id>, TermRefused>
    requires { IsOver table.old form.now list }
    ensures { Operates table.old form.now name.ListLen (list ∷ []) table.new result }
{
    let Some(length) = length_of(table, form, list) else {
        return Ok(None);
    };
    count(table, length)
}

// The items of the first list before those of the second. Where the second is empty, the first is the
// value as it is.
fn list_concat(
    alloc: Global,
    table: &mut Table,
    form: &Spelling,
    first: Id,
    second: Id,
) -> Result<Option<Id>, TermRefused>
    requires first { IsOver table.old form.now first }
    requires second { second < length table.old.trees }
    ensures { Operates table.old form.now name.ListConcat (first ∷ second ∷ []) table.new result }
{
    if table.is_same(second, form.end) {
        return Ok(itself(table, form, first));
    }
    let Some(found) = items(alloc, table, form, first)? else {
        return Ok(None);
    };
    put_items(table, form, found.as_slice(), second)
}

// The item at a place, the first being at 0.
fn list_nth(
    alloc: Global,
    table: &mut Table,
    form: &Spelling,
    list: Id,
    place: Id,
) -> Result<Option<Id>, TermRefused>
    requires list { IsOver table.old form.now list }
    requires place { place < length table.old.trees }
    ensures { Operates table.old form.now name.ListNth (list ∷ place ∷ []) table.new result }
{
    let Some(found) = items(alloc, table, form, list)? else {
        return Ok(None);
    };
    Ok(item_at(table, found.as_slice(), place))
}

// The place of the first item that is this one, or -1.
fn list_find(
    alloc: Global,
    table: &mut Table,
    form: &Spelling,
    list: Id,
    item: Id,
) -> Result<Option<Id>, TermRefused>
    requires list { IsOver table.old form.now list }
    requires item { item < length table.old.trees }
    ensures { Operates table.old form.now name.ListFind (list ∷ item ∷ []) table.new result }
{
    table.laws();
    let Some(found) = items(alloc, table, form, list)? else {
        return Ok(None);
    };
    match place_of(found.as_slice(), item) {
        Some(place) => count(table, place),
        None => number(table, -1),
    }
}

// The items in reverse.
fn list_rev(
    alloc: Global,
    table: &mut Table,
    form: &Spelling,
    list: Id,
) -> Result<Option<Id>, TermRefused>
    requires { IsOver table.old form.now list }
    ensures { Operates table.old form.now name.ListRev (list ∷ []) table.new result }
{
    let Some(found) = items(alloc, table, form, list)? else {
        return Ok(None);
    };
    let made = build_reversed(table, form.fun, form.end, found.as_slice());
    answer(made)
}

// The list without the first item that is this one. What spells the items after it is taken as it
// is.
fn list_erase(
    alloc: Global,
    table: &mut Table,
    form: &Spelling,
    list: Id,
    item: Id,
) -> Result<Option<Id>, TermRefused>
    requires list { IsOver table.old form.now list }
    requires item { item < length table.old.trees }
    ensures { Operates table.old form.now name.ListErase (list ∷ item ∷ []) table.new result }
{
    let mut front = Ids::new(alloc);
    let mut rest = list;
    while !table.is_same(rest, form.end) {
        let Some(link) = unlink(table, form.fun, rest) else {
            return Ok(None);
        };
        if table.is_same(item, link.item) {
            return put_items(table, form, front.as_slice(), link.rest);
        }
        front.push(link.item)?;
        rest = link.rest;
    }
    Ok(Some(list))
}

// The first occurrence of each item.
fn list_setof(
    alloc: Global,
    table: &mut Table,
    form: &Spelling,
    list: Id,
) -> Result<Option<Id>, TermRefused>
    requires { IsOver table.old form.now list }
    ensures { Operates table.old form.now name.ListSetof (list ∷ []) table.new result }
{
    table.laws();
    let Some(found) = items(alloc, table, form, list)? else {
        return Ok(None);
    };
    let first = first_of_each(alloc, found.as_slice())?;
    let made = build(table, form.fun, form.end, first.as_slice());
    answer(made)
}

// Whether each item of the second list occurs in the first at least as often.
fn list_minclude(
    alloc: Global,
    table: &mut Table,
    form: &Spelling,
    first: Id,
    second: Id,
) -> Result<Option<Id>, TermRefused>
    requires first { IsOver table.old form.now first }
    requires second { second < length table.old.trees }
    ensures { Operates table.old form.now name.ListMinclude (first ∷ second ∷ []) table.new result }
{
    table.laws();
    let Some(there) = items(alloc, table, form, first)? else {
        return Ok(None);
    };
    let Some(wanted) = items(alloc, table, form, second)? else {
        return Ok(None);
    };
    let holds = is_included(alloc, there.as_slice(), wanted.as_slice())?;
    Ok(Some(truth_value(table, holds)))
}

// The list itself, where the term spells one.
fn itself(table: &Table, form: &Spelling, list: Id) -> Option<Id>
    requires { IsOver table.now form.now list }
    ensures { GivesTree table.now result (put_in table.now form.now [] list) }
{
    if length_of(table, form, list).is_none() {
        return None;
    }
    Some(list)
}

// The items before those of a list.
fn put_items(
    table: &mut Table,
    form: &Spelling,
    items: &[Id],
    list: Id,
) -> Result<Option<Id>, TermRefused>
    requires items { All (λ i. i < length table.old.trees) items.now }
    requires list { IsOver table.old form.now list }
    ensures gives { GivesList table.new result (put_in table.old form.now items.now list) }
    ensures grows { Grows table.old table.new }
{
    if length_of(table, form, list).is_none() {
        return Ok(None);
    }
    let made = build(table, form.fun, list, items);
    answer(made)
}

// The item at the place that the term gives.
fn item_at(table: &Table, items: &[Id], place: Id) -> Option<Id>
    requires items { All (λ i. i < length table.now.trees) items.now }
    requires place { place < length table.now.trees }
    ensures { GivesTree table.now result (item_at (tree_in table.now place) (trees_in table.now items.now)) }
{
    let Node::Num(n) = table.node(place) else {
        return None;
    };
    let n = usize::try_from(n).ok()?;
    items.get(n).copied()
}

// The term of a count.
fn count(table: &mut Table, n: usize) -> Result<Option<Id>, TermRefused>
    ensures gives { GivesList table.new result (Some (Num (pos n))) }
    ensures grows { Grows table.old table.new }
{
    number(table, n as i128)
}

// The constant of a truth value.
fn truth_value(table: &Table, value: bool) -> Id
    ensures { IsTerm table.now (truth value) result }
{
    table.laws();
    if value { TRUE } else { FALSE }
}

// The term of a number.
fn number(table: &mut Table, value: i128) -> Result<Option<Id>, TermRefused>
    ensures gives { GivesList table.new result (Some (Num value)) }
    ensures grows { Grows table.old table.new }
{
    let id = table.intern_low(Node::Num(value))?;
    Ok(Some(id))
}

/// A term that was made is the value.
pub(crate) fn answer(made: Result<Id, TermRefused>) -> Result<Option<Id>, TermRefused>
    ensures { (t : Terms) (u : Tree) → Builds t made u → GivesList t result (Some u) }
{
    Ok(Some(made?))
}
