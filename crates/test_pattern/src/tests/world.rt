//! A table that a test holds.
ghost use Rattle.std.specs.Prelude.{◌<◌, length, IfOk};
ghost use Rattle.eo_pattern.specs.Slots.{AreBelow};

use eo_pattern::{Subst, match_terms, substitute};
use eo_term::{Id, Node, Table, TermRefused};
use std::alloc::{AllocError, Global};
use std::marker::Model;
use std::test::Fail;

/// A table of terms.
///
/// A call that gets a term of another table fails.
#[derive(Drop)]
pub(super) struct World {
    alloc: Global,
    table: Table,
}

impl Model for World {
    ghost use Rattle.std.specs.Prelude.{ℕ, length};

    ghost Value = { ℕ };

    ghost view = { λ a. length a.table.trees };
}

impl World {
    /// A table with no more than the first terms.
    pub(super) fn new(alloc: Global) -> Result<World, Fail> {
        Ok(World {
            alloc,
            table: Table::new(alloc)?,
        })
    }

    /// A parameter, by its number.
    pub(super) fn par(&mut self, number: u8) -> Result<Id, Fail> {
        if number >= 64 {
            return Err(Fail::new("no parameter"));
        }
        Ok(self.table.intern(Node::Par(number))?)
    }

    /// A number.
    pub(super) fn num(&mut self, number: i128) -> Result<Id, Fail> {
        Ok(self.table.intern(Node::Num(number))?)
    }

    /// A term applied to another.
    pub(super) fn app(&mut self, fun: Id, arg: Id) -> Result<Id, Fail> {
        let fun = live(&self.table, fun)?;
        let arg = live(&self.table, arg)?;
        Ok(self.table.intern(Node::App { fun, arg })?)
    }

    /// Whether the pattern, taken twice, matches two terms, and the value that the parameter 0 then
    /// has.
    pub(super) fn match_twice(
        &self,
        pattern: Id,
        first: Id,
        second: Id,
    ) -> Result<(bool, Option<Id>), Fail> {
        let pattern = live(&self.table, pattern)?;
        let first = live(&self.table, first)?;
        let second = live(&self.table, second)?;
        Ok(match_twice(self.alloc, &self.table, pattern, first, second)?)
    }

    /// What the pattern becomes with what its match with the term gives, if it matches.
    pub(super) fn match_and_put(&mut self, pattern: Id, term: Id) -> Result<Option<Id>, Fail> {
        let pattern = live(&self.table, pattern)?;
        let term = live(&self.table, term)?;
        Ok(match_and_put(self.alloc, &mut self.table, pattern, term)?)
    }

    /// The term with the other term for the parameter 0.
    pub(super) fn put_in(&mut self, term: Id, value: Id) -> Result<Result<Id, TermRefused>, Fail> {
        let term = live(&self.table, term)?;
        let value = live(&self.table, value)?;
        Ok(put_in(self.alloc, &mut self.table, term, value))
    }
}

// The term, if it is one of the table.
fn live(table: &Table, id: Id) -> Result<Id, Fail>
    ensures { IfOk result (λ i. i < length table.now.trees) }
{
    if id.place() >= table.len() {
        return Err(Fail::new("no term of the table"));
    }
    Ok(id)
}

// This and what else makes an assignment owns it alone, and drops it by a call: each way out of
// a function that lets go of it by itself is expensive to prove.
fn match_twice(
    alloc: Global,
    table: &Table,
    pattern: Id,
    first: Id,
    second: Id,
) -> Result<(bool, Option<Id>), AllocError>
    requires pattern { pattern < length table.now.trees }
    requires first { first < length table.now.trees }
    requires second { second < length table.now.trees }
{
    let mut subst = Subst::new(alloc);
    let matched = match_twice_in(table, &mut subst, pattern, first, second);
    drop(subst);
    matched
}

fn match_twice_in(
    table: &Table,
    subst: &mut Subst,
    pattern: Id,
    first: Id,
    second: Id,
) -> Result<(bool, Option<Id>), AllocError>
    requires pattern { pattern < length table.now.trees }
    requires first { first < length table.now.trees }
    requires second { second < length table.now.trees }
    requires subst { AreBelow (length table.now.trees) subst.old }
{
    subst.reserve_for(table, pattern)?;
    let matches = match_terms(table, &[pattern, pattern], &[first, second], subst);
    Ok((matches, subst.get(0)))
}

fn match_and_put(
    alloc: Global,
    table: &mut Table,
    pattern: Id,
    term: Id,
) -> Result<Option<Id>, TermRefused>
    requires pattern { pattern < length table.old.trees }
    requires term { term < length table.old.trees }
{
    let mut subst = Subst::new(alloc);
    let made = match_and_put_in(table, &mut subst, pattern, term);
    drop(subst);
    made
}

fn match_and_put_in(
    table: &mut Table,
    subst: &mut Subst,
    pattern: Id,
    term: Id,
) -> Result<Option<Id>, TermRefused>
    requires pattern { pattern < length table.old.trees }
    requires term { term < length table.old.trees }
    requires subst { AreBelow (length table.old.trees) subst.old }
{
    subst.reserve_for(table, pattern)?;
    if match_terms(table, &[pattern], &[term], subst) {
        Ok(Some(substitute(table, subst, pattern)?))
    } else {
        Ok(None)
    }
}

fn put_in(alloc: Global, table: &mut Table, term: Id, value: Id) -> Result<Id, TermRefused>
    requires term { term < length table.old.trees }
    requires value { value < length table.old.trees }
{
    let mut subst = Subst::new(alloc);
    let made = put_value_in(table, &mut subst, term, value);
    drop(subst);
    made
}

fn put_value_in(
    table: &mut Table,
    subst: &mut Subst,
    term: Id,
    value: Id,
) -> Result<Id, TermRefused>
    requires term { term < length table.old.trees }
    requires value { value < length table.old.trees }
    requires subst { AreBelow (length table.old.trees) subst.old }
{
    subst.reserve(1, 0)?;
    subst.put(0, value);
    substitute(table, subst, term)
}
