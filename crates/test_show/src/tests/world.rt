//! Terms, and the signature that declares the first constants alone.
ghost use Rattle.std.specs.Prelude.{ℕ, ◌≡◌, ◌<◌, ◌≤◌, length, true, IfOk};
ghost use Rattle.eo_term.specs.Terms.{PartsBelow, TextsBelow, IsPlain, IsProper, tree_at};
ghost use Rattle.eo_term.specs.Tree.{is_value};
ghost use Rattle.eo_sig.specs.Reading.{IsBelow};

use eo_base::ok_with;
use eo_show::{ShowRefused, ShownBytes, show_term};
use eo_sig::{Signature, growth_law};
use eo_term::{Id, Node, Table, TermRefused};
use std::alloc::{AllocError, Global};
use std::marker::Model;
use std::test::Fail;

/// A table and a signature over it. A call that gets a term of another table fails.
#[derive(Drop)]
pub(super) struct World {
    alloc: Global,
    table: Table,
    sig: Signature,
}

impl Model for World {
    ghost use Rattle.std.specs.Prelude.{ℕ, ◌≤◌, length};
    ghost use Rattle.eo_sig.specs.Reading.{IsBelow};

    ghost Value = { ℕ };

    ghost view = { λ a. length a.table.trees };

    ghost invariant = { λ a. (n : ℕ) → length a.table.trees ≤ n → IsBelow n a.sig };
}

impl World {
    fn first(alloc: Global) -> Result<World, AllocError> {
        let table = first_table(alloc)?;
        let (sig, table) = ok_with(first_signature(alloc), table)?;
        Ok(World { alloc, table, sig })
    }

    /// The function type.
    pub(super) fn arrow(&mut self, from: Id, to: Id) -> Result<Id, Fail> {
        let from = live(&self.table, from)?;
        let to = live(&self.table, to)?;
        Ok(make_term(&mut self.table, Node::Arr { from, to })?)
    }

    /// The constant of this number.
    pub(super) fn constant(&mut self, number: usize) -> Result<Id, Fail> {
        Ok(make_term(&mut self.table, Node::Con(number))?)
    }

    /// Whether the value is shown by these bytes.
    pub(super) fn shows(&self, id: Id, want: &[u8]) -> Result<bool, Fail> {
        match self.show(id)? {
            Some(bytes) => Ok(bytes.as_slice() == want),
            None => Ok(false),
        }
    }

    /// Whether the value has no spelling.
    pub(super) fn is_unprintable(&self, id: Id) -> Result<bool, Fail> {
        Ok(self.show(id)?.is_none())
    }

    // None, where the value has no spelling.
    fn show(&self, id: Id) -> Result<Option<ShownBytes>, Fail> {
        let id = value(&self.table, id)?;
        match show_term(self.alloc, &self.sig, &self.table, id) {
            Ok(bytes) => Ok(Some(bytes)),
            Err(ShowRefused::Unprintable) => Ok(None),
            Err(ShowRefused::Memory(e)) => Err(Fail::from(e)),
        }
    }
}

/// What a function returns for a new world. It alone owns one: each exit of a function that does is
/// expensive to prove.
pub(super) fn tell<T, F: FnOnce(&mut World) -> Result<T, Fail>>(
    alloc: Global,
    f: F,
) -> Result<T, Fail>
    requires { F.IsAlwaysCallable f }
{
    let mut w = World::first(alloc)?;
    let told = f(&mut w);
    drop(w);
    told
}

// A table with no more than the first terms.
fn first_table(alloc: Global) -> Result<Table, AllocError>
    ensures { IfOk result (λ t. 4 ≤ length t.trees) }
{
    Table::new(alloc)
}

// A signature of which a proof knows only where its terms are.
fn first_signature(alloc: Global) -> Result<Signature, AllocError>
    ensures { IfOk result (λ s. (n : ℕ) → 4 ≤ n → IsBelow n s) }
{
    growth_law();
    Signature::new(alloc)
}

// The term, if it is one of the table.
fn live(table: &Table, id: Id) -> Result<Id, Fail>
    ensures { IfOk result (λ i. i < length table.now.trees) }
{
    if id.place() >= table.len() {
        return Err(Fail::new("no term of the table"));
    }
    Ok(id)
}

// The term, if it is a value of the table.
fn value(table: &Table, id: Id) -> Result<Id, Fail>
    ensures live { IfOk result (λ i. i < length table.now.trees) }
    ensures value { IfOk result (λ i. is_value (tree_at table.now.trees i) ≡ true) }
{
    let id = live(table, id)?;
    if !table.is_value(id) {
        return Err(Fail::new("no value"));
    }
    Ok(id)
}

// The term with this root.
fn make_term(table: &mut Table, node: Node) -> Result<Id, TermRefused>
    requires plain { IsPlain node }
    requires parts { PartsBelow (length table.old.trees) node }
    requires texts { TextsBelow (length table.old.texts) node }
    requires proper { IsProper node }
    ensures more { length table.old.trees ≤ length table.new.trees }
{
    table.intern(node)
}
