//! The names that the place of a term gives a meaning: parameters, and what `let` and binders
//! bind.
ghost use Rattle.std.specs.Prelude.{◌≡◌, ℕ, ◌<◌, List, [], ◌∷◌, ◌++◌, map, take, length, false, ◌&&◌};
ghost use Rattle.std.specs.Prelude.{IfOk, IfSome, OnOk, OnErr, Some, bytes_eq, option_map, slice_get};
ghost use Rattle.std.specs.List.{list_any};
ghost use Rattle.eo_term.specs.Tree.{Tree, tree_eq};
ghost use Rattle.eo_term.specs.Terms.{tree_at};
ghost use Rattle.eo_names.specs.Contexts.{local_named, is_list};
ghost use Rattle.eo_names.specs.Names.{local, read_locals, AreBelow, names_in, with_term, with_terms, ReadsOneMore};
ghost use Rattle.eo_names.specs.Names.{read_pairs};

use eo_base::{Name, NameRef};
use eo_term::{Id, Ids, Node, Table};
use indexmap::IndexMap;
use std::alloc::{AllocError, Global};
use std::hash::{BuildHasherDefault, DefaultHasher};
use std::marker::Model;

/// A name that means a term.
#[derive(Debug, Drop)]
pub struct LocalName {
    /// The name, of any bytes.
    pub name: Name,
    /// The term.
    pub id: Id,
    /// Whether the term represents a list of arguments.
    pub list: bool,
}

impl LocalName {
    // Whether it means this term, and a list of arguments.
    fn is_list_at(&self, table: &Table, id: Id) -> bool
        requires own { self.now.id < length table.now.trees }
        requires live { id < length table.now.trees }
        ensures { result ≡ (self.now.list && tree_eq (tree_at table.now.trees self.now.id) (tree_at table.now.trees id)) }
    {
        if !self.list {
            return false;
        }
        table.is_same(self.id, id)
    }
}

/// The local names of a term, such as the parameters of a declaration. The name added last hides
/// those before it.
///
/// Adding and looking up take time in proportion to how many names there are: a declaration has at
/// most 64.
#[derive(Drop)]
pub struct Locals {
    alloc: Global,
    // The name added last comes first.
    names: Vec<LocalName>,
}

impl Model for Locals {
    ghost use Rattle.std.specs.Prelude.{List};
    ghost use Rattle.eo_names.specs.declared.locals.LocalName.{LocalName};

    ghost Value = { List LocalName };

    ghost view = { λ a. a.names.items };
}

impl Locals {
    /// No names. It takes no memory yet.
    pub fn new(alloc: Global) -> Locals
        ensures { result ≡ [] }
    {
        Locals {
            alloc,
            names: Vec::new(alloc),
        }
    }

    /// Adds a name for a term, before all others. Where `list` is set, the term represents a list
    /// of arguments. `Err`: out of memory, and the names stay as they are.
    pub fn add(&mut self, name: &[u8], id: Id, list: bool) -> Result<(), AllocError>
        ensures added { OnOk result (self.new ≡ local name.now id list ∷ self.old) }
        ensures err { OnErr result (self.new ≡ self.old) }
    {
        let name = Name::new(self.alloc, name)?;
        self.names.insert(0, LocalName { name, id, list })?;
        Ok(())
    }

    /// The term that the name means.
    pub(crate) fn find(&self, name: &[u8]) -> Option<Id>
        ensures value { (ts : List Tree) → option_map (tree_at ts) result ≡ local_named (read_locals ts self.now) name.now }
        ensures live { (n : ℕ) → AreBelow n self.now → IfSome result (λ i. i < n) }
    {
        for local in &self.names {
            if local.name.as_bytes() == name {
                return Some(local.id);
            }
        }
        None
    }

    /// Whether the term is a parameter that represents a list of arguments.
    pub(crate) fn is_list(&self, table: &Table, id: Id) -> bool
        requires live { id < length table.now.trees }
        requires below { AreBelow (length table.now.trees) self.now }
        ensures { result ≡ is_list (read_locals table.now.trees self.now) (tree_at table.now.trees id) }
    {
        match table.node(id) {
            Node::Par(_) => self.has_list(table, id),
            _ => false,
        }
    }

    // Whether a name that represents a list of arguments means this term.
    fn has_list(&self, table: &Table, id: Id) -> bool
        requires live { id < length table.now.trees }
        requires below { AreBelow (length table.now.trees) self.now }
        ensures { result ≡ list_any (λ l. l.list && tree_eq l.tree (tree_at table.now.trees id)) (read_locals table.now.trees self.now) }
    {
        for local in &self.names {
            if local.is_list_at(table, id) {
                return true;
            }
        }
        false
    }
}

/// What a `let` or a binder binds, in order, no name twice. A name is found by its hash, which is
/// SipHash, since a file chooses the names.
#[derive(Drop)]
pub struct Bindings {
    alloc: Global,
    names: IndexMap<Name, Id, BuildHasherDefault<DefaultHasher>>,
}

impl Model for Bindings {
    ghost use Rattle.std.specs.Prelude.{ℕ, List};

    ghost Value = { List (List ℕ × ℕ) };

    ghost view = { λ a. a.names.entries };
}

impl Bindings {
    /// No names.
    pub fn new(alloc: Global) -> Bindings
        ensures { result ≡ [] }
    {
        Bindings {
            alloc,
            names: IndexMap::with_hasher(alloc, BuildHasherDefault::new()),
        }
    }

    /// Whether the name is bound.
    pub fn contains(&self, name: &[u8]) -> bool
        ensures bound { result ≡ names_in self.now name.now }
        ensures read { (ts : List Tree) → result ≡ list_any (λ p. bytes_eq p.0 name.now) (read_pairs ts self.now) }
    {
        self.names.contains_key(NameRef(name))
    }

    /// The terms, in the order in which their names were bound. `Err`: out of memory.
    pub fn ids(&self) -> Result<Ids, AllocError>
        ensures { IfOk result (λ ids. ids ≡ map (λ b. b.1) self.now) }
    {
        let mut ids = Ids::new(self.alloc);
        for id in self.names.values() {
            ids.push(*id)?;
        }
        Ok(ids)
    }

    /// How many names are bound.
    pub fn len(&self) -> usize
        ensures { result ≡ length self.now }
    {
        self.names.len()
    }

    /// The name that was bound at this place, and its term.
    pub fn get(&self, i: usize) -> (&[u8], Id)
        requires { i < length self.now }
        ensures { slice_get self.now i ≡ Some (result.0.now, result.1) }
    {
        let (name, id) = self.names.get_index(i).unwrap();
        (name.as_bytes(), *id)
    }

    /// Puts another term in the place of the one at this place. The name stays.
    fn set(&mut self, i: usize, id: Id)
        requires { i < length self.old }
        ensures { self.new ≡ with_term self.old i id }
    {
        let at = self.names.get_index_mut(i).unwrap();
        *at = id;
    }

    /// Puts these terms in the places of those that are there, in order. The names stay.
    pub fn set_all(&mut self, ids: &[Id])
        requires { length ids.now ≡ length self.old }
        ensures { self.new ≡ with_terms self.old ids.now }
    {
        for (i, id) in ids.iter().enumerate() {
            self.set(i, *id);
        }
    }

    /// Binds a name that is not bound. `Err`: out of memory, and the names stay as they are.
    pub fn push(&mut self, name: &[u8], id: Id) -> Result<(), AllocError>
        requires { names_in self.old name.now ≡ false }
        ensures pushed { OnOk result (self.new ≡ self.old ++ (name.now, id) ∷ []) }
        ensures reads { OnOk result (ReadsOneMore self.old name.now id self.new) }
        ensures err { OnErr result (self.new ≡ self.old) }
    {
        let key = Name::new(self.alloc, name)?;
        self.names.insert(key, id)?;
        Ok(())
    }

    /// Drops the names after the first n.
    pub fn truncate(&mut self, n: usize)
        ensures { self.new ≡ take n self.old }
    {
        self.names.truncate(n);
    }
}
