//! What each name means by the innermost binding of it.
ghost use Rattle.std.specs.Prelude.{◌≡◌, ◌++◌, ◌≤◌, List, [], drop, length, map, OnOk, OnErr};
ghost use Rattle.eo_names.specs.declared.locals.LocalName.{LocalName};
ghost use Rattle.eo_names.specs.Names.{binding_local};
ghost use Rattle.eo_names.specs.Innermost.{term_in, IsIndex, Binds, Unbinds};

use crate::locals::Bindings;
use eo_base::{Name, NameRef};
use eo_term::Id;
use indexmap::IndexMap;
use std::alloc::{AllocError, Global};
use std::hash::{BuildHasherDefault, DefaultHasher};
use std::marker::Model;

/// What each name means by the innermost binding of it, and what it meant before. A name is
/// found by its hash, which is SipHash, since a file chooses the names.
#[derive(Drop)]
pub(crate) struct Innermost {
    alloc: Global,
    // A name of which all bindings were left has no meaning.
    terms: IndexMap<Name, Option<Id>, BuildHasherDefault<DefaultHasher>>,
    // What the name of each binding meant before it, the innermost last.
    hidden: Vec<Option<Id>>,
}

impl Model for Innermost {
    ghost use Rattle.std.specs.Prelude.{reverse};
    ghost use Rattle.eo_names.specs.Innermost.{Index};

    ghost Value = { Index };

    ghost view = { λ a. record { terms = a.terms.entries; hidden = reverse a.hidden.items } };
}

impl Innermost {
    /// No name means anything. No memory is taken.
    pub(crate) fn new(alloc: Global) -> Innermost
        ensures { IsIndex [] result }
    {
        Innermost {
            alloc,
            terms: IndexMap::with_hasher(alloc, BuildHasherDefault::new()),
            hidden: Vec::new(alloc),
        }
    }

    /// The term that the name means.
    pub(crate) fn find(&self, name: &[u8]) -> Option<Id>
        ensures { result ≡ term_in self.now name.now }
    {
        if self.terms.is_empty() {
            return None;
        }
        self.terms.get(NameRef(name)).copied().flatten()
    }

    /// From here on, inside a block, these names mean its terms. `Err`: out of memory, and all stays
    /// as it is.
    pub(crate) fn enter(&mut self, names: &Bindings) -> Result<(), AllocError>
        ensures entered { (ls : List LocalName) → IsIndex ls self.old → OnOk result (IsIndex (map binding_local names.now ++ ls) self.new) }
        ensures err { (ls : List LocalName) → IsIndex ls self.old → OnErr result (IsIndex ls self.new) }
    {
        let mut left = names.len();
        while left > 0 {
            let (name, id) = names.get(left - 1);
            if let Err(e) = self.bind(name, id) {
                self.leave(names, left);
                return Err(e);
            }
            left -= 1;
        }
        Ok(())
    }

    /// The names from a place on mean again what they meant before.
    pub(crate) fn leave(&mut self, names: &Bindings, from: usize)
        requires { from ≤ length names.now }
        ensures { (ls : List LocalName) → IsIndex (map binding_local (drop from names.now) ++ ls) self.old → IsIndex ls self.new }
    {
        for i in from..names.len() {
            self.unbind(names.get(i).0);
        }
    }

    // Gives the name a term as its meaning. `Err`: out of memory, and all stays as it is.
    fn bind(&mut self, name: &[u8], id: Id) -> Result<(), AllocError>
        ensures bound { OnOk result (Binds self.old name.now id self.new) }
        ensures err { OnErr result (self.new ≡ self.old) }
    {
        self.hidden.reserve(1)?;
        let key = Name::new(self.alloc, name)?;
        let before = self.terms.insert(key, Some(id))?;
        self.hidden.push_reserved(before.flatten());
        Ok(())
    }

    // Gives the name back the meaning that was hidden last.
    fn unbind(&mut self, name: &[u8])
        ensures { Unbinds self.old name.now self.new }
    {
        let before = self.hidden.pop().flatten();
        if let Some(term) = self.terms.get_mut(NameRef(name)) {
            *term = before;
        }
    }
}
