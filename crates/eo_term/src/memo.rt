//! What a walk found for terms.
ghost use Rattle.std.specs.Prelude.{◌≡◌, ℕ, nat_eq, None, Some, OnOk, if◌then◌else◌};
ghost use Rattle.eo_term.specs.Memo.{told};

use crate::Id;
use indexmap::IndexMap;
use std::alloc::{AllocError, Global};
use std::marker::Model;

/// What a walk found for terms, kept so that it visits each term once.
#[derive(Drop)]
pub struct Memo {
    found: IndexMap<Id, Id>,
}

impl Model for Memo {
    ghost use Rattle.std.specs.Prelude.{ℕ, List};

    ghost Value = { List (ℕ × ℕ) };

    ghost view = { λ a. a.found.entries };
}

impl Memo {
    /// Nothing. No memory is taken.
    pub fn new(alloc: Global) -> Memo
        ensures { (k : ℕ) → told result k ≡ None }
    {
        Memo {
            found: IndexMap::new(alloc),
        }
    }

    /// What was found for the term, if anything.
    pub fn get(&self, id: Id) -> Option<Id>
        ensures { result ≡ told self.now id }
    {
        self.found.get(&id).copied()
    }

    /// Keeps what was found for the term. `Err`: out of memory.
    pub fn keep(&mut self, id: Id, found: Id) -> Result<(), AllocError>
        ensures { OnOk result ((k : ℕ) → told self.new k ≡ (if nat_eq id k then Some found else told self.old k)) }
    {
        self.found.insert(id, found)?;
        Ok(())
    }
}
