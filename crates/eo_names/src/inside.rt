//! What each `let` and each binder around a place binds.
ghost use Rattle.std.specs.Prelude.{◌≡◌, ℕ, ◌<◌, List, [], ◌∷◌, drop, OnOk, OnErr, IfSome, option_map};
ghost use Rattle.eo_term.specs.Tree.{Tree};
ghost use Rattle.eo_term.specs.Terms.{tree_at};
ghost use Rattle.eo_names.specs.Contexts.{local_named};
ghost use Rattle.eo_names.specs.Names.{read_locals, AreBelow, bound_by};

use crate::innermost::Innermost;
use crate::locals::Bindings;
use eo_term::Id;
use std::alloc::{AllocError, Global};
use std::marker::Model;

/// What each `let` and each binder around a place binds, the innermost first. Finding a name takes
/// one look-up by its hash, however many they are.
#[derive(Drop)]
pub struct Blocks {
    // The innermost is last.
    list: Vec<Bindings>,
    innermost: Innermost,
}

impl Model for Blocks {
    ghost use Rattle.std.specs.Prelude.{ℕ, List, reverse};
    ghost use Rattle.eo_names.specs.Names.{bound_by};
    ghost use Rattle.eo_names.specs.Innermost.{IsIndex};

    ghost Value = { List (List (List ℕ × ℕ)) };

    ghost view = { λ a. reverse a.list.items };

    ghost invariant = { λ a. IsIndex (bound_by (reverse a.list.items)) a.innermost };
}

impl Blocks {
    /// None. No memory is taken.
    pub fn new(alloc: Global) -> Blocks
        ensures { result ≡ [] }
    {
        Blocks {
            list: Vec::new(alloc),
            innermost: Innermost::new(alloc),
        }
    }

    /// Another one inside of all. `Err`: out of memory, and they stay as they are.
    pub fn push(&mut self, names: Bindings) -> Result<(), AllocError>
        ensures pushed { OnOk result (self.new ≡ names ∷ self.old) }
        ensures err { OnErr result (self.new ≡ self.old) }
    {
        self.list.reserve(1)?;
        self.innermost.enter(&names)?;
        self.list.push_reserved(names);
        Ok(())
    }

    /// Leaves the innermost one.
    pub fn leave(&mut self)
        ensures { self.new ≡ drop 1 self.old }
    {
        if let Some(names) = self.list.pop() {
            self.innermost.leave(&names, 0);
        }
    }

    /// The term that the name means, by the innermost one that binds it.
    pub(crate) fn find(&self, name: &[u8]) -> Option<Id>
        ensures value { (ts : List Tree) → option_map (tree_at ts) result ≡ local_named (read_locals ts (bound_by self.now)) name.now }
        ensures live { (n : ℕ) → AreBelow n (bound_by self.now) → IfSome result (λ i. i < n) }
    {
        self.innermost.find(name)
    }
}
