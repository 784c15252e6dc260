//! What is held between two lines of a certificate.
ghost use Rattle.std.specs.Prelude.{◌≡◌, ℕ, ◌<◌, ◌++◌, [], ◌∷◌, length, option_map, IfSome, OnOk};
ghost use Rattle.eo_term.specs.Growth.{tree_in};
ghost use Rattle.eo_term.specs.Tree.{NoTree};
ghost use Rattle.eo_term.specs.Terms.{tree_of, IsPlain, IsProper, PartsBelow, TextsBelow};
ghost use Rattle.eo_stated.specs.Checking.{read_derivation, is_false, DerivationBelow, stated_of, IsHeld, Keeps, GivesTerm, low};
ghost use Rattle.eo_cert.specs.Stated as stated;
ghost use Rattle.eo_cert.specs.Stated.{with_term};
ghost use Rattle.eo_cert.specs.Recheck.{has_false};
ghost use Rattle.eo_stated.specs.Sizes.{AreFew};

use crate::refused::LineRefused;
use eo_ref::Reference;
use eo_session::Session;
use eo_sig::{Signature, growth_law};
use eo_stack::CallKey;
use eo_term::{Id, Node, Table};
use eo_type::{Types, is_constant};
use indexmap::IndexSet;
use std::alloc::{AllocError, Global};

/// The number of the constant `false`.
const FALSE_CONSTANT: usize = 3;

/// A context inside another one.
#[derive(Clone, Copy)]
pub struct Context {
    /// The number of the context that it is inside of.
    pub outer: usize,
    /// Its assumption.
    pub assumed: Id,
}

/// A formula that is derived in a context.
#[derive(Clone, Copy)]
pub struct Derivation {
    /// The number of the context.
    pub context: usize,
    /// The formula.
    pub formula: Id,
}

/// An evaluation.
#[derive(Clone, Copy)]
pub struct Evaluated {
    /// What is evaluated.
    pub term: Id,
    /// Its value, and none where it is stuck.
    pub outcome: Option<Id>,
    /// How many calls are open at once inside it.
    pub depth: usize,
}

/// What is held between two lines of a certificate. All terms are those of the table, but for those
/// of the session.
#[derive(Drop)]
pub struct Checker {
    /// The memory.
    pub alloc: Global,
    /// What commands declare and assert.
    pub session: Session,
    /// The terms.
    pub table: Table,
    /// What is declared, with terms of the table.
    pub signature: Signature,
    /// The types that were found.
    pub types: Types,
    /// What is asserted, with terms of the table.
    pub assertions: Reference,
    /// The terms that are stated, by their numbers.
    pub terms: Vec<Id>,
    /// The contexts that are stated, of which the first has number 1.
    pub contexts: Vec<Context>,
    /// The derivations that are stated, by their numbers.
    pub derivations: Vec<Derivation>,
    /// The block of evaluations that is begun.
    pub block: Vec<Evaluated>,
    /// The different calls of the block.
    pub calls: IndexSet<CallKey>,
}

impl Checker {
    /// The term that a number names.
    pub fn term_at(&self, number: u64) -> Option<Id>
        requires { IsHeld self.now }
        ensures tree { option_map (tree_in self.now.table) result ≡ stated.term_at (stated_of self.now) number }
        ensures live { IfSome result (λ i. i < length self.now.table.trees) }
    {
        self.terms.get(number as usize).copied()
    }

    /// The term with this root, which is not an operator.
    pub fn intern(&mut self, node: Node) -> Result<Id, LineRefused>
        requires held { IsHeld self.old }
        requires plain { IsPlain node }
        requires parts { PartsBelow (length self.old.table.trees) node }
        requires texts { TextsBelow (length self.old.table.texts) node }
        requires proper { IsProper node }
        ensures gives { GivesTerm self.new.table result
            (low (Some (tree_of self.old.table.trees self.old.table.texts node NoTree))) }
        ensures keeps { Keeps self.old self.new }
    {
        growth_law();
        self.types.laws();
        let id = self.table.intern(node)?;
        Ok(id)
    }

    /// States a term.
    pub fn push_term(&mut self, id: Id) -> Result<(), AllocError>
        requires held { IsHeld self.old }
        requires live { id < length self.old.table.trees }
        ensures held { OnOk result (IsHeld self.new) }
        ensures does { OnOk result (stated_of self.new ≡ with_term (stated_of self.old) (tree_in self.old.table id)) }
    {
        self.terms.push(id)?;
        Ok(())
    }

    /// All that lines name has numbers of 64 bits. A call costs nothing: it tells a proof this fact.
    pub fn sizes(&self)
        requires { IsHeld self.now }
        ensures { AreFew (stated_of self.now) }
    {
        let _terms = self.terms.len();
        let _contexts = self.contexts.len();
        let _derivations = self.derivations.len();
        let _block = self.block.len() + 1;
        let _declared = self.signature.declarations();
    }

    /// Whether `false` is derived outside of all contexts.
    pub fn has_false(&self) -> bool
        requires { IsHeld self.now }
        ensures { result ≡ has_false (stated_of self.now) }
    {
        for derivation in &self.derivations {
            if self.is_false(derivation) {
                return true;
            }
        }
        false
    }

    // Whether it is `false` outside of all contexts.
    fn is_false(&self, derivation: &Derivation) -> bool
        requires { DerivationBelow (length self.now.table.trees) derivation.now }
        ensures { result ≡ is_false (read_derivation self.now.table.trees derivation.now) }
    {
        derivation.context == 0 && is_constant(&self.table, derivation.formula, FALSE_CONSTANT)
    }
}
