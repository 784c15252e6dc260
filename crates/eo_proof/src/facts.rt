//! Facts in scopes.
ghost use Rattle.std.specs.Prelude.{◌≡◌, ℕ, ◌<◌, List, ◌∷◌, ◌++◌, [], false, true, not, map, length, None, is_some, option_map};
ghost use Rattle.std.specs.Prelude.{IfOk, IfSome, OnOk, OnErr};
ghost use Rattle.std.specs.Map.{lookup};
ghost use Rattle.std.specs.Str.{bytes_eq};
ghost use Rattle.eo_term.specs.Growth.{IsTable};
ghost use Rattle.eo_term.specs.Terms.{Terms, tree_at};
ghost use Rattle.eo_term.specs.Tree.{Tree};
ghost use Rattle.eo_proof.specs.Kept.{scopes, term_named, command_named, outer_count, innermost, outer_facts};
ghost use Rattle.eo_proof.specs.Kept.{refutation_in, with_named, with_begun, AreBelow, AreBegun};
ghost use Rattle.eo_proof.specs.Outcomes.{Added, Found};
ghost use Rattle.eo_proof.specs.Scopes as scope;
ghost use Rattle.eo_proof.specs.Scopes.{no_facts};

use crate::FactIds;
use crate::named::NamedIds;
use eo_term::{FALSE, Id};
use std::alloc::{AllocError, Global};
use std::marker::Model;

/// Why a fact was not added, or a scope not opened. The facts are then as they were before.
#[derive(Debug, Drop)]
pub enum FactRefused {
    /// A fact has the name.
    Redeclared,
    /// As many scopes are open as may be.
    ScopeDepth,
    /// Out of memory.
    Memory(AllocError),
}

impl From<AllocError> for FactRefused {
    ghost use Rattle.std.specs.Prelude.{◌≡◌};
    ghost use Rattle.eo_proof.specs.declared.facts.FactRefused.TheVariants.{Memory};

    ghost from_gives = { λ e refused. refused ≡ Memory e };

    fn from(e: AllocError) -> FactRefused {
        FactRefused::Memory(e)
    }
}

/// No fact has the name.
#[derive(Clone, Copy, Debug, PartialEq, Eq)]
pub struct UnknownPremise;

/// No scope is open.
#[derive(Clone, Copy, Debug, PartialEq, Eq)]
pub struct NoScope;

/// A scope that is open.
#[derive(Clone, Copy)]
pub(crate) struct Begun {
    /// How many facts were there before it.
    pub(crate) first: usize,
    /// Its assumption.
    pub(crate) hypothesis: Id,
}

/// Formulas by their names, in scopes. Each scope but the outermost begins with an assumption, which
/// is a fact of it. No two facts have the same name.
#[derive(Drop)]
pub struct Facts {
    // Those of all scopes, the oldest first.
    pub(crate) formulas: NamedIds,
    // The open scopes, the innermost last.
    pub(crate) begun: Vec<Begun>,
    // The number of the command that made the first `false` of the outermost scope.
    pub(crate) refutation: Option<u64>,
}

impl Model for Facts {
    ghost use Rattle.eo_proof.specs.Kept.{Kept, kept_of, IsKept};

    ghost Value = { Kept };

    ghost view = { λ a. kept_of a.formulas a.begun.items };

    ghost invariant = { λ a. IsKept (kept_of a.formulas a.begun.items) a.refutation };
}

impl Facts {
    /// No facts, and no scope but the outermost. No memory is taken.
    #[tactic(auto, using(crate::proofs::Reading::first_is))]
    pub fn new(alloc: Global) -> Facts
        ensures none { (ts : List Tree) → scopes ts result ≡ no_facts }
    {
        Facts {
            formulas: NamedIds::new(alloc),
            begun: Vec::new(alloc),
            refutation: None,
        }
    }

    /// Adds a fact to the innermost scope, which no command made: its number is 0.
    ///
    /// `Redeclared`: a fact has the name. `Memory`: out of memory.
    #[tactic(auto, using(crate::proofs::Reading::live_is_named))]
    pub fn add(&mut self, name: &[u8], id: Id) -> Result<(), FactRefused>
        ensures adds { (ts : List Tree) → Added result (scopes ts self.old) name.now (tree_at ts id) (scopes ts self.new) }
        ensures kept { OnOk result (self.new ≡ with_named self.old (name.now, (id, 0))) }
        ensures below { (m : ℕ) → AreBelow m self.old → id < m → AreBelow m self.new }
        ensures same { OnErr result (self.new ≡ self.old) }
    {
        if !self.put(name, id, 0)? {
            return Err(FactRefused::Redeclared);
        }
        Ok(())
    }

    /// Adds a fact to the innermost scope, made by the command of this number, by a name that no fact
    /// has. It is not looked up. `Err`: out of memory, and no fact is added.
    #[tactic(auto, using(crate::proofs::Reading::not_named))]
    pub fn add_free(&mut self, name: &[u8], id: Id, command: u64) -> Result<(), AllocError>
        requires free { (ts : List Tree) → scope.is_live (scopes ts self.old) name.now ≡ false }
        ensures adds { OnOk result ((ts : List Tree) →
            scopes ts self.new ≡ scope.with_fact (scopes ts self.old) name.now (tree_at ts id) command) }
        ensures kept { OnOk result (self.new ≡ with_named self.old (name.now, (id, command))) }
        ensures below { (m : ℕ) → AreBelow m self.old → id < m → AreBelow m self.new }
        ensures same { OnErr result (self.new ≡ self.old) }
    {
        self.put_free(name, id, command)?;
        Ok(())
    }

    /// A law: which names facts have is the same over all lists of trees. The scopes begin within the
    /// facts, and the inner ones after the outer ones.
    #[tactic(auto, using(crate::proofs::Reading::same_names))]
    pub fn laws(&self)
        ensures names { (ts us : List Tree) (name : List ℕ) →
            scope.is_live (scopes ts self.now) name ≡ scope.is_live (scopes us self.now) name }
        ensures begun { AreBegun (length self.now.facts) self.now.begun }
    {
        let _refutation = self.refutation;
    }

    /// The fact with the name, in any scope.
    pub fn find(&self, name: &[u8]) -> Result<Id, UnknownPremise>
        ensures finds { (ts : List Tree) → Found ts result (scope.fact_named (scopes ts self.now) name.now) }
        ensures below { (m : ℕ) → AreBelow m self.now → IfOk result (λ i. i < m) }
    {
        match self.id_named(name) {
            Some(id) => Ok(id),
            None => Err(UnknownPremise),
        }
    }

    /// The number of the command that made the fact with the name, in any scope.
    #[tactic(auto, using(crate::proofs::Reading::number_is))]
    pub fn command(&self, name: &[u8]) -> Option<u64>
        ensures { (ts : List Tree) → result ≡ scope.number_named (scopes ts self.now) name.now }
    {
        self.command_named(name)
    }

    /// Whether no fact outside the innermost scope has the name.
    pub fn is_free_outside(&self, name: &[u8]) -> bool
        ensures { (ts : List Tree) → result ≡ scope.is_free_outside (scopes ts self.now) name.now }
    {
        let outer = self.outer_count();
        match self.formulas.place(name) {
            Some(place) => place >= outer,
            None => true,
        }
    }

    /// The assumption of the innermost scope, if one is open.
    #[tactic(auto, using(crate::proofs::Reading::innermost_is))]
    pub fn hypothesis(&self) -> Option<Id>
        ensures innermost { (ts : List Tree) → option_map (tree_at ts) result ≡ scope.innermost_hypothesis (scopes ts self.now) }
        ensures below { (m : ℕ) → AreBelow m self.now → IfSome result (λ i. i < m) }
    {
        self.innermost()
    }

    /// How many scopes are open, without the outermost.
    #[tactic(auto, using(crate::proofs::Reading::depth_is))]
    pub fn depth(&self) -> usize
        ensures { (ts : List Tree) → result ≡ scope.depth (scopes ts self.now) }
    {
        self.open()
    }

    /// Whether `false` is a fact of the outermost scope.
    pub fn has_false(&self) -> bool
        ensures { (t : Terms) → IsTable t → AreBelow (length t.trees) self.now → result ≡ scope.has_false (scopes t.trees self.now) }
    {
        self.refutation.is_some()
    }

    /// The number of the command that made the first `false` of the outermost scope, if one is there:
    /// 0 for a fact that no command made.
    pub fn first_false(&self) -> Option<u64>
        ensures { (t : Terms) → IsTable t → AreBelow (length t.trees) self.now → result ≡ scope.first_false (scopes t.trees self.now) }
    {
        self.refutation
    }

    /// The formulas of all facts, the oldest first.
    pub fn roots(&self) -> FactIds<'_>
        ensures { (ts : List Tree) → map (tree_at ts) result ≡ scope.formulas (scopes ts self.now) }
    {
        FactIds {
            left: self.formulas.ids(),
        }
    }

    // The term with the name.
    fn id_named(&self, name: &[u8]) -> Option<Id>
        ensures { result ≡ term_named self.now.facts name.now }
    {
        self.formulas.get(name)
    }

    // The number of the command that made the fact with the name.
    fn command_named(&self, name: &[u8]) -> Option<u64>
        ensures { result ≡ command_named self.now.facts name.now }
    {
        self.formulas.command(name)
    }

    // Whether a fact has the name.
    pub(crate) fn has(&self, name: &[u8]) -> bool
        ensures { result ≡ is_some (lookup (bytes_eq name.now) self.now.facts) }
    {
        self.formulas.has(name)
    }

    // How many scopes are open.
    fn open(&self) -> usize
        ensures { result ≡ length self.now.begun }
    {
        self.begun.as_slice().len()
    }

    // The assumption of the innermost scope.
    fn innermost(&self) -> Option<Id>
        ensures { result ≡ innermost self.now }
    {
        match self.begun.last() {
            Some(scope) => Some(scope.hypothesis),
            None => None,
        }
    }

    // How many facts there are outside the innermost scope.
    fn outer_count(&self) -> usize
        ensures { result ≡ outer_count self.now }
    {
        match self.begun.last() {
            Some(scope) => scope.first,
            None => self.formulas.len(),
        }
    }

    // The number of the command that made the first `false` of the outermost scope once this is a fact
    // of the innermost.
    fn refutation_with(&self, id: Id, command: u64) -> Option<u64>
        ensures { (name : List ℕ) →
            result ≡ refutation_in (outer_facts (self.now.facts ++ (name, (id, command)) ∷ []) self.now.begun) }
    {
        let here = (id == FALSE).then_some(command);
        if !self.begun.is_empty() {
            return self.refutation;
        }
        self.refutation.or(here)
    }

    // Adds a fact to the innermost scope, and returns whether no other has the name.
    fn put(&mut self, name: &[u8], id: Id, command: u64) -> Result<bool, AllocError>
        ensures free { IfOk result (λ added. added ≡ not (is_some (lookup (bytes_eq name.now) self.old.facts))) }
        ensures added { IfOk result (λ added. added ≡ true → self.new ≡ with_named self.old (name.now, (id, command))) }
        ensures adds { IfOk result (λ added. added ≡ true →
            (ts : List Tree) → scopes ts self.new ≡ scope.with_fact (scopes ts self.old) name.now (tree_at ts id) command) }
        ensures taken { IfOk result (λ added. added ≡ false → self.new ≡ self.old) }
        ensures same { OnErr result (self.new ≡ self.old) }
    {
        let refutation = self.refutation_with(id, command);
        if !self.formulas.add(name, id, command)? {
            return Ok(false);
        }
        self.refutation = refutation;
        Ok(true)
    }

    // Adds a fact to the innermost scope, by a name that no fact has.
    fn put_free(&mut self, name: &[u8], id: Id, command: u64) -> Result<(), AllocError>
        requires { lookup (bytes_eq name.now) self.old.facts ≡ None }
        ensures added { OnOk result (self.new ≡ with_named self.old (name.now, (id, command))) }
        ensures adds { OnOk result ((ts : List Tree) →
            scopes ts self.new ≡ scope.with_fact (scopes ts self.old) name.now (tree_at ts id) command) }
        ensures same { OnErr result (self.new ≡ self.old) }
    {
        let refutation = self.refutation_with(id, command);
        self.formulas.push(name, id, command)?;
        self.refutation = refutation;
        Ok(())
    }

    // Opens a scope, with an assumption whose name no fact has.
    pub(crate) fn begin(&mut self, name: &[u8], id: Id, command: u64) -> Result<(), AllocError>
        requires { lookup (bytes_eq name.now) self.old.facts ≡ None }
        ensures added { OnOk result (self.new ≡ with_begun self.old (name.now, (id, command))) }
        ensures begins { OnOk result ((ts : List Tree) →
            scopes ts self.new ≡ scope.with_scope (scopes ts self.old) name.now (tree_at ts id) command) }
        ensures same { OnErr result (self.new ≡ self.old) }
    {
        self.begun.reserve(1)?;
        let first = self.formulas.len();
        self.formulas.push(name, id, command)?;
        self.begun.push(Begun {
            first,
            hypothesis: id,
        })?;
        Ok(())
    }
}
