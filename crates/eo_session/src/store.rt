//! What a session holds between two commands.
ghost use Rattle.std.specs.Prelude.{◌≡◌, ◌<◌, [], false, not, length, IfOk};
ghost use Rattle.eo_term.specs.Growth.{tree_in};
ghost use Rattle.eo_elab.specs.Meaning.{meaning};
ghost use Rattle.eo_eval.specs.Outcomes.{IsValueOf};
ghost use Rattle.eo_proof.specs.Scopes as proof;
ghost use Rattle.eo_session.specs.Store.{state_of, IsConsistent, Keeps};
ghost use Rattle.eo_sig.specs.Signature.{is_reserved as reserved};
ghost use Rattle.eo_session.specs.State.{context, is_asserted, is_in_scope};
ghost use Rattle.eo_session.specs.Step.{is_free_fact, value, formula};
ghost use Rattle.eo_session.specs.Stepping.{GivesTerm};
ghost use Rattle.eo_session.specs.Using.{asserted_formula};

use crate::Refused;
use eo_base::FaultName;
use eo_elab::{Locals, term};
use eo_eval::Evaluator;
use eo_pattern::Subst;
use eo_proof::Facts;
use eo_reclaim::Marks;
use eo_ref::Reference;
use eo_sexp::Sexp;
use eo_sig::{Signature, is_reserved};
use eo_term::{Id, Mark, Table};
use eo_type::Types;
use std::alloc::Global;

/// The number of the constant `Type`.
pub(crate) const TYPE_CONSTANT: usize = 0;

/// The number of the constant `Bool`.
pub(crate) const BOOL_CONSTANT: usize = 1;

/// What a session holds between two commands. All terms are those of the table.
#[derive(Drop)]
pub(crate) struct Store {
    pub(crate) alloc: Global,
    pub(crate) table: Table,
    pub(crate) signature: Signature,
    /// The types that were found.
    pub(crate) types: Types,
    pub(crate) evaluator: Evaluator,
    /// The assignment by which rules are used.
    pub(crate) subst: Subst,
    /// What the reference file asserts.
    pub(crate) assertions: Reference,
    /// Whether there is a reference file.
    pub(crate) has_reference: bool,
    /// The facts, in scopes.
    pub(crate) facts: Facts,
    /// What was there before each open scope.
    pub(crate) marks: Marks,
    /// The mark of what is kept: the terms before it are exactly those that are alive, and those
    /// after it were made by the current command.
    pub(crate) kept: Mark,
    /// Whether a step used a rule that is marked as unproved.
    pub(crate) sorry: bool,
    /// Whether the proof may declare no rules and programs.
    pub(crate) closed: bool,
    /// How many commands were accepted, as far as it is counted.
    pub(crate) commands: u64,
}

impl Store {
    /// The value of a term, which is a formula that the reference file asserts.
    pub(crate) fn asserted_formula(&mut self, s: &Sexp<'_>) -> Result<Id, Refused>
        requires { IsConsistent self.old }
        ensures gives { GivesTerm self.new result (asserted_formula (state_of self.old) s.now) }
        ensures value { IfOk result (IsValueOf self.new.table) }
        ensures keeps { Keeps self.old self.new }
    {
        let value = self.formula(s)?;
        if !self.has_reference {
            return Err(Refused::Fault(FaultName::NoReference));
        }
        if !self.is_asserted(value) {
            return Err(Refused::Fault(FaultName::NotAsserted));
        }
        Ok(value)
    }

    /// Whether `false` is a fact outside all scopes.
    pub(crate) fn refutes(&self) -> bool
        requires { IsConsistent self.now }
        ensures { result ≡ proof.has_false (state_of self.now).scopes }
    {
        self.table.laws();
        self.facts.has_false()
    }

    /// The number of the command that made the first `false` outside all scopes, if one did.
    pub(crate) fn refutation(&self) -> Option<u64>
        requires { IsConsistent self.now }
        ensures { result ≡ proof.first_false (state_of self.now).scopes }
    {
        self.table.laws();
        self.facts.first_false()
    }

    /// Whether a scope is open.
    pub(crate) fn is_in_scope(&self) -> bool
        ensures { result ≡ is_in_scope (state_of self.now) }
    {
        self.facts.depth() != 0
    }

    /// Whether no fact may get the name: it is reserved, or a fact has it.
    pub(crate) fn is_taken(&self, name: &[u8]) -> bool
        ensures { not result ≡ is_free_fact (state_of self.now) name.now }
    {
        is_reserved(name) || self.has_fact(name)
    }

    // Whether a fact has the name.
    fn has_fact(&self, name: &[u8]) -> bool
        ensures { result ≡ proof.is_live (state_of self.now).scopes name.now }
    {
        match self.facts.find(name) {
            Ok(_) => true,
            Err(_) => false,
        }
    }

    // Whether the reference file asserts the formula.
    fn is_asserted(&self, formula: Id) -> bool
        requires whole { IsConsistent self.now }
        requires live { formula < length self.now.table.trees }
        ensures { result ≡ is_asserted (state_of self.now) (tree_in self.now.table formula) }
    {
        self.table.laws();
        self.assertions.asserts(formula)
    }

    /// The value of a term, which is a formula.
    pub(crate) fn formula(&mut self, s: &Sexp<'_>) -> Result<Id, Refused>
        requires { IsConsistent self.old }
        ensures gives { GivesTerm self.new result (formula (state_of self.old) s.now) }
        ensures value { IfOk result (IsValueOf self.new.table) }
        ensures keeps { Keeps self.old self.new }
    {
        let id = self.elaborate(s)?;
        self.formula_of(id)
    }

    /// The value of what a term means.
    pub(crate) fn value(&mut self, s: &Sexp<'_>) -> Result<Id, Refused>
        requires { IsConsistent self.old }
        ensures gives { GivesTerm self.new result (value (state_of self.old) s.now) }
        ensures value { IfOk result (IsValueOf self.new.table) }
        ensures keeps { Keeps self.old self.new }
    {
        let id = self.elaborate(s)?;
        self.evaluate(id)
    }

    // What a term means.
    #[inline]
    fn elaborate(&mut self, s: &Sexp<'_>) -> Result<Id, Refused>
        requires { IsConsistent self.old }
        ensures gives { GivesTerm self.new result (meaning (context (state_of self.old)) [] s.now) }
        ensures keeps { Keeps self.old self.new }
    {
        let locals = Locals::new(self.alloc);
        let id = term(self.alloc, s, &locals, &self.signature, &mut self.table)?;
        Ok(id)
    }
}
