//! Lines of contexts, and of what holds in them.
ghost use Rattle.std.specs.Prelude.{◌≡◌, ℕ, ◌<◌, ◌≤◌, ◌&&◌, ◌++◌, [], ◌∷◌, length, IfOk, OnOk, is_some, true};
ghost use Rattle.std.specs.List.{list_any};
ghost use Rattle.eo_term.specs.Growth.{tree_in};
ghost use Rattle.eo_term.specs.Tree.{tree_eq, bool_tree};
ghost use Rattle.eo_cert.specs.Stated as stated;
ghost use Rattle.eo_cert.specs.Stated.{with_context, with_derivation};
ghost use Rattle.eo_cert.specs.Uses.{context_line, cited_line, is_formula, is_typed, inside};
ghost use Rattle.eo_stated.specs.Checking.{stated_of, context_of, IsHeld, Keeps, Does};
ghost use Rattle.eo_type.specs.Known.{type_at};

use crate::checker::{Checker, Context, Derivation};
use crate::refused::LineRefused;
use eo_sig::growth_law;
use eo_term::Id;
use eo_type::{TypeRefused, is_constant};
use std::alloc::AllocError;

/// The number of the constant `Bool`.
const BOOL_CONSTANT: usize = 1;

impl Checker {
    /// States a context inside another one, with an assumption.
    ///
    /// `Bad`: the context or the term is not stated, or the term is no formula.
    pub fn state_context(&mut self, context: u64, term: u64) -> Result<(), LineRefused>
        requires { IsHeld self.old }
        ensures held { OnOk result (IsHeld self.new) }
        ensures does { Does result (context_line (stated_of self.old) context term) self.new }
    {
        let Some(id) = self.term_at(term) else {
            return Err(LineRefused::Bad);
        };
        if !self.has_context(context) {
            return Err(LineRefused::Bad);
        }
        if !self.is_formula(id)? {
            return Err(LineRefused::Bad);
        }
        self.push_context(context as usize, id)?;
        Ok(())
    }

    /// Whether it is a value of type `Bool`.
    pub fn is_formula(&mut self, id: Id) -> Result<bool, AllocError>
        requires held { IsHeld self.old }
        requires live { id < length self.old.table.trees }
        ensures formula { IfOk result (λ b. b
            ≡ is_formula (stated.signature (stated_of self.old)) (tree_in self.old.table id)) }
        ensures keeps { Keeps self.old self.new }
    {
        if !self.table.is_value(id) {
            return Ok(false);
        }
        self.has_type_bool(id)
    }

    // Whether its type is `Bool`.
    fn has_type_bool(&mut self, id: Id) -> Result<bool, AllocError>
        requires held { IsHeld self.old }
        requires live { id < length self.old.table.trees }
        ensures bool { IfOk result (λ b. b
            ≡ is_typed (type_at self.old.signature self.old.table id) (λ u. tree_eq u bool_tree)) }
        ensures keeps { Keeps self.old self.new }
    {
        growth_law();
        let found = self.types.type_of(&self.signature, &mut self.table, id);
        self.types.laws();
        match found {
            Ok(Some(ty)) => Ok(is_constant(&self.table, ty, BOOL_CONSTANT)),
            Ok(None) => Ok(false),
            Err(TypeRefused::NumberRange) => Ok(false),
            Err(TypeRefused::Tall) => Ok(false),
            Err(TypeRefused::Memory(e)) => Err(e),
        }
    }

    /// Whether a context has this number.
    pub fn has_context(&self, number: u64) -> bool
        requires { IsHeld self.now }
        ensures there { result ≡ is_some (stated.context_at (stated_of self.now) number) }
        ensures within { result ≡ true → number ≤ length self.now.contexts.items }
    {
        number as usize <= self.contexts.len()
    }

    /// One context more.
    pub fn push_context(&mut self, outer: usize, assumed: Id) -> Result<(), AllocError>
        requires held { IsHeld self.old }
        requires live { assumed < length self.old.table.trees }
        requires outer { outer ≤ length self.old.contexts.items }
        ensures held { OnOk result (IsHeld self.new) }
        ensures does { OnOk result (stated_of self.new ≡ with_context (stated_of self.old)
            (inside outer (context_of (stated_of self.old).contexts outer) (tree_in self.old.table assumed))) }
    {
        self.contexts.push(Context { outer, assumed })?;
        Ok(())
    }

    /// States what is asserted, or assumed in a context or around it.
    ///
    /// `Bad`: the context or the term is not stated, or the term is neither asserted nor assumed.
    pub fn state_citation(&mut self, context: u64, term: u64) -> Result<(), LineRefused>
        requires { IsHeld self.old }
        ensures held { OnOk result (IsHeld self.new) }
        ensures does { Does result (cited_line (stated_of self.old) context term) self.new }
    {
        let Some(id) = self.term_at(term) else {
            return Err(LineRefused::Bad);
        };
        if !self.has_context(context) {
            return Err(LineRefused::Bad);
        }
        if !self.is_in_force(context as usize, id) {
            return Err(LineRefused::Bad);
        }
        self.push_derivation(context as usize, id)?;
        Ok(())
    }

    // Whether it is asserted, or assumed in a context or around it.
    fn is_in_force(&self, context: usize, id: Id) -> bool
        requires held { IsHeld self.now }
        requires live { id < length self.now.table.trees }
        requires context { context ≤ length self.now.contexts.items }
        ensures { result ≡ stated.is_in_force (stated_of self.now)
            (context_of (stated_of self.now).contexts context) (tree_in self.now.table id) }
    {
        let assumed = self.is_assumed(context, id);
        let asserted = self.is_asserted(id);
        assumed | asserted
    }

    // Whether it is assumed in a context or around it.
    fn is_assumed(&self, context: usize, id: Id) -> bool
        requires held { IsHeld self.now }
        requires live { id < length self.now.table.trees }
        requires context { context ≤ length self.now.contexts.items }
        ensures { result ≡ list_any (tree_eq (tree_in self.now.table id))
            (context_of (stated_of self.now).contexts context).assumed }
    {
        let mut at = context;
        while at > 0 {
            let inner = self.inner_at(at);
            if self.table.is_same(id, inner.assumed) {
                return true;
            }
            at = inner.outer;
        }
        false
    }

    // The context with this number, which is not the outermost one.
    fn inner_at(&self, at: usize) -> Context
        requires held { IsHeld self.now }
        requires inner { 0 < at }
        requires context { at ≤ length self.now.contexts.items }
        ensures inside { context_of (stated_of self.now).contexts at
            ≡ inside result.outer (context_of (stated_of self.now).contexts result.outer) (tree_in self.now.table result.assumed) }
        ensures outer { result.outer < at }
        ensures live { result.assumed < length self.now.table.trees }
    {
        let inner = self.contexts[at - 1];
        inner
    }

    // Whether it is asserted.
    fn is_asserted(&self, id: Id) -> bool
        requires held { IsHeld self.now }
        requires live { id < length self.now.table.trees }
        ensures { result ≡ list_any (tree_eq (tree_in self.now.table id)) (stated.assertions (stated_of self.now)) }
    {
        self.table.laws();
        self.assertions.asserts(id)
    }

    /// One derivation more.
    pub fn push_derivation(&mut self, context: usize, formula: Id) -> Result<(), AllocError>
        requires held { IsHeld self.old }
        requires live { formula < length self.old.table.trees }
        ensures held { OnOk result (IsHeld self.new) }
        ensures does { OnOk result (stated_of self.new
            ≡ with_derivation (stated_of self.old) context (tree_in self.old.table formula)) }
    {
        self.derivations.push(Derivation { context, formula })?;
        Ok(())
    }

    /// Whether what holds in a context holds in this one, which is the same or inside it.
    pub fn reaches(&self, context: usize, other: usize) -> bool
        requires held { IsHeld self.now }
        requires context { context ≤ length self.now.contexts.items }
        ensures { result ≡ stated.reaches context (context_of (stated_of self.now).contexts context) other }
    {
        let mut at = context;
        while at > 0 {
            if other == at {
                return true;
            }
            let inner = self.inner_at(at);
            at = inner.outer;
        }
        other == 0
    }
}
