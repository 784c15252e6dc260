//! What a reference file asserts.
ghost use Rattle.std.specs.Prelude.{◌≡◌, ◌<◌, ◌∷◌, false, map, length, IfOk, OnOk};
ghost use Rattle.eo_elab.specs.Worlds.{named_terms_in};
ghost use Rattle.eo_names.specs.Names.{BindingsBelow};
ghost use Rattle.eo_term.specs.Growth.{tree_in, IsTerm};
ghost use Rattle.eo_session.specs.Asserting.{read_assertion, named_term, GivesAssertion, MayBeName, MayBeNames};
ghost use Rattle.eo_session.specs.Store.{state_of, named_term_trees, IsHeld, IsConsistent, Leaves, Keeps};
ghost use Rattle.eo_session.specs.State.{is_in_scope, with_assertion, with_macro};
ghost use Rattle.eo_session.specs.Step.{named_term_macro, with_named_terms};
ghost use Rattle.eo_session.specs.Deciding.{Decides};
ghost use Rattle.eo_session.specs.Decisions.{assert_effect, asserted_effect};

use crate::Refused;
use crate::effects::Effect;
use crate::store::Store;
use eo_base::{Name, ok_with};
use eo_elab::{Names, named_terms_law};
use eo_reclaim::push_ids;
use eo_ref::{Assertion, read_assertion};
use eo_sexp::Sexp;
use eo_sig::{MacroDecl, Params, SigRefused};
use eo_term::Id;
use std::alloc::{AllocError, Global};

impl Store {
    /// The value of a formula is asserted. Then the names that its terms give themselves are macros of
    /// the reference file.
    pub(crate) fn decide_assert<'c>(&mut self, formula: &Sexp<'_>) -> Result<Effect<'c>, Refused>
        requires whole { IsConsistent self.old }
        requires outside { is_in_scope (state_of self.old) ≡ false }
        ensures decides { Decides self.new result (assert_effect (state_of self.old) formula.now) }
        ensures keeps { Keeps self.old self.new }
    {
        named_terms_law();
        let read = self.read_assertion(formula)?;
        let Assertion { formula, names } = read;
        self.decide_asserted(formula, names)
    }

    // The formula of an assertion, and the names that its terms give themselves.
    fn read_assertion(&mut self, s: &Sexp<'_>) -> Result<Assertion, Refused>
        requires whole { IsConsistent self.old }
        ensures gives { GivesAssertion self.new result (read_assertion (state_of self.old) s.now) }
        ensures keeps { Keeps self.old self.new }
    {
        let read = read_assertion(self.alloc, s, &self.signature, &mut self.table)?;
        Ok(read)
    }

    // The value of a formula is asserted, with names for some of its terms.
    fn decide_asserted<'c>(&mut self, id: Id, names: Names) -> Result<Effect<'c>, Refused>
        requires whole { IsConsistent self.old }
        requires outside { is_in_scope (state_of self.old) ≡ false }
        requires live { id < length self.old.table.trees }
        requires below { BindingsBelow (length self.old.table.trees) names }
        requires new { MayBeNames (state_of self.old) (named_terms_in self.old.table names) }
        ensures decides { Decides self.new result (asserted_effect (state_of self.old) (tree_in self.old.table id)
            (named_terms_in self.old.table names)) }
        ensures keeps { Keeps self.old self.new }
    {
        let (formula, names) = ok_with(self.formula_of(id), names)?;
        Ok(Effect::Assert { formula, names })
    }

    /// Carries a value and the terms of names, which are then those of the carried ones.
    pub(crate) fn carry_named(&mut self, value: Id, names: &mut Names) -> Result<Id, AllocError>
        requires whole { IsConsistent self.old }
        requires live { value < length self.old.table.trees }
        requires below { BindingsBelow (length self.old.table.trees) names.old }
        ensures leaves { OnOk result (Leaves self.old
            (tree_in self.old.table value ∷ named_term_trees (named_terms_in self.old.table names.old)) self.new) }
        ensures value { IfOk result (IsTerm self.new.table (tree_in self.old.table value)) }
        ensures names { OnOk result (named_terms_in self.new.table names.new ≡ named_terms_in self.old.table names.old) }
        ensures below { OnOk result (BindingsBelow (length self.new.table.trees) names.new) }
    {
        let ids = ids_with(self.alloc, value, names)?;
        let mut left = self.carry_list(ids)?;
        let carried = left.next();
        set_terms(names, left.rest());
        Ok(carried)
    }

    /// A value is asserted, and names of terms are macros of the reference file.
    pub(crate) fn put_asserted(&mut self, value: Id, names: &Names) -> Result<(), AllocError>
        requires whole { IsHeld self.old }
        requires live { value < length self.old.table.trees }
        requires below { BindingsBelow (length self.old.table.trees) names.now }
        requires new { MayBeNames (with_assertion (state_of self.old) (tree_in self.old.table value))
            (named_terms_in self.old.table names.now) }
        ensures whole { OnOk result (IsHeld self.new) }
        ensures updates { OnOk result (state_of self.new ≡
            with_named_terms (with_assertion (state_of self.old) (tree_in self.old.table value)) (named_terms_in self.old.table names.now)) }
        ensures table { self.new.table ≡ self.old.table }
        ensures kept { self.new.kept ≡ self.old.kept }
    {
        self.add_assertion(value)?;
        self.add_names(names)
    }

    // A value is asserted.
    fn add_assertion(&mut self, value: Id) -> Result<(), AllocError>
        requires whole { IsHeld self.old }
        requires live { value < length self.old.table.trees }
        ensures whole { OnOk result (IsHeld self.new) }
        ensures updates { OnOk result (state_of self.new ≡ with_assertion (state_of self.old) (tree_in self.old.table value)) }
        ensures table { self.new.table ≡ self.old.table }
        ensures kept { self.new.kept ≡ self.old.kept }
    {
        self.table.laws();
        self.assertions.add(value)?;
        Ok(())
    }

    // Names of terms are macros of the reference file.
    fn add_names(&mut self, names: &Names) -> Result<(), AllocError>
        requires whole { IsHeld self.old }
        requires below { BindingsBelow (length self.old.table.trees) names.now }
        requires new { MayBeNames (state_of self.old) (named_terms_in self.old.table names.now) }
        ensures whole { OnOk result (IsHeld self.new) }
        ensures updates { OnOk result (state_of self.new ≡ with_named_terms (state_of self.old) (named_terms_in self.old.table names.now)) }
        ensures table { self.new.table ≡ self.old.table }
        ensures kept { self.new.kept ≡ self.old.kept }
    {
        for i in 0..names.len() {
            let (name, tree) = names.get(i);
            self.add_name(name, tree)?;
        }
        Ok(())
    }

    // The name of a term is a macro of the reference file.
    fn add_name(&mut self, name: &[u8], tree: Id) -> Result<(), AllocError>
        requires whole { IsHeld self.old }
        requires live { tree < length self.old.table.trees }
        requires new { MayBeName (state_of self.old) (named_term self.old name.now tree) }
        ensures whole { OnOk result (IsHeld self.new) }
        ensures updates { OnOk result (state_of self.new ≡ with_macro (state_of self.old) (named_term_macro
            (named_term self.old name.now tree))) }
        ensures table { self.new.table ≡ self.old.table }
        ensures kept { self.new.kept ≡ self.old.kept }
    {
        prove!(self.signature.is_free(name));
        let d = MacroDecl {
            name: Name::new(self.alloc, name)?,
            params: Params::new(self.alloc),
            tree,
            from_reference: true,
        };
        match self.signature.define(d) {
            Ok(_) => Ok(()),
            Err(SigRefused::Memory(e)) => Err(e),
            Err(_) => unreachable!(),
        }
    }
}

// A term, and then those of names in order.
fn ids_with(alloc: Global, id: Id, names: &Names) -> Result<Vec<Id>, AllocError>
    ensures { IfOk result (λ v. v.items ≡ id ∷ map (λ b. b.1) names.now) }
{
    let terms = names.ids()?;
    let mut ids = Vec::new(alloc);
    ids.push(id)?;
    push_ids(&terms, &mut ids)?;
    Ok(ids)
}

// Puts terms in the places of those of names.
fn set_terms(names: &mut Names, ids: &[Id])
    requires { length ids.now ≡ length names.old }
    ensures names { map (λ b. b.0) names.new ≡ map (λ b. b.0) names.old }
    ensures terms { map (λ b. b.1) names.new ≡ ids.now }
{
    names.set_all(ids);
}
