//! Terms that are carried and freed.
ghost use Rattle.std.specs.Prelude.{◌≡◌, ◌<◌, [], ◌∷◌, length, All, Contains, IfOk, OnOk};
ghost use Rattle.eo_session.specs.Deciding.{EntryIsThere, MayDeclare};
ghost use Rattle.eo_session.specs.Store.{state_of, next_constant, IsConsistent, IsSettled, Leaves, Carries, Keeps};
ghost use Rattle.eo_reclaim.specs.Trees.{constant_trees, macro_trees, program_trees, rule_trees};
ghost use Rattle.eo_session.specs.Roots.{live_count, own_trees};
ghost use Rattle.eo_sig.specs.Reading.{constants_of, read_constant, read_entry, read_macro, read_program, read_rule};
ghost use Rattle.eo_sig.specs.Reading.{ConstBelow, MacroBelow, ProgramBelow, RuleBelow};
ghost use Rattle.eo_term.specs.Growth.{IsTerm};

use crate::store::Store;
use eo_reclaim::{
    IdQueue, move_constant, move_macro, move_program, move_rule, push_constant, push_macro,
    push_program, push_rule,
};
use eo_sig::{ConstDecl, Declared, MacroDecl, ProgramDecl, RuleDecl, growth_law};
use eo_term::{Id, Node, TermRefused, equality_law};
use std::alloc::AllocError;

impl Store {
    /// Frees what a command made, except what is kept.
    pub(crate) fn release(&mut self)
        requires { IsConsistent self.old }
        ensures settled { IsSettled self.new }
        ensures same { state_of self.new ≡ state_of self.old }
        ensures signature { self.new.signature ≡ self.old.signature }
    {
        growth_law();
        self.types.forget(self.kept);
        self.table.release(self.kept);
        self.types.laws();
    }

    /// How many terms are alive.
    pub(crate) fn live(&self) -> usize
        requires { IsConsistent self.now }
        ensures { result ≡ live_count (state_of self.now) }
    {
        equality_law();
        growth_law();
        self.table.laws();
        self.kept.terms()
    }

    /// A law: where all terms are alive, the table has as many as are.
    pub(crate) fn alive_law(&self)
        requires { IsSettled self.now }
        ensures { length self.now.table.trees ≡ live_count (state_of self.now) }
    {
        equality_law();
        growth_law();
        self.table.laws();
    }

    /// Frees what a command made, except some terms, whose numbers are replaced by new ones.
    pub(crate) fn carry(&mut self, ids: &mut [Id]) -> Result<(), AllocError>
        requires whole { IsConsistent self.old }
        requires live { All (λ i. i < length self.old.table.trees) ids.old }
        ensures { OnOk result (Carries self.old ids.old ids.new self.new) }
    {
        growth_law();
        self.table.carry_all(self.kept, ids)?;
        self.types.forget(self.kept);
        self.types.laws();
        Ok(())
    }

    /// Frees what a command made, except one term, and returns its new number.
    pub(crate) fn carry_one(&mut self, id: Id) -> Result<Id, AllocError>
        requires whole { IsConsistent self.old }
        requires live { id < length self.old.table.trees }
        ensures { IfOk result (λ i. Carries self.old (id ∷ []) (i ∷ []) self.new) }
    {
        let mut ids = [id];
        self.carry(&mut ids)?;
        Ok(ids[0])
    }

    /// Frees what a command made, except the terms of a list, and hands them out by their new
    /// numbers.
    pub(crate) fn carry_list(&mut self, mut ids: Vec<Id>) -> Result<IdQueue, AllocError>
        requires whole { IsConsistent self.old }
        requires live { All (λ i. i < length self.old.table.trees) ids.items }
        ensures { IfOk result (λ left. Carries self.old ids.items left self.new) }
    {
        self.carry(ids.as_mut_slice())?;
        Ok(IdQueue::new(ids))
    }

    /// Frees what a command made, except the terms of a declaration, among them a constant
    /// itself, and hands the declaration out with their new numbers.
    pub(crate) fn carried_entry(&mut self, d: Declared) -> Result<Declared, AllocError>
        requires whole { IsConsistent self.old }
        requires may { MayDeclare self.old d }
        ensures leaves { OnOk result (Leaves self.old
            (own_trees (length (constants_of self.old.signature)) (read_entry self.old.table.trees d)) self.new) }
        ensures read { IfOk result (λ e. read_entry self.new.table.trees e ≡ read_entry self.old.table.trees d) }
        ensures may { IfOk result (MayDeclare self.new) }
        ensures itself { IfOk result (EntryIsThere self.new) }
    {
        match d {
            Declared::Const(mut d, counts) => {
                self.carry_constant(&mut d)?;
                Ok(Declared::Const(d, counts))
            }
            Declared::Program(mut d) => {
                self.carry_program(&mut d)?;
                Ok(Declared::Program(d))
            }
            Declared::Rule(mut d) => {
                self.carry_rule(&mut d)?;
                Ok(Declared::Rule(d))
            }
            Declared::Literal { class, ty } => {
                let ty = self.carry_one(ty)?;
                Ok(Declared::Literal { class, ty })
            }
        }
    }

    // Frees what a command made, except the terms of a constant, and the next constant.
    fn carry_constant(&mut self, d: &mut ConstDecl) -> Result<(), AllocError>
        requires whole { IsConsistent self.old }
        requires below { ConstBelow (length self.old.table.trees) d.old }
        ensures leaves { OnOk result (Leaves self.old
            (next_constant self.old ∷ constant_trees (read_constant self.old.table.trees d.old)) self.new) }
        ensures read { OnOk result (read_constant self.new.table.trees d.new ≡ read_constant self.old.table.trees d.old) }
        ensures below { OnOk result (ConstBelow (length self.new.table.trees) d.new) }
        ensures itself { OnOk result (Contains self.new.table.trees (next_constant self.old)) }
    {
        d.laws();
        let constant = self.next_constant()?;
        let mut ids = Vec::new(self.alloc);
        ids.push(constant)?;
        push_constant(d, &mut ids)?;
        let mut left = self.carry_list(ids)?;
        left.next();
        move_constant(self.alloc, d, &mut left)?;
        Ok(())
    }

    /// Frees what a command made, except the terms of a macro.
    pub(crate) fn carry_macro(&mut self, d: &mut MacroDecl) -> Result<(), AllocError>
        requires whole { IsConsistent self.old }
        requires below { MacroBelow (length self.old.table.trees) d.old }
        ensures leaves { OnOk result (Leaves self.old (macro_trees (read_macro self.old.table.trees d.old)) self.new) }
        ensures read { OnOk result (read_macro self.new.table.trees d.new ≡ read_macro self.old.table.trees d.old) }
        ensures below { OnOk result (MacroBelow (length self.new.table.trees) d.new) }
    {
        let mut ids = Vec::new(self.alloc);
        push_macro(d, &mut ids)?;
        let mut left = self.carry_list(ids)?;
        move_macro(self.alloc, d, &mut left)?;
        Ok(())
    }

    // Frees what a command made, except the terms of a program.
    fn carry_program(&mut self, d: &mut ProgramDecl) -> Result<(), AllocError>
        requires whole { IsConsistent self.old }
        requires below { ProgramBelow (length self.old.table.trees) d.old }
        ensures leaves { OnOk result (Leaves self.old (program_trees (read_program self.old.table.trees d.old)) self.new) }
        ensures read { OnOk result (read_program self.new.table.trees d.new ≡ read_program self.old.table.trees d.old) }
        ensures below { OnOk result (ProgramBelow (length self.new.table.trees) d.new) }
    {
        let mut ids = Vec::new(self.alloc);
        push_program(d, &mut ids)?;
        let mut left = self.carry_list(ids)?;
        move_program(self.alloc, d, &mut left)?;
        Ok(())
    }

    // Frees what a command made, except the terms of a rule.
    fn carry_rule(&mut self, d: &mut RuleDecl) -> Result<(), AllocError>
        requires whole { IsConsistent self.old }
        requires below { RuleBelow (length self.old.table.trees) d.old }
        ensures leaves { OnOk result (Leaves self.old (rule_trees (read_rule self.old.table.trees d.old)) self.new) }
        ensures read { OnOk result (read_rule self.new.table.trees d.new ≡ read_rule self.old.table.trees d.old) }
        ensures below { OnOk result (RuleBelow (length self.new.table.trees) d.new) }
    {
        let mut ids = Vec::new(self.alloc);
        push_rule(d, &mut ids)?;
        let mut left = self.carry_list(ids)?;
        move_rule(self.alloc, d, &mut left)?;
        Ok(())
    }

    // The term of the constant that is declared next.
    fn next_constant(&mut self) -> Result<Id, AllocError>
        requires { IsConsistent self.old }
        ensures term { IfOk result (IsTerm self.new.table (next_constant self.old)) }
        ensures keeps { Keeps self.old self.new }
    {
        growth_law();
        let number = self.signature.constants();
        match self.table.intern(Node::Con(number)) {
            Ok(id) => Ok(id),
            Err(TermRefused::Memory(e)) => Err(e),
            Err(TermRefused::Tall) => unreachable!(),
        }
    }
}
