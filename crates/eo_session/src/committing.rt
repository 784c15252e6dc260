//! What is decided of a command is done.
ghost use Rattle.std.specs.Prelude.{◌≡◌, ◌<◌, IfOk, OnOk};
ghost use Rattle.eo_session.specs.Deciding.{read_effect, trees_in, HoldsItself, MayCommit, MayPut};
ghost use Rattle.eo_session.specs.Effects.{added, after, before};
ghost use Rattle.eo_session.specs.Store.{state_of, IsSettled, IsConsistent, HoldsOnly, Leaves};

use crate::effects::Effect;
use crate::steps::Conclusion;
use crate::store::Store;
use eo_reclaim::ScopeMark;
use eo_sig::{SigRefused, growth_law};
use eo_term::equality_law;
use std::alloc::AllocError;

impl Store {
    /// Does what is decided. Of the terms that the command made those are left that the effect adds.
    /// `Err` is out of memory.
    pub(crate) fn commit(&mut self, effect: Effect<'_>) -> Result<(), AllocError>
        requires whole { IsConsistent self.old }
        requires may { MayCommit self.old effect }
        ensures settled { OnOk result (IsSettled self.new) }
        ensures updates { OnOk result (state_of self.new ≡ after (state_of self.old) (read_effect self.old.table effect.entry)) }
    {
        self.close_by(&effect);
        let effect = self.carry_effect(effect)?;
        self.put(effect)
    }

    // Closes the scope that an effect closes, if it closes one.
    fn close_by(&mut self, effect: &Effect<'_>)
        requires whole { IsConsistent self.old }
        requires may { MayCommit self.old effect.now }
        ensures whole { IsConsistent self.new }
        ensures may { MayPut self.new effect.now }
        ensures closed { state_of self.new ≡ before (state_of self.old) (read_effect self.old.table effect.now) }
        ensures table { self.new.table ≡ self.old.table }
    {
        match effect {
            Effect::Add { closes, .. } => {
                if *closes {
                    self.close_scope();
                }
            }
            _ => {}
        }
    }

    // The effect with its terms carried: of what is after the mark, only these and their subtrees stay.
    fn carry_effect<'c>(&mut self, effect: Effect<'c>) -> Result<Effect<'c>, AllocError>
        requires whole { IsConsistent self.old }
        requires may { MayPut self.old effect }
        ensures leaves { OnOk result (Leaves self.old (trees_in self.old effect.entry) self.new) }
        ensures read { IfOk result (λ e. read_effect self.new.table e ≡ read_effect self.old.table effect.entry) }
        ensures may { IfOk result (MayPut self.new) }
        ensures itself { IfOk result (HoldsItself self.new) }
    {
        match effect {
            Effect::Declare(d) => {
                let d = self.carried_entry(d)?;
                Ok(Effect::Declare(d))
            }
            Effect::Define(mut d) => {
                self.carry_macro(&mut d)?;
                Ok(Effect::Define(d))
            }
            Effect::Assert { formula, mut names } => {
                let formula = self.carry_named(formula, &mut names)?;
                Ok(Effect::Assert { formula, names })
            }
            Effect::Open { name, hypothesis } => {
                let hypothesis = self.carry_one(hypothesis)?;
                Ok(Effect::Open { name, hypothesis })
            }
            Effect::Add {
                name,
                conclusion,
                closes,
            } => {
                let formula = self.carry_one(conclusion.formula)?;
                let conclusion = Conclusion {
                    formula,
                    sorry: conclusion.sorry,
                };
                Ok(Effect::Add {
                    name,
                    conclusion,
                    closes,
                })
            }
            Effect::Nothing => {
                self.release();
                Ok(Effect::Nothing)
            }
        }
    }

    // Adds what is carried, which is kept from now on.
    fn put(&mut self, effect: Effect<'_>) -> Result<(), AllocError>
        requires whole { IsConsistent self.old }
        requires may { MayPut self.old effect }
        requires itself { HoldsItself self.old effect }
        requires only { HoldsOnly (trees_in self.old effect) self.old }
        ensures settled { OnOk result (IsSettled self.new) }
        ensures updates { OnOk result (state_of self.new ≡ added (state_of self.old) (read_effect self.old.table effect.entry)) }
    {
        equality_law();
        growth_law();
        self.facts.laws();
        let table = self.kept;
        self.kept = self.table.mark();
        match effect {
            Effect::Declare(d) => {
                self.signature.add(&self.table, d)?;
                Ok(())
            }
            Effect::Define(d) => match self.signature.define(d) {
                Ok(_) => Ok(()),
                Err(SigRefused::Memory(e)) => Err(e),
                Err(_) => unreachable!(),
            },
            Effect::Assert { formula, names } => {
                self.put_asserted(formula, &names)?;
                Ok(())
            }
            Effect::Open { name, hypothesis } => {
                let macros = self.signature.mark();
                self.facts.push_free(name, hypothesis, self.commands)?;
                self.marks.add(ScopeMark { table, macros })?;
                Ok(())
            }
            Effect::Add {
                name,
                conclusion,
                ..
            } => {
                self.facts
                    .add_free(name, conclusion.formula, self.commands)?;
                self.sorry |= conclusion.sorry;
                Ok(())
            }
            Effect::Nothing => Ok(()),
        }
    }
}
