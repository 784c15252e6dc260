//! Steps, which add what a rule concludes to the facts.
ghost use Rattle.std.specs.Prelude.{◌≡◌, ◌<◌, length, Some, IfOk, option_map};
ghost use Rattle.eo_eval.specs.Outcomes.{IsValueOf};
ghost use Rattle.eo_rule.specs.Answers.{GivesTerm as GivesConclusion};
ghost use Rattle.eo_rule.specs.Reading.{AreValuesIn, UseBelow, conclusion_in, read_use};
ghost use Rattle.eo_shape.specs.Reading.{read_step};
ghost use Rattle.eo_sig.specs.Reading.{rules_of};
ghost use Rattle.eo_term.specs.Growth.{tree_in};
ghost use Rattle.eo_session.specs.Store.{state_of, IsConsistent, Keeps};
ghost use Rattle.eo_session.specs.Step as step;
ghost use Rattle.eo_session.specs.Step.{is_free_outer_fact};
ghost use Rattle.eo_session.specs.Using.{MayDischarge, GivesConcluded, concluded_from};

use crate::Refused;
use crate::store::Store;
use eo_base::FaultName;
use eo_rule::{RuleRefused, RuleUse, conclude};
use eo_shape::StepShape;
use eo_sig::is_reserved;
use eo_term::Id;

/// What a rule concludes.
#[derive(Clone, Copy)]
pub(crate) struct Conclusion {
    /// The formula.
    pub(crate) formula: Id,
    /// Whether the rule is marked as unproved.
    pub(crate) sorry: bool,
}

impl Store {
    /// Whether a fact may get the name once the innermost scope is closed: it is not reserved, and
    /// no fact outside has it.
    pub(crate) fn is_free_outside(&self, name: &[u8]) -> bool
        ensures { result ≡ is_free_outer_fact (state_of self.now) name.now }
    {
        !is_reserved(name) && self.facts.is_free_outside(name)
    }

    /// What a step's rule concludes, from the assumption that it discharges, if it does.
    pub(crate) fn conclude_step(
        &mut self,
        assumed: Option<Id>,
        shape: &StepShape<'_>,
    ) -> Result<Conclusion, Refused>
        requires whole { IsConsistent self.old }
        requires assumed { MayDischarge self.old.table assumed }
        ensures gives { GivesConcluded self.new result
            (step.concluded (state_of self.old) (option_map (tree_in self.old.table) assumed) (read_step shape.now)) }
        ensures keeps { Keeps self.old self.new }
    {
        match self.signature.rule(shape.rule) {
            Some(rule) => self.conclude_by_rule(rule, assumed, shape),
            None => Err(Refused::Fault(FaultName::UnknownRule)),
        }
    }

    // What the rule of this number concludes.
    fn conclude_by_rule(
        &mut self,
        rule: usize,
        assumed: Option<Id>,
        shape: &StepShape<'_>,
    ) -> Result<Conclusion, Refused>
        requires whole { IsConsistent self.old }
        requires rule { rule < length (rules_of self.old.signature) }
        requires assumed { MayDischarge self.old.table assumed }
        ensures gives { GivesConcluded self.new result
            (step.concluded_by (state_of self.old) rule (option_map (tree_in self.old.table) assumed) (read_step shape.now)) }
        ensures keeps { Keeps self.old self.new }
    {
        let given = self.use_of(assumed, shape)?;
        self.apply_rule(rule, &given)
    }

    // What the rule of this number concludes from what is given.
    fn apply_rule(&mut self, rule: usize, given: &RuleUse) -> Result<Conclusion, Refused>
        requires whole { IsConsistent self.old }
        requires rule { rule < length (rules_of self.old.signature) }
        requires live { UseBelow (length self.old.table.trees) given.now }
        requires values { AreValuesIn self.old.table given.now }
        ensures gives { GivesConcluded self.new result
            (concluded_from (state_of self.old) rule (read_use self.old.table.trees given.now)) }
        ensures keeps { Keeps self.old self.new }
    {
        let formula = self.conclusion(rule, given)?;
        let sorry = self.signature.rule_of(rule).sorry;
        Ok(Conclusion { formula, sorry })
    }

    // The formula that the rule of this number concludes.
    fn conclusion(&mut self, rule: usize, given: &RuleUse) -> Result<Id, RuleRefused>
        requires whole { IsConsistent self.old }
        requires rule { rule < length (rules_of self.old.signature) }
        requires live { UseBelow (length self.old.table.trees) given.now }
        requires values { AreValuesIn self.old.table given.now }
        ensures gives { GivesConclusion self.new.table result (conclusion_in self.old.signature self.old.table rule given.now) }
        ensures value { IfOk result (IsValueOf self.new.table) }
        ensures keeps { Keeps self.old self.new }
    {
        let formula = conclude(
            self.alloc,
            &self.signature,
            &mut self.table,
            &mut self.types,
            &mut self.evaluator,
            &mut self.subst,
            rule,
            given,
        );
        self.types.laws();
        formula
    }
}
