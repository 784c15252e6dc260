//! The values and the types of terms.
ghost use Rattle.std.specs.Prelude.{◌<◌, length, IfOk};
ghost use Rattle.eo_eval.specs.Faults.{value_or_fault};
ghost use Rattle.eo_eval.specs.Outcomes.{outcome_of, IsValueOf};
ghost use Rattle.eo_rule.specs.Answers.{GivesTerm as GivesFound};
ghost use Rattle.eo_term.specs.Growth.{tree_in};
ghost use Rattle.eo_session.specs.Store.{state_of, IsConsistent, Keeps};
ghost use Rattle.eo_session.specs.Step.{evaluated, typed, type_value, formula_of};
ghost use Rattle.eo_session.specs.Stepping.{GivesKind, GivesTerm};

use crate::Refused;
use crate::store::{BOOL_CONSTANT, Store, TYPE_CONSTANT};
use eo_base::FaultName;
use eo_rule::{RuleRefused, value_of, value_type};
use eo_term::Id;
use eo_type::is_constant;

impl Store {
    /// The value of a term. Where it has none, the fault says how its evaluation ends.
    pub(crate) fn evaluate(&mut self, id: Id) -> Result<Id, Refused>
        requires whole { IsConsistent self.old }
        requires live { id < length self.old.table.trees }
        ensures gives { GivesTerm self.new result (evaluated (state_of self.old) (tree_in self.old.table id)) }
        ensures value { IfOk result (IsValueOf self.new.table) }
        ensures keeps { Keeps self.old self.new }
    {
        let value = self.value_of(id)?;
        Ok(value)
    }

    /// The value of a type, which is `IllTyped` where the type of the value is not `Type`.
    pub(crate) fn type_value(&mut self, id: Id) -> Result<Id, Refused>
        requires whole { IsConsistent self.old }
        requires live { id < length self.old.table.trees }
        ensures gives { GivesTerm self.new result (type_value (state_of self.old) (tree_in self.old.table id)) }
        ensures value { IfOk result (IsValueOf self.new.table) }
        ensures keeps { Keeps self.old self.new }
    {
        let value = self.evaluate(id)?;
        if !self.has_kind(value, TYPE_CONSTANT)? {
            return Err(Refused::Fault(FaultName::IllTyped));
        }
        Ok(value)
    }

    /// The value of a term, which is `NotBool` where the type of the value is not `Bool`.
    pub(crate) fn formula_of(&mut self, id: Id) -> Result<Id, Refused>
        requires whole { IsConsistent self.old }
        requires live { id < length self.old.table.trees }
        ensures gives { GivesTerm self.new result (formula_of (state_of self.old) (tree_in self.old.table id)) }
        ensures value { IfOk result (IsValueOf self.new.table) }
        ensures keeps { Keeps self.old self.new }
    {
        let value = self.evaluate(id)?;
        if !self.has_kind(value, BOOL_CONSTANT)? {
            return Err(Refused::Fault(FaultName::NotBool));
        }
        Ok(value)
    }

    /// Whether the type of a value is the constant of this number. It is refused where the value
    /// has no type that is a value.
    pub(crate) fn has_kind(&mut self, id: Id, number: usize) -> Result<bool, Refused>
        requires whole { IsConsistent self.old }
        requires live { id < length self.old.table.trees }
        ensures gives { GivesKind number result (typed (state_of self.old) (tree_in self.old.table id)) }
        ensures keeps { Keeps self.old self.new }
    {
        let ty = self.type_of(id)?;
        Ok(is_constant(&self.table, ty, number))
    }

    // The type of a value.
    fn type_of(&mut self, id: Id) -> Result<Id, RuleRefused>
        requires whole { IsConsistent self.old }
        requires live { id < length self.old.table.trees }
        ensures gives { GivesFound self.new.table result (typed (state_of self.old) (tree_in self.old.table id)) }
        ensures keeps { Keeps self.old self.new }
    {
        let ty = value_type(&self.signature, &mut self.table, &mut self.types, id);
        self.types.laws();
        ty
    }

    // The value of a term.
    fn value_of(&mut self, id: Id) -> Result<Id, RuleRefused>
        requires whole { IsConsistent self.old }
        requires live { id < length self.old.table.trees }
        ensures gives { GivesFound self.new.table result (value_or_fault (outcome_of self.old.signature self.old.table id)) }
        ensures value { IfOk result (IsValueOf self.new.table) }
        ensures keeps { Keeps self.old self.new }
    {
        let value = value_of(
            &self.signature,
            &mut self.table,
            &mut self.types,
            &mut self.evaluator,
            id,
        );
        self.types.laws();
        value
    }
}
