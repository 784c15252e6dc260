//! What a rule is used on.
ghost use Rattle.std.specs.Prelude.{◌≡◌, true, IfOk, option_map};
ghost use Rattle.eo_base.specs.Checks.{value_or};
ghost use Rattle.eo_base.specs.declared.FaultName.TheVariants as fault;
ghost use Rattle.eo_proof.specs.Scopes.{fact_named};
ghost use Rattle.eo_shape.specs.Reading.{read_step};
ghost use Rattle.eo_term.specs.Growth.{tree_in};
ghost use Rattle.eo_term.specs.Tree.{is_value};
ghost use Rattle.eo_session.specs.Store.{state_of, IsConsistent, Keeps};
ghost use Rattle.eo_session.specs.Step as step;
ghost use Rattle.eo_session.specs.Stepping.{GivesTerm};
ghost use Rattle.eo_session.specs.Using.{MayDischarge, GivesIds, GivesOptional, GivesUse};

use crate::Refused;
use crate::store::Store;
use eo_base::FaultName;
use eo_rule::RuleUse;
use eo_sexp::{Children, Sexp};
use eo_shape::{StepShape, Symbols};
use eo_term::{Id, Ids};

impl Store {
    /// What a step's rule is used on, with the assumption that it discharges, if it does.
    pub(crate) fn use_of(
        &mut self,
        assumed: Option<Id>,
        shape: &StepShape<'_>,
    ) -> Result<RuleUse, Refused>
        requires whole { IsConsistent self.old }
        requires assumed { MayDischarge self.old.table assumed }
        ensures gives { GivesUse self.new result
            (step.use_of (state_of self.old) (option_map (tree_in self.old.table) assumed) (read_step shape.now)) }
        ensures keeps { Keeps self.old self.new }
    {
        let premises = self.premises(&shape.premises)?;
        let stated = self.optional_value(&shape.stated)?;
        let args = self.values(&shape.args)?;
        Ok(RuleUse {
            assumption: assumed,
            premises,
            args,
            stated,
        })
    }

    // The facts of these names.
    fn premises(&self, names: &Symbols<'_>) -> Result<Ids, Refused>
        requires { IsConsistent self.now }
        ensures { GivesIds self.now result (step.premises (state_of self.now) names.now) }
    {
        let mut ids = Ids::new(self.alloc);
        for name in names.again() {
            let id = self.premise(name)?;
            ids.push(id)?;
        }
        Ok(ids)
    }

    // The fact of this name.
    fn premise(&self, name: &[u8]) -> Result<Id, Refused>
        requires { IsConsistent self.now }
        ensures gives { GivesTerm self.now result (value_or fault.UnknownPremise (fact_named (state_of self.now).scopes name.now)) }
        ensures value { IfOk result (λ i. is_value (tree_in self.now.table i) ≡ true) }
    {
        match self.facts.find(name) {
            Ok(id) => Ok(id),
            Err(_) => Err(Refused::Fault(FaultName::UnknownPremise)),
        }
    }

    // The value of a term, where there is one.
    fn optional_value(&mut self, s: &Option<Sexp<'_>>) -> Result<Option<Id>, Refused>
        requires { IsConsistent self.old }
        ensures gives { GivesOptional self.new result (step.optional_value (state_of self.old) s.now) }
        ensures keeps { Keeps self.old self.new }
    {
        match s {
            Some(s) => {
                let id = self.value(s)?;
                Ok(Some(id))
            }
            None => Ok(None),
        }
    }

    /// The values of terms in order.
    pub(crate) fn values(&mut self, terms: &Children<'_>) -> Result<Ids, Refused>
        requires { IsConsistent self.old }
        ensures gives { GivesIds self.new result (step.values (state_of self.old) terms.now) }
        ensures keeps { Keeps self.old self.new }
    {
        let mut ids = Ids::new(self.alloc);
        for s in terms.again() {
            let id = self.value(&s)?;
            ids.push(id)?;
        }
        Ok(ids)
    }
}
