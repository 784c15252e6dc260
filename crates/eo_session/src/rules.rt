//! What is decided of commands that declare rules.
ghost use Rattle.std.specs.Prelude.{◌≡◌, false};
ghost use Rattle.eo_shape.specs.Reading.{read_rule as shape_of};
ghost use Rattle.eo_session.specs.Numbered.{origin_of};
ghost use Rattle.eo_session.specs.Store.{state_of, IsConsistent, Keeps};
ghost use Rattle.eo_session.specs.State.{is_in_scope};
ghost use Rattle.eo_session.specs.Deciding.{Decides};
ghost use Rattle.eo_session.specs.Decisions.{added_rule_effect, rule_effect};

use crate::effects::Effect;
use crate::store::Store;
use crate::{Origin, Refused};
use eo_base::FaultName;
use eo_declare::{declared_rule, ordering_law};
use eo_shape::RuleShape;
use eo_sig::Declared;

impl Store {
    /// A rule is declared. A closed proof may declare none.
    pub(crate) fn decide_rule<'c>(
        &mut self,
        from: Origin,
        shape: &RuleShape<'_>,
    ) -> Result<Effect<'c>, Refused>
        requires whole { IsConsistent self.old }
        requires outside { is_in_scope (state_of self.old) ≡ false }
        ensures decides { Decides self.new result (rule_effect (state_of self.old) (origin_of from) (shape_of shape.now)) }
        ensures keeps { Keeps self.old self.new }
    {
        if !self.may_declare(from) {
            return Err(Refused::Fault(FaultName::ProofDeclares));
        }
        self.decide_added_rule(shape)
    }

    // A rule is declared, which may be declared here.
    fn decide_added_rule<'c>(&mut self, shape: &RuleShape<'_>) -> Result<Effect<'c>, Refused>
        requires whole { IsConsistent self.old }
        requires outside { is_in_scope (state_of self.old) ≡ false }
        ensures decides { Decides self.new result (added_rule_effect (state_of self.old) (shape_of shape.now)) }
        ensures keeps { Keeps self.old self.new }
    {
        ordering_law();
        let d = declared_rule(self.alloc, shape, &self.signature, &mut self.table)?;
        self.decide_entry(Declared::Rule(d))
    }
}
