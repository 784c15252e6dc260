//! What is decided of a command, while nothing of what is held changes.
ghost use Rattle.std.specs.Prelude.{◌≡◌, ◌<◌, length, true, not, ◌||◌, Some};
ghost use Rattle.eo_proof.specs.Scopes.{innermost_hypothesis};
ghost use Rattle.eo_shape.specs.Reading.{read_step};
ghost use Rattle.eo_term.specs.Growth.{tree_in};
ghost use Rattle.eo_shape.specs.Reading.{read_command};
ghost use Rattle.eo_session.specs.Commands as definition;
ghost use Rattle.eo_session.specs.Deciding.{Decides, DecidesNext};
ghost use Rattle.eo_session.specs.Numbered.{origin_of};
ghost use Rattle.eo_session.specs.Decisions.{assume_effect, push_effect, step_effect, pop_effect, outside_effect};
ghost use Rattle.eo_session.specs.Decisions.{decided, scoped_decision, placed_decision, AreDecided, AreDecidedPlaced};
ghost use Rattle.eo_session.specs.Store.{state_of, IsConsistent, Keeps};
ghost use Rattle.eo_session.specs.State.{is_in_scope};
ghost use Rattle.eo_session.specs.Step.{is_free_outer_fact};

use crate::effects::{Decided, Effect};
use crate::session::may_stand;
use crate::steps::Conclusion;
use crate::store::Store;
use crate::{Origin, Refused};
use eo_base::FaultName;
use eo_sexp::Sexp;
use eo_shape::{Command, StepShape};
use eo_term::Id;

impl Store {
    /// Checks a command, and returns what it does. What is held stays, also where it is refused: terms
    /// alone, and types that were found, may have come.
    pub(crate) fn decide<'c>(
        &mut self,
        command: &Command<'c>,
        from: Origin,
    ) -> Result<Decided<'c>, Refused>
        requires whole { IsConsistent self.old }
        ensures decides { DecidesNext self.new result (placed_decision (state_of self.old) (origin_of from) (read_command command.now)) }
        ensures keeps { Keeps self.old self.new }
    {
        let effect = self.decide_placed(command, from)?;
        let next = self.next_by(command)?;
        Ok(Decided { effect, next })
    }

    // What a command does, if it is allowed here.
    fn decide_placed<'c>(
        &mut self,
        command: &Command<'c>,
        from: Origin,
    ) -> Result<Effect<'c>, Refused>
        requires whole { IsConsistent self.old }
        ensures decides { Decides self.new result (scoped_decision (state_of self.old) (origin_of from) (read_command command.now)) }
        ensures keeps { Keeps self.old self.new }
    {
        if !may_stand(self, command) {
            return Err(Refused::Fault(FaultName::InScope));
        }
        self.decide_own(command, from)
    }

    // What a command that is allowed here does.
    fn decide_own<'c>(&mut self, command: &Command<'c>, from: Origin) -> Result<Effect<'c>, Refused>
        requires whole { IsConsistent self.old }
        requires stands { (not (is_in_scope (state_of self.old)) || definition.may_be_in_scope (read_command command.now)) ≡ true }
        ensures decides { Decides self.new result (decided (state_of self.old) (origin_of from) (read_command command.now)) }
        ensures keeps { Keeps self.old self.new }
    {
        match command {
            Command::DeclareConst {
                name,
                ty,
                attribute,
            } => self.decide_const(from.file_kind(), name, ty, attribute),
            Command::DeclareFun {
                name,
                inputs,
                output,
            } => self.decide_fun(from.file_kind(), name, inputs, output),
            Command::DeclareSort { name, arity } => self.decide_sort(
                from.file_kind(),
                name,
                *arity,
            ),
            Command::DeclareParameterized {
                name,
                params,
                ty,
                attribute,
            } => self.decide_parameterized(name, params, ty, attribute),
            Command::DeclareLiterals { class, ty } => self.decide_literals(*class, ty),
            Command::Define { name, params, body } => self.decide_define(name, params, body),
            Command::Program(shape) => self.decide_program(from, shape),
            Command::DeclareRule(shape) => self.decide_rule(from, shape),
            Command::Assume { name, formula } => self.decide_assume(name, formula),
            Command::AssumePush { name, formula } => self.decide_push(name, formula),
            Command::Step(shape) => self.decide_step(shape),
            Command::StepPop(shape) => self.decide_pop(shape),
            Command::Include { .. } => Ok(Effect::Nothing),
            Command::Refer { .. } => Ok(Effect::Nothing),
            Command::DefineFun {
                name,
                params,
                output,
                body,
            } => self.decide_define_fun(name, params, output, body),
            Command::DefineSort { name, params, ty } => self.decide_define_sort(name, params, ty),
            Command::Assert { formula } => self.decide_assert(formula),
            Command::Exit => Ok(Effect::Nothing),
            Command::Skip => Ok(Effect::Nothing),
        }
    }

    /// A formula that is asserted is a fact, by a name that is free.
    pub(crate) fn decide_assume<'c>(
        &mut self,
        name: &'c [u8],
        formula: &Sexp<'_>,
    ) -> Result<Effect<'c>, Refused>
        requires { IsConsistent self.old }
        ensures decides { Decides self.new result (assume_effect (state_of self.old) name.now formula.now) }
        ensures keeps { Keeps self.old self.new }
    {
        if self.is_taken(name) {
            return Err(Refused::Fault(FaultName::Redeclared));
        }
        let formula = self.asserted_formula(formula)?;
        Ok(Effect::Add {
            name,
            conclusion: Conclusion {
                formula,
                sorry: false,
            },
            closes: false,
        })
    }

    /// A scope is opened with a formula as its assumption, by a name that is free.
    pub(crate) fn decide_push<'c>(
        &mut self,
        name: &'c [u8],
        formula: &Sexp<'_>,
    ) -> Result<Effect<'c>, Refused>
        requires { IsConsistent self.old }
        ensures decides { Decides self.new result (push_effect (state_of self.old) name.now formula.now) }
        ensures keeps { Keeps self.old self.new }
    {
        if !self.has_room() {
            return Err(Refused::Fault(FaultName::ScopeDepth));
        }
        if self.is_taken(name) {
            return Err(Refused::Fault(FaultName::Redeclared));
        }
        let hypothesis = self.formula(formula)?;
        Ok(Effect::Open { name, hypothesis })
    }

    /// What a rule concludes is a fact, by a name that is free.
    pub(crate) fn decide_step<'c>(&mut self, shape: &StepShape<'c>) -> Result<Effect<'c>, Refused>
        requires { IsConsistent self.old }
        ensures decides { Decides self.new result (step_effect (state_of self.old) (read_step shape.now)) }
        ensures keeps { Keeps self.old self.new }
    {
        if self.is_taken(shape.name) {
            return Err(Refused::Fault(FaultName::Redeclared));
        }
        let conclusion = self.conclude_step(None, shape)?;
        Ok(Effect::Add {
            name: shape.name,
            conclusion,
            closes: false,
        })
    }

    /// The innermost scope is closed, and what a rule concludes from its assumption is a fact around
    /// it, by a name that is free there.
    pub(crate) fn decide_pop<'c>(&mut self, shape: &StepShape<'c>) -> Result<Effect<'c>, Refused>
        requires { IsConsistent self.old }
        ensures decides { Decides self.new result (pop_effect (state_of self.old) (read_step shape.now)) }
        ensures keeps { Keeps self.old self.new }
    {
        let Some(assumed) = self.facts.hypothesis() else {
            return Err(Refused::Fault(FaultName::NoScope));
        };
        if !self.is_free_outside(shape.name) {
            return Err(Refused::Fault(FaultName::Redeclared));
        }
        self.decide_outside(assumed, shape)
    }

    // The same of the innermost scope with this assumption, where the name is free.
    fn decide_outside<'c>(
        &mut self,
        assumed: Id,
        shape: &StepShape<'c>,
    ) -> Result<Effect<'c>, Refused>
        requires whole { IsConsistent self.old }
        requires live { assumed < length self.old.table.trees }
        requires assumed { innermost_hypothesis (state_of self.old).scopes ≡ Some (tree_in self.old.table assumed) }
        requires free { is_free_outer_fact (state_of self.old) shape.now.name.now ≡ true }
        ensures decides { Decides self.new result (outside_effect (state_of self.old) (tree_in self.old.table assumed)
            (read_step shape.now)) }
        ensures keeps { Keeps self.old self.new }
    {
        let conclusion = self.conclude_step(Some(assumed), shape)?;
        Ok(Effect::Add {
            name: shape.name,
            conclusion,
            closes: true,
        })
    }
}

/// A law: what a command does to a state is what is decided of it, and then done; the same holds where
/// the command is, with what is done next.
#[tactic(auto, using(crate::proofs::Decisions::command_done, crate::proofs::Decisions::placed_done))]
pub fn decision_law()
    ensures decided { AreDecided }
    ensures placed { AreDecidedPlaced }
{}
