//! What is noted of an accepted command, between the decision and what it does.
ghost use Rattle.std.specs.Prelude.{◌≡◌, ◌<◌, ℕ, List, [], ◌∷◌, ◌++◌, length, IfOk, OnOk};
ghost use Rattle.eo_shape.specs.Reading.{read_command, read_step};
ghost use Rattle.eo_term.specs.Growth.{tree_in};
ghost use Rattle.eo_session.specs.Deciding.{read_effect, MayCommit};
ghost use Rattle.eo_session.specs.Store.{state_of, IsConsistent, Keeps};
ghost use Rattle.eo_session.specs.Notes as notes;
ghost use Rattle.eo_session.specs.Notes.{act_of, fact_act, numbers_of, seen_of, step_note, Seen};
ghost use Rattle.eo_session.specs.Noting.{read_act, read_note, read_step_note, ActBelow, StepBelow, GivesArguments, GivesFound};
ghost use Rattle.eo_session.specs.Numbered.{origin_of};
ghost use Rattle.eo_session.specs.Step.{values};

use crate::effects::Effect;
use crate::observing::{Act, Note, Numbers, Observer, StepNote};
use crate::store::Store;
use crate::{Origin, Refused};
use eo_base::Place;
use eo_sexp::Children;
use eo_shape::{Command, StepShape, Symbols};
use eo_sig::growth_law;
use eo_term::{Id, Ids};
use std::alloc::{AllocError, Global};

/// The text of a command.
#[derive(Clone, Copy)]
pub(crate) struct Source<'a> {
    /// Its bytes.
    pub(crate) bytes: &'a [u8],
    /// Where it begins.
    pub(crate) place: Place,
}

impl Store {
    /// Shows a command to an observer that watches, before it is done. What is held stays. `Err` is out
    /// of memory.
    pub(crate) fn show<O: Observer>(
        &mut self,
        command: &Command<'_>,
        from: Origin,
        effect: &Effect<'_>,
        source: &Source<'_>,
        observer: &mut O,
    ) -> Result<(), AllocError>
        requires whole { IsConsistent self.old }
        requires may { MayCommit self.old effect.now }
        ensures keeps { Keeps self.old self.new }
        ensures may { MayCommit self.new effect.now }
        ensures same { read_effect self.new.table effect.now ≡ read_effect self.old.table effect.now }
        ensures sees { OnOk result ((l : List Seen) → O.tells observer.old l → O.tells observer.new (l ++
            seen_of (state_of self.old) (origin_of from) source.now.bytes.now source.now.place (read_command command.now)
            (read_effect self.old.table effect.now) ∷ [])) }
    {
        growth_law();
        if !observer.watches() {
            return Ok(());
        }
        let note = self.note(command, from, effect, source.place)?;
        self.show_note(&note, source.bytes, observer)
    }

    // Shows a note.
    fn show_note<O: Observer>(
        &mut self,
        note: &Note,
        bytes: &[u8],
        observer: &mut O,
    ) -> Result<(), AllocError>
        requires whole { IsConsistent self.old }
        requires live { ActBelow (length self.old.table.trees) note.now.act }
        ensures keeps { Keeps self.old self.new }
        ensures sees { OnOk result ((l : List Seen) → O.tells observer.old l →
            O.tells observer.new (l ++ read_note self.old.table bytes.now note.now ∷ [])) }
    {
        let shown = observer.accepted(
            &self.signature,
            &mut self.table,
            &mut self.types,
            bytes,
            note,
        );
        self.types.laws();
        shown
    }

    // What is noted of a command with this effect.
    fn note(
        &mut self,
        command: &Command<'_>,
        from: Origin,
        effect: &Effect<'_>,
        place: Place,
    ) -> Result<Note, AllocError>
        requires whole { IsConsistent self.old }
        requires may { MayCommit self.old effect.now }
        ensures reads { IfOk result (λ n. (bytes : List ℕ) → read_note self.new.table bytes n ≡
            seen_of (state_of self.old) (origin_of from) bytes place (read_command command.now) (read_effect self.old.table effect.now)) }
        ensures below { IfOk result (λ n. ActBelow (length self.new.table.trees) n.act) }
        ensures keeps { Keeps self.old self.new }
    {
        let number = self.commands;
        let from_reference = from.is_reference();
        let depth = self.facts.depth();
        let act = self.act(command, effect)?;
        Ok(Note {
            place,
            number,
            from_reference,
            depth,
            act,
        })
    }

    // What a command does whose effect is this.
    #[tactic(auto, using(crate::proofs::Used::keeps_self))]
    fn act(&mut self, command: &Command<'_>, effect: &Effect<'_>) -> Result<Act, AllocError>
        requires whole { IsConsistent self.old }
        requires may { MayCommit self.old effect.now }
        ensures reads { IfOk result (λ a. read_act self.new.table a ≡
            act_of (state_of self.old) (read_command command.now) (read_effect self.old.table effect.now)) }
        ensures below { IfOk result (ActBelow (length self.new.table.trees)) }
        ensures keeps { Keeps self.old self.new }
    {
        match effect {
            Effect::Declare(_) => Ok(Act::Declare),
            Effect::Define(_) => Ok(Act::Define),
            Effect::Assert { formula, .. } => Ok(Act::Assert(*formula)),
            Effect::Open { hypothesis, .. } => Ok(Act::Push(*hypothesis)),
            Effect::Add { conclusion, .. } => self.fact_act(command, conclusion.formula),
            Effect::Nothing => Ok(Act::Other),
        }
    }

    // What a command does that makes this a fact.
    #[tactic(auto, using(crate::proofs::Used::keeps_self))]
    fn fact_act(&mut self, command: &Command<'_>, fact: Id) -> Result<Act, AllocError>
        requires whole { IsConsistent self.old }
        requires live { fact < length self.old.table.trees }
        ensures reads { IfOk result (λ a. read_act self.new.table a ≡
            fact_act (state_of self.old) (read_command command.now) (tree_in self.old.table fact)) }
        ensures below { IfOk result (ActBelow (length self.new.table.trees)) }
        ensures keeps { Keeps self.old self.new }
    {
        match command {
            Command::Step(shape) => {
                let step = self.step_note(shape, fact)?;
                Ok(Act::Step(step))
            }
            Command::StepPop(shape) => {
                let step = self.step_note(shape, fact)?;
                Ok(Act::Pop(step))
            }
            _ => Ok(Act::Assume(fact)),
        }
    }

    // What is noted of a step that concludes this.
    fn step_note(&mut self, shape: &StepShape<'_>, fact: Id) -> Result<StepNote, AllocError>
        requires whole { IsConsistent self.old }
        requires live { fact < length self.old.table.trees }
        ensures reads { IfOk result (λ s. read_step_note self.new.table s ≡
            step_note (state_of self.old) (read_step shape.now) (tree_in self.old.table fact)) }
        ensures below { IfOk result (StepBelow (length self.new.table.trees)) }
        ensures keeps { Keeps self.old self.new }
    {
        let rule = self.rule_named(shape.rule);
        let premises = self.numbers(&shape.premises)?;
        let args = self.arguments(&shape.args)?;
        Ok(StepNote {
            rule,
            premises,
            args,
            fact,
        })
    }

    // The rule of this name. One of a step that is accepted is found.
    fn rule_named(&self, name: &[u8]) -> usize
        ensures { result ≡ notes.rule_of (state_of self.now) name.now }
    {
        match self.signature.rule(name) {
            Some(rule) => rule,
            None => 0,
        }
    }

    // The values of arguments, which were found before where a step is accepted. `Err` is out of memory.
    fn arguments(&mut self, terms: &Children<'_>) -> Result<Ids, AllocError>
        requires { IsConsistent self.old }
        ensures gives { IfOk result (GivesArguments self.new (notes.found (values (state_of self.old) terms.now))) }
        ensures keeps { Keeps self.old self.new }
    {
        let args = self.values(terms);
        ids_or_none(self.alloc, args)
    }

    // The numbers of the commands that made the facts of these names.
    fn numbers(&self, names: &Symbols<'_>) -> Result<Numbers, AllocError>
        ensures { IfOk result (λ l. l ≡ numbers_of (state_of self.now) names.now) }
    {
        let mut numbers = Numbers::new(self.alloc);
        for name in names.again() {
            numbers.push(self.number(name))?;
        }
        Ok(numbers)
    }

    // The number of the command that made the fact of this name.
    fn number(&self, name: &[u8]) -> u64
        ensures { result ≡ notes.number_of (state_of self.now) name.now }
    {
        match self.facts.command(name) {
            Some(number) => number,
            None => 0,
        }
    }
}

// The terms that are found, and none where there is a fault. `Err` is out of memory.
fn ids_or_none(alloc: Global, values: Result<Ids, Refused>) -> Result<Ids, AllocError>
    ensures { IfOk result (GivesFound values) }
{
    match values {
        Ok(ids) => Ok(ids),
        Err(Refused::Fault(_)) => Ok(Ids::new(alloc)),
        Err(Refused::Ended) => Ok(Ids::new(alloc)),
        Err(Refused::Memory(e)) => Err(e),
    }
}
