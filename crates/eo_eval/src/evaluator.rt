//! The evaluator.
ghost use Rattle.std.specs.Prelude.{◌≡◌, ◌<◌, length, OnErr};
ghost use Rattle.eo_sig.specs.Reading.{signature};
ghost use Rattle.eo_sig.specs.Usable.{IsUsable};
ghost use Rattle.eo_type.specs.Known.{Fit, Extends};
ghost use Rattle.eo_eval.specs.Outcomes.{GivesOutcome, outcome_of};

use crate::machine::Machine;
use eo_sig::Signature;
use eo_stack::Outcome;
use eo_term::{Id, Table};
use eo_type::Types;
use std::alloc::{AllocError, Global};
use std::marker::Model;

/// Why it is not known how evaluation ends.
#[derive(Debug, Drop)]
pub enum EvalRefused {
    /// Out of memory.
    Memory(AllocError),
}

impl From<AllocError> for EvalRefused {
    ghost use Rattle.std.specs.Prelude.{◌≡◌};
    ghost use Rattle.eo_eval.specs.declared.evaluator.EvalRefused.TheVariants.{Memory};

    ghost from_gives = { λ e refused. refused ≡ Memory e };

    fn from(e: AllocError) -> EvalRefused {
        EvalRefused::Memory(e)
    }
}

/// What evaluates terms. It remembers nothing from one evaluation to the next, and keeps memory for
/// it.
#[derive(Drop)]
pub struct Evaluator {
    machine: Machine,
}

impl Model for Evaluator {
    ghost use Rattle.eo_eval.specs.Ready.{IsFresh};

    ghost Value = { Unit {0} };

    ghost view = { λ e. tt };

    ghost invariant = { λ e. IsFresh e.machine };
}

impl Evaluator {
    /// An evaluator that takes its memory there. It takes none yet.
    pub fn new(alloc: Global) -> Evaluator {
        Evaluator {
            machine: Machine::new(alloc),
        }
    }

    /// How the evaluation of a closed term ends, by the rules of the Ethos manual for programs and
    /// operators.
    ///
    /// A node evaluates its parts from left to right, and is stuck where one is. A call of a
    /// program goes on with the body of the first case that matches, and is stuck where none does.
    /// The body is evaluated with its parameters, which have values: it is made only where with them
    /// put in it may be too tall.
    /// At most [`CALL_DEPTH`] calls are open at once, and at most [`CALLS`] different ones are
    /// begun. A call that was finished is not evaluated again in the same evaluation. A term that
    /// is a value is returned at once, without memory.
    ///
    /// Out of memory is the only refusal. It leaves the table as it was, and of the types those of
    /// terms that are there. The terms that were there, and the types that were kept, stay in either
    /// case.
    ///
    /// [`CALL_DEPTH`]: eo_base::limits::CALL_DEPTH
    /// [`CALLS`]: eo_base::limits::CALLS
    pub fn evaluate(
        &mut self,
        sig: &Signature,
        table: &mut Table,
        types: &mut Types,
        id: Id,
    ) -> Result<Outcome, EvalRefused>
        requires live { id < length table.old.trees }
        requires usable { IsUsable (signature table.old.trees sig.now) }
        requires fit { Fit sig.now table.old types.old }
        ensures gives { GivesOutcome table.new result (outcome_of sig.now table.old id) }
        ensures refused { OnErr result (table.new ≡ table.old) }
        ensures extends { Extends sig.now table.old types.old table.new types.new }
    {
        if table.is_value(id) {
            return Ok(Outcome::Value(id));
        }
        let mark = table.mark();
        match self.evaluate_or_leave(sig, table, types, id) {
            Ok(outcome) => Ok(outcome),
            Err(e) => {
                types.undo(table, mark);
                Err(e)
            }
        }
    }

    // The same for any term, but that a refused call leaves the terms that it made.
    fn evaluate_or_leave(
        &mut self,
        sig: &Signature,
        table: &mut Table,
        types: &mut Types,
        id: Id,
    ) -> Result<Outcome, EvalRefused>
        requires live { id < length table.old.trees }
        requires usable { IsUsable (signature table.old.trees sig.now) }
        requires fit { Fit sig.now table.old types.old }
        ensures gives { GivesOutcome table.new result (outcome_of sig.now table.old id) }
        ensures extends { Extends sig.now table.old types.old table.new types.new }
    {
        let result = self.machine.evaluate(sig, table, types, id);
        self.machine.clear();
        result
    }
}
