//! Evaluation on a stack: its turns, and which terms begin how.
ghost use Rattle.std.specs.Prelude.{◌≡◌, ◌<◌, ◌≤◌, ◌⊎◌, [], false, length, IfOk, IfSome, OnOk, ℕ};
ghost use Rattle.eo_term.specs.Growth.{tree_in};
ghost use Rattle.eo_term.specs.Terms.{Terms};
ghost use Rattle.eo_sig.specs.Reading.{Kept, signature};
ghost use Rattle.eo_sig.specs.Usable.{IsUsable};
ghost use Rattle.eo_type.specs.Known.{Fit, Extends};
ghost use Rattle.eo_stack.specs.Reading.{outcome_in, is_par, IsWhole, ControlBelow, OutcomeBelow};
ghost use Rattle.eo_eval.specs.Outcomes.{GivesOutcome, outcome_of};
ghost use Rattle.eo_term.specs.Tree.{Par, is_value};
ghost use Rattle.eo_stack.specs.declared.stack.Control.TheVariants as next;
ghost use Rattle.eo_eval.specs.Ready.{IsFresh, Goes, Ready, outcome_from};
ghost use Rattle.eo_stack.specs.Reading.{begun};
ghost use Rattle.eo_stack.specs.Scopes.{entered};

mod calling;
mod entering;
mod gathering;
mod memory;
mod results;

use crate::evaluator::EvalRefused;
use eo_base::limits::CALL_DEPTH;
use eo_pattern::Subst;
use eo_sig::Signature;
use eo_stack::{CallKey, CallMemo, Control, Env, Frame, LocalKey, Outcome, Stack};
use eo_term::{Id, Node, Table, table_law};
use eo_type::Types;
use indexmap::IndexMap;
use std::alloc::{AllocError, Global};

/// One evaluation: what waits for a result, and what is remembered.
#[derive(Drop)]
pub(crate) struct Machine {
    alloc: Global,
    stack: Stack,
    // The values of the parameters in the bodies that are evaluated.
    scope: Env,
    // What the patterns of the last call hold.
    subst: Subst,
    // The different calls that were begun, in order, and what is known of each.
    calls: IndexMap<CallKey, CallMemo>,
    // What is known of terms that are no values, where their parameters have no values.
    terms: IndexMap<Id, CallMemo>,
    // What is known of terms with parameters, in the bodies of the calls that wait.
    locals: IndexMap<LocalKey, CallMemo>,
}

impl Machine {
    /// Nothing is begun, and nothing is remembered.
    pub(crate) fn new(alloc: Global) -> Machine
        ensures { IsFresh result }
    {
        Machine {
            alloc,
            stack: Stack::new(alloc),
            scope: Env::new(alloc),
            subst: Subst::new(alloc),
            calls: IndexMap::new(alloc),
            terms: IndexMap::new(alloc),
            locals: IndexMap::new(alloc),
        }
    }

    /// The outcome of a term, where nothing was begun before.
    pub(crate) fn evaluate(
        &mut self,
        sig: &Signature,
        table: &mut Table,
        types: &mut Types,
        id: Id,
    ) -> Result<Outcome, EvalRefused>
        requires fresh { IsFresh self.old }
        requires live { id < length table.old.trees }
        requires usable { IsUsable (signature table.old.trees sig.now) }
        requires fit { Fit sig.now table.old types.old }
        ensures gives { GivesOutcome table.new result (outcome_of sig.now table.old id) }
        ensures extends { Extends sig.now table.old types.old table.new types.new }
    {
        sig.laws();
        table_law();
        let mut now = Control::Eval {
            id,
            left: CALL_DEPTH as u32,
        };
        for _ in 0..u64::MAX {
            if let Some(outcome) = self.outcome_at_end(&now) {
                return Ok(outcome);
            }
            self.step(sig, table, types, &mut now)?;
        }
        Err(EvalRefused::Memory(AllocError))
    }

    // How the evaluation has ended, if it has.
    fn outcome_at_end(&self, now: &Control) -> Option<Outcome>
        ensures told { (k : Kept) (t : Terms) → IfSome result (λ o. (outcome_from k t self.now now.now).0 ≡ outcome_in t.trees o) }
        ensures live { (n : ℕ) → ControlBelow n now.now → IfSome result (OutcomeBelow n) }
    {
        match *now {
            Control::Eval { .. } => None,
            Control::Value { id, .. } => {
                if self.stack.frames.is_empty() {
                    Some(Outcome::Value(id))
                } else {
                    None
                }
            }
            Control::Stuck { .. } => {
                if self.stack.frames.is_empty() {
                    Some(Outcome::Stuck)
                } else {
                    None
                }
            }
            Control::Deep => Some(Outcome::Deep),
            Control::Calls => Some(Outcome::Calls),
            Control::Range => Some(Outcome::Range),
            Control::Tall => Some(Outcome::Tall),
        }
    }

    // One turn, in place.
    fn step(
        &mut self,
        sig: &Signature,
        table: &mut Table,
        types: &mut Types,
        now: &mut Control,
    ) -> Result<(), AllocError>
        requires ready { Ready sig.now table.old types.old self.old now.old }
        ensures goes { OnOk result (Goes sig.now table.new types.new self.new (outcome_from sig.now table.old self.old now.old) now.new) }
        ensures extends { Extends sig.now table.old types.old table.new types.new }
    {
        *now = self.turn(sig, table, types, *now)?;
        Ok(())
    }

    // One turn.
    fn turn(
        &mut self,
        sig: &Signature,
        table: &mut Table,
        types: &mut Types,
        now: Control,
    ) -> Result<Control, AllocError>
        requires ready { Ready sig.now table.old types.old self.old now }
        ensures goes { IfOk result (Goes sig.now table.new types.new self.new (outcome_from sig.now table.old self.old now)) }
        ensures extends { Extends sig.now table.old types.old table.new types.new }
    {
        match now {
            Control::Eval { id, left } => self.enter(sig, table, types, id, left),
            Control::Value { .. } => self.give(sig, table, types, &now),
            Control::Stuck { .. } => self.give(sig, table, types, &now),
            Control::Deep => Ok(Control::Deep),
            Control::Calls => Ok(Control::Calls),
            Control::Range => Ok(Control::Range),
            Control::Tall => Ok(Control::Tall),
        }
    }

    // A term begins to be evaluated.
    fn enter(
        &mut self,
        sig: &Signature,
        table: &mut Table,
        types: &mut Types,
        id: Id,
        left: u32,
    ) -> Result<Control, AllocError>
        requires ready { Ready sig.now table.old types.old self.old (next.Eval id left) }
        ensures goes { IfOk result (Goes sig.now table.new types.new self.new (outcome_from sig.now table.old self.old
            (next.Eval id left))) }
        ensures extends { Extends sig.now table.old types.old table.new types.new }
    {
        if table.is_value(id) {
            return Ok(Control::Value { id, deepest: 0 });
        }
        match self.recall(table, id, left) {
            Some(known) => Ok(known),
            None => self.enter_node(sig, table, types, id, left),
        }
    }

    // A term that is no value and of which nothing is remembered begins to be evaluated.
    fn enter_node(
        &mut self,
        sig: &Signature,
        table: &mut Table,
        types: &mut Types,
        id: Id,
        left: u32,
    ) -> Result<Control, AllocError>
        requires ready { Ready sig.now table.old types.old self.old (next.Eval id left) }
        requires open { is_value (tree_in table.old id) ≡ false }
        ensures goes { IfOk result (Goes sig.now table.new types.new self.new (outcome_from sig.now table.old self.old
            (next.Eval id left))) }
        ensures extends { Extends sig.now table.old types.old table.new types.new }
    {
        match table.node(id) {
            Node::Var { .. } => self.enter_parts(sig, table, types, id, left),
            Node::App { .. } => self.enter_parts(sig, table, types, id, left),
            Node::Arr { .. } => self.enter_parts(sig, table, types, id, left),
            Node::Op { code, .. } => self.enter_op(sig, table, types, id, code, left),
            Node::Par(i) => Ok(self.enter_par(sig, table, types, id, i, left)),
            Node::Qar { .. } => Ok(Control::Stuck { deepest: 0 }),
            _ => unreachable!(),
        }
    }

    // A node begins to collect the values of its parts.
    pub(crate) fn enter_parts(
        &mut self,
        sig: &Signature,
        table: &mut Table,
        types: &mut Types,
        id: Id,
        left: u32,
    ) -> Result<Control, AllocError>
        requires ready { Ready sig.now table.old types.old self.old (next.Eval id left) }
        requires node { is_par (tree_in table.old id) ≡ false }
        requires whole { IsWhole (entered table.old.trees self.old.scope id) }
        ensures goes { IfOk result (Goes sig.now table.new types.new self.new (outcome_from sig.now table.old self.old
            (next.Eval id left))) }
        ensures extends { Extends sig.now table.old types.old table.new types.new }
    {
        let base = self.stack.values.len();
        self.gather(sig, table, types, id, base, 0, left)
    }

    // A parameter is evaluated to its value.
    fn enter_par(
        &self,
        sig: &Signature,
        table: &Table,
        types: &Types,
        id: Id,
        i: u8,
        left: u32,
    ) -> Control
        requires ready { Ready sig.now table.now types.now self.now (next.Eval id left) }
        requires parameter { Par i ≡ tree_in table.now id }
        ensures { Goes sig.now table.now types.now self.now (outcome_from sig.now table.now self.now (next.Eval id left)) result }
    {
        table.laws();
        match self.scope.slot(i as usize) {
            Some(value) => Control::Value {
                id: value,
                deepest: 0,
            },
            None => Control::Stuck { deepest: 0 },
        }
    }
}
