//! Results that are given to what waits.
ghost use Rattle.std.specs.Prelude.{◌≡◌, ◌<◌, ◌≤◌, ◌+◌, false, length, IfOk, IfSome, IfNone, List, ℕ, Some};
ghost use Rattle.eo_term.specs.Tree.{Tree, Op, truth};
ghost use Rattle.eo_stack.specs.Evaluation.{Value, are_equal};
ghost use Rattle.eo_term.specs.Terms.{tree_at};
ghost use Rattle.eo_term.specs.Growth.{tree_in};
ghost use Rattle.eo_term.specs.Arguments.{arguments_of};
ghost use Rattle.eo_term.specs.declared.OpCode.TheVariants as code;
ghost use Rattle.eo_stack.specs.Machine.{is_call};
ghost use Rattle.eo_sig.specs.Reading.{signature};
ghost use Rattle.eo_type.specs.Known.{Extends};
ghost use Rattle.eo_base.specs.Limits.{calls_limit};
ghost use Rattle.eo_stack.specs.Reading.{IsNode, IsResult, HasMore, IsNoTruth, given_in};
ghost use Rattle.eo_stack.specs.Reading.{control_of, outcome_in, OutcomeBelow, result_of, ControlBelow};
ghost use Rattle.eo_eval.specs.Ready.{Goes, Ready, Given, Concludes, Proceeds, Begins, HasNoValues, outcome_from, outcome_of_frame};
ghost use Rattle.eo_stack.specs.declared.stack.Control.TheVariants as next;
ghost use Rattle.eo_stack.specs.declared.stack.Frame.TheVariants as frame;

use crate::machine::Machine;
use eo_sig::Signature;
use eo_stack::{Control, Frame, Outcome};
use eo_term::{FALSE, Id, Node, OpCode, TRUE, Table};
use eo_type::{Types, is_constant};
use std::alloc::AllocError;

impl Machine {
    /// A result is given to what waits last.
    pub(crate) fn give(
        &mut self,
        sig: &Signature,
        table: &mut Table,
        types: &mut Types,
        now: &Control,
    ) -> Result<Control, AllocError>
        requires result { IsResult now.now }
        requires ready { Ready sig.now table.old types.old self.old now.now }
        ensures goes { IfOk result (Goes sig.now table.new types.new self.new (outcome_from sig.now table.old self.old now.now)) }
        ensures extends { Extends sig.now table.old types.old table.new types.new }
    {
        match self.stack.pop() {
            None => Ok(*now),
            Some(frame) => self.give_to(sig, table, types, &frame, now),
        }
    }

    // A result is given to what was taken off.
    fn give_to(
        &mut self,
        sig: &Signature,
        table: &mut Table,
        types: &mut Types,
        frame: &Frame,
        now: &Control,
    ) -> Result<Control, AllocError>
        requires given { Given sig.now table.old types.old self.old frame.now now.now }
        ensures goes { IfOk result (Goes sig.now table.new types.new self.new
            (outcome_of_frame sig.now table.old self.old frame.now now.now)) }
        ensures extends { Extends sig.now table.old types.old table.new types.new }
    {
        match *frame {
            Frame::Parts {
                id,
                base,
                deepest,
                left,
            } => self.give_parts(sig, table, types, id, base, deepest, left, now),
            Frame::Choice { id, left } => self.choose(sig, table, types, id, left, now),
            Frame::EqLeft { id, left } => self.compare(sig, table, types, id, left, now),
            Frame::RequireLeft { id, left } => self.require(sig, table, types, id, left, now),
            Frame::RequireRight {
                id,
                first,
                deepest,
                left,
            } => self.allow(sig, table, types, id, first, deepest, left, now),
            Frame::Tested { .. } => {
                let outcome = truth_of(table, now.is_value());
                self.conclude(sig, table, types, frame, now, outcome)
            }
            Frame::EqRight { first, .. } => {
                let outcome = truth_of(table, is_given(table, now, first));
                self.conclude(sig, table, types, frame, now, outcome)
            }
            Frame::EqStuck { .. } => {
                let outcome = truth_of(table, false);
                self.conclude(sig, table, types, frame, now, outcome)
            }
            Frame::RequireStuck { .. } => self.conclude(
                sig,
                table,
                types,
                frame,
                now,
                Outcome::Stuck,
            ),
            Frame::Tail { .. } => self.conclude(sig, table, types, frame, now, given_outcome(now)),
            Frame::Body {
                place,
                body,
                base,
                here,
                kept,
            } => self.end_call(sig, table, types, place, body, base, here, kept, now),
        }
    }

    // A node that collects the values of its parts is given the result of its next part.
    fn give_parts(
        &mut self,
        sig: &Signature,
        table: &mut Table,
        types: &mut Types,
        id: Id,
        base: usize,
        before: u32,
        left: u32,
        now: &Control,
    ) -> Result<Control, AllocError>
        requires given { Given sig.now table.old types.old self.old (frame.Parts id base before left) now.now }
        ensures goes { IfOk result (Goes sig.now table.new types.new self.new
            (outcome_of_frame sig.now table.old self.old (frame.Parts id base before left) now.now)) }
        ensures extends { Extends sig.now table.old types.old table.new types.new }
    {
        match *now {
            Control::Value { id: value, deepest } => {
                self.stack.collect(value)?;
                self.gather(sig, table, types, id, base, before.max(deepest), left)
            }
            _ => {
                let frame = Frame::Parts {
                    id,
                    base,
                    deepest: before,
                    left,
                };
                self.conclude(sig, table, types, &frame, now, Outcome::Stuck)
            }
        }
    }

    // A choice is given its condition.
    fn choose(
        &mut self,
        sig: &Signature,
        table: &Table,
        types: &Types,
        id: Id,
        left: u32,
        now: &Control,
    ) -> Result<Control, AllocError>
        requires more { HasMore table.now.trees id 2 }
        requires given { Given sig.now table.now types.now self.old (frame.Choice id left) now.now }
        ensures { IfOk result (Goes sig.now table.now types.now self.new
            (outcome_of_frame sig.now table.now self.old (frame.Choice id left) now.now)) }
    {
        let frame = Frame::Choice { id, left };
        let deepest = now.deepest();
        match truth_given(table, now) {
            Some(true) => {
                let part = table.arg(id, 1);
                self.proceed(
                    sig,
                    table,
                    types,
                    &frame,
                    now,
                    Frame::Tail { id, deepest },
                    part,
                    left,
                )
            }
            Some(false) => {
                let part = table.arg(id, 2);
                self.proceed(
                    sig,
                    table,
                    types,
                    &frame,
                    now,
                    Frame::Tail { id, deepest },
                    part,
                    left,
                )
            }
            None => self.conclude(sig, table, types, &frame, now, Outcome::Stuck),
        }
    }

    // A comparison is given its first term.
    fn compare(
        &mut self,
        sig: &Signature,
        table: &Table,
        types: &Types,
        id: Id,
        left: u32,
        now: &Control,
    ) -> Result<Control, AllocError>
        requires more { HasMore table.now.trees id 1 }
        requires given { Given sig.now table.now types.now self.old (frame.EqLeft id left) now.now }
        ensures { IfOk result (Goes sig.now table.now types.now self.new
            (outcome_of_frame sig.now table.now self.old (frame.EqLeft id left) now.now)) }
    {
        let frame = Frame::EqLeft { id, left };
        let deepest = now.deepest();
        let part = table.arg(id, 1);
        match now.value() {
            Some(first) => self.proceed(
                sig,
                table,
                types,
                &frame,
                now,
                Frame::EqRight { id, first, deepest },
                part,
                left,
            ),
            None => self.proceed(
                sig,
                table,
                types,
                &frame,
                now,
                Frame::EqStuck { id, deepest },
                part,
                left,
            ),
        }
    }

    // A requirement is given its first term.
    fn require(
        &mut self,
        sig: &Signature,
        table: &Table,
        types: &Types,
        id: Id,
        left: u32,
        now: &Control,
    ) -> Result<Control, AllocError>
        requires more { HasMore table.now.trees id 2 }
        requires given { Given sig.now table.now types.now self.old (frame.RequireLeft id left) now.now }
        ensures { IfOk result (Goes sig.now table.now types.now self.new
            (outcome_of_frame sig.now table.now self.old (frame.RequireLeft id left) now.now)) }
    {
        let frame = Frame::RequireLeft { id, left };
        let deepest = now.deepest();
        let part = table.arg(id, 1);
        match now.value() {
            Some(first) => self.proceed(
                sig,
                table,
                types,
                &frame,
                now,
                Frame::RequireRight {
                    id,
                    first,
                    deepest,
                    left,
                },
                part,
                left,
            ),
            None => self.proceed(
                sig,
                table,
                types,
                &frame,
                now,
                Frame::RequireStuck { id, deepest },
                part,
                left,
            ),
        }
    }

    // A requirement is given its second term.
    fn allow(
        &mut self,
        sig: &Signature,
        table: &Table,
        types: &Types,
        id: Id,
        first: Id,
        before: u32,
        left: u32,
        now: &Control,
    ) -> Result<Control, AllocError>
        requires more { HasMore table.now.trees id 2 }
        requires first { first < length table.now.trees }
        requires given { Given sig.now table.now types.now self.old (frame.RequireRight id first before left) now.now }
        ensures { IfOk result (Goes sig.now table.now types.now self.new
            (outcome_of_frame sig.now table.now self.old (frame.RequireRight id first before left) now.now)) }
    {
        let frame = Frame::RequireRight {
            id,
            first,
            deepest: before,
            left,
        };
        if !is_given(table, now, first) {
            return self.conclude(sig, table, types, &frame, now, Outcome::Stuck);
        }
        let deepest = before.max(now.deepest());
        let part = table.arg(id, 2);
        self.proceed(
            sig,
            table,
            types,
            &frame,
            now,
            Frame::Tail { id, deepest },
            part,
            left,
        )
    }

    // A call is given the result of its body.
    fn end_call(
        &mut self,
        sig: &Signature,
        table: &Table,
        types: &Types,
        place: usize,
        body: Id,
        base: usize,
        here: usize,
        kept: usize,
        now: &Control,
    ) -> Result<Control, AllocError>
        requires place { place < length self.old.calls.entries }
        requires given { Given sig.now table.now types.now self.old (frame.Body place body base here kept) now.now }
        ensures { IfOk result (Goes sig.now table.now types.now self.new
            (outcome_of_frame sig.now table.now self.old (frame.Body place body base here kept) now.now)) }
    {
        // No stack holds so many calls that this count ends.
        let Some(deepest) = now.deepest().checked_add(1) else {
            return Err(AllocError);
        };
        self.finish_call(place, now.memo(deepest));
        self.close(base, here, kept);
        Ok(now.deeper(deepest))
    }

    // A node that waited for a result ends with this outcome, which is kept.
    fn conclude(
        &mut self,
        sig: &Signature,
        table: &Table,
        types: &Types,
        frame: &Frame,
        now: &Control,
        outcome: Outcome,
    ) -> Result<Control, AllocError>
        requires node { IsNode frame.now }
        requires given { Given sig.now table.now types.now self.old frame.now now.now }
        requires concludes { Concludes sig.now table.now self.old frame.now now.now outcome }
        ensures { IfOk result (Goes sig.now table.now types.now self.new (outcome_of_frame sig.now table.now self.old frame.now now.now)) }
    {
        self.stack.leave(frame);
        let deepest = frame.deepest().max(now.deepest());
        self.keep(table, frame.node(), &outcome, deepest)?;
        Ok(control_after(&outcome, deepest))
    }

    // A node that waited for a result goes on to wait for another term.
    fn proceed(
        &mut self,
        sig: &Signature,
        table: &Table,
        types: &Types,
        frame: &Frame,
        now: &Control,
        other: Frame,
        part: Id,
        left: u32,
    ) -> Result<Control, AllocError>
        requires before { HasNoValues frame.now }
        requires after { HasNoValues other }
        requires given { Given sig.now table.now types.now self.old frame.now now.now }
        requires proceeds { Proceeds (signature table.now.trees sig.now) calls_limit table.now.trees self.old.scope frame.now
            now.now other part left }
        ensures { IfOk result (Goes sig.now table.now types.now self.new (outcome_of_frame sig.now table.now self.old frame.now now.now)) }
    {
        self.stack.wait(other)?;
        Ok(Control::Eval { id: part, left })
    }

    // A term begins to wait for another one.
    pub(crate) fn begin(
        &mut self,
        sig: &Signature,
        table: &Table,
        types: &Types,
        id: Id,
        frame: Frame,
        part: Id,
        left: u32,
    ) -> Result<Control, AllocError>
        requires frame { HasNoValues frame }
        requires ready { Ready sig.now table.now types.now self.old (next.Eval id left) }
        requires begins { Begins (signature table.now.trees sig.now) calls_limit table.now.trees self.old.scope id left
            frame part }
        ensures { IfOk result (Goes sig.now table.now types.now self.new (outcome_from sig.now table.now self.old (next.Eval id left))) }
    {
        self.stack.wait(frame)?;
        Ok(Control::Eval { id: part, left })
    }
}

// What is done next after a node has ended so.
pub(crate) fn control_after(outcome: &Outcome, deepest: u32) -> Control
    ensures { result ≡ control_of outcome.now deepest }
{
    match *outcome {
        Outcome::Value(id) => Control::Value { id, deepest },
        Outcome::Stuck => Control::Stuck { deepest },
        Outcome::Deep => Control::Deep,
        Outcome::Calls => Control::Calls,
        Outcome::Range => Control::Range,
        Outcome::Tall => Control::Tall,
    }
}

// The outcome of a node that has the value of another term, or none as that.
fn given_outcome(now: &Control) -> Outcome
    ensures outcome { (ts : List Tree) → outcome_in ts result ≡ result_of ts now.now }
    ensures live { (n : ℕ) → ControlBelow n now.now → OutcomeBelow n result }
{
    match now.value() {
        Some(id) => Outcome::Value(id),
        None => Outcome::Stuck,
    }
}

// The outcome of a test.
fn truth_of(table: &Table, holds: bool) -> Outcome
    ensures outcome { outcome_in table.now.trees result ≡ Value (truth holds) }
    ensures live { OutcomeBelow (length table.now.trees) result }
{
    table.laws();
    Outcome::Value(if holds { TRUE } else { FALSE })
}

// The truth value that is given, if one is.
fn truth_given(table: &Table, now: &Control) -> Option<bool>
    requires { ControlBelow (length table.now.trees) now.now }
    ensures some { IfSome result (λ b. result_of table.now.trees now.now ≡ Value (truth b)) }
    ensures none { IfNone result (IsNoTruth (result_of table.now.trees now.now)) }
{
    let Some(id) = now.value() else {
        return None;
    };
    if is_constant(table, id, 2) {
        return Some(true);
    }
    if is_constant(table, id, 3) {
        return Some(false);
    }
    None
}

// Whether the term is what is given.
fn is_given(table: &Table, now: &Control, id: Id) -> bool
    requires given { ControlBelow (length table.now.trees) now.now }
    requires live { id < length table.now.trees }
    ensures { result ≡ are_equal (Some (tree_at table.now.trees id)) (given_in table.now.trees now.now) }
{
    match now.value() {
        Some(value) => table.is_same(id, value),
        None => false,
    }
}

// The program that a term calls, if it is a program call.
pub(crate) fn program_of(table: &Table, id: Id) -> Option<usize>
    requires { id < length table.now.trees }
    ensures some { IfSome result (λ p. Op (code.Prog p) (arguments_of (tree_in table.now id)) ≡ tree_in table.now id) }
    ensures none { IfNone result (is_call (tree_in table.now id) ≡ false) }
{
    match table.node(id) {
        Node::Op { code, .. } => match code {
            OpCode::Prog(program) => Some(program),
            OpCode::Builtin(_) => None,
        },
        Node::Con(_) => None,
        Node::Num(_) => None,
        Node::Bits { .. } => None,
        Node::Str(_) => None,
        Node::Par(_) => None,
        Node::Var { .. } => None,
        Node::App { .. } => None,
        Node::Arr { .. } => None,
        Node::Qar { .. } => None,
    }
}
