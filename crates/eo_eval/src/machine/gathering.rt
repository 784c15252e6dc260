//! Nodes that collect the values of their parts.
ghost use Rattle.std.specs.Prelude.{◌≡◌, ◌<◌, ℕ, drop, false, length, All, Some, IfOk, IfSome};
ghost use Rattle.eo_term.specs.Tree.{Op, is_tall};
ghost use Rattle.eo_term.specs.Terms.{tree_at, trees_at};
ghost use Rattle.eo_term.specs.Growth.{tree_in};
ghost use Rattle.eo_term.specs.Arguments.{arguments_of, count_of};
ghost use Rattle.eo_term.specs.declared.OpCode.TheVariants as code;
ghost use Rattle.eo_sig.specs.Growth.{GrowsUnder};
ghost use Rattle.eo_type.specs.Known.{Extends};
ghost use Rattle.eo_stack.specs.Machine.{is_call, parts_of};
ghost use Rattle.eo_eval.specs.Ready.{Goes, Gathering, IsNextPart, outcome_of_parts};
ghost use Rattle.eo_stack.specs.Scopes.{entered, IsValueSlot};

use crate::machine::Machine;
use crate::machine::results::{control_after, program_of};
use eo_sig::Signature;
use eo_stack::{Args, CallKey, Control, Frame, apply_node};
use eo_term::{Id, Node, Table, arguments_law};
use eo_type::Types;
use std::alloc::AllocError;

impl Machine {
    /// A node whose first parts have the values that are collected from a place on. Those of the
    /// next parts that are known at once are collected too; then it waits for the first part that is
    /// not, or ends.
    pub(crate) fn gather(
        &mut self,
        sig: &Signature,
        table: &mut Table,
        types: &mut Types,
        id: Id,
        base: usize,
        deepest: u32,
        left: u32,
    ) -> Result<Control, AllocError>
        requires gathering { Gathering sig.now table.old types.old self.old id base deepest }
        ensures goes { IfOk result (Goes sig.now table.new types.new self.new (outcome_of_parts sig.now table.old self.old id base left)) }
        ensures extends { Extends sig.now table.old types.old table.new types.new }
    {
        match self.collect_ready(sig, table, types, id, base, deepest)? {
            Some(part) => {
                self.stack.wait(Frame::Parts {
                    id,
                    base,
                    deepest,
                    left,
                })?;
                Ok(Control::Eval { id: part, left })
            }
            None => match program_of(table, id) {
                Some(program) => {
                    self.call_gathered(sig, table, types, program, id, base, deepest, left)
                }
                None => self.make_gathered(sig, table, types, id, base, deepest, left),
            },
        }
    }

    // Collects the values of the next parts that are known at once. The first part whose value is
    // not, if there is one.
    fn collect_ready(
        &mut self,
        sig: &Signature,
        table: &Table,
        types: &Types,
        id: Id,
        base: usize,
        deepest: u32,
    ) -> Result<Option<Id>, AllocError>
        requires gathering { Gathering sig.now table.now types.now self.old id base deepest }
        ensures gathering { IfOk result (λ o. Gathering sig.now table.now types.now self.new id base deepest) }
        ensures told { (left : ℕ) → IfOk result (λ o. outcome_of_parts sig.now table.now self.new id base left
            ≡ outcome_of_parts sig.now table.now self.old id base left) }
        ensures next { IfOk result (IsNextPart table.now self.new id base) }
    {
        match table.node(id) {
            Node::Op { .. } => self.collect_from(
                sig,
                table,
                types,
                id,
                base,
                deepest,
                table.args(id),
            ),
            Node::Var { ty, .. } => self.collect_from(sig, table, types, id, base, deepest, &[ty]),
            Node::App { fun, arg } => {
                self.collect_from(sig, table, types, id, base, deepest, &[fun, arg])
            }
            Node::Arr { from, to } => {
                self.collect_from(sig, table, types, id, base, deepest, &[from, to])
            }
            _ => Ok(None),
        }
    }

    // The same, of a node with these parts.
    fn collect_from(
        &mut self,
        sig: &Signature,
        table: &Table,
        types: &Types,
        id: Id,
        base: usize,
        deepest: u32,
        parts: &[Id],
    ) -> Result<Option<Id>, AllocError>
        requires gathering { Gathering sig.now table.now types.now self.old id base deepest }
        requires parts { trees_at table.now.trees parts.now ≡ parts_of (tree_in table.now id) }
        requires live { All (λ i. i < length table.now.trees) parts.now }
        ensures gathering { IfOk result (λ o. Gathering sig.now table.now types.now self.new id base deepest) }
        ensures told { (left : ℕ) → IfOk result (λ o. outcome_of_parts sig.now table.now self.new id base left
            ≡ outcome_of_parts sig.now table.now self.old id base left) }
        ensures next { IfOk result (IsNextPart table.now self.new id base) }
    {
        arguments_law();
        let first = self.stack.values.len() - base;
        for i in first..parts.len() {
            match self.ready(table, parts[i]) {
                Some(value) => self.stack.collect(value)?,
                None => return Ok(Some(parts[i])),
            }
        }
        Ok(None)
    }

    // The value of a term, if it is known at once: it is a value, or a parameter that has
    // one.
    fn ready(&self, table: &Table, id: Id) -> Option<Id>
        requires live { id < length table.now.trees }
        requires slots { All (IsValueSlot table.now.trees) self.now.scope.slots }
        ensures tree { IfSome result (λ v. entered table.now.trees self.now.scope id ≡ tree_at table.now.trees v) }
        ensures value { IfSome result (λ v. IsValueSlot table.now.trees (Some v)) }
        ensures low { IfSome result (λ v. is_tall (tree_at table.now.trees v) ≡ false) }
    {
        if table.is_value(id) {
            return Some(id);
        }
        if table.height(id) > 1 {
            return None;
        }
        match table.node(id) {
            Node::Par(i) => self.scope.slot(i as usize),
            _ => None,
        }
    }

    // A program call whose arguments have the values that are collected from a place on.
    fn call_gathered(
        &mut self,
        sig: &Signature,
        table: &mut Table,
        types: &Types,
        program: usize,
        id: Id,
        base: usize,
        deepest: u32,
        left: u32,
    ) -> Result<Control, AllocError>
        requires program { Op (code.Prog program) (arguments_of (tree_in table.old id)) ≡ tree_in table.old id }
        requires all { length (drop base self.old.stack.values.items) ≡ count_of (parts_of (tree_in table.old id)) }
        requires gathering { Gathering sig.now table.old types.now self.old id base deepest }
        ensures goes { IfOk result (Goes sig.now table.new types.now self.new (outcome_of_parts sig.now table.old self.old id base left)) }
        ensures grows { GrowsUnder sig.now table.old table.new }
    {
        self.stack.wait(Frame::Tail { id, deepest })?;
        let args = Args::new(self.alloc, &self.stack.values.as_slice()[base..])?;
        self.stack.cut(base);
        self.call(sig, table, types, CallKey { program, args }, left)
    }

    // Any other node whose parts have the values that are collected from a place on.
    fn make_gathered(
        &mut self,
        sig: &Signature,
        table: &mut Table,
        types: &mut Types,
        id: Id,
        base: usize,
        deepest: u32,
        left: u32,
    ) -> Result<Control, AllocError>
        requires kind { is_call (tree_in table.old id) ≡ false }
        requires all { length (drop base self.old.stack.values.items) ≡ count_of (parts_of (tree_in table.old id)) }
        requires gathering { Gathering sig.now table.old types.old self.old id base deepest }
        ensures goes { IfOk result (Goes sig.now table.new types.new self.new (outcome_of_parts sig.now table.old self.old id base left)) }
        ensures extends { Extends sig.now table.old types.old table.new types.new }
    {
        let outcome = apply_node(
            self.alloc,
            sig,
            table,
            types,
            id,
            &self.stack.values.as_slice()[base..],
        )?;
        self.stack.cut(base);
        self.keep(table, id, &outcome, deepest)?;
        Ok(control_after(&outcome, deepest))
    }
}
