//! What an evaluation remembers.
ghost use Rattle.std.specs.Prelude.{◌≡◌, ◌<◌, [], ℕ, List, length, take, IfSome, IsTrue};
ghost use Rattle.eo_term.specs.Terms.{tree_at};
ghost use Rattle.eo_term.specs.Tree.{Tree};
ghost use Rattle.eo_sig.specs.Signature as spec;
ghost use Rattle.indexmap.specs.Layout.{set_value_at};
ghost use Rattle.eo_stack.specs.Evaluation.{Begun};
ghost use Rattle.eo_stack.specs.Machine.{Family, evals};
ghost use Rattle.eo_stack.specs.Reading.{Remembers, IsKnown, begun};
ghost use Rattle.eo_eval.specs.Ready.{IsFresh, Keeps, Recalls, SameWork};
ghost use Rattle.eo_stack.specs.Scopes.{entered, outer, IsScope};

use crate::machine::Machine;
use eo_stack::{CallMemo, Control, LocalKey, Outcome};
use eo_term::{Id, Table};
use indexmap::IndexMap;
use std::alloc::{AllocError, Global};
use std::hash::Hash;

/// A map that held more keeps no memory: clearing one costs what it may hold.
const KEPT: usize = 64;

/// Of a term up to this height nothing is remembered: to evaluate it again takes few turns.
const LOW: u32 = 3;

impl Machine {
    /// Nothing is begun and remembered any more.
    pub(crate) fn clear(&mut self)
        ensures { IsFresh self.new }
    {
        self.stack.clear();
        self.scope.clear();
        empty(self.alloc, &mut self.calls);
        empty(self.alloc, &mut self.terms);
        empty(self.alloc, &mut self.locals);
    }

    // What is remembered of a term, where so many calls may open.
    pub(crate) fn recall(&self, table: &Table, id: Id, left: u32) -> Option<Control>
        requires { id < length table.now.trees }
        ensures { (S : spec.Signature) (most : ℕ) → let ts = table.now.trees in
            Remembers S most ts self.now.calls.entries self.now.terms.entries self.now.locals.entries →
            IsScope S ts (begun ts self.now.calls.entries) self.now.scope →
            IfSome result (λ n. Recalls ts (begun ts self.now.calls.entries) (evals S most (entered ts self.now.scope id)) left n) }
    {
        if self.is_passed(table, id) {
            return None;
        }
        match self.memo_of(table, id) {
            Some(known) => use_memo(known, left),
            None => None,
        }
    }

    // What is remembered of a term.
    fn memo_of(&self, table: &Table, id: Id) -> Option<CallMemo>
        requires { id < length table.now.trees }
        ensures { (S : spec.Signature) (most : ℕ) → let ts = table.now.trees in
            Remembers S most ts self.now.calls.entries self.now.terms.entries self.now.locals.entries →
            IsScope S ts (begun ts self.now.calls.entries) self.now.scope →
            IfSome result (λ r. IsKnown ts (begun ts self.now.calls.entries) (evals S most (entered ts self.now.scope id)) r) }
    {
        if self.is_itself(table, id) {
            return self.terms.get(&id).copied();
        }
        let here = self.scope.here();
        self.locals.get(&LocalKey { here, id }).copied()
    }

    // Whether a term is evaluated as it is: it has no parameter, or none has a value.
    fn is_itself(&self, table: &Table, id: Id) -> bool
        requires { id < length table.now.trees }
        ensures { (S : spec.Signature) (b : Begun) → let ts = table.now.trees in
            IsScope S ts b self.now.scope → IsTrue result → entered ts self.now.scope id ≡ tree_at ts id }
    {
        if self.scope.here() == 0 {
            return true;
        }
        table.is_closed(id)
    }

    // Whether nothing is kept of a term: it has few parts, or it is the body of the last call, of
    // which its result is kept.
    fn is_passed(&self, table: &Table, id: Id) -> bool
        requires { id < length table.now.trees }
    {
        if table.height(id) <= LOW {
            return true;
        }
        let Some(frame) = self.stack.frames.last() else {
            return false;
        };
        frame.is_body(id)
    }

    /// Keeps how a term ends, if it is with a value or with none and anything is kept of it.
    pub(crate) fn keep(
        &mut self,
        table: &Table,
        id: Id,
        outcome: &Outcome,
        deepest: u32,
    ) -> Result<(), AllocError>
        requires { id < length table.now.trees }
        ensures work { SameWork self.old self.new }
        ensures calls { self.new.calls.entries ≡ self.old.calls.entries }
        ensures remembers { (S : spec.Signature) (most : ℕ) → let ts = table.now.trees in
            Remembers S most ts self.old.calls.entries self.old.terms.entries self.old.locals.entries →
            IsScope S ts (begun ts self.old.calls.entries) self.old.scope →
            Keeps S most ts (begun ts self.old.calls.entries) self.old.scope id outcome.now deepest →
            Remembers S most ts self.new.calls.entries self.new.terms.entries self.new.locals.entries }
    {
        if self.is_passed(table, id) {
            return Ok(());
        }
        match *outcome {
            Outcome::Value(value) => self.remember(
                table,
                id,
                CallMemo::Value { id: value, deepest },
            ),
            Outcome::Stuck => self.remember(table, id, CallMemo::Stuck { deepest }),
            _ => Ok(()),
        }
    }

    /// Keeps what is known of a call that was begun, by its place among those that were.
    pub(crate) fn finish_call(&mut self, place: usize, known: CallMemo)
        requires { place < length self.old.calls.entries }
        ensures calls { self.new.calls.entries ≡ set_value_at self.old.calls.entries place known }
        ensures terms { self.new.terms.entries ≡ self.old.terms.entries }
        ensures locals { self.new.locals.entries ≡ self.old.locals.entries }
        ensures work { SameWork self.old self.new }
    {
        *self.calls.get_index_mut(place).unwrap() = known;
    }

    // Keeps what is known of a term.
    fn remember(&mut self, table: &Table, id: Id, known: CallMemo) -> Result<(), AllocError>
        requires { id < length table.now.trees }
        ensures work { SameWork self.old self.new }
        ensures calls { self.new.calls.entries ≡ self.old.calls.entries }
        ensures remembers { (S : spec.Signature) (most : ℕ) → let ts = table.now.trees in
            Remembers S most ts self.old.calls.entries self.old.terms.entries self.old.locals.entries →
            IsScope S ts (begun ts self.old.calls.entries) self.old.scope →
            IsKnown ts (begun ts self.old.calls.entries) (evals S most (entered ts self.old.scope id)) known →
            Remembers S most ts self.new.calls.entries self.new.terms.entries self.new.locals.entries }
    {
        if self.is_itself(table, id) {
            self.terms.insert(id, known)?;
            return Ok(());
        }
        let here = self.scope.here();
        self.locals.insert(LocalKey { here, id }, known)?;
        Ok(())
    }

    /// A call that was taken off has ended: the values that parameters had before it are restored, and
    /// what was remembered of terms with its parameters is dropped.
    pub(crate) fn close(&mut self, base: usize, here: usize, kept: usize)
        ensures frames { self.new.stack.frames.items ≡ self.old.stack.frames.items }
        ensures values { self.new.stack.values.items ≡ self.old.stack.values.items }
        ensures scope { self.new.scope ≡ outer self.old.scope base here }
        ensures calls { self.new.calls.entries ≡ self.old.calls.entries }
        ensures terms { self.new.terms.entries ≡ self.old.terms.entries }
        ensures locals { self.new.locals.entries ≡ take kept self.old.locals.entries }
    {
        self.scope.close(base, here);
        self.locals.truncate(kept);
    }
}

// What is remembered, where so many calls may open.
pub(crate) fn use_memo(known: CallMemo, left: u32) -> Option<Control>
    ensures { (ts : List Tree) (b : Begun) (F : Family) → IsKnown ts b F known → IfSome result (λ n. Recalls ts b F left n) }
{
    match known {
        CallMemo::Open => None,
        CallMemo::Value { id, deepest } => {
            if deepest <= left {
                Some(Control::Value { id, deepest })
            } else {
                Some(Control::Deep)
            }
        }
        CallMemo::Stuck { deepest } => {
            if deepest <= left {
                Some(Control::Stuck { deepest })
            } else {
                Some(Control::Deep)
            }
        }
    }
}

// Takes all out of a map, at the cost of what it held.
fn empty<K: Eq + Hash + Drop, V: Drop>(alloc: Global, map: &mut IndexMap<K, V>)
    ensures { map.new.entries ≡ [] }
{
    if map.len() > KEPT {
        *map = IndexMap::new(alloc);
    } else {
        map.clear();
    }
}
