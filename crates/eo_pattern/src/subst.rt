//! Assignments of terms to parameters.
ghost use Rattle.std.specs.Prelude.{◌≡◌, ℕ, ◌<◌, ◌≤◌, List, length, OnOk, OnErr, slice_get};
ghost use Rattle.std.specs.Option.{option_flatten};
ghost use Rattle.eo_term.specs.Tree.{Tree};
ghost use Rattle.eo_term.specs.Terms.{tree_at};
ghost use Rattle.eo_term.specs.Growth.{tree_in};
ghost use Rattle.eo_pattern.specs.Matching.{assign, empty};
ghost use Rattle.eo_pattern.specs.Slots.{held, AreBelow, AreEmpty, HasRoom, IsAssigned, IsNoMore};

use crate::matched::{Pairs, is_large};
use crate::slots::Held;
use crate::tasks::Tasks;
use eo_term::{Id, ParamSet, Table};
use std::alloc::{AllocError, Global};
use std::marker::Model;

/// The value of each parameter: a term, or none. It has room for the parameters below a number
/// and for patterns up to a height; no call lessens it.
///
/// For a pattern of a height, a search for a match takes a list of at most twice as many tasks.
#[derive(Drop)]
pub struct Subst {
    pub(crate) alloc: Global,
    pub(crate) slots: Held,
    pub(crate) tasks: Tasks,
    pub(crate) pairs: Pairs,
}

impl Model for Subst {
    ghost use Rattle.std.specs.Prelude.{◌*◌, ◌≤◌};
    ghost use Rattle.eo_pattern.specs.Slots.{Slots};

    ghost Value = { Slots };

    ghost view = { λ a. a.slots };

    ghost invariant = { λ a. 2 * a.slots.height ≤ a.tasks.room };
}

impl Subst {
    /// An assignment of nothing, with room for nothing. No memory is taken.
    pub fn new(alloc: Global) -> Subst
        ensures empty { AreEmpty result }
        ensures below { (n : ℕ) → AreBelow n result }
    {
        Subst {
            alloc,
            slots: Held::new(alloc),
            tasks: Tasks::new(alloc),
            pairs: Pairs::new(alloc),
        }
    }

    /// Makes room for the parameters below `pars`, and for patterns of at most that height, and for
    /// no more than that. The values stay, and so does room that is there already. Where there is no
    /// memory left, nothing changes.
    pub fn reserve(&mut self, pars: usize, height: usize) -> Result<(), AllocError>
        ensures held { (ts : List Tree) → held ts self.new ≡ held ts self.old }
        ensures below { (n : ℕ) → AreBelow n self.old → AreBelow n self.new }
        ensures pars { OnOk result (pars ≤ length self.new.values) }
        ensures height { OnOk result (height ≤ self.new.height) }
        ensures more_pars { length self.old.values ≤ length self.new.values }
        ensures more_height { self.old.height ≤ self.new.height }
        ensures least { IsNoMore pars height self.old self.new }
        ensures err { OnErr result (self.new ≡ self.old) }
    {
        let Some(tasks) = height.checked_mul(2) else {
            return Err(AllocError);
        };
        self.tasks.reserve(tasks)?;
        self.slots.reserve(pars, height)
    }

    /// Makes room for a pattern: for its parameters and its height, and, where it has many parts, a
    /// place for each of them, so that it is matched in the time of its different parts. What is held
    /// stays, and so does room that is there already.
    pub fn reserve_for(&mut self, table: &Table, pattern: Id) -> Result<(), AllocError>
        requires { pattern < length table.now.trees }
        ensures room { OnOk result (HasRoom self.new (tree_in table.now pattern)) }
        ensures more { (p : Tree) → HasRoom self.old p → HasRoom self.new p }
        ensures held { (ts : List Tree) → held ts self.new ≡ held ts self.old }
        ensures below { (n : ℕ) → AreBelow n self.old → AreBelow n self.new }
    {
        let room = table.parameters(pattern).upper_bound();
        self.reserve(room, table.height(pattern) as usize)?;
        if is_large(table, pattern) {
            self.pairs.reserve(pattern.place() + 1)?;
        }
        Ok(())
    }

    /// The value of the parameter, if it has one.
    pub fn get(&self, i: usize) -> Option<Id>
        ensures value { result ≡ option_flatten (slice_get self.now.values i) }
    {
        self.slots.get(i)
    }

    /// The value of each parameter that there is room for, by its number.
    pub fn slots(&self) -> &[Option<Id>]
        ensures { result.now ≡ self.now.values }
    {
        self.slots.slots()
    }

    /// The parameters below 64 that have a value.
    pub(crate) fn assigned_params(&self) -> ParamSet
        ensures { IsAssigned result self.now }
    {
        self.slots.assigned_params()
    }

    /// Drops what is held. The room stays.
    pub fn clear(&mut self)
        ensures empty { AreEmpty self.new }
        ensures below { (n : ℕ) → AreBelow n self.new }
        ensures held { (ts : List Tree) → held ts self.new ≡ empty }
        ensures room { length self.new.values ≡ length self.old.values }
        ensures height { self.new.height ≡ self.old.height }
    {
        self.slots.clear();
    }

    /// Gives the parameter a term as its value.
    pub fn put(&mut self, i: u8, id: Id)
        requires { i < length self.old.values }
        ensures held { (ts : List Tree) → held ts self.new ≡ assign (held ts self.old) i (tree_at ts id) }
        ensures below { (n : ℕ) → AreBelow n self.old → id < n → AreBelow n self.new }
        ensures room { length self.new.values ≡ length self.old.values }
        ensures height { self.new.height ≡ self.old.height }
    {
        self.slots.put(i, id);
    }
}
