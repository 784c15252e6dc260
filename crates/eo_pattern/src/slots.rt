//! The values of parameters.
ghost use Rattle.std.specs.Prelude.{◌≡◌, ℕ, ◌<◌, ◌≤◌, List, [], length, None, Some, OnOk, OnErr, slice_get};
ghost use Rattle.std.specs.Option.{option_flatten};
ghost use Rattle.eo_term.specs.Tree.{Tree};
ghost use Rattle.eo_term.specs.Terms.{tree_at};
ghost use Rattle.eo_pattern.specs.Matching.{assign, empty};
ghost use Rattle.eo_pattern.specs.Slots.{held, AreBelow, AreEmpty, IsAssigned, IsNoMore};

use eo_term::{Id, ParamSet};
use std::alloc::{AllocError, Global};
use std::marker::Model;

/// The value of each parameter: a term, or none. It has a place for each parameter below a number,
/// and keeps the height of patterns that there is room for.
#[derive(Drop)]
pub(crate) struct Held {
    values: Vec<Option<Id>>,
    height: usize,
}

impl Model for Held {
    ghost use Rattle.eo_pattern.specs.Slots.{Slots};

    ghost Value = { Slots };

    ghost view = { λ a. record { values = a.values.items; height = a.height } };
}

impl Held {
    /// Nothing, with room for nothing. No memory is taken.
    pub(crate) fn new(alloc: Global) -> Held
        ensures none { result.values ≡ [] }
        ensures low { result.height ≡ 0 }
        ensures empty { AreEmpty result }
        ensures below { (n : ℕ) → AreBelow n result }
    {
        Held {
            values: Vec::new(alloc),
            height: 0,
        }
    }

    /// Makes places for the parameters below `pars`, and notes that there is room for patterns of at
    /// most that height. Where there is no memory left, nothing changes.
    pub(crate) fn reserve(&mut self, pars: usize, height: usize) -> Result<(), AllocError>
        ensures held { (ts : List Tree) → held ts self.new ≡ held ts self.old }
        ensures below { (n : ℕ) → AreBelow n self.old → AreBelow n self.new }
        ensures pars { OnOk result (pars ≤ length self.new.values) }
        ensures height { OnOk result (height ≤ self.new.height) }
        ensures more_pars { length self.old.values ≤ length self.new.values }
        ensures more_height { self.old.height ≤ self.new.height }
        ensures least { IsNoMore pars height self.old self.new }
        ensures err { OnErr result (self.new ≡ self.old) }
    {
        if self.values.len() < pars {
            self.values.resize(pars, None)?;
        }
        self.height = self.height.max(height);
        Ok(())
    }

    /// The value of the parameter, if it has one.
    pub(crate) fn get(&self, i: usize) -> Option<Id>
        ensures value { result ≡ option_flatten (slice_get self.now.values i) }
    {
        self.values.get(i).copied().flatten()
    }

    /// The value of each parameter that there is room for, by its number.
    pub(crate) fn slots(&self) -> &[Option<Id>]
        ensures { result.now ≡ self.now.values }
    {
        self.values.as_slice()
    }

    /// The parameters below 64 that have a value.
    pub(crate) fn assigned_params(&self) -> ParamSet
        ensures { IsAssigned result self.now }
    {
        let mut set = ParamSet::new();
        for i in 0..self.values.len().min(64) {
            if self.values[i].is_some() {
                set.add_all(ParamSet::of(i as u8));
            }
        }
        set
    }

    /// Drops what is held. The room stays.
    pub(crate) fn clear(&mut self)
        ensures empty { AreEmpty self.new }
        ensures below { (n : ℕ) → AreBelow n self.new }
        ensures held { (ts : List Tree) → held ts self.new ≡ empty }
        ensures room { length self.new.values ≡ length self.old.values }
        ensures height { self.new.height ≡ self.old.height }
    {
        self.values.as_mut_slice().fill(None);
    }

    /// Gives the parameter a term as its value.
    pub(crate) fn put(&mut self, i: u8, id: Id)
        requires { i < length self.old.values }
        ensures held { (ts : List Tree) → held ts self.new ≡ assign (held ts self.old) i (tree_at ts id) }
        ensures below { (n : ℕ) → AreBelow n self.old → id < n → AreBelow n self.new }
        ensures room { length self.new.values ≡ length self.old.values }
        ensures height { self.new.height ≡ self.old.height }
    {
        self.values[i as usize] = Some(id);
    }
}
