//! The values of parameters while the bodies of calls are evaluated.
ghost use Rattle.std.specs.Prelude.{◌≡◌, List, OnOk};
ghost use Rattle.eo_stack.specs.Scopes.{Bound, none_bound, slot_at, inner, outer};

use eo_term::Id;
use std::alloc::{AllocError, Global};
use std::marker::Model;

/// The values of the parameters of the calls that wait for their bodies. Only those of the last
/// call can be read: they are from `base` on. That call is the one at the place before `here`;
/// where `here` is 0, no parameter has a value.
#[derive(Drop)]
pub struct Env {
    bound: Vec<Option<Id>>,
    base: usize,
    here: usize,
}

impl Model for Env {
    ghost use Rattle.eo_stack.specs.Scopes.{Bound};

    ghost Value = { Bound };

    ghost view = { λ a. record { slots = a.bound.items; base = a.base; here = a.here } };
}

impl Env {
    /// No parameter has a value.
    pub fn new(alloc: Global) -> Env
        ensures { result ≡ none_bound }
    {
        Env {
            bound: Vec::new(alloc),
            base: 0,
            here: 0,
        }
    }

    /// Leaves no parameter with a value.
    pub fn clear(&mut self)
        ensures { self.new ≡ none_bound }
    {
        self.bound.clear();
        self.base = 0;
        self.here = 0;
    }

    /// The place from which on are the values that can be read.
    pub fn base(&self) -> usize
        ensures { result ≡ self.now.base }
    {
        self.base
    }

    /// The number after the place of the call whose parameters have values, or 0.
    pub fn here(&self) -> usize
        ensures { result ≡ self.now.here }
    {
        self.here
    }

    /// The value of a parameter, if it has one.
    pub fn slot(&self, i: usize) -> Option<Id>
        ensures { result ≡ slot_at self.now i }
    {
        if self.base > self.bound.len() {
            return None;
        }
        self.bound.as_slice()[self.base..].get(i).copied().flatten()
    }

    /// Gives the parameters of the call before `here` these values.
    pub fn open(&mut self, here: usize, slots: &[Option<Id>]) -> Result<(), AllocError>
        ensures { OnOk result (self.new ≡ inner self.old here slots.now) }
    {
        self.base = self.bound.len();
        self.here = here;
        self.bound.extend_from_slice(slots)?;
        Ok(())
    }

    /// Restores the values that parameters had before the last call.
    pub fn close(&mut self, base: usize, here: usize)
        ensures { self.new ≡ outer self.old base here }
    {
        self.bound.truncate(self.base);
        self.base = base;
        self.here = here;
    }
}
