//! Sets of parameters.
ghost use Rattle.std.specs.Prelude.{◌≡◌, ℕ, ◌<◌, ◌↔◌, ◌||◌, false, true, nat_eq, IsTrue};
ghost use Rattle.eo_term.specs.ParamSet.{has, AddsAll};

use std::marker::Model;

/// A set of parameters. Contracts ask it by `has`.
#[derive(Clone, Copy, Debug)]
pub struct ParamSet {
    bits: u64,
}

impl Model for ParamSet {
    ghost use Rattle.std.specs.Prelude.{ℕ, ◌<◌, ◌^◌};

    ghost Value = { ℕ };

    ghost view = { λ a. a.bits };

    ghost invariant = { λ a. a.bits < 2 ^ 64 };

    ghost inverse = { λ n. record { bits = n } };
}

impl ParamSet {
    /// No parameter.
    pub fn new() -> ParamSet
        ensures { (i : ℕ) → has result i ≡ false }
    {
        ParamSet { bits: 0 }
    }

    /// One parameter.
    pub fn of(par: u8) -> ParamSet
        requires { par < 64 }
        ensures { (i : ℕ) → has result i ≡ nat_eq i par }
    {
        ParamSet { bits: 1 << par }
    }

    /// Whether it has the parameter.
    pub fn has(&self, par: usize) -> bool
        ensures { result ≡ has self.now par }
    {
        par < 64 && (self.bits >> par) & 1 == 1
    }

    /// A number above each of its parameters.
    pub fn upper_bound(&self) -> usize
        ensures { (i : ℕ) → has self.now i ≡ true → i < result }
    {
        64 - self.bits.leading_zeros() as usize
    }

    /// The parameters of both.
    pub fn union(self, other: ParamSet) -> ParamSet
        ensures { (i : ℕ) → has result i ≡ (has self i || has other i) }
    {
        ParamSet {
            bits: self.bits | other.bits,
        }
    }

    /// Whether the other set has each of its parameters.
    pub fn is_within(self, other: ParamSet) -> bool
        ensures { IsTrue result ↔ ((i : ℕ) → has self i ≡ true → has other i ≡ true) }
    {
        self.bits | other.bits == other.bits
    }

    /// Whether the two sets have no parameter in common.
    pub fn is_apart(self, other: ParamSet) -> bool
        ensures apart { IsTrue result ↔ ((i : ℕ) → has self i ≡ true → has other i ≡ false) }
        ensures small { (i : ℕ) → has self i ≡ true → i < 64 }
    {
        self.bits & other.bits == 0
    }

    /// Adds the parameters of the other set.
    pub fn add_all(&mut self, other: ParamSet)
        ensures { AddsAll (has other) self.old self.new }
    {
        self.bits |= other.bits;
    }
}
