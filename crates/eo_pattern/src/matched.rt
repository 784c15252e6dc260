//! The terms that patterns became.
ghost use Rattle.std.specs.Prelude.{◌≡◌, ◌≢◌, ◌<◌, ◌≤◌, ◌⊎◌, ◌↔◌, ℕ, [], length, max, IsTrue, OnOk, OnErr};
ghost use Rattle.eo_term.specs.Growth.{tree_in};
ghost use Rattle.eo_pattern.specs.Matched.{IsKept, is_large};

use eo_term::{Id, TYPE, Table};
use std::alloc::{AllocError, Global};
use std::marker::Model;

/// The term that each pattern was matched with in a search, by the place of the pattern, as far as
/// there are places: a pattern that occurs at several places is matched once.
///
/// An entry counts only in the round in which it was made, so that a new search drops all of them
/// at once.
#[derive(Drop)]
pub(crate) struct Pairs {
    entries: Vec<Entry>,
    round: u32,
    used: bool,
}

/// The term that a pattern became, and in which round.
#[derive(Clone, Copy)]
pub(crate) struct Entry {
    round: u32,
    term: Id,
}

impl Model for Pairs {
    ghost use Rattle.std.specs.Prelude.{◌≤◌, All};
    ghost use Rattle.eo_pattern.specs.Pairs.{Remembered};

    ghost Value = { Remembered };

    ghost view = { λ a. record { entries = a.entries.items; round = a.round; used = a.used } };

    ghost invariant = { λ a. All (λ e. e.round ≤ a.round) a.entries.items };
}

impl Pairs {
    /// None, with places for none. No memory is taken.
    pub(crate) fn new(alloc: Global) -> Pairs
        ensures { result.entries ≡ [] }
    {
        Pairs {
            entries: Vec::new(alloc),
            round: 0,
            used: false,
        }
    }

    /// Makes a place for each pattern of the first `n` terms. What is kept stays.
    pub(crate) fn reserve(&mut self, n: usize) -> Result<(), AllocError>
        ensures room { OnOk result (n ≤ length self.new.entries) }
        ensures more { length self.old.entries ≤ length self.new.entries }
        ensures least { length self.new.entries ≤ max n (length self.old.entries) }
        ensures kept { (p t : ℕ) → IsKept self.old p t → IsKept self.new p t }
        ensures err { OnErr result (self.new ≡ self.old) }
    {
        if self.entries.len() < n {
            let none = Entry {
                round: 0,
                term: TYPE,
            };
            self.entries.resize(n, none)?;
        }
        Ok(())
    }

    /// Nothing is kept, and what comes is kept if it is to be.
    pub(crate) fn begin(&mut self, used: bool)
        ensures none { (p t : ℕ) → IsKept self.new p t → ⊥ }
        ensures used { self.new.used ≡ used }
        ensures room { length self.new.entries ≡ length self.old.entries }
    {
        self.used = used;
        if used {
            if self.round == u32::MAX {
                let none = Entry {
                    round: 0,
                    term: TYPE,
                };
                self.entries.as_mut_slice().fill(none);
                self.round = 0;
            }
            self.round += 1;
        }
    }

    /// Whether what comes is kept.
    pub(crate) fn is_used(&self) -> bool
        ensures { result ≡ self.now.used }
    {
        self.used
    }

    /// Whether the pattern is kept with this term.
    pub(crate) fn is_kept(&self, pattern: Id, term: Id) -> bool
        ensures { IsTrue result ↔ IsKept self.now pattern term }
    {
        match self.entries.get(pattern.place()) {
            Some(entry) => self.used && entry.round == self.round && entry.term == term,
            None => false,
        }
    }

    /// Keeps a pattern with the term that it became.
    pub(crate) fn keep(&mut self, pattern: Id, term: Id)
        ensures kept { IsTrue self.old.used → pattern < length self.old.entries → IsKept self.new pattern term }
        ensures others { (p t : ℕ) → p ≢ pattern → IsKept self.new p t ↔ IsKept self.old p t }
        ensures only { (p t : ℕ) → IsKept self.new p t → ((p ≡ pattern) × (t ≡ term)) ⊎ IsKept self.old p t }
        ensures room { length self.new.entries ≡ length self.old.entries }
    {
        let place = pattern.place();
        if place < self.entries.len() {
            self.entries[place] = Entry {
                round: self.round,
                term,
            };
        }
    }
}

/// Whether a pattern has so many parts that pairs are kept while it is matched.
pub(crate) fn is_large(table: &Table, pattern: Id) -> bool
    requires { pattern < length table.now.trees }
    ensures { result ≡ is_large (tree_in table.now pattern) }
{
    let height = table.height(pattern);
    height >= 8 || height >= 3 && !table.is_plain(pattern)
}
