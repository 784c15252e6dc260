//! The formulas of facts, one after another.
use eo_term::Id;
use std::marker::Model;

/// The formulas of facts, the oldest first.
#[derive(Drop)]
pub struct FactIds<'a> {
    pub(crate) left: &'a [Id],
}

impl<'a> Model for FactIds<'a> {
    ghost use Rattle.std.specs.Prelude.{ℕ, List};

    ghost Value = { List ℕ };

    ghost view = { λ a. a.left.now };
}

impl<'a> Iterator for FactIds<'a> {
    ghost use Rattle.std.specs.Iterator.{YieldsFirst, item_count};

    type Item = Id;

    ghost next_gives = { YieldsFirst (λ rest. rest) };

    ghost remaining = { item_count (λ rest. rest) };

    fn next(&mut self) -> Option<Id> {
        let (first, rest) = self.left.split_first()?;
        self.left = rest;
        Some(*first)
    }
}
