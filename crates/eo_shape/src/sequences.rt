//! Lists of symbols, and lists of pairs.
ghost use Rattle.std.specs.Prelude.{◌≡◌, List, [], length, is_some, option_map};
ghost use Rattle.eo_shape.specs.Reading.{read_pair};
ghost use Rattle.eo_shape.specs.Sequences.{shaped_pair};
ghost use Rattle.eo_shape.specs.Shapes.{every, symbols_of, pairs_of};
ghost use Rattle.eo_shape.specs.Words.{symbol_of};

use crate::PairShape;
use crate::words::symbol;
use eo_sexp::{Children, Sexp};
use std::marker::Model;

/// The symbols of a list of which each part is one, in order.
#[derive(Drop)]
pub struct Symbols<'a> {
    items: Children<'a>,
}

impl<'a> Model for Symbols<'a> {
    ghost use Rattle.std.specs.Prelude.{ℕ, List};
    ghost use Rattle.eo_shape.specs.Sequences.{symbols_in, AreSymbols};

    ghost Value = { List (List ℕ) };

    ghost view = { λ a. symbols_in a.items };

    ghost invariant = { λ a. AreSymbols a.items };
}

impl<'a> Symbols<'a> {
    /// How many there are.
    pub fn len(&self) -> usize
        ensures { result ≡ length self.now }
    {
        self.items.len()
    }

    /// The same symbols once more.
    pub fn again(&self) -> Symbols<'a>
        ensures { result ≡ self.now }
    {
        Symbols {
            items: self.items.again(),
        }
    }
}

impl<'a> Iterator for Symbols<'a> {
    ghost use Rattle.std.specs.Iterator.{YieldsFirstBy, item_count};

    type Item = &'a [u8];

    ghost next_gives = { YieldsFirstBy (λ x. x.now) (λ rest. rest) };

    ghost remaining = { item_count (λ rest. rest) };

    fn next(&mut self) -> Option<&'a [u8]> {
        let item = self.items.next()?;
        symbol(&item)
    }
}

/// The symbols in this list, where each part is one.
pub(crate) fn symbols_in<'b>(s: &Sexp<'b>) -> Option<Symbols<'b>>
    ensures { result ≡ symbols_of s.now }
{
    let items = s.list()?;
    if !are_symbols(&items) {
        return None;
    }
    Some(Symbols { items })
}

/// No symbols, of the command that has these parts.
pub(crate) fn no_symbols<'b>(parts: &Children<'b>) -> Symbols<'b>
    ensures { result ≡ [] }
{
    Symbols {
        items: parts.none(),
    }
}

/// Whether each is a symbol.
fn are_symbols(items: &Children<'_>) -> bool
    ensures { result ≡ is_some (every symbol_of items.now) }
{
    for item in items.again() {
        if symbol(&item).is_none() {
            return false;
        }
    }
    true
}

/// The pairs of a list of which each part is a list of two, in order.
#[derive(Drop)]
pub struct PairShapes<'a> {
    items: Children<'a>,
}

impl<'a> Model for PairShapes<'a> {
    ghost use Rattle.std.specs.Prelude.{List};
    ghost use Rattle.std.specs.Coded.{codes};
    ghost use Rattle.eo_sexp.specs.Sexp.{Sexp};
    ghost use Rattle.eo_sexp.specs.SexpCode.{sexp_coded};
    ghost use Rattle.eo_shape.specs.Sequences.{pairs_in, ArePairs};

    ghost Value = { List (Sexp × Sexp) };

    ghost coded = { Prim.hlevel (codes, sexp_coded) };

    ghost view = { λ a. pairs_in a.items };

    ghost invariant = { λ a. ArePairs a.items };
}

impl<'a> PairShapes<'a> {
    /// The same pairs once more.
    pub fn again(&self) -> PairShapes<'a>
        ensures { result ≡ self.now }
    {
        PairShapes {
            items: self.items.again(),
        }
    }
}

impl<'a> Iterator for PairShapes<'a> {
    ghost use Rattle.std.specs.Iterator.{YieldsFirstBy, item_count};
    ghost use Rattle.eo_shape.specs.Reading.{read_pair};

    type Item = PairShape<'a>;

    ghost next_gives = { YieldsFirstBy read_pair (λ rest. rest) };

    ghost remaining = { item_count (λ rest. rest) };

    fn next(&mut self) -> Option<PairShape<'a>> {
        let item = self.items.next()?;
        pair(&item)
    }
}

/// The pairs in this list, where each part is a list of two.
pub(crate) fn pairs<'b>(s: &Sexp<'b>) -> Option<PairShapes<'b>>
    ensures { result ≡ pairs_of s.now }
{
    let items = s.list()?;
    if !are_pairs(&items) {
        return None;
    }
    Some(PairShapes { items })
}

/// No pairs, of the command that has these parts.
pub(crate) fn no_pairs<'b>(parts: &Children<'b>) -> PairShapes<'b>
    ensures { result ≡ [] }
{
    PairShapes {
        items: parts.none(),
    }
}

/// Whether each is a list of two.
fn are_pairs(items: &Children<'_>) -> bool
    ensures { result ≡ is_some (every shaped_pair items.now) }
{
    for item in items.again() {
        if pair(&item).is_none() {
            return false;
        }
    }
    true
}

/// The parts of a list of two.
fn pair<'b>(s: &Sexp<'b>) -> Option<PairShape<'b>>
    ensures { option_map read_pair result ≡ shaped_pair s.now }
{
    let (left, right) = s.list()?.only_two()?;
    Some(PairShape { left, right })
}
