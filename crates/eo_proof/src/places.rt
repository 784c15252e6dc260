//! At which place of a list each of its names is.
ghost use Rattle.std.specs.Prelude.{◌≡◌, ◌≢◌, ◌<◌, ◌≤◌, ◌+◌, ◌*◌, ◌^◌, ℕ, ◌∷◌, ◌++◌, [], List};
ghost use Rattle.std.specs.Prelude.{◌↔◌, Some, None, take, IsTrue, IsFalse, OnOk, OnErr, option_and_then, slice_get};
ghost use Rattle.std.specs.Map.{lookup};
ghost use Rattle.std.specs.Str.{bytes_eq};
ghost use Rattle.eo_proof.specs.Places.{Entry, next_number, number_from, number_in, at_place, place_in, AreFound, IsFree, LeadsTo};

use crate::texts::Texts;
use eo_base::{Name, NameRef};
use indexmap::IndexMap;
use std::alloc::{AllocError, Global};
use std::hash::{BuildHasherDefault, DefaultHasher};

/// At which places of a list names are. A solver numbers the names that it gives, `@p1`, `@p2`, ..,
/// so a name is found by the number that it ends in, by one look into a table that is read in order. A
/// name whose number is too great, or was taken by another, is found by its hash, which is SipHash,
/// since the proof chooses the names.
#[derive(Drop)]
pub(crate) struct Places {
    // For each number, the place of a name that ends in it.
    numbered: Vec<u32>,
    // The places of the other names.
    others: IndexMap<Name, usize, BuildHasherDefault<DefaultHasher>>,
}

/// The place that a number leads to where no name ends in it. A list is never so long.
const NOWHERE: u32 = u32::MAX;

/// The number of at most nine digits that a name ends in, or 0. A longer one starts again after its
/// tenth digit.
pub(crate) fn number_in(name: &[u8]) -> usize
    ensures { result ≡ number_in name.now }
{
    let mut number = 0u32;
    for b in name {
        number = next_number(number, *b);
    }
    number as usize
}

/// The number after one byte more.
#[inline(always)]
fn next_number(number: u32, b: u8) -> u32
    ensures { result ≡ next_number number b }
{
    if b'0' <= b && b < b':' && number < 100_000_000 {
        number * 10 + u32::from(b - b'0')
    } else {
        0
    }
}

/// The place, where the name is there.
fn at_place(names: &Texts, name: &[u8], place: usize) -> Option<usize>
    ensures { result ≡ at_place names.now name.now place }
{
    match names.get(place) {
        Some(other) if name == other => Some(place),
        _ => None,
    }
}

/// Whether a number may lead to this place: the table of numbers has at most eight for each name.
fn may_lead(number: usize, place: usize) -> bool
    ensures { IsTrue result ↔ ((place < 4294967295) × (number ≤ 8 * place + 64)) }
{
    place < NOWHERE as usize && number <= 8 * place + 64
}

/// Whether the name at the place, if there is one, ends in the number.
fn ends_in(names: &Texts, place: usize, number: usize) -> bool
    ensures { IsFalse result ↔ ((name : List ℕ) → slice_get names.now place ≡ Some name → number_in name ≢ number) }
{
    match names.get(place) {
        Some(name) => number_in(name) == number,
        None => false,
    }
}

impl Places {
    /// Those of no names. No memory is taken.
    pub(crate) fn new(alloc: Global) -> Places
        ensures numbered { result.numbered.items ≡ [] }
        ensures others { result.others.entries ≡ [] }
    {
        Places {
            numbered: Vec::new(alloc),
            others: IndexMap::with_hasher(alloc, BuildHasherDefault::new()),
        }
    }

    /// The place of a name among these, by the number that it ends in.
    pub(crate) fn find(&self, names: &Texts, name: &[u8], number: usize) -> Option<usize>
        requires { number ≡ number_in name.now }
        ensures { result ≡ place_in names.now self.now.numbered.items self.now.others.entries name.now }
    {
        match self.by_number(names, name, number) {
            Some(place) => Some(place),
            None => self.by_hash(names, name),
        }
    }

    // The place that a number leads to, where the name is there.
    fn by_number(&self, names: &Texts, name: &[u8], number: usize) -> Option<usize>
        ensures { result ≡ option_and_then (at_place names.now name.now) (slice_get self.now.numbered.items number) }
    {
        let place = *self.numbered.get(number)?;
        at_place(names, name, place as usize)
    }

    // The place that the hash of a name leads to.
    fn by_hash(&self, names: &Texts, name: &[u8]) -> Option<usize>
        ensures { result ≡ option_and_then (at_place names.now name.now) (lookup (bytes_eq name.now) self.now.others.entries) }
    {
        if self.others.is_empty() {
            return None;
        }
        let place = *self.others.get(NameRef(name))?;
        at_place(names, name, place)
    }

    /// Keeps the place after these names for one more name, which is none of them and ends in this
    /// number.
    pub(crate) fn add(
        &mut self,
        alloc: Global,
        names: &Texts,
        name: &[u8],
        number: usize,
    ) -> Result<(), AllocError>
        requires number { number ≡ number_in name.now }
        requires found { AreFound names.now self.old.numbered.items self.old.others.entries }
        requires new { place_in names.now self.old.numbered.items self.old.others.entries name.now ≡ None }
        ensures added { OnOk result (AreFound (names.now ++ name.now ∷ []) self.new.numbered.items self.new.others.entries) }
        ensures numbered { OnErr result (self.new.numbered.items ≡ self.old.numbered.items) }
        ensures others { OnErr result (self.new.others.entries ≡ self.old.others.entries) }
    {
        let place = names.len();
        if may_lead(number, place) && self.is_free(names, number) {
            self.lead(number, place as u32)?;
            return Ok(());
        }
        let name = Name::new(alloc, name)?;
        self.others.insert(name, place)?;
        Ok(())
    }

    // Whether the number leads to no name that ends in it.
    fn is_free(&self, names: &Texts, number: usize) -> bool
        ensures { IsTrue result ↔ IsFree names.now self.now.numbered.items number }
    {
        match self.numbered.get(number) {
            None => true,
            Some(place) => !ends_in(names, *place as usize, number),
        }
    }

    // Lets a number lead to a place.
    fn lead(&mut self, number: usize, place: u32) -> Result<(), AllocError>
        requires { number < 2 ^ 36 }
        ensures leads { OnOk result (LeadsTo self.old.numbered.items number place self.new.numbered.items) }
        ensures numbered { OnErr result (self.new.numbered.items ≡ self.old.numbered.items) }
        ensures others { self.new.others.entries ≡ self.old.others.entries }
    {
        if number >= self.numbered.len() {
            self.numbered.resize(number + 1, NOWHERE)?;
        }
        self.numbered[number] = place;
        Ok(())
    }

    /// Leaves only places below a bound.
    pub(crate) fn cut(&mut self, n: usize)
        ensures { (ns : List (List ℕ)) → AreFound ns self.old.numbered.items self.old.others.entries →
            AreFound (take n ns) self.new.numbered.items self.new.others.entries }
    {
        let mut kept = self.others.len();
        while kept > 0 && self.is_behind(kept - 1, n) {
            kept -= 1;
        }
        self.others.truncate(kept);
    }

    // Whether another name, by its number among them, has no place below the bound.
    fn is_behind(&self, i: usize, n: usize) -> bool
        ensures { IsTrue result ↔ ((e : Entry) → slice_get self.now.others.entries i ≡ Some e → n ≤ e.1) }
    {
        match self.others.get_index(i) {
            Some((_, place)) => *place >= n,
            None => true,
        }
    }
}
