//! Types that were found, with their terms.
ghost use Rattle.std.specs.Prelude.{◌≡◌, ◌-◌, ◌<◌, ◌≤◌, ◌∷◌, ◌++◌, [], length, take, filter, replicate};
ghost use Rattle.std.specs.Prelude.{slice_index_or, true, None, All, OnOk, OnErr};
ghost use Rattle.eo_type.specs.Known.{kept_type, is_before};
ghost use Rattle.eo_type.specs.Greatest.{IsUpTo};

use eo_term::Id;
use indexmap::IndexMap;
use std::alloc::{AllocError, Global};
use std::marker::Model;

/// Types with their terms, in the order in which they were found. Contracts see them as a list of
/// pairs.
#[derive(Drop)]
pub(crate) struct TypeCache {
    types: IndexMap<Id, Id>,
    // Beside each entry a number that no term of it and of the entries before it exceeds: so the first
    // entry that a mark may cut off is found from the end.
    greatest: Vec<usize>,
}

impl Model for TypeCache {
    ghost use Rattle.std.specs.Prelude.{List, ℕ};
    ghost use Rattle.eo_type.specs.Greatest.{AreGreatest};

    ghost Value = { List (ℕ × ℕ) };

    ghost view = { λ a. a.types.entries };

    ghost invariant = { λ a. AreGreatest a.greatest.items a.types.entries };
}

impl TypeCache {
    /// No types.
    pub(crate) fn new(alloc: Global) -> TypeCache
        ensures { result ≡ [] }
    {
        TypeCache {
            types: IndexMap::new(alloc),
            greatest: Vec::new(alloc),
        }
    }

    /// The type that is kept for a term.
    pub(crate) fn get(&self, id: Id) -> Option<Id>
        ensures { result ≡ kept_type self.now id }
    {
        self.types.get(&id).copied()
    }

    /// Keeps the type of a term of which none is kept. `Err`: out of memory.
    pub(crate) fn keep(&mut self, id: Id, ty: Id) -> Result<(), AllocError>
        requires { kept_type self.old id ≡ None }
        ensures kept { OnOk result (self.new ≡ self.old ++ (id, ty) ∷ []) }
        ensures same { OnErr result (self.new ≡ self.old) }
    {
        let greatest = self.greatest_with(id, ty);
        self.greatest.reserve(1)?;
        self.types.insert(id, ty)?;
        self.greatest.push(greatest)?;
        Ok(())
    }

    /// Keeps the entries alone whose terms are both among the first so many terms. It costs no more
    /// than was found since there were no more terms than that, and next to nothing where all are kept.
    #[inline]
    pub(crate) fn forget(&mut self, terms: usize)
        ensures { self.new ≡ filter (is_before terms) self.old }
    {
        if self.are_older(terms) {
            return;
        }
        self.forget_newer(terms);
    }

    // The same, where the number beside the last entry does not show that all are kept.
    #[tactic(auto, using(crate::proofs::Greatest::nothing_forgotten))]
    #[inline(never)]
    fn forget_newer(&mut self, terms: usize)
        ensures { self.new ≡ filter (is_before terms) self.old }
    {
        let start = self.older(terms);
        if start == self.types.len() {
            return;
        }
        self.forget_from(start, terms);
    }

    // The same, where the terms of those at the front are among them.
    fn forget_from(&mut self, start: usize, terms: usize)
        requires within { start ≤ length self.old }
        requires before { All (λ e. is_before terms e ≡ true) (take start self.old) }
        ensures { self.new ≡ filter (is_before terms) self.old }
    {
        let end = gather(&mut self.types, start, terms);
        self.types.truncate(end);
        cut(&mut self.greatest, start, end, terms.saturating_sub(1));
    }

    // The number that no term exceeds, once the type of one more is kept.
    fn greatest_with(&self, id: Id, ty: Id) -> usize
        ensures { All (IsUpTo result) (self.now ++ (id, ty) ∷ []) }
    {
        let last = self.greatest.last().copied().unwrap_or(0);
        last.max(id.place()).max(ty.place())
    }

    // Whether all entries name only the first so many terms, by the number beside the last.
    #[inline]
    fn are_older(&self, terms: usize) -> bool
        ensures { result ≡ true → self.now ≡ filter (is_before terms) self.now }
    {
        match self.greatest.last() {
            Some(greatest) => *greatest < terms,
            None => true,
        }
    }

    // How many entries at the front name only the first so many terms, by the numbers beside
    // them.
    fn older(&self, terms: usize) -> usize
        ensures within { result ≤ length self.now }
        ensures before { All (λ e. is_before terms e ≡ true) (take result self.now) }
    {
        let mut count = self.greatest.len();
        while count > 0 {
            if self.greatest[count - 1] < terms {
                return count;
            }
            count -= 1;
        }
        count
    }
}

// Moves the entries whose terms are both among the first so many to the front, in their order, and
// returns how many they are. Those before `start` are there.
fn gather(types: &mut IndexMap<Id, Id>, start: usize, terms: usize) -> usize
    requires within { start ≤ length types.old.entries }
    requires before { All (λ e. is_before terms e ≡ true) (take start types.old.entries) }
    ensures from { start ≤ result }
    ensures within { result ≤ length types.old.entries }
    ensures long { length types.new.entries ≡ length types.old.entries }
    ensures gathered { take result types.new.entries ≡ filter (is_before terms) types.old.entries }
{
    let mut end = start;
    for at in start..types.len() {
        if is_old(types, at, terms) {
            types.swap_indices(end, at);
            end += 1;
        }
    }
    end
}

// Whether the terms of the entry at a place are both among the first so many.
fn is_old(types: &IndexMap<Id, Id>, at: usize, terms: usize) -> bool
    requires { at < length types.now.entries }
    ensures { result ≡ is_before terms (slice_index_or types.now.entries at (0, 0)) }
{
    let (id, ty) = types.get_index(at).unwrap();
    id.place() < terms && ty.place() < terms
}

// Cuts a list at `end`, and writes `value` from `start` on.
fn cut(greatest: &mut Vec<usize>, start: usize, end: usize, value: usize)
    requires from { start ≤ end }
    requires within { end ≤ length greatest.old.items }
    ensures { greatest.new.items ≡ take start greatest.old.items ++ replicate (end - start) value }
{
    greatest.truncate(end);
    greatest[start..].fill(value);
}
