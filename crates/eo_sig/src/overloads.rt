//! The constants of a name that has several, by the numbers of arguments that they take.
ghost use Rattle.std.specs.Prelude.{◌≡◌, ℕ, List, [], OnOk, OnErr};
ghost use Rattle.eo_sig.specs.Indexed as indexed;
ghost use Rattle.eo_sig.specs.Indexed.{later_at, later_reaches, with_other};
ghost use Rattle.eo_sig.specs.Overloads.{rest_in, tables_of};
ghost use Rattle.eo_sig.specs.Reading.{read_counts};
ghost use Rattle.eo_sig.specs.Signature.{Exactly};

use crate::Counts;
use indexmap::IndexMap;
use std::alloc::{AllocError, Global};

/// A number of arguments, beside a name, which is given by the number of its first constant.
#[derive(Clone, Copy, PartialEq, Eq, Hash)]
pub(crate) struct CountKey {
    first: usize,
    count: usize,
}

/// The constant that takes all numbers of arguments from one on.
#[derive(Clone, Copy)]
pub(crate) struct Rest {
    least: usize,
    constant: usize,
}

/// The constants but the first of each name. A name is given by the number of its first constant.
/// Each look-up costs a hash or two, however many constants have the name.
#[derive(Drop)]
pub(crate) struct Overloads {
    exact: IndexMap<CountKey, usize>,
    rest: IndexMap<usize, Rest>,
    // The greatest number of arguments that one of them takes alone.
    most: IndexMap<usize, usize>,
}

impl Overloads {
    pub(crate) fn new(alloc: Global) -> Overloads
        ensures { tables_of [] result ≡ indexed.no_tables }
    {
        Overloads {
            exact: IndexMap::new(alloc),
            rest: IndexMap::new(alloc),
            most: IndexMap::new(alloc),
        }
    }

    /// The one that takes so many arguments.
    pub(crate) fn taking(&self, first: usize, count: usize) -> Option<usize>
        ensures { (fs : List (List ℕ × ℕ)) → result ≡ later_at (tables_of fs self.now) count first }
    {
        match self.exact.get(&CountKey { first, count }).copied() {
            Some(constant) => Some(constant),
            None => self.taking_more(first, count),
        }
    }

    // The one that takes so many arguments and all greater numbers.
    fn taking_more(&self, first: usize, count: usize) -> Option<usize>
        ensures { result ≡ indexed.if_enough count (rest_in self.now first) }
    {
        let rest = self.rest.get(&first).copied()?;
        if rest.least <= count {
            Some(rest.constant)
        } else {
            None
        }
    }

    /// Whether one of them takes so many arguments or more.
    pub(crate) fn reach(&self, first: usize, count: usize) -> bool
        ensures { (fs : List (List ℕ × ℕ)) → result ≡ later_reaches (tables_of fs self.now) count first }
    {
        self.rest.get(&first).is_some() | is_reached(count, self.most.get(&first).copied())
    }

    /// Adds one of these counts, and leaves all as it is where memory is out.
    pub(crate) fn add(
        &mut self,
        first: usize,
        counts: Counts,
        constant: usize,
    ) -> Result<(), AllocError>
        ensures adds { OnOk result ((fs : List (List ℕ × ℕ)) →
            tables_of fs self.new ≡ with_other (tables_of fs self.old) first constant (read_counts counts)) }
        ensures err { OnErr result ((fs : List (List ℕ × ℕ)) → tables_of fs self.new ≡ tables_of fs self.old) }
    {
        match counts {
            Counts::Exactly(count) => self.add_exact(CountKey { first, count }, constant),
            Counts::From(least) => {
                self.rest.insert(first, Rest { least, constant })?;
                Ok(())
            }
        }
    }

    // Adds one that takes one number of arguments.
    fn add_exact(&mut self, key: CountKey, constant: usize) -> Result<(), AllocError>
        ensures adds { OnOk result ((fs : List (List ℕ × ℕ)) →
            tables_of fs self.new ≡ with_other (tables_of fs self.old) key.first constant (Exactly key.count)) }
        ensures err { OnErr result ((fs : List (List ℕ × ℕ)) → tables_of fs self.new ≡ tables_of fs self.old) }
    {
        let most = raised(key.count, self.most.get(&key.first).copied());
        self.most.reserve(1)?;
        self.exact.insert(key, constant)?;
        self.most.insert(key.first, most).unwrap();
        Ok(())
    }
}

// Whether a number of arguments from this one on is the greatest that is kept, or below it.
fn is_reached(count: usize, most: Option<usize>) -> bool
    ensures { result ≡ indexed.is_reached count most }
{
    match most {
        Some(most) => count <= most,
        None => false,
    }
}

// The greater of a number and one that is there.
fn raised(count: usize, most: Option<usize>) -> usize
    ensures { result ≡ indexed.raised count most }
{
    match most {
        Some(most) => { if most <= count { count } else { most } }
        None => count,
    }
}
