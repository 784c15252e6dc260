//! Constants by name and number of arguments.
ghost use Rattle.std.specs.Prelude.{◌≡◌, ◌<◌, ℕ, List, [], length, Some, IfSome, option_map, slice_get};
ghost use Rattle.eo_term.specs.Tree.{Tree};
ghost use Rattle.eo_sig.specs.Indexed.{counts_at, is_met};
ghost use Rattle.eo_sig.specs.Signature as sig;
ghost use Rattle.eo_sig.specs.Reading.{signature, macros, read_named, read_counts, read_constant, constants_of, IsWithin, ConstBelow};

use super::Signature;
use crate::{ConstDecl, Counts, Entry, is_reserved};
use eo_term::Table;

impl Signature {
    /// What the name means as the head of so many arguments: the constant of the name that
    /// takes so many; where none does, the first constant of the name; and else the macro or the
    /// program of the name.
    pub fn lookup_count(&self, name: &[u8], n: usize) -> Option<Entry>
        ensures named { (ts : List Tree) → option_map read_named result ≡ sig.lookup_count (signature ts self.now) (macros ts self.now) name.now n }
        ensures within { IfSome result (λ e. IsWithin self.now e) }
    {
        match self.constant_for(name, n) {
            Some(k) => Some(Entry::Constant(k)),
            None => self.other_named(name),
        }
    }

    /// The number of the constant of the name that takes so many arguments.
    pub fn constant_taking(&self, name: &[u8], n: usize) -> Option<usize>
        ensures named { (ts : List Tree) → result ≡ sig.constant_taking (signature ts self.now) name.now n }
        ensures within { IfSome result (λ k. k < length (constants_of self.now)) }
    {
        match self.first_named(name) {
            Some(first) => self.taking(first, n),
            None => None,
        }
    }

    // The constant of the name that takes so many arguments, and the first where none does.
    fn constant_for(&self, name: &[u8], n: usize) -> Option<usize>
        ensures named { (ts : List Tree) → result ≡ sig.constant_for (signature ts self.now) name.now n }
        ensures within { IfSome result (λ k. k < length (constants_of self.now)) }
    {
        match self.first_named(name) {
            Some(first) => Some(self.taking(first, n).unwrap_or(first)),
            None => None,
        }
    }

    // The constant that takes so many arguments, of a name whose first constant has this number.
    fn taking(&self, first: usize, n: usize) -> Option<usize>
        requires { first < length (constants_of self.now) }
        ensures { (w : List ℕ) → sig.constant_named (signature [] self.now) w ≡ Some first →
            result ≡ sig.constant_taking (signature [] self.now) w n }
    {
        let later = &self.overloads;
        if self.counts_at(first).takes(n) {
            return Some(first);
        }
        later.taking(first, n)
    }

    // The numbers of arguments that the constant with this number takes.
    fn counts_at(&self, n: usize) -> Counts
        requires { n < length (constants_of self.now) }
        ensures { counts_at (signature [] self.now) n ≡ Some (read_counts result) }
    {
        let place = self.constants[n];
        self.entries[place].as_counts().unwrap()
    }

    /// Whether a constant may be declared by its name: the name is not reserved, no macro and no
    /// program has it, and no constant of the name takes a number of arguments that this one takes.
    /// Its terms are terms of the table.
    pub fn is_free_for(&self, table: &Table, d: &ConstDecl) -> bool
        requires { ConstBelow (length table.now.trees) d.now }
        ensures { (ts : List Tree) → result
            ≡ sig.is_free_as (signature ts self.now) (macros ts self.now) d.now.name (sig.counts_of (read_constant table.now.trees d.now)) }
    {
        self.is_free_as(d.name.as_bytes(), d.counts(table))
    }

    /// Whether a constant of the name may take these numbers of arguments.
    pub(super) fn is_free_as(&self, name: &[u8], counts: Counts) -> bool
        ensures { (ts : List Tree) → result ≡ sig.is_free_as (signature ts self.now) (macros ts self.now) name.now (read_counts counts) }
    {
        self.may_name_constant(name) && self.is_apart(name, counts)
    }

    /// Whether a constant may have the name, whatever it takes: it is not reserved, and no macro and
    /// no program has it.
    pub fn may_name_constant(&self, name: &[u8]) -> bool
        ensures { (ts : List Tree) → result ≡ sig.may_name_constant (signature ts self.now) (macros ts self.now) name.now }
    {
        !is_reserved(name) && self.other_named(name).is_none()
    }

    // Whether no constant of the name takes one of these numbers of arguments.
    fn is_apart(&self, name: &[u8], counts: Counts) -> bool
        ensures { (ts : List Tree) → result ≡ sig.is_apart (signature ts self.now) name.now (read_counts counts) }
    {
        match self.first_named(name) {
            Some(first) => !self.meets(first, counts),
            None => true,
        }
    }

    // Whether a constant takes one of these numbers of arguments, of a name whose first constant has
    // this number.
    fn meets(&self, first: usize, counts: Counts) -> bool
        requires { first < length (constants_of self.now) }
        ensures { (w : List ℕ) → sig.constant_named (signature [] self.now) w ≡ Some first →
            result ≡ is_met (signature [] self.now) w (read_counts counts) }
    {
        match counts {
            Counts::Exactly(n) => self.taking(first, n).is_some(),
            Counts::From(least) => self.reaches(first, least),
        }
    }

    // Whether a constant takes so many arguments or more, of a name whose first constant has this
    // number.
    fn reaches(&self, first: usize, n: usize) -> bool
        requires { first < length (constants_of self.now) }
        ensures { (w : List ℕ) → sig.constant_named (signature [] self.now) w ≡ Some first → result ≡ is_met (signature [] self.now) w (sig.From n) }
    {
        let own = self.counts_at(first).meet(Counts::From(n));
        own | self.overloads.reach(first, n)
    }
}
