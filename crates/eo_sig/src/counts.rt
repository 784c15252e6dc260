//! The numbers of arguments that constants take.
ghost use Rattle.std.specs.Prelude.{◌≡◌, length};
ghost use Rattle.eo_term.specs.Growth.{tree_in};
ghost use Rattle.eo_sig.specs.Signature as sig;
ghost use Rattle.eo_sig.specs.Reading.{read_counts, counts_in, ConstBelow};

use crate::{Attribute, ConstDecl, Counts};
use eo_term::Table;

impl Counts {
    /// Whether so many arguments are taken.
    pub(crate) fn takes(self, n: usize) -> bool
        ensures { result ≡ sig.takes (read_counts self) n }
    {
        match self {
            Counts::Exactly(k) => n == k,
            Counts::From(k) => k <= n,
        }
    }

    /// Whether some number is in both.
    pub(crate) fn meet(self, other: Counts) -> bool
        ensures { result ≡ sig.meet (read_counts self) (read_counts other) }
    {
        match self {
            Counts::Exactly(k) => other.takes(k),
            Counts::From(k) => match other {
                Counts::Exactly(n) => k <= n,
                Counts::From(_) => true,
            },
        }
    }
}

impl ConstDecl {
    /// The numbers of arguments that it takes, by its attribute and its type. Its terms are terms of
    /// the table.
    ///
    /// With no attribute, or as a binder, it takes as many as its type has arguments; with a
    /// terminator it takes all numbers from 1 on, and otherwise all from 2 on.
    pub fn counts(&self, table: &Table) -> Counts
        requires { ConstBelow (length table.now.trees) self.now }
        ensures { result ≡ counts_in table.now.trees self.now }
    {
        match self.attribute {
            Attribute::Plain | Attribute::Binder(_) => Counts::Exactly(self.arguments(table)),
            Attribute::RightNil(_) | Attribute::LeftNil(_) => Counts::From(1),
            Attribute::Right | Attribute::Left | Attribute::Chain(_) | Attribute::Pairs(_) => {
                Counts::From(2)
            }
        }
    }

    /// How many arguments its type has, those of its explicit parameters among them. Its terms are
    /// terms of the table.
    pub fn arguments(&self, table: &Table) -> usize
        requires { ConstBelow (length table.now.trees) self.now }
        ensures { result ≡ length (sig.argument_types (tree_in table.now self.now.ty)) }
    {
        table.arity(self.ty)
    }
}
