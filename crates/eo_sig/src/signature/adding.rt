//! Adding a declaration of any kind, once it is checked.
ghost use Rattle.std.specs.Prelude.{◌≡◌, ℕ, List, length, OnOk, OnErr};
ghost use Rattle.eo_term.specs.Tree.{Tree};
ghost use Rattle.eo_sig.specs.Adding.{entry_fault, EntryIsFree, EntryIsOrdered, EntryIsSound, IsNew};
ghost use Rattle.eo_sig.specs.Reading.{signature, read_entry, with_entry, Adds, EntryBelow, IsBelow};
ghost use Rattle.eo_sig.specs.Refused.{Tells};
ghost use Rattle.eo_sig.specs.Usable.{StaysUsable};

use super::Signature;
use super::declaring::{check_constant, check_program};
use crate::{Declared, SigRefused};
use eo_term::Table;
use std::alloc::AllocError;

impl Signature {
    /// Checks a declaration, whose terms are terms of the table, as the call that adds one of its
    /// kind does. Nothing is added, and a name is not looked up.
    ///
    /// `BadPattern` and `UnboundParam` come exactly where [`Signature::declare`],
    /// [`Signature::add_program`], [`Signature::add_rule`] and [`Signature::set_literal_type`] say,
    /// and `Redeclared` exactly where the last of these does.
    pub fn check(&self, table: &Table, d: &Declared) -> Result<(), SigRefused>
        requires live { EntryBelow (length table.now.trees) d.now }
        ensures tells { Tells result (entry_fault (signature table.now.trees self.now) (read_entry table.now.trees d.now)) }
    {
        match d {
            Declared::Const(d, _) => check_constant(table, d),
            Declared::Program(d) => check_program(table, d),
            Declared::Rule(d) => self.check_rule(table, d),
            Declared::Literal { class, ty } => self.check_literals(table, *class, *ty),
        }
    }

    /// Adds a declaration in which [`Signature::check`] finds no fault over the table, and whose
    /// name is free: a rule's among rules, and a constant's for the numbers of arguments that it
    /// takes. The type of each parameter of a rule uses earlier parameters only. `Err` is out of
    /// memory, and nothing is added.
    pub fn add(&mut self, table: &Table, d: Declared) -> Result<(), AllocError>
        requires free { EntryIsFree self.old d }
        requires sound { EntryIsSound table.now.trees self.old d }
        requires ordered { EntryIsOrdered table.now.trees d }
        ensures kept { OnOk result (self.new ≡ with_entry d self.old) }
        ensures adds { OnOk result ((ts : List Tree) → Adds ts self.old (read_entry ts d) self.new) }
        ensures usable { OnOk result (StaysUsable table.now.trees self.old self.new) }
        ensures below { OnOk result ((m : ℕ) → IsBelow m self.old → EntryBelow m d → IsBelow m self.new) }
        ensures err { OnErr result (self.new ≡ self.old) }
    {
        self.keep(d)
    }

    // Appends a declaration, where none of its kind has its name or its class.
    fn keep(&mut self, d: Declared) -> Result<(), AllocError>
        requires { IsNew self.old d }
        ensures kept { OnOk result (self.new ≡ with_entry d self.old) }
        ensures err { OnErr result (self.new ≡ self.old) }
    {
        match d {
            Declared::Const(d, counts) => self.keep_constant(d, counts),
            Declared::Program(d) => self.keep_program(d),
            Declared::Rule(d) => self.keep_rule(d),
            Declared::Literal { class, ty } => self.keep_literal(class, ty),
        }
    }
}
