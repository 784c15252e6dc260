//! What a reference file asserts, and what its commands say.
ghost use Rattle.std.specs.Prelude.{◌≡◌, ℕ, ◌<◌, [], length, IfOk, OnOk, OnErr};
ghost use Rattle.eo_shape.specs.Reading.{read_command};
ghost use Rattle.eo_sig.specs.Growth.{GrowsUnder};
ghost use Rattle.eo_sig.specs.Reading.{IsBelow};
ghost use Rattle.eo_elab.specs.Worlds.{context_in};
ghost use Rattle.eo_ref.specs.Answers.{command_in, next_in, asserted_in, declares_in, GivesNext, MayFollow};
ghost use Rattle.eo_ref.specs.Ids.{has_id, with_id};

use crate::{Assertion, RefNext, RefRefused, read_assertion};
use eo_declare::reference_declaration;
use eo_elab::ElabRefused;
use eo_sexp::Sexp;
use eo_shape::{Command, ShapeRefused, command_of};
use eo_sig::Signature;
use eo_term::{Id, Table};
use indexmap::IndexSet;
use std::alloc::{AllocError, Global};
use std::marker::Model;

/// What a reference file asserts: values, each once, in the order in which they came first. A value
/// is found by its hash.
#[derive(Drop)]
pub struct Reference {
    alloc: Global,
    formulas: IndexSet<Id>,
}

impl Model for Reference {
    ghost use Rattle.std.specs.Prelude.{ℕ, List};

    ghost Value = { List ℕ };

    ghost view = { λ a. a.formulas.keys };
}

impl Reference {
    /// Nothing is asserted. No memory is taken.
    pub fn new(alloc: Global) -> Reference
        ensures { result ≡ [] }
    {
        Reference {
            alloc,
            formulas: IndexSet::new(alloc),
        }
    }

    /// What a command of a reference file says (SMT-LIB 2.6, section 4.2 "Commands"). A formula is
    /// returned as it is written, and neither evaluated nor asserted yet; nothing is declared yet.
    ///
    /// A refusal is the first fault, in this order:
    ///
    /// - `UnknownCommand`: the s-expression is a list that begins with a symbol, and there is no
    ///   such command in a reference file.
    /// - `Elab(BadCommand)`: it is no such list, or the command has a wrong shape.
    /// - `Elab` of the first fault of the declaration, as [`reference_declaration`] has it, or of
    ///   the formula, as [`read_assertion`] has it.
    /// - `Elab(Memory)`: out of memory.
    ///
    /// The terms that the signature holds are terms of the table. All of these stay; a refused call
    /// leaves the table as it was.
    pub fn command(
        &self,
        s: &Sexp<'_>,
        sig: &Signature,
        table: &mut Table,
    ) -> Result<RefNext, RefRefused>
        requires ready { IsBelow (length table.old.trees) sig.now }
        ensures gives { GivesNext table.new result (command_in table.old sig.now s.now) }
        ensures may { IfOk result (MayFollow (context_in table.old sig.now) table.new) }
        ensures refused { OnErr result (table.new ≡ table.old) }
        ensures grows { GrowsUnder sig.now table.old table.new }
    {
        match command_of(s, true) {
            Ok(command) => self.next(&command, sig, table),
            Err(ShapeRefused::UnknownCommand) => Err(RefRefused::UnknownCommand),
            Err(ShapeRefused::BadCommand) => Err(RefRefused::Elab(ElabRefused::BadCommand)),
        }
    }

    /// The same of a command whose shape is known. It has one of a reference file.
    pub fn next(
        &self,
        command: &Command<'_>,
        sig: &Signature,
        table: &mut Table,
    ) -> Result<RefNext, RefRefused>
        requires ready { IsBelow (length table.old.trees) sig.now }
        ensures gives { GivesNext table.new result (next_in table.old sig.now (read_command command.now)) }
        ensures may { IfOk result (MayFollow (context_in table.old sig.now) table.new) }
        ensures refused { OnErr result (table.new ≡ table.old) }
        ensures grows { GrowsUnder sig.now table.old table.new }
    {
        match command {
            Command::Assert { formula } => self.assertion_of(formula, sig, table),
            Command::Exit => Ok(RefNext::Exit),
            Command::Skip => Ok(RefNext::Skip),
            _ => self.declaration_of(command, sig, table),
        }
    }

    // A formula, and the names that its terms give themselves.
    fn assertion_of(
        &self,
        s: &Sexp<'_>,
        sig: &Signature,
        table: &mut Table,
    ) -> Result<RefNext, RefRefused>
        requires ready { IsBelow (length table.old.trees) sig.now }
        ensures gives { GivesNext table.new result (asserted_in table.old sig.now s.now) }
        ensures may { IfOk result (MayFollow (context_in table.old sig.now) table.new) }
        ensures refused { OnErr result (table.new ≡ table.old) }
        ensures grows { GrowsUnder sig.now table.old table.new }
    {
        let read = read_assertion(self.alloc, s, sig, table)?;
        let Assertion { formula, names } = read;
        Ok(RefNext::Assert { formula, names })
    }

    // What a command declares.
    fn declaration_of(
        &self,
        command: &Command<'_>,
        sig: &Signature,
        table: &mut Table,
    ) -> Result<RefNext, RefRefused>
        requires ready { IsBelow (length table.old.trees) sig.now }
        ensures gives { GivesNext table.new result (declares_in table.old sig.now (read_command command.now)) }
        ensures may { IfOk result (MayFollow (context_in table.old sig.now) table.new) }
        ensures refused { OnErr result (table.new ≡ table.old) }
        ensures grows { GrowsUnder sig.now table.old table.new }
    {
        let d = reference_declaration(self.alloc, command, sig, table)?;
        Ok(RefNext::Declare(d))
    }

    /// Asserts a value. `Err`: out of memory, and nothing is asserted.
    pub fn add(&mut self, formula: Id) -> Result<(), AllocError>
        ensures added { OnOk result (self.new ≡ with_id self.old formula) }
        ensures err { OnErr result (self.new ≡ self.old) }
    {
        self.formulas.insert(formula)?;
        Ok(())
    }

    /// Whether the value is asserted.
    pub fn asserts(&self, formula: Id) -> bool
        ensures { result ≡ has_id self.now formula }
    {
        self.formulas.contains(&formula)
    }
}
