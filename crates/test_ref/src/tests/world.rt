//! What commands of a reference file say over a signature.
ghost use Rattle.std.specs.Prelude.{◌<◌, length, IfOk};
ghost use Rattle.eo_sig.specs.Reading.{IsBelow, ConstBelow, MacroBelow};
ghost use Rattle.eo_declare.specs.Declaring.{DeclarationBelow};

use super::text::read;
use eo_base::ok_with;
use eo_elab::ElabRefused;
use eo_ref::{RefNext, RefRefused, Reference};
use eo_sexp::Sexp;
use eo_sig::{ConstDecl, Declaration, MacroDecl, Signature};
use eo_term::{Id, Table};
use std::alloc::{AllocError, Global};
use std::marker::Model;
use std::test::Fail;

/// What is said of a command.
#[derive(Clone, Copy, PartialEq, Eq)]
pub(super) enum Told {
    Constant,
    /// A macro with so many parameters.
    Macro(usize),
    /// A formula, and so many names.
    Assert(usize),
    Skip,
    Exit,
    UnknownCommand,
    BadCommand,
    BadLiteral,
    Redeclared,
    UnknownSymbol,
    BadArity,
    /// Another fault, out of memory, or something else that is declared.
    Other,
    /// It is no s-expression.
    Unread,
}

/// A command, and what is said of it.
pub(super) type Row<'a> = (&'a str, &'a Told);

/// A table, a signature over it, and what is asserted.
#[derive(Drop)]
pub(super) struct World {
    alloc: Global,
    table: Table,
    sig: Signature,
    reference: Reference,
}

impl Model for World {
    ghost use Rattle.std.specs.Prelude.{ℕ, length};
    ghost use Rattle.eo_sig.specs.Reading.{IsBelow};

    ghost Value = { ℕ };

    ghost view = { λ a. length a.table.trees };

    ghost invariant = { λ a. IsBelow (length a.table.trees) a.sig };
}

impl World {
    /// Nothing is declared or asserted yet.
    pub(super) fn new(alloc: Global) -> Result<World, AllocError> {
        let table = Table::new(alloc)?;
        let (sig, table) = ok_with(Signature::new(alloc), table)?;
        Ok(World {
            alloc,
            table,
            sig,
            reference: Reference::new(alloc),
        })
    }

    /// The first command of which something else is said than what is written beside it. What it
    /// declares is declared, where the name is free.
    pub(super) fn other(&mut self, rows: &[Row<'_>]) -> Result<Option<usize>, Fail> {
        for (i, (text, want)) in rows.iter().enumerate() {
            if self.outcome_of(text)? != **want {
                return Ok(Some(i));
            }
        }
        Ok(None)
    }

    fn outcome_of(&mut self, text: &str) -> Result<Told, Fail> {
        let Some(text) = read(self.alloc, text.as_bytes())? else {
            return Ok(Told::Unread);
        };
        let told = self.told_of(&text.sexp());
        drop(text);
        Ok(told)
    }

    fn told_of(&mut self, s: &Sexp<'_>) -> Told {
        match self.reference.command(s, &self.sig, &mut self.table) {
            Ok(RefNext::Declare(d)) => declare(&mut self.sig, &self.table, d),
            Ok(RefNext::Assert { formula: _, names }) => Told::Assert(names.len()),
            Ok(RefNext::Skip) => Told::Skip,
            Ok(RefNext::Exit) => Told::Exit,
            Err(e) => outcome_of_refusal(&e),
        }
    }

    /// Asserts the formula of a command.
    pub(super) fn assert(&mut self, text: &str) -> Result<(), Fail> {
        let formula = self.formula(text)?;
        Ok(self.reference.add(formula)?)
    }

    /// Whether the formula of a command is asserted.
    pub(super) fn asserts(&mut self, text: &str) -> Result<bool, Fail> {
        let formula = self.formula(text)?;
        Ok(self.reference.asserts(formula))
    }

    fn formula(&mut self, text: &str) -> Result<Id, Fail> {
        let Some(text) = read(self.alloc, text.as_bytes())? else {
            return Err(Fail::new("no s-expression"));
        };
        let formula = self.formula_of(&text.sexp());
        drop(text);
        formula
    }

    fn formula_of(&mut self, s: &Sexp<'_>) -> Result<Id, Fail> {
        match self.reference.command(s, &self.sig, &mut self.table) {
            Ok(next) => formula_of(&next),
            Err(_) => Err(Fail::new("a refused command")),
        }
    }
}

// The formula that is asserted.
fn formula_of(next: &RefNext) -> Result<Id, Fail> {
    match next {
        RefNext::Assert { formula, names: _ } => Ok(*formula),
        _ => Err(Fail::new("no assertion")),
    }
}

// Declares a constant or a macro, where its name is free.
fn declare(sig: &mut Signature, table: &Table, d: Declaration) -> Told
    requires ready { IsBelow (length table.now.trees) sig.old }
    requires below { DeclarationBelow (length table.now.trees) d }
    ensures ready { IsBelow (length table.now.trees) sig.new }
{
    match d {
        Declaration::Const(d) => declare_constant(sig, table, d),
        Declaration::Macro(d) => define(sig, table, d),
        _ => Told::Other,
    }
}

fn declare_constant(sig: &mut Signature, table: &Table, d: ConstDecl) -> Told
    requires ready { IsBelow (length table.now.trees) sig.old }
    requires below { ConstBelow (length table.now.trees) d }
    ensures ready { IsBelow (length table.now.trees) sig.new }
{
    if !d.from_reference {
        drop(d);
        return Told::Other;
    }
    if !sig.is_free(d.name.as_bytes()) {
        drop(d);
        return Told::Constant;
    }
    match sig.declare(table, d) {
        Ok(_) => Told::Constant,
        Err(_) => Told::Other,
    }
}

fn define(sig: &mut Signature, table: &Table, d: MacroDecl) -> Told
    requires ready { IsBelow (length table.now.trees) sig.old }
    requires below { MacroBelow (length table.now.trees) d }
    ensures ready { IsBelow (length table.now.trees) sig.new }
{
    if !d.from_reference {
        drop(d);
        return Told::Other;
    }
    let parameters = d.params.as_slice().len();
    if !sig.is_free(d.name.as_bytes()) {
        drop(d);
        return Told::Macro(parameters);
    }
    match sig.define(d) {
        Ok(_) => Told::Macro(parameters),
        Err(_) => Told::Other,
    }
}

fn outcome_of_refusal(e: &RefRefused) -> Told {
    match e {
        RefRefused::UnknownCommand => Told::UnknownCommand,
        RefRefused::Elab(ElabRefused::BadCommand) => Told::BadCommand,
        RefRefused::Elab(ElabRefused::BadLiteral) => Told::BadLiteral,
        RefRefused::Elab(ElabRefused::Redeclared) => Told::Redeclared,
        RefRefused::Elab(ElabRefused::UnknownSymbol) => Told::UnknownSymbol,
        RefRefused::Elab(ElabRefused::BadArity) => Told::BadArity,
        RefRefused::Elab(_) => Told::Other,
    }
}
