//! What a declaring command of a reference file declares.
ghost use Rattle.std.specs.Prelude.{◌≡◌, ◌<◌, ◌≤◌, length, IfOk, OnErr};
ghost use Rattle.eo_base.specs.Limits.{parameters_limit};
ghost use Rattle.eo_sig.specs.Growth.{GrowsUnder};
ghost use Rattle.eo_sig.specs.Reading.{read_macro, IsBelow};
ghost use Rattle.eo_shape.specs.Reading.{read_command};
ghost use Rattle.eo_declare.specs.Declarations.{defined_fun, defined_sort, reference_declaration};
ghost use Rattle.eo_declare.specs.Declaring.{or_bad, read_declaration, typed_macro_in, BoundBelow, MayBeMacro, MayBeReferred};
ghost use Rattle.eo_declare.specs.Gives.{GivesDeclaration, GivesMacro};
ghost use Rattle.eo_elab.specs.Worlds.{context_in};
ghost use Rattle.eo_declare.specs.Worlds.{reference_context};

use crate::constants::may_declare;
use crate::parameters::{Bound, bind, bind_types};
use crate::{declared_const, declared_fun, declared_sort};
use eo_base::Name;
use eo_base::limits::PARAMETERS;
use eo_elab::{ElabRefused, FileKind, elaborate_in};
use eo_names::names_law;
use eo_sexp::Sexp;
use eo_shape::{Command, ParameterShapes, Symbols};
use eo_sig::{Declaration, MacroDecl, Signature};
use eo_term::Table;
use std::alloc::Global;

/// What the command declares, which is one of `declare-const`, `declare-fun`, `declare-sort`,
/// `define-fun` and `define-sort`, in a reference file (SMT-LIB 2.6, section 4.2 "Commands").
///
/// A refusal is the first fault of the command, as the functions of these commands have it;
/// `BadCommand`, where it declares nothing; or `Memory`: out of memory.
///
/// The terms that the signature holds are terms of the table. All of these stay; a refused call
/// leaves the table as it was, and so do the calls for each kind of command.
pub fn reference_declaration(
    alloc: Global,
    command: &Command<'_>,
    sig: &Signature,
    table: &mut Table,
) -> Result<Declaration, ElabRefused>
    requires { IsBelow (length table.old.trees) sig.now }
    ensures gives { GivesDeclaration table.new result
        (or_bad (reference_declaration (reference_context table.old sig.now) (read_command command.now))) }
    ensures may { IfOk result (λ d. MayBeReferred (context_in table.old sig.now) (read_declaration table.new.trees d)) }
    ensures refused { OnErr result (table.new ≡ table.old) }
    ensures grows { GrowsUnder sig.now table.old table.new }
{
    let file_kind = FileKind::Reference;
    match command {
        Command::DeclareConst {
            name,
            ty,
            attribute,
        } => {
            let d = declared_const(alloc, name, ty, attribute, file_kind, sig, table)?;
            Ok(Declaration::Const(d))
        }
        Command::DeclareFun {
            name,
            inputs,
            output,
        } => {
            let d = declared_fun(alloc, name, inputs, output, file_kind, sig, table)?;
            Ok(Declaration::Const(d))
        }
        Command::DeclareSort { name, arity } => {
            let d = declared_sort(alloc, name, *arity, file_kind, sig, table)?;
            Ok(Declaration::Const(d))
        }
        Command::DefineFun {
            name,
            params,
            output,
            body,
        } => {
            let d = defined_fun(alloc, name, params, output, body, sig, table)?;
            Ok(Declaration::Macro(d))
        }
        Command::DefineSort { name, params, ty } => {
            let d = defined_sort(alloc, name, params, ty, sig, table)?;
            Ok(Declaration::Macro(d))
        }
        _ => Err(ElabRefused::BadCommand),
    }
}

/// `(define-fun NAME ((PARAMETER TYPE) ..) OUTPUT BODY)` of a reference file: a macro. The output
/// is read, and says nothing else.
///
/// A refusal is the first fault, in this order:
///
/// - `Redeclared`: the name may not be declared, and is none that the reference file declared.
/// - `Parameters`: there are more than 64.
/// - a fault of a term: of the parameters' types in order, where a name that an earlier parameter
///   has is `Redeclared`, of the output, and of the body.
/// - `Memory`: out of memory.
pub fn defined_fun(
    alloc: Global,
    name: &[u8],
    params: &ParameterShapes<'_>,
    output: &Sexp<'_>,
    body: &Sexp<'_>,
    sig: &Signature,
    table: &mut Table,
) -> Result<MacroDecl, ElabRefused>
    requires { IsBelow (length table.old.trees) sig.now }
    ensures gives { GivesMacro table.new result
        (defined_fun (reference_context table.old sig.now) name.now params.now output.now body.now) }
    ensures may { IfOk result (λ d. MayBeMacro (context_in table.old sig.now) (read_macro table.new.trees d)) }
    ensures refused { OnErr result (table.new ≡ table.old) }
    ensures grows { GrowsUnder sig.now table.old table.new }
{
    sig.laws();
    let mark = table.mark();
    match function_macro(alloc, name, params, output, body, sig, table) {
        Ok(d) => Ok(d),
        Err(e) => {
            table.release(mark);
            Err(e)
        }
    }
}

// The same, but that a refused call leaves the terms that it made.
fn function_macro(
    alloc: Global,
    name: &[u8],
    params: &ParameterShapes<'_>,
    output: &Sexp<'_>,
    body: &Sexp<'_>,
    sig: &Signature,
    table: &mut Table,
) -> Result<MacroDecl, ElabRefused>
    requires { IsBelow (length table.old.trees) sig.now }
    ensures gives { GivesMacro table.new result
        (defined_fun (reference_context table.old sig.now) name.now params.now output.now body.now) }
    ensures may { IfOk result (λ d. MayBeMacro (context_in table.old sig.now) (read_macro table.new.trees d)) }
    ensures grows { GrowsUnder sig.now table.old table.new }
{
    sig.laws();
    if !may_declare(sig, name) {
        return Err(ElabRefused::Redeclared);
    }
    if params.len() > PARAMETERS {
        return Err(ElabRefused::Parameters);
    }
    let bound = bind(alloc, params, FileKind::Reference, sig, table)?;
    typed_macro(alloc, name, bound, output, body, sig, table)
}

// A macro over parameters, by a type that is read and says nothing else, and then its body.
fn typed_macro(
    alloc: Global,
    name: &[u8],
    bound: Bound,
    output: &Sexp<'_>,
    body: &Sexp<'_>,
    sig: &Signature,
    table: &mut Table,
) -> Result<MacroDecl, ElabRefused>
    requires bound { BoundBelow (length table.old.trees) sig.now bound }
    requires few { length bound.params ≤ parameters_limit }
    ensures gives { GivesMacro table.new result (typed_macro_in table.old sig.now name.now bound output.now body.now) }
    ensures name { IfOk result (λ d. d.name ≡ name.now) }
    ensures grows { GrowsUnder sig.now table.old table.new }
{
    sig.laws();
    names_law();
    elaborate_in(
        alloc,
        output,
        &bound.locals,
        FileKind::Reference,
        sig,
        table,
    )?;
    let tree = elaborate_in(alloc, body, &bound.locals, FileKind::Reference, sig, table)?;
    Ok(MacroDecl {
        name: Name::new(alloc, name)?,
        params: bound.params,
        tree,
        from_reference: true,
    })
}

/// `(define-sort NAME (PARAMETER ..) TYPE)` of a reference file: a macro, whose parameters are
/// types.
///
/// A refusal is the first fault, in this order:
///
/// - `Redeclared`: the name may not be declared, and is none that the reference file declared.
/// - `Parameters`: there are more than 64.
/// - `Redeclared`: a parameter has the name of an earlier one.
/// - a fault of a term: of the type.
/// - `Memory`: out of memory.
pub fn defined_sort(
    alloc: Global,
    name: &[u8],
    params: &Symbols<'_>,
    ty: &Sexp<'_>,
    sig: &Signature,
    table: &mut Table,
) -> Result<MacroDecl, ElabRefused>
    requires { IsBelow (length table.old.trees) sig.now }
    ensures gives { GivesMacro table.new result (defined_sort (reference_context table.old sig.now) name.now params.now ty.now) }
    ensures may { IfOk result (λ d. MayBeMacro (context_in table.old sig.now) (read_macro table.new.trees d)) }
    ensures refused { OnErr result (table.new ≡ table.old) }
    ensures grows { GrowsUnder sig.now table.old table.new }
{
    sig.laws();
    let mark = table.mark();
    match sort_macro(alloc, name, params, ty, sig, table) {
        Ok(d) => Ok(d),
        Err(e) => {
            table.release(mark);
            Err(e)
        }
    }
}

// The same, but that a refused call leaves the terms that it made.
fn sort_macro(
    alloc: Global,
    name: &[u8],
    params: &Symbols<'_>,
    ty: &Sexp<'_>,
    sig: &Signature,
    table: &mut Table,
) -> Result<MacroDecl, ElabRefused>
    requires { IsBelow (length table.old.trees) sig.now }
    ensures gives { GivesMacro table.new result (defined_sort (reference_context table.old sig.now) name.now params.now ty.now) }
    ensures may { IfOk result (λ d. MayBeMacro (context_in table.old sig.now) (read_macro table.new.trees d)) }
    ensures grows { GrowsUnder sig.now table.old table.new }
{
    sig.laws();
    if !may_declare(sig, name) {
        return Err(ElabRefused::Redeclared);
    }
    if params.len() > PARAMETERS {
        return Err(ElabRefused::Parameters);
    }
    let bound = bind_types(alloc, params, table)?;
    let tree = elaborate_in(alloc, ty, &bound.locals, FileKind::Reference, sig, table)?;
    Ok(MacroDecl {
        name: Name::new(alloc, name)?,
        params: bound.params,
        tree,
        from_reference: true,
    })
}
