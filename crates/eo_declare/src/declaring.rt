//! What a declaring command declares.
ghost use Rattle.std.specs.Prelude.{◌≡◌, true, false, ◌<◌, ◌≤◌, [], ◌∷◌, length, codes, All, IfOk, OnOk, OnErr};
ghost use Rattle.eo_base.specs.Limits.{parameters_limit};
ghost use Rattle.eo_term.specs.Growth.{trees_in, Grows};
ghost use Rattle.eo_sig.specs.Growth.{GrowsUnder};
ghost use Rattle.eo_sig.specs.Reading.{read_constant, read_macro, IsBelow};
ghost use Rattle.eo_shape.specs.Reading.{read_attribute, read_command};
ghost use Rattle.eo_declare.specs.Declarations.{declared_fun, declared_sort, declared_literals, declaration, defined};
ghost use Rattle.eo_declare.specs.Declarations.{is_free_or_reference, may_be_constant};
ghost use Rattle.eo_declare.specs.Declaring.{read_bound, read_declaration, declared, or_bad, typed, type_of_function, function_to};
ghost use Rattle.eo_declare.specs.Declaring.{const_by, constant_of, declared_constant};
ghost use Rattle.eo_declare.specs.Declaring.{parameterized_in, typed_over_in, IsCommand, BoundBelow};
ghost use Rattle.eo_declare.specs.Declaring.{MayRepeat, MayBeMacro, MayBeLiterals, MayBeDeclared};
ghost use Rattle.eo_names.specs.Gives.{GivesTree};
ghost use Rattle.eo_names.specs.Names.{local};
ghost use Rattle.eo_names.specs.Ready.{IsReady};
ghost use Rattle.eo_declare.specs.Gives.{GivesTyped, GivesConstant, GivesMacro, GivesDeclaration};
ghost use Rattle.eo_elab.specs.Worlds.{context_in, context_at, world_in};

use crate::constants::{
    attribute_meant, bound_type, may_declare, meanings_at, plain_constant, sort_type,
};
use crate::parameters::{Bound, bind, parameter};
use crate::programs::declared_program;
use crate::rules::declared_rule;
use eo_base::Name;
use eo_base::limits::PARAMETERS;
use eo_elab::{ElabRefused, FileKind, Locals, elaborate_in, term};
use eo_names::{function_type, names_law};
use eo_sexp::{Children, Sexp};
use eo_shape::{AttributeShape, Command, ParameterShapes, command_of};
use eo_sig::{Attribute, ConstDecl, Declaration, LiteralClass, MacroDecl, Signature};
use eo_term::{HEIGHT_LIMIT, Id, Ids, Table};
use std::alloc::{AllocError, Global};

/// What the command declares, which is one of `declare-const`, `declare-fun`, `declare-sort`,
/// `declare-parameterized-const`, `declare-consts`, `define`, `program` and `declare-rule`, in a
/// signature or a proof (Ethos manual, declarations, programs, rules).
///
/// A refusal is the first fault, in this order:
///
/// - `BadCommand`: the command has a wrong shape, or declares nothing.
/// - `Redeclared`: the name may not be declared (a constant may have one that constants have, and a
///   macro one that the reference file declared); or the class of literals has a type.
/// - `Parameters`: there are more than 64 parameters, or more than 64 inputs of a program.
/// - a fault of a term, from left to right: of the parameters' types, where a name that an earlier
///   parameter has is `Redeclared`, of the types, of the terminator or what joins (`UnknownSymbol`,
///   where it is no constant), of the body, and of the cases of a program, each of which is
///   `BadArity` first where it has another number of patterns than the program has inputs; of a
///   rule, of the parameters' types, the assumption, the premises, the arguments, the requirements
///   and the conclusion.
/// - `Tall`: the type is taller than the limit.
/// - `BadPattern`: a constant without parameters has a type that holds what no declared type may,
///   or a terminator that is no value; or the premises of a rule are joined by what is no constant
///   with a terminator at the right.
/// - `Memory`: out of memory.
///
/// The terms that the signature holds are terms of the table. All of these stay; a refused call
/// leaves the table as it was, and so do the calls for each kind of command.
pub fn declaration(
    alloc: Global,
    s: &Sexp<'_>,
    sig: &Signature,
    table: &mut Table,
) -> Result<Declaration, ElabRefused>
    requires ready { IsBelow (length table.old.trees) sig.now }
    requires command { IsCommand s.now }
    ensures gives { GivesDeclaration table.new result (declared (context_in table.old sig.now) s.now) }
    ensures named { IfOk result (λ d. MayBeDeclared (context_in table.old sig.now) (read_declaration table.new.trees d)) }
    ensures refused { OnErr result (table.new ≡ table.old) }
    ensures grows { GrowsUnder sig.now table.old table.new }
{
    match command_of(s, false) {
        Ok(command) => declared_by(alloc, &command, sig, table),
        Err(_) => Err(ElabRefused::BadCommand),
    }
}

// What a declaring command declares.
fn declared_by(
    alloc: Global,
    command: &Command<'_>,
    sig: &Signature,
    table: &mut Table,
) -> Result<Declaration, ElabRefused>
    requires { IsBelow (length table.old.trees) sig.now }
    ensures gives { GivesDeclaration table.new result (or_bad (declaration (context_in table.old sig.now) (read_command command.now))) }
    ensures named { IfOk result (λ d. MayBeDeclared (context_in table.old sig.now) (read_declaration table.new.trees d)) }
    ensures refused { OnErr result (table.new ≡ table.old) }
    ensures grows { GrowsUnder sig.now table.old table.new }
{
    match command {
        Command::DeclareLiterals { class, ty: s } => {
            let ty = declared_literals(alloc, *class, s, sig, table)?;
            Ok(Declaration::Literal { class: *class, ty })
        }
        Command::Define { name, params, body } => {
            let d = define_macro(alloc, name, params, body, sig, table)?;
            Ok(Declaration::Macro(d))
        }
        Command::Program(shape) => {
            let d = declared_program(alloc, shape, sig, table)?;
            Ok(Declaration::Program(d))
        }
        Command::DeclareRule(shape) => {
            let d = declared_rule(alloc, shape, sig, table)?;
            Ok(Declaration::Rule(d))
        }
        _ => declared_constant(alloc, command, sig, table),
    }
}

// The constant that a command declares, as what it declares; `BadCommand`, where it declares none.
fn declared_constant(
    alloc: Global,
    command: &Command<'_>,
    sig: &Signature,
    table: &mut Table,
) -> Result<Declaration, ElabRefused>
    requires { IsBelow (length table.old.trees) sig.now }
    ensures gives { GivesDeclaration table.new result (declared_constant (context_in table.old sig.now) command.now) }
    ensures named { IfOk result (λ d. MayBeDeclared (context_in table.old sig.now) (read_declaration table.new.trees d)) }
    ensures refused { OnErr result (table.new ≡ table.old) }
    ensures grows { GrowsUnder sig.now table.old table.new }
{
    let d = constant_by(alloc, command, sig, table)?;
    Ok(Declaration::Const(d))
}

// The constant that a command declares; `BadCommand`, where it declares none.
fn constant_by(
    alloc: Global,
    command: &Command<'_>,
    sig: &Signature,
    table: &mut Table,
) -> Result<ConstDecl, ElabRefused>
    requires { IsBelow (length table.old.trees) sig.now }
    ensures gives { GivesConstant table.new result (constant_of (context_in table.old sig.now) command.now) }
    ensures named { IfOk result (λ d. may_be_constant (context_in table.old sig.now) d.name ≡ true) }
    ensures refused { OnErr result (table.new ≡ table.old) }
    ensures grows { GrowsUnder sig.now table.old table.new }
{
    match command {
        Command::DeclareConst {
            name,
            ty,
            attribute,
        } => declared_const(alloc, name, ty, attribute, FileKind::Proof, sig, table),
        Command::DeclareFun {
            name,
            inputs,
            output,
        } => declared_fun(alloc, name, inputs, output, FileKind::Proof, sig, table),
        Command::DeclareSort { name, arity } => declared_sort(
            alloc,
            name,
            *arity,
            FileKind::Proof,
            sig,
            table,
        ),
        Command::DeclareParameterized {
            name,
            params,
            ty,
            attribute,
        } => declared_parameterized(alloc, name, params, ty, attribute, sig, table),
        _ => Err(ElabRefused::BadCommand),
    }
}

/// `(declare-const NAME TYPE ATTRIBUTE)` in a file of this kind: a constant without parameters.
///
/// A refusal is the first fault, in this order:
///
/// - `Redeclared`: no constant may have the name, whatever it takes: it is reserved, or a macro or a
///   program has it.
/// - a fault of a term: of the type, and then of the terminator or what joins (`UnknownSymbol`,
///   where it is no constant).
/// - `BadPattern`: the type holds what no declared type may, or the terminator is no value.
/// - `Memory`: out of memory.
pub fn declared_const(
    alloc: Global,
    name: &[u8],
    ty: &Sexp<'_>,
    attribute: &AttributeShape<'_>,
    file_kind: FileKind,
    sig: &Signature,
    table: &mut Table,
) -> Result<ConstDecl, ElabRefused>
    requires { IsBelow (length table.old.trees) sig.now }
    ensures gives { GivesConstant table.new result (const_by (context_at table.old sig.now file_kind) name.now ty.now attribute.now) }
    ensures may { IfOk result (λ d. MayRepeat (context_in table.old sig.now) (read_constant table.new.trees d)) }
    ensures refused { OnErr result (table.new ≡ table.old) }
    ensures grows { GrowsUnder sig.now table.old table.new }
{
    sig.laws();
    let mark = table.mark();
    match constant(alloc, name, ty, attribute, file_kind, sig, table) {
        Ok(d) => Ok(d),
        Err(e) => {
            table.release(mark);
            Err(e)
        }
    }
}

// The same, but that a refused call leaves the terms that it made.
fn constant(
    alloc: Global,
    name: &[u8],
    ty: &Sexp<'_>,
    attribute: &AttributeShape<'_>,
    file_kind: FileKind,
    sig: &Signature,
    table: &mut Table,
) -> Result<ConstDecl, ElabRefused>
    requires { IsBelow (length table.old.trees) sig.now }
    ensures gives { GivesConstant table.new result (const_by (context_at table.old sig.now file_kind) name.now ty.now attribute.now) }
    ensures may { IfOk result (λ d. MayRepeat (context_in table.old sig.now) (read_constant table.new.trees d)) }
    ensures grows { GrowsUnder sig.now table.old table.new }
{
    sig.laws();
    if !sig.may_name_constant(name) {
        return Err(ElabRefused::Redeclared);
    }
    let (ty, attribute) = type_and_attribute(alloc, ty, attribute, file_kind, sig, table)?;
    plain_constant(alloc, name, ty, attribute, file_kind, table)
}

// A type and an attribute.
fn type_and_attribute(
    alloc: Global,
    ty: &Sexp<'_>,
    attribute: &AttributeShape<'_>,
    file_kind: FileKind,
    sig: &Signature,
    table: &mut Table,
) -> Result<(Id, Attribute), ElabRefused>
    requires { IsBelow (length table.old.trees) sig.now }
    ensures gives { GivesTyped table.new result (typed (context_at table.old sig.now file_kind) [] ty.now (read_attribute attribute.now)) }
    ensures grows { Grows table.old table.new }
{
    names_law();
    let none = Locals::new(alloc);
    let ty = elaborate_in(alloc, ty, &none, file_kind, sig, table)?;
    let attribute = attribute_meant(alloc, attribute, &none, file_kind, sig, table)?;
    Ok((ty, attribute))
}

/// `(declare-fun NAME (INPUT ..) OUTPUT)` in a file of this kind: a constant of a function type.
///
/// A refusal is the first fault, in this order:
///
/// - `Redeclared`: no constant may have the name, whatever it takes: it is reserved, or a macro or a
///   program has it.
/// - a fault of a term: of the inputs in order, and then of the output.
/// - `Tall`: the function type is taller than the limit.
/// - `BadPattern`: the type holds what no declared type may.
/// - `Memory`: out of memory.
pub fn declared_fun(
    alloc: Global,
    name: &[u8],
    inputs: &Children<'_>,
    output: &Sexp<'_>,
    file_kind: FileKind,
    sig: &Signature,
    table: &mut Table,
) -> Result<ConstDecl, ElabRefused>
    requires { IsBelow (length table.old.trees) sig.now }
    ensures gives { GivesConstant table.new result (declared_fun (context_at table.old sig.now file_kind) name.now inputs.now output.now) }
    ensures may { IfOk result (λ d. MayRepeat (context_in table.old sig.now) (read_constant table.new.trees d)) }
    ensures refused { OnErr result (table.new ≡ table.old) }
    ensures grows { GrowsUnder sig.now table.old table.new }
{
    sig.laws();
    let mark = table.mark();
    match function(alloc, name, inputs, output, file_kind, sig, table) {
        Ok(d) => Ok(d),
        Err(e) => {
            table.release(mark);
            Err(e)
        }
    }
}

// The same, but that a refused call leaves the terms that it made.
fn function(
    alloc: Global,
    name: &[u8],
    inputs: &Children<'_>,
    output: &Sexp<'_>,
    file_kind: FileKind,
    sig: &Signature,
    table: &mut Table,
) -> Result<ConstDecl, ElabRefused>
    requires { IsBelow (length table.old.trees) sig.now }
    ensures gives { GivesConstant table.new result (declared_fun (context_at table.old sig.now file_kind) name.now inputs.now output.now) }
    ensures may { IfOk result (λ d. MayRepeat (context_in table.old sig.now) (read_constant table.new.trees d)) }
    ensures grows { GrowsUnder sig.now table.old table.new }
{
    sig.laws();
    if !sig.may_name_constant(name) {
        return Err(ElabRefused::Redeclared);
    }
    let ty = type_of_function(alloc, inputs, output, file_kind, sig, table)?;
    plain_constant(alloc, name, ty, Attribute::Plain, file_kind, table)
}

// The type of a function by its inputs and its output.
fn type_of_function(
    alloc: Global,
    inputs: &Children<'_>,
    output: &Sexp<'_>,
    file_kind: FileKind,
    sig: &Signature,
    table: &mut Table,
) -> Result<Id, ElabRefused>
    requires { IsBelow (length table.old.trees) sig.now }
    ensures gives { GivesTree table.new result (type_of_function (context_at table.old sig.now file_kind) inputs.now output.now) }
    ensures grows { Grows table.old table.new }
{
    names_law();
    let none = Locals::new(alloc);
    let mut types = meanings_at(alloc, inputs, &none, file_kind, sig, table)?;
    function_to(alloc, &mut types, output, &none, file_kind, sig, table)
}

// The type of a function of these types, to an output that is read.
fn function_to(
    alloc: Global,
    types: &mut Ids,
    output: &Sexp<'_>,
    locals: &Locals,
    file_kind: FileKind,
    sig: &Signature,
    table: &mut Table,
) -> Result<Id, ElabRefused>
    requires ready { IsReady (length table.old.trees) sig.now locals.now }
    requires types { All (λ i. i < length table.old.trees) types.old }
    ensures gives { GivesTree table.new result
        (function_to (world_in table.old sig.now locals.now file_kind) (trees_in table.old types.old) output.now) }
    ensures grows { Grows table.old table.new }
{
    let output = elaborate_in(alloc, output, locals, file_kind, sig, table)?;
    types.push(output)?;
    let made = function_type(table, types.as_slice())?;
    prove!(table.height(made) <= HEIGHT_LIMIT);
    Ok(made)
}

/// `(declare-sort NAME ARITY)` in a file of this kind: a constant that makes a type of so many
/// types.
///
/// - `Redeclared`: no constant may have the name, whatever it takes: it is reserved, or a macro or a
///   program has it.
/// - `Memory`: out of memory.
pub fn declared_sort(
    alloc: Global,
    name: &[u8],
    arity: u8,
    file_kind: FileKind,
    sig: &Signature,
    table: &mut Table,
) -> Result<ConstDecl, ElabRefused>
    requires { IsBelow (length table.old.trees) sig.now }
    ensures gives { GivesConstant table.new result (declared_sort (context_at table.old sig.now file_kind) name.now arity) }
    ensures may { IfOk result (λ d. MayRepeat (context_in table.old sig.now) (read_constant table.new.trees d)) }
    ensures refused { OnErr result (table.new ≡ table.old) }
    ensures grows { GrowsUnder sig.now table.old table.new }
{
    sig.laws();
    let mark = table.mark();
    match sort(alloc, name, arity, file_kind, sig, table) {
        Ok(d) => Ok(d),
        Err(e) => {
            table.release(mark);
            Err(e)
        }
    }
}

// The same, but that a refused call leaves the terms that it made.
fn sort(
    alloc: Global,
    name: &[u8],
    arity: u8,
    file_kind: FileKind,
    sig: &Signature,
    table: &mut Table,
) -> Result<ConstDecl, ElabRefused>
    requires { IsBelow (length table.old.trees) sig.now }
    ensures gives { GivesConstant table.new result (declared_sort (context_at table.old sig.now file_kind) name.now arity) }
    ensures may { IfOk result (λ d. MayRepeat (context_in table.old sig.now) (read_constant table.new.trees d)) }
    ensures grows { GrowsUnder sig.now table.old table.new }
{
    sig.laws();
    if !sig.may_name_constant(name) {
        return Err(ElabRefused::Redeclared);
    }
    let ty = sort_type(table, arity)?;
    plain_constant(alloc, name, ty, Attribute::Plain, file_kind, table)
}

/// `(declare-parameterized-const NAME (PARAMETER ..) TYPE ATTRIBUTE)`: a constant with parameters.
///
/// A refusal is the first fault, in this order:
///
/// - `Redeclared`: no constant may have the name, whatever it takes: it is reserved, or a macro or a
///   program has it.
/// - `Parameters`: there are more than 64.
/// - a fault of a term: of the parameters' types in order, where a name that an earlier parameter
///   has is `Redeclared`, and of the type.
/// - `Tall`: the type with its parameters is taller than the limit.
/// - a fault of the terminator or what joins (`UnknownSymbol`, where it is no constant).
/// - `Memory`: out of memory.
pub fn declared_parameterized(
    alloc: Global,
    name: &[u8],
    params: &ParameterShapes<'_>,
    ty: &Sexp<'_>,
    attribute: &AttributeShape<'_>,
    sig: &Signature,
    table: &mut Table,
) -> Result<ConstDecl, ElabRefused>
    requires { IsBelow (length table.old.trees) sig.now }
    ensures gives { GivesConstant table.new result (parameterized_in table.old sig.now name.now params.now ty.now attribute.now) }
    ensures named { IfOk result (λ d. may_be_constant (context_in table.old sig.now) d.name ≡ true) }
    ensures refused { OnErr result (table.new ≡ table.old) }
    ensures grows { GrowsUnder sig.now table.old table.new }
{
    sig.laws();
    let mark = table.mark();
    match parameterized_constant(alloc, name, params, ty, attribute, sig, table) {
        Ok(d) => Ok(d),
        Err(e) => {
            table.release(mark);
            Err(e)
        }
    }
}

// The same, but that a refused call leaves the terms that it made.
fn parameterized_constant(
    alloc: Global,
    name: &[u8],
    params: &ParameterShapes<'_>,
    ty: &Sexp<'_>,
    attribute: &AttributeShape<'_>,
    sig: &Signature,
    table: &mut Table,
) -> Result<ConstDecl, ElabRefused>
    requires { IsBelow (length table.old.trees) sig.now }
    ensures gives { GivesConstant table.new result (parameterized_in table.old sig.now name.now params.now ty.now attribute.now) }
    ensures named { IfOk result (λ d. may_be_constant (context_in table.old sig.now) d.name ≡ true) }
    ensures grows { GrowsUnder sig.now table.old table.new }
{
    sig.laws();
    if !sig.may_name_constant(name) {
        return Err(ElabRefused::Redeclared);
    }
    if params.len() > PARAMETERS {
        return Err(ElabRefused::Parameters);
    }
    let bound = bind(alloc, params, FileKind::Proof, sig, table)?;
    let (ty, attribute) = typed_over(alloc, &bound, ty, attribute, sig, table)?;
    Ok(ConstDecl {
        name: Name::new(alloc, name)?,
        params: bound.params,
        ty,
        attribute,
        from_reference: false,
    })
}

// A type over parameters, with a function type that binds its argument for each explicit one, and
// an attribute.
fn typed_over(
    alloc: Global,
    bound: &Bound,
    ty: &Sexp<'_>,
    attribute: &AttributeShape<'_>,
    sig: &Signature,
    table: &mut Table,
) -> Result<(Id, Attribute), ElabRefused>
    requires bound { BoundBelow (length table.old.trees) sig.now bound.now }
    requires few { length bound.now.params ≤ parameters_limit }
    ensures gives { GivesTyped table.new result (typed_over_in table.old sig.now bound.now ty.now attribute.now) }
    ensures grows { Grows table.old table.new }
{
    names_law();
    let result = term(alloc, ty, &bound.locals, sig, table)?;
    let whole = bound_type(table, 0, bound.params.as_slice(), result)?;
    prove!(table.height(whole) <= HEIGHT_LIMIT);
    let attribute = attribute_meant(alloc, attribute, &bound.locals, FileKind::Proof, sig, table)?;
    Ok((whole, attribute))
}

/// `(declare-consts CLASS TYPE)`: the type of the literals of a class. In it, `eo::self` is the
/// literal.
///
/// A refusal is `Redeclared`, where the class has a type; else the first fault of the term; or
/// `Memory`: out of memory.
pub fn declared_literals(
    alloc: Global,
    class: LiteralClass,
    ty: &Sexp<'_>,
    sig: &Signature,
    table: &mut Table,
) -> Result<Id, ElabRefused>
    requires { IsBelow (length table.old.trees) sig.now }
    ensures gives { GivesTree table.new result (declared_literals (context_in table.old sig.now) class ty.now) }
    ensures may { OnOk result (MayBeLiterals (context_in table.old sig.now) class) }
    ensures refused { OnErr result (table.new ≡ table.old) }
    ensures grows { GrowsUnder sig.now table.old table.new }
{
    sig.laws();
    let mark = table.mark();
    match literals(alloc, class, ty, sig, table) {
        Ok(ty) => Ok(ty),
        Err(e) => {
            table.release(mark);
            Err(e)
        }
    }
}

// The same, but that a refused call leaves the terms that it made.
fn literals(
    alloc: Global,
    class: LiteralClass,
    ty: &Sexp<'_>,
    sig: &Signature,
    table: &mut Table,
) -> Result<Id, ElabRefused>
    requires { IsBelow (length table.old.trees) sig.now }
    ensures gives { GivesTree table.new result (declared_literals (context_in table.old sig.now) class ty.now) }
    ensures may { OnOk result (MayBeLiterals (context_in table.old sig.now) class) }
    ensures grows { GrowsUnder sig.now table.old table.new }
{
    sig.laws();
    if sig.literal_type(class).is_some() {
        return Err(ElabRefused::Redeclared);
    }
    let literal = parameter(table, 0)?;
    let names = self_name(alloc, literal)?;
    term(alloc, ty, &names, sig, table)
}

// `eo::self`, which means a literal.
fn self_name(alloc: Global, literal: Id) -> Result<Locals, AllocError>
    ensures { IfOk result (λ ls. ls ≡ local (codes "eo::self") literal false ∷ []) }
{
    let mut names = Locals::new(alloc);
    names.add(b"eo::self", literal, false)?;
    Ok(names)
}

/// `(define NAME (PARAMETER ..) BODY)`: a macro.
///
/// A refusal is the first fault, in this order:
///
/// - `Redeclared`: the name may not be declared, and is none that the reference file declared.
/// - `Parameters`: there are more than 64.
/// - a fault of a term: of the parameters' types in order, where a name that an earlier parameter
///   has is `Redeclared`, and of the body.
/// - `Memory`: out of memory.
pub fn define_macro(
    alloc: Global,
    name: &[u8],
    params: &ParameterShapes<'_>,
    body: &Sexp<'_>,
    sig: &Signature,
    table: &mut Table,
) -> Result<MacroDecl, ElabRefused>
    requires { IsBelow (length table.old.trees) sig.now }
    ensures gives { GivesMacro table.new result (defined (context_in table.old sig.now) name.now params.now body.now) }
    ensures may { IfOk result (λ d. MayBeMacro (context_in table.old sig.now) (read_macro table.new.trees d)) }
    ensures refused { OnErr result (table.new ≡ table.old) }
    ensures grows { GrowsUnder sig.now table.old table.new }
{
    sig.laws();
    if !may_declare(sig, name) {
        return Err(ElabRefused::Redeclared);
    }
    defined_allowed(alloc, name, params, body, sig, table)
}

/// The same for a name that may be declared, which is not asked again.
pub fn defined_allowed(
    alloc: Global,
    name: &[u8],
    params: &ParameterShapes<'_>,
    body: &Sexp<'_>,
    sig: &Signature,
    table: &mut Table,
) -> Result<MacroDecl, ElabRefused>
    requires below { IsBelow (length table.old.trees) sig.now }
    requires may { is_free_or_reference (context_in table.old sig.now) name.now ≡ true }
    ensures gives { GivesMacro table.new result (defined (context_in table.old sig.now) name.now params.now body.now) }
    ensures named { IfOk result (λ d. d.name ≡ name.now) }
    ensures refused { OnErr result (table.new ≡ table.old) }
    ensures grows { GrowsUnder sig.now table.old table.new }
{
    sig.laws();
    let mark = table.mark();
    match macro_of(alloc, name, params, body, sig, table) {
        Ok(d) => Ok(d),
        Err(e) => {
            table.release(mark);
            Err(e)
        }
    }
}

// The same, but that a refused call leaves the terms that it made.
fn macro_of(
    alloc: Global,
    name: &[u8],
    params: &ParameterShapes<'_>,
    body: &Sexp<'_>,
    sig: &Signature,
    table: &mut Table,
) -> Result<MacroDecl, ElabRefused>
    requires below { IsBelow (length table.old.trees) sig.now }
    requires may { is_free_or_reference (context_in table.old sig.now) name.now ≡ true }
    ensures gives { GivesMacro table.new result (defined (context_in table.old sig.now) name.now params.now body.now) }
    ensures named { IfOk result (λ d. d.name ≡ name.now) }
    ensures grows { GrowsUnder sig.now table.old table.new }
{
    sig.laws();
    if params.len() > PARAMETERS {
        return Err(ElabRefused::Parameters);
    }
    let bound = bind(alloc, params, FileKind::Proof, sig, table)?;
    let tree = term(alloc, body, &bound.locals, sig, table)?;
    Ok(MacroDecl {
        name: Name::new(alloc, name)?,
        params: bound.params,
        tree,
        from_reference: false,
    })
}
