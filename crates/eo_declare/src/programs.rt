//! What a command that declares a program declares.
ghost use Rattle.std.specs.Prelude.{◌≡◌, ◌<◌, ◌≤◌, [], length, true, IfOk, OnErr};
ghost use Rattle.eo_base.specs.Limits.{parameters_limit};
ghost use Rattle.eo_term.specs.Growth.{Grows};
ghost use Rattle.eo_shape.specs.Reading.{read_case as read_shape, read_program};
ghost use Rattle.eo_sig.specs.Growth.{GrowsUnder};
ghost use Rattle.eo_sig.specs.Reading.{IsBelow, IsFree, ProgramBelow};
ghost use Rattle.eo_declare.specs.Declarations.{is_free_name};
ghost use Rattle.eo_declare.specs.Declaring.{BoundBelow, program_in, program_over_in, with_cases_in, own_cases_in};
ghost use Rattle.eo_declare.specs.Gives.{GivesProgram, GivesCase, GivesCases};
ghost use Rattle.eo_names.specs.Ready.{IsReady};
ghost use Rattle.eo_names.specs.Worlds.{world_of};
ghost use Rattle.eo_elab.specs.Worlds.{context_in};
ghost use Rattle.eo_declare.specs.Worlds.{case_in, cases_in};

use crate::constants::{elaborate_terms, meanings};
use crate::parameters::{Bound, bind};
use eo_base::Name;
use eo_base::limits::PARAMETERS;
use eo_elab::{ElabRefused, FileKind, Locals, elaborate_view, term};
use eo_names::names_law;
use eo_shape::{CaseShape, CaseShapes, ProgramShape};
use eo_sig::{Case, Cases, ProgramDecl, Signature, SignatureView};
use eo_term::Table;
use std::alloc::Global;

/// `(program NAME (PARAMETER ..) :signature (INPUT ..) OUTPUT (CASE ..))`: a program. In its cases
/// its name means the program.
///
/// A refusal is the first fault, in this order:
///
/// - `Redeclared`: the name may not be declared.
/// - `Parameters`: there are more than 64 parameters, or more than 64 inputs.
/// - a fault of a term: of the parameters' types in order, where a name that an earlier parameter
///   has is `Redeclared`, of the inputs, and of the output.
/// - of each case in order: `BadArity`, where there are not as many patterns as inputs; then a
///   fault of a term: of the patterns in order, and of the body.
/// - `Memory`: out of memory.
pub fn declared_program(
    alloc: Global,
    shape: &ProgramShape<'_>,
    sig: &Signature,
    table: &mut Table,
) -> Result<ProgramDecl, ElabRefused>
    requires { IsBelow (length table.old.trees) sig.now }
    ensures gives { GivesProgram table.new result (program_in table.old sig.now (read_program shape.now)) }
    ensures free { IfOk result (λ d. IsFree sig.now d.name) }
    ensures named { IfOk result (λ d. is_free_name (context_in table.old sig.now) d.name ≡ true) }
    ensures refused { OnErr result (table.new ≡ table.old) }
    ensures grows { GrowsUnder sig.now table.old table.new }
{
    sig.laws();
    let mark = table.mark();
    match program(alloc, shape, sig, table) {
        Ok(d) => Ok(d),
        Err(e) => {
            table.release(mark);
            Err(e)
        }
    }
}

// The same, but that a refused call leaves the terms that it made.
fn program(
    alloc: Global,
    shape: &ProgramShape<'_>,
    sig: &Signature,
    table: &mut Table,
) -> Result<ProgramDecl, ElabRefused>
    requires { IsBelow (length table.old.trees) sig.now }
    ensures gives { GivesProgram table.new result (program_in table.old sig.now (read_program shape.now)) }
    ensures free { IfOk result (λ d. IsFree sig.now d.name) }
    ensures named { IfOk result (λ d. is_free_name (context_in table.old sig.now) d.name ≡ true) }
    ensures grows { GrowsUnder sig.now table.old table.new }
{
    sig.laws();
    if !sig.is_free(shape.name) {
        return Err(ElabRefused::Redeclared);
    }
    if shape.params.len() > PARAMETERS {
        return Err(ElabRefused::Parameters);
    }
    if shape.inputs.len() > PARAMETERS {
        return Err(ElabRefused::Parameters);
    }
    let bound = bind(alloc, &shape.params, FileKind::Proof, sig, table)?;
    program_over(alloc, shape, bound, sig, table)
}

// A program over parameters, with at most 64 inputs.
fn program_over(
    alloc: Global,
    shape: &ProgramShape<'_>,
    bound: Bound,
    sig: &Signature,
    table: &mut Table,
) -> Result<ProgramDecl, ElabRefused>
    requires below { IsBelow (length table.old.trees) sig.now }
    requires bound { BoundBelow (length table.old.trees) sig.now bound }
    requires few { length shape.now.inputs ≤ parameters_limit }
    ensures gives { GivesProgram table.new result (program_over_in table.old sig.now bound (read_program shape.now)) }
    ensures name { IfOk result (λ d. d.name ≡ shape.now.name.now) }
    ensures grows { Grows table.old table.new }
{
    names_law();
    let types = meanings(alloc, &shape.inputs, &bound.locals, sig, table)?;
    let output = term(alloc, &shape.output, &bound.locals, sig, table)?;
    let Bound { params, locals } = bound;
    let head = ProgramDecl {
        name: Name::new(alloc, shape.name)?,
        params,
        inputs: types,
        output,
        cases: Cases::new(alloc),
    };
    with_cases(alloc, head, &shape.cases, &locals, sig, table)
}

// A program that has no cases yet, with these.
fn with_cases(
    alloc: Global,
    head: ProgramDecl,
    cases: &CaseShapes<'_>,
    locals: &Locals,
    sig: &Signature,
    table: &mut Table,
) -> Result<ProgramDecl, ElabRefused>
    requires ready { IsReady (length table.old.trees) sig.now locals.now }
    requires head { ProgramBelow (length table.old.trees) head }
    ensures gives { GivesProgram table.new result (with_cases_in table.old sig.now locals.now head cases.now) }
    ensures name { IfOk result (λ d. d.name ≡ head.name) }
    ensures grows { Grows table.old table.new }
{
    let cases = own_cases(alloc, &head, cases, locals, sig, table)?;
    let mut program = head;
    program.cases = cases;
    Ok(program)
}

// The cases of a program, in which its name means the program.
fn own_cases(
    alloc: Global,
    head: &ProgramDecl,
    cases: &CaseShapes<'_>,
    locals: &Locals,
    sig: &Signature,
    table: &mut Table,
) -> Result<Cases, ElabRefused>
    requires ready { IsReady (length table.old.trees) sig.now locals.now }
    requires head { ProgramBelow (length table.old.trees) head.now }
    ensures gives { GivesCases table.new result (own_cases_in table.old sig.now locals.now head.now cases.now) }
    ensures grows { Grows table.old table.new }
{
    let view = SignatureView::with_program(sig, head);
    let inputs = head.inputs.as_slice().len();
    elaborate_cases(alloc, cases, inputs, locals, &view, table)
}

// The cases of a program with so many inputs.
fn elaborate_cases(
    alloc: Global,
    shapes: &CaseShapes<'_>,
    inputs: usize,
    locals: &Locals,
    sig: &SignatureView<'_>,
    table: &mut Table,
) -> Result<Cases, ElabRefused>
    requires ready { IsReady (length table.old.trees) sig.now locals.now }
    ensures gives { GivesCases table.new result (cases_in (world_of table.old sig.now locals.now) inputs shapes.now) }
    ensures grows { Grows table.old table.new }
{
    names_law();
    let mut cases = Cases::new(alloc);
    for shape in shapes.again() {
        let case = elaborate_case(alloc, &shape, inputs, locals, sig, table)?;
        cases.push(case)?;
    }
    Ok(cases)
}

// A case of a program with so many inputs.
fn elaborate_case(
    alloc: Global,
    shape: &CaseShape<'_>,
    inputs: usize,
    locals: &Locals,
    sig: &SignatureView<'_>,
    table: &mut Table,
) -> Result<Case, ElabRefused>
    requires ready { IsReady (length table.old.trees) sig.now locals.now }
    ensures gives { GivesCase table.new result (case_in (world_of table.old sig.now locals.now) inputs (read_shape shape.now)) }
    ensures grows { Grows table.old table.new }
{
    names_law();
    if shape.patterns.len() != inputs {
        return Err(ElabRefused::BadArity);
    }
    let patterns = elaborate_terms(alloc, &shape.patterns, locals, FileKind::Proof, sig, table)?;
    let body = elaborate_view(alloc, &shape.body, locals, FileKind::Proof, sig, table)?;
    Ok(Case { patterns, body })
}
