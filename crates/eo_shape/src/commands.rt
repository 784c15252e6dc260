//! The shape of each command, by what follows its word.
ghost use Rattle.std.specs.Prelude.{◌≡◌, option_map};
ghost use Rattle.eo_shape.specs.Reading.{read_command};
ghost use Rattle.eo_shape.specs.Shapes as shapes;

use crate::attributes::attribute;
use crate::cases::cases;
use crate::parameters::{parameters, unmarked_parameters};
use crate::sequences::symbols_in;
use crate::words::{arity, class, is_keyword, string, symbol};
use crate::{AttributeShape, Command, ParameterShapes, ProgramShape};
use eo_sexp::{Children, Sexp};

pub(crate) fn declare_const<'b>(parts: &Children<'b>) -> Option<Command<'b>>
    ensures { option_map read_command result ≡ shapes.declare_const parts.now }
{
    let (name, ty, rest) = parts.split_two()?;
    Some(Command::DeclareConst {
        name: symbol(&name)?,
        ty,
        attribute: attribute(&rest)?,
    })
}

pub(crate) fn declare_fun<'b>(parts: &Children<'b>) -> Option<Command<'b>>
    ensures { option_map read_command result ≡ shapes.declare_fun parts.now }
{
    let (name, inputs, output) = parts.only_three()?;
    Some(Command::DeclareFun {
        name: symbol(&name)?,
        inputs: inputs.list()?,
        output,
    })
}

pub(crate) fn declare_sort<'b>(parts: &Children<'b>) -> Option<Command<'b>>
    ensures { option_map read_command result ≡ shapes.declare_sort parts.now }
{
    let (name, n) = parts.only_two()?;
    Some(Command::DeclareSort {
        name: symbol(&name)?,
        arity: arity(&n)?,
    })
}

pub(crate) fn declare_parameterized<'b>(parts: &Children<'b>) -> Option<Command<'b>>
    ensures { option_map read_command result ≡ shapes.declare_parameterized parts.now }
{
    let (name, params, ty, rest) = parts.split_three()?;
    Some(Command::DeclareParameterized {
        name: symbol(&name)?,
        params: parameters(&params)?,
        ty,
        attribute: attribute(&rest)?,
    })
}

pub(crate) fn declare_literals<'b>(parts: &Children<'b>) -> Option<Command<'b>>
    ensures { option_map read_command result ≡ shapes.declare_literals parts.now }
{
    let (name, ty) = parts.only_two()?;
    Some(Command::DeclareLiterals {
        class: class(symbol(&name)?)?,
        ty,
    })
}

pub(crate) fn define<'b>(parts: &Children<'b>) -> Option<Command<'b>>
    ensures { option_map read_command result ≡ shapes.define parts.now }
{
    let (name, params, body) = parts.only_three()?;
    Some(Command::Define {
        name: symbol(&name)?,
        params: parameters(&params)?,
        body,
    })
}

pub(crate) fn program<'b>(parts: &Children<'b>) -> Option<Command<'b>>
    ensures { option_map read_command result ≡ shapes.define_program parts.now }
{
    let (name, params, keyword, rest) = parts.split_three()?;
    signed_program(symbol(&name)?, parameters(&params)?, &keyword, &rest)
}

/// The program of this name and parameters, by what follows: `:signature`, and other parts.
fn signed_program<'b>(
    name: &'b [u8],
    params: ParameterShapes<'b>,
    keyword: &Sexp<'_>,
    rest: &Children<'b>,
) -> Option<Command<'b>>
    ensures { option_map read_command result ≡ shapes.signed_program name.now params.entry keyword.now rest.now }
{
    if !is_keyword(keyword, b":signature") {
        return None;
    }
    program_with(name, params, rest)
}

/// The program of this name and parameters, by its inputs, its output and its cases.
fn program_with<'b>(
    name: &'b [u8],
    params: ParameterShapes<'b>,
    rest: &Children<'b>,
) -> Option<Command<'b>>
    ensures { option_map read_command result ≡ shapes.program_with name.now params.entry rest.now }
{
    let (inputs, output, list) = rest.only_three()?;
    Some(Command::Program(ProgramShape {
        name,
        params,
        inputs: some_terms(&inputs)?,
        output,
        cases: cases(name, &list)?,
    }))
}

/// The parts of a list, where there is one or more.
fn some_terms<'b>(s: &Sexp<'b>) -> Option<Children<'b>>
    ensures { result ≡ shapes.inputs_of s.now }
{
    let terms = s.list()?;
    if terms.len() == 0 {
        return None;
    }
    Some(terms)
}

pub(crate) fn assume<'b>(parts: &Children<'b>) -> Option<Command<'b>>
    ensures { option_map read_command result ≡ shapes.named_formula shapes.Assume parts.now }
{
    let (name, formula) = parts.only_two()?;
    Some(Command::Assume {
        name: symbol(&name)?,
        formula,
    })
}

pub(crate) fn assume_push<'b>(parts: &Children<'b>) -> Option<Command<'b>>
    ensures { option_map read_command result ≡ shapes.named_formula shapes.AssumePush parts.now }
{
    let (name, formula) = parts.only_two()?;
    Some(Command::AssumePush {
        name: symbol(&name)?,
        formula,
    })
}

pub(crate) fn include<'b>(parts: &Children<'b>) -> Option<Command<'b>>
    ensures { option_map read_command result ≡ shapes.one_string shapes.Include parts.now }
{
    let path = parts.only_one()?;
    Some(Command::Include {
        path: string(&path)?,
    })
}

pub(crate) fn refer<'b>(parts: &Children<'b>) -> Option<Command<'b>>
    ensures { option_map read_command result ≡ shapes.one_string shapes.Refer parts.now }
{
    let path = parts.only_one()?;
    Some(Command::Refer {
        path: string(&path)?,
    })
}

pub(crate) fn assert<'b>(parts: &Children<'b>) -> Option<Command<'b>>
    ensures { option_map read_command result ≡ shapes.assert parts.now }
{
    let formula = parts.only_one()?;
    Some(Command::Assert { formula })
}

/// A constant without attribute.
pub(crate) fn declare_plain<'b>(parts: &Children<'b>) -> Option<Command<'b>>
    ensures { option_map read_command result ≡ shapes.declare_plain parts.now }
{
    let (name, ty) = parts.only_two()?;
    Some(Command::DeclareConst {
        name: symbol(&name)?,
        ty,
        attribute: AttributeShape::None,
    })
}

pub(crate) fn define_fun<'b>(parts: &Children<'b>) -> Option<Command<'b>>
    ensures { option_map read_command result ≡ shapes.define_fun parts.now }
{
    let (name, params, output, rest) = parts.split_three()?;
    let body = rest.only_one()?;
    Some(Command::DefineFun {
        name: symbol(&name)?,
        params: unmarked_parameters(&params)?,
        output,
        body,
    })
}

pub(crate) fn define_sort<'b>(parts: &Children<'b>) -> Option<Command<'b>>
    ensures { option_map read_command result ≡ shapes.define_sort parts.now }
{
    let (name, params, ty) = parts.only_three()?;
    Some(Command::DefineSort {
        name: symbol(&name)?,
        params: symbols_in(&params)?,
        ty,
    })
}

pub(crate) fn exit<'b>(parts: &Children<'b>) -> Option<Command<'b>>
    ensures { option_map read_command result ≡ shapes.exit parts.now }
{
    if parts.len() != 0 {
        return None;
    }
    Some(Command::Exit)
}
