//! The shape of parameters.
ghost use Rattle.std.specs.Prelude.{◌≡◌, ◌<◌, List, ◌∷◌, Some, length, is_some, option_map};
ghost use Rattle.eo_sexp.specs.Sexp.{Sexp};
ghost use Rattle.eo_shape.specs.Parameters.{shaped_parameter, AddsMark};
ghost use Rattle.eo_shape.specs.Reading.{read_parameter};
ghost use Rattle.std.specs.List.{list_all};
ghost use Rattle.eo_shape.specs.Shapes.{every, parameter_of, parameters_of, with_marks};
ghost use Rattle.eo_shape.specs.Shapes.{is_unmarked, unmarked_of};

use crate::ParameterShape;
use crate::words::{is_keyword, symbol};
use eo_sexp::{Children, Sexp};
use std::marker::Model;

/// The parameters of a list of which each part has the shape of one, in order.
#[derive(Drop)]
pub struct ParameterShapes<'a> {
    items: Children<'a>,
}

impl<'a> Model for ParameterShapes<'a> {
    ghost use Rattle.std.specs.Prelude.{List};
    ghost use Rattle.std.specs.Coded.{codes};
    ghost use Rattle.eo_sexp.specs.SexpCode.{sexp_coded};
    ghost use Rattle.eo_shape.specs.Parameters.{parameters_in, AreParameters};
    ghost use Rattle.eo_shape.specs.Shapes.{ParameterShape};

    ghost Value = { List ParameterShape };

    ghost coded = { Prim.hlevel (codes, sexp_coded) };

    ghost view = { λ a. parameters_in a.items };

    ghost invariant = { λ a. AreParameters a.items };
}

impl<'a> ParameterShapes<'a> {
    /// How many there are.
    pub fn len(&self) -> usize
        ensures { result ≡ length self.now }
    {
        self.items.len()
    }

    /// The same parameters once more.
    pub fn again(&self) -> ParameterShapes<'a>
        ensures { result ≡ self.now }
    {
        ParameterShapes {
            items: self.items.again(),
        }
    }
}

impl<'a> Iterator for ParameterShapes<'a> {
    ghost use Rattle.std.specs.Iterator.{YieldsFirstBy, item_count};
    ghost use Rattle.eo_shape.specs.Reading.{read_parameter};

    type Item = ParameterShape<'a>;

    ghost next_gives = { YieldsFirstBy read_parameter (λ rest. rest) };

    ghost remaining = { item_count (λ rest. rest) };

    fn next(&mut self) -> Option<ParameterShape<'a>> {
        let item = self.items.next()?;
        parameter(&item)
    }
}

/// The parameters in this list, where each part has the shape of one.
pub(crate) fn parameters<'b>(s: &Sexp<'b>) -> Option<ParameterShapes<'b>>
    ensures { result ≡ parameters_of s.now }
{
    let items = s.list()?;
    if !are_parameters(&items) {
        return None;
    }
    Some(ParameterShapes { items })
}

/// The parameters in this list, where each part has the shape of one, and none has a mark.
pub(crate) fn unmarked_parameters<'b>(s: &Sexp<'b>) -> Option<ParameterShapes<'b>>
    ensures { result ≡ unmarked_of s.now }
{
    let params = parameters(s)?;
    if !are_unmarked(&params) {
        return None;
    }
    Some(params)
}

/// Whether none has a mark.
fn are_unmarked(params: &ParameterShapes<'_>) -> bool
    ensures { result ≡ list_all is_unmarked params.now }
{
    for parameter in params.again() {
        if !is_unmarked(&parameter) {
            return false;
        }
    }
    true
}

/// Whether it has no mark.
fn is_unmarked(parameter: &ParameterShape<'_>) -> bool
    ensures { result ≡ is_unmarked (read_parameter parameter.now) }
{
    !parameter.implicit & !parameter.list
}

/// Whether each has the shape of a parameter.
fn are_parameters(items: &Children<'_>) -> bool
    ensures { result ≡ is_some (every shaped_parameter items.now) }
{
    for item in items.again() {
        if parameter(&item).is_none() {
            return false;
        }
    }
    true
}

/// A parameter: a list of a name, a type and marks.
fn parameter<'b>(s: &Sexp<'b>) -> Option<ParameterShape<'b>>
    ensures { option_map read_parameter result ≡ shaped_parameter s.now }
{
    parameter_in(&s.list()?)
}

/// A parameter by its parts.
fn parameter_in<'b>(parts: &Children<'b>) -> Option<ParameterShape<'b>>
    ensures { option_map read_parameter result ≡ parameter_of parts.now }
{
    let (name, ty, marks) = parts.split_two()?;
    let unmarked = ParameterShape {
        name: symbol(&name)?,
        ty,
        implicit: false,
        list: false,
    };
    with_marks(unmarked, &marks)
}

/// The parameter with these marks, where each occurs at most once.
fn with_marks<'a>(parameter: ParameterShape<'a>, marks: &Children<'_>) -> Option<ParameterShape<'a>>
    ensures { option_map read_parameter result ≡ with_marks (read_parameter parameter.entry) marks.now }
{
    let mut marked = parameter;
    for mark in marks.again() {
        marked = with_mark(marked, &mark)?;
    }
    Some(marked)
}

/// The parameter with one mark more, which it does not have.
fn with_mark<'a>(parameter: ParameterShape<'a>, mark: &Sexp<'_>) -> Option<ParameterShape<'a>>
    ensures { AddsMark (read_parameter parameter.entry) mark.now (option_map read_parameter result) }
{
    if is_keyword(mark, b":implicit") && !parameter.implicit {
        return Some(ParameterShape {
            implicit: true,
            ..parameter
        });
    }
    if is_keyword(mark, b":list") && !parameter.list {
        return Some(ParameterShape {
            list: true,
            ..parameter
        });
    }
    None
}
