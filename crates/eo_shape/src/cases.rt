//! The shape of the cases of a program.
ghost use Rattle.std.specs.Prelude.{◌≡◌, List, length, is_some, option_map};
ghost use Rattle.eo_shape.specs.Cases.{shaped_case};
ghost use Rattle.eo_shape.specs.Reading.{read_case};
ghost use Rattle.eo_shape.specs.Shapes.{every, case_of, cases_of, applied_case};

use crate::CaseShape;
use crate::words::is_symbol;
use eo_sexp::{Children, Sexp};
use std::marker::Model;

/// The cases of a program in a list of which each part has the shape of one, in order.
#[derive(Drop)]
pub struct CaseShapes<'a> {
    program: &'a [u8],
    items: Children<'a>,
}

impl<'a> Model for CaseShapes<'a> {
    ghost use Rattle.std.specs.Prelude.{List};
    ghost use Rattle.std.specs.Coded.{codes};
    ghost use Rattle.eo_sexp.specs.SexpCode.{sexp_coded};
    ghost use Rattle.eo_shape.specs.Cases.{cases_in, AreCases};
    ghost use Rattle.eo_shape.specs.Shapes.{CaseShape};

    ghost Value = { List CaseShape };

    ghost coded = { Prim.hlevel (codes, sexp_coded) };

    ghost view = { λ a. cases_in a.program.now a.items };

    ghost invariant = { λ a. AreCases a.program.now a.items };
}

impl<'a> CaseShapes<'a> {
    /// The same cases once more.
    pub fn again(&self) -> CaseShapes<'a>
        ensures { result ≡ self.now }
    {
        CaseShapes {
            program: self.program,
            items: self.items.again(),
        }
    }
}

impl<'a> Iterator for CaseShapes<'a> {
    ghost use Rattle.std.specs.Iterator.{YieldsFirstBy, item_count};
    ghost use Rattle.eo_shape.specs.Reading.{read_case};

    type Item = CaseShape<'a>;

    ghost next_gives = { YieldsFirstBy read_case (λ rest. rest) };

    ghost remaining = { item_count (λ rest. rest) };

    fn next(&mut self) -> Option<CaseShape<'a>> {
        let item = self.items.next()?;
        case(self.program, &item)
    }
}

/// The cases of the program in this list, where each part has the shape of one.
pub(crate) fn cases<'b>(program: &'b [u8], s: &Sexp<'b>) -> Option<CaseShapes<'b>>
    ensures { result ≡ cases_of program.now s.now }
{
    let items = s.list()?;
    if !are_cases(program, &items) {
        return None;
    }
    Some(CaseShapes { program, items })
}

/// Whether each has the shape of a case of the program.
fn are_cases(program: &[u8], items: &Children<'_>) -> bool
    ensures { result ≡ is_some (every (shaped_case program.now) items.now) }
{
    for item in items.again() {
        if case(program, &item).is_none() {
            return false;
        }
    }
    true
}

/// A case of the program: a list of what the program is applied to, and a body.
fn case<'b>(program: &[u8], s: &Sexp<'b>) -> Option<CaseShape<'b>>
    ensures { option_map read_case result ≡ shaped_case program.now s.now }
{
    let (left, body) = s.list()?.only_two()?;
    applied_case(program, &left.list()?, body)
}

/// The case with these parts on its left side, of which the first is the program's name.
fn applied_case<'b>(program: &[u8], left: &Children<'b>, body: Sexp<'b>) -> Option<CaseShape<'b>>
    ensures { option_map read_case result ≡ applied_case program.now body.entry left.now }
{
    let (head, patterns) = left.split_first()?;
    if !is_symbol(&head, program) {
        return None;
    }
    Some(CaseShape { patterns, body })
}
