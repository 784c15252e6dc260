//! The shape of an attribute.
ghost use Rattle.std.specs.Prelude.{◌≡◌, option_map};
ghost use Rattle.eo_shape.specs.Reading.{read_attribute};
ghost use Rattle.eo_shape.specs.Shapes.{attribute_of, marked_attribute, valued_attribute};

use crate::AttributeShape;
use crate::words::is_keyword;
use eo_sexp::{Children, Sexp};

/// The attribute that these parts are: none, a mark, or a keyword with its value.
pub(crate) fn attribute<'b>(parts: &Children<'b>) -> Option<AttributeShape<'b>>
    ensures { option_map read_attribute result ≡ attribute_of parts.now }
{
    match parts.len() {
        0 => Some(AttributeShape::None),
        1 => bare_attribute(&parts.first()),
        2 => {
            let (keyword, value) = parts.only_two()?;
            valued_attribute(&keyword, value)
        }
        _ => None,
    }
}

/// The attribute of this keyword alone.
fn bare_attribute<'a>(keyword: &Sexp<'_>) -> Option<AttributeShape<'a>>
    ensures { option_map read_attribute result ≡ marked_attribute keyword.now }
{
    if is_keyword(keyword, b":right-assoc") {
        return Some(AttributeShape::Right);
    }
    if is_keyword(keyword, b":left-assoc") {
        return Some(AttributeShape::Left);
    }
    None
}

/// The attribute of this keyword with this value.
fn valued_attribute<'a>(keyword: &Sexp<'_>, value: Sexp<'a>) -> Option<AttributeShape<'a>>
    ensures { option_map read_attribute result ≡ valued_attribute keyword.now value.entry }
{
    if is_keyword(keyword, b":right-assoc-nil") {
        return Some(AttributeShape::RightNil(value));
    }
    if is_keyword(keyword, b":left-assoc-nil") {
        return Some(AttributeShape::LeftNil(value));
    }
    if is_keyword(keyword, b":chainable") {
        return Some(AttributeShape::Chain(value));
    }
    if is_keyword(keyword, b":pairwise") {
        return Some(AttributeShape::Pairs(value));
    }
    if is_keyword(keyword, b":binder") {
        return Some(AttributeShape::Binder(value));
    }
    None
}
