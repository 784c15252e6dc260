//! Types of terms.
use super::world::{World, holds};
use eo_sig::LiteralClass;
use eo_term::{BOOL, FALSE, Id, OpName, TRUE, TYPE};
use eo_type::TypeRefused;
use std::test::Fail;

// Declares `Int`, `BitVec` and `extract`, the constants 4 to 6, and the types of numbers and bit
// strings. It answers `Int`.
fn declare_bits(w: &mut World) -> Result<Id, Fail> {
    let int = w.con(4)?;
    let of_vector = w.qar(0, int, TYPE)?;
    let of_extract = extract_type(w, int)?;
    let class = type_of_bits(w)?;
    w.declare(b"Int", TYPE)?;
    w.declare(b"BitVec", of_vector)?;
    w.declare(b"extract", of_extract)?;
    w.set_class(LiteralClass::Numeral, int)?;
    w.set_class(LiteralClass::Binary, class)?;
    Ok(int)
}

// The type of a class of bit strings, the constant 5 applied to the literal's width.
fn type_of_bits(w: &mut World) -> Result<Id, Fail> {
    let literal = w.par(0)?;
    let width = w.op(OpName::Len, &[literal])?;
    let vector = w.con(5)?;
    w.app(vector, width)
}

// The type of `extract`, the constant 6, where `BitVec` is 5: over bits of an open width, the
// parameters 1 and 2 being the high and the low place.
fn extract_type(w: &mut World, int: Id) -> Result<Id, Fail> {
    let vector = w.con(5)?;
    let open = w.par(0)?;
    let from = w.app(vector, open)?;
    let width = extract_width(w)?;
    let to = w.app(vector, width)?;
    let to = w.arr(from, to)?;
    let to = w.qar(2, int, to)?;
    w.qar(1, int, to)
}

// One more than the high place without the low one.
fn extract_width(w: &mut World) -> Result<Id, Fail> {
    let high = w.par(1)?;
    let low = w.par(2)?;
    let one = w.num(1)?;
    let end = w.op(OpName::Add, &[high, one])?;
    let start = w.op(OpName::Neg, &[low])?;
    w.op(OpName::Add, &[end, start])
}

// The bits from a high place to a low one.
fn extract(w: &mut World, high: i128, low: i128, bits: Id) -> Result<Id, Fail> {
    let fun = w.con(6)?;
    let arg = w.num(high)?;
    let fun = w.app(fun, arg)?;
    let arg = w.num(low)?;
    let fun = w.app(fun, arg)?;
    w.app(fun, bits)
}

// The type of bit strings of a width.
fn bits_type(w: &mut World, width: i128) -> Result<Id, Fail> {
    let vector = w.con(5)?;
    let width = w.num(width)?;
    w.app(vector, width)
}

#[test]
fn a_literal_has_the_type_of_its_class(rt: HostRuntime) -> Result<(), Fail> {
    assert!(rt; holds(rt.alloc(), literals_have_types)?);
    Ok(())
}

// Literals of three classes, of which strings have no type.
fn literals_have_types(w: &mut World) -> Result<bool, Fail> {
    let int = declare_bits(w)?;
    let number = w.num(5)?;
    let bits = w.bits()?;
    let of_bits = bits_type(w, 8)?;
    let string = w.string()?;
    w.have_types(&[(number, Some(int)), (bits, Some(of_bits)), (string, None)])
}

#[test]
fn a_width_is_computed(rt: HostRuntime) -> Result<(), Fail> {
    assert!(rt; holds(rt.alloc(), widths_are_computed)?);
    Ok(())
}

// Parts of a bit string, of which one is out of range and one is of no bit string.
fn widths_are_computed(w: &mut World) -> Result<bool, Fail> {
    let int = declare_bits(w)?;
    let bits = w.bits()?;
    let half = extract(w, 7, 4, bits)?;
    let below = extract(w, 4, 7, bits)?;
    let wrong = extract(w, 7, 4, int)?;
    let of_half = bits_type(w, 4)?;
    let of_below = bits_type(w, -2)?;
    w.have_types(&[
        (half, Some(of_half)),
        (below, Some(of_below)),
        (wrong, None),
    ])
}

#[test]
fn a_width_may_be_out_of_range(rt: HostRuntime) -> Result<(), Fail> {
    assert!(rt; holds(rt.alloc(), a_width_is_refused)?);
    Ok(())
}

// The greatest number is a place, so that the width is one more.
fn a_width_is_refused(w: &mut World) -> Result<bool, Fail> {
    declare_bits(w)?;
    let bits = w.bits()?;
    let beyond = extract(w, i128::MAX, 0, bits)?;
    Ok(matches!(w.type_of(beyond)?, Err(TypeRefused::NumberRange)))
}

#[test]
fn an_implicit_parameter_has_one_value(rt: HostRuntime) -> Result<(), Fail> {
    assert!(rt; holds(rt.alloc(), equality_has_types)?);
    Ok(())
}

// Equality, the constant 4, whose arguments have one type, the parameter 0: applied to terms of
// one type and of two. The constant 5 is not declared.
fn equality_has_types(w: &mut World) -> Result<bool, Fail> {
    let open = w.par(0)?;
    let to = w.arr(open, BOOL)?;
    let of_equality = w.arr(open, to)?;
    let equality = w.con(4)?;
    let fun = w.app(equality, TRUE)?;
    let of_fun = w.arr(BOOL, BOOL)?;
    let good = w.app(fun, FALSE)?;
    let bad = w.app(fun, BOOL)?;
    let absent = w.con(5)?;
    w.declare(b"=", of_equality)?;
    w.have_types(&[
        (equality, Some(of_equality)),
        (fun, Some(of_fun)),
        (good, Some(BOOL)),
        (bad, None),
        (absent, None),
    ])
}

#[test]
fn a_function_type_is_over_types(rt: HostRuntime) -> Result<(), Fail> {
    assert!(rt; holds(rt.alloc(), functions_have_types)?);
    Ok(())
}

// Variables and function types, whose parts are types or not.
fn functions_have_types(w: &mut World) -> Result<bool, Fail> {
    let variable = w.var(BOOL)?;
    let no_variable = w.var(TRUE)?;
    let good = w.arr(BOOL, BOOL)?;
    let bad = w.arr(TRUE, BOOL)?;
    w.have_types(&[
        (TYPE, Some(TYPE)),
        (variable, Some(BOOL)),
        (no_variable, None),
        (good, Some(TYPE)),
        (bad, None),
    ])
}

#[test]
fn a_shared_part_is_typed_once(rt: HostRuntime) -> Result<(), Fail> {
    assert!(rt; holds(rt.alloc(), doublings_have_types)?);
    Ok(())
}

// A term of 64 doublings, whose type is as large.
fn doublings_have_types(w: &mut World) -> Result<bool, Fail> {
    let of_pair = pair_type(w)?;
    let pair = w.con(4)?;
    let term = apply_twice(w, pair, 64)?;
    w.declare(b"pair", of_pair)?;
    Ok(w.type_of(term)??.is_some())
}

// The type of pairs, the constant 4, whose types are the constant 5 on those of both.
fn pair_type(w: &mut World) -> Result<Id, Fail> {
    let first = w.par(0)?;
    let second = w.par(1)?;
    let fun = w.con(5)?;
    let fun = w.app(fun, first)?;
    let to = w.app(fun, second)?;
    let to = w.arr(second, to)?;
    w.arr(first, to)
}

// A function applied to a term twice, and to that twice, and so on.
fn apply_twice(w: &mut World, fun: Id, times: u32) -> Result<Id, Fail> {
    let mut id = TRUE;
    for _ in 0..times {
        let half = w.app(fun, id)?;
        id = w.app(half, id)?;
    }
    Ok(id)
}
