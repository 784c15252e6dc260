//! Constants of one name.
use super::world::{Answer, World, holds};
use eo_sig::{Attribute, Entry};
use eo_term::TRUE;
use std::test::Fail;

/// How a constant folds its arguments.
#[derive(Clone, Copy)]
enum Fold {
    Plain,
    Right,
    Left,
    /// To the right, onto `true`.
    List,
}

fn attribute_of(fold: Fold) -> Attribute {
    match fold {
        Fold::Plain => Attribute::Plain,
        Fold::Right => Attribute::Right,
        Fold::Left => Attribute::Left,
        Fold::List => Attribute::RightNil(TRUE),
    }
}

/// How many arguments a constant has, how it folds them, and what becomes of it.
type Row = (u8, Fold, Answer);

#[test]
fn a_name_holds_constants_apart(rt: HostRuntime) -> Result<(), Fail> {
    assert!(rt; holds(rt.alloc(), constants_are_apart)?);
    Ok(())
}

// A constant from 2 arguments on, with others of the same name.
const MINUS: &[Row] = &[
    (2, Fold::Left, Answer::Number(4)),
    (1, Fold::Plain, Answer::Number(5)),
    (1, Fold::Plain, Answer::Redeclared),
    (2, Fold::Plain, Answer::Redeclared),
    (3, Fold::Right, Answer::Redeclared),
    (1, Fold::List, Answer::Redeclared),
    (0, Fold::Plain, Answer::Number(6)),
];

// What the name means before so many arguments.
const FOUND: &[(usize, usize)] = &[(0, 6), (1, 5), (2, 4), (3, 4), (64, 4)];

fn constants_are_apart(w: &mut World) -> Result<bool, Fail> {
    Ok(are_declared(w, b"-", MINUS)? && are_found(w, b"-", FOUND))
}

// Whether each constant of the name, in turn, has the answer beside it.
fn are_declared(w: &mut World, name: &[u8], rows: &[Row]) -> Result<bool, Fail> {
    for (n, fold, answer) in rows {
        if w.declare_taking(name, *n, attribute_of(*fold))? != *answer {
            return Ok(false);
        }
    }
    Ok(true)
}

// Whether the name means each of these constants, and by itself the constant 4.
fn are_found(w: &World, name: &[u8], rows: &[(usize, usize)]) -> bool {
    for (n, constant) in rows {
        if w.lookup_count(name, *n) != Some(Entry::Constant(*constant)) {
            return false;
        }
    }
    w.lookup(name) == Some(Entry::Constant(4))
}

#[test]
fn a_list_constant_takes_one_argument(rt: HostRuntime) -> Result<(), Fail> {
    assert!(rt; holds(rt.alloc(), lists_take_one)?);
    Ok(())
}

// A constant with a terminator takes all numbers from 1 on.
const LISTS: &[Row] = &[
    (2, Fold::List, Answer::Number(4)),
    (1, Fold::Plain, Answer::Redeclared),
    (0, Fold::Plain, Answer::Number(5)),
];

fn lists_take_one(w: &mut World) -> Result<bool, Fail> {
    Ok(
        are_declared(w, b"or", LISTS)?
            && are_found(w, b"or", &[(0, 5), (1, 4), (2, 4)])
            && w.constant_taking(b"or", 1) == Some(4)
            && w.constant_taking(b"and", 1).is_none()
            && w.lookup_count(b"and", 1).is_none(),
    )
}

#[test]
fn a_name_holds_64_constants(rt: HostRuntime) -> Result<(), Fail> {
    assert!(rt; holds(rt.alloc(), many_are_apart)?);
    Ok(())
}

fn many_are_apart(w: &mut World) -> Result<bool, Fail> {
    Ok(many_are_declared(w)? && many_are_found(w) && none_from_two(w)?)
}

// The constants of one name that have no argument, one, and so on to 63.
fn many_are_declared(w: &mut World) -> Result<bool, Fail> {
    for n in 0..64u8 {
        if w.declare_taking(b"f", n, Attribute::Plain)? != Answer::Number(4 + n as usize) {
            return Ok(false);
        }
    }
    Ok(true)
}

fn many_are_found(w: &World) -> bool {
    for n in 0..64usize {
        if w.constant_taking(b"f", n) != Some(4 + n) {
            return false;
        }
    }
    w.constant_taking(b"f", 64).is_none() && w.lookup_count(b"f", 64) == Some(Entry::Constant(4))
}

// None from 2 arguments on may join them, and one of 64 may.
fn none_from_two(w: &mut World) -> Result<bool, Fail> {
    Ok(
        w.declare_taking(b"f", 2, Attribute::Left)? == Answer::Redeclared
            && w.declare_taking(b"f", 64, Attribute::Plain)? == Answer::Number(68),
    )
}
