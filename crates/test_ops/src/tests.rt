//! Values of operators that are known.
ghost use Rattle.std.specs.Prelude.{◌≡◌, ◌≤◌, ◌+◌, ◌^◌, IfOk};
ghost use Rattle.eo_ops.specs.Lit.{IsWellFormed};

use eo_base::Chars;
use eo_ops::{Lit, OpResult, apply};
use eo_term::OpName;
use std::alloc::{AllocError, Global};
use std::test::Fail;

/// An argument, or what is wanted.
#[derive(Clone, Copy)]
enum Sample {
    Truth(bool),
    Number(i128),
    Binary(u8, u128),
    Ascii(&'static str),
    Stuck,
    NumberRange,
}

use Sample::{Ascii, Binary, Number, NumberRange, Stuck, Truth};

const LEAST: i128 = i128::MIN;

const GREATEST: i128 = i128::MAX;

/// The literal of a sample. What is none is `false`.
fn literal(alloc: Global, sample: Sample) -> Result<Lit, AllocError>
    ensures { IfOk result IsWellFormed }
{
    match sample {
        Truth(value) => Ok(Lit::Bool(value)),
        Number(value) => Ok(Lit::Num(value)),
        Binary(width, value) => {
            let width = width.min(128);
            Ok(Lit::Bits {
                width,
                value: value.min(greatest(width)),
            })
        }
        Ascii(text) => Ok(Lit::Str(characters(alloc, text.as_bytes())?)),
        _ => Ok(Lit::Bool(false)),
    }
}

/// The greatest number of so many bits.
fn greatest(width: u8) -> u128
    requires { width ≤ 128 }
    ensures { result + 1 ≡ 2 ^ width }
{
    u128::MAX.checked_shr(128 - u32::from(width)).unwrap_or(0)
}

fn characters(alloc: Global, text: &[u8]) -> Result<Chars, AllocError> {
    let mut characters = Vec::new(alloc);
    for byte in text {
        characters.push(u32::from(*byte))?;
    }
    Chars::new(alloc, &characters)
}

fn is_same(answer: &OpResult, want: Sample) -> bool {
    match (answer, want) {
        (OpResult::Value(Lit::Bool(value)), Truth(wanted)) => *value == wanted,
        (OpResult::Value(Lit::Num(value)), Number(wanted)) => *value == wanted,
        (OpResult::Value(Lit::Bits { width, value }), Binary(wanted, number)) => {
            *width == wanted && *value == number
        }
        (OpResult::Value(Lit::Str(value)), Ascii(wanted)) => {
            value.as_slice().len() == wanted.len()
                && value
                    .as_slice()
                    .iter()
                    .zip(wanted.as_bytes())
                    .all(|(c, b)| *c == u32::from(*b))
        }
        (OpResult::Stuck, Stuck) => true,
        (OpResult::NumberRange, NumberRange) => true,
        _ => false,
    }
}

/// An operator on one argument, and what is wanted of it.
type One = (OpName, Sample, Sample);

/// The same on two arguments.
type Two = (OpName, Sample, Sample, Sample);

/// What is wanted of the part of a string or of a bit string from one place to another.
type Part = (Sample, i128, i128, Sample);

fn is_right_of_one(alloc: Global, row: One) -> Result<bool, AllocError> {
    let (op, argument, want) = row;
    let arguments = [literal(alloc, argument)?];
    Ok(is_same(&apply(alloc, op, &arguments), want))
}

fn is_right_of_two(alloc: Global, row: Two) -> Result<bool, AllocError> {
    let (op, first, second, want) = row;
    let arguments = [literal(alloc, first)?, literal(alloc, second)?];
    Ok(is_same(&apply(alloc, op, &arguments), want))
}

fn is_right_part(alloc: Global, row: Part) -> Result<bool, AllocError> {
    let (whole, first, last, want) = row;
    let arguments = [literal(alloc, whole)?, Lit::Num(first), Lit::Num(last)];
    Ok(is_same(&apply(alloc, OpName::Extract, &arguments), want))
}

// The number of the first row with another result than it says, if there is one.
fn wrong<Row: Copy, F: Fn(Global, Row) -> Result<bool, AllocError>>(
    alloc: Global,
    rows: &[Row],
    is_right: F,
) -> Result<Option<usize>, AllocError>
    requires { F.IsAlwaysCallable is_right }
{
    for (number, row) in rows.iter().enumerate() {
        if !is_right(alloc, *row)? {
            return Ok(Some(number));
        }
    }
    Ok(None)
}

#[test]
fn operators_of_one_argument(rt: HostRuntime) -> Result<(), Fail> {
    assert_eq!(rt; wrong(rt.alloc(), OF_ONE, is_right_of_one)?, None);
    Ok(())
}

const OF_ONE: &[One] = &[
    (OpName::IsZ, Number(3), Truth(true)),
    (OpName::IsZ, Binary(2, 3), Truth(false)),
    (OpName::IsBin, Binary(0, 0), Truth(true)),
    (OpName::IsBin, Ascii("a"), Truth(false)),
    (OpName::IsStr, Ascii(""), Truth(true)),
    (OpName::IsStr, Truth(true), Truth(false)),
    (OpName::IsBool, Truth(false), Truth(true)),
    (OpName::IsBool, Number(0), Truth(false)),
    (OpName::IsVar, Ascii("x"), Truth(false)),
    (OpName::Not, Truth(true), Truth(false)),
    (OpName::Not, Binary(4, 12), Binary(4, 3)),
    (OpName::Not, Binary(128, 0), Binary(128, u128::MAX)),
    (OpName::Not, Number(1), Stuck),
    (OpName::Neg, Number(5), Number(-5)),
    (OpName::Neg, Number(LEAST), NumberRange),
    (OpName::Neg, Binary(4, 3), Binary(4, 13)),
    (OpName::Neg, Binary(4, 0), Binary(4, 0)),
    (OpName::Neg, Binary(128, 1), Binary(128, u128::MAX)),
    (OpName::Neg, Truth(true), Stuck),
    (OpName::IsNeg, Number(-1), Truth(true)),
    (OpName::IsNeg, Number(0), Truth(false)),
    (OpName::IsNeg, Binary(4, 8), Stuck),
    (OpName::Len, Binary(8, 165), Number(8)),
    (OpName::Len, Ascii("abc"), Number(3)),
    (OpName::Len, Number(3), Stuck),
    (OpName::ToZ, Number(-7), Number(-7)),
    (OpName::ToZ, Binary(8, 165), Number(165)),
    (OpName::ToZ, Binary(128, 1 << 127), NumberRange),
    (OpName::ToZ, Binary(0, 0), Number(0)),
    (OpName::ToZ, Ascii("A"), Number(65)),
    (OpName::ToZ, Ascii("AB"), Stuck),
    (OpName::ToZ, Ascii(""), Stuck),
    (OpName::ToStr, Number(65), Ascii("A")),
    (OpName::ToStr, Number(196_608), Stuck),
    (OpName::ToStr, Number(-1), Stuck),
    (OpName::ToStr, Ascii("ab"), Ascii("ab")),
    (OpName::ToStr, Binary(8, 65), Stuck),
    (OpName::Add, Number(1), Stuck),
    (OpName::Typeof, Number(1), Stuck),
];

#[test]
fn operators_of_two_arguments(rt: HostRuntime) -> Result<(), Fail> {
    assert_eq!(rt; wrong(rt.alloc(), OF_TWO, is_right_of_two)?, None);
    Ok(())
}

const OF_TWO: &[Two] = &[
    (OpName::And, Truth(true), Truth(false), Truth(false)),
    (OpName::And, Binary(4, 12), Binary(4, 10), Binary(4, 8)),
    (OpName::Or, Truth(true), Truth(false), Truth(true)),
    (OpName::Or, Binary(4, 12), Binary(4, 10), Binary(4, 14)),
    (OpName::Xor, Truth(true), Truth(true), Truth(false)),
    (OpName::Xor, Binary(4, 12), Binary(4, 10), Binary(4, 6)),
    (OpName::And, Binary(4, 12), Binary(3, 2), Stuck),
    (OpName::And, Truth(true), Binary(1, 1), Stuck),
    (OpName::Add, Number(2), Number(-5), Number(-3)),
    (OpName::Add, Number(GREATEST), Number(1), NumberRange),
    (OpName::Add, Number(LEAST), Number(-1), NumberRange),
    (OpName::Add, Number(LEAST), Number(1), Number(LEAST + 1)),
    (OpName::Add, Binary(4, 9), Binary(4, 9), Binary(4, 2)),
    (
        OpName::Add,
        Binary(128, u128::MAX),
        Binary(128, 2),
        Binary(128, 1),
    ),
    (OpName::Add, Binary(4, 7), Binary(3, 5), Stuck),
    (OpName::Add, Number(1), Binary(1, 1), Stuck),
    (OpName::Mul, Number(-3), Number(7), Number(-21)),
    (OpName::Mul, Number(1 << 64), Number(1 << 63), NumberRange),
    (OpName::Mul, Number(LEAST), Number(-1), NumberRange),
    (OpName::Mul, Binary(4, 7), Binary(4, 5), Binary(4, 3)),
    (
        OpName::Mul,
        Binary(128, u128::MAX),
        Binary(128, u128::MAX),
        Binary(128, 1),
    ),
    (OpName::Zdiv, Number(7), Number(2), Number(3)),
    (OpName::Zdiv, Number(-7), Number(2), Number(-4)),
    (OpName::Zdiv, Number(7), Number(-2), Number(-3)),
    (OpName::Zdiv, Number(-7), Number(-2), Number(4)),
    (OpName::Zdiv, Number(7), Number(0), Stuck),
    (OpName::Zdiv, Number(LEAST), Number(-1), NumberRange),
    (OpName::Zdiv, Binary(4, 13), Binary(4, 4), Binary(4, 3)),
    (OpName::Zdiv, Binary(4, 13), Binary(4, 0), Stuck),
    (OpName::Zmod, Number(7), Number(2), Number(1)),
    (OpName::Zmod, Number(-7), Number(2), Number(1)),
    (OpName::Zmod, Number(7), Number(-2), Number(1)),
    (OpName::Zmod, Number(-7), Number(-2), Number(1)),
    (OpName::Zmod, Number(7), Number(0), Stuck),
    (OpName::Zmod, Number(LEAST), Number(-1), NumberRange),
    (OpName::Zmod, Binary(4, 13), Binary(4, 4), Binary(4, 1)),
    (OpName::Zmod, Binary(4, 13), Binary(4, 0), Stuck),
    (OpName::Gt, Number(-1), Number(-2), Truth(true)),
    (OpName::Gt, Number(2), Number(2), Truth(false)),
    (OpName::Gt, Binary(4, 8), Binary(4, 7), Truth(true)),
    (OpName::Gt, Binary(4, 8), Binary(5, 7), Stuck),
    (OpName::Concat, Binary(4, 10), Binary(2, 1), Binary(6, 41)),
    (OpName::Concat, Binary(0, 0), Binary(128, 5), Binary(128, 5)),
    (OpName::Concat, Binary(128, 5), Binary(0, 0), Binary(128, 5)),
    (OpName::Concat, Binary(128, 1), Binary(1, 0), NumberRange),
    (OpName::Concat, Ascii("ab"), Ascii("c"), Ascii("abc")),
    (OpName::Concat, Ascii("ab"), Binary(1, 0), Stuck),
    (OpName::Find, Ascii("abcab"), Ascii("ab"), Number(0)),
    (OpName::Find, Ascii("abcab"), Ascii("ca"), Number(2)),
    (OpName::Find, Ascii("abcab"), Ascii("b"), Number(1)),
    (OpName::Find, Ascii("abcab"), Ascii("d"), Number(-1)),
    (OpName::Find, Ascii("abc"), Ascii(""), Number(0)),
    (OpName::Find, Ascii(""), Ascii(""), Number(0)),
    (OpName::Find, Ascii(""), Ascii("a"), Number(-1)),
    (OpName::Find, Ascii("ab"), Ascii("abc"), Number(-1)),
    (OpName::ToBin, Number(3), Number(-1), Binary(3, 7)),
    (OpName::ToBin, Number(0), Number(9), Binary(0, 0)),
    (
        OpName::ToBin,
        Number(128),
        Number(-1),
        Binary(128, u128::MAX),
    ),
    (OpName::ToBin, Number(129), Number(9), NumberRange),
    (OpName::ToBin, Number(-1), Number(9), Stuck),
    (OpName::ToBin, Number(2), Binary(4, 7), Binary(2, 3)),
    (OpName::ToBin, Number(8), Binary(4, 7), Binary(8, 7)),
    (OpName::ToBin, Binary(4, 7), Number(2), Stuck),
    (OpName::IsZ, Number(1), Number(2), Stuck),
    (OpName::Neg, Number(1), Number(2), Stuck),
    (OpName::ListConcat, Number(1), Number(2), Stuck),
];

#[test]
fn parts(rt: HostRuntime) -> Result<(), Fail> {
    assert_eq!(rt; wrong(rt.alloc(), PARTS, is_right_part)?, None);
    Ok(())
}

const PARTS: &[Part] = &[
    (Binary(4, 10), 1, 2, Binary(2, 1)),
    (Binary(4, 10), 0, 3, Binary(4, 10)),
    (Binary(4, 10), 3, 3, Binary(1, 1)),
    (Binary(4, 10), 1, 9, Binary(3, 5)),
    (Binary(4, 10), -1, 2, Binary(0, 0)),
    (Binary(4, 10), 4, 9, Binary(0, 0)),
    (Binary(4, 10), 2, 1, Binary(0, 0)),
    (Binary(4, 10), -2, -1, Binary(0, 0)),
    (Binary(128, u128::MAX), 127, GREATEST, Binary(1, 1)),
    (Binary(0, 0), 0, 0, Binary(0, 0)),
    (Ascii("abcd"), 1, 2, Ascii("bc")),
    (Ascii("abcd"), 2, 9, Ascii("cd")),
    (Ascii("abcd"), 0, 0, Ascii("a")),
    (Ascii("abcd"), -1, 2, Ascii("")),
    (Ascii("abcd"), 4, 4, Ascii("")),
    (Ascii("abcd"), 2, 1, Ascii("")),
    (Ascii(""), 0, LEAST, Ascii("")),
    (Number(5), 0, 1, Stuck),
];

#[test]
fn no_argument(rt: HostRuntime) {
    assert!(rt; is_same(&apply(rt.alloc(), OpName::Add, &[]), Stuck));
}
