//! Programs: what their names mean, and the order of their checks.
use super::all_right;
use super::texts::{push_parameters, push_times};
use super::world::{Answer, Outcome, World, first_wrong};
use std::test::Fail;

// What becomes of names that mean programs, and of names of programs.
const NAMES: &[Outcome<'static>] = &[
    ("(declare-const b (-> Bool Bool Bool))", Answer::Done),
    ("(define m ((x Bool)) (b x x))", Answer::Done),
    // a case may apply the program and those before it, and a parameter of its name hides it
    (
        "(program $f ((x Bool) (y Bool)) :signature (Bool Bool) Bool ((($f x true) x) (($f (b x y) y) ($f x y))))",
        Answer::Done,
    ),
    (
        "(program $g ((x Bool)) :signature (Bool) Bool ((($g x) ($f (m x) x))))",
        Answer::Done,
    ),
    (
        "(program $k (($k Bool)) :signature (Bool) Bool ((($k $k) $k)))",
        Answer::Done,
    ),
    ("(program $n () :signature (Bool) Bool ())", Answer::Done),
    // one that is declared later, or was refused, is none
    (
        "(program $h ((x Bool)) :signature (Bool) Bool ((($h x) ($l x))))",
        Answer::UnknownSymbol,
    ),
    (
        "(program $l ((x Bool)) :signature (Bool) Bool ((($l x) ($h x))))",
        Answer::UnknownSymbol,
    ),
    (
        "(program $l ((x Bool)) :signature (Bool) Bool ((($l x) x)))",
        Answer::Done,
    ),
    ("(define n ((x Bool)) ($h x))", Answer::UnknownSymbol),
    (
        "(program $h ((x Bool)) :signature (Bool) Bool ((($h x) ($l x))))",
        Answer::Done,
    ),
    ("(define n ((x Bool)) ($h x))", Answer::Done),
    // the types do not know the program
    (
        "(program $u () :signature (($u Bool)) Bool ())",
        Answer::UnknownSymbol,
    ),
    (
        "(program $u () :signature (Bool) ($u Bool) ())",
        Answer::UnknownSymbol,
    ),
    // a type may use the parameters before it
    (
        "(program $u ((x y) (y Type)) :signature (y) y ((($u x) x)))",
        Answer::UnknownSymbol,
    ),
    (
        "(program $u ((y Type) (x y)) :signature (y) y ((($u x) x)))",
        Answer::Done,
    ),
    // constants, macros and programs share their names
    (
        "(program $f () :signature (Bool) Bool ())",
        Answer::Redeclared,
    ),
    (
        "(program b () :signature (Bool) Bool ())",
        Answer::Redeclared,
    ),
    (
        "(program m () :signature (Bool) Bool ())",
        Answer::Redeclared,
    ),
    ("(declare-const $f zz)", Answer::Redeclared),
    ("(define $f () zz)", Answer::Redeclared),
];

fn names(world: &mut World) -> Result<Option<usize>, Fail> {
    first_wrong(world, NAMES, World::declares)
}

// Each row has the fault that is beside it, and one that would come after it.
const FAULTS: &[Outcome<'static>] = &[
    (
        "(program $f ((x Bool)) :signature (Bool) Bool ((($f x) x)))",
        Answer::Done,
    ),
    // the shape, of which the head of a case is a part, and the name
    (
        "(program $f ((x zz)) :signature () zz ((($f) zz)))",
        Answer::BadCommand,
    ),
    (
        "(program $f ((x zz)) :signature (zz) zz ((($h) zz)))",
        Answer::BadCommand,
    ),
    (
        "(program $h ((x Bool)) :signature (Bool) Bool ((($f x) zz)))",
        Answer::BadCommand,
    ),
    (
        "(program $f ((x zz)) :signature (zz) zz ((($f) zz)))",
        Answer::Redeclared,
    ),
    (
        "(program let ((x zz)) :signature (zz) zz (((let) zz)))",
        Answer::Redeclared,
    ),
    // the parameters in order, the inputs in order, and the output
    (
        "(program $h ((x Bool) (x 1.5)) :signature (zz) zz ())",
        Answer::Redeclared,
    ),
    (
        "(program $h ((x 1.5) (x Bool)) :signature (zz) zz ())",
        Answer::BadLiteral,
    ),
    (
        "(program $h ((x zz)) :signature (1.5) 1.5 ())",
        Answer::UnknownSymbol,
    ),
    (
        "(program $h ((x Bool)) :signature (zz 1.5) 1.5 ())",
        Answer::UnknownSymbol,
    ),
    (
        "(program $h ((x Bool)) :signature (Bool 1.5) zz ((($h) zz)))",
        Answer::BadLiteral,
    ),
    (
        "(program $h ((x Bool)) :signature (Bool) zz ((($h) 1.5)))",
        Answer::UnknownSymbol,
    ),
    // the cases in order, of each the number of patterns, the patterns and the body
    (
        "(program $h ((x Bool)) :signature (Bool) Bool ((($h) zz)))",
        Answer::BadArity,
    ),
    (
        "(program $h ((x Bool)) :signature (Bool) Bool ((($h zz zz) x)))",
        Answer::BadArity,
    ),
    (
        "(program $h ((x Bool)) :signature (Bool Bool) Bool ((($h zz 1.5) x)))",
        Answer::UnknownSymbol,
    ),
    (
        "(program $h ((x Bool)) :signature (Bool) Bool ((($h zz) 1.5)))",
        Answer::UnknownSymbol,
    ),
    (
        "(program $h ((x Bool)) :signature (Bool) Bool ((($h x) 1.5) (($h) x)))",
        Answer::BadLiteral,
    ),
    (
        "(program $h ((x Bool)) :signature (Bool) Bool ((($h x) x) (($h) zz)))",
        Answer::BadArity,
    ),
    // a program is no term alone, and has its number of arguments in a pattern too
    (
        "(program $h ((x Bool)) :signature (Bool) Bool ((($h x) $h)))",
        Answer::BadArity,
    ),
    (
        "(program $h ((x Bool)) :signature (Bool) Bool ((($h x) ($h x x))))",
        Answer::BadArity,
    ),
    (
        "(program $h ((x Bool)) :signature (Bool) Bool ((($h ($f x x)) x)))",
        Answer::BadArity,
    ),
    // all terms, then what a pattern may not hold, then parameters of no pattern
    (
        "(program $h ((x Bool)) :signature (Bool) Bool ((($h ($f x)) x) (($h x) zz)))",
        Answer::UnknownSymbol,
    ),
    (
        "(program $h ((x Bool) (y Bool)) :signature (Bool) Bool ((($h x) y) (($h ($f x)) x)))",
        Answer::BadPattern,
    ),
    (
        "(program $h ((x Bool) (y Bool)) :signature (Bool) Bool ((($h ($h x)) y)))",
        Answer::BadPattern,
    ),
    (
        "(program $h ((x Bool) (y Bool)) :signature (Bool) Bool ((($h (eo::not x)) y)))",
        Answer::BadPattern,
    ),
    (
        "(program $h ((x Bool) (y Bool)) :signature (Bool) Bool ((($h y) y) (($h x) y)))",
        Answer::UnboundParam,
    ),
    // nothing of these is declared
    (
        "(program $h ((x Bool)) :signature (Bool) Bool ((($h x) x)))",
        Answer::Done,
    ),
];

fn faults(world: &mut World) -> Result<Option<usize>, Fail> {
    first_wrong(world, FAULTS, World::declares)
}

/// A name, so many parameters, their type and that of the inputs, so many inputs, and what becomes
/// of a program with them and without cases.
type Counted<'a> = (&'a str, usize, &'a str, usize, Answer);

// 64 parameters and 64 inputs are the most; they are counted after the name, and before a type is
// read.
const NUMBERS: &[Counted<'static>] = &[
    ("$few", 64, "Bool", 64, Answer::Done),
    ("$few", 65, "zz", 1, Answer::Redeclared),
    ("$few", 1, "zz", 65, Answer::Redeclared),
    ("$many", 65, "zz", 1, Answer::Parameters),
    ("$many", 1, "zz", 65, Answer::Parameters),
    ("$many", 64, "zz", 64, Answer::UnknownSymbol),
];

fn numbers(world: &mut World) -> Result<Option<usize>, Fail> {
    first_wrong(world, NUMBERS, is_counted)
}

fn is_counted(world: &mut World, row: Counted<'_>) -> Result<bool, Fail> {
    let mut text = String::new(world.alloc());
    let told = is_written(world, &mut text, row);
    drop(text);
    told
}

// The same where the program is written into a text without bytes.
fn is_written(world: &mut World, text: &mut String, row: Counted<'_>) -> Result<bool, Fail> {
    let (name, parameters, ty, inputs, want) = row;
    push_program(text, name, parameters, ty, inputs)?;
    Ok(world.declare(text.as_str())? == want)
}

fn push_program(
    text: &mut String,
    name: &str,
    parameters: usize,
    ty: &str,
    inputs: usize,
) -> Result<(), Fail> {
    text.push_str("(program ")?;
    text.push_str(name)?;
    text.push_str(" (")?;
    push_parameters(text, parameters, ty)?;
    text.push_str(") :signature (")?;
    push_times(text, inputs, ty)?;
    text.push_str(") Bool ())")?;
    Ok(())
}

#[test]
fn names_in_programs(rt: HostRuntime) -> Result<(), Fail> {
    all_right(&rt, rt.alloc(), names)
}

#[test]
fn programs_are_checked_in_order(rt: HostRuntime) -> Result<(), Fail> {
    all_right(&rt, rt.alloc(), faults)
}

#[test]
fn at_most_64_parameters_and_inputs_of_a_program(rt: HostRuntime) -> Result<(), Fail> {
    all_right(&rt, rt.alloc(), numbers)
}
