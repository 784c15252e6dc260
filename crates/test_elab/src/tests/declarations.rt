//! What commands declare, in the order of their checks.
use super::all_right;
use super::texts::push_parameters;
use super::world::{Answer, Outcome, World, first_wrong};
use std::test::Fail;

// What becomes of each command.
const OUTCOMES: &[Outcome<'static>] = &[
    ("(declare-const p Bool)", Answer::Done),
    (
        "(declare-const f (-> Bool Bool Bool) :right-assoc-nil true)",
        Answer::Done,
    ),
    ("(declare-fun g (Bool Bool) Type)", Answer::Done),
    ("(declare-sort s 2)", Answer::Done),
    ("(define m ((x Bool) (y Bool :list)) (f x y))", Answer::Done),
    ("(declare-consts <numeral> Bool)", Answer::Done),
    (
        "(declare-consts <binary> (s (eo::len eo::self) Bool))",
        Answer::Done,
    ),
    (
        "(declare-parameterized-const c ((x Type) (y x :list)) (-> x Bool))",
        Answer::Done,
    ),
    (
        "(declare-const h (-> Bool Bool Bool) :chainable f)",
        Answer::Done,
    ),
    // the shape before the name
    ("(declare-const p)", Answer::BadCommand),
    ("(declare-const p zz :right-assoc true)", Answer::BadCommand),
    ("(declare-sort p 65)", Answer::BadCommand),
    ("(declare-consts <decimal> zz)", Answer::BadCommand),
    // a reserved name and one that is no constant's, before all else
    ("(declare-const m zz)", Answer::Redeclared),
    ("(declare-const true zz)", Answer::Redeclared),
    ("(declare-const ! zz)", Answer::Redeclared),
    ("(declare-const eo::new zz)", Answer::Redeclared),
    ("(declare-fun m (zz) Bool)", Answer::Redeclared),
    ("(declare-sort m 1)", Answer::Redeclared),
    (
        "(declare-parameterized-const m ((x zz)) Bool)",
        Answer::Redeclared,
    ),
    ("(define p ((x zz)) x)", Answer::Redeclared),
    ("(declare-consts <numeral> zz)", Answer::Redeclared),
    // the name of a constant, after all else
    ("(declare-const p yy)", Answer::UnknownSymbol),
    ("(declare-const p Bool)", Answer::Redeclared),
    ("(declare-fun p (zz) Bool)", Answer::UnknownSymbol),
    ("(declare-fun p () Bool)", Answer::Redeclared),
    ("(declare-sort p 0)", Answer::Redeclared),
    (
        "(declare-parameterized-const p ((x zz)) Bool)",
        Answer::UnknownSymbol,
    ),
    // the parameters, in order
    ("(define n ((x Bool) (x zz)) yy)", Answer::Redeclared),
    ("(define n ((x zz) (x Bool)) p)", Answer::UnknownSymbol),
    ("(define n ((x y) (y Type)) p)", Answer::UnknownSymbol),
    (
        "(declare-parameterized-const n ((x Bool) (x zz)) yy)",
        Answer::Redeclared,
    ),
    // terms from left to right
    (
        "(declare-const n zz :right-assoc-nil 1.5)",
        Answer::UnknownSymbol,
    ),
    (
        "(declare-const n (-> Bool) :right-assoc-nil zz)",
        Answer::BadArity,
    ),
    ("(declare-const n () :right-assoc-nil zz)", Answer::BadArity),
    (
        "(declare-const n 1.5 :right-assoc-nil zz)",
        Answer::BadLiteral,
    ),
    (
        "(declare-const n Bool :right-assoc-nil 1.5)",
        Answer::BadLiteral,
    ),
    (
        "(declare-const n Bool :chainable (f p))",
        Answer::UnknownSymbol,
    ),
    ("(declare-const n Bool :binder zz)", Answer::UnknownSymbol),
    ("(declare-fun n (Bool zz) 1.5)", Answer::UnknownSymbol),
    ("(declare-fun n (Bool) 1.5)", Answer::BadLiteral),
    ("(declare-consts <string> zz)", Answer::UnknownSymbol),
    ("(define n ((x Bool)) (m x))", Answer::BadArity),
    // types and terminators that are not allowed there
    (
        "(declare-const n (eo::typeof p) :left-assoc-nil zz)",
        Answer::UnknownSymbol,
    ),
    ("(declare-const n (eo::typeof p))", Answer::BadPattern),
    (
        "(declare-fun n (Bool) (eo::list_len f p))",
        Answer::BadPattern,
    ),
    (
        "(declare-const n Bool :right-assoc-nil (eo::add 1 2))",
        Answer::BadPattern,
    ),
    (
        "(declare-const n Bool :left-assoc-nil (eo::add 1 2))",
        Answer::BadPattern,
    ),
    (
        "(declare-consts <string> (eo::typeof eo::self))",
        Answer::BadPattern,
    ),
    (
        "(declare-parameterized-const n ((x Type :implicit)) Bool)",
        Answer::UnboundParam,
    ),
    // nothing of these is declared
    ("(declare-const n (s (eo::add 1 2) Bool))", Answer::Done),
    ("(declare-consts <string> Bool)", Answer::Done),
];

// The first row that becomes something else than what is written beside it.
fn outcomes(world: &mut World) -> Result<Option<usize>, Fail> {
    first_wrong(world, OUTCOMES, World::declares)
}

// A declaration, the name of its constant, and the type that it then has.
const TYPES: &[(&'static str, &'static str, &'static str)] = &[
    (
        "(declare-fun h2 (Bool Type) Bool)",
        "h2",
        "(-> Bool (-> Type Bool))",
    ),
    ("(declare-fun h0 () Bool)", "h0", "Bool "),
    ("(declare-sort s0 0)", "s0", "Type "),
    ("(declare-sort s2 2)", "s2", "(-> Type (-> Type Type))"),
    (
        "(declare-const |a b| (-> Bool Bool))",
        "a b",
        "(-> Bool Bool)",
    ),
];

// The first row whose constant has another type.
fn types(world: &mut World) -> Result<Option<usize>, Fail> {
    first_wrong(world, TYPES, World::has_type)
}

/// A name, so many parameters, their type, and what becomes of a macro with them.
type Counted<'a> = (&'a str, usize, &'a str, Answer);

// 64 parameters are the most; they are counted after the name, and before their types are read.
const NUMBERS: &[Counted<'static>] = &[
    ("few", 64, "Bool", Answer::Done),
    ("few", 65, "zz", Answer::Redeclared),
    ("many", 65, "zz", Answer::Parameters),
    ("many", 64, "zz", Answer::UnknownSymbol),
];

fn numbers(world: &mut World) -> Result<Option<usize>, Fail> {
    first_wrong(world, NUMBERS, is_counted)
}

fn is_counted(world: &mut World, row: Counted<'_>) -> Result<bool, Fail> {
    let mut text = String::new(world.alloc());
    let told = is_written(world, &mut text, row);
    drop(text);
    told
}

// The same where the macro is written into a text without bytes.
fn is_written(world: &mut World, text: &mut String, row: Counted<'_>) -> Result<bool, Fail> {
    let (name, count, ty, want) = row;
    push_macro(text, name, count, ty)?;
    Ok(world.declare(text.as_str())? == want)
}

fn push_macro(text: &mut String, name: &str, count: usize, ty: &str) -> Result<(), Fail> {
    text.push_str("(define ")?;
    text.push_str(name)?;
    text.push_str(" (")?;
    push_parameters(text, count, ty)?;
    text.push_str(") true)")?;
    Ok(())
}

#[test]
fn declarations_are_checked_in_order(rt: HostRuntime) -> Result<(), Fail> {
    all_right(&rt, rt.alloc(), outcomes)
}

#[test]
fn constants_have_their_types(rt: HostRuntime) -> Result<(), Fail> {
    all_right(&rt, rt.alloc(), types)
}

#[test]
fn at_most_64_parameters_are_declared(rt: HostRuntime) -> Result<(), Fail> {
    all_right(&rt, rt.alloc(), numbers)
}
