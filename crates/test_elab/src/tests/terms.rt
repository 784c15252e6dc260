//! What terms mean: each beside the same term written out, where `_` applies plainly.
use super::texts::push_times;
use super::world::{Answer, Outcome, Pair, Told, World, first_wrong, prepare};
use super::{all_right, holds};
use std::test::Fail;

// A constant for each way to fold arguments, and macros.
const SIGNATURE: &[Outcome<'static>] = &[
    ("(declare-const p Bool)", Answer::Done),
    ("(declare-const q Bool)", Answer::Done),
    ("(declare-const r Bool)", Answer::Done),
    ("(declare-const s Bool)", Answer::Done),
    (
        "(declare-const and (-> Bool Bool Bool) :right-assoc-nil true)",
        Answer::Done,
    ),
    (
        "(declare-const or (-> Bool Bool Bool) :left-assoc-nil false)",
        Answer::Done,
    ),
    (
        "(declare-const => (-> Bool Bool Bool) :right-assoc)",
        Answer::Done,
    ),
    (
        "(declare-const xor (-> Bool Bool Bool) :left-assoc)",
        Answer::Done,
    ),
    (
        "(declare-const eq (-> Bool Bool Bool) :chainable and)",
        Answer::Done,
    ),
    (
        "(declare-const same (-> Bool Bool Bool) :chainable eq)",
        Answer::Done,
    ),
    (
        "(declare-const distinct (-> Bool Bool Bool) :pairwise and)",
        Answer::Done,
    ),
    (
        "(declare-const @list (-> Type Type Type) :right-assoc-nil Bool)",
        Answer::Done,
    ),
    (
        "(declare-const forall (-> Type Bool Bool) :binder @list)",
        Answer::Done,
    ),
    (
        "(define implied ((x Bool) (y Bool)) (=> y x))",
        Answer::Done,
    ),
    ("(define law () (=> p p))", Answer::Done),
];

// Folds of each kind.
const FOLDS: &[Pair<'static>] = &[
    ("(and p)", "(_ and p true)"),
    ("(and p q)", "(_ and p (_ and q true))"),
    ("(and p q r)", "(_ and p (_ and q (_ and r true)))"),
    (
        "(and p q r s)",
        "(_ and p (_ and q (_ and r (_ and s true))))",
    ),
    ("(or p)", "(_ or false p)"),
    ("(or p q)", "(_ or (_ or false p) q)"),
    ("(or p q r)", "(_ or (_ or (_ or false p) q) r)"),
    ("(or p q r s)", "(_ or (_ or (_ or (_ or false p) q) r) s)"),
    ("(=> p q)", "(_ => p q)"),
    ("(=> p q r)", "(_ => p (_ => q r))"),
    ("(=> p q r s)", "(_ => p (_ => q (_ => r s)))"),
    ("(xor p q)", "(_ xor p q)"),
    ("(xor p q r)", "(_ xor (_ xor p q) r)"),
    ("(xor p q r s)", "(_ xor (_ xor (_ xor p q) r) s)"),
    ("(eq p q)", "(_ eq p q)"),
    ("(eq p q r)", "(_ and (_ eq p q) (_ and (_ eq q r) true))"),
    (
        "(eq p q r s)",
        "(_ and (_ eq p q) (_ and (_ eq q r) (_ and (_ eq r s) true)))",
    ),
    ("(same p q r)", "(_ eq (_ same p q) (_ same q r))"),
    (
        "(same p q r s)",
        "(_ and (_ eq (_ same p q) (_ same q r)) (_ and (_ eq (_ same q r) (_ same r s)) true))",
    ),
    ("(distinct p q)", "(_ distinct p q)"),
    (
        "(distinct p q r)",
        "(_ and (_ distinct p q) (_ and (_ distinct p r) (_ and (_ distinct q r) true)))",
    ),
    (
        "(distinct p q r s)",
        "(and (_ distinct p q) (_ distinct p r) (_ distinct p s) (_ distinct q r) (_ distinct q s) (_ distinct r s))",
    ),
];

// The first of the folds that is another term than the one beside it.
fn folds(world: &mut World) -> Result<Option<usize>, Fail> {
    first_wrong(world, FOLDS, World::agree)
}

// Folds with parameters that represent lists.
const LISTS: &[Pair<'static>] = &[
    ("(and ys)", "ys "),
    (
        "(and xs p q)",
        "(eo::list_concat and xs (_ and p (_ and q true)))",
    ),
    (
        "(and p xs q)",
        "(_ and p (eo::list_concat and xs (_ and q true)))",
    ),
    ("(and p q xs)", "(_ and p (_ and q xs))"),
    ("(and xs ys)", "(eo::list_concat and xs ys)"),
    ("(and z)", "(_ and z true)"),
    ("(and z p)", "(_ and z (_ and p true))"),
    ("(or xs p)", "(_ or (_ or false xs) p)"),
    ("(=> xs p q)", "(_ => xs (_ => p q))"),
    (
        "(let ((y xs)) (and y p))",
        "(eo::list_concat and xs (_ and p true))",
    ),
];

fn lists(world: &mut World) -> Result<Option<usize>, Fail> {
    first_wrong(world, LISTS, World::agree)
}

// Names, macros, and heads that are terms.
const NAMES: &[Pair<'static>] = &[
    ("(let ((x p) (y q)) (=> y x))", "(_ => q p)"),
    ("(let ((p q) (q p)) (=> p q))", "(_ => q p)"),
    ("(let ((x p)) (let ((x q) (y x)) (=> x y)))", "(_ => q p)"),
    ("(let ((x p)) (=> (let ((x q)) x) x))", "(_ => q p)"),
    ("(let ((f and)) (f p q))", "(_ and p (_ and q true))"),
    ("(let ((x (p q))) (x x))", "(_ (_ p q) (_ p q))"),
    ("(implied p q)", "(_ => q p)"),
    (
        "(implied (and p) (implied q r))",
        "(_ => (_ => r q) (_ and p true))",
    ),
    ("law ", "(_ => p p)"),
    ("(law r)", "(_ (_ => p p) r)"),
    ("((and p) q)", "(_ (_ and p true) q)"),
    ("(p q r)", "(_ (_ p q) r)"),
    ("(-> Bool Type Bool)", "(-> Bool (-> Type Bool))"),
    ("(|true| #b0101)", "(_ true #x5)"),
];

fn names(world: &mut World) -> Result<Option<usize>, Fail> {
    first_wrong(world, NAMES, World::agree)
}

// The outer binder gives the names by which the inner one is written out.
const BINDERS: &[Pair<'static>] = &[
    (
        "(forall ((x Bool)) (forall ((x Bool)) (and x p)))",
        "(forall ((x Bool)) (_ forall (_ @list x Bool) (_ and x (_ and p true))))",
    ),
    (
        "(forall ((x Bool) (y Type)) (forall ((x Bool) (y Type)) (=> y x)))",
        "(forall ((x Bool) (y Type)) (_ forall (_ @list x (_ @list y Bool)) (_ => y x)))",
    ),
    ("(forall p q)", "(_ forall p q)"),
];

// The first of the binders that is another term than the one beside it.
fn binders(world: &mut World) -> Result<Option<usize>, Fail> {
    first_wrong(world, BINDERS, World::agree)
}

// Terms that differ.
const DIFFERENT: &[Pair<'static>] = &[
    ("(forall ((x Bool)) x)", "(forall ((y Bool)) y)"),
    ("(forall ((x Bool)) x)", "(forall ((x Type)) x)"),
    (
        "(forall ((p Bool)) p)",
        "(forall ((p Bool)) (let ((x p)) q))",
    ),
    (
        "(forall ((x Bool) (y Bool)) p)",
        "(forall ((y Bool) (x Bool)) p)",
    ),
];

// The first two terms that do not differ.
fn different(world: &mut World) -> Result<Option<usize>, Fail> {
    first_wrong(world, DIFFERENT, World::differ)
}

// Terms with several faults, and the first one.
const FAULTS: &[Outcome<'static>] = &[
    ("()", Answer::BadArity),
    ("(zz)", Answer::BadArity),
    ("(and)", Answer::BadArity),
    ("(=> zz)", Answer::BadArity),
    ("(xor yy)", Answer::BadArity),
    ("(eq zz)", Answer::BadArity),
    ("(distinct zz)", Answer::BadArity),
    ("(_ p)", Answer::BadArity),
    ("(-> Bool)", Answer::BadArity),
    ("implied ", Answer::BadArity),
    ("(implied zz)", Answer::BadArity),
    ("(implied p q zz)", Answer::BadArity),
    ("eo::add ", Answer::BadArity),
    ("(eo::add 1 2 zz)", Answer::BadArity),
    ("(forall () p)", Answer::BadArity),
    ("zz ", Answer::UnknownSymbol),
    (":list ", Answer::UnknownSymbol),
    ("(and zz 1.5)", Answer::UnknownSymbol),
    ("(and 1.5 zz)", Answer::BadLiteral),
    ("(zz 1.5)", Answer::UnknownSymbol),
    ("(let ((x)) zz)", Answer::BadCommand),
    ("(let () zz)", Answer::BadCommand),
    ("(let ((x p)) x zz)", Answer::BadCommand),
    ("(let ((x p) (x zz)) yy)", Answer::Redeclared),
    ("(let ((x zz) (x p)) yy)", Answer::UnknownSymbol),
    ("(let ((x p) (y x)) y)", Answer::UnknownSymbol),
    ("(forall ((x Bool) (x zz)) yy)", Answer::Redeclared),
    ("(forall ((x Bool)) y)", Answer::UnknownSymbol),
];

// The first term of which another fault is the first.
fn faults(world: &mut World) -> Result<Option<usize>, Fail> {
    first_wrong(world, FAULTS, World::answers)
}

// What is said of `=>` on `p`, so many of a word, and a `q`, with so many `)`.
fn nest_implications(
    world: &mut World,
    count: usize,
    word: &str,
    ends: usize,
) -> Result<Told, Fail> {
    let mut text = String::new(world.alloc());
    let told = write_again(world, &mut text, count, word, ends);
    drop(text);
    told
}

// The same where it is written into a text without bytes.
fn write_again(
    world: &mut World,
    text: &mut String,
    count: usize,
    word: &str,
    ends: usize,
) -> Result<Told, Fail> {
    push_implications(text, count, word, ends)?;
    world.term(text.as_str())
}

fn push_implications(text: &mut String, count: usize, word: &str, ends: usize) -> Result<(), Fail> {
    text.push_str("(=> p ")?;
    push_times(text, count, word)?;
    text.push_str("q ")?;
    push_times(text, ends, ")")
}

// `=>` on 512 `p` and a `q`: with a list for each `p`, or in one list.
fn nested_as_flat(world: &mut World) -> Result<bool, Fail> {
    prepare(world, SIGNATURE)?;
    let nested = nest_implications(world, 511, "(=> p", 512)?;
    let flat = nest_implications(world, 511, "p", 1)?;
    Ok((nested == flat) & matches!(flat, Told::Means(_)))
}

// A signature, and then what is compared over it. The first row that is not as it should be.
fn folding(world: &mut World) -> Result<Option<usize>, Fail> {
    prepare(world, SIGNATURE)?;
    if let Some(row) = folds(world)? {
        return Ok(Some(row));
    }
    lists(world)
}

fn naming(world: &mut World) -> Result<Option<usize>, Fail> {
    prepare(world, SIGNATURE)?;
    names(world)
}

fn binding(world: &mut World) -> Result<Option<usize>, Fail> {
    prepare(world, SIGNATURE)?;
    if let Some(row) = binders(world)? {
        return Ok(Some(row));
    }
    different(world)
}

fn refusing(world: &mut World) -> Result<Option<usize>, Fail> {
    prepare(world, SIGNATURE)?;
    faults(world)
}

#[test]
fn constants_fold_their_arguments(rt: HostRuntime) -> Result<(), Fail> {
    all_right(&rt, rt.alloc(), folding)
}

#[test]
fn names_have_their_meanings(rt: HostRuntime) -> Result<(), Fail> {
    all_right(&rt, rt.alloc(), naming)
}

#[test]
fn binders_bind_variables(rt: HostRuntime) -> Result<(), Fail> {
    all_right(&rt, rt.alloc(), binding)
}

#[test]
fn the_first_fault_of_a_term_is_given(rt: HostRuntime) -> Result<(), Fail> {
    all_right(&rt, rt.alloc(), refusing)
}

#[test]
fn lists_are_nested(rt: HostRuntime) -> Result<(), Fail> {
    holds(&rt, rt.alloc(), nested_as_flat)
}
