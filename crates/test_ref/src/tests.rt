//! Commands of a reference file, one after another.
mod text;
mod world;

use std::alloc::Global;
use std::process::Abort;
use std::test::Fail;
use world::{Row, Told, World};

// What a function returns for a new world. It alone owns one: each exit of a function that does is
// expensive to prove.
fn tell<T, F: FnOnce(&mut World) -> Result<T, Fail>>(alloc: Global, f: F) -> Result<T, Fail>
    requires { F.IsAlwaysCallable f }
{
    let mut world = World::new(alloc)?;
    let told = f(&mut world);
    drop(world);
    told
}

// A function that is lent a new world finds no row that is wrong.
fn all_right<F: FnOnce(&mut World) -> Result<Option<usize>, Fail>>(
    rt: &impl Abort,
    alloc: Global,
    first_wrong: F,
) -> Result<(), Fail>
    requires { F.IsAlwaysCallable first_wrong }
{
    assert_eq!(rt; tell(alloc, first_wrong)?, None);
    Ok(())
}

// What a function returns for a new world holds.
fn holds<F: FnOnce(&mut World) -> Result<bool, Fail>>(
    rt: &impl Abort,
    alloc: Global,
    is_right: F,
) -> Result<(), Fail>
    requires { F.IsAlwaysCallable is_right }
{
    assert!(rt; tell(alloc, is_right)?);
    Ok(())
}

// The commands of a benchmark.
const BENCHMARK: &[Row<'static>] = &[
    ("(set-logic QF_UFBV)", &Told::Skip),
    ("(set-info :source |a\nbenchmark|)", &Told::Skip),
    ("(set-info :difficulty 1.5)", &Told::Skip),
    ("(set-option :produce-proofs true)", &Told::Skip),
    ("(declare-sort U 0)", &Told::Constant),
    ("(declare-fun f (U Bool) Bool)", &Told::Constant),
    ("(declare-const u U)", &Told::Constant),
    ("(define-sort V (A) (-> A U))", &Told::Macro(1)),
    ("(declare-const v (V Bool))", &Told::Constant),
    (
        "(define-fun g ((x U) (y Bool)) Bool (f x y))",
        &Told::Macro(2),
    ),
    ("(assert (g u (f u true)))", &Told::Assert(0)),
    (
        "(assert (! (f u false) :named a :pattern p))",
        &Told::Assert(1),
    ),
    (
        "(assert (f u (! (f u (! true :named b)) :named c)))",
        &Told::Assert(2),
    ),
    ("(check-sat)", &Told::Skip),
    ("(assert false)", &Told::Assert(0)),
    ("(get-proof)", &Told::Skip),
    ("(echo \"done\")", &Told::Skip),
    ("(exit)", &Told::Exit),
];

// The first command of a benchmark of which something else is said than what is written beside it.
fn benchmark(world: &mut World) -> Result<Option<usize>, Fail> {
    world.other(BENCHMARK)
}

// Wrong commands, each with its fault, and some that are right.
const WRONG: &[Row<'static>] = &[
    ("(declare-const p Bool)", &Told::Constant),
    ("(declare-fun f (Bool) Bool)", &Told::Constant),
    ("(define-fun m ((x Bool)) Bool (f x))", &Told::Macro(1)),
    // no command of a reference file, or one of a wrong shape
    ("p ", &Told::BadCommand),
    ("()", &Told::BadCommand),
    ("(push 1)", &Told::UnknownCommand),
    ("(pop)", &Told::UnknownCommand),
    ("(reset)", &Told::UnknownCommand),
    ("(check-sat-assuming (p))", &Told::UnknownCommand),
    ("(define-fun-rec g () Bool p)", &Told::UnknownCommand),
    ("(define n () p)", &Told::UnknownCommand),
    ("(assume a p)", &Told::UnknownCommand),
    ("(declare-const n Bool :right-assoc)", &Told::BadCommand),
    ("(define-fun n ((x Bool :list)) zz p)", &Told::BadCommand),
    ("(exit 0)", &Told::BadCommand),
    ("(assert)", &Told::BadCommand),
    // a name that is reserved; one of the reference file is compared later
    ("(declare-const ! zz)", &Told::Redeclared),
    ("(define-fun true () zz p)", &Told::Redeclared),
    ("(define-sort Bool () zz)", &Told::Redeclared),
    ("(declare-const p zz)", &Told::UnknownSymbol),
    // parameters, the output, and the body
    ("(define-fun n ((x Bool) (x zz)) yy zz)", &Told::Redeclared),
    ("(define-fun n ((x 1.5) (x Bool)) yy zz)", &Told::BadLiteral),
    ("(define-fun n ((x Bool)) zz 1.5)", &Told::UnknownSymbol),
    ("(define-fun n ((x Bool)) Bool (f y))", &Told::UnknownSymbol),
    ("(define-fun n ((x Bool)) (m) x)", &Told::BadArity),
    ("(define-sort n (A A) zz)", &Told::Redeclared),
    ("(define-sort n (A) B)", &Told::UnknownSymbol),
    // what is read in a reference file
    ("(declare-const n (! Bool :x))", &Told::Constant),
    ("(define-fun k () Bool (! p :named p))", &Told::Macro(0)),
    ("(assert !)", &Told::BadArity),
    ("(assert (! p))", &Told::BadCommand),
    ("(assert (! p :named p))", &Told::Redeclared),
    (
        "(assert (f (! p :named e) (! p :named e)))",
        &Told::Redeclared,
    ),
    ("(assert (f zz 1.5))", &Told::UnknownSymbol),
    // a name of a refused command is none
    ("(assert (f (! p :named e) zz))", &Told::UnknownSymbol),
    ("(assert e)", &Told::UnknownSymbol),
];

// The first wrong command of which another fault is returned than the one that is beside it.
fn wrong(world: &mut World) -> Result<Option<usize>, Fail> {
    world.other(WRONG)
}

// Whether formulas are asserted once they are added, and equal ones with them.
fn assertions(world: &mut World) -> Result<bool, Fail> {
    let before = world.asserts("(assert true)")?;
    world.assert("(assert true)")?;
    Ok(!before & true_alone(world)?)
}

// Whether `true` is asserted, by any name and once more, and `false` is not.
fn true_alone(world: &mut World) -> Result<bool, Fail> {
    let now = world.asserts("(assert (! true :named t))")?;
    let other = world.asserts("(assert false)")?;
    world.assert("(assert true)")?;
    let again = world.asserts("(assert true)")?;
    Ok(now & !other & again)
}

#[test]
fn a_benchmark_is_read(rt: HostRuntime) -> Result<(), Fail> {
    all_right(&rt, rt.alloc(), benchmark)
}

#[test]
fn the_first_fault_is_told(rt: HostRuntime) -> Result<(), Fail> {
    all_right(&rt, rt.alloc(), wrong)
}

#[test]
fn equal_formulas_are_asserted(rt: HostRuntime) -> Result<(), Fail> {
    holds(&rt, rt.alloc(), assertions)
}
