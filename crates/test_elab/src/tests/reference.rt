//! What terms of a reference file mean: bit strings, attributes, and the names that terms give
//! themselves.
use super::all_right;
use super::world::Referred::{Bits, Names, Refused};
use super::world::{Answer, Outcome, Reference, World, first_wrong, prepare};
use std::test::Fail;

const DECLARED: &[Outcome<'static>] = &[
    ("(declare-const p Bool)", Answer::Done),
    ("(declare-const q Bool)", Answer::Done),
];

// Bit strings, and what looks like one.
const BIT_STRINGS: &[Reference<'static>] = &[
    ("(_ bv5 4)", &Bits { width: 4, value: 5 }),
    ("(_ bv5 2)", &Bits { width: 2, value: 1 }),
    (
        "(_ bv0 128)",
        &Bits {
            width: 128,
            value: 0,
        },
    ),
    (
        "(_ bv340282366920938463463374607431768211457 128)",
        &Bits {
            width: 128,
            value: 1,
        },
    ),
    ("(_ |bv3| 2)", &Bits { width: 2, value: 3 }),
    ("(_ bv5 129)", &Refused(Answer::UnknownSymbol)),
    ("(_ bv5 0)", &Refused(Answer::UnknownSymbol)),
    ("(_ bv05 4)", &Refused(Answer::UnknownSymbol)),
    ("(_ bv 4)", &Refused(Answer::UnknownSymbol)),
    ("(_ bv5)", &Refused(Answer::BadArity)),
];

// The first bit string that is not what is written beside it.
fn bit_strings(world: &mut World) -> Result<Option<usize>, Fail> {
    first_wrong(world, BIT_STRINGS, World::refers)
}

// Terms of an assertion.
const ASSERTED: &[Reference<'static>] = &[
    ("(_ bv3 2)", &Bits { width: 2, value: 3 }),
    ("(! p :named a)", &Names(1)),
    ("(_ (! p :named a) (! q :named b))", &Names(2)),
    ("(! (! p :named a) :x :named b :y 5)", &Names(2)),
    ("(! p :named p)", &Refused(Answer::Redeclared)),
    ("(! p :named !)", &Refused(Answer::Redeclared)),
    (
        "(_ (! p :named a) (! q :named a))",
        &Refused(Answer::Redeclared),
    ),
    ("(! zz :named p)", &Refused(Answer::UnknownSymbol)),
    ("(! p :named)", &Refused(Answer::BadCommand)),
    ("(! zz :named 5)", &Refused(Answer::BadCommand)),
];

// The first term of an assertion that does not become what is written beside it.
fn wrong_assertion(world: &mut World) -> Result<Option<usize>, Fail> {
    prepare(world, DECLARED)?;
    first_wrong(world, ASSERTED, World::asserts)
}

// Terms outside of assertions.
const OUTSIDE: &[Reference<'static>] = &[
    ("(! p :named p)", &Names(0)),
    ("(! p :named 5)", &Names(0)),
    ("(! p :x)", &Names(0)),
    ("(! p :x 1 2)", &Refused(Answer::BadCommand)),
    ("(! p 1)", &Refused(Answer::BadCommand)),
    ("(! p)", &Refused(Answer::BadCommand)),
    ("(!)", &Refused(Answer::BadArity)),
    ("! ", &Refused(Answer::BadArity)),
];

// The first term outside of assertions that does not become what is written beside it.
fn outside(world: &mut World) -> Result<Option<usize>, Fail> {
    prepare(world, DECLARED)?;
    first_wrong(world, OUTSIDE, World::refers)
}

#[test]
fn bit_strings_of_a_reference_file(rt: HostRuntime) -> Result<(), Fail> {
    all_right(&rt, rt.alloc(), bit_strings)
}

#[test]
fn assertions_name_their_terms(rt: HostRuntime) -> Result<(), Fail> {
    all_right(&rt, rt.alloc(), wrong_assertion)
}

#[test]
fn other_attributes_say_nothing(rt: HostRuntime) -> Result<(), Fail> {
    all_right(&rt, rt.alloc(), outside)
}
