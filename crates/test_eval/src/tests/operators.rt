//! Operators, and nodes that are none.
use super::rows::Trial;
use super::rows::Want::{Deep, Range, Stuck, Value};
use super::world::assert_right;
use std::test::Fail;

#[test]
fn a_choice_evaluates_one_branch(rt: HostRuntime) -> Result<(), Fail> {
    assert_right(&rt, rt.alloc(), CHOICES)
}

const CHOICES: &[Trial<'static>] = &[Trial {
    name: "choices",
    rows: &[
        ("ite not false Bool deep", Value("Bool")),
        ("ite false deep Bool", Value("Bool")),
        ("ite true deep Bool", Deep),
        ("ite true stuck deep", Stuck),
        ("ite Bool deep deep", Stuck),
        ("ite stuck deep deep", Stuck),
        ("ite range true true", Range),
    ],
}];

#[test]
fn a_test_has_a_value_where_its_argument_is_stuck(rt: HostRuntime) -> Result<(), Fail> {
    assert_right(&rt, rt.alloc(), TESTS)
}

const TESTS: &[Trial<'static>] = &[Trial {
    name: "tests",
    rows: &[
        ("is_ok true", Value("true")),
        ("is_ok stuck", Value("false")),
        ("is_ok is_ok stuck", Value("true")),
        ("is_ok range", Range),
        ("is_ok deep", Deep),
    ],
}];

#[test]
fn a_comparison_evaluates_both_terms(rt: HostRuntime) -> Result<(), Fail> {
    assert_right(&rt, rt.alloc(), COMPARISONS)
}

// Both terms are evaluated, the second also where the first is stuck.
const COMPARISONS: &[Trial<'static>] = &[Trial {
    name: "comparisons",
    rows: &[
        ("is_eq neg neg 2 2", Value("true")),
        ("is_eq 2 true", Value("false")),
        ("is_eq stuck 2", Value("false")),
        ("is_eq 2 stuck", Value("false")),
        ("is_eq stuck stuck", Value("false")),
        ("is_eq stuck range", Range),
        ("is_eq deep range", Deep),
    ],
}];

#[test]
fn a_requirement_compares_two_terms(rt: HostRuntime) -> Result<(), Fail> {
    assert_right(&rt, rt.alloc(), REQUIREMENTS)
}

// The third term is evaluated where the first two have one value, and the second always.
const REQUIREMENTS: &[Trial<'static>] = &[Trial {
    name: "requirements",
    rows: &[
        ("requires not false true Bool", Value("Bool")),
        ("requires not false false deep", Stuck),
        ("requires stuck stuck true", Stuck),
        ("requires true stuck deep", Stuck),
        ("requires stuck range true", Range),
        ("requires true true stuck", Stuck),
        ("requires true true deep", Deep),
    ],
}];

#[test]
fn parts_are_evaluated_from_left_to_right(rt: HostRuntime) -> Result<(), Fail> {
    assert_right(&rt, rt.alloc(), NODES)
}

// A node ends with its first part that has no value. The type of a function whose argument is
// bound is stuck, whatever its parts are.
const NODES: &[Trial<'static>] = &[Trial {
    name: "nodes",
    rows: &[
        ("app Bool not false", Value("app Bool true")),
        ("arr not false not false", Value("arr true true")),
        ("variable not false", Value("variable true")),
        ("bound deep Bool", Stuck),
        ("app stuck deep", Stuck),
        ("arr range deep", Range),
        ("and stuck deep", Stuck),
    ],
}];

#[test]
fn each_kind_of_operator_has_a_value(rt: HostRuntime) -> Result<(), Fail> {
    assert_right(&rt, rt.alloc(), KINDS)
}

const KINDS: &[Trial<'static>] = &[
    Trial {
        name: "of_literals",
        rows: &[
            ("zdiv -7 2", Value("-4")),
            ("neg least", Range),
            ("add 2 true", Stuck),
            ("is_z zdiv -7 2", Value("true")),
            ("is_bool Type", Value("false")),
        ],
    },
    // Literals of a class with no type have none.
    Trial {
        name: "of_types_and_variables",
        rows: &[
            ("typeof true", Value("Bool")),
            ("typeof 2", Stuck),
            ("var 'x' typeof true", Value("variable Bool")),
            ("var 2 Bool", Stuck),
            ("nameof var 'x' typeof true", Value("'x'")),
            ("nameof true", Stuck),
        ],
    },
    // The list of `true` and `p`, and that of `p`.
    Trial {
        name: "of_lists",
        rows: &[
            ("nil OR", Value("false")),
            ("list_len OR cons OR true cons OR p nil OR", Value("2")),
            ("list_len OR p", Stuck),
            ("list_rev OR cons OR p nil OR", Value("app app OR p false")),
        ],
    },
];
