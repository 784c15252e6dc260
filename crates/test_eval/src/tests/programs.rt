//! Programs: which case is taken, how deep calls go, and what is remembered. The programs are those
//! of `words`.
use super::rows::Trial;
use super::rows::Want::{Deep, Stuck, Tall, Value};
use super::world::{assert_right, wrong_by_one};
use std::test::Fail;

#[test]
fn the_first_case_that_matches_is_taken(rt: HostRuntime) -> Result<(), Fail> {
    assert_right(&rt, rt.alloc(), CASES)
}

const CASES: &[Trial<'static>] = &[
    // `f` has a case for every term before one for `true`, and `g` has one for `false` alone.
    Trial {
        name: "first_cases",
        rows: &[
            ("f true", Value("true")),
            ("g false", Value("true")),
            ("g true", Stuck),
            ("f g true", Stuck),
            ("f_of_none", Stuck),
        ],
    },
    // `second` has a case for equal terms, which gives it, and one for all others, which gives the
    // second. `nothing` has one for no terms.
    Trial {
        name: "cases_of_two",
        rows: &[
            ("nothing", Value("false")),
            ("second true true", Value("true")),
            ("second true nothing", Value("false")),
        ],
    },
];

#[test]
fn a_thousand_calls_may_be_open(rt: HostRuntime) -> Result<(), Fail> {
    assert_right(&rt, rt.alloc(), DEPTHS)
}

const DEPTHS: &[Trial<'static>] = &[
    // Of `countdown` a call on 0 is `true`, and one on another number n is the call on n - 1. So a
    // call on n opens n + 1 calls. Those of an argument are closed before the call on its value.
    Trial {
        name: "depths",
        rows: &[
            ("countdown 999999", Value("true")),
            ("countdown 1000000", Deep),
            ("same countdown 999999", Value("true")),
            ("countdown 999999", Value("true")),
        ],
    },
    // `k` calls `countdown` on the same number. What is remembered of a call is used where as many
    // calls may open as it needs.
    Trial {
        name: "depths_of_both",
        rows: &[
            ("and countdown 999999 k 999998", Value("true")),
            ("and countdown 999999 k 999999", Deep),
            ("k 999998", Value("true")),
            ("k 999999", Deep),
        ],
    },
    // `endless` calls itself on the same term.
    Trial {
        name: "endless",
        rows: &[
            ("endless true", Deep),
            ("is_ok endless true", Deep),
            ("true", Value("true")),
        ],
    },
];

#[test]
fn what_was_evaluated_is_remembered(rt: HostRuntime) -> Result<(), Fail> {
    assert_right(&rt, rt.alloc(), REMEMBERED)
}

const REMEMBERED: &[Trial<'static>] = &[
    // A call of `d` on n makes two calls on n - 1, which differ as terms: so 60 would make 2^60.
    Trial {
        name: "doubled_calls",
        rows: &[("d 60", Value("true"))],
    },
    // The conjunction of a term with itself, 60 times over.
    Trial {
        name: "doubled_terms",
        rows: &[("both_60 not false", Value("true"))],
    },
];

#[test]
fn nothing_is_remembered_from_before(rt: HostRuntime) -> Result<(), Fail> {
    assert_eq!(rt; wrong_by_one(rt.alloc(), NEGATIONS)?, None);
    Ok(())
}

// `negation` negates its argument. In each of these worlds one term has the same number.
const NEGATIONS: &[Trial<'static>] = &[
    Trial {
        name: "negation_of_false",
        rows: &[("negation negation not false", Value("true"))],
    },
    Trial {
        name: "negation_of_true",
        rows: &[("negation negation not true", Value("false"))],
    },
];

#[test]
fn what_stands_for_parameters_is_that_of_the_call(rt: HostRuntime) -> Result<(), Fail> {
    assert_right(&rt, rt.alloc(), PARAMETERS)
}

const PARAMETERS: &[Trial<'static>] = &[
    // `same` gives its argument. `outer` on x and y asks for `same` on y, and then for x: both have
    // the parameter 0.
    Trial {
        name: "nested_calls",
        rows: &[
            ("outer true false", Value("true")),
            ("outer false true", Value("false")),
            ("outer outer true false outer false true", Value("true")),
        ],
    },
    // The body of `e` is the conjunction of a term with itself, 60 times over, with a parameter in
    // it.
    Trial {
        name: "doubled_bodies",
        rows: &[
            ("e false", Value("true")),
            ("e true", Value("false")),
            ("or e false e true", Value("true")),
        ],
    },
];

#[test]
fn a_body_may_be_too_tall(rt: HostRuntime) -> Result<(), Fail> {
    assert_right(&rt, rt.alloc(), TALL_BODIES)
}

const TALL_BODIES: &[Trial<'static>] = &[
    // `t` applies a constant to its argument twice. A term has at most the height 1,000,000.
    Trial {
        name: "tall_bodies",
        rows: &[
            ("t p_999997 true", Value("p_999999 true")),
            ("t p_999998 true", Tall),
            ("p_1 t p_999997 true", Tall),
        ],
    },
    // `u` compares its argument with `same` on `true`, below three negations: a tall argument is
    // high in the body, so that this is not too tall. `v` calls `u`.
    Trial {
        name: "perhaps_tall_bodies",
        rows: &[
            ("u p_999998 true", Value("false")),
            ("u false", Value("true")),
            ("v p_999998 true", Value("false")),
        ],
    },
];
