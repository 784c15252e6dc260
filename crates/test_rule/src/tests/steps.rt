//! Uses of rules: each check by itself. A term has at most the height 2,000.
use super::rows::Trial;
use super::rows::Want::{Fault, Formula};
use super::world::all_right;
use eo_base::FaultName::{
    ConclusionDiffers, EvalCalls, EvalDepth, IllTyped, NotBool, NumberRange, PremiseMismatch,
    Stuck, TermHeight, WrongKind,
};
use std::test::Fail;

#[test]
fn what_is_given_is_matched(rt: HostRuntime) -> Result<(), Fail> {
    all_right(rt.alloc(), MATCHES)
}

const MATCHES: &[Trial<'static>] = &[
    // `contra` takes a formula and its negation.
    Trial {
        name: "contradictions",
        cases: &[],
        rules: &[("contra", "B", "", "x~x", "", "", "f")],
        uses: &[
            ("contra", "", "p~p", "", "", Formula("f")),
            ("contra", "", "pp", "", "", Fault(PremiseMismatch)),
            ("contra", "", "q~p", "", "", Fault(PremiseMismatch)),
            ("contra", "", "~pp", "", "", Fault(PremiseMismatch)),
            ("contra", "", "", "", "", Fault(PremiseMismatch)),
            ("contra", "", "p", "", "", Fault(PremiseMismatch)),
            ("contra", "", "p~pp", "", "", Fault(PremiseMismatch)),
            ("contra", "", "p~p", "p", "", Fault(PremiseMismatch)),
            ("contra", "p", "p~p", "", "", Fault(WrongKind)),
            ("contra", "", "p~p", "", "f", Formula("f")),
            ("contra", "", "p~p", "", "t", Fault(ConclusionDiffers)),
        ],
    },
    // `and_intro` joins its premises, and `and_some` at least one.
    Trial {
        name: "conjunctions",
        cases: &[],
        rules: &[
            ("and_intro", "B", "", "*x", "", "", "x"),
            ("and_some", "BB", "", "*&xy", "", "", "x"),
        ],
        uses: &[
            ("and_intro", "", "", "", "", Formula("t")),
            ("and_intro", "", "q", "", "", Formula("&qt")),
            ("and_intro", "", "pq", "", "", Formula("&p&qt")),
            ("and_intro", "", "pqf", "", "", Formula("&p&q&ft")),
            ("and_some", "", "pqf", "", "", Formula("p")),
            ("and_some", "", "", "", "", Fault(PremiseMismatch)),
        ],
    },
    // The conjunction of the premises may be too tall.
    Trial {
        name: "high_conjunctions",
        cases: &[],
        rules: &[("and_intro", "B", "", "*x", "", "", "x")],
        uses: &[
            ("and_intro", "", "~Np", "", "", Formula("&~Npt")),
            ("and_intro", "", "~~Np", "", "", Fault(TermHeight)),
            ("and_intro", "", "p~Np", "", "", Fault(TermHeight)),
        ],
    },
    // `double` takes the negation of a formula, and the formula.
    Trial {
        name: "arguments_are_matched",
        cases: &[],
        rules: &[("double", "B", "", "", "~xx", "", "x")],
        uses: &[
            ("double", "", "", "~pp", "", Formula("p")),
            ("double", "", "", "~pq", "", Fault(PremiseMismatch)),
            ("double", "", "", "p~p", "", Fault(PremiseMismatch)),
            ("double", "", "", "", "", Fault(PremiseMismatch)),
            ("double", "", "", "~p", "", Fault(PremiseMismatch)),
            ("double", "", "", "~ppp", "", Fault(PremiseMismatch)),
            ("double", "", "p", "~pp", "", Fault(PremiseMismatch)),
        ],
    },
    // `scope` concludes its premise, and discharges any assumption. `raa` discharges the negation of
    // what it concludes.
    Trial {
        name: "assumptions_are_matched",
        cases: &[],
        rules: &[
            ("scope", "BB", "x", "y", "", "", "y"),
            ("raa", "B", "~x", "f", "", "", "x"),
        ],
        uses: &[
            ("scope", "p", "q", "", "", Formula("q")),
            ("scope", "p", "", "", "", Fault(PremiseMismatch)),
            ("scope", "", "q", "", "", Fault(WrongKind)),
            ("raa", "~p", "f", "", "", Formula("p")),
            ("raa", "p", "f", "", "", Fault(PremiseMismatch)),
            ("raa", "~p", "q", "", "", Fault(PremiseMismatch)),
        ],
    },
];

#[test]
fn types_are_checked(rt: HostRuntime) -> Result<(), Fail> {
    all_right(rt.alloc(), TYPES)
}

const TYPES: &[Trial<'static>] = &[
    // `k` takes a formula, and `n` a number, which it concludes.
    Trial {
        name: "formulas_and_numbers",
        cases: &[],
        rules: &[
            ("k", "B", "", "", "x", "", "t"),
            ("n", "I", "", "", "x", "", "x"),
        ],
        uses: &[
            ("k", "", "", "p", "", Formula("t")),
            ("k", "", "", "5", "", Fault(IllTyped)),
            ("k", "", "", "@pp", "", Fault(IllTyped)),
            ("n", "", "", "5", "", Fault(NotBool)),
            ("n", "", "", "p", "", Fault(IllTyped)),
        ],
    },
    // `t` takes a term of any type, which the term gives to the first parameter. That is no formula,
    // so `u` takes none.
    Trial {
        name: "types_of_types",
        cases: &[],
        rules: &[
            ("t", "Tx", "", "", "y", "", "t"),
            ("u", "Bx", "", "", "y", "", "t"),
        ],
        uses: &[
            ("t", "", "", "5", "", Formula("t")),
            ("t", "", "", "c", "", Formula("t")),
            ("t", "", "", "I", "", Formula("t")),
            ("t", "", "", "@cc", "", Fault(IllTyped)),
            ("u", "", "", "5", "", Fault(IllTyped)),
        ],
    },
    // `v` takes a number, and a vector of one item more. That number may be out of range in the type
    // that is declared, and in that of the vector.
    Trial {
        name: "lengths_in_types",
        cases: &[],
        rules: &[("v", "IV+x1", "", "", "xy", "", "t")],
        uses: &[
            ("v", "", "", "5Z5", "", Formula("t")),
            ("v", "", "", "1Z5", "", Fault(IllTyped)),
            ("v", "", "", "MZ5", "", Fault(NumberRange)),
            ("v", "", "", "5ZM", "", Fault(NumberRange)),
        ],
    },
    // `w` takes a formula, and a proof of its negation. The type of proofs may be too tall, the one that
    // is declared and that of the proof.
    Trial {
        name: "formulas_in_types",
        cases: &[],
        rules: &[("w", "BF~x", "", "", "xy", "", "t")],
        uses: &[
            ("w", "", "", "pDp", "", Formula("t")),
            ("w", "", "", "qDp", "", Fault(IllTyped)),
            ("w", "", "", "~NpD~Np", "", Formula("t")),
            ("w", "", "", "~~NpDp", "", Fault(TermHeight)),
            ("w", "", "", "pD~~Np", "", Fault(TermHeight)),
        ],
    },
];

#[test]
fn conclusions_are_evaluated(rt: HostRuntime) -> Result<(), Fail> {
    all_right(rt.alloc(), EVALUATIONS)
}

const EVALUATIONS: &[Trial<'static>] = &[
    // `same` requires that its arguments are equal, `and_elim` gives an item of a conjunction, and `sum`
    // twice a number.
    Trial {
        name: "operators_are_evaluated",
        cases: &[],
        rules: &[
            ("same", "BB", "", "", "xy", "xy", "x"),
            ("and_elim", "BI", "", "x", "y", "", "#xy"),
            ("sum", "I", "", "", "x", "", "+xx"),
        ],
        uses: &[
            ("same", "", "", "pp", "", Formula("p")),
            ("same", "", "", "pq", "", Fault(Stuck)),
            ("and_elim", "", "&pt", "0", "", Formula("p")),
            ("and_elim", "", "&pt", "1", "", Fault(Stuck)),
            ("sum", "", "", "M", "", Fault(NumberRange)),
            ("sum", "", "", "1", "", Fault(NotBool)),
        ],
    },
    // `deep` calls a program that calls itself on the same term.
    Trial {
        name: "endless_programs",
        cases: &[("x", "!x")],
        rules: &[("deep", "B", "", "", "x", "", "!x")],
        uses: &[("deep", "", "", "p", "", Fault(EvalDepth))],
    },
    // `many` calls a program on a formula and 0, which calls itself on the formula without a negation and
    // on twice the number, and on that and one more, as long as there is a negation. So on n negations
    // there are 2^(n + 1) - 1 different calls: at 20 more than 2,000,000.
    Trial {
        name: "many_calls",
        cases: &[("&ty", "t"), ("&~xy", "&!&x+yy!&x++yy1")],
        rules: &[("many", "B", "", "", "x", "", "!&x0")],
        uses: &[
            ("many", "", "", "~~t", "", Formula("&&tt&tt")),
            (
                "many",
                "",
                "",
                "~~~~~~~~~~~~~~~~~~~~t",
                "",
                Fault(EvalCalls),
            ),
        ],
    },
    // `first` calls a program that gives the first item of a conjunction.
    Trial {
        name: "programs_are_called",
        cases: &[("&xy", "x")],
        rules: &[("first", "B", "", "", "x", "", "!x")],
        uses: &[
            ("first", "", "", "&pt", "", Formula("p")),
            ("first", "", "", "p", "", Fault(Stuck)),
        ],
    },
];

#[test]
fn conclusions_are_low_formulas(rt: HostRuntime) -> Result<(), Fail> {
    all_right(rt.alloc(), CONCLUSIONS)
}

const CONCLUSIONS: &[Trial<'static>] = &[
    // `neg` concludes the negation of a formula, and `cat` that all of two conjunctions hold, which is
    // too tall only once it is evaluated.
    Trial {
        name: "conclusions_are_low",
        cases: &[],
        rules: &[
            ("neg", "B", "", "", "x", "", "~x"),
            ("cat", "BB", "", "", "xy", "", "%xy"),
        ],
        uses: &[
            ("neg", "", "", "~~Np", "", Formula("~~~Np")),
            ("neg", "", "", "~~~Np", "", Fault(TermHeight)),
            ("cat", "", "", "&pt&Npt", "", Formula("&p&Npt")),
            ("cat", "", "", "&p&pt&Npt", "", Fault(TermHeight)),
        ],
    },
    // What `zeros`, `wrong` and `proved` conclude is no formula, since it has no type or another one, and
    // the type of what `proved` concludes may be too tall.
    Trial {
        name: "conclusions_are_typed",
        cases: &[],
        rules: &[
            ("zeros", "I", "", "", "x", "", "Zx"),
            ("wrong", "B", "", "", "x", "", "@xx"),
            ("proved", "B", "", "", "x", "", "Dx"),
        ],
        uses: &[
            ("zeros", "", "", "5", "", Fault(NotBool)),
            ("zeros", "", "", "M", "", Fault(NumberRange)),
            ("wrong", "", "", "p", "", Fault(IllTyped)),
            ("proved", "", "", "p", "", Fault(NotBool)),
            ("proved", "", "", "~~Np", "", Fault(TermHeight)),
        ],
    },
];
