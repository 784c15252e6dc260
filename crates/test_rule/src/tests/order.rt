//! Uses of rules that fail two checks: the fault is that of the earlier.
use super::rows::Trial;
use super::rows::Want::Fault;
use super::world::all_right;
use eo_base::FaultName::{
    IllTyped, NotBool, NumberRange, PremiseMismatch, Stuck, TermHeight, WrongKind,
};
use std::test::Fail;

#[test]
fn the_first_check_that_fails_is_told(rt: HostRuntime) -> Result<(), Fail> {
    all_right(rt.alloc(), TWO_FAILURES)
}

const TWO_FAILURES: &[Trial<'static>] = &[
    // An assumption for a rule that has none, premises that are too tall as one list, too many
    // arguments, and a number for a formula. `contra` takes a formula and its negation, and `and_intro`
    // joins its premises.
    Trial {
        name: "before_types",
        cases: &[],
        rules: &[
            ("contra", "B", "", "x~x", "", "", "f"),
            ("and_intro", "B", "", "*x", "", "", "x"),
        ],
        uses: &[
            ("and_intro", "p", "~~~Np", "", "", Fault(WrongKind)),
            ("contra", "p", "p", "", "", Fault(WrongKind)),
            ("and_intro", "", "~~~Np", "p", "", Fault(TermHeight)),
            ("contra", "", "55", "", "", Fault(PremiseMismatch)),
            ("and_intro", "", "5", "5", "", Fault(PremiseMismatch)),
        ],
    },
    // `both` takes a number and a formula, of which the type of the formula is checked first. `same`
    // concludes a formula where it is given twice, and `ask` what has no type. `n` concludes a number,
    // which is no formula, and another than is stated.
    Trial {
        name: "types_and_after",
        cases: &[],
        rules: &[
            ("both", "IB", "", "", "xy", "", "y"),
            ("same", "BB", "", "", "xy", "xy", "x"),
            ("ask", "BB", "", "", "xy", "xy", "@xx"),
            ("n", "I", "", "", "x", "", "+x1"),
        ],
        uses: &[
            ("both", "", "", "ZM5", "", Fault(IllTyped)),
            ("both", "", "", "pZM", "", Fault(NumberRange)),
            ("same", "", "", "p5", "", Fault(IllTyped)),
            ("ask", "", "", "pq", "", Fault(Stuck)),
            ("ask", "", "", "pq", "q", Fault(Stuck)),
            ("ask", "", "", "pp", "q", Fault(IllTyped)),
            ("n", "", "", "M", "q", Fault(NumberRange)),
            ("n", "", "", "5", "q", Fault(NotBool)),
        ],
    },
];
