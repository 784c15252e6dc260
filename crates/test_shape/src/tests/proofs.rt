//! Shapes of rules, of pushed assumptions and of steps, by hand.
use super::{
    Row, all_told, write_bytes, write_marked, write_names, write_parameters, write_terms, write_two,
};
use eo_sexp::{Children, Sexp};
use eo_shape::{PairShapes, PremisesShape, RuleShape, StepShape};
use std::test::Fail;

fn write_optional(out: &mut String, word: &str, s: &Option<Sexp<'_>>) -> Result<(), Fail> {
    match s {
        Some(s) => write_marked(out, word, s.text()),
        None => Ok(()),
    }
}

fn write_premises(out: &mut String, premises: &PremisesShape<'_>) -> Result<(), Fail> {
    match premises {
        PremisesShape::Each(patterns) => {
            out.push_str("each ")?;
            write_terms(out, patterns)
        }
        PremisesShape::Joined { pattern, joiner } => {
            out.push_str("joined ")?;
            write_two(out, pattern.text(), joiner.text())
        }
    }
}

pub(super) fn write_rule(out: &mut String, rule: &RuleShape<'_>) -> Result<(), Fail> {
    write_bytes(out, rule.name)?;
    write_parameters(out, &rule.params)?;
    write_optional(out, "assumption ", &rule.assumption)?;
    write_premises(out, &rule.premises)?;
    write_args(out, &rule.args)?;
    write_requirements(out, &rule.requirements)?;
    write_marked(out, "so ", rule.conclusion.text())?;
    if rule.sorry {
        out.push_str("sorry ")?;
    }
    Ok(())
}

fn write_args(out: &mut String, args: &Children<'_>) -> Result<(), Fail> {
    out.push_str("args ")?;
    write_terms(out, args)
}

fn write_requirements(out: &mut String, pairs: &PairShapes<'_>) -> Result<(), Fail> {
    for pair in pairs.again() {
        out.push_str("equal ")?;
        write_two(out, pair.left.text(), pair.right.text())?;
    }
    Ok(())
}

pub(super) fn write_step(out: &mut String, step: &StepShape<'_>) -> Result<(), Fail> {
    write_bytes(out, step.name)?;
    write_optional(out, "stated ", &step.stated)?;
    write_marked(out, "by ", step.rule)?;
    out.push_str("from ")?;
    write_names(out, &step.premises)?;
    write_args(out, &step.args)
}

const RIGHT: &[Row<'static>] = &[
    (
        "(declare-rule r () :conclusion c)",
        false,
        "r each args so c ",
    ),
    (
        "(declare-rule r ((x T) (y U :list)) :assumption a :premises (p q) \
         :args (x y) :requires ((x y) (y z)) :conclusion c :sorry)",
        false,
        "r x T y U list assumption a each p q args x y equal x y equal y z so c sorry ",
    ),
    (
        "(declare-rule r () :premise-list p and :args (x) :conclusion c)",
        false,
        "r joined p and args x so c ",
    ),
    (
        "(declare-rule r () :premises () :args () :requires () :conclusion :sorry :sorry)",
        false,
        "r each args so :sorry sorry ",
    ),
    (
        "(declare-rule |r s| () :assumption :premises :premises (p) :conclusion c)",
        false,
        "r s assumption :premises each p args so c ",
    ),
    ("(assume-push a f)", false, "push a f "),
    ("(step s :rule r)", false, "s by r from args "),
    ("(step s f :rule r)", false, "s stated f by r from args "),
    (
        "(step s f :rule r :premises (a b) :args (x y z))",
        false,
        "s stated f by r from a b args x y z ",
    ),
    ("(step s :rule r :args (x))", false, "s by r from args x "),
    (
        "(step s :rule r :premises () :args ())",
        false,
        "s by r from args ",
    ),
    (
        "(step s :args :rule r)",
        false,
        "s stated :args by r from args ",
    ),
    (
        "(step-pop s f :rule r :premises (a))",
        false,
        "pop s stated f by r from a args ",
    ),
    ("(step-pop s :rule r)", false, "pop s by r from args "),
];

const WRONG: &[Row<'static>] = &[
    ("(declare-rule r)", false, "bad"),
    ("(declare-rule r ())", false, "bad"),
    ("(declare-rule (r) () :conclusion c)", false, "bad"),
    ("(declare-rule r x :conclusion c)", false, "bad"),
    ("(declare-rule r ((x)) :conclusion c)", false, "bad"),
    ("(declare-rule r () c)", false, "bad"),
    ("(declare-rule r () :conclusion)", false, "bad"),
    ("(declare-rule r () :conclusion c d)", false, "bad"),
    (
        "(declare-rule r () :conclusion c :sorry :sorry)",
        false,
        "bad",
    ),
    ("(declare-rule r () :sorry :conclusion c)", false, "bad"),
    (
        "(declare-rule r () :premises (p) :assumption a :conclusion c)",
        false,
        "bad",
    ),
    (
        "(declare-rule r () :args (x) :premises (p) :conclusion c)",
        false,
        "bad",
    ),
    (
        "(declare-rule r () :requires ((x y)) :args (x) :conclusion c)",
        false,
        "bad",
    ),
    ("(declare-rule r () :conclusion c :args (x))", false, "bad"),
    (
        "(declare-rule r () :premises (p) :premises (q) :conclusion c)",
        false,
        "bad",
    ),
    (
        "(declare-rule r () :premises (p) :premise-list q and :conclusion c)",
        false,
        "bad",
    ),
    (
        "(declare-rule r () :assumption a :assumption b :conclusion c)",
        false,
        "bad",
    ),
    (
        "(declare-rule r () :premises p :conclusion c)",
        false,
        "bad",
    ),
    (
        "(declare-rule r () :premise-list p :conclusion c)",
        false,
        "bad",
    ),
    ("(declare-rule r () :args x :conclusion c)", false, "bad"),
    (
        "(declare-rule r () :requires (x y) :conclusion c)",
        false,
        "bad",
    ),
    (
        "(declare-rule r () :requires ((x)) :conclusion c)",
        false,
        "bad",
    ),
    (
        "(declare-rule r () :requires ((x y z)) :conclusion c)",
        false,
        "bad",
    ),
    ("(assume-push a)", false, "bad"),
    ("(assume-push (a) f)", false, "bad"),
    ("(assume-push a f g)", false, "bad"),
    ("(step)", false, "bad"),
    ("(step s)", false, "bad"),
    ("(step s f)", false, "bad"),
    ("(step s :rule)", false, "bad"),
    ("(step s f :rule)", false, "bad"),
    ("(step (s) :rule r)", false, "bad"),
    ("(step s :rule (r))", false, "bad"),
    ("(step s f g :rule r)", false, "bad"),
    ("(step s f r)", false, "bad"),
    ("(step s :rule r :args (x) :premises (a))", false, "bad"),
    ("(step s :rule r :premises a)", false, "bad"),
    ("(step s :rule r :premises ((a)))", false, "bad"),
    ("(step s :rule r :premises (1))", false, "bad"),
    ("(step s :rule r :args x)", false, "bad"),
    ("(step s :rule r :args)", false, "bad"),
    ("(step s :rule r :args (x) :args (y))", false, "bad"),
    ("(step s :rule r :premises (a) :premises (b))", false, "bad"),
    ("(step s :rule r x)", false, "bad"),
    ("(step-pop s)", false, "bad"),
    ("(step-pop s f)", false, "bad"),
    ("(step s :rule r)", true, "unknown"),
    ("(declare-rule r () :conclusion c)", true, "unknown"),
];

#[test]
fn shapes_of_proofs(rt: HostRuntime) -> Result<(), Fail> {
    all_told(rt.alloc(), RIGHT)
}

#[test]
fn wrong_shapes_of_proofs(rt: HostRuntime) -> Result<(), Fail> {
    all_told(rt.alloc(), WRONG)
}
