//! Rules: what they are made of, and the order of their checks.
use super::texts::push_parameters;
use super::world::{Answer, Counts, Outcome, Part, World, first_wrong, prepare};
use super::{all_right, holds};
use std::test::Fail;

// Each row has the outcome that is beside it; a fault comes before one that would come
// after it.
const FAULTS: &[Outcome<'static>] = &[
    (
        "(declare-const and (-> Bool Bool Bool) :right-assoc-nil true)",
        Answer::Done,
    ),
    (
        "(declare-const or (-> Bool Bool Bool) :left-assoc-nil true)",
        Answer::Done,
    ),
    ("(declare-const c Bool)", Answer::Done),
    (
        "(declare-rule r ((x Bool)) :premises (x) :conclusion x)",
        Answer::Done,
    ),
    // rules have names of their own
    ("(declare-rule c () :conclusion c)", Answer::Done),
    // the shape, and the name
    (
        "(declare-rule r ((x zz)) :args zz :conclusion zz)",
        Answer::BadCommand,
    ),
    (
        "(declare-rule r ((x zz)) :args (zz) :conclusion zz)",
        Answer::Redeclared,
    ),
    (
        "(declare-rule let ((x zz)) :args (zz) :conclusion zz)",
        Answer::Redeclared,
    ),
    // the parameters in order
    (
        "(declare-rule q ((x Bool) (x 1.5)) :assumption zz :conclusion zz)",
        Answer::Redeclared,
    ),
    (
        "(declare-rule q ((x 1.5)) :assumption zz :conclusion zz)",
        Answer::BadLiteral,
    ),
    // the assumption, and the premises in order
    (
        "(declare-rule q () :assumption zz :premises (1.5) :conclusion c)",
        Answer::UnknownSymbol,
    ),
    (
        "(declare-rule q () :assumption c :premises (c zz 1.5) :conclusion c)",
        Answer::UnknownSymbol,
    ),
    (
        "(declare-rule q () :premise-list zz 1.5 :conclusion c)",
        Answer::UnknownSymbol,
    ),
    (
        "(declare-rule q () :premise-list c zz :args (1.5) :conclusion c)",
        Answer::UnknownSymbol,
    ),
    // the arguments, the requirements, and the conclusion
    (
        "(declare-rule q () :premises (zz) :args (1.5) :conclusion c)",
        Answer::UnknownSymbol,
    ),
    (
        "(declare-rule q () :args (zz) :requires ((1.5 c)) :conclusion c)",
        Answer::UnknownSymbol,
    ),
    (
        "(declare-rule q () :requires ((zz 1.5)) :conclusion c)",
        Answer::UnknownSymbol,
    ),
    (
        "(declare-rule q () :requires ((c zz) (1.5 c)) :conclusion c)",
        Answer::UnknownSymbol,
    ),
    (
        "(declare-rule q () :requires ((c zz)) :conclusion 1.5)",
        Answer::UnknownSymbol,
    ),
    (
        "(declare-rule q () :premise-list c or :conclusion zz)",
        Answer::UnknownSymbol,
    ),
    // what joins the premises, before parameters of no pattern
    (
        "(declare-rule q ((x Bool)) :premise-list c or :conclusion x)",
        Answer::BadPattern,
    ),
    (
        "(declare-rule q ((x Bool)) :premise-list c c :conclusion x)",
        Answer::BadPattern,
    ),
    (
        "(declare-rule q ((x Bool)) :premise-list c x :conclusion x)",
        Answer::BadPattern,
    ),
    (
        "(declare-rule q ((x Bool)) :premise-list c (and c c) :conclusion x)",
        Answer::BadPattern,
    ),
    (
        "(declare-rule q ((x Bool)) :premise-list c and :conclusion x)",
        Answer::UnboundParam,
    ),
    // nothing of these is declared
    (
        "(declare-rule q ((x Bool)) :premise-list x and :conclusion x)",
        Answer::Done,
    ),
];

fn faults(world: &mut World) -> Result<Option<usize>, Fail> {
    first_wrong(world, FAULTS, World::declares)
}

/// So many parameters, their type, and what becomes of a rule with them.
type Counted<'a> = (usize, &'a str, Answer);

// 64 parameters are the most; they are counted before a type is read.
const NUMBERS: &[Counted<'static>] = &[
    (65, "zz", Answer::Parameters),
    (64, "zz", Answer::UnknownSymbol),
    (64, "Bool", Answer::Done),
];

fn numbers(world: &mut World) -> Result<Option<usize>, Fail> {
    first_wrong(world, NUMBERS, is_counted)
}

fn is_counted(world: &mut World, row: Counted<'_>) -> Result<bool, Fail> {
    let mut text = String::new(world.alloc());
    let told = is_written(world, &mut text, row);
    drop(text);
    told
}

// The same where the rule is written into a text without bytes.
fn is_written(world: &mut World, text: &mut String, row: Counted<'_>) -> Result<bool, Fail> {
    let (count, ty, want) = row;
    push_rule(text, count, ty)?;
    Ok(world.declare(text.as_str())? == want)
}

fn push_rule(text: &mut String, count: usize, ty: &str) -> Result<(), Fail> {
    text.push_str("(declare-rule q (")?;
    push_parameters(text, count, ty)?;
    text.push_str(") :conclusion true)")?;
    Ok(())
}

// A rule with all parts.
const RULE: &[Outcome<'static>] = &[
    (
        "(declare-const and (-> Bool Bool Bool) :right-assoc-nil true)",
        Answer::Done,
    ),
    (
        "(declare-rule r ((xs Bool) (ys Bool) (z Bool)) :assumption ys \
         :premise-list (and z true) and :args (true z) :requires ((z false)) \
         :conclusion (and true z) :sorry)",
        Answer::Done,
    ),
];

// Its parts: `xs`, `ys` and `z` are the parameters 0, 1 and 2 in what is compared too.
const PARTS: &[(&'static str, Part, &'static str)] = &[
    ("r", Part::Assumption, "ys "),
    ("r", Part::Pattern, "(and z true)"),
    ("r", Part::First, "true "),
    ("r", Part::Last, "z "),
    ("r", Part::Left, "z "),
    ("r", Part::Right, "false "),
    ("r", Part::Conclusion, "(and true z)"),
];

fn parts(world: &mut World) -> Result<Option<usize>, Fail> {
    prepare(world, RULE)?;
    first_wrong(world, PARTS, World::has_part)
}

fn counts(world: &mut World) -> Result<bool, Fail> {
    prepare(world, RULE)?;
    match world.counts("r") {
        Some(counts) => Ok(are_right(&counts)),
        None => Ok(false),
    }
}

fn are_right(counts: &Counts) -> bool {
    (counts.params == 3)
        & (counts.joiner == Some(4))
        & (counts.args == 2)
        & (counts.requirements == 1)
        & counts.sorry
}

#[test]
fn rules_are_checked_in_order(rt: HostRuntime) -> Result<(), Fail> {
    all_right(&rt, rt.alloc(), faults)
}

#[test]
fn at_most_64_parameters_of_a_rule(rt: HostRuntime) -> Result<(), Fail> {
    all_right(&rt, rt.alloc(), numbers)
}

#[test]
fn a_rule_has_its_parts(rt: HostRuntime) -> Result<(), Fail> {
    all_right(&rt, rt.alloc(), parts)?;
    holds(&rt, rt.alloc(), counts)
}
