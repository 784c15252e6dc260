//! What is declared, by its name and its number.
use super::world::{Answer, Sample, World, holds};
use eo_sig::{Entry, is_reserved};
use eo_term::{BOOL, TRUE};
use std::test::Fail;

#[test]
fn names_of_the_language_are_reserved(rt: HostRuntime) -> Result<(), Fail> {
    assert!(rt; is_reserved(b"Bool"));
    assert!(rt; is_reserved(b"eo::and"));
    assert!(rt; !is_reserved(b"not"));
    Ok(())
}

// Whether each name means the entry beside it, or nothing.
fn stand_for(w: &World, rows: &[(&[u8], Option<Entry>)]) -> bool {
    for (name, entry) in rows {
        if w.lookup(name) != *entry {
            return false;
        }
    }
    true
}

#[test]
fn a_constant_is_found_by_its_name(rt: HostRuntime) -> Result<(), Fail> {
    assert!(rt; holds(rt.alloc(), constants_are_named)?);
    Ok(())
}

fn constants_are_named(w: &mut World) -> Result<bool, Fail> {
    Ok(constants_are_declared(w)? && constants_are_found(w))
}

const CONSTANTS: &[(&[u8], Option<Entry>)] = &[
    (b"p", Some(Entry::Constant(4))),
    (b"q", Some(Entry::Constant(5))),
    (b"r", None),
];

fn constants_are_found(w: &World) -> bool {
    stand_for(w, CONSTANTS) && w.constant_type(b"q") == Some(BOOL)
}

const DECLARED: &[(&[u8], Answer)] = &[
    (b"p", Answer::Number(4)),
    (b"p", Answer::Redeclared),
    (b"q", Answer::Number(5)),
    (b"true", Answer::Redeclared),
];

fn constants_are_declared(w: &mut World) -> Result<bool, Fail> {
    declare(w, DECLARED)
}

// Whether each constant, in turn, has the answer beside it.
fn declare(w: &mut World, rows: &[(&[u8], Answer)]) -> Result<bool, Fail> {
    for (name, answer) in rows {
        if w.declare(name)? != *answer {
            return Ok(false);
        }
    }
    Ok(true)
}

#[test]
fn an_implicit_parameter_occurs_in_an_argument(rt: HostRuntime) -> Result<(), Fail> {
    assert!(rt; holds(rt.alloc(), implicit_parameters_occur)?);
    Ok(())
}

// An implicit parameter in no argument's type, or in one under an operator, and in one.
const IMPLICIT: &[(Sample, Answer)] = &[
    (Sample::Bool, Answer::UnboundParam),
    (Sample::OfValues, Answer::UnboundParam),
    (Sample::InOperator, Answer::UnboundParam),
    (Sample::OfArguments, Answer::Number(4)),
    (Sample::OfArguments, Answer::Redeclared),
];

fn implicit_parameters_occur(w: &mut World) -> Result<bool, Fail> {
    declare_implicit(w, IMPLICIT)
}

// Whether a constant `c` of each type, in turn, has the answer beside it.
fn declare_implicit(w: &mut World, rows: &[(Sample, Answer)]) -> Result<bool, Fail> {
    for (ty, answer) in rows {
        if w.declare_implicit(b"c", *ty)? != *answer {
            return Ok(false);
        }
    }
    Ok(true)
}

#[test]
fn a_check_declares_nothing(rt: HostRuntime) -> Result<(), Fail> {
    assert!(rt; holds(rt.alloc(), checks_declare_nothing)?);
    Ok(())
}

fn checks_declare_nothing(w: &mut World) -> Result<bool, Fail> {
    let hidden = w.checks_implicit(b"c", Sample::OfValues)?;
    let shown = w.checks_implicit(b"c", Sample::OfArguments)?;
    Ok(!hidden && shown && w.lookup(b"c").is_none())
}

/// A name, a pattern, what it gives, and what becomes of it.
type Row<'a> = (&'a [u8], Sample, Sample, Answer);

#[test]
fn a_program_is_found_by_its_name(rt: HostRuntime) -> Result<(), Fail> {
    assert!(rt; holds(rt.alloc(), programs_are_named)?);
    Ok(())
}

fn programs_are_named(w: &mut World) -> Result<bool, Fail> {
    Ok(programs_are_added(w)? && programs_are_found(w))
}

const PROGRAMS: &[(&[u8], Option<Entry>)] = &[
    (b"f", Some(Entry::Program(0))),
    (b"g", Some(Entry::Program(1))),
    (b"h", None),
];

fn programs_are_found(w: &World) -> bool {
    stand_for(w, PROGRAMS) && w.program_body(b"g") == Some(TRUE)
}

// Programs whose body is not bound, whose pattern holds an operator, or whose name is taken.
const ADDED_PROGRAMS: &[Row<'static>] = &[
    (b"f", Sample::True, Sample::Open, Answer::UnboundParam),
    (b"f", Sample::Operator, Sample::True, Answer::BadPattern),
    (b"Bool", Sample::Open, Sample::Open, Answer::Taken),
    (b"f", Sample::Open, Sample::Operator, Answer::Number(0)),
    (b"f", Sample::Open, Sample::True, Answer::Taken),
    (b"g", Sample::Open, Sample::True, Answer::Number(1)),
];

fn programs_are_added(w: &mut World) -> Result<bool, Fail> {
    add_programs(w, ADDED_PROGRAMS)
}

// Whether each program, in turn, has the answer of its row.
fn add_programs(w: &mut World, rows: &[Row<'_>]) -> Result<bool, Fail> {
    for (name, pattern, body, answer) in rows {
        if w.add_program(name, *pattern, *body)? != *answer {
            return Ok(false);
        }
    }
    Ok(true)
}

#[test]
fn a_rule_is_found_by_its_name(rt: HostRuntime) -> Result<(), Fail> {
    assert!(rt; holds(rt.alloc(), rules_are_named)?);
    Ok(())
}

fn rules_are_named(w: &mut World) -> Result<bool, Fail> {
    Ok(rules_are_added(w)? && rules_are_found(w))
}

const RULES: &[(&[u8], Option<usize>)] = &[
    (b"split", Some(0)),
    (b"truth", Some(1)),
    (b"other", None),
];

fn rules_are_found(w: &World) -> bool {
    have_numbers(w, RULES) && w.rule_conclusion(b"truth") == Some(TRUE)
}

// Whether each name is that of the rule with the number beside it, or of none.
fn have_numbers(w: &World, rows: &[(&[u8], Option<usize>)]) -> bool {
    for (name, number) in rows {
        if w.rule(name) != *number {
            return false;
        }
    }
    true
}

// Rules whose conclusion is not bound, whose pattern holds an operator, or whose name is taken.
const ADDED_RULES: &[Row<'static>] = &[
    (b"split", Sample::True, Sample::Open, Answer::UnboundParam),
    (b"split", Sample::Operator, Sample::True, Answer::BadPattern),
    (b"split", Sample::Open, Sample::Operator, Answer::Number(0)),
    (b"split", Sample::Open, Sample::Open, Answer::Taken),
    (b"truth", Sample::True, Sample::True, Answer::Number(1)),
];

fn rules_are_added(w: &mut World) -> Result<bool, Fail> {
    add_rules(w, ADDED_RULES)
}

// Whether each rule, in turn, has the answer of its row.
fn add_rules(w: &mut World, rows: &[Row<'_>]) -> Result<bool, Fail> {
    for (name, arg, conclusion, answer) in rows {
        if w.add_rule(name, *arg, *conclusion)? != *answer {
            return Ok(false);
        }
    }
    Ok(true)
}
