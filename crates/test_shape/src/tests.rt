//! Shapes of commands, by hand.
mod proofs;
mod text;

use eo_sexp::{Children, Sexp};
use eo_shape::{
    AttributeShape, CaseShapes, Command, ParameterShapes, ProgramShape, ShapeRefused, Symbols,
    command_of,
};
use std::alloc::Global;
use std::fmt::Write;
use std::test::Fail;
use text::read;

fn write_bytes(out: &mut String, bytes: &[u8]) -> Result<(), Fail> {
    for b in bytes {
        out.push(*b as char)?;
    }
    out.push(' ')?;
    Ok(())
}

// Two atoms.
fn write_two(out: &mut String, first: &[u8], second: &[u8]) -> Result<(), Fail> {
    write_bytes(out, first)?;
    write_bytes(out, second)
}

// An atom after a word.
fn write_marked(out: &mut String, word: &str, bytes: &[u8]) -> Result<(), Fail> {
    out.push_str(word)?;
    write_bytes(out, bytes)
}

fn write_attribute(out: &mut String, attribute: &AttributeShape<'_>) -> Result<(), Fail> {
    let (word, value) = match attribute {
        AttributeShape::None => ("none ", None),
        AttributeShape::RightNil(s) => ("right-nil ", Some(s)),
        AttributeShape::LeftNil(s) => ("left-nil ", Some(s)),
        AttributeShape::Right => ("right ", None),
        AttributeShape::Left => ("left ", None),
        AttributeShape::Chain(s) => ("chain ", Some(s)),
        AttributeShape::Pairs(s) => ("pairs ", Some(s)),
        AttributeShape::Binder(s) => ("binder ", Some(s)),
    };
    out.push_str(word)?;
    match value {
        Some(s) => write_bytes(out, s.text()),
        None => Ok(()),
    }
}

fn write_parameters(out: &mut String, params: &ParameterShapes<'_>) -> Result<(), Fail> {
    for p in params.again() {
        write_bytes(out, p.name)?;
        write_bytes(out, p.ty.text())?;
        if p.implicit {
            out.push_str("implicit ")?;
        }
        if p.list {
            out.push_str("list ")?;
        }
    }
    Ok(())
}

// What has parameters: its name, these, and its type or body.
fn write_bound(
    out: &mut String,
    name: &[u8],
    params: &ParameterShapes<'_>,
    s: &Sexp<'_>,
) -> Result<(), Fail> {
    write_bytes(out, name)?;
    write_parameters(out, params)?;
    write_bytes(out, s.text())
}

fn write_names(out: &mut String, names: &Symbols<'_>) -> Result<(), Fail> {
    for name in names.again() {
        write_bytes(out, name)?;
    }
    Ok(())
}

fn write_terms(out: &mut String, terms: &Children<'_>) -> Result<(), Fail> {
    for t in terms.again() {
        write_bytes(out, t.text())?;
    }
    Ok(())
}

fn write_cases(out: &mut String, cases: &CaseShapes<'_>) -> Result<(), Fail> {
    for case in cases.again() {
        out.push_str("case ")?;
        write_terms(out, &case.patterns)?;
        write_bytes(out, case.body.text())?;
    }
    Ok(())
}

fn write_program(out: &mut String, program: &ProgramShape<'_>) -> Result<(), Fail> {
    write_bytes(out, program.name)?;
    write_parameters(out, &program.params)?;
    write_terms(out, &program.inputs)?;
    write_bytes(out, program.output.text())?;
    write_cases(out, &program.cases)
}

// The parts of a command in order, with the bytes of each atom.
fn write_command(out: &mut String, command: Command<'_>) -> Result<(), Fail> {
    match command {
        Command::DeclareConst {
            name,
            ty,
            attribute,
        } => {
            write_two(out, name, ty.text())?;
            write_attribute(out, &attribute)
        }
        Command::DeclareFun {
            name,
            inputs,
            output,
        } => {
            write_bytes(out, name)?;
            write_terms(out, &inputs)?;
            write_bytes(out, output.text())
        }
        Command::DeclareSort { name, arity } => {
            write_bytes(out, name)?;
            Ok(write!(out, "{arity} ")?)
        }
        Command::DeclareParameterized {
            name,
            params,
            ty,
            attribute,
        } => {
            write_bound(out, name, &params, &ty)?;
            write_attribute(out, &attribute)
        }
        Command::DeclareLiterals { class, ty } => {
            write!(out, "{class:?} ")?;
            write_bytes(out, ty.text())
        }
        Command::Define { name, params, body } => write_bound(out, name, &params, &body),
        Command::Program(program) => write_program(out, &program),
        Command::DeclareRule(rule) => proofs::write_rule(out, &rule),
        Command::Assume { name, formula } => write_two(out, name, formula.text()),
        Command::AssumePush { name, formula } => {
            out.push_str("push ")?;
            write_two(out, name, formula.text())
        }
        Command::Step(step) => proofs::write_step(out, &step),
        Command::StepPop(step) => {
            out.push_str("pop ")?;
            proofs::write_step(out, &step)
        }
        Command::Include { path } => write_marked(out, "include ", path),
        Command::Refer { path } => write_marked(out, "reference ", path),
        Command::DefineFun {
            name,
            params,
            output,
            body,
        } => {
            write_bound(out, name, &params, &output)?;
            write_bytes(out, body.text())
        }
        Command::DefineSort { name, params, ty } => {
            write_bytes(out, name)?;
            write_names(out, &params)?;
            write_bytes(out, ty.text())
        }
        Command::Assert { formula } => write_bytes(out, formula.text()),
        Command::Exit => Ok(out.push_str("exit ")?),
        Command::Skip => Ok(out.push_str("skip ")?),
    }
}

// The parts of the command, each of which ends with a space, or why it is none.
fn write_told(out: &mut String, s: &Sexp<'_>, in_reference: bool) -> Result<(), Fail> {
    match command_of(s, in_reference) {
        Ok(command) => write_command(out, command),
        Err(ShapeRefused::UnknownCommand) => Ok(out.push_str("unknown")?),
        Err(ShapeRefused::BadCommand) => Ok(out.push_str("bad")?),
    }
}

// The same of a text; nothing, where it is no list.
fn write_text(alloc: Global, out: &mut String, text: &str, in_reference: bool) -> Result<(), Fail> {
    let Some(text) = read(alloc, text.as_bytes())? else {
        return Ok(());
    };
    let written = write_told(out, &text.sexp(), in_reference);
    drop(text);
    written
}

/// A text, whether it is in a reference file, and what is said of it.
type Row<'a> = (&'a str, bool, &'a str);

// Fails at the first text of which something else is said than what is written beside it.
fn all_told(alloc: Global, rows: &[Row<'_>]) -> Result<(), Fail> {
    for (text, in_reference, want) in rows {
        if !is_told(alloc, text, *in_reference, want)? {
            return Err(Fail::new(*text));
        }
    }
    Ok(())
}

fn is_told(alloc: Global, text: &str, in_reference: bool, want: &str) -> Result<bool, Fail> {
    let mut out = String::new(alloc);
    write_text(alloc, &mut out, text, in_reference)?;
    Ok(out.as_str() == want)
}

const RIGHT: &[Row<'static>] = &[
    ("(declare-const c T)", false, "c T none "),
    ("(declare-const |c d| T :left-assoc)", false, "c d T left "),
    ("(declare-const c T :right-assoc)", false, "c T right "),
    (
        "(declare-const c T :right-assoc-nil n)",
        false,
        "c T right-nil n ",
    ),
    (
        "(declare-const c T :left-assoc-nil n)",
        false,
        "c T left-nil n ",
    ),
    (
        "(declare-const c T :chainable and)",
        false,
        "c T chain and ",
    ),
    ("(declare-const c T :pairwise and)", false, "c T pairs and "),
    ("(declare-const c T :binder @l)", false, "c T binder @l "),
    ("(declare-fun f (A B) C)", false, "f A B C "),
    ("(declare-fun f () C)", false, "f C "),
    ("(declare-sort S 64)", false, "S 64 "),
    (
        "(declare-parameterized-const c ((x A :implicit) (y B :list :implicit) (z C)) T)",
        false,
        "c x A implicit y B implicit list z C T none ",
    ),
    ("(declare-consts <numeral> Int)", false, "Numeral Int "),
    ("(declare-consts <binary> B)", false, "Binary B "),
    ("(declare-consts <string> S)", false, "String S "),
    ("(define m ((x T :list)) x)", false, "m x T list x "),
    (
        "(program p ((x A) (y B :list)) :signature (A B) C (((p x y) t) ((p) x)))",
        false,
        "p x A y B list A B C case x y t case x ",
    ),
    ("(program p () :signature (A) B ())", false, "p A B "),
    ("(assume a f)", false, "a f "),
    ("(include \"a.eo\")", false, "include a.eo "),
    ("(reference \"a\"\"b\")", false, "reference a\"\"b "),
    ("(assert f)", true, "f "),
    ("(declare-const c T)", true, "c T none "),
    ("(declare-fun f (A B) C)", true, "f A B C "),
    ("(declare-sort S 64)", true, "S 64 "),
    ("(define-fun f ((x A) (y B)) C t)", true, "f x A y B C t "),
    ("(define-fun |f g| () C t)", true, "f g C t "),
    ("(define-sort S (A B) T)", true, "S A B T "),
    ("(define-sort S () T)", true, "S T "),
    ("(exit)", true, "exit "),
    ("(set-logic QF_UF)", true, "skip "),
    ("(set-info :status unsat)", true, "skip "),
    ("(set-option)", true, "skip "),
    ("(check-sat)", true, "skip "),
    ("(get-model)", true, "skip "),
    ("(get-proof)", true, "skip "),
    ("(get-unsat-core)", true, "skip "),
    ("(get-info :name)", true, "skip "),
    ("(get-option)", true, "skip "),
    ("(get-value (p q))", true, "skip "),
    ("(get-assertions)", true, "skip "),
    ("(get-assignment)", true, "skip "),
    ("(echo \"a\")", true, "skip "),
];

const WRONG: &[Row<'static>] = &[
    ("()", false, "bad"),
    ("((assume) a f)", false, "bad"),
    ("(\"assume\" a f)", false, "bad"),
    ("(assumed a f)", false, "unknown"),
    ("(assume a f)", true, "unknown"),
    ("(assert f)", false, "unknown"),
    ("(assert)", true, "bad"),
    ("(include a)", false, "bad"),
    ("(include \"a\" \"b\")", false, "bad"),
    ("(reference)", false, "bad"),
    ("(include \"a\")", true, "unknown"),
    ("(declare-const c T :left-assoc)", true, "bad"),
    ("(declare-const c)", true, "bad"),
    ("(declare-sort S)", true, "bad"),
    ("(define-fun f ((x A :list)) C t)", true, "bad"),
    ("(define-fun f ((x A :implicit)) C t)", true, "bad"),
    ("(define-fun f ((x)) C t)", true, "bad"),
    ("(define-fun f () C)", true, "bad"),
    ("(define-fun f () C t u)", true, "bad"),
    ("(define-sort S ((A B)) T)", true, "bad"),
    ("(define-sort S A T)", true, "bad"),
    ("(define-sort S () T T)", true, "bad"),
    ("(exit 0)", true, "bad"),
    ("(assert f g)", true, "bad"),
    ("(push 1)", true, "unknown"),
    ("(define-fun-rec f () C t)", true, "unknown"),
    ("(check-sat-assuming ())", true, "unknown"),
    ("(define m () x)", true, "unknown"),
    ("(exit)", false, "unknown"),
    ("(check-sat)", false, "unknown"),
    ("(define-fun f () C t)", false, "unknown"),
    ("(assume a)", false, "bad"),
    ("(assume (a) f)", false, "bad"),
    ("(declare-const c)", false, "bad"),
    ("(declare-const c T :chainable)", false, "bad"),
    ("(declare-const c T :left-assoc n)", false, "bad"),
    ("(declare-const c T left-assoc)", false, "bad"),
    ("(declare-fun f A C)", false, "bad"),
    ("(declare-sort S 65)", false, "bad"),
    ("(declare-sort S 01)", false, "bad"),
    ("(declare-sort S -1)", false, "bad"),
    ("(declare-consts <decimal> R)", false, "bad"),
    ("(define m ((x T :list :list)) x)", false, "bad"),
    ("(define m ((x)) x)", false, "bad"),
    ("(define m (x) x)", false, "bad"),
    ("(program p () :signature (A) B ())", true, "unknown"),
    ("(program (p) () :signature (A) B ())", false, "bad"),
    ("(program p (x) :signature (A) B ())", false, "bad"),
    ("(program p () (A) B (((p x) x)))", false, "bad"),
    ("(program p () :sig (A) B (((p x) x)))", false, "bad"),
    ("(program p () :signature () B ((p x)))", false, "bad"),
    ("(program p () :signature (A) B)", false, "bad"),
    ("(program p () :signature (A) B p)", false, "bad"),
    ("(program p () :signature (A) B () ())", false, "bad"),
    ("(program p () :signature (A) B (((q x) x)))", false, "bad"),
    (
        "(program p () :signature (A) B (((p x) x) (p x)))",
        false,
        "bad",
    ),
    (
        "(program p () :signature (A) B (((p x) x x)))",
        false,
        "bad",
    ),
    ("(program p () :signature (A) B ((() x)))", false, "bad"),
];

#[test]
fn shapes(rt: HostRuntime) -> Result<(), Fail> {
    all_told(rt.alloc(), RIGHT)
}

#[test]
fn wrong_shapes(rt: HostRuntime) -> Result<(), Fail> {
    all_told(rt.alloc(), WRONG)
}
