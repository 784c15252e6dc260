//! The command that an s-expression is.
ghost use Rattle.std.specs.Prelude.{◌≡◌, Ok, Err, IfOk, IfErr, bytes_eq, option_map, if◌then◌else◌};
ghost use Rattle.std.specs.List.{list_any};
ghost use Rattle.eo_shape.specs.Forms.{shape_by};
ghost use Rattle.eo_shape.specs.Reading.{read_command, fault_of};
ghost use Rattle.eo_shape.specs.Shapes.{command_of, form_of, forms, proving_forms, reference_forms, skipped, skipping_forms};

use crate::commands::{
    assert, assume, assume_push, declare_const, declare_fun, declare_literals,
    declare_parameterized, declare_plain, declare_sort, define, define_fun, define_sort, exit,
    include, program, refer,
};
use crate::rules::declare_rule;
use crate::steps::{step, step_pop};
use crate::words::symbol;
use crate::{Command, ShapeRefused};
use eo_sexp::{Children, Sexp};

/// The commands of reference files that say nothing here.
const SKIPPED: [&[u8]; 13] = [
    b"set-logic",
    b"set-info",
    b"set-option",
    b"check-sat",
    b"get-model",
    b"get-proof",
    b"get-unsat-core",
    b"get-info",
    b"get-option",
    b"get-value",
    b"get-assertions",
    b"get-assignment",
    b"echo",
];

/// The commands, by their words.
#[derive(Clone, Copy)]
pub(crate) enum Form {
    DeclareConst,
    DeclareFun,
    DeclareSort,
    DeclareParameterized,
    DeclareLiterals,
    Define,
    Program,
    DeclareRule,
    Assume,
    AssumePush,
    Step,
    StepPop,
    Include,
    Refer,
    DeclarePlain,
    DefineFun,
    DefineSort,
    Assert,
    Exit,
    Skip,
}

/// The command that the s-expression is, in a reference file, or else in a signature or a proof
/// (Ethos manual, full syntax of the commands; SMT-LIB 2.6, section 4.2 "Commands").
///
/// It is `BadCommand` where the s-expression is no list that begins with a symbol. Else it is
/// `UnknownCommand` where the symbol is no command's word there. Else it is `BadCommand` where what
/// follows the word has a wrong shape.
pub fn command_of<'b>(s: &Sexp<'b>, in_reference: bool) -> Result<Command<'b>, ShapeRefused>
    ensures shape { IfOk result (λ c. command_of in_reference s.now ≡ Ok (read_command c)) }
    ensures refused { IfErr result (λ e. command_of in_reference s.now ≡ Err (fault_of e)) }
{
    let Some((head, parts)) = s.children().split_first() else {
        return Err(ShapeRefused::BadCommand);
    };
    let Some(word) = symbol(&head) else {
        return Err(ShapeRefused::BadCommand);
    };
    let Some(form) = form_named(word, in_reference) else {
        return Err(ShapeRefused::UnknownCommand);
    };
    match command_by_form(form, &parts) {
        Some(command) => Ok(command),
        None => Err(ShapeRefused::BadCommand),
    }
}

/// The command of this word.
fn form_named(word: &[u8], in_reference: bool) -> Option<Form>
    ensures { option_map shape_by result ≡ form_of (if in_reference then reference_forms else forms) word.now }
{
    if in_reference {
        reference_form(word)
    } else {
        proof_form(word)
    }
}

/// The command of this word in a reference file.
fn reference_form(word: &[u8]) -> Option<Form>
    ensures { option_map shape_by result ≡ form_of reference_forms word.now }
{
    if word == b"declare-const".as_slice() {
        return Some(Form::DeclarePlain);
    }
    if word == b"declare-fun".as_slice() {
        return Some(Form::DeclareFun);
    }
    if word == b"declare-sort".as_slice() {
        return Some(Form::DeclareSort);
    }
    if word == b"define-fun".as_slice() {
        return Some(Form::DefineFun);
    }
    if word == b"define-sort".as_slice() {
        return Some(Form::DefineSort);
    }
    if word == b"assert".as_slice() {
        return Some(Form::Assert);
    }
    if word == b"exit".as_slice() {
        return Some(Form::Exit);
    }
    skipping_form(word)
}

/// The command of this word, where it says nothing here.
fn skipping_form(word: &[u8]) -> Option<Form>
    ensures { option_map shape_by result ≡ form_of (skipping_forms skipped) word.now }
{
    if is_one_of(&SKIPPED, word) {
        return Some(Form::Skip);
    }
    None
}

/// Whether the word is one of these.
fn is_one_of(words: &[&[u8]], word: &[u8]) -> bool
    ensures { result ≡ list_any (λ w. bytes_eq w.now word.now) words.now }
{
    words.iter().any(|w| *w == word)
}

/// The command of this word in a signature or a proof.
fn proof_form(word: &[u8]) -> Option<Form>
    ensures { option_map shape_by result ≡ form_of forms word.now }
{
    if word == b"declare-const".as_slice() {
        return Some(Form::DeclareConst);
    }
    if word == b"declare-fun".as_slice() {
        return Some(Form::DeclareFun);
    }
    if word == b"declare-sort".as_slice() {
        return Some(Form::DeclareSort);
    }
    if word == b"declare-parameterized-const".as_slice() {
        return Some(Form::DeclareParameterized);
    }
    if word == b"declare-consts".as_slice() {
        return Some(Form::DeclareLiterals);
    }
    if word == b"define".as_slice() {
        return Some(Form::Define);
    }
    if word == b"program".as_slice() {
        return Some(Form::Program);
    }
    if word == b"declare-rule".as_slice() {
        return Some(Form::DeclareRule);
    }
    if word == b"include".as_slice() {
        return Some(Form::Include);
    }
    if word == b"reference".as_slice() {
        return Some(Form::Refer);
    }
    proving_form(word)
}

/// The command of this word, where it assumes or proves.
fn proving_form(word: &[u8]) -> Option<Form>
    ensures { option_map shape_by result ≡ form_of proving_forms word.now }
{
    if word == b"assume".as_slice() {
        return Some(Form::Assume);
    }
    if word == b"assume-push".as_slice() {
        return Some(Form::AssumePush);
    }
    if word == b"step".as_slice() {
        return Some(Form::Step);
    }
    if word == b"step-pop".as_slice() {
        return Some(Form::StepPop);
    }
    None
}

/// The command of this form with these parts, where they have its shape.
fn command_by_form<'b>(form: Form, parts: &Children<'b>) -> Option<Command<'b>>
    ensures { option_map read_command result ≡ shape_by form parts.now }
{
    match form {
        Form::DeclareConst => declare_const(parts),
        Form::DeclareFun => declare_fun(parts),
        Form::DeclareSort => declare_sort(parts),
        Form::DeclareParameterized => declare_parameterized(parts),
        Form::DeclareLiterals => declare_literals(parts),
        Form::Define => define(parts),
        Form::Program => program(parts),
        Form::DeclareRule => declare_rule(parts),
        Form::Assume => assume(parts),
        Form::AssumePush => assume_push(parts),
        Form::Step => step(parts),
        Form::StepPop => step_pop(parts),
        Form::Include => include(parts),
        Form::Refer => refer(parts),
        Form::DeclarePlain => declare_plain(parts),
        Form::DefineFun => define_fun(parts),
        Form::DefineSort => define_sort(parts),
        Form::Assert => assert(parts),
        Form::Exit => exit(parts),
        Form::Skip => Some(Command::Skip),
    }
}
