//! Operators on terms that are values, most of all on literals.
ghost use Rattle.std.specs.Prelude.{◌≡◌, ◌<◌, length, map, All, IfOk, OnErr, IfSome, option_map};
ghost use Rattle.eo_term.specs.Tree.{Con};
ghost use Rattle.eo_term.specs.Growth.{tree_in, trees_in, Grows, Makes};
ghost use Rattle.eo_ops.specs.Operators as ops;
ghost use Rattle.eo_ops.specs.Lit.{lit, IsWellFormed};
ghost use Rattle.eo_type.specs.Types.{typed_answer};
ghost use Rattle.eo_type.specs.Outcomes.{Yields, Answers, Gives};
ghost use Rattle.eo_type.specs.Parts.{AreArguments, on_literals, on_others};

use crate::TypeRefused;
use crate::leaves::truth_value;
use crate::refused::{Stop, answer};
use eo_base::Chars;
use eo_ops::{Lit, OpResult, apply};
use eo_term::{Id, Node, OpName, Table};
use std::alloc::{AllocError, Global};

/// The value of an operator of the language on values, by the Ethos manual's table; `None` where it
/// is stuck. An operator whose value that table does not give by its arguments alone, as
/// `eo::typeof` or one on lists, is stuck here.
///
/// `NumberRange`: the value is out of range. `Tall` never comes. `Memory`: out of memory. A refused
/// call leaves the table as it was.
pub fn operator_value(
    alloc: Global,
    table: &mut Table,
    op: OpName,
    args: &[Id],
) -> Result<Option<Id>, TypeRefused>
    requires arguments { AreArguments table.old op args.now }
    ensures answers { Answers table.new result (typed_answer (ops.tree_op_value op (trees_in table.old args.now))) }
    ensures refused { OnErr result (table.new ≡ table.old) }
    ensures grows { Grows table.old table.new }
{
    let mark = table.mark();
    match answer(value_of(alloc, table, op, args)) {
        Ok(value) => Ok(value),
        Err(e) => {
            table.release(mark);
            Err(e)
        }
    }
}

/// The value of an operator of the language on values, as the table of operators has it.
pub(crate) fn value_of(
    alloc: Global,
    table: &mut Table,
    op: OpName,
    args: &[Id],
) -> Result<Id, Stop>
    requires arguments { AreArguments table.old op args.now }
    ensures { Yields table.old table.new result (typed_answer (ops.tree_op_value op (trees_in table.old args.now))) }
{
    match literals(alloc, table, args)? {
        Some(literals) => value_of_literals(alloc, table, op, literals.as_slice()),
        None => value_of_others(table, op, args),
    }
}

// The value of an operator on literals.
fn value_of_literals(alloc: Global, table: &mut Table, op: OpName, args: &[Lit]) -> Result<Id, Stop>
    requires { All IsWellFormed args.now }
    ensures { Yields table.old table.new result (on_literals op (map lit args.now)) }
{
    match apply(alloc, op, args) {
        OpResult::Value(value) => Ok(literal_term(table, &value)?),
        OpResult::Stuck => Err(Stop::Untyped),
        OpResult::NumberRange => Err(Stop::NumberRange),
        OpResult::Memory(e) => Err(Stop::Memory(e)),
    }
}

// The value of an operator on values of which some is no literal: only the tests of kinds have one.
fn value_of_others(table: &Table, op: OpName, args: &[Id]) -> Result<Id, Stop>
    requires arguments { AreArguments table.now op args.now }
    ensures gives { Gives table.now result (on_others op (trees_in table.now args.now)) }
{
    match op {
        OpName::IsZ => Ok(truth_value(table, false)),
        OpName::IsBin => Ok(truth_value(table, false)),
        OpName::IsStr => Ok(truth_value(table, false)),
        OpName::IsBool => Ok(truth_value(table, false)),
        OpName::IsVar => Ok(truth_value(table, is_variable(table, args[0]))),
        _ => Err(Stop::Untyped),
    }
}

// Whether the term is a variable.
fn is_variable(table: &Table, id: Id) -> bool
    requires { id < length table.now.trees }
    ensures { result ≡ ops.is_variable (tree_in table.now id) }
{
    matches!(table.node(id), Node::Var { .. })
}

// The literals that the terms are, if each is one.
fn literals(alloc: Global, table: &Table, ids: &[Id]) -> Result<Option<Vec<Lit>>, AllocError>
    requires { All (λ i. i < length table.now.trees) ids.now }
    ensures value { IfOk result (λ o. option_map (λ ls. map lit ls.items) o ≡ ops.literals (trees_in table.now ids.now)) }
    ensures well_formed { IfOk result (λ o. IfSome o (λ ls. All IsWellFormed ls.items)) }
{
    let mut found = Vec::new(alloc);
    for id in ids {
        let Some(one) = literal(alloc, table, *id)? else {
            return Ok(None);
        };
        found.push(one)?;
    }
    Ok(Some(found))
}

// The literal that the term is, if it is one.
fn literal(alloc: Global, table: &Table, id: Id) -> Result<Option<Lit>, AllocError>
    requires { id < length table.now.trees }
    ensures value { IfOk result (λ l. option_map lit l ≡ ops.literal (tree_in table.now id)) }
    ensures well_formed { IfOk result (λ l. IfSome l IsWellFormed) }
{
    match table.node(id) {
        Node::Con(k) => Ok(truth_of(k)),
        Node::Num(value) => Ok(Some(Lit::Num(value))),
        Node::Bits { width, value } => Ok(Some(Lit::Bits { width, value })),
        Node::Str(text) => {
            let chars = Chars::new(alloc, table.chars(text))?;
            Ok(Some(Lit::Str(chars)))
        }
        Node::Par(_) => Ok(None),
        Node::Var { .. } => Ok(None),
        Node::App { .. } => Ok(None),
        Node::Arr { .. } => Ok(None),
        Node::Qar { .. } => Ok(None),
        Node::Op { .. } => Ok(None),
    }
}

// The truth value that the constant of this number is, if it is one.
fn truth_of(number: usize) -> Option<Lit>
    ensures value { option_map lit result ≡ ops.literal (Con number) }
    ensures well_formed { IfSome result IsWellFormed }
{
    match number {
        2 => Some(Lit::Bool(true)),
        3 => Some(Lit::Bool(false)),
        _ => None,
    }
}

// The term of a literal.
fn literal_term(table: &mut Table, literal: &Lit) -> Result<Id, AllocError>
    requires { IsWellFormed literal.now }
    ensures makes { Makes table.new result (ops.literal_tree (lit literal.now)) }
    ensures grows { Grows table.old table.new }
{
    match literal {
        Lit::Bool(value) => Ok(truth_value(table, *value)),
        Lit::Num(value) => table.intern_low(Node::Num(*value)),
        Lit::Bits { width, value } => table.intern_low(Node::Bits {
            width: *width,
            value: *value,
        }),
        Lit::Str(chars) => {
            let text = table.text(chars.as_slice())?;
            table.intern_low(Node::Str(text))
        }
    }
}
