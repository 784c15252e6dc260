//! What nodes are over the values of their parts.
ghost use Rattle.std.specs.Prelude.{◌≡◌, ◌<◌, IsTrue, IsFalse, length, All, IfOk, IfSome, Option};
ghost use Rattle.eo_term.specs.Growth.{Grows, tree_in, trees_in};
ghost use Rattle.eo_term.specs.Terms.{HasArity, tree_of, PartsBelow, TextsBelow, IsPlain, IsProper};
ghost use Rattle.eo_term.specs.Tree.{Tree, Trees, NoTree, Op, is_value};
ghost use Rattle.eo_term.specs.Arguments.{count_of};
ghost use Rattle.eo_sig.specs.Reading.{signature, IsBelow};
ghost use Rattle.eo_sig.specs.Growth.{GrowsUnder};
ghost use Rattle.eo_lists.specs.Outcomes.{IsListOperator, GivesList, value_in};
ghost use Rattle.eo_ops.specs.Operators as ops;
ghost use Rattle.eo_type.specs.Known.{Fit, FitWith, Extends};
ghost use Rattle.eo_type.specs.Outcomes.{Answers};
ghost use Rattle.eo_type.specs.Parts.{AreArguments};
ghost use Rattle.eo_type.specs.Types.{TypeOutcome, on_typed, typed_if, typed_answer, value_type};
ghost use Rattle.eo_stack.specs.Evaluation.{Stuck, typed_outcome, value_or, operator_value};
ghost use Rattle.eo_stack.specs.Machine.{parts_of, low_value, low_outcome, made_of, other_value, variable_value, name_value};
ghost use Rattle.eo_stack.specs.Reading.{IsOutcome};

use crate::Outcome;
use eo_lists::list_op;
use eo_sig::Signature;
use eo_term::{Id, Node, OpCode, OpName, Table, TermRefused};
use eo_type::{TypeRefused, Types, operator_value};
use std::alloc::{AllocError, Global};

/// What a node other than a program call is over the values of its parts. Types that are kept stay,
/// also where memory runs out, and those that `eo::typeof` finds are kept with them.
pub fn apply_node(
    alloc: Global,
    sig: &Signature,
    table: &mut Table,
    types: &mut Types,
    id: Id,
    values: &[Id],
) -> Result<Outcome, AllocError>
    requires live { id < length table.old.trees }
    requires values { All (λ i. i < length table.old.trees) values.now }
    requires count { length values.now ≡ count_of (parts_of (tree_in table.old id)) }
    requires fits { Fit sig.now table.old types.old }
    ensures outcome { IfOk result (IsOutcome table.new
        (made_of (signature table.old.trees sig.now) (tree_in table.old id) (trees_in table.old values.now))) }
    ensures extends { Extends sig.now table.old types.old table.new types.new }
{
    sig.laws();
    types.laws();
    match table.node(id) {
        Node::Var { name, .. } => intern_outcome(
            table,
            Node::Var {
                name,
                ty: values[0],
            },
        ),
        Node::App { .. } => intern_outcome(
            table,
            Node::App {
                fun: values[0],
                arg: values[1],
            },
        ),
        Node::Arr { .. } => intern_outcome(
            table,
            Node::Arr {
                from: values[0],
                to: values[1],
            },
        ),
        Node::Op { code, .. } => apply_op(alloc, sig, table, types, code, values),
        Node::Par(_) => Ok(Outcome::Stuck),
        Node::Qar { .. } => Ok(Outcome::Stuck),
        Node::Con(_) => Ok(Outcome::Stuck),
        Node::Num(_) => Ok(Outcome::Stuck),
        Node::Bits { .. } => Ok(Outcome::Stuck),
        Node::Str(_) => Ok(Outcome::Stuck),
    }
}

// What an operator makes of values. A program is called elsewhere.
fn apply_op(
    alloc: Global,
    sig: &Signature,
    table: &mut Table,
    types: &mut Types,
    code: OpCode,
    args: &[Id],
) -> Result<Outcome, AllocError>
    requires args { All (λ i. i < length table.old.trees) args.now }
    requires count { HasArity code (length args.now) }
    requires fits { Fit sig.now table.old types.old }
    ensures outcome { (ts : Trees) → IfOk result (IsOutcome table.new
        (made_of (signature table.old.trees sig.now) (Op code ts) (trees_in table.old args.now))) }
    ensures extends { Extends sig.now table.old types.old table.new types.new }
{
    sig.laws();
    types.laws();
    match code {
        OpCode::Builtin(op) => operator(alloc, sig, table, types, op, args),
        OpCode::Prog(_) => Ok(Outcome::Stuck),
    }
}

// An operator of the language on values.
fn operator(
    alloc: Global,
    sig: &Signature,
    table: &mut Table,
    types: &mut Types,
    op: OpName,
    args: &[Id],
) -> Result<Outcome, AllocError>
    requires arguments { AreArguments table.old op args.now }
    requires fits { Fit sig.now table.old types.old }
    ensures outcome { IfOk result (IsOutcome table.new
        (low_outcome (operator_value (signature table.old.trees sig.now) op (trees_in table.old args.now)))) }
    ensures extends { Extends sig.now table.old types.old table.new types.new }
{
    sig.laws();
    types.laws();
    match op {
        OpName::Typeof => type_of(sig, table, types, args[0]),
        OpName::Var => variable(table, args[0], args[1]),
        OpName::Nameof => name_of(table, args[0]),
        _ => other(alloc, sig, table, op, args),
    }
}

// Any other operator on values.
fn other(
    alloc: Global,
    sig: &Signature,
    table: &mut Table,
    op: OpName,
    args: &[Id],
) -> Result<Outcome, AllocError>
    requires arguments { AreArguments table.old op args.now }
    requires below { IsBelow (length table.old.trees) sig.now }
    ensures outcome { IfOk result (IsOutcome table.new
        (low_outcome (other_value (signature table.old.trees sig.now) op (trees_in table.old args.now)))) }
    ensures grows { GrowsUnder sig.now table.old table.new }
{
    sig.laws();
    if is_on_lists(op) {
        on_lists(alloc, sig, table, op, args)
    } else {
        on_literals(alloc, table, op, args)
    }
}

// Whether an operator is one on lists.
fn is_on_lists(op: OpName) -> bool
    ensures lists { IsTrue result → IsListOperator op }
    ensures others { IsFalse result → IsListOperator op → ⊥ }
{
    match op {
        OpName::Nil
        | OpName::Cons
        | OpName::ListLen
        | OpName::ListConcat
        | OpName::ListNth
        | OpName::ListFind
        | OpName::ListRev
        | OpName::ListErase
        | OpName::ListSetof
        | OpName::ListMinclude => true,
        _ => false,
    }
}

// The variable of this name and type.
fn variable(table: &mut Table, name: Id, ty: Id) -> Result<Outcome, AllocError>
    requires name { name < length table.old.trees }
    requires ty { ty < length table.old.trees }
    ensures outcome { IfOk result (IsOutcome table.new (variable_value (tree_in table.old name) (tree_in table.old ty))) }
    ensures grows { Grows table.old table.new }
{
    let Node::Str(text) = table.node(name) else {
        return Ok(Outcome::Stuck);
    };
    intern_outcome(table, Node::Var { name: text, ty })
}

// The name of a variable, as a string.
fn name_of(table: &mut Table, id: Id) -> Result<Outcome, AllocError>
    requires { id < length table.old.trees }
    ensures outcome { IfOk result (IsOutcome table.new (name_value (tree_in table.old id))) }
    ensures grows { Grows table.old table.new }
{
    let Node::Var { name, .. } = table.node(id) else {
        return Ok(Outcome::Stuck);
    };
    intern_outcome(table, Node::Str(name))
}

// The type of a value, if it is one that is a value.
fn type_of(
    sig: &Signature,
    table: &mut Table,
    types: &mut Types,
    id: Id,
) -> Result<Outcome, AllocError>
    requires { FitWith sig.now table.old types.old id }
    ensures outcome { IfOk result (IsOutcome table.new
        (low_outcome (typed_outcome (value_type (signature table.old.trees sig.now) (tree_in table.old id))))) }
    ensures extends { Extends sig.now table.old types.old table.new types.new }
{
    let found = types.type_of(sig, table, id);
    value_type_outcome(table, found)
}

// The value of an operator on lists.
fn on_lists(
    alloc: Global,
    sig: &Signature,
    table: &mut Table,
    op: OpName,
    args: &[Id],
) -> Result<Outcome, AllocError>
    requires list { IsListOperator op }
    requires arguments { AreArguments table.old op args.now }
    requires below { IsBelow (length table.old.trees) sig.now }
    ensures outcome { IfOk result (IsOutcome table.new (low_outcome (value_or (value_in sig.now table.old op args.now) Stuck))) }
    ensures grows { GrowsUnder sig.now table.old table.new }
{
    let found = list_op(alloc, sig, table, op, args);
    list_outcome(table, found)
}

// The value of an operator on literals.
fn on_literals(
    alloc: Global,
    table: &mut Table,
    op: OpName,
    args: &[Id],
) -> Result<Outcome, AllocError>
    requires arguments { AreArguments table.old op args.now }
    ensures outcome { IfOk result (IsOutcome table.new
        (low_outcome (typed_outcome (typed_answer (ops.tree_op_value op (trees_in table.old args.now)))))) }
    ensures grows { Grows table.old table.new }
{
    let found = operator_value(alloc, table, op, args);
    type_outcome(table, found)
}

// The outcome that is a term with this root, unless it is too tall.
fn intern_outcome(table: &mut Table, node: Node) -> Result<Outcome, AllocError>
    requires plain { IsPlain node }
    requires parts { PartsBelow (length table.old.trees) node }
    requires texts { TextsBelow (length table.old.texts) node }
    requires proper { IsProper node }
    ensures outcome { IfOk result (IsOutcome table.new (low_value (tree_of table.old.trees table.old.texts node NoTree))) }
    ensures grows { Grows table.old table.new }
{
    match table.intern(node) {
        Ok(id) => Ok(Outcome::Value(id)),
        Err(TermRefused::Tall) => Ok(Outcome::Tall),
        Err(TermRefused::Memory(e)) => Err(e),
    }
}

// What was found for a type or for an operator on literals, as an outcome.
fn type_outcome(
    table: &Table,
    found: Result<Option<Id>, TypeRefused>,
) -> Result<Outcome, AllocError>
    ensures { (o : TypeOutcome Tree) → Answers table.now found o → IfOk result (IsOutcome table.now (low_outcome (typed_outcome o))) }
{
    table.laws();
    match found {
        Ok(Some(id)) => Ok(Outcome::Value(id)),
        Ok(None) => Ok(Outcome::Stuck),
        Err(TypeRefused::NumberRange) => Ok(Outcome::Range),
        Err(TypeRefused::Tall) => Ok(Outcome::Tall),
        Err(TypeRefused::Memory(e)) => Err(e),
    }
}

// The same for a type that has to be a value.
fn value_type_outcome(
    table: &Table,
    found: Result<Option<Id>, TypeRefused>,
) -> Result<Outcome, AllocError>
    requires { IfOk found (λ o. IfSome o (λ i. i < length table.now.trees)) }
    ensures { (o : TypeOutcome Tree) → Answers table.now found o →
        IfOk result (IsOutcome table.now (low_outcome (typed_outcome (on_typed o (λ t. typed_if (is_value t) t))))) }
{
    match found {
        Ok(Some(id)) => Ok(if table.is_value(id) {
            Outcome::Value(id)
        } else {
            Outcome::Stuck
        }),
        Ok(None) => Ok(Outcome::Stuck),
        Err(TypeRefused::NumberRange) => Ok(Outcome::Range),
        Err(TypeRefused::Tall) => Ok(Outcome::Tall),
        Err(TypeRefused::Memory(e)) => Err(e),
    }
}

// What was found for an operator on lists, as an outcome.
fn list_outcome(
    table: &Table,
    found: Result<Option<Id>, TermRefused>,
) -> Result<Outcome, AllocError>
    ensures { (o : Option Tree) → GivesList table.now found o → IfOk result (IsOutcome table.now (low_outcome (value_or o Stuck))) }
{
    table.laws();
    match found {
        Ok(Some(id)) => Ok(Outcome::Value(id)),
        Ok(None) => Ok(Outcome::Stuck),
        Err(TermRefused::Tall) => Ok(Outcome::Tall),
        Err(TermRefused::Memory(e)) => Err(e),
    }
}
