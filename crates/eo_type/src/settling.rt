//! Settling: each operator without parameters becomes its value.
ghost use Rattle.std.specs.Prelude.{◌≡◌, ℕ, ◌<◌, [], length, false, None, All, OnErr};
ghost use Rattle.eo_term.specs.Tree.{Op, is_tall, to_trees};
ghost use Rattle.eo_term.specs.Memo.{told, TellsOnly};
ghost use Rattle.eo_term.specs.Terms.{HasArity};
ghost use Rattle.eo_term.specs.Growth.{tree_in, trees_in, Grows};
ghost use Rattle.eo_type.specs.Types.{settle, settled_op};
ghost use Rattle.eo_type.specs.Outcomes.{Yields, Answers, IsTall};
ghost use Rattle.eo_type.specs.Steps.{IsSettled, IsOperator, Knows, GivesStep};

use crate::TypeRefused;
use crate::leaves::are_closed;
use crate::operators::op_value;
use crate::refused::{Stop, answer};
use eo_base::limits::PARAMETERS;
use eo_sig::Signature;
use eo_term::{Id, Memo, Node, OpCode, Step, TYPE, Table, Walk, walk_law};
use std::alloc::Global;

/// The term in which each operator without parameters is replaced by its value, the innermost and
/// leftmost first; `None`, where one of them has none.
///
/// Operators have the values of the Ethos manual's table, but for those that no declared type may
/// hold, and for programs: they have none here, so that no signature is needed. A part with
/// no operator is taken as it is, and its own parts are not looked at. A part that occurs at several
/// places is looked at once.
///
/// `NumberRange`: a value is out of range. `Tall` never comes, since no term becomes taller.
/// `Memory`: out of memory. Where it is refused, the table is as it was.
pub fn settle(
    alloc: Global,
    _sig: &Signature,
    table: &mut Table,
    id: Id,
) -> Result<Option<Id>, TypeRefused>
    requires { id < length table.old.trees }
    ensures answers { Answers table.new result (settle (tree_in table.old id)) }
    ensures never_tall { IsTall result → ⊥ }
    ensures refused { OnErr result (table.new ≡ table.old) }
    ensures grows { Grows table.old table.new }
{
    let mark = table.mark();
    match answer(settle_term(alloc, table, id)) {
        Ok(settled) => Ok(settled),
        Err(e) => {
            table.release(mark);
            Err(e)
        }
    }
}

/// The same, as a walk.
pub(crate) fn settle_term(alloc: Global, table: &mut Table, id: Id) -> Result<Id, Stop>
    requires { id < length table.old.trees }
    ensures { Yields table.old table.new result (settle (tree_in table.old id)) }
{
    if table.is_plain(id) {
        return Ok(id);
    }
    let mut walk = Walk::new(alloc, id);
    settle_walk(alloc, table, &mut walk)
}

// The same, over the parts.
fn settle_walk(alloc: Global, table: &mut Table, walk: &mut Walk) -> Result<Id, Stop>
    requires live { walk.old.top < length table.old.trees }
    requires told { (k : ℕ) → told walk.old.memo k ≡ None }
    requires waiting { walk.old.waiting ≡ [] }
    ensures { Yields table.old table.new result (settle (tree_in table.old walk.old.top)) }
{
    walk_law();
    loop {
        match settle_node(alloc, table, walk.memo(), walk.top())? {
            Step::Made(made) => {
                if !walk.finish(made)? {
                    return Ok(made);
                }
            }
            Step::Part(part) => walk.begin(part)?,
        }
    }
}

// The same for one term, where its parts are known.
fn settle_node(alloc: Global, table: &mut Table, memo: &Memo, id: Id) -> Result<Step, Stop>
    requires live { id < length table.old.trees }
    requires memo { TellsOnly (IsSettled table.old) memo.now }
    ensures gives { GivesStep table.old memo.now id table.new result }
    ensures grows { Grows table.old table.new }
{
    table.laws();
    match table.node(id) {
        Node::Var { name, ty } => {
            let Some(settled) = part_settled(table, memo, ty) else {
                return Ok(Step::Part(ty));
            };
            let made = table.intern_low(Node::Var { name, ty: settled })?;
            Ok(Step::Made(made))
        }
        Node::App { fun, arg } => {
            let Some(first) = part_settled(table, memo, fun) else {
                return Ok(Step::Part(fun));
            };
            let Some(second) = part_settled(table, memo, arg) else {
                return Ok(Step::Part(arg));
            };
            let made = table.intern_low(Node::App {
                fun: first,
                arg: second,
            })?;
            Ok(Step::Made(made))
        }
        Node::Arr { from, to } => {
            let Some(first) = part_settled(table, memo, from) else {
                return Ok(Step::Part(from));
            };
            let Some(second) = part_settled(table, memo, to) else {
                return Ok(Step::Part(to));
            };
            let made = table.intern_low(Node::Arr {
                from: first,
                to: second,
            })?;
            Ok(Step::Made(made))
        }
        Node::Qar { par, ty, to } => {
            let Some(first) = part_settled(table, memo, ty) else {
                return Ok(Step::Part(ty));
            };
            let Some(second) = part_settled(table, memo, to) else {
                return Ok(Step::Part(to));
            };
            let made = table.intern_low(Node::Qar {
                par,
                ty: first,
                to: second,
            })?;
            Ok(Step::Made(made))
        }
        Node::Op { code, count } => settle_op(alloc, table, memo, id, code, count as usize),
        Node::Par(_) => Ok(Step::Made(id)),
        Node::Con(_) => Ok(Step::Made(id)),
        Node::Num(_) => Ok(Step::Made(id)),
        Node::Bits { .. } => Ok(Step::Made(id)),
        Node::Str(_) => Ok(Step::Made(id)),
    }
}

// The operator `id`, its arguments settled from left to right.
fn settle_op(
    alloc: Global,
    table: &mut Table,
    memo: &Memo,
    id: Id,
    code: OpCode,
    count: usize,
) -> Result<Step, Stop>
    requires live { id < length table.old.trees }
    requires operator { IsOperator table.old id code count }
    requires memo { TellsOnly (IsSettled table.old) memo.now }
    ensures gives { GivesStep table.old memo.now id table.new result }
    ensures grows { Grows table.old table.new }
{
    let mut args = [TYPE; PARAMETERS];
    for i in 0..count {
        let arg = table.arg(id, i);
        let Some(settled) = part_settled(table, memo, arg) else {
            return Ok(Step::Part(arg));
        };
        args[i] = settled;
    }
    let made = settled_op(alloc, table, code, &args[..count])?;
    Ok(Step::Made(made))
}

// What the part of a term settles to, where that is known without its own parts.
fn part_settled(table: &Table, memo: &Memo, id: Id) -> Option<Id>
    requires live { id < length table.now.trees }
    requires memo { TellsOnly (IsSettled table.now) memo.now }
    ensures { Knows table.now memo.now id result }
{
    if table.is_plain(id) {
        return Some(id);
    }
    memo.get(id)
}

// An operator whose arguments are settled.
fn settled_op(alloc: Global, table: &mut Table, code: OpCode, args: &[Id]) -> Result<Id, Stop>
    requires count { HasArity code (length args.now) }
    requires args { All (λ i. i < length table.old.trees) args.now }
    requires low { is_tall (Op code (to_trees (trees_in table.old args.now))) ≡ false }
    ensures { Yields table.old table.new result (settled_op code (trees_in table.old args.now)) }
{
    if are_closed(table, args) {
        return op_value(alloc, table, code, args);
    }
    Ok(table.intern_low_op(code, args)?)
}
