//! What is held, substituted for the parameters of a term.
ghost use Rattle.std.specs.Prelude.{◌≡◌, ℕ, ◌<◌, ◌≤◌, [], length, true, false, None, IfOk, IfSome, IfNone, OnErr};
ghost use Rattle.eo_term.specs.Tree.{Op, Par, is_tall};
ghost use Rattle.eo_term.specs.Memo.{told};
ghost use Rattle.eo_term.specs.Refused.{IsTall};
ghost use Rattle.eo_term.specs.Terms.{tree_at};
ghost use Rattle.eo_term.specs.Growth.{Grows, tree_in};
ghost use Rattle.eo_pattern.specs.Matching.{put};
ghost use Rattle.eo_pattern.specs.Slots.{held, AreBelow, Holds, IsAssigned};
ghost use Rattle.eo_pattern.specs.Steps.{put_in, IsMade, IsPutting, IsOperator, IsStep, IsInside, AreKnown};

use crate::Subst;
use eo_base::limits::PARAMETERS;
use eo_term::{
    Id, Memo, Node, OpCode, ParamSet, Step, TYPE, Table, TermRefused, Walk, height_law, walk_law,
};

/// The term in which each parameter that has a value is replaced by it. Nothing is renamed. A part
/// without such parameters is taken as it is, and its own parts are not looked at. A part that occurs at
/// several places is looked at once.
///
/// Where there is memory, it is refused with [`TermRefused::Tall`] exactly where that term is too
/// tall. A refused call leaves the table as it is. Older terms stay what they are.
pub fn substitute(table: &mut Table, subst: &Subst, id: Id) -> Result<Id, TermRefused>
    requires live { id < length table.old.trees }
    requires below { AreBelow (length table.old.trees) subst.now }
    ensures made { IfOk result (IsMade (held table.old.trees subst.now) table.old.trees id table.new.trees) }
    ensures tall { IsTall result → is_tall (put_in table.old subst.now id) ≡ true }
    ensures err { OnErr result (table.new ≡ table.old) }
    ensures holds { Holds subst.now table.old.trees table.new.trees }
    ensures grows { Grows table.old table.new }
{
    if table.is_closed(id) {
        return Ok(id);
    }
    let mark = table.mark();
    let made = put_from(table, subst, id);
    if made.is_err() {
        table.release(mark);
    }
    made
}

// The same, but that a refused call leaves the terms that it made.
fn put_from(table: &mut Table, subst: &Subst, id: Id) -> Result<Id, TermRefused>
    requires live { id < length table.old.trees }
    requires below { AreBelow (length table.old.trees) subst.now }
    ensures made { IfOk result (IsMade (held table.old.trees subst.now) table.old.trees id table.new.trees) }
    ensures tall { IsTall result → is_tall (put_in table.old subst.now id) ≡ true }
    ensures grows { Grows table.old table.new }
{
    table.laws();
    let assigned = subst.assigned_params();
    if table.parameters(id).is_apart(assigned) {
        return Ok(id);
    }
    let mut walk = Walk::new(subst.alloc, id);
    put_walk(table, subst, &assigned, &mut walk)
}

// The same, as a walk over its parts.
fn put_walk(
    table: &mut Table,
    subst: &Subst,
    assigned: &ParamSet,
    walk: &mut Walk,
) -> Result<Id, TermRefused>
    requires live { walk.old.top < length table.old.trees }
    requires below { AreBelow (length table.old.trees) subst.now }
    requires assigned { IsAssigned assigned.now subst.now }
    requires told { (k : ℕ) → told walk.old.memo k ≡ None }
    requires waiting { walk.old.waiting ≡ [] }
    ensures made { IfOk result (IsMade (held table.old.trees subst.now) table.old.trees walk.old.top table.new.trees) }
    ensures tall { IsTall result → is_tall (put_in table.old subst.now walk.old.top) ≡ true }
    ensures grows { Grows table.old table.new }
{
    walk_law();
    loop {
        match put_node(table, subst, assigned, walk.memo(), walk.top())? {
            Step::Made(made) => {
                if !walk.finish(made)? {
                    return Ok(made);
                }
            }
            Step::Part(part) => walk.begin(part)?,
        }
    }
}

// The same for one term, where it is known what its parts become.
fn put_node(
    table: &mut Table,
    subst: &Subst,
    assigned: &ParamSet,
    memo: &Memo,
    id: Id,
) -> Result<Step, TermRefused>
    requires { IsPutting table.old subst.now assigned.now memo.now id }
    ensures step { IfOk result (λ s. IsStep (held table.old.trees subst.now) table.old.trees memo.now id table.new.trees s) }
    ensures tall { IsTall result → is_tall (put_in table.old subst.now id) ≡ true }
    ensures grows { Grows table.old table.new }
{
    table.laws();
    match table.node(id) {
        Node::Par(i) => Ok(Step::Made(put_par(table, subst, id, i))),
        Node::Var { name, ty } => {
            let Some(put) = part_result(table, subst, assigned, memo, ty) else {
                return Ok(Step::Part(ty));
            };
            let made = table.intern(Node::Var { name, ty: put })?;
            Ok(Step::Made(made))
        }
        Node::App { fun, arg } => match known_two(table, subst, assigned, memo, id, fun, arg) {
            Ok((fun, arg)) => {
                let made = table.intern(Node::App { fun, arg })?;
                Ok(Step::Made(made))
            }
            Err(part) => Ok(Step::Part(part)),
        },
        Node::Arr { from, to } => match known_two(table, subst, assigned, memo, id, from, to) {
            Ok((from, to)) => {
                let made = table.intern(Node::Arr { from, to })?;
                Ok(Step::Made(made))
            }
            Err(part) => Ok(Step::Part(part)),
        },
        Node::Qar { par, ty, to } => match known_two(table, subst, assigned, memo, id, ty, to) {
            Ok((ty, to)) => {
                let made = table.intern(Node::Qar { par, ty, to })?;
                Ok(Step::Made(made))
            }
            Err(part) => Ok(Step::Part(part)),
        },
        Node::Op { code, count } => put_op(table, subst, assigned, memo, id, code, count as usize),
        Node::Con(_) => Ok(Step::Made(id)),
        Node::Num(_) => Ok(Step::Made(id)),
        Node::Bits { .. } => Ok(Step::Made(id)),
        Node::Str(_) => Ok(Step::Made(id)),
    }
}

// The operator `id` over its arguments with what is held substituted.
fn put_op(
    table: &mut Table,
    subst: &Subst,
    assigned: &ParamSet,
    memo: &Memo,
    id: Id,
    code: OpCode,
    count: usize,
) -> Result<Step, TermRefused>
    requires putting { IsPutting table.old subst.now assigned.now memo.now id }
    requires operator { IsOperator (tree_in table.old id) code count }
    ensures step { IfOk result (λ s. IsStep (held table.old.trees subst.now) table.old.trees memo.now id table.new.trees s) }
    ensures tall { IsTall result → is_tall (put_in table.old subst.now id) ≡ true }
    ensures grows { Grows table.old table.new }
{
    height_law();
    let mut args = [TYPE; PARAMETERS];
    for i in 0..count {
        let arg = table.arg(id, i);
        let Some(put) = part_result(table, subst, assigned, memo, arg) else {
            return Ok(Step::Part(arg));
        };
        args[i] = put;
    }
    let made = table.intern_op(code, &args[..count])?;
    Ok(Step::Made(made))
}

// What two parts of the term `id` become, or the first of them that has to be made before.
fn known_two(
    table: &Table,
    subst: &Subst,
    assigned: &ParamSet,
    memo: &Memo,
    id: Id,
    first: Id,
    second: Id,
) -> Result<(Id, Id), Id>
    requires putting { IsPutting table.now subst.now assigned.now memo.now id }
    requires first { IsInside (held table.now.trees subst.now) table.now.trees id first }
    requires second { IsInside (held table.now.trees subst.now) table.now.trees id second }
    ensures { AreKnown (held table.now.trees subst.now) table.now.trees memo.now id first second result }
{
    let Some(put_first) = part_result(table, subst, assigned, memo, first) else {
        return Err(first);
    };
    let Some(put_second) = part_result(table, subst, assigned, memo, second) else {
        return Err(second);
    };
    Ok((put_first, put_second))
}

// What the part of a term becomes, where that is known without its own parts.
fn part_result(table: &Table, subst: &Subst, assigned: &ParamSet, memo: &Memo, id: Id) -> Option<Id>
    requires { IsPutting table.now subst.now assigned.now memo.now id }
    ensures live { IfSome result (λ i. i < length table.now.trees) }
    ensures tree { IfSome result (λ i. tree_in table.now i ≡ put_in table.now subst.now id) }
    ensures untold { IfNone result (told memo.now id ≡ None) }
{
    if table.parameters(id).is_apart(*assigned) {
        return Some(id);
    }
    if let Node::Par(i) = table.node(id) {
        return Some(put_par(table, subst, id, i));
    }
    memo.get(id)
}

// What the parameter `id`, whose number is `i`, becomes.
fn put_par(table: &Table, subst: &Subst, id: Id, i: u8) -> Id
    requires live { id < length table.now.trees }
    requires below { AreBelow (length table.now.trees) subst.now }
    requires tree { tree_at table.now.trees id ≡ Par i }
    ensures live { result < length table.now.trees }
    ensures tree { tree_in table.now result ≡ put_in table.now subst.now id }
    ensures low { is_tall (put_in table.now subst.now id) ≡ false }
{
    table.laws();
    match subst.get(i as usize) {
        Some(term) => term,
        None => id,
    }
}
