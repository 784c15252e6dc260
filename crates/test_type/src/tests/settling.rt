//! Terms and what they are settled to.
use super::world::{World, holds};
use eo_term::{BOOL, FALSE, Id, OpName, TRUE};
use std::test::Fail;

#[test]
fn each_branch_is_settled(rt: HostRuntime) -> Result<(), Fail> {
    assert!(rt; holds(rt.alloc(), branches_are_settled)?);
    Ok(())
}

// Choices, of which one has a stuck branch that is not taken, and an operator with a parameter.
fn branches_are_settled(w: &mut World) -> Result<bool, Fail> {
    let zero = w.num(0)?;
    let stuck = w.op(OpName::Zdiv, &[zero, zero])?;
    let taken = w.op(OpName::Ite, &[TRUE, zero, BOOL])?;
    let other = w.op(OpName::Ite, &[FALSE, zero, BOOL])?;
    let neither = w.op(OpName::Ite, &[BOOL, zero, BOOL])?;
    let untaken = w.op(OpName::Ite, &[TRUE, zero, stuck])?;
    let open = w.par(0)?;
    let kept = w.op(OpName::Neg, &[open])?;
    settle_to(
        w,
        &[
            (taken, Some(zero)),
            (other, Some(BOOL)),
            (neither, None),
            (untaken, None),
            (kept, Some(kept)),
        ],
    )
}

// Whether each term is settled to the term beside it, or not at all.
fn settle_to(w: &mut World, rows: &[(Id, Option<Id>)]) -> Result<bool, Fail> {
    for (id, settled) in rows {
        if w.settle(*id)? != *settled {
            return Ok(false);
        }
    }
    Ok(true)
}
