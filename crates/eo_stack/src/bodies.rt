//! Bodies of calls.
ghost use Rattle.std.specs.Prelude.{◌≡◌, ◌<◌, ◌≤◌, length, map, All, None, Some, false};
ghost use Rattle.std.specs.Prelude.{IfOk, IfSome, OnOk, IsTrue, IsFalse};
ghost use Rattle.eo_term.specs.Tree.{is_tall};
ghost use Rattle.eo_term.specs.Growth.{tree_in, trees_in};
ghost use Rattle.eo_sig.specs.Reading.{CaseBelow, IsBelow, read_case, signature};
ghost use Rattle.eo_pattern.specs.Matching.{empty, matching};
ghost use Rattle.eo_pattern.specs.Slots.{held, AreBelow, SlotBelow};
ghost use Rattle.eo_pattern.specs.Steps.{put_in};
ghost use Rattle.eo_stack.specs.Bodies.{Finds, first_case, chosen_case};
ghost use Rattle.eo_stack.specs.Scopes.{IsValueSlot, IsLightSlot};

use eo_pattern::{Subst, match_with_room, putting_law};
use eo_sig::{Case, Signature};
use eo_term::{HEIGHT_LIMIT, Id, Table};
use std::alloc::AllocError;

/// The body of the first case whose patterns match these values. The values of its parameters are
/// then held.
pub fn find_body(
    sig: &Signature,
    table: &Table,
    subst: &mut Subst,
    program: usize,
    args: &[Id],
) -> Result<Option<Id>, AllocError>
    requires args { All (λ i. i < length table.now.trees) args.now }
    requires below { IsBelow (length table.now.trees) sig.now }
    ensures found { IfOk result (λ o. Finds table.now subst.new o (chosen_case (signature table.now.trees sig.now) (record {
      program = program;
      arguments =
          trees_in table.now args.now;
    }))) }
{
    sig.laws();
    if program >= sig.programs() {
        return Ok(None);
    }
    first_body(table, subst, sig.program(program).cases.as_slice(), args)
}

// The same, of these cases.
fn first_body(
    table: &Table,
    subst: &mut Subst,
    cases: &[Case],
    args: &[Id],
) -> Result<Option<Id>, AllocError>
    requires cases { All (CaseBelow (length table.now.trees)) cases.now }
    requires args { All (λ i. i < length table.now.trees) args.now }
    ensures found { IfOk result (λ o. Finds table.now subst.new o
        (first_case (map (read_case table.now.trees) cases.now) (trees_in table.now args.now))) }
{
    for case in cases {
        if is_match(table, subst, case.patterns.as_slice(), args)? {
            return Ok(Some(case.body));
        }
    }
    Ok(None)
}

/// Whether the body of a call may be evaluated under what is held: all that parameters are given
/// are values, and with them substituted it is not too tall.
pub fn fits_unsubstituted(table: &Table, subst: &Subst, body: Id) -> bool
    requires live { body < length table.now.trees }
    requires below { AreBelow (length table.now.trees) subst.now }
    ensures low { IsTrue result → is_tall (put_in table.now subst.now body) ≡ false }
    ensures values { IsTrue result → All (IsValueSlot table.now.trees) subst.now.values }
{
    putting_law();
    let Some(tallest) = tallest_value(table, subst.slots()) else {
        return false;
    };
    table.height(body) + tallest <= HEIGHT_LIMIT + 1
}

// The height of the tallest of the values of parameters, or of a leaf; none, where any is no
// value.
fn tallest_value(table: &Table, slots: &[Option<Id>]) -> Option<u32>
    requires below { All (SlotBelow (length table.now.trees)) slots.now }
    ensures some { IfSome result (λ h. 1 ≤ h) }
    ensures low { IfSome result (λ h. h ≤ HEIGHT_LIMIT) }
    ensures all { IfSome result (λ h. All (IsLightSlot table.now.trees h) slots.now) }
{
    let mut tallest = 1;
    for slot in slots {
        let Some(height) = value_height(table, slot) else {
            return None;
        };
        tallest = height.max(tallest);
    }
    Some(tallest)
}

// The height of the value of a parameter, or of a leaf; none, where it is no value.
fn value_height(table: &Table, slot: &Option<Id>) -> Option<u32>
    requires { SlotBelow (length table.now.trees) slot.now }
    ensures some { IfSome result (λ h. 1 ≤ h) }
    ensures low { IfSome result (λ h. h ≤ HEIGHT_LIMIT) }
    ensures light { IfSome result (λ h. IsLightSlot table.now.trees h slot.now) }
{
    let Some(id) = *slot else {
        return Some(1);
    };
    if !table.is_value(id) {
        return None;
    }
    Some(table.height(id).max(1))
}

// Whether these patterns match. The values of their parameters are then held.
fn is_match(
    table: &Table,
    subst: &mut Subst,
    patterns: &[Id],
    args: &[Id],
) -> Result<bool, AllocError>
    requires patterns { All (λ i. i < length table.now.trees) patterns.now }
    requires args { All (λ i. i < length table.now.trees) args.now }
    ensures yes { IfOk result (λ b. IsTrue b → matching empty (trees_in table.now patterns.now) (trees_in table.now args.now)
        ≡ Some (held table.now.trees subst.new)) }
    ensures no { IfOk result (λ b. IsFalse b → matching empty (trees_in table.now patterns.now) (trees_in table.now args.now) ≡ None) }
    ensures below { OnOk result (AreBelow (length table.now.trees) subst.new) }
{
    subst.clear();
    match_with_room(table, subst, patterns, args)
}
