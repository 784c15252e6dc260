//! Evaluations that lines list, and their parts.
ghost use Rattle.std.specs.Prelude.{◌≡◌, ℕ, ◌+◌, ◌<◌, ◌≤◌, [], ◌∷◌, List, length, map, All, Option, Some, None, option_map};
ghost use Rattle.std.specs.Prelude.{IfSome, IfOk, OnOk, MatchOption};
ghost use Rattle.eo_term.specs.Growth.{tree_in};
ghost use Rattle.eo_term.specs.Tree.{Tree};
ghost use Rattle.eo_sig.specs.Reading.{SomeBelow};
ghost use Rattle.eo_cert.specs.Blocks.{same_outcome};
ghost use Rattle.eo_stated.specs.Checking.{stated_of, read_evaluated, IsHeld, EvaluatedBelow, IsShallow};
ghost use Rattle.eo_cert.specs.Rules.{part, next, deepest};
ghost use Rattle.eo_cert.specs.Stated as stated;
ghost use Rattle.eo_cert.specs.Stated.{if_there, each, with_evaluated};

use crate::checker::{Checker, Evaluated};
use eo_term::Id;
use std::alloc::AllocError;

/// What a part gives.
#[derive(Clone, Copy)]
pub struct Part<'a> {
    /// Its value, and none where it is stuck.
    pub outcome: Option<Id>,
    /// The evaluations that are left.
    pub rest: &'a [Evaluated],
}

impl Checker {
    /// The term that a number names, if there is a number.
    pub fn outcome_at(&self, number: Option<u64>) -> Option<Option<Id>>
        requires { IsHeld self.now }
        ensures outcome { option_map (option_map (tree_in self.now.table)) result
            ≡ if_there (stated.term_at (stated_of self.now)) number }
        ensures live { IfSome result (SomeBelow (length self.now.table.trees)) }
    {
        match number {
            None => Some(None),
            Some(number) => {
                let id = self.term_at(number)?;
                Some(Some(id))
            }
        }
    }

    /// The line of the block that a number names.
    pub fn evaluated_at(&self, number: u64) -> Option<Evaluated>
        requires { IsHeld self.now }
        ensures evaluated { option_map (read_evaluated self.now.table.trees) result ≡ stated.evaluated_at (stated_of self.now) number }
        ensures below { IfSome result (EvaluatedBelow (length self.now.table.trees)) }
        ensures shallow { IfSome result (IsShallow (length self.now.block.items)) }
    {
        self.block.get(number as usize).copied()
    }

    /// The lines of the block that numbers name.
    pub fn listed_at(&self, numbers: &[u64]) -> Result<Option<Vec<Evaluated>>, AllocError>
        requires { IsHeld self.now }
        ensures listed { IfOk result (λ o. option_map (λ v. map (read_evaluated self.now.table.trees) v.items) o
            ≡ each (stated.evaluated_at (stated_of self.now)) numbers.now) }
        ensures below { IfOk result (λ o. IfSome o (λ v. All (EvaluatedBelow (length self.now.table.trees)) v.items)) }
        ensures shallow { IfOk result (λ o. IfSome o (λ v. All (IsShallow (length self.now.block.items)) v.items)) }
    {
        let mut listed = Vec::new(self.alloc);
        for number in numbers {
            let Some(evaluated) = self.evaluated_at(*number) else {
                return Ok(None);
            };
            listed.push(evaluated)?;
        }
        Ok(Some(listed))
    }

    /// One line more of the block.
    pub fn push_evaluated(
        &mut self,
        term: Id,
        outcome: Option<Id>,
        depth: usize,
    ) -> Result<(), AllocError>
        requires held { IsHeld self.old }
        requires term { term < length self.old.table.trees }
        requires outcome { SomeBelow (length self.old.table.trees) outcome }
        requires depth { depth ≤ length self.old.block.items + 1 }
        ensures held { OnOk result (IsHeld self.new) }
        ensures does { OnOk result (stated_of self.new ≡ with_evaluated (stated_of self.old)
            (record {
              term = tree_in self.old.table term;
              outcome = option_map (tree_in self.old.table) outcome;
              depth = depth;
            })) }
    {
        self.block.push(Evaluated {
            term,
            outcome,
            depth,
        })?;
        Ok(())
    }

    /// Whether these are the same value, or both none.
    pub fn is_same_outcome(&self, a: Option<Id>, b: Option<Id>) -> bool
        requires first { SomeBelow (length self.now.table.trees) a }
        requires second { SomeBelow (length self.now.table.trees) b }
        ensures { result ≡ same_outcome (option_map (tree_in self.now.table) a) (option_map (tree_in self.now.table) b) }
    {
        match (a, b) {
            (None, None) => true,
            (Some(a), Some(b)) => self.table.is_same(a, b),
            _ => false,
        }
    }

    /// What a part gives: a value itself, any other part by the next evaluation that is listed.
    pub fn part<'a>(&self, id: Id, listed: &'a [Evaluated]) -> Option<Part<'a>>
        requires live { id < length self.now.table.trees }
        requires listed { All (EvaluatedBelow (length self.now.table.trees)) listed.now }
        ensures part { MatchOption result
            (part (tree_in self.now.table id) (map (read_evaluated self.now.table.trees) listed.now) ≡ None)
            (λ p. part (tree_in self.now.table id) (map (read_evaluated self.now.table.trees) listed.now)
            ≡ Some (option_map (tree_in self.now.table) p.outcome, map (read_evaluated self.now.table.trees) p.rest.now)) }
        ensures below { IfSome result (λ p. SomeBelow (length self.now.table.trees) p.outcome
            × All (EvaluatedBelow (length self.now.table.trees)) p.rest.now) }
    {
        if self.table.is_value(id) {
            return Some(Part {
                outcome: Some(id),
                rest: listed,
            });
        }
        self.next(id, listed)
    }

    // What the next evaluation gives, which is of this term.
    fn next<'a>(&self, id: Id, listed: &'a [Evaluated]) -> Option<Part<'a>>
        requires live { id < length self.now.table.trees }
        requires listed { All (EvaluatedBelow (length self.now.table.trees)) listed.now }
        ensures part { MatchOption result
            (next (tree_in self.now.table id) (map (read_evaluated self.now.table.trees) listed.now) ≡ None)
            (λ p. next (tree_in self.now.table id) (map (read_evaluated self.now.table.trees) listed.now)
            ≡ Some (option_map (tree_in self.now.table) p.outcome, map (read_evaluated self.now.table.trees) p.rest.now)) }
        ensures below { IfSome result (λ p. SomeBelow (length self.now.table.trees) p.outcome
            × All (EvaluatedBelow (length self.now.table.trees)) p.rest.now) }
    {
        match listed {
            [] => None,
            [first, rest @ ..] => {
                if !self.table.is_same(first.term, id) {
                    return None;
                }
                Some(Part {
                    outcome: first.outcome,
                    rest,
                })
            }
        }
    }
}

/// The greatest depth of those.
pub fn deepest_of(listed: &[Evaluated]) -> usize
    ensures deepest { (ts : List Tree) → result ≡ deepest (map (read_evaluated ts) listed.now) }
    ensures shallow { (n : ℕ) → All (IsShallow n) listed.now → result ≤ n }
{
    let mut depth = 0;
    for evaluated in listed {
        depth = evaluated.depth.max(depth);
    }
    depth
}
