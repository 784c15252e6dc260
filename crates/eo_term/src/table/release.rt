//! Freeing terms: a table is cut at a mark, and what is still needed stays.
ghost use Rattle.std.specs.Prelude.{◌≡◌, ℕ, ◌<◌, ◌≤◌, [], ◌∷◌, length, take, All, IfOk, OnOk, OnErr};
ghost use Rattle.eo_term.specs.Terms.{tree_at, IsMark};
ghost use Rattle.eo_term.specs.Carry.{Carried};
ghost use Rattle.eo_term.specs.Growth.{GoesBack};

use super::Table;
use crate::carry::{cut_texts, move_ids, plan_carry, put_entries};
use crate::{Id, Mark};
use std::alloc::AllocError;

impl Table {
    /// Drops the terms and the texts that were made after the mark. Older ones stay as they are: a
    /// call that is refused frees what it made, and leaves the table as it was.
    pub fn release(&mut self, mark: Mark)
        requires { IsMark self.old mark }
        ensures trees { self.new.trees ≡ take mark.0 self.old.trees }
        ensures texts { self.new.texts ≡ take mark.1 self.old.texts }
        ensures marks { (m : ℕ × ℕ) → m.0 ≤ mark.0 → m.1 ≤ mark.1 → IsMark self.old m → IsMark self.new m }
        ensures back { GoesBack self.old mark self.new }
    {
        self.nodes.cut(mark.terms);
        self.texts.truncate(mark.texts);
    }

    /// Releases to the mark, but keeps the trees of some terms, whose numbers are replaced by new ones.
    /// Of the newer texts those stay that the trees use. It costs what was made after the mark, and
    /// nothing where nothing was. `Err` is out of memory, and all stays as it is.
    #[tactic(auto, using(crate::proofs::Carried::nothing_carried))]
    pub fn carry_all(&mut self, mark: Mark, ids: &mut [Id]) -> Result<(), AllocError>
        requires mark { IsMark self.old mark }
        requires live { All (λ j. j < length self.old.trees) ids.old }
        ensures ok { OnOk result (Carried self.old mark ids.old ids.new self.new) }
        ensures err { OnErr result (self.new ≡ self.old) }
        ensures ids_err { OnErr result (ids.new ≡ ids.old) }
    {
        self.laws();
        if self.nodes.len() == mark.terms {
            self.release(mark);
            return Ok(());
        }
        self.carry_newer(mark, ids)
    }

    // The same where terms were made after the mark.
    fn carry_newer(&mut self, mark: Mark, ids: &mut [Id]) -> Result<(), AllocError>
        requires mark { IsMark self.old mark }
        requires live { All (λ j. j < length self.old.trees) ids.old }
        ensures ok { OnOk result (Carried self.old mark ids.old ids.new self.new) }
        ensures err { OnErr result (self.new ≡ self.old) }
        ensures ids_err { OnErr result (ids.new ≡ ids.old) }
    {
        let (start, first) = (mark.terms, mark.texts);
        let plan = plan_carry(self.alloc, &self.nodes, self.texts.len(), start, first, ids)?;
        self.nodes.reserve(plan.entries.len())?;
        cut_texts(&mut self.texts, first, plan.texts.as_slice())?;
        self.nodes.cut(start);
        put_entries(&mut self.nodes, plan.entries);
        move_ids(ids, &plan.places);
        Ok(())
    }

    /// Releases to the mark, but keeps the tree of one term, and returns its new number. `Err` is out of
    /// memory, and the table stays as it is.
    pub fn carry(&mut self, mark: Mark, id: Id) -> Result<Id, AllocError>
        requires mark { IsMark self.old mark }
        requires live { id < length self.old.trees }
        ensures carried { IfOk result (λ i. Carried self.old mark (id ∷ []) (i ∷ []) self.new) }
        ensures live { IfOk result (λ i. i < length self.new.trees) }
        ensures tree { IfOk result (λ i. tree_at self.new.trees i ≡ tree_at self.old.trees id) }
        ensures err { OnErr result (self.new ≡ self.old) }
    {
        let mut ids = [id];
        self.carry_all(mark, &mut ids)?;
        Ok(ids[0])
    }
}
