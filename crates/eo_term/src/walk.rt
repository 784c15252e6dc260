//! Walks over the parts of a term, without recursion.
ghost use Rattle.std.specs.Prelude.{◌≡◌, ℕ, [], None, IsTrue, IsFalse, IfOk, OnOk};
ghost use Rattle.eo_term.specs.Memo.{told};
ghost use Rattle.eo_term.specs.Walk.{Begins, Finishes, WalksOn};

use crate::{Id, Memo};
use std::alloc::{AllocError, Global};
use std::marker::Model;

/// What became of the term that a walk looks at.
#[derive(Clone, Copy)]
pub enum Step {
    /// This term is made for it.
    Made(Id),
    /// This part of it is needed first.
    Part(Id),
}

/// A walk that finds a term for a term, from what it found for its parts: a term is looked at; where
/// a part is needed first, that part is looked at, and the term waits for it. What was found is
/// kept, so each term is looked at until it is found, and then never again.
#[derive(Drop)]
pub struct Walk {
    memo: Memo,
    waiting: Vec<Id>,
    top: Id,
}

impl Model for Walk {
    ghost use Rattle.eo_term.specs.Walk.{Visits};

    ghost Value = { Visits };

    ghost view = { λ a. record { memo = a.memo; waiting = a.waiting.items; top = a.top } };
}

impl Walk {
    /// A walk that looks at the term. No memory is taken.
    pub fn new(alloc: Global, id: Id) -> Walk
        ensures told { (k : ℕ) → told result.memo k ≡ None }
        ensures waiting { result.waiting ≡ [] }
        ensures top { result.top ≡ id }
    {
        Walk {
            memo: Memo::new(alloc),
            waiting: Vec::new(alloc),
            top: id,
        }
    }

    /// The term that is looked at.
    pub fn top(&self) -> Id
        ensures { result ≡ self.now.top }
    {
        self.top
    }

    /// What was found so far.
    pub fn memo(&self) -> &Memo
        ensures { result.now ≡ self.now.memo }
    {
        &self.memo
    }

    /// Looks at a part of the term that is looked at, which waits for it. `Err`: out of memory.
    pub fn begin(&mut self, part: Id) -> Result<(), AllocError>
        ensures { OnOk result (Begins self.old part self.new) }
    {
        self.waiting.push(self.top)?;
        self.top = part;
        Ok(())
    }

    /// Keeps what was found for the term that is looked at, and looks at the one that waited for it.
    /// `false`: none waited, and the walk stays as it is. `Err`: out of memory.
    pub fn finish(&mut self, found: Id) -> Result<bool, AllocError>
        ensures next { IfOk result (λ b. IsTrue b → Finishes self.old found self.new) }
        ensures last { IfOk result (λ b. IsFalse b → self.old.waiting ≡ []) }
        ensures same { IfOk result (λ b. IsFalse b → self.new ≡ self.old) }
    {
        let Some(next) = self.waiting.pop() else {
            return Ok(false);
        };
        self.memo.keep(self.top, found)?;
        self.top = next;
        Ok(true)
    }
}

/// A law: a walk over the parts of a term ends. A call costs nothing: it gives a proof this fact.
pub fn walk_law()
    ensures { (n id : ℕ) → WalksOn n id }
{}
