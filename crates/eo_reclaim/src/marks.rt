//! Marks of what was held when each open scope began.
ghost use Rattle.std.specs.Prelude.{◌≡◌, [], ◌∷◌, IfSome, IfNone, OnOk, OnErr};

use crate::ScopeMark;
use std::alloc::{AllocError, Global};
use std::marker::Model;

/// A mark for each open scope. Its model has the innermost first.
#[derive(Drop)]
pub struct Marks {
    // The innermost last.
    marks: Vec<ScopeMark>,
}

impl Model for Marks {
    ghost use Rattle.std.specs.Prelude.{List, reverse};
    ghost use Rattle.eo_reclaim.specs.declared.ScopeMark.{ScopeMark};

    ghost Value = { List ScopeMark };

    ghost view = { λ a. reverse a.marks.items };
}

impl Marks {
    /// No marks.
    pub fn new(alloc: Global) -> Marks
        ensures { result ≡ [] }
    {
        Marks {
            marks: Vec::new(alloc),
        }
    }

    /// Adds the mark of a scope that is opened.
    pub fn add(&mut self, mark: ScopeMark) -> Result<(), AllocError>
        ensures added { OnOk result (self.new ≡ mark ∷ self.old) }
        ensures err { OnErr result (self.new ≡ self.old) }
    {
        self.marks.push(mark)?;
        Ok(())
    }

    /// Takes off the mark of the innermost scope, if one is open.
    pub fn take_last(&mut self) -> Option<ScopeMark>
        ensures some { IfSome result (λ m. self.old ≡ m ∷ self.new) }
        ensures none { IfNone result (self.old ≡ []) }
        ensures same { IfNone result (self.new ≡ []) }
    {
        self.marks.pop()
    }
}
