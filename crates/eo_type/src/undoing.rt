//! Freeing what a refused call made.
ghost use Rattle.std.specs.Prelude.{◌≡◌, filter};
ghost use Rattle.eo_term.specs.Terms.{IsMark};
ghost use Rattle.eo_type.specs.Known.{is_before};
ghost use Rattle.eo_type.specs.Undoing.{Undoes};

use crate::Types;
use eo_sig::growth_law;
use eo_term::{Mark, Table};

impl Types {
    /// Drops the terms that were made after the mark, and exactly the types that name one of them: so
    /// a call that is refused leaves the table as it was, and keeps each type that was kept before it.
    /// It takes no memory.
    pub fn undo(&mut self, table: &mut Table, mark: Mark)
        requires { IsMark table.old mark }
        ensures left { self.new ≡ filter (is_before mark.0) self.old }
        ensures undone { Undoes table.old self.old mark table.new self.new }
    {
        growth_law();
        table.release(mark);
        self.forget(mark);
    }
}
