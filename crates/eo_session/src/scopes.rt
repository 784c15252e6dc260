//! Scopes that are opened and closed.
ghost use Rattle.std.specs.Prelude.{◌≡◌, ◌<◌, nat_lt};
ghost use Rattle.eo_proof.specs.Scopes.{depth, scope_limit};
ghost use Rattle.eo_session.specs.Store.{state_of, IsConsistent};
ghost use Rattle.eo_session.specs.State.{without_scope};

use crate::store::Store;
use eo_base::limits::SCOPES;

impl Store {
    /// Whether one more scope may be opened.
    pub(crate) fn has_room(&self) -> bool
        ensures { result ≡ nat_lt (depth (state_of self.now).scopes) scope_limit }
    {
        self.facts.depth() < SCOPES
    }

    /// Closes the innermost scope with its facts and macros. Its terms are freed with those of
    /// the command that closes it. Where no scope is open, nothing changes.
    pub(crate) fn close_scope(&mut self)
        requires { IsConsistent self.old }
        ensures whole { IsConsistent self.new }
        ensures closed { state_of self.new ≡ without_scope (state_of self.old) }
        ensures table { self.new.table ≡ self.old.table }
    {
        let _ = self.facts.pop();
        let Some(mark) = self.marks.take_last() else {
            return;
        };
        self.signature.release(mark.macros);
        self.kept = mark.table;
    }
}
