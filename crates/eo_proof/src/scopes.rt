//! Scopes that are opened and closed.
ghost use Rattle.std.specs.Prelude.{◌≡◌, false, ℕ, ◌<◌, List, ◌∷◌, ◌++◌, [], IfOk, IfSome, IfNone, OnOk, OnErr};
ghost use Rattle.std.specs.Map.{lookup};
ghost use Rattle.std.specs.Str.{bytes_eq};
ghost use Rattle.eo_term.specs.Terms.{tree_at};
ghost use Rattle.eo_term.specs.Tree.{Tree};
ghost use Rattle.eo_proof.specs.Kept.{scopes, outer_count, with_begun, without_begun, AreBelow};
ghost use Rattle.eo_proof.specs.Outcomes.{Pushed, Popped};
ghost use Rattle.eo_proof.specs.Scopes as scope;

use crate::facts::Begun;
use crate::{FactRefused, Facts, NoScope};
use eo_base::limits::SCOPES;
use eo_term::Id;
use std::alloc::AllocError;

impl Facts {
    /// Opens a scope with an assumption, which is its first fact and which no command made: its number
    /// is 0.
    ///
    /// `ScopeDepth`: 1,000 scopes are open. `Redeclared`: a fact has the name. `Memory`: out of
    /// memory.
    #[tactic(auto, using(crate::proofs::Reading::live_is_named))]
    pub fn push(&mut self, name: &[u8], id: Id) -> Result<(), FactRefused>
        ensures pushes { (ts : List Tree) → Pushed result (scopes ts self.old) name.now (tree_at ts id) (scopes ts self.new) }
        ensures kept { OnOk result (self.new ≡ with_begun self.old (name.now, (id, 0))) }
        ensures below { (m : ℕ) → AreBelow m self.old → id < m → AreBelow m self.new }
        ensures same { OnErr result (self.new ≡ self.old) }
    {
        if self.depth() >= SCOPES {
            return Err(FactRefused::ScopeDepth);
        }
        if self.has(name) {
            return Err(FactRefused::Redeclared);
        }
        self.begin(name, id, 0)?;
        Ok(())
    }

    /// Opens a scope with an assumption, made by the command of this number, by a name that no fact has.
    /// It is not looked up. `Err`: out of memory, and no scope is opened.
    #[tactic(auto, using(crate::proofs::Reading::not_named))]
    pub fn push_free(&mut self, name: &[u8], id: Id, command: u64) -> Result<(), AllocError>
        requires free { (ts : List Tree) → scope.is_live (scopes ts self.old) name.now ≡ false }
        ensures pushes { OnOk result ((ts : List Tree) →
            scopes ts self.new ≡ scope.with_scope (scopes ts self.old) name.now (tree_at ts id) command) }
        ensures kept { OnOk result (self.new ≡ with_begun self.old (name.now, (id, command))) }
        ensures below { (m : ℕ) → AreBelow m self.old → id < m → AreBelow m self.new }
        ensures same { OnErr result (self.new ≡ self.old) }
    {
        self.begin(name, id, command)?;
        Ok(())
    }

    /// Closes the innermost scope with its facts, and returns its assumption.
    ///
    /// `NoScope`: none is open.
    pub fn pop(&mut self) -> Result<Id, NoScope>
        ensures pops { (ts : List Tree) → Popped ts result (scopes ts self.old) (scopes ts self.new) }
        ensures kept { self.new ≡ without_begun self.old }
        ensures below { (m : ℕ) → AreBelow m self.old → AreBelow m self.new }
        ensures live { (m : ℕ) → AreBelow m self.old → IfOk result (λ i. i < m) }
    {
        let Some(scope) = take_last(&mut self.begun) else {
            return Err(NoScope);
        };
        self.formulas.truncate(scope.first);
        Ok(scope.hypothesis)
    }
}

// Takes off the innermost scope, if one is open.
fn take_last(begun: &mut Vec<Begun>) -> Option<Begun>
    ensures some { IfSome result (λ b. begun.old.items ≡ begun.new.items ++ b ∷ []) }
    ensures none { IfNone result (begun.old.items ≡ []) }
    ensures same { IfNone result (begun.new.items ≡ []) }
{
    begun.pop()
}
