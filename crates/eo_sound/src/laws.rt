//! What holds of each command. A call costs nothing: it gives a proof what its clauses say.
ghost use Rattle.std.specs.Prelude.{◌≡◌, ◌≢◌, ℕ, List, Bool, true, false, None, Some, Ok};
ghost use Rattle.eo_rule.specs.Derivability.{Derives};
ghost use Rattle.eo_sexp.specs.Sexp.{Sexp};
ghost use Rattle.eo_term.specs.Tree.{truth};
ghost use Rattle.eo_session.specs.Commands.{step};
ghost use Rattle.eo_sound.specs.Layers.{Layers};
ghost use Rattle.eo_session.specs.Origin.{Origin, Signature};
ghost use Rattle.eo_sound.specs.Quiet.{IsQuiet};
ghost use Rattle.eo_sound.specs.Soundness.{IsSound, IsSoundBy};
ghost use Rattle.eo_rule.specs.ByRules.{DerivesBy};
ghost use Rattle.eo_sound.specs.RulesUsed.{IsRuleName, may_use, sexp_rule};
ghost use Rattle.eo_session.specs.State.{State, first_state, begin_reference, end_fault};
ghost use Rattle.eo_session.specs.declared.Next.{Next};

use eo_declare::{ordering_law, reference_law};
use eo_elab::named_terms_law;
use eo_eval::values_law;
use eo_rule::{conclusion_law, derivability_law};
use eo_term::equality_law;

/// A law: what each command that is accepted keeps.
///
/// Where no step used a rule that is marked as unproved, each fact of a scope is derivable from the
/// assertions and from the assumptions of that scope and of the scopes around it. So it is before
/// the first command, and the beginning of a reference file and each command keep it. Where then
/// nothing is wrong at the end, `false` is derivable from the assertions.
///
/// A command leaves whether the session is closed. In a closed one a command of the proof or of a
/// reference file declares no program and no rule.
pub fn commands_law()
    ensures first { (closed : Bool) → IsSound (first_state closed) }
    ensures begin { (st new : State) → IsSound st → begin_reference st ≡ Ok new → IsSound new }
    ensures command { (st : State) (from : Origin) (s : Sexp) (r : State × Next) → IsSound st → step st from s ≡ Ok r → IsSound r.0 }
    ensures end { (st : State) → IsSound st → end_fault st ≡ None → st.sorry ≡ false →
        Derives st.signature st.assertions (truth false) }
    ensures closed { (st : State) (from : Origin) (s : Sexp) (r : State × Next) → step st from s ≡ Ok r → r.0.closed ≡ st.closed }
    ensures quiet { (st : State) (from : Origin) (s : Sexp) (r : State × Next) → st.closed ≡ true → from ≢ Signature →
        step st from s ≡ Ok r → IsQuiet st r.0 }
{
    allowed_law();
    derivability_law();
}

/// A law: the same where only some rules are used, those whose names pass a test.
///
/// Where each command that uses a rule uses one that is allowed, and no step used a rule that is
/// marked as unproved, each fact is derivable by the allowed rules alone. An accepted step names a
/// rule that is declared.
pub fn allowed_law()
    ensures first { (allowed : List ℕ → Bool) (closed : Bool) → IsSoundBy allowed (first_state closed) }
    ensures begin { (allowed : List ℕ → Bool) (st new : State) → IsSoundBy allowed st → begin_reference st ≡ Ok new →
        IsSoundBy allowed new }
    ensures command { (allowed : List ℕ → Bool) (st : State) (from : Origin) (s : Sexp) (r : State × Next) → IsSoundBy allowed st →
        may_use allowed (sexp_rule from s) ≡ true → step st from s ≡ Ok r → IsSoundBy allowed r.0 }
    ensures end { (allowed : List ℕ → Bool) (st : State) → IsSoundBy allowed st → end_fault st ≡ None → st.sorry ≡ false →
        DerivesBy allowed st.signature st.assertions (truth false) }
    ensures names { (st : State) (from : Origin) (s : Sexp) (r : State × Next) (name : List ℕ) → step st from s ≡ Ok r →
        sexp_rule from s ≡ Some name → IsRuleName st.signature name }
{
    layers_law();
}

// What the layers below say, as one fact.
fn layers_law()
    ensures { Layers }
{
    equality_law();
    ordering_law();
    reference_law();
    named_terms_law();
    values_law();
    conclusion_law();
    derivability_law();
}
