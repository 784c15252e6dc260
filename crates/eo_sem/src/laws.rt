//! What a proof by rules that preserve truth refutes. A call costs nothing: it gives a proof what its clauses say.
ghost use Rattle.std.specs.Prelude.{◌≡◌, ℕ, List, None, Ok, false};
ghost use Rattle.eo_io.specs.Library.{Files};
ghost use Rattle.eo_rule.specs.ByRules.{any_rule};
ghost use Rattle.eo_run.specs.Run.{Progress};
ghost use Rattle.eo_sem.specs.Proving.{Valid, IsProved, IsRefuted, prove_run, prove};
ghost use Rattle.eo_sem.specs.Reached.{ReachedBy};
ghost use Rattle.eo_sem.specs.SemanticRules.{is_semantic};
ghost use Rattle.eo_sem.specs.Suite.{suite_signature, suite_state};
ghost use Rattle.eo_sem.specs.Truth.{HaveNoModel};
ghost use Rattle.eo_session.specs.State.{State, end_fault};
ghost use Rattle.eo_sig.specs.Signature.{rules};

use eo_sound::{allowed_law, commands_law};

/// A law: after a correct proof whose steps use rules that preserve truth, no valuation makes all
/// assertions true.
///
/// These rules preserve truth by the truth tables of the suite's connectives, whatever formulas
/// their parameters are. So each fact of a scope is true where the assertions and the assumptions
/// of that scope and of the scopes around it are, and `false` is never true.
///
/// It is so in each state that is reached from the one after the suite by such rules, and each run
/// of a proof after the suite reaches its last state by the rules that its steps use: where it is
/// `Valid`, by those that preserve truth alone. The rules of its signature are those of the suite.
pub fn validity_law()
    ensures state { (st : State) → ReachedBy is_semantic suite_state st → end_fault st ≡ None → st.sorry ≡ false →
        HaveNoModel st.signature st.assertions }
    ensures proof { (files : Files) (reference proof : List ℕ) → IsProved files reference proof →
        IsRefuted files reference proof }
    ensures reached { (files : Files) (reference proof : List ℕ) (final : Progress) → prove_run files reference proof ≡ Ok final →
        ReachedBy any_rule suite_state final.state }
    ensures valid { (files : Files) (reference proof : List ℕ) → prove files reference proof ≡ Valid →
        IsProved files reference proof }
    ensures same_rules { (files : Files) (reference proof : List ℕ) (final : Progress) → prove_run files reference proof ≡ Ok final →
        rules final.state.signature ≡ rules suite_signature }
{
    allowed_law();
    commands_law();
}
