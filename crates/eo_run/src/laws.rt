//! What holds of a run. A call costs nothing: it gives a proof what its clauses say.
ghost use Rattle.std.specs.Prelude.{◌≡◌, ℕ, List};
ghost use Rattle.eo_io.specs.Library.{Files};
ghost use Rattle.eo_run.specs.Check.{verdict};
ghost use Rattle.eo_run.specs.Refutation.{Refutes, ClosedKeepsRules};
ghost use Rattle.eo_run.specs.SingleNames.{KeepsVerdict, KeepsLoad};
ghost use Rattle.eo_run.specs.Verdict.{Correct};
ghost use Rattle.eo_run.specs.declared.CheckJob.{CheckJob};

use eo_sound::commands_law;

/// A law: a check that is correct refutes what its reference file asserts. In a closed check the
/// proof declares no program and no rule.
pub fn soundness_law()
    ensures correct { (files : Files) (job : CheckJob) → verdict files job ≡ Correct → Refutes files job }
    ensures closed { (files : Files) (job : CheckJob) → ClosedKeepsRules files job }
{
    commands_law();
}

/// A law: a check, or a load, in which no name is given a second constant has the verdict that it
/// has where a name may have one constant only.
pub fn single_names_law()
    ensures check { (files : Files) (job : CheckJob) → KeepsVerdict files job }
    ensures load { (files : Files) (name : List ℕ) → KeepsLoad files name }
{}
