//! Laws of certificates. A call costs nothing: it gives a proof what its clauses say.
ghost use Rattle.std.specs.Prelude.{◌≡◌, ℕ, Bool, List, Option, Ok, Some, true, false};
ghost use Rattle.eo_term.specs.Tree.{Tree, truth, is_closed, is_tall};
ghost use Rattle.eo_sig.specs.Signature.{Signature, Rule};
ghost use Rattle.eo_sig.specs.Usable.{IsUsable};
ghost use Rattle.eo_pattern.specs.Matching.{Assignment, empty, matching};
ghost use Rattle.eo_stack.specs.Evaluation.{Begun, Call, Value, eval0};
ghost use Rattle.eo_rule.specs.Derivability.{Derives};
ghost use Rattle.eo_rule.specs.Instance.{IsInstance};
ghost use Rattle.eo_sexp.specs.Sexp.{Sexp};
ghost use Rattle.eo_shape.specs.Shapes.{Command};
ghost use Rattle.eo_session.specs.Commands.{by_command, step};
ghost use Rattle.eo_session.specs.Origin.{Origin};
ghost use Rattle.eo_session.specs.State.{State, first_state};
ghost use Rattle.eo_session.specs.Step.{file_kind_of};
ghost use Rattle.eo_session.specs.declared.Next.{Next};
ghost use Rattle.eo_cert.specs.Stated.{Stated, Evaluated, signature, assertions};
ghost use Rattle.eo_cert.specs.Assignments.{Given, HasPairs, assigned, matches_by};
ghost use Rattle.eo_cert.specs.Traces.{Block, HasBlock, IsEvaluated, IsIn, IsOne, Serves};
ghost use Rattle.eo_cert.specs.Uses.{fits_rule};
ghost use Rattle.eo_cert.specs.Recheck.{recheck};
ghost use Rattle.eo_cert.specs.Declared.{AreChecked};
ghost use Rattle.eo_cert.specs.Accepting.{AcceptsEvaluation, AcceptsCall, AcceptsStep, EndsUntaken, EndsTaken};
ghost use Rattle.eo_cert.specs.Written.{is_written, declared_in};

use eo_eval::values_law;
use eo_sig::longer_law;

/// A law: where nothing is wrong with a certificate, `false` is derivable from what it asserts, by
/// the rules that it declares.
pub fn certificate_law()
    ensures { (bytes : List ℕ) (st : Stated) → recheck bytes ≡ Ok st → Derives (signature st) (assertions st) (truth false) }
{
    longer_law();
}

/// A law: the programs that are declared have no fault, before the first command, after each command
/// where it was so before, and in what a certificate states.
pub fn programs_law()
    ensures first { (closed : Bool) → AreChecked (first_state closed).signature }
    ensures command { (st : State) (from : Origin) (s : Sexp) (r : State × Next) → AreChecked st.signature →
        step st from s ≡ Ok r → AreChecked r.0.signature }
    ensures certificate { (bytes : List ℕ) (st : Stated) → recheck bytes ≡ Ok st → AreChecked (signature st) }
{
    longer_law();
}

/// A law: each evaluation has its lines.
///
/// A closed tree that has a value within the limits has a block within the limits. In a block a
/// tree has one outcome and one depth. A tree whose evaluation is in the block already has there
/// the outcome that its evaluation would have again, and a depth that is allowed where it is used.
pub fn blocks_law()
    ensures block { (S : Signature) (t v : Tree) → IsUsable S → AreChecked S → is_tall t ≡ false → is_closed t ≡ true →
        eval0 S t ≡ Value v → HasBlock S t v }
    ensures one { (S : Signature) (es : List Evaluated) (calls : List Call) → Block S es calls → IsOne es }
    ensures again { (S : Signature) (es : List Evaluated) (calls : List Call) (t : Tree) (o : Option Tree) (k : ℕ) (c d : Begun)
        (e : Evaluated) → IsUsable S → AreChecked S → IsEvaluated S es calls t o k c d → IsIn es e → e.term ≡ t →
        Serves e calls o k d }
{
    values_law();
}

/// A law: an assignment can be given by pairs, each parameter once. This is so where it makes
/// patterns equal to trees, and where it makes a rule conclude a formula; and any pairs that give it
/// show that.
pub fn pairs_law()
    ensures matching { (patterns trees : List Tree) (σ : Assignment) → matching empty patterns trees ≡ Some σ → HasPairs σ }
    ensures matches { (patterns trees : List Tree) (σ : Assignment) (qs : Given) → matching empty patterns trees ≡ Some σ →
        assigned qs ≡ σ → matches_by qs patterns trees ≡ true }
    ensures instance { (S : Signature) (r : Rule) (hypothesis : Option Tree) (premises arguments : List Tree) (formula : Tree)
        (σ : Assignment) → IsInstance S r hypothesis premises arguments formula σ → HasPairs σ }
    ensures fits { (S : Signature) (r : Rule) (hypothesis : Option Tree) (premises arguments : List Tree) (formula : Tree)
        (σ : Assignment) (qs : Given) → IsInstance S r hypothesis premises arguments formula σ → assigned qs ≡ σ →
        fits_rule S r hypothesis premises arguments qs ≡ true }
{}

/// A law: a line that names an evaluation and those that its rule reads is accepted, and so is one
/// that names a call, the case that it takes and the evaluation of its body; and one that names an
/// instance of a rule, its premises and the evaluation of its guarded conclusion.
pub fn lines_law()
    ensures evaluation { AcceptsEvaluation }
    ensures call { AcceptsCall }
    ensures untaken { EndsUntaken }
    ensures taken { EndsTaken }
    ensures step { AcceptsStep }
{
    values_law();
}

/// A law: a command that declares or asserts is accepted again, with the same effect, in a state
/// that has the same declarations, macros and assertions and differs in all else, in a file that
/// may hold the same commands.
pub fn written_law()
    ensures { (st new other : State) (from to : Origin) (command : Command) → file_kind_of from ≡ file_kind_of to →
        is_written command ≡ true → by_command st from command ≡ Ok new →
        by_command (declared_in st other) to command ≡ Ok (declared_in new other) }
{}
