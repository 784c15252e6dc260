//! What holds of evaluation. A call costs nothing: it gives a proof what its clause says.
ghost use Rattle.std.specs.Prelude.{◌≡◌, ℕ, true};
ghost use Rattle.eo_term.specs.Tree.{Tree, is_value};
ghost use Rattle.eo_sig.specs.Signature.{Signature};
ghost use Rattle.eo_sig.specs.Usable.{IsUsable};
ghost use Rattle.eo_stack.specs.Evaluation.{Value, Begun, eval, eval0};
ghost use Rattle.eo_eval.specs.Settling.{SettlesAsEvaluated};

/// A law: where the operators in a term are such that declared types may hold them, and it settles
/// to a term without parameters, it is evaluated to that term if it is a value, and else is stuck.
pub fn settling_law()
    ensures { (S : Signature) → SettlesAsEvaluated S }
{}

/// A law: where terminators are values, what an evaluation gives is a value; also one inside another,
/// whatever calls were begun and however many more may be open.
pub fn values_law()
    ensures whole { (S : Signature) (t v : Tree) → IsUsable S → eval0 S t ≡ Value v → is_value v ≡ true }
    ensures part { (S : Signature) (most open_left : ℕ) (t v : Tree) (c d : Begun) → IsUsable S →
        eval S most open_left t c ≡ (Value v, d) → is_value v ≡ true }
{}
