//! Laws of uses of rules. A call costs nothing: it gives a proof what its clauses say.
ghost use Rattle.std.specs.Prelude.{◌≡◌, ◌<◌, ℕ, Bool, List, ◌++◌, length, Ok, Contains};
ghost use Rattle.eo_term.specs.Tree.{Tree};
ghost use Rattle.eo_term.specs.Terms.{Terms, Since};
ghost use Rattle.eo_sig.specs.declared.records.RuleDecl.{RuleDecl};
ghost use Rattle.eo_sig.specs.Reading.{RuleBelow};
ghost use Rattle.eo_sig.specs.Signature.{Signature};
ghost use Rattle.eo_sig.specs.Usable.{IsUsable};
ghost use Rattle.eo_pattern.specs.Slots.{Slots, AreBelow, Holds};
ghost use Rattle.eo_rule.specs.ByRules.{DerivesBy};
ghost use Rattle.eo_rule.specs.Derivability.{Derives};
ghost use Rattle.eo_rule.specs.Reading.{RuleStays, UseBelow, UseStays};
ghost use Rattle.eo_rule.specs.declared.RuleUse.{RuleUse};
ghost use Rattle.eo_rule.specs.Uses.{Use, AreGiven, Concludes, conclusion};

use eo_sig::growth_law;

/// A law: the checks of a use of a rule give just the formulas that the rule concludes as it is
/// stated, where terminators are values and the type of a rule's parameter uses earlier ones only.
pub fn conclusion_law()
    ensures sound { (S : Signature) (number : ℕ) (given : Use) (formula : Tree) → IsUsable S → AreGiven given →
        conclusion S number given ≡ Ok formula → Concludes S number given formula }
    ensures complete { (S : Signature) (number : ℕ) (given : Use) (formula : Tree) → IsUsable S → AreGiven given →
        Concludes S number given formula → conclusion S number given ≡ Ok formula }
{}

/// A law: what is derivable from formulas stays so from more of them, and where more is declared. So
/// does what is derivable by some of the rules alone, which is derivable.
pub fn derivability_law()
    ensures formulas { (S : Signature) (Γ Δ : List Tree) (t : Tree) → ((x : Tree) → Contains Γ x → Contains Δ x) →
        Derives S Γ t → Derives S Δ t }
    ensures signature { (S later : Signature) (Γ : List Tree) (t : Tree) → Derives S Γ t → Derives (S ++ later) Γ t }
    ensures allowed_formulas { (allowed : List ℕ → Bool) (S : Signature) (Γ Δ : List Tree) (t : Tree) →
        ((x : Tree) → Contains Γ x → Contains Δ x) → DerivesBy allowed S Γ t → DerivesBy allowed S Δ t }
    ensures allowed_signature { (allowed : List ℕ → Bool) (S later : Signature) (Γ : List Tree) (t : Tree) →
        DerivesBy allowed S Γ t → DerivesBy allowed (S ++ later) Γ t }
    ensures derives { (allowed : List ℕ → Bool) (S : Signature) (Γ : List Tree) (t : Tree) → DerivesBy allowed S Γ t → Derives S Γ t }
{}

/// A law: where the table grows, what is held, a rule and a use of one stay what they are.
pub(crate) fn growing_law()
    ensures holds { (s : Slots) (old new : Terms) → AreBelow (length old.trees) s → Since old new → Holds s old.trees new.trees }
    ensures rule { (d : RuleDecl) (old new : Terms) → RuleBelow (length old.trees) d → Since old new →
        RuleStays d old.trees new.trees }
    ensures given { (u : RuleUse) (old new : Terms) → UseBelow (length old.trees) u → Since old new →
        UseStays u old.trees new.trees }
{
    growth_law();
}
