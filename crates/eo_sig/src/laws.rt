//! Laws of signatures. A call costs nothing: it gives a proof what its clause says.
ghost use Rattle.std.specs.Prelude.{◌≡◌, ◌≤◌, ℕ, length};
ghost use Rattle.eo_term.specs.Terms.{Terms, Since};
ghost use Rattle.eo_sig.specs.declared.records.RuleDecl.{RuleDecl};
ghost use Rattle.eo_sig.specs.Growth.{StaysSince, Continues};
ghost use Rattle.eo_sig.specs.Reading.{Kept, IsBelow, RuleBelow, read_rule};
ghost use Rattle.eo_sig.specs.Signature as sig;

/// A law: a signature, and a rule, stay what they are where the table grows, and what is below a
/// number is below a greater one.
pub fn growth_law()
    ensures stays { (k : Kept) → StaysSince k }
    ensures below { (n m : ℕ) (k : Kept) → n ≤ m → IsBelow n k → IsBelow m k }
    ensures rule { (d : RuleDecl) (old new : Terms) → RuleBelow (length old.trees) d → Since old new →
        read_rule new.trees d ≡ read_rule old.trees d }
    ensures rule_below { (n m : ℕ) (d : RuleDecl) → n ≤ m → RuleBelow n d → RuleBelow m d }
{}

/// A law: a signature that gets longer keeps all that was declared.
pub fn longer_law()
    ensures { (now later : sig.Signature) → Continues now later }
{}
