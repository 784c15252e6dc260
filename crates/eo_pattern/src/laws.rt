//! What holds of matching. A call costs nothing: it gives a proof what its clauses say.
ghost use Rattle.std.specs.Prelude.{◌≡◌, ◌<◌, ◌≤◌, ◌+◌, ℕ, List, Some, None, true};
ghost use Rattle.eo_term.specs.Tree.{Tree, Trees, height, is_closed};
ghost use Rattle.eo_term.specs.Arguments.{argument_at, count_of};
ghost use Rattle.eo_pattern.specs.Matching.{Assignment, Matches, empty, matching, put, put_all};

/// A law: matching as it is computed finds just the assignment that makes patterns equal to trees, and
/// nothing where there is none.
pub fn matching_law()
    ensures sound { (before σ : Assignment) (ps ts : List Tree) → matching before ps ts ≡ Some σ → Matches before ps ts σ }
    ensures complete { (before σ : Assignment) (ps ts : List Tree) → Matches before ps ts σ → matching before ps ts ≡ Some σ }
    ensures none { (before : Assignment) (ps ts : List Tree) → ((σ : Assignment) → Matches before ps ts σ → ⊥) →
        matching before ps ts ≡ None }
{}

/// A law: substitution changes nothing where there are no parameters, or none has a value. It keeps
/// the arguments of an operator in their places, and makes a term taller by as much as the tallest
/// value exceeds a leaf.
pub fn putting_law()
    ensures closed { (σ : Assignment) (t : Tree) → is_closed t ≡ true → put σ t ≡ t }
    ensures none { (t : Tree) → put empty t ≡ t }
    ensures count { (σ : Assignment) (ts : Trees) → count_of (put_all σ ts) ≡ count_of ts }
    ensures argument { (σ : Assignment) (ts : Trees) (i : ℕ) → i < count_of ts → argument_at (put_all σ ts) i ≡ put σ (argument_at ts i) }
    ensures height { (σ : Assignment) (h : ℕ) → 1 ≤ h → ((i : ℕ) (u : Tree) → σ i ≡ Some u → height u ≤ h) →
        (t : Tree) → height (put σ t) + 1 ≤ height t + h }
{}
