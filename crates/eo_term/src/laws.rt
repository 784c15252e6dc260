//! Laws of trees and tables. A call costs nothing: it gives a proof what its clauses say.
ghost use Rattle.std.specs.Prelude.{◌≡◌, ◌<◌, ◌≤◌, ◌+◌, ◌↔◌, ℕ, Bool, List, Result, length, true, Decides, IfOk};
ghost use Rattle.std.specs.Cmp.Lexicographic.{pointwise};
ghost use Rattle.std.specs.List.{list_any};
ghost use Rattle.std.specs.Result.{IsErrAnd};
ghost use Rattle.eo_term.specs.contracts.OpCodePartialEq.TheImpl as code_eq;
ghost use Rattle.eo_term.specs.declared.OpCode.{OpCode};
ghost use Rattle.eo_term.specs.declared.table.TermRefused.{TermRefused};
ghost use Rattle.eo_term.specs.Arguments.{count_of, argument_at, from};
ghost use Rattle.eo_term.specs.Builds.{TallWhere, Builds, BuildsAll};
ghost use Rattle.eo_term.specs.Growth.{Grows};
ghost use Rattle.eo_term.specs.Refused.{IsTall};
ghost use Rattle.eo_term.specs.Terms.{Terms, Interned, trees_at};
ghost use Rattle.eo_term.specs.Tree.{Tree, Trees, Op, More, NoTree, is_tall, tree_eq};

/// A law: two trees are equal where `tree_eq` says so, and so are two lists of trees.
pub fn equality_law()
    ensures trees { (t u : Tree) → Decides (tree_eq t u) (t ≡ u) }
    ensures lists { (ts us : List Tree) → Decides (pointwise tree_eq ts us) (ts ≡ us) }
{}

/// A law: two operators, by their codes, are equal where `==` says so.
pub fn codes_law()
    ensures { (c d : OpCode) → Decides (code_eq.ghosts.eq c d) (c ≡ d) }
{}

/// A law: a table has grown from itself, and from what it had grown from before.
pub fn table_law()
    ensures same { (t : Terms) → Grows t t }
    ensures later { (a b c : Terms) → Grows a b → Grows b c → Grows a c }
{}

/// A law: the arguments of an operator from a place on are the one there and those after it, and
/// after the last there are none. There are as many trees as ids.
pub fn arguments_law()
    ensures next { (ts : Trees) (i : ℕ) → i < count_of ts → from i ts ≡ More (argument_at ts i) (from (i + 1) ts) }
    ensures past { (ts : Trees) (i : ℕ) → count_of ts ≤ i → from i ts ≡ NoTree }
    ensures count { (ts : List Tree) (is : List ℕ) → count_of (trees_at ts is) ≡ length is }
{}

/// A law: an operator with an argument that is too tall is too tall.
pub fn height_law()
    ensures { (c : OpCode) (ts : Trees) (i : ℕ) → i < count_of ts → is_tall (argument_at ts i) ≡ true →
        is_tall (Op c ts) ≡ true }
{}

/// A law: a call that builds a term, or several, may return the refusal of a call that it makes where
/// what that one refuses as too tall makes too tall what is built.
pub fn builds_law()
    ensures term { (t : Terms) (r : Result ℕ TermRefused) (u : Tree) (e : TermRefused) (b : Bool) → IsErrAnd r (λ x. x ≡ e) →
        (b ≡ true → is_tall u ≡ true) → TallWhere e b → Builds t r u }
    ensures terms { (t : Terms) (r : Result (List ℕ) TermRefused) (us : List Tree) (e : TermRefused) (b : Bool) →
        IsErrAnd r (λ x. x ≡ e) → (b ≡ true → list_any is_tall us ≡ true) → TallWhere e b → BuildsAll t r us }
    ensures taller { (e : TermRefused) (a b : Bool) → (a ≡ true → b ≡ true) → TallWhere e a → TallWhere e b }
    ensures tall { (e : TermRefused) (b : Bool) → (IsTall {X = ℕ} (Err e) → b ≡ true) → TallWhere e b }
    ensures interned { (old new : Terms) (r : Result ℕ TermRefused) (u : Tree) → IfOk r (λ i. Interned old u i new) →
        (IsTall r ↔ (is_tall u ≡ true)) → Builds new r u }
{}
