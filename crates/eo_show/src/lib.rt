//! The written form of a value: the lines that define it and its shared, long and deep parts.
#![tactic(auto)]

ghost use Rattle.std.specs.Prelude.{◌≡◌, List, true};
ghost use Rattle.eo_base.specs.Limits.{limits};
ghost use Rattle.eo_sexp.specs.ReadBack.{AreLines};
ghost use Rattle.eo_sig.specs.Signature.{Signature, Macro};
ghost use Rattle.eo_term.specs.Tree.{Tree, is_value};
ghost use Rattle.eo_show.specs.Lines.{lines_of, shown_lines};
ghost use Rattle.eo_show.specs.Printable.{ArePrintedNames, CanShow};
ghost use Rattle.eo_show.specs.Written.{AreMembers, HaveNewNames};

mod heads;
mod lengths;
mod members;
mod names;
mod parts;
mod places;
mod plan;
mod refused;
mod shown;
mod sizes;
mod spelling;
mod writing;

use eo_term::{Id, TextId};
pub use plan::show_term;
pub use refused::ShowRefused;
pub use shown::ShownBytes;

/// A tree that is a part of what is shown. A term that is a string is named by its text, so equal
/// members are equal trees.
#[derive(Clone, Copy, Debug, PartialEq, Eq, Hash)]
pub enum Member {
    Text(TextId),
    Term(Id),
}

/// What a member is written as.
#[derive(Clone, Copy, Debug)]
pub enum Shape {
    /// An atom.
    Leaf,
    /// The constant of this number by its name, and what it folds.
    Folded(usize),
    /// A head and arguments, folded by no attribute.
    Plainly,
    Function,
    Variable,
}

/// A law: what holds of each value that is shown. Each of its members comes once, after its parts,
/// and the value itself is the last. The names of its lines are free, and no two are the same. Each
/// line can be printed as a command.
pub fn lines_law()
    ensures members { (S : Signature) (t : Tree) → is_value t ≡ true → AreMembers S t }
    ensures names { (S : Signature) (macros : List Macro) (t : Tree) → CanShow S macros t →
        HaveNewNames S macros (shown_lines S macros t) }
    ensures lines { (S : Signature) (macros : List Macro) (t : Tree) → ArePrintedNames S → CanShow S macros t →
        AreLines limits (lines_of S (shown_lines S macros t)) }
{}
