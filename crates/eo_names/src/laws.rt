//! What holds of all names.
ghost use Rattle.std.specs.Prelude.{List};
ghost use Rattle.eo_sig.specs.Reading.{Kept};
ghost use Rattle.eo_names.specs.declared.locals.LocalName.{LocalName};
ghost use Rattle.eo_names.specs.Laws.{NamesStay, UseStays, IsInside};
ghost use Rattle.eo_names.specs.Names.{Binding};

use crate::Head;
use eo_sig::growth_law;

/// A law: names mean the same where the table grows, and the same is made from arguments; and what
/// names mean inside a `let` or a binder. A call costs nothing: it gives a proof these facts.
pub fn names_law()
    ensures stays { (k : Kept) (ls : List LocalName) → NamesStay k ls }
    ensures uses { (u : Head) → UseStays u }
    ensures inside { (bs : List Binding) (ls : List LocalName) → IsInside bs ls }
{
    growth_law();
}
