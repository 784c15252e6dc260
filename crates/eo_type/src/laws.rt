//! What holds of types. A call costs nothing: it gives a proof what its clause says.
ghost use Rattle.std.specs.Prelude.{◌≡◌, false};
ghost use Rattle.eo_term.specs.Tree.{Tree, is_tall};
ghost use Rattle.eo_type.specs.Types.{Typed, settle, settled};

/// A law: what a term settles to that is not too tall is not too tall, so that it settles to the same
/// where both are asked for their heights.
pub fn settled_law()
    ensures { (t u : Tree) → is_tall t ≡ false → settle t ≡ Typed u → settled t ≡ Typed u }
{}
