//! The symbols that lists begin with.
ghost use Rattle.std.specs.Prelude.{◌≡◌, ◌++◌, List, OnOk};
ghost use Rattle.eo_term.specs.Tree.{Tree};
ghost use Rattle.eo_sig.specs.Reading.{signature};
ghost use Rattle.eo_show.specs.Sizes.{head};

use crate::Shape;
use crate::spelling::name_of;
use eo_sexp::print_symbol;
use eo_sig::Signature;
use std::alloc::AllocError;

/// Appends the symbol that a list of this shape begins with; nothing for an atom.
pub(crate) fn print_head(
    out: &mut Vec<u8>,
    sig: &Signature,
    shape: &Shape,
) -> Result<(), AllocError>
    ensures { (ts : List Tree) → OnOk result (out.new.items ≡ out.old.items ++ head (signature ts sig.now) shape.now) }
{
    match *shape {
        Shape::Leaf => Ok(()),
        Shape::Folded(constant) => print_symbol(out, name_of(sig, constant)),
        Shape::Plainly => out.extend_from_slice(b"_"),
        Shape::Function => out.extend_from_slice(b"->"),
        Shape::Variable => out.extend_from_slice(b"eo::var"),
    }
}
