//! How many children the open lists have.
ghost use Rattle.std.specs.Prelude.{◌≡◌, ◌<◌, ◌^◌, ◌∷◌, List, reverse};
ghost use Rattle.eo_sexp.specs.Buffers.{counted};
ghost use Rattle.eo_sexp.specs.declared.buffer.Open.{Open};

use super::Open;

/// Counts one more child of the innermost list.
pub(super) fn count_child(lists: &mut Vec<Open>, nodes: usize)
    requires few { nodes < 2 ^ 32 }
    requires counted { (o : Open) (os : List Open) → reverse lists.old.items ≡ o ∷ os → o.children < nodes }
    ensures { reverse lists.new.items ≡ counted (reverse lists.old.items) }
{
    let n = lists.len();
    if n > 0 {
        lists[n - 1].children += 1;
    }
}
