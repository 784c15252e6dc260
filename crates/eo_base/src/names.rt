//! Names, as values and as keys of tables.
ghost use Rattle.std.specs.Prelude.{◌≡◌, IfOk};

use indexmap::Equivalent;
use smallvec::SmallVec;
use std::alloc::{AllocError, Global};
use std::hash::{Hash, Hasher};
use std::marker::Model;

/// The bytes of a name that are kept without an allocation.
const INLINE: usize = 16;

/// A list of any bytes. As a key it is hashed by one write of its bytes. Up to 16 bytes are in the
/// value itself.
#[derive(Debug, Drop)]
pub struct Name {
    bytes: SmallVec<u8, INLINE>,
}

impl Model for Name {
    ghost use Rattle.std.specs.Prelude.{ℕ, List};

    ghost Value = { List ℕ };

    ghost view = { λ a. a.bytes.items };
}

impl Name {
    /// A name with these bytes. Refused only where no memory is left.
    pub fn new(alloc: Global, b: &[u8]) -> Result<Name, AllocError>
        ensures { IfOk result (λ n. n ≡ b.now) }
    {
        let bytes = SmallVec::from_slice(alloc, b)?;
        Ok(Name { bytes })
    }

    /// The bytes.
    pub fn as_bytes(&self) -> &[u8]
        ensures { result.now ≡ self.now }
    {
        self.bytes.as_slice()
    }
}

impl PartialEq for Name {
    ghost use Rattle.std.specs.Prelude.{nat_eq};
    ghost use Rattle.std.specs.Cmp.{partial_equiv_from_equiv};
    ghost use Rattle.std.specs.Cmp.Lexicographic.{pointwise, nat_list_eq_equiv};

    ghost eq = { pointwise nat_eq };

    ghost laws = { partial_equiv_from_equiv nat_list_eq_equiv };

    fn eq(&self, other: &Name) -> bool {
        self.as_bytes() == other.as_bytes()
    }
}

impl Eq for Name {
    ghost use Rattle.std.specs.Cmp.Lexicographic.{nat_list_eq_equiv};

    ghost laws = { nat_list_eq_equiv };
}

impl Hash for Name {
    ghost use Rattle.std.specs.Prelude.{[], ◌∷◌};
    ghost use Rattle.std.specs.Cmp.Lexicographic.{bytes_decides};
    ghost use Rattle.std.proofs.Common.{ap};

    ghost hash_input = { λ n. n ∷ [] };

    ghost respects_eq = { λ x y h. ap (λ n. n ∷ []) ((bytes_decides x y).0 h) };

    fn hash<H: Hasher>(&self, state: &mut H) {
        state.write(self.as_bytes());
    }
}

/// The bytes of a name, lent: the key by which a table of names is asked.
#[derive(Clone, Copy, Debug)]
pub struct NameRef<'a>(pub &'a [u8]);

impl<'a> PartialEq for NameRef<'a> {
    ghost use Rattle.std.specs.Prelude.{nat_eq};
    ghost use Rattle.std.specs.Cmp.{on_per, partial_equiv_from_equiv};
    ghost use Rattle.std.specs.Cmp.Lexicographic.{pointwise, nat_list_eq_equiv};

    ghost eq = { λ x y. pointwise nat_eq x.0.now y.0.now };

    ghost laws = { on_per (λ x. x.0.now) (partial_equiv_from_equiv nat_list_eq_equiv) };

    fn eq(&self, other: &NameRef<'a>) -> bool {
        self.0 == other.0
    }
}

impl<'a> Eq for NameRef<'a> {
    ghost use Rattle.std.specs.Cmp.{on_equiv};
    ghost use Rattle.std.specs.Cmp.Lexicographic.{nat_list_eq_equiv};

    ghost laws = { on_equiv (λ x. x.0.now) nat_list_eq_equiv };
}

impl<'a> Hash for NameRef<'a> {
    ghost use Rattle.std.specs.Prelude.{[], ◌∷◌};
    ghost use Rattle.std.specs.Cmp.Lexicographic.{bytes_decides};
    ghost use Rattle.std.proofs.Common.{ap};

    ghost hash_input = { λ n. n.0.now ∷ [] };

    ghost respects_eq = { λ x y h. ap (λ n. n ∷ []) ((bytes_decides x.0.now y.0.now).0 h) };

    fn hash<H: Hasher>(&self, state: &mut H) {
        state.write(self.0);
    }
}

impl<'a> Equivalent<Name> for NameRef<'a> {
    ghost use Rattle.std.specs.Prelude.{[], ◌∷◌, nat_eq};
    ghost use Rattle.std.specs.Cmp.Lexicographic.{bytes_decides, pointwise, nat_list_eq_equiv};
    ghost use Rattle.std.proofs.Common.{ap};

    ghost equivalent = { λ q k. pointwise nat_eq q.0.now k };

    ghost respects_hash = { λ q k h. ap (λ n. n ∷ []) ((bytes_decides q.0.now k).0 h) };

    ghost respects_eq = { λ q x y. nat_list_eq_equiv.congr q.0.now x y };

    fn equivalent(&self, key: &Name) -> bool {
        self.0 == key.as_bytes()
    }
}
