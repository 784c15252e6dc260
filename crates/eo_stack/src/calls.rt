//! Calls of programs on values.
ghost use Rattle.std.specs.Prelude.{◌≡◌, IfOk};
ghost use Rattle.eo_stack.specs.Calls.{ids_of};

use eo_term::Id;
use std::alloc::{AllocError, Global};
use std::hash::{Hash, Hasher};
use std::marker::Model;

/// A call, by the program's number and its arguments, which are values.
#[derive(PartialEq, Eq, Hash, Drop)]
pub struct CallKey {
    pub program: usize,
    pub args: Args,
}

/// The arguments of a call. Up to three are in the value itself, without an allocation.
#[derive(Drop)]
pub struct Args {
    held: Held,
}

// How arguments are kept.
#[derive(Drop)]
enum Held {
    One([Id; 1]),
    Two([Id; 2]),
    Three([Id; 3]),
    Many(Box<Vec<Id>>),
}

impl Model for Args {
    ghost use Rattle.std.specs.Prelude.{ℕ, List};
    ghost use Rattle.eo_stack.specs.Calls.{ids_of};

    ghost Value = { List ℕ };

    ghost view = { λ a. ids_of a.held };
}

impl Args {
    /// These arguments.
    pub fn new(alloc: Global, ids: &[Id]) -> Result<Args, AllocError>
        ensures { IfOk result (λ a. a ≡ ids.now) }
    {
        let held = Held::new(alloc, ids)?;
        Ok(Args { held })
    }

    /// Each argument in turn.
    pub fn as_slice(&self) -> &[Id]
        ensures { result.now ≡ self.now }
    {
        self.held.as_slice()
    }
}

impl Held {
    fn new(alloc: Global, ids: &[Id]) -> Result<Held, AllocError>
        ensures { IfOk result (λ h. ids_of h ≡ ids.now) }
    {
        match *ids {
            [a] => Ok(Held::One([a])),
            [a, b] => Ok(Held::Two([a, b])),
            [a, b, c] => Ok(Held::Three([a, b, c])),
            _ => {
                let many = ids.to_vec(alloc)?;
                Ok(Held::Many(Box::new(alloc, many)?))
            }
        }
    }

    fn as_slice(&self) -> &[Id]
        ensures { result.now ≡ ids_of self.now }
    {
        match self {
            Held::One(ids) => ids.as_slice(),
            Held::Two(ids) => ids.as_slice(),
            Held::Three(ids) => ids.as_slice(),
            Held::Many(ids) => ids.as_slice(),
        }
    }
}

impl PartialEq for Args {
    ghost use Rattle.std.specs.Prelude.{nat_eq};
    ghost use Rattle.std.specs.Cmp.{partial_equiv_from_equiv};
    ghost use Rattle.std.specs.Cmp.Lexicographic.{pointwise, nat_list_eq_equiv};

    ghost eq = { pointwise nat_eq };

    ghost laws = { partial_equiv_from_equiv nat_list_eq_equiv };

    fn eq(&self, other: &Args) -> bool {
        self.as_slice() == other.as_slice()
    }
}

impl Eq for Args {
    ghost use Rattle.std.specs.Cmp.Lexicographic.{nat_list_eq_equiv};

    ghost laws = { nat_list_eq_equiv };
}

impl Hash for Args {
    ghost use Rattle.std.specs.Hash as fed;
    ghost use Rattle.std.specs.Cmp.Lexicographic.{bytes_decides};
    ghost use Rattle.std.proofs.Common.{ap};

    ghost hash_input = { fed.slice fed.u32 };

    ghost respects_eq = { λ x y h. ap (fed.slice fed.u32) ((bytes_decides x y).0 h) };

    fn hash<H: Hasher>(&self, state: &mut H) {
        self.as_slice().hash(state);
    }
}

/// A term in the body of a call that is evaluated with its parameters, by the number after the
/// call's place and its own.
#[derive(Clone, Copy, PartialEq, Eq, Hash)]
pub struct LocalKey {
    pub here: usize,
    pub id: Id,
}
