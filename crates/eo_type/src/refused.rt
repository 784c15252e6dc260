//! Why no type was found.
ghost use Rattle.std.specs.Prelude.{◌≡◌, ℕ, List, Some, IfOk, IfSome};
ghost use Rattle.eo_term.specs.Tree.{Tree};
ghost use Rattle.eo_term.specs.Terms.{Terms};
ghost use Rattle.eo_type.specs.Types.{TypeOutcome};
ghost use Rattle.eo_type.specs.Known.{kept_type};
ghost use Rattle.eo_type.specs.Outcomes.{Answers, Gives};

use eo_term::{Id, TermRefused};
use std::alloc::AllocError;

/// Why it is not known whether a term has a type.
#[derive(Debug, Drop)]
pub enum TypeRefused {
    /// A number, a bit string or a string in a type is beyond the range.
    NumberRange,
    /// A type is taller than the limit.
    Tall,
    /// Out of memory.
    Memory(AllocError),
}

/// How a walk ends that finds no type.
#[derive(Drop)]
pub(crate) enum Stop {
    /// There is no type.
    Untyped,
    /// A number, a bit string or a string in a type is beyond the range.
    NumberRange,
    /// A type is taller than the limit.
    Tall,
    /// Out of memory.
    Memory(AllocError),
}

impl From<AllocError> for Stop {
    ghost use Rattle.std.specs.Prelude.{◌≡◌};
    ghost use Rattle.eo_type.specs.declared.refused.Stop.TheVariants.{Memory};

    ghost from_gives = { λ e stop. stop ≡ Memory e };

    fn from(e: AllocError) -> Stop {
        Stop::Memory(e)
    }
}

impl From<TermRefused> for Stop {
    ghost use Rattle.std.specs.Prelude.{◌≡◌};
    ghost use Rattle.eo_type.specs.Outcomes.{of_term};

    ghost from_gives = { λ e stop. stop ≡ of_term e };

    fn from(e: TermRefused) -> Stop {
        match e {
            TermRefused::Tall => Stop::Tall,
            TermRefused::Memory(e) => Stop::Memory(e),
        }
    }
}

/// The answer of a walk.
pub(crate) fn answer(found: Result<Id, Stop>) -> Result<Option<Id>, TypeRefused>
    ensures answers { (t : Terms) (o : TypeOutcome Tree) → Gives t found o → Answers t result o }
    ensures kept { (known : List (ℕ × ℕ)) (i : ℕ) → IfOk found (λ u. kept_type known i ≡ Some u) →
        IfOk result (λ o. IfSome o (λ u. kept_type known i ≡ Some u)) }
{
    match found {
        Ok(id) => Ok(Some(id)),
        Err(Stop::Untyped) => Ok(None),
        Err(Stop::NumberRange) => Err(TypeRefused::NumberRange),
        Err(Stop::Tall) => Err(TypeRefused::Tall),
        Err(Stop::Memory(e)) => Err(TypeRefused::Memory(e)),
    }
}
