//! Why a line is not accepted.
use eo_term::TermRefused;
use std::alloc::AllocError;

/// Why a line is not accepted.
#[derive(Debug, Drop)]
pub enum LineRefused {
    /// It breaks a condition.
    Bad,
    /// Out of memory.
    Memory(AllocError),
}

impl From<AllocError> for LineRefused {
    ghost use Rattle.std.specs.Prelude.{◌≡◌};
    ghost use Rattle.eo_stated.specs.declared.refused.LineRefused.TheVariants.{Memory};

    ghost from_gives = { λ e r. r ≡ Memory e };

    fn from(e: AllocError) -> LineRefused {
        LineRefused::Memory(e)
    }
}

impl From<TermRefused> for LineRefused {
    ghost use Rattle.std.specs.Prelude.{◌≡◌};
    ghost use Rattle.eo_stated.specs.Refusals.{of_term};

    ghost from_gives = { λ e r. r ≡ of_term e };

    fn from(e: TermRefused) -> LineRefused {
        match e {
            TermRefused::Tall => LineRefused::Bad,
            TermRefused::Memory(e) => LineRefused::Memory(e),
        }
    }
}
