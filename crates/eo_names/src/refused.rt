//! Why a term or a declaration has no meaning.
use eo_term::TermRefused;
use std::alloc::AllocError;

/// Why a term or a declaration was refused: the first fault, from left to right, or out of memory.
#[derive(Debug, Drop)]
pub enum ElabRefused {
    /// A literal or a string that has no accepted value.
    BadLiteral,
    /// A `let` or a command of a wrong shape.
    BadCommand,
    /// A name that is taken, reserved, or given twice.
    Redeclared,
    /// A symbol without a meaning, a keyword where a term is expected, or a joining constant that
    /// is no constant.
    UnknownSymbol,
    /// A wrong number of arguments.
    BadArity,
    /// A term taller than the limit.
    Tall,
    /// More parameters than the limit.
    Parameters,
    /// A terminator that is no value, or a type that holds what no declared type may.
    BadPattern,
    /// Out of memory.
    Memory(AllocError),
}

impl From<AllocError> for ElabRefused {
    ghost use Rattle.std.specs.Prelude.{◌≡◌};
    ghost use Rattle.eo_names.specs.declared.refused.ElabRefused.TheVariants.{Memory};

    ghost from_gives = { λ e refused. refused ≡ Memory e };

    fn from(e: AllocError) -> ElabRefused {
        ElabRefused::Memory(e)
    }
}

impl From<TermRefused> for ElabRefused {
    ghost use Rattle.std.specs.Prelude.{◌≡◌};
    ghost use Rattle.eo_names.specs.Refused.{of_term};

    ghost from_gives = { λ e refused. refused ≡ of_term e };

    fn from(e: TermRefused) -> ElabRefused {
        match e {
            TermRefused::Tall => ElabRefused::Tall,
            TermRefused::Memory(e) => ElabRefused::Memory(e),
        }
    }
}
