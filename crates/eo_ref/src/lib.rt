//! The commands of reference files, and what they assert.
#![tactic(auto)]

mod asserting;
mod reference;

pub use asserting::read_assertion;
use eo_elab::{ElabRefused, Names};
use eo_sig::Declaration;
use eo_term::Id;
pub use reference::Reference;
use std::alloc::AllocError;

/// What an `assert` asserts.
#[derive(Drop)]
pub struct Assertion {
    /// The formula, as it is written.
    pub formula: Id,
    /// The names that terms of the formula give themselves, in order. They are macros once the
    /// command is accepted.
    pub names: Names,
}

/// What a command of a reference file says.
#[derive(Drop)]
pub enum RefNext {
    /// It declares this.
    Declare(Declaration),
    /// It asserts a formula.
    Assert {
        /// The formula, as it is written.
        formula: Id,
        /// The names that terms of the formula give themselves, in order. They are macros once the
        /// command is accepted.
        names: Names,
    },
    /// It says nothing here.
    Skip,
    /// The rest of the file is not read.
    Exit,
}

/// Why a command of a reference file was refused.
#[derive(Debug, Drop)]
pub enum RefRefused {
    /// There is no such command in a reference file.
    UnknownCommand,
    /// The command has a wrong shape, or what it declares or asserts has no meaning; or out of
    /// memory.
    Elab(ElabRefused),
}

impl From<ElabRefused> for RefRefused {
    ghost use Rattle.std.specs.Prelude.{◌≡◌};
    ghost use Rattle.eo_ref.specs.declared.RefRefused.TheVariants.{Elab};

    ghost from_gives = { λ e refused. refused ≡ Elab e };

    fn from(e: ElabRefused) -> RefRefused {
        RefRefused::Elab(e)
    }
}

impl From<AllocError> for RefRefused {
    ghost use Rattle.std.specs.Prelude.{◌≡◌};
    ghost use Rattle.eo_names.specs.declared.refused.ElabRefused.TheVariants.{Memory};
    ghost use Rattle.eo_ref.specs.declared.RefRefused.TheVariants.{Elab};

    ghost from_gives = { λ e refused. refused ≡ Elab (Memory e) };

    fn from(e: AllocError) -> RefRefused {
        RefRefused::Elab(ElabRefused::Memory(e))
    }
}
