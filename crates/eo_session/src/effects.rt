//! What a command does, once it has passed its checks.
use crate::Next;
use crate::steps::Conclusion;
use eo_elab::Names;
use eo_sig::{Declared, MacroDecl};
use eo_term::Id;

/// What a command does, once it has passed its checks. Its terms are those of the table.
#[derive(Drop)]
pub(crate) enum Effect<'c> {
    /// A constant, a program, a rule or the type of a class of literals is declared.
    Declare(Declared),
    /// A macro is defined.
    Define(MacroDecl),
    /// A formula is asserted, and then names of terms are macros of the reference file.
    Assert {
        /// The formula.
        formula: Id,
        /// The names.
        names: Names,
    },
    /// A scope is opened.
    Open {
        /// The name of its assumption.
        name: &'c [u8],
        /// Its assumption.
        hypothesis: Id,
    },
    /// A fact is added.
    Add {
        /// Its name.
        name: &'c [u8],
        /// What is concluded.
        conclusion: Conclusion,
        /// Whether the innermost scope is closed before.
        closes: bool,
    },
    /// Nothing is changed.
    Nothing,
}

/// What is decided of a command.
#[derive(Drop)]
pub(crate) struct Decided<'c> {
    /// What it does.
    pub(crate) effect: Effect<'c>,
    /// What is done after it, before the next command.
    pub(crate) next: Next,
}
