//! Why a declaration is refused.
use std::alloc::AllocError;

/// Why a declaration was not made. A signature that refused one is as it was before.
#[derive(Debug, Drop, thiserror::Error)]
pub enum SigRefused {
    /// The class of literals has a type.
    #[error("the class of literals has a type")]
    Redeclared,
    /// A type holds an operator that no declared type may hold, a pattern holds an operator, a
    /// terminator is no value, or premises are joined by what has no terminator.
    #[error("a pattern, a type or a terminator holds what it may not")]
    BadPattern,
    /// An implicit parameter occurs in no argument's type, or a parameter is used that no match
    /// can give a value.
    #[error("a parameter is not bound")]
    UnboundParam,
    /// Out of memory.
    #[error("out of memory")]
    Memory(#[from(alloc)] AllocError),
}
