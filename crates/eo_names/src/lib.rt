//! What names mean at the place of a term, and applications: constants folded over their
//! arguments by their attributes, macros, operators and function types.
#![tactic(auto)]

mod arguments;
mod attributes;
mod binders;
mod fold;
mod folding;
mod innermost;
mod inside;
mod joins;
mod laws;
mod locals;
mod refused;
mod scope;
mod symbols;
mod usage;

pub use arguments::{apply_head, function_type};
pub use attributes::{attribute_of, least_of};
pub use binders::bind;
pub use inside::Blocks;
pub use laws::names_law;
pub use locals::{Bindings, LocalName, Locals};
pub use refused::ElabRefused;
pub use scope::{FileKind, Scope};
pub use symbols::{Resolved, Word, head_meant, resolve_name, word_of};
pub use usage::Head;
