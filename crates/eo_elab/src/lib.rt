//! The meaning of terms: s-expressions, by what their names mean, as terms of a table.
#![tactic(auto)]

mod annotations;
mod atoms;
mod bits;
mod laws;
mod plan;
mod shapes;
mod terms;
mod waiting;
mod walk;
mod within;

pub use eo_names::{Bindings as Names, ElabRefused, FileKind, LocalName, Locals};
pub use laws::named_terms_law;
pub use terms::{elaborate_in, elaborate_view, reference_term, term};
