//! Patterns: terms with parameters. Matching finds a term for each parameter, and substitution
//! replaces the parameters by these.
#![tactic(auto)]

mod laws;
mod matched;
mod matching;
mod room;
mod slots;
mod subst;
mod substitution;
mod tasks;

pub use laws::{matching_law, putting_law};
pub use matching::match_terms;
pub use room::match_with_room;
pub use subst::Subst;
pub use substitution::substitute;
