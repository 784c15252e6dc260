//! The facts of a proof, by their names, in scopes.
#![tactic(auto)]

mod facts;
mod ids;
mod named;
mod places;
mod scopes;
mod texts;

pub use facts::{FactRefused, Facts, NoScope, UnknownPremise};
pub use ids::FactIds;
