//! What the lines of a certificate state: terms, contexts and derivations, each with its conditions,
//! and the evaluations that later lines name.
#![tactic(auto)]

mod beginning;
mod blocks;
mod checker;
mod contexts;
mod refused;
mod terms;

pub use blocks::{Part, deepest_of};
pub use checker::{Checker, Context, Derivation, Evaluated};
pub use refused::LineRefused;
