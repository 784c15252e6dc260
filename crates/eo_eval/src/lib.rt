//! Evaluation.
#![tactic(auto)]

mod evaluator;
mod laws;
mod machine;

pub use eo_stack::Outcome;
pub use evaluator::{EvalRefused, Evaluator};
pub use laws::{settling_law, values_law};
