//! Uses of proof rules: what a rule concludes from premises and arguments, or the first check that
//! fails.
#![tactic(auto)]

mod checks;
mod concluding;
mod laws;
mod matching;
mod refused;
mod requirements;
mod typing;
mod using;
mod values;

use eo_term::{Id, Ids};
pub use laws::{conclusion_law, derivability_law};
pub use refused::RuleRefused;
pub use using::conclude;
pub use values::{value_of, value_type};

/// A use of a rule.
#[derive(Debug, Drop)]
pub struct RuleUse {
    /// The assumption that it discharges, if it does.
    pub assumption: Option<Id>,
    /// The premises in order.
    pub premises: Ids,
    /// The arguments in order.
    pub args: Ids,
    /// The formula that it is said to conclude, if any is.
    pub stated: Option<Id>,
}
