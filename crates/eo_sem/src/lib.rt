//! Whether the assertions of a reference file have no model, as a proof shows by rules that preserve truth.
#![tactic(auto)]

mod laws;
mod proving;
mod suite_rules;
mod watching;

use eo_run::Verdict;
pub use laws::validity_law;
pub use proving::prove_files;

/// How a proof of validity ends.
#[derive(Clone, Copy, Debug, PartialEq, Eq)]
pub enum ProveEnd {
    /// The proof is correct by rules that preserve truth, so that no valuation makes all assertions true.
    Valid,
    /// It is not: any other verdict, and `Refused` with `NotSemantic` where it is correct by other rules too.
    Other(Verdict),
}
