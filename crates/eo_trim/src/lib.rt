//! Shorter proofs that stay correct: the commands of a proof that its refutation needs.
#![tactic(auto)]

mod entries;
mod job;
mod marking;
mod proof_bytes;
mod recording;
mod writing;

ghost use Rattle.eo_trim.specs.Correct.{KeepsNeeded, StaysCorrect};

use eo_run::Verdict;
pub use job::trim_files;
pub use proof_bytes::ProofBytes;

/// What trimming a proof ends with.
#[derive(Debug, Drop)]
pub enum TrimEnd {
    /// Its check is correct, and these are the commands that it needs.
    Trimmed(ProofBytes),
    /// It is not trimmed: any verdict of its check but `Correct`, or `Refused` with `ProofShared`.
    Other(Verdict),
}

/// A law: of a proof that is trimmed just the needed commands are kept, and the check of its job stays
/// correct with them in the proof's place.
pub fn trimming_law()
    ensures needed { KeepsNeeded }
    ensures stays { StaysCorrect }
{}
