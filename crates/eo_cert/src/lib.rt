//! Certificates: what the lines of one state, what follows from them, and that each derivation has its lines.
#![tactic(auto)]

mod laws;

pub use laws::{blocks_law, certificate_law, lines_law, pairs_law, programs_law, written_law};
