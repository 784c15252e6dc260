//! A session: what is declared, asserted and known between two commands, and what each command does.
//!
//! A reference file, which is an SMT-LIB benchmark, asserts formulas. A proof declares constants,
//! macros, programs and rules, assumes terms, which are evaluated, and derives others by rules, in
//! scopes.
#![tactic(auto)]

mod asserting;
mod beginning;
mod carrying;
mod committing;
mod deciding;
mod declaring;
mod effects;
mod evaluating;
mod naming;
mod noting;
mod observing;
mod premises;
mod refused;
mod rules;
mod scopes;
mod session;
mod steps;
mod store;
mod valuing;

use eo_base::Text;
pub use observing::{Act, Nobody, Note, Numbers, Observer, StepNote};
pub use refused::Refused;
pub use session::{EndAnswer, Session};

/// The file that a command is in, by its number in the table of paths.
#[derive(Clone, Copy, Debug, PartialEq, Eq)]
pub enum Origin {
    /// A signature, or a file that it includes.
    Signature(usize),
    /// The proof, or a file that it includes.
    Proof(usize),
    /// A reference file.
    Reference(usize),
}

/// What is done after a command, before the next one.
#[derive(Debug, Drop)]
pub enum Next {
    /// Nothing.
    Done,
    /// The file with this path, seen from the file of the command, is included.
    Include(Text),
    /// The file with this path is the reference file.
    Reference(Text),
    /// The file ends.
    Exit,
}
