//! One check, from the files to the verdict and the line that is printed of it.
//!
//! A check has a reference file, which is an SMT-LIB benchmark whose formulas are asserted, and a
//! proof that declares constants, macros, programs and rules, assumes terms, which are evaluated, and derives others by
//! rules, in scopes. A signature file may come first, and files may include others.
#![tactic(auto)]

mod benching;
mod checking;
mod laws;
mod loading;
mod opening;
mod prelude;
mod printing;
mod reading;

pub use benching::bench;
pub use checking::{check_files, check_observed, load_files};
use eo_base::{Fault, Place, Text};
use eo_session::Session;
pub use eo_session::{Act, Note, Numbers, Observer, StepNote};
pub use laws::{single_names_law, soundness_law};
pub use loading::load_session;
pub use printing::{print_bench, print_line, print_verdict};

/// What is to be checked.
#[derive(Debug, Drop)]
pub struct CheckJob {
    /// The path of the file that is read first, if there is one.
    pub include: Option<Text>,
    /// The path of the file whose assertions the proof may assume, if there is one.
    pub reference: Option<Text>,
    /// The path of the proof.
    pub proof: Text,
    /// Whether the proof may declare no rules and no programs.
    pub closed: bool,
}

/// What a check or a load returns.
#[derive(Clone, Copy, Debug, PartialEq, Eq)]
pub enum Verdict {
    /// The proof is correct.
    Correct,
    /// The proof is correct but for steps by rules that are marked as unproved.
    Incomplete,
    /// A file was loaded, with so many accepted commands.
    Loaded { commands: u64 },
    /// A file is refused.
    Refused(Fault),
    /// A call of the library of files failed.
    ReadFault,
    /// There was no memory left.
    OutOfMemory,
}

/// How a check ends.
#[derive(Clone, Copy, Debug, PartialEq, Eq)]
pub enum CheckEnd {
    /// The proof is correct.
    Correct(Refutation),
    /// It is not: any other verdict of a check.
    Ended(Verdict),
}

/// What is known at the end of a correct proof.
#[derive(Clone, Copy, Debug, PartialEq, Eq)]
pub struct Refutation {
    /// The number of the command that made the first `false` outside all scopes: how many commands
    /// were accepted before it.
    pub command: u64,
    /// The place after the last byte of the proof.
    pub end: Place,
    /// Whether the proof's file was opened in another place too, as the include file or as the
    /// reference file.
    pub shared: bool,
}

/// What a load returns whose session is kept.
#[derive(Drop)]
pub enum LoadEnd {
    /// The file is accepted, and the session is in the state at its end, which is this place.
    Ready { session: Session, end: Place },
    /// It is not accepted: what a load returns, but never that it is loaded.
    Ended(Verdict),
}

/// What a bench returns.
#[derive(Clone, Copy, Debug, PartialEq, Eq)]
pub enum BenchEnd {
    /// Its check is correct, with so many accepted commands, and so many terms that are alive at
    /// its end.
    Correct { commands: u64, terms: usize },
    /// Its check ends otherwise.
    Other(Verdict),
}
