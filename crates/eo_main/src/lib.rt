//! The program as a call: it reads the words of a command line, runs what they ask for over a library
//! of files, and writes what is due to a sink.
#![tactic(auto)]

mod program;
mod proving;
mod showing;
mod trimming;
mod words;

use eo_base::Text;
use eo_run::CheckJob;
pub use program::{OUT_OF_MEMORY, completeness_law, ethos_main, run_in_memory};
pub use words::read_words;

/// What the words ask for.
#[derive(Debug, Drop)]
pub enum Request {
    /// The proof of this job is to be checked.
    Check(CheckJob),
    /// The signature file with this path is to be run.
    Load(Text),
    /// The bench with so many hops is to be run.
    Bench(u32),
    /// The value that a name has at the end of a signature file is to be shown.
    Show { file: Text, name: Text },
    /// The proof of this job is to be written without the commands that its refutation does not need.
    Trim(CheckJob),
    /// It is to be checked whether this proof shows that no valuation makes all assertions of this
    /// reference file true.
    Prove { reference: Text, proof: Text },
}
