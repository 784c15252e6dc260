//! Files that commands name.
ghost use Rattle.eo_shape.specs.Reading.{read_command};
ghost use Rattle.eo_session.specs.Store.{state_of};
ghost use Rattle.eo_session.specs.Commands.{next_by, path_of, reference_path};
ghost use Rattle.eo_session.specs.Stepping.{Gives};

use crate::store::Store;
use crate::{Next, Refused};
use eo_base::{FaultName, Text};
use eo_lit::string_bytes;
use eo_shape::Command;
use std::alloc::Global;

impl Store {
    /// What is done after a command, before the next one.
    pub(crate) fn next_by(&self, command: &Command<'_>) -> Result<Next, Refused>
        ensures { Gives result (next_by (state_of self.now) (read_command command.now)) }
    {
        match command {
            Command::Include { path } => {
                let path = path_of(self.alloc, path)?;
                Ok(Next::Include(path))
            }
            Command::Refer { path } => {
                let path = self.reference_path(path)?;
                Ok(Next::Reference(path))
            }
            Command::Exit => Ok(Next::Exit),
            _ => Ok(Next::Done),
        }
    }

    // The path of a reference file, where there is none yet.
    fn reference_path(&self, written: &[u8]) -> Result<Text, Refused>
        ensures { Gives result (reference_path (state_of self.now) written.now) }
    {
        if self.has_reference {
            return Err(Refused::Fault(FaultName::SecondReference));
        }
        path_of(self.alloc, written)
    }
}

// The path in a string, from the bytes between its quotes.
#[tactic(auto, using(crate::proofs::NamedPaths::path_text, crate::proofs::NamedPaths::path_no_text))]
fn path_of(alloc: Global, written: &[u8]) -> Result<Text, Refused>
    ensures { Gives result (path_of written.now) }
{
    let bytes = string_bytes(alloc, written)?;
    match str::from_utf8(&bytes) {
        Ok(path) => {
            let path = Text::new(alloc, path)?;
            Ok(path)
        }
        Err(_) => Err(Refused::Fault(FaultName::BadPath)),
    }
}
