//! Commands from bytes.
#![tactic(auto)]

ghost use Rattle.eo_base.specs.Limits.{limits};
ghost use Rattle.eo_sexp.specs.Answering.{AnswersAlone};
ghost use Rattle.eo_sexp.specs.Cutting.{ReadsInPieces};
ghost use Rattle.eo_sexp.specs.ReadBack.{CommandsReadBack, LinesReadBack, SymbolsPrintAgain};

mod buffer;
mod classes;
mod count;
mod incremental;
mod lent;
mod plain;
mod printing;
mod reader;
mod token;

use eo_base::FaultName;
pub use incremental::Collector;
pub use lent::{Children, Sexp};
pub use printing::print_symbol;
use std::marker::Model;

/// What an s-expression is.
#[derive(Clone, Copy, Debug, PartialEq, Eq)]
pub enum Kind {
    List,
    Symbol,
    Keyword,
    Literal,
    String,
}

/// A byte of a file: its line, from 1, and how many bytes come before it.
#[derive(Clone, Copy, Debug, PartialEq, Eq)]
pub struct Spot {
    pub line: u64,
    pub offset: u64,
}

impl Model for Spot {
    ghost use Rattle.std.specs.Prelude.{◌<◌, ◌^◌};
    ghost use Rattle.eo_sexp.specs.Spot.{Spot};

    ghost Value = { Spot };

    ghost view = { λ s. record { line = s.line; offset = s.offset } };

    ghost invariant = { λ s. (s.line < 2 ^ 64) × (s.offset < 2 ^ 64) };

    ghost inverse = { λ s. record { line = s.line; offset = s.offset } };
}

/// What feeding a piece returns.
#[derive(Clone, Copy, Debug, PartialEq, Eq)]
pub enum Fed {
    /// The whole piece is taken.
    More,
    /// A command is whole. The rest of the piece is to be fed again.
    Command { used: usize },
    Fault { name: FaultName, at: Spot },
    Memory,
}

/// What the end of the input returns.
#[derive(Clone, Copy, Debug, PartialEq, Eq)]
pub enum Finished {
    End,
    /// An atom that the end makes whole.
    Command,
    Fault { name: FaultName, at: Spot },
}

/// A law: a file is read as a whole, however it is cut into pieces.
pub fn pieces_law()
    ensures { ReadsInPieces limits }
{}

/// A law: what the results of a collector say by themselves.
pub fn answers_law()
    ensures { AnswersAlone limits }
{}

/// A law: what is printed reads back as it is. A printed s-expression is read as that command,
/// whatever comes after the byte that ends it, and lines of them are the commands of a file. The
/// symbols of each command that is read can be printed again.
pub fn printed_law()
    ensures command { CommandsReadBack limits }
    ensures lines { LinesReadBack limits }
    ensures symbols { SymbolsPrintAgain limits }
{}
