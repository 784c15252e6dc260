//! What every layer uses: faults with their places, the program's status, limits, and the lists of
//! bytes and characters that one layer passes to the next.
#![tactic(auto)]

ghost use Rattle.std.specs.Prelude.{◌≡◌};
ghost use Rattle.eo_base.specs.Faults.{number};
ghost use Rattle.eo_base.specs.FaultTexts.{text};
ghost use Rattle.eo_base.specs.FaultLaws.{HaveOwnNumbers, HaveOwnTexts};
ghost use Rattle.eo_base.specs.Statuses.{status_code};

pub mod limits;
mod lists;
mod names;
mod results;

pub use lists::{Chars, List, Text};
pub use names::{Name, NameRef};
pub use results::ok_with;

/// Each fault that a file can have, in the order of their numbers from 1.
#[derive(Clone, Copy, Debug, PartialEq, Eq)]
pub enum FaultName {
    /// A byte that begins or continues no token.
    BadByte = 1,
    /// The input ends inside a list, a string or a quoted symbol.
    Unclosed,
    /// A `)` without an open list, or a token after a proof's outer pair.
    ExtraClose,
    /// A literal that spells no value.
    BadLiteral,
    /// A token of more bytes than the limit.
    TokenLong,
    /// A command of more bytes than the limit.
    CommandLong,
    /// Lists nested deeper than the limit.
    Nesting,
    /// A list of more children than the limit.
    Width,
    /// A path that is no UTF-8, that has no part left, or that is too long.
    BadPath,
    /// A command that is unknown in this kind of file.
    UnknownCommand,
    /// A command of a wrong shape.
    BadCommand,
    /// A name that is taken or reserved.
    Redeclared,
    /// A symbol that nothing declares.
    UnknownSymbol,
    /// A wrong number of arguments.
    BadArity,
    /// A term without a type.
    IllTyped,
    /// A term without a value.
    Stuck,
    /// A number or a bit string out of range.
    NumberRange,
    /// A term taller than the limit.
    TermHeight,
    /// More unfinished program calls than the limit.
    EvalDepth,
    /// More different program calls than the limit.
    EvalCalls,
    /// A parameter that no match can give a value.
    UnboundParam,
    /// A pattern, a declared type or a terminator with a part that is not allowed there.
    BadPattern,
    /// A rule that nothing declares.
    UnknownRule,
    /// A premise that is no fact.
    UnknownPremise,
    /// Premises or arguments that do not match the rule.
    PremiseMismatch,
    /// A stated conclusion that is not the rule's.
    ConclusionDiffers,
    /// A formula whose type is not `Bool`.
    NotBool,
    /// An assumption that the reference file does not assert.
    NotAsserted,
    /// A check without a reference file.
    NoReference,
    /// A second reference file.
    SecondReference,
    /// A command that is not allowed in a scope.
    InScope,
    /// The end of a scope where none is open.
    NoScope,
    /// More open scopes than the limit.
    ScopeDepth,
    /// Files included deeper than the limit.
    IncludeDepth,
    /// A file that is not there.
    FileAbsent,
    /// A rule used by the other kind of step.
    WrongKind,
    /// A file of more bytes than the limit.
    FileLong,
    /// A rule or a program that a proof declares though it may not.
    ProofDeclares,
    /// More parameters than the limit.
    Parameters,
    /// A scope that is open at the end.
    ScopeOpen,
    /// `false` is no fact at the end.
    NoRefutation,
    /// A value of which a part has no spelling.
    Unprintable,
    /// A proof whose file was opened more than once.
    ProofShared,
    /// A line of a certificate that breaks a form or a condition.
    BadCertificate,
    /// A certificate that does not reach `false`.
    NoFalse,
    /// A step by a rule that is not known to preserve truth.
    NotSemantic,
}

impl FaultName {
    /// Its number, from 1 to 46.
    #[tactic(auto, unfolding(crate::specs::Faults::number))]
    pub fn number(self) -> u8
        ensures { result ≡ number self }
    {
        self as u8
    }

    /// Its name, as it is printed.
    #[tactic(auto, unfolding(crate::specs::FaultTexts::text))]
    pub fn text(self) -> &'static str
        ensures { result.now ≡ text self }
    {
        match self {
            FaultName::BadByte => "BadByte",
            FaultName::Unclosed => "Unclosed",
            FaultName::ExtraClose => "ExtraClose",
            FaultName::BadLiteral => "BadLiteral",
            FaultName::TokenLong => "TokenLong",
            FaultName::CommandLong => "CommandLong",
            FaultName::Nesting => "Nesting",
            FaultName::Width => "Width",
            FaultName::BadPath => "BadPath",
            FaultName::UnknownCommand => "UnknownCommand",
            FaultName::BadCommand => "BadCommand",
            FaultName::Redeclared => "Redeclared",
            FaultName::UnknownSymbol => "UnknownSymbol",
            FaultName::BadArity => "BadArity",
            FaultName::IllTyped => "IllTyped",
            FaultName::Stuck => "Stuck",
            FaultName::NumberRange => "NumberRange",
            FaultName::TermHeight => "TermHeight",
            FaultName::EvalDepth => "EvalDepth",
            FaultName::EvalCalls => "EvalCalls",
            FaultName::UnboundParam => "UnboundParam",
            FaultName::BadPattern => "BadPattern",
            FaultName::UnknownRule => "UnknownRule",
            FaultName::UnknownPremise => "UnknownPremise",
            FaultName::PremiseMismatch => "PremiseMismatch",
            FaultName::ConclusionDiffers => "ConclusionDiffers",
            FaultName::NotBool => "NotBool",
            FaultName::NotAsserted => "NotAsserted",
            FaultName::NoReference => "NoReference",
            FaultName::SecondReference => "SecondReference",
            FaultName::InScope => "InScope",
            FaultName::NoScope => "NoScope",
            FaultName::ScopeDepth => "ScopeDepth",
            FaultName::IncludeDepth => "IncludeDepth",
            FaultName::FileAbsent => "FileAbsent",
            FaultName::WrongKind => "WrongKind",
            FaultName::FileLong => "FileLong",
            FaultName::ProofDeclares => "ProofDeclares",
            FaultName::Parameters => "Parameters",
            FaultName::ScopeOpen => "ScopeOpen",
            FaultName::NoRefutation => "NoRefutation",
            FaultName::Unprintable => "Unprintable",
            FaultName::ProofShared => "ProofShared",
            FaultName::BadCertificate => "BadCertificate",
            FaultName::NoFalse => "NoFalse",
            FaultName::NotSemantic => "NotSemantic",
        }
    }
}

/// A law: different faults have different numbers and different texts.
pub fn faults_law()
    ensures numbers { HaveOwnNumbers }
    ensures texts { HaveOwnTexts }
{}

/// Where a fault is.
#[derive(Clone, Copy, Debug, PartialEq, Eq)]
pub struct Place {
    /// The file's number in the table of paths.
    pub file: usize,
    /// The line, from 1.
    pub line: u64,
    /// How many bytes of the file come before it.
    pub offset: u64,
}

/// A fault with its place.
#[derive(Clone, Copy, Debug, PartialEq, Eq)]
pub struct Fault {
    pub name: FaultName,
    pub place: Place,
}

/// How a run of the program ends.
#[derive(Clone, Copy, Debug, PartialEq, Eq)]
pub enum Status {
    /// What was asked for is done: the proof is correct.
    Ok,
    /// The proof is correct but for steps by rules that are marked as unproved.
    Incomplete,
    /// A file is refused.
    Refused,
    /// The words of the command line have no reading.
    Usage,
    /// A call of the library of files failed.
    ReadFault,
    /// A call of the sink for the output failed.
    WriteFault,
    /// There was no memory left.
    OutOfMemory,
}

impl Status {
    /// The process's exit status, from 0 to 6.
    #[tactic(auto, unfolding(crate::specs::Statuses::status_code))]
    pub fn code(self) -> u8
        ensures { result ≡ status_code self }
    {
        self as u8
    }
}
