//! The lines of a certificate: what is written in one, and reading it.
#![tactic(auto)]

mod fields;
mod forms;
mod hexadecimal;

pub use forms::parse;

/// A term by its parts. Numbers name what earlier lines state.
#[derive(Drop)]
pub enum TermLine {
    /// The constant with this number.
    Constant(u64),
    /// A number.
    Number(i128),
    /// A bit string.
    Bits { width: u64, value: u128 },
    /// A string by the codes of its characters.
    String(Vec<u64>),
    /// The parameter with this number.
    Parameter(u64),
    /// A variable by the string that names it, and its type.
    Variable { name: u64, ty: u64 },
    /// An application of a function to an argument.
    Application { fun: u64, arg: u64 },
    /// A function type.
    Arrow { from: u64, to: u64 },
    /// A function type that binds a parameter of this type.
    BoundArrow { par: u64, ty: u64, to: u64 },
    /// An operator by its name, and its arguments.
    Operator { name: Vec<u8>, args: Vec<u64> },
    /// A program, and its arguments.
    Call { program: u64, args: Vec<u64> },
}

/// An evaluation.
#[derive(Drop)]
pub struct EvaluationLine {
    /// What is evaluated.
    pub term: u64,
    /// What it is evaluated to, and none where it is stuck.
    pub outcome: Option<u64>,
    /// How many calls are open at once inside it.
    pub depth: u64,
    /// The lines of the parts that it evaluates.
    pub listed: Vec<u64>,
}

/// How a call goes on.
#[derive(Drop)]
pub struct CallLine {
    /// The case that is taken, and none where no case matches.
    pub taken: Option<u64>,
    /// Each parameter of the case before the term in its place.
    pub pairs: Vec<(u64, u64)>,
    /// The line of the body, and none where the body is a value.
    pub body: Option<u64>,
}

/// A use of a rule, and what it concludes.
#[derive(Drop)]
pub struct StepLine {
    /// The context of what it concludes.
    pub context: u64,
    /// The rule.
    pub rule: u64,
    /// The context whose assumption is discharged, if one is.
    pub inner: Option<u64>,
    /// The derivations of the premises.
    pub premises: Vec<u64>,
    /// The arguments.
    pub args: Vec<u64>,
    /// Each parameter of the rule before the term in its place.
    pub pairs: Vec<(u64, u64)>,
    /// The conclusion under the rule's requirements.
    pub guarded: u64,
    /// Its line, and none where it is a value.
    pub line: Option<u64>,
    /// What is concluded.
    pub formula: u64,
}

/// A line of a certificate. Numbers name what earlier lines state.
#[derive(Drop)]
pub enum Line {
    /// A command of a signature file.
    Declares(Vec<u8>),
    /// A command of the reference file.
    Refers(Vec<u8>),
    /// The next term.
    States(TermLine),
    /// The next evaluation of the block, which begins no call.
    Evaluates(EvaluationLine),
    /// The next evaluation of the block, which begins a call.
    Calls(EvaluationLine, CallLine),
    /// The next context, inside a context and with an assumption.
    Assumes { context: u64, term: u64 },
    /// The next derivation, of what is asserted or assumed.
    Cites { context: u64, term: u64 },
    /// The next derivation, by a rule.
    Steps(StepLine),
}
