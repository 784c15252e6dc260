//! The shape of each command: an s-expression as a command by its parts, which borrow from it.
#![tactic(auto)]

mod attributes;
mod cases;
mod commands;
mod parameters;
mod rules;
mod sequences;
mod shaping;
mod steps;
mod words;

pub use cases::CaseShapes;
use eo_lit::LiteralClass;
use eo_sexp::{Children, Sexp};
pub use parameters::ParameterShapes;
pub use sequences::{PairShapes, Symbols};
pub use shaping::command_of;
pub use words::symbol;

/// A parameter: a name and a type, with at most one of each mark.
#[derive(Drop)]
pub struct ParameterShape<'a> {
    /// The name.
    pub name: &'a [u8],
    /// The type.
    pub ty: Sexp<'a>,
    /// Whether it is marked `:implicit`.
    pub implicit: bool,
    /// Whether it is marked `:list`.
    pub list: bool,
}

/// How a constant folds its arguments (Ethos manual, attributes of constants).
#[derive(Drop)]
pub enum AttributeShape<'a> {
    /// Nothing is said.
    None,
    /// `:right-assoc-nil` with its terminator.
    RightNil(Sexp<'a>),
    /// `:left-assoc-nil` with its terminator.
    LeftNil(Sexp<'a>),
    /// `:right-assoc`
    Right,
    /// `:left-assoc`
    Left,
    /// `:chainable` with what joins.
    Chain(Sexp<'a>),
    /// `:pairwise` with what joins.
    Pairs(Sexp<'a>),
    /// `:binder` with what collects the variables.
    Binder(Sexp<'a>),
}

/// A case of a program: what the program is applied to, and the body.
#[derive(Drop)]
pub struct CaseShape<'a> {
    /// The patterns of the arguments.
    pub patterns: Children<'a>,
    /// The body.
    pub body: Sexp<'a>,
}

/// A program by its parts.
#[derive(Drop)]
pub struct ProgramShape<'a> {
    /// The name.
    pub name: &'a [u8],
    /// The parameters.
    pub params: ParameterShapes<'a>,
    /// The types of the inputs, of which there is one or more.
    pub inputs: Children<'a>,
    /// The type of the output.
    pub output: Sexp<'a>,
    /// The cases.
    pub cases: CaseShapes<'a>,
}

/// Two terms that are to have the same value.
#[derive(Drop)]
pub struct PairShape<'a> {
    /// The first.
    pub left: Sexp<'a>,
    /// The second.
    pub right: Sexp<'a>,
}

/// What the premises of a rule are matched with.
#[derive(Drop)]
pub enum PremisesShape<'a> {
    /// A pattern for each.
    Each(Children<'a>),
    /// One pattern for all, and what joins them.
    Joined {
        /// The pattern.
        pattern: Sexp<'a>,
        /// What joins the premises.
        joiner: Sexp<'a>,
    },
}

/// A rule by its parts.
#[derive(Drop)]
pub struct RuleShape<'a> {
    /// The name.
    pub name: &'a [u8],
    /// The parameters.
    pub params: ParameterShapes<'a>,
    /// The pattern of the assumption that the rule discharges, if it does.
    pub assumption: Option<Sexp<'a>>,
    /// What the premises are matched with.
    pub premises: PremisesShape<'a>,
    /// The patterns of the arguments.
    pub args: Children<'a>,
    /// The pairs of terms that are to have the same value.
    pub requirements: PairShapes<'a>,
    /// The conclusion.
    pub conclusion: Sexp<'a>,
    /// Whether it is marked `:sorry`, as unproved.
    pub sorry: bool,
}

/// A step by its parts.
#[derive(Drop)]
pub struct StepShape<'a> {
    /// The name of the fact.
    pub name: &'a [u8],
    /// The formula that is stated, if one is.
    pub stated: Option<Sexp<'a>>,
    /// The name of the rule.
    pub rule: &'a [u8],
    /// The names of the premises.
    pub premises: Symbols<'a>,
    /// The arguments.
    pub args: Children<'a>,
}

/// A command by its parts.
#[derive(Drop)]
pub enum Command<'a> {
    /// `(declare-const NAME TYPE ATTRIBUTE)`
    DeclareConst {
        name: &'a [u8],
        ty: Sexp<'a>,
        attribute: AttributeShape<'a>,
    },
    /// `(declare-fun NAME (INPUT ..) OUTPUT)`
    DeclareFun {
        name: &'a [u8],
        inputs: Children<'a>,
        output: Sexp<'a>,
    },
    /// `(declare-sort NAME ARITY)`, with an arity of at most 64.
    DeclareSort {
        name: &'a [u8],
        arity: u8,
    },
    /// `(declare-parameterized-const NAME (PARAMETER ..) TYPE ATTRIBUTE)`
    DeclareParameterized {
        name: &'a [u8],
        params: ParameterShapes<'a>,
        ty: Sexp<'a>,
        attribute: AttributeShape<'a>,
    },
    /// `(declare-consts CLASS TYPE)`
    DeclareLiterals {
        class: LiteralClass,
        ty: Sexp<'a>,
    },
    /// `(define NAME (PARAMETER ..) BODY)`
    Define {
        name: &'a [u8],
        params: ParameterShapes<'a>,
        body: Sexp<'a>,
    },
    /// `(program NAME (PARAMETER ..) :signature (INPUT ..) OUTPUT (CASE ..))`, with one input or
    /// more. A case is `((NAME PATTERN ..) BODY)`.
    Program(ProgramShape<'a>),
    /// `(declare-rule NAME (PARAMETER ..) [:assumption PATTERN]
    /// [:premises (PATTERN ..) | :premise-list PATTERN JOINER] [:args (PATTERN ..)]
    /// [:requires ((TERM TERM) ..)] :conclusion TERM [:sorry])`
    DeclareRule(RuleShape<'a>),
    /// `(assume NAME FORMULA)`
    Assume {
        name: &'a [u8],
        formula: Sexp<'a>,
    },
    /// `(assume-push NAME FORMULA)`
    AssumePush {
        name: &'a [u8],
        formula: Sexp<'a>,
    },
    /// `(step NAME [FORMULA] :rule RULE [:premises (NAME ..)] [:args (TERM ..)])`
    Step(StepShape<'a>),
    /// `(step-pop NAME [FORMULA] :rule RULE [:premises (NAME ..)] [:args (TERM ..)])`
    StepPop(StepShape<'a>),
    /// `(include "PATH")`
    Include {
        /// The path, as it is written between the quotes.
        path: &'a [u8],
    },
    /// `(reference "PATH")`
    Refer {
        /// The path, as it is written between the quotes.
        path: &'a [u8],
    },
    /// `(define-fun NAME ((PARAMETER TYPE) ..) OUTPUT BODY)`, in a reference file alone.
    DefineFun {
        name: &'a [u8],
        /// The parameters, none of which has a mark.
        params: ParameterShapes<'a>,
        output: Sexp<'a>,
        body: Sexp<'a>,
    },
    /// `(define-sort NAME (PARAMETER ..) TYPE)`, in a reference file alone.
    DefineSort {
        name: &'a [u8],
        params: Symbols<'a>,
        ty: Sexp<'a>,
    },
    /// `(assert FORMULA)`, in a reference file alone.
    Assert {
        formula: Sexp<'a>,
    },
    /// `(exit)`, in a reference file alone.
    Exit,
    /// A command of a reference file that says nothing here, as `check-sat`.
    Skip,
}

/// Why an s-expression is no command.
#[derive(Clone, Copy, Debug, PartialEq, Eq)]
pub enum ShapeRefused {
    /// Its word is no command of this kind of file.
    UnknownCommand,
    /// It is no list that begins with a symbol, or its parts have a wrong shape.
    BadCommand,
}
