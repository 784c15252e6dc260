//! The records of declarations.
ghost use Rattle.std.specs.Prelude.{◌≡◌, length, option_map};
ghost use Rattle.std.specs.Option.{option_copied};
ghost use Rattle.eo_sig.specs.Signature.{constant_may_hold};
ghost use Rattle.eo_sig.specs.Growth.{Lasts};
ghost use Rattle.eo_sig.specs.Reading.{const_of, program_decl_of, rule_decl_of, read_constant, ConstBelow};
ghost use Rattle.eo_sig.specs.Held.{counted_decl_of};

use crate::LiteralClass;
use crate::types::{may_fold, may_type};
use eo_base::{List, Name};
use eo_term::{Id, Ids, Table};

/// A parameter of a declaration. Its number is its place in the list of parameters, from 0.
#[derive(Debug, Drop)]
pub struct Param {
    /// The name, of any bytes.
    pub name: Name,
    /// The type, in which earlier parameters may occur.
    pub ty: Id,
    /// Whether it is not written as an argument, but follows from the types of those that are.
    pub implicit: bool,
    /// Whether it represents a list of arguments, spelled by a constant with a terminator.
    pub list: bool,
}

/// Parameters in order.
pub type Params = List<Param>;

/// How a constant folds its arguments. A `usize` is the number of another constant.
#[derive(Clone, Copy, Debug)]
pub enum Attribute {
    /// The constant is applied to its arguments one after another.
    Plain,
    /// Any number of arguments, grouped from the right, that end in the terminator.
    RightNil(Id),
    /// Any number of arguments, grouped from the left, that begin with the terminator.
    LeftNil(Id),
    /// Two or more arguments, grouped from the right.
    Right,
    /// Two or more arguments, grouped from the left.
    Left,
    /// Applied to each two neighbours, and the results joined by the constant.
    Chain(usize),
    /// Applied to each two arguments, and the results joined by the constant.
    Pairs(usize),
    /// Binds variables, which are collected by the constant.
    Binder(usize),
}

/// The numbers of arguments that a constant takes.
#[derive(Clone, Copy, Debug, PartialEq, Eq)]
pub enum Counts {
    /// This one.
    Exactly(usize),
    /// All from this one on.
    From(usize),
}

/// A constant.
#[derive(Debug, Drop)]
pub struct ConstDecl {
    /// The name, of any bytes.
    pub name: Name,
    /// The parameters in order.
    pub params: Params,
    /// The type, with a function type that binds its argument for each explicit parameter.
    pub ty: Id,
    /// How it folds its arguments.
    pub attribute: Attribute,
    /// Whether the reference file declares it.
    pub from_reference: bool,
}

impl ConstDecl {
    /// It is the same constant where the table grows. A call costs nothing: it gives a proof this fact.
    pub fn laws(&self)
        ensures { Lasts self.now }
    {
        let _ty = self.ty;
    }

    /// Whether its type and its parameters' types hold no operator that a declared type may not
    /// hold, and its terminator, if it has one, is a value. Its terms are terms of the table.
    pub fn may_hold(&self, table: &Table) -> bool
        requires { ConstBelow (length table.now.trees) self.now }
        ensures { result ≡ constant_may_hold (read_constant table.now.trees self.now) }
    {
        table.may_be_type(self.ty)
            && may_type(table, self.params.as_slice())
            && may_fold(table, &self.attribute)
    }
}

/// A name for a tree, in which its parameters are open.
#[derive(Debug, Drop)]
pub struct MacroDecl {
    /// The name, of any bytes.
    pub name: Name,
    /// The parameters in order.
    pub params: Params,
    /// The tree.
    pub tree: Id,
    /// Whether the reference file declares it.
    pub from_reference: bool,
}

/// A case of a program.
#[derive(Debug, Drop)]
pub struct Case {
    /// The patterns of the arguments in order.
    pub patterns: Ids,
    /// What the program gives where they match.
    pub body: Id,
}

/// Cases in order.
pub type Cases = List<Case>;

/// A program: the first case whose patterns match its arguments gives its value.
#[derive(Debug, Drop)]
pub struct ProgramDecl {
    /// The name, of any bytes.
    pub name: Name,
    /// The parameters in order, which all cases share.
    pub params: Params,
    /// The types of the arguments in order.
    pub inputs: Ids,
    /// The type of its values.
    pub output: Id,
    /// The cases in order.
    pub cases: Cases,
}

/// What the premises of a rule are matched with.
#[derive(Debug, Drop)]
pub enum PremiseShape {
    /// One pattern for each premise.
    Each(Ids),
    /// One pattern for all premises, joined by the constant of this number.
    Joined {
        /// The pattern.
        pattern: Id,
        /// The number of the constant.
        with: usize,
    },
}

/// Pairs of terms in order.
pub type IdPairs = List<(Id, Id)>;

/// A rule.
#[derive(Debug, Drop)]
pub struct RuleDecl {
    /// The name, of any bytes.
    pub name: Name,
    /// The parameters in order.
    pub params: Params,
    /// The pattern of the assumption that the rule discharges, if it does.
    pub assumption: Option<Id>,
    /// What the premises are matched with.
    pub premises: PremiseShape,
    /// The patterns of the arguments in order.
    pub args: Ids,
    /// Pairs that must have equal values.
    pub requirements: IdPairs,
    /// The conclusion.
    pub conclusion: Id,
    /// Whether the rule is marked as unproved.
    pub sorry: bool,
}

/// What a name means among constants, macros and programs, by its number.
#[derive(Clone, Copy, Debug, PartialEq, Eq)]
pub enum Entry {
    /// A constant.
    Constant(usize),
    /// A macro.
    Macro(usize),
    /// A program.
    Program(usize),
}

/// What a command declares.
#[derive(Debug, Drop)]
pub enum Declaration {
    /// A constant.
    Const(ConstDecl),
    /// The type of a class of literals.
    Literal {
        /// The class.
        class: LiteralClass,
        /// Its type, in which parameter 0 is the literal.
        ty: Id,
    },
    /// A macro.
    Macro(MacroDecl),
    /// A program.
    Program(ProgramDecl),
    /// A rule.
    Rule(RuleDecl),
}

/// An entry of a signature's list: what is declared, apart from macros.
#[derive(Debug, Drop)]
pub enum Declared {
    /// A constant, with the numbers of arguments that it takes.
    Const(ConstDecl, Counts),
    /// A program.
    Program(ProgramDecl),
    /// A rule.
    Rule(RuleDecl),
    /// The type of a class of literals.
    Literal {
        /// The class.
        class: LiteralClass,
        /// Its type, in which parameter 0 is the literal.
        ty: Id,
    },
}

impl Declared {
    /// The constant, if it is one.
    pub(crate) fn as_constant(&self) -> Option<&ConstDecl>
        ensures { option_copied result ≡ const_of self.now }
    {
        match self {
            Declared::Const(d, _) => Some(d),
            Declared::Program(_) => None,
            Declared::Rule(_) => None,
            Declared::Literal { .. } => None,
        }
    }

    /// The numbers of arguments that it takes, if it is a constant.
    pub(crate) fn as_counts(&self) -> Option<Counts>
        ensures { result ≡ option_map (λ q. q.1) (counted_decl_of self.now) }
    {
        match self {
            Declared::Const(_, counts) => Some(*counts),
            Declared::Program(_) => None,
            Declared::Rule(_) => None,
            Declared::Literal { .. } => None,
        }
    }

    /// The program, if it is one.
    pub(crate) fn as_program(&self) -> Option<&ProgramDecl>
        ensures { option_copied result ≡ program_decl_of self.now }
    {
        match self {
            Declared::Const(_, _) => None,
            Declared::Program(d) => Some(d),
            Declared::Rule(_) => None,
            Declared::Literal { .. } => None,
        }
    }

    /// The rule, if it is one.
    pub(crate) fn as_rule(&self) -> Option<&RuleDecl>
        ensures { option_copied result ≡ rule_decl_of self.now }
    {
        match self {
            Declared::Const(_, _) => None,
            Declared::Program(_) => None,
            Declared::Rule(d) => Some(d),
            Declared::Literal { .. } => None,
        }
    }
}
