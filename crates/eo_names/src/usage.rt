//! How a head uses its arguments.
use eo_term::{Id, OpCode};

/// How a head uses its arguments.
#[derive(Clone, Copy)]
pub enum Head {
    /// The term is applied to them, one after another.
    Apply(Id),
    /// The first is applied to the others, one after another.
    Underscore,
    /// They are the types of a function type.
    Arrow,
    /// The constant is applied to them as its attribute says.
    Fold(usize),
    /// The constant is applied to a list of variables, made by another constant, and to the rest.
    Bind { binder: usize, collector: usize },
    /// They are the values of the parameters of the term.
    Macro(Id),
    /// They are the arguments of an operator or a program.
    Operator(OpCode),
}
