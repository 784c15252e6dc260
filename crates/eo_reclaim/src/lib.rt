//! What a session needs to give terms back and keep what it holds: the terms of declarations, in the
//! order of their trees, declarations with other terms, and marks of what was held when each open
//! scope began.
#![tactic(auto)]

mod marks;
mod moving;

use eo_sig::SigMark;
use eo_term::Mark;
pub use marks::Marks;
pub use moving::{
    IdQueue, move_constant, move_macro, move_program, move_rule, push_constant, push_ids,
    push_macro, push_program, push_rule,
};

/// What was held when a scope began: the terms and the macros before these marks.
#[derive(Clone, Copy)]
pub struct ScopeMark {
    /// The mark of the terms.
    pub table: Mark,
    /// The mark of the macros.
    pub macros: SigMark,
}
