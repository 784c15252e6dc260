//! The meaning of declarations: the commands that declare, by what their names mean, as
//! records over the terms of a table.
#![tactic(auto)]

mod constants;
mod declaring;
mod laws;
mod parameters;
mod programs;
mod references;
mod rules;

pub use declaring::{
    declaration, declared_const, declared_fun, declared_literals, declared_parameterized,
    declared_sort, define_macro, defined_allowed,
};
pub use laws::{ordering_law, reference_law};
pub use programs::declared_program;
pub use references::{defined_fun, defined_sort, reference_declaration};
pub use rules::declared_rule;
