//! Types of terms: of constants and literals by what is declared, of applications by matching, and
//! the operators in types replaced by their values.
#![tactic(auto)]

mod application;
mod known;
mod laws;
mod leaves;
mod literals;
mod operators;
mod partwise;
mod refused;
mod settling;
mod types;
mod undoing;

pub use laws::settled_law;
pub use leaves::is_constant;
pub use literals::operator_value;
pub use refused::TypeRefused;
pub use settling::settle;
pub use types::Types;
