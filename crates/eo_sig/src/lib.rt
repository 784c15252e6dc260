//! What is declared: constants, macros, programs, rules and the types of the classes of literals,
//! kept in order of declaration and found by name and by number.
//!
//! A declaration holds numbers of terms of one table. What it means is its reading over the trees
//! of that table, which the call's contract names by `signature trees kept`.
#![tactic(auto)]

mod counts;
mod laws;
mod ordering;
mod overloads;
mod patterns;
mod records;
mod refused;
mod reserved;
mod signature;
mod types;
mod view;

pub use eo_lit::LiteralClass;
pub use laws::{growth_law, longer_law};
pub use ordering::are_ordered;
pub use records::{
    Attribute, Case, Cases, ConstDecl, Counts, Declaration, Declared, Entry, IdPairs, MacroDecl,
    Param, Params, PremiseShape, ProgramDecl, RuleDecl,
};
pub use refused::SigRefused;
pub use reserved::is_reserved;
pub use signature::{SigMark, Signature};
pub use view::SignatureView;
