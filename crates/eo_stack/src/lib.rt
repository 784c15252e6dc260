//! What an evaluation is made of: what waits for a result, the values of parameters, the keys of
//! calls, their bodies, and the results of nodes over the values of their parts.
#![tactic(auto)]

mod bodies;
mod calls;
mod env;
mod operators;
mod stack;

pub use bodies::{find_body, fits_unsubstituted};
pub use calls::{Args, CallKey, LocalKey};
pub use env::Env;
use eo_term::Id;
pub use operators::apply_node;
pub use stack::{CallMemo, Control, Frame, Stack};

/// How evaluation ends.
#[derive(Clone, Copy, Debug, PartialEq, Eq)]
pub enum Outcome {
    /// With a value.
    Value(Id),
    /// With none.
    Stuck,
    /// More calls are open than may be.
    Deep,
    /// More different calls were begun than may be.
    Calls,
    /// A number is out of range.
    Range,
    /// A term is too tall.
    Tall,
}
