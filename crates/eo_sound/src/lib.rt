//! What each command of a session keeps: where nothing is wrong at the end, `false` is derivable from
//! what was asserted, and in a closed session the proof declares no program and no rule.
#![tactic(auto)]

mod laws;

pub use laws::{allowed_law, commands_law};
