//! Tests of commands of reference files (`eo_ref`), in a crate of their own: with them in its own crate the layer would be
//! proved once more.
#![tactic(auto)]

#[cfg(test)]
mod tests;
