//! Tests of proofs of validity (`eo_sem`), in a crate of their own: with them in its own crate the layer would be
//! proved once more.
#![tactic(auto)]

#[cfg(test)]
mod tests;
