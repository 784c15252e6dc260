//! Tests of files and sinks (`eo_io`), in a crate of their own: with them in its own crate the layer would be
//! proved once more.
#![tactic(auto)]

#[cfg(test)]
mod tests;
