//! Tests of the program as a call (`eo_main`), by its words, its files and what fails, in a crate of their own: with
//! them in its own crate the layer would be proved once more.
#![tactic(auto)]

#[cfg(test)]
mod tests;
