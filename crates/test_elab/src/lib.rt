//! Tests of the meaning of terms and of declarations (`eo_elab`, `eo_declare`), in a crate of their
//! own: with them in their own crates the layers would be proved once more.
#![tactic(auto)]

#[cfg(test)]
mod tests;
