//! Outcomes of closed terms.
mod operators;
mod programs;
mod rows;
mod words;
mod world;
