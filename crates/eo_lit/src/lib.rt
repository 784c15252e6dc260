//! Literals and string literals: their values, and a spelling of each that reads back.
#![tactic(auto)]

mod decimal;
mod hexadecimal;
mod literals;
mod spelling;
mod strings;

pub use decimal::read_numeral;
pub use literals::read_literal;
pub use spelling::{write_literal, write_string};
use std::alloc::AllocError;
pub use strings::{read_string, string_bytes};
use thiserror::Error;

/// A class of literals that gets one declared type.
#[derive(Clone, Copy, Debug, PartialEq, Eq)]
pub enum LiteralClass {
    /// Integers.
    Numeral,
    /// Bit strings.
    Binary,
    /// Strings of characters.
    String,
}

/// The value of a literal.
#[derive(Clone, Copy, Debug, PartialEq, Eq)]
pub enum LitRead {
    /// A number.
    Num(i128),
    /// A bit string: how many bits it has, from 1 to 128, and the number that they write, the
    /// first bit being the highest.
    Bits { width: u8, value: u128 },
}

/// A word that is no literal: it is not spelled as one, its number lies outside -2^127 to
/// 2^127 - 1, or it has more than 128 bits.
#[derive(Clone, Copy, Debug, PartialEq, Eq, Drop, Error)]
#[error("no literal of a value that is accepted")]
pub struct BadLiteral;

/// Why a string literal was not read.
#[derive(Debug, Drop, Error)]
pub enum StringRefused {
    /// It holds a byte that is not allowed in a string used as a term, or a quote that is not
    /// doubled.
    #[error("a byte that may not stand in a string used as a term")]
    Bad,
    /// There was no memory left.
    #[error(transparent)]
    Memory(AllocError),
}
