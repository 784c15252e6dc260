//! Answers from their parts.
ghost use Rattle.std.specs.Prelude.{◌≡◌, ◌≤◌, ◌+◌, ◌%◌, ◌^◌, MatchOption, MatchResult};
ghost use Rattle.eo_ops.specs.declared.Lit.TheVariants.{Bool, Num, Bits, Str};
ghost use Rattle.eo_ops.specs.declared.OpResult.TheVariants.{Value, NumberRange, Memory};

use crate::{Lit, OpResult};
use eo_base::Chars;
use std::alloc::AllocError;

pub(crate) fn truth(value: bool) -> OpResult
    ensures { result ≡ Value (Bool value) }
{
    OpResult::Value(Lit::Bool(value))
}

/// The number, where it is in range.
pub(crate) fn number(value: Option<i128>) -> OpResult
    ensures { MatchOption value (result ≡ NumberRange) (λ z. result ≡ Value (Num z)) }
{
    match value {
        Some(value) => OpResult::Value(Lit::Num(value)),
        None => OpResult::NumberRange,
    }
}

/// The last bits of the value.
pub(crate) fn bits(width: u8, value: u128) -> OpResult
    requires { width ≤ 128 }
    ensures { result ≡ Value (Bits width (value % 2 ^ width)) }
{
    OpResult::Value(Lit::Bits {
        width,
        value: value & low_ones(width),
    })
}

/// The greatest number of so many bits.
pub(crate) fn low_ones(width: u8) -> u128
    requires { width ≤ 128 }
    ensures { result + 1 ≡ 2 ^ width }
{
    u128::MAX.checked_shr(128 - u32::from(width)).unwrap_or(0)
}

/// The string, where there was memory for it.
pub(crate) fn string(value: Result<Chars, AllocError>) -> OpResult
    ensures { MatchResult value (λ characters. result ≡ Value (Str characters)) (λ e. result ≡ Memory e) }
{
    match value {
        Ok(characters) => OpResult::Value(Lit::Str(characters)),
        Err(e) => OpResult::Memory(e),
    }
}
