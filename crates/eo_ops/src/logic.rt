//! Booleans, and bit strings bit by bit.
ghost use Rattle.std.specs.Prelude.{◌≡◌, ◌≤◌, [], ◌∷◌, map, All, ◌&&◌, ◌||◌};
ghost use Rattle.eo_ops.specs.Operators.{BitString, logical, complement, exclusive_or};
ghost use Rattle.eo_ops.specs.Lit.{lit, IsWellFormed, FitsWidth};
ghost use Rattle.eo_ops.specs.OpResult.{Answers};

use crate::answers::{bits, low_ones, truth};
use crate::{Lit, OpResult};

pub(crate) fn and(args: &[Lit]) -> OpResult
    requires { All IsWellFormed args.now }
    ensures { Answers result (logical ◌&&◌ (map lit args.now)) }
{
    match args {
        [Lit::Bool(a), Lit::Bool(b)] => truth(*a && *b),
        [
            Lit::Bits { width, value: a },
            Lit::Bits {
                width: other,
                value: b,
            },
        ] if width == other => and_bits(*width, *a, *b),
        _ => OpResult::Stuck,
    }
}

fn and_bits(width: u8, a: u128, b: u128) -> OpResult
    requires { width ≤ 128 }
    ensures { Answers result (logical ◌&&◌ (BitString width a ∷ BitString width b ∷ [])) }
{
    bits(width, a & b)
}

pub(crate) fn or(args: &[Lit]) -> OpResult
    requires { All IsWellFormed args.now }
    ensures { Answers result (logical ◌||◌ (map lit args.now)) }
{
    match args {
        [Lit::Bool(a), Lit::Bool(b)] => truth(*a || *b),
        [
            Lit::Bits { width, value: a },
            Lit::Bits {
                width: other,
                value: b,
            },
        ] if width == other => or_bits(*width, *a, *b),
        _ => OpResult::Stuck,
    }
}

fn or_bits(width: u8, a: u128, b: u128) -> OpResult
    requires { width ≤ 128 }
    ensures { Answers result (logical ◌||◌ (BitString width a ∷ BitString width b ∷ [])) }
{
    bits(width, a | b)
}

pub(crate) fn xor(args: &[Lit]) -> OpResult
    requires { All IsWellFormed args.now }
    ensures { Answers result (logical exclusive_or (map lit args.now)) }
{
    match args {
        [Lit::Bool(a), Lit::Bool(b)] => truth(*a ^ *b),
        [
            Lit::Bits { width, value: a },
            Lit::Bits {
                width: other,
                value: b,
            },
        ] if width == other => xor_bits(*width, *a, *b),
        _ => OpResult::Stuck,
    }
}

fn xor_bits(width: u8, a: u128, b: u128) -> OpResult
    requires { width ≤ 128 }
    ensures { Answers result (logical exclusive_or (BitString width a ∷ BitString width b ∷ [])) }
{
    bits(width, a ^ b)
}

pub(crate) fn not(args: &[Lit]) -> OpResult
    requires { All IsWellFormed args.now }
    ensures { Answers result (complement (map lit args.now)) }
{
    match args {
        [Lit::Bool(a)] => truth(!*a),
        [Lit::Bits { width, value }] => not_bits(*width, *value),
        _ => OpResult::Stuck,
    }
}

fn not_bits(width: u8, value: u128) -> OpResult
    requires { FitsWidth width value }
    ensures { Answers result (complement (BitString width value ∷ [])) }
{
    bits(width, low_ones(width) - value)
}
