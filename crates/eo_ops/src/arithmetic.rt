//! Numbers, and bit strings as numbers modulo two to the power of their width.
ghost use Rattle.std.specs.Prelude.{◌≡◌, ◌≢◌, ◌≤◌, [], ◌∷◌, ◌+ℤ◌, ◌*ℤ◌, ◌+◌, ◌*◌, ◌/◌, ◌%◌};
ghost use Rattle.std.specs.Prelude.{map, All};
ghost use Rattle.eo_ops.specs.Operators.{Number, BitString, arithmetic, negative, division, quotient, remainder, below_zero, greater};
ghost use Rattle.eo_ops.specs.Lit.{lit, IsWellFormed, FitsWidth};
ghost use Rattle.eo_ops.specs.OpResult.{Answers};

use crate::answers::{bits, number, truth};
use crate::{Lit, OpResult};

pub(crate) fn add(args: &[Lit]) -> OpResult
    requires { All IsWellFormed args.now }
    ensures { Answers result (arithmetic ◌+ℤ◌ ◌+◌ (map lit args.now)) }
{
    match args {
        [Lit::Num(a), Lit::Num(b)] => add_numbers(*a, *b),
        [
            Lit::Bits { width, value: a },
            Lit::Bits {
                width: other,
                value: b,
            },
        ] if width == other => add_bits(*width, *a, *b),
        _ => OpResult::Stuck,
    }
}

fn add_numbers(a: i128, b: i128) -> OpResult
    ensures { Answers result (arithmetic ◌+ℤ◌ ◌+◌ (Number a ∷ Number b ∷ [])) }
{
    number(a.checked_add(b))
}

fn add_bits(width: u8, a: u128, b: u128) -> OpResult
    requires { width ≤ 128 }
    ensures { Answers result (arithmetic ◌+ℤ◌ ◌+◌ (BitString width a ∷ BitString width b ∷ [])) }
{
    bits(width, a.wrapping_add(b))
}

pub(crate) fn mul(args: &[Lit]) -> OpResult
    requires { All IsWellFormed args.now }
    ensures { Answers result (arithmetic ◌*ℤ◌ ◌*◌ (map lit args.now)) }
{
    match args {
        [Lit::Num(a), Lit::Num(b)] => mul_numbers(*a, *b),
        [
            Lit::Bits { width, value: a },
            Lit::Bits {
                width: other,
                value: b,
            },
        ] if width == other => mul_bits(*width, *a, *b),
        _ => OpResult::Stuck,
    }
}

fn mul_numbers(a: i128, b: i128) -> OpResult
    ensures { Answers result (arithmetic ◌*ℤ◌ ◌*◌ (Number a ∷ Number b ∷ [])) }
{
    number(a.checked_mul(b))
}

fn mul_bits(width: u8, a: u128, b: u128) -> OpResult
    requires { width ≤ 128 }
    ensures { Answers result (arithmetic ◌*ℤ◌ ◌*◌ (BitString width a ∷ BitString width b ∷ [])) }
{
    bits(width, a.wrapping_mul(b))
}

pub(crate) fn neg(args: &[Lit]) -> OpResult
    requires { All IsWellFormed args.now }
    ensures { Answers result (negative (map lit args.now)) }
{
    match args {
        [Lit::Num(a)] => number(a.checked_neg()),
        [Lit::Bits { width, value }] => neg_bits(*width, *value),
        _ => OpResult::Stuck,
    }
}

fn neg_bits(width: u8, value: u128) -> OpResult
    requires { FitsWidth width value }
    ensures { Answers result (negative (BitString width value ∷ [])) }
{
    bits(width, value.wrapping_neg())
}

pub(crate) fn zdiv(args: &[Lit]) -> OpResult
    requires { All IsWellFormed args.now }
    ensures { Answers result (division quotient ◌/◌ (map lit args.now)) }
{
    match args {
        [Lit::Num(a), Lit::Num(b)] => zdiv_numbers(*a, *b),
        [
            Lit::Bits { width, value: a },
            Lit::Bits {
                width: other,
                value: b,
            },
        ] if width == other => zdiv_bits(*width, *a, *b),
        _ => OpResult::Stuck,
    }
}

fn zdiv_numbers(a: i128, b: i128) -> OpResult
    ensures { Answers result (division quotient ◌/◌ (Number a ∷ Number b ∷ [])) }
{
    if b == 0 {
        return OpResult::Stuck;
    }
    number(a.checked_div_euclid(b))
}

fn zdiv_bits(width: u8, a: u128, b: u128) -> OpResult
    requires { FitsWidth width a }
    ensures { Answers result (division quotient ◌/◌ (BitString width a ∷ BitString width b ∷ [])) }
{
    if b == 0 {
        return OpResult::Stuck;
    }
    bits(width, a / b)
}

pub(crate) fn zmod(args: &[Lit]) -> OpResult
    requires { All IsWellFormed args.now }
    ensures { Answers result (division remainder ◌%◌ (map lit args.now)) }
{
    match args {
        [Lit::Num(a), Lit::Num(b)] => zmod_numbers(*a, *b),
        [
            Lit::Bits { width, value: a },
            Lit::Bits {
                width: other,
                value: b,
            },
        ] if width == other => zmod_bits(*width, *a, *b),
        _ => OpResult::Stuck,
    }
}

fn zmod_numbers(a: i128, b: i128) -> OpResult
    ensures { Answers result (division remainder ◌%◌ (Number a ∷ Number b ∷ [])) }
{
    if b == 0 {
        return OpResult::Stuck;
    }
    number(a.checked_rem_euclid(b))
}

fn zmod_bits(width: u8, a: u128, b: u128) -> OpResult
    requires { FitsWidth width a }
    ensures { Answers result (division remainder ◌%◌ (BitString width a ∷ BitString width b ∷ [])) }
{
    if b == 0 {
        return OpResult::Stuck;
    }
    bits(width, a % b)
}

pub(crate) fn is_neg(args: &[Lit]) -> OpResult
    ensures { Answers result (below_zero (map lit args.now)) }
{
    match args {
        [Lit::Num(a)] => truth(*a < 0),
        _ => OpResult::Stuck,
    }
}

pub(crate) fn gt(args: &[Lit]) -> OpResult
    ensures { Answers result (greater (map lit args.now)) }
{
    match args {
        [Lit::Num(a), Lit::Num(b)] => truth(*a > *b),
        [
            Lit::Bits { width, value: a },
            Lit::Bits {
                width: other,
                value: b,
            },
        ] if width == other => truth(*a > *b),
        _ => OpResult::Stuck,
    }
}
