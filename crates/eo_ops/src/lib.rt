//! Operators on literals.
#![tactic(auto)]

ghost use Rattle.std.specs.Prelude.{◌≢◌, map, All};
ghost use Rattle.eo_term.specs.declared.OpName.TheVariants.{ToStr};
ghost use Rattle.eo_ops.specs.Operators.{op_value};
ghost use Rattle.eo_ops.specs.Lit.{lit, IsWellFormed, IsNoString};
ghost use Rattle.eo_ops.specs.OpResult.{Answers, IsNoMemory};

mod answers;
mod arithmetic;
mod conversions;
mod kinds;
mod logic;
mod parts;
mod texts;

use eo_base::Chars;
use eo_term::OpName;
use std::alloc::{AllocError, Global};

/// An argument or a value of an operator.
#[derive(Debug, Drop)]
pub enum Lit {
    /// `true` or `false`.
    Bool(bool),
    /// A number.
    Num(i128),
    /// A bit string: how many bits it has, at most 128, and the number that they write, the first
    /// bit being the highest.
    Bits { width: u8, value: u128 },
    /// A string.
    Str(Chars),
}

/// What an operator returns.
#[derive(Debug, Drop)]
pub enum OpResult {
    /// Its value.
    Value(Lit),
    /// It has none.
    Stuck,
    /// Its value is a number, a bit string or a string beyond the range.
    NumberRange,
    /// There was no memory left.
    Memory(AllocError),
}

/// The value of an operator on literals: `eo::is_z` to `eo::to_str` in the order of their names.
/// An operator on other things is stuck here, and so is a number of arguments, or a combination
/// of them, that the operator does not take.
///
/// Memory is taken only for strings.
pub fn apply(alloc: Global, op: OpName, args: &[Lit]) -> OpResult
    requires { All IsWellFormed args.now }
    ensures value { Answers result (op_value op (map lit args.now)) }
    ensures no_memory { op ≢ ToStr → All IsNoString args.now → IsNoMemory result }
{
    match op {
        OpName::IsZ => kinds::is_z(args),
        OpName::IsBin => kinds::is_bin(args),
        OpName::IsStr => kinds::is_str(args),
        OpName::IsBool => kinds::is_bool(args),
        OpName::IsVar => kinds::is_var(args),
        OpName::And => logic::and(args),
        OpName::Or => logic::or(args),
        OpName::Xor => logic::xor(args),
        OpName::Not => logic::not(args),
        OpName::Add => arithmetic::add(args),
        OpName::Mul => arithmetic::mul(args),
        OpName::Neg => arithmetic::neg(args),
        OpName::Zdiv => arithmetic::zdiv(args),
        OpName::Zmod => arithmetic::zmod(args),
        OpName::IsNeg => arithmetic::is_neg(args),
        OpName::Gt => arithmetic::gt(args),
        OpName::Len => parts::len(args),
        OpName::Concat => parts::concat(alloc, args),
        OpName::Extract => parts::extract(alloc, args),
        OpName::Find => texts::find(args),
        OpName::ToZ => conversions::to_z(args),
        OpName::ToBin => conversions::to_bin(args),
        OpName::ToStr => conversions::to_str(alloc, args),
        _ => OpResult::Stuck,
    }
}
