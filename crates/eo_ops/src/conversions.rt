//! Numbers, bit strings and strings from one another.
ghost use Rattle.std.specs.Prelude.{map, All, [], ◌∷◌, pos};
ghost use Rattle.eo_ops.specs.Operators.{Number, as_number, as_bits, as_text, in_width};
ghost use Rattle.eo_ops.specs.Lit.{lit, IsWellFormed};
ghost use Rattle.eo_ops.specs.OpResult.{Answers};

use crate::answers::{bits, number, string};
use crate::{Lit, OpResult};
use eo_base::Chars;
use std::alloc::Global;

/// The greatest character of a string.
const GREATEST_CHARACTER: i128 = 0x2_ffff;

pub(crate) fn to_z(args: &[Lit]) -> OpResult
    ensures { Answers result (as_number (map lit args.now)) }
{
    match args {
        [Lit::Num(a)] => number(Some(*a)),
        [Lit::Bits { value, .. }] => number(i128::try_from(*value).ok()),
        [Lit::Str(s)] => match s.as_slice() {
            [character] => number(Some(i128::from(*character))),
            _ => OpResult::Stuck,
        },
        _ => OpResult::Stuck,
    }
}

pub(crate) fn to_bin(args: &[Lit]) -> OpResult
    requires { All IsWellFormed args.now }
    ensures { Answers result (as_bits (map lit args.now)) }
{
    match args {
        [Lit::Num(width), Lit::Num(n)] => number_in_width(*width, *n),
        [Lit::Num(width), Lit::Bits { value, .. }] => in_width(*width, *value),
        _ => OpResult::Stuck,
    }
}

/// The last bits of the number, as two's complement has them, in this width.
fn number_in_width(width: i128, n: i128) -> OpResult
    ensures { Answers result (in_width width n) }
{
    in_width(width, n.cast_unsigned())
}

/// The last bits of the value, in this width.
fn in_width(width: i128, value: u128) -> OpResult
    ensures { Answers result (in_width width (pos value)) }
{
    if width < 0 {
        OpResult::Stuck
    } else if width > 128 {
        OpResult::NumberRange
    } else {
        bits(width as u8, value)
    }
}

pub(crate) fn to_str(alloc: Global, args: &[Lit]) -> OpResult
    ensures { Answers result (as_text (map lit args.now)) }
{
    match args {
        [Lit::Num(code)] => one_character(alloc, *code),
        [Lit::Str(s)] => string(Chars::new(alloc, s.as_slice())),
        _ => OpResult::Stuck,
    }
}

/// The string of the character with this number, where there is one.
fn one_character(alloc: Global, code: i128) -> OpResult
    ensures { Answers result (as_text (Number code ∷ [])) }
{
    if code < 0 || code > GREATEST_CHARACTER {
        return OpResult::Stuck;
    }
    string(Chars::new(alloc, &[code as u32]))
}
