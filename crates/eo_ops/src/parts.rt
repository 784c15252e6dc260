//! Lengths and parts of bit strings and of strings.
ghost use Rattle.std.specs.Prelude.{◌≡◌, ◌≤◌, ◌<◌, ◌+◌, ◌-◌, ◌++◌, [], ◌∷◌, IfOk, map, All};
ghost use Rattle.eo_ops.specs.Operators.{BitString, Text, Number, length_of, joined, extracted};
ghost use Rattle.eo_ops.specs.Lit.{lit, IsWellFormed, IsNoString, FitsWidth};
ghost use Rattle.eo_ops.specs.Places.{place_range};
ghost use Rattle.eo_ops.specs.OpResult.{Answers, IsNoMemory};
ghost use Rattle.eo_base.specs.Characters.{AreCharacters};

use crate::answers::{bits, string};
use crate::{Lit, OpResult};
use eo_base::Chars;
use eo_base::limits::CHARACTERS;
use std::alloc::{AllocError, Global};

/// The greatest width of a bit string.
const WIDTH: u8 = 128;

pub(crate) fn len(args: &[Lit]) -> OpResult
    ensures { Answers result (length_of (map lit args.now)) }
{
    match args {
        [Lit::Bits { width, .. }] => OpResult::Value(Lit::Num(i128::from(*width))),
        [Lit::Str(s)] => OpResult::Value(Lit::Num(s.as_slice().len() as i128)),
        _ => OpResult::Stuck,
    }
}

pub(crate) fn concat(alloc: Global, args: &[Lit]) -> OpResult
    requires { All IsWellFormed args.now }
    ensures value { Answers result (joined (map lit args.now)) }
    ensures no_memory { All IsNoString args.now → IsNoMemory result }
{
    match args {
        [
            Lit::Bits { width, value: high },
            Lit::Bits {
                width: low_width,
                value: low,
            },
        ] => concat_bits(*width, *high, *low_width, *low),
        [Lit::Str(s), Lit::Str(t)] => concat_strings(alloc, s, t),
        _ => OpResult::Stuck,
    }
}

/// Two bit strings, the first as the high part.
fn concat_bits(width: u8, high: u128, low_width: u8, low: u128) -> OpResult
    requires high_fits { FitsWidth width high }
    requires low_fits { FitsWidth low_width low }
    ensures value { Answers result (joined (BitString width high ∷ BitString low_width low ∷ [])) }
    ensures no_memory { IsNoMemory result }
{
    if width > WIDTH - low_width {
        return OpResult::NumberRange;
    }
    let shifted = high.checked_shl(u32::from(low_width)).unwrap_or(0);
    bits(width + low_width, shifted | low)
}

/// The characters of one string and then of the other.
fn concat_strings(alloc: Global, s: &Chars, t: &Chars) -> OpResult
    ensures { Answers result (joined (Text s.now ∷ Text t.now ∷ [])) }
{
    let s = s.as_slice();
    let t = t.as_slice();
    if s.len() + t.len() > CHARACTERS {
        return OpResult::NumberRange;
    }
    string(append_chars(alloc, s, t))
}

fn append_chars(alloc: Global, s: &[u32], t: &[u32]) -> Result<Chars, AllocError>
    requires s_characters { AreCharacters s.now }
    requires t_characters { AreCharacters t.now }
    ensures { IfOk result (λ characters. characters ≡ s.now ++ t.now) }
{
    let mut characters = Vec::with_capacity(alloc, s.len() + t.len())?;
    characters.extend_from_slice(s)?;
    characters.extend_from_slice(t)?;
    Chars::new(alloc, &characters)
}

pub(crate) fn extract(alloc: Global, args: &[Lit]) -> OpResult
    requires { All IsWellFormed args.now }
    ensures value { Answers result (extracted (map lit args.now)) }
    ensures no_memory { All IsNoString args.now → IsNoMemory result }
{
    match args {
        [Lit::Bits { width, value }, Lit::Num(low), Lit::Num(high)] => {
            extract_bits(*width, *value, *low, *high)
        }
        [Lit::Str(s), Lit::Num(first), Lit::Num(last)] => extract_string(alloc, s, *first, *last),
        _ => OpResult::Stuck,
    }
}

/// The bits from one place up to another, bit 0 being the lowest.
fn extract_bits(width: u8, value: u128, low: i128, high: i128) -> OpResult
    requires { FitsWidth width value }
    ensures value { Answers result (extracted (BitString width value ∷ Number low ∷ Number high ∷ [])) }
    ensures no_memory { IsNoMemory result }
{
    let (start, end) = places(usize::from(width), low, high);
    bits((end - start) as u8, value >> start)
}

/// The characters from one place to another, the first being 0.
fn extract_string(alloc: Global, s: &Chars, first: i128, last: i128) -> OpResult
    ensures { Answers result (extracted (Text s.now ∷ Number first ∷ Number last ∷ [])) }
{
    let s = s.as_slice();
    let (start, end) = places(s.len(), first, last);
    string(Chars::new(alloc, &s[start..end]))
}

/// Where the places from `first` to `last` begin and end, of those that a list of this length has.
/// The end is the place after the last one.
fn places(len: usize, first: i128, last: i128) -> (usize, usize)
    ensures value { result ≡ place_range len first last }
    ensures order { result.0 ≤ result.1 }
    ensures within { result.1 ≤ len }
    ensures starts { result.0 ≤ len - 1 }
{
    let len = len as i128;
    if first < 0 || last < first || first >= len {
        return (0, 0);
    }
    (first as usize, last.min(len - 1) as usize + 1)
}
