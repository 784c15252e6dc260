//! Bit strings that a reference file writes by their value and width (SMT-LIB 2.6, theory of bit
//! vectors of fixed sizes).
ghost use Rattle.std.specs.Prelude.{◌≡◌, ◌==◌, ◌+◌, ◌*◌, ◌≤◌, ◌<◌, ◌^◌, ◌%◌};
ghost use Rattle.std.specs.Prelude.{IfSome, IsTrue, None, length, codes, option_map, option_and_then, if◌then◌else◌};
ghost use Rattle.std.specs.List.{starts_with};
ghost use Rattle.eo_sexp.specs.Sexp.{sexps_of};
ghost use Rattle.eo_lit.specs.Literals.{numeral, with_digits, digit_below};
ghost use Rattle.eo_names.specs.Contexts.{is_reference};
ghost use Rattle.eo_names.specs.Scopes.{read_file_kind};
ghost use Rattle.eo_shape.specs.Words.{numeral_of, symbol_of};
ghost use Rattle.eo_elab.specs.BitStrings.{read_bits, FitBits, IsWidth, within_width};
ghost use Rattle.eo_elab.specs.Meaning.{bit_vector, bits_of, indexed_bits};

use eo_lit::read_numeral;
use eo_names::FileKind;
use eo_sexp::{Children, Kind, Sexp};
use eo_shape::symbol;

/// The most bits of a bit string.
const WIDTH: u128 = 128;

/// A bit string: how many bits it has, and the number that they write.
#[derive(Clone, Copy)]
pub(crate) struct BitString {
    pub(crate) width: u8,
    pub(crate) value: u128,
}

/// The bit string that `bvN` and a width from 1 to 128 write in this kind of file: the number N
/// modulo 2 to the power of the width.
pub(crate) fn bit_vector_in(args: &Children<'_>, file_kind: FileKind) -> Option<BitString>
    ensures value { option_map read_bits result ≡ (if is_reference (read_file_kind file_kind) then bit_vector
        (sexps_of args.now) else None) }
    ensures fits { IfSome result FitBits }
{
    match file_kind {
        FileKind::Proof => None,
        FileKind::Reference | FileKind::Assert => bit_vector(args),
    }
}

fn bit_vector(args: &Children<'_>) -> Option<BitString>
    ensures value { option_map read_bits result ≡ bit_vector (sexps_of args.now) }
    ensures fits { IfSome result FitBits }
{
    let (name, width) = args.only_two()?;
    bits_of(&name, &width)
}

// The bit string that a name and a number of bits write.
fn bits_of(name: &Sexp<'_>, width: &Sexp<'_>) -> Option<BitString>
    ensures value { option_map read_bits result ≡ bits_of (symbol_of name.now) (numeral_of width.now) }
    ensures fits { IfSome result FitBits }
{
    bits_named(symbol(name)?, width_in(width)?)
}

// The number of bits that an s-expression gives, where it is a numeral from 1 to 128.
fn width_in(s: &Sexp<'_>) -> Option<u8>
    ensures width { result ≡ option_and_then within_width (numeral_of s.now) }
    ensures fits { IfSome result IsWidth }
{
    match s.kind() {
        Kind::Literal => width_of(s.text()),
        _ => None,
    }
}

fn width_of(digits: &[u8]) -> Option<u8>
    ensures width { result ≡ option_and_then within_width (numeral digits.now) }
    ensures fits { IfSome result IsWidth }
{
    let width = read_numeral(digits)?;
    if width < 1 || width > WIDTH {
        return None;
    }
    Some(width as u8)
}

// The bit string with the value of a name `bvN`.
#[tactic(auto, using(crate::proofs::BitLemmas::indexed_none, crate::proofs::BitLemmas::indexed_other))]
fn bits_named(name: &[u8], width: u8) -> Option<BitString>
    requires some { 1 ≤ width }
    requires few { width ≤ 128 }
    ensures value { option_map read_bits result ≡ indexed_bits width name.now }
    ensures fits { IfSome result FitBits }
{
    if !begins_with_bv(name) {
        return None;
    }
    let value = last_of(last_bits(&name[2..])?, width);
    Some(BitString { width, value })
}

fn begins_with_bv(name: &[u8]) -> bool
    ensures value { result ≡ starts_with ◌==◌ name.now (codes "bv") }
    ensures long { IsTrue result → 2 ≤ length name.now }
{
    name.starts_with(b"bv".as_slice())
}

// The last bits of a number, so many.
#[tactic(auto, using(crate::proofs::BitLemmas::small_last, crate::proofs::BitLemmas::last_below))]
fn last_of(value: u128, width: u8) -> u128
    ensures value { result ≡ value % 2 ^ width }
    ensures within { result < 2 ^ width }
{
    match 2_u128.checked_pow(u32::from(width)) {
        Some(power) => value % power,
        None => value,
    }
}

// The value of a numeral modulo 2^128.
fn last_bits(digits: &[u8]) -> Option<u128>
    ensures { result ≡ option_map (λ n. n % 2 ^ 128) (numeral digits.now) }
{
    match digits {
        [b'0', _, ..] | [] => None,
        _ => last_bits_of(digits),
    }
}

fn last_bits_of(digits: &[u8]) -> Option<u128>
    ensures { result ≡ option_map (λ n. n % 2 ^ 128) (with_digits 10 0 digits.now) }
{
    let mut value = 0_u128;
    let mut rest = digits;
    while let Some((digit, more)) = rest.split_first() {
        value = with_digit(value, *digit)?;
        rest = more;
    }
    Some(value)
}

// The value of digits with one more after them, modulo 2^128.
fn with_digit(value: u128, digit: u8) -> Option<u128>
    ensures value { result ≡ option_map (λ d. (value * 10 % 2 ^ 128 + d) % 2 ^ 128) (digit_below 10 digit) }
    ensures within { IfSome result (λ n. n < 2 ^ 128) }
{
    let next = decimal(digit)?;
    Some(value.wrapping_mul(10).wrapping_add(u128::from(next)))
}

// The value of a digit.
fn decimal(digit: u8) -> Option<u8>
    ensures { result ≡ digit_below 10 digit }
{
    let value = digit.checked_sub(b'0')?;
    (value < 10).then_some(value)
}
