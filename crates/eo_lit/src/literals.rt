//! Literal words.
ghost use Rattle.std.specs.Prelude.{◌≡◌, IfOk, IfSome, OnErr, None, Some, option_map, option_and_then};
ghost use Rattle.eo_lit.specs.Literals.{literal_value, hash_literal, numeral, positive, negative, bit_string};
ghost use Rattle.eo_lit.specs.Reading.{lit, IsLiteral};

use crate::decimal::{number_in, read_numeral};
use crate::hexadecimal::hexadecimal;
use crate::{BadLiteral, LitRead};

/// The value of a literal word (SMT-LIB 2.6, section 3.1), in this project's profile: a numeral, a
/// `-` and a numeral other than `0`, `#b` and one or more binary digits, or `#x` and one or more
/// hexadecimal digits, the highest bits first.
///
/// It refuses every other word, among them a decimal and a number with a leading zero; a number
/// outside -2^127 to 2^127 - 1; and more than 128 bits.
pub fn read_literal(word: &[u8]) -> Result<LitRead, BadLiteral>
    ensures value { IfOk result (λ l. literal_value word.now ≡ Some (lit l)) }
    ensures refused { OnErr result (literal_value word.now ≡ None) }
    ensures well_formed { IfOk result IsLiteral }
{
    value_of(word).ok_or(BadLiteral)
}

#[tactic(auto, unfolding(crate::specs::Literals::literal_value))]
fn value_of(word: &[u8]) -> Option<LitRead>
    ensures value { option_map lit result ≡ literal_value word.now }
    ensures well_formed { IfSome result IsLiteral }
{
    match word {
        [b'#', rest @ ..] => hash_value(rest),
        [b'-', digits @ ..] => below_zero(digits),
        _ => from_zero(word),
    }
}

/// The value of what follows a `#`.
fn hash_value(rest: &[u8]) -> Option<LitRead>
    ensures value { option_map lit result ≡ hash_literal rest.now }
    ensures well_formed { IfSome result IsLiteral }
{
    match rest {
        [b'b', digits @ ..] => binary(digits),
        [b'x', digits @ ..] => bits_of_hexadecimal(digits),
        _ => None,
    }
}

/// The numeral's value, up to 2^127 - 1.
#[tactic(auto, using(crate::proofs::Words::positive_in_128_bits))]
fn from_zero(digits: &[u8]) -> Option<LitRead>
    ensures value { option_map lit result ≡ option_and_then positive (numeral digits.now) }
    ensures well_formed { IfSome result IsLiteral }
{
    let magnitude = read_numeral(digits)?;
    i128::try_from(magnitude).ok().map(LitRead::Num)
}

/// The negative of the numeral's value, from -1 down to -2^127.
#[tactic(auto, using(crate::proofs::Words::negative_in_128_bits))]
fn below_zero(digits: &[u8]) -> Option<LitRead>
    ensures value { option_map lit result ≡ option_and_then negative (numeral digits.now) }
    ensures well_formed { IfSome result IsLiteral }
{
    let magnitude = read_numeral(digits)?;
    if magnitude == 0 {
        return None;
    }
    0i128.checked_sub_unsigned(magnitude).map(LitRead::Num)
}

/// A bit string of one bit a digit.
#[tactic(auto, using(crate::proofs::Words::binary_fits, crate::proofs::Words::binary_in_128_bits))]
fn binary(digits: &[u8]) -> Option<LitRead>
    ensures value { option_map lit result ≡ bit_string 2 1 digits.now }
    ensures well_formed { IfSome result IsLiteral }
{
    if digits.len() > 128 {
        return None;
    }
    let value = number_in(2, digits)?;
    Some(LitRead::Bits {
        width: digits.len() as u8,
        value,
    })
}

/// A bit string of four bits a digit.
#[tactic(auto, using(crate::proofs::Words::hexadecimal_fits))]
fn bits_of_hexadecimal(digits: &[u8]) -> Option<LitRead>
    ensures value { option_map lit result ≡ bit_string 16 4 digits.now }
    ensures well_formed { IfSome result IsLiteral }
{
    if digits.len() > 32 {
        return None;
    }
    let value = hexadecimal(digits)?;
    Some(LitRead::Bits {
        width: 4 * digits.len() as u8,
        value,
    })
}
