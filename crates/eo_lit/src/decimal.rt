//! Digits in base ten and in base two.
ghost use Rattle.std.specs.Prelude.{◌≡◌, ◌≤◌};
ghost use Rattle.eo_lit.specs.Literals.{numeral, digits_value, digit_below};
ghost use Rattle.eo_lit.specs.Reading.{in_128_bits, next_value};

/// The value of a digit in a base of at most ten.
fn digit_in(base: u8, digit: u8) -> Option<u8>
    requires { base ≤ 10 }
    ensures { result ≡ digit_below base digit }
{
    let value = digit.checked_sub(b'0')?;
    (value < base).then_some(value)
}

/// The value of digits in a base of at most ten with one more digit after them, where it has at
/// most 128 bits.
fn with_digit(base: u8, value: u128, digit: u8) -> Option<u128>
    requires { base ≤ 10 }
    ensures { result ≡ next_value base value digit }
{
    let next = digit_in(base, digit)?;
    value
        .checked_mul(u128::from(base))?
        .checked_add(u128::from(next))
}

/// The value of one or more digits in a base from 1 to 10, where it has at most 128 bits.
pub(crate) fn number_in(base: u8, digits: &[u8]) -> Option<u128>
    requires some { 1 ≤ base }
    requires decimal { base ≤ 10 }
    ensures { result ≡ in_128_bits (digits_value base digits.now) }
{
    if digits.is_empty() {
        return None;
    }
    let mut value = 0u128;
    for digit in digits {
        value = with_digit(base, value, *digit)?;
    }
    Some(value)
}

/// The value of a numeral (SMT-LIB 2.6, section 3.1): `0`, or digits of which the first is not
/// `0`, where it has at most 128 bits.
pub fn read_numeral(digits: &[u8]) -> Option<u128>
    ensures { result ≡ in_128_bits (numeral digits.now) }
{
    match digits {
        [b'0', _, ..] => None,
        _ => number_in(10, digits),
    }
}
