//! Hexadecimal digits.
ghost use Rattle.std.specs.Prelude.{◌≡◌, ◌≤◌, ◌-◌, ◌++◌, length, replicate};
ghost use Rattle.eo_lit.specs.Literals.{digits_value};

/// How many hexadecimal digits 128 bits have.
const DIGITS: usize = 32;

/// The value of one to 32 hexadecimal digits.
pub(crate) fn hexadecimal(digits: &[u8]) -> Option<u128>
    requires { length digits.now ≤ 32 }
    ensures { result ≡ digits_value 16 digits.now }
{
    if digits.is_empty() {
        return None;
    }
    let padded = zeros_before(digits);
    let mut bytes = [0; DIGITS / 2];
    hex::decode_to_slice(padded, &mut bytes).ok()?;
    Some(u128::from_be_bytes(bytes))
}

/// The digits after as many zeros as make them 32.
fn zeros_before(digits: &[u8]) -> [u8; DIGITS]
    requires { length digits.now ≤ 32 }
    ensures { result ≡ replicate (32 - length digits.now) 48 ++ digits.now }
{
    let mut padded = [b'0'; DIGITS];
    padded[DIGITS - digits.len()..].copy_from_slice(digits);
    padded
}
