//! Bytes as hexadecimal digits in lower case.
ghost use Rattle.std.specs.Prelude.{◌≡◌, Some, IfOk, option_map, is_some, true};
ghost use Rattle.std.specs.List.{list_all};
ghost use Rattle.eo_lines.specs.Forms.{hex_bytes, hex_digit};

use std::alloc::{AllocError, Global};

/// The bytes that a field writes, if it writes any.
#[tactic(auto, using(crate::proofs::HexBytes::none_of))]
pub(crate) fn bytes_of(alloc: Global, field: &[u8]) -> Result<Option<Vec<u8>>, AllocError>
    ensures { IfOk result (λ o. option_map (λ v. v.items) o ≡ hex_bytes field.now) }
{
    if !is_hexadecimal(field) {
        return Ok(None);
    }
    let bytes = decode(alloc, field)?;
    Ok(Some(bytes))
}

// Whether these are hexadecimal digits in lower case, two for each byte.
#[tactic(auto, using(crate::proofs::HexBytes::hexadecimal_by))]
fn is_hexadecimal(field: &[u8]) -> bool
    ensures { result ≡ is_some (hex_bytes field.now) }
{
    let even = field.len() % 2 == 0;
    let digits = are_digits(field);
    even && digits
}

fn are_digits(field: &[u8]) -> bool
    ensures { result ≡ list_all (λ b. is_some (hex_digit b)) field.now }
{
    field.iter().all(|b| is_digit(*b))
}

// Whether it is a hexadecimal digit in lower case.
fn is_digit(byte: u8) -> bool
    ensures { result ≡ is_some (hex_digit byte) }
{
    matches!(byte, b'0'..=b'9' | b'a'..=b'f')
}

// The bytes of hexadecimal digits.
#[tactic(auto, using(crate::proofs::HexBytes::hexadecimal_decoded))]
fn decode(alloc: Global, field: &[u8]) -> Result<Vec<u8>, AllocError>
    requires { is_some (hex_bytes field.now) ≡ true }
    ensures { IfOk result (λ v. hex_bytes field.now ≡ Some v.items) }
{
    hex::decode(alloc, field).map_err(|_| AllocError)
}
