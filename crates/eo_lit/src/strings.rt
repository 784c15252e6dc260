//! String literals.
ghost use Rattle.std.specs.Prelude.{◌≡◌, ◌≤◌, ◌<◌, ◌==◌, false, Err, Some, None, IfOk, IfSome};
ghost use Rattle.std.specs.Prelude.{option_map, position, take, length};
ghost use Rattle.eo_base.specs.Characters.{greatest_character};
ghost use Rattle.eo_lit.specs.declared.StringRefused.TheVariants.{Bad};
ghost use Rattle.eo_lit.specs.Literals.{string_value, string_bytes, without_doubles, character_at, character_of};
ghost use Rattle.eo_lit.specs.Literals.{escape, in_braces, braced, spelled};

use crate::StringRefused;
use crate::hexadecimal::hexadecimal;
use eo_base::Chars;
use std::alloc::{AllocError, Global};

/// The greatest character of a string.
const GREATEST_CHARACTER: u128 = 0x2_ffff;

/// A character, and how many bytes after the first spell it.
#[derive(Clone, Copy)]
struct Spelled {
    character: u32,
    more: usize,
}

/// The characters of a string literal, from the bytes between its quotes (SMT-LIB 2.6, section
/// 3.1 and the theory of Unicode strings): `""` is one quote, `\udddd`, with four hexadecimal
/// digits, and `\u{d}` to `\u{ddddd}` are one character where its number is at most 0x2FFFF, and
/// any other backslash is itself.
///
/// `Bad`: it holds a byte other than 9, 10, 13 and 32 to 126, or a quote that is not doubled.
/// `Memory`: there was no memory left.
pub fn read_string(alloc: Global, body: &[u8]) -> Result<Chars, StringRefused>
    ensures value { IfOk result (λ characters. string_value body.now ≡ Some characters) }
    ensures bad { result ≡ Err Bad → string_value body.now ≡ None }
{
    let mut characters = Vec::new(alloc);
    let mut rest = body;
    while let Some((first, after)) = rest.split_first() {
        let Some(spelled) = character_at(*first, after) else {
            return Err(StringRefused::Bad);
        };
        characters
            .push(spelled.character)
            .map_err(|_| StringRefused::Memory(AllocError))?;
        rest = &after[spelled.more..];
    }
    Chars::new(alloc, &characters).map_err(StringRefused::Memory)
}

/// The bytes of a string literal, from those between its quotes: `""` is one quote, and nothing
/// else is an escape.
#[tactic(auto, unfolding(crate::specs::Literals::string_bytes))]
pub fn string_bytes(alloc: Global, body: &[u8]) -> Result<Vec<u8>, AllocError>
    ensures { IfOk result (λ bytes. bytes.items ≡ string_bytes body.now) }
{
    let mut bytes = Vec::new(alloc);
    let mut rest = body;
    while let Some((first, after)) = rest.split_first() {
        bytes.push(*first)?;
        rest = behind(*first, after);
    }
    Ok(bytes)
}

/// What comes after this byte: a quote takes the quote after it with it.
fn behind(first: u8, after: &[u8]) -> &[u8]
    ensures same { without_doubles (first == 34) after.now ≡ without_doubles false result.now }
    ensures shorter { length result.now ≤ length after.now }
{
    if first != b'"' {
        return after;
    }
    match after.split_first() {
        Some((_, rest)) => rest,
        None => after,
    }
}

/// The character that begins with this byte.
fn character_at(first: u8, after: &[u8]) -> Option<Spelled>
    ensures value { option_map (λ s. spelled s.character s.more) result ≡ character_at first after.now }
    ensures within { IfSome result (λ s. (s.character ≤ greatest_character) × (s.more ≤ length after.now)) }
{
    let itself = Spelled {
        character: u32::from(first),
        more: 0,
    };
    match first {
        b'"' => doubled_quote(after),
        b'\\' => Some(escape(after).unwrap_or(itself)),
        b'\t' | b'\n' | b'\r' | b' '..=b'~' => Some(itself),
        _ => None,
    }
}

/// The quote that two quotes spell, after the first of them.
fn doubled_quote(after: &[u8]) -> Option<Spelled>
    ensures value { option_map (λ s. spelled s.character s.more) result ≡ character_at 34 after.now }
    ensures within { IfSome result (λ s. (s.character ≤ greatest_character) × (s.more ≤ length after.now)) }
{
    match after {
        [b'"', ..] => Some(Spelled {
            character: u32::from(b'"'),
            more: 1,
        }),
        _ => None,
    }
}

/// The character of an escape, after its backslash.
fn escape(after: &[u8]) -> Option<Spelled>
    ensures value { option_map (λ s. spelled s.character s.more) result ≡ escape after.now }
    ensures within { IfSome result (λ s. (s.character ≤ greatest_character) × (s.more ≤ length after.now)) }
{
    match after {
        [b'u', b'{', inside @ ..] => {
            let digits = braced_digits(inside)?;
            character_of(digits, 3 + digits.len())
        }
        [b'u', digits @ ..] if digits.len() >= 4 => character_of(&digits[..4], 5),
        _ => None,
    }
}

/// The digits up to a `}`, of which there are at most five.
#[tactic(auto, using(crate::proofs::Escapes::braced_position))]
fn braced_digits(inside: &[u8]) -> Option<&[u8]>
    ensures value { option_map (λ digits. digits.now) result ≡ braced 6 inside.now }
    ensures within { IfSome result (λ digits. (length digits.now ≤ 5) × (length digits.now < length inside.now)) }
{
    let end = closing_brace(inside)?;
    Some(&inside[..end])
}

/// The place of the first `}` among the first six bytes.
fn closing_brace(inside: &[u8]) -> Option<usize>
    ensures place { result ≡ position (λ b. b == 125) (take 6 inside.now) }
    ensures within { IfSome result (λ end. (end ≤ 5) × (end < length inside.now)) }
{
    inside.iter().take(6).position(|b| *b == b'}')
}

/// The character with this number, which is spelled by so many bytes after the first.
fn character_of(digits: &[u8], more: usize) -> Option<Spelled>
    requires { length digits.now ≤ 5 }
    ensures value { option_map (λ s. spelled s.character s.more) result ≡ character_of digits.now more }
    ensures within { IfSome result (λ s. (s.character ≤ greatest_character) × (s.more ≡ more)) }
{
    let character = hexadecimal(digits)?;
    if character > GREATEST_CHARACTER {
        return None;
    }
    Some(Spelled {
        character: character as u32,
        more,
    })
}
