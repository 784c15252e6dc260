//! A spelling of each literal and string, which reads back.
ghost use Rattle.std.specs.Prelude.{◌≡◌, ◌+◌, ◌/◌, ◌%◌, ◌^◌, ◌++◌, Some, IfOk, OnOk, string_bytes, codes};
ghost use Rattle.std.specs.Fmt.{signed_decimal};
ghost use Rattle.eo_lit.specs.Literals.{Number, BitString, literal_value, string_value};
ghost use Rattle.eo_lit.specs.Reading.{lit, IsLiteral, FitsWidth, HasBits};
ghost use Rattle.eo_lit.specs.Spelling.{literal_spelling, string_spelling, character_spelling, bits};

use crate::LitRead;
use eo_base::{Chars, Text};
use std::alloc::{AllocError, Global};
use std::fmt::Write;

/// A spelling of the literal: plain digits for a number, after a `-` where it is below 0, and
/// `#b` with a digit for each bit for a bit string, which has at least one bit. It reads back as
/// the same literal. Refused only where no memory is left.
#[tactic(auto, unfolding(crate::specs::Spelling::literal_spelling))]
pub fn write_literal(alloc: Global, l: LitRead) -> Result<Text, AllocError>
    requires { HasBits l }
    ensures spelling { IfOk result (λ text. text ≡ literal_spelling (lit l)) }
    ensures reads_back { IfOk result (λ text. IsLiteral l → literal_value text ≡ Some (lit l)) }
{
    match l {
        LitRead::Num(number) => write_number(alloc, number),
        LitRead::Bits { width, value } => write_bits(alloc, width, value),
    }
}

#[tactic(auto, using(crate::proofs::Spellings::number_reads_back))]
fn write_number(alloc: Global, number: i128) -> Result<Text, AllocError>
    ensures spelling { IfOk result (λ text. text ≡ signed_decimal number) }
    ensures reads_back { IfOk result (λ text. literal_value text ≡ Some (Number number)) }
{
    let text = number.to_string(alloc)?;
    Text::new(alloc, text.as_str())
}

#[tactic(auto, using(crate::proofs::Spellings::bits_read_back))]
fn write_bits(alloc: Global, width: u8, value: u128) -> Result<Text, AllocError>
    ensures spelling { IfOk result (λ text. text ≡ codes "#b" ++ bits width value) }
    ensures reads_back { IfOk result
        (λ text. FitsWidth width value → literal_value text ≡ Some (BitString width value)) }
{
    let text = binary_digits(alloc, width, value)?;
    Text::new(alloc, text.as_str())
}

/// `#b`, and the last bits of a number, the highest first.
fn binary_digits(alloc: Global, width: u8, value: u128) -> Result<String, AllocError>
    ensures { IfOk result (λ text. string_bytes text ≡ codes "#b" ++ bits width value) }
{
    let mut text = String::from_str(alloc, "#b")?;
    for written in 0..width {
        text.push(binary_digit(value, width - written - 1))?;
    }
    Ok(text)
}

/// The binary digit at a place of a number, the lowest place being 0.
#[tactic(auto, using(crate::proofs::Spellings::no_digit_beyond))]
fn binary_digit(value: u128, place: u8) -> char
    ensures { result ≡ 48 + value / 2 ^ place % 2 }
{
    match value.checked_shr(u32::from(place)).unwrap_or(0) % 2 {
        0 => '0',
        _ => '1',
    }
}

/// A spelling of the characters, as the bytes between the quotes of a string literal: a character
/// from 32 to 126 is itself, but `"` is `""`, and a backslash and every other character is
/// `\u{h}`, with the fewest hexadecimal digits, in lower case. It reads back as the same
/// characters. Refused only where no memory is left.
#[tactic(auto, using(crate::proofs::StringSpellings::string_reads_back))]
pub fn write_string(alloc: Global, c: &Chars) -> Result<Text, AllocError>
    ensures spelling { IfOk result (λ text. text ≡ string_spelling c.now) }
    ensures reads_back { IfOk result (λ text. string_value text ≡ Some c.now) }
{
    let text = spell(alloc, c.as_slice())?;
    Text::new(alloc, text.as_str())
}

#[tactic(auto, unfolding(crate::specs::Spelling::string_spelling))]
fn spell(alloc: Global, characters: &[u32]) -> Result<String, AllocError>
    ensures { IfOk result (λ text. string_bytes text ≡ string_spelling characters.now) }
{
    let mut text = String::new(alloc);
    for character in characters {
        write_character(&mut text, *character)?;
    }
    Ok(text)
}

fn write_character(text: &mut String, character: u32) -> Result<(), AllocError>
    ensures { OnOk result (string_bytes text.new ≡ string_bytes text.old ++ character_spelling character) }
{
    match character {
        0x22 => text.push_str("\"\""),
        0x20..=0x5b | 0x5d..=0x7e => text.push(character as u8 as char),
        _ => write!(text, "\\u{{{character:x}}}"),
    }
}
