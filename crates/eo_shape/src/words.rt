//! Atoms by their kind.
ghost use Rattle.std.specs.Prelude.{◌≡◌, option_and_then, nat_le, if◌then◌else◌, Some, None};
ghost use Rattle.std.specs.Option.{option_copied};
ghost use Rattle.eo_lit.specs.Literals.{numeral};
ghost use Rattle.eo_shape.specs.Shapes.{arity_of, class_named, is_keyword};
ghost use Rattle.eo_shape.specs.Words.{symbol_of, keyword_of, string_of, is_some_word};

use eo_lit::{LiteralClass, read_numeral};
use eo_sexp::{Kind, Sexp};

/// The greatest arity of a sort.
const ARITY: u128 = 64;

/// The bytes of a symbol, without bars; none of any other s-expression.
pub fn symbol<'b>(s: &Sexp<'b>) -> Option<&'b [u8]>
    ensures { option_copied result ≡ symbol_of s.now }
{
    match s.kind() {
        Kind::Symbol => Some(s.text()),
        _ => None,
    }
}

/// The bytes of a string as they are written between the quotes; none of any other s-expression.
pub(crate) fn string<'b>(s: &Sexp<'b>) -> Option<&'b [u8]>
    ensures { option_copied result ≡ string_of s.now }
{
    match s.kind() {
        Kind::String => Some(s.text()),
        _ => None,
    }
}

/// Whether it is this symbol.
pub(crate) fn is_symbol(s: &Sexp<'_>, word: &[u8]) -> bool
    ensures { result ≡ is_some_word word.now (symbol_of s.now) }
{
    match s.kind() {
        Kind::Symbol => s.text() == word,
        _ => false,
    }
}

/// Whether it is this keyword.
pub(crate) fn is_keyword(s: &Sexp<'_>, word: &[u8]) -> bool
    ensures { result ≡ is_keyword word.now s.now }
{
    match s.kind() {
        Kind::Keyword => s.text() == word,
        _ => false,
    }
}

/// The number of arguments of a sort, at most 64.
pub(crate) fn arity(s: &Sexp<'_>) -> Option<u8>
    ensures { result ≡ arity_of s.now }
{
    match s.kind() {
        Kind::Literal => small_numeral(s.text()),
        _ => None,
    }
}

/// The value of a numeral of at most 64.
fn small_numeral(word: &[u8]) -> Option<u8>
    ensures { result ≡ option_and_then (λ n. if nat_le n 64 then Some n else None) (numeral word.now) }
{
    let value = read_numeral(word)?;
    if value > ARITY {
        return None;
    }
    Some(value as u8)
}

/// The class of literals of this name.
pub(crate) fn class(name: &[u8]) -> Option<LiteralClass>
    ensures { result ≡ class_named name.now }
{
    if name == b"<numeral>".as_slice() {
        return Some(LiteralClass::Numeral);
    }
    if name == b"<binary>".as_slice() {
        return Some(LiteralClass::Binary);
    }
    if name == b"<string>".as_slice() {
        return Some(LiteralClass::String);
    }
    None
}
