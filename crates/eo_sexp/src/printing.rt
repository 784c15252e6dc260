//! S-expressions as bytes.
ghost use Rattle.std.specs.Prelude.{◌≡◌, ◌++◌, codes, OnOk};
ghost use Rattle.std.specs.List.{list_all};
ghost use Rattle.eo_sexp.specs.AtomKind as kind;
ghost use Rattle.eo_sexp.specs.Lexicon.{is_word};
ghost use Rattle.eo_sexp.specs.Token.{kind_meant};
ghost use Rattle.eo_sexp.specs.Printing.{printed_atom, is_word_of, same_kind};

use crate::classes::is_word;
use crate::token::{AtomKind, kind_of};
use std::alloc::AllocError;

/// Appends a symbol: its text, in bars unless it is a word. `Err` is out of memory.
#[tactic(auto, unfolding(crate::specs::Printing::printed_atom))]
pub fn print_symbol(out: &mut Vec<u8>, text: &[u8]) -> Result<(), AllocError>
    ensures { OnOk result (out.new.items ≡ out.old.items ++ printed_atom kind.Symbol text.now) }
{
    if is_symbol_word(text) {
        out.extend_from_slice(text)?;
        return Ok(());
    }
    print_quoted(out, text)
}

// Appends a text in bars.
fn print_quoted(out: &mut Vec<u8>, text: &[u8]) -> Result<(), AllocError>
    ensures { OnOk result (out.new.items ≡ out.old.items ++ (codes "|" ++ (text.now ++ codes "|"))) }
{
    out.push(b'|')?;
    out.extend_from_slice(text)?;
    out.push(b'|')?;
    Ok(())
}

// Whether the bytes are a word that is a symbol.
fn is_symbol_word(text: &[u8]) -> bool
    ensures { result ≡ is_word_of kind.Symbol text.now }
{
    match text {
        [] => false,
        _ => are_words(text) & is_symbol(kind_of(text)),
    }
}

// Whether each byte may be in a word.
fn are_words(text: &[u8]) -> bool
    ensures { result ≡ list_all is_word text.now }
{
    text.iter().all(|x| is_word(*x))
}

fn is_symbol(told: AtomKind) -> bool
    ensures { result ≡ same_kind (kind_meant told) kind.Symbol }
{
    matches!(told, AtomKind::Symbol)
}
