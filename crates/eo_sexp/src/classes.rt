//! The classes of bytes (SMT-LIB 2.6, section 3.1 "Lexicon").
ghost use Rattle.std.specs.Prelude.{◌≡◌};
ghost use Rattle.eo_sexp.specs.Lexicon.{class, is_line_end, is_text, is_quotable, is_word};
ghost use Rattle.eo_sexp.specs.Token.{class_of};

/// What a byte outside tokens and comments begins.
#[derive(Clone, Copy)]
pub(crate) enum Class {
    Space,
    Comment,
    Open,
    Close,
    Quote,
    Bar,
    Word,
    Other,
}

// What the byte begins.
#[tactic(auto, unfolding(crate::specs::Lexicon::class, crate::specs::Lexicon::is_space))]
#[inline(always)]
pub(crate) fn classify(x: u8) -> Class
    ensures { class_of result ≡ class x }
{
    match x {
        b'\t' | b'\n' | b'\r' | b' ' => Class::Space,
        b';' => Class::Comment,
        b'(' => Class::Open,
        b')' => Class::Close,
        b'"' => Class::Quote,
        b'|' => Class::Bar,
        _ if is_word(x) => Class::Word,
        _ => Class::Other,
    }
}

// Whether the byte ends a comment.
#[tactic(auto, unfolding(crate::specs::Lexicon::is_line_end))]
pub(crate) fn is_line_end(x: u8) -> bool
    ensures { result ≡ is_line_end x }
{
    x == b'\n' || x == b'\r'
}

// Whether the byte may be in a string literal.
#[tactic(auto, unfolding(crate::specs::Lexicon::is_text, crate::specs::Lexicon::is_space))]
pub(crate) fn is_text(x: u8) -> bool
    ensures { result ≡ is_text x }
{
    matches!(x, b'\t' | b'\n' | b'\r' | 32..=126 | 128..=255)
}

// Whether the byte may be between the bars of a quoted symbol.
#[tactic(auto, unfolding(crate::specs::Lexicon::is_quotable))]
pub(crate) fn is_quotable(x: u8) -> bool
    ensures { result ≡ is_quotable x }
{
    is_text(x) && x != b'|' && x != b'\\'
}

// `1` is at the place of each byte that may be in a word.
pub(crate) static WORD: [u8; 256] = *b"\
    ................................\
    .1.1111...11.11111111111111.1111\
    111111111111111111111111111...11\
    .11111111111111111111111111...1.\
    ................................\
    ................................\
    ................................\
    ................................";

// Whether the byte may be in a word.
#[inline(always)]
pub(crate) fn is_word(x: u8) -> bool
    ensures { result ≡ is_word x }
{
    WORD[x as usize] == b'1'
}
