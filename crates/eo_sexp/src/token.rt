//! Tokens of more than one byte, a byte at a time.
ghost use Rattle.std.specs.Prelude.{◌≡◌, false};
ghost use Rattle.eo_base.specs.Limits.{limits};
ghost use Rattle.eo_sexp.specs.Lexicon.{kind_of};
ghost use Rattle.eo_sexp.specs.Nodes.{Delimits};
ghost use Rattle.eo_sexp.specs.Kinds.{kind_told};
ghost use Rattle.eo_sexp.specs.Token.{go_on, close, token_turn, may_end, kind_meant};

use crate::Kind;
use crate::classes::{is_quotable, is_text, is_word};
use eo_base::FaultName;
use eo_base::limits::TOKEN;

/// What an atom is.
#[derive(Clone, Copy, Debug, PartialEq, Eq)]
pub(crate) enum AtomKind {
    Symbol,
    Keyword,
    Literal,
    String,
}

impl AtomKind {
    /// The same among all that an s-expression may be.
    pub(crate) fn kind_of_atom(self) -> Kind
        ensures { result ≡ kind_told (kind_meant self) }
    {
        match self {
            AtomKind::Symbol => Kind::Symbol,
            AtomKind::Keyword => Kind::Keyword,
            AtomKind::Literal => Kind::Literal,
            AtomKind::String => Kind::String,
        }
    }
}

/// A token that is begun, by how it goes on.
#[derive(Clone, Copy)]
pub(crate) enum Token {
    Word,
    /// A string literal. `closed` says that its last byte was a quote that no quote has doubled.
    Text { closed: bool },
    /// A quoted symbol.
    Quoted,
}

/// What the next byte does to a token.
#[derive(Clone, Copy)]
pub(crate) enum TokenTurn {
    /// The byte belongs to the token, which goes on so.
    Goes(Token),
    /// The token ended before the byte.
    Ends,
    /// The byte is the token's last.
    Closes,
    /// The byte is a fault.
    Fault(FaultName),
}

// One more byte for a token of `size` bytes, which goes on as `token`.
#[tactic(auto, unfolding(eo_base::specs::Limits::limits))]
#[inline(always)]
fn go_on(size: usize, token: Token) -> TokenTurn
    ensures { result ≡ go_on limits size token }
{
    if size < TOKEN {
        TokenTurn::Goes(token)
    } else {
        TokenTurn::Fault(FaultName::TokenLong)
    }
}

// The last byte of a token after `size` bytes.
#[tactic(auto, unfolding(eo_base::specs::Limits::limits))]
#[inline(always)]
fn close(size: usize) -> TokenTurn
    ensures { result ≡ close limits size }
{
    if size < TOKEN {
        TokenTurn::Closes
    } else {
        TokenTurn::Fault(FaultName::TokenLong)
    }
}

// The byte x after `size` bytes of a token.
#[tactic(auto, unfolding(crate::specs::Token::token_turn))]
#[inline(always)]
pub(crate) fn token_turn(token: Token, size: usize, x: u8) -> TokenTurn
    ensures { result ≡ token_turn limits size token x }
{
    match token {
        Token::Word if is_word(x) => go_on(size, Token::Word),
        Token::Word => TokenTurn::Ends,
        Token::Text { closed: true } if x == b'"' => go_on(size, Token::Text { closed: false }),
        Token::Text { closed: true } => TokenTurn::Ends,
        Token::Text { closed: false } if x == b'"' => go_on(size, Token::Text { closed: true }),
        Token::Text { closed: false } if is_text(x) => go_on(size, Token::Text { closed: false }),
        Token::Text { closed: false } => TokenTurn::Fault(FaultName::BadByte),
        Token::Quoted if x == b'|' => close(size),
        Token::Quoted if is_quotable(x) => go_on(size, Token::Quoted),
        Token::Quoted => TokenTurn::Fault(FaultName::BadByte),
    }
}

// Whether the end of the input ends the token.
pub(crate) fn may_end(token: Token) -> bool
    ensures { result ≡ may_end token }
{
    match token {
        Token::Word => true,
        Token::Text { closed } => closed,
        Token::Quoted => false,
    }
}

// The kind of a word.
#[tactic(auto, unfolding(crate::specs::Lexicon::kind_of, crate::specs::Lexicon::begins_digit))]
#[inline(always)]
pub(crate) fn kind_of(word: &[u8]) -> AtomKind
    ensures kind { kind_meant result ≡ kind_of word.now }
    ensures plain { Delimits (kind_meant result) false }
{
    match word {
        [b':', ..] => AtomKind::Keyword,
        [b'#', ..] | [b'0'..=b'9', ..] | [b'-', b'0'..=b'9', ..] => AtomKind::Literal,
        _ => AtomKind::Symbol,
    }
}
