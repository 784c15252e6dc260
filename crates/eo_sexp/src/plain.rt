//! Runs of bytes that stay inside of a token or a comment.
ghost use Rattle.std.specs.Prelude.{◌≡◌, ◌≢◌, ◌≤◌, ◌<◌, length, take, All, true, false, get_or};
ghost use Rattle.eo_sexp.specs.Lexicon.{is_line_end};
ghost use Rattle.eo_sexp.specs.Token.{is_plain};

use crate::classes::WORD;
use crate::token::Token;

// In each table `1` is at the place of each byte that leaves the token as it is and is no line feed.
static TEXT: [u8; 256] = *b"\
    .........1...1..................\
    11.11111111111111111111111111111\
    11111111111111111111111111111111\
    1111111111111111111111111111111.\
    11111111111111111111111111111111\
    11111111111111111111111111111111\
    11111111111111111111111111111111\
    11111111111111111111111111111111";

static QUOTED: [u8; 256] = *b"\
    .........1...1..................\
    11111111111111111111111111111111\
    1111111111111111111111111111.111\
    1111111111111111111111111111.11.\
    11111111111111111111111111111111\
    11111111111111111111111111111111\
    11111111111111111111111111111111\
    11111111111111111111111111111111";

// `1` is at the place of each byte that ends no comment.
static COMMENT: [u8; 256] = *b"\
    1111111111.11.111111111111111111\
    11111111111111111111111111111111\
    11111111111111111111111111111111\
    11111111111111111111111111111111\
    11111111111111111111111111111111\
    11111111111111111111111111111111\
    11111111111111111111111111111111\
    11111111111111111111111111111111";

// How many bytes at the front have a `1` in the table.
#[inline(always)]
fn run_in(table: &[u8; 256], bytes: &[u8]) -> usize
    ensures within { result ≤ length bytes.now }
    ensures run { All (λ x. get_or table.now x 0 ≡ 49) (take result bytes.now) }
    ensures ends { result < length bytes.now → get_or table.now (get_or bytes.now result 0) 0 ≢ 49 }
{
    let mut run = 0;
    while run < bytes.len() && table[bytes[run] as usize] == b'1' {
        run += 1;
    }
    run
}

// How many bytes at the front leave the token as it is, and are no line feeds.
#[inline(always)]
pub(crate) fn plain_run(token: Token, bytes: &[u8]) -> usize
    ensures within { result ≤ length bytes.now }
    ensures plain { All (λ x. is_plain token x ≡ true) (take result bytes.now) }
    ensures ends { result < length bytes.now → is_plain token (get_or bytes.now result 0) ≡ false }
{
    match token {
        Token::Word => run_in(&WORD, bytes),
        Token::Text { closed: false } => run_in(&TEXT, bytes),
        Token::Text { closed: true } => 0,
        Token::Quoted => run_in(&QUOTED, bytes),
    }
}

// How many bytes at the front end no comment.
#[inline(always)]
pub(crate) fn comment_run(bytes: &[u8]) -> usize
    ensures within { result ≤ length bytes.now }
    ensures inside { All (λ x. is_line_end x ≡ false) (take result bytes.now) }
{
    run_in(&COMMENT, bytes)
}

// How many bytes at the front are spaces.
#[inline(always)]
pub(crate) fn blank_run(bytes: &[u8]) -> usize
    ensures within { result ≤ length bytes.now }
    ensures blank { All (λ x. x ≡ 32) (take result bytes.now) }
    ensures first { get_or bytes.now 0 0 ≡ 32 → 0 < length bytes.now → 0 < result }
{
    let mut run = 0;
    while run < bytes.len() && bytes[run] == b' ' {
        run += 1;
    }
    run
}
