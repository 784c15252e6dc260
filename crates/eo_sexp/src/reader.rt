//! The command begun, a byte at a time.
ghost use Rattle.std.specs.Prelude.{◌≡◌, ℕ, ◌+◌, ◌<◌, ◌≤◌, ◌^◌, [], length, get_or, IfOk};
ghost use Rattle.std.specs.Prelude.{IsTrue, OnOk, true, false, if◌then◌else◌, ◌==◌};
ghost use Rattle.eo_base.specs.Limits.{limits};
ghost use Rattle.eo_sexp.specs.Nodes.{token_atom, Delimits, HasText};
ghost use Rattle.eo_sexp.specs.Built.{Built, nothing, with_byte, with_child, parts_of};
ghost use Rattle.eo_sexp.specs.Token.{class_of, atom_kind, is_plain, kind_meant};
ghost use Rattle.eo_sexp.specs.Reader.{held, IsAtom, AddsChild, ClosesList, is_full, IsReader};
ghost use Rattle.eo_sexp.specs.Reader.{Turns, Begins, BeginsToken, Ends, EndsAt, atom_of, text_at};
ghost use Rattle.eo_sexp.specs.Reader.{is_delimited, FirstOf, IsFirstOf, IsAhead, RunsTo, StopsAt};
ghost use Rattle.eo_sexp.specs.Reader.{Runs, Steps, IsReading, IsBegunAt};
ghost use Rattle.eo_sexp.specs.Lexicon.{Open, class, is_line_end};

use crate::buffer::Buffer;
use crate::classes::{Class, classify, is_line_end, is_word};
use crate::plain::{blank_run, comment_run, plain_run};
use crate::token::{AtomKind, Token, TokenTurn, kind_of, may_end, token_turn};
use eo_base::FaultName;
use eo_base::limits::{COMMAND, NESTING, TOKEN, WIDTH};
use std::alloc::AllocError;

/// What the next byte is in.
#[derive(Clone, Copy)]
pub(crate) enum Position {
    /// White space, between two tokens.
    Gap,
    Comment,
    Token(Token),
}

/// What the next byte does to a command.
#[derive(Clone, Copy)]
pub(crate) enum ReaderTurn {
    /// The command goes on after the byte.
    Goes,
    /// The command ended before the byte.
    Before,
    /// The command is whole with the byte.
    Whole,
    /// The byte is a fault.
    Fault(FaultName),
}

/// How many bytes were taken, and what the next one does. It is not known where that is `Goes`.
#[derive(Clone, Copy)]
pub(crate) struct Run {
    pub(crate) taken: usize,
    // how many of them are line feeds
    pub(crate) lines: usize,
    pub(crate) turn: ReaderTurn,
}

/// A command that is begun and not whole: the token that is begun. Its buffer has the rest.
#[derive(Drop)]
pub(crate) struct Reader {
    position: Position,
    // the number of the token's first byte
    from: usize,
}

// Adds an atom to the innermost list, and returns whether it is the whole command.
#[inline(always)]
fn add_atom(
    buffer: &mut Buffer,
    kind: AtomKind,
    delimited: bool,
    from: usize,
    to: usize,
) -> Result<bool, AllocError>
    requires text { HasText buffer.old.bytes delimited from to }
    requires delimits { Delimits (kind_meant kind) delimited }
    requires short { to ≤ 2 ^ 31 }
    requires own { parts_of buffer.old ≤ from }
    ensures bytes { OnOk result (buffer.new.bytes ≡ buffer.old.bytes) }
    ensures added { IfOk result (λ whole.
        AddsChild limits buffer.old (token_atom buffer.old.bytes kind delimited from to) buffer.new whole) }
{
    buffer.add_atom(kind, delimited, from, to)?;
    Ok(buffer.depth() == 0)
}

// Closes the innermost list before the byte with this number, and returns whether it is the whole
// command.
#[inline(always)]
fn close_list(buffer: &mut Buffer, to: usize) -> bool
    requires inside { 0 < length buffer.old.open_lists }
    requires nested { length buffer.old.open_lists ≤ limits.nesting }
    requires short { to ≤ 2 ^ 24 + 1 }
    requires own { parts_of buffer.old < to }
    requires behind { length buffer.old.bytes < to }
    ensures bytes { buffer.new.bytes ≡ buffer.old.bytes }
    ensures closed { ClosesList limits buffer.old to buffer.new result }
{
    buffer.close_list(to);
    buffer.depth() == 0
}

// Whether the innermost list may have no further child.
#[inline(always)]
fn is_full(buffer: &Buffer) -> bool
    ensures { result ≡ is_full limits buffer.now.open_lists }
{
    buffer.width() >= WIDTH
}

// What the byte after the byte x of a comment is in.
fn behind_comment_byte(x: u8) -> Position
    ensures { result ≡ (if is_line_end x then Position.Gap else Position.Comment) }
{
    if is_line_end(x) {
        Position::Gap
    } else {
        Position::Comment
    }
}

// How many lines the byte ends.
fn line_feeds(x: u8) -> usize
    ensures { result ≡ (if x == 10 then 1 else 0) }
{
    if x == b'\n' { 1 } else { 0 }
}

fn smaller(a: usize, b: usize) -> usize
    ensures a { result ≤ a }
    ensures b { result ≤ b }
{
    if a < b { a } else { b }
}

// Keeps the byte after the first `n` of `rest`, where it does not decide.
#[inline(always)]
fn keep(buffer: &mut Buffer, rest: &[u8], n: usize, turn: ReaderTurn) -> Result<Run, AllocError>
    requires { n < length rest.now }
    ensures { IfOk result (λ k. (k.turn ≡ ReaderTurn.Goes → 0 < k.taken)
        × ((b : Built) (r s : Reader) → length b.bytes + n < limits.command → StopsAt limits b r rest.now n 0 turn buffer.old s →
        Runs limits b r rest.now k.taken k.lines k.turn buffer.new s)) }
{
    match turn {
        ReaderTurn::Goes => {
            let x = rest[n];
            buffer.push(x)?;
            Ok(Run {
                taken: n + 1,
                lines: line_feeds(x),
                turn: ReaderTurn::Goes,
            })
        }
        turn => Ok(Run {
            taken: n,
            lines: 0,
            turn,
        }),
    }
}

// Whether a word begins with the byte x.
#[inline(always)]
fn begins_word(x: u8) -> bool
    ensures { IsTrue result → FirstOf x Token.Word }
{
    is_word(x)
}

// Whether a quoted symbol begins with the byte x.
#[inline(always)]
fn begins_quoted(x: u8) -> bool
    ensures { IsTrue result → FirstOf x Token.Quoted }
{
    x == b'|'
}

// Whether a string begins with the byte x.
#[inline(always)]
fn begins_text(x: u8) -> bool
    ensures { IsTrue result → FirstOf x (Token.Text false) }
{
    x == b'"'
}

impl Reader {
    // Before a command.
    pub(crate) fn new() -> Reader {
        Reader {
            position: Position::Gap,
            from: 0,
        }
    }

    // Begins a command that is a list.
    pub(crate) fn begin_list(&mut self, buffer: &mut Buffer) -> Result<(), AllocError>
        requires { buffer.old ≡ nothing }
        ensures bytes { OnOk result (buffer.new.bytes ≡ []) }
        ensures begins { OnOk result ((x : ℕ) → class x ≡ Open → Begins limits x (held (with_byte buffer.new x) self.new)) }
    {
        self.position = Position::Gap;
        buffer.open_list(0)
    }

    // Begins a command that is an atom with the first byte x.
    pub(crate) fn begin_atom(&mut self, c: Class, x: u8)
        requires class { class_of c ≡ class x }
        requires atom { IsAtom (class x) }
        ensures { Begins limits x (held (with_byte nothing x) self.new) }
    {
        self.begin_token(c, 0, x);
    }

    // Begins a token with the byte x, which is not in the buffer yet.
    #[inline(always)]
    fn begin_token(&mut self, c: Class, at: usize, x: u8)
        requires class { class_of c ≡ class x }
        requires atom { IsAtom (class x) }
        ensures { (b : Built) → length b.bytes ≡ at → BeginsToken limits (held b self.old) at x (held (with_byte b x) self.new) }
    {
        self.from = at;
        match c {
            Class::Quote => self.position = Position::Token(Token::Text { closed: false }),
            Class::Bar => self.position = Position::Token(Token::Quoted),
            _ => self.position = Position::Token(Token::Word),
        }
    }

    // The byte x, which has this number in the command and is not in the buffer yet.
    #[inline(always)]
    pub(crate) fn turn(
        &mut self,
        buffer: &mut Buffer,
        at: usize,
        x: u8,
    ) -> Result<ReaderTurn, AllocError>
        requires begun { IsBegunAt limits buffer.old self.old at }
        requires room { at ≤ 2 ^ 24 }
        ensures bytes { OnOk result (buffer.new.bytes ≡ buffer.old.bytes) }
        ensures turns { IfOk result (λ t. Turns limits (held buffer.old self.old) at x t (held (with_byte buffer.new x) self.new)) }
    {
        match self.position {
            Position::Gap => self.turn_gap(buffer, at, x),
            Position::Comment => {
                self.position = behind_comment_byte(x);
                Ok(ReaderTurn::Goes)
            }
            Position::Token(token) => self.turn_token(buffer, token, at, x),
        }
    }

    // Takes the bytes at the front of `rest`, up to one that decides. It stops early where the command
    // has as many bytes as it may.
    pub(crate) fn run(&mut self, buffer: &mut Buffer, rest: &[u8]) -> Result<Run, AllocError>
        requires reader { IsReader limits (held buffer.old self.old) (length buffer.old.bytes) }
        requires short { length buffer.old.bytes ≤ limits.command }
        ensures counts { IfOk result (λ r. (r.lines ≤ r.taken) × (r.taken ≤ length rest.now)) }
        ensures runs { IfOk result (λ r. Runs limits buffer.old self.old rest.now r.taken r.lines r.turn buffer.new self.new) }
    {
        let room = COMMAND.saturating_sub(buffer.bytes().len());
        let most = smaller(rest.len(), room);
        self.run_within(buffer, &rest[..most])
    }

    // The same where the command has room for all these bytes.
    fn run_within(&mut self, buffer: &mut Buffer, rest: &[u8]) -> Result<Run, AllocError>
        requires reader { IsReader limits (held buffer.old self.old) (length buffer.old.bytes) }
        requires room { length buffer.old.bytes + length rest.now ≤ 2 ^ 24 }
        ensures counts { IfOk result (λ r. (r.lines ≤ r.taken) × (r.taken ≤ length rest.now)) }
        ensures runs { IfOk result (λ r. Runs limits buffer.old self.old rest.now r.taken r.lines r.turn buffer.new self.new) }
    {
        let mut taken = 0;
        let mut lines = 0;
        while taken < rest.len() {
            let step = self.step(buffer, &rest[taken..])?;
            taken += step.taken;
            lines += step.lines;
            match step.turn {
                ReaderTurn::Goes => {}
                turn => return Ok(Run { taken, lines, turn }),
            }
        }
        Ok(Run {
            taken,
            lines,
            turn: ReaderTurn::Goes,
        })
    }

    // Takes some bytes at the front of `rest`, or returns what the first one does.
    #[inline(always)]
    fn step(&mut self, buffer: &mut Buffer, rest: &[u8]) -> Result<Run, AllocError>
        requires { IsReading limits buffer.old self.old rest.now }
        ensures { IfOk result (λ r. Steps limits buffer.old self.old rest.now r buffer.new self.new) }
    {
        match self.position {
            Position::Gap => self.step_gap(buffer, rest),
            _ => self.step_inside(buffer, rest),
        }
    }

    // Takes a word at the front of `rest` where one begins and ends in it, with the byte after it, or
    // spaces; or else as `step_other`.
    #[inline(always)]
    fn step_gap(&mut self, buffer: &mut Buffer, rest: &[u8]) -> Result<Run, AllocError>
        requires begun { IsReading limits buffer.old self.old rest.now }
        requires gap { self.old.position ≡ Position.Gap }
        ensures { IfOk result (λ r. Steps limits buffer.old self.old rest.now r buffer.new self.new) }
    {
        if begins_word(rest[0]) {
            let n = self.ahead(buffer, Token::Word, rest);
            if n > 0 {
                let at = buffer.bytes().len();
                return self.take_word(buffer, at, n, rest);
            }
        }
        if rest[0] == b' ' {
            return self.take_blanks(buffer, rest);
        }
        self.step_other(buffer, rest)
    }

    // Takes a quoted symbol or a string at the front of `rest` where one begins and ends in it, or
    // else the first byte.
    #[inline(always)]
    fn step_other(&mut self, buffer: &mut Buffer, rest: &[u8]) -> Result<Run, AllocError>
        requires begun { IsReading limits buffer.old self.old rest.now }
        requires gap { self.old.position ≡ Position.Gap }
        ensures { IfOk result (λ r. Steps limits buffer.old self.old rest.now r buffer.new self.new) }
    {
        if begins_quoted(rest[0]) {
            let n = self.bar_ahead(buffer, rest);
            if n > 0 {
                return self.take_quoted(buffer, n, rest);
            }
        }
        if begins_text(rest[0]) {
            let n = self.ahead(buffer, Token::Text { closed: false }, rest);
            if n > 0 {
                return self.take_text(buffer, n, rest);
            }
        }
        self.take_byte(buffer, rest)
    }

    // Takes the first byte, which is between two tokens of a list.
    #[inline(always)]
    fn take_byte(&mut self, buffer: &mut Buffer, rest: &[u8]) -> Result<Run, AllocError>
        requires begun { IsReading limits buffer.old self.old rest.now }
        requires gap { self.old.position ≡ Position.Gap }
        ensures { IfOk result (λ r. Steps limits buffer.old self.old rest.now r buffer.new self.new) }
    {
        let at = buffer.bytes().len();
        let turn = self.turn_gap(buffer, at, rest[0])?;
        keep(buffer, rest, 0, turn)
    }

    // Takes the bytes at the front of `rest` that leave a token or a comment as it is, or else the
    // first byte. It is seldom called, and so a function of its own.
    #[inline(never)]
    fn step_inside(&mut self, buffer: &mut Buffer, rest: &[u8]) -> Result<Run, AllocError>
        requires { IsReading limits buffer.old self.old rest.now }
        ensures { IfOk result (λ r. Steps limits buffer.old self.old rest.now r buffer.new self.new) }
    {
        let taken = self.run_plain(buffer, rest)?;
        if taken == 0 {
            return self.step_byte(buffer, rest);
        }
        Ok(Run {
            taken,
            lines: 0,
            turn: ReaderTurn::Goes,
        })
    }

    // Takes the first byte.
    fn step_byte(&mut self, buffer: &mut Buffer, rest: &[u8]) -> Result<Run, AllocError>
        requires { IsReading limits buffer.old self.old rest.now }
        ensures { IfOk result (λ r. Steps limits buffer.old self.old rest.now r buffer.new self.new) }
    {
        let at = buffer.bytes().len();
        let turn = self.turn(buffer, at, rest[0])?;
        keep(buffer, rest, 0, turn)
    }

    // Takes the spaces at the front of `rest`.
    #[inline(always)]
    fn take_blanks(&self, buffer: &mut Buffer, rest: &[u8]) -> Result<Run, AllocError>
        requires begun { IsReading limits buffer.old self.now rest.now }
        requires gap { self.now.position ≡ Position.Gap }
        requires first { get_or rest.now 0 0 ≡ 32 }
        ensures { IfOk result (λ r. Steps limits buffer.old self.now rest.now r buffer.new self.now) }
    {
        let taken = blank_run(rest);
        buffer.extend(rest, taken)?;
        Ok(Run {
            taken,
            lines: 0,
            turn: ReaderTurn::Goes,
        })
    }

    // How many bytes come before the one at which such a token may end, where that is in `rest` and
    // the token may be added; else 0.
    #[inline(always)]
    fn ahead(&self, buffer: &Buffer, token: Token, rest: &[u8]) -> usize
        requires room { length buffer.now.bytes + length rest.now ≤ 2 ^ 24 }
        requires some { 0 < length rest.now }
        ensures ahead { 0 < result → IsAhead limits buffer.now token rest.now result }
        ensures ends { 0 < result → is_plain token (get_or rest.now result 0) ≡ false }
    {
        if is_full(buffer) {
            return 0;
        }
        let most = smaller(rest.len() - 1, TOKEN);
        let n = plain_run(token, &rest[1..]) + 1;
        if n <= most { n } else { 0 }
    }

    // How many bytes come before the closing bar of a quoted symbol that begins at the front of `rest`,
    // where that is in `rest` and the symbol may be added; else 0.
    #[inline(always)]
    fn bar_ahead(&self, buffer: &Buffer, rest: &[u8]) -> usize
        requires room { length buffer.now.bytes + length rest.now ≤ 2 ^ 24 }
        requires some { 0 < length rest.now }
        ensures ahead { 0 < result → IsAhead limits buffer.now Token.Quoted rest.now result }
        ensures bar { 0 < result → get_or rest.now result 0 ≡ 124 }
        ensures short { result < limits.token }
    {
        let n = self.ahead(buffer, Token::Quoted, rest);
        if n > 0 && n < TOKEN && rest[n] == b'|' {
            n
        } else {
            0
        }
    }

    // Takes a quoted symbol with `n` bytes before its closing bar, and the spaces after it.
    #[inline(always)]
    fn take_quoted(&self, buffer: &mut Buffer, n: usize, rest: &[u8]) -> Result<Run, AllocError>
        requires reader { IsReader limits (held buffer.old self.now) (length buffer.old.bytes) }
        requires room { length buffer.old.bytes + length rest.now ≤ 2 ^ 24 }
        requires first { IsFirstOf self.now (get_or rest.now 0 0) Token.Quoted }
        requires ahead { IsAhead limits buffer.old Token.Quoted rest.now n }
        requires bar { get_or rest.now n 0 ≡ 124 }
        requires short { n < limits.token }
        ensures { IfOk result (λ r. Steps limits buffer.old self.now rest.now r buffer.new self.now) }
    {
        let at = buffer.bytes().len();
        let to = n + 1;
        let taken = to + blank_run(&rest[to..]);
        buffer.extend(rest, taken)?;
        buffer.add_atom(AtomKind::Symbol, true, at, at + to)?;
        Ok(Run {
            taken,
            lines: 0,
            turn: ReaderTurn::Goes,
        })
    }

    // Takes the first `n` bytes of a string, and the byte after them.
    #[inline(always)]
    fn take_text(&mut self, buffer: &mut Buffer, n: usize, rest: &[u8]) -> Result<Run, AllocError>
        requires reader { IsReader limits (held buffer.old self.old) (length buffer.old.bytes) }
        requires first { IsFirstOf self.old (get_or rest.now 0 0) (Token.Text false) }
        requires ahead { IsAhead limits buffer.old (Token.Text false) rest.now n }
        ensures { IfOk result (λ r. Steps limits buffer.old self.old rest.now r buffer.new self.new) }
    {
        let at = buffer.bytes().len();
        let turn = self.turn_behind(buffer, Token::Text { closed: false }, at, n, rest)?;
        keep(buffer, rest, n, turn)
    }

    // Takes a word of `n` bytes and the byte after it.
    #[inline(always)]
    fn take_word(
        &mut self,
        buffer: &mut Buffer,
        at: usize,
        n: usize,
        rest: &[u8],
    ) -> Result<Run, AllocError>
        requires begun { IsBegunAt limits buffer.old self.old at }
        requires first { IsFirstOf self.old (get_or rest.now 0 0) Token.Word }
        requires ahead { IsAhead limits buffer.old Token.Word rest.now n }
        requires ends { is_plain Token.Word (get_or rest.now n 0) ≡ false }
        ensures { IfOk result (λ r. Steps limits buffer.old self.old rest.now r buffer.new self.new) }
    {
        if rest[n] == b' ' {
            buffer.extend(rest, n + 1)?;
            buffer.add_atom(kind_of(&rest[..n]), false, at, at + n)?;
            return Ok(Run {
                taken: n + 1,
                lines: 0,
                turn: ReaderTurn::Goes,
            });
        }
        let turn = self.turn_word(buffer, at, n, rest)?;
        keep(buffer, rest, n, turn)
    }

    // Takes a word of `n` bytes, and returns what the byte after it does.
    #[inline(always)]
    fn turn_word(
        &mut self,
        buffer: &mut Buffer,
        at: usize,
        n: usize,
        rest: &[u8],
    ) -> Result<ReaderTurn, AllocError>
        requires begun { IsBegunAt limits buffer.old self.old at }
        requires first { IsFirstOf self.old (get_or rest.now 0 0) Token.Word }
        requires ahead { IsAhead limits buffer.old Token.Word rest.now n }
        requires ends { is_plain Token.Word (get_or rest.now n 0) ≡ false }
        ensures { IfOk result (λ t. StopsAt limits buffer.old self.old rest.now n 0 t buffer.new self.new) }
    {
        buffer.extend(rest, n)?;
        buffer.add_atom(kind_of(&rest[..n]), false, at, at + n)?;
        self.turn_gap(buffer, at + n, rest[n])
    }

    // Takes the first `n` bytes of a token, and returns what the byte after them does.
    #[inline(always)]
    fn turn_behind(
        &mut self,
        buffer: &mut Buffer,
        token: Token,
        at: usize,
        n: usize,
        rest: &[u8],
    ) -> Result<ReaderTurn, AllocError>
        requires begun { IsBegunAt limits buffer.old self.old at }
        requires first { IsFirstOf self.old (get_or rest.now 0 0) token }
        requires ahead { IsAhead limits buffer.old token rest.now n }
        ensures { IfOk result (λ t. StopsAt limits buffer.old self.old rest.now n 0 t buffer.new self.new) }
    {
        self.position = Position::Token(token);
        self.from = at;
        buffer.extend(rest, n)?;
        self.turn_token(buffer, token, at + n, rest[n])
    }

    // Takes the bytes at the front of `rest` that leave a token or a comment as it is, but no line
    // feed, and returns how many.
    #[inline(always)]
    fn run_plain(&self, buffer: &mut Buffer, rest: &[u8]) -> Result<usize, AllocError>
        requires reader { IsReader limits (held buffer.old self.now) (length buffer.old.bytes) }
        requires short { length buffer.old.bytes ≤ limits.command }
        ensures { IfOk result (λ n. RunsTo limits buffer.old self.now rest.now n 0 buffer.new self.now) }
    {
        match self.position {
            Position::Token(token) => self.run_token(buffer, token, rest),
            Position::Comment => self.run_comment(buffer, rest),
            Position::Gap => Ok(0),
        }
    }

    // The same in a comment.
    #[inline(never)]
    fn run_comment(&self, buffer: &mut Buffer, rest: &[u8]) -> Result<usize, AllocError>
        requires reader { IsReader limits (held buffer.old self.now) (length buffer.old.bytes) }
        requires comment { self.now.position ≡ Position.Comment }
        requires short { length buffer.old.bytes ≤ limits.command }
        ensures { IfOk result (λ n. RunsTo limits buffer.old self.now rest.now n 0 buffer.new self.now) }
    {
        let most = smaller(rest.len(), COMMAND.saturating_sub(buffer.bytes().len()));
        let run = comment_run(&rest[..most]);
        if run > 0 {
            buffer.extend(rest, run)?;
        }
        Ok(run)
    }

    // The same in a token.
    #[inline(always)]
    fn run_token(&self, buffer: &mut Buffer, token: Token, rest: &[u8]) -> Result<usize, AllocError>
        requires reader { IsReader limits (held buffer.old self.now) (length buffer.old.bytes) }
        requires token { self.now.position ≡ Position.Token token }
        requires short { length buffer.old.bytes ≤ limits.command }
        ensures { IfOk result (λ n. RunsTo limits buffer.old self.now rest.now n 0 buffer.new self.now) }
    {
        let at = buffer.bytes().len();
        let more = smaller(
            COMMAND.saturating_sub(at),
            TOKEN.saturating_sub(at.saturating_sub(self.from)),
        );
        let most = smaller(rest.len(), more);
        let run = plain_run(token, &rest[..most]);
        if run > 0 {
            buffer.extend(rest, run)?;
        }
        Ok(run)
    }

    // The byte x between two tokens of a list.
    #[inline(always)]
    fn turn_gap(&mut self, buffer: &mut Buffer, at: usize, x: u8) -> Result<ReaderTurn, AllocError>
        requires begun { IsBegunAt limits buffer.old self.old at }
        requires gap { self.old.position ≡ Position.Gap }
        requires room { at ≤ 2 ^ 24 }
        ensures bytes { OnOk result (buffer.new.bytes ≡ buffer.old.bytes) }
        ensures turns { IfOk result (λ t. Turns limits (held buffer.old self.old) at x t (held (with_byte buffer.new x) self.new)) }
    {
        match classify(x) {
            Class::Space => Ok(ReaderTurn::Goes),
            Class::Comment => {
                self.position = Position::Comment;
                Ok(ReaderTurn::Goes)
            }
            Class::Other => Ok(ReaderTurn::Fault(FaultName::BadByte)),
            Class::Open => self.open_list(buffer, at),
            Class::Close => {
                if close_list(buffer, at + 1) {
                    return Ok(ReaderTurn::Whole);
                }
                Ok(ReaderTurn::Goes)
            }
            c => {
                if is_full(buffer) {
                    return Ok(ReaderTurn::Fault(FaultName::Width));
                }
                self.begin_token(c, at, x);
                Ok(ReaderTurn::Goes)
            }
        }
    }

    // A `(` between two tokens of a list.
    fn open_list(&mut self, buffer: &mut Buffer, at: usize) -> Result<ReaderTurn, AllocError>
        requires begun { IsBegunAt limits buffer.old self.old at }
        requires gap { self.old.position ≡ Position.Gap }
        requires room { at < 2 ^ 31 }
        ensures bytes { OnOk result (buffer.new.bytes ≡ buffer.old.bytes) }
        ensures turns { IfOk result (λ t. (x : ℕ) → class x ≡ Open →
            Turns limits (held buffer.old self.old) at x t (held (with_byte buffer.new x) self.new)) }
    {
        if buffer.depth() >= NESTING {
            return Ok(ReaderTurn::Fault(FaultName::Nesting));
        }
        if is_full(buffer) {
            return Ok(ReaderTurn::Fault(FaultName::Width));
        }
        buffer.open_list(at)?;
        Ok(ReaderTurn::Goes)
    }

    // The byte x inside or after a token.
    #[inline(always)]
    fn turn_token(
        &mut self,
        buffer: &mut Buffer,
        token: Token,
        at: usize,
        x: u8,
    ) -> Result<ReaderTurn, AllocError>
        requires begun { IsBegunAt limits buffer.old self.old at }
        requires token { self.old.position ≡ Position.Token token }
        requires room { at ≤ 2 ^ 24 }
        ensures bytes { OnOk result (buffer.new.bytes ≡ buffer.old.bytes) }
        ensures turns { IfOk result (λ t. Turns limits (held buffer.old self.old) at x t (held (with_byte buffer.new x) self.new)) }
    {
        match token_turn(token, at - self.from, x) {
            TokenTurn::Goes(token) => {
                self.position = Position::Token(token);
                Ok(ReaderTurn::Goes)
            }
            TokenTurn::Fault(name) => Ok(ReaderTurn::Fault(name)),
            TokenTurn::Closes => {
                let whole = self.end_token(buffer, token, at + 1)?;
                self.position = Position::Gap;
                if whole {
                    return Ok(ReaderTurn::Whole);
                }
                Ok(ReaderTurn::Goes)
            }
            TokenTurn::Ends => {
                let whole = self.end_token(buffer, token, at)?;
                self.position = Position::Gap;
                if whole {
                    return Ok(ReaderTurn::Before);
                }
                self.turn_gap(buffer, at, x)
            }
        }
    }

    // Adds the atom that the token begun is, where it ends before the byte with this number, and
    // returns whether it is the whole command.
    #[inline(always)]
    fn end_token(&self, buffer: &mut Buffer, token: Token, to: usize) -> Result<bool, AllocError>
        requires token { self.now.position ≡ Position.Token token }
        requires ends { EndsAt (held buffer.old self.now) token (length buffer.old.bytes) to }
        requires short { to ≤ 2 ^ 31 }
        requires own { parts_of buffer.old ≤ self.now.from }
        ensures bytes { OnOk result (buffer.new.bytes ≡ buffer.old.bytes) }
        ensures added { IfOk result (λ whole. AddsChild limits buffer.old (atom_of (held buffer.old self.now) token to) buffer.new whole) }
    {
        let kind = self.kind(buffer.bytes(), token);
        add_atom(buffer, kind, is_delimited(token), self.from, to)
    }

    // The kind of the atom that the token begun is.
    #[inline(always)]
    fn kind(&self, bytes: &[u8], token: Token) -> AtomKind
        requires { self.now.from ≤ length bytes.now }
        ensures kind { kind_meant result ≡ atom_kind token (text_at (Position.Token token) self.now.from bytes.now) }
        ensures delimits { Delimits (kind_meant result) (is_delimited token) }
    {
        match token {
            Token::Word => kind_of(&bytes[self.from..]),
            Token::Quoted => AtomKind::Symbol,
            Token::Text { .. } => AtomKind::String,
        }
    }

    // Makes the command whole, where the input ends after its bytes and makes it so, and returns
    // whether it does. It takes no memory.
    pub(crate) fn finish(&mut self, buffer: &mut Buffer, to: usize) -> bool
        requires begun { IsBegunAt limits buffer.old self.old to }
        requires short { to ≤ 2 ^ 31 }
        ensures bytes { buffer.new.bytes ≡ buffer.old.bytes }
        ensures ends { Ends limits (held buffer.old self.old) to buffer.new result }
    {
        if buffer.depth() != 0 {
            return false;
        }
        match self.position {
            Position::Gap | Position::Comment => false,
            Position::Token(token) => {
                if !may_end(token) {
                    return false;
                }
                self.end_command(buffer, token, to);
                true
            }
        }
    }

    // Makes the atom that the token begun is the whole command. It takes no memory.
    fn end_command(&self, buffer: &mut Buffer, token: Token, to: usize)
        requires token { self.now.position ≡ Position.Token token }
        requires ends { EndsAt (held buffer.old self.now) token (length buffer.old.bytes) to }
        requires short { to ≤ 2 ^ 31 }
        requires none { buffer.old.done ≡ [] }
        requires outside { buffer.old.open_lists ≡ [] }
        ensures { buffer.new ≡ with_child buffer.old (atom_of (held buffer.old self.now) token to) }
    {
        let kind = self.kind(buffer.bytes(), token);
        buffer.be_atom(kind, is_delimited(token), self.from, to);
    }
}

// Whether the token has a delimiter at each end.
fn is_delimited(token: Token) -> bool
    ensures { result ≡ is_delimited token }
{
    match token {
        Token::Word => false,
        Token::Text { .. } | Token::Quoted => true,
    }
}
