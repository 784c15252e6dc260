//! The time that a collector takes for one large command, and for many small ones.
//!
//! With no argument it reads 20 KiB of each and prints how many commands there were. With a number
//! it reads that many MiB of each in pieces of 64 KiB, and prints bytes, microseconds and MB/s.
//! A second word, `one`, `small`, `steps`, `lines` or `text`, reads only that kind.
#![tactic(auto)]

ghost use Rattle.std.specs.Prelude.{◌≡◌, ◌<◌, ◌≤◌, ◌^◌, [], length, IfOk};
ghost use Rattle.eo_base.specs.Limits.{limits};
ghost use Rattle.eo_sexp.specs.Collecting.{IsLive, HasRoom};
ghost use Rattle.eo_sexp.specs.Cutting.{IsWaiting};
ghost use Rattle.bench_read.specs.Counting.{commands_of, commands_behind, Gives};

use eo_base::ok_with;
use eo_sexp::{Collector, Fed, Finished, answers_law, pieces_law};
use std::alloc::{AllocError, Global};
use std::time::Instant;
use std::vec::IntoIter;
use std::{env, io};

const PIECE: usize = 65_536;

// No text that may be asked for is longer.
const LONGEST: usize = 1_000_000_000;

/// A text that repeats `part` between `head` and `tail`, of about `size` bytes.
fn repeat_part(
    alloc: Global,
    head: &[u8],
    part: &[u8],
    tail: &[u8],
    size: usize,
) -> Result<Vec<u8>, AllocError>
    requires { 0 < length part.now }
{
    let mut text = Vec::new(alloc);
    let ((), text) = ok_with(write_to(&mut text, head, part, tail, size), text)?;
    Ok(text)
}

fn write_to(
    text: &mut Vec<u8>,
    head: &[u8],
    part: &[u8],
    tail: &[u8],
    size: usize,
) -> Result<(), AllocError>
    requires { 0 < length part.now }
{
    text.extend_from_slice(head)?;
    for _ in 0..size / part.len() {
        text.extend_from_slice(part)?;
    }
    text.extend_from_slice(tail)
}

/// What a piece of a text gave.
enum Given {
    /// So many bytes are taken, and no command is whole with them.
    More(usize),
    /// A command is whole with so many bytes.
    Command(usize),
    Fault,
}

/// How many of the bytes that are left are fed at once.
fn piece_size(left: usize) -> usize
    ensures within { result ≤ left }
    ensures some { 0 < left → 0 < result }
{
    if left < PIECE { left } else { PIECE }
}

/// Feeds the first piece of the rest of a text.
fn feed_piece(collector: &mut Collector, rest: &[u8]) -> Result<Given, AllocError>
    requires live { IsLive collector.old }
    requires waiting { IsWaiting limits collector.old }
    requires room { HasRoom collector.old rest.now }
    ensures gives { IfOk result (λ g. Gives g collector.old collector.new rest.now) }
{
    pieces_law();
    answers_law();
    let size = piece_size(rest.len());
    match collector.feed(&rest[..size]) {
        Fed::More => Ok(Given::More(size)),
        Fed::Command { used } => Ok(Given::Command(used)),
        Fed::Fault { .. } => Ok(Given::Fault),
        Fed::Memory => Err(AllocError),
    }
}

/// Ends a text, and returns how many commands the end makes whole.
fn count_last(collector: &mut Collector) -> u64
    requires live { IsLive collector.old }
    requires waiting { IsWaiting limits collector.old }
    requires few { commands_behind collector.old [] < 2 ^ 64 }
    ensures { result ≡ commands_behind collector.old [] }
{
    pieces_law();
    answers_law();
    let mut commands = 0u64;
    'atoms: loop {
        match collector.finish() {
            Finished::End => return commands,
            Finished::Command => commands += 1,
            Finished::Fault { .. } => return commands,
        }
    }
}

/// How many commands the text has after what the collector was fed, before its end or its first
/// fault.
fn count(collector: &mut Collector, text: &[u8]) -> Result<u64, AllocError>
    requires live { IsLive collector.old }
    requires waiting { IsWaiting limits collector.old }
    requires room { HasRoom collector.old text.now }
    requires few { commands_behind collector.old text.now < 2 ^ 64 }
    ensures { IfOk result (λ n. n ≡ commands_behind collector.old text.now) }
{
    let mut commands = 0u64;
    let mut rest = text;
    while rest.len() > 0 {
        match feed_piece(collector, rest)? {
            Given::More(taken) => rest = &rest[taken..],
            Given::Command(taken) => {
                commands += 1;
                rest = &rest[taken..];
            }
            Given::Fault => return Ok(commands),
        }
    }
    Ok(commands + count_last(collector))
}

/// How many commands the text has before its end or its first fault. It is fed in pieces.
fn read(alloc: Global, text: &[u8]) -> Result<u64, AllocError>
    requires { length text.now < 2 ^ 63 }
    ensures { IfOk result (λ n. n ≡ commands_of text.now) }
{
    pieces_law();
    answers_law();
    let mut collector = Collector::new(alloc, false)?;
    count(&mut collector, text)
}

/// A text of `size` bytes of this kind.
fn text_of(alloc: Global, kind: usize, size: usize) -> Result<Vec<u8>, AllocError> {
    match kind {
        0 => repeat_part(
            alloc,
            b"(assume @p1 (",
            b"(a true |b c| a true |b c| a true |b c| a true |b c| a true |b c| \
            a true |b c| a true |b c| a true |b c| a true |b c| a true |b c| \
            a true |b c| a true |b c| a true |b c| a true |b c| a true |b c| \
            a true |b c| a true |b c| a true |b c| a true |b c| )\n",
            b"))\n",
            if size < 16_000_000 { size } else { 16_000_000 },
        ),
        1 => repeat_part(alloc, b"", b"(assume @p000012345 true)\n", b"", size),
        2 => repeat_part(
            alloc,
            b"",
            b"(step @p12345 :rule chain_m_resolution :premises (@p123 @p456 @p789) \
            :args ((or (= skolem_x12 (+ y 1)) (not @t77)) (@list true false) (@list @t5 @t6)))\n",
            b"",
            size,
        ),
        3 => repeat_part(
            alloc,
            b"",
            b"(define\n  f\n  (\n    (x Int)\n    (y Int)\n  )\n  (\n    and\n    (> x 0)\n    (= x\n      y\n    )\n  )\n)\n",
            b"",
            size,
        ),
        _ => repeat_part(
            alloc,
            b"",
            b"; a comment on the next command, of some length, as they stand in files that people write\n\
            (set-info :source \"a string literal of the size of a line, more or less, as it may well stand in one\")\n",
            b"",
            size,
        ),
    }
}

fn name_of(kind: usize) -> &'static str {
    match kind {
        0 => "one",
        1 => "small",
        2 => "steps",
        3 => "lines",
        _ => "text",
    }
}

/// Reads a text of this name, and prints how many commands it has, and the time where it is asked
/// for. One that is too long is passed over.
fn time_text(rt: &HostRuntime, name: &str, text: &[u8], timed: bool) -> io::Result<()> {
    if text.len() > LONGEST {
        return Ok(());
    }
    let start = Instant::now(rt)?;
    let commands = read(rt.alloc(), text);
    let time = start.elapsed(rt)?;
    if let Ok(commands) = commands {
        println!(rt; "{name}: {commands} commands")?;
    }
    if timed {
        print_rate(rt, text.len(), time.as_micros())?;
    }
    Ok(())
}

fn print_rate(rt: &HostRuntime, bytes: usize, us: u128) -> io::Result<()> {
    let rate = if us == 0 { 0 } else { bytes as u128 / us };
    println!(rt; "{bytes} bytes, {us} us, {rate} MB/s")
}

fn is_asked(only: Option<&str>, name: &str) -> bool {
    match only {
        Some(word) => word == name,
        None => true,
    }
}

/// Reads a text of each kind, or only of the one that is asked for.
fn time_all(rt: &HostRuntime, asked: Option<usize>, only: Option<&str>) -> io::Result<()> {
    let size = match asked {
        Some(n) if n < 900 => n * 1_048_576,
        _ => 20_480,
    };
    for kind in 0..5usize {
        let name = name_of(kind);
        if !is_asked(only, name) {
            continue;
        }
        let Ok(text) = text_of(rt.alloc(), kind, size) else {
            return Ok(());
        };
        let timed = time_text(rt, name, text.as_slice(), asked.is_some());
        drop(text);
        timed?;
    }
    Ok(())
}

/// What the command line asks for: how many MiB of each kind, and the only kind.
fn requested_sizes(rt: &HostRuntime) -> io::Result<(Option<usize>, Option<String>)> {
    let mut words = env::args(rt)?;
    let asked = read_words(&mut words);
    drop(words);
    Ok(asked)
}

fn read_words(words: &mut IntoIter<String>) -> (Option<usize>, Option<String>) {
    drop(words.next());
    let size = number_of(words.next());
    (size, words.next())
}

fn number_of(word: Option<String>) -> Option<usize> {
    let word = word?;
    let number = word.as_str().parse::<usize>().ok();
    drop(word);
    number
}

fn main(rt: HostRuntime) -> io::Result<()> {
    let (size, only) = requested_sizes(&rt)?;
    let timed = time_all(&rt, size, only.as_deref());
    drop(only);
    timed
}
