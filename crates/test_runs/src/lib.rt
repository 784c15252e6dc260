//! Runs of the program over files in memory, for the tests of it, and the long texts of some.
#![tactic(auto)]

ghost use Rattle.std.specs.Prelude.{◌≡◌, ◌≤◌, [], OnOk};

mod texts;

use eo_base::{Status, Text};
use eo_io::{HonestLibrary, MemoryLibrary, MemorySink};
use eo_main::{ethos_main, run_in_memory};
use std::alloc::{AllocError, Global};
pub use texts::{Long, join_texts, long_text};

/// Room for what is printed.
pub const ROOM: usize = 8_192;

/// The words that check a proof against a reference file.
pub const CHECK: &str = "ethos check --reference=r.smt2 p.eo";

/// A file: its path and its bytes.
pub type File<'a> = (&'a [u8], &'a [u8]);

/// What is run: the words of a line, over a file and others.
pub type Job<'a> = (&'a str, File<'a>, &'a [File<'a>]);

/// What is wanted of a run.
#[derive(Clone, Copy)]
pub enum Want<'a> {
    /// It ends with this status and has printed this line.
    Ends(Status, &'a [u8]),
    /// It has printed this line.
    Prints(&'a [u8]),
    /// The line that it has printed begins so.
    Begins(&'a [u8]),
}

fn is_met(want: &Want<'_>, status: Status, printed: &[u8]) -> bool {
    match want {
        Want::Ends(end, line) => status == *end && printed == *line,
        Want::Prints(line) => printed == *line,
        Want::Begins(start) => printed.starts_with(start),
    }
}

/// The number of the first row that is not right, or for which there is no memory.
pub fn first_wrong<Row: Copy, F: Fn(Global, Row) -> Result<bool, AllocError>>(
    alloc: Global,
    rows: &[Row],
    is_right: F,
) -> Option<usize>
    requires { F.IsAlwaysCallable is_right }
{
    for (i, row) in rows.iter().enumerate() {
        if is_right(alloc, *row) != Ok(true) {
            return Some(i);
        }
    }
    None
}

// The words of a line: what is between two spaces is one, also where it is empty.
fn words_of(alloc: Global, line: &str) -> Result<Vec<Text>, AllocError> {
    let mut words = Vec::new(alloc);
    for word in line.split(' ') {
        push_word(alloc, &mut words, word)?;
    }
    Ok(words)
}

fn push_word(alloc: Global, words: &mut Vec<Text>, word: &str) -> Result<(), AllocError> {
    Ok(words.push(Text::new(alloc, word)?)?)
}

// ---- files of which a call may fail

/// Whether a job does what is wanted, with reads of at most so many bytes, and with one call of the
/// library that fails, if its number is one of a call.
pub fn does(
    alloc: Global,
    job: &Job<'_>,
    piece: usize,
    failing: u64,
    want: &Want<'_>,
) -> Result<bool, AllocError>
    requires { 1 ≤ piece }
{
    does_over_chain(alloc, job, 1, piece, failing, want)
}

/// Whether it does so whole, and with reads of 1 and of 3 bytes.
pub fn does_in_pieces(alloc: Global, job: &Job<'_>, want: &Want<'_>) -> Result<bool, AllocError> {
    let whole = does(alloc, job, 65_536, 0, want)?;
    let by_three = does(alloc, job, 3, 0, want)?;
    let by_one = does(alloc, job, 1, 0, want)?;
    Ok(whole & by_three & by_one)
}

/// How many calls of the library a job makes: each run in which one of them fails ends with a read
/// fault, and the first in which none does is as it is wanted.
pub fn calls(
    alloc: Global,
    job: &Job<'_>,
    piece: usize,
    want: &Want<'_>,
) -> Result<Option<u64>, AllocError>
    requires { 1 ≤ piece }
{
    let fault = Want::Ends(Status::ReadFault, b"read fault\n");
    for call in 1..1_000u64 {
        if !does(alloc, job, piece, call, &fault)? {
            let is_right = does(alloc, job, piece, call, want)?;
            return Ok(if is_right { Some(call - 1) } else { None });
        }
    }
    Ok(None)
}

/// The same over its files and `n1.eo`, `n2.eo`, .. up to the number before the end, of which each
/// includes the next.
pub fn does_over_chain(
    alloc: Global,
    job: &Job<'_>,
    end: u32,
    piece: usize,
    failing: u64,
    want: &Want<'_>,
) -> Result<bool, AllocError>
    requires { 1 ≤ piece }
{
    let mut files = MemoryLibrary::new(alloc)?;
    prepare(alloc, &mut files, job, end, piece, failing)?;
    does_over(alloc, job.0, &mut files, want)
}

fn does_over(
    alloc: Global,
    line: &str,
    files: &mut MemoryLibrary,
    want: &Want<'_>,
) -> Result<bool, AllocError>
    requires { files.old.stored.unread ≡ [] }
{
    let mut out = MemorySink::new(alloc, ROOM)?;
    does_into(alloc, line, files, &mut out, want)
}

fn does_into(
    alloc: Global,
    line: &str,
    files: &mut MemoryLibrary,
    out: &mut MemorySink,
    want: &Want<'_>,
) -> Result<bool, AllocError>
    requires { files.old.stored.unread ≡ [] }
{
    let words = words_of(alloc, line)?;
    let status = ethos_main(alloc, words.as_slice(), files, out);
    Ok(is_met(want, status, out.bytes()))
}

fn prepare(
    alloc: Global,
    files: &mut MemoryLibrary,
    job: &Job<'_>,
    end: u32,
    piece: usize,
    failing: u64,
) -> Result<(), AllocError>
    requires { 1 ≤ piece }
    ensures { OnOk result (files.new.stored.unread ≡ files.old.stored.unread) }
{
    add_files(files, job)?;
    add_chain(alloc, files, end)?;
    files.piece(piece);
    files.fail(failing)
}

fn add_files(files: &mut MemoryLibrary, job: &Job<'_>) -> Result<(), AllocError>
    ensures { files.new.stored.unread ≡ files.old.stored.unread }
{
    let (_line, (path, bytes), others) = *job;
    files.add(path, bytes)?;
    add_others(files, others)
}

fn add_others(files: &mut MemoryLibrary, others: &[File<'_>]) -> Result<(), AllocError>
    ensures { files.new.stored.unread ≡ files.old.stored.unread }
{
    for i in 0..others.len() {
        let (path, bytes) = others[i];
        files.add(path, bytes)?;
    }
    Ok(())
}

fn add_chain(alloc: Global, files: &mut MemoryLibrary, end: u32) -> Result<(), AllocError>
    ensures { files.new.stored.unread ≡ files.old.stored.unread }
{
    for i in 1..end {
        add_link(alloc, files, i)?;
    }
    Ok(())
}

fn add_link(alloc: Global, files: &mut MemoryLibrary, number: u32) -> Result<(), AllocError>
    ensures { files.new.stored.unread ≡ files.old.stored.unread }
{
    let path = format!(in alloc; "n{number}.eo")?;
    add_include(alloc, files, path.as_bytes(), u64::from(number) + 1)
}

fn add_include(
    alloc: Global,
    files: &mut MemoryLibrary,
    path: &[u8],
    number: u64,
) -> Result<(), AllocError>
    ensures { files.new.stored.unread ≡ files.old.stored.unread }
{
    let bytes = format!(in alloc; "(include \"n{number}.eo\")\n")?;
    files.add(path, bytes.as_bytes())
}

// ---- files of which no call fails

/// Whether the words of a line do what is wanted over these files.
pub fn honest_does(
    alloc: Global,
    line: &str,
    files: &[File<'_>],
    want: &Want<'_>,
) -> Result<bool, AllocError> {
    let mut out = MemorySink::new(alloc, ROOM)?;
    honest_does_into(alloc, line, files, &mut out, want)
}

/// The same into a sink.
pub fn honest_does_into(
    alloc: Global,
    line: &str,
    files: &[File<'_>],
    out: &mut MemorySink,
    want: &Want<'_>,
) -> Result<bool, AllocError> {
    let mut library = HonestLibrary::new(alloc)?;
    add_honest(&mut library, files)?;
    honest_does_over(alloc, line, &mut library, out, want)
}

fn honest_does_over(
    alloc: Global,
    line: &str,
    library: &mut HonestLibrary,
    out: &mut MemorySink,
    want: &Want<'_>,
) -> Result<bool, AllocError>
    requires { library.old.unread ≡ [] }
{
    let words = words_of(alloc, line)?;
    let status = run_in_memory(alloc, words.as_slice(), library, out);
    Ok(is_met(want, status, out.bytes()))
}

fn add_honest(library: &mut HonestLibrary, files: &[File<'_>]) -> Result<(), AllocError>
    ensures { library.new.unread ≡ library.old.unread }
{
    for i in 0..files.len() {
        let (path, bytes) = files[i];
        library.add(path, bytes)?;
    }
    Ok(())
}
