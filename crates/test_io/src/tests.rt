ghost use Rattle.std.specs.Prelude.{◌≡◌, [], ◌∷◌, IfOk, OnOk};
ghost use Rattle.eo_io.specs.Library.{Rest};

use eo_io::*;
use std::alloc::{AllocError, Global};
use std::path::{Path, PathBuf};
use std::test::Fail;
use std::{env, fs, io, process};

/// Reads a piece of the one open file through a small buffer, and returns whether that was its end,
/// where nothing more is to be read.
fn read_piece<L: Library>(library: &mut L, bytes: &mut Vec<u8>) -> Result<Option<bool>, AllocError>
    requires { (rest : Rest) × (L.open_files library.old ≡ rest ∷ []) }
    ensures { (rest : Rest) × (L.open_files library.new ≡ rest ∷ []) }
{
    let mut buf = [0; 4];
    match library.read(&mut buf) {
        Got::Failed => Ok(Some(false)),
        Got::Bytes(0) => Ok(Some(true)),
        Got::Bytes(n) => {
            bytes.extend_from_slice(&buf[..n])?;
            Ok(None)
        }
    }
}

/// Reads what is left of the one open file, and returns whether it came to the end.
fn read_rest<L: Library>(library: &mut L, bytes: &mut Vec<u8>) -> Result<bool, AllocError>
    requires { (rest : Rest) × (L.open_files library.old ≡ rest ∷ []) }
    ensures { (rest : Rest) × (L.open_files library.new ≡ rest ∷ []) }
{
    for _ in 0..100 {
        if let Some(ended) = read_piece(library, bytes)? {
            return Ok(ended);
        }
    }
    Ok(false)
}

/// Opens a file, reads it and closes it: what opening returned, and whether reading came to the end.
fn read_file<L: Library>(
    library: &mut L,
    path: &[u8],
    bytes: &mut Vec<u8>,
) -> Result<(Opened, bool), AllocError>
    requires { L.open_files library.old ≡ [] }
    ensures { L.open_files library.new ≡ [] }
{
    let opened = library.open(path);
    match opened {
        Opened::Absent | Opened::Failed => Ok((opened, false)),
        Opened::Ready => {
            let ended = read_rest(library, bytes);
            library.close();
            Ok((opened, ended?))
        }
    }
}

/// A file: what opening it returns, whether reading it comes to the end, and what bytes it gives.
type Reading<'a> = (&'a [u8], Opened, bool, &'a [u8]);

// The first of these files that is not read so, one after the other.
fn wrong_reading<L: Library>(
    alloc: Global,
    library: &mut L,
    rows: &[Reading<'_>],
) -> Result<Option<usize>, AllocError>
    requires { L.open_files library.old ≡ [] }
{
    for (i, row) in rows.iter().enumerate() {
        let (path, opened, ended, bytes) = *row;
        if !is_read_so(alloc, library, path, (opened, ended, bytes))? {
            return Ok(Some(i));
        }
    }
    Ok(None)
}

// Whether opening the file returns this, and reading it comes to the end or not, with these bytes.
fn is_read_so<L: Library>(
    alloc: Global,
    library: &mut L,
    path: &[u8],
    want: (Opened, bool, &[u8]),
) -> Result<bool, AllocError>
    requires { L.open_files library.old ≡ [] }
    ensures { L.open_files library.new ≡ [] }
{
    let mut bytes = Vec::new(alloc);
    let (opened, ended) = read_file(library, path, &mut bytes)?;
    Ok((opened, ended, bytes.as_slice()) == want)
}

// Adds two files, one of them twice.
fn add_two(library: &mut HonestLibrary) -> Result<(), AllocError>
    ensures { OnOk result (library.new.unread ≡ library.old.unread) }
{
    library.add(b"a", b"first")?;
    library.add(b"b", b"")?;
    library.add(b"a", b"the second one")
}

// Two files that were added, and a third that is absent.
const OF_TWO: &[Reading<'static>] = &[
    (b"a", Opened::Ready, true, b"the second one"),
    (b"b", Opened::Ready, true, b""),
    (b"c", Opened::Absent, false, b""),
];

fn reads_two(alloc: Global, library: &mut HonestLibrary) -> Result<Option<usize>, AllocError>
    requires { library.old.unread ≡ [] }
{
    add_two(library)?;
    wrong_reading(alloc, library, OF_TWO)
}

fn told_of_two(alloc: Global) -> Result<Option<usize>, AllocError> {
    let mut library = HonestLibrary::new(alloc)?;
    let told = reads_two(alloc, &mut library);
    drop(library);
    told
}

#[test]
fn honest_library(rt: HostRuntime) -> Result<(), Fail> {
    assert_eq!(rt; told_of_two(rt.alloc())?, None);
    Ok(())
}

// Adds a file, of which no read gives more than three bytes.
fn add_pieces(library: &mut MemoryLibrary) -> Result<(), AllocError>
    ensures { OnOk result (library.new.stored.unread ≡ library.old.stored.unread) }
{
    library.add(b"a", b"abcdefg")?;
    library.piece(3);
    Ok(())
}

// That file by an open and four reads, then by an open, a read, and a read that fails, and then by an
// open that fails; and another, which is absent.
const OF_PIECES: &[Reading<'static>] = &[
    (b"a", Opened::Ready, true, b"abcdefg"),
    (b"a", Opened::Ready, false, b"abc"),
    (b"a", Opened::Failed, false, b""),
    (b"b", Opened::Absent, false, b""),
];

fn reads_pieces(alloc: Global, library: &mut MemoryLibrary) -> Result<Option<usize>, AllocError>
    requires { library.old.stored.unread ≡ [] }
{
    add_pieces(library)?;
    library.fail(8)?;
    library.fail(9)?;
    wrong_reading(alloc, library, OF_PIECES)
}

fn told_of_pieces(alloc: Global) -> Result<Option<usize>, AllocError> {
    let mut library = MemoryLibrary::new(alloc)?;
    let told = reads_pieces(alloc, &mut library);
    drop(library);
    told
}

#[test]
fn memory_library(rt: HostRuntime) -> Result<(), Fail> {
    assert_eq!(rt; told_of_pieces(rt.alloc())?, None);
    Ok(())
}

// Whether writing the piece comes to its end or not, and leaves these bytes in the sink.
fn is_written_so(sink: &mut MemorySink, piece: &[u8], ended: bool, bytes: &[u8]) -> bool {
    write_all(sink, piece) == ended && sink.bytes() == bytes
}

// Whether one piece is written, one up to the call that fails, one up to the room, and then one of
// no bytes.
fn writes_pieces(sink: &mut MemorySink) -> Result<[bool; 4], AllocError> {
    sink.piece(2);
    let whole = is_written_so(sink, b"hello", true, b"hello");
    sink.fail(5)?;
    let failed = is_written_so(sink, b"abc", false, b"helloab");
    let full = is_written_so(sink, b"cdef", false, b"helloabcd");
    let nothing = is_written_so(sink, b"", true, b"helloabcd");
    Ok([whole, failed, full, nothing])
}

fn told_of_sink(alloc: Global) -> Result<[bool; 4], AllocError> {
    let mut sink = MemorySink::new(alloc, 9)?;
    let told = writes_pieces(&mut sink);
    drop(sink);
    told
}

#[test]
fn memory_sink(rt: HostRuntime) -> Result<(), Fail> {
    assert_eq!(rt; told_of_sink(rt.alloc())?, [true; 4]);
    Ok(())
}

// The numbers of two paths, and of the first once more.
fn add_paths(paths: &mut Paths) -> Result<[usize; 3], AllocError> {
    let first = paths.add(b"lib/a.eo")?;
    let second = paths.add(b"b.eo")?;
    let again = paths.add(b"lib/a.eo")?;
    Ok([first, second, again])
}

// Those numbers, and those of a path that was added and of one that was not.
fn number_paths(paths: &mut Paths) -> Result<([usize; 3], [Option<usize>; 2]), AllocError> {
    let added = add_paths(paths)?;
    Ok((added, [paths.find(b"b.eo"), paths.find(b"c.eo")]))
}

fn told_of_paths(alloc: Global) -> Result<([usize; 3], [Option<usize>; 2]), AllocError> {
    let mut paths = Paths::new(alloc);
    let told = number_paths(&mut paths);
    drop(paths);
    told
}

#[test]
fn paths(rt: HostRuntime) -> Result<(), Fail> {
    assert_eq!(rt; told_of_paths(rt.alloc())?, ([0, 1, 0], [Some(1), None]));
    Ok(())
}

/// What folds a path: the file that it is in, its name there, and its folding, if it has one.
type Folding<'a> = (&'a [u8], &'a [u8], Option<&'a str>);

/// Whether the path in a file is folded so.
fn is_folded_so(
    alloc: Global,
    from: &[u8],
    name: &[u8],
    want: Option<&str>,
) -> Result<bool, AllocError> {
    match fold_path(alloc, from, name) {
        Ok(path) => Ok(want == Some(path.as_str())),
        Err(PathRefused::Bad) => Ok(want.is_none()),
        Err(PathRefused::Memory(e)) => Err(e),
    }
}

/// The first name that is not folded so.
fn wrong_folding<'a>(alloc: Global, rows: &[Folding<'a>]) -> Result<Option<&'a [u8]>, AllocError> {
    for row in rows {
        let (from, name, want) = *row;
        if !is_folded_so(alloc, from, name, want)? {
            return Ok(Some(name));
        }
    }
    Ok(None)
}

const FOLDINGS: &[Folding<'static>] = &[
    (b"", b"p.eo", Some("p.eo")),
    (b"a.eo", b"b.eo", Some("b.eo")),
    (b"lib/a.eo", b"b.eo", Some("lib/b.eo")),
    (b"/lib/a.eo", b"b.eo", Some("/lib/b.eo")),
    (b"lib/a.eo", b"/b.eo", Some("/b.eo")),
    (b"c.eo", b"x/../d.eo", Some("d.eo")),
    (b"lib/a.eo", b"./x//b.eo/", Some("lib/x/b.eo")),
    (b"lib/a.eo", b"../../b.eo", Some("../b.eo")),
    (b"", b"../..", Some("../..")),
    (b"../a.eo", b"../b.eo", Some("../../b.eo")),
    (b"lib/a.eo", b"/../b//./c", Some("/b/c")),
    (b"x/p.eo", b"", Some("x")),
    (b"", b"...", Some("...")),
    (b"", b"\xc3\xa9.eo", Some("é.eo")),
    (b"p.eo", b"", None),
    (b"lib/a.eo", b"..", None),
    (b"", b"/", None),
    (b"/a.eo", b"x/../../..", None),
    (b"", b"./.", None),
    (b"", b"\xff", None),
    (b"\xff/a.eo", b"b.eo", None),
    (b"\xff/a.eo", b"../b.eo", None),
    (b"\xff/a.eo", b"/b.eo", Some("/b.eo")),
];

fn wrong_of_foldings(alloc: Global) -> Result<Option<&'static [u8]>, AllocError> {
    wrong_folding(alloc, FOLDINGS)
}

#[test]
fn folded_paths(rt: HostRuntime) -> Result<(), Fail> {
    assert_eq!(rt; wrong_of_foldings(rt.alloc())?, None);
    Ok(())
}

#[test]
fn folded_paths_have_a_limit(rt: HostRuntime) -> Result<(), Fail> {
    assert!(rt; limit_holds(rt.alloc())?);
    assert!(rt; padding_is_free(rt.alloc())?);
    Ok(())
}

// Whether a folding may have 4,096 bytes, and no more.
fn limit_holds(alloc: Global) -> Result<bool, AllocError> {
    let name = "a".repeat(alloc, 4_097)?;
    let holds = is_longest(alloc, &name, &name[1..]);
    drop(name);
    holds
}

// Whether a folding may be as long as the second name, and no longer.
fn is_longest(alloc: Global, name: &str, longest: &str) -> Result<bool, AllocError> {
    let folded = is_folded_so(alloc, b"", longest.as_bytes(), Some(longest))?;
    let refused = is_folded_so(alloc, b"", name.as_bytes(), None)?;
    let below = is_folded_so(alloc, b"/a", longest.as_bytes(), None)?;
    Ok(folded & refused & below)
}

// Whether slashes after a name of 4,096 bytes play no part.
fn padding_is_free(alloc: Global) -> Result<bool, AllocError> {
    let longest = "a".repeat(alloc, 4_096)?;
    let free = is_padded_so(alloc, &longest);
    drop(longest);
    free
}

// Whether as many slashes after a name as it has bytes play no part.
fn is_padded_so(alloc: Global, name: &str) -> Result<bool, AllocError> {
    let slashes = "/".repeat(alloc, name.len())?;
    let padded = format!(in alloc; "./{name}{slashes}");
    drop(slashes);
    let padded = padded?;
    let folded = is_folded_so(alloc, b"", padded.as_bytes(), Some(name));
    drop(padded);
    folded
}

// Whether a file of the folder is read so.
fn is_read_in<L: Library>(
    alloc: Global,
    library: &mut L,
    folder: Path<'_>,
    name: &str,
    want: (Opened, bool, &[u8]),
) -> Result<bool, AllocError>
    requires { L.open_files library.old ≡ [] }
    ensures { L.open_files library.new ≡ [] }
{
    let path = folder.join(alloc, name)?;
    is_read_so(alloc, library, path.as_str().as_bytes(), want)
}

const WRITTEN: &str = "(exit) ; and more\n";

const ABSENT: (Opened, bool, &[u8]) = (Opened::Absent, false, b"");

// Whether a file of the folder is read, and one that is not there is absent.
fn reads_files<L: Library>(
    alloc: Global,
    library: &mut L,
    folder: Path<'_>,
) -> Result<bool, AllocError>
    requires { L.open_files library.old ≡ [] }
    ensures { L.open_files library.new ≡ [] }
{
    let there = (Opened::Ready, true, WRITTEN.as_bytes());
    let is_there = is_read_in(alloc, library, folder, "file.eo", there)?;
    let is_absent = is_read_in(alloc, library, folder, "absent.eo", ABSENT)?;
    Ok(is_there & is_absent)
}

// Whether a file whose name is no text is absent, and the folder itself is opened and not read.
fn reads_no_files<L: Library>(
    alloc: Global,
    library: &mut L,
    folder: Path<'_>,
) -> Result<bool, AllocError>
    requires { L.open_files library.old ≡ [] }
    ensures { L.open_files library.new ≡ [] }
{
    let unread = (Opened::Ready, false, b"".as_slice());
    let is_absent = is_read_so(alloc, library, b"\xff", ABSENT)?;
    let is_unread = is_read_so(alloc, library, folder.as_str().as_bytes(), unread)?;
    Ok(is_absent & is_unread)
}

fn reads_folder<L: Library>(
    alloc: Global,
    library: &mut L,
    folder: Path<'_>,
) -> Result<[bool; 2], AllocError>
    requires { L.open_files library.old ≡ [] }
{
    let files = reads_files(alloc, library, folder)?;
    let others = reads_no_files(alloc, library, folder)?;
    Ok([files, others])
}

fn told_of_folder(rt: &HostRuntime, folder: Path<'_>) -> Result<[bool; 2], AllocError> {
    let mut library = DiskLibrary::new(rt, rt.alloc())?;
    let told = reads_folder(rt.alloc(), &mut library, folder);
    drop(library);
    told
}

fn make_folder(rt: &HostRuntime, folder: Path<'_>) -> io::Result<()> {
    fs::create_dir_all(rt, folder)?;
    let file = folder.join(rt.alloc(), "file.eo")?;
    fs::write(rt, file.as_path(), WRITTEN)
}

// What is said of a folder that is there for that time.
fn told_meanwhile(rt: &HostRuntime, folder: Path<'_>) -> io::Result<[bool; 2]> {
    make_folder(rt, folder)?;
    let told = told_of_folder(rt, folder);
    fs::remove_dir_all(rt, folder)?;
    Ok(told?)
}

// The folder of this name among those that are there for a time.
fn folder_named(rt: &HostRuntime, name: &str) -> io::Result<PathBuf> {
    let parent = env::temp_dir(rt)?;
    let folder = parent.join(rt.alloc(), name);
    drop(parent);
    Ok(folder?)
}

// A folder of this process's own.
fn own_folder(rt: &HostRuntime) -> io::Result<PathBuf> {
    let name = format!(in rt.alloc(); "ethos_eo_io_{}", process::id(rt.process()))?;
    let folder = folder_named(rt, &name);
    drop(name);
    folder
}

fn told_of_disk(rt: &HostRuntime) -> io::Result<[bool; 2]> {
    let folder = own_folder(rt)?;
    let told = told_meanwhile(rt, folder.as_path());
    drop(folder);
    told
}

fn is_written_out(rt: &HostRuntime) -> bool {
    write_all(&mut StdSink::new(rt), b"written\n")
}

#[test]
fn system(rt: HostRuntime) -> Result<(), Fail> {
    assert_eq!(rt; told_of_disk(&rt)?, [true; 2]);
    assert!(rt; is_written_out(&rt));
    Ok(())
}
