//! Files that are run, with the files that their commands open.
ghost use Rattle.std.specs.Prelude.{◌≡◌, ◌≢◌, ◌<◌, ◌≤◌, ◌+◌, false, [], OnOk, IfOk, IfErr, length, drop};
ghost use Rattle.std.specs.Prelude.{vec_len, bytes_eq};
ghost use Rattle.std.specs.List.{list_any};
ghost use Rattle.eo_base.specs.Limits.{limits};
ghost use Rattle.eo_io.specs.Library.{Closes};
ghost use Rattle.eo_io.specs.Paths.{with_path};
ghost use Rattle.eo_sexp.specs.Collecting.{new_collector, IsLive, HasRoom};
ghost use Rattle.eo_sexp.specs.Cutting.{IsWaiting};
ghost use Rattle.eo_run.specs.Answer.{AnswerHasCause, FileHasCause};
ghost use Rattle.eo_run.specs.Opening.{IsReady, Keeps, RunsOpen, RunsFile, TakesPiece, TakesEnd};
ghost use Rattle.eo_run.specs.Opening.{Opens, IncludesAt, RefersAt, FoldsHere, BeginsHere, IsIncluded, as_found, opened_at};
ghost use Rattle.eo_run.specs.Opening.{stop_verdict, refused_at};
ghost use Rattle.eo_session.specs.State.{begin_reference};
ghost use Rattle.eo_run.specs.Progress.{point};
ghost use Rattle.eo_run.specs.Reading.{LibraryStays, LibraryReads};

use crate::Verdict;
use crate::reading::{Stop, check_end, check_piece, is_exit};
use eo_base::{Fault, FaultName, Place, Text, limits};
use eo_io::{Got, Library, Opened, PathRefused, Paths, fold_path};
use eo_session::{Next, Observer, Origin, Refused, Session};
use eo_sexp::{Collector, Spot, answers_law, pieces_law};
use std::alloc::{AllocError, Global};

/// Bytes of one read.
const PIECE: usize = 65_536;

/// How many files may be open inside a file that the job names, but for a reference file: those
/// that are included, and then a reference file.
pub(crate) const OPENS: usize = limits::INCLUDES + 1;

/// How far a run is.
#[derive(Drop)]
pub(crate) struct Run {
    pub(crate) session: Session,
    /// The files that were included, and those that count as included from the start.
    pub(crate) included: Paths,
    /// The files that were opened, but for the proof of the job.
    pub(crate) opened: Paths,
}

/// A file that is run.
#[derive(Drop)]
pub(crate) struct Source<'a> {
    /// Its path, folded.
    pub(crate) path: &'a [u8],
    /// What it is, and its number in the table of paths.
    pub(crate) from: Origin,
    /// Whether its commands may be wrapped as those of a proof.
    pub(crate) wrapped: bool,
    /// How many files may be open inside it, one opened by the other: none in a reference file.
    pub(crate) opens: usize,
}

/// Reads a file and checks its commands, with those of the files that they open. Returns the place
/// after its last byte, or nothing where it is absent. A reference file may end before, by a
/// command. The library has the same files open as before.
#[cycle(files)]
pub(crate) fn check_file<L: Library, O: Observer>(
    alloc: Global,
    source: &Source<'_>,
    files: &mut L,
    run: &mut Run,
    paths: &mut Paths,
    observer: &mut O,
) -> Result<Option<Spot>, Verdict>
    requires ready { IsReady (length (L.open_files files.old) + 1) source.now run.old paths.old }
    ensures runs { RunsFile O.tells (L.told files.old) source.now result (point run.old observer.old paths.old)
        (point run.new observer.new paths.new) }
    ensures cause { FileHasCause result (L.told files.old) (L.faults files.old) (L.faults files.new) }
    ensures keeps { Keeps result run.new paths.old paths.new }
    ensures stays { LibraryStays L.told L.open_files L.faults files.old files.new }
{
    match files.open(source.path) {
        Opened::Absent => Ok(None),
        Opened::Failed => Err(Verdict::ReadFault),
        Opened::Ready => {
            let end = check_open(alloc, source, files, run, paths, observer);
            close_file(files, end)
        }
    }
}

/// Closes the file opened last, whose run ends so.
fn close_file<L: Library>(
    files: &mut L,
    end: Result<Spot, Verdict>,
) -> Result<Option<Spot>, Verdict>
    requires { L.open_files files.old ≢ [] }
    ensures is { result ≡ as_found end }
    ensures same { L.told files.new ≡ L.told files.old }
    ensures closes { Closes (L.open_files files.old) (L.open_files files.new) }
    ensures later { L.faults files.old ≤ L.faults files.new }
{
    files.close();
    match end {
        Ok(at) => Ok(Some(at)),
        Err(verdict) => Err(verdict),
    }
}

/// Reads the file opened last to its end, and checks its commands.
#[cycle(files)]
fn check_open<L: Library, O: Observer>(
    alloc: Global,
    source: &Source<'_>,
    files: &mut L,
    run: &mut Run,
    paths: &mut Paths,
    observer: &mut O,
) -> Result<Spot, Verdict>
    requires open { L.open_files files.old ≢ [] }
    requires ready { IsReady (length (L.open_files files.old)) source.now run.old paths.old }
    ensures runs { RunsOpen O.tells (L.told files.old) source.now result (point run.old observer.old paths.old)
        (point run.new observer.new paths.new) (L.open_files files.old) }
    ensures cause { IfErr result (λ v. AnswerHasCause v (L.told files.old) (L.faults files.old) (L.faults files.new)) }
    ensures keeps { Keeps result run.new paths.old paths.new }
    ensures reads { LibraryReads L.told L.open_files L.faults files.old files.new }
{
    let Ok(mut collector) = Collector::new(alloc, source.wrapped) else {
        return Err(Verdict::OutOfMemory);
    };
    let Ok(mut buffer) = new_buffer(alloc) else {
        return Err(Verdict::OutOfMemory);
    };
    check_pieces(
        alloc,
        source,
        &mut collector,
        &mut buffer,
        files,
        run,
        paths,
        observer,
    )
}

/// The same by a new collector and a buffer that is not empty.
#[cycle(files)]
fn check_pieces<L: Library, O: Observer>(
    alloc: Global,
    source: &Source<'_>,
    collector: &mut Collector,
    buffer: &mut [u8],
    files: &mut L,
    run: &mut Run,
    paths: &mut Paths,
    observer: &mut O,
) -> Result<Spot, Verdict>
    requires open { L.open_files files.old ≢ [] }
    requires ready { IsReady (length (L.open_files files.old)) source.now run.old paths.old }
    requires collector { collector.old ≡ new_collector source.now.wrapped }
    requires buffer { 0 < length buffer.old }
    ensures runs { RunsOpen O.tells (L.told files.old) source.now result (point run.old observer.old paths.old)
        (point run.new observer.new paths.new) (L.open_files files.old) }
    ensures cause { IfErr result (λ v. AnswerHasCause v (L.told files.old) (L.faults files.old) (L.faults files.new)) }
    ensures keeps { Keeps result run.new paths.old paths.new }
    ensures reads { LibraryReads L.told L.open_files L.faults files.old files.new }
{
    pieces_law();
    answers_law();
    let mut left = limits::FILE;
    'pieces: loop {
        let n = match files.read(buffer) {
            Got::Failed => return Err(Verdict::ReadFault),
            Got::Bytes(n) => n,
        };
        if n == 0 {
            return check_rest(alloc, source, collector, files, run, paths, observer);
        }
        if n as u64 > left {
            let counted = &buffer[..left as usize];
            if take_piece(
                alloc, source, collector, counted, files, run, paths, observer,
            )? {
                return Err(refusal_at(FaultName::FileLong, source, collector.here()));
            }
            return Ok(collector.here());
        }
        if !take_piece(
            alloc,
            source,
            collector,
            &buffer[..n],
            files,
            run,
            paths,
            observer,
        )? {
            return Ok(collector.here());
        }
        left -= n as u64;
    }
}

/// Checks the commands that a piece of a file makes whole, with those of the files that they open.
/// Returns whether the file goes on.
#[cycle(files)]
pub(crate) fn take_piece<L: Library, O: Observer>(
    alloc: Global,
    source: &Source<'_>,
    collector: &mut Collector,
    piece: &[u8],
    files: &mut L,
    run: &mut Run,
    paths: &mut Paths,
    observer: &mut O,
) -> Result<bool, Verdict>
    requires ready { IsReady (length (L.open_files files.old)) source.now run.old paths.old }
    requires live { IsLive collector.old }
    requires waiting { IsWaiting limits collector.old }
    requires room { HasRoom collector.old piece.now }
    ensures takes { TakesPiece O.tells (L.told files.old) source.now result (point run.old observer.old paths.old)
        (point run.new observer.new paths.new) collector.old collector.new piece.now }
    ensures cause { IfErr result (λ v. AnswerHasCause v (L.told files.old) (L.faults files.old) (L.faults files.new)) }
    ensures keeps { Keeps result run.new paths.old paths.new }
    ensures stays { LibraryStays L.told L.open_files L.faults files.old files.new }
{
    let mut rest = piece;
    'commands: loop {
        match check_piece(collector, source.from, &mut run.session, observer, rest) {
            Err(stop) => return Err(verdict_of_stop(stop, source)),
            Ok(None) => return Ok(true),
            Ok(Some(asked)) => {
                let ends = is_exit(&asked.next);
                open_next(
                    alloc, source, asked.next, asked.at, files, run, paths, observer,
                )?;
                if ends {
                    return Ok(false);
                }
                rest = left_of(rest, asked.used);
            }
        }
    }
}

/// What is left of a piece after these bytes.
fn left_of(piece: &[u8], used: usize) -> &[u8]
    requires { used ≤ length piece.now }
    ensures { result.now ≡ drop used piece.now }
{
    &piece[used..]
}

/// Checks the commands that the end of a file makes whole, with those of the files that they open.
/// Returns the place after its last byte, unless a command ends it before.
#[cycle(files)]
pub(crate) fn check_rest<L: Library, O: Observer>(
    alloc: Global,
    source: &Source<'_>,
    collector: &mut Collector,
    files: &mut L,
    run: &mut Run,
    paths: &mut Paths,
    observer: &mut O,
) -> Result<Spot, Verdict>
    requires ready { IsReady (length (L.open_files files.old)) source.now run.old paths.old }
    requires live { IsLive collector.old }
    requires waiting { IsWaiting limits collector.old }
    ensures takes { TakesEnd O.tells (L.told files.old) source.now result (point run.old observer.old paths.old)
        (point run.new observer.new paths.new) collector.old }
    ensures cause { IfErr result (λ v. AnswerHasCause v (L.told files.old) (L.faults files.old) (L.faults files.new)) }
    ensures keeps { Keeps result run.new paths.old paths.new }
    ensures stays { LibraryStays L.told L.open_files L.faults files.old files.new }
{
    'atoms: loop {
        match check_end(collector, source.from, &mut run.session, observer) {
            Err(stop) => return Err(verdict_of_stop(stop, source)),
            Ok(None) => return Ok(collector.here()),
            Ok(Some(asked)) => {
                let ends = is_exit(&asked.next);
                open_next(
                    alloc, source, asked.next, asked.at, files, run, paths, observer,
                )?;
                if ends {
                    return Ok(collector.here());
                }
            }
        }
    }
}

/// Does what a command at this place asks for. A reference file opens nothing. `BadPath` at this
/// place: the file that is named has no path.
#[cycle(files)]
fn open_next<L: Library, O: Observer>(
    alloc: Global,
    source: &Source<'_>,
    next: Next,
    at: Spot,
    files: &mut L,
    run: &mut Run,
    paths: &mut Paths,
    observer: &mut O,
) -> Result<(), Verdict>
    requires ready { IsReady (length (L.open_files files.old)) source.now run.old paths.old }
    ensures opens { Opens O.tells (L.told files.old) source.now at next result (point run.old observer.old paths.old)
        (point run.new observer.new paths.new) }
    ensures cause { IfErr result (λ v. AnswerHasCause v (L.told files.old) (L.faults files.old) (L.faults files.new)) }
    ensures keeps { Keeps result run.new paths.old paths.new }
    ensures stays { LibraryStays L.told L.open_files L.faults files.old files.new }
{
    if source.opens == 0 {
        return Ok(());
    }
    match next {
        Next::Include(name) => {
            let file = fold_named(alloc, source, &name, at)?;
            include(
                alloc,
                source,
                file.as_bytes(),
                at,
                files,
                run,
                paths,
                observer,
            )
        }
        Next::Reference(name) => {
            let file = fold_named(alloc, source, &name, at)?;
            refer(
                alloc,
                source,
                file.as_bytes(),
                at,
                files,
                run,
                paths,
                observer,
            )
        }
        Next::Done | Next::Exit => Ok(()),
    }
}

/// Includes the file of this path, unless it is included already. At this place: `IncludeDepth`: it
/// would be included too deep; `FileAbsent`: it is not there.
#[cycle(files)]
fn include<L: Library, O: Observer>(
    alloc: Global,
    source: &Source<'_>,
    file: &[u8],
    at: Spot,
    files: &mut L,
    run: &mut Run,
    paths: &mut Paths,
    observer: &mut O,
) -> Result<(), Verdict>
    requires opens { 0 < source.now.opens }
    requires ready { IsReady (length (L.open_files files.old)) source.now run.old paths.old }
    ensures includes { IncludesAt O.tells (L.told files.old) source.now at file.now result (point run.old observer.old paths.old)
        (point run.new observer.new paths.new) }
    ensures cause { IfErr result (λ v. AnswerHasCause v (L.told files.old) (L.faults files.old) (L.faults files.new)) }
    ensures keeps { Keeps result run.new paths.old paths.new }
    ensures stays { LibraryStays L.told L.open_files L.faults files.old files.new }
{
    if is_included(run, file) {
        return Ok(());
    }
    if source.opens == 1 {
        return Err(refusal_at(FaultName::IncludeDepth, source, at));
    }
    let Ok(()) = count_included(run, file) else {
        return Err(Verdict::OutOfMemory);
    };
    let Ok(number) = paths.add(file) else {
        return Err(Verdict::OutOfMemory);
    };
    let inner = included_in(source, file, number);
    let end = check_file(alloc, &inner, files, run, paths, observer);
    verdict_of_inner(end, source, at)
}

/// Whether this file counts as included.
fn is_included(run: &Run, file: &[u8]) -> bool
    ensures { result ≡ list_any (bytes_eq file.now) run.now.included }
{
    run.included.find(file).is_some()
}

/// Counts a file as included and opened. `Err` is out of memory.
fn count_included(run: &mut Run, file: &[u8]) -> Result<(), AllocError>
    ensures session { run.new.session ≡ run.old.session }
    ensures included { OnOk result (run.new.included ≡ with_path run.old.included file.now) }
    ensures opened { OnOk result (run.new.opened ≡ with_path run.old.opened file.now) }
{
    run.included.add(file)?;
    run.opened.add(file)?;
    Ok(())
}

/// The file of this path, with its number, as one that this file includes.
fn included_in<'a>(source: &Source<'_>, file: &'a [u8], number: usize) -> Source<'a>
    requires { 0 < source.now.opens }
    ensures { IsIncluded source.now file.now number result }
{
    Source {
        path: file,
        from: source.from.in_file(number),
        wrapped: false,
        opens: source.opens - 1,
    }
}

/// Reads the reference file of this path. At this place: `SecondReference`: there is one;
/// `FileAbsent`: it is not there.
#[cycle(files)]
fn refer<L: Library, O: Observer>(
    alloc: Global,
    source: &Source<'_>,
    file: &[u8],
    at: Spot,
    files: &mut L,
    run: &mut Run,
    paths: &mut Paths,
    observer: &mut O,
) -> Result<(), Verdict>
    requires opens { 0 < source.now.opens }
    requires ready { IsReady (length (L.open_files files.old)) source.now run.old paths.old }
    ensures refers { RefersAt O.tells (L.told files.old) source.now at file.now result (point run.old observer.old paths.old)
        (point run.new observer.new paths.new) }
    ensures cause { IfErr result (λ v. AnswerHasCause v (L.told files.old) (L.faults files.old) (L.faults files.new)) }
    ensures keeps { Keeps result run.new paths.old paths.new }
    ensures stays { LibraryStays L.told L.open_files L.faults files.old files.new }
{
    begin_reference_at(run, source, file, at)?;
    let Ok(number) = paths.add(file) else {
        return Err(Verdict::OutOfMemory);
    };
    let reference = Source {
        path: file,
        from: Origin::Reference(number),
        wrapped: false,
        opens: 0,
    };
    let end = check_file(alloc, &reference, files, run, paths, observer);
    verdict_of_inner(end, source, at)
}

/// What is returned for a command at this place that names a file, by how the run of the file ends.
fn verdict_of_inner(
    end: Result<Option<Spot>, Verdict>,
    source: &Source<'_>,
    at: Spot,
) -> Result<(), Verdict>
    ensures { result ≡ opened_at end source.now at }
{
    match end {
        Ok(Some(_)) => Ok(()),
        Ok(None) => Err(refusal_at(FaultName::FileAbsent, source, at)),
        Err(stop) => Err(stop),
    }
}

/// Begins the reference file that a command at this place names. It counts as opened, and not as
/// included.
fn begin_reference_at(
    run: &mut Run,
    source: &Source<'_>,
    file: &[u8],
    at: Spot,
) -> Result<(), Verdict>
    requires going { run.old.session.ended ≡ false }
    ensures going { OnOk result (run.new.session.ended ≡ false) }
    ensures included { OnOk result (run.new.included ≡ run.old.included) }
    ensures opened { OnOk result (run.new.opened ≡ with_path run.old.opened file.now) }
    ensures begins { BeginsHere source.now at result (begin_reference run.old.session.state) run.new.session.state }
{
    match run.session.begin_reference() {
        Ok(()) => {}
        Err(Refused::Fault(name)) => return Err(refusal_at(name, source, at)),
        Err(Refused::Ended) => unreachable!(),
        Err(Refused::Memory(_)) => return Err(Verdict::OutOfMemory),
    }
    match run.opened.add(file) {
        Ok(_) => Ok(()),
        Err(_) => Err(Verdict::OutOfMemory),
    }
}

/// The path of the file that is named here, seen from this file. `BadPath` at this place: it is
/// none.
fn fold_named(alloc: Global, source: &Source<'_>, name: &Text, at: Spot) -> Result<Text, Verdict>
    ensures { FoldsHere source.now at name.now result }
{
    match fold_path(alloc, source.path, name.as_bytes()) {
        Ok(file) => Ok(file),
        Err(PathRefused::Bad) => Err(refusal_at(FaultName::BadPath, source, at)),
        Err(PathRefused::Memory(_)) => Err(Verdict::OutOfMemory),
    }
}

/// The verdict of a file that is not read to its end.
fn verdict_of_stop(stop: Stop, source: &Source<'_>) -> Verdict
    ensures { result ≡ stop_verdict stop source.now }
{
    match stop {
        Stop::Fault { name, at } => refusal_at(name, source, at),
        Stop::ReadFault => Verdict::ReadFault,
        Stop::Memory => Verdict::OutOfMemory,
    }
}

/// The verdict of a fault at a place of this file.
pub(crate) fn refusal_at(name: FaultName, source: &Source<'_>, at: Spot) -> Verdict
    ensures { result ≡ refused_at name source.now at }
{
    Verdict::Refused(Fault {
        name,
        place: Place {
            file: source.from.file(),
            line: at.line,
            offset: at.offset,
        },
    })
}

/// Room for the bytes of one read. `Err` is out of memory.
fn new_buffer(alloc: Global) -> Result<Vec<u8>, AllocError>
    ensures { IfOk result (λ buffer. 0 < vec_len buffer) }
{
    vec![in alloc; 0u8; PIECE]
}
