//! The commands of a prelude, which are run before the files of a job.
ghost use Rattle.std.specs.Prelude.{◌≡◌, ◌<◌, ◌≤◌, [], false, Some, IfErr, OnOk, length};
ghost use Rattle.eo_sexp.specs.Collecting.{new_collector};
ghost use Rattle.eo_io.specs.Paths.{Extends};
ghost use Rattle.eo_run.specs.Answer.{AnswerHasCause};
ghost use Rattle.eo_run.specs.Judging.{RunsPart};
ghost use Rattle.eo_run.specs.Opening.{IsReady, IsStop, Keeps, run_bytes};
ghost use Rattle.eo_run.specs.Progress.{point};
ghost use Rattle.eo_run.specs.Reading.{LibraryStays};
ghost use Rattle.eo_run.specs.Run.{run_prelude, prelude_path};
ghost use Rattle.eo_session.specs.Numbered.{origin_of, number_of};
ghost use Rattle.eo_session.specs.Origin.{Signature};

use crate::Verdict;
use crate::opening::{OPENS, Run, Source, check_rest, refusal_at, take_piece};
use eo_base::{FaultName, limits};
use eo_io::{Library, Paths};
use eo_session::{Observer, Origin};
use eo_sexp::{Collector, answers_law, pieces_law};
use std::alloc::Global;

/// The path of a prelude.
const PRELUDE: &[u8] = b"cpc.eo";

/// Runs the commands of a prelude, as those of a signature file of this path. It counts as included,
/// and is not opened.
pub(crate) fn check_prelude<L: Library, O: Observer>(
    alloc: Global,
    bytes: &[u8],
    files: &mut L,
    run: &mut Run,
    paths: &mut Paths,
    observer: &mut O,
) -> Result<(), Verdict>
    requires none_open { L.open_files files.old ≡ [] }
    requires going { run.old.session.ended ≡ false }
    ensures going { OnOk result (run.new.session.ended ≡ false) }
    ensures runs { RunsPart O.tells (L.told files.old) (λ f. run_prelude f (Some bytes.now)) result
        (point run.old observer.old paths.old) (point run.new observer.new paths.new) }
    ensures cause { IfErr result (λ v. AnswerHasCause v (L.told files.old) (L.faults files.old) (L.faults files.new)) }
    ensures kind { IfErr result (IsStop paths.new) }
    ensures grows { Extends paths.old paths.new }
    ensures stays { LibraryStays L.told L.open_files L.faults files.old files.new }
{
    let Ok(_) = run.included.add(PRELUDE) else {
        return Err(Verdict::OutOfMemory);
    };
    let Ok(number) = paths.add(PRELUDE) else {
        return Err(Verdict::OutOfMemory);
    };
    let source = prelude_source(number);
    check_text(alloc, &source, bytes, files, run, paths, observer)
}

/// A prelude, with the number of its path.
fn prelude_source(number: usize) -> Source<'static>
    ensures path { result.path.now ≡ prelude_path }
    ensures kind { origin_of result.from ≡ Signature }
    ensures numbered { number_of result.from ≡ number }
    ensures plain { result.wrapped ≡ false }
    ensures opens { result.opens ≡ 17 }
{
    Source {
        path: PRELUDE,
        from: Origin::Signature(number),
        wrapped: false,
        opens: OPENS,
    }
}

/// Runs these bytes as those of a file, which is not opened.
fn check_text<L: Library, O: Observer>(
    alloc: Global,
    source: &Source<'_>,
    bytes: &[u8],
    files: &mut L,
    run: &mut Run,
    paths: &mut Paths,
    observer: &mut O,
) -> Result<(), Verdict>
    requires ready { IsReady (length (L.open_files files.old)) source.now run.old paths.old }
    ensures runs { RunsPart O.tells (L.told files.old) (λ f. run_bytes f source.now bytes.now) result
        (point run.old observer.old paths.old) (point run.new observer.new paths.new) }
    ensures cause { IfErr result (λ v. AnswerHasCause v (L.told files.old) (L.faults files.old) (L.faults files.new)) }
    ensures keeps { Keeps result run.new paths.old paths.new }
    ensures stays { LibraryStays L.told L.open_files L.faults files.old files.new }
{
    let Ok(mut collector) = Collector::new(alloc, source.wrapped) else {
        return Err(Verdict::OutOfMemory);
    };
    if bytes.len() as u64 > limits::FILE {
        return take_long(
            alloc,
            source,
            &mut collector,
            bytes,
            files,
            run,
            paths,
            observer,
        );
    }
    take_whole(
        alloc,
        source,
        &mut collector,
        bytes,
        files,
        run,
        paths,
        observer,
    )
}

/// Runs the bytes of a file that is too long, by a new collector.
fn take_long<L: Library, O: Observer>(
    alloc: Global,
    source: &Source<'_>,
    collector: &mut Collector,
    bytes: &[u8],
    files: &mut L,
    run: &mut Run,
    paths: &mut Paths,
    observer: &mut O,
) -> Result<(), Verdict>
    requires ready { IsReady (length (L.open_files files.old)) source.now run.old paths.old }
    requires collector { collector.old ≡ new_collector source.now.wrapped }
    requires long { 1_099_511_627_776 < length bytes.now }
    ensures runs { RunsPart O.tells (L.told files.old) (λ f. run_bytes f source.now bytes.now) result
        (point run.old observer.old paths.old) (point run.new observer.new paths.new) }
    ensures cause { IfErr result (λ v. AnswerHasCause v (L.told files.old) (L.faults files.old) (L.faults files.new)) }
    ensures keeps { Keeps result run.new paths.old paths.new }
    ensures stays { LibraryStays L.told L.open_files L.faults files.old files.new }
{
    pieces_law();
    answers_law();
    let counted = &bytes[..limits::FILE as usize];
    if take_piece(
        alloc, source, collector, counted, files, run, paths, observer,
    )? {
        return Err(refusal_at(FaultName::FileLong, source, collector.here()));
    }
    Ok(())
}

/// Runs the bytes of a file that is not too long, by a new collector.
fn take_whole<L: Library, O: Observer>(
    alloc: Global,
    source: &Source<'_>,
    collector: &mut Collector,
    bytes: &[u8],
    files: &mut L,
    run: &mut Run,
    paths: &mut Paths,
    observer: &mut O,
) -> Result<(), Verdict>
    requires ready { IsReady (length (L.open_files files.old)) source.now run.old paths.old }
    requires collector { collector.old ≡ new_collector source.now.wrapped }
    requires short { length bytes.now ≤ 1_099_511_627_776 }
    ensures runs { RunsPart O.tells (L.told files.old) (λ f. run_bytes f source.now bytes.now) result
        (point run.old observer.old paths.old) (point run.new observer.new paths.new) }
    ensures cause { IfErr result (λ v. AnswerHasCause v (L.told files.old) (L.faults files.old) (L.faults files.new)) }
    ensures keeps { Keeps result run.new paths.old paths.new }
    ensures stays { LibraryStays L.told L.open_files L.faults files.old files.new }
{
    pieces_law();
    answers_law();
    if !take_piece(alloc, source, collector, bytes, files, run, paths, observer)? {
        return Ok(());
    }
    check_rest(alloc, source, collector, files, run, paths, observer)?;
    Ok(())
}
