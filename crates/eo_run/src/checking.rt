//! The check of a proof against a reference file, and the load of a signature.
ghost use Rattle.std.specs.Prelude.{◌≡◌, [], false, None, Some, IfOk, IfErr, IfSome, IsSome, OnOk, List, ℕ, bytes_eq, slice_get};
ghost use Rattle.std.specs.List.{list_any};
ghost use Rattle.eo_proof.specs.Scopes.{first_false};
ghost use Rattle.eo_run.specs.Answer.{AnswerHasCause};
ghost use Rattle.eo_run.specs.Ending.{verdict_of, KnownAtEnd, LeavesLast, RefutesJob};
ghost use Rattle.eo_run.specs.Judging.{IsCheckAnswer, IsLoadAnswer, IsPlaced, RunsNamed, RunsPart, AnswersJob, AnswersProof, AnswersLoad};
ghost use Rattle.eo_run.specs.Judging.{before_files, run_job, run_after, given, opened_after, AnswersObserved, SeesJob};
ghost use Rattle.eo_run.specs.Judging.{MayRun, StandsFor, BeginsNamed};
ghost use Rattle.eo_run.specs.Loading.{RunsLoad};
ghost use Rattle.eo_run.specs.Opening.{IsStop};
ghost use Rattle.eo_run.specs.Progress.{point, begun, Begins};
ghost use Rattle.eo_run.specs.Reading.{LibraryStays};
ghost use Rattle.eo_run.specs.Refutation.{CorrectRefutes, ClosedKeepsRules};
ghost use Rattle.eo_run.specs.Run.{first_progress, first_load as load_progress, with_folded, if_given, refusal_at, shown};
ghost use Rattle.eo_run.specs.Run.{run_signature, run_job_reference, run_proof, run_prelude};
ghost use Rattle.eo_session.specs.State.{begin_reference, end_fault, first_state};
ghost use Rattle.eo_io.specs.Paths.{fold_path, Extends};
ghost use Rattle.eo_sexp.specs.Texts.{first_spot};

use crate::laws::soundness_law;
use crate::opening::{OPENS, Run, Source, check_file, refusal_at};
use crate::prelude::check_prelude;
use crate::{CheckEnd, CheckJob, Refutation, Verdict};
use eo_base::{Fault, FaultName, Place, Text, ok_with};
use eo_io::{Library, PathRefused, Paths, fold_path};
use eo_session::{EndAnswer, Nobody, Observer, Origin, Refused, Session};
use eo_sexp::Spot;
use std::alloc::{AllocError, Global};

/// The place of the first byte of a file.
const START: Spot = Spot { line: 1, offset: 0 };

/// A file that the job names.
#[derive(Clone, Copy)]
pub(crate) struct Named<'a> {
    /// Its path, as it is given.
    pub(crate) name: &'a [u8],
    /// What it is.
    pub(crate) from: Origin,
    /// Whether its commands may be wrapped as those of a proof.
    pub(crate) wrapped: bool,
    /// How many files may be open inside it, one opened by the other.
    pub(crate) opens: usize,
}

/// Checks the job's proof: first its include file is read, then its reference file, and then the
/// proof, each in pieces and each command as it comes.
///
/// A command may include a file, which is looked for beside the file that names it, or name the
/// reference file. A file that is included already is not read again; the include file and the
/// proof count as included from the start.
///
/// - `Refused` with `BadPath` or `FileAbsent`, at a file's first byte: the path that the job gives
///   is none, or the file is not there.
/// - `Refused` with `SecondReference`, at the first byte of the job's reference file: the include
///   file named one.
/// - `Refused` with `BadPath`, `IncludeDepth` or `FileAbsent`, at a command that names a file: the
///   path is none, the file would be included more than 16 deep, or it is not there.
/// - `Refused` with a fault of the text, at its place: `BadByte`, `Unclosed`, `ExtraClose`,
///   `TokenLong`, `CommandLong`, `Nesting`, `Width` or `FileLong`, once each command before it is
///   accepted.
/// - `Refused` at a command's first byte, with the fault that [`Session::command`] returns.
/// - `Refused` after the last byte of the proof, with `ScopeOpen`: a scope is open,
///   `NoReference`: there is no reference file, or `NoRefutation`: `false` is no fact.
/// - `Incomplete`: none of these, but a step used a rule that is marked as unproved.
/// - `Correct`: none of these. Then `false` is derivable from what the reference file asserts, by the
///   rules of the proof's signature.
/// - `ReadFault`: a call of the library failed.
/// - `OutOfMemory`: there was no memory left.
///
/// No file of the library is open, before or after. The file of a refusal is one of the paths. In a
/// closed check the programs and rules are those that were declared before the proof: `closed` is a
/// law, which follows from the definitions, whatever the verdict.
pub fn check_files<L: Library>(
    alloc: Global,
    job: &CheckJob,
    files: &mut L,
    paths: &mut Paths,
) -> Verdict
    requires no_paths { paths.old ≡ [] }
    requires none_open { L.open_files files.old ≡ [] }
    ensures verdict { AnswersJob (L.told files.old) job.now paths.new result }
    ensures sound { CorrectRefutes (L.told files.old) job.now result }
    ensures closed { IfSome (L.told files.old) (λ f. ClosedKeepsRules f job.now) }
    ensures cause { AnswerHasCause result (L.told files.old) (L.faults files.old) (L.faults files.new) }
    ensures kind { IsCheckAnswer paths.new result }
    ensures stays { LibraryStays L.told L.open_files L.faults files.old files.new }
{
    soundness_law();
    match check_observed(alloc, None, job, files, paths, &mut Nobody) {
        CheckEnd::Correct(_) => Verdict::Correct,
        CheckEnd::Ended(verdict) => verdict,
    }
}

/// Checks a job as [`check_files`] does, and shows each accepted command to an observer
/// ([`Observer`]), in order. A check that is refused has shown those that were accepted before.
///
/// The commands of a prelude are run first, as those of a signature file with the path `cpc.eo`,
/// which counts as included. No file is opened for it.
///
/// - `Correct`: the verdict is `Correct`. The refutation says which command made the first `false`
///   outside all scopes, where the proof ends, and whether its file was opened in another place too.
/// - `Ended`: any other verdict of [`check_files`]. `OutOfMemory`: there was no memory left, or the
///   observer was refused memory. Of what was shown before `ReadFault` and `OutOfMemory` nothing is
///   said.
///
/// The table may have paths before, which keep their numbers. No file of the library is open, before
/// or after.
pub fn check_observed<L: Library, O: Observer>(
    alloc: Global,
    prelude: Option<&[u8]>,
    job: &CheckJob,
    files: &mut L,
    paths: &mut Paths,
    observer: &mut O,
) -> CheckEnd
    requires none_open { L.open_files files.old ≡ [] }
    requires nothing_seen { O.tells observer.old [] }
    ensures verdict { AnswersObserved (L.told files.old) (given prelude.entry) job.now paths.new (verdict_of result) }
    ensures refutes { RefutesJob (L.told files.old) (given prelude.entry) job.now paths.new result }
    ensures sees { SeesJob O.tells observer.new (L.told files.old) (given prelude.entry) job.now paths.new (verdict_of result) }
    ensures end { KnownAtEnd (L.told files.old) (L.faults files.old) (L.faults files.new) paths.old paths.new result }
    ensures stays { LibraryStays L.told L.open_files L.faults files.old files.new }
{
    let Ok(mut run) = first_run(alloc, job) else {
        return CheckEnd::Ended(Verdict::OutOfMemory);
    };
    let end = check_after(alloc, prelude, job, files, &mut run, paths, observer);
    drop(run);
    end
}

/// How a job ends after a prelude.
fn check_after<L: Library, O: Observer>(
    alloc: Global,
    prelude: Option<&[u8]>,
    job: &CheckJob,
    files: &mut L,
    run: &mut Run,
    paths: &mut Paths,
    observer: &mut O,
) -> CheckEnd
    requires none_open { L.open_files files.old ≡ [] }
    requires going { run.old.session.ended ≡ false }
    ensures verdict { AnswersProof O.tells (L.told files.old) job.now.proof (λ f. run_after f (given prelude.entry) job.now)
        (point run.old observer.old paths.old) (point run.new observer.new paths.new) (verdict_of result) }
    ensures last { LeavesLast O.tells (L.told files.old) job.now.proof (λ f. run_after f (given prelude.entry) job.now) result
        (point run.old observer.old paths.old) (point run.new observer.new paths.new) }
    ensures end { KnownAtEnd (L.told files.old) (L.faults files.old) (L.faults files.new) paths.old paths.new result }
    ensures stays { LibraryStays L.told L.open_files L.faults files.old files.new }
{
    match check_first(alloc, prelude, files, run, paths, observer) {
        Err(verdict) => CheckEnd::Ended(verdict),
        Ok(()) => check_job(alloc, job, files, run, paths, observer),
    }
}

/// Checks the commands of a prelude, if there is one.
fn check_first<L: Library, O: Observer>(
    alloc: Global,
    prelude: Option<&[u8]>,
    files: &mut L,
    run: &mut Run,
    paths: &mut Paths,
    observer: &mut O,
) -> Result<(), Verdict>
    requires none_open { L.open_files files.old ≡ [] }
    requires going { run.old.session.ended ≡ false }
    ensures going { OnOk result (run.new.session.ended ≡ false) }
    ensures runs { RunsPart O.tells (L.told files.old) (λ f. run_prelude f (given prelude.entry)) result
        (point run.old observer.old paths.old) (point run.new observer.new paths.new) }
    ensures cause { IfErr result (λ v. AnswerHasCause v (L.told files.old) (L.faults files.old) (L.faults files.new)) }
    ensures kind { IfErr result (IsStop paths.new) }
    ensures grows { Extends paths.old paths.new }
    ensures stays { LibraryStays L.told L.open_files L.faults files.old files.new }
{
    match prelude {
        None => Ok(()),
        Some(bytes) => check_prelude(alloc, bytes, files, run, paths, observer),
    }
}

/// How a job ends, from where a run is. Where it is correct, the run is left at its end.
pub(crate) fn check_job<L: Library, O: Observer>(
    alloc: Global,
    job: &CheckJob,
    files: &mut L,
    run: &mut Run,
    paths: &mut Paths,
    observer: &mut O,
) -> CheckEnd
    requires none_open { L.open_files files.old ≡ [] }
    requires going { run.old.session.ended ≡ false }
    ensures verdict { AnswersProof O.tells (L.told files.old) job.now.proof (λ f. run_job f job.now) (point run.old observer.old paths.old)
        (point run.new observer.new paths.new) (verdict_of result) }
    ensures last { LeavesLast O.tells (L.told files.old) job.now.proof (λ f. run_job f job.now) result
        (point run.old observer.old paths.old) (point run.new observer.new paths.new) }
    ensures end { KnownAtEnd (L.told files.old) (L.faults files.old) (L.faults files.new) paths.old paths.new result }
    ensures stays { LibraryStays L.told L.open_files L.faults files.old files.new }
{
    match check_before(alloc, job, files, run, paths, observer) {
        Err(verdict) => CheckEnd::Ended(verdict),
        Ok(()) => check_proof(alloc, job.proof.as_bytes(), files, run, paths, observer),
    }
}

/// Checks the files of a job before its proof.
fn check_before<L: Library, O: Observer>(
    alloc: Global,
    job: &CheckJob,
    files: &mut L,
    run: &mut Run,
    paths: &mut Paths,
    observer: &mut O,
) -> Result<(), Verdict>
    requires none_open { L.open_files files.old ≡ [] }
    requires going { run.old.session.ended ≡ false }
    ensures going { OnOk result (run.new.session.ended ≡ false) }
    ensures runs { RunsPart O.tells (L.told files.old) (λ f. before_files f job.now) result (point run.old observer.old paths.old)
        (point run.new observer.new paths.new) }
    ensures cause { IfErr result (λ v. AnswerHasCause v (L.told files.old) (L.faults files.old) (L.faults files.new)) }
    ensures kind { IfErr result (IsStop paths.new) }
    ensures grows { Extends paths.old paths.new }
    ensures stays { LibraryStays L.told L.open_files L.faults files.old files.new }
{
    check_include(alloc, &job.include, files, run, paths, observer)?;
    check_reference(alloc, &job.reference, files, run, paths, observer)
}

/// Checks the include file, if there is one.
fn check_include<L: Library, O: Observer>(
    alloc: Global,
    name: &Option<Text>,
    files: &mut L,
    run: &mut Run,
    paths: &mut Paths,
    observer: &mut O,
) -> Result<(), Verdict>
    requires none_open { L.open_files files.old ≡ [] }
    requires going { run.old.session.ended ≡ false }
    ensures going { OnOk result (run.new.session.ended ≡ false) }
    ensures runs { RunsPart O.tells (L.told files.old) (λ f. if_given (run_signature f) name.now) result
        (point run.old observer.old paths.old) (point run.new observer.new paths.new) }
    ensures cause { IfErr result (λ v. AnswerHasCause v (L.told files.old) (L.faults files.old) (L.faults files.new)) }
    ensures kind { IfErr result (IsStop paths.new) }
    ensures grows { Extends paths.old paths.new }
    ensures stays { LibraryStays L.told L.open_files L.faults files.old files.new }
{
    let Some(name) = name else {
        return Ok(());
    };
    let named = Named {
        name: name.as_bytes(),
        from: Origin::Signature(0),
        wrapped: false,
        opens: OPENS,
    };
    check_named(alloc, &named, files, run, paths, observer)?;
    Ok(())
}

/// Checks the reference file, if the job names one. `SecondReference` at its first byte: there is
/// one.
fn check_reference<L: Library, O: Observer>(
    alloc: Global,
    name: &Option<Text>,
    files: &mut L,
    run: &mut Run,
    paths: &mut Paths,
    observer: &mut O,
) -> Result<(), Verdict>
    requires none_open { L.open_files files.old ≡ [] }
    requires going { run.old.session.ended ≡ false }
    ensures going { OnOk result (run.new.session.ended ≡ false) }
    ensures runs { RunsPart O.tells (L.told files.old) (λ f. if_given (run_job_reference f) name.now) result
        (point run.old observer.old paths.old) (point run.new observer.new paths.new) }
    ensures cause { IfErr result (λ v. AnswerHasCause v (L.told files.old) (L.faults files.old) (L.faults files.new)) }
    ensures kind { IfErr result (IsStop paths.new) }
    ensures grows { Extends paths.old paths.new }
    ensures stays { LibraryStays L.told L.open_files L.faults files.old files.new }
{
    let Some(name) = name else {
        return Ok(());
    };
    begin_named(alloc, name.as_bytes(), &mut run.session, paths)?;
    let named = Named {
        name: name.as_bytes(),
        from: Origin::Reference(0),
        wrapped: false,
        opens: 0,
    };
    check_named(alloc, &named, files, run, paths, observer)?;
    Ok(())
}

/// Begins the job's reference file, whose faults are shown at its first byte.
fn begin_named(
    alloc: Global,
    name: &[u8],
    session: &mut Session,
    paths: &mut Paths,
) -> Result<(), Verdict>
    requires going { session.old.ended ≡ false }
    ensures going { OnOk result (session.new.ended ≡ false) }
    ensures begins { BeginsNamed paths.new name.now result (begin_reference session.old.state) session.new.state }
    ensures grows { Extends paths.old paths.new }
{
    match session.begin_reference() {
        Ok(()) => Ok(()),
        Err(Refused::Fault(fault)) => Err(refuse_named(alloc, fault, name, paths)),
        Err(Refused::Ended) => unreachable!(),
        Err(Refused::Memory(_)) => Err(Verdict::OutOfMemory),
    }
}

/// The verdict of a fault at the first byte of a file that the job names, which is shown by its
/// folded path, or as it is given where that is none.
fn refuse_named(alloc: Global, fault: FaultName, name: &[u8], paths: &mut Paths) -> Verdict
    ensures stands { StandsFor paths.new result (refusal_at (shown name.now) first_spot fault) }
    ensures grows { Extends paths.old paths.new }
{
    match fold_path(alloc, b"", name) {
        Ok(path) => refuse_at_start(fault, path.as_bytes(), paths),
        Err(PathRefused::Bad) => refuse_at_start(fault, name, paths),
        Err(PathRefused::Memory(_)) => Verdict::OutOfMemory,
    }
}

/// The verdict of a fault at the first byte of the file with this path.
fn refuse_at_start(fault: FaultName, path: &[u8], paths: &mut Paths) -> Verdict
    ensures stands { StandsFor paths.new result (refusal_at path.now first_spot fault) }
    ensures grows { Extends paths.old paths.new }
{
    match paths.add(path) {
        Ok(file) => Verdict::Refused(Fault {
            name: fault,
            place: Place {
                file,
                line: START.line,
                offset: START.offset,
            },
        }),
        Err(_) => Verdict::OutOfMemory,
    }
}

/// How the proof ends, after what was read before it. Where it is correct, the run is left at its
/// end.
fn check_proof<L: Library, O: Observer>(
    alloc: Global,
    name: &[u8],
    files: &mut L,
    run: &mut Run,
    paths: &mut Paths,
    observer: &mut O,
) -> CheckEnd
    requires none_open { L.open_files files.old ≡ [] }
    requires going { run.old.session.ended ≡ false }
    ensures verdict { AnswersProof O.tells (L.told files.old) name.now (λ f. run_proof f name.now) (point run.old observer.old paths.old)
        (point run.new observer.new paths.new) (verdict_of result) }
    ensures last { LeavesLast O.tells (L.told files.old) name.now (λ f. run_proof f name.now) result (point run.old observer.old paths.old)
        (point run.new observer.new paths.new) }
    ensures end { KnownAtEnd (L.told files.old) (L.faults files.old) (L.faults files.new) paths.old paths.new result }
    ensures stays { LibraryStays L.told L.open_files L.faults files.old files.new }
{
    let named = Named {
        name,
        from: Origin::Proof(0),
        wrapped: true,
        opens: OPENS,
    };
    match check_named(alloc, &named, files, run, paths, observer) {
        Err(verdict) => CheckEnd::Ended(verdict),
        Ok(place) => match run.session.end() {
            EndAnswer::Correct => CheckEnd::Correct(correct_end(run, paths, place)),
            EndAnswer::Incomplete => CheckEnd::Ended(Verdict::Incomplete),
            EndAnswer::Fault(name) => CheckEnd::Ended(Verdict::Refused(Fault { name, place })),
        },
    }
}

/// What is known at the end of a correct proof, which is this place.
fn correct_end(run: &Run, paths: &Paths, end: Place) -> Refutation
    requires going { run.now.session.ended ≡ false }
    requires refuted { end_fault run.now.session.state ≡ None }
    requires placed { IsSome (slice_get paths.now end.file) }
    ensures command { first_false run.now.session.state.scopes ≡ Some result.command }
    ensures end { result.end ≡ end }
    ensures shared { (path : List ℕ) → slice_get paths.now end.file ≡ Some path
        → result.shared ≡ list_any (bytes_eq path) run.now.opened }
{
    let Some(command) = run.session.refutation() else {
        unreachable!()
    };
    let proof = paths.get(end.file);
    Refutation {
        command,
        end,
        shared: run.opened.find(proof).is_some(),
    }
}

/// Runs a signature file, with the files that it includes and the reference file that it names.
///
/// `Loaded`: it is accepted, with how many commands. The refusals are those of [`check_files`], but
/// for those after the last byte of a proof. No file of the library is open, before or after.
pub fn load_files<L: Library>(
    alloc: Global,
    file: &Text,
    files: &mut L,
    paths: &mut Paths,
) -> Verdict
    requires no_paths { paths.old ≡ [] }
    requires none_open { L.open_files files.old ≡ [] }
    ensures verdict { AnswersLoad (L.told files.old) file.now paths.new result }
    ensures cause { AnswerHasCause result (L.told files.old) (L.faults files.old) (L.faults files.new) }
    ensures kind { IsLoadAnswer paths.new result }
    ensures stays { LibraryStays L.told L.open_files L.faults files.old files.new }
{
    let Ok(mut run) = first_load(alloc, file) else {
        return Verdict::OutOfMemory;
    };
    let verdict = load_named(alloc, file.as_bytes(), files, &mut run, paths, &mut Nobody);
    drop(run);
    verdict
}

/// The same from the beginning of its run.
fn load_named<L: Library, O: Observer>(
    alloc: Global,
    name: &[u8],
    files: &mut L,
    run: &mut Run,
    paths: &mut Paths,
    observer: &mut O,
) -> Verdict
    requires none_open { L.open_files files.old ≡ [] }
    requires begins { Begins run.old (load_progress name.now) }
    requires nothing_seen { O.tells observer.old [] }
    ensures verdict { AnswersLoad (L.told files.old) name.now paths.new result }
    ensures cause { AnswerHasCause result (L.told files.old) (L.faults files.old) (L.faults files.new) }
    ensures kind { IsLoadAnswer paths.new result }
    ensures stays { LibraryStays L.told L.open_files L.faults files.old files.new }
{
    match load_to_end(alloc, name, files, run, paths, observer) {
        Err(verdict) => verdict,
        Ok(_) => Verdict::Loaded {
            commands: run.session.commands(),
        },
    }
}

/// The place of its end, at which the run is left.
pub(crate) fn load_to_end<L: Library, O: Observer>(
    alloc: Global,
    name: &[u8],
    files: &mut L,
    run: &mut Run,
    paths: &mut Paths,
    observer: &mut O,
) -> Result<Place, Verdict>
    requires none_open { L.open_files files.old ≡ [] }
    requires begins { Begins run.old (load_progress name.now) }
    ensures going { OnOk result (run.new.session.ended ≡ false) }
    ensures runs { RunsLoad O.tells (L.told files.old) name.now result (point run.old observer.old paths.old)
        (point run.new observer.new paths.new) }
    ensures cause { IfErr result (λ v. AnswerHasCause v (L.told files.old) (L.faults files.old) (L.faults files.new)) }
    ensures kind { IsPlaced paths.new result }
    ensures stays { LibraryStays L.told L.open_files L.faults files.old files.new }
{
    let named = Named {
        name,
        from: Origin::Signature(0),
        wrapped: false,
        opens: OPENS,
    };
    check_named(alloc, &named, files, run, paths, observer)
}

/// Reads a file that the job names and checks its commands, with those of the files that they open.
/// Returns the place after its last byte. At its first byte: `BadPath`: its path is none;
/// `FileAbsent`: it is not there.
fn check_named<L: Library, O: Observer>(
    alloc: Global,
    named: &Named<'_>,
    files: &mut L,
    run: &mut Run,
    paths: &mut Paths,
    observer: &mut O,
) -> Result<Place, Verdict>
    requires ready { MayRun named.now run.old (L.open_files files.old) }
    ensures going { OnOk result (run.new.session.ended ≡ false) }
    ensures runs { RunsNamed O.tells (L.told files.old) named.now result (point run.old observer.old paths.old)
        (point run.new observer.new paths.new) }
    ensures cause { IfErr result (λ v. AnswerHasCause v (L.told files.old) (L.faults files.old) (L.faults files.new)) }
    ensures kind { IsPlaced paths.new result }
    ensures grows { Extends paths.old paths.new }
    ensures stays { LibraryStays L.told L.open_files L.faults files.old files.new }
{
    match fold_path(alloc, b"", named.name) {
        Ok(path) => check_path(alloc, path.as_bytes(), named, files, run, paths, observer),
        Err(PathRefused::Bad) => Err(refuse_at_start(FaultName::BadPath, named.name, paths)),
        Err(PathRefused::Memory(_)) => Err(Verdict::OutOfMemory),
    }
}

/// The same by its folded path.
fn check_path<L: Library, O: Observer>(
    alloc: Global,
    path: &[u8],
    named: &Named<'_>,
    files: &mut L,
    run: &mut Run,
    paths: &mut Paths,
    observer: &mut O,
) -> Result<Place, Verdict>
    requires ready { MayRun named.now run.old (L.open_files files.old) }
    requires folds { fold_path [] named.now.name.now ≡ Some path.now }
    ensures going { OnOk result (run.new.session.ended ≡ false) }
    ensures runs { RunsNamed O.tells (L.told files.old) named.now result (point run.old observer.old paths.old)
        (point run.new observer.new paths.new) }
    ensures cause { IfErr result (λ v. AnswerHasCause v (L.told files.old) (L.faults files.old) (L.faults files.new)) }
    ensures kind { IsPlaced paths.new result }
    ensures grows { Extends paths.old paths.new }
    ensures stays { LibraryStays L.told L.open_files L.faults files.old files.new }
{
    let Ok(file) = paths.add(path) else {
        return Err(Verdict::OutOfMemory);
    };
    let Ok(()) = count_opened(named, path, &mut run.opened) else {
        return Err(Verdict::OutOfMemory);
    };
    let source = Source {
        path,
        from: named.from.in_file(file),
        wrapped: named.wrapped,
        opens: named.opens,
    };
    match check_file(alloc, &source, files, run, paths, observer)? {
        Some(at) => Ok(Place {
            file,
            line: at.line,
            offset: at.offset,
        }),
        None => Err(refusal_at(FaultName::FileAbsent, &source, START)),
    }
}

/// Counts a file as opened, unless it is the proof. `Err` is out of memory.
fn count_opened(named: &Named<'_>, path: &[u8], opened: &mut Paths) -> Result<(), AllocError>
    ensures { OnOk result (opened.new ≡ opened_after named.now.wrapped opened.old path.now) }
{
    if !named.wrapped {
        opened.add(path)?;
    }
    Ok(())
}

/// The run of a job before its first command.
pub(crate) fn first_run(alloc: Global, job: &CheckJob) -> Result<Run, AllocError>
    ensures { IfOk result (λ r. Begins r (first_progress job.now)) }
{
    new_run(alloc, first_included(alloc, job)?, job.closed)
}

/// A run of a new session, where these files count as included.
fn new_run(alloc: Global, included: Paths, closed: bool) -> Result<Run, AllocError>
    ensures { IfOk result (λ r. Begins r (begun (first_state closed) included)) }
{
    let (session, included) = ok_with(Session::new(alloc, closed), included)?;
    Ok(Run {
        session,
        included,
        opened: Paths::new(alloc),
    })
}

/// The files of a job that count as included from the start.
fn first_included(alloc: Global, job: &CheckJob) -> Result<Paths, AllocError>
    ensures { IfOk result (λ paths. paths ≡ (first_progress job.now).included) }
{
    let mut first = Paths::new(alloc);
    let ((), included) = ok_with(add_first(alloc, job, &mut first), first)?;
    Ok(included)
}

/// Adds the files of a job that count as included from the start.
fn add_first(alloc: Global, job: &CheckJob, included: &mut Paths) -> Result<(), AllocError>
    ensures { OnOk result (included.new ≡ with_folded (with_folded included.old job.now.include) (Some job.now.proof)) }
{
    if let Some(include) = &job.include {
        add_folded(alloc, included, include.as_bytes())?;
    }
    add_folded(alloc, included, job.proof.as_bytes())
}

/// The run of a load before its first command.
pub(crate) fn first_load(alloc: Global, file: &Text) -> Result<Run, AllocError>
    ensures { IfOk result (λ r. Begins r (load_progress file.now)) }
{
    new_run(alloc, first_of(alloc, file)?, false)
}

/// A file that counts as included from the start of its load.
fn first_of(alloc: Global, file: &Text) -> Result<Paths, AllocError>
    ensures { IfOk result (λ paths. paths ≡ with_folded [] (Some file.now)) }
{
    let mut first = Paths::new(alloc);
    let ((), included) = ok_with(add_folded(alloc, &mut first, file.as_bytes()), first)?;
    Ok(included)
}

/// Adds a file that the job names to those that were included, unless its path is none.
fn add_folded(alloc: Global, included: &mut Paths, name: &[u8]) -> Result<(), AllocError>
    ensures { OnOk result (included.new ≡ with_folded included.old (Some name.now)) }
{
    match fold_path(alloc, b"", name) {
        Ok(path) => {
            included.add(path.as_bytes())?;
            Ok(())
        }
        Err(PathRefused::Bad) => Ok(()),
        Err(PathRefused::Memory(e)) => Err(e),
    }
}
