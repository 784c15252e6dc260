//! The trimmed proof of a job.
ghost use Rattle.std.specs.Prelude.{◌≡◌, ◌∷◌, ◌≤◌, ◌-◌, ◌^◌, [], length, IfOk, OnOk};
ghost use Rattle.eo_io.specs.Paths.{with_path};
ghost use Rattle.eo_run.specs.Reading.{LibraryStays};
ghost use Rattle.eo_run.specs.Run.{shown};
ghost use Rattle.eo_trim.specs.Marking.{AreBelow};
ghost use Rattle.eo_trim.specs.Recording.{Records};
ghost use Rattle.eo_trim.specs.TrimAnswers.{AnswersTrim, TrimmedStays, TrimHasCause, IsTrimAnswer, TrimsEntries, needed_text};

use crate::TrimEnd;
use crate::entries::Entries;
use crate::marking::needed_commands;
use crate::proof_bytes::ProofBytes;
use crate::recording::Recorder;
use crate::writing::trimmed_text;
use eo_base::{Fault, FaultName};
use eo_io::{Library, PathRefused, Paths, fold_path};
use eo_run::{CheckEnd, CheckJob, Refutation, Verdict, check_observed};
use std::alloc::{AllocError, Global};

/// Checks the job's proof, and returns the commands of it that are needed, each followed by a line
/// feed. Text between commands is left out, and so are the parentheses around all of them.
///
/// These commands of the proof are needed, and no others:
///
/// - outside all scopes, each that is no assumption, no step, and neither opens nor closes a scope;
/// - the one that made the first `false` outside all scopes;
/// - with a step, those that made its premises;
/// - with a command inside a scope, those that open and close the scope;
/// - with the one that opens a scope, the one that closes it, and each macro that is defined directly
///   in the scope; and with the one that closes it, the one that opens it.
///
/// With what is returned in the proof's place, the check of the job is correct, where it is no longer
/// than a file may be.
///
/// - `Other`, `Refused` with `ProofShared`, at the place after the last byte of the proof: the check is
///   correct, but the proof's file was also opened as the include file or as the reference file.
/// - `Other`, with `Incomplete`, `Refused`, `ReadFault` or `OutOfMemory`: the verdict of the check (see
///   [`check_observed`]).
///
/// Memory is taken for the bytes of the proof's commands, for the numbers of premises, and for each
/// accepted command. No file of the library is open, before or after. The file of a refusal is one of
/// the paths.
pub fn trim_files<L: Library>(
    alloc: Global,
    job: &CheckJob,
    files: &mut L,
    paths: &mut Paths,
) -> TrimEnd
    requires no_paths { paths.old ≡ [] }
    requires none_open { L.open_files files.old ≡ [] }
    ensures trims { AnswersTrim (L.told files.old) job.now paths.new result }
    ensures shorter { TrimmedStays (L.told files.old) job.now result }
    ensures cause { TrimHasCause result (L.told files.old) (L.faults files.old) (L.faults files.new) }
    ensures kind { IsTrimAnswer paths.new result }
    ensures stays { LibraryStays L.told L.open_files L.faults files.old files.new }
{
    let Ok(()) = add_shown(alloc, job.proof.as_bytes(), paths) else {
        return TrimEnd::Other(Verdict::OutOfMemory);
    };
    let mut recorder = Recorder::new(alloc);
    let end = trim_recorded(alloc, job, files, paths, &mut recorder);
    drop(recorder);
    end
}

/// Adds the path of a file that the job names as it is shown: folded, or as it is given where it is
/// none. `Err` is out of memory.
fn add_shown(alloc: Global, name: &[u8], paths: &mut Paths) -> Result<(), AllocError>
    ensures { OnOk result (paths.new ≡ with_path paths.old (shown name.now)) }
{
    match fold_path(alloc, b"", name) {
        Ok(path) => add_path(path.as_bytes(), paths),
        Err(PathRefused::Bad) => add_path(name, paths),
        Err(PathRefused::Memory(e)) => Err(e),
    }
}

/// Adds a path. `Err` is out of memory.
fn add_path(path: &[u8], paths: &mut Paths) -> Result<(), AllocError>
    ensures { OnOk result (paths.new ≡ with_path paths.old path.now) }
{
    paths.add(path)?;
    Ok(())
}

/// The same by a recorder that has seen nothing, where the proof's path is the first of the paths.
fn trim_recorded<L: Library>(
    alloc: Global,
    job: &CheckJob,
    files: &mut L,
    paths: &mut Paths,
    recorder: &mut Recorder,
) -> TrimEnd
    requires first { paths.old ≡ shown job.now.proof ∷ [] }
    requires none_open { L.open_files files.old ≡ [] }
    requires nothing_seen { Records recorder.old [] }
    ensures trims { AnswersTrim (L.told files.old) job.now paths.new result }
    ensures shorter { TrimmedStays (L.told files.old) job.now result }
    ensures cause { TrimHasCause result (L.told files.old) (L.faults files.old) (L.faults files.new) }
    ensures kind { IsTrimAnswer paths.new result }
    ensures stays { LibraryStays L.told L.open_files L.faults files.old files.new }
{
    match check_observed(alloc, None, job, files, paths, recorder) {
        CheckEnd::Correct(refutation) => trim_entries(alloc, &recorder.entries, &refutation),
        CheckEnd::Ended(verdict) => TrimEnd::Other(verdict),
    }
}

/// The text of the commands that a refutation needs. `Refused` with `ProofShared`, at the end of the
/// proof: its file was opened in another place too.
fn trim_entries(alloc: Global, entries: &Entries, refutation: &Refutation) -> TrimEnd
    ensures { TrimsEntries entries.now refutation.now result }
{
    if refutation.shared {
        return TrimEnd::Other(Verdict::Refused(Fault {
            name: FaultName::ProofShared,
            place: refutation.end,
        }));
    }
    match needed_text(alloc, entries, refutation.command) {
        Ok(text) => TrimEnd::Trimmed(ProofBytes::from_bytes(text)),
        Err(_) => TrimEnd::Other(Verdict::OutOfMemory),
    }
}

/// The text of the commands that the command with this number needs.
fn needed_text(alloc: Global, entries: &Entries, command: u64) -> Result<Vec<u8>, AllocError>
    ensures text { AreBelow (length entries.now) entries.now
        → IfOk result (λ text. text.items ≡ needed_text command entries.now) }
    ensures few { OnOk result (length entries.now ≤ 2 ^ 64 - 1) }
{
    let marks = needed_commands(alloc, entries, Some(command))?;
    trimmed_text(alloc, entries, &marks)
}
