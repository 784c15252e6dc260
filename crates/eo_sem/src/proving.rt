//! Proofs that the assertions of a reference file have no model.
ghost use Rattle.std.specs.Prelude.{◌≡◌, [], IfOk};
ghost use Rattle.eo_run.specs.Reading.{LibraryStays};
ghost use Rattle.eo_sem.specs.Proving.{prove_job};
ghost use Rattle.eo_sem.specs.ProveAnswers.{AnswersProve, ValidRefutes, ProveHasCause, IsProveAnswer, end_by, end_at, placed_in};

use crate::ProveEnd;
use crate::laws::validity_law;
use crate::watching::Watch;
use eo_base::{Fault, FaultName, Place, Text, ok_with};
use eo_cpc::suite;
use eo_io::{Library, Paths};
use eo_run::{CheckEnd, CheckJob, Verdict, check_observed};
use std::alloc::{AllocError, Global};

/// Checks whether a proof shows, by rules that preserve truth alone, that the assertions of a reference
/// file have no model.
///
/// The check is that of a closed proof, after the commands of the suite, and without an include
/// file: see [`check_observed`], whose verdicts stay unless it is `Correct`.
///
/// - `Valid`: the proof is correct, and each of its steps is by a rule of the suite that keeps truth by
///   the truth tables of the connectives. Then no valuation makes all assertions true.
/// - `Other`, `Refused` with `NotSemantic`, at the first byte of the first step by another rule: the
///   proof is correct otherwise.
/// - `Other`, with `Incomplete`, `Refused`, `ReadFault` or `OutOfMemory`: the verdict of the check.
///
/// No file of the library is open, before or after. The file of a refusal is one of the paths.
pub fn prove_files<L: Library>(
    alloc: Global,
    reference: &Text,
    proof: &Text,
    files: &mut L,
    paths: &mut Paths,
) -> ProveEnd
    requires none_open { L.open_files files.old ≡ [] }
    ensures proves { AnswersProve (L.told files.old) reference.now proof.now paths.new result }
    ensures sound { ValidRefutes (L.told files.old) reference.now proof.now result }
    ensures cause { ProveHasCause result (L.told files.old) (L.faults files.old) (L.faults files.new) }
    ensures kind { IsProveAnswer paths.new result }
    ensures stays { LibraryStays L.told L.open_files L.faults files.old files.new }
{
    validity_law();
    let Ok(job) = closed_job(alloc, reference, proof) else {
        return ProveEnd::Other(Verdict::OutOfMemory);
    };
    let mut watch = Watch { other: None };
    let end = check_observed(alloc, Some(suite()), &job, files, paths, &mut watch);
    drop(job);
    end_by(&end, watch.other, paths)
}

/// The check of a closed proof against a reference file. `Err` is out of memory.
fn closed_job(alloc: Global, reference: &Text, proof: &Text) -> Result<CheckJob, AllocError>
    ensures { IfOk result (λ job. job ≡ prove_job reference.now proof.now) }
{
    let reference = Text::new(alloc, reference.as_str())?;
    let (proof, reference) = ok_with(Text::new(alloc, proof.as_str()), reference)?;
    Ok(CheckJob {
        include: None,
        reference: Some(reference),
        proof,
        closed: true,
    })
}

/// What is returned for a check that ends so, with the place of the first step by a rule that does
/// not preserve truth, if there was one.
fn end_by(end: &CheckEnd, other: Option<Place>, paths: &Paths) -> ProveEnd
    ensures { result ≡ end_by paths.now end.now other }
{
    match end {
        CheckEnd::Correct(refutation) => end_at(other, refutation.end, paths),
        CheckEnd::Ended(verdict) => ProveEnd::Other(*verdict),
    }
}

/// The same where the check is correct, and this is the end of the proof.
fn end_at(other: Option<Place>, last: Place, paths: &Paths) -> ProveEnd
    ensures { result ≡ end_at paths.now last other }
{
    match other {
        None => ProveEnd::Valid,
        Some(place) => ProveEnd::Other(Verdict::Refused(Fault {
            name: FaultName::NotSemantic,
            place: placed_in(place, last, paths),
        })),
    }
}

/// A place, where its file is one of the paths, and else the end of the proof. It is one wherever the
/// library's files are known.
fn placed_in(place: Place, last: Place, paths: &Paths) -> Place
    ensures { result ≡ placed_in paths.now last place }
{
    if place.file < paths.len() {
        place
    } else {
        last
    }
}
