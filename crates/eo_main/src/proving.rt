//! Whether assertions have no model, by a proof whose steps preserve truth, and its line.
ghost use Rattle.std.specs.Prelude.{◌≡◌, ◌≢◌, ◌≤◌, [], Some};
ghost use Rattle.eo_base.specs.Causes.{Rose};
ghost use Rattle.eo_run.specs.Answer.{WritesDue};
ghost use Rattle.eo_run.specs.Reading.{LibraryStays};
ghost use Rattle.eo_sem.specs.ProveAnswers.{IsProveAnswer};
ghost use Rattle.eo_main.specs.Ends.{EndHasCause, AbsentHasCause};
ghost use Rattle.eo_main.specs.Program.{EndsAs};
ghost use Rattle.eo_main.specs.ToolAnswers.{prove_answer_due, LeavesNoModel};

use crate::Request;
use eo_base::{Status, Text};
use eo_io::{Library, Paths, Sink};
use eo_run::{print_line, print_verdict};
use eo_sem::{ProveEnd, prove_files};
use std::alloc::Global;

/// Checks whether a proof shows that no valuation makes all assertions of a reference file true, and
/// prints `valid` or why it does not.
pub(crate) fn prove<L: Library, W: Sink>(
    alloc: Global,
    reference: &Text,
    proof: &Text,
    files: &mut L,
    out: &mut W,
) -> Status
    requires { L.open_files files.old ≡ [] }
    ensures exact { EndsAs (Rose (L.faults files.old) (L.faults files.new)) (L.told files.old) result
        (Some (Request.Prove reference.now proof.now)) (W.written out.old) (W.written out.new) }
    ensures model { LeavesNoModel (L.told files.old) result reference.now proof.now }
    ensures cause { EndHasCause result (L.faults files.old) (L.faults files.new) (W.faults out.old) (W.faults out.new) }
    ensures usage { result ≢ Status.Usage }
    ensures absent { AbsentHasCause (L.told files.old) (W.written out.old) (W.written out.new) (L.faults files.old) (L.faults files.new) }
    ensures stays { LibraryStays L.told L.open_files L.faults files.old files.new }
{
    let mut paths = Paths::new(alloc);
    let end = prove_files(alloc, reference, proof, files, &mut paths);
    print_proved(out, &end, &paths)
}

/// Writes `valid`, or the line of a verdict, and returns the status that goes with it.
#[tactic(auto, using(crate::proofs::InRange::prove_in_range))]
fn print_proved<W: Sink>(out: &mut W, end: &ProveEnd, paths: &Paths) -> Status
    requires { IsProveAnswer paths.now end.now }
    ensures due { WritesDue result (prove_answer_due paths.now end.now) (W.written out.old) (W.written out.new) }
    ensures cause { result ≡ Status.WriteFault → Rose (W.faults out.old) (W.faults out.new) }
    ensures later { W.faults out.old ≤ W.faults out.new }
{
    match end {
        ProveEnd::Valid => print_line(out, Status::Ok, &[b"valid\n"]),
        ProveEnd::Other(verdict) => print_verdict(out, verdict, paths),
    }
}
