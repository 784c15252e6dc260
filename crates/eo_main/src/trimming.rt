//! A proof without the commands that its refutation does not need, and how it is written.
ghost use Rattle.std.specs.Prelude.{◌≡◌, ◌≢◌, ◌≤◌, [], Some};
ghost use Rattle.eo_base.specs.Causes.{Rose};
ghost use Rattle.eo_run.specs.Answer.{WritesDue};
ghost use Rattle.eo_run.specs.Reading.{LibraryStays};
ghost use Rattle.eo_trim.specs.TrimAnswers.{IsTrimAnswer};
ghost use Rattle.eo_main.specs.Ends.{EndHasCause, AbsentHasCause};
ghost use Rattle.eo_main.specs.Program.{EndsAs};
ghost use Rattle.eo_main.specs.ToolAnswers.{trim_answer_due, WritesShorter};

use crate::Request;
use eo_base::Status;
use eo_io::{Library, Paths, Sink};
use eo_run::{CheckJob, print_line, print_verdict};
use eo_trim::{TrimEnd, trim_files};
use std::alloc::Global;

/// Writes the proof of a job without the commands that its refutation does not need, or prints why
/// there is no such proof.
pub(crate) fn trim<L: Library, W: Sink>(
    alloc: Global,
    job: &CheckJob,
    files: &mut L,
    out: &mut W,
) -> Status
    requires { L.open_files files.old ≡ [] }
    ensures exact { EndsAs (Rose (L.faults files.old) (L.faults files.new)) (L.told files.old) result (Some (Request.Trim job.now))
        (W.written out.old) (W.written out.new) }
    ensures shorter { WritesShorter (L.told files.old) result job.now (W.written out.old) (W.written out.new) }
    ensures cause { EndHasCause result (L.faults files.old) (L.faults files.new) (W.faults out.old) (W.faults out.new) }
    ensures usage { result ≢ Status.Usage }
    ensures absent { result ≡ Status.Refused →
        AbsentHasCause (L.told files.old) (W.written out.old) (W.written out.new) (L.faults files.old) (L.faults files.new) }
    ensures stays { LibraryStays L.told L.open_files L.faults files.old files.new }
{
    let mut paths = Paths::new(alloc);
    let end = trim_files(alloc, job, files, &mut paths);
    print_trimmed(out, &end, &paths)
}

/// Writes the bytes of a trimmed proof, or the line of a verdict, and returns the status that goes
/// with it.
#[tactic(auto, using(crate::proofs::InRange::trim_in_range))]
fn print_trimmed<W: Sink>(out: &mut W, end: &TrimEnd, paths: &Paths) -> Status
    requires { IsTrimAnswer paths.now end.now }
    ensures due { WritesDue result (trim_answer_due paths.now end.now) (W.written out.old) (W.written out.new) }
    ensures cause { result ≡ Status.WriteFault → Rose (W.faults out.old) (W.faults out.new) }
    ensures later { W.faults out.old ≤ W.faults out.new }
{
    match end {
        TrimEnd::Trimmed(bytes) => print_line(out, Status::Ok, &[bytes.as_slice()]),
        TrimEnd::Other(verdict) => print_verdict(out, verdict, paths),
    }
}
