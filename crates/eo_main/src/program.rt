//! A run of the program.
ghost use Rattle.std.specs.Prelude.{◌≡◌, ◌≢◌, ℕ, List, Option, [], Some, true, false};
ghost use Rattle.eo_base.specs.Causes.{Rose};
ghost use Rattle.eo_base.specs.declared.Status.{Status as status};
ghost use Rattle.eo_io.specs.Library.{Files};
ghost use Rattle.eo_run.specs.Reading.{LibraryStays};
ghost use Rattle.eo_main.specs.CommandLine.{request};
ghost use Rattle.eo_main.specs.Ends.{Ends, EndHasCause, UsageFits, AbsentHasCause};
ghost use Rattle.eo_main.specs.Program.{due, bench_due, needs_no_files, is_bench, may_write_proof, EndsAs, OkRefutes, OkLeavesNoModel};
ghost use Rattle.eo_main.specs.Program.{OkShortens, ClosedKeeps, Completes};
ghost use Rattle.eo_main.specs.declared.Request.{Request as reading};

use crate::proving::prove;
use crate::showing::show;
use crate::trimming::trim;
use crate::{Request, read_words};
use eo_base::{Status, Text};
use eo_io::{HonestLibrary, Library, Paths, Sink};
use eo_run::{
    CheckJob, bench, check_files, load_files, print_bench, print_line, print_verdict, soundness_law,
};
use std::alloc::{AllocError, Global};

/// The line for words that have no reading.
const USAGE: &[u8] =
    b"usage: ethos check [--include=F] [--reference=F] [--closed] PROOF | ethos load FILE | ethos bench N | ethos show FILE NAME \
| ethos trim [--include=F] [--reference=F] [--closed] PROOF | ethos prove --reference=F PROOF\n";

/// The line for being out of memory.
pub const OUT_OF_MEMORY: &[u8] = b"out of memory\n";

/// Runs the program on the words of its command line, the first of which is the program's name and
/// is ignored, over a library of files and a sink for what it writes.
///
/// The words are read as `read_words` says: `check [--include=F] [--reference=F] [--closed] PROOF`
/// checks a proof, `load FILE` runs a signature file, `bench N` checks a proof of N hops that is
/// made in memory, and `show FILE NAME` runs a signature file and shows the value of a name.
/// `trim [--include=F] [--reference=F] [--closed] PROOF` checks a proof, and writes it without the
/// commands that its refutation does not need; `prove --reference=F PROOF` checks a proof after the
/// suite, closed, and that its rules preserve truth. Then the line of the verdict is written, for a
/// correct bench as `bench 10: correct, 33 commands, 99 terms`, for a value the lines that it is
/// shown by, for a correct proof that is trimmed its bytes, and for one whose rules preserve truth
/// `valid`.
///
/// - `Ok`, `Incomplete`, `Refused`: exactly as the verdict of the files, and for a value as its name
///   and its parts say. With `Ok` of a check, where
///   `correct` is written, `false` is derivable from what the reference file asserts, by rules that
///   are declared and not marked as unproved; with `--closed`, by none that the proof declares.
///   With `Ok` of `trim` just the commands that the refutation needs are written, and the check of the
///   job is correct with them in the proof's place, where they are no longer than a file may be.
///   `Refused` of a correct proof: of `trim`, where its file was opened in another place too, and of
///   `prove`, where a step used a rule that does not preserve truth. With `Ok` of `prove`, where `valid`
///   is written, no valuation makes all that the reference file asserts true.
/// - `Usage`: exactly where the words have no reading; the usage line is written.
/// - `ReadFault`: only where the library's count of faults rose; `read fault` is written. Words that
///   need no file of the library never end so.
/// - `WriteFault`: only where the sink's count of faults rose; a front of the line is written, which
///   is that of `read fault` only where the library's count rose.
/// - `OutOfMemory`: there was no memory left; `out of memory` is written.
///
/// No file of the library is open, before or after, and it has the same files: so the program can be
/// run again over it. `closed` is a law: it follows from the definitions, whatever the status.
pub fn ethos_main<L: Library, W: Sink>(
    alloc: Global,
    words: &[Text],
    files: &mut L,
    out: &mut W,
) -> Status
    requires { L.open_files files.old ≡ [] }
    ensures exact { EndsAs (Rose (L.faults files.old) (L.faults files.new)) (L.told files.old) result (request words.now)
        (W.written out.old) (W.written out.new) }
    ensures refutes { OkRefutes (L.told files.old) result (request words.now) }
    ensures closed { ClosedKeeps (L.told files.old) (request words.now) }
    ensures shorter { OkShortens (L.told files.old) result (request words.now) (W.written out.old) (W.written out.new) }
    ensures model { OkLeavesNoModel (L.told files.old) result (request words.now) }
    ensures own { needs_no_files (request words.now) ≡ true → Ends ⊥ result (due [] (request words.now))
        (W.written out.old) (W.written out.new) }
    ensures cause { EndHasCause result (L.faults files.old) (L.faults files.new) (W.faults out.old) (W.faults out.new) }
    ensures usage { UsageFits result (request words.now) }
    ensures absent { is_bench (request words.now) ≡ false → may_write_proof result (request words.now) ≡ false →
        AbsentHasCause (L.told files.old) (W.written out.old) (W.written out.new) (L.faults files.old) (L.faults files.new) }
    ensures stays { LibraryStays L.told L.open_files L.faults files.old files.new }
{
    soundness_law();
    match read_words(alloc, words) {
        Ok(Some(Request::Check(job))) => check(alloc, &job, files, out),
        Ok(Some(Request::Load(file))) => load(alloc, &file, files, out),
        Ok(Some(Request::Bench(n))) => run_bench(alloc, n, out),
        Ok(Some(Request::Show { file, name })) => show(alloc, &file, &name, files, out),
        Ok(Some(Request::Trim(job))) => trim(alloc, &job, files, out),
        Ok(Some(Request::Prove { reference, proof })) => {
            prove(alloc, &reference, &proof, files, out)
        }
        Ok(None) => print_line(out, Status::Usage, &[USAGE]),
        Err(AllocError) => print_line(out, Status::OutOfMemory, &[OUT_OF_MEMORY]),
    }
}

/// A law: where files are known and no call of the library or of the sink failed, a run that ends as
/// `ethos_main` says writes all that is due, with its status, unless there is no memory left. A call
/// costs nothing: it gives a proof this fact.
pub fn completeness_law()
    ensures { (told : Option Files) (s : status) (r : Option reading) (before after : Option (List ℕ)) (l m k n : ℕ) →
        EndsAs (Rose l m) told s r before after → EndHasCause s l m k n → (Rose l m → ⊥) → Completes told s r before after k n }
{}

/// Runs the program, as `ethos_main` does, over files in memory of which no call fails. It never
/// ends with `ReadFault`. Where no write fails, all that is due is written, unless there is no memory
/// left.
pub fn run_in_memory<W: Sink>(
    alloc: Global,
    words: &[Text],
    files: &mut HonestLibrary,
    out: &mut W,
) -> Status
    requires { ⟦<HonestLibrary as Library>⟧.open_files files.old ≡ [] }
    ensures exact { EndsAs ⊥ (⟦<HonestLibrary as Library>⟧.told files.old) result (request words.now)
        (W.written out.old) (W.written out.new) }
    ensures refutes { OkRefutes (⟦<HonestLibrary as Library>⟧.told files.old) result (request words.now) }
    ensures shorter { OkShortens (⟦<HonestLibrary as Library>⟧.told files.old) result (request words.now)
        (W.written out.old) (W.written out.new) }
    ensures model { OkLeavesNoModel (⟦<HonestLibrary as Library>⟧.told files.old) result (request words.now) }
    ensures complete { Completes (⟦<HonestLibrary as Library>⟧.told files.old) result (request words.now)
        (W.written out.old) (W.written out.new) (W.faults out.old) (W.faults out.new) }
    ensures no_read_fault { result ≢ Status.ReadFault }
{
    completeness_law();
    ethos_main(alloc, words, files, out)
}

/// Checks the files of a job, and prints the verdict.
fn check<L: Library, W: Sink>(alloc: Global, job: &CheckJob, files: &mut L, out: &mut W) -> Status
    requires { L.open_files files.old ≡ [] }
    ensures exact { EndsAs (Rose (L.faults files.old) (L.faults files.new)) (L.told files.old) result (Some (Request.Check job.now))
        (W.written out.old) (W.written out.new) }
    ensures cause { EndHasCause result (L.faults files.old) (L.faults files.new) (W.faults out.old) (W.faults out.new) }
    ensures usage { result ≢ Status.Usage }
    ensures absent { AbsentHasCause (L.told files.old) (W.written out.old) (W.written out.new) (L.faults files.old) (L.faults files.new) }
    ensures stays { LibraryStays L.told L.open_files L.faults files.old files.new }
{
    let mut paths = Paths::new(alloc);
    let verdict = check_files(alloc, job, files, &mut paths);
    print_verdict(out, &verdict, &paths)
}

/// Runs a signature file, and prints the verdict.
fn load<L: Library, W: Sink>(alloc: Global, file: &Text, files: &mut L, out: &mut W) -> Status
    requires { L.open_files files.old ≡ [] }
    ensures exact { EndsAs (Rose (L.faults files.old) (L.faults files.new)) (L.told files.old) result (Some (Request.Load file.now))
        (W.written out.old) (W.written out.new) }
    ensures cause { EndHasCause result (L.faults files.old) (L.faults files.new) (W.faults out.old) (W.faults out.new) }
    ensures usage { result ≢ Status.Usage }
    ensures absent { AbsentHasCause (L.told files.old) (W.written out.old) (W.written out.new) (L.faults files.old) (L.faults files.new) }
    ensures stays { LibraryStays L.told L.open_files L.faults files.old files.new }
{
    let mut paths = Paths::new(alloc);
    let verdict = load_files(alloc, file, files, &mut paths);
    print_verdict(out, &verdict, &paths)
}

/// Runs the bench with so many hops, and prints its line.
fn run_bench<W: Sink>(alloc: Global, n: u32, out: &mut W) -> Status
    ensures exact { Ends ⊥ result (bench_due n) (W.written out.old) (W.written out.new) }
    ensures no_read_fault { result ≢ Status.ReadFault }
    ensures cause { result ≡ Status.WriteFault → Rose (W.faults out.old) (W.faults out.new) }
    ensures usage { result ≢ Status.Usage }
{
    let mut paths = Paths::new(alloc);
    let end = bench(alloc, n, &mut paths);
    print_bench(out, n, &end, &paths)
}
