//! A check of a proof that is made in memory, which shows how fast the program is.
ghost use Rattle.std.specs.Prelude.{◌≡◌, ◌++◌, [], false, IfOk, OnOk, codes, string_bytes};
ghost use Rattle.eo_io.specs.Stored.{with_file};
ghost use Rattle.eo_run.specs.Bench.{bench_files, bench_job, bench_reference, bench_proof};
ghost use Rattle.eo_run.specs.Bench.{hop, hop_clause, hop_fact, bench_end};
ghost use Rattle.eo_run.specs.Benching.{AnswersBench, counted};
ghost use Rattle.eo_run.specs.Ending.{IfCorrect};

use crate::checking::{check_job, first_run};
use crate::{BenchEnd, CheckEnd, CheckJob, Verdict};
use eo_base::{Text, ok_with};
use eo_io::{HonestLibrary, Paths};
use eo_session::{Nobody, Session};
use std::alloc::{AllocError, Global};
use std::fmt::Write;

/// The include file: `at` holds of the number after each number of which it holds.
const SIGNATURE: &[u8] = b"(declare-const Int Type)\n\
(declare-consts <numeral> Int)\n\
(declare-const not (-> Bool Bool))\n\
(declare-const or (-> Bool Bool Bool) :right-assoc-nil false)\n\
(declare-const at (-> Int Bool))\n\
(declare-rule hop ((n Int)) :args (n) :conclusion (or (not (at n)) (at (eo::add n 1))))\n\
(declare-rule unit ((a Bool) (b Bool)) :premises (a (or (not a) b)) :conclusion b)\n\
(declare-rule contra ((a Bool)) :premises (a (not a)) :conclusion false)\n";

/// Checks a proof that hops from 0 to n, each hop by two steps, against a reference file that
/// asserts `(at 0)` and `(not (at n))`. The files are in memory, in a library of its own: no other
/// is read, and no read fails.
///
/// - `Correct`: the check is correct, with how many commands were accepted, and how many terms are
///   alive at its end ([`Session::live`]).
/// - `Other`: its verdict is `Incomplete` or `Refused`, or there was no memory left, which is
///   `OutOfMemory`. The file of a refusal is one of the paths.
pub fn bench(alloc: Global, n: u32, paths: &mut Paths) -> BenchEnd
    ensures { AnswersBench (bench_files n) bench_job paths.new result }
{
    let Ok(mut files) = files_of(alloc, n) else {
        return BenchEnd::Other(Verdict::OutOfMemory);
    };
    let end = check_bench(alloc, &mut files, paths);
    drop(files);
    end
}

/// Checks the job of a bench over files in memory, of which none is open.
fn check_bench(alloc: Global, files: &mut HonestLibrary, paths: &mut Paths) -> BenchEnd
    requires { files.old.unread ≡ [] }
    ensures { AnswersBench files.old.told bench_job paths.new result }
{
    let Ok(job) = job_of(alloc) else {
        return BenchEnd::Other(Verdict::OutOfMemory);
    };
    let end = count_run(alloc, &job, files, paths);
    drop(job);
    end
}

/// Checks a job over files in memory, of which none is open, and counts what is there at its end.
fn count_run(
    alloc: Global,
    job: &CheckJob,
    files: &mut HonestLibrary,
    paths: &mut Paths,
) -> BenchEnd
    requires { files.old.unread ≡ [] }
    ensures { AnswersBench files.old.told job.now paths.new result }
{
    let Ok(mut run) = first_run(alloc, job) else {
        return BenchEnd::Other(Verdict::OutOfMemory);
    };
    let checked = check_job(alloc, job, files, &mut run, paths, &mut Nobody);
    let end = counts(checked, &run.session);
    drop(run);
    end
}

/// How a bench ends, by the end of its check and the session there, which goes on where it is
/// correct.
fn counts(checked: CheckEnd, session: &Session) -> BenchEnd
    requires { IfCorrect checked (session.now.ended ≡ false) }
    ensures { result ≡ counted checked session.now.state }
{
    match checked {
        CheckEnd::Correct(_) => BenchEnd::Correct {
            commands: session.commands(),
            terms: session.live(),
        },
        CheckEnd::Ended(verdict) => BenchEnd::Other(verdict),
    }
}

// ---- the job and its files

fn job_of(alloc: Global) -> Result<CheckJob, AllocError>
    ensures { IfOk result (λ job. job ≡ bench_job) }
{
    Ok(CheckJob {
        include: Some(Text::new(alloc, "bench.eo")?),
        reference: Some(Text::new(alloc, "bench.smt2")?),
        proof: Text::new(alloc, "bench.proof")?,
        closed: false,
    })
}

fn files_of(alloc: Global, n: u32) -> Result<HonestLibrary, AllocError>
    ensures told { IfOk result (λ files. files.told ≡ bench_files n) }
    ensures none_open { IfOk result (λ files. files.unread ≡ []) }
{
    let mut first = HonestLibrary::new(alloc)?;
    let ((), files) = ok_with(add_files(alloc, n, &mut first), first)?;
    Ok(files)
}

/// Adds the files of a bench to a library without files.
fn add_files(alloc: Global, n: u32, files: &mut HonestLibrary) -> Result<(), AllocError>
    requires none { files.old.told ≡ [] }
    ensures told { OnOk result (files.new.told ≡ bench_files n) }
    ensures unread { OnOk result (files.new.unread ≡ files.old.unread) }
{
    files.add(b"bench.eo", SIGNATURE)?;
    add_reference(alloc, n, files)?;
    add_proof(alloc, n, files)?;
    Ok(())
}

fn add_reference(alloc: Global, n: u32, files: &mut HonestLibrary) -> Result<(), AllocError>
    ensures told { OnOk result (files.new.told ≡ with_file files.old.told (codes "bench.smt2") (bench_reference n)) }
    ensures unread { OnOk result (files.new.unread ≡ files.old.unread) }
{
    let text = reference_of(alloc, n)?;
    files.add(b"bench.smt2", text.as_bytes())?;
    Ok(())
}

fn add_proof(alloc: Global, n: u32, files: &mut HonestLibrary) -> Result<(), AllocError>
    ensures told { OnOk result (files.new.told ≡ with_file files.old.told (codes "bench.proof") (bench_proof n)) }
    ensures unread { OnOk result (files.new.unread ≡ files.old.unread) }
{
    let text = proof_of(alloc, n)?;
    files.add(b"bench.proof", text.as_bytes())?;
    Ok(())
}

fn reference_of(alloc: Global, n: u32) -> Result<String, AllocError>
    ensures { IfOk result (λ text. string_bytes text ≡ bench_reference n) }
{
    let mut text = String::from_str(alloc, "(assert (at 0))\n")?;
    writeln!(text, "(assert (not (at {n})))")?;
    Ok(text)
}

fn proof_of(alloc: Global, n: u32) -> Result<String, AllocError>
    ensures { IfOk result (λ text. string_bytes text ≡ bench_proof n) }
{
    let mut text = String::from_str(alloc, "(assume @a0 (at 0))\n")?;
    for k in 0..n {
        add_hop(&mut text, k)?;
    }
    add_end(&mut text, n)?;
    Ok(text)
}

/// Adds the hop from k to the next number.
fn add_hop(text: &mut String, k: u32) -> Result<(), AllocError>
    ensures { OnOk result (string_bytes text.new ≡ string_bytes text.old ++ hop k) }
{
    add_clause(text, k)?;
    add_fact(text, k, u64::from(k) + 1)
}

/// Adds the step that concludes the clause of a hop.
fn add_clause(text: &mut String, k: u32) -> Result<(), AllocError>
    ensures { OnOk result (string_bytes text.new ≡ string_bytes text.old ++ hop_clause k) }
{
    writeln!(text, "(step @h{k} :rule hop :args ({k}))")
}

/// Adds the step that concludes the fact after a hop.
fn add_fact(text: &mut String, k: u32, next: u64) -> Result<(), AllocError>
    ensures { OnOk result (string_bytes text.new ≡ string_bytes text.old ++ hop_fact k next) }
{
    writeln!(text, "(step @a{next} :rule unit :premises (@a{k} @h{k}))")
}

/// Adds what refutes the fact at n.
fn add_end(text: &mut String, n: u32) -> Result<(), AllocError>
    ensures { OnOk result (string_bytes text.new ≡ string_bytes text.old ++ bench_end n) }
{
    writeln!(text, "(assume @n (not (at {n})))")?;
    writeln!(text, "(step @f false :rule contra :premises (@a{n} @n))")
}
