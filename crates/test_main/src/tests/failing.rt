//! Checks during which calls of the library or of the sink fail, and checks of a proof that is cut.
ghost use Rattle.std.specs.Prelude.{◌≤◌};

use super::{ASSERTS_FALSE, CORRECT, assert_calls, assert_right, check_into};
use eo_base::Status;
use eo_cpc::suite;
use std::alloc::{AllocError, Global};
use test_runs::{CHECK, File, Job, Want, calls, does};

/// How many calls of the library a check after the suite makes.
fn calls_of_check(alloc: Global) -> Result<Option<u64>, AllocError> {
    let files: [File<'_>; 2] = [
        (b"cpc.eo", suite()),
        (
            b"r.smt2",
            b"(set-logic QF_UF)\n(set-info :smt-lib-version 2.6)\n(declare-const p Bool)\n\
(assert p)\n(assert (not p))\n(check-sat)\n",
        ),
    ];
    let proof: File<'_> = (
        b"p.eo",
        b"unsat\n(\n(declare-const p Bool)\n(define @t1 () (not p))\n(assume @p1 p)\n\
(assume @p2 @t1)\n(step @p3 false :rule contra :premises (@p1 @p2))\n)\n",
    );
    let job: Job<'_> = (
        "ethos check --include=cpc.eo --reference=r.smt2 p.eo",
        proof,
        &files,
    );
    calls(alloc, &job, 8, &Want::Ends(Status::Ok, CORRECT))
}

#[test]
fn each_call_in_turn_fails_in_a_check(rt: HostRuntime) {
    assert_calls(&rt, calls_of_check(rt.alloc()), 841);
}

#[test]
fn each_call_in_turn_fails_in_a_load(rt: HostRuntime) {
    const JOB: Job<'static> = (
        "ethos load a.eo",
        (b"p.eo", b""),
        &[
            (b"a.eo", b"(include \"b.eo\")\n(include \"c.eo\")\n"),
            (b"b.eo", b"(include \"d.eo\")\n"),
            (b"c.eo", b"(include \"x/../d.eo\")\n(include \"c.eo\")\n"),
            (b"d.eo", b"(declare-const p Bool)\n"),
        ],
    );
    let want = Want::Ends(Status::Ok, b"loaded 6 commands\n");
    assert_calls(&rt, calls(rt.alloc(), &JOB, 8, &want), 24);
}

#[test]
fn a_sink_without_room(rt: HostRuntime) {
    let want = Want::Ends(Status::WriteFault, b"cor");
    assert_right(&rt, check_into(rt.alloc(), 3, 65_536, 0, &want));
}

/// The line for a proof of which this many bytes are left, without its end.
fn line_of_cut(alloc: Global, length: usize) -> Result<String, AllocError> {
    match length {
        0 => String::from_str(alloc, "refused F41 NoRefutation p.eo:1:0\n"),
        18 | 19 => String::from_str(alloc, "correct\n"),
        _ => format!(in alloc; "refused F02 Unclosed p.eo:1:{length}\n"),
    }
}

/// Whether the proof that is cut after so many bytes gives its line.
fn is_right_cut(alloc: Global, length: usize) -> Result<bool, AllocError>
    requires { length ≤ 19 }
{
    let proof: [u8; 19] = *b"(assume @p1 false)\n";
    let line = line_of_cut(alloc, length)?;
    let job: Job<'_> = (CHECK, (b"p.eo", &proof[..length]), &[ASSERTS_FALSE]);
    does(alloc, &job, 65_536, 0, &Want::Prints(line.as_bytes()))
}

/// Whether the proof gives its line however it is cut.
fn are_right_cuts(alloc: Global) -> Result<bool, AllocError> {
    for length in 0..20usize {
        if !is_right_cut(alloc, length)? {
            return Ok(false);
        }
    }
    Ok(true)
}

#[test]
fn a_proof_that_is_cut(rt: HostRuntime) {
    assert_right(&rt, are_right_cuts(rt.alloc()));
}
