mod declarations;
mod each_rule;
mod evaluation;
mod overloads;
mod programs;
mod rules;
mod scopes;
mod shared;
mod suite;

use eo_base::Status;
use std::alloc::{AllocError, Global};
use std::process::Abort;
use test_runs::{CHECK, File, Want, first_wrong, honest_does};

/// A reference file and a proof, and the line and the status that they give.
type Row<'a> = (&'a [u8], &'a [u8], &'a [u8], Status);

const ASSERTS_TRUE: &[u8] = b"(assert true)\n";

const ASSERTS_FALSE: &[u8] = b"(assert false)\n";

const CORRECT: &[u8] = b"correct\n";

/// A proof that is refused, and the line that is printed.
type Refusal<'a> = (&'a [u8], &'a [u8]);

/// Whether the proof is as it is wanted over the reference file, where no call of the library fails.
fn does<'a>(
    alloc: Global,
    reference: &'a [u8],
    proof: &'a [u8],
    want: &Want<'_>,
) -> Result<bool, AllocError> {
    let files: [File<'_>; 2] = [(b"r.smt2", reference), (b"p.eo", proof)];
    honest_does(alloc, CHECK, &files, want)
}

fn is_right(alloc: Global, row: Row<'_>) -> Result<bool, AllocError> {
    let (reference, proof, line, status) = row;
    does(alloc, reference, proof, &Want::Ends(status, line))
}

/// The first row whose files give another line or status.
fn wrong(alloc: Global, rows: &[Row<'_>]) -> Option<usize> {
    first_wrong(alloc, rows, is_right)
}

/// Whether the proof is refused with this line, where the reference file asserts `true`.
fn refuses(alloc: Global, proof: &[u8], line: &[u8]) -> Result<bool, AllocError> {
    does(
        alloc,
        ASSERTS_TRUE,
        proof,
        &Want::Ends(Status::Refused, line),
    )
}

fn is_refused(alloc: Global, row: Refusal<'_>) -> Result<bool, AllocError> {
    let (proof, line) = row;
    refuses(alloc, proof, line)
}

/// The first proof that is not refused with its line.
fn wrong_refusal(alloc: Global, rows: &[Refusal<'_>]) -> Option<usize> {
    first_wrong(alloc, rows, is_refused)
}

/// Asserts that none is wrong, and else names the first.
fn assert_none(rt: &impl Abort, wrong: Option<usize>) {
    assert_eq!(rt; wrong, None);
}

/// Asserts that what was tried had memory and is right.
fn assert_right(rt: &impl Abort, is_right: Result<bool, AllocError>) {
    assert_eq!(rt; is_right, Ok(true));
}

#[test]
fn verdicts_of_files(rt: HostRuntime) {
    const ROWS: &[Row<'static>] = &[
        (ASSERTS_FALSE, b"(assume @p1 false)\n", CORRECT, Status::Ok),
        (
            ASSERTS_TRUE,
            b"(assume @p1 false)\n",
            b"refused F28 NotAsserted p.eo:1:0\n",
            Status::Refused,
        ),
        (
            ASSERTS_TRUE,
            b"(assume @p1 true)\n",
            b"refused F41 NoRefutation p.eo:2:18\n",
            Status::Refused,
        ),
        (
            ASSERTS_FALSE,
            b"",
            b"refused F41 NoRefutation p.eo:1:0\n",
            Status::Refused,
        ),
        (
            ASSERTS_TRUE,
            b"",
            b"refused F41 NoRefutation p.eo:1:0\n",
            Status::Refused,
        ),
        (
            b"",
            b"(assume @p1 true)\n",
            b"refused F28 NotAsserted p.eo:1:0\n",
            Status::Refused,
        ),
        (
            b"(assert (not true))",
            b"",
            b"refused F13 UnknownSymbol r.smt2:1:0\n",
            Status::Refused,
        ),
    ];
    assert_none(&rt, wrong(rt.alloc(), ROWS));
}

#[test]
fn programs_of_a_proof(rt: HostRuntime) {
    const ROWS: &[Refusal<'static>] = &[
        (
            b"(program $u ((x Bool) (y Bool)) :signature (Bool) Bool ((($u x) y)))",
            b"refused F21 UnboundParam p.eo:1:0\n",
        ),
        (
            b"(program $u ((x Bool)) :signature (Bool) Bool ((($u (eo::not x)) x)))",
            b"refused F22 BadPattern p.eo:1:0\n",
        ),
        (
            b"(program $u ((x Bool)) :signature (Bool) Bool ((($v x) x)))",
            b"refused F11 BadCommand p.eo:1:0\n",
        ),
        (
            b"(program $u ((x Bool)) :signature (Bool) Bool ((($u x x) x)))",
            b"refused F14 BadArity p.eo:1:0\n",
        ),
        (
            b"(program $u () :signature (Bool) Bool ())(define $u () true)",
            b"refused F12 Redeclared p.eo:1:41\n",
        ),
        (
            b"(program $u ((x Bool)) :signature (Bool) Bool ((($u x) x)))(assume a ($u true))",
            b"refused F41 NoRefutation p.eo:1:79\n",
        ),
    ];
    assert_none(&rt, wrong_refusal(rt.alloc(), ROWS));
    const PROOF: &[u8] =
        b"(program $u ((x Bool)) :signature (Bool) Bool ((($u true) false) (($u x) ($u true))))\n(assume a false)\n";
    let row = (ASSERTS_FALSE, PROOF, CORRECT, Status::Ok);
    assert_right(&rt, is_right(rt.alloc(), row));
}

#[test]
fn declarations_of_a_proof(rt: HostRuntime) {
    const ROWS: &[Refusal<'static>] = &[
        (
            b"(declare-const p Bool)(declare-const p Bool)",
            b"refused F12 Redeclared p.eo:1:22\n",
        ),
        (
            b"(declare-const and (-> Bool Bool Bool) :right-assoc-nil (eo::not true))",
            b"refused F22 BadPattern p.eo:1:0\n",
        ),
        (
            b"(declare-parameterized-const k ((T Type :implicit)) Bool)",
            b"refused F21 UnboundParam p.eo:1:0\n",
        ),
        (b"(define d () (d))", b"refused F14 BadArity p.eo:1:0\n"),
        (
            b"(declare-consts <numeral> Bool)(assume a (= 1 1))",
            b"refused F13 UnknownSymbol p.eo:1:31\n",
        ),
        (
            b"(declare-const Int Type)(declare-consts <numeral> Int)(assume a 5)",
            b"refused F27 NotBool p.eo:1:54\n",
        ),
        (
            b"(assume a (eo::not true))",
            b"refused F28 NotAsserted p.eo:1:0\n",
        ),
        (
            b"(define t ((x Bool)) x)(assume a (t true))(assume b (t false))",
            b"refused F28 NotAsserted p.eo:1:42\n",
        ),
    ];
    assert_none(&rt, wrong_refusal(rt.alloc(), ROWS));
    const PROOF: &[u8] = b"(define f ((x Bool)) x)\n(assume a (let ((y (f false))) y))\n";
    let row = (ASSERTS_FALSE, PROOF, CORRECT, Status::Ok);
    assert_right(&rt, is_right(rt.alloc(), row));
}
