ghost use Rattle.std.specs.Prelude.{◌≤◌};

mod benchmarks;
mod command_line;
mod extreme;
mod failing;
mod loads;
mod opened;
mod proves;
mod shows;
mod trims;

use eo_base::Status;
use eo_io::MemorySink;
use std::alloc::{AllocError, Global};
use std::process::Abort;
use test_runs::{
    CHECK, File, Job, ROOM, Want, calls, does, does_in_pieces, first_wrong, honest_does_into,
    long_text,
};

/// A proof, and the line that is printed.
type Row<'a> = (&'a [u8], &'a [u8]);

const CORRECT: &[u8] = b"correct\n";

const ASSERTS_FALSE: File<'static> = (b"r.smt2", b"(assert false)\n");

const ASSUMES_FALSE: File<'static> = (b"p.eo", b"(assume @p1 false)\n");

/// Asserts that none is wrong, and else names the first.
fn assert_none(rt: &impl Abort, wrong: Option<usize>) {
    assert_eq!(rt; wrong, None);
}

/// Asserts that what was tried had memory and is right.
fn assert_right(rt: &impl Abort, is_right: Result<bool, AllocError>) {
    assert_eq!(rt; is_right, Ok(true));
}

/// Asserts that so many calls were made, and that each of them may fail.
fn assert_calls(rt: &impl Abort, made: Result<Option<u64>, AllocError>, want: u64) {
    assert_eq!(rt; made, Ok(Some(want)));
}

#[test]
fn absent_file(rt: HostRuntime) {
    let want = Want::Ends(Status::Refused, b"refused F35 FileAbsent p.eo:1:0\n");
    assert_right(
        &rt,
        does(rt.alloc(), &(CHECK, ASSERTS_FALSE, &[]), 8, 0, &want),
    );
}

#[test]
fn failing_calls_of_the_library(rt: HostRuntime) {
    let want = Want::Ends(Status::Ok, CORRECT);
    let job: Job<'_> = (CHECK, ASSERTS_FALSE, &[ASSUMES_FALSE]);
    assert_calls(&rt, calls(rt.alloc(), &job, 8, &want), 9);
}

/// Whether the first check does what is wanted into a sink of so much room, whose writes take at
/// most so many bytes, and of which one fails, if its number is one of a write.
fn check_into(
    alloc: Global,
    room: usize,
    piece: usize,
    failing: u64,
    want: &Want<'_>,
) -> Result<bool, AllocError>
    requires { 1 ≤ piece }
{
    let mut out = MemorySink::new(alloc, room)?;
    out.piece(piece);
    out.fail(failing)?;
    honest_does_into(
        alloc,
        CHECK,
        &[ASSERTS_FALSE, ASSUMES_FALSE],
        &mut out,
        want,
    )
}

#[test]
fn failing_and_short_writes(rt: HostRuntime) {
    let fault = Want::Ends(Status::WriteFault, b"");
    assert_right(&rt, check_into(rt.alloc(), ROOM, ROOM, 1, &fault));
    let whole = Want::Ends(Status::Ok, CORRECT);
    assert_right(&rt, check_into(rt.alloc(), ROOM, 1, 0, &whole));
}

/// Whether the two files give this line, whole and with reads of 1 and of 3 bytes.
fn prints<'a>(
    alloc: Global,
    reference: &'a [u8],
    proof: &'a [u8],
    line: &[u8],
) -> Result<bool, AllocError> {
    let others: [File<'_>; 1] = [(b"r.smt2", reference)];
    let job: Job<'_> = (CHECK, (b"p.eo", proof), &others);
    does_in_pieces(alloc, &job, &Want::Prints(line))
}

fn is_right(alloc: Global, row: Row<'_>) -> Result<bool, AllocError> {
    let (proof, line) = row;
    prints(alloc, b"(assert true)\n", proof, line)
}

fn wrong(alloc: Global, rows: &[Row<'_>]) -> Option<usize> {
    first_wrong(alloc, rows, is_right)
}

#[test]
fn proofs_in_the_whole_lexicon(rt: HostRuntime) {
    const ROWS: &[Row<'static>] = &[
        (b"(include \"b", b"refused F02 Unclosed p.eo:1:11\n"),
        (b"(assume @p1 true))", b"refused F03 ExtraClose p.eo:1:17\n"),
        (b"unsat\n", b"refused F41 NoRefutation p.eo:2:6\n"),
        (b"unsat unsat", b"refused F11 BadCommand p.eo:1:6\n"),
        (b"()x", b"refused F03 ExtraClose p.eo:1:2\n"),
        (
            b"(\n(assume @p1 true)\n",
            b"refused F02 Unclosed p.eo:3:20\n",
        ),
        (
            b"(assume @p1 |true|) ; c",
            b"refused F41 NoRefutation p.eo:1:23\n",
        ),
        (
            b"unsat\n(\n(assume a true)\n(assume a maybe)\n)\n",
            b"refused F12 Redeclared p.eo:4:24\n",
        ),
        (b"(assume a maybe)", b"refused F13 UnknownSymbol p.eo:1:0\n"),
        (b"(assume a \"true\")", b"refused F15 IllTyped p.eo:1:0\n"),
        (b"(assume a (true))", b"refused F14 BadArity p.eo:1:0\n"),
        (
            b"\r\n(assume a false)",
            b"refused F28 NotAsserted p.eo:2:2\n",
        ),
        (b"(assume :a true)", b"refused F11 BadCommand p.eo:1:0\n"),
        (
            b"(assume a true true)",
            b"refused F11 BadCommand p.eo:1:0\n",
        ),
        (b"(assert true)", b"refused F10 UnknownCommand p.eo:1:0\n"),
        (b"assume", b"refused F11 BadCommand p.eo:1:0\n"),
        (b"(assume a true){", b"refused F01 BadByte p.eo:1:15\n"),
    ];
    assert_none(&rt, wrong(rt.alloc(), ROWS));
}

#[test]
fn a_proof_without_the_end_of_its_pair(rt: HostRuntime) {
    let proof = b"(\n(assume @p1 false)\n";
    let line = b"refused F02 Unclosed p.eo:3:21\n";
    assert_right(&rt, prints(rt.alloc(), b"(assert false)\n", proof, line));
}

/// Whether a proof of so many `(` gives this line.
fn opens_print(alloc: Global, count: u32, line: &[u8]) -> Result<bool, AllocError> {
    let proof = long_text(alloc, &("", count, "(", ""))?;
    prints(alloc, b"(assert true)\n", proof.as_bytes(), line)
}

#[test]
fn nested_lists(rt: HostRuntime) {
    let unclosed = opens_print(rt.alloc(), 100_001, b"refused F02 Unclosed p.eo:1:100001\n");
    assert_right(&rt, unclosed);
    let too_deep = opens_print(rt.alloc(), 100_002, b"refused F07 Nesting p.eo:1:100001\n");
    assert_right(&rt, too_deep);
}
