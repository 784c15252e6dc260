//! Checks of files whose commands open other files.
use super::{CORRECT, assert_calls, assert_none};
use eo_base::Status;
use std::alloc::{AllocError, Global};
use test_runs::{CHECK, File, Job, Want, calls, does_in_pieces, does_over_chain, first_wrong};

/// The files that a proof may open, each with its path.
const FILES: &[File<'static>] = &[
    (b"r.smt2", b"(assert false)\n"),
    (b"t.smt2", b"(assert true)\n"),
    (b"u.smt2", b"(reference \"r.smt2\")\n"),
    (b"s.eo", b"(declare-const s Bool)\n"),
    (b"f.eo", b"(assume @f false)\n"),
    (b"x/j.eo", b"(include \"k.eo\")\n(include \"../f.eo\")\n"),
    (b"x/k.eo", b"(declare-const k Bool)\n"),
    (b"x/l.eo", b"(reference \"../r.smt2\")\n"),
    (b"v.eo", b"(include \"p.eo\")\n(declare-const v Bool)\n"),
    (b"w.eo", b"(\n(assume @w false)\n)\n"),
    (b"d.eo", b"(declare-rule d () :args () :conclusion false)\n"),
    (b"g.eo", b"(include \"d.eo\")\n"),
    (b"e.eo", b"(declare-const e Bool)\n(declare-const e Bool)\n"),
    (b"o.eo", b"(declare-const o Bool"),
];

// A function that calls this does not unfold the table in its proof.
fn files() -> &'static [File<'static>] {
    FILES
}

/// The words of a line, a proof, and the line that is printed.
type Row<'a> = (&'a str, &'a [u8], &'a [u8]);

/// Whether a row's line is printed, whole and with reads of 1 and of 3 bytes.
fn is_right(alloc: Global, row: Row<'_>) -> Result<bool, AllocError> {
    let (words, proof, line) = row;
    let job: Job<'_> = (words, (b"p.eo", proof), files());
    does_in_pieces(alloc, &job, &Want::Prints(line))
}

/// The first row that gives another line.
fn wrong(alloc: Global, rows: &[Row<'_>]) -> Option<usize> {
    first_wrong(alloc, rows, is_right)
}

#[test]
fn proofs_whose_files_are_accepted(rt: HostRuntime) {
    const ROWS: &[Row<'static>] = &[
        (
            CHECK,
            b"(include \"s.eo\")(include \"s.eo\")(assume a false)",
            CORRECT,
        ),
        (
            CHECK,
            b"(include \"./s.eo\")(include \"x/../s.eo\")(assume a false)",
            CORRECT,
        ),
        (CHECK, b"(include \"x/j.eo\")", CORRECT),
        (
            "ethos check --reference=r.smt2 ./p.eo",
            b"(include \"p.eo\")(assume a false)",
            CORRECT,
        ),
        (
            "ethos check p.eo",
            b"(reference \"r.smt2\")(assume a false)",
            CORRECT,
        ),
        (
            "ethos check p.eo",
            b"(include \"x/l.eo\")(assume a false)",
            CORRECT,
        ),
        (
            "ethos check --include=./s.eo --reference=r.smt2 p.eo",
            b"(include \"s.eo\")(assume a false)",
            CORRECT,
        ),
        (
            "ethos check --include=v.eo --reference=r.smt2 p.eo",
            b"(define d () v)(assume a false)",
            CORRECT,
        ),
        (
            "ethos check --include=x/l.eo p.eo",
            b"(assume a false)",
            CORRECT,
        ),
        (CHECK, b"(include \"d.eo\")(step a false :rule d)", CORRECT),
        (
            "ethos check --include=g.eo --closed --reference=r.smt2 p.eo",
            b"(include \"d.eo\")(step a false :rule d)",
            CORRECT,
        ),
        (CHECK, b"(\n(include \"f.eo\")\n)\n", CORRECT),
    ];
    assert_none(&rt, wrong(rt.alloc(), ROWS));
}

#[test]
fn included_files_that_are_refused(rt: HostRuntime) {
    const ROWS: &[Row<'static>] = &[
        (
            CHECK,
            b"(include \"z.eo\")",
            b"refused F35 FileAbsent p.eo:1:0\n",
        ),
        (CHECK, b"(include \"\")", b"refused F09 BadPath p.eo:1:0\n"),
        (
            CHECK,
            b"(include \"s.eo\")(include \"/\")",
            b"refused F09 BadPath p.eo:1:16\n",
        ),
        (
            CHECK,
            b"\n(include \"e.eo\")",
            b"refused F12 Redeclared e.eo:2:23\n",
        ),
        (
            CHECK,
            b"(include \"o.eo\")",
            b"refused F02 Unclosed o.eo:1:21\n",
        ),
        (
            CHECK,
            b"(include \"w.eo\")",
            b"refused F11 BadCommand w.eo:1:0\n",
        ),
        (
            CHECK,
            b"(assume-push a false)(include \"s.eo\")",
            b"refused F31 InScope p.eo:1:21\n",
        ),
        (
            CHECK,
            b"(include \"x/j.eo\")(assume-push a false)",
            b"refused F40 ScopeOpen p.eo:1:39\n",
        ),
        (
            CHECK,
            b"(include \"s.eo\")(declare-const s Bool)",
            b"refused F12 Redeclared p.eo:1:16\n",
        ),
        (
            CHECK,
            b"(include \"s.eo\")",
            b"refused F41 NoRefutation p.eo:1:16\n",
        ),
        (
            CHECK,
            b"(reference \"r.smt2\")",
            b"refused F30 SecondReference p.eo:1:0\n",
        ),
        (
            CHECK,
            b"(include \"x/l.eo\")",
            b"refused F30 SecondReference x/l.eo:1:0\n",
        ),
    ];
    assert_none(&rt, wrong(rt.alloc(), ROWS));
}

#[test]
fn reference_files_that_are_refused(rt: HostRuntime) {
    const ROWS: &[Row<'static>] = &[
        (
            "ethos check p.eo",
            b"(reference \"z.smt2\")",
            b"refused F35 FileAbsent p.eo:1:0\n",
        ),
        (
            "ethos check p.eo",
            b"(reference \"\")",
            b"refused F09 BadPath p.eo:1:0\n",
        ),
        (
            "ethos check p.eo",
            b"(reference \"u.smt2\")",
            b"refused F10 UnknownCommand u.smt2:1:0\n",
        ),
        (
            "ethos check p.eo",
            b"(reference \"r.smt2\")(reference \"\")",
            b"refused F30 SecondReference p.eo:1:20\n",
        ),
        (
            "ethos check p.eo",
            b"(assume-push a false)(reference \"r.smt2\")",
            b"refused F31 InScope p.eo:1:21\n",
        ),
        (
            "ethos check p.eo",
            b"(reference \"t.smt2\")\n(include \"x/j.eo\")",
            b"refused F28 NotAsserted f.eo:1:0\n",
        ),
        (
            "ethos check p.eo",
            b"(include \"s.eo\")",
            b"refused F29 NoReference p.eo:1:16\n",
        ),
    ];
    assert_none(&rt, wrong(rt.alloc(), ROWS));
}

#[test]
fn jobs_that_are_refused(rt: HostRuntime) {
    const ROWS: &[Row<'static>] = &[
        (
            "ethos check --include=x/l.eo --reference=x/../t.smt2 p.eo",
            b"",
            b"refused F30 SecondReference t.smt2:1:0\n",
        ),
        (
            "ethos check --include=p.eo --reference=r.smt2 p.eo",
            b"(declare-const c Bool)",
            b"refused F12 Redeclared p.eo:1:0\n",
        ),
        (
            "ethos check --include=f.eo --reference=r.smt2 p.eo",
            b"(assume a false)",
            b"refused F29 NoReference f.eo:1:0\n",
        ),
        (
            "ethos check --include=z.eo --reference=z.smt2 p.eo",
            b"",
            b"refused F35 FileAbsent z.eo:1:0\n",
        ),
        (
            "ethos check --reference=u.smt2 p.eo",
            b"",
            b"refused F10 UnknownCommand u.smt2:1:0\n",
        ),
        (
            "ethos check --closed --reference=r.smt2 p.eo",
            b"(include \"g.eo\")",
            b"refused F38 ProofDeclares d.eo:1:0\n",
        ),
    ];
    assert_none(&rt, wrong(rt.alloc(), ROWS));
}

/// The last file of a chain, and the line that is printed.
type Chained<'a> = (&'a [u8], &'a [u8]);

/// Whether a proof that includes `n1.eo` gives this line, over files `n1.eo` to `n16.eo` of which
/// each includes the next, but for the last one.
fn is_right_chain(alloc: Global, row: Chained<'_>) -> Result<bool, AllocError> {
    let (last, line) = row;
    let proof: File<'_> = (b"p.eo", b"(include \"n1.eo\")\n(assume a false)\n");
    let others: [File<'_>; 2] = [(b"r.smt2", b"(assert false)\n"), (b"n16.eo", last)];
    let job: Job<'_> = ("ethos check p.eo", proof, &others);
    does_over_chain(alloc, &job, 16, 3, 0, &Want::Prints(line))
}

fn wrong_chain(alloc: Global, rows: &[Chained<'_>]) -> Option<usize> {
    first_wrong(alloc, rows, is_right_chain)
}

#[test]
fn the_sixteenth_file_may_still_name_the_reference_file(rt: HostRuntime) {
    const ROWS: &[Chained<'static>] = &[
        (b"(reference \"r.smt2\")", b"correct\n"),
        (b"(include \"n3.eo\")(reference \"r.smt2\")", b"correct\n"),
        (
            b"(include \"n17.eo\")",
            b"refused F34 IncludeDepth n16.eo:1:0\n",
        ),
        (b"", b"refused F29 NoReference p.eo:2:18\n"),
    ];
    assert_none(&rt, wrong_chain(rt.alloc(), ROWS));
}

#[test]
fn failing_calls_in_an_included_file(rt: HostRuntime) {
    let proof: File<'_> = (b"p.eo", b"(include \"s.eo\")(assume a false)");
    let want = Want::Ends(Status::Ok, CORRECT);
    let job: Job<'_> = (CHECK, proof, files());
    let made = calls(rt.alloc(), &job, 65_536, &want);
    assert_calls(&rt, made, 9);
}
