//! Signature files that are run alone, with the files that they include.
use super::{assert_none, assert_right};
use eo_base::Status;
use std::alloc::{AllocError, Global};
use test_runs::{File, Job, Want, does_in_pieces, does_over_chain, first_wrong, long_text};

/// The files that `a.eo` may include, each with its path.
const FILES: &[File<'static>] = &[
    (b"b.eo", b"(include \"d.eo\")\n"),
    (b"c.eo", b"(include \"x/../d.eo\")\n(include \"c.eo\")\n"),
    (b"d.eo", b"(declare-const p Bool)\n"),
    (b"e.eo", b"(declare-const q Bool)\n(declare-const q Bool)\n"),
    (b"x/f.eo", b"(include \"../d.eo\")\n(include \"g.eo\")\n"),
    (b"x/g.eo", b"(declare-const g Bool)\n"),
    (b"h\"i.eo", b"(declare-const h Bool)\n"),
    (b"r.smt2", b"(assert false)\n"),
];

// A function that calls this does not unfold the table in its proof.
fn files() -> &'static [File<'static>] {
    FILES
}

/// A signature, and the status and the line that it ends with.
type Row<'a> = (&'a [u8], Status, &'a [u8]);

/// Whether `load a.eo` gives this line, whole and with reads of 1 and of 3 bytes.
fn gives(alloc: Global, a: &[u8], status: Status, line: &[u8]) -> Result<bool, AllocError> {
    let job: Job<'_> = ("ethos load a.eo", (b"a.eo", a), files());
    does_in_pieces(alloc, &job, &Want::Ends(status, line))
}

fn is_right(alloc: Global, row: Row<'_>) -> Result<bool, AllocError> {
    let (a, status, line) = row;
    gives(alloc, a, status, line)
}

/// The first row that gives another line.
fn wrong(alloc: Global, rows: &[Row<'_>]) -> Option<usize> {
    first_wrong(alloc, rows, is_right)
}

#[test]
fn signatures_that_are_loaded(rt: HostRuntime) {
    const ROWS: &[Row<'static>] = &[
        (b"", Status::Ok, b"loaded 0 commands\n"),
        (
            b"(include \"h\"\"i.eo\")",
            Status::Ok,
            b"loaded 2 commands\n",
        ),
        (
            b"(declare-const p Bool)",
            Status::Ok,
            b"loaded 1 commands\n",
        ),
        (
            b"(include \"b.eo\")\n(include \"c.eo\")\n",
            Status::Ok,
            b"loaded 6 commands\n",
        ),
        (
            b"(include \"a.eo\")(include \"./b.eo\")",
            Status::Ok,
            b"loaded 4 commands\n",
        ),
        (b"(include \"x/f.eo\")", Status::Ok, b"loaded 5 commands\n"),
        (
            b"(reference \"r.smt2\")",
            Status::Ok,
            b"loaded 2 commands\n",
        ),
        (
            b"(declare-rule bad () :args () :conclusion false)",
            Status::Ok,
            b"loaded 1 commands\n",
        ),
    ];
    assert_none(&rt, wrong(rt.alloc(), ROWS));
}

#[test]
fn signatures_that_are_refused(rt: HostRuntime) {
    const ROWS: &[Row<'static>] = &[
        (
            b"(include \"h\xff\")",
            Status::Refused,
            b"refused F09 BadPath a.eo:1:0\n",
        ),
        (
            b"(include \"z.eo\")",
            Status::Refused,
            b"refused F35 FileAbsent a.eo:1:0\n",
        ),
        (
            b"(include \"b",
            Status::Refused,
            b"refused F02 Unclosed a.eo:1:11\n",
        ),
        (
            b"(declare-const p Bool))",
            Status::Refused,
            b"refused F03 ExtraClose a.eo:1:22\n",
        ),
        (
            b"(include \"b.eo\")\n(declare-const p Bool)",
            Status::Refused,
            b"refused F12 Redeclared a.eo:2:17\n",
        ),
        (
            b"\n(include \"e.eo\")",
            Status::Refused,
            b"refused F12 Redeclared e.eo:2:23\n",
        ),
        (
            b"(include \"\")",
            Status::Refused,
            b"refused F09 BadPath a.eo:1:0\n",
        ),
        (
            b"(include \"x/..\")",
            Status::Refused,
            b"refused F09 BadPath a.eo:1:0\n",
        ),
        (
            b"(reference \"r.smt2\")(reference \"r.smt2\")",
            Status::Refused,
            b"refused F30 SecondReference a.eo:1:20\n",
        ),
        (
            b"(reference \"z\")",
            Status::Refused,
            b"refused F35 FileAbsent a.eo:1:0\n",
        ),
        (
            b"unsat",
            Status::Refused,
            b"refused F11 BadCommand a.eo:1:0\n",
        ),
    ];
    assert_none(&rt, wrong(rt.alloc(), ROWS));
}

/// Whether a signature of so many `(` is refused with this line.
fn opens_print(alloc: Global, count: u32, line: &[u8]) -> Result<bool, AllocError> {
    let text = long_text(alloc, &("", count, "(", ""))?;
    gives(alloc, text.as_bytes(), Status::Refused, line)
}

#[test]
fn lists_that_are_nested_too_deep(rt: HostRuntime) {
    let unclosed = opens_print(rt.alloc(), 100_000, b"refused F02 Unclosed a.eo:1:100000\n");
    assert_right(&rt, unclosed);
    let too_deep = opens_print(rt.alloc(), 100_001, b"refused F07 Nesting a.eo:1:100000\n");
    assert_right(&rt, too_deep);
}

/// Files `n0.eo` to `n17.eo` of which each includes the next.
#[test]
fn files_are_included_sixteen_deep(rt: HostRuntime) {
    let first: File<'_> = (b"n0.eo", b"(include \"n1.eo\")\n");
    let want = Want::Prints(b"refused F34 IncludeDepth n16.eo:1:0\n");
    let job: Job<'_> = ("ethos load n0.eo", first, &[]);
    assert_right(&rt, does_over_chain(rt.alloc(), &job, 18, 65_536, 0, &want));
}
