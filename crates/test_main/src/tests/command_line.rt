//! Words of the command line, over files in memory.
use super::{ASSUMES_FALSE, CORRECT, assert_none};
use eo_base::Status;
use std::alloc::{AllocError, Global};
use test_runs::{File, Job, Want, does_in_pieces, first_wrong};

const USAGE: &[u8] =
    b"usage: ethos check [--include=F] [--reference=F] [--closed] PROOF | ethos load FILE | ethos bench N | ethos show FILE NAME \
| ethos trim [--include=F] [--reference=F] [--closed] PROOF | ethos prove --reference=F PROOF\n";

/// The files that a line may name, but for `p.eo`, each with its path.
const FILES: &[File<'static>] = &[
    (b"r.smt2", b"(assert false)\n"),
    (b"c.eo", b"(declare-const p Bool)\n"),
    (b"-p.eo", b"(assume @p1 false)\n"),
    (b"empty.eo", b""),
    (
        b"bad.eo",
        b"(declare-rule bad () :args () :conclusion false)\n(step @p1 false :rule bad)\n",
    ),
];

// A function that calls this does not unfold the table in its proof.
fn files() -> &'static [File<'static>] {
    FILES
}

/// The words of a line, and the status and the line that are given.
type Row<'a> = (&'a str, Status, &'a [u8]);

/// Whether the words of a line give this line, whole and with reads of 1 and of 3 bytes.
fn gives(alloc: Global, words: &str, status: Status, line: &[u8]) -> Result<bool, AllocError> {
    let job: Job<'_> = (words, ASSUMES_FALSE, files());
    does_in_pieces(alloc, &job, &Want::Ends(status, line))
}

fn is_right(alloc: Global, row: Row<'_>) -> Result<bool, AllocError> {
    let (words, status, line) = row;
    gives(alloc, words, status, line)
}

fn wrong(alloc: Global, rows: &[Row<'_>]) -> Option<usize> {
    first_wrong(alloc, rows, is_right)
}

#[test]
fn words_that_are_read(rt: HostRuntime) {
    const ROWS: &[Row<'static>] = &[
        ("ethos check --reference=r.smt2 p.eo", Status::Ok, CORRECT),
        ("ethos check p.eo --reference=r.smt2", Status::Ok, CORRECT),
        ("ethos check --reference r.smt2 p.eo", Status::Ok, CORRECT),
        ("ethos check p.eo --reference r.smt2", Status::Ok, CORRECT),
        (
            "ethos check --include=c.eo --reference=r.smt2 p.eo",
            Status::Ok,
            CORRECT,
        ),
        (
            "ethos check --reference=r.smt2 p.eo --include c.eo",
            Status::Ok,
            CORRECT,
        ),
        (
            "ethos check --closed --reference=r.smt2 p.eo",
            Status::Ok,
            CORRECT,
        ),
        (
            "ethos check --reference=r.smt2 --closed -- p.eo",
            Status::Ok,
            CORRECT,
        ),
        (
            "ethos check --reference=./x/../r.smt2 -- -p.eo",
            Status::Ok,
            CORRECT,
        ),
        ("ethos check --reference=r.smt2 bad.eo", Status::Ok, CORRECT),
        (" check --reference=r.smt2 p.eo", Status::Ok, CORRECT),
        (
            "ethos check --reference=r.smt2 bad.eo --closed",
            Status::Refused,
            b"refused F38 ProofDeclares bad.eo:1:0\n",
        ),
        (
            "ethos check p.eo",
            Status::Refused,
            b"refused F29 NoReference p.eo:1:0\n",
        ),
        (
            "ethos check p.eo --",
            Status::Refused,
            b"refused F29 NoReference p.eo:1:0\n",
        ),
        (
            "ethos check c.eo",
            Status::Refused,
            b"refused F29 NoReference c.eo:2:23\n",
        ),
        (
            "ethos check empty.eo",
            Status::Refused,
            b"refused F29 NoReference empty.eo:1:0\n",
        ),
        (
            "ethos check --include= --reference=r.smt2 p.eo",
            Status::Refused,
            b"refused F09 BadPath :1:0\n",
        ),
        (
            "ethos check ",
            Status::Refused,
            b"refused F09 BadPath :1:0\n",
        ),
        (
            "ethos check --reference=p.eo p.eo",
            Status::Refused,
            b"refused F10 UnknownCommand p.eo:1:0\n",
        ),
        (
            "ethos check -",
            Status::Refused,
            b"refused F35 FileAbsent -:1:0\n",
        ),
        (
            "ethos load ",
            Status::Refused,
            b"refused F09 BadPath :1:0\n",
        ),
        ("ethos load c.eo", Status::Ok, b"loaded 1 commands\n"),
        (
            "ethos bench 1",
            Status::Ok,
            b"bench 1: correct, 15 commands, 36 terms\n",
        ),
        (
            "ethos bench 2",
            Status::Ok,
            b"bench 2: correct, 17 commands, 43 terms\n",
        ),
        (
            "ethos bench 10",
            Status::Ok,
            b"bench 10: correct, 33 commands, 99 terms\n",
        ),
        (
            "ethos show c.eo p",
            Status::Refused,
            b"refused F13 UnknownSymbol c.eo:2:23\n",
        ),
        (
            "ethos trim p.eo --reference r.smt2 --include=c.eo --closed",
            Status::Ok,
            b"(assume @p1 false)\n",
        ),
        (
            "ethos prove --reference=r.smt2 -- -p.eo",
            Status::Ok,
            b"valid\n",
        ),
        (
            "ethos bench -- 10",
            Status::Ok,
            b"bench 10: correct, 33 commands, 99 terms\n",
        ),
    ];
    assert_none(&rt, wrong(rt.alloc(), ROWS));
}

#[test]
fn a_bench_gives_the_same_line_each_time(rt: HostRuntime) {
    const ROW: Row<'static> = (
        "ethos bench 100",
        Status::Ok,
        b"bench 100: correct, 213 commands, 729 terms\n",
    );
    const ROWS: &[Row<'static>] = &[ROW, ROW];
    assert_none(&rt, wrong(rt.alloc(), ROWS));
}

fn is_usage(alloc: Global, words: &str) -> Result<bool, AllocError> {
    gives(alloc, words, Status::Usage, USAGE)
}

#[test]
fn words_that_are_not_read(rt: HostRuntime) {
    const LINES: &[&'static str] = &[
        "",
        "ethos",
        "ethos ",
        "ethos frob p.eo",
        "ethos Check p.eo",
        "ethos check",
        "ethos check p.eo p.eo",
        "ethos check p.eo -- p.eo",
        "ethos check --reference=r.smt2",
        "ethos check p.eo --reference",
        "ethos check --reference --closed p.eo",
        "ethos check --reference=r.smt2 --reference=r.smt2 p.eo",
        "ethos check --include=c.eo --include c.eo p.eo",
        "ethos check --closed --closed p.eo",
        "ethos check --closed=true p.eo",
        "ethos check --ref=r.smt2 p.eo",
        "ethos check -r r.smt2 p.eo",
        "ethos check -p.eo",
        "ethos --reference=r.smt2 check p.eo",
        "ethos load",
        "ethos load c.eo c.eo",
        "ethos load --closed c.eo",
        "ethos help",
        "ethos help check",
        "ethos --help",
        "ethos -h",
        "ethos check --help",
        "ethos check -h p.eo",
        "ethos load --help c.eo",
        "ethos --version",
        "ethos bench",
        "ethos bench ",
        "ethos bench 0",
        "ethos bench 00",
        "ethos bench 01",
        "ethos bench +1",
        "ethos bench -1",
        "ethos bench -- -1",
        "ethos bench 1.0",
        "ethos bench 1 2",
        "ethos bench 100001",
        "ethos bench 4294967297",
        "ethos bench 340282366920938463463374607431768211457",
        "ethos bench #x1",
        "ethos bench N",
        "ethos bench --closed 1",
        "ethos bench --help",
        "ethos show",
        "ethos show c.eo",
        "ethos show c.eo p q",
        "ethos show c.eo -p",
        "ethos show --closed c.eo p",
        "ethos show --help",
        "ethos trim",
        "ethos trim p.eo q.eo",
        "ethos trim --reference=r.smt2",
        "ethos trim --closed --closed p.eo",
        "ethos trim --help",
        "ethos prove",
        "ethos prove p.eo",
        "ethos prove --reference=r.smt2",
        "ethos prove --reference=r.smt2 --reference=r.smt2 p.eo",
        "ethos prove --include=c.eo --reference=r.smt2 p.eo",
        "ethos prove --closed --reference=r.smt2 p.eo",
        "ethos prove --help",
    ];
    assert_none(&rt, first_wrong(rt.alloc(), LINES, is_usage));
}
