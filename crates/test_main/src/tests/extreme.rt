//! Files at the limits, and one beyond them.
use super::{assert_none, assert_right};
use eo_cpc::suite;
use std::alloc::{AllocError, Global};
use test_runs::{File, Job, Long, Want, does, first_wrong, join_texts, long_text};

/// A file, and the line that is printed.
type Row<'a> = (Long<'a>, &'a [u8]);

/// Whether `load` of the file gives its line.
fn is_right_load(alloc: Global, row: Row<'_>) -> Result<bool, AllocError> {
    let (long, line) = row;
    let text = long_text(alloc, &long)?;
    let job: Job<'_> = ("ethos load a.eo", (b"a.eo", text.as_bytes()), &[]);
    does(alloc, &job, 65_536, 0, &Want::Prints(line))
}

/// Whether the file as a proof gives its line after the suite, where `p`, `q` and `r` are formulas.
fn is_right_check(alloc: Global, row: Row<'_>) -> Result<bool, AllocError> {
    let (long, line) = row;
    let text = long_text(alloc, &long)?;
    check_prints(alloc, text.as_bytes(), line)
}

fn check_prints(alloc: Global, proof: &[u8], line: &[u8]) -> Result<bool, AllocError> {
    let others: [File<'_>; 2] = [
        (b"cpc.eo", suite()),
        (
            b"r.smt2",
            b"(declare-const p Bool)\n(declare-const q Bool)\n(declare-const r Bool)\n(assert p)\n",
        ),
    ];
    let words = "ethos check --include=cpc.eo --reference=r.smt2 p.eo";
    let job: Job<'_> = (words, (b"p.eo", proof), &others);
    does(alloc, &job, 65_536, 0, &Want::Prints(line))
}

fn wrong_load(alloc: Global, rows: &[Row<'_>]) -> Option<usize> {
    first_wrong(alloc, rows, is_right_load)
}

fn wrong_check(alloc: Global, rows: &[Row<'_>]) -> Option<usize> {
    first_wrong(alloc, rows, is_right_check)
}

#[test]
fn lists_of_many_parts(rt: HostRuntime) {
    const ROWS: &[Row<'static>] = &[
        (
            ("(", 65_536, "a ", ")\n"),
            b"refused F10 UnknownCommand a.eo:1:0\n",
        ),
        (
            ("(", 65_537, "a ", ")\n"),
            b"refused F08 Width a.eo:1:131073\n",
        ),
    ];
    assert_none(&rt, wrong_load(rt.alloc(), ROWS));
}

#[test]
fn long_words(rt: HostRuntime) {
    const ROWS: &[Row<'static>] = &[
        (
            ("", 1_048_576, "a", ""),
            b"refused F11 BadCommand a.eo:1:0\n",
        ),
        (
            ("", 1_048_577, "a", ""),
            b"refused F05 TokenLong a.eo:1:1048576\n",
        ),
    ];
    assert_none(&rt, wrong_load(rt.alloc(), ROWS));
}

#[test]
fn a_long_command(rt: HostRuntime) {
    const ROWS: &[Row<'static>] = &[(
        ("(", 16_777_216, " ", ""),
        b"refused F06 CommandLong a.eo:1:16777216\n",
    )];
    assert_none(&rt, wrong_load(rt.alloc(), ROWS));
}

// One scope in another.
#[test]
fn a_thousand_scopes(rt: HostRuntime) {
    const SCOPE: &str = "(assume-push @a^ p)\n";
    const ROWS: &[Row<'static>] = &[
        (
            ("", 1_000, SCOPE, ""),
            b"refused F40 ScopeOpen p.eo:1001:21893\n",
        ),
        (
            ("", 1_001, SCOPE, ""),
            b"refused F33 ScopeDepth p.eo:1001:21893\n",
        ),
    ];
    assert_none(&rt, wrong_check(rt.alloc(), ROWS));
}

// A conjunction of as many formulas as a list has room for, and its proof of being itself.
#[test]
fn long_conjunctions(rt: HostRuntime) {
    const FIRST: &str = "(define m () (and";
    const PROVED: &str = "))\n(step @s (= m m) :rule refl :args (m))\n";
    const ROWS: &[Row<'static>] = &[
        (
            (FIRST, 65_535, " p", PROVED),
            b"refused F41 NoRefutation p.eo:3:131129\n",
        ),
        (
            (FIRST, 65_536, " p", PROVED),
            b"refused F08 Width p.eo:1:131088\n",
        ),
    ];
    assert_none(&rt, wrong_check(rt.alloc(), ROWS));
}

/// Macros of a negation, of ten, of a hundred, and so on to 100,000, on the lines 1 to 6, in 406
/// bytes.
const NEGATIONS: &str = "(define d0 ((x Bool)) (not x))\n\
(define d1 ((x Bool)) (d0 (d0 (d0 (d0 (d0 (d0 (d0 (d0 (d0 (d0 x)))))))))))\n\
(define d2 ((x Bool)) (d1 (d1 (d1 (d1 (d1 (d1 (d1 (d1 (d1 (d1 x)))))))))))\n\
(define d3 ((x Bool)) (d2 (d2 (d2 (d2 (d2 (d2 (d2 (d2 (d2 (d2 x)))))))))))\n\
(define d4 ((x Bool)) (d3 (d3 (d3 (d3 (d3 (d3 (d3 (d3 (d3 (d3 x)))))))))))\n\
(define d5 ((x Bool)) (d4 (d4 (d4 (d4 (d4 (d4 (d4 (d4 (d4 (d4 x)))))))))))\n";

/// Nine of each of these on `p`, which are 999,999 negations.
const TALLEST: &str = "(d5 (d5 (d5 (d5 (d5 (d5 (d5 (d5 (d5 \
(d4 (d4 (d4 (d4 (d4 (d4 (d4 (d4 (d4 (d3 (d3 (d3 (d3 (d3 (d3 (d3 (d3 (d3 \
(d2 (d2 (d2 (d2 (d2 (d2 (d2 (d2 (d2 (d1 (d1 (d1 (d1 (d1 (d1 (d1 (d1 (d1 \
(d0 (d0 (d0 (d0 (d0 (d0 (d0 (d0 (d0 p))))))))))))))))))))))))))))))))))))))))))))))))))))))";

/// Whether a macro of that term, or of its negation, gives this line.
fn is_right_tall(alloc: Global, begin: &str, end: &str, line: &[u8]) -> Result<bool, AllocError> {
    let first = long_text(alloc, &(NEGATIONS, 1, begin, TALLEST))?;
    let proof = join_texts(alloc, first.as_bytes(), end.as_bytes())?;
    check_prints(alloc, &proof, line)
}

#[test]
fn a_million_negations(rt: HostRuntime) {
    let tallest = b"refused F41 NoRefutation p.eo:8:692\n";
    assert_right(
        &rt,
        is_right_tall(rt.alloc(), "(define h () ", ")\n", tallest),
    );
    let taller = b"refused F18 TermHeight p.eo:7:406\n";
    assert_right(
        &rt,
        is_right_tall(rt.alloc(), "(define h () (not ", "))\n", taller),
    );
}

/// Whether a macro of so many negations, each a list in a list, gives this line.
fn is_right_nested(alloc: Global, count: u32, line: &[u8]) -> Result<bool, AllocError> {
    let first = long_text(alloc, &("(define z () ", count, "(not ", "p"))?;
    let end = long_text(alloc, &("", count, ")", ")\n"))?;
    let proof = join_texts(alloc, first.as_bytes(), end.as_bytes())?;
    check_prints(alloc, &proof, line)
}

#[test]
fn negations_in_negations(rt: HostRuntime) {
    let deepest = b"refused F41 NoRefutation p.eo:2:600010\n";
    assert_right(&rt, is_right_nested(rt.alloc(), 99_999, deepest));
    let deeper = b"refused F07 Nesting p.eo:1:500008\n";
    assert_right(&rt, is_right_nested(rt.alloc(), 100_000, deeper));
}

// Macros of which each is the conjunction of the one before it with itself.
#[test]
fn conjunctions_that_double(rt: HostRuntime) {
    const DOUBLE: &str = "(define u^ ((x Bool)) (and (u~ x) (u~ x)))\n";
    const ROWS: &[Row<'static>] = &[(
        (
            "(define u0 ((x Bool)) x)\n",
            64,
            DOUBLE,
            "(define v () (u64 p))\n",
        ),
        b"refused F41 NoRefutation p.eo:67:2962\n",
    )];
    assert_none(&rt, wrong_check(rt.alloc(), ROWS));
}

// A macro of many parameters.
#[test]
fn sixty_four_parameters(rt: HostRuntime) {
    const ROWS: &[Row<'static>] = &[
        (
            ("(define many (", 64, "(x~ Bool)", ") true)\n"),
            b"refused F41 NoRefutation p.eo:2:652\n",
        ),
        (
            ("(define many (", 65, "(x~ Bool)", ") true)\n"),
            b"refused F39 Parameters p.eo:1:0\n",
        ),
    ];
    assert_none(&rt, wrong_check(rt.alloc(), ROWS));
}
