//! Proofs that are long, or whose terms are small only because their parts are shared: as trees they
//! have more than 2^60 parts. Each is returned at once, accepted, and refutes nothing.
use super::{assert_none, refuses};
use std::alloc::{AllocError, Global};
use test_runs::{Long, first_wrong, long_text};

/// A proof, and the line that is printed.
type Row<'a> = (Long<'a>, &'a [u8]);

fn is_right(alloc: Global, row: Row<'_>) -> Result<bool, AllocError> {
    let (long, line) = row;
    let proof = long_text(alloc, &long)?;
    refuses(alloc, proof.as_bytes(), line)
}

fn wrong(alloc: Global, rows: &[Row<'_>]) -> Option<usize> {
    first_wrong(alloc, rows, is_right)
}

#[test]
fn shared_terms_are_answered_at_once(rt: HostRuntime) {
    const ROWS: &[Row<'static>] = &[
        // a constant of a function type `t60`, each from the one before it to itself
        (
            (
                "(declare-const t0 Type)\n",
                60,
                "(define t^ () (-> t~ t~))\n",
                "(declare-const c t60)\n",
            ),
            b"refused F41 NoRefutation p.eo:63:1757\n",
        ),
        // a macro of a term by macros that apply `f` to the one before them twice
        (
            (
                "(declare-const f (-> Bool Bool Bool))\n(define u0 ((x Bool)) x)\n",
                60,
                "(define u^ ((x Bool)) (f (u~ x) (u~ x)))\n",
                "(declare-const p Bool)\n(define v () (u60 p))\n",
            ),
            b"refused F41 NoRefutation p.eo:65:2719\n",
        ),
        // a parameter of a type by macros of function types from the one before them to itself
        (
            (
                "(declare-const t Type)\n(define w0 ((x Type)) x)\n",
                60,
                "(define w^ ((x Type)) (-> (w~ x) (w~ x)))\n",
                "(declare-parameterized-const k ((y (w60 t))) Bool)\n",
            ),
            b"refused F41 NoRefutation p.eo:64:2770\n",
        ),
        // literals of such a type
        (
            (
                "(declare-const t Type)\n(define w0 ((x Type)) x)\n",
                60,
                "(define w^ ((x Type)) (-> (w~ x) (w~ x)))\n",
                "(declare-consts <numeral> (w60 t))\n",
            ),
            b"refused F41 NoRefutation p.eo:64:2754\n",
        ),
        // a formula by macros of which each is the operator `eo::and` on the one before it, twice
        (
            (
                "(define t0 () (eo::is_ok true))\n",
                60,
                "(define t^ () (eo::and t~ t~))\n",
                "(assume @a t60)\n",
            ),
            b"refused F41 NoRefutation p.eo:63:2059\n",
        ),
    ];
    assert_none(&rt, wrong(rt.alloc(), ROWS));
}

// Macros for bit strings of which a hash by multiplication, with a seed that is known, makes one
// number: their upper half is its factor, so that the lower half counts for nothing.
#[test]
fn numbers_of_one_family_are_answered_at_once(rt: HostRuntime) {
    const ROWS: &[Row<'static>] = &[(
        ("", 20_000, "(define n~ () #x9e3779b97f4a7c15%)\n", ""),
        b"refused F41 NoRefutation p.eo:20001:1068890\n",
    )];
    assert_none(&rt, wrong(rt.alloc(), ROWS));
}

// A program of one line, with a number in each of its cases.
#[test]
fn a_long_program_is_answered_at_once(rt: HostRuntime) {
    const ROWS: &[Row<'static>] = &[(
        (
            "(program $u ((x Bool)) :signature (Bool Bool) Bool (",
            10_000,
            "(($u ~ x) ($u x ~))",
            "))",
        ),
        b"refused F41 NoRefutation p.eo:1:247834\n",
    )];
    assert_none(&rt, wrong(rt.alloc(), ROWS));
}
