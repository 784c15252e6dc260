//! The values of terms: formulas and declared types that are evaluated.
use super::{
    ASSERTS_FALSE, CORRECT, Refusal, assert_none, assert_right, is_right, refuses, wrong_refusal,
};
use eo_base::Status;
use std::alloc::{AllocError, Global};
use test_runs::{first_wrong, join_texts};

#[test]
fn formulas_are_evaluated(rt: HostRuntime) {
    const ROWS: &[Refusal<'static>] = &[
        (
            b"(assume a (eo::not false))",
            b"refused F41 NoRefutation p.eo:1:26\n",
        ),
        (
            b"(assume a (eo::not true))",
            b"refused F28 NotAsserted p.eo:1:0\n",
        ),
        (
            b"(assume a (eo::ite true true (eo::zdiv 1 0)))",
            b"refused F41 NoRefutation p.eo:1:45\n",
        ),
        (
            b"(assume a (eo::zdiv 1 0))",
            b"refused F16 Stuck p.eo:1:0\n",
        ),
        (
            b"(assume a (eo::add 1 1))",
            b"refused F15 IllTyped p.eo:1:0\n",
        ),
        (
            b"(assume a (eo::typeof true))",
            b"refused F27 NotBool p.eo:1:0\n",
        ),
        (
            b"(assume a (eo::is_ok (eo::add 170141183460469231731687303715884105727 1)))",
            b"refused F17 NumberRange p.eo:1:0\n",
        ),
        (
            b"(program $f ((x Bool)) :signature (Bool) Bool ((($f x) true) (($f true) false)))(assume a ($f true))",
            b"refused F41 NoRefutation p.eo:1:100\n",
        ),
        (
            b"(program $g ((x Bool)) :signature (Bool) Bool ((($g false) true)))(assume a ($g true))",
            b"refused F16 Stuck p.eo:1:66\n",
        ),
        (
            b"(program $h ((x Bool)) :signature (Bool) Bool ((($h x) ($h x))))(assume a ($h true))",
            b"refused F19 EvalDepth p.eo:1:64\n",
        ),
        (
            b"(program $a ((x Bool)) :signature (Bool) Bool ((($a x) ($b x))))",
            b"refused F13 UnknownSymbol p.eo:1:0\n",
        ),
        (
            b"(define m ((x Bool)) (eo::not x))(assume a (m false))",
            b"refused F41 NoRefutation p.eo:1:53\n",
        ),
    ];
    assert_none(&rt, wrong_refusal(rt.alloc(), ROWS));
}

#[test]
fn a_test_of_a_stuck_term_is_a_fact(rt: HostRuntime) {
    const PROOF: &[u8] =
        b"(program $g ((x Bool)) :signature (Bool) Bool ((($g false) true)))(assume @p1 (eo::is_ok ($g true)))";
    let row = (ASSERTS_FALSE, PROOF, CORRECT, Status::Ok);
    assert_right(&rt, is_right(rt.alloc(), row));
}

#[test]
fn declared_types_are_evaluated(rt: HostRuntime) {
    const ROWS: &[Refusal<'static>] = &[
        (
            b"(declare-const c (eo::ite (eo::is_eq Type Type) Bool Type))(assume a c)",
            b"refused F28 NotAsserted p.eo:1:59\n",
        ),
        (
            b"(declare-const c (eo::ite (eo::is_eq Type Bool) Bool Type))(assume a c)",
            b"refused F27 NotBool p.eo:1:59\n",
        ),
        (
            b"(declare-fun f ((eo::ite true Bool Type)) Bool)(assume a (f true))",
            b"refused F28 NotAsserted p.eo:1:47\n",
        ),
        (
            b"(declare-const c (eo::ite true Bool (eo::zdiv 1 0)))(assume a c)",
            b"refused F28 NotAsserted p.eo:1:52\n",
        ),
        (
            b"(declare-const c (eo::ite Bool Bool Bool))",
            b"refused F16 Stuck p.eo:1:0\n",
        ),
        (
            b"(declare-const c (eo::requires true false Bool))",
            b"refused F16 Stuck p.eo:1:0\n",
        ),
        (
            b"(declare-fun f ((eo::zdiv 1 0)) Bool)",
            b"refused F16 Stuck p.eo:1:0\n",
        ),
        (
            b"(declare-const c (eo::add 170141183460469231731687303715884105727 1))",
            b"refused F17 NumberRange p.eo:1:0\n",
        ),
        (
            b"(declare-const c (eo::not true))",
            b"refused F15 IllTyped p.eo:1:0\n",
        ),
        (
            b"(declare-const c (eo::ite (eo::is_ok true) Bool Type))",
            b"refused F22 BadPattern p.eo:1:0\n",
        ),
    ];
    assert_none(&rt, wrong_refusal(rt.alloc(), ROWS));
}

/// Programs that go down from a number, on the lines 1 to 7, in 464 bytes.
const COUNTDOWNS: &[u8] = b"(declare-const Int Type)
(declare-consts <numeral> Int)
(program $e ((n Int)) :signature (Int) Bool ((($e 0) true) (($e n) ($e (eo::add n -1)))))
(program $k ((n Int)) :signature (Int) Bool ((($k n) ($e n))))
(program $d ((n Int)) :signature (Int) Bool ((($d 0) true) (($d n) (eo::and ($d (eo::add n -1)) ($d (eo::add n -1))))))
(declare-const f (-> Bool Bool))
(program $t ((n Int)) :signature (Int) Bool ((($t 0) true) (($t n) (f (f (f ($t (eo::add n -1))))))))
";

/// Whether a command on line 8, after these programs, gives this line.
fn is_right_behind(alloc: Global, row: Refusal<'_>) -> Result<bool, AllocError> {
    let (command, line) = row;
    let proof = join_texts(alloc, COUNTDOWNS, command)?;
    refuses(alloc, &proof, line)
}

fn wrong_over_countdowns(alloc: Global, rows: &[Refusal<'_>]) -> Option<usize> {
    first_wrong(alloc, rows, is_right_behind)
}

#[test]
fn calls_have_a_greatest_depth(rt: HostRuntime) {
    const ROWS: &[Refusal<'static>] = &[
        (
            b"(assume @a (eo::and ($e 999999) ($k 999998)))",
            b"refused F41 NoRefutation p.eo:8:509\n",
        ),
        (
            b"(assume @a (eo::and ($e 999999) ($k 999999)))",
            b"refused F19 EvalDepth p.eo:8:464\n",
        ),
        (
            b"(assume @a ($e 999999))",
            b"refused F41 NoRefutation p.eo:8:487\n",
        ),
        (
            b"(assume @a ($e 1000000))",
            b"refused F19 EvalDepth p.eo:8:464\n",
        ),
        (
            b"(assume @a ($d 60))",
            b"refused F41 NoRefutation p.eo:8:483\n",
        ),
        (
            b"(assume @a ($t 300))",
            b"refused F28 NotAsserted p.eo:8:464\n",
        ),
        (
            b"(assume @a ($t 400000))",
            b"refused F18 TermHeight p.eo:8:464\n",
        ),
        (b"(assume @a ($e false))", b"refused F16 Stuck p.eo:8:464\n"),
    ];
    assert_none(&rt, wrong_over_countdowns(rt.alloc(), ROWS));
}

/// Programs of which `$w` on a number begins twice as many different calls, on the lines 1 to 4, in
/// 312 bytes.
const HALVES: &[u8] = b"(declare-const Int Type)
(declare-consts <numeral> Int)
(program $c ((a Int) (b Int)) :signature (Int Int) Bool ((($c a b) (eo::ite (eo::is_eq (eo::add a 1) b) true (eo::and ($c a (eo::zdiv (eo::add a b) 2)) ($c (eo::zdiv (eo::add a b) 2) b))))))
(program $w ((a Int)) :signature (Int) Bool ((($w a) ($c 0 a))))
";

fn is_right_behind_halves(alloc: Global, row: Refusal<'_>) -> Result<bool, AllocError> {
    let (command, line) = row;
    let proof = join_texts(alloc, HALVES, command)?;
    refuses(alloc, &proof, line)
}

#[test]
fn different_calls_have_a_greatest_number(rt: HostRuntime) {
    const ROWS: &[Refusal<'static>] = &[
        (
            b"(assume @a ($w 1000000))",
            b"refused F41 NoRefutation p.eo:5:336\n",
        ),
        (
            b"(assume @a (eo::and ($w 1000000) ($c 0 1)))",
            b"refused F41 NoRefutation p.eo:5:355\n",
        ),
        (
            b"(assume @a (eo::and ($w 1000000) ($w 1)))",
            b"refused F20 EvalCalls p.eo:5:312\n",
        ),
    ];
    assert_none(&rt, first_wrong(rt.alloc(), ROWS, is_right_behind_halves));
}
