//! What a proof declares, and the terms over it.
use super::{Refusal, assert_none, refuses, wrong_refusal};
use std::alloc::{AllocError, Global};
use test_runs::{first_wrong, join_texts};

#[test]
fn declarations_that_are_accepted(rt: HostRuntime) {
    const ROWS: &[Refusal<'static>] = &[
        (
            b"(declare-fun f (Bool Bool) Bool)(assume a (f true false))",
            b"refused F28 NotAsserted p.eo:1:32\n",
        ),
        (
            b"(declare-fun f (Bool Bool) Bool)(assume a (f true))",
            b"refused F27 NotBool p.eo:1:32\n",
        ),
        (
            b"(declare-fun c () Bool)(assume a c)",
            b"refused F28 NotAsserted p.eo:1:23\n",
        ),
        (
            b"(declare-sort U 0)(declare-fun u () U)(assume a u)",
            b"refused F27 NotBool p.eo:1:38\n",
        ),
        (
            b"(declare-sort S 2)(declare-const s (S Bool Bool))(assume a s)",
            b"refused F27 NotBool p.eo:1:49\n",
        ),
        (
            b"(declare-sort S 1)(declare-const s (S true))",
            b"refused F15 IllTyped p.eo:1:18\n",
        ),
        (
            b"(declare-parameterized-const k ((x Bool)) Bool)(assume a (k true))",
            b"refused F28 NotAsserted p.eo:1:47\n",
        ),
        (
            b"(declare-parameterized-const k ((T Type :implicit)) (-> T Bool))(assume a (k k))",
            b"refused F15 IllTyped p.eo:1:64\n",
        ),
        (
            b"(declare-parameterized-const k ((T Type :implicit)) (-> T Bool))(assume a (k Bool))",
            b"refused F28 NotAsserted p.eo:1:64\n",
        ),
    ];
    assert_none(&rt, wrong_refusal(rt.alloc(), ROWS));
}

/// Bit strings and equality, on the lines 1 to 7, in 441 bytes.
const BIT_STRINGS: &[u8] = b"(declare-const Int Type)
(declare-consts <numeral> Int)
(declare-parameterized-const BitVec ((w Int)) Type)
(declare-consts <binary> (BitVec (eo::len eo::self)))
(declare-const and (-> Bool Bool Bool) :right-assoc-nil true)
(declare-parameterized-const = ((T Type :implicit)) (-> T T Bool) :chainable and)
(declare-parameterized-const extract ((n Int :implicit) (h Int) (l Int)) (-> (BitVec n) (BitVec (eo::add (eo::add h 1) (eo::neg l)))))
";

/// Whether a command on line 8, after bit strings and equality, gives this line.
fn is_right(alloc: Global, row: Refusal<'_>) -> Result<bool, AllocError> {
    let (command, line) = row;
    let proof = join_texts(alloc, BIT_STRINGS, command)?;
    refuses(alloc, &proof, line)
}

fn wrong_over_bit_strings(alloc: Global, rows: &[Refusal<'_>]) -> Option<usize> {
    first_wrong(alloc, rows, is_right)
}

#[test]
fn widths_of_bit_strings_are_compared(rt: HostRuntime) {
    const ROWS: &[Refusal<'static>] = &[
        (
            b"(assume @a (= (extract 7 4 #xA5) #x5))",
            b"refused F28 NotAsserted p.eo:8:441\n",
        ),
        (
            b"(assume @a (= (extract 7 4 #xA5) #xA5))",
            b"refused F15 IllTyped p.eo:8:441\n",
        ),
        (
            b"(assume @a (= (extract 7 0 #xA5) #xA5))",
            b"refused F28 NotAsserted p.eo:8:441\n",
        ),
        (
            b"(assume @a (extract 7 4 #xA5))",
            b"refused F27 NotBool p.eo:8:441\n",
        ),
    ];
    assert_none(&rt, wrong_over_bit_strings(rt.alloc(), ROWS));
}
