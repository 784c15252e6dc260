//! Proofs in which a name has several constants.
use super::{assert_none, does};
use eo_base::Status;
use std::alloc::{AllocError, Global};
use test_runs::{Want, first_wrong, join_texts};

const ASSERTED: &[u8] = b"(declare-const p Bool)
(declare-const q Bool)
(declare-const r Bool)
(assert p)
";

/// Subtraction and the negative, on the lines 1 to 7.
const MINUS: &[u8] = b"(declare-const Int Type)
(declare-consts <numeral> Int)
(declare-const and (-> Bool Bool Bool) :right-assoc-nil true)
(declare-parameterized-const = ((T Type :implicit)) (-> T T Bool) :chainable and)
(declare-rule refl ((T Type) (t T)) :args (t) :conclusion (= t t))
(declare-const - (-> Int Int Int) :left-assoc)
(declare-const - (-> Int Int))
";

/// Commands, and the line that is printed of them after `MINUS`.
type Row<'a> = (&'a [u8], &'a [u8]);

fn is_right(alloc: Global, row: Row<'_>) -> Result<bool, AllocError> {
    let (commands, line) = row;
    let proof = join_texts(alloc, MINUS, commands)?;
    does(alloc, ASSERTED, &proof, &Want::Ends(Status::Refused, line))
}

#[test]
fn minus_has_two_constants(rt: HostRuntime) {
    const ROWS: &[Row<'static>] = &[
        (
            b"(step @s (= (eo::typeof (- 5)) Int) :rule refl :args (Int))\n",
            b"refused F41 NoRefutation p.eo:9:405\n",
        ),
        (
            b"(step @s (= (eo::typeof (_ - 5)) (-> Int Int)) :rule refl :args ((-> Int Int)))\n",
            b"refused F41 NoRefutation p.eo:9:425\n",
        ),
        (
            b"(step @s (= (- 5 2 1) (- (- 5 2) 1)) :rule refl :args ((- (- 5 2) 1)))\n",
            b"refused F41 NoRefutation p.eo:9:416\n",
        ),
        (
            b"(step @s (= (_ - 5) (- 5)) :rule refl :args ((- 5)))\n",
            b"refused F26 ConclusionDiffers p.eo:8:345\n",
        ),
        (
            b"(declare-const - (-> Int Bool))\n",
            b"refused F12 Redeclared p.eo:8:345\n",
        ),
        (b"(define - () p)\n", b"refused F12 Redeclared p.eo:8:345\n"),
        (
            b"(program - ((x Int)) :signature (Int) Int (((- x) x)))\n",
            b"refused F12 Redeclared p.eo:8:345\n",
        ),
        (
            b"(declare-const - Int)\n(step @s (= (eo::typeof -) (-> Int Int Int)) :rule refl :args ((-> Int Int Int)))\n",
            b"refused F41 NoRefutation p.eo:10:449\n",
        ),
        (
            b"(declare-parameterized-const - ((x Int)) Int)\n",
            b"refused F12 Redeclared p.eo:8:345\n",
        ),
        (
            b"(declare-parameterized-const - ((x Int)) (-> Int Int Int))\n",
            b"refused F12 Redeclared p.eo:8:345\n",
        ),
    ];
    assert_none(&rt, first_wrong(rt.alloc(), ROWS, is_right));
}

/// A problem with `-` in both uses.
const PROBLEM: &[u8] = b"(declare-sort Int 0)
(declare-const x Int)
(declare-fun - (Int Int) Int)
(declare-fun - (Int) Int)
(declare-fun = (Int Int) Bool)
(assert (= (- (- x) x) x))
";

/// A reference file, a proof, and the line that is printed.
type FileRow<'a> = (&'a [u8], &'a [u8], &'a [u8]);

fn is_right_of(alloc: Global, row: FileRow<'_>) -> Result<bool, AllocError> {
    let (reference, proof, line) = row;
    does(alloc, reference, proof, &Want::Ends(Status::Refused, line))
}

#[test]
fn names_that_have_several_constants(rt: HostRuntime) {
    const ROWS: &[FileRow<'static>] = &[
        (
            ASSERTED,
            b"(declare-const f Bool)\n(declare-const f (-> Bool Bool))\n(assume @a (f f))\n",
            b"refused F28 NotAsserted p.eo:3:56\n",
        ),
        (
            ASSERTED,
            b"(declare-const f Bool)\n(declare-const f (-> Bool Bool))\n(assume @a (f p q))\n",
            b"refused F15 IllTyped p.eo:3:56\n",
        ),
        (
            ASSERTED,
            b"(declare-const p zz)\n",
            b"refused F13 UnknownSymbol p.eo:1:0\n",
        ),
        (
            ASSERTED,
            b"(declare-const p Int)\n",
            b"refused F13 UnknownSymbol p.eo:1:0\n",
        ),
        (
            ASSERTED,
            b"(declare-const Int Type)\n(declare-const p Int)\n",
            b"refused F12 Redeclared p.eo:2:25\n",
        ),
        (
            ASSERTED,
            b"(define m () p)\n(declare-const m zz)\n",
            b"refused F12 Redeclared p.eo:2:16\n",
        ),
        (
            ASSERTED,
            b"(declare-const true zz)\n",
            b"refused F12 Redeclared p.eo:1:0\n",
        ),
        (
            ASSERTED,
            b"(declare-const p (-> Bool Bool))\n(declare-const p Bool)\n(assume @a p)\n",
            b"refused F41 NoRefutation p.eo:4:70\n",
        ),
        (
            b"(declare-const p (-> Bool Bool))\n(declare-const p Bool)\n(assert true)\n",
            b"(declare-const p Bool)\n(declare-const p (-> Bool Bool))\n(assume @a (p p))\n",
            b"refused F15 IllTyped p.eo:3:56\n",
        ),
        (
            ASSERTED,
            b"(declare-const p (-> Bool Bool))\n(define p () zz)\n",
            b"refused F13 UnknownSymbol p.eo:2:33\n",
        ),
        (
            b"(declare-const f Bool)\n(assert true)\n",
            b"(declare-const f (-> Bool Bool))\n(define f () true)\n",
            b"refused F12 Redeclared p.eo:2:33\n",
        ),
        (
            ASSERTED,
            b"(declare-const o (-> Bool Bool Bool) :right-assoc-nil false)\n(declare-const o Bool)\n(assume @a (o p))\n",
            b"refused F28 NotAsserted p.eo:3:84\n",
        ),
        (
            ASSERTED,
            b"(declare-const o (-> Bool Bool Bool) :right-assoc-nil false)\n(declare-const o (-> Bool Bool))\n",
            b"refused F12 Redeclared p.eo:2:61\n",
        ),
        (
            ASSERTED,
            b"(declare-const o (-> Bool Bool Bool))\n(declare-const o (-> Bool Bool Bool) :left-assoc)\n",
            b"refused F12 Redeclared p.eo:2:38\n",
        ),
        (
            ASSERTED,
            b"(declare-const o Bool)\n(declare-const o Bool :right-assoc-nil (eo::not true))\n",
            b"refused F22 BadPattern p.eo:2:23\n",
        ),
        (
            ASSERTED,
            b"(declare-const f Bool)\n(declare-const f (-> Bool Bool))\n(assume @a (let ((f q)) (f p)))\n",
            b"refused F15 IllTyped p.eo:3:56\n",
        ),
        // both uses of `-` of SMT-LIB in a problem, and a repeat of the second
        (
            PROBLEM,
            b"(declare-fun - (Int) Int)\n(assume @a (= (- (- x) x) x))\n",
            b"refused F41 NoRefutation p.eo:3:56\n",
        ),
    ];
    assert_none(&rt, first_wrong(rt.alloc(), ROWS, is_right_of));
}
