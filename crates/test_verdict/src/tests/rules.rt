//! Rules and steps, after the suite's signature.
use super::suite::{ACCEPTED, OPEN, Row, begins, other_start};
use super::{ASSERTS_FALSE, CORRECT, assert_none, assert_right, wrong};
use eo_base::Status;

#[test]
fn the_suite_is_accepted(rt: HostRuntime) {
    assert_right(&rt, begins(rt.alloc(), (b"", ACCEPTED)));
}

#[test]
fn a_rule_that_is_marked_as_unproved(rt: HostRuntime) {
    const ROWS: &[super::Row<'static>] = &[
        (
            ASSERTS_FALSE,
            b"(declare-rule trust ((F Bool)) :args (F) :conclusion F :sorry)(assume @p1 false)",
            b"correct\n",
            Status::Ok,
        ),
        (
            ASSERTS_FALSE,
            b"(declare-rule trust ((F Bool)) :args (F) :conclusion F :sorry)
              (step @p1 :rule trust :args (false))",
            b"incomplete\n",
            Status::Incomplete,
        ),
        (
            ASSERTS_FALSE,
            b"(declare-rule trust ((F Bool)) :args (F) :conclusion F :sorry)
              (step @p1 :rule trust :args (true))(assume @p2 false)",
            b"incomplete\n",
            Status::Incomplete,
        ),
        (
            ASSERTS_FALSE,
            b"(declare-rule trust ((F Bool)) :args (F) :conclusion F :sorry)
              (declare-rule bad () :conclusion false)(step @p1 false :rule bad)",
            b"correct\n",
            Status::Ok,
        ),
    ];
    assert_none(&rt, wrong(rt.alloc(), ROWS));
}

#[test]
fn terms_that_have_the_same_value(rt: HostRuntime) {
    const ROWS: &[Row<'static>] = &[
        (
            b"(define m ((xs Bool :list)) (or xs p))
              (step @s (= (or p) (_ (_ or p) false)) :rule refl :args ((or p)))",
            ACCEPTED,
        ),
        (
            b"(define m ((xs Bool :list)) (or xs p))
              (step @s (= (m (or q r)) (or q r p)) :rule refl :args ((or q r p)))",
            ACCEPTED,
        ),
        (
            b"(define k ((xs Bool :list)) (or p xs))
              (step @s (= (k (or q r)) (or p q r)) :rule refl :args ((or p q r)))",
            ACCEPTED,
        ),
        (
            b"(step @s (= (xor p q r) (xor (xor p q) r)) :rule refl :args ((xor (xor p q) r)))",
            ACCEPTED,
        ),
        (
            b"(step @s (= (=> p q r) (=> p (=> q r))) :rule refl :args ((=> p (=> q r))))",
            ACCEPTED,
        ),
        (
            b"(define m ((xs Bool :list)) (or xs p))(step @s :rule refl :args ((m q)))",
            b"refused F16 Stuck ",
        ),
        (
            b"(step @s (= (distinct p q r) (and (distinct p q) (distinct p r) (distinct q r))) :rule refl :args ((distinct p q r)))",
            ACCEPTED,
        ),
        (
            b"(step @s (= (= p q r) (and (= p q) (= q r))) :rule refl :args ((and (= p q) (= q r))))",
            ACCEPTED,
        ),
        (
            b"(step @s (= (forall ((x Int)) (= x x))
                (forall (@list (eo::var \"x\" Int)) (= (eo::var \"x\" Int) (eo::var \"x\" Int))))
                :rule refl :args ((forall ((x Int)) (= x x))))",
            ACCEPTED,
        ),
        (
            b"(step @s :rule refl :args ((= p)))",
            b"refused F14 BadArity ",
        ),
        (
            b"(step @s (= (eo::typeof (extract 7 4 #xA5)) (BitVec 4)) :rule refl :args ((BitVec 4)))",
            ACCEPTED,
        ),
        (
            b"(step @s (= (eo::typeof (extract 4 7 #xA5)) (BitVec -2)) :rule refl :args ((BitVec -2)))",
            ACCEPTED,
        ),
    ];
    assert_none(&rt, other_start(rt.alloc(), ROWS));
}

#[test]
fn values_of_arguments(rt: HostRuntime) {
    const ROWS: &[Row<'static>] = &[
        (
            b"(step @s :rule refl :args ((eo::add 170141183460469231731687303715884105727 1)))",
            b"refused F17 NumberRange ",
        ),
        (
            b"(step @s :rule refl :args ((eo::is_ok (eo::add 170141183460469231731687303715884105727 1))))",
            b"refused F17 NumberRange ",
        ),
        (
            b"(step @s :rule refl :args (#x000000000000000000000000000000000))",
            b"refused F04 BadLiteral ",
        ),
        (
            b"(program $f ((x Bool)) :signature (Bool) Bool ((($f x) true) (($f true) false)))
              (step @s (= ($f true) true) :rule refl :args (true))",
            ACCEPTED,
        ),
        (
            b"(program $g ((x Bool)) :signature (Bool) Bool ((($g false) true)))
              (step @s :rule refl :args (($g true)))",
            b"refused F16 Stuck ",
        ),
        (
            b"(program $g ((x Bool)) :signature (Bool) Bool ((($g false) true)))
              (step @s (= (eo::is_ok ($g true)) false) :rule refl :args (false))",
            ACCEPTED,
        ),
        (
            b"(program $h ((x Bool)) :signature (Bool) Bool ((($h x) ($h x))))
              (step @s :rule refl :args (($h true)))",
            b"refused F19 EvalDepth ",
        ),
        (
            b"(step @s (= 2 2) :rule refl :args ((eo::add 1 1)))",
            ACCEPTED,
        ),
    ];
    assert_none(&rt, other_start(rt.alloc(), ROWS));
}

#[test]
fn other_uses_of_the_suite(rt: HostRuntime) {
    const ROWS: &[Row<'static>] = &[
        (b"(step @s true :rule and_intro)", ACCEPTED),
        (
            b"(assume-push @a (= p q))(assume-push @b (= r q))
              (step @s (= p r) :rule trans :premises (@a @b))",
            b"refused F16 Stuck ",
        ),
        (
            b"(assume-push @a (not (= p q)))(step @s (not (= q p)) :rule symm :premises (@a))",
            OPEN,
        ),
        (
            b"(assume-push @a (or (not p) q))(assume-push @b p)
              (step @s q :rule resolution :premises (@a @b) :args (false p))",
            OPEN,
        ),
    ];
    assert_none(&rt, other_start(rt.alloc(), ROWS));
}

#[test]
fn steps_that_are_refused(rt: HostRuntime) {
    const ROWS: &[Row<'static>] = &[
        (b"(step @a :rule nope)", b"refused F23 UnknownRule "),
        (
            b"(step @a :rule contra :premises (@z @z))",
            b"refused F24 UnknownPremise ",
        ),
        (
            b"(step @a zz :rule contra :premises (@z @z))",
            b"refused F24 UnknownPremise ",
        ),
        (
            b"(step @a zz :rule refl :args (1.5))",
            b"refused F13 UnknownSymbol ",
        ),
        (
            b"(step @a p :rule refl :args (1.5))",
            b"refused F04 BadLiteral ",
        ),
        (
            b"(step @a p :rule split :args (p))",
            b"refused F26 ConclusionDiffers ",
        ),
        (
            b"(step @a :rule scope :premises ())",
            b"refused F36 WrongKind ",
        ),
        (
            b"(step @t true :rule and_intro)(step @t true :rule nope)",
            b"refused F12 Redeclared ",
        ),
        (
            b"(assume-push @a p)(step @s false :rule contra :premises (@a @a))",
            b"refused F25 PremiseMismatch ",
        ),
        (
            b"(assume-push @a p)(assume-push @b (not q))(step @s false :rule contra :premises (@a @b))",
            b"refused F25 PremiseMismatch ",
        ),
        (
            b"(assume-push @a p)(assume-push @b (not p))(step @s false :rule contra :premises (@b @a))",
            b"refused F25 PremiseMismatch ",
        ),
        (
            b"(declare-rule k ((x Bool)) :args (x) :conclusion true)(step @s :rule k :args (5))",
            b"refused F15 IllTyped ",
        ),
        (
            b"(declare-rule k ((x Int)) :args (x) :conclusion x)(step @s :rule k :args (5))",
            b"refused F27 NotBool ",
        ),
        (
            b"(declare-rule k ((x Int)) :args (x) :requires ((x 5)) :conclusion true)
              (step @s :rule k :args (4))",
            b"refused F16 Stuck ",
        ),
        (
            b"(declare-rule k ((x Int)) :args (x) :requires ((x 5)) :conclusion true)
              (step @s :rule k :args (5))",
            ACCEPTED,
        ),
        (
            b"(declare-rule refl ((x zz)) :args (x) :conclusion true)",
            b"refused F12 Redeclared ",
        ),
        (
            b"(declare-rule k ((x Bool)) :conclusion x)",
            b"refused F21 UnboundParam ",
        ),
        (
            b"(declare-rule k ((x Int)) :args ((eo::add x 1)) :conclusion x)",
            b"refused F22 BadPattern ",
        ),
        (
            b"(declare-rule k ((x Bool)) :premise-list x xor :conclusion x)",
            b"refused F22 BadPattern ",
        ),
        (
            b"(declare-rule k ((x Bool)) :args (x) :premises () :conclusion x)",
            b"refused F11 BadCommand ",
        ),
    ];
    assert_none(&rt, other_start(rt.alloc(), ROWS));
}
