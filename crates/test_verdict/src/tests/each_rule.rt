//! Each rule of the suite: used once as it is meant, and once in a way that is refused.
use super::assert_none;
use super::suite::{ACCEPTED, OPEN, Row, other_start};

const STUCK: &[u8] = b"refused F16 Stuck ";

const MISMATCH: &[u8] = b"refused F25 PremiseMismatch ";

const DIFFERS: &[u8] = b"refused F26 ConclusionDiffers ";

#[test]
fn rules_of_equality(rt: HostRuntime) {
    const ROWS: &[Row<'static>] = &[
        (b"(step @s (= p p) :rule refl :args (p))", ACCEPTED),
        (b"(step @s (= p q) :rule refl :args (p))", DIFFERS),
        (
            b"(assume-push @a (= p q))(step @s (= q p) :rule symm :premises (@a))",
            OPEN,
        ),
        (
            b"(assume-push @a (=> p q))(step @s :rule symm :premises (@a))",
            STUCK,
        ),
        (
            b"(assume-push @a (= p q))(assume-push @b (= q r))
              (step @s (= p r) :rule trans :premises (@a @b))",
            OPEN,
        ),
        (
            b"(assume-push @a (= p q))(assume-push @b (= p r))
              (step @s :rule trans :premises (@a @b))",
            STUCK,
        ),
        (
            b"(assume-push @a p)(assume-push @b (= p q))
              (step @s q :rule eq_resolve :premises (@a @b))",
            OPEN,
        ),
        (
            b"(assume-push @a p)(assume-push @b (= q p))
              (step @s :rule eq_resolve :premises (@a @b))",
            MISMATCH,
        ),
        (
            b"(assume-push @a (= p q))(step @s (or (not p) q) :rule equiv_elim1 :premises (@a))",
            OPEN,
        ),
        (
            b"(assume-push @a (= p q))(step @s (or p (not q)) :rule equiv_elim1 :premises (@a))",
            DIFFERS,
        ),
        (
            b"(assume-push @a (= p q))(step @s (or p (not q)) :rule equiv_elim2 :premises (@a))",
            OPEN,
        ),
        (
            b"(assume-push @a (= p q))(step @s (or (not p) q) :rule equiv_elim2 :premises (@a))",
            DIFFERS,
        ),
    ];
    assert_none(&rt, other_start(rt.alloc(), ROWS));
}

#[test]
fn rules_of_negation_and_implication(rt: HostRuntime) {
    const ROWS: &[Row<'static>] = &[
        (
            b"(assume-push @a (not (not p)))(step @s p :rule not_not_elim :premises (@a))",
            OPEN,
        ),
        (
            b"(assume-push @a (not p))(step @s :rule not_not_elim :premises (@a))",
            MISMATCH,
        ),
        (
            b"(assume-push @a p)(assume-push @b (not p))
              (step @s false :rule contra :premises (@a @b))",
            OPEN,
        ),
        (
            b"(assume-push @a p)(assume-push @b (not q))
              (step @s :rule contra :premises (@a @b))",
            MISMATCH,
        ),
        (
            b"(assume-push @a p)(assume-push @b (=> p q))
              (step @s q :rule modus_ponens :premises (@a @b))",
            OPEN,
        ),
        (
            b"(assume-push @a q)(assume-push @b (=> p q))
              (step @s :rule modus_ponens :premises (@a @b))",
            MISMATCH,
        ),
        (
            b"(assume-push @a (=> p q))(step @s (or (not p) q) :rule implies_elim :premises (@a))",
            OPEN,
        ),
        (
            b"(assume-push @a (= p q))(step @s :rule implies_elim :premises (@a))",
            MISMATCH,
        ),
        (
            b"(assume-push @a (not (=> p q)))(step @s p :rule not_implies_elim1 :premises (@a))",
            OPEN,
        ),
        (
            b"(assume-push @a (=> p q))(step @s :rule not_implies_elim1 :premises (@a))",
            MISMATCH,
        ),
        (
            b"(assume-push @a (not (=> p q)))
              (step @s (not q) :rule not_implies_elim2 :premises (@a))",
            OPEN,
        ),
        (
            b"(assume-push @a (not (=> p q)))(step @s q :rule not_implies_elim2 :premises (@a))",
            DIFFERS,
        ),
        (b"(step @s (or p (not p)) :rule split :args (p))", ACCEPTED),
        (b"(step @s (or p (not q)) :rule split :args (p))", DIFFERS),
        (
            b"(assume-push @a p)(step-pop @s (=> p p) :rule scope :premises (@a))",
            ACCEPTED,
        ),
        (
            b"(assume-push @a p)(step-pop @s (=> q p) :rule scope :premises (@a))",
            DIFFERS,
        ),
    ];
    assert_none(&rt, other_start(rt.alloc(), ROWS));
}

#[test]
fn rules_of_conjunction_and_disjunction(rt: HostRuntime) {
    const ROWS: &[Row<'static>] = &[
        (
            b"(assume-push @a (and p q))(step @s q :rule and_elim :premises (@a) :args (1))",
            OPEN,
        ),
        (
            b"(assume-push @a (and p q))(step @s :rule and_elim :premises (@a) :args (2))",
            STUCK,
        ),
        (
            b"(assume-push @a p)(assume-push @b q)
              (step @s (and p q) :rule and_intro :premises (@a @b))",
            OPEN,
        ),
        (
            b"(assume-push @a p)(assume-push @b q)
              (step @s (and p q) :rule and_intro :premises (@b @a))",
            DIFFERS,
        ),
        (
            b"(assume-push @a (not (or p q)))
              (step @s (not q) :rule not_or_elim :premises (@a) :args (1))",
            OPEN,
        ),
        (
            b"(assume-push @a (not (and p q)))
              (step @s :rule not_or_elim :premises (@a) :args (1))",
            STUCK,
        ),
        (
            b"(assume-push @a (not (and p q)))
              (step @s (or (not p) (not q)) :rule not_and :premises (@a))",
            OPEN,
        ),
        (
            b"(assume-push @a (not (or p q)))(step @s :rule not_and :premises (@a))",
            STUCK,
        ),
        (
            b"(step @s (or (not (and p q)) p) :rule cnf_and_pos :args ((and p q) 0))",
            ACCEPTED,
        ),
        (b"(step @s :rule cnf_and_pos :args ((and p q) 2))", STUCK),
        (
            b"(step @s (or (and p q) (not p) (not q)) :rule cnf_and_neg :args ((and p q)))",
            ACCEPTED,
        ),
        (b"(step @s :rule cnf_and_neg :args ((or p q)))", STUCK),
        (
            b"(step @s (or (not (or p q)) p q) :rule cnf_or_pos :args ((or p q)))",
            ACCEPTED,
        ),
        (b"(step @s :rule cnf_or_pos :args ((and p q)))", STUCK),
        (
            b"(step @s (or (or p q) (not p)) :rule cnf_or_neg :args ((or p q) 0))",
            ACCEPTED,
        ),
        (b"(step @s :rule cnf_or_neg :args ((or p q) 2))", STUCK),
        (
            b"(assume-push @a (or p q))(assume-push @b (not p))(assume-push @c (not q))
              (step @s false :rule chain_resolution :premises (@a @b @c) :args ((@list true true) (@list p q)))",
            OPEN,
        ),
        (
            b"(assume-push @a (or p q))(assume-push @b (not p))(assume-push @c (not q))
              (step @s :rule chain_resolution :premises (@a @b @c) :args ((@list true) (@list p q)))",
            STUCK,
        ),
    ];
    assert_none(&rt, other_start(rt.alloc(), ROWS));
}

#[test]
fn rules_of_resolution_and_exclusion(rt: HostRuntime) {
    const ROWS: &[Row<'static>] = &[
        (
            b"(assume-push @a (or p q))(assume-push @b (or (not p) r))
              (step @s (or q r) :rule resolution :premises (@a @b) :args (true p))",
            OPEN,
        ),
        (
            b"(assume-push @a (or p q))(assume-push @b (or (not p) r))
              (step @s (or q r) :rule resolution :premises (@a @b) :args (false p))",
            DIFFERS,
        ),
        (
            b"(assume-push @a (not (= p q)))(step @s (or p q) :rule not_equiv_elim1 :premises (@a))",
            OPEN,
        ),
        (
            b"(assume-push @a (= p q))(step @s :rule not_equiv_elim1 :premises (@a))",
            MISMATCH,
        ),
        (
            b"(assume-push @a (not (= p q)))
              (step @s (or (not p) (not q)) :rule not_equiv_elim2 :premises (@a))",
            OPEN,
        ),
        (
            b"(assume-push @a (not (= p q)))(step @s (or p q) :rule not_equiv_elim2 :premises (@a))",
            DIFFERS,
        ),
        (
            b"(assume-push @a (xor p q))(step @s (or p q) :rule xor_elim1 :premises (@a))",
            OPEN,
        ),
        (
            b"(assume-push @a (or p q))(step @s :rule xor_elim1 :premises (@a))",
            MISMATCH,
        ),
        (
            b"(assume-push @a (xor p q))
              (step @s (or (not p) (not q)) :rule xor_elim2 :premises (@a))",
            OPEN,
        ),
        (
            b"(assume-push @a (xor p q))(step @s (or p q) :rule xor_elim2 :premises (@a))",
            DIFFERS,
        ),
        (
            b"(assume-push @a (not (xor p q)))
              (step @s (or p (not q)) :rule not_xor_elim1 :premises (@a))",
            OPEN,
        ),
        (
            b"(assume-push @a (xor p q))(step @s :rule not_xor_elim1 :premises (@a))",
            MISMATCH,
        ),
        (
            b"(assume-push @a (not (xor p q)))
              (step @s (or (not p) q) :rule not_xor_elim2 :premises (@a))",
            OPEN,
        ),
        (
            b"(assume-push @a (not (xor p q)))
              (step @s (or p (not q)) :rule not_xor_elim2 :premises (@a))",
            DIFFERS,
        ),
        (
            b"(assume-push @a (ite p q r))(step @s (or (not p) q) :rule ite_elim1 :premises (@a))",
            OPEN,
        ),
        (
            b"(assume-push @a (ite p q r))(step @s (or (not p) r) :rule ite_elim1 :premises (@a))",
            DIFFERS,
        ),
        (
            b"(assume-push @a (ite p q r))(step @s (or p r) :rule ite_elim2 :premises (@a))",
            OPEN,
        ),
        (
            b"(assume-push @a (xor p q r))(step @s :rule ite_elim2 :premises (@a))",
            MISMATCH,
        ),
    ];
    assert_none(&rt, other_start(rt.alloc(), ROWS));
}

#[test]
fn rules_that_name_a_part_of_a_formula(rt: HostRuntime) {
    const ROWS: &[Row<'static>] = &[
        (
            b"(assume-push @a (not (ite p q r)))
              (step @s (or (not p) (not q)) :rule not_ite_elim1 :premises (@a))",
            OPEN,
        ),
        (
            b"(assume-push @a (ite p q r))(step @s :rule not_ite_elim1 :premises (@a))",
            MISMATCH,
        ),
        (
            b"(assume-push @a (not (ite p q r)))
              (step @s (or p (not r)) :rule not_ite_elim2 :premises (@a))",
            OPEN,
        ),
        (
            b"(assume-push @a (not (ite p q r)))
              (step @s (or p (not q)) :rule not_ite_elim2 :premises (@a))",
            DIFFERS,
        ),
        (
            b"(step @s (or (not (=> p q)) (not p) q) :rule cnf_implies_pos :args ((=> p q)))",
            ACCEPTED,
        ),
        (b"(step @s :rule cnf_implies_pos :args ((= p q)))", MISMATCH),
        (
            b"(step @s (or (=> p q) p) :rule cnf_implies_neg1 :args ((=> p q)))",
            ACCEPTED,
        ),
        (
            b"(step @s (or (=> p q) q) :rule cnf_implies_neg1 :args ((=> p q)))",
            DIFFERS,
        ),
        (
            b"(step @s (or (=> p q) (not q)) :rule cnf_implies_neg2 :args ((=> p q)))",
            ACCEPTED,
        ),
        (
            b"(step @s (or (=> p q) (not p)) :rule cnf_implies_neg2 :args ((=> p q)))",
            DIFFERS,
        ),
        (
            b"(step @s (or (not (= p q)) (not p) q) :rule cnf_equiv_pos1 :args ((= p q)))",
            ACCEPTED,
        ),
        (
            b"(step @s :rule cnf_equiv_pos1 :args ((xor p q)))",
            MISMATCH,
        ),
        (
            b"(step @s (or (not (= p q)) p (not q)) :rule cnf_equiv_pos2 :args ((= p q)))",
            ACCEPTED,
        ),
        (
            b"(step @s (or (not (= p q)) (not p) q) :rule cnf_equiv_pos2 :args ((= p q)))",
            DIFFERS,
        ),
        (
            b"(step @s (or (= p q) p q) :rule cnf_equiv_neg1 :args ((= p q)))",
            ACCEPTED,
        ),
        (
            b"(step @s (or (= p q) (not p) (not q)) :rule cnf_equiv_neg1 :args ((= p q)))",
            DIFFERS,
        ),
        (
            b"(step @s (or (= p q) (not p) (not q)) :rule cnf_equiv_neg2 :args ((= p q)))",
            ACCEPTED,
        ),
        (
            b"(step @s (or (= p q) p q) :rule cnf_equiv_neg2 :args ((= p q)))",
            DIFFERS,
        ),
    ];
    assert_none(&rt, other_start(rt.alloc(), ROWS));
}
