//! Proofs that no valuation makes all assertions true.
use super::assert_none;
use eo_base::Status;
use std::alloc::{AllocError, Global};
use test_runs::{File, Job, Want, does, does_in_pieces, first_wrong};

/// The words of each row.
const PROVE: &str = "ethos prove --reference=r.smt2 p.eo";

const VALID: &[u8] = b"valid\n";

/// Three formulas, of which one is asserted.
const ASSERTS_P: &[u8] =
    b"(declare-const p Bool)\n(declare-const q Bool)\n(declare-const r Bool)\n(assert p)\n";

/// Three clauses that no valuation makes true.
const CLAUSES: &[u8] =
    b"(declare-const p Bool)\n(declare-const q Bool)\n(assert (or p q))\n(assert (not p))\n(assert (not q))\n";

/// The reference file and the proof, and the status and the line that are given.
type Row<'a> = (&'a [u8], &'a [u8], Status, &'a [u8]);

fn is_right(alloc: Global, row: Row<'_>) -> Result<bool, AllocError> {
    let (reference, proof, status, line) = row;
    let others: [File<'_>; 2] = [
        (b"r.smt2", reference),
        (
            b"c.eo",
            b"(step @p4 false :rule chain_resolution :premises (@p1 @p2 @p3) :args ((@list true true) (@list p q)))\n",
        ),
    ];
    let job: Job<'_> = (PROVE, (b"p.eo", proof), &others);
    does_in_pieces(alloc, &job, &Want::Ends(status, line))
}

#[test]
fn proofs_after_the_suite(rt: HostRuntime) {
    const ROWS: &[Row<'static>] = &[
        (
            b"(set-logic QF_UF)\n(set-info :smt-lib-version 2.6)\n(declare-const p Bool)\n(assert p)\n\
(assert (not p))\n(check-sat)\n",
            b"unsat\n(\n(declare-const p Bool)\n(define @t1 () (not p))\n(assume @p1 p)\n(assume @p2 @t1)\n\
(step @p3 false :rule contra :premises (@p1 @p2))\n)\n",
            Status::Ok,
            VALID,
        ),
        (
            CLAUSES,
            b"(assume @p1 (or p q))\n(assume @p2 (not p))\n(assume @p3 (not q))\n\
(step @p4 q :rule resolution :premises (@p1 @p2) :args (true p))\n\
(step @p5 false :rule resolution :premises (@p4 @p3) :args (true q))\n",
            Status::Ok,
            VALID,
        ),
        // the suite is there already, and is not read again
        (
            CLAUSES,
            b"(include \"cpc.eo\")(assume @p1 (or p q))(assume @p2 (not p))(assume @p3 (not q))\
(step @p4 q :rule resolution :premises (@p1 @p2) :args (true p))\
(step @p5 false :rule contra :premises (@p4 @p3))",
            Status::Ok,
            VALID,
        ),
        // a scope
        (
            b"(declare-const q Bool)\n(assert (not (=> q q)))\n",
            b"(assume-push @h q)\n(step-pop @i :rule scope :premises (@h))\n(assume @n (not (=> q q)))\n\
(step @f false :rule contra :premises (@i @n))\n",
            Status::Ok,
            VALID,
        ),
        // a rule that is none of those that preserve truth by the truth tables
        (
            CLAUSES,
            b"(assume @p1 (or p q))\n(assume @p2 (not p))\n(assume @p3 (not q))\n\
(step @p4 false :rule chain_resolution :premises (@p1 @p2 @p3) :args ((@list true true) (@list p q)))\n",
            Status::Refused,
            b"refused F46 NotSemantic p.eo:4:64\n",
        ),
        // the same in a file that the proof includes
        (
            CLAUSES,
            b"(assume @p1 (or p q))\n(assume @p2 (not p))\n(assume @p3 (not q))\n(include \"c.eo\")\n",
            Status::Refused,
            b"refused F46 NotSemantic c.eo:1:0\n",
        ),
        // the first of two such steps
        (
            CLAUSES,
            b"(step @a :rule refl :args (p))\n(step @b :rule refl :args (q))\n\
(assume @p1 (or p q))(assume @p2 (not p))(assume @p3 (not q))\
(step @p4 q :rule resolution :premises (@p1 @p2) :args (true p))\
(step @p5 false :rule contra :premises (@p4 @p3))",
            Status::Refused,
            b"refused F46 NotSemantic p.eo:1:0\n",
        ),
        // a rule of the proof's own
        (
            ASSERTS_P,
            b"(declare-rule bad () :args () :conclusion false)\n(step @p1 false :rule bad)\n",
            Status::Refused,
            b"refused F38 ProofDeclares p.eo:1:0\n",
        ),
        // the verdict of the check comes first
        (
            ASSERTS_P,
            b"(step @a :rule refl :args (p))\n",
            Status::Refused,
            b"refused F41 NoRefutation p.eo:2:31\n",
        ),
        (
            ASSERTS_P,
            b"(assume @a q)\n",
            Status::Refused,
            b"refused F28 NotAsserted p.eo:1:0\n",
        ),
    ];
    assert_none(&rt, first_wrong(rt.alloc(), ROWS, is_right));
}

/// What is asserted beside the opposite of a conclusion, the conclusion, and the rule of its step with
/// what it takes; the assertions are `@a` and `@b`.
type Use<'a> = (&'a str, &'a str, &'a str, &'a str);

/// Whether the use of a rule, and then a contradiction, begin the line so.
fn begins(alloc: Global, rule: Use<'_>, line: &[u8]) -> Result<bool, AllocError> {
    let (first, second, conclusion, by) = rule;
    let declares = "(declare-const p Bool)(declare-const q Bool)(declare-const r Bool)";
    let refutes = "(step @f false :rule contra :premises (@c @n))";
    let reference = format!(in alloc;
        "{declares}(assert {first})(assert {second})(assert (not {conclusion}))"
    )?;
    let proof = format!(in alloc;
        "(assume @a {first})(assume @b {second})(assume @n (not {conclusion}))(step @c {conclusion} :rule {by}){refutes}"
    )?;
    prints(alloc, reference.as_bytes(), proof.as_bytes(), line)
}

fn prints<'a>(
    alloc: Global,
    reference: &'a [u8],
    proof: &'a [u8],
    line: &[u8],
) -> Result<bool, AllocError> {
    let others: [File<'_>; 1] = [(b"r.smt2", reference)];
    let job: Job<'_> = (PROVE, (b"p.eo", proof), &others);
    does(alloc, &job, 65_536, 0, &Want::Begins(line))
}

fn is_valid(alloc: Global, rule: Use<'_>) -> Result<bool, AllocError> {
    begins(alloc, rule, VALID)
}

fn is_not_semantic(alloc: Global, rule: Use<'_>) -> Result<bool, AllocError> {
    begins(alloc, rule, b"refused F46 NotSemantic p.eo:1:")
}

#[test]
fn each_rule_that_keeps_truth(rt: HostRuntime) {
    const ROWS: &[Use<'static>] = &[
        ("true", "true", "(or p (not p))", "split :args (p)"),
        ("p", "(= p q)", "q", "eq_resolve :premises (@a @b)"),
        ("p", "(=> p q)", "q", "modus_ponens :premises (@a @b)"),
        ("(not (not p))", "true", "p", "not_not_elim :premises (@a)"),
        (
            "(and p q)",
            "true",
            "q",
            "and_elim :premises (@a) :args (1)",
        ),
        ("p", "q", "(and p q)", "and_intro :premises (@a @b)"),
        (
            "(=> p q)",
            "true",
            "(or (not p) q)",
            "implies_elim :premises (@a)",
        ),
        (
            "(not (=> p q))",
            "true",
            "p",
            "not_implies_elim1 :premises (@a)",
        ),
        (
            "(not (=> p q))",
            "true",
            "(not q)",
            "not_implies_elim2 :premises (@a)",
        ),
        (
            "(= p q)",
            "true",
            "(or (not p) q)",
            "equiv_elim1 :premises (@a)",
        ),
        (
            "(= p q)",
            "true",
            "(or p (not q))",
            "equiv_elim2 :premises (@a)",
        ),
        (
            "(not (= p q))",
            "true",
            "(or p q)",
            "not_equiv_elim1 :premises (@a)",
        ),
        (
            "(not (= p q))",
            "true",
            "(or (not p) (not q))",
            "not_equiv_elim2 :premises (@a)",
        ),
        ("(xor p q)", "true", "(or p q)", "xor_elim1 :premises (@a)"),
        (
            "(xor p q)",
            "true",
            "(or (not p) (not q))",
            "xor_elim2 :premises (@a)",
        ),
        (
            "(not (xor p q))",
            "true",
            "(or p (not q))",
            "not_xor_elim1 :premises (@a)",
        ),
        (
            "(not (xor p q))",
            "true",
            "(or (not p) q)",
            "not_xor_elim2 :premises (@a)",
        ),
        (
            "(ite p q r)",
            "true",
            "(or (not p) q)",
            "ite_elim1 :premises (@a)",
        ),
        (
            "(ite p q r)",
            "true",
            "(or p r)",
            "ite_elim2 :premises (@a)",
        ),
        (
            "(not (ite p q r))",
            "true",
            "(or (not p) (not q))",
            "not_ite_elim1 :premises (@a)",
        ),
        (
            "(not (ite p q r))",
            "true",
            "(or p (not r))",
            "not_ite_elim2 :premises (@a)",
        ),
        (
            "true",
            "true",
            "(or (not (=> p q)) (not p) q)",
            "cnf_implies_pos :args ((=> p q))",
        ),
        (
            "true",
            "true",
            "(or (=> p q) p)",
            "cnf_implies_neg1 :args ((=> p q))",
        ),
        (
            "true",
            "true",
            "(or (=> p q) (not q))",
            "cnf_implies_neg2 :args ((=> p q))",
        ),
        (
            "true",
            "true",
            "(or (not (= p q)) (not p) q)",
            "cnf_equiv_pos1 :args ((= p q))",
        ),
        (
            "true",
            "true",
            "(or (not (= p q)) p (not q))",
            "cnf_equiv_pos2 :args ((= p q))",
        ),
        (
            "true",
            "true",
            "(or (= p q) p q)",
            "cnf_equiv_neg1 :args ((= p q))",
        ),
        (
            "true",
            "true",
            "(or (= p q) (not p) (not q))",
            "cnf_equiv_neg2 :args ((= p q))",
        ),
        (
            "(or p q)",
            "(not p)",
            "q",
            "resolution :premises (@a @b) :args (true p)",
        ),
    ];
    assert_none(&rt, first_wrong(rt.alloc(), ROWS, is_valid));
}

#[test]
fn rules_of_the_suite_that_are_not_in_the_list(rt: HostRuntime) {
    const ROWS: &[Use<'static>] = &[
        ("true", "true", "(= p p)", "refl :args (p)"),
        ("(= p q)", "true", "(= q p)", "symm :premises (@a)"),
        ("(= p q)", "(= q r)", "(= p r)", "trans :premises (@a @b)"),
        (
            "(not (or p q))",
            "true",
            "(not q)",
            "not_or_elim :premises (@a) :args (1)",
        ),
    ];
    assert_none(&rt, first_wrong(rt.alloc(), ROWS, is_not_semantic));
}
