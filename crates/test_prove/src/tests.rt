//! Proofs after the suite, and what is said of them.
ghost use Rattle.std.specs.Prelude.{◌≡◌, []};

use eo_base::{Fault, FaultName, Text};
use eo_io::{MemoryLibrary, Paths};
use eo_run::Verdict;
use eo_sem::{ProveEnd, prove_files};
use std::alloc::{AllocError, Global};
use std::test::Fail;

/// All that the proofs of one step assume.
const ASSERTED: &[u8] = b"(declare-const p Bool)\n\
(declare-const q Bool)\n\
(declare-const r Bool)\n\
(assert (not (or p (not p))))\n\
(assert p)\n\
(assert (= p q))\n\
(assert (not q))\n\
(assert (=> p q))\n\
(assert (not (not p)))\n\
(assert (not p))\n\
(assert (and p q))\n\
(assert q)\n\
(assert (not (and p q)))\n\
(assert (not (or (not p) q)))\n\
(assert (not (=> p q)))\n\
(assert (not (not q)))\n\
(assert (not (or p (not q))))\n\
(assert (not (= p q)))\n\
(assert (not (or p q)))\n\
(assert (not (or (not p) (not q))))\n\
(assert (xor p q))\n\
(assert (not (xor p q)))\n\
(assert (ite p q r))\n\
(assert (not (or p r)))\n\
(assert (not (ite p q r)))\n\
(assert (not (or p (not r))))\n\
(assert (not (or (not (=> p q)) (not p) q)))\n\
(assert (not (or (=> p q) p)))\n\
(assert (not (or (=> p q) (not q))))\n\
(assert (not (or (not (= p q)) (not p) q)))\n\
(assert (not (or (not (= p q)) p (not q))))\n\
(assert (not (or (= p q) p q)))\n\
(assert (not (or (= p q) (not p) (not q))))\n\
(assert (or p q))\n\
(assert (not (=> q q)))\n\
(assert (not (= p p)))\n\
(assert (not (= q p)))\n\
(assert (= q r))\n\
(assert (not (= p r)))\n\
(assert (not (or (not (and p q)) p)))\n\
(assert (not (or (and p q) (not p) (not q))))\n\
(assert (not (or (not (or p q)) p q)))\n\
(assert (not (or (or p q) (not p))))\n";

/// A proof by each rule that keeps truth.
const VALID: &[&[u8]] = &[
    b"(step @c (or p (not p)) :rule split :args (p))\n\
(assume @n (not (or p (not p))))\n\
(step @f false :rule contra :premises (@c @n))\n",
    b"(assume @p0 p)\n\
(assume @p1 (= p q))\n\
(step @c q :rule eq_resolve :premises (@p0 @p1))\n\
(assume @n (not q))\n\
(step @f false :rule contra :premises (@c @n))\n",
    b"(assume @p0 p)\n\
(assume @p1 (=> p q))\n\
(step @c q :rule modus_ponens :premises (@p0 @p1))\n\
(assume @n (not q))\n\
(step @f false :rule contra :premises (@c @n))\n",
    b"(assume @p0 (not (not p)))\n\
(step @c p :rule not_not_elim :premises (@p0))\n\
(assume @n (not p))\n\
(step @f false :rule contra :premises (@c @n))\n",
    b"(assume @p0 p)\n\
(assume @p1 (not p))\n\
(step @c false :rule contra :premises (@p0 @p1))\n",
    b"(assume @p0 (and p q))\n\
(step @c q :rule and_elim :premises (@p0) :args (1))\n\
(assume @n (not q))\n\
(step @f false :rule contra :premises (@c @n))\n",
    b"(assume @p0 p)\n\
(assume @p1 q)\n\
(step @c (and p q) :rule and_intro :premises (@p0 @p1))\n\
(assume @n (not (and p q)))\n\
(step @f false :rule contra :premises (@c @n))\n",
    b"(assume @p0 (=> p q))\n\
(step @c (or (not p) q) :rule implies_elim :premises (@p0))\n\
(assume @n (not (or (not p) q)))\n\
(step @f false :rule contra :premises (@c @n))\n",
    b"(assume @p0 (not (=> p q)))\n\
(step @c p :rule not_implies_elim1 :premises (@p0))\n\
(assume @n (not p))\n\
(step @f false :rule contra :premises (@c @n))\n",
    b"(assume @p0 (not (=> p q)))\n\
(step @c (not q) :rule not_implies_elim2 :premises (@p0))\n\
(assume @n (not (not q)))\n\
(step @f false :rule contra :premises (@c @n))\n",
    b"(assume @p0 (= p q))\n\
(step @c (or (not p) q) :rule equiv_elim1 :premises (@p0))\n\
(assume @n (not (or (not p) q)))\n\
(step @f false :rule contra :premises (@c @n))\n",
    b"(assume @p0 (= p q))\n\
(step @c (or p (not q)) :rule equiv_elim2 :premises (@p0))\n\
(assume @n (not (or p (not q))))\n\
(step @f false :rule contra :premises (@c @n))\n",
    b"(assume @p0 (not (= p q)))\n\
(step @c (or p q) :rule not_equiv_elim1 :premises (@p0))\n\
(assume @n (not (or p q)))\n\
(step @f false :rule contra :premises (@c @n))\n",
    b"(assume @p0 (not (= p q)))\n\
(step @c (or (not p) (not q)) :rule not_equiv_elim2 :premises (@p0))\n\
(assume @n (not (or (not p) (not q))))\n\
(step @f false :rule contra :premises (@c @n))\n",
    b"(assume @p0 (xor p q))\n\
(step @c (or p q) :rule xor_elim1 :premises (@p0))\n\
(assume @n (not (or p q)))\n\
(step @f false :rule contra :premises (@c @n))\n",
    b"(assume @p0 (xor p q))\n\
(step @c (or (not p) (not q)) :rule xor_elim2 :premises (@p0))\n\
(assume @n (not (or (not p) (not q))))\n\
(step @f false :rule contra :premises (@c @n))\n",
    b"(assume @p0 (not (xor p q)))\n\
(step @c (or p (not q)) :rule not_xor_elim1 :premises (@p0))\n\
(assume @n (not (or p (not q))))\n\
(step @f false :rule contra :premises (@c @n))\n",
    b"(assume @p0 (not (xor p q)))\n\
(step @c (or (not p) q) :rule not_xor_elim2 :premises (@p0))\n\
(assume @n (not (or (not p) q)))\n\
(step @f false :rule contra :premises (@c @n))\n",
    b"(assume @p0 (ite p q r))\n\
(step @c (or (not p) q) :rule ite_elim1 :premises (@p0))\n\
(assume @n (not (or (not p) q)))\n\
(step @f false :rule contra :premises (@c @n))\n",
    b"(assume @p0 (ite p q r))\n\
(step @c (or p r) :rule ite_elim2 :premises (@p0))\n\
(assume @n (not (or p r)))\n\
(step @f false :rule contra :premises (@c @n))\n",
    b"(assume @p0 (not (ite p q r)))\n\
(step @c (or (not p) (not q)) :rule not_ite_elim1 :premises (@p0))\n\
(assume @n (not (or (not p) (not q))))\n\
(step @f false :rule contra :premises (@c @n))\n",
    b"(assume @p0 (not (ite p q r)))\n\
(step @c (or p (not r)) :rule not_ite_elim2 :premises (@p0))\n\
(assume @n (not (or p (not r))))\n\
(step @f false :rule contra :premises (@c @n))\n",
    b"(step @c (or (not (=> p q)) (not p) q) :rule cnf_implies_pos :args ((=> p q)))\n\
(assume @n (not (or (not (=> p q)) (not p) q)))\n\
(step @f false :rule contra :premises (@c @n))\n",
    b"(step @c (or (=> p q) p) :rule cnf_implies_neg1 :args ((=> p q)))\n\
(assume @n (not (or (=> p q) p)))\n\
(step @f false :rule contra :premises (@c @n))\n",
    b"(step @c (or (=> p q) (not q)) :rule cnf_implies_neg2 :args ((=> p q)))\n\
(assume @n (not (or (=> p q) (not q))))\n\
(step @f false :rule contra :premises (@c @n))\n",
    b"(step @c (or (not (= p q)) (not p) q) :rule cnf_equiv_pos1 :args ((= p q)))\n\
(assume @n (not (or (not (= p q)) (not p) q)))\n\
(step @f false :rule contra :premises (@c @n))\n",
    b"(step @c (or (not (= p q)) p (not q)) :rule cnf_equiv_pos2 :args ((= p q)))\n\
(assume @n (not (or (not (= p q)) p (not q))))\n\
(step @f false :rule contra :premises (@c @n))\n",
    b"(step @c (or (= p q) p q) :rule cnf_equiv_neg1 :args ((= p q)))\n\
(assume @n (not (or (= p q) p q)))\n\
(step @f false :rule contra :premises (@c @n))\n",
    b"(step @c (or (= p q) (not p) (not q)) :rule cnf_equiv_neg2 :args ((= p q)))\n\
(assume @n (not (or (= p q) (not p) (not q))))\n\
(step @f false :rule contra :premises (@c @n))\n",
    b"(assume @p0 (or p q))\n\
(assume @p1 (not p))\n\
(step @c q :rule resolution :premises (@p0 @p1) :args (true p))\n\
(assume @n (not q))\n\
(step @f false :rule contra :premises (@c @n))\n",
    b"(assume-push @h q)\n\
(step-pop @c (=> q q) :rule scope :premises (@h))\n\
(assume @n (not (=> q q)))\n\
(step @f false :rule contra :premises (@c @n))\n",
];

/// A proof by each other rule, and the line and the byte of its step.
const OTHERS: &[(&[u8], u64, u64)] = &[
    (
        b"(step @c (= p p) :rule refl :args (p))\n\
(assume @n (not (= p p)))\n\
(step @f false :rule contra :premises (@c @n))\n",
        1,
        0,
    ),
    (
        b"(assume @p0 (= p q))\n\
(step @c (= q p) :rule symm :premises (@p0))\n\
(assume @n (not (= q p)))\n\
(step @f false :rule contra :premises (@c @n))\n",
        2,
        21,
    ),
    (
        b"(assume @p0 (= p q))\n\
(assume @p1 (= q r))\n\
(step @c (= p r) :rule trans :premises (@p0 @p1))\n\
(assume @n (not (= p r)))\n\
(step @f false :rule contra :premises (@c @n))\n",
        3,
        42,
    ),
    (
        b"(assume @p0 (not (or p q)))\n\
(step @c (not p) :rule not_or_elim :premises (@p0) :args (0))\n\
(assume @n (not (not p)))\n\
(step @f false :rule contra :premises (@c @n))\n",
        2,
        28,
    ),
    (
        b"(assume @p0 (not (and p q)))\n\
(step @c (or (not p) (not q)) :rule not_and :premises (@p0))\n\
(assume @n (not (or (not p) (not q))))\n\
(step @f false :rule contra :premises (@c @n))\n",
        2,
        29,
    ),
    (
        b"(step @c (or (not (and p q)) p) :rule cnf_and_pos :args ((and p q) 0))\n\
(assume @n (not (or (not (and p q)) p)))\n\
(step @f false :rule contra :premises (@c @n))\n",
        1,
        0,
    ),
    (
        b"(step @c (or (and p q) (not p) (not q)) :rule cnf_and_neg :args ((and p q)))\n\
(assume @n (not (or (and p q) (not p) (not q))))\n\
(step @f false :rule contra :premises (@c @n))\n",
        1,
        0,
    ),
    (
        b"(step @c (or (not (or p q)) p q) :rule cnf_or_pos :args ((or p q)))\n\
(assume @n (not (or (not (or p q)) p q)))\n\
(step @f false :rule contra :premises (@c @n))\n",
        1,
        0,
    ),
    (
        b"(step @c (or (or p q) (not p)) :rule cnf_or_neg :args ((or p q) 0))\n\
(assume @n (not (or (or p q) (not p))))\n\
(step @f false :rule contra :premises (@c @n))\n",
        1,
        0,
    ),
    (
        b"(assume @p0 (or p q))\n\
(assume @p1 (not p))\n\
(step @c q :rule chain_resolution :premises (@p0 @p1) :args ((@list true) (@list p)))\n\
(assume @n (not q))\n\
(step @f false :rule contra :premises (@c @n))\n",
        3,
        43,
    ),
];

/// Two clauses, and the literals that refute them.
const CLAUSES: &[u8] = b"(declare-const p Bool)\n\
(declare-const q Bool)\n\
(assert (or p q))\n\
(assert (not p))\n\
(assert (not q))\n";

/// What is said of a proof against a reference file.
#[derive(Clone, Copy)]
enum Want {
    Valid,
    /// It is refused with this fault, in this line and at this byte of the proof.
    Refused(FaultName, u64, u64),
}

fn is_met(want: &Want, end: &ProveEnd) -> bool {
    match (want, end) {
        (Want::Valid, ProveEnd::Valid) => true,
        (Want::Refused(name, line, offset), ProveEnd::Other(Verdict::Refused(fault))) => {
            is_at(fault, *name, *line, *offset)
        }
        _ => false,
    }
}

fn is_at(fault: &Fault, name: FaultName, line: u64, offset: u64) -> bool {
    fault.name == name && fault.place.line == line && fault.place.offset == offset
}

/// Whether what is said of a proof is as it is wanted.
fn says(alloc: Global, reference: &[u8], proof: &[u8], want: &Want) -> Result<bool, AllocError> {
    let mut files = MemoryLibrary::new(alloc)?;
    says_over(alloc, reference, proof, &mut files, want)
}

fn says_over(
    alloc: Global,
    reference: &[u8],
    proof: &[u8],
    files: &mut MemoryLibrary,
    want: &Want,
) -> Result<bool, AllocError>
    requires { files.old.stored.unread ≡ [] }
{
    files.add(b"r.smt2", reference)?;
    files.add(b"p.eo", proof)?;
    let end = end_of(alloc, files)?;
    Ok(is_met(want, &end))
}

fn end_of(alloc: Global, files: &mut MemoryLibrary) -> Result<ProveEnd, AllocError>
    requires { files.old.stored.unread ≡ [] }
{
    let reference = Text::new(alloc, "r.smt2")?;
    let proof = Text::new(alloc, "p.eo")?;
    let mut paths = Paths::new(alloc);
    Ok(prove_files(alloc, &reference, &proof, files, &mut paths))
}

/// The number of the first proof of which something else is said.
fn first_wrong(alloc: Global, proofs: &[&[u8]], want: &Want) -> Result<Option<usize>, AllocError> {
    for (i, proof) in proofs.iter().enumerate() {
        if !says(alloc, ASSERTED, proof, want)? {
            return Ok(Some(i));
        }
    }
    Ok(None)
}

/// The number of the first of the others that is not refused at its step.
fn first_unrefused(alloc: Global) -> Result<Option<usize>, AllocError> {
    for (i, (proof, line, offset)) in OTHERS.iter().enumerate() {
        let want = Want::Refused(FaultName::NotSemantic, *line, *offset);
        if !says(alloc, ASSERTED, proof, &want)? {
            return Ok(Some(i));
        }
    }
    Ok(None)
}

#[test]
fn each_rule_of_the_list_is_valid(rt: HostRuntime) -> Result<(), Fail> {
    assert_eq!(rt; first_wrong(rt.alloc(), VALID, &Want::Valid)?, None);
    Ok(())
}

#[test]
fn each_other_rule_is_refused_at_its_step(rt: HostRuntime) -> Result<(), Fail> {
    assert_eq!(rt; first_unrefused(rt.alloc())?, None);
    Ok(())
}

#[test]
fn clauses_are_resolved(rt: HostRuntime) -> Result<(), Fail> {
    let proof = b"(assume @p1 (or p q))\n\
(assume @p2 (not p))\n\
(assume @p3 (not q))\n\
(step @p4 q :rule resolution :premises (@p1 @p2) :args (true p))\n\
(step @p5 false :rule resolution :premises (@p4 @p3) :args (true q))\n";
    assert!(rt; says(rt.alloc(), CLAUSES, proof, &Want::Valid)?);
    Ok(())
}

#[test]
fn the_first_of_two_other_steps_is_refused(rt: HostRuntime) -> Result<(), Fail> {
    let proof = b"(assume @p1 (or p q))\n\
(assume @p2 (not p))\n\
(assume @p3 (not q))\n\
(step @p4 q :rule chain_resolution :premises (@p1 @p2) :args ((@list true) (@list p)))\n\
(step @p5 false :rule chain_resolution :premises (@p4 @p3) :args ((@list true) (@list q)))\n";
    let want = Want::Refused(FaultName::NotSemantic, 4, 64);
    assert!(rt; says(rt.alloc(), CLAUSES, proof, &want)?);
    Ok(())
}

#[test]
fn a_rule_of_the_proof_is_refused(rt: HostRuntime) -> Result<(), Fail> {
    let proof = b"(declare-rule bad () :args () :conclusion false)\n\
(step @p1 false :rule bad)\n";
    let want = Want::Refused(FaultName::ProofDeclares, 1, 0);
    assert!(rt; says(rt.alloc(), CLAUSES, proof, &want)?);
    Ok(())
}

// A proof that refutes nothing is refused at its end, whatever rules it used before.
#[test]
fn a_proof_without_false_is_refused(rt: HostRuntime) -> Result<(), Fail> {
    let proof = b"(step @p1 (= p p) :rule refl :args (p))\n";
    let want = Want::Refused(FaultName::NoRefutation, 2, 40);
    assert!(rt; says(rt.alloc(), CLAUSES, proof, &want)?);
    Ok(())
}
