//! Proofs without the commands that their refutation does not need.
use super::assert_none;
use eo_base::Status;
use std::alloc::{AllocError, Global};
use test_runs::{File, Job, Long, Want, does, does_in_pieces, first_wrong, long_text};

/// The words, the reference file and the proof, and the status and the text that are given.
type Row<'a> = (&'a str, &'a [u8], &'a [u8], Status, &'a [u8]);

/// The words that trim a proof by the rules of `c.eo`.
const TRIM: &str = "ethos trim --include=c.eo --reference=r.smt2 p.eo";

/// Three rules.
const RULES: &[u8] = b"(declare-const not (-> Bool Bool))\n\
(declare-const => (-> Bool Bool Bool))\n\
(declare-rule again ((F Bool)) :args (F) :conclusion (=> F F))\n\
(declare-rule contra ((F Bool)) :premises (F (not F)) :conclusion false)\n\
(declare-rule scope ((F Bool) (G Bool)) :assumption F :premises (G) :conclusion (=> F G))\n";

// A function that calls this does not unfold the text in its proof.
fn rules() -> &'static [u8] {
    RULES
}

fn is_right(alloc: Global, row: Row<'_>) -> Result<bool, AllocError> {
    let (words, reference, proof, status, text) = row;
    let others: [File<'_>; 2] = [(b"r.smt2", reference), (b"c.eo", rules())];
    let job: Job<'_> = (words, (b"p.eo", proof), &others);
    does_in_pieces(alloc, &job, &Want::Ends(status, text))
}

/// The first row that gives another text.
fn wrong(alloc: Global, rows: &[Row<'_>]) -> Option<usize> {
    first_wrong(alloc, rows, is_right)
}

#[test]
fn needed_commands(rt: HostRuntime) {
    const OPPOSITES: &[u8] =
        b"(declare-const p Bool)\n(declare-const q Bool)\n(assert p)\n(assert (not p))\n";
    const SHORT: &[u8] = b"(assume @p1 p)\n(assume @p2 (not p))\n\
(step @p3 false :rule contra :premises (@p1 @p2))\n";
    const ROWS: &[Row<'static>] = &[
        // a step that no other uses
        (
            TRIM,
            OPPOSITES,
            b"(assume @p1 p)\n(assume @p2 (not p))\n(step @x :rule again :args (p))\n\
(step @p3 false :rule contra :premises (@p1 @p2))\n",
            Status::Ok,
            SHORT,
        ),
        // nothing more to leave out
        (TRIM, OPPOSITES, SHORT, Status::Ok, SHORT),
        // the word and the pair around the commands, and what is between them
        (
            TRIM,
            b"(assert false)\n",
            b"unsat\n(\n; a note\n(assume  @f false)(assume @g false)\n)\n",
            Status::Ok,
            b"(assume  @f false)\n",
        ),
        // macros and declarations outside all scopes stay
        (
            TRIM,
            OPPOSITES,
            b"(declare-const s Bool)\n(define @d () (not s))\n(assume @p1 p)\n(assume @p2 (not p))\n\
(step @p3 false :rule contra :premises (@p1 @p2))\n(step @p4 :rule again :args (s))\n",
            Status::Ok,
            b"(declare-const s Bool)\n(define @d () (not s))\n(assume @p1 p)\n(assume @p2 (not p))\n\
(step @p3 false :rule contra :premises (@p1 @p2))\n",
        ),
    ];
    assert_none(&rt, wrong(rt.alloc(), ROWS));
}

#[test]
fn scopes_that_are_needed(rt: HostRuntime) {
    const REFERENCE: &[u8] =
        b"(declare-const p Bool)\n(declare-const q Bool)\n(assert (not (=> q q)))\n";
    const ROWS: &[Row<'static>] = &[
        // two scopes that are not
        (
            TRIM,
            b"(declare-const p Bool)\n(declare-const q Bool)\n(assert false)\n",
            b"(assume-push @a p)\n(define @x () (not q))\n(step @s :rule again :args (@x))\n\
(step-pop @r1 :rule scope :premises (@a))\n(assume-push @b p)\n(define @x () (not p))\n\
(step-pop @r2 :rule scope :premises (@b))\n(assume @f false)\n",
            Status::Ok,
            b"(assume @f false)\n",
        ),
        // one that is, with the macros in it
        (
            TRIM,
            REFERENCE,
            b"(assume-push @h q)\n(define @d () (not q))\n(step @i :rule again :args (q))\n\
(step-pop @s (=> q q) :rule scope :premises (@h))\n(assume @n (not (=> q q)))\n\
(step @f false :rule contra :premises (@s @n))\n",
            Status::Ok,
            b"(assume-push @h q)\n(define @d () (not q))\n\
(step-pop @s (=> q q) :rule scope :premises (@h))\n(assume @n (not (=> q q)))\n\
(step @f false :rule contra :premises (@s @n))\n",
        ),
        // one that is, and one in it that is not
        (
            TRIM,
            REFERENCE,
            b"(assume-push @h q)\n(assume-push @k p)\n(define @d () (not q))\n\
(step-pop @j :rule scope :premises (@k))\n(step-pop @s (=> q q) :rule scope :premises (@h))\n\
(assume @n (not (=> q q)))\n(step @f false :rule contra :premises (@s @n))\n",
            Status::Ok,
            b"(assume-push @h q)\n(step-pop @s (=> q q) :rule scope :premises (@h))\n\
(assume @n (not (=> q q)))\n(step @f false :rule contra :premises (@s @n))\n",
        ),
    ];
    assert_none(&rt, wrong(rt.alloc(), ROWS));
}

#[test]
fn files_that_a_proof_names(rt: HostRuntime) {
    const ROWS: &[Row<'static>] = &[
        (
            "ethos trim p.eo",
            b"(assert false)\n",
            b"(include \"c.eo\")\n(reference \"r.smt2\")\n(step @x :rule again :args (true))\n(assume @f false)\n",
            Status::Ok,
            b"(include \"c.eo\")\n(reference \"r.smt2\")\n(assume @f false)\n",
        ),
        // a rule of the proof's own
        (
            "ethos trim --reference=r.smt2 p.eo",
            b"(assert true)\n",
            b"(declare-rule bad () :args () :conclusion false)\n(step @a :rule bad)\n(step @b :rule bad)\n",
            Status::Ok,
            b"(declare-rule bad () :args () :conclusion false)\n(step @a :rule bad)\n",
        ),
        (
            "ethos trim --closed --reference=r.smt2 p.eo",
            b"(assert true)\n",
            b"(declare-rule bad () :args () :conclusion false)\n(step @a :rule bad)\n",
            Status::Refused,
            b"refused F38 ProofDeclares p.eo:1:0\n",
        ),
    ];
    assert_none(&rt, wrong(rt.alloc(), ROWS));
}

#[test]
fn proofs_that_are_not_trimmed(rt: HostRuntime) {
    const ROWS: &[Row<'static>] = &[
        (
            "ethos trim --reference=r.smt2 p.eo",
            b"(assert false)\n",
            b"(declare-rule trust ((F Bool)) :args (F) :conclusion F :sorry)\n\
(step @p1 :rule trust :args (false))\n",
            Status::Incomplete,
            b"incomplete\n",
        ),
        // the proof is the include file too, and its first command needs a reference file
        (
            "ethos trim --include=p.eo --reference=r.smt2 p.eo",
            b"(assert false)\n",
            b"(assume @p1 false)\n",
            Status::Refused,
            b"refused F29 NoReference p.eo:1:0\n",
        ),
        (
            "ethos trim --include=p.eo --reference=r.smt2 p.eo",
            b"(assert false)\n",
            b"(declare-consts <string> Type)\n",
            Status::Refused,
            b"refused F12 Redeclared p.eo:1:0\n",
        ),
        // a correct check whose proof was opened as the reference file
        (
            "ethos trim --include=r.smt2 --reference=p.eo p.eo",
            b"(declare-rule bad () :args () :conclusion false)\n(step @a :rule bad)\n",
            b"",
            Status::Refused,
            b"refused F43 ProofShared p.eo:1:0\n",
        ),
        (
            "ethos trim --reference=r.smt2 z.eo",
            b"(assert false)\n",
            b"",
            Status::Refused,
            b"refused F35 FileAbsent z.eo:1:0\n",
        ),
        (
            "ethos trim --reference=r.smt2 p.eo",
            b"(assert false)\n",
            b"",
            Status::Refused,
            b"refused F41 NoRefutation p.eo:1:0\n",
        ),
    ];
    assert_none(&rt, wrong(rt.alloc(), ROWS));
}

/// Steps that no other uses, before and after those that are needed.
type Idle<'a> = (Long<'a>, &'a [u8]);

fn is_rid_of(alloc: Global, row: Idle<'_>) -> Result<bool, AllocError> {
    let (long, short) = row;
    let proof = long_text(alloc, &long)?;
    let reference = b"(declare-const p Bool)(assert p)(assert (not p))";
    trims_to(alloc, reference, proof.as_bytes(), short)
}

fn trims_to<'a>(
    alloc: Global,
    reference: &'a [u8],
    proof: &'a [u8],
    short: &[u8],
) -> Result<bool, AllocError> {
    let others: [File<'_>; 2] = [(b"r.smt2", reference), (b"c.eo", rules())];
    let job: Job<'_> = (TRIM, (b"p.eo", proof), &others);
    does(alloc, &job, 65_536, 0, &Want::Ends(Status::Ok, short))
}

#[test]
fn a_thousand_idle_steps(rt: HostRuntime) {
    const ROWS: &[Idle<'static>] = &[(
        (
            "(assume @p1 p)(assume @p2 (not p))",
            1_000,
            "(step @i~ :rule again :args (p))\n",
            "(step @p3 false :rule contra :premises (@p1 @p2))",
        ),
        b"(assume @p1 p)\n(assume @p2 (not p))\n(step @p3 false :rule contra :premises (@p1 @p2))\n",
    )];
    assert_none(&rt, first_wrong(rt.alloc(), ROWS, is_rid_of));
}
