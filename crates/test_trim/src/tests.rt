//! Proofs that are trimmed.
mod jobs;
mod long;

use eo_base::FaultName;
use jobs::{Case, File, Want, first_wrong, is_right};
use std::alloc::Global;
use std::process::Abort;

const RULES: &[u8] = b"(declare-const not (-> Bool Bool))\
    (declare-const = (-> Bool Bool Bool))\
    (declare-const => (-> Bool Bool Bool))\
    (declare-rule refl ((t Bool)) :args (t) :conclusion (= t t))\
    (declare-rule contra ((F Bool)) :premises (F (not F)) :conclusion false)\
    (declare-rule scope ((F Bool) (G Bool)) :assumption F :premises (G) :conclusion (=> F G))\
    (declare-rule keep ((F Bool)) :premises (F) :conclusion F)\
    (declare-rule mp ((F Bool) (G Bool)) :premises (F (=> F G)) :conclusion G)\
    (declare-rule any ((F Bool)) :args (F) :conclusion F)";

const BOTH: &[u8] = b"(declare-const p Bool)(declare-const q Bool)(assert p)(assert (not p))";

const FALSE: &[u8] = b"(declare-const p Bool)(assert false)";

const MACRO: &[u8] = b"(declare-const q Bool)(define-fun d () Bool q)(assert false)";

/// The rules, and the reference file `BOTH`.
const OVER_BOTH: &[File<'static>] = &[(b"s.eo", RULES), (b"r.smt2", BOTH)];

/// The rules, and the reference file `FALSE`.
const OVER_FALSE: &[File<'static>] = &[(b"s.eo", RULES), (b"r.smt2", FALSE)];

/// The rules, and the reference file `MACRO`.
const OVER_MACRO: &[File<'static>] = &[(b"s.eo", RULES), (b"r.smt2", MACRO)];

/// The files beside a proof, the proof, and the trimmed proof.
type Row<'a> = (&'a [File<'a>], &'a [u8], &'a [u8]);

fn case_of<'a>(files: &'a [File<'a>], text: &'a [u8], want: Want<'a>) -> Case<'a> {
    Case {
        include: Some("s.eo"),
        reference: Some("r.smt2"),
        proof: "p.eo",
        files,
        text,
        want,
    }
}

/// The number of the first row whose proof is not trimmed so, where the rules are included, or for which
/// there is no memory.
fn wrong(alloc: Global, rows: &[Row<'_>]) -> Option<usize> {
    for (i, row) in rows.iter().enumerate() {
        let (files, text, trimmed) = *row;
        let case = case_of(files, text, Want::Trimmed(trimmed));
        if is_right(alloc, &case) != Ok(true) {
            return Some(i);
        }
    }
    None
}

/// Asserts that none is wrong, and else shows the first.
fn assert_none(rt: &impl Abort, wrong: Option<usize>) {
    assert_eq!(rt; wrong, None);
}

#[test]
fn needed_commands_are_kept(rt: HostRuntime) {
    const ROWS: &[Row<'static>] = &[
        // A step that leads nowhere.
        (
            OVER_BOTH,
            b"(assume @p1 p) (assume @p2 (not p)) (step @x :rule refl :args (p))\n\
            (step @p3 false :rule contra :premises (@p1 @p2))",
            b"(assume @p1 p)\n(assume @p2 (not p))\n\
            (step @p3 false :rule contra :premises (@p1 @p2))\n",
        ),
        (OVER_FALSE, b"(assume @f false)\n", b"(assume @f false)\n"),
        // The word `unsat`, the outer pair, and a comment.
        (
            OVER_BOTH,
            b"unsat\n((define t () (not p)) ; a comment\n(assume a p)(assume b t)\
            (step c :rule keep :premises (a))(step d false :rule contra :premises (c b)))",
            b"(define t () (not p))\n(assume a p)\n(assume b t)\n\
            (step c :rule keep :premises (a))\n(step d false :rule contra :premises (c b))\n",
        ),
        // What comes after the first `false`.
        (
            OVER_FALSE,
            b"(assume a false)(step b :rule keep :premises (a))",
            b"(assume a false)\n",
        ),
        // Names that are free again.
        (
            OVER_BOTH,
            b"(assume-push a q)(step b :rule keep :premises (a))(step-pop c :rule scope :premises (b))\
            (assume a p)(assume b (not p))(step d false :rule contra :premises (a b))",
            b"(assume a p)\n(assume b (not p))\n(step d false :rule contra :premises (a b))\n",
        ),
    ];
    assert_none(&rt, wrong(rt.alloc(), ROWS));
}

#[test]
fn scopes_are_kept_whole(rt: HostRuntime) {
    const ROWS: &[Row<'static>] = &[
        // Scopes that lead nowhere.
        (
            OVER_FALSE,
            b"(assume-push a p)(define x () (not p))(step s (= x x) :rule refl :args (x))\
            (step-pop r1 :rule scope :premises (a))(assume-push b p)\
            (step-pop r2 :rule scope :premises (b))(assume f false)",
            b"(assume f false)\n",
        ),
        // A scope that is needed, with its macros, and one inside it that is not.
        (
            OVER_BOTH,
            b"(assume a p)(assume n (not p))(assume-push h q)(define m () (not q))(define k () q)\
            (step u (= m m) :rule refl :args (m))(assume-push i k)(step v :rule keep :premises (i))\
            (step-pop w :rule scope :premises (v))(step e false :rule contra :premises (a n))\
            (step-pop g (=> k false) :rule scope :premises (e))(step y :rule any :args (q))\
            (step z false :rule mp :premises (y g))(step zz false :rule contra :premises (a n))",
            b"(assume a p)\n(assume n (not p))\n(assume-push h q)\n(define m () (not q))\n\
            (define k () q)\n(step e false :rule contra :premises (a n))\n\
            (step-pop g (=> k false) :rule scope :premises (e))\n(step y :rule any :args (q))\n\
            (step z false :rule mp :premises (y g))\n",
        ),
        // A macro that repeats one of the reference file is not kept in a scope.
        (
            OVER_MACRO,
            b"(assume-push h q)(define d () q)(define e () d)(step u (= e e) :rule refl :args (d))\
            (assume-push j false)(step-pop k :rule scope :premises (j))\
            (step-pop g :rule scope :premises (u))(assume f false)(define d () q)",
            b"(assume f false)\n(define d () q)\n",
        ),
    ];
    assert_none(&rt, wrong(rt.alloc(), ROWS));
}

#[test]
fn files_that_a_proof_names_are_needed(rt: HostRuntime) {
    const INCLUDES: &[File<'static>] = &[
        (b"s.eo", RULES),
        (b"r.smt2", BOTH),
        (
            b"i.eo",
            b"(step c :rule keep :premises (b))(assume-push h q)(define m () p)",
        ),
    ];
    const CASES: &[Case<'static>] = &[
        // The included file uses the proof's facts, and opens a scope that the proof closes.
        Case {
            include: Some("s.eo"),
            reference: Some("r.smt2"),
            proof: "p.eo",
            files: INCLUDES,
            text: b"(assume a p)(assume b p)(include \"i.eo\")(assume-push h2 q)\
                (step k2 :rule keep :premises (h2))(step-pop o2 :rule scope :premises (k2))\
                (step-pop o :rule scope :premises (h))(assume n (not p))\
                (step f false :rule contra :premises (a n))",
            want: Want::Trimmed(
                b"(assume a p)\n(assume b p)\n(include \"i.eo\")\n\
                (step-pop o :rule scope :premises (h))\n(assume n (not p))\n\
                (step f false :rule contra :premises (a n))\n",
            ),
        },
        // The proof names its reference file.
        Case {
            include: Some("s.eo"),
            reference: None,
            proof: "p.eo",
            files: INCLUDES,
            text: b"(reference \"r.smt2\")(step x :rule refl :args (p))(assume a p)(assume n (not p))\
                (step f false :rule contra :premises (a n))",
            want: Want::Trimmed(
                b"(reference \"r.smt2\")\n(assume a p)\n(assume n (not p))\n\
                (step f false :rule contra :premises (a n))\n",
            ),
        },
    ];
    assert_none(&rt, first_wrong(rt.alloc(), CASES));
}

#[test]
fn other_verdicts_are_those_of_the_check(rt: HostRuntime) {
    const SORRY: &[u8] = b"(declare-rule trust ((F Bool)) :args (F) :conclusion F :sorry)\
        (step x :rule trust :args (false))";
    const BAD: &[u8] = b"(declare-rule bad () :args () :conclusion false)(step a :rule bad)";
    const CASES: &[Case<'static>] = &[
        Case {
            include: None,
            reference: Some("r.smt2"),
            proof: "p.eo",
            files: &[(b"r.smt2", b"(assert false)")],
            text: SORRY,
            want: Want::Incomplete,
        },
        // The proof is the reference file too.
        Case {
            include: Some("i.eo"),
            reference: Some("x"),
            proof: "x",
            files: &[(b"i.eo", BAD)],
            text: b"",
            want: Want::Refused(FaultName::ProofShared, 0, 0),
        },
        // The proof is the include file too.
        Case {
            include: Some("p.eo"),
            reference: Some("r.smt2"),
            proof: "p.eo",
            files: &[(b"r.smt2", b"(assert false)")],
            text: b"(assume a false)",
            want: Want::Refused(FaultName::NoReference, 0, 0),
        },
        Case {
            include: Some("p.eo"),
            reference: Some("r.smt2"),
            proof: "p.eo",
            files: &[(b"r.smt2", b"(assert false)")],
            text: b"(declare-consts <string> Type)",
            want: Want::Refused(FaultName::Redeclared, 0, 0),
        },
        // The path is none.
        Case {
            include: None,
            reference: Some("r.smt2"),
            proof: "d/..",
            files: &[(b"r.smt2", b"(assert false)")],
            text: b"",
            want: Want::Refused(FaultName::BadPath, 0, 0),
        },
        Case {
            include: Some("a/.."),
            reference: None,
            proof: "d/..",
            files: &[],
            text: b"",
            want: Want::Refused(FaultName::BadPath, 1, 0),
        },
        // It is in a file that is found after the proof's path.
        Case {
            include: Some("i.eo"),
            reference: Some("r.smt2"),
            proof: "p.eo",
            files: &[(b"i.eo", b" (assume a false)"), (b"r.smt2", b"")],
            text: b"",
            want: Want::Refused(FaultName::NoReference, 1, 1),
        },
    ];
    assert_none(&rt, first_wrong(rt.alloc(), CASES));
}
