//! Checks against reference files, which are SMT-LIB benchmarks.
use super::assert_none;
use eo_cpc::suite;
use std::alloc::{AllocError, Global};
use test_runs::{File, Job, Want, does_in_pieces, first_wrong};

/// A reference file, a proof, and the line that is printed.
type Row<'a> = (&'a [u8], &'a [u8], &'a [u8]);

const DECLARED: &[u8] =
    b"(declare-const p Bool)\n(declare-const q Bool)\n(declare-const r Bool)\n(assert p)\n";

const NOT: &[u8] = b"(declare-const not (-> Bool Bool))\n";

#[test]
fn a_benchmark_is_refuted(rt: HostRuntime) {
    const CONTRADICTION: &[u8] =
        b"(set-logic QF_UF)\n(set-info :smt-lib-version 2.6)\n(declare-const p Bool)\n\
(assert p)\n(assert (not p))\n(check-sat)\n";
    const EXCLUSION: &[u8] = b"(declare-const p Bool)\n(declare-const q Bool)\n(assert (or p q))\n\
(assert (not p))\n(assert (not q))\n";
    const ROWS: &[Row<'static>] = &[
        (
            CONTRADICTION,
            b"unsat\n(\n(declare-const p Bool)\n(define @t1 () (not p))\n(assume @p1 p)\n\
(assume @p2 @t1)\n(step @p3 false :rule contra :premises (@p1 @p2))\n)\n",
            b"correct\n",
        ),
        (
            CONTRADICTION,
            b"unsat\n(\n(declare-const |p| Bool)\n(define @t1 () (not |p|))\n(assume @p1 |p|)\n\
(assume @p2 @t1)\n(step @p3 false :rule contra :premises (@p1 @p2))\n)\n",
            b"correct\n",
        ),
        (
            EXCLUSION,
            b"(assume @p1 (or p q))\n(assume @p2 (not p))\n(assume @p3 (not q))\n\
(step @p4 q :rule resolution :premises (@p1 @p2) :args (true p))\n\
(step @p5 false :rule resolution :premises (@p4 @p3) :args (true q))\n",
            b"correct\n",
        ),
        (
            EXCLUSION,
            b"(assume @p1 (or p q))\n(assume @p2 (not p))\n(assume @p3 (not q))\n\
(step @p4 false :rule chain_resolution :premises (@p1 @p2 @p3) :args ((@list true true) (@list p q)))\n",
            b"correct\n",
        ),
    ];
    assert_none(&rt, wrong(rt.alloc(), ROWS));
}

#[test]
fn a_step_needs_its_premises(rt: HostRuntime) {
    const SCOPED: &[u8] = b"(declare-const p Bool)\n(declare-const q Bool)\n(declare-const c Int)\n\
(declare-fun g (Int) Int)\n(assert false)\n";
    const ROWS: &[Row<'static>] = &[
        (
            DECLARED,
            b"(assume @p1 p)\n(step @p3 false :rule contra :premises (@p1 @p1))\n",
            b"refused F25 PremiseMismatch p.eo:2:15\n",
        ),
        (
            b"(declare-const p Bool)\n(declare-const q Bool)\n(declare-const r Bool)\n(assert p)\n\
(assert (not q))\n",
            b"(assume @p1 p)\n(assume @p2 (not q))\n\
(step @p3 false :rule contra :premises (@p1 @p2))\n",
            b"refused F25 PremiseMismatch p.eo:3:36\n",
        ),
        (
            SCOPED,
            b"(assume-push @a p)\n(define @x () (not q))\n(step @s (= @x @x) :rule refl :args (@x))\n\
(step-pop @r1 :rule scope :premises (@a))\n(assume-push @b p)\n(define @x () (g c))\n\
(step @s (= @x @x) :rule refl :args (@x))\n(step-pop @r2 :rule scope :premises (@b))\n\
(assume @f false)\n",
            b"correct\n",
        ),
        (
            SCOPED,
            b"(assume-push @a p)\n(define @x () (not q))\n(step @s (= @x @x) :rule refl :args (@x))\n\
(step-pop @r1 :rule scope :premises (@a))\n(assume-push @b p)\n(define @x () (g c))\n\
(assume-push @s @x)\n",
            b"refused F27 NotBool p.eo:7:166\n",
        ),
    ];
    assert_none(&rt, wrong(rt.alloc(), ROWS));
}

#[test]
fn scopes_and_marked_rules_behind_a_signature(rt: HostRuntime) {
    const ROWS: &[Row<'static>] = &[
        (
            DECLARED,
            b"(assume-push @a p)\n(step-pop @s (=> p p) :rule scope :premises (@a))\n\
(step @x :rule contra :premises (@a @s))\n",
            b"refused F24 UnknownPremise p.eo:3:69\n",
        ),
        (
            DECLARED,
            b"(assume-push @a p)\n",
            b"refused F40 ScopeOpen p.eo:2:19\n",
        ),
        (
            DECLARED,
            b"(step-pop @s :rule scope)\n",
            b"refused F32 NoScope p.eo:1:0\n",
        ),
        (
            b"(assert false)\n",
            b"(declare-rule trust ((F Bool)) :args (F) :conclusion F :sorry)\n(assume @p1 false)\n",
            b"correct\n",
        ),
        (
            b"(assert false)\n",
            b"(declare-rule trust ((F Bool)) :args (F) :conclusion F :sorry)\n\
(step @p1 :rule trust :args (false))\n",
            b"incomplete\n",
        ),
        (
            DECLARED,
            b"(declare-rule bad () :args () :conclusion false)\n(step @p1 false :rule bad)\n",
            b"correct\n",
        ),
    ];
    assert_none(&rt, wrong(rt.alloc(), ROWS));
}

#[test]
fn an_assumption_is_an_asserted_value(rt: HostRuntime) {
    const NAMED: &[u8] = b"(declare-const p Bool)\n(declare-const q Bool)\n\
(assert (! (let ((x (not p))) (and x x)) :named h))\n";
    const ROWS: &[Row<'static>] = &[
        (
            NAMED,
            b"(assume @p1 (and (not p) (not p)))\n(assume @p2 h)\n",
            b"refused F41 NoRefutation p.eo:3:50\n",
        ),
        (
            b"(declare-const p Bool)\n(declare-const q Bool)\n(assert (and p q))\n",
            b"(assume @p1 (and q p))\n",
            b"refused F28 NotAsserted p.eo:1:0\n",
        ),
        (
            NAMED,
            b"(define h () (and (not p) (not p)))(assume @p h)",
            b"refused F41 NoRefutation p.eo:1:48\n",
        ),
        (
            NAMED,
            b"(define h () (not p))",
            b"refused F12 Redeclared p.eo:1:0\n",
        ),
        (
            b"(assert (eo::is_eq 1 1))",
            b"(assume @p true)",
            b"refused F41 NoRefutation p.eo:1:16\n",
        ),
    ];
    assert_none(&rt, wrong(rt.alloc(), ROWS));
}

#[test]
fn the_first_fault_of_a_proof(rt: HostRuntime) {
    const ROWS: &[Row<'static>] = &[
        (
            DECLARED,
            b"(frob)",
            b"refused F10 UnknownCommand p.eo:1:0\n",
        ),
        (DECLARED, b"assume", b"refused F11 BadCommand p.eo:1:0\n"),
        (
            DECLARED,
            b"(declare-const p Bool)\n",
            b"refused F41 NoRefutation p.eo:2:23\n",
        ),
        (
            DECLARED,
            b"(declare-const p Int)",
            b"refused F12 Redeclared p.eo:1:0\n",
        ),
        (
            DECLARED,
            b"(assume @a zz)",
            b"refused F13 UnknownSymbol p.eo:1:0\n",
        ),
        (
            DECLARED,
            b"(assume @a (not))",
            b"refused F14 BadArity p.eo:1:0\n",
        ),
        (
            DECLARED,
            b"(assume @a 1.5)",
            b"refused F04 BadLiteral p.eo:1:0\n",
        ),
        (
            DECLARED,
            b"(assume @a (not 5))",
            b"refused F15 IllTyped p.eo:1:0\n",
        ),
        (
            DECLARED,
            b"(assume @a (eo::add 1 p))",
            b"refused F16 Stuck p.eo:1:0\n",
        ),
        (
            DECLARED,
            b"(assume @a (eo::neg -170141183460469231731687303715884105728))",
            b"refused F17 NumberRange p.eo:1:0\n",
        ),
        (
            DECLARED,
            b"(program $u ((x Bool) (y Bool)) :signature (Bool) Bool ((($u x) y)))",
            b"refused F21 UnboundParam p.eo:1:0\n",
        ),
        (
            DECLARED,
            b"(program $u ((x Int)) :signature (Int) Int ((($u (eo::add x 1)) x)))",
            b"refused F22 BadPattern p.eo:1:0\n",
        ),
        (
            DECLARED,
            b"(step @a :rule nope)",
            b"refused F23 UnknownRule p.eo:1:0\n",
        ),
        (
            DECLARED,
            b"(step @a :rule contra :premises (@z @z))",
            b"refused F24 UnknownPremise p.eo:1:0\n",
        ),
        (
            DECLARED,
            b"(step @a p :rule split :args (p))",
            b"refused F26 ConclusionDiffers p.eo:1:0\n",
        ),
        (
            DECLARED,
            b"(assume @a 5)",
            b"refused F27 NotBool p.eo:1:0\n",
        ),
        (
            DECLARED,
            b"(assume @a q)",
            b"refused F28 NotAsserted p.eo:1:0\n",
        ),
        (
            DECLARED,
            b"(reference \"r.smt2\")",
            b"refused F30 SecondReference p.eo:1:0\n",
        ),
        (
            DECLARED,
            b"(assume-push @a p)(declare-const c Bool)",
            b"refused F31 InScope p.eo:1:18\n",
        ),
        (
            DECLARED,
            b"(step @a :rule scope :premises ())",
            b"refused F36 WrongKind p.eo:1:0\n",
        ),
        (
            DECLARED,
            b"(include \"\")",
            b"refused F09 BadPath p.eo:1:0\n",
        ),
    ];
    assert_none(&rt, wrong(rt.alloc(), ROWS));
}

#[test]
fn a_whole_benchmark(rt: HostRuntime) {
    const TEXT: &[u8] = b"(set-info :source |a benchmark; ) |)\n(set-info :smt-lib-version 2.6)\n\
(set-info :status unsat)\n(set-option :produce-proofs true)\n(set-logic QF_UF)\n\
(declare-sort U 0)\n(declare-fun f (U) Bool)\n(declare-fun |a b| () U)\n(define-sort V () U)\n\
(define-fun g ((x V)) Bool (not (f x)))\n(assert (! (f |a b|) :named a1))\n\
(assert (! (g |a b|) :named a2))\n(echo \"done)\")\n(check-sat)\n(get-proof)\n\
(get-value ((f |a b|)))\n(exit)\n)) \xff \" ";
    const ROWS: &[Row<'static>] = &[
        (
            TEXT,
            b"(define @t () (f |a b|))(assume @p1 a1)(assume @p2 a2)(assume @p3 @t)\n\
(assume @p4 (not @t))(step @p5 false :rule contra :premises (@p1 @p2))",
            b"correct\n",
        ),
        (
            TEXT,
            b"(declare-sort U 0)(declare-fun f (U) Bool)(declare-fun |a b| () U)\n\
(define g ((y U)) (not (f y)))(assume @p (g |a b|))(declare-sort U 0)(declare-const U Bool)",
            b"refused F12 Redeclared p.eo:2:136\n",
        ),
        (
            TEXT,
            b"(define g ((x U) (y U)) (not (f x)))",
            b"refused F12 Redeclared p.eo:1:0\n",
        ),
    ];
    assert_none(&rt, wrong(rt.alloc(), ROWS));
}

#[test]
fn the_first_fault_of_a_reference_file(rt: HostRuntime) {
    const ROWS: &[Row<'static>] = &[
        (b"(push 1)", b"", b"refused F10 UnknownCommand r.smt2:1:0\n"),
        (
            b"(define x () true)",
            b"",
            b"refused F10 UnknownCommand r.smt2:1:0\n",
        ),
        (b"(exit 0)", b"", b"refused F11 BadCommand r.smt2:1:0\n"),
        (
            b"(declare-const p Bool :right-assoc)",
            b"",
            b"refused F11 BadCommand r.smt2:1:0\n",
        ),
        // the type is read before the body
        (
            b"(define-fun f ((x Bool)) zz 1.5)",
            b"",
            b"refused F13 UnknownSymbol r.smt2:1:0\n",
        ),
        (
            b"(define-fun f ((x Bool)) Bool 1.5)",
            b"",
            b"refused F04 BadLiteral r.smt2:1:0\n",
        ),
        // and says nothing
        (
            b"(define-fun f () Bool Bool)(assert true)",
            b"",
            b"refused F41 NoRefutation p.eo:1:0\n",
        ),
        (
            b"(define-fun f ((x Bool) (x Bool)) Bool x)",
            b"",
            b"refused F12 Redeclared r.smt2:1:0\n",
        ),
        (
            b"(define-sort S (A A) A)",
            b"",
            b"refused F12 Redeclared r.smt2:1:0\n",
        ),
        (b"(assert Bool)", b"", b"refused F27 NotBool r.smt2:1:0\n"),
        (
            b"(assert (! Bool :named h))",
            b"",
            b"refused F27 NotBool r.smt2:1:0\n",
        ),
        (b"(assert 5)", b"", b"refused F15 IllTyped r.smt2:1:0\n"),
        (
            b"(assert (eo::add true 1))",
            b"",
            b"refused F16 Stuck r.smt2:1:0\n",
        ),
        // a name is there after its command
        (
            b"(declare-fun f (Bool Bool) Bool)(assert (f (! true :named h) h))",
            b"",
            b"refused F13 UnknownSymbol r.smt2:1:32\n",
        ),
        (
            b"(declare-fun f (Bool Bool) Bool)(assert (f (! true :named h) (! true :named h)))",
            b"",
            b"refused F12 Redeclared r.smt2:1:32\n",
        ),
        (
            b"(assert (! true :named h))(assert (! false :named h))",
            b"",
            b"refused F12 Redeclared r.smt2:1:26\n",
        ),
        (
            b"(assert (! true :named h))(declare-const h Bool)",
            b"",
            b"refused F12 Redeclared r.smt2:1:26\n",
        ),
        // elsewhere a term names nothing
        (
            b"(define-fun f () Bool (! true :named h))(assert h)",
            b"",
            b"refused F13 UnknownSymbol r.smt2:1:40\n",
        ),
        // in a proof no term has attributes
        (
            b"(assert true)",
            b"(assume @p (! true :named h))",
            b"refused F13 UnknownSymbol p.eo:1:0\n",
        ),
        // what the reference file declares may be repeated there too
        (
            b"(declare-const p Bool)(declare-const p Bool)(assert p)",
            b"(assume @p p)",
            b"refused F41 NoRefutation p.eo:1:13\n",
        ),
        // an assertion after `check-sat` counts
        (
            b"(check-sat)(assert false)(exit)(assert zz)",
            b"(assume @p false)",
            b"correct\n",
        ),
    ];
    assert_none(&rt, wrong_behind_not(rt.alloc(), ROWS));
}

/// Whether a row's line is printed after a signature of this text, whole and with reads of 1 and of
/// 3 bytes.
fn is_right_behind<'a>(
    alloc: Global,
    signature: &'a [u8],
    row: Row<'a>,
) -> Result<bool, AllocError> {
    let (reference, proof, line) = row;
    let others: [File<'_>; 2] = [(b"cpc.eo", signature), (b"r.smt2", reference)];
    let words = "ethos check --include=cpc.eo --reference=r.smt2 p.eo";
    let job: Job<'_> = (words, (b"p.eo", proof), &others);
    does_in_pieces(alloc, &job, &Want::Prints(line))
}

fn is_right(alloc: Global, row: Row<'_>) -> Result<bool, AllocError> {
    is_right_behind(alloc, suite(), row)
}

fn is_right_behind_not(alloc: Global, row: Row<'_>) -> Result<bool, AllocError> {
    is_right_behind(alloc, NOT, row)
}

/// The first row that gives another line after the suite.
fn wrong(alloc: Global, rows: &[Row<'_>]) -> Option<usize> {
    first_wrong(alloc, rows, is_right)
}

/// The same after a signature of one constant.
fn wrong_behind_not(alloc: Global, rows: &[Row<'_>]) -> Option<usize> {
    first_wrong(alloc, rows, is_right_behind_not)
}
