//! Scopes: assumptions that steps discharge.
use super::suite::{ACCEPTED, OPEN, Row, other_start};
use super::{ASSERTS_FALSE, assert_none, wrong};
use eo_base::Status;

#[test]
fn what_is_known_in_a_scope_ends_with_it(rt: HostRuntime) {
    const ROWS: &[Row<'static>] = &[
        // A fact of a closed scope.
        (
            b"(assume-push @a p)(step-pop @s (=> p p) :rule scope :premises (@a))
              (step @x :rule contra :premises (@a @s))",
            b"refused F24 UnknownPremise ",
        ),
        // What the closing step concludes is a fact outside.
        (
            b"(assume-push @a p)(step-pop @s (=> p p) :rule scope :premises (@a))
              (step @x (or (not p) p) :rule implies_elim :premises (@s))",
            ACCEPTED,
        ),
        // The assumption is that of the scope.
        (
            b"(assume-push @a p)(step-pop @s (=> q p) :rule scope :premises (@a))",
            b"refused F26 ConclusionDiffers ",
        ),
        (
            b"(declare-rule same ((F Bool)) :assumption F :premises (F) :conclusion F)
              (assume-push @a p)(assume-push @b q)(step-pop @s :rule same :premises (@a))",
            b"refused F25 PremiseMismatch ",
        ),
        // Three scopes, and names that are used again.
        (
            b"(assume-push @a p)(assume-push @b q)(assume-push @c r)
              (step-pop @s (=> r p) :rule scope :premises (@a))
              (step-pop @c (=> q (=> r p)) :rule scope :premises (@s))
              (step-pop @b (=> p (=> q (=> r p))) :rule scope :premises (@c))
              (assume-push @a q)(step-pop @s (=> q q) :rule scope :premises (@a))",
            ACCEPTED,
        ),
        // A name that is live outside the scope.
        (
            b"(assume-push @a p)(assume-push @b q)(step-pop @a :rule scope :premises (@a))",
            b"refused F12 Redeclared ",
        ),
        (
            b"(assume-push @a p)(step-pop @a (=> p p) :rule scope :premises (@a))",
            ACCEPTED,
        ),
        // A name that hides one from outside.
        (
            b"(assume-push @a p)(assume-push @a q)",
            b"refused F12 Redeclared ",
        ),
        (
            b"(assume-push @a p)(step @a :rule refl :args (p))",
            b"refused F12 Redeclared ",
        ),
        // Macros that are made in a scope.
        (
            b"(assume-push @a p)(define @x () (not q))
              (step @s (= (not q) @x) :rule refl :args (@x))
              (step-pop @t :rule scope :premises (@a))(define @x () r)
              (step @s (= r @x) :rule refl :args (@x))",
            ACCEPTED,
        ),
        (
            b"(assume-push @a p)(define @x () q)(step-pop @t :rule scope :premises (@a))
              (step @s :rule refl :args (@x))",
            b"refused F13 UnknownSymbol ",
        ),
        (
            b"(define @x () q)(assume-push @a p)(define @x () r)",
            b"refused F12 Redeclared ",
        ),
        (
            b"(define @x () q)(assume-push @a p)(step-pop @t :rule scope :premises (@a))
              (step @s :rule refl :args (@x))",
            ACCEPTED,
        ),
    ];
    assert_none(&rt, other_start(rt.alloc(), ROWS));
}

#[test]
fn commands_in_a_scope(rt: HostRuntime) {
    const ROWS: &[Row<'static>] = &[
        (
            b"(assume-push @a p)(declare-const c Bool)",
            b"refused F31 InScope ",
        ),
        (
            b"(assume-push @a p)(declare-const c zz)",
            b"refused F31 InScope ",
        ),
        (
            b"(assume-push @a p)(declare-fun c (Bool) Bool)",
            b"refused F31 InScope ",
        ),
        (
            b"(assume-push @a p)(declare-sort c 0)",
            b"refused F31 InScope ",
        ),
        (
            b"(assume-push @a p)(declare-parameterized-const c ((x Bool)) Bool)",
            b"refused F31 InScope ",
        ),
        (
            b"(assume-push @a p)(declare-consts <decimal> Int)",
            b"refused F11 BadCommand ",
        ),
        (
            b"(assume-push @a p)(declare-consts <binary> Int)",
            b"refused F31 InScope ",
        ),
        (
            b"(assume-push @a p)(program $u ((x Bool)) :signature (Bool) Bool ((($u x) x)))",
            b"refused F31 InScope ",
        ),
        (
            b"(assume-push @a p)(declare-rule k () :conclusion true)",
            b"refused F31 InScope ",
        ),
        (
            b"(assume-push @a p)(assume @b true)",
            b"refused F31 InScope ",
        ),
        (b"(assume-push @a p)(frob)", b"refused F10 UnknownCommand "),
        (b"(assume-push @a p)(define c () p)", OPEN),
        (b"(assume-push @a p)(assume-push @b p)", OPEN),
        (b"(assume-push @a p)(step @b true :rule and_intro)", OPEN),
        (b"(step-pop @s :rule scope)", b"refused F32 NoScope "),
        (b"(step-pop and :rule nope)", b"refused F32 NoScope "),
        (
            b"(assume-push @a p)(step-pop @b :rule nope)",
            b"refused F23 UnknownRule ",
        ),
        (
            b"(assume-push @a p)(step-pop @b :rule refl :args (p))",
            b"refused F36 WrongKind ",
        ),
        (b"(assume-push @a 5)", b"refused F27 NotBool "),
        (b"(assume-push @a zz)", b"refused F13 UnknownSymbol "),
        (
            b"(assume-push @a p)(assume-push @a zz)",
            b"refused F12 Redeclared ",
        ),
    ];
    assert_none(&rt, other_start(rt.alloc(), ROWS));
}

#[test]
fn the_end_of_a_proof(rt: HostRuntime) {
    const ROWS: &[super::Row<'static>] = &[
        (
            ASSERTS_FALSE,
            b"(assume-push @a false)",
            b"refused F40 ScopeOpen p.eo:1:22\n",
            Status::Refused,
        ),
        (
            ASSERTS_FALSE,
            b"(assume @p1 false)(assume-push @a true)",
            b"refused F40 ScopeOpen p.eo:1:39\n",
            Status::Refused,
        ),
        (
            ASSERTS_FALSE,
            b"(declare-rule same ((F Bool)) :assumption F :conclusion F)(assume-push @a false)
              (step-pop @s :rule same)",
            b"correct\n",
            Status::Ok,
        ),
        (
            ASSERTS_FALSE,
            b"(declare-rule drop ((F Bool)) :assumption F :conclusion true)(assume-push @a false)(step-pop @s :rule drop)",
            b"refused F41 NoRefutation p.eo:1:107\n",
            Status::Refused,
        ),
    ];
    assert_none(&rt, wrong(rt.alloc(), ROWS));
}
