//! Commands of a session, by known answers.
mod run;
mod watcher;

use eo_base::FaultName::UnknownRule;
use eo_session::Origin;
use run::Answer::{Done, Ended, Fault};
use run::{Row, Run, tell};
use std::alloc::Global;
use std::process::Abort;
use std::test::Fail;
use watcher::{Kind, Noted};

// A function that is lent a new session finds no row that is wrong.
fn all_right<F: FnOnce(&mut Run) -> Result<Option<usize>, Fail>>(
    rt: &impl Abort,
    alloc: Global,
    first_wrong: F,
) -> Result<(), Fail>
    requires { F.IsAlwaysCallable first_wrong }
{
    assert_eq!(rt; tell(alloc, first_wrong)?, None);
    Ok(())
}

#[test]
fn a_step_that_is_refused_ends_the_session(rt: HostRuntime) -> Result<(), Fail> {
    all_right(&rt, rt.alloc(), behind_a_refused_step)
}

// What is accepted before a refused step is refused after it, and so is the step itself.
const REFUSED: &[Row<'static>] = &[
    (b"(define @t () true)", &Done(4)),
    (b"(step @a :rule nope)", &Fault(UnknownRule)),
    (b"(define @u () true)", &Ended),
    (b"(step @a :rule nope)", &Ended),
];

fn behind_a_refused_step(run: &mut Run) -> Result<Option<usize>, Fail> {
    run.wrong(REFUSED)
}

#[test]
fn a_session_holds_what_is_alive(rt: HostRuntime) -> Result<(), Fail> {
    all_right(&rt, rt.alloc(), with_scopes)
}

// The commands of a benchmark's signature, and a scope that is opened and closed twice.
const SCOPES: &[Row<'static>] = &[
    (b"(declare-const Int Type)", &Done(5)),
    (b"(declare-consts <numeral> Int)", &Done(5)),
    (b"(declare-const not (-> Bool Bool))", &Done(7)),
    (
        b"(declare-const or (-> Bool Bool Bool) :right-assoc-nil false)",
        &Done(9),
    ),
    (b"(declare-const at (-> Int Bool))", &Done(11)),
    (
        b"(declare-rule hop ((n Int)) :args (n) :conclusion (or (not (at n)) (at (eo::add n 1))))",
        &Done(21),
    ),
    (
        b"(declare-rule unit ((a Bool) (b Bool)) :premises (a (or (not a) b)) :conclusion b)",
        &Done(27),
    ),
    (
        b"(declare-rule contra ((a Bool)) :premises (a (not a)) :conclusion false)",
        &Done(27),
    ),
    (
        b"(declare-rule scope ((a Bool) (b Bool)) :assumption a :premises (b) :conclusion (or (not a) b))",
        &Done(27),
    ),
    (b"(assume-push @h (at 0))", &Done(29)),
    (b"(define @t () (not (at (eo::add 0 0))))", &Done(32)),
    (b"(step @i :rule hop :args (0))", &Done(38)),
    (b"(step @j :rule unit :premises (@h @i))", &Done(38)),
    (b"(step-pop @a :rule scope :premises (@j))", &Done(35)),
    (b"(assume-push @h (at 0))", &Done(35)),
    (b"(step-pop @b :rule scope :premises (@h))", &Done(38)),
    (b"(define @u () (at (eo::add 0 0)))", &Done(40)),
];

fn with_scopes(run: &mut Run) -> Result<Option<usize>, Fail> {
    run.wrong(SCOPES)
}

#[test]
fn scopes_leave_nothing_behind(rt: HostRuntime) -> Result<(), Fail> {
    all_right(&rt, rt.alloc(), with_many_scopes)
}

// A scope that is opened and closed.
const SCOPE: &[Row<'static>] = &[
    (b"(declare-const Int Type)", &Done(5)),
    (b"(declare-consts <numeral> Int)", &Done(5)),
    (b"(declare-const not (-> Bool Bool))", &Done(7)),
    (
        b"(declare-const or (-> Bool Bool Bool) :right-assoc-nil false)",
        &Done(9),
    ),
    (b"(declare-const at (-> Int Bool))", &Done(11)),
    (
        b"(declare-rule scope ((a Bool) (b Bool)) :assumption a :premises (b) :conclusion (or (not a) b))",
        &Done(18),
    ),
    (b"(assume-push @h (at 0))", &Done(20)),
    (b"(step-pop @a :rule scope :premises (@h))", &Done(25)),
];

// Scopes that are opened and closed one after another, each with the same conclusion. The first one
// leaves its terms, and no other does.
fn with_many_scopes(run: &mut Run) -> Result<Option<usize>, Fail> {
    let first = run.wrong(SCOPE)?;
    if first.is_some() {
        return Ok(first);
    }
    for i in 0..10_000_u16 {
        if !leaves_nothing(run, i)? {
            return Ok(Some(i as usize));
        }
    }
    Ok(None)
}

// Whether a scope that is opened and closed leaves no terms.
fn leaves_nothing(run: &mut Run, i: u16) -> Result<bool, Fail> {
    let opened = run.is_right(b"(assume-push @h (at 0))", Done(25))?;
    let closed = run.is_right(&closing(i), Done(25))?;
    Ok(opened & closed)
}

// The command that closes a scope, with a name of four digits.
fn closing(i: u16) -> [u8; 43] {
    let mut text = *b"(step-pop @0000 :rule scope :premises (@h))";
    text[11] = digit(i / 1000);
    text[12] = digit(i / 100);
    text[13] = digit(i / 10);
    text[14] = digit(i);
    text
}

fn digit(i: u16) -> u8 {
    b'0' + (i % 10) as u8
}

#[test]
fn steps_over_long_strings_leave_nothing_behind(rt: HostRuntime) -> Result<(), Fail> {
    all_right(&rt, rt.alloc(), with_long_strings)
}

// A program that doubles a string as often as its argument says.
const DOUBLING: &[Row<'static>] = &[
    (b"(declare-const Int Type)", &Done(5)),
    (b"(declare-consts <numeral> Int)", &Done(5)),
    (b"(declare-const String Type)", &Done(6)),
    (b"(declare-consts <string> String)", &Done(6)),
    (
        b"(program $d ((s String) (n Int)) :signature (String Int) Bool ((($d s 0) true) (($d s n) ($d (eo::concat s s) (eo::add n -1)))))",
        &Done(13),
    ),
    (
        b"(declare-rule holds ((s String) (n Int)) :args (s n) :conclusion ($d s n))",
        &Done(14),
    ),
];

// Steps of which each doubles a string of its own and keeps `true`.
fn with_long_strings(run: &mut Run) -> Result<Option<usize>, Fail> {
    let first = run.wrong(DOUBLING)?;
    if first.is_some() {
        return Ok(first);
    }
    for i in 0..1_000_u16 {
        if !run.is_right(&doubling(i), Done(14))? {
            return Ok(Some(i as usize));
        }
    }
    Ok(None)
}

// The step over a string of four digits, with a name of them.
fn doubling(i: u16) -> [u8; 46] {
    let mut text = *b"(step @0000 true :rule holds :args (\"0000\" 5))";
    text[7] = digit(i / 1000);
    text[8] = digit(i / 100);
    text[9] = digit(i / 10);
    text[10] = digit(i);
    text[37] = digit(i / 1000);
    text[38] = digit(i / 100);
    text[39] = digit(i / 10);
    text[40] = digit(i);
    text
}

#[test]
fn a_shared_term_is_counted_once(rt: HostRuntime) -> Result<(), Fail> {
    all_right(&rt, rt.alloc(), with_shared_terms)
}

// A conjunction that may hold the one before twice, and a first name.
const SHARED: &[Row<'static>] = &[
    (b"(declare-const p Bool)", &Done(5)),
    (
        b"(declare-const and (-> Bool Bool Bool) :right-assoc-nil true)",
        &Done(8),
    ),
    (
        b"(declare-parameterized-const = ((A Type :implicit)) (-> A A Bool))",
        &Done(12),
    ),
    (
        b"(declare-rule refl ((A Type) (x A)) :args (x) :conclusion (= x x))",
        &Done(15),
    ),
    (b"(define @t00 () p)", &Done(15)),
];

// What is derived of the last conjunction of all.
const REFLECTED: &[Row<'static>] = &[(
    b"(step @s (= @t64 @t64) :rule refl :args (@t64))",
    &Done(15 + 192 + 2),
)];

// Conjunctions of the one before with itself, 64 times: each has three terms more, though as a tree
// the last has 2^64 leaves and more.
fn with_shared_terms(run: &mut Run) -> Result<Option<usize>, Fail> {
    let first = run.wrong(SHARED)?;
    if first.is_some() {
        return Ok(first);
    }
    for k in 0..64_u16 {
        if !run.is_right(&double_define(k, k + 1), Done(18 + 3 * k as usize))? {
            return Ok(Some(k as usize));
        }
    }
    run.wrong(REFLECTED)
}

// The command that defines a conjunction by the one before, with names of two digits.
fn double_define(before: u16, k: u16) -> [u8; 32] {
    let mut text = *b"(define @t00 () (and @t00 @t00))";
    text[10] = digit(k / 10);
    text[11] = digit(k);
    text[23] = digit(before / 10);
    text[24] = digit(before);
    text[28] = digit(before / 10);
    text[29] = digit(before);
    text
}

#[test]
fn commands_in_scopes_are_seen(rt: HostRuntime) -> Result<(), Fail> {
    all_right(&rt, rt.alloc(), with_scopes_seen)
}

// Rules over formulas, and two scopes with an assumption of the same name, one of which has a macro.
const SEEN_IN_SCOPES: &[Noted<'static>] = &[
    (b"(declare-const p Bool)", Kind::Declare, 0, &[]),
    (b"(declare-const not (-> Bool Bool))", Kind::Declare, 0, &[]),
    (
        b"(declare-const or (-> Bool Bool Bool) :right-assoc-nil false)",
        Kind::Declare,
        0,
        &[],
    ),
    (
        b"(declare-rule id ((a Bool)) :premises (a) :args (a) :conclusion a)",
        Kind::Declare,
        0,
        &[],
    ),
    (
        b"(declare-rule first ((a Bool) (b Bool)) :premises (a b) :conclusion a)",
        Kind::Declare,
        0,
        &[],
    ),
    (
        b"(declare-rule scope ((a Bool) (b Bool)) :assumption a :premises (b) :conclusion (or (not a) b))",
        Kind::Declare,
        0,
        &[],
    ),
    (b"(assume-push @h p)", Kind::Push, 0, &[]),
    (b"(define @t () p)", Kind::Define, 1, &[]),
    (
        b"(step @i :rule id :premises (@h) :args (@t))",
        Kind::Step,
        1,
        &[6],
    ),
    (b"(assume-push @k (not p))", Kind::Push, 1, &[]),
    (
        b"(step @j :rule first :premises (@k @i))",
        Kind::Step,
        2,
        &[9, 8],
    ),
    (
        b"(step-pop @a :rule scope :premises (@i))",
        Kind::Pop,
        2,
        &[8],
    ),
    (
        b"(step-pop @b :rule scope :premises (@a))",
        Kind::Pop,
        1,
        &[11],
    ),
    (b"(assume-push @h (not p))", Kind::Push, 0, &[]),
    (
        b"(step @i :rule first :premises (@h @h))",
        Kind::Step,
        1,
        &[13, 13],
    ),
    (
        b"(step-pop @c :rule scope :premises (@h))",
        Kind::Pop,
        1,
        &[13],
    ),
    (
        b"(step @d :rule first :premises (@c @b))",
        Kind::Step,
        0,
        &[15, 12],
    ),
    (
        b"(step @e :rule first :premises (@d @h))",
        Kind::Refused,
        0,
        &[],
    ),
    (b"(define @u () p)", Kind::Refused, 0, &[]),
];

fn with_scopes_seen(run: &mut Run) -> Result<Option<usize>, Fail> {
    run.seen_wrong(SEEN_IN_SCOPES, Origin::Proof(0))
}

#[test]
fn commands_of_a_reference_file_are_seen(rt: HostRuntime) -> Result<(), Fail> {
    all_right(&rt, rt.alloc(), with_reference_seen)
}

// What a signature declares.
const SEEN_IN_SIGNATURE: &[Noted<'static>] = &[
    (b"(declare-const not (-> Bool Bool))", Kind::Declare, 0, &[]),
    (b"(declare-consts <string> Bool)", Kind::Declare, 0, &[]),
    (
        b"(program $same ((a Bool)) :signature (Bool) Bool ((($same a) a)))",
        Kind::Declare,
        0,
        &[],
    ),
    (
        b"(declare-rule contra ((a Bool)) :premises (a (not a)) :conclusion false)",
        Kind::Declare,
        0,
        &[],
    ),
    (b"(include \"more.eo\")", Kind::Other, 0, &[]),
];

// A reference file that declares, defines and asserts.
const SEEN_IN_REFERENCE: &[Noted<'static>] = &[
    (b"(set-logic QF_UF)", Kind::Other, 0, &[]),
    (b"(declare-const p Bool)", Kind::Declare, 0, &[]),
    (b"(declare-fun q () Bool)", Kind::Declare, 0, &[]),
    (b"(define-fun np () Bool (not p))", Kind::Define, 0, &[]),
    (b"(assert p)", Kind::Assert, 0, &[]),
    (b"(assert np)", Kind::Assert, 0, &[]),
    (b"(exit)", Kind::Other, 0, &[]),
];

// A proof that repeats a constant and a macro of the reference file.
const SEEN_IN_PROOF: &[Noted<'static>] = &[
    (b"(declare-const p Bool)", Kind::Other, 0, &[]),
    (b"(define np () (not p))", Kind::Other, 0, &[]),
    (b"(define @q () q)", Kind::Define, 0, &[]),
    (b"(assume @p1 p)", Kind::Assume, 0, &[]),
    (b"(assume @p2 np)", Kind::Assume, 0, &[]),
    (
        b"(step @p3 false :rule contra :premises (@p1 @p2))",
        Kind::Step,
        0,
        &[15, 16],
    ),
    (b"(assume @p4 q)", Kind::Refused, 0, &[]),
];

fn with_reference_seen(run: &mut Run) -> Result<Option<usize>, Fail> {
    let first = run.seen_wrong(SEEN_IN_SIGNATURE, Origin::Signature(0))?;
    if first.is_some() {
        return Ok(first);
    }
    run.begin_reference()?;
    let second = run.seen_wrong(SEEN_IN_REFERENCE, Origin::Reference(1))?;
    if second.is_some() {
        return Ok(second);
    }
    run.seen_wrong(SEEN_IN_PROOF, Origin::Proof(2))
}
