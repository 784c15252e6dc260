//! Values that names have at the end of a signature file, and the lines that they are shown by.
use super::assert_none;
use eo_base::Status;
use std::alloc::{AllocError, Global};
use test_runs::{File, Job, Long, Want, does, does_in_pieces, first_wrong, join_texts, long_text};

/// The file that `a.eo` may include.
const FILES: &[File<'static>] = &[(b"d.eo", b"(declare-const p Bool)\n(define d () p)\n")];

/// A constant with a terminator, and two macros.
const LISTS: &[u8] = b"(declare-const p Bool)\n\
(declare-const and (-> Bool Bool Bool) :right-assoc-nil true)\n\
(define a () (and p p))\n\
(define b () (and a a true))\n";

// A function that calls this does not unfold the table in its proof.
fn files() -> &'static [File<'static>] {
    FILES
}

/// The words of a line, the text of `a.eo`, and the status and the lines that are given.
type Row<'a> = (&'a str, &'a [u8], Status, &'a [u8]);

fn is_right(alloc: Global, row: Row<'_>) -> Result<bool, AllocError> {
    let (words, text, status, lines) = row;
    let job: Job<'_> = (words, (b"a.eo", text), files());
    does_in_pieces(alloc, &job, &Want::Ends(status, lines))
}

/// The first row that gives other lines.
fn wrong(alloc: Global, rows: &[Row<'_>]) -> Option<usize> {
    first_wrong(alloc, rows, is_right)
}

#[test]
fn values_that_are_shown(rt: HostRuntime) {
    const ROWS: &[Row<'static>] = &[
        (
            "ethos show a.eo b",
            LISTS,
            Status::Ok,
            b"(define @s1 () (and p p))\n(define @s2 () (and @s1 @s1 true))\n",
        ),
        (
            "ethos show a.eo a",
            LISTS,
            Status::Ok,
            b"(define @s1 () (and p p))\n",
        ),
        (
            "ethos show a.eo v",
            b"(define v () (eo::var \"x\" Bool))",
            Status::Ok,
            b"(define @s1 () (eo::var \"x\" Bool))\n",
        ),
        (
            "ethos show a.eo three",
            b"(define three () (eo::add 1 2))",
            Status::Ok,
            b"(define @s1 () 3)\n",
        ),
        (
            "ethos show -- a.eo a;b",
            b"(declare-const |p;q| Bool)(define |a;b| () |p;q|)",
            Status::Ok,
            b"(define @s1 () |p;q|)\n",
        ),
        (
            "ethos show a.eo @s1",
            b"(include \"d.eo\")(define @s1 () d)",
            Status::Ok,
            b"(define @s2 () p)\n",
        ),
    ];
    assert_none(&rt, wrong(rt.alloc(), ROWS));
}

#[test]
fn values_that_are_refused(rt: HostRuntime) {
    const ROWS: &[Row<'static>] = &[
        (
            "ethos show a.eo zz",
            LISTS,
            Status::Refused,
            b"refused F13 UnknownSymbol a.eo:5:138\n",
        ),
        (
            "ethos show a.eo p",
            LISTS,
            Status::Refused,
            b"refused F13 UnknownSymbol a.eo:5:138\n",
        ),
        (
            "ethos show a.eo f",
            b"(define f ((x Bool)) x)",
            Status::Refused,
            b"refused F13 UnknownSymbol a.eo:1:23\n",
        ),
        (
            "ethos show ./x/../a.eo s",
            b"(define s () (eo::add 1 true))",
            Status::Refused,
            b"refused F16 Stuck a.eo:1:30\n",
        ),
        (
            "ethos show a.eo w",
            b"(define w () (eo::to_bin 0 0))",
            Status::Refused,
            b"refused F42 Unprintable a.eo:1:30\n",
        ),
        // the second constant of a name, by itself
        (
            "ethos show a.eo w",
            b"(declare-const U Type)(declare-const a U)(declare-const - (-> U U U))(declare-const - (-> U U))\n\
(program $head ((f (-> U U)) (x U)) :signature (U) (-> U U) ((($head (f x)) f)))\n\
(define w () ($head (- a)))\n",
            Status::Refused,
            b"refused F42 Unprintable a.eo:4:205\n",
        ),
        (
            "ethos show a.eo w",
            b"(define w () (eo::to_bin 0 0))\n(define w () q)\n",
            Status::Refused,
            b"refused F12 Redeclared a.eo:2:31\n",
        ),
        (
            "ethos show z.eo w",
            b"",
            Status::Refused,
            b"refused F35 FileAbsent z.eo:1:0\n",
        ),
    ];
    assert_none(&rt, wrong(rt.alloc(), ROWS));
}

// ---- one term after another

/// Constants of each attribute.
const CONSTANTS: &[u8] =
    b"(declare-const U Type)(declare-const a U)(declare-const b U)(declare-const c U)\n\
(declare-const p Bool)(declare-const q Bool)\n\
(declare-const f (-> U U U))\n\
(declare-const r (-> U U U) :right-assoc)\n\
(declare-const l (-> U U U) :left-assoc)\n\
(declare-const and (-> Bool Bool Bool) :right-assoc-nil true)\n\
(declare-const or (-> Bool Bool Bool) :left-assoc-nil false)\n\
(declare-const less (-> U U Bool) :chainable and)\n\
(declare-const other (-> U U Bool) :pairwise and)\n\
(declare-parameterized-const = ((T Type :implicit)) (-> T T Bool))\n\
(declare-const @List Type)(declare-const @nil @List)\n\
(declare-parameterized-const @list ((T Type :implicit)) (-> T @List @List) :right-assoc-nil @nil)\n\
(declare-const all (-> @List Bool Bool) :binder @list)\n\
(declare-const - (-> U U U) :left-assoc)(declare-const - (-> U U))\n\
(define v () ";

/// A term, and its value as it is written.
type Term<'a> = (&'a str, &'a str);

/// Whether the value of the term is shown by one line.
fn is_shown_so(alloc: Global, row: Term<'_>) -> Result<bool, AllocError> {
    let (term, value) = row;
    let begun = join_texts(alloc, CONSTANTS, term.as_bytes())?;
    let text = join_texts(alloc, begun.as_slice(), b")\n")?;
    let line = join_texts(alloc, b"(define @s1 () ", value.as_bytes())?;
    let lines = join_texts(alloc, line.as_slice(), b")\n")?;
    shows(alloc, text.as_slice(), lines.as_slice())
}

/// Whether these lines show `v` at the end of the file.
fn shows(alloc: Global, text: &[u8], lines: &[u8]) -> Result<bool, AllocError> {
    let job: Job<'_> = ("ethos show a.eo v", (b"a.eo", text), &[]);
    does(alloc, &job, 65_536, 0, &Want::Ends(Status::Ok, lines))
}

fn wrong_term(alloc: Global, rows: &[Term<'static>]) -> Option<usize> {
    first_wrong(alloc, rows, is_shown_so)
}

#[test]
fn literals_and_names(rt: HostRuntime) {
    const ROWS: &[Term<'static>] = &[
        ("0", "0"),
        ("42", "42"),
        ("-7", "-7"),
        ("#b0101", "#b0101"),
        ("#x2a", "#b00101010"),
        ("#b1", "#b1"),
        ("\"\"", "\"\""),
        ("\"say \"\"x\"\"~\"", "\"say \"\"x\"\"~\""),
        ("\"\\u{e9}\\u0041\"", "\"\\u{e9}A\""),
        (
            "\"\\u{5c}\\u{a}\\u{7f}\\u{2ffff}\"",
            "\"\\u{5c}\\u{a}\\u{7f}\\u{2ffff}\"",
        ),
        ("true", "true"),
        ("false", "false"),
        ("Bool", "Bool"),
        ("Type", "Type"),
        ("a", "a"),
        ("(-> U (-> U Bool))", "(-> U (-> U Bool))"),
        ("(-> U U Bool)", "(-> U (-> U Bool))"),
        ("(eo::var \"x\" U)", "(eo::var \"x\" U)"),
    ];
    assert_none(&rt, wrong_term(rt.alloc(), ROWS));
}

#[test]
fn applications_by_attribute(rt: HostRuntime) {
    const ROWS: &[Term<'static>] = &[
        ("(f a b)", "(f a b)"),
        ("(f a)", "(f a)"),
        ("(_ (f a) b)", "(f a b)"),
        ("(r a b)", "(r a b)"),
        ("(r a b c)", "(r a (r b c))"),
        ("(_ r a)", "(_ r a)"),
        ("(l a b c)", "(l (l a b) c)"),
        ("(and p q p)", "(and p q p)"),
        ("(and p)", "(and p)"),
        ("(_ and p q)", "(_ and p q)"),
        ("(_ and p)", "(_ and p)"),
        ("(or p q)", "(_ or (_ or false p) q)"),
        ("(less a b)", "(less a b)"),
        ("(less a b c)", "(and (less a b) (less b c))"),
        ("(other a b c)", "(and (other a b) (other a c) (other b c))"),
        ("(= a b)", "(= a b)"),
        ("(@list a b)", "(@list a b)"),
        ("(all ((x U)) p)", "(_ all (@list (eo::var \"x\" U)) p)"),
        ("-", "-"),
        ("(- a)", "(- a)"),
        ("(_ - a)", "(_ - a)"),
        ("(- a b c)", "(- (- a b) c)"),
    ];
    assert_none(&rt, wrong_term(rt.alloc(), ROWS));
}

#[test]
fn values_of_operators(rt: HostRuntime) {
    const ROWS: &[Term<'static>] = &[
        ("(eo::ite true a b)", "a"),
        ("(eo::requires 1 1 a)", "a"),
        ("(eo::is_eq a b)", "false"),
        ("(eo::is_ok (eo::add 1 true))", "false"),
        ("(eo::typeof f)", "(-> U (-> U U))"),
        ("(eo::nameof (eo::var \"x\" U))", "\"x\""),
        ("(eo::is_z 1)", "true"),
        ("(eo::is_bin #b1)", "true"),
        ("(eo::is_str 1)", "false"),
        ("(eo::is_bool p)", "false"),
        ("(eo::is_var (eo::var \"x\" U))", "true"),
        ("(eo::and true false)", "false"),
        ("(eo::or #b01 #b10)", "#b11"),
        ("(eo::xor true true)", "false"),
        ("(eo::not #b0110)", "#b1001"),
        ("(eo::add 1 2)", "3"),
        ("(eo::mul 3 -4)", "-12"),
        ("(eo::neg 5)", "-5"),
        ("(eo::zdiv -7 2)", "-4"),
        ("(eo::zmod -7 2)", "1"),
        ("(eo::is_neg -1)", "true"),
        ("(eo::gt 2 1)", "true"),
        ("(eo::len \"abc\")", "3"),
        ("(eo::concat #b1 #b00)", "#b100"),
        ("(eo::extract #b0110 1 2)", "#b11"),
        ("(eo::find \"abc\" \"c\")", "2"),
        ("(eo::to_z #b101)", "5"),
        ("(eo::to_bin 4 5)", "#b0101"),
        ("(eo::to_str 34)", "\"\"\"\""),
        ("(eo::nil and)", "true"),
        ("(eo::cons and p (and q))", "(and p q)"),
        ("(eo::list_len and (and p q))", "2"),
        ("(eo::list_concat and (and p) (and q))", "(and p q)"),
        ("(eo::list_nth and (and p q) 1)", "q"),
        ("(eo::list_find and (and p q) q)", "1"),
        ("(eo::list_rev and (and p q))", "(and q p)"),
        ("(eo::list_erase and (and p q) p)", "(and q)"),
        ("(eo::list_setof and (and p p q))", "(and p q)"),
        ("(eo::list_minclude and (and p q) (and p))", "true"),
    ];
    assert_none(&rt, wrong_term(rt.alloc(), ROWS));
}

// ---- texts that are made

/// A file, and the lines of `v`.
type Made<'a> = (Long<'a>, Long<'a>);

fn is_shown_by(alloc: Global, row: Made<'_>) -> Result<bool, AllocError> {
    let (file, lines) = row;
    let text = long_text(alloc, &file)?;
    let want = long_text(alloc, &lines)?;
    shows(alloc, text.as_bytes(), want.as_bytes())
}

fn wrong_made(alloc: Global, rows: &[Made<'static>]) -> Option<usize> {
    first_wrong(alloc, rows, is_shown_by)
}

#[test]
fn shared_parts(rt: HostRuntime) {
    const ROWS: &[Made<'static>] = &[(
        (
            "(declare-const a Bool)(declare-const f (-> Bool Bool Bool))(define d0 () (f a a))",
            64,
            "(define d^ () (f d~ d~))",
            "(define v () d64)",
        ),
        (
            "(define @s1 () (f a a))\n",
            64,
            "(define @s& () (f @s^ @s^))\n",
            "",
        ),
    )];
    assert_none(&rt, wrong_made(rt.alloc(), ROWS));
}

#[test]
fn wide_parts(rt: HostRuntime) {
    const APPLIED: &str = "(declare-const a Bool)(declare-const f Bool)(define v () (f";
    const LISTED: &str =
        "(declare-const p Bool)(declare-const and (-> Bool Bool Bool) :right-assoc-nil true)\
(define v () (and";
    const ROWS: &[Made<'static>] = &[
        (
            (APPLIED, 64, " a", "))"),
            ("(define @s1 () (f", 64, " a", "))\n"),
        ),
        (
            (APPLIED, 65, " a", "))"),
            ("(define @s1 () (_ (f", 64, " a", ") a))\n"),
        ),
        (
            (LISTED, 1_000, " p", "))"),
            ("(define @s1 () (and", 1_000, " p", "))\n"),
        ),
        (
            (LISTED, 1_001, " p", "))"),
            ("(define @s1 () (_ and p (and", 1_000, " p", ")))\n"),
        ),
    ];
    assert_none(&rt, wrong_made(rt.alloc(), ROWS));
}

#[test]
fn deep_and_long_parts(rt: HostRuntime) {
    const NEGATED: &str =
        "(declare-const p Bool)(declare-const not (-> Bool Bool))(define n0 () p)";
    const NOT: &str = "(define n^ () (not n~))";
    const TEXT: &str = "(declare-const s Bool)(define v () (s \"";
    const ROWS: &[Made<'static>] = &[
        (
            (NEGATED, 63, NOT, "(define v () n63)"),
            (
                "(define @s1 () ",
                63,
                "(not ",
                "p))))))))))))))))))))))))))))))))))))))))))))))))))))))))))))))))\n",
            ),
        ),
        (
            (NEGATED, 64, NOT, "(define v () n64)"),
            (
                "(define @s1 () ",
                63,
                "(not ",
                "p))))))))))))))))))))))))))))))))))))))))))))))))))))))))))))))))\n\
(define @s2 () (not @s1))\n",
            ),
        ),
        (
            (TEXT, 4_093, "x", "\"))"),
            ("(define @s1 () (s \"", 4_093, "x", "\"))\n"),
        ),
        (
            (TEXT, 4_094, "x", "\"))"),
            (
                "(define @s1 () \"",
                4_094,
                "x",
                "\")\n(define @s2 () (s @s1))\n",
            ),
        ),
    ];
    assert_none(&rt, wrong_made(rt.alloc(), ROWS));
}
