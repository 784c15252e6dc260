//! Texts in pieces of every size against answers that were worked out by hand.
ghost use Rattle.std.specs.Prelude.{◌<◌, ◌≤◌, length};

use answers::Answers;
use std::alloc::Global;
use std::process::Abort;
use std::test::Fail;

mod answers;

// The size of the pieces of a long text.
const PIECE: usize = 65_536;

/// A text, and the answer to it.
type Row<'a> = (&'a [u8], &'a str);

// Checks the answer to each text of a proof, or of another file.
fn check_all(rt: &impl Abort, alloc: Global, proof: bool, rows: &[Row<'_>]) -> Result<(), Fail> {
    for (text, want) in rows {
        check(rt, alloc, proof, *text, *want)?;
    }
    Ok(())
}

// Checks the answer to a text in pieces of 1 byte, of 3, of 7, and in two at every place.
fn check(rt: &impl Abort, alloc: Global, proof: bool, text: &[u8], want: &str) -> Result<(), Fail> {
    for size in [1usize, 3, 7] {
        in_pieces(rt, alloc, proof, text, size, want)?;
    }
    for at in 0..=text.len() {
        in_two(rt, alloc, proof, text, at, want)?;
    }
    Ok(())
}

// This and whatever else makes answers owns them alone, and drops them by a call: each exit of a
// function that drops them itself is expensive to prove.
fn in_pieces(
    rt: &impl Abort,
    alloc: Global,
    proof: bool,
    text: &[u8],
    size: usize,
    want: &str,
) -> Result<(), Fail>
    requires { 0 < size }
{
    let mut answers = Answers::new(alloc, proof)?;
    let told = answer_in_pieces(rt, &mut answers, text, size, want);
    drop(answers);
    told
}

fn answer_in_pieces(
    rt: &impl Abort,
    answers: &mut Answers,
    text: &[u8],
    size: usize,
    want: &str,
) -> Result<(), Fail>
    requires { 0 < size }
{
    for piece in text.chunks(size) {
        answers.feed(rt, piece)?;
    }
    finish(rt, answers, want, "in pieces of", size)
}

fn in_two(
    rt: &impl Abort,
    alloc: Global,
    proof: bool,
    text: &[u8],
    at: usize,
    want: &str,
) -> Result<(), Fail>
    requires { at ≤ length text.now }
{
    let mut answers = Answers::new(alloc, proof)?;
    let told = answer_in_two(rt, &mut answers, text, at, want);
    drop(answers);
    told
}

fn answer_in_two(
    rt: &impl Abort,
    answers: &mut Answers,
    text: &[u8],
    at: usize,
    want: &str,
) -> Result<(), Fail>
    requires { at ≤ length text.now }
{
    let (front, back) = text.split_at(at);
    answers.feed(rt, front)?;
    answers.feed(rt, back)?;
    finish(rt, answers, want, "cut at", at)
}

// Ends the text, and compares the answer with the expected one. A difference is reported with how
// the text was fed.
fn finish(
    rt: &impl Abort,
    answers: &mut Answers,
    want: &str,
    fed: &str,
    size: usize,
) -> Result<(), Fail> {
    answers.finish()?;
    assert_eq!(rt; answers.text(), want, "{fed} {size}");
    Ok(())
}

const PLAIN_FILES: &[Row<'static>] = &[
    (b"", "end 1:0 "),
    (
        b"(declare-const p Bool))",
        "1:0 (sdeclare-const sp sBool )ExtraClose 1:22 ",
    ),
    (b"(include \"b", "Unclosed 1:11 "),
    (b"()x", "1:0 ()1:2 sx end 1:3 "),
    (b"unsat\n", "1:0 sunsat end 2:6 "),
    (b"a\r\nb", "1:0 sa 2:3 sb end 2:4 "),
    (
        b"a;\x00\xff|\"(\rb;c\n\td",
        "1:0 sa 1:8 sb 2:13 sd end 2:14 ",
    ),
    (b"(a ; )\n;)\r)", "1:0 (sa )end 2:11 "),
    (
        b":k a:b#c #b01 -5 5x - -a #",
        "1:0 k:k 1:3 sa:b#c 1:9 n#b01 1:14 n-5 1:17 n5x 1:20 s- 1:22 s-a 1:25 n# end 1:26 ",
    ),
    (b"|a b|c||5", "1:0 sa b 1:5 sc 1:6 s 1:8 n5 end 1:9 "),
    (b"\"a\"\"b\"c", "1:0 ta\"\"b 1:6 sc end 1:7 "),
    (b"\"\"\"\" \"\"", "1:0 t\"\" 1:5 t end 1:7 "),
    (
        b"(a(b c)\"d\"|e|)f",
        "1:0 (sa (sb sc )td se )1:14 sf end 1:15 ",
    ),
    (b"a{", "1:0 sa BadByte 1:1 "),
    (b"\"s\"\x7f", "1:0 ts BadByte 1:3 "),
    (b"|a\\b|", "BadByte 1:2 "),
    (b"(a\n\x7f)", "BadByte 2:3 "),
    (b"\x80", "BadByte 1:0 "),
    (b"'", "BadByte 1:0 "),
    (b" )", "ExtraClose 1:1 "),
    (b"\"a", "Unclosed 1:2 "),
    (b"|a", "Unclosed 1:2 "),
    (b"(;x", "Unclosed 1:3 "),
    (b"\"a\"", "1:0 ta end 1:3 "),
];

#[test]
fn plain_files(rt: HostRuntime) -> Result<(), Fail> {
    check_all(&rt, rt.alloc(), false, PLAIN_FILES)
}

const PROOFS: &[Row<'static>] = &[
    (b"(include \"b", "Unclosed 1:11 "),
    (
        b"(assume @p1 true))",
        "1:0 (sassume s@p1 strue )ExtraClose 1:17 ",
    ),
    (b"unsat\n", "end 2:6 "),
    (b"unsat", "end 1:5 "),
    (b"unsat unsat", "1:6 sunsat end 1:11 "),
    (b"unsat(a)", "1:5 (sa )end 1:8 "),
    (b"unsat((a)b)", "1:6 (sa )1:9 sb end 1:11 "),
    (b"|unsat|", "1:0 sunsat end 1:7 "),
    (b"unsatx", "1:0 sunsatx end 1:6 "),
    (b"a unsat", "1:0 sa 1:2 sunsat end 1:7 "),
    (
        b"(\n(assume @p1 false)\n",
        "2:2 (sassume s@p1 sfalse )Unclosed 3:21 ",
    ),
    (b"()x", "ExtraClose 1:2 "),
    (b"() ;x\n", "end 2:6 "),
    (b"(){", "BadByte 1:2 "),
    (b"()|", "ExtraClose 1:2 "),
    (
        b"( ;(\n\t((a) b) \"c\" )",
        "2:6 ((sa )sb )2:14 tc end 2:19 ",
    ),
    (b"( ;)\r a)", "1:0 (sa )end 1:8 "),
    (b"( {", "BadByte 1:2 "),
    (b"(a)(b)", "1:0 (sa )1:3 (sb )end 1:6 "),
    (b"a((b))", "1:0 sa 1:1 ((sb ))end 1:6 "),
    (b"(", "Unclosed 1:1 "),
];

#[test]
fn proofs(rt: HostRuntime) -> Result<(), Fail> {
    check_all(&rt, rt.alloc(), true, PROOFS)
}

// A command of each kind, with comments, strings and symbols after words and before them.
const COMMANDS: &[Row<'static>] = &[
    (
        b"(declare-const |p q| Bool) ;c\n",
        "1:0 (sdeclare-const sp q sBool )end 2:30 ",
    ),
    (
        b"(declare-type T(Type));)\n",
        "1:0 (sdeclare-type sT (sType ))end 2:25 ",
    ),
    (
        b"(define f((x Int)(y |a;b|))\n\t(> x -5)) ; (\n",
        "1:0 (sdefine sf ((sx sInt )(sy sa;b ))(s> sx n-5 ))end 3:43 ",
    ),
    (
        b"(define-type\rS () Int)",
        "1:0 (sdefine-type sS ()sInt )end 1:22 ",
    ),
    (
        b"(program f ((x Int)):signature(Int)Int(((f x)\"a;)\"\"\")));\r",
        "1:0 (sprogram sf ((sx sInt ))k:signature (sInt )sInt (((sf sx )ta;)\"\" )))end 1:57 ",
    ),
    (
        b"(declare-rule r((a Bool)) :premises(a\"b\"c|d|)\n:conclusion a)",
        "1:0 (sdeclare-rule sr ((sa sBool ))k:premises (sa tb sc sd )k:conclusion sa )end 2:60 ",
    ),
    (
        b"(include \"../a b.eo\" ; )\n)",
        "1:0 (sinclude t../a b.eo )end 2:26 ",
    ),
    (
        b"(reference \"f;\n(\"g)",
        "1:0 (sreference tf;\n( sg )end 2:19 ",
    ),
    (
        b"(assume @p1(= x \"\"))(assume-push @p2|c|)",
        "1:0 (sassume s@p1 (s= sx t ))1:20 (sassume-push s@p2 sc )end 1:40 ",
    ),
    (
        b"(step @p3 false:rule r:premises (@p1 @p2);c\n :args(0 #b01\"s\"))",
        "1:0 (sstep s@p3 sfalse:rule sr:premises (s@p1 s@p2 )k:args (n0 n#b01 ts ))end 2:62 ",
    ),
    (
        b"(step-pop @p4 :rule;\"|\rr)()",
        "1:0 (sstep-pop s@p4 k:rule sr )1:25 ()end 1:27 ",
    ),
    (
        b"(set-info :source |a\n;b|)\n(echo\"done\")",
        "1:0 (sset-info k:source sa\n;b )3:26 (secho tdone )end 3:38 ",
    ),
];

#[test]
fn commands(rt: HostRuntime) -> Result<(), Fail> {
    check_all(&rt, rt.alloc(), false, COMMANDS)
}

// Whether a string may have the byte inside of its quotes, undoubled.
fn may_stand(x: u8) -> bool {
    matches!(x, 9 | 10 | 13 | 32 | 33 | 35..=126 | 128..=255)
}

// Checks the answer to a string of this byte and a doubled quote.
fn check_byte(rt: &impl Abort, alloc: Global, x: u8) -> Result<(), Fail> {
    let text = [b'"', x, b'"', b'"', b'"'];
    if may_stand(x) {
        check_string(rt, alloc, &text, x)
    } else {
        check(rt, alloc, false, &text, "BadByte 1:1 ")
    }
}

// The same for a byte that is allowed there.
fn check_string(rt: &impl Abort, alloc: Global, text: &[u8], x: u8) -> Result<(), Fail> {
    let end = if x == 10 { "2:5 " } else { "1:5 " };
    let want = format!(in alloc; "1:0 t{}\"\" end {end}", x as char)?;
    let told = check(rt, alloc, false, text, want.as_str());
    drop(want);
    told
}

#[test]
fn every_byte_of_a_string(rt: HostRuntime) -> Result<(), Fail> {
    for x in 0u8..=255 {
        if x != b'"' {
            check_byte(&rt, rt.alloc(), x)?;
        }
    }
    Ok(())
}

/// Whether it is a proof, and its text: bytes before a byte that is there so many times, and
/// bytes after. At the end the answer.
type LongRow<'a> = (bool, &'a [u8], u8, usize, &'a [u8], &'a str);

const LIMITS: &[LongRow<'static>] = &[
    (false, b"", b'(', 100_000, b"", "Unclosed 1:100000 "),
    (false, b"", b'(', 100_001, b"", "Nesting 1:100000 "),
    (true, b"", b'(', 100_001, b"", "Unclosed 1:100001 "),
    (true, b"", b'(', 100_002, b"", "Nesting 1:100001 "),
    (false, b"", b'a', 1_048_577, b"", "TokenLong 1:1048576 "),
    (false, b"\"", b'a', 1_048_575, b"\"", "TokenLong 1:1048576 "),
    (false, b"(|", b'a', 1_048_575, b"|)", "TokenLong 1:1048577 "),
    (false, b"\"", b'a', 1_048_575, b"\x7f", "BadByte 1:1048576 "),
    (
        false,
        b"(;",
        b'x',
        16_777_212,
        b"\n)",
        "1:0 ()end 2:16777216 ",
    ),
    (
        false,
        b"(;",
        b'x',
        16_777_213,
        b"\n)",
        "CommandLong 2:16777216 ",
    ),
];

fn check_long(rt: &impl Abort, alloc: Global, row: &LongRow<'_>) -> Result<(), Fail> {
    let mut answers = Answers::new(alloc, row.0)?;
    let told = answer_long(rt, alloc, &mut answers, row);
    drop(answers);
    told
}

fn answer_long(
    rt: &impl Abort,
    alloc: Global,
    answers: &mut Answers,
    row: &LongRow<'_>,
) -> Result<(), Fail> {
    let (_, front, x, count, back, want) = *row;
    answers.feed(rt, front)?;
    feed_many(rt, alloc, answers, x, count)?;
    answers.feed(rt, back)?;
    finish(rt, answers, want, "bytes of a kind:", count)
}

// Feeds a byte so many times.
fn feed_many(
    rt: &impl Abort,
    alloc: Global,
    answers: &mut Answers,
    x: u8,
    count: usize,
) -> Result<(), Fail> {
    let mut fill = Vec::new(alloc);
    let fed = match fill.resize(PIECE, x) {
        Ok(()) => feed_pieces(rt, answers, fill.as_slice(), count),
        Err(e) => Err(e.into()),
    };
    drop(fill);
    fed
}

// Feeds so many of the bytes, again and again.
fn feed_pieces(
    rt: &impl Abort,
    answers: &mut Answers,
    bytes: &[u8],
    count: usize,
) -> Result<(), Fail>
    requires { 0 < length bytes.now }
{
    for _ in 0..count / bytes.len() {
        answers.feed(rt, bytes)?;
    }
    answers.feed(rt, &bytes[..count % bytes.len()])
}

#[test]
fn limits(rt: HostRuntime) -> Result<(), Fail> {
    for row in LIMITS {
        check_long(&rt, rt.alloc(), row)?;
    }
    Ok(())
}

#[test]
fn width(rt: HostRuntime) -> Result<(), Fail> {
    let mut answers = Answers::new(rt.alloc(), false)?;
    let told = answer_wide(&rt, &mut answers);
    drop(answers);
    told
}

fn answer_wide(rt: &impl Abort, answers: &mut Answers) -> Result<(), Fail> {
    answers.feed(rt, b"(")?;
    for _ in 0..65_537 {
        answers.feed(rt, b"a ")?;
    }
    finish(rt, answers, "Width 1:131073 ", "atoms:", 65_537)
}
