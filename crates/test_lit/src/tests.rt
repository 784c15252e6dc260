//! Values and spellings that are known.
use eo_lit::{
    BadLiteral, LitRead, StringRefused, read_literal, read_string, write_literal, write_string,
};
use std::alloc::{AllocError, Global};
use std::test::Fail;

const LEAST: &str = "-170141183460469231731687303715884105728";

const GREATEST: &str = "170141183460469231731687303715884105727";

const ONES: &str = "#xffffffffffffffffffffffffffffffff";

const WIDEST: &str =
    "#b00000000000000000000000000000000000000000000000000000000000000000000000000000000000000000000000000000000000000000000000000000001";

/// A word and what it is read as.
type LiteralRow<'a> = (&'a str, &'a LitRead);

// The first word that is read as something else than what is written beside it.
fn misread<'a>(rows: &[LiteralRow<'a>]) -> Option<&'a str> {
    for row in rows {
        if read_literal(row.0.as_bytes()) != Ok(*row.1) {
            return Some(row.0);
        }
    }
    None
}

const LITERALS: &[LiteralRow<'static>] = &[
    ("0", &LitRead::Num(0)),
    ("1024", &LitRead::Num(1024)),
    ("-1", &LitRead::Num(-1)),
    (GREATEST, &LitRead::Num(i128::MAX)),
    (LEAST, &LitRead::Num(i128::MIN)),
    ("#b0", &LitRead::Bits { width: 1, value: 0 }),
    ("#b0110", &LitRead::Bits { width: 4, value: 6 }),
    (
        "#xA5",
        &LitRead::Bits {
            width: 8,
            value: 165,
        },
    ),
    (
        "#x0fC",
        &LitRead::Bits {
            width: 12,
            value: 252,
        },
    ),
    (
        ONES,
        &LitRead::Bits {
            width: 128,
            value: u128::MAX,
        },
    ),
];

#[test]
fn literals(rt: HostRuntime) {
    assert_eq!(rt; misread(LITERALS), None);
}

// The first word that is read as a literal.
fn read_at_all<'a>(words: &[&'a str]) -> Option<&'a str> {
    for word in words {
        if read_literal(word.as_bytes()) != Err(BadLiteral) {
            return Some(word);
        }
    }
    None
}

const NO_LITERALS: &[&str] = &[
    "",
    "007",
    "00",
    "-0",
    "-",
    "-01",
    "+1",
    "--1",
    "1.5",
    "1e3",
    "0x10",
    "170141183460469231731687303715884105728",
    "-170141183460469231731687303715884105729",
    "340282366920938463463374607431768211456",
    "1000000000000000000000000000000000000000000000000000000000000",
    "#",
    "#b",
    "#x",
    "#b2",
    "#xg",
    "#o7",
    "#x000000000000000000000000000000000",
];

#[test]
fn words_that_are_no_literals(rt: HostRuntime) {
    assert_eq!(rt; read_at_all(NO_LITERALS), None);
}

// Whether the word is read as the literal, and what was read is written as the word.
fn is_written_back(alloc: Global, word: &str, want: LitRead) -> Result<bool, AllocError> {
    let Ok(literal) = read_literal(word.as_bytes()) else {
        return Ok(false);
    };
    let text = write_literal(alloc, literal)?;
    Ok(literal == want && text.as_str() == word)
}

// The first word that is read as something else than what is written beside it, or not written so.
fn not_written_back<'a>(
    alloc: Global,
    rows: &[LiteralRow<'a>],
) -> Result<Option<&'a str>, AllocError> {
    for row in rows {
        if !is_written_back(alloc, row.0, *row.1)? {
            return Ok(Some(row.0));
        }
    }
    Ok(None)
}

const WRITTEN: &[LiteralRow<'static>] = &[
    ("0", &LitRead::Num(0)),
    ("-1", &LitRead::Num(-1)),
    (GREATEST, &LitRead::Num(i128::MAX)),
    (LEAST, &LitRead::Num(i128::MIN)),
    ("#b1", &LitRead::Bits { width: 1, value: 1 }),
    ("#b0101", &LitRead::Bits { width: 4, value: 5 }),
    (
        WIDEST,
        &LitRead::Bits {
            width: 128,
            value: 1,
        },
    ),
];

#[test]
fn literals_are_written_and_read_back(rt: HostRuntime) -> Result<(), Fail> {
    assert_eq!(rt; not_written_back(rt.alloc(), WRITTEN)?, None);
    Ok(())
}

/// What is between the quotes, how many characters that is and which is the last, and how they
/// are written.
type StringRow<'a> = (&'a str, usize, u32, &'a str);

// Whether that many characters are read, with this one as the last.
fn are_read_so(characters: &[u32], length: usize, last: u32) -> bool {
    characters.len() == length && characters.last().copied().unwrap_or(0) == last
}

// Whether the text is read as these characters.
fn are_read_back(alloc: Global, text: &str, characters: &[u32]) -> Result<bool, Fail> {
    let read = read_string(alloc, text.as_bytes())?;
    Ok(read.as_slice() == characters)
}

// Whether a string is read and written as its row says, and then read back.
fn is_right(alloc: Global, row: &StringRow<'_>) -> Result<bool, Fail> {
    let (body, length, last, want) = *row;
    let characters = read_string(alloc, body.as_bytes())?;
    let text = write_string(alloc, &characters)?;
    Ok(
        are_read_so(characters.as_slice(), length, last)
            && text.as_str() == want
            && are_read_back(alloc, text.as_str(), characters.as_slice())?,
    )
}

// The first string that is read or written in another way.
fn wrong_string<'a>(alloc: Global, rows: &[StringRow<'a>]) -> Result<Option<&'a str>, Fail> {
    for row in rows {
        if !is_right(alloc, row)? {
            return Ok(Some(row.0));
        }
    }
    Ok(None)
}

const STRINGS: &[StringRow<'static>] = &[
    (r#""#, 0, 0, ""),
    ("a\"\"b", 3, 98, "a\"\"b"),
    (r"\u{2FFFF}", 1, 0x2_ffff, r"\u{2ffff}"),
    (r"\u{30000}", 9, 125, r"\u{5c}u{30000}"),
    (r"\u{5c}u{41}", 6, 125, r"\u{5c}u{41}"),
    (r"\u0041", 1, 65, "A"),
    (r"\u41", 4, 49, r"\u{5c}u41"),
    (r"\u{}", 4, 125, r"\u{5c}u{}"),
    (r"\u{000041}", 10, 125, r"\u{5c}u{000041}"),
    (r"\u{0}", 1, 0, r"\u{0}"),
    (r"\u{1F}", 1, 31, r"\u{1f}"),
    (r"\ud800", 1, 0xd800, r"\u{d800}"),
    ("\\\\", 2, 92, r"\u{5c}\u{5c}"),
    ("\t\r\n", 3, 10, r"\u{9}\u{d}\u{a}"),
    (" ~", 2, 126, " ~"),
    (r"\u{7f}", 1, 127, r"\u{7f}"),
];

#[test]
fn strings_are_read_and_written(rt: HostRuntime) -> Result<(), Fail> {
    assert_eq!(rt; wrong_string(rt.alloc(), STRINGS)?, None);
    Ok(())
}

// Whether the body is refused as that of no string.
fn is_bad(alloc: Global, body: &[u8]) -> bool {
    matches!(read_string(alloc, body), Err(StringRefused::Bad))
}

// The first body that is not refused so.
fn not_bad<'a>(alloc: Global, bodies: &[&'a [u8]]) -> Option<&'a [u8]> {
    for body in bodies {
        if !is_bad(alloc, body) {
            return Some(body);
        }
    }
    None
}

const NO_BODIES: &[&[u8]] = &[
    b"\"",
    b"a\"b",
    b"\"\"\"",
    b"\x00",
    b"\x0b",
    b"\x7f",
    b"a\xc3\xa9",
];

#[test]
fn bodies_that_are_no_strings(rt: HostRuntime) {
    assert_eq!(rt; not_bad(rt.alloc(), NO_BODIES), None);
}
