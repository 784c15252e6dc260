//! Texts that are made.
use std::alloc::{AllocError, Global};
use std::fmt::Write;

/// A long text: what it begins with, how many pieces follow, such a piece, and what it ends with. In
/// a piece `~` stands for its number, from 0 on, `^` for the number after it, `&` for the one after
/// that, and `%` for sixteen hexadecimal digits of its number.
pub type Long<'a> = (&'a str, u32, &'a str, &'a str);

/// Such a text, written out.
pub fn long_text(alloc: Global, long: &Long<'_>) -> Result<String, AllocError> {
    let (start, count, piece, end) = *long;
    let mut text = String::from_str(alloc, start)?;
    push_pieces(&mut text, count, piece)?;
    text.push_str(end)?;
    Ok(text)
}

fn push_pieces(text: &mut String, count: u32, piece: &str) -> Result<(), AllocError> {
    for i in 0..count {
        push_piece(text, i, piece)?;
    }
    Ok(())
}

fn push_piece(text: &mut String, number: u32, piece: &str) -> Result<(), AllocError> {
    for c in piece.chars() {
        push_char(text, number, c)?;
    }
    Ok(())
}

fn push_char(text: &mut String, number: u32, c: char) -> Result<(), AllocError> {
    match c {
        '~' => write!(text, "{number}"),
        '^' => push_later(text, number, 1),
        '&' => push_later(text, number, 2),
        '%' => write!(text, "{number:016x}"),
        _ => text.push(c),
    }
}

fn push_later(text: &mut String, number: u32, more: u8) -> Result<(), AllocError> {
    let later = u64::from(number) + u64::from(more);
    write!(text, "{later}")
}

/// A text, and then another.
pub fn join_texts(alloc: Global, first: &[u8], second: &[u8]) -> Result<Vec<u8>, AllocError> {
    let mut both = first.to_vec(alloc)?;
    both.extend_from_slice(second)?;
    Ok(both)
}
