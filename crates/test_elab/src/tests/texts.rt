//! Parts of texts that come many times.
use std::fmt::Write;
use std::test::Fail;

/// So many times the word, and a space after each.
pub(super) fn push_times(text: &mut String, count: usize, word: &str) -> Result<(), Fail> {
    for _ in 0..count {
        text.push_str(word)?;
        text.push(' ')?;
    }
    Ok(())
}

/// So many parameters of a type: `x0`, `x1`, ..
pub(super) fn push_parameters(text: &mut String, count: usize, ty: &str) -> Result<(), Fail> {
    for i in 0..count {
        write!(text, "(x{i} {ty})")?;
    }
    Ok(())
}
