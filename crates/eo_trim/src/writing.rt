//! The text of a trimmed proof.
ghost use Rattle.std.specs.Prelude.{◌≡◌, ◌<◌, ◌++◌, Some, length, IfOk, OnOk, slice_get, All};
ghost use Rattle.eo_trim.specs.Entries.{Entry};
ghost use Rattle.eo_trim.specs.Marking.{is_marked, line_of, text_of, IsBelow};

use crate::entries::Entries;
use crate::marking::has_mark;
use std::alloc::{AllocError, Global};

/// The bytes of the proof's commands that are marked, each followed by a line feed.
pub(crate) fn trimmed_text(
    alloc: Global,
    entries: &Entries,
    marks: &[bool],
) -> Result<Vec<u8>, AllocError>
    ensures text { IfOk result (λ text. text.items ≡ text_of (is_marked marks.now) entries.now) }
{
    let mut text = Vec::new(alloc);
    for i in 0..entries.len() {
        push_line(&mut text, entries, i, marks)?;
    }
    Ok(text)
}

/// Adds a command and a line feed to the text, if it is in the proof and is marked.
fn push_line(
    text: &mut Vec<u8>,
    entries: &Entries,
    i: usize,
    marks: &[bool],
) -> Result<(), AllocError>
    requires there { i < length entries.now }
    ensures line { OnOk result ((e : Entry) → slice_get entries.now i ≡ Some e
        → text.new.items ≡ text.old.items ++ line_of (is_marked marks.now) e) }
{
    let head = entries.head(i);
    if head.in_proof & has_mark(marks, head.number) {
        text.extend_from_slice(entries.bytes(i))?;
        text.push(b'\n')?;
    }
    Ok(())
}
