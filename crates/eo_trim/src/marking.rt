//! The needed commands of a run, by one pass from its end to its front.
ghost use Rattle.std.specs.Prelude.{◌≡◌, ◌<◌, ◌∷◌, ◌++◌, [], ℕ, List, Some, length, IfOk, IfSome, option_to_list, slice_get};
ghost use Rattle.eo_trim.specs.Entries.{Entry};
ghost use Rattle.eo_trim.specs.Marking.{is_marked, AreMarked, MarksMore, IsBelow, AreBelow, is_head_needed, is_kind_needed};
ghost use Rattle.eo_trim.specs.Marking.{scope_number, needs_with, entry_needs};

use crate::entries::{Entries, Head, Kind, OpenScope};
use std::alloc::{AllocError, Global};

/// A mark for each command, by its number: whether it is needed, where the commands with the
/// numbers `last` are needed at the end.
pub(crate) fn needed_commands(
    alloc: Global,
    entries: &Entries,
    last: Option<u64>,
) -> Result<Vec<bool>, AllocError>
    ensures marks { AreBelow (length entries.now) entries.now
        → IfOk result (λ marks. AreMarked marks.items (entry_needs (option_to_list last) entries.now)) }
    ensures all { IfOk result (λ marks. length marks.items ≡ length entries.now) }
{
    let mut marks = vec![in alloc; false; entries.len()]?;
    mark_from(entries, &mut marks, last);
    Ok(marks)
}

/// Marks what the commands need, where these are needed at the end, and nothing is marked before.
fn mark_from(entries: &Entries, marks: &mut [bool], last: Option<u64>)
    requires none { AreMarked marks.old [] }
    ensures same { length marks.new ≡ length marks.old }
    ensures marks { AreBelow (length marks.old) entries.now → AreMarked marks.new (entry_needs (option_to_list last) entries.now) }
{
    mark_option(marks, last);
    mark_needs(entries, marks);
}

/// Marks what the commands need, from the last to the first.
fn mark_needs(entries: &Entries, marks: &mut [bool])
    ensures same { length marks.new ≡ length marks.old }
    ensures marks { AreBelow (length marks.old) entries.now → (last : List ℕ)
        → AreMarked marks.old last → AreMarked marks.new (entry_needs last entries.now) }
{
    let mut left = entries.len();
    while left > 0 {
        left -= 1;
        mark_need(entries, left, marks);
    }
}

/// Marks a command and what it needs, if it is needed.
fn mark_need(entries: &Entries, i: usize, marks: &mut [bool])
    requires there { i < length entries.now }
    ensures same { length marks.new ≡ length marks.old }
    ensures marks { (e : Entry) → slice_get entries.now i ≡ Some e → IsBelow (length marks.old) e.head → (later : List ℕ)
        → AreMarked marks.old later → AreMarked marks.new (needs_with e later) }
{
    let head = entries.head(i);
    if is_needed(&head, marks) {
        mark_all(marks, entries.premises(i));
        mark_scope(marks, &head.scope);
        mark(marks, head.number);
    }
}

/// Whether a command is needed, where these are that come after it.
fn is_needed(head: &Head, marks: &[bool]) -> bool
    ensures needed { IsBelow (length marks.now) head.now → (later : List ℕ)
        → AreMarked marks.now later → result ≡ is_head_needed head.now later }
{
    !head.in_proof | has_mark(marks, head.number) | is_kind_needed(&head.scope, head.kind, marks)
}

/// Whether a command outside all scopes is needed for what it is, and one in a scope for the scope.
fn is_kind_needed(scope: &Option<OpenScope>, kind: Kind, marks: &[bool]) -> bool
    ensures needed { IfSome scope.now (λ (s : OpenScope). s.number < length marks.now) → (later : List ℕ)
        → AreMarked marks.now later → result ≡ is_kind_needed scope.now kind later }
{
    match scope {
        None => match kind {
            Kind::Plain => true,
            Kind::Define => true,
            Kind::Step => false,
            Kind::Pop => false,
        },
        Some(scope) => match kind {
            Kind::Plain => false,
            Kind::Define => has_mark(marks, scope.number),
            Kind::Step => false,
            Kind::Pop => scope.elsewhere,
        },
    }
}

/// Whether this number is marked.
pub(crate) fn has_mark(marks: &[bool], number: u64) -> bool
    ensures marked { result ≡ is_marked marks.now number }
{
    match marks.get(number as usize) {
        Some(marked) => *marked,
        None => false,
    }
}

/// Marks this number, if there is a mark for it.
fn mark(marks: &mut [bool], number: u64)
    ensures marks { MarksMore marks.old marks.new (number ∷ []) }
{
    let i = number as usize;
    if i < marks.len() {
        marks[i] = true;
    }
}

/// Marks these numbers.
fn mark_all(marks: &mut [bool], numbers: &[u64])
    ensures marks { MarksMore marks.old marks.new numbers.now }
{
    for number in numbers {
        mark(marks, *number);
    }
}

/// Marks the number of the command that opened a scope.
fn mark_scope(marks: &mut [bool], scope: &Option<OpenScope>)
    ensures marks { MarksMore marks.old marks.new (scope_number scope.now) }
{
    if let Some(scope) = scope {
        mark(marks, scope.number);
    }
}

/// Marks a number, if there is one.
fn mark_option(marks: &mut [bool], number: Option<u64>)
    ensures marks { MarksMore marks.old marks.new (option_to_list number) }
{
    if let Some(number) = number {
        mark(marks, number);
    }
}
