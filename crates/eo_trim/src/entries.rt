//! What is kept of the accepted commands of a run.
ghost use Rattle.std.specs.Prelude.{◌≡◌, ◌<◌, ◌∷◌, ◌++◌, [], Some, length, OnOk, OnErr, IfOk, slice_get};
ghost use Rattle.eo_trim.specs.Entries.{Entry};

use std::alloc::{AllocError, Global};
use std::marker::Model;

/// What a command does, as far as it counts for what is needed.
#[derive(Clone, Copy, Debug, PartialEq, Eq)]
pub(crate) enum Kind {
    /// It is no step of the proof, and defines no macro.
    Plain,
    /// It defines a macro.
    Define,
    /// It is an assumption or a step, or opens a scope.
    Step,
    /// It closes a scope.
    Pop,
}

/// An open scope.
#[derive(Clone, Copy, Debug)]
pub(crate) struct OpenScope {
    /// The number of the command that opened it.
    pub(crate) number: u64,
    /// Whether that command is in another file than the proof.
    pub(crate) elsewhere: bool,
}

/// What is kept of a command beside its premises and its bytes.
#[derive(Clone, Copy, Debug)]
pub(crate) struct Head {
    /// How many commands were accepted before it.
    pub(crate) number: u64,
    /// Whether it is in the proof.
    pub(crate) in_proof: bool,
    /// What it does.
    pub(crate) kind: Kind,
    /// The innermost scope that is open before it.
    pub(crate) scope: Option<OpenScope>,
}

/// A part of a buffer.
#[derive(Clone, Copy, Debug)]
pub(crate) struct Span {
    pub(crate) start: usize,
    pub(crate) end: usize,
}

/// A command, by its parts of the buffers.
#[derive(Clone, Copy, Debug)]
pub(crate) struct Item {
    pub(crate) head: Head,
    pub(crate) premises: Span,
    pub(crate) bytes: Span,
}

/// The commands of a run in order. The numbers of their premises and the bytes of those of the
/// proof are in one buffer each.
#[derive(Drop)]
pub(crate) struct Entries {
    items: Vec<Item>,
    premises: Vec<u64>,
    bytes: Vec<u8>,
}

impl Model for Entries {
    ghost use Rattle.std.specs.Prelude.{List, length, map, All};
    ghost use Rattle.eo_trim.specs.Entries.{Entry, read_item};
    ghost use Rattle.eo_trim.specs.Keeping.{IsItem};

    ghost Value = { List Entry };

    ghost view = { λ a. map (read_item a.premises.items a.bytes.items) a.items.items };

    ghost invariant = { λ a. All (IsItem (length a.premises.items) (length a.bytes.items)) a.items.items };
}

impl Entries {
    /// None. No memory is taken.
    pub(crate) fn new(alloc: Global) -> Entries
        ensures { result ≡ [] }
    {
        Entries {
            items: Vec::new(alloc),
            premises: Vec::new(alloc),
            bytes: Vec::new(alloc),
        }
    }

    /// How many there are.
    pub(crate) fn len(&self) -> usize
        ensures { result ≡ length self.now }
    {
        self.items.len()
    }

    /// Puts a command at the end.
    pub(crate) fn push(
        &mut self,
        head: &Head,
        premises: &[u64],
        bytes: &[u8],
    ) -> Result<(), AllocError>
        ensures pushed { OnOk result (self.new ≡ self.old ++ record { head = head.now; premises = premises.now; bytes = bytes.now } ∷ []) }
    {
        self.items.reserve(1)?;
        let premises = append(&mut self.premises, premises)?;
        let bytes = append(&mut self.bytes, bytes)?;
        self.items.push_reserved(Item {
            head: *head,
            premises,
            bytes,
        });
        Ok(())
    }

    /// What is kept of a command beside its premises and its bytes.
    pub(crate) fn head(&self, i: usize) -> Head
        requires there { i < length self.now }
        ensures head { (e : Entry) → slice_get self.now i ≡ Some e → e.head ≡ result }
    {
        self.items[i].head
    }

    /// The numbers of the commands that made a command's premises.
    pub(crate) fn premises(&self, i: usize) -> &[u64]
        requires there { i < length self.now }
        ensures premises { (e : Entry) → slice_get self.now i ≡ Some e → e.premises ≡ result.now }
    {
        let span = self.items[i].premises;
        &self.premises[span.start..span.end]
    }

    /// The bytes of a command, or none where it is in another file.
    pub(crate) fn bytes(&self, i: usize) -> &[u8]
        requires there { i < length self.now }
        ensures bytes { (e : Entry) → slice_get self.now i ≡ Some e → e.bytes ≡ result.now }
    {
        let span = self.items[i].bytes;
        &self.bytes[span.start..span.end]
    }
}

/// Puts these at the end of a buffer, and returns where they are. Where there is no memory left, the
/// buffer stays as it is.
fn append<T: Copy>(buffer: &mut Vec<T>, items: &[T]) -> Result<Span, AllocError>
    ensures appended { OnOk result (buffer.new.items ≡ buffer.old.items ++ items.now) }
    ensures span { IfOk result (λ span. (span.start ≡ length buffer.old.items) × (span.end ≡ length buffer.new.items)) }
    ensures same { OnErr result (buffer.new.items ≡ buffer.old.items) }
{
    let start = buffer.len();
    buffer.extend_from_slice(items)?;
    let end = buffer.len();
    Ok(Span { start, end })
}
