//! An observer that compares what it is shown with what is to be seen of a command.
use eo_base::Place;
use eo_session::{Act, Note, Observer, Origin, StepNote};
use eo_sig::{Signature, growth_law};
use eo_term::Table;
use eo_type::Types;
use std::alloc::AllocError;

/// What is to be seen of a command.
#[derive(Clone, Copy, PartialEq, Eq)]
pub(super) enum Kind {
    Declare,
    Define,
    Assert,
    Assume,
    Push,
    Step,
    Pop,
    Other,
    /// The command is refused, and is not shown.
    Refused,
}

/// A text, what is to be seen of its command, how many scopes are open before it, and the numbers of the
/// commands that made its premises.
pub(super) type Noted<'a> = (&'a [u8], Kind, usize, &'a [u64]);

/// What is to be seen of one command, and what is seen.
#[derive(Drop)]
pub(super) struct Watcher<'a> {
    text: &'a [u8],
    kind: Kind,
    depth: usize,
    premises: &'a [u64],
    place: Place,
    number: u64,
    from_reference: bool,
    /// How many commands are shown.
    shown: usize,
    /// Whether all that is shown is right.
    right: bool,
}

impl<'a> Watcher<'a> {
    /// Nothing is shown yet of a command, before which so many are accepted.
    pub(super) fn new(row: Noted<'a>, from: Origin, number: u64) -> Watcher<'a> {
        let (text, kind, depth, premises) = row;
        Watcher {
            text,
            kind,
            depth,
            premises,
            place: place_of(from, number),
            number,
            from_reference: is_reference(from),
            shown: 0,
            right: true,
        }
    }

    /// The bytes of the command.
    pub(super) fn text(&self) -> &'a [u8] {
        self.text
    }

    /// The place of the command.
    pub(super) fn place(&self) -> Place {
        self.place
    }

    /// Whether what is seen is right where the command is accepted: it is shown once.
    pub(super) fn is_seen(&self) -> bool {
        self.right & (self.shown == 1)
    }

    /// Whether what is seen is right where the command is refused: it is not shown.
    pub(super) fn is_unseen(&self) -> bool {
        (self.kind == Kind::Refused) & (self.shown == 0)
    }

    // Whether these are the bytes of the command, and this is what is to be noted of it.
    fn is_right(&self, bytes: &[u8], note: &Note) -> bool {
        let bytes_right = bytes == self.text;
        let place_right = note.place == self.place;
        let counts_right = (note.number == self.number) & (note.depth == self.depth);
        let origin_right = note.from_reference == self.from_reference;
        let act_right = self.is_act(&note.act);
        bytes_right & place_right & counts_right & origin_right & act_right
    }

    // Whether this is what the command is to do.
    fn is_act(&self, act: &Act) -> bool {
        match act {
            Act::Declare => self.kind == Kind::Declare,
            Act::Define => self.kind == Kind::Define,
            Act::Assert(_) => self.kind == Kind::Assert,
            Act::Assume(_) => self.kind == Kind::Assume,
            Act::Push(_) => self.kind == Kind::Push,
            Act::Step(step) => (self.kind == Kind::Step) & self.has_premises(step),
            Act::Pop(step) => (self.kind == Kind::Pop) & self.has_premises(step),
            Act::Other => self.kind == Kind::Other,
        }
    }

    // Whether a step has the premises that the command is to have.
    fn has_premises(&self, step: &StepNote) -> bool {
        step.premises.as_slice() == self.premises
    }
}

impl Observer for Watcher<'_> {
    ghost use Rattle.std.specs.Prelude.{List};
    ghost use Rattle.eo_session.specs.Notes.{Seen};

    ghost tells = { λ w l. Unit {0} };

    fn watches(&self) -> bool {
        true
    }

    fn accepted(
        &mut self,
        sig: &Signature,
        table: &mut Table,
        types: &mut Types,
        bytes: &[u8],
        note: &Note,
    ) -> Result<(), AllocError> {
        table.laws();
        growth_law();
        let right = self.is_right(bytes, note);
        self.right &= right;
        self.shown = self.shown.saturating_add(1);
        Ok(())
    }
}

// A place of its own for each command.
fn place_of(from: Origin, number: u64) -> Place {
    Place {
        file: from.file(),
        line: 1,
        offset: number,
    }
}

fn is_reference(from: Origin) -> bool {
    match from {
        Origin::Reference(_) => true,
        _ => false,
    }
}
