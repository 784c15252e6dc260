//! An observer that keeps what is needed of a run to trim its proof.
ghost use Rattle.std.specs.Prelude.{◌≡◌, ◌∷◌, ◌++◌, [], not, OnOk};
ghost use Rattle.eo_term.specs.Terms.{Terms};
ghost use Rattle.eo_session.specs.Noting.{read_act, read_note};
ghost use Rattle.eo_session.specs.Notes.{Seen};
ghost use Rattle.eo_trim.specs.Entries.{kind_of, innermost_scope, scopes_with, bytes_if, entry_of, scopes_past};
ghost use Rattle.eo_trim.specs.Needed.{premises_of};
ghost use Rattle.eo_trim.specs.Recording.{first_path, Records};

use crate::entries::{Entries, Head, Kind, OpenScope};
use eo_session::{Act, Note, Observer};
use eo_sig::{Signature, growth_law};
use eo_term::Table;
use eo_type::Types;
use std::alloc::{AllocError, Global};

/// The number of the proof's path, which is the first in the table of paths.
const PROOF: usize = 0;

/// The observer, where the proof's path is the first in the table of paths.
#[derive(Drop)]
pub(crate) struct Recorder {
    pub(crate) entries: Entries,
    /// The scopes that are open, the innermost last.
    pub(crate) scopes: Vec<OpenScope>,
}

impl Recorder {
    /// One that has seen nothing. No memory is taken.
    pub(crate) fn new(alloc: Global) -> Recorder
        ensures begins { Records result [] }
    {
        Recorder {
            entries: Entries::new(alloc),
            scopes: Vec::new(alloc),
        }
    }

    /// Keeps an accepted command.
    fn record(&mut self, bytes: &[u8], note: &Note) -> Result<(), AllocError>
        ensures entries { OnOk result ((t : Terms)
            → self.new.entries ≡ self.old.entries ++ entry_of first_path self.old.scopes.items (read_note t bytes.now note.now) ∷ []) }
        ensures scopes { OnOk result ((t : Terms)
            → self.new.scopes.items ≡ scopes_past first_path self.old.scopes.items (read_note t bytes.now note.now)) }
    {
        let in_proof = note.place.file == PROOF;
        let head = Head {
            number: note.number,
            in_proof,
            kind: kind_of(&note.act),
            scope: self.scopes.last().copied(),
        };
        self.entries
            .push(&head, premises_of(&note.act), bytes_if(in_proof, bytes))?;
        change_scopes(&mut self.scopes, &note.act, note.number, !in_proof)
    }
}

impl Observer for Recorder {
    ghost use Rattle.std.specs.Prelude.{List};
    ghost use Rattle.eo_session.specs.Notes.{Seen};
    ghost use Rattle.eo_trim.specs.Recording.{Records};

    ghost tells = { Records };

    fn watches(&self) -> bool {
        true
    }

    fn accepted(
        &mut self,
        sig: &Signature,
        table: &mut Table,
        types: &mut Types,
        bytes: &[u8],
        note: &Note,
    ) -> Result<(), AllocError> {
        table.laws();
        growth_law();
        self.record(bytes, note)
    }
}

/// What a command does, as far as it counts for what is needed.
fn kind_of(act: &Act) -> Kind
    ensures kind { (t : Terms) → result ≡ kind_of (read_act t act.now) }
{
    match act {
        Act::Define => Kind::Define,
        Act::Assume(_) => Kind::Step,
        Act::Push(_) => Kind::Step,
        Act::Step(_) => Kind::Step,
        Act::Pop(_) => Kind::Pop,
        Act::Declare => Kind::Plain,
        Act::Assert(_) => Kind::Plain,
        Act::Other => Kind::Plain,
    }
}

/// The numbers of the commands that made the premises of a step, and none of another command.
fn premises_of(act: &Act) -> &[u64]
    ensures premises { (t : Terms) → result.now ≡ premises_of (read_act t act.now) }
{
    match act {
        Act::Step(step) => step.premises.as_slice(),
        Act::Pop(step) => step.premises.as_slice(),
        _ => &[],
    }
}

/// These bytes if they are to be kept, and none otherwise.
fn bytes_if(keep: bool, bytes: &[u8]) -> &[u8]
    ensures kept { result.now ≡ bytes_if keep bytes.now }
{
    if keep { bytes } else { &[] }
}

/// The open scopes after a command: one more, one fewer, or the same.
fn change_scopes(
    scopes: &mut Vec<OpenScope>,
    act: &Act,
    number: u64,
    elsewhere: bool,
) -> Result<(), AllocError>
    ensures scopes { OnOk result ((t : Terms) → scopes.new.items ≡ scopes_with scopes.old.items number elsewhere (read_act t act.now)) }
{
    match act {
        Act::Push(_) => {
            scopes.push(OpenScope { number, elsewhere })?;
        }
        Act::Pop(_) => {
            scopes.pop();
        }
        _ => {}
    }
    Ok(())
}
