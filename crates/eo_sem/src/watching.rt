//! Steps by rules that do not preserve truth, as an observer sees them.
ghost use Rattle.std.specs.Prelude.{◌≡◌, None};
ghost use Rattle.eo_term.specs.Terms.{Terms};
ghost use Rattle.eo_session.specs.Noting.{read_act};
ghost use Rattle.eo_sem.specs.Proving.{uses_other as is_other};
ghost use Rattle.eo_sem.specs.ProveAnswers.{with_place};
ghost use Rattle.eo_sem.specs.Suite.{suite_signature};

use crate::suite_rules::keeps_truth;
use eo_base::Place;
use eo_run::{Act, Note, Observer};
use eo_sig::{Signature, growth_law};
use eo_term::Table;
use eo_type::Types;
use std::alloc::AllocError;

/// The observer that looks for a step by a rule that does not preserve truth.
#[derive(Drop)]
pub(crate) struct Watch {
    /// The place of the first one, if there was one.
    pub(crate) other: Option<Place>,
}

impl Observer for Watch {
    ghost use Rattle.std.specs.Prelude.{◌≡◌};
    ghost use Rattle.eo_sem.specs.ProveAnswers.{other_place};

    ghost tells = { λ w l. w.other ≡ other_place l };

    fn watches(&self) -> bool {
        true
    }

    fn accepted(
        &mut self,
        sig: &Signature,
        table: &mut Table,
        types: &mut Types,
        bytes: &[u8],
        note: &Note,
    ) -> Result<(), AllocError> {
        table.laws();
        growth_law();
        self.other = first_other(self.other, note);
        Ok(())
    }
}

/// The place of the first such step, where that of those before this command is known.
fn first_other(before: Option<Place>, note: &Note) -> Option<Place>
    ensures { (t : Terms) → result ≡ with_place before note.now.place (is_other suite_signature (read_act t note.now.act)) }
{
    match before {
        Some(place) => Some(place),
        None => other_place(note),
    }
}

/// The place of a command, if it is a step by a rule that does not preserve truth.
fn other_place(note: &Note) -> Option<Place>
    ensures { (t : Terms) → result ≡ with_place None note.now.place (is_other suite_signature (read_act t note.now.act)) }
{
    if uses_other(&note.act) {
        Some(note.place)
    } else {
        None
    }
}

/// Whether a command is a step by a rule of the suite that does not preserve truth.
fn uses_other(act: &Act) -> bool
    ensures { (t : Terms) → result ≡ is_other suite_signature (read_act t act.now) }
{
    match act {
        Act::Step(step) => !keeps_truth(step.rule),
        Act::Pop(step) => !keeps_truth(step.rule),
        _ => false,
    }
}
