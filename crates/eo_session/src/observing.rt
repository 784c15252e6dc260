//! Commands that are accepted, as an observer sees them.
ghost use Rattle.std.specs.Prelude.{◌≡◌, List, [], ◌∷◌, ◌++◌, length, OnOk, IsFalse};
ghost use Rattle.eo_sig.specs.Growth.{GrowsUnder};
ghost use Rattle.eo_type.specs.Known.{Fit, StillFit};
ghost use Rattle.eo_session.specs.Notes.{Seen};
ghost use Rattle.eo_session.specs.Noting.{read_note, ActBelow};

use eo_base::{List, Place};
use eo_sig::{Signature, growth_law};
use eo_term::{Id, Ids, Table};
use eo_type::Types;
use std::alloc::AllocError;

/// Numbers of commands.
pub type Numbers = List<u64>;

/// A use of a rule.
#[derive(Drop)]
pub struct StepNote {
    /// The rule's number.
    pub rule: usize,
    /// For each premise, the number of the command that made it a fact.
    pub premises: Numbers,
    /// The values of the arguments.
    pub args: Ids,
    /// What is concluded.
    pub fact: Id,
}

/// What an accepted command does.
#[derive(Drop)]
pub enum Act {
    /// A constant, a program, a rule or the type of a class of literals is declared.
    Declare,
    /// A macro is defined.
    Define,
    /// This is asserted.
    Assert(Id),
    /// This is a fact by an assumption.
    Assume(Id),
    /// A scope is opened with this assumption.
    Push(Id),
    /// A rule's conclusion is a fact.
    Step(StepNote),
    /// The innermost scope is closed, and a rule's conclusion is a fact around it.
    Pop(StepNote),
    /// Nothing is changed.
    Other,
}

/// What is noted of an accepted command. Its terms are those of the session's table.
#[derive(Drop)]
pub struct Note {
    /// Where the command begins.
    pub place: Place,
    /// How many commands were accepted before it, or 2^64 - 1 where there were more.
    pub number: u64,
    /// Whether it is in a reference file.
    pub from_reference: bool,
    /// How many scopes are open before it.
    pub depth: usize,
    /// What it does.
    pub act: Act,
}

/// A type that is shown each accepted command.
pub trait Observer {
    /// The lists of seen commands that the observer may represent. One that keeps all that it sees
    /// represents one list, and one that keeps nothing represents every list.
    ghost tells: { Self → List Seen → Type 0 };

    /// Whether commands are to be shown to it. One that returns `false` represents every list.
    fn watches(&self) -> bool
        ensures { IsFalse result → (l : List Seen) → tells self.now l };

    /// A command with these bytes has passed its checks, and is done next. The signature is that
    /// before the command. Terms that are in the table stay, and each type that is kept. `Err` is out of memory.
    fn accepted(
        &mut self,
        sig: &Signature,
        table: &mut Table,
        types: &mut Types,
        bytes: &[u8],
        note: &Note,
    ) -> Result<(), AllocError>
        requires live { ActBelow (length table.old.trees) note.now.act }
        requires fit { Fit sig.now table.old types.old }
        ensures sees { OnOk result ((l : List Seen) → tells self.old l → tells self.new (l ++ read_note table.old bytes.now note.now ∷ [])) }
        ensures grows { GrowsUnder sig.now table.old table.new }
        ensures fits { StillFit sig.now table.new types.old types.new };
}

/// The observer that keeps nothing.
#[derive(Drop)]
pub struct Nobody;

impl Observer for Nobody {
    ghost use Rattle.std.specs.Prelude.{List};
    ghost use Rattle.eo_session.specs.Notes.{Seen};

    ghost tells = { λ w l. Unit {0} };

    fn watches(&self) -> bool {
        false
    }

    fn accepted(
        &mut self,
        sig: &Signature,
        table: &mut Table,
        types: &mut Types,
        bytes: &[u8],
        note: &Note,
    ) -> Result<(), AllocError> {
        table.laws();
        growth_law();
        Ok(())
    }
}
