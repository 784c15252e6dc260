//! A session that is fed commands as texts.
ghost use Rattle.std.specs.Prelude.{IsTrue};
ghost use Rattle.eo_sexp.specs.Collecting.{IsAtCommand, IsLive};

use crate::tests::watcher::{Noted, Watcher};
use eo_base::FaultName;
use eo_session::{Origin, Refused, Session};
use eo_sexp::{Collector, Fed, Sexp};
use std::alloc::{AllocError, Global};
use std::marker::Model;
use std::test::Fail;

/// The greatest number of bytes of a text.
const TEXT: usize = 1_000;

/// What a session returns.
#[derive(Clone, Copy, PartialEq, Eq)]
pub(super) enum Answer {
    /// It is accepted, and so many terms are alive then.
    Done(usize),
    Fault(FaultName),
    Ended,
}

/// A text, and what its command is answered.
pub(super) type Row<'a> = (&'a [u8], &'a Answer);

/// A session.
#[derive(Drop)]
pub(super) struct Run {
    alloc: Global,
    session: Session,
}

impl Model for Run {
    ghost use Rattle.std.specs.Prelude.{ℕ};

    ghost Value = { ℕ };

    ghost view = { λ a. 0 };
}

impl Run {
    // Nothing is declared yet.
    fn new(alloc: Global) -> Result<Run, AllocError> {
        let session = Session::new(alloc, false)?;
        Ok(Run { alloc, session })
    }

    /// The first row whose text, as a command of the proof, is answered in another way than the row
    /// says, if one is.
    pub(super) fn wrong(&mut self, rows: &[Row<'_>]) -> Result<Option<usize>, Fail> {
        for i in 0..rows.len() {
            let (text, want) = rows[i];
            if !self.is_right(text, *want)? {
                return Ok(Some(i));
            }
        }
        Ok(None)
    }

    /// Whether the command of a text is answered so.
    pub(super) fn is_right(&mut self, text: &[u8], want: Answer) -> Result<bool, Fail> {
        Ok(self.answer(text)? == want)
    }

    /// Begins the reference file.
    pub(super) fn begin_reference(&mut self) -> Result<(), Fail> {
        match self.session.begin_reference() {
            Ok(()) => Ok(()),
            Err(Refused::Memory(e)) => Err(e.into()),
            Err(_) => Err(Fail::new("a second reference file")),
        }
    }

    /// The first row whose text, as a command of this file, is seen in another way than the row says, if
    /// one is.
    pub(super) fn seen_wrong(
        &mut self,
        rows: &[Noted<'_>],
        from: Origin,
    ) -> Result<Option<usize>, Fail> {
        for i in 0..rows.len() {
            if !self.is_seen_right(rows[i], from)? {
                return Ok(Some(i));
            }
        }
        Ok(None)
    }

    // Whether the command of a row is seen as the row says.
    fn is_seen_right(&mut self, row: Noted<'_>, from: Origin) -> Result<bool, Fail> {
        let Some(text) = read(self.alloc, row.0)? else {
            return Err(Fail::new("no command"));
        };
        let right = is_seen_as(&mut self.session, &text, row, from);
        drop(text);
        right
    }

    // What the command of a text is answered.
    fn answer(&mut self, text: &[u8]) -> Result<Answer, Fail> {
        let Some(text) = read(self.alloc, text)? else {
            return Err(Fail::new("no command"));
        };
        let answer = answer_to(&mut self.session, &text);
        drop(text);
        answer
    }
}

/// What a function returns for a new session. It alone owns one: each way out of a function that does
/// is expensive to prove.
pub(super) fn tell<T, F: FnOnce(&mut Run) -> Result<T, Fail>>(
    alloc: Global,
    f: F,
) -> Result<T, Fail>
    requires { F.IsAlwaysCallable f }
{
    let mut run = Run::new(alloc)?;
    let told = f(&mut run);
    drop(run);
    told
}

// What a session returns to the command of a text.
fn answer_to(session: &mut Session, text: &Text) -> Result<Answer, Fail> {
    match session.command(&text.sexp(), Origin::Proof(0)) {
        Ok(_) => Ok(Answer::Done(session.live())),
        Err(Refused::Fault(name)) => Ok(Answer::Fault(name)),
        Err(Refused::Ended) => Ok(Answer::Ended),
        Err(Refused::Memory(e)) => Err(e.into()),
    }
}

// Whether the command of a text is seen as its row says.
fn is_seen_as(
    session: &mut Session,
    text: &Text,
    row: Noted<'_>,
    from: Origin,
) -> Result<bool, Fail> {
    let mut watcher = Watcher::new(row, from, session.commands());
    let (bytes, place) = (watcher.text(), watcher.place());
    match session.command_by(&text.sexp(), from, bytes, place, &mut watcher) {
        Ok(_) => Ok(watcher.is_seen()),
        Err(Refused::Memory(e)) => Err(e.into()),
        Err(_) => Ok(watcher.is_unseen()),
    }
}

/// A text that is one list, read.
#[derive(Drop)]
struct Text {
    collector: Collector,
}

impl Model for Text {
    ghost use Rattle.std.specs.Prelude.{ℕ};
    ghost use Rattle.eo_sexp.specs.Collecting.{IsAtCommand};

    ghost Value = { ℕ };

    ghost view = { λ a. 0 };

    ghost invariant = { λ a. IsAtCommand a.collector };
}

impl Text {
    fn sexp(&self) -> Sexp<'_> {
        self.collector.command()
    }
}

// The text, where it is one list.
fn read(alloc: Global, text: &[u8]) -> Result<Option<Text>, AllocError> {
    let mut collector = Collector::new(alloc, false)?;
    if is_read(&mut collector, text) {
        return Ok(Some(Text { collector }));
    }
    drop(collector);
    Ok(None)
}

// Whether a text is read up to the end of its first list.
fn is_read(collector: &mut Collector, text: &[u8]) -> bool
    requires { IsLive collector.old }
    ensures { IsTrue result → IsAtCommand collector.new }
{
    let here = collector.here();
    if here.offset > TEXT as u64 || text.len() > TEXT {
        return false;
    }
    match collector.feed(text) {
        Fed::Command { used: _ } => true,
        _ => false,
    }
}
