//! Reading a file in pieces, and checking each command as it comes, up to one that asks for
//! something.
ghost use Rattle.std.specs.Prelude.{◌≡◌, ◌↔◌, false, IsFalse, OnOk};
ghost use Rattle.eo_base.specs.Limits.{limits};
ghost use Rattle.eo_sexp.specs.Collecting.{IsLive, IsAtCommand, HasRoom};
ghost use Rattle.eo_sexp.specs.Cutting.{IsWaiting};
ghost use Rattle.eo_session.specs.Numbered.{origin_of, number_of};
ghost use Rattle.eo_session.specs.declared.Next.TheVariants.{Done};
ghost use Rattle.eo_run.specs.Run.{is_exit};
ghost use Rattle.eo_run.specs.Reading.{IsOfText, ChecksLast, ShowsLast, ChecksPiece, ChecksEnd};
ghost use Rattle.eo_run.specs.Watching.{IsShown};

use eo_base::{FaultName, Place};
use eo_session::{Next, Observer, Origin, Refused, Session};
use eo_sexp::{Collector, Fed, Finished, Spot, answers_law, pieces_law};

/// Why a file is not read and checked to its end.
#[derive(Clone, Copy)]
pub(crate) enum Stop {
    /// A fault of the file, and its place.
    Fault { name: FaultName, at: Spot },
    /// A call of the library of files failed.
    ReadFault,
    /// There was no memory left.
    Memory,
}

/// A command that asks for a file, or ends its own.
#[derive(Drop)]
pub(crate) struct FileRequest {
    /// What it asks for.
    pub(crate) next: Next,
    /// Its place.
    pub(crate) at: Spot,
    /// The bytes of the piece up to its end.
    pub(crate) used: usize,
}

/// Feeds a piece of a file, and checks each command that it makes whole, up to one that asks for
/// something. The observer is shown those that are accepted.
pub(crate) fn check_piece<O: Observer>(
    collector: &mut Collector,
    from: Origin,
    session: &mut Session,
    observer: &mut O,
    piece: &[u8],
) -> Result<Option<FileRequest>, Stop>
    requires live { IsLive collector.old }
    requires waiting { IsWaiting limits collector.old }
    requires room { HasRoom collector.old piece.now }
    requires going { session.old.ended ≡ false }
    ensures going { OnOk result (session.new.ended ≡ false) }
    ensures checks { ChecksPiece (origin_of from) (IsShown O.tells observer.old observer.new (number_of from)) result session.old.state
        session.new.state collector.old collector.new piece.now }
    ensures of_text { IsOfText result }
{
    pieces_law();
    answers_law();
    let mut rest = piece;
    'commands: loop {
        match collector.feed(rest) {
            Fed::More => return Ok(None),
            Fed::Command { used } => {
                let next = check_command(collector, from, session, observer)?;
                rest = &rest[used..];
                if is_request(&next) {
                    let at = collector.start();
                    let used = piece.len() - rest.len();
                    return Ok(Some(FileRequest { next, at, used }));
                }
            }
            Fed::Fault { name, at } => return Err(Stop::Fault { name, at }),
            Fed::Memory => return Err(Stop::Memory),
        }
    }
}

/// Ends a file, and checks the commands that the end makes whole, up to one that asks for
/// something. Where none does, the collector is after the last byte. The observer is shown those
/// that are accepted.
pub(crate) fn check_end<O: Observer>(
    collector: &mut Collector,
    from: Origin,
    session: &mut Session,
    observer: &mut O,
) -> Result<Option<FileRequest>, Stop>
    requires live { IsLive collector.old }
    requires waiting { IsWaiting limits collector.old }
    requires going { session.old.ended ≡ false }
    ensures going { OnOk result (session.new.ended ≡ false) }
    ensures checks { ChecksEnd (origin_of from) (IsShown O.tells observer.old observer.new (number_of from)) result session.old.state
        session.new.state collector.old collector.new }
    ensures of_text { IsOfText result }
{
    pieces_law();
    answers_law();
    'atoms: loop {
        match collector.finish() {
            Finished::End => return Ok(None),
            Finished::Command => {
                let next = check_command(collector, from, session, observer)?;
                if is_request(&next) {
                    let at = collector.start();
                    return Ok(Some(FileRequest { next, at, used: 0 }));
                }
            }
            Finished::Fault { name, at } => return Err(Stop::Fault { name, at }),
        }
    }
}

/// Checks the last command of the collector, which stays as it is, and shows it to the observer where
/// it is accepted.
fn check_command<O: Observer>(
    collector: &Collector,
    from: Origin,
    session: &mut Session,
    observer: &mut O,
) -> Result<Next, Stop>
    requires command { IsAtCommand collector.now }
    requires going { session.old.ended ≡ false }
    ensures going { OnOk result (session.new.ended ≡ false) }
    ensures checks { ChecksLast (origin_of from) result session.old.state session.new.state collector.now }
    ensures shows { ShowsLast O.tells observer.old observer.new (origin_of from) (number_of from) result session.old.state collector.now }
    ensures of_text { IsOfText result }
{
    if !observer.watches() {
        return check_unseen(collector, from, session);
    }
    let at = collector.start();
    let place = Place {
        file: from.file(),
        line: at.line,
        offset: at.offset,
    };
    match session.command_by(
        &collector.command(),
        from,
        collector.bytes(),
        place,
        observer,
    ) {
        Ok(next) => Ok(next),
        Err(Refused::Fault(name)) => Err(Stop::Fault { name, at }),
        Err(Refused::Ended) => unreachable!(),
        Err(Refused::Memory(_)) => Err(Stop::Memory),
    }
}

/// The same where nobody watches: neither the place of the command nor its bytes are asked for.
fn check_unseen(collector: &Collector, from: Origin, session: &mut Session) -> Result<Next, Stop>
    requires command { IsAtCommand collector.now }
    requires going { session.old.ended ≡ false }
    ensures going { OnOk result (session.new.ended ≡ false) }
    ensures checks { ChecksLast (origin_of from) result session.old.state session.new.state collector.now }
    ensures of_text { IsOfText result }
{
    match session.command(&collector.command(), from) {
        Ok(next) => Ok(next),
        Err(Refused::Fault(name)) => {
            let at = collector.start();
            Err(Stop::Fault { name, at })
        }
        Err(Refused::Ended) => unreachable!(),
        Err(Refused::Memory(_)) => Err(Stop::Memory),
    }
}

/// Whether something is asked for.
fn is_request(next: &Next) -> bool
    ensures { IsFalse result ↔ (next.now ≡ Done) }
{
    match next {
        Next::Done => false,
        Next::Include(_) => true,
        Next::Reference(_) => true,
        Next::Exit => true,
    }
}

/// Whether nothing of the file is read after it.
pub(crate) fn is_exit(next: &Next) -> bool
    ensures { result ≡ is_exit next.now }
{
    matches!(next, Next::Exit)
}
