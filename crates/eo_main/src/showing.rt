//! The value of a name at the end of a file, and the lines that it is shown by.
ghost use Rattle.std.specs.Prelude.{◌≡◌, ◌≢◌, ◌≤◌, [], false, Some};
ghost use Rattle.eo_base.specs.Causes.{Rose};
ghost use Rattle.eo_eval.specs.Outcomes.{IsValueOf};
ghost use Rattle.eo_term.specs.Growth.{tree_in};
ghost use Rattle.eo_run.specs.Answer.{WritesDue};
ghost use Rattle.eo_run.specs.Reading.{LibraryStays};
ghost use Rattle.eo_main.specs.Ends.{EndHasCause, AbsentHasCause};
ghost use Rattle.eo_main.specs.Program.{EndsAs};
ghost use Rattle.eo_main.specs.Showing.{value_lines, named_lines};
ghost use Rattle.eo_main.specs.ShowAnswers.{AnswersShow, AnswersNamed, IsShowAnswer, ShowHasCause, show_answer_due};
ghost use Rattle.eo_main.specs.Unshown.{of_value, of_lines};

use crate::Request;
use eo_base::{Fault, FaultName, Place, Status, Text};
use eo_io::{Library, Paths, Sink};
use eo_run::{LoadEnd, Verdict, load_session, print_line, print_verdict};
use eo_session::{Refused, Session};
use eo_show::{ShowRefused, ShownBytes, show_term};
use eo_term::Id;
use std::alloc::Global;

/// Runs a signature file, and prints the lines of the value that a name has at its end, or why
/// there are none.
pub(crate) fn show<L: Library, W: Sink>(
    alloc: Global,
    file: &Text,
    name: &Text,
    files: &mut L,
    out: &mut W,
) -> Status
    requires { L.open_files files.old ≡ [] }
    ensures exact { EndsAs (Rose (L.faults files.old) (L.faults files.new)) (L.told files.old) result (Some (Request.Show file.now name.now))
        (W.written out.old) (W.written out.new) }
    ensures cause { EndHasCause result (L.faults files.old) (L.faults files.new) (W.faults out.old) (W.faults out.new) }
    ensures usage { result ≢ Status.Usage }
    ensures absent { AbsentHasCause (L.told files.old) (W.written out.old) (W.written out.new) (L.faults files.old) (L.faults files.new) }
    ensures stays { LibraryStays L.told L.open_files L.faults files.old files.new }
{
    let mut paths = Paths::new(alloc);
    let shown = lines_of_name(alloc, file, name.as_bytes(), files, &mut paths);
    print_shown(out, &shown, &paths)
}

/// The lines of the value that a name has at the end of a file. The verdict of the file, where it is
/// refused; and after its last byte `UnknownSymbol`: no macro without parameters has the name, the
/// fault of its evaluation, or `Unprintable`: a part of the value has no spelling.
fn lines_of_name<L: Library>(
    alloc: Global,
    file: &Text,
    name: &[u8],
    files: &mut L,
    paths: &mut Paths,
) -> Result<ShownBytes, Verdict>
    requires no_paths { paths.old ≡ [] }
    requires none_open { L.open_files files.old ≡ [] }
    ensures answers { AnswersShow (L.told files.old) file.now name.now paths.new result }
    ensures cause { ShowHasCause result (L.told files.old) (L.faults files.old) (L.faults files.new) }
    ensures kind { IsShowAnswer paths.new result }
    ensures stays { LibraryStays L.told L.open_files L.faults files.old files.new }
{
    match load_session(alloc, file, files, paths) {
        LoadEnd::Ready { session, end } => lines_at_end(alloc, session, name, &end),
        LoadEnd::Ended(verdict) => Err(verdict),
    }
}

/// The lines of the value that a name has in a session that is not ended, and is dropped. A fault of
/// it has this place.
fn lines_at_end(
    alloc: Global,
    mut session: Session,
    name: &[u8],
    place: &Place,
) -> Result<ShownBytes, Verdict>
    requires { session.ended ≡ false }
    ensures { AnswersNamed place.now result (named_lines session.state name.now) }
{
    let lines = lines_in(alloc, &mut session, name, place);
    drop(session);
    lines
}

/// The same in a session that is lent.
fn lines_in(
    alloc: Global,
    session: &mut Session,
    name: &[u8],
    place: &Place,
) -> Result<ShownBytes, Verdict>
    requires { session.old.ended ≡ false }
    ensures { AnswersNamed place.now result (named_lines session.old.state name.now) }
{
    match session.value_of(name) {
        Ok(id) => lines_of_value(alloc, session, id, place),
        Err(e) => Err(of_value(&e, place)),
    }
}

/// The lines of a value of a session. `Unprintable` at this place: a part of it has no spelling.
fn lines_of_value(
    alloc: Global,
    session: &Session,
    id: Id,
    place: &Place,
) -> Result<ShownBytes, Verdict>
    requires going { session.now.ended ≡ false }
    requires value { IsValueOf session.now.terms id }
    ensures { AnswersNamed place.now result (value_lines session.now.state (tree_in session.now.terms id)) }
{
    match show_term(alloc, session.signature(), session.table(), id) {
        Ok(lines) => Ok(lines),
        Err(e) => Err(of_lines(&e, place)),
    }
}

/// The verdict of what refuses a value, with a fault at this place.
fn of_value(e: &Refused, place: &Place) -> Verdict
    ensures { result ≡ of_value e.now place.now }
{
    match e {
        Refused::Fault(name) => refused_at(*name, place),
        Refused::Ended => Verdict::OutOfMemory,
        Refused::Memory(_) => Verdict::OutOfMemory,
    }
}

/// The verdict of what refuses the lines of a value, with a fault at this place.
fn of_lines(e: &ShowRefused, place: &Place) -> Verdict
    ensures { result ≡ of_lines e.now place.now }
{
    match e {
        ShowRefused::Unprintable => refused_at(FaultName::Unprintable, place),
        ShowRefused::Memory(_) => Verdict::OutOfMemory,
    }
}

/// The verdict of a fault at this place.
fn refused_at(name: FaultName, place: &Place) -> Verdict
    ensures { result ≡ Verdict.Refused (record { name = name; place = place.now }) }
{
    Verdict::Refused(Fault {
        name,
        place: *place,
    })
}

/// Writes the lines, or the line of a verdict, and returns the status that goes with it.
#[tactic(auto, using(crate::proofs::InRange::stop_in_range))]
fn print_shown<W: Sink>(out: &mut W, shown: &Result<ShownBytes, Verdict>, paths: &Paths) -> Status
    requires { IsShowAnswer paths.now shown.now }
    ensures due { WritesDue result (show_answer_due paths.now shown.now) (W.written out.old) (W.written out.new) }
    ensures cause { result ≡ Status.WriteFault → Rose (W.faults out.old) (W.faults out.new) }
    ensures later { W.faults out.old ≤ W.faults out.new }
{
    match shown {
        Ok(lines) => print_line(out, Status::Ok, &[lines.as_slice()]),
        Err(verdict) => print_verdict(out, verdict, paths),
    }
}
