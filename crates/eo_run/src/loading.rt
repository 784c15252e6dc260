//! The load of a signature whose session is kept.
ghost use Rattle.std.specs.Prelude.{◌≡◌, []};
ghost use Rattle.eo_run.specs.Loading.{AnswersSession, IsLoadEnd, LoadHasCause, as_loaded};
ghost use Rattle.eo_run.specs.Reading.{LibraryStays};

use crate::checking::{first_load, load_to_end};
use crate::opening::Run;
use crate::{LoadEnd, Verdict};
use eo_base::{Place, Text};
use eo_io::{Library, Paths};
use eo_session::{Nobody, Session};
use std::alloc::Global;

/// Runs a signature file, as [`load_files`](crate::load_files) does, and keeps its session.
///
/// - `Ready`: the file is accepted. The session is in the state at its end, and goes on; `end` is
///   the place after its last byte. The file of it is one of the paths.
/// - `Ended`: the file is refused, a call of the library failed, or there was no memory left.
///
/// No file of the library is open, before or after.
pub fn load_session<L: Library>(
    alloc: Global,
    file: &Text,
    files: &mut L,
    paths: &mut Paths,
) -> LoadEnd
    requires no_paths { paths.old ≡ [] }
    requires none_open { L.open_files files.old ≡ [] }
    ensures loads { AnswersSession (L.told files.old) file.now paths.new result }
    ensures cause { LoadHasCause result (L.told files.old) (L.faults files.old) (L.faults files.new) }
    ensures kind { IsLoadEnd paths.new result }
    ensures stays { LibraryStays L.told L.open_files L.faults files.old files.new }
{
    let Ok(mut run) = first_load(alloc, file) else {
        return LoadEnd::Ended(Verdict::OutOfMemory);
    };
    let end = load_to_end(alloc, file.as_bytes(), files, &mut run, paths, &mut Nobody);
    load_end(session_of(run), end)
}

/// What is returned, with the session of a run that ends so.
fn load_end(session: Session, end: Result<Place, Verdict>) -> LoadEnd
    ensures { result ≡ as_loaded session end }
{
    match end {
        Ok(end) => LoadEnd::Ready { session, end },
        Err(verdict) => {
            drop(session);
            LoadEnd::Ended(verdict)
        }
    }
}

/// The session of a run, of which nothing else is kept.
fn session_of(run: Run) -> Session
    ensures { result ≡ run.session }
{
    let Run {
        session,
        included,
        opened,
    } = run;
    drop(included);
    drop(opened);
    session
}
