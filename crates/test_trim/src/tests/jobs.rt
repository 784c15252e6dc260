//! Jobs whose proofs are trimmed.
ghost use Rattle.std.specs.Prelude.{◌≡◌, []};

use eo_base::{Fault, FaultName, Place, Text};
use eo_io::{HonestLibrary, Paths};
use eo_run::{CheckJob, Verdict};
use eo_trim::{TrimEnd, trim_files};
use std::alloc::{AllocError, Global};

/// A file: its path and its bytes.
pub(super) type File<'a> = (&'a [u8], &'a [u8]);

/// What is wanted of a proof.
#[derive(Clone, Copy)]
pub(super) enum Want<'a> {
    /// This is its trimmed proof.
    Trimmed(&'a [u8]),
    /// It is correct but for steps by rules that are marked as unproved.
    Incomplete,
    /// It has this fault in the first line of the file with this number, at this byte.
    Refused(FaultName, usize, u64),
}

/// A job: its words, the files beside the proof, the proof's bytes, and what is wanted of it.
#[derive(Clone, Copy)]
pub(super) struct Case<'a> {
    pub(super) include: Option<&'a str>,
    pub(super) reference: Option<&'a str>,
    pub(super) proof: &'a str,
    pub(super) files: &'a [File<'a>],
    pub(super) text: &'a [u8],
    pub(super) want: Want<'a>,
}

/// The number of the first case that is not right, or for which there is no memory.
pub(super) fn first_wrong(alloc: Global, cases: &[Case<'_>]) -> Option<usize> {
    for (i, case) in cases.iter().enumerate() {
        if is_right(alloc, case) != Ok(true) {
            return Some(i);
        }
    }
    None
}

/// Whether the case ends as it is wanted. A trimmed proof that is trimmed again is the same.
pub(super) fn is_right(alloc: Global, case: &Case<'_>) -> Result<bool, AllocError> {
    match &case.want {
        Want::Trimmed(text) => {
            let is_trimmed = trims_to(alloc, case, case.text, text)?;
            let is_same = trims_to(alloc, case, text, text)?;
            Ok(is_trimmed & is_same)
        }
        Want::Incomplete => ends_so(alloc, case, &Verdict::Incomplete),
        Want::Refused(name, file, offset) => ends_so(
            alloc,
            case,
            &refusal_at(*name, *file, *offset),
        ),
    }
}

// Whether this text in the proof's place is trimmed to the wanted one.
fn trims_to(alloc: Global, case: &Case<'_>, text: &[u8], want: &[u8]) -> Result<bool, AllocError> {
    let end = trim(alloc, case, text)?;
    Ok(match &end {
        TrimEnd::Trimmed(bytes) => bytes.as_slice() == want,
        TrimEnd::Other(_) => false,
    })
}

fn ends_so(alloc: Global, case: &Case<'_>, want: &Verdict) -> Result<bool, AllocError> {
    let end = trim(alloc, case, case.text)?;
    Ok(match &end {
        TrimEnd::Trimmed(_) => false,
        TrimEnd::Other(verdict) => verdict == want,
    })
}

fn refusal_at(name: FaultName, file: usize, offset: u64) -> Verdict {
    Verdict::Refused(Fault {
        name,
        place: Place {
            file,
            line: 1,
            offset,
        },
    })
}

// ---- a job over its files

fn trim(alloc: Global, case: &Case<'_>, text: &[u8]) -> Result<TrimEnd, AllocError> {
    let mut library = HonestLibrary::new(alloc)?;
    add_files(&mut library, case, text)?;
    trim_over(alloc, case, &mut library)
}

fn add_files(library: &mut HonestLibrary, case: &Case<'_>, text: &[u8]) -> Result<(), AllocError>
    ensures { library.new.unread ≡ library.old.unread }
{
    add_others(library, case.files)?;
    library.add(case.proof.as_bytes(), text)
}

fn add_others(library: &mut HonestLibrary, files: &[File<'_>]) -> Result<(), AllocError>
    ensures { library.new.unread ≡ library.old.unread }
{
    for i in 0..files.len() {
        let (path, bytes) = files[i];
        library.add(path, bytes)?;
    }
    Ok(())
}

fn trim_over(
    alloc: Global,
    case: &Case<'_>,
    library: &mut HonestLibrary,
) -> Result<TrimEnd, AllocError>
    requires { library.old.unread ≡ [] }
{
    let job = job_of(alloc, case)?;
    let end = trim_job(alloc, &job, library);
    drop(job);
    Ok(end)
}

fn trim_job(alloc: Global, job: &CheckJob, library: &mut HonestLibrary) -> TrimEnd
    requires { library.old.unread ≡ [] }
{
    let mut paths = Paths::new(alloc);
    trim_files(alloc, job, library, &mut paths)
}

fn job_of(alloc: Global, case: &Case<'_>) -> Result<CheckJob, AllocError> {
    Ok(CheckJob {
        include: text_of(alloc, &case.include)?,
        reference: text_of(alloc, &case.reference)?,
        proof: Text::new(alloc, case.proof)?,
        closed: false,
    })
}

fn text_of(alloc: Global, name: &Option<&str>) -> Result<Option<Text>, AllocError> {
    match name {
        Some(name) => Ok(Some(Text::new(alloc, name)?)),
        None => Ok(None),
    }
}
