//! The program `ethos`: it checks and trims proofs against reference files, loads signatures, shows values, and
//! says where a proof leaves no model of the assertions.
#![tactic(auto)]

use eo_base::{Status, Text};
use eo_io::{DiskLibrary, StdSink};
use eo_main::{OUT_OF_MEMORY, ethos_main};
use eo_run::print_line;
use std::alloc::AllocError;
use std::env;
use std::io::ErrorKind;
use std::process::ExitCode;

/// Runs the program on the command line's words, the system's files and the standard output, and
/// ends with its status.
fn main(rt: HostRuntime) -> ExitCode {
    let status = match run(&rt) {
        Ok(status) => status,
        Err(AllocError) => without_memory(&rt),
    };
    ExitCode::from(status.code())
}

/// Says that there is no memory for the words, the library or the sink, and returns the status of
/// that. Where there is none to reach the output either, it writes nothing.
fn without_memory(rt: &HostRuntime) -> Status {
    match rt.clone() {
        Ok(host) => {
            let mut out = StdSink::new(host);
            print_line(&mut out, Status::OutOfMemory, &[OUT_OF_MEMORY])
        }
        Err(AllocError) => Status::OutOfMemory,
    }
}

/// Runs the program. `Err` is out of memory for the words, the library or the sink.
fn run(rt: &HostRuntime) -> Result<Status, AllocError> {
    let words = words_of(rt)?;
    let mut files = DiskLibrary::new(rt.clone()?, rt.alloc())?;
    let mut out = StdSink::new(rt.clone()?);
    Ok(ethos_main(rt.alloc(), words.as_slice(), &mut files, &mut out))
}

/// The words of the command line, or no words, which have no reading, where one of them is no
/// UTF-8. `Err` is out of memory.
fn words_of(rt: &HostRuntime) -> Result<Vec<Text>, AllocError> {
    let mut words = Vec::new(rt.alloc());
    match env::args(rt) {
        Ok(arguments) => {
            for argument in arguments {
                words.push(Text::new(rt.alloc(), argument.as_str())?)?;
            }
        }
        Err(e) if e.kind() == ErrorKind::OutOfMemory => return Err(AllocError),
        Err(_) => {}
    }
    Ok(words)
}
