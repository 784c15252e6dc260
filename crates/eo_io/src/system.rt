//! The system's files and its standard output. No contract says what they hold.
ghost use Rattle.std.specs.Prelude.{◌≡◌, IfOk};

use crate::fault_count::FaultCount;
use crate::{Got, Library, OPEN_FILES, Opened, Put, Sink};
use std::alloc::{AllocError, Global};
use std::fs;
use std::io::{ErrorKind, Read};
use std::marker::Model;
use std::rt::Files;

/// The system's files.
///
/// - A path that is not UTF-8 names no file: `open` returns `Absent`.
/// - Where the system says that a file or a folder on its path is missing, `open` returns
///   `Absent`. At any other error, such as a missing permission, it returns `Failed`.
/// - The system may open a folder. Reading it fails.
///
/// Each `Absent` and each `Failed` raises the count of faults, up to 2^64 - 1.
#[derive(Drop)]
pub struct DiskLibrary<R: Files + Drop> {
    system: R,
    opened: Vec<R::File>,
    faults: FaultCount,
}

impl<R: Files + Drop> Model for DiskLibrary<R> {
    ghost use Rattle.std.specs.Prelude.{◌≤◌, ◌-◌, ◌^◌, length, vec_capacity};
    ghost use Rattle.eo_io.specs.Untold.{Untold};

    ghost Value = { Untold };

    ghost view = { λ a. record { opened = length a.opened.items; faults = a.faults } };

    ghost invariant = { λ a. (18 ≤ vec_capacity a.opened) × (a.faults ≤ 2 ^ 64 - 1) };
}

impl<R: Files + Drop> DiskLibrary<R> {
    /// The files of a system, of which none is open, with room for 18 open files, so that opening
    /// takes no memory. `Err`: out of memory.
    pub fn new(system: R, alloc: Global) -> Result<DiskLibrary<R>, AllocError>
        ensures { IfOk result (λ library. library ≡ record { opened = 0; faults = 0 }) }
    {
        Ok(DiskLibrary {
            system,
            opened: Vec::with_capacity(alloc, OPEN_FILES)?,
            faults: FaultCount::new(),
        })
    }
}

impl<R: Files + Drop> Library for DiskLibrary<R> {
    ghost use Rattle.std.specs.Prelude.{None, replicate};

    ghost told = { λ _. None };

    ghost open_files = { λ s. replicate s.opened None };

    ghost faults = { λ s. s.faults };

    fn open(&mut self, path: &[u8]) -> Opened {
        let Ok(path) = str::from_utf8(path) else {
            self.faults.raise();
            return Opened::Absent;
        };
        match fs::open(&self.system, path) {
            Ok(file) => {
                self.opened.push(file).unwrap();
                Opened::Ready
            }
            Err(e) => {
                self.faults.raise();
                if e.kind() == ErrorKind::NotFound {
                    Opened::Absent
                } else {
                    Opened::Failed
                }
            }
        }
    }

    fn read(&mut self, buf: &mut [u8]) -> Got {
        let last = self.opened.len() - 1;
        match self.opened[last].read(buf) {
            Ok(n) => Got::Bytes(n),
            Err(_) => {
                self.faults.raise();
                Got::Failed
            }
        }
    }

    fn close(&mut self) {
        self.opened.pop();
    }
}

/// The standard output. It is not buffered: the system has what a write took.
///
/// Each `Failed`, and each write that takes nothing of a piece that is not empty, raises the count
/// of faults, up to 2^64 - 1.
#[derive(Drop)]
pub struct StdSink<P: Print + Drop> {
    out: P,
    faults: FaultCount,
}

impl<P: Print + Drop> Model for StdSink<P> {
    ghost use Rattle.std.specs.Prelude.{◌≤◌, ◌-◌, ◌^◌, ℕ};

    ghost Value = { ℕ };

    ghost view = { λ a. a.faults };

    ghost invariant = { λ a. a.faults ≤ 2 ^ 64 - 1 };
}

impl<P: Print + Drop> StdSink<P> {
    /// The standard output of what prints to it.
    pub fn new(out: P) -> StdSink<P>
        ensures { result ≡ 0 }
    {
        StdSink {
            out,
            faults: FaultCount::new(),
        }
    }
}

impl<P: Print + Drop> Sink for StdSink<P> {
    ghost use Rattle.std.specs.Prelude.{None};

    ghost written = { λ _. None };

    ghost faults = { λ s. s };

    fn write(&mut self, bytes: &[u8]) -> Put {
        match self.out.write_some(bytes) {
            Ok(n) => {
                if n == 0 && !bytes.is_empty() {
                    self.faults.raise();
                }
                Put::Took(n)
            }
            Err(_) => {
                self.faults.raise();
                Put::Failed
            }
        }
    }
}
