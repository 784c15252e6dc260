//! The library in memory that never fails.
ghost use Rattle.std.specs.Prelude.{◌≡◌, ◌≢◌, ◌<◌, [], length, map, min, Some, IfOk, OnOk, OnErr};
ghost use Rattle.eo_io.specs.Library.{Opens, OpenHasCause, Reads, ReadHasCause, Closes};
ghost use Rattle.eo_io.specs.Stored.{nothing_stored, with_file, IsFileOf, opened_by, after_open, first_unread, after_read, after_close};

use crate::file_store::FileStore;
use crate::{Got, Library, Opened};
use std::alloc::{AllocError, Global};
use std::marker::Model;

/// A library that holds its files in memory and never fails: each file that was added can be
/// opened, and a read returns as much as the buffer takes.
#[derive(Drop)]
pub struct HonestLibrary {
    files: FileStore,
}

impl Model for HonestLibrary {
    ghost use Rattle.eo_io.specs.Stored.{Stored};

    ghost Value = { Stored };

    ghost view = { λ a. a.files };
}

impl HonestLibrary {
    /// A library without files, with room for 18 open files, so that opening takes no memory.
    /// `Err`: out of memory.
    pub fn new(alloc: Global) -> Result<HonestLibrary, AllocError>
        ensures { IfOk result (λ library. library ≡ nothing_stored) }
    {
        Ok(HonestLibrary {
            files: FileStore::new(alloc)?,
        })
    }

    /// Adds a file, in place of the one with its path. Open files stay as they are. `Err` is out
    /// of memory, and the library is as before.
    pub fn add(&mut self, path: &[u8], bytes: &[u8]) -> Result<(), AllocError>
        ensures told { OnOk result (self.new.told ≡ with_file self.old.told path.now bytes.now) }
        ensures file { OnOk result (IsFileOf self.old.told self.new.told path.now bytes.now) }
        ensures unread { self.new.unread ≡ self.old.unread }
        ensures err { OnErr result (self.new ≡ self.old) }
    {
        self.files.add(path, bytes)
    }
}

impl Library for HonestLibrary {
    ghost told = { λ s. Some s.told };

    ghost open_files = { λ s. map Some s.unread };

    ghost faults = { λ _. 0 };

    /// It returns `Ready` exactly where there is a file with the path.
    fn open(&mut self, path: &[u8]) -> Opened
        requires { length (map Some self.old.unread) < 18 }
        ensures same { Some self.new.told ≡ Some self.old.told }
        ensures opens { Opens result (Some self.old.told) path.now (map Some self.old.unread) (map Some self.new.unread) }
        ensures cause { OpenHasCause result (Some self.old.told) path.now 0 0 }
        ensures answer { result ≡ opened_by self.old path.now }
        ensures after { self.new ≡ after_open self.old path.now }
    {
        if self.files.open(path) {
            Opened::Ready
        } else {
            Opened::Absent
        }
    }

    /// It returns as much as the buffer and the unread rest of the file allow.
    fn read(&mut self, buf: &mut [u8]) -> Got
        requires is_open { map Some self.old.unread ≢ [] }
        requires room { buf.old ≢ [] }
        ensures same { Some self.new.told ≡ Some self.old.told }
        ensures reads { Reads result (map Some self.old.unread) (map Some self.new.unread) buf.new }
        ensures cause { ReadHasCause result 0 0 }
        ensures answer { result ≡ Got.Bytes (min (length buf.old) (length (first_unread self.old.unread))) }
        ensures after { self.new ≡ after_read self.old (min (length buf.old) (length (first_unread self.old.unread))) }
    {
        Got::Bytes(self.files.read(buf, usize::MAX))
    }

    fn close(&mut self)
        requires is_open { map Some self.old.unread ≢ [] }
        ensures same { Some self.new.told ≡ Some self.old.told }
        ensures closes { Closes (map Some self.old.unread) (map Some self.new.unread) }
        ensures after { self.new ≡ after_close self.old }
    {
        self.files.close();
    }
}
