//! The library in memory whose calls can be made to fail.
ghost use Rattle.std.specs.Prelude.{◌≡◌, ◌≢◌, ◌<◌, ◌≤◌, ◌-◌, ◌^◌, [], length, map, Some, IfOk, OnOk, OnErr};
ghost use Rattle.eo_io.specs.Library.{Opens, OpenHasCause, Reads, ReadHasCause, Closes};
ghost use Rattle.eo_io.specs.Stored.{with_file, IsFileOf, after_close};
ghost use Rattle.eo_io.specs.Calls.{with_piece, with_failing};
ghost use Rattle.eo_io.specs.Memory.{first_files, with_plan, with_stored, OpensByPlan, ReadsByPlan};

use crate::call_plan::CallPlan;
use crate::file_store::FileStore;
use crate::{Got, Library, Opened};
use std::alloc::{AllocError, Global};
use std::marker::Model;

/// A library that holds its files in memory. Its opens and reads are numbered together from 1,
/// and those whose numbers are given to `fail` fail.
#[derive(Drop)]
pub struct MemoryLibrary {
    files: FileStore,
    plan: CallPlan,
}

impl Model for MemoryLibrary {
    ghost use Rattle.std.specs.Prelude.{◌≤◌, ◌-◌, ◌^◌};
    ghost use Rattle.eo_io.specs.Memory.{MemoryFiles};

    ghost Value = { MemoryFiles };

    ghost view = { λ a. record { stored = a.files; plan = a.plan } };

    ghost invariant = { λ a. a.plan.faults ≤ 2 ^ 64 - 1 };
}

impl MemoryLibrary {
    /// A library without files, with room for 18 open files, so that opening takes no memory.
    /// `Err`: out of memory.
    pub fn new(alloc: Global) -> Result<MemoryLibrary, AllocError>
        ensures { IfOk result (λ library. library ≡ first_files) }
    {
        Ok(MemoryLibrary {
            files: FileStore::new(alloc)?,
            plan: CallPlan::new(alloc),
        })
    }

    /// Adds a file, in place of the one with its path. Open files stay as they are. `Err` is out
    /// of memory, and the library is as before.
    pub fn add(&mut self, path: &[u8], bytes: &[u8]) -> Result<(), AllocError>
        ensures told { OnOk result (self.new.stored.told ≡ with_file self.old.stored.told path.now bytes.now) }
        ensures file { OnOk result (IsFileOf self.old.stored.told self.new.stored.told path.now bytes.now) }
        ensures unread { self.new.stored.unread ≡ self.old.stored.unread }
        ensures plan { self.new.plan ≡ self.old.plan }
        ensures err { OnErr result (self.new ≡ self.old) }
    {
        self.files.add(path, bytes)
    }

    /// Lets a read return at most n bytes, n at least 1.
    pub fn piece(&mut self, n: usize)
        requires { 1 ≤ n }
        ensures { self.new ≡ with_plan (with_piece n self.old.plan) self.old }
    {
        self.plan.set_piece(n);
    }

    /// Lets the open or read with this number fail. `Err`: out of memory, and the library is as
    /// before.
    pub fn fail(&mut self, call: u64) -> Result<(), AllocError>
        ensures ok { OnOk result (self.new ≡ with_plan (with_failing call self.old.plan) self.old) }
        ensures err { OnErr result (self.new ≡ self.old) }
    {
        self.plan.fail(call)
    }
}

impl Library for MemoryLibrary {
    ghost told = { λ s. Some s.stored.told };

    ghost open_files = { λ s. map Some s.stored.unread };

    ghost faults = { λ s. s.plan.faults };

    /// It fails exactly where its number was given to `fail`.
    fn open(&mut self, path: &[u8]) -> Opened
        requires { length (map Some self.old.stored.unread) < 18 }
        ensures same { Some self.new.stored.told ≡ Some self.old.stored.told }
        ensures opens { Opens result (Some self.old.stored.told) path.now
            (map Some self.old.stored.unread) (map Some self.new.stored.unread) }
        ensures cause { OpenHasCause result (Some self.old.stored.told) path.now self.old.plan.faults self.new.plan.faults }
        ensures later { self.old.plan.faults ≤ self.new.plan.faults }
        ensures bounded { self.new.plan.faults ≤ 2 ^ 64 - 1 }
        ensures by_plan { OpensByPlan self.old path.now result self.new }
    {
        let failed = self.plan.fails_next();
        self.plan.count(failed);
        if failed {
            Opened::Failed
        } else if self.files.open(path) {
            Opened::Ready
        } else {
            Opened::Absent
        }
    }

    /// It fails exactly where its number was given to `fail`. Else it returns as much as the buffer,
    /// `piece` and the unread rest of the file allow.
    fn read(&mut self, buf: &mut [u8]) -> Got
        requires is_open { map Some self.old.stored.unread ≢ [] }
        requires room { buf.old ≢ [] }
        ensures same { Some self.new.stored.told ≡ Some self.old.stored.told }
        ensures reads { Reads result (map Some self.old.stored.unread) (map Some self.new.stored.unread) buf.new }
        ensures cause { ReadHasCause result self.old.plan.faults self.new.plan.faults }
        ensures later { self.old.plan.faults ≤ self.new.plan.faults }
        ensures bounded { self.new.plan.faults ≤ 2 ^ 64 - 1 }
        ensures by_plan { ReadsByPlan self.old (length buf.old) result self.new }
    {
        let failed = self.plan.fails_next();
        self.plan.count(failed);
        if failed {
            return Got::Failed;
        }
        Got::Bytes(self.files.read(buf, self.plan.piece()))
    }

    fn close(&mut self)
        requires is_open { map Some self.old.stored.unread ≢ [] }
        ensures same { Some self.new.stored.told ≡ Some self.old.stored.told }
        ensures closes { Closes (map Some self.old.stored.unread) (map Some self.new.stored.unread) }
        ensures later { self.old.plan.faults ≤ self.new.plan.faults }
        ensures bounded { self.new.plan.faults ≤ 2 ^ 64 - 1 }
        ensures after { self.new ≡ with_stored (after_close self.old.stored) self.old }
    {
        self.files.close();
    }
}
