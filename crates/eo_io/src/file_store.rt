//! The files that the libraries in memory hold.
ghost use Rattle.std.specs.Prelude.{◌≡◌, ◌≢◌, ◌<◌, [], length, IfOk, OnOk, OnErr, is_some};
ghost use Rattle.eo_io.specs.Library.{file_at};
ghost use Rattle.eo_io.specs.Stored.{nothing_stored, with_file, IsFileOf, after_open, first_unread, read_length};
ghost use Rattle.eo_io.specs.Stored.{buffer_after, after_read, after_close};

use crate::OPEN_FILES;
use indexmap::IndexMap;
use std::alloc::{AllocError, Global};
use std::hash::{BuildHasherDefault, DefaultHasher};
use std::marker::Model;

/// An open file: where its bytes are, and how many of them are read.
#[derive(Clone, Copy)]
pub(crate) struct OpenFile {
    place: usize,
    read: usize,
}

/// Files by path, of which some are open.
#[derive(Drop)]
pub(crate) struct FileStore {
    alloc: Global,
    /// Where the bytes of each path's file are. Files choose the paths, so they are hashed by
    /// SipHash.
    places: IndexMap<Vec<u8>, usize, BuildHasherDefault<DefaultHasher>>,
    /// The bytes of each file that was ever added, so that an open file stays as it is where
    /// another takes its path.
    contents: Vec<Vec<u8>>,
    /// The open files, in the order in which they were opened.
    opened: Vec<OpenFile>,
}

impl Model for FileStore {
    ghost use Rattle.std.specs.Prelude.{map, vec_capacity};
    ghost use Rattle.eo_io.specs.Stored.{Stored};
    ghost use Rattle.eo_io.specs.Holding.{stored, IsHeld};

    ghost Value = { Stored };

    ghost view = { λ a. stored (λ v. v.items) a.places.entries (map (λ v. v.items) a.contents.items) a.opened.items };

    ghost invariant = { λ a. IsHeld a.places.entries (map (λ v. v.items) a.contents.items) a.opened.items (vec_capacity a.opened) };
}

impl FileStore {
    /// A store without files, with room for all open files. `Err`: out of memory.
    pub(crate) fn new(alloc: Global) -> Result<FileStore, AllocError>
        ensures { IfOk result (λ files. files ≡ nothing_stored) }
    {
        Ok(FileStore {
            alloc,
            places: IndexMap::with_hasher(alloc, BuildHasherDefault::new()),
            contents: Vec::new(alloc),
            opened: Vec::with_capacity(alloc, OPEN_FILES)?,
        })
    }

    /// Adds a file, in place of the one with its path. Open files stay as they are. `Err` is out
    /// of memory, and the store is as before.
    pub(crate) fn add(&mut self, path: &[u8], bytes: &[u8]) -> Result<(), AllocError>
        ensures told { OnOk result (self.new.told ≡ with_file self.old.told path.now bytes.now) }
        ensures file { OnOk result (IsFileOf self.old.told self.new.told path.now bytes.now) }
        ensures unread { self.new.unread ≡ self.old.unread }
        ensures err { OnErr result (self.new ≡ self.old) }
    {
        let path = path.to_vec(self.alloc)?;
        let bytes = bytes.to_vec(self.alloc)?;
        self.contents.reserve(1)?;
        self.places.insert(path, self.contents.len())?;
        self.contents.push(bytes).unwrap();
        Ok(())
    }

    /// Opens the file with the path, and returns whether there is one.
    pub(crate) fn open(&mut self, path: &[u8]) -> bool
        requires { length self.old.unread < 18 }
        ensures found { result ≡ is_some (file_at self.old.told path.now) }
        ensures after { self.new ≡ after_open self.old path.now }
    {
        let Some(place) = self.places.get(path).copied() else {
            return false;
        };
        self.opened.push(OpenFile { place, read: 0 }).unwrap();
        true
    }

    /// Reads at most so many bytes of the file opened last into the front of the buffer, and
    /// returns how many it read.
    pub(crate) fn read(&mut self, buf: &mut [u8], most: usize) -> usize
        requires { self.old.unread ≢ [] }
        ensures length { result ≡ read_length self.old (length buf.old) most }
        ensures bytes { buf.new ≡ buffer_after self.old result buf.old }
        ensures after { self.new ≡ after_read self.old result }
    {
        let last = self.opened.len() - 1;
        let OpenFile { place, read } = self.opened[last];
        let rest = &self.contents[place].as_slice()[read..];
        let n = most.min(buf.len()).min(rest.len());
        buf[..n].copy_from_slice(&rest[..n]);
        self.opened[last].read = read + n;
        n
    }

    /// Closes the file opened last.
    pub(crate) fn close(&mut self)
        requires { self.old.unread ≢ [] }
        ensures { self.new ≡ after_close self.old }
    {
        self.opened.pop();
    }
}
