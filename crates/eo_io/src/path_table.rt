//! The table of paths.
ghost use Rattle.std.specs.Prelude.{◌≡◌, ◌<◌, [], Some, length, slice_get, position, bytes_eq, is_some, IfOk, OnOk, OnErr};
ghost use Rattle.std.specs.List.{list_any};
ghost use Rattle.eo_io.specs.Paths.{with_path, Extends};

use indexmap::IndexSet;
use std::alloc::{AllocError, Global};
use std::hash::{BuildHasherDefault, DefaultHasher};
use std::marker::Model;

/// Paths in the order in which they were added, no two of them equal. A path's number is how many
/// paths were added before it. A path is found by its hash, which is SipHash, since a file chooses
/// the paths that it names.
#[derive(Drop)]
pub struct Paths {
    alloc: Global,
    paths: IndexSet<Vec<u8>, BuildHasherDefault<DefaultHasher>>,
}

impl Model for Paths {
    ghost use Rattle.std.specs.Prelude.{ℕ, List, map};

    ghost Value = { List (List ℕ) };

    ghost view = { λ a. map (λ p. p.items) a.paths.keys };
}

impl Paths {
    /// A table without paths. It takes no memory yet.
    pub fn new(alloc: Global) -> Paths
        ensures { result ≡ [] }
    {
        Paths {
            alloc,
            paths: IndexSet::with_hasher(alloc, BuildHasherDefault::new()),
        }
    }

    /// Adds a path, unless it is there, and returns its number. `Err`: out of memory, and the
    /// table is as before.
    pub fn add(&mut self, path: &[u8]) -> Result<usize, AllocError>
        ensures number { IfOk result (λ n. slice_get self.new n ≡ Some path.now) }
        ensures first { IfOk result (λ n. position (bytes_eq path.now) self.new ≡ Some n) }
        ensures table { OnOk result (self.new ≡ with_path self.old path.now) }
        ensures grows { OnOk result (Extends self.old self.new) }
        ensures err { OnErr result (self.new ≡ self.old) }
    {
        if let Some(n) = self.paths.get_index_of(path) {
            return Ok(n);
        }
        let (n, _) = self.paths.insert_full(path.to_vec(self.alloc)?)?;
        Ok(n)
    }

    /// How many paths there are.
    pub fn len(&self) -> usize
        ensures { result ≡ length self.now }
    {
        self.paths.len()
    }

    /// The number of a path, if it is there.
    pub fn find(&self, path: &[u8]) -> Option<usize>
        ensures number { result ≡ position (bytes_eq path.now) self.now }
        ensures there { is_some result ≡ list_any (bytes_eq path.now) self.now }
    {
        self.paths.get_index_of(path)
    }

    /// The path with the number n, which is less than how many there are.
    pub fn get(&self, n: usize) -> &[u8]
        requires { n < length self.now }
        ensures { slice_get self.now n ≡ Some result.now }
    {
        self.paths.get_index(n).unwrap().as_slice()
    }
}
