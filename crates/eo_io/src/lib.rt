//! Everything outside the program: libraries of files, sinks for bytes, and paths.
#![tactic(auto)]

ghost use Rattle.std.specs.Prelude.{◌≡◌, ◌≢◌, ℕ, ◌<◌, ◌≤◌, ◌-◌, ◌^◌, List, [], length, Option};
ghost use Rattle.eo_io.specs.Library.{Files, Rest, Opens, OpenHasCause, Reads, ReadHasCause, Closes};
ghost use Rattle.eo_io.specs.Sink.{Writes, WriteHasCause};

mod call_plan;
mod fault_count;
mod file_store;
mod folding;
mod honest_library;
mod memory_library;
mod memory_sink;
mod path_table;
mod system;
mod writing;

pub use folding::fold_path;
pub use honest_library::HonestLibrary;
pub use memory_library::MemoryLibrary;
pub use memory_sink::MemorySink;
pub use path_table::Paths;
use std::alloc::AllocError;
pub use system::{DiskLibrary, StdSink};
use thiserror::Error;
pub use writing::write_all;

/// How many files of a library may be open at once.
pub const OPEN_FILES: usize = 18;

/// What opening a file returns.
#[derive(Clone, Copy, Debug, PartialEq, Eq)]
pub enum Opened {
    /// The file is open, as the last one.
    Ready,
    /// There is no such file.
    Absent,
    /// The library failed.
    Failed,
}

/// What reading returns.
#[derive(Clone, Copy, Debug, PartialEq, Eq)]
pub enum Got {
    /// How many bytes of the file the buffer now has at its front, 0 at its end.
    Bytes(usize),
    /// The library failed.
    Failed,
}

/// What writing returns.
#[derive(Clone, Copy, Debug, PartialEq, Eq)]
pub enum Put {
    /// How many bytes of the piece were written, from its front.
    Took(usize),
    /// The sink failed.
    Failed,
}

/// Why a path was not folded.
#[derive(Debug, Drop, Error)]
pub enum PathRefused {
    /// The path is not UTF-8, no part of it stays, or it is too long.
    #[error("no path of a file")]
    Bad,
    /// There was no memory left.
    #[error("out of memory")]
    Memory(AllocError),
}

/// Where files are read from: files by path, of which some are open, in the order in which they
/// were opened.
///
/// It counts its faults. The count never falls, and is at most 2^64 - 1. It is said to have risen
/// where it is larger than before, or is 2^64 - 1.
pub trait Library {
    /// Its files, if they are known. No call changes them.
    ghost told: { Self → Option Files };

    /// The unread rests of its open files, that of the file opened last first. Where the files are
    /// known, so are the rests of the files that it opens.
    ghost open_files: { Self → List Rest };

    /// How often it has failed.
    ghost faults: { Self → ℕ };

    /// Opens a file, of which fewer than 18 may be open.
    ///
    /// - `Ready`: it is now the last open file, and unread. Where the library's files are known, it
    ///   is one of them.
    /// - `Absent`: where the library's files are known, it is none of them; else the count of
    ///   faults rose.
    /// - `Failed`: the count of faults rose.
    ///
    /// After `Absent` and `Failed` the same files are open as before.
    fn open(&mut self, path: &[u8]) -> Opened
        requires { length (open_files self.old) < 18 }
        ensures same { told self.new ≡ told self.old }
        ensures opens { Opens result (told self.old) path.now (open_files self.old) (open_files self.new) }
        ensures cause { OpenHasCause result (told self.old) path.now (faults self.old) (faults self.new) }
        ensures later { faults self.old ≤ faults self.new }
        ensures bounded { faults self.new ≤ 2 ^ 64 - 1 };

    /// Reads from the file opened last into the front of a buffer that is not empty.
    ///
    /// - `Bytes(n)`: the next n bytes of the file, at most as many as the buffer holds. n is 0
    ///   exactly where the file is read to its end, if its rest is known.
    /// - `Failed`: the count of faults rose, and nothing of the file is read.
    fn read(&mut self, buf: &mut [u8]) -> Got
        requires is_open { open_files self.old ≢ [] }
        requires room { buf.old ≢ [] }
        ensures same { told self.new ≡ told self.old }
        ensures reads { Reads result (open_files self.old) (open_files self.new) buf.new }
        ensures cause { ReadHasCause result (faults self.old) (faults self.new) }
        ensures later { faults self.old ≤ faults self.new }
        ensures bounded { faults self.new ≤ 2 ^ 64 - 1 };

    /// Closes the file opened last.
    fn close(&mut self)
        requires is_open { open_files self.old ≢ [] }
        ensures same { told self.new ≡ told self.old }
        ensures closes { Closes (open_files self.old) (open_files self.new) }
        ensures later { faults self.old ≤ faults self.new }
        ensures bounded { faults self.new ≤ 2 ^ 64 - 1 };
}

/// Where bytes are written to.
///
/// It counts its faults, as a library does.
pub trait Sink {
    /// The bytes written to it, if they are known.
    ghost written: { Self → Option (List ℕ) };

    /// How often it has failed.
    ghost faults: { Self → ℕ };

    /// Appends the first bytes of the piece to what is written.
    ///
    /// - `Took(n)`: the first n bytes, n being at most the piece's length. Where n is 0 though the
    ///   piece is not empty, the count of faults rose.
    /// - `Failed`: the count of faults rose, and nothing is written.
    fn write(&mut self, bytes: &[u8]) -> Put
        ensures writes { Writes result bytes.now (written self.old) (written self.new) }
        ensures cause { WriteHasCause result bytes.now (faults self.old) (faults self.new) }
        ensures later { faults self.old ≤ faults self.new }
        ensures bounded { faults self.new ≤ 2 ^ 64 - 1 };
}
