//! The greatest sizes that are accepted. The greatest height of a term is with the terms.

/// Lists that are open at one place, a proof's outer pair not counted.
pub const NESTING: usize = 100_000;

/// Children of a list.
pub const WIDTH: usize = 65_536;

/// Bytes of a token, its delimiters counted.
pub const TOKEN: usize = 1_048_576;

/// Bytes of a command from its first to its last.
pub const COMMAND: usize = 16_777_216;

/// Bytes of a file.
pub const FILE: u64 = 1_099_511_627_776;

/// Characters of a string value.
pub const CHARACTERS: usize = 1_048_576;

/// Program calls that are begun and not finished.
pub const CALL_DEPTH: usize = 1_000_000;

/// Different program calls in one evaluation.
pub const CALLS: usize = 2_000_000;

/// Scopes that are open.
pub const SCOPES: usize = 1_000;

/// Files that are included one inside the other.
pub const INCLUDES: usize = 16;

/// Parameters of a declaration, and inputs of a program.
pub const PARAMETERS: usize = 64;
