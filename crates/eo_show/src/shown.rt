//! What a value is shown by.
ghost use Rattle.std.specs.Prelude.{◌≡◌};

use std::marker::Model;

/// The bytes that a value is shown by. Contracts see it as the list of them.
#[derive(Debug, Drop)]
pub struct ShownBytes {
    bytes: Vec<u8>,
}

impl Model for ShownBytes {
    ghost use Rattle.std.specs.Prelude.{ℕ, List};

    ghost Value = { List ℕ };

    ghost view = { λ a. a.bytes.items };
}

impl ShownBytes {
    pub(crate) fn from_bytes(bytes: Vec<u8>) -> ShownBytes
        ensures { result ≡ bytes.items }
    {
        ShownBytes { bytes }
    }

    /// The bytes.
    pub fn as_slice(&self) -> &[u8]
        ensures { result.now ≡ self.now }
    {
        self.bytes.as_slice()
    }
}
