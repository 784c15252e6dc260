//! What trimming a proof ends with.
ghost use Rattle.std.specs.Prelude.{◌≡◌};

use std::marker::Model;

/// The bytes of a proof. Contracts see it as the list of them.
#[derive(Debug, Drop)]
pub struct ProofBytes {
    bytes: Vec<u8>,
}

impl Model for ProofBytes {
    ghost use Rattle.std.specs.Prelude.{ℕ, List};

    ghost Value = { List ℕ };

    ghost view = { λ a. a.bytes.items };
}

impl ProofBytes {
    pub(crate) fn from_bytes(bytes: Vec<u8>) -> ProofBytes
        ensures { result ≡ bytes.items }
    {
        ProofBytes { bytes }
    }

    /// The bytes.
    pub fn as_slice(&self) -> &[u8]
        ensures { result.now ≡ self.now }
    {
        self.bytes.as_slice()
    }
}
