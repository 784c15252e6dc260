//! Texts in one buffer.
ghost use Rattle.std.specs.Prelude.{◌≡◌, ◌++◌, ◌∷◌, [], length, take, OnOk, OnErr, option_map, slice_get};
ghost use Rattle.eo_proof.specs.Texts.{last_end};

use std::alloc::{AllocError, Global};
use std::marker::Model;

/// Lists of bytes, kept one after the other. Each costs its bytes, and the place of its end.
#[derive(Drop)]
pub(crate) struct Texts {
    bytes: Vec<u8>,
    // Where each ends.
    ends: Vec<usize>,
}

impl Model for Texts {
    ghost use Rattle.std.specs.Prelude.{ℕ, List, length};
    ghost use Rattle.eo_proof.specs.Texts.{texts_from, AreEnds};

    ghost Value = { List (List ℕ) };

    ghost view = { λ a. texts_from 0 a.bytes.items a.ends.items };

    ghost invariant = { λ a. AreEnds 0 a.ends.items (length a.bytes.items) };
}

impl Texts {
    /// None. No memory is taken.
    pub(crate) fn new(alloc: Global) -> Texts
        ensures { result ≡ [] }
    {
        Texts {
            bytes: Vec::new(alloc),
            ends: Vec::new(alloc),
        }
    }

    /// How many there are.
    pub(crate) fn len(&self) -> usize
        ensures { result ≡ length self.now }
    {
        self.ends.as_slice().len()
    }

    /// The text at a place.
    pub(crate) fn get(&self, place: usize) -> Option<&[u8]>
        ensures { option_map (λ text. text.now) result ≡ slice_get self.now place }
    {
        let ends = self.ends.as_slice();
        let end = *ends.get(place)?;
        let start = last_end(&ends[..place]);
        Some(&self.bytes.as_slice()[start..end])
    }

    /// Puts a text at the end. Where there is no memory left, the texts stay as they are.
    pub(crate) fn push(&mut self, text: &[u8]) -> Result<(), AllocError>
        ensures pushed { OnOk result (self.new ≡ self.old ++ text.now ∷ []) }
        ensures same { OnErr result (self.new ≡ self.old) }
    {
        self.ends.reserve(1)?;
        self.bytes.extend_from_slice(text)?;
        let end = self.bytes.as_slice().len();
        self.ends.push_reserved(end);
        Ok(())
    }

    /// Keeps the first so many alone.
    pub(crate) fn truncate(&mut self, n: usize)
        ensures { self.new ≡ take n self.old }
    {
        self.ends.truncate(n);
        let end = last_end(self.ends.as_slice());
        self.bytes.truncate(end);
    }
}

// The last of these ends, 0 where there are none.
fn last_end(ends: &[usize]) -> usize
    ensures { result ≡ last_end 0 ends.now }
{
    match ends.last() {
        Some(end) => *end,
        None => 0,
    }
}
