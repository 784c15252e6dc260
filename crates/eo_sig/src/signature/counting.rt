//! How much is declared.
ghost use Rattle.std.specs.Prelude.{◌≡◌, List, length};
ghost use Rattle.eo_term.specs.Tree.{Tree};
ghost use Rattle.eo_sig.specs.Reading.{signature, macros};

use super::Signature;

impl Signature {
    /// How many declarations there are, of all kinds.
    pub fn declarations(&self) -> usize
        ensures { (ts : List Tree) → result ≡ length (signature ts self.now) }
    {
        self.entries.len()
    }

    /// How many macros there are.
    pub fn macros(&self) -> usize
        ensures { (ts : List Tree) → result ≡ length (macros ts self.now) }
    {
        self.macros.len()
    }
}
