//! The texts of a table.
ghost use Rattle.std.specs.Prelude.{◌≡◌, ℕ, ◌<◌, length};
ghost use Rattle.eo_term.specs.Terms.{text_at};

use super::Table;

impl Table {
    /// No two texts are the same. A call costs nothing: it gives a proof this fact.
    pub fn text_laws(&self)
        ensures { (i j : ℕ) → i < length self.now.texts → j < length self.now.texts →
            text_at self.now.texts i ≡ text_at self.now.texts j → i ≡ j }
    {
        let _count = self.nodes.len();
    }
}
