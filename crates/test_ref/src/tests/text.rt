//! Texts of one s-expression.
ghost use Rattle.std.specs.Prelude.{IsTrue};
ghost use Rattle.eo_sexp.specs.Collecting.{IsAtCommand, IsLive};

use eo_sexp::{Collector, Fed, Sexp};
use std::alloc::{AllocError, Global};
use std::marker::Model;

/// A text that is one s-expression, read.
#[derive(Drop)]
pub(super) struct Text {
    collector: Collector,
}

impl Model for Text {
    ghost use Rattle.std.specs.Prelude.{ℕ};
    ghost use Rattle.eo_sexp.specs.Collecting.{IsAtCommand};

    ghost Value = { ℕ };

    ghost view = { λ a. 0 };

    ghost invariant = { λ a. IsAtCommand a.collector };
}

impl Text {
    /// Its s-expression.
    pub(super) fn sexp(&self) -> Sexp<'_> {
        self.collector.command()
    }
}

/// A text that is one s-expression of less than a thousand bytes; nothing, where it is none.
pub(super) fn read(alloc: Global, text: &[u8]) -> Result<Option<Text>, AllocError> {
    let mut collector = Collector::new(alloc, false)?;
    if is_read(&mut collector, text) {
        return Ok(Some(Text { collector }));
    }
    drop(collector);
    Ok(None)
}

// Whether a text is read up to its first s-expression.
fn is_read(collector: &mut Collector, text: &[u8]) -> bool
    requires { IsLive collector.old }
    ensures { IsTrue result → IsAtCommand collector.new }
{
    let here = collector.here();
    if here.offset > 1000 || text.len() > 1000 {
        return false;
    }
    match collector.feed(text) {
        Fed::Command { used: _ } => true,
        _ => false,
    }
}
