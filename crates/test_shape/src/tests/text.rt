//! Texts of one list.
use eo_sexp::{Collector, Fed, Sexp};
use std::alloc::Global;
use std::marker::Model;
use std::test::Fail;

/// A text that is one list, read.
#[derive(Drop)]
pub(super) struct Text {
    collector: Collector,
}

impl Model for Text {
    ghost use Rattle.std.specs.Prelude.{ℕ};
    ghost use Rattle.eo_sexp.specs.Collecting.{IsAtCommand};

    ghost Value = { ℕ };

    ghost view = { λ a. 0 };

    ghost invariant = { λ a. IsAtCommand a.collector };
}

impl Text {
    /// Its s-expression.
    pub(super) fn sexp(&self) -> Sexp<'_> {
        self.collector.command()
    }
}

/// A text that is one list of less than a thousand bytes; nothing, where it is none.
pub(super) fn read(alloc: Global, text: &[u8]) -> Result<Option<Text>, Fail> {
    let mut collector = Collector::new(alloc, false)?;
    let here = collector.here();
    if here.offset > 1000 || text.len() > 1000 {
        return Ok(None);
    }
    match collector.feed(text) {
        Fed::Command { used: _ } => Ok(Some(Text { collector })),
        _ => Ok(None),
    }
}
