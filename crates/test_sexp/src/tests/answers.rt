//! What a collector returns, as text.
ghost use Rattle.std.specs.Prelude.{IsTrue};
ghost use Rattle.eo_sexp.specs.Collecting.{HasRoom, IsAtCommand, IsLive};

use eo_base::FaultName;
use eo_sexp::{Children, Collector, Fed, Finished, Kind, Sexp, Spot};
use std::alloc::Global;
use std::marker::Model;
use std::process::Abort;
use std::test::Fail;

/// A collector, and what it returned so far.
#[derive(Drop)]
pub(super) struct Answers {
    collector: Collector,
    text: String,
    // the end or a fault was returned, or memory ran out
    over: bool,
}

impl Model for Answers {
    ghost use Rattle.std.specs.Prelude.{◌≡◌, ℕ, false};
    ghost use Rattle.eo_sexp.specs.Collecting.{IsLive};

    ghost Value = { ℕ };

    ghost view = { λ a. 0 };

    ghost invariant = { λ a. a.over ≡ false → IsLive a.collector };
}

impl Answers {
    pub(super) fn new(alloc: Global, proof: bool) -> Result<Answers, Fail> {
        Ok(Answers {
            collector: Collector::new(alloc, proof)?,
            text: String::new(alloc),
            over: false,
        })
    }

    /// Feeds a piece, and what is left of it after each command.
    pub(super) fn feed(&mut self, rt: &impl Abort, piece: &[u8]) -> Result<(), Fail> {
        let mut from = 0;
        for _ in 0..u64::MAX {
            if from >= piece.len() {
                break;
            }
            match self.feed_once(rt, &piece[from..])? {
                None => break,
                Some(used) => from = from.saturating_add(used),
            }
        }
        Ok(())
    }

    // Feeds a piece, and returns how many of its bytes a command took.
    fn feed_once(&mut self, rt: &impl Abort, piece: &[u8]) -> Result<Option<usize>, Fail> {
        if self.over {
            return Ok(None);
        }
        assert!(rt; has_room(&self.collector, piece));
        match self.collector.feed(piece) {
            Fed::More => Ok(None),
            Fed::Command { used } => {
                write_command(&mut self.text, &self.collector)?;
                Ok(Some(used))
            }
            Fed::Fault { name, at } => {
                self.over = true;
                write_fault(&mut self.text, name, at)?;
                Ok(None)
            }
            Fed::Memory => {
                self.over = true;
                self.text.push_str("Memory")?;
                Ok(None)
            }
        }
    }

    /// Ends the text.
    pub(super) fn finish(&mut self) -> Result<(), Fail> {
        if self.finish_once()? {
            self.finish_once()?;
        }
        Ok(())
    }

    // Ends the text, and returns whether that made a command whole.
    fn finish_once(&mut self) -> Result<bool, Fail> {
        if self.over {
            return Ok(false);
        }
        match self.collector.finish() {
            Finished::End => {
                self.over = true;
                let here = self.collector.here();
                self.text.push_str("end ")?;
                write_spot(&mut self.text, here)?;
                Ok(false)
            }
            Finished::Command => {
                write_command(&mut self.text, &self.collector)?;
                Ok(true)
            }
            Finished::Fault { name, at } => {
                self.over = true;
                write_fault(&mut self.text, name, at)?;
                Ok(false)
            }
        }
    }

    pub(super) fn text(&self) -> &str {
        self.text.as_str()
    }
}

// Whether the collector is far from the greatest offset, after a piece too.
fn has_room(collector: &Collector, piece: &[u8]) -> bool
    ensures { IsTrue result → IsLive collector.now → HasRoom collector.now piece.now }
{
    let here = collector.here();
    here.offset < 1_000_000_000 && piece.len() < 1_000_000_000
}

// The tokens of a command, each after a letter for its kind.
#[cycle(write)]
#[tactic(auto, using(eo_sexp::proofs::Sizes::size_inside))]
fn write_sexp(out: &mut String, s: &Sexp<'_>) -> Result<(), Fail> {
    match s.list() {
        None => write_atom(out, s),
        Some(children) => {
            out.push('(')?;
            write_sexps(out, &children)?;
            out.push(')')?;
            Ok(())
        }
    }
}

#[cycle(write)]
fn write_sexps(out: &mut String, children: &Children<'_>) -> Result<(), Fail> {
    for child in children.again() {
        write_sexp(out, &child)?;
    }
    Ok(())
}

fn write_atom(out: &mut String, s: &Sexp<'_>) -> Result<(), Fail> {
    out.push(match s.kind() {
        Kind::List => 'l',
        Kind::Symbol => 's',
        Kind::Keyword => 'k',
        Kind::Literal => 'n',
        Kind::String => 't',
    })?;
    for x in s.text() {
        out.push(*x as char)?;
    }
    out.push(' ')?;
    Ok(())
}

fn write_spot(out: &mut String, at: Spot) -> Result<(), Fail> {
    let Spot { line, offset } = at;
    Ok(write!(out, "{line}:{offset} ")?)
}

fn write_command(out: &mut String, collector: &Collector) -> Result<(), Fail>
    requires { IsAtCommand collector.now }
{
    write_spot(out, collector.start())?;
    write_sexp(out, &collector.command())
}

fn write_fault(out: &mut String, name: FaultName, at: Spot) -> Result<(), Fail> {
    out.push_str(name.text())?;
    out.push(' ')?;
    write_spot(out, at)
}
