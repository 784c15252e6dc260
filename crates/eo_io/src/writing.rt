//! Writing all of a piece.
ghost use Rattle.std.specs.Prelude.{◌≤◌};
ghost use Rattle.std.specs.Bool.{OnTrue, OnFalse};
ghost use Rattle.eo_base.specs.Causes.{Rose};
ghost use Rattle.eo_io.specs.Sink.{Adds, AddsFront};

use crate::{Put, Sink};

/// Writes all the bytes, in as many writes as it takes, and returns whether it could.
///
/// It gives up at the first write that fails or that takes nothing, so only where the sink's count
/// of faults rose. Then the first of the bytes are written, or none.
pub fn write_all<W: Sink>(out: &mut W, bytes: &[u8]) -> bool
    ensures all { OnTrue result (Adds bytes.now (W.written out.old) (W.written out.new)) }
    ensures front { OnFalse result (AddsFront bytes.now (W.written out.old) (W.written out.new)) }
    ensures cause { OnFalse result (Rose (W.faults out.old) (W.faults out.new)) }
    ensures later { W.faults out.old ≤ W.faults out.new }
{
    let mut done = 0;
    while done < bytes.len() {
        match out.write(&bytes[done..]) {
            Put::Failed | Put::Took(0) => return false,
            Put::Took(n) => done += n,
        }
    }
    true
}
