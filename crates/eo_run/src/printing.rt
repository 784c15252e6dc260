//! Printing a verdict.
ghost use Rattle.std.specs.Prelude.{◌≡◌, ◌≢◌, ◌≤◌, ◌++◌, decimal};
ghost use Rattle.std.specs.Bool.{OnTrue, OnFalse};
ghost use Rattle.eo_base.specs.Causes.{Rose};
ghost use Rattle.eo_io.specs.Sink.{Adds, AddsFront};
ghost use Rattle.eo_run.specs.Answer.{FileInRange, WritesDue, answer_due};
ghost use Rattle.eo_run.specs.Printed.{two_digits};
ghost use Rattle.eo_run.specs.Benching.{EndInRange, end_due};
ghost use Rattle.eo_run.specs.Pieces.{text_of, line_due, refusal_of_pieces, refused_due, loaded_due, counts_of_pieces, counts_due};

use crate::{BenchEnd, Verdict};
use eo_base::{Fault, Status};
use eo_io::{Paths, Sink, write_all};
use itoa::Buffer;

/// Writes the line of a verdict, and returns the status that goes with it.
///
/// | verdict | line | status |
/// |---|---|---|
/// | `Correct` | `correct` | `Ok` |
/// | `Incomplete` | `incomplete` | `Incomplete` |
/// | `Loaded` | `loaded C commands` | `Ok` |
/// | `Refused` | as `refused F28 NotAsserted p.eo:1:0`: number, name, file, line, byte | `Refused` |
/// | `ReadFault` | `read fault` | `ReadFault` |
/// | `OutOfMemory` | `out of memory` | `OutOfMemory` |
///
/// `WriteFault` comes only where the sink's count of faults rose. Then a front of the line is
/// written. The file of a refusal is one of the paths.
pub fn print_verdict<W: Sink>(out: &mut W, v: &Verdict, paths: &Paths) -> Status
    requires { FileInRange paths.now v.now }
    ensures due { WritesDue result (answer_due paths.now v.now) (W.written out.old) (W.written out.new) }
    ensures cause { result ≡ Status.WriteFault → Rose (W.faults out.old) (W.faults out.new) }
    ensures later { W.faults out.old ≤ W.faults out.new }
{
    match v {
        Verdict::Correct => print_line(out, Status::Ok, &[b"correct\n"]),
        Verdict::Incomplete => print_line(out, Status::Incomplete, &[b"incomplete\n"]),
        Verdict::Loaded { commands } => print_loaded(out, *commands),
        Verdict::Refused(fault) => print_refusal(out, fault, paths.get(fault.place.file)),
        Verdict::ReadFault => print_line(out, Status::ReadFault, &[b"read fault\n"]),
        Verdict::OutOfMemory => print_line(out, Status::OutOfMemory, &[b"out of memory\n"]),
    }
}

/// Writes the line of a bench of n hops, as `bench 10: correct, 33 commands, 99 terms`, or that of
/// its verdict, and returns the status that goes with it, as [`print_verdict`] does.
pub fn print_bench<W: Sink>(out: &mut W, n: u32, end: &BenchEnd, paths: &Paths) -> Status
    requires { EndInRange paths.now end.now }
    ensures due { WritesDue result (end_due n paths.now end.now) (W.written out.old) (W.written out.new) }
    ensures cause { result ≡ Status.WriteFault → Rose (W.faults out.old) (W.faults out.new) }
    ensures later { W.faults out.old ≤ W.faults out.new }
{
    match end {
        BenchEnd::Correct { commands, terms } => print_counts(out, n, *commands, *terms),
        BenchEnd::Other(verdict) => print_verdict(out, verdict, paths),
    }
}

/// Writes the line of a correct bench.
fn print_counts<W: Sink>(out: &mut W, n: u32, commands: u64, terms: usize) -> Status
    ensures due { WritesDue result (counts_due n commands terms) (W.written out.old) (W.written out.new) }
    ensures cause { result ≡ Status.WriteFault → Rose (W.faults out.old) (W.faults out.new) }
    ensures later { W.faults out.old ≤ W.faults out.new }
{
    let mut digits = Buffer::new();
    let mut accepted = Buffer::new();
    let mut alive = Buffer::new();
    let pieces = counts_pieces(
        digits.format(n).as_bytes(),
        accepted.format(commands).as_bytes(),
        alive.format(terms).as_bytes(),
    );
    print_line(out, Status::Ok, &pieces)
}

/// The line of a correct bench in pieces, from its numbers.
fn counts_pieces<'a>(number: &'a [u8], commands: &'a [u8], terms: &'a [u8]) -> [&'a [u8]; 7]
    ensures { text_of result ≡ counts_of_pieces number.now commands.now terms.now }
{
    [
        b"bench ",
        number,
        b": correct, ",
        commands,
        b" commands, ",
        terms,
        b" terms\n",
    ]
}

/// Writes the line of a load.
fn print_loaded<W: Sink>(out: &mut W, commands: u64) -> Status
    ensures due { WritesDue result (loaded_due commands) (W.written out.old) (W.written out.new) }
    ensures cause { result ≡ Status.WriteFault → Rose (W.faults out.old) (W.faults out.new) }
    ensures later { W.faults out.old ≤ W.faults out.new }
{
    let mut buffer = Buffer::new();
    let commands = buffer.format(commands).as_bytes();
    print_line(out, Status::Ok, &[b"loaded ", commands, b" commands\n"])
}

/// Writes the line of a fault in the file with this path.
fn print_refusal<W: Sink>(out: &mut W, fault: &Fault, path: &[u8]) -> Status
    ensures due { WritesDue result (refused_due fault.now path.now) (W.written out.old) (W.written out.new) }
    ensures cause { result ≡ Status.WriteFault → Rose (W.faults out.old) (W.faults out.new) }
    ensures later { W.faults out.old ≤ W.faults out.new }
{
    let number = fault.name.number();
    let mut digits = Buffer::new();
    let mut line = Buffer::new();
    let mut offset = Buffer::new();
    let pieces = refusal_pieces(
        leading_zero(number),
        digits.format(number).as_bytes(),
        fault.name.text().as_bytes(),
        path,
        line.format(fault.place.line).as_bytes(),
        offset.format(fault.place.offset).as_bytes(),
    );
    print_line(out, Status::Refused, &pieces)
}

/// What makes two digits of a number below 100.
fn leading_zero(number: u8) -> &'static [u8]
    ensures { result.now ++ decimal number ≡ two_digits number }
{
    if number < 10 { b"0" } else { b"" }
}

/// The line of a fault in pieces, from its number in two digits, its name, and its place.
fn refusal_pieces<'a>(
    zero: &'a [u8],
    number: &'a [u8],
    name: &'a [u8],
    path: &'a [u8],
    line: &'a [u8],
    offset: &'a [u8],
) -> [&'a [u8]; 12]
    ensures { text_of result ≡ refusal_of_pieces zero.now number.now name.now path.now line.now offset.now }
{
    [
        b"refused F",
        zero,
        number,
        b" ",
        name,
        b" ",
        path,
        b":",
        line,
        b":",
        offset,
        b"\n",
    ]
}

/// Writes a line in pieces, and returns the status that goes with it.
///
/// `WriteFault` comes only where the sink's count of faults rose. Then a front of the line is
/// written.
pub fn print_line<W: Sink>(out: &mut W, status: Status, pieces: &[&[u8]]) -> Status
    requires { status ≢ Status.WriteFault }
    ensures due { WritesDue result (line_due status (text_of pieces.now)) (W.written out.old) (W.written out.new) }
    ensures cause { result ≡ Status.WriteFault → Rose (W.faults out.old) (W.faults out.new) }
    ensures later { W.faults out.old ≤ W.faults out.new }
{
    if write_pieces(out, pieces) {
        status
    } else {
        Status::WriteFault
    }
}

/// Writes the pieces one after another, and returns whether it could. Where it could not, a front
/// of them is written.
fn write_pieces<W: Sink>(out: &mut W, pieces: &[&[u8]]) -> bool
    ensures all { OnTrue result (Adds (text_of pieces.now) (W.written out.old) (W.written out.new)) }
    ensures front { OnFalse result (AddsFront (text_of pieces.now) (W.written out.old) (W.written out.new)) }
    ensures cause { OnFalse result (Rose (W.faults out.old) (W.faults out.new)) }
    ensures later { W.faults out.old ≤ W.faults out.new }
{
    for piece in pieces {
        if !write_all(out, piece) {
            return false;
        }
    }
    true
}
