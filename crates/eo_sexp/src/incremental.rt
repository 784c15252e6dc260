//! Commands of a file that comes in pieces.
ghost use Rattle.std.specs.Prelude.{◌≡◌, ℕ, ◌∷◌, [], ◌++◌, ◌+◌, ◌-◌, ◌<◌, ◌≤◌, ◌^◌, length, IfOk};
ghost use Rattle.std.specs.Prelude.{Bool, OnOk, IsTrue, ◌≢◌, ◌⊎◌, codes, bytes_eq, false, true};
ghost use Rattle.std.specs.Prelude.{take, IfErr};
ghost use Rattle.eo_base.specs.Limits.{limits};
ghost use Rattle.eo_base.specs.Faults.{number};
ghost use Rattle.eo_sexp.specs.Lexicon.{class, Open, Close};
ghost use Rattle.eo_sexp.specs.Texts.{AfterPair, Start, after as phase_after, next_spot};
ghost use Rattle.eo_sexp.specs.Collecting.{Collecting, new_collector, HasRoom, Feeds, HasMemory};
ghost use Rattle.eo_sexp.specs.Collecting.{Finishes, IsLive, start_of, here_of, IsAtCommand};
ghost use Rattle.eo_sexp.specs.Collecting.{IsWithin, Holds, bytes_of, ready, finish_answer};
ghost use Rattle.eo_sexp.specs.Parts.{HoldsParts};
ghost use Rattle.eo_sexp.specs.Built.{nothing};
ghost use Rattle.eo_sexp.specs.Machine.{phase_of, meaning, IsSound, IsBegun, IsPairFact, IsPlaced, IsBetween, MayPass};
ghost use Rattle.eo_sexp.specs.Machine.{IsFirst, TakesByte, Leaves, Keeps, Completes, Lengthens};
ghost use Rattle.eo_sexp.specs.Machine.{ClosesCommand, earlier_fault, list_state, answer_of};
ghost use Rattle.eo_sexp.specs.Machine.{FeedsByte, TakesBytes, Turned, GoesOver, StopsIn};
ghost use Rattle.eo_sexp.specs.Machine.{Finishing};
ghost use Rattle.eo_sexp.specs.Reader.{IsAtom};
ghost use Rattle.eo_sexp.specs.Token.{class_of};

use crate::buffer::Buffer;
use crate::classes::{Class, classify, is_line_end};
use crate::lent::Sexp;
use crate::plain::comment_run;
use crate::reader::{Reader, ReaderTurn, Run};
use crate::{Fed, Finished, Spot};
use eo_base::FaultName;
use eo_base::limits::COMMAND;
use std::alloc::{AllocError, Global};
use std::marker::Model;

/// Which part of a file comes next, between two commands.
#[derive(Clone, Copy, PartialEq, Eq)]
enum Phase {
    /// A proof, at its start.
    Start,
    /// A proof, after its word `unsat`.
    AfterUnsat,
    /// A proof, inside the outer pair.
    InPair,
    /// A proof, after the outer pair.
    AfterPair,
    /// Any other file, and a proof whose first command is in no outer pair.
    Plain,
}

/// What was returned last, or what is begun.
#[derive(Drop)]
enum State {
    /// Nothing is begun.
    Between { comment: bool },
    /// A command is begun.
    Begun,
    /// The same, and it may still be a proof's outer pair: only its `(`, white space and comments
    /// have come.
    Pair { comment: bool },
    /// A command was returned, which is in the buffer.
    Command,
    Failed { name: FaultName, at: Spot },
    NoMemory,
}

/// The fields of a collector.
#[derive(Drop)]
struct Machine {
    phase: Phase,
    state: State,
    // the first byte of the command begun or returned last, or else the next byte
    start: Spot,
    // the next byte
    here: Spot,
    // the bytes of the command begun or returned last
    begun: Buffer,
    reader: Reader,
}

// The phase after a command.
#[tactic(auto, unfolding(crate::specs::Texts::after))]
fn after(phase: Phase) -> Phase
    ensures { phase_of result ≡ phase_after (phase_of phase) }
{
    match phase {
        Phase::InPair => Phase::InPair,
        _ => Phase::Plain,
    }
}

// The place of the byte after the byte x at this place.
#[tactic(auto, unfolding(crate::specs::Texts::next_spot))]
fn next_spot(at: Spot, x: u8) -> Spot
    requires { MayPass at }
    ensures { result ≡ next_spot at x }
{
    Spot {
        line: if x == b'\n' { at.line + 1 } else { at.line },
        offset: at.offset + 1,
    }
}

// The place after so many more bytes, with so many line feeds.
fn further(at: Spot, bytes: usize, lines: usize) -> Spot
    requires line { at.line ≤ at.offset + 1 }
    requires few { lines ≤ bytes }
    requires room { at.offset + bytes ≤ 2 ^ 64 - 2 }
    ensures { result ≡ record { line = at.line + lines; offset = at.offset + bytes } }
{
    Spot {
        line: at.line + lines as u64,
        offset: at.offset + bytes as u64,
    }
}

// The fault at byte `at` of a command, where that byte is this fault and may be one too many.
#[tactic(auto, unfolding(eo_base::specs::Limits::limits, eo_base::specs::Faults::number))]
fn earlier_fault(at: usize, name: FaultName) -> FaultName
    ensures { result ≡ earlier_fault limits at name }
{
    if at < COMMAND || name.number() < FaultName::CommandLong.number() {
        name
    } else {
        FaultName::CommandLong
    }
}

// What a `(` begins.
fn list_state(phase: Phase) -> State
    ensures { result ≡ list_state phase }
{
    match phase {
        Phase::Start | Phase::AfterUnsat => State::Pair { comment: false },
        Phase::InPair | Phase::AfterPair | Phase::Plain => State::Begun,
    }
}

impl Machine {
    fn new(alloc: Global, wrapped: bool) -> Result<Machine, AllocError>
        ensures sound { IfOk result (λ m. IsSound m) }
        ensures meant { IfOk result (λ m. meaning m ≡ new_collector wrapped) }
    {
        let first = Spot { line: 1, offset: 0 };
        Ok(Machine {
            phase: if wrapped { Phase::Start } else { Phase::Plain },
            state: State::Between { comment: false },
            start: first,
            here: first,
            begun: Buffer::new(alloc)?,
            reader: Reader::new(),
        })
    }

    // Drops the bytes begun, or those of a command.
    fn leave(&mut self, comment: bool)
        ensures { Leaves self.old comment self.old.here self.new }
    {
        self.begun.clear();
        self.start = self.here;
        self.state = State::Between { comment };
    }

    // Passes over the byte x.
    fn pass(&mut self, comment: bool, x: u8)
        requires at { MayPass self.old.here }
        requires nothing { self.old.begun ≡ nothing }
        ensures { Leaves self.old comment (next_spot self.old.here x) self.new }
    {
        self.here = next_spot(self.here, x);
        self.start = self.here;
        self.state = State::Between { comment };
    }

    // Keeps the byte x of the command begun.
    fn keep(&mut self, x: u8) -> Result<(), AllocError>
        requires { MayPass self.old.here }
        ensures { OnOk result (Keeps self.old x self.new) }
    {
        self.begun.push(x)?;
        self.here = next_spot(self.here, x);
        Ok(())
    }

    // The next byte is a fault.
    fn fail(&mut self, name: FaultName)
        ensures { self.new.state ≡ State.Failed name self.old.here }
    {
        self.state = State::Failed {
            name,
            at: self.here,
        };
    }

    // The bytes begun are a command.
    fn complete(&mut self)
        ensures { Completes self.old self.new }
    {
        self.phase = after(self.phase);
        self.state = State::Command;
    }

    // Takes the byte x, or returns before it.
    fn turn(&mut self, x: u8) -> Result<(), AllocError>
        requires sound { IsSound self.old }
        requires room { self.old.here.offset + 3 ≤ 2 ^ 64 }
        ensures { OnOk result (TakesByte self.old x self.new) }
    {
        match self.state {
            State::Between { comment } => {
                if comment {
                    self.pass(!is_line_end(x), x);
                    Ok(())
                } else {
                    self.turn_between(x)
                }
            }
            State::Begun => self.turn_begun(x),
            State::Pair { comment } => self.turn_pair(comment, x),
            _ => Ok(()),
        }
    }

    // The byte x between two commands.
    fn turn_between(&mut self, x: u8) -> Result<(), AllocError>
        requires { IsBetween self.old }
        ensures { OnOk result (TakesByte self.old x self.new) }
    {
        match classify(x) {
            Class::Space => self.pass(false, x),
            Class::Comment => self.pass(true, x),
            Class::Other => self.fail(FaultName::BadByte),
            Class::Close => self.turn_close(x),
            c => return self.begin(c, x),
        }
        Ok(())
    }

    // A `)` between two commands.
    fn turn_close(&mut self, x: u8)
        requires between { IsBetween self.old }
        requires class { class x ≡ Close }
        ensures { TakesByte self.old x self.new }
    {
        match self.phase {
            Phase::InPair => {
                self.phase = Phase::AfterPair;
                self.pass(false, x);
            }
            _ => self.fail(FaultName::ExtraClose),
        }
    }

    // Begins a command with its first byte.
    fn begin(&mut self, c: Class, x: u8) -> Result<(), AllocError>
        requires between { IsBetween self.old }
        requires class { class_of c ≡ class x }
        requires first { IsFirst (class x) }
        ensures { OnOk result (TakesByte self.old x self.new) }
    {
        match self.phase {
            Phase::AfterPair => {
                self.fail(FaultName::ExtraClose);
                Ok(())
            }
            _ => match c {
                Class::Open => self.begin_list(x),
                _ => self.begin_atom(c, x),
            },
        }
    }

    // Begins a list with its `(`.
    fn begin_list(&mut self, x: u8) -> Result<(), AllocError>
        requires between { IsBetween self.old }
        requires inside { phase_of self.old.phase ≢ AfterPair }
        requires class { class x ≡ Open }
        ensures { OnOk result (TakesByte self.old x self.new) }
    {
        self.reader.begin_list(&mut self.begun)?;
        self.keep(x)?;
        self.state = list_state(self.phase);
        Ok(())
    }

    // Begins an atom with its first byte.
    fn begin_atom(&mut self, c: Class, x: u8) -> Result<(), AllocError>
        requires between { IsBetween self.old }
        requires inside { phase_of self.old.phase ≢ AfterPair }
        requires class { class_of c ≡ class x }
        requires atom { IsAtom (class x) }
        ensures { OnOk result (TakesByte self.old x self.new) }
    {
        self.reader.begin_atom(c, x);
        self.keep(x)?;
        self.state = State::Begun;
        Ok(())
    }

    // The byte x after a `(` that may be the outer pair.
    fn turn_pair(&mut self, comment: bool, x: u8) -> Result<(), AllocError>
        requires pair { self.old.state ≡ State.Pair comment }
        requires sound { IsSound self.old }
        requires room { self.old.here.offset + 3 ≤ 2 ^ 64 }
        ensures { OnOk result (TakesByte self.old x self.new) }
    {
        if comment {
            self.state = State::Pair {
                comment: !is_line_end(x),
            };
            return self.turn_begun(x);
        }
        match classify(x) {
            Class::Open | Class::Close => {
                self.phase = Phase::InPair;
                self.leave(false);
                self.turn_between(x)
            }
            Class::Space => self.turn_begun(x),
            Class::Comment => {
                self.state = State::Pair { comment: true };
                self.turn_begun(x)
            }
            _ => {
                self.state = State::Begun;
                self.turn_begun(x)
            }
        }
    }

    // The byte x of a command that is begun.
    fn turn_begun(&mut self, x: u8) -> Result<(), AllocError>
        requires begun { IsBegun self.old }
        requires pair { IsPairFact self.old.state (phase_of self.old.phase) (self.old.begun.bytes ++ x ∷ []) }
        requires placed { IsPlaced self.old }
        requires room { self.old.here.offset + 3 ≤ 2 ^ 64 }
        ensures { OnOk result (TakesByte self.old x self.new) }
    {
        let at = self.begun.bytes().len();
        let turn = self.reader.turn(&mut self.begun, at, x)?;
        self.decide(turn, x)
    }

    // Does what the reader's turn at the byte x says.
    fn decide(&mut self, turn: ReaderTurn, x: u8) -> Result<(), AllocError>
        requires { MayPass self.old.here }
        ensures { OnOk result ((old : Machine) → Turned old turn x self.old → TakesByte old x self.new) }
    {
        let at = self.begun.bytes().len();
        match turn {
            ReaderTurn::Before => {
                if self.is_unsat() {
                    self.phase = Phase::AfterUnsat;
                    self.leave(false);
                    return self.turn_between(x);
                }
                self.complete();
                Ok(())
            }
            ReaderTurn::Fault(name) => {
                self.fail(earlier_fault(at, name));
                Ok(())
            }
            ReaderTurn::Goes => self.lengthen(at, x),
            ReaderTurn::Whole => self.close(at, x),
        }
    }

    // Passes over the bytes at the front of `rest` that stay inside of a comment between two
    // commands, and returns how many.
    #[inline(never)]
    fn run_comment(&mut self, rest: &[u8]) -> usize
        requires between { self.old.state ≡ State.Between true }
        requires nothing { self.old.begun ≡ nothing }
        requires placed { IsPlaced self.old }
        requires room { self.old.here.offset + length rest.now ≤ 2 ^ 64 - 2 }
        ensures within { result ≤ length rest.now }
        ensures stays { self.new.state ≡ self.old.state }
        ensures takes { TakesBytes self.old (take result rest.now) self.new }
    {
        let run = comment_run(rest);
        self.here = further(self.here, run, 0);
        self.start = self.here;
        run
    }

    // Takes bytes at the front of `rest`, up to one that decides, and returns how many.
    fn run(&mut self, rest: &[u8]) -> Result<usize, AllocError>
        requires begun { self.old.state ≡ State.Begun }
        requires sound { IsSound self.old }
        requires room { self.old.here.offset + length rest.now ≤ 2 ^ 64 - 2 }
        ensures within { IfOk result (λ n. n ≤ length rest.now) }
        ensures takes { IfOk result (λ n. TakesBytes self.old (take n rest.now) self.new) }
    {
        let Run { taken, lines, turn } = self.reader.run(&mut self.begun, rest)?;
        self.here = further(self.here, taken, lines);
        match turn {
            ReaderTurn::Goes => Ok(taken),
            turn => {
                self.decide(turn, rest[taken])?;
                Ok(taken + 1)
            }
        }
    }

    // Whether the bytes begun are the word that a proof may begin with.
    fn is_unsat(&self) -> bool
        ensures yes { IsTrue result → (phase_of self.now.phase ≡ Start) × (self.now.begun.bytes ≡ codes "unsat") }
        ensures no { result ≡ false → phase_of self.now.phase ≡ Start → bytes_eq self.now.begun.bytes (codes "unsat") ≡ false }
    {
        self.phase == Phase::Start && self.begun.bytes() == b"unsat".as_slice()
    }

    // The command goes on after the byte x.
    fn lengthen(&mut self, at: usize, x: u8) -> Result<(), AllocError>
        requires { MayPass self.old.here }
        ensures { OnOk result (Lengthens limits self.old at x self.new) }
    {
        if at >= COMMAND {
            self.fail(FaultName::CommandLong);
            return Ok(());
        }
        self.keep(x)
    }

    // The byte x makes the command whole.
    fn close(&mut self, at: usize, x: u8) -> Result<(), AllocError>
        requires { MayPass self.old.here }
        ensures { OnOk result (ClosesCommand limits self.old at x self.new) }
    {
        if at >= COMMAND {
            self.fail(FaultName::CommandLong);
            return Ok(());
        }
        self.keep(x)?;
        self.complete();
        Ok(())
    }

    // Goes on after a command.
    fn go_on(&mut self)
        requires { IsSound self.old }
        ensures sound { IsSound self.new }
        ensures meant { meaning self.new ≡ ready (meaning self.old) }
    {
        match self.state {
            State::Command => self.leave(false),
            _ => {}
        }
    }

    // How many bytes come before the next one.
    fn offset(&self) -> u64
        ensures { result ≡ self.now.here.offset }
    {
        self.here.offset
    }

    // The result of the last turn, where the first byte of the piece had this offset.
    fn answer(&self, first: u64) -> Option<Fed>
        ensures { result ≡ answer_of first self.now }
    {
        match self.state {
            State::Command => Some(Fed::Command {
                used: self.here.offset.saturating_sub(first) as usize,
            }),
            State::Failed { name, at } => Some(Fed::Fault { name, at }),
            State::NoMemory => Some(Fed::Memory),
            _ => None,
        }
    }

    // Feeds the byte x of a piece whose first byte had this offset.
    fn feed_byte(&mut self, first: u64, x: u8) -> Option<Fed>
        requires sound { IsSound self.old }
        requires room { self.old.here.offset + 3 ≤ 2 ^ 64 }
        ensures { FeedsByte self.old first x result self.new }
    {
        match self.turn(x) {
            Ok(()) => self.answer(first),
            Err(_) => {
                self.state = State::NoMemory;
                Some(Fed::Memory)
            }
        }
    }

    // Feeds bytes at the front of the rest of a piece whose first byte had this offset, where a
    // command or a comment is begun, and returns how many, or else the result at one of them.
    fn feed_run(&mut self, first: u64, rest: &[u8]) -> Result<usize, Fed>
        requires sound { IsSound self.old }
        requires within { IsWithin (meaning self.old) }
        requires room { self.old.here.offset + length rest.now ≤ 2 ^ 64 - 2 }
        ensures goes { IfOk result (λ n. GoesOver self.old first rest.now n self.new) }
        ensures stops { IfErr result (λ f. (self.new.state ≡ State.NoMemory) × (f ≡ Fed.Memory)
            ⊎ StopsIn self.old first rest.now f self.new) }
    {
        match self.state {
            State::Begun => {}
            State::Between { comment: true } => return Ok(self.run_comment(rest)),
            _ => return Ok(0),
        }
        match self.run(rest) {
            Ok(taken) => match self.answer(first) {
                Some(fed) => Err(fed),
                None => Ok(taken),
            },
            Err(_) => {
                self.state = State::NoMemory;
                Err(Fed::Memory)
            }
        }
    }

    fn feed(&mut self, piece: &[u8]) -> Fed
        requires sound { IsSound self.old }
        requires room { HasRoom (meaning self.old) piece.now }
        ensures sound { IsSound self.new }
        ensures feeds { Feeds limits (meaning self.old) piece.now result (meaning self.new) }
    {
        self.go_on();
        let first = self.offset();
        if let Some(fed) = self.answer(first) {
            return fed;
        }
        let mut taken = 0;
        while taken < piece.len() {
            if let Some(fed) = self.feed_byte(first, piece[taken]) {
                return fed;
            }
            taken += 1;
            match self.feed_run(first, &piece[taken..]) {
                Ok(more) => taken += more,
                Err(fed) => return fed,
            }
        }
        Fed::More
    }

    // The end inside of something that is open.
    fn finish_open(&mut self) -> Finished
        ensures state { self.new.state ≡ State.Failed FaultName.Unclosed self.old.here }
        ensures answer { result ≡ Finished.Fault FaultName.Unclosed self.old.here }
    {
        let at = self.here;
        let name = FaultName::Unclosed;
        self.fail(name);
        Finished::Fault { name, at }
    }

    // The end between two commands.
    fn finish_between(&mut self) -> Finished
        requires between { (comment : Bool) × (self.old.state ≡ State.Between comment) }
        requires nothing { self.old.begun ≡ nothing }
        requires placed { IsPlaced self.old }
        ensures { Finishing limits self.old result self.new }
    {
        match self.phase {
            Phase::InPair => self.finish_open(),
            _ => Finished::End,
        }
    }

    // The end of a command that is begun.
    fn finish_begun(&mut self) -> Finished
        requires begun { IsBegun self.old }
        requires pair { IsPairFact self.old.state (phase_of self.old.phase) self.old.begun.bytes }
        requires placed { IsPlaced self.old }
        ensures { Finishing limits self.old result self.new }
    {
        if self.is_unsat() {
            return Finished::End;
        }
        let at = self.begun.bytes().len();
        if self.reader.finish(&mut self.begun, at) {
            self.complete();
            return Finished::Command;
        }
        self.finish_open()
    }

    // The result of the end where nothing is open.
    fn end_answer(&self) -> Finished
        ensures { result ≡ finish_answer (meaning self.now) }
    {
        match self.state {
            State::Command => Finished::Command,
            State::Failed { name, at } => Finished::Fault { name, at },
            _ => Finished::End,
        }
    }

    fn finish(&mut self) -> Finished
        requires sound { IsSound self.old }
        requires memory { HasMemory (meaning self.old) }
        ensures sound { IsSound self.new }
        ensures finishes { Finishes limits (meaning self.old) result (meaning self.new) }
    {
        self.go_on();
        match self.state {
            State::Between { .. } => self.finish_between(),
            State::Begun | State::Pair { .. } => self.finish_begun(),
            _ => self.end_answer(),
        }
    }

    fn command(&self) -> Sexp<'_>
        requires sound { IsSound self.now }
        requires command { IsAtCommand (meaning self.now) }
        ensures { Holds (meaning self.now) result }
    {
        self.begun.first()
    }

    fn bytes(&self) -> &[u8]
        requires { IsAtCommand (meaning self.now) }
        ensures { result.now ≡ bytes_of (meaning self.now) }
    {
        self.begun.bytes()
    }

    fn parts_law(&self)
        requires sound { IsSound self.now }
        requires command { IsAtCommand (meaning self.now) }
        ensures { HoldsParts (meaning self.now) }
    {
        self.begun.parts_law();
    }

    // The place of the command begun or returned last, or of the fault.
    fn start(&self) -> Spot
        ensures { IsLive (meaning self.now) → result ≡ start_of (meaning self.now) }
    {
        match self.state {
            State::Failed { at, .. } => at,
            _ => self.start,
        }
    }

    fn here(&self) -> Spot
        requires { IsSound self.now }
        ensures { IsLive (meaning self.now) → result ≡ here_of (meaning self.now) }
    {
        match self.state {
            State::Failed { at, .. } => at,
            _ => self.here,
        }
    }
}

/// Reads the commands of a file that comes in pieces.
#[derive(Drop)]
pub struct Collector {
    machine: Machine,
}

impl Model for Collector {
    ghost use Rattle.std.specs.Coded.{codes};
    ghost use Rattle.eo_base.specs.contracts.FaultName as fault;
    ghost use Rattle.eo_sexp.specs.Collecting.{Collecting};
    ghost use Rattle.eo_sexp.specs.SexpCode.{sexp_coded};

    ghost Value = { Collecting };

    ghost coded = { Prim.hlevel (codes, sexp_coded, fault.the_row.coded) };

    ghost use Rattle.eo_sexp.specs.Machine.{meaning, IsSound};

    ghost view = { λ c. meaning c.machine };

    ghost invariant = { λ c. IsSound c.machine };
}

impl Collector {
    /// A collector at the start of a file. `wrapped` says whether the file may have the wrappings
    /// of a proof: the word `unsat` at its start, and an outer pair of parentheses. `Err` is out of
    /// memory.
    pub fn new(alloc: Global, wrapped: bool) -> Result<Collector, AllocError>
        ensures { IfOk result (λ c. c ≡ new_collector wrapped) }
    {
        Ok(Collector {
            machine: Machine::new(alloc, wrapped)?,
        })
    }

    /// Feeds the next piece of the file. After a fault or when out of memory every call returns the
    /// same.
    pub fn feed(&mut self, piece: &[u8]) -> Fed
        requires { HasRoom self.old piece.now }
        ensures { Feeds limits self.old piece.now result self.new }
    {
        self.machine.feed(piece)
    }

    /// Ends the file after the pieces fed. It takes no memory. After a command that the end made
    /// whole it is called again.
    pub fn finish(&mut self) -> Finished
        requires { HasMemory self.old }
        ensures { Finishes limits self.old result self.new }
    {
        self.machine.finish()
    }

    /// The command that was returned last. It takes no memory.
    pub fn command(&self) -> Sexp<'_>
        requires { IsAtCommand self.now }
        ensures { Holds self.now result }
    {
        self.machine.command()
    }

    /// The bytes of the command that was returned last. It takes no memory.
    pub fn bytes(&self) -> &[u8]
        requires { IsAtCommand self.now }
        ensures { result.now ≡ bytes_of self.now }
    {
        self.machine.bytes()
    }

    /// A law: the text of an atom of the command is the part of the command's bytes at its span,
    /// without its bars or quotes.
    pub fn parts_law(&self)
        requires { IsAtCommand self.now }
        ensures { HoldsParts self.now }
    {
        self.machine.parts_law();
    }

    /// The place of the first byte of the command begun or returned last, else of the next byte.
    /// After a fault or when out of memory it says nothing.
    pub fn start(&self) -> Spot
        ensures { IsLive self.now → result ≡ start_of self.now }
    {
        self.machine.start()
    }

    /// The place of the first byte that is not taken yet. After a fault or when out of memory it says
    /// nothing.
    pub fn here(&self) -> Spot
        ensures { IsLive self.now → result ≡ here_of self.now }
    {
        self.machine.here()
    }
}
