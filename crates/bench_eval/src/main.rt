//! The time and the outcome of evaluations that begin many different calls.
//!
//! The program `c` on a and b is `true` where b is a + 1, and else calls itself on a and the middle
//! and on the middle and b; `w` on n is `c` on 0 and n. So `w` on n begins 2n different calls. With
//! no argument n is 500. With one it is that number, and the time is printed too: at 1,000,000 there
//! are as many different calls as there may be, and the third term, which adds one, is refused.
#![tactic(auto)]

ghost use Rattle.std.specs.Prelude.{◌≡◌, ◌<◌, length, All, IsTrue, IfSome};
ghost use Rattle.eo_term.specs.Terms.{HasArity, PartsBelow, TextsBelow, IsPlain, IsProper};
ghost use Rattle.eo_sig.specs.Growth.{GrowsUnder};
ghost use Rattle.eo_sig.specs.declared.records.ProgramDecl.{ProgramDecl};
ghost use Rattle.eo_sig.specs.Reading.{CaseBelow, IsBelow, ProgramBelow};

use eo_base::{Name, ok_with};
use eo_eval::{Evaluator, Outcome};
use eo_sig::{Case, Cases, Params, ProgramDecl, Signature};
use eo_term::{BOOL, Id, Ids, Node, OpCode, OpName, TRUE, Table, TermRefused};
use eo_type::Types;
use std::alloc::{AllocError, Global};
use std::marker::Model;
use std::time::Instant;
use std::{env, io};

/// A table, and a signature over it with programs. A call that gets a term of another table gives
/// none, and so does one that finds no memory.
#[derive(Drop)]
struct World {
    alloc: Global,
    table: Table,
    sig: Signature,
}

impl Model for World {
    ghost use Rattle.std.specs.Prelude.{ℕ, length};
    ghost use Rattle.eo_sig.specs.Reading.{IsBelow, signature};
    ghost use Rattle.eo_sig.specs.Usable.{IsUsable};

    ghost Value = { ℕ };

    ghost view = { λ a. length a.table.trees };

    ghost invariant = { λ a. IsBelow (length a.table.trees) a.sig × IsUsable (signature a.table.trees a.sig) };
}

impl World {
    /// No program is there yet.
    fn new(alloc: Global) -> Option<World> {
        World::first(alloc).ok()
    }

    fn first(alloc: Global) -> Result<World, AllocError> {
        let table = Table::new(alloc)?;
        let (sig, table) = ok_with(Signature::new(alloc), table)?;
        Ok(World { alloc, table, sig })
    }

    fn num(&mut self, number: i128) -> Option<Id> {
        make_term(&self.sig, &mut self.table, Node::Num(number)).ok()
    }

    fn par(&mut self, number: u8) -> Option<Id> {
        if number >= 64 {
            return None;
        }
        make_term(&self.sig, &mut self.table, Node::Par(number)).ok()
    }

    fn op(&mut self, op: OpName, args: &[Id]) -> Option<Id> {
        if args.len() != op.arity() || !are_live(&self.table, args) {
            return None;
        }
        made_op(&self.sig, &mut self.table, OpCode::Builtin(op), args).ok()
    }

    fn call(&mut self, program: usize, args: &[Id]) -> Option<Id> {
        if args.len() > 64 || !are_live(&self.table, args) {
            return None;
        }
        made_op(&self.sig, &mut self.table, OpCode::Prog(program), args).ok()
    }

    /// Adds a program with one case, and returns its number.
    fn program(&mut self, name: &[u8], patterns: &[Id], body: Id) -> Option<usize> {
        if !self.sig.is_free(name) {
            return None;
        }
        let d = program(self.alloc, &self.table, name, patterns, body)?;
        let Ok(number) = self.sig.add_program(&self.table, d) else {
            return None;
        };
        Some(number)
    }

    fn outcome(&mut self, id: Id) -> Option<Outcome> {
        if id.place() >= self.table.len() {
            return None;
        }
        let mut evaluator = Evaluator::new(self.alloc);
        let outcome = self.outcome_by(&mut evaluator, id);
        drop(evaluator);
        outcome
    }

    fn outcome_by(&mut self, evaluator: &mut Evaluator, id: Id) -> Option<Outcome>
        requires { id < self.old }
    {
        let mut types = Types::new(self.alloc);
        let outcome = evaluator.evaluate(&self.sig, &mut self.table, &mut types, id);
        drop(types);
        outcome.ok()
    }
}

// Whether each term is one of the table.
fn are_live(table: &Table, ids: &[Id]) -> bool
    ensures { IsTrue result → All (λ i. i < length table.now.trees) ids.now }
{
    let count = table.len();
    ids.iter().all(|id| id.place() < count)
}

// The term with this root.
fn make_term(sig: &Signature, table: &mut Table, node: Node) -> Result<Id, TermRefused>
    requires plain { IsPlain node }
    requires parts { PartsBelow (length table.old.trees) node }
    requires texts { TextsBelow (length table.old.texts) node }
    requires proper { IsProper node }
    requires below { IsBelow (length table.old.trees) sig.now }
    ensures grows { GrowsUnder sig.now table.old table.new }
{
    sig.laws();
    table.intern(node)
}

// An operator or a program on these arguments.
fn made_op(sig: &Signature, table: &mut Table, code: OpCode, args: &[Id]) -> Result<Id, TermRefused>
    requires count { HasArity code (length args.now) }
    requires args { All (λ i. i < length table.old.trees) args.now }
    requires below { IsBelow (length table.old.trees) sig.now }
    ensures grows { GrowsUnder sig.now table.old table.new }
{
    sig.laws();
    table.intern_op(code, args)
}

// The term, if it is one of the table.
fn live(table: &Table, id: Id) -> Option<Id>
    ensures { IfSome result (λ i. i < length table.now.trees) }
{
    if id.place() >= table.len() {
        return None;
    }
    Some(id)
}

// These terms.
fn terms_of(alloc: Global, table: &Table, ids: &[Id]) -> Option<Ids>
    ensures { IfSome result (All (λ i. i < length table.now.trees)) }
{
    let mut list = Ids::new(alloc);
    for id in ids {
        list.push(live(table, *id)?).ok()?;
    }
    Some(list)
}

// A program with one case. The types of its inputs and of its value play no part.
fn program(
    alloc: Global,
    table: &Table,
    name: &[u8],
    patterns: &[Id],
    body: Id,
) -> Option<ProgramDecl>
    ensures below { IfSome result (ProgramBelow (length table.now.trees)) }
    ensures named { IfSome result (λ (d : ProgramDecl). d.name ≡ name.now) }
{
    let output = live(table, BOOL)?;
    let cases = cases_of(alloc, table, patterns, body)?;
    let name = Name::new(alloc, name).ok()?;
    Some(ProgramDecl {
        name,
        params: Params::new(alloc),
        inputs: Ids::new(alloc),
        output,
        cases,
    })
}

// One case.
fn cases_of(alloc: Global, table: &Table, patterns: &[Id], body: Id) -> Option<Cases>
    ensures { IfSome result (All (CaseBelow (length table.now.trees))) }
{
    let body = live(table, body)?;
    let patterns = terms_of(alloc, table, patterns)?;
    let mut cases = Cases::new(alloc);
    cases.push(Case { patterns, body }).ok()?;
    Some(cases)
}

/// The programs `c` and `w`, with the numbers 0 and 1.
fn declare(w: &mut World) -> Option<()> {
    let a = w.par(0)?;
    let b = w.par(1)?;
    let body = calls_on(w, a, b)?;
    w.program(b"c", &[a, b], body)?;
    let zero = w.num(0)?;
    let whole = w.call(0, &[zero, a])?;
    w.program(b"w", &[a], whole)?;
    Some(())
}

// The body of `c` on a and b.
fn calls_on(w: &mut World, a: Id, b: Id) -> Option<Id> {
    let one = w.num(1)?;
    let next = w.op(OpName::Add, &[a, one])?;
    let are_next = w.op(OpName::IsEq, &[next, b])?;
    let both = calls_on_halves(w, a, b)?;
    w.op(OpName::Ite, &[are_next, TRUE, both])
}

// `c` on both halves between a and b.
fn calls_on_halves(w: &mut World, a: Id, b: Id) -> Option<Id> {
    let two = w.num(2)?;
    let sum = w.op(OpName::Add, &[a, b])?;
    let middle = w.op(OpName::Zdiv, &[sum, two])?;
    let lower = w.call(0, &[a, middle])?;
    let upper = w.call(0, &[middle, b])?;
    w.op(OpName::And, &[lower, upper])
}

/// `w` on n, that and a call that was begun in it, and that and one that was not.
fn terms(w: &mut World, n: usize) -> Option<[Id; 3]> {
    let whole = whole_on(w, n as i128)?;
    let begun = begin_call(w)?;
    let other = whole_on(w, 1)?;
    let again = w.op(OpName::And, &[whole, begun])?;
    let more = w.op(OpName::And, &[whole, other])?;
    Some([whole, again, more])
}

// `w` on a number.
fn whole_on(w: &mut World, number: i128) -> Option<Id> {
    let number = w.num(number)?;
    w.call(1, &[number])
}

// `c` on 0 and 1.
fn begin_call(w: &mut World) -> Option<Id> {
    let zero = w.num(0)?;
    let one = w.num(1)?;
    w.call(0, &[zero, one])
}

fn word_of(outcome: Option<Outcome>) -> &'static str {
    if outcome == Some(Outcome::Value(TRUE)) {
        return "true";
    }
    if outcome == Some(Outcome::Calls) {
        return "too many calls";
    }
    "another outcome"
}

/// Prints how the evaluation of a term ends, and its time where it is asked for.
fn time(rt: &HostRuntime, w: &mut World, id: Id, timed: bool) -> io::Result<()> {
    let start = Instant::now(rt)?;
    let outcome = w.outcome(id);
    let time = start.elapsed(rt)?;
    println!(rt; "{}", word_of(outcome))?;
    if timed {
        print_time(rt, time.as_micros())?;
    }
    Ok(())
}

fn print_time(rt: &HostRuntime, us: u128) -> io::Result<()> {
    println!(rt; "{us} us")
}

fn time_all(rt: &HostRuntime, w: &mut World, n: usize, timed: bool) -> io::Result<()> {
    if declare(w).is_none() {
        return Ok(());
    }
    let Some(ids) = terms(w, n) else {
        return Ok(());
    };
    for id in &ids {
        time(rt, w, *id, timed)?;
    }
    Ok(())
}

/// The number that is asked for, if one is.
fn requested_number(rt: &HostRuntime) -> io::Result<Option<usize>> {
    let mut words = env::args(rt)?;
    let _program = words.next();
    Ok(
        words
            .next()
            .and_then(|word| word.as_str().parse::<usize>().ok()),
    )
}

fn main(rt: HostRuntime) -> io::Result<()> {
    let asked = requested_number(&rt)?;
    let Some(mut w) = World::new(rt.alloc()) else {
        return Ok(());
    };
    let printed = time_all(&rt, &mut w, asked.unwrap_or(500), asked.is_some());
    drop(w);
    printed
}
