//! The time that the table takes for terms that are new, and for terms that are there.
//!
//! With no argument it makes 2,000 terms twice and prints how many were new. With a number it makes
//! that many and prints the times too, and those of 20,000 literals that a hasher with a fixed seed
//! would all put into one place, and of as many others. `bench/intern` does the same work in plain
//! Rust, over std's `HashMap`.
#![tactic(auto)]

ghost use Rattle.std.specs.Prelude.{◌≡◌, ◌+◌, ◌<◌, ◌≤◌, length, All, IfOk};

use eo_term::{Id, Node, OpCode, OpName, TYPE, Table, TermRefused};
use std::time::Instant;
use std::{env, io};

const LEAVES: usize = 1024;

/// The multiplier of `FoldHasher`: 128-bit numbers with these upper bits have one hash under it.
const CHOSEN: u64 = 0x9e37_79b9_7f4a_7c15;

/// An application, a function type or an operator over two terms.
fn make(table: &mut Table, kind: usize, x: Id, y: Id) -> Result<Id, TermRefused>
    requires x { x < length table.old.trees }
    requires y { y < length table.old.trees }
    ensures live { IfOk result (λ i. i < length table.new.trees) }
    ensures more { length table.old.trees ≤ length table.new.trees }
{
    match kind {
        0 | 1 | 2 | 3 => table.intern(Node::App { fun: x, arg: y }),
        4 => table.intern(Node::Arr { from: x, to: y }),
        5 => table.intern_op(OpCode::Builtin(OpName::And), &[x, y]),
        _ => table.intern_op(OpCode::Builtin(OpName::Or), &[x, y]),
    }
}

/// The numbers from 0 on.
fn make_leaves(table: &mut Table) -> Result<[Id; LEAVES], TermRefused>
    requires { 4 ≤ length table.old.trees }
    ensures live { IfOk result (λ leaves. All (λ j. j < length table.new.trees) leaves) }
{
    let mut leaves = [TYPE; LEAVES];
    for i in 0..LEAVES {
        leaves[i] = table.intern(Node::Num(i as i128))?;
    }
    Ok(leaves)
}

/// Makes `count` terms over the leaves, no two of them the same, and returns how many are new.
fn pass(table: &mut Table, leaves: &[Id], count: usize) -> Result<usize, TermRefused>
    requires long { length leaves.now ≡ LEAVES }
    requires live { All (λ j. j < length table.old.trees) leaves.now }
    ensures more { length table.old.trees ≤ length table.new.trees }
    ensures new { IfOk result (λ n. n + length table.old.trees ≡ length table.new.trees) }
{
    let before = table.len();
    for i in 0..count {
        make(
            table,
            i % 8,
            leaves[i / LEAVES % LEAVES],
            leaves[i % LEAVES],
        )?;
    }
    Ok(table.len() - before)
}

/// Makes 20,000 bit strings with these upper 64 bits.
fn pass_literals(table: &mut Table, upper: u64) -> Result<(), TermRefused> {
    for lower in 0..20_000u64 {
        let value = (upper as u128) << 64 | lower as u128;
        table.intern(Node::Bits { width: 128, value })?;
    }
    Ok(())
}

/// Prints the time that literals take which were chosen to collide, and that of as many others.
fn time_literals(rt: &HostRuntime, table: &mut Table) -> io::Result<()> {
    let start = Instant::now(rt)?;
    let chosen = pass_literals(table, CHOSEN);
    let chosen_time = start.elapsed(rt)?;
    let start = Instant::now(rt)?;
    let other = pass_literals(table, CHOSEN + 1);
    let other_time = start.elapsed(rt)?;
    if chosen.is_ok() && other.is_ok() {
        println!(rt;
            "20,000 literals that were chosen to collide: {} us, others: {} us",
            chosen_time.as_micros(),
            other_time.as_micros()
        )?;
    }
    Ok(())
}

/// Makes the terms twice, and prints how many were new, with the times where these are asked for.
fn time_terms(
    rt: &HostRuntime,
    table: &mut Table,
    leaves: &[Id],
    asked: Option<usize>,
) -> io::Result<()>
    requires long { length leaves.now ≡ LEAVES }
    requires live { All (λ j. j < length table.old.trees) leaves.now }
{
    let count = asked.unwrap_or(2_000);
    let start = Instant::now(rt)?;
    let first = pass(table, leaves, count);
    let first_time = start.elapsed(rt)?;
    let start = Instant::now(rt)?;
    let again = pass(table, leaves, count);
    let again_time = start.elapsed(rt)?;
    if let (Ok(first), Ok(again)) = (first, again) {
        println!(rt; "{first} new, then {again} new")?;
    }
    if asked.is_some() {
        print_times(rt, first_time.as_micros(), again_time.as_micros())?;
    }
    Ok(())
}

fn print_times(rt: &HostRuntime, first: u128, again: u128) -> io::Result<()> {
    println!(rt; "{first} us, then {again} us")
}

/// Times all, in a table that holds its first terms.
fn time_all(rt: &HostRuntime, table: &mut Table, asked: Option<usize>) -> io::Result<()>
    requires { 4 ≤ length table.old.trees }
{
    let Ok(leaves) = make_leaves(table) else {
        return Ok(());
    };
    time_terms(rt, table, &leaves, asked)?;
    if asked.is_some() {
        time_literals(rt, table)?;
    }
    Ok(())
}

/// How many terms the command line asks for.
fn requested_number(rt: &HostRuntime) -> io::Result<Option<usize>> {
    let mut words = env::args(rt)?;
    drop(words.next());
    let count = number_of(words.next());
    drop(words);
    Ok(count)
}

fn number_of(word: Option<String>) -> Option<usize> {
    let word = word?;
    let number = word.as_str().parse::<usize>().ok();
    drop(word);
    number
}

fn main(rt: HostRuntime) -> io::Result<()> {
    let asked = requested_number(&rt)?;
    let Ok(mut table) = Table::new(rt.alloc()) else {
        return Ok(());
    };
    let timed = time_all(&rt, &mut table, asked);
    drop(table);
    timed
}
