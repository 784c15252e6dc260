//! Matching of patterns with terms.
ghost use Rattle.std.specs.Prelude.{◌≡◌, ◌<◌, ◌≤◌, ◌+◌, ◌*◌, [], ◌∷◌, length, IsTrue, IsFalse, All};
ghost use Rattle.eo_term.specs.Tree.{Par, height};
ghost use Rattle.eo_term.specs.Growth.{tree_in};
ghost use Rattle.eo_pattern.specs.Slots.{held, AreBelow, AreEmpty, HasRoom, Keeps};
ghost use Rattle.eo_pattern.specs.Matched.{ArePaired, MayMatch, ArePairs, Matched, Unmatched, MatchedTrees};
ghost use Rattle.eo_pattern.specs.Matched.{UnmatchedTrees, AreMatched};
ghost use Rattle.eo_pattern.specs.Split.{IsSplit};
ghost use Rattle.eo_pattern.specs.Tasks.{takes, IsFirst, Becomes, IsRefused, Stays};
ghost use Rattle.eo_pattern.specs.declared.tasks.Task.TheVariants as task;

use crate::Subst;
use crate::matched::{Pairs, is_large};
use crate::slots::Held;
use crate::tasks::{Task, Tasks};
use eo_term::{Id, Node, Table, arguments_law, codes_law};

/// Whether some assignment that extends the present one, by just the patterns' parameters, makes
/// the patterns equal to the terms, one to one. There is at most one; it is then held. On `false`
/// nothing is held.
///
/// There are as many terms as patterns, all are live, and the assignment has room for the patterns.
/// No memory is taken.
pub fn match_terms(table: &Table, patterns: &[Id], terms: &[Id], subst: &mut Subst) -> bool
    requires paired { ArePaired table.now patterns.now terms.now }
    requires room { All (λ i. HasRoom subst.old (tree_in table.now i)) patterns.now }
    requires below { AreBelow (length table.now.trees) subst.old }
    ensures yes { IsTrue result → Matched table.now subst.old patterns.now terms.now subst.new }
    ensures no { IsFalse result → Unmatched table.now subst.old patterns.now terms.now }
    ensures empty { IsFalse result → AreEmpty subst.new }
    ensures kept { Keeps (length table.now.trees) subst.old subst.new }
{
    match_all(
        table,
        patterns,
        terms,
        &mut subst.slots,
        &mut subst.tasks,
        &mut subst.pairs,
    )
}

// The same by what is held, with room for so many tasks.
fn match_all(
    table: &Table,
    patterns: &[Id],
    terms: &[Id],
    subst: &mut Held,
    tasks: &mut Tasks,
    pairs: &mut Pairs,
) -> bool
    requires paired { ArePaired table.now patterns.now terms.now }
    requires room { All (λ i. HasRoom subst.old (tree_in table.now i)) patterns.now }
    requires below { AreBelow (length table.now.trees) subst.old }
    requires tasks { 2 * subst.old.height ≤ tasks.old.room }
    ensures yes { IsTrue result → Matched table.now subst.old patterns.now terms.now subst.new }
    ensures no { IsFalse result → Unmatched table.now subst.old patterns.now terms.now }
    ensures empty { IsFalse result → AreEmpty subst.new }
    ensures stays { Stays (length table.now.trees) subst.old subst.new tasks.old tasks.new }
{
    for i in 0..patterns.len() {
        if !match_pattern(table, patterns[i], terms[i], subst, tasks, pairs) {
            subst.clear();
            return false;
        }
    }
    true
}

// The same for one pattern and one term, but that after `false` anything may be held. For a pattern
// with few parts no pairs are kept.
fn match_pattern(
    table: &Table,
    pattern: Id,
    term: Id,
    subst: &mut Held,
    tasks: &mut Tasks,
    pairs: &mut Pairs,
) -> bool
    requires given { MayMatch table.now subst.old pattern term }
    requires tasks { 2 * height (tree_in table.now pattern) ≤ tasks.old.room }
    ensures yes { IsTrue result → Matched table.now subst.old (pattern ∷ []) (term ∷ []) subst.new }
    ensures no { IsFalse result → Unmatched table.now subst.old (pattern ∷ []) (term ∷ []) }
    ensures stays { Stays (length table.now.trees) subst.old subst.new tasks.old tasks.new }
{
    pairs.begin(is_large(table, pattern));
    match_walk(table, pattern, term, subst, tasks, pairs)
}

// The same, where these pairs are kept: one task after another, until none is left.
fn match_walk(
    table: &Table,
    pattern: Id,
    term: Id,
    subst: &mut Held,
    tasks: &mut Tasks,
    pairs: &mut Pairs,
) -> bool
    requires given { MayMatch table.now subst.old pattern term }
    requires tasks { 2 * height (tree_in table.now pattern) ≤ tasks.old.room }
    requires matched { AreMatched table.now.trees (held table.now.trees subst.old) pairs.old }
    ensures yes { IsTrue result → Matched table.now subst.old (pattern ∷ []) (term ∷ []) subst.new }
    ensures no { IsFalse result → Unmatched table.now subst.old (pattern ∷ []) (term ∷ []) }
    ensures stays { Stays (length table.now.trees) subst.old subst.new tasks.old tasks.new }
{
    tasks.begin(Task::Pair(pattern, term));
    loop {
        let Some(task) = tasks.pop() else {
            return true;
        };
        if !match_next(table, &task, subst, tasks, pairs) {
            return false;
        }
    }
}

// Does a task, which may leave others in its place. On `false` no assignment does it.
fn match_next(
    table: &Table,
    next: &Task,
    subst: &mut Held,
    tasks: &mut Tasks,
    pairs: &mut Pairs,
) -> bool
    requires first { IsFirst table.now subst.old next.now }
    requires below { AreBelow (length table.now.trees) subst.old }
    requires room { length tasks.old.tasks + takes table.now.trees next.now ≤ tasks.old.room + 2 }
    requires matched { AreMatched table.now.trees (held table.now.trees subst.old) pairs.old }
    ensures yes { IsTrue result → Becomes 0 table.now subst.old next.now tasks.old subst.new tasks.new }
    ensures no { IsFalse result → IsRefused table.now subst.old next.now }
    ensures matched { IsTrue result → AreMatched table.now.trees (held table.now.trees subst.new) pairs.new }
    ensures stays { Stays (length table.now.trees) subst.old subst.new tasks.old tasks.new }
{
    match *next {
        Task::Pair(pattern, term) => match_pair(table, pattern, term, subst, tasks, pairs),
        Task::Args {
            pattern,
            term,
            next: i,
            count,
        } => {
            next_argument(table, pattern, term, i, count, subst, tasks);
            true
        }
        Task::Done(pattern, term) => {
            pairs.keep(pattern, term);
            true
        }
    }
}

// The same for a pattern and a term.
fn match_pair(
    table: &Table,
    pattern: Id,
    term: Id,
    subst: &mut Held,
    tasks: &mut Tasks,
    pairs: &mut Pairs,
) -> bool
    requires given { MayMatch table.now subst.old pattern term }
    requires room { length tasks.old.tasks + 2 * height (tree_in table.now pattern) ≤ tasks.old.room + 1 }
    requires matched { AreMatched table.now.trees (held table.now.trees subst.old) pairs.old }
    ensures yes { IsTrue result → Becomes 0 table.now subst.old (task.Pair pattern term) tasks.old subst.new tasks.new }
    ensures no { IsFalse result → Unmatched table.now subst.old (pattern ∷ []) (term ∷ []) }
    ensures matched { IsTrue result → AreMatched table.now.trees (held table.now.trees subst.new) pairs.new }
    ensures stays { Stays (length table.now.trees) subst.old subst.new tasks.old tasks.new }
{
    if !pairs.is_used() || table.is_closed(pattern) || table.height(pattern) < 3 {
        return match_roots(table, pattern, term, subst, tasks);
    }
    if pairs.is_kept(pattern, term) {
        return true;
    }
    match_tall(table, pattern, term, subst, tasks)
}

// The same for a pattern that is kept with its term when it is matched.
fn match_tall(table: &Table, pattern: Id, term: Id, subst: &mut Held, tasks: &mut Tasks) -> bool
    requires given { MayMatch table.now subst.old pattern term }
    requires room { length tasks.old.tasks + 2 * height (tree_in table.now pattern) ≤ tasks.old.room + 1 }
    ensures yes { IsTrue result → Becomes 0 table.now subst.old (task.Pair pattern term) tasks.old subst.new tasks.new }
    ensures no { IsFalse result → Unmatched table.now subst.old (pattern ∷ []) (term ∷ []) }
    ensures stays { Stays (length table.now.trees) subst.old subst.new tasks.old tasks.new }
{
    tasks.push(Task::Done(pattern, term));
    match_roots(table, pattern, term, subst, tasks)
}

// The same by the roots.
fn match_roots(table: &Table, pattern: Id, term: Id, subst: &mut Held, tasks: &mut Tasks) -> bool
    requires given { MayMatch table.now subst.old pattern term }
    requires room { length tasks.old.tasks + 2 * height (tree_in table.now pattern) ≤ tasks.old.room + 2 }
    ensures yes { IsTrue result → Becomes 1 table.now subst.old (task.Pair pattern term) tasks.old subst.new tasks.new }
    ensures no { IsFalse result → Unmatched table.now subst.old (pattern ∷ []) (term ∷ []) }
    ensures stays { Stays (length table.now.trees) subst.old subst.new tasks.old tasks.new }
{
    match split_roots(table, pattern, term) {
        Split::Differ => false,
        Split::Equal => true,
        Split::Par(i) => match_par(table, i, term, subst),
        Split::One(p, t) => {
            tasks.push(Task::Pair(p, t));
            true
        }
        Split::Two(p, q, t, u) => {
            tasks.push(Task::Pair(q, u));
            tasks.push(Task::Pair(p, t));
            true
        }
        Split::Args(count) => {
            tasks.push(Task::Args {
                pattern,
                term,
                next: 0,
                count,
            });
            true
        }
    }
}

// The argument of an operator at `next` is to be matched first, then those after it.
fn next_argument(
    table: &Table,
    pattern: Id,
    term: Id,
    next: u8,
    count: u8,
    subst: &Held,
    tasks: &mut Tasks,
)
    requires live { ArePairs table.now subst.now pattern term count }
    requires room { length tasks.old.tasks + 2 * height (tree_in table.now pattern) ≤ tasks.old.room + 2 }
    ensures { Becomes 0 table.now subst.now (task.Args pattern term next count) tasks.old subst.now tasks.new }
{
    arguments_law();
    if next >= count {
        return;
    }
    tasks.push(Task::Args {
        pattern,
        term,
        next: next + 1,
        count,
    });
    let p = table.arg(pattern, next as usize);
    let t = table.arg(term, next as usize);
    tasks.push(Task::Pair(p, t));
}

// What is left to match of a pattern and a term, by their roots.
#[derive(Clone, Copy)]
enum Split {
    // They do not match.
    Differ,
    // They are equal, and the pattern has no parameter.
    Equal,
    // The pattern is a parameter.
    Par(u8),
    // One part each.
    One(Id, Id),
    // Two parts of the pattern, then two of the term.
    Two(Id, Id, Id, Id),
    // That many arguments each.
    Args(u8),
}

// What is left to match of a pattern and a term.
fn split_roots(table: &Table, pattern: Id, term: Id) -> Split
    requires pattern { pattern < length table.now.trees }
    requires term { term < length table.now.trees }
    ensures { IsSplit table.now.trees pattern term result }
{
    codes_law();
    if table.is_closed(pattern) {
        return if table.is_same(pattern, term) {
            Split::Equal
        } else {
            Split::Differ
        };
    }
    match table.node(pattern) {
        Node::Par(i) => Split::Par(i),
        Node::Var { name, ty } => match table.node(term) {
            Node::Var { name: n, ty: u } => {
                if table.is_same_text(name, n) {
                    Split::One(ty, u)
                } else {
                    Split::Differ
                }
            }
            _ => Split::Differ,
        },
        Node::App { fun, arg } => match table.node(term) {
            Node::App { fun: g, arg: y } => Split::Two(fun, arg, g, y),
            _ => Split::Differ,
        },
        Node::Arr { from, to } => match table.node(term) {
            Node::Arr { from: a, to: b } => Split::Two(from, to, a, b),
            _ => Split::Differ,
        },
        Node::Qar { par, ty, to } => match table.node(term) {
            Node::Qar {
                par: i,
                ty: a,
                to: b,
            } => {
                if par == i {
                    Split::Two(ty, to, a, b)
                } else {
                    Split::Differ
                }
            }
            _ => Split::Differ,
        },
        Node::Op { code, count } => match table.node(term) {
            Node::Op { code: c, count: n } => {
                if code == c && count == n {
                    Split::Args(count)
                } else {
                    Split::Differ
                }
            }
            _ => Split::Differ,
        },
        Node::Con(_) => unreachable!(),
        Node::Num(_) => unreachable!(),
        Node::Bits { .. } => unreachable!(),
        Node::Str(_) => unreachable!(),
    }
}

// The same for a pattern that is a parameter.
fn match_par(table: &Table, i: u8, term: Id, subst: &mut Held) -> bool
    requires term { term < length table.now.trees }
    requires room { i < length subst.old.values }
    requires below { AreBelow (length table.now.trees) subst.old }
    ensures yes { IsTrue result → MatchedTrees table.now subst.old (Par i ∷ []) (tree_in table.now term ∷ []) subst.new }
    ensures no { IsFalse result → UnmatchedTrees table.now subst.old (Par i ∷ []) (tree_in table.now term ∷ []) }
    ensures kept { Keeps (length table.now.trees) subst.old subst.new }
{
    match subst.get(i as usize) {
        Some(id) => table.is_same(id, term),
        None => {
            subst.put(i, term);
            true
        }
    }
}
