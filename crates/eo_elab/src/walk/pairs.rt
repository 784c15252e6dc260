//! The names of a list of variables or of a `let`, read one after another, and what is inside of them.
ghost use Rattle.std.specs.Prelude.{◌≡◌, ◌<◌, ◌+◌, ◌-◌, ◌*◌, ◌++◌, [], ◌∷◌, length, OnOk, None, Ok, IfOk, false};
ghost use Rattle.eo_sexp.specs.Sexp.{Sexp};
ghost use Rattle.eo_sexp.specs.Sizes.{size, size_of_all};
ghost use Rattle.eo_term.specs.Growth.{Grows, tree_in};
ghost use Rattle.eo_names.specs.Names.{BindingsBelow, bound_by, names_in, read_pairs};
ghost use Rattle.eo_names.specs.Scopes.{bound_in};
ghost use Rattle.eo_names.specs.Ready.{IsReady};
ghost use Rattle.eo_elab.specs.declared.waiting.Frame.TheVariants as frame;
ghost use Rattle.eo_elab.specs.declared.waiting.Next.TheVariants as nexts;
ghost use Rattle.eo_elab.specs.Worlds.{named_terms_in};
ghost use Rattle.eo_elab.specs.Waiting.{Goes, FrameBelow, resumed, inside};
ghost use Rattle.eo_elab.specs.Waiting.{pairs_first, pairs_then, with_names, weight, weight_next};

use super::arguments::{next_argument, wait};
use crate::shapes::binding_of;
use crate::waiting::{Frame, Next, Now, Pairs};
use crate::within::bind_inside;
use crate::{ElabRefused, Names};
use eo_names::{Bindings, Blocks, Head, Scope, names_law};
use eo_sexp::{Children, Sexp};
use eo_sig::SignatureView;
use eo_term::{Id, Ids, Table};
use std::alloc::{AllocError, Global};

// The pairs of a list, and then what is after them.
pub(super) fn begin_pairs<'b>(
    alloc: Global,
    pairs: &Sexp<'b>,
    next: Next<'b>,
    scope: &Scope<'_>,
    sig: &SignatureView<'_>,
    table: &mut Table,
    named_terms: &Names,
    blocks: &mut Blocks,
    waits: &mut Vec<Frame<'b>>,
) -> Result<Now<'b>, ElabRefused>
    requires ready { IsReady (length table.old.trees) sig.now (bound_by blocks.old ++ bound_in scope.now) }
    requires named_terms { BindingsBelow (length table.old.trees) named_terms.now }
    ensures gives { Goes sig.now scope.now table.new named_terms.now blocks.old blocks.new
        waits.old.items waits.new.items (4 * size pairs.now + weight_next next.entry) result
        (pairs_first (inside table.old sig.now scope.now blocks.old) next.entry pairs.now (named_terms_in table.old named_terms.now)) }
    ensures grows { Grows table.old table.new }
{
    let Some(children) = pairs.list() else {
        return Err(ElabRefused::BadCommand);
    };
    next_pair(
        alloc,
        Bindings::new(alloc),
        &children,
        next,
        scope,
        sig,
        table,
        named_terms,
        blocks,
        waits,
    )
}

// The next pair, or what is after all.
pub(super) fn next_pair<'b>(
    alloc: Global,
    before: Bindings,
    rest: &Children<'b>,
    next: Next<'b>,
    scope: &Scope<'_>,
    sig: &SignatureView<'_>,
    table: &mut Table,
    named_terms: &Names,
    blocks: &mut Blocks,
    waits: &mut Vec<Frame<'b>>,
) -> Result<Now<'b>, ElabRefused>
    requires ready { IsReady (length table.old.trees) sig.now (bound_by blocks.old ++ bound_in scope.now) }
    requires named_terms { BindingsBelow (length table.old.trees) named_terms.now }
    requires before { BindingsBelow (length table.old.trees) before }
    ensures gives { Goes sig.now scope.now table.new named_terms.now blocks.old blocks.new
        waits.old.items waits.new.items (4 * size_of_all rest.now + weight_next next.entry + 1) result
        (pairs_then (inside table.old sig.now scope.now blocks.old) next.entry
        (read_pairs table.old.trees before) rest.now (named_terms_in table.old named_terms.now)) }
    ensures grows { Grows table.old table.new }
{
    match rest.split_first() {
        None => end_pairs(
            alloc,
            before,
            next,
            scope,
            sig,
            table,
            named_terms,
            blocks,
            waits,
        ),
        Some((pair, rest)) => wait_beside(
            alloc,
            before,
            &pair,
            rest,
            next,
            scope,
            sig,
            &*table,
            named_terms,
            &*blocks,
            waits,
        ),
    }
}

// What follows a name is read, and then the pairs after it.
pub(super) fn wait_beside<'b>(
    alloc: Global,
    before: Bindings,
    pair: &Sexp<'b>,
    rest: Children<'b>,
    next: Next<'b>,
    scope: &Scope<'_>,
    sig: &SignatureView<'_>,
    table: &Table,
    named_terms: &Names,
    blocks: &Blocks,
    waits: &mut Vec<Frame<'b>>,
) -> Result<Now<'b>, ElabRefused>
    requires ready { IsReady (length table.now.trees) sig.now (bound_by blocks.now ++ bound_in scope.now) }
    requires before { BindingsBelow (length table.now.trees) before }
    ensures gives { Goes sig.now scope.now table.now named_terms.now blocks.now blocks.now
        waits.old.items waits.new.items (4 * size_of_all (pair.now ∷ rest.entry) + weight_next next.entry + 1) result
        (pairs_then (inside table.now sig.now scope.now blocks.now) next.entry
        (read_pairs table.now.trees before) (pair.now ∷ rest.entry) (named_terms_in table.now named_terms.now)) }
{
    let Some((name, beside)) = binding_of(pair) else {
        return Err(ElabRefused::BadCommand);
    };
    if before.contains(name) {
        return Err(ElabRefused::Redeclared);
    }
    let pairs = box_pairs(
        alloc,
        Pairs {
            before,
            name,
            rest,
            next,
        },
    )?;
    wait(waits, Frame::Beside(pairs))?;
    Ok(Now::Read(beside))
}

// Pairs that wait, on the heap.
pub(super) fn box_pairs<'b>(alloc: Global, pairs: Pairs<'b>) -> Result<Box<Pairs<'b>>, AllocError>
    ensures { IfOk result (λ b. b.value ≡ pairs.entry) }
{
    Ok(Box::new(alloc, pairs)?)
}

// What is after all pairs is read inside of their names.
pub(super) fn end_pairs<'b>(
    alloc: Global,
    before: Bindings,
    next: Next<'b>,
    scope: &Scope<'_>,
    sig: &SignatureView<'_>,
    table: &mut Table,
    named_terms: &Names,
    blocks: &mut Blocks,
    waits: &mut Vec<Frame<'b>>,
) -> Result<Now<'b>, ElabRefused>
    requires ready { IsReady (length table.old.trees) sig.now (bound_by blocks.old ++ bound_in scope.now) }
    requires named_terms { BindingsBelow (length table.old.trees) named_terms.now }
    requires before { BindingsBelow (length table.old.trees) before }
    ensures gives { Goes sig.now scope.now table.new named_terms.now blocks.old blocks.new
        waits.old.items waits.new.items (weight_next next.entry + 1) result
        (with_names (inside table.old sig.now scope.now blocks.old) next.entry
        (read_pairs table.old.trees before) (named_terms_in table.old named_terms.now)) }
    ensures grows { Grows table.old table.new }
{
    names_law();
    match next {
        Next::Body(s) => {
            enter(before, blocks, waits)?;
            Ok(Now::Read(s))
        }
        Next::Others {
            binder,
            collector,
            others,
        } => read_others(
            alloc,
            before,
            binder,
            collector,
            &others,
            scope,
            sig,
            table,
            named_terms,
            blocks,
            waits,
        ),
    }
}

// The list of a binder's variables, and then its other arguments inside of their names.
pub(super) fn read_others<'b>(
    alloc: Global,
    before: Bindings,
    binder: usize,
    collector: usize,
    others: &Children<'b>,
    scope: &Scope<'_>,
    sig: &SignatureView<'_>,
    table: &mut Table,
    named_terms: &Names,
    blocks: &mut Blocks,
    waits: &mut Vec<Frame<'b>>,
) -> Result<Now<'b>, ElabRefused>
    requires ready { IsReady (length table.old.trees) sig.now (bound_by blocks.old ++ bound_in scope.now) }
    requires named_terms { BindingsBelow (length table.old.trees) named_terms.now }
    requires before { BindingsBelow (length table.old.trees) before }
    ensures gives { Goes sig.now scope.now table.new named_terms.now blocks.old blocks.new
        waits.old.items waits.new.items (4 * size_of_all others.now + 2) result
        (with_names (inside table.old sig.now scope.now blocks.old) (nexts.Others binder collector others.now)
        (read_pairs table.old.trees before) (named_terms_in table.old named_terms.now)) }
    ensures grows { Grows table.old table.new }
{
    names_law();
    let mut names = before;
    let list = bind_inside(alloc, collector, &mut names, scope, sig, table, &*blocks)?;
    let mut ids = Ids::new(alloc);
    ids.push(list)?;
    enter(names, blocks, waits)?;
    let used = Head::Bind { binder, collector };
    next_argument(
        alloc,
        &used,
        ids,
        others,
        scope,
        sig,
        table,
        named_terms,
        &*blocks,
        waits,
    )
}

// What is read next is inside of these names.
pub(super) fn enter<'b>(
    names: Bindings,
    blocks: &mut Blocks,
    waits: &mut Vec<Frame<'b>>,
) -> Result<(), AllocError>
    ensures blocks { OnOk result (blocks.new ≡ names ∷ blocks.old) }
    ensures waits { OnOk result (waits.new.items ≡ waits.old.items ++ frame.Inner ∷ []) }
{
    blocks.push(names)?;
    wait(waits, Frame::Inner)?;
    Ok(())
}

// One pair more of those that wait is there.
pub(super) fn resume_pairs<'b>(
    alloc: Global,
    id: Id,
    waiting: Box<Pairs<'b>>,
    scope: &Scope<'_>,
    sig: &SignatureView<'_>,
    table: &mut Table,
    named_terms: &Names,
    blocks: &mut Blocks,
    waits: &mut Vec<Frame<'b>>,
) -> Result<Now<'b>, ElabRefused>
    requires ready { IsReady (length table.old.trees) sig.now (bound_by blocks.old ++ bound_in scope.now) }
    requires named_terms { BindingsBelow (length table.old.trees) named_terms.now }
    requires live { id < length table.old.trees }
    requires waiting { FrameBelow (length table.old.trees) (frame.Beside waiting) }
    ensures gives { Goes sig.now scope.now table.new named_terms.now blocks.old blocks.new
        waits.old.items waits.new.items (weight (frame.Beside waiting.entry)) result
        (resumed (inside table.old sig.now scope.now blocks.old) table.old.trees (frame.Beside waiting.entry)
        (tree_in table.old id) (named_terms_in table.old named_terms.now)) }
    ensures grows { Grows table.old table.new }
{
    let Pairs {
        before,
        name,
        rest,
        next,
    } = Box::into_inner(waiting);
    resume_pair(
        alloc,
        id,
        before,
        name,
        &rest,
        next,
        scope,
        sig,
        table,
        named_terms,
        blocks,
        waits,
    )
}

// One pair more is there.
pub(super) fn resume_pair<'b>(
    alloc: Global,
    id: Id,
    before: Bindings,
    name: &'b [u8],
    rest: &Children<'b>,
    next: Next<'b>,
    scope: &Scope<'_>,
    sig: &SignatureView<'_>,
    table: &mut Table,
    named_terms: &Names,
    blocks: &mut Blocks,
    waits: &mut Vec<Frame<'b>>,
) -> Result<Now<'b>, ElabRefused>
    requires ready { IsReady (length table.old.trees) sig.now (bound_by blocks.old ++ bound_in scope.now) }
    requires named_terms { BindingsBelow (length table.old.trees) named_terms.now }
    requires live { id < length table.old.trees }
    requires before { BindingsBelow (length table.old.trees) before }
    requires new { names_in before name.now ≡ false }
    ensures gives { Goes sig.now scope.now table.new named_terms.now blocks.old blocks.new
        waits.old.items waits.new.items (4 * size_of_all rest.now + weight_next next.entry + 1) result
        (pairs_then (inside table.old sig.now scope.now blocks.old) next.entry
        (read_pairs table.old.trees before ++ (name.now, tree_in table.old id) ∷ []) rest.now (named_terms_in table.old named_terms.now)) }
    ensures grows { Grows table.old table.new }
{
    let mut names = before;
    names.push(name, id)?;
    next_pair(
        alloc,
        names,
        rest,
        next,
        scope,
        sig,
        table,
        named_terms,
        blocks,
        waits,
    )
}
