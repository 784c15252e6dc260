//! The walk over a term.
ghost use Rattle.std.specs.Prelude.{◌<◌, ◌≤◌, ◌+◌, ◌-◌, ◌*◌, ◌++◌, [], ◌∷◌, length, reverse, All, None, Ok};
ghost use Rattle.eo_sexp.specs.Sexp.{Sexp, Span};
ghost use Rattle.eo_sexp.specs.Sizes.{size, size_of_all};
ghost use Rattle.eo_term.specs.Growth.{Grows, tree_in, trees_in};
ghost use Rattle.eo_elab.specs.Gives.{GivesTerm, NamesGrow};
ghost use Rattle.eo_names.specs.Names.{BindingsBelow, bound_by};
ghost use Rattle.eo_names.specs.Scopes.{bound_in};
ghost use Rattle.eo_names.specs.Usage.{UseBelow, Suits};
ghost use Rattle.eo_names.specs.Ready.{IsReady};
ghost use Rattle.eo_elab.specs.Worlds.{term_at, named_terms_in, let_in, annotated_in, term_in, list_in, use_in};
ghost use Rattle.eo_elab.specs.Waiting.{Goes, FrameBelow, FramesBelow, NowBelow, reads, inside, finished, around};
ghost use Rattle.eo_elab.specs.Waiting.{arguments_after, headed_by, weight};

mod arguments;
mod pairs;

use crate::annotations::label;
use crate::atoms::bit_string;
use crate::plan::{Form, use_of_term};
use crate::waiting::{Frame, Next, Now};
use crate::within::{atom_inside, form_inside};
use crate::{ElabRefused, Names};
use arguments::{next_argument, wait};
use eo_names::{Blocks, Head, Scope, names_law};
use eo_sexp::{Children, Sexp};
use eo_sig::SignatureView;
use eo_term::{Id, Ids, Table};
use pairs::{begin_pairs, resume_pairs};
use std::alloc::Global;

// A list of these, by its form.
fn read_list<'b>(
    alloc: Global,
    terms: &Children<'b>,
    scope: &Scope<'_>,
    sig: &SignatureView<'_>,
    table: &mut Table,
    named_terms: &Names,
    blocks: &mut Blocks,
    waits: &mut Vec<Frame<'b>>,
) -> Result<Now<'b>, ElabRefused>
    requires ready { IsReady (length table.old.trees) sig.now (bound_by blocks.old ++ bound_in scope.now) }
    requires named_terms { BindingsBelow (length table.old.trees) named_terms.now }
    ensures gives { (span : Span) → Goes sig.now scope.now table.new named_terms.now blocks.old blocks.new
        waits.old.items waits.new.items (4 * size_of_all terms.now + 3) result
        (list_in (inside table.old sig.now scope.now blocks.old) terms.now span (named_terms_in table.old named_terms.now)) }
    ensures grows { Grows table.old table.new }
{
    names_law();
    let Some((head, args)) = terms.split_first() else {
        return Err(ElabRefused::BadArity);
    };
    match form_inside(&head, &args, scope, sig, &*table, &*blocks)? {
        Form::Let => begin_let(alloc, &args, scope, sig, table, named_terms, blocks, waits),
        Form::Head => {
            wait(waits, Frame::Head { args })?;
            Ok(Now::Read(head))
        }
        Form::Arguments(used) => {
            begin_use(
                alloc,
                &used,
                &args,
                scope,
                sig,
                table,
                named_terms,
                blocks,
                waits,
            )
        }
        Form::Annotation => begin_annotated(
            &args,
            scope,
            sig,
            &*table,
            named_terms,
            &*blocks,
            waits,
        ),
        Form::Bits { width, value } => {
            let made = bit_string(width, value, table)?;
            Ok(Now::Give(made))
        }
    }
}

// Arguments that are used so.
fn begin_use<'b>(
    alloc: Global,
    used: &Head,
    args: &Children<'b>,
    scope: &Scope<'_>,
    sig: &SignatureView<'_>,
    table: &mut Table,
    named_terms: &Names,
    blocks: &mut Blocks,
    waits: &mut Vec<Frame<'b>>,
) -> Result<Now<'b>, ElabRefused>
    requires ready { IsReady (length table.old.trees) sig.now (bound_by blocks.old ++ bound_in scope.now) }
    requires named_terms { BindingsBelow (length table.old.trees) named_terms.now }
    requires below { UseBelow (length table.old.trees) used.now }
    requires suits { Suits used.now (length args.now) }
    ensures gives { (h : Sexp) → Goes sig.now scope.now table.new named_terms.now blocks.old blocks.new
        waits.old.items waits.new.items (4 * size_of_all args.now + 1) result
        (use_in (inside table.old sig.now scope.now blocks.old) table.old h args.now used.now (named_terms_in table.old named_terms.now)) }
    ensures grows { Grows table.old table.new }
{
    names_law();
    match used {
        Head::Bind { binder, collector } => {
            let Some((pairs, others)) = args.split_first() else {
                return Err(ElabRefused::BadCommand);
            };
            let next = Next::Others {
                binder: *binder,
                collector: *collector,
                others,
            };
            begin_pairs(
                alloc,
                &pairs,
                next,
                scope,
                sig,
                table,
                named_terms,
                blocks,
                waits,
            )
        }
        _ => next_argument(
            alloc,
            used,
            Ids::new(alloc),
            args,
            scope,
            sig,
            table,
            named_terms,
            &*blocks,
            waits,
        ),
    }
}

// The pairs of a `let`, and then its body.
fn begin_let<'b>(
    alloc: Global,
    args: &Children<'b>,
    scope: &Scope<'_>,
    sig: &SignatureView<'_>,
    table: &mut Table,
    named_terms: &Names,
    blocks: &mut Blocks,
    waits: &mut Vec<Frame<'b>>,
) -> Result<Now<'b>, ElabRefused>
    requires ready { IsReady (length table.old.trees) sig.now (bound_by blocks.old ++ bound_in scope.now) }
    requires named_terms { BindingsBelow (length table.old.trees) named_terms.now }
    ensures gives { Goes sig.now scope.now table.new named_terms.now blocks.old blocks.new
        waits.old.items waits.new.items (4 * size_of_all args.now) result
        (let_in (inside table.old sig.now scope.now blocks.old) args.now (named_terms_in table.old named_terms.now)) }
    ensures grows { Grows table.old table.new }
{
    let Some((pairs, body)) = args.only_two() else {
        return Err(ElabRefused::BadCommand);
    };
    begin_pairs(
        alloc,
        &pairs,
        Next::Body(body),
        scope,
        sig,
        table,
        named_terms,
        blocks,
        waits,
    )
}

// A term, and then its attributes.
fn begin_annotated<'b>(
    args: &Children<'b>,
    scope: &Scope<'_>,
    sig: &SignatureView<'_>,
    table: &Table,
    named_terms: &Names,
    blocks: &Blocks,
    waits: &mut Vec<Frame<'b>>,
) -> Result<Now<'b>, ElabRefused>
    requires ready { IsReady (length table.now.trees) sig.now (bound_by blocks.now ++ bound_in scope.now) }
    ensures gives { Goes sig.now scope.now table.now named_terms.now blocks.now blocks.now
        waits.old.items waits.new.items (4 * size_of_all args.now + 1) result
        (annotated_in (inside table.now sig.now scope.now blocks.now) args.now (named_terms_in table.now named_terms.now)) }
{
    let Some((s, attributes)) = args.split_first() else {
        return Err(ElabRefused::BadCommand);
    };
    wait(waits, Frame::Annotated { attributes })?;
    Ok(Now::Read(s))
}

// A term, by its form.
fn read_next<'b>(
    alloc: Global,
    s: &Sexp<'b>,
    scope: &Scope<'_>,
    sig: &SignatureView<'_>,
    table: &mut Table,
    named_terms: &Names,
    blocks: &mut Blocks,
    waits: &mut Vec<Frame<'b>>,
) -> Result<Now<'b>, ElabRefused>
    requires ready { IsReady (length table.old.trees) sig.now (bound_by blocks.old ++ bound_in scope.now) }
    requires named_terms { BindingsBelow (length table.old.trees) named_terms.now }
    ensures gives { Goes sig.now scope.now table.new named_terms.now blocks.old blocks.new
        waits.old.items waits.new.items (4 * size s.now - 1) result
        (term_in (inside table.old sig.now scope.now blocks.old) s.now (named_terms_in table.old named_terms.now)) }
    ensures grows { Grows table.old table.new }
{
    names_law();
    match s.list() {
        None => {
            let made = atom_inside(alloc, s.kind(), s.text(), scope, sig, table, &*blocks)?;
            Ok(Now::Give(made))
        }
        Some(children) => read_list(
            alloc,
            &children,
            scope,
            sig,
            table,
            named_terms,
            blocks,
            waits,
        ),
    }
}

// A meaning, given to what waited for it.
fn resume<'b>(
    alloc: Global,
    id: Id,
    waiting: Frame<'b>,
    scope: &Scope<'_>,
    sig: &SignatureView<'_>,
    table: &mut Table,
    named_terms: &mut Names,
    blocks: &mut Blocks,
    waits: &mut Vec<Frame<'b>>,
) -> Result<Now<'b>, ElabRefused>
    requires ready { IsReady (length table.old.trees) sig.now (bound_by blocks.old ++ bound_in scope.now) }
    requires named_terms { BindingsBelow (length table.old.trees) named_terms.old }
    requires live { id < length table.old.trees }
    requires waiting { FrameBelow (length table.old.trees) waiting }
    ensures gives { Goes sig.now scope.now table.new named_terms.new (around waiting.entry blocks.old) blocks.new
        waits.old.items waits.new.items (weight waiting.entry) result
        (finished sig.now scope.now table.old blocks.old (waiting.entry ∷ [])
        (Ok (tree_in table.old id, named_terms_in table.old named_terms.old))) }
    ensures grows { Grows table.old table.new }
    ensures named_terms { NamesGrow table.new named_terms.old named_terms.new }
{
    names_law();
    match waiting {
        Frame::Head { args } => {
            resume_head(
                alloc,
                id,
                &args,
                scope,
                sig,
                table,
                &*named_terms,
                blocks,
                waits,
            )
        }
        Frame::Argument { used, before, rest } => {
            resume_argument(
                alloc,
                id,
                &used,
                before,
                &rest,
                scope,
                sig,
                table,
                &*named_terms,
                &*blocks,
                waits,
            )
        }
        Frame::Beside(pairs) => resume_pairs(
            alloc,
            id,
            pairs,
            scope,
            sig,
            table,
            &*named_terms,
            blocks,
            waits,
        ),
        Frame::Annotated { attributes } => {
            label(alloc, id, &attributes, scope.file_kind(), sig, named_terms)?;
            Ok(Now::Give(id))
        }
        Frame::Inner => {
            blocks.leave();
            Ok(Now::Give(id))
        }
    }
}

// The head of arguments is there.
fn resume_head<'b>(
    alloc: Global,
    id: Id,
    args: &Children<'b>,
    scope: &Scope<'_>,
    sig: &SignatureView<'_>,
    table: &mut Table,
    named_terms: &Names,
    blocks: &mut Blocks,
    waits: &mut Vec<Frame<'b>>,
) -> Result<Now<'b>, ElabRefused>
    requires ready { IsReady (length table.old.trees) sig.now (bound_by blocks.old ++ bound_in scope.now) }
    requires named_terms { BindingsBelow (length table.old.trees) named_terms.now }
    requires live { id < length table.old.trees }
    requires some { 1 ≤ length args.now }
    ensures gives { Goes sig.now scope.now table.new named_terms.now blocks.old blocks.new
        waits.old.items waits.new.items (4 * size_of_all args.now + 1) result
        (headed_by (inside table.old sig.now scope.now blocks.old) args.now (tree_in table.old id) (named_terms_in table.old named_terms.now)) }
    ensures grows { Grows table.old table.new }
{
    let used = use_of_term(id, args, sig, table)?;
    begin_use(
        alloc,
        &used,
        args,
        scope,
        sig,
        table,
        named_terms,
        blocks,
        waits,
    )
}

// One argument more is there.
fn resume_argument<'b>(
    alloc: Global,
    id: Id,
    used: &Head,
    before: Ids,
    rest: &Children<'b>,
    scope: &Scope<'_>,
    sig: &SignatureView<'_>,
    table: &mut Table,
    named_terms: &Names,
    blocks: &Blocks,
    waits: &mut Vec<Frame<'b>>,
) -> Result<Now<'b>, ElabRefused>
    requires ready { IsReady (length table.old.trees) sig.now (bound_by blocks.now ++ bound_in scope.now) }
    requires named_terms { BindingsBelow (length table.old.trees) named_terms.now }
    requires live { id < length table.old.trees }
    requires before { All (λ i. i < length table.old.trees) before }
    requires below { UseBelow (length table.old.trees) used.now }
    requires suits { Suits used.now (length before + 1 + length rest.now) }
    ensures gives { Goes sig.now scope.now table.new named_terms.now blocks.now blocks.now
        waits.old.items waits.new.items (4 * size_of_all rest.now + 1) result
        (arguments_after (inside table.old sig.now scope.now blocks.now) table.old.trees used.now
        (trees_in table.old before ++ tree_in table.old id ∷ []) rest.now (named_terms_in table.old named_terms.now)) }
    ensures grows { Grows table.old table.new }
{
    let mut ids = before;
    ids.push(id)?;
    next_argument(
        alloc,
        used,
        ids,
        rest,
        scope,
        sig,
        table,
        named_terms,
        blocks,
        waits,
    )
}

/// The meaning of a term in its place. The names that its terms are given come after those that
/// terms of the command were given before. A refused call leaves the terms that it made, and the
/// names that it gave.
///
/// What waits for the meaning of a part is kept in a list, so no list inside a list makes the
/// program's own stack deeper.
pub(crate) fn elaborate(
    alloc: Global,
    s: &Sexp<'_>,
    scope: &Scope<'_>,
    sig: &SignatureView<'_>,
    table: &mut Table,
    named_terms: &mut Names,
) -> Result<Id, ElabRefused>
    requires ready { IsReady (length table.old.trees) sig.now (bound_in scope.now) }
    requires named_terms { BindingsBelow (length table.old.trees) named_terms.old }
    ensures gives { GivesTerm table.new named_terms.new result (term_at table.old sig.now scope.now named_terms.old s.now) }
    ensures grows { Grows table.old table.new }
    ensures named_terms { NamesGrow table.new named_terms.old named_terms.new }
{
    let mut blocks = Blocks::new(alloc);
    let mut waits = Vec::new(alloc);
    let first = read_next(
        alloc,
        s,
        scope,
        sig,
        table,
        &*named_terms,
        &mut blocks,
        &mut waits,
    )?;
    elaborate_rest(
        alloc,
        first,
        scope,
        sig,
        table,
        named_terms,
        &mut blocks,
        &mut waits,
    )
}

// The same, where something of it is read, and something waits.
fn elaborate_rest<'b>(
    alloc: Global,
    first: Now<'b>,
    scope: &Scope<'_>,
    sig: &SignatureView<'_>,
    table: &mut Table,
    named_terms: &mut Names,
    blocks: &mut Blocks,
    waits: &mut Vec<Frame<'b>>,
) -> Result<Id, ElabRefused>
    requires ready { IsReady (length table.old.trees) sig.now (bound_by blocks.old ++ bound_in scope.now) }
    requires named_terms { BindingsBelow (length table.old.trees) named_terms.old }
    requires waits { FramesBelow (length table.old.trees) (reverse waits.old.items) }
    requires first { NowBelow (length table.old.trees) first }
    ensures gives { GivesTerm table.new named_terms.new result
        (finished sig.now scope.now table.old blocks.old (reverse waits.old.items)
        (reads sig.now scope.now table.old blocks.old named_terms.old first.entry)) }
    ensures grows { Grows table.old table.new }
    ensures named_terms { NamesGrow table.new named_terms.old named_terms.new }
{
    names_law();
    let mut now = first;
    loop {
        now = match now {
            Now::Read(s) => read_next(alloc, &s, scope, sig, table, &*named_terms, blocks, waits)?,
            Now::Give(id) => match waits.pop() {
                None => return Ok(id),
                Some(waiting) => {
                    resume(
                        alloc,
                        id,
                        waiting,
                        scope,
                        sig,
                        table,
                        named_terms,
                        blocks,
                        waits,
                    )?
                }
            },
        };
    }
}
