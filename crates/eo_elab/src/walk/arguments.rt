//! Arguments, read one after another, and what is made of all of them.
ghost use Rattle.std.specs.Prelude.{◌≡◌, ◌<◌, ◌+◌, ◌-◌, ◌*◌, ◌++◌, [], ◌∷◌, length, All, OnOk, None, Ok};
ghost use Rattle.eo_sexp.specs.Sizes.{size_of_all};
ghost use Rattle.eo_term.specs.Growth.{Grows, trees_in};
ghost use Rattle.eo_names.specs.Names.{BindingsBelow, bound_by};
ghost use Rattle.eo_names.specs.Scopes.{bound_in};
ghost use Rattle.eo_names.specs.Usage.{UseBelow, Suits};
ghost use Rattle.eo_names.specs.Ready.{IsReady};
ghost use Rattle.eo_elab.specs.Worlds.{named_terms_in};
ghost use Rattle.eo_elab.specs.Waiting.{Goes, ReadsOn, inside};
ghost use Rattle.eo_elab.specs.Waiting.{arguments_after};

use crate::waiting::{Frame, Now};
use crate::within::{atom_inside, use_all};
use crate::{ElabRefused, Names};
use eo_names::{Blocks, Head, Scope, names_law};
use eo_sexp::Children;
use eo_sig::SignatureView;
use eo_term::{Ids, Table};
use std::alloc::{AllocError, Global};

// What is made of arguments that are used so, where those before the first list are read, or that
// list is read next.
pub(super) fn next_argument<'b>(
    alloc: Global,
    used: &Head,
    before: Ids,
    rest: &Children<'b>,
    scope: &Scope<'_>,
    sig: &SignatureView<'_>,
    table: &mut Table,
    named_terms: &Names,
    blocks: &Blocks,
    waits: &mut Vec<Frame<'b>>,
) -> Result<Now<'b>, ElabRefused>
    requires ready { IsReady (length table.old.trees) sig.now (bound_by blocks.now ++ bound_in scope.now) }
    requires named_terms { BindingsBelow (length table.old.trees) named_terms.now }
    requires before { All (λ i. i < length table.old.trees) before }
    requires below { UseBelow (length table.old.trees) used.now }
    requires suits { Suits used.now (length before + length rest.now) }
    ensures gives { Goes sig.now scope.now table.new named_terms.now blocks.now blocks.now
        waits.old.items waits.new.items (4 * size_of_all rest.now + 1) result
        (arguments_after (inside table.old sig.now scope.now blocks.now) table.old.trees used.now
        (trees_in table.old before) rest.now (named_terms_in table.old named_terms.now)) }
    ensures grows { Grows table.old table.new }
{
    names_law();
    let mut ids = before;
    let left = read_atoms(alloc, rest, &mut ids, scope, sig, table, blocks)?;
    use_or_wait(
        alloc,
        used,
        ids,
        &left,
        scope,
        sig,
        table,
        named_terms,
        blocks,
        waits,
    )
}

// The meanings of the terms before the first list, added to those that are there, and what is left.
pub(super) fn read_atoms<'b>(
    alloc: Global,
    terms: &Children<'b>,
    ids: &mut Ids,
    scope: &Scope<'_>,
    sig: &SignatureView<'_>,
    table: &mut Table,
    blocks: &Blocks,
) -> Result<Children<'b>, ElabRefused>
    requires ready { IsReady (length table.old.trees) sig.now (bound_by blocks.now ++ bound_in scope.now) }
    requires before { All (λ i. i < length table.old.trees) ids.old }
    ensures gives { ReadsOn (inside table.old sig.now scope.now blocks.now) table.old table.new ids.old ids.new terms.now result }
    ensures grows { Grows table.old table.new }
{
    names_law();
    let mut left = terms.again();
    loop {
        let Some((s, rest)) = left.split_first() else {
            return Ok(left);
        };
        match s.list() {
            Some(_) => return Ok(left),
            None => {
                let id = atom_inside(alloc, s.kind(), s.text(), scope, sig, table, blocks)?;
                ids.push(id)?;
                left = rest;
            }
        }
    }
}

// The first of the arguments that are left is read next, or what is made of all is there.
pub(super) fn use_or_wait<'b>(
    alloc: Global,
    used: &Head,
    before: Ids,
    rest: &Children<'b>,
    scope: &Scope<'_>,
    sig: &SignatureView<'_>,
    table: &mut Table,
    named_terms: &Names,
    blocks: &Blocks,
    waits: &mut Vec<Frame<'b>>,
) -> Result<Now<'b>, ElabRefused>
    requires ready { IsReady (length table.old.trees) sig.now (bound_by blocks.now ++ bound_in scope.now) }
    requires named_terms { BindingsBelow (length table.old.trees) named_terms.now }
    requires before { All (λ i. i < length table.old.trees) before }
    requires below { UseBelow (length table.old.trees) used.now }
    requires suits { Suits used.now (length before + length rest.now) }
    ensures gives { Goes sig.now scope.now table.new named_terms.now blocks.now blocks.now
        waits.old.items waits.new.items (4 * size_of_all rest.now + 1) result
        (arguments_after (inside table.old sig.now scope.now blocks.now) table.old.trees used.now
        (trees_in table.old before) rest.now (named_terms_in table.old named_terms.now)) }
    ensures grows { Grows table.old table.new }
{
    names_law();
    match rest.split_first() {
        None => {
            let made = use_all(alloc, used, &before, scope, sig, table, named_terms, blocks)?;
            Ok(Now::Give(made))
        }
        Some((s, rest)) => {
            wait(
                waits,
                Frame::Argument {
                    used: *used,
                    before,
                    rest,
                },
            )?;
            Ok(Now::Read(s))
        }
    }
}

// One thing more waits.
pub(super) fn wait<'b>(waits: &mut Vec<Frame<'b>>, waiting: Frame<'b>) -> Result<(), AllocError>
    ensures { OnOk result (waits.new.items ≡ waits.old.items ++ waiting.entry ∷ []) }
{
    waits.push(waiting)?;
    Ok(())
}
