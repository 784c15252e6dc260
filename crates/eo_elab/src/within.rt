//! What is read and made inside of the names that are bound around it.
ghost use Rattle.std.specs.Prelude.{◌≡◌, ◌<◌, ◌≤◌, ◌++◌, length, All, OnOk, IfOk, map};
ghost use Rattle.eo_term.specs.Growth.{Grows, trees_in};
ghost use Rattle.eo_elab.specs.Gives.{GivesTerm, FormsList, atom_told};
ghost use Rattle.eo_elab.specs.Forms.{FormFits};
ghost use Rattle.eo_names.specs.Gives.{GivesTree, GivesTerm as GivesNone};
ghost use Rattle.eo_names.specs.Worlds.{world_of, bound_list_in, seen_in};
ghost use Rattle.eo_names.specs.Binders.{variable};
ghost use Rattle.eo_names.specs.Names.{BindingsBelow, bound_by};
ghost use Rattle.eo_names.specs.Scopes.{bound_in};
ghost use Rattle.eo_names.specs.Usage.{UseBelow, Suits};
ghost use Rattle.eo_names.specs.Ready.{IsReady};
ghost use Rattle.eo_elab.specs.Worlds.{named_terms_in};
ghost use Rattle.eo_elab.specs.Waiting.{inside, used_by};

use crate::atoms::atom;
use crate::plan::{Form, form_of};
use crate::{ElabRefused, Names};
use eo_names::{Bindings, Blocks, Head, Scope, apply_head, bind, names_law};
use eo_sexp::{Children, Kind, Sexp};
use eo_sig::SignatureView;
use eo_term::{Id, Ids, Table};
use std::alloc::Global;

/// What a list is inside of these names.
pub(crate) fn form_inside(
    head: &Sexp<'_>,
    args: &Children<'_>,
    scope: &Scope<'_>,
    sig: &SignatureView<'_>,
    table: &Table,
    blocks: &Blocks,
) -> Result<Form, ElabRefused>
    requires ready { IsReady (length table.now.trees) sig.now (bound_by blocks.now ++ bound_in scope.now) }
    ensures form { FormsList (inside table.now sig.now scope.now blocks.now) table.now head.now args.now result }
    ensures some { OnOk result (1 ≤ length args.now) }
    ensures fits { IfOk result (FormFits (length table.now.trees) (length args.now)) }
{
    form_of(head, args, &Scope::Within(&*blocks, &*scope), sig, table)
}

/// The meaning of an atom inside of these names.
pub(crate) fn atom_inside(
    alloc: Global,
    kind: Kind,
    text: &[u8],
    scope: &Scope<'_>,
    sig: &SignatureView<'_>,
    table: &mut Table,
    blocks: &Blocks,
) -> Result<Id, ElabRefused>
    requires ready { IsReady (length table.old.trees) sig.now (bound_by blocks.now ++ bound_in scope.now) }
    ensures gives { GivesTree table.new result (atom_told (inside table.old sig.now scope.now blocks.now) kind text.now) }
    ensures grows { Grows table.old table.new }
{
    atom(
        alloc,
        kind,
        text,
        &Scope::Within(&*blocks, &*scope),
        sig,
        table,
    )
}

/// The list of variables inside of these names.
pub(crate) fn bind_inside(
    alloc: Global,
    collector: usize,
    names: &mut Bindings,
    scope: &Scope<'_>,
    sig: &SignatureView<'_>,
    table: &mut Table,
    blocks: &Blocks,
) -> Result<Id, ElabRefused>
    requires ready { IsReady (length table.old.trees) sig.now (bound_by blocks.now ++ bound_in scope.now) }
    requires types { BindingsBelow (length table.old.trees) names.old }
    ensures gives { GivesNone table.new result
        (bound_list_in (world_of table.old sig.now (bound_by blocks.now ++ bound_in scope.now)) collector
        (seen_in table.old names.old)) }
    ensures below { OnOk result (BindingsBelow (length table.new.trees) names.new) }
    ensures names { OnOk result (seen_in table.new names.new ≡ map variable (seen_in table.old names.old)) }
    ensures grows { Grows table.old table.new }
{
    bind(
        alloc,
        collector,
        names,
        &Scope::Within(&*blocks, &*scope),
        sig,
        table,
    )
}

/// What is made of all arguments inside of these names.
pub(crate) fn use_all(
    alloc: Global,
    used: &Head,
    args: &Ids,
    scope: &Scope<'_>,
    sig: &SignatureView<'_>,
    table: &mut Table,
    named_terms: &Names,
    blocks: &Blocks,
) -> Result<Id, ElabRefused>
    requires ready { IsReady (length table.old.trees) sig.now (bound_by blocks.now ++ bound_in scope.now) }
    requires named_terms { BindingsBelow (length table.old.trees) named_terms.now }
    requires args { All (λ i. i < length table.old.trees) args.now }
    requires below { UseBelow (length table.old.trees) used.now }
    requires suits { Suits used.now (length args.now) }
    ensures gives { GivesTerm table.new named_terms.now result
        (used_by (inside table.old sig.now scope.now blocks.now) table.old.trees used.now
        (trees_in table.old args.now) (named_terms_in table.old named_terms.now)) }
    ensures grows { Grows table.old table.new }
{
    names_law();
    apply_head(
        alloc,
        *used,
        args.as_slice(),
        &Scope::Within(&*blocks, &*scope),
        sig,
        table,
    )
}
