//! The type of a term, by the types that are kept of its parts.
ghost use Rattle.std.specs.Prelude.{◌≡◌, ℕ, ◌<◌, ◌+◌, List, max, length, None, IfSome, IfNone};
ghost use Rattle.eo_term.specs.Tree.{Tree, App, Arr};
ghost use Rattle.eo_term.specs.Terms.{Terms};
ghost use Rattle.eo_term.specs.Growth.{tree_in, Grows};
ghost use Rattle.eo_sig.specs.Reading.{Kept, signature};
ghost use Rattle.eo_type.specs.Types.{TypeOutcome};
ghost use Rattle.eo_type.specs.Outcomes.{Yields, Gives, IsTyped};
ghost use Rattle.eo_type.specs.Parts.{variable_type};
ghost use Rattle.eo_type.specs.Known.{Fit, kept_type, type_at, type_in};
ghost use Rattle.eo_type.specs.TypeSteps.{AreKept, GivesTypeStep};

use crate::application::{application_type, plain_application};
use crate::known::TypeCache;
use crate::leaves::is_constant;
use crate::refused::Stop;
use eo_pattern::Subst;
use eo_sig::Signature;
use eo_term::{Id, Node, Step, Table};
use std::alloc::Global;

// A type that is found ends a term's part of a walk.
pub(crate) fn type_step(found: Result<Id, Stop>) -> Result<Step, Stop>
    ensures { (k : Kept) (old new : Terms) (known : List (ℕ × ℕ)) (below : ℕ) (o : TypeOutcome Tree) →
        Gives new found o → GivesTypeStep k old known below o new result }
{
    match found {
        Ok(ty) => Ok(Step::Made(ty)),
        Err(e) => Err(e),
    }
}

// The type that is kept of a term.
pub(crate) fn kept_type(sig: &Signature, table: &Table, known: &TypeCache, id: Id) -> Option<Id>
    requires { Fit sig.now table.now known.now }
    ensures some { IfSome result (λ u. IsTyped table.now (type_at sig.now table.now id) u) }
    ensures none { IfNone result (kept_type known.now id ≡ None) }
{
    known.get(id)
}

// The types that are kept of two terms, or the first of them of which none is.
pub(crate) fn kept_types(
    sig: &Signature,
    table: &Table,
    known: &TypeCache,
    a: Id,
    b: Id,
) -> Result<(Id, Id), Id>
    requires { Fit sig.now table.now known.now }
    ensures { AreKept sig.now table.now known.now a b result }
{
    let Some(first) = kept_type(sig, table, known, a) else {
        return Err(a);
    };
    let Some(second) = kept_type(sig, table, known, b) else {
        return Err(b);
    };
    Ok((first, second))
}

// The type of a variable: the type that it names, whose type this is, if that is a type.
pub(crate) fn variable(sig: &Signature, table: &Table, ty: Id, kind: Id) -> Result<Id, Stop>
    requires live { ty < length table.now.trees }
    requires typed { IsTyped table.now (type_at sig.now table.now ty) kind }
    ensures gives { Gives table.now result (variable_type (signature table.now.trees sig.now) (tree_in table.now ty)) }
{
    let _sig = sig;
    if !is_constant(table, kind, 0) {
        return Err(Stop::Untyped);
    }
    Ok(ty)
}

// The type of an application, by these types of its parts.
pub(crate) fn application(
    alloc: Global,
    sig: &Signature,
    table: &mut Table,
    subst: &mut Subst,
    fun: Id,
    arg: Id,
    ty: Id,
    kind: Id,
) -> Result<Id, Stop>
    requires arg { arg < length table.old.trees }
    requires first { IsTyped table.old (type_at sig.now table.old fun) ty }
    requires second { IsTyped table.old (type_at sig.now table.old arg) kind }
    ensures { Yields table.old table.new result
        (type_in sig.now table.old (App (tree_in table.old fun) (tree_in table.old arg))) }
{
    let _sig = sig;
    if !table.is_value(kind) {
        return Err(Stop::Untyped);
    }
    application_type(alloc, table, subst, ty, kind, arg)
}

// The type of a function type, by these types of its parts: `Type`, if both are.
pub(crate) fn function(
    sig: &Signature,
    table: &Table,
    from: Id,
    to: Id,
    first: Id,
    second: Id,
) -> Result<Id, Stop>
    requires first { IsTyped table.now (type_at sig.now table.now from) first }
    requires second { IsTyped table.now (type_at sig.now table.now to) second }
    ensures gives { Gives table.now result (type_in sig.now table.now (Arr (tree_in table.now from) (tree_in table.now to))) }
{
    let _sig = sig;
    if !is_constant(table, first, 0) || !is_constant(table, second, 0) {
        return Err(Stop::Untyped);
    }
    Ok(first)
}

// The type of a variable of this type, or this type first.
pub(crate) fn variable_step(
    sig: &Signature,
    table: &Table,
    known: &TypeCache,
    ty: Id,
) -> Result<Step, Stop>
    requires live { ty < length table.now.trees }
    requires fits { Fit sig.now table.now known.now }
    ensures { GivesTypeStep sig.now table.now known.now (ty + 1)
        (variable_type (signature table.now.trees sig.now) (tree_in table.now ty)) table.now result }
{
    let Some(kind) = kept_type(sig, table, known, ty) else {
        return Ok(Step::Part(ty));
    };
    let found = variable(sig, table, ty, kind)?;
    Ok(Step::Made(found))
}

// The type of an application, or the first of its parts of which none is kept.
pub(crate) fn application_step(
    alloc: Global,
    sig: &Signature,
    table: &mut Table,
    subst: &mut Subst,
    known: &TypeCache,
    fun: Id,
    arg: Id,
) -> Result<Step, Stop>
    requires fun { fun < length table.old.trees }
    requires arg { arg < length table.old.trees }
    requires fits { Fit sig.now table.old known.now }
    ensures gives { GivesTypeStep sig.now table.old known.now (max fun arg + 1)
        (type_in sig.now table.old (App (tree_in table.old fun) (tree_in table.old arg))) table.new result }
    ensures grows { Grows table.old table.new }
{
    match head_step(sig, &*table, known, fun)? {
        Step::Made(ty) => applied_step(alloc, sig, table, subst, known, fun, arg, ty),
        Step::Part(part) => Ok(Step::Part(part)),
    }
}

// The type of what is applied: that which is kept, or that of a plain application of which those of
// both parts are kept. The latter is found anew each time, at a constant cost.
fn head_step(sig: &Signature, table: &Table, known: &TypeCache, id: Id) -> Result<Step, Stop>
    requires live { id < length table.now.trees }
    requires fits { Fit sig.now table.now known.now }
    ensures { GivesTypeStep sig.now table.now known.now (id + 1) (type_at sig.now table.now id) table.now result }
{
    let Some(ty) = kept_type(sig, table, known, id) else {
        return match table.node(id) {
            Node::App { fun, arg } => plain_step(sig, table, known, id, fun, arg),
            _ => Ok(Step::Part(id)),
        };
    };
    Ok(Step::Made(ty))
}

// The type of the application `id` of these parts, if it is plain, or the first of the parts and of
// itself that has to be typed before.
fn plain_step(
    sig: &Signature,
    table: &Table,
    known: &TypeCache,
    id: Id,
    fun: Id,
    arg: Id,
) -> Result<Step, Stop>
    requires tree { tree_in table.now id ≡ App (tree_in table.now fun) (tree_in table.now arg) }
    requires fun { fun < id }
    requires arg { arg < id }
    requires live { id < length table.now.trees }
    requires fits { Fit sig.now table.now known.now }
    requires new { kept_type known.now id ≡ None }
    ensures { GivesTypeStep sig.now table.now known.now (id + 1) (type_at sig.now table.now id) table.now result }
{
    match kept_types(sig, table, known, fun, arg) {
        Err(part) => Ok(Step::Part(part)),
        Ok((ty, kind)) => match plain(sig, table, fun, arg, ty, kind) {
            Some(found) => type_step(found),
            None => Ok(Step::Part(id)),
        },
    }
}

// The type of an application by these types of its parts, where the function type is taken as it is.
fn plain(
    sig: &Signature,
    table: &Table,
    fun: Id,
    arg: Id,
    ty: Id,
    kind: Id,
) -> Option<Result<Id, Stop>>
    requires first { IsTyped table.now (type_at sig.now table.now fun) ty }
    requires second { IsTyped table.now (type_at sig.now table.now arg) kind }
    ensures { IfSome result (λ r. Gives table.now r (type_in sig.now table.now (App (tree_in table.now fun) (tree_in table.now arg)))) }
{
    let _sig = sig;
    let (_fun, _arg) = (fun, arg);
    if !table.is_value(kind) {
        return None;
    }
    plain_application(table, ty, kind)
}

// The type of an application of what has this type, or its argument first.
fn applied_step(
    alloc: Global,
    sig: &Signature,
    table: &mut Table,
    subst: &mut Subst,
    known: &TypeCache,
    fun: Id,
    arg: Id,
    ty: Id,
) -> Result<Step, Stop>
    requires arg { arg < length table.old.trees }
    requires fits { Fit sig.now table.old known.now }
    requires typed { IsTyped table.old (type_at sig.now table.old fun) ty }
    ensures gives { GivesTypeStep sig.now table.old known.now (arg + 1)
        (type_in sig.now table.old (App (tree_in table.old fun) (tree_in table.old arg))) table.new result }
    ensures grows { Grows table.old table.new }
{
    let Some(kind) = kept_type(sig, &*table, known, arg) else {
        return Ok(Step::Part(arg));
    };
    let found = application(alloc, sig, table, subst, fun, arg, ty, kind)?;
    Ok(Step::Made(found))
}

// The type of a function type, or the first of its parts.
pub(crate) fn function_step(
    sig: &Signature,
    table: &Table,
    known: &TypeCache,
    from: Id,
    to: Id,
) -> Result<Step, Stop>
    requires fits { Fit sig.now table.now known.now }
    ensures { GivesTypeStep sig.now table.now known.now (max from to + 1)
        (type_in sig.now table.now (Arr (tree_in table.now from) (tree_in table.now to))) table.now result }
{
    match kept_types(sig, table, known, from, to) {
        Err(part) => Ok(Step::Part(part)),
        Ok((first, second)) => {
            let found = function(sig, table, from, to, first, second)?;
            Ok(Step::Made(found))
        }
    }
}
