//! The parts of a declared constant.
ghost use Rattle.std.specs.Prelude.{◌≡◌, ◌<◌, ◌≤◌, ◌+◌, ◌&&◌, bytes_eq, List, None, length, true, All, IfOk};
ghost use Rattle.eo_base.specs.Limits.{parameters_limit, height_limit};
ghost use Rattle.eo_term.specs.Growth.{tree_in, Grows, Makes};
ghost use Rattle.eo_term.specs.Refused.{IsTall};
ghost use Rattle.eo_term.specs.Terms.{Terms};
ghost use Rattle.eo_term.specs.Tree.{Tree, Arr, type_tree, height, is_tall};
ghost use Rattle.eo_sig.specs.Reading.{Kept, read_constant, AttributeBelow};
ghost use Rattle.eo_sig.specs.Signature.{constant_fault};
ghost use Rattle.eo_declare.specs.Declarations as declarations;
ghost use Rattle.eo_declare.specs.Gives.{GivesTrees, GivesAttribute, GivesNumber, GivesConstant};
ghost use Rattle.eo_declare.specs.Declaring.{bound_type_in, plain_constant_in};
ghost use Rattle.eo_names.specs.Ready.{context, IsReady};
ghost use Rattle.eo_names.specs.Worlds.{world_of};
ghost use Rattle.eo_elab.specs.Worlds.{world_in};
ghost use Rattle.eo_declare.specs.Worlds.{meanings_in, attribute_in, constant_in};
ghost use Rattle.eo_names.specs.Contexts.{is_reference};
ghost use Rattle.eo_names.specs.Scopes.{read_file_kind};

use eo_base::Name;
use eo_elab::{ElabRefused, FileKind, Locals, elaborate_in, elaborate_view};
use eo_names::names_law;
use eo_sexp::{Children, Sexp};
use eo_shape::AttributeShape;
use eo_sig::{Attribute, ConstDecl, Entry, Param, Params, Signature, SignatureView};
use eo_term::{Id, Ids, Node, TYPE, Table, TermRefused};
use std::alloc::{AllocError, Global};

/// Whether a macro may have the name, or the reference file declared it.
pub(crate) fn may_declare(sig: &Signature, name: &[u8]) -> bool
    ensures { (ts : List Tree) → result ≡ declarations.is_free_or_reference (context ts sig.now) name.now }
{
    let free = sig.is_free(name);
    free || is_reference_name(sig, name)
}

// Whether the reference file declared the name, or a constant of it.
fn is_reference_name(sig: &Signature, name: &[u8]) -> bool
    ensures { (ts : List Tree) → result ≡ declarations.is_reference_name (context ts sig.now) name.now }
{
    match sig.lookup(name) {
        Some(Entry::Constant(_)) => is_reference_constant(sig, name),
        Some(Entry::Macro(n)) => sig.macro_of(n).from_reference,
        Some(Entry::Program(_)) => false,
        None => false,
    }
}

// Whether the reference file declared a constant of the name. It goes over all constants: a macro by
// the name of one is refused in any case, and its command is the last that is read.
fn is_reference_constant(sig: &Signature, name: &[u8]) -> bool
    ensures { (ts : List Tree) → result ≡ declarations.is_reference_constant (context ts sig.now) name.now }
{
    for n in 0..sig.constants() {
        if is_referenced(sig.constant(n), name) {
            return true;
        }
    }
    false
}

// Whether the reference file declared the constant, and it has the name.
fn is_referenced(d: &ConstDecl, name: &[u8]) -> bool
    ensures { result ≡ bytes_eq name.now d.now.name && d.now.from_reference }
{
    name == d.name.as_bytes() && d.from_reference
}

/// The meanings of terms in order, in a file of this kind, where this is declared.
pub(crate) fn elaborate_terms(
    alloc: Global,
    terms: &Children<'_>,
    locals: &Locals,
    file_kind: FileKind,
    sig: &SignatureView<'_>,
    table: &mut Table,
) -> Result<Ids, ElabRefused>
    requires ready { IsReady (length table.old.trees) sig.now locals.now }
    ensures gives { GivesTrees table.new result (meanings_in (world_in table.old sig.now locals.now file_kind) terms.now) }
    ensures count { IfOk result (λ ids. length ids ≡ length terms.now) }
    ensures grows { Grows table.old table.new }
{
    names_law();
    let mut ids = Ids::new(alloc);
    for s in terms.again() {
        let id = elaborate_view(alloc, &s, locals, file_kind, sig, table)?;
        ids.push(id)?;
    }
    Ok(ids)
}

/// The meanings of terms in order, in a signature or a proof.
pub(crate) fn meanings(
    alloc: Global,
    terms: &Children<'_>,
    locals: &Locals,
    sig: &Signature,
    table: &mut Table,
) -> Result<Ids, ElabRefused>
    requires ready { IsReady (length table.old.trees) sig.now locals.now }
    ensures gives { GivesTrees table.new result (meanings_in (world_of table.old sig.now locals.now) terms.now) }
    ensures count { IfOk result (λ ids. length ids ≡ length terms.now) }
    ensures grows { Grows table.old table.new }
{
    meanings_at(alloc, terms, locals, FileKind::Proof, sig, table)
}

/// The same in a file of this kind.
pub(crate) fn meanings_at(
    alloc: Global,
    terms: &Children<'_>,
    locals: &Locals,
    file_kind: FileKind,
    sig: &Signature,
    table: &mut Table,
) -> Result<Ids, ElabRefused>
    requires ready { IsReady (length table.old.trees) sig.now locals.now }
    ensures gives { GivesTrees table.new result (meanings_in (world_in table.old sig.now locals.now file_kind) terms.now) }
    ensures count { IfOk result (λ ids. length ids ≡ length terms.now) }
    ensures grows { Grows table.old table.new }
{
    elaborate_terms(
        alloc,
        terms,
        locals,
        file_kind,
        &SignatureView::of(sig),
        table,
    )
}

/// How a constant folds its arguments.
pub(crate) fn attribute_meant(
    alloc: Global,
    shape: &AttributeShape<'_>,
    locals: &Locals,
    file_kind: FileKind,
    sig: &Signature,
    table: &mut Table,
) -> Result<Attribute, ElabRefused>
    requires ready { IsReady (length table.old.trees) sig.now locals.now }
    ensures gives { GivesAttribute table.new result (attribute_in (world_in table.old sig.now locals.now file_kind) shape.now) }
    ensures grows { Grows table.old table.new }
{
    match shape {
        AttributeShape::None => Ok(Attribute::Plain),
        AttributeShape::RightNil(s) => Ok(Attribute::RightNil(elaborate_in(
            alloc, s, locals, file_kind, sig, table,
        )?)),
        AttributeShape::LeftNil(s) => Ok(Attribute::LeftNil(elaborate_in(
            alloc, s, locals, file_kind, sig, table,
        )?)),
        AttributeShape::Right => Ok(Attribute::Right),
        AttributeShape::Left => Ok(Attribute::Left),
        AttributeShape::Chain(s) => Ok(Attribute::Chain(constant_meant(
            alloc, s, locals, file_kind, sig, table,
        )?)),
        AttributeShape::Pairs(s) => Ok(Attribute::Pairs(constant_meant(
            alloc, s, locals, file_kind, sig, table,
        )?)),
        AttributeShape::Binder(s) => Ok(Attribute::Binder(constant_meant(
            alloc, s, locals, file_kind, sig, table,
        )?)),
    }
}

// The number of the constant that a term means.
fn constant_meant(
    alloc: Global,
    s: &Sexp<'_>,
    locals: &Locals,
    file_kind: FileKind,
    sig: &Signature,
    table: &mut Table,
) -> Result<usize, ElabRefused>
    requires ready { IsReady (length table.old.trees) sig.now locals.now }
    ensures gives { GivesNumber result (constant_in (world_in table.old sig.now locals.now file_kind) s.now) }
    ensures grows { Grows table.old table.new }
{
    let id = elaborate_in(alloc, s, locals, file_kind, sig, table)?;
    match table.node(id) {
        Node::Con(k) => Ok(k),
        _ => Err(ElabRefused::UnknownSymbol),
    }
}

/// The type of a sort with so many arguments.
pub(crate) fn sort_type(table: &mut Table, arity: u8) -> Result<Id, AllocError>
    ensures makes { Makes table.new result (declarations.sort_type arity) }
    ensures grows { Grows table.old table.new }
{
    table.laws();
    let mut made = TYPE;
    for _ in 0..arity {
        made = sort_over(table, made)?;
    }
    Ok(made)
}

// The type of a sort with one argument more, where it is low.
fn sort_over(table: &mut Table, to: Id) -> Result<Id, AllocError>
    requires live { to < length table.old.trees }
    requires low { height (tree_in table.old to) < height_limit }
    ensures makes { Makes table.new result (Arr type_tree (tree_in table.old to)) }
    ensures grows { Grows table.old table.new }
{
    table.laws();
    table.intern_low(Node::Arr { from: TYPE, to })
}

/// The type over these parameters, of which the first has this number: a function type that binds
/// its argument for each explicit one.
pub(crate) fn bound_type(
    table: &mut Table,
    first: usize,
    params: &[Param],
    ty: Id,
) -> Result<Id, TermRefused>
    requires params { All (λ p. p.ty < length table.old.trees) params.now }
    requires ty { ty < length table.old.trees }
    requires few { first + length params.now ≤ parameters_limit }
    ensures makes { Makes table.new result (bound_type_in table.old first params.now ty) }
    ensures tall { IsTall result → is_tall (bound_type_in table.old first params.now ty) ≡ true }
    ensures grows { Grows table.old table.new }
{
    let Some((p, rest)) = params.split_first() else {
        return Ok(ty);
    };
    let to = bound_type(table, first + 1, rest, ty)?;
    if p.implicit {
        return Ok(to);
    }
    let made = table.intern(Node::Qar {
        par: first as u8,
        ty: p.ty,
        to,
    })?;
    Ok(made)
}

/// The constant of this name, type and attribute, which has no parameters, in a file of this kind.
pub(crate) fn plain_constant(
    alloc: Global,
    name: &[u8],
    ty: Id,
    attribute: Attribute,
    file_kind: FileKind,
    table: &Table,
) -> Result<ConstDecl, ElabRefused>
    requires ty { ty < length table.now.trees }
    requires below { AttributeBelow (length table.now.trees) attribute }
    ensures gives { (old : Terms) (k : Kept) → GivesConstant table.now result
        (plain_constant_in old k file_kind name.now table.now ty attribute) }
    ensures sound { IfOk result (λ d. constant_fault (read_constant table.now.trees d) ≡ None) }
    ensures name { IfOk result (λ d. d.name ≡ name.now) }
{
    let d = ConstDecl {
        name: Name::new(alloc, name)?,
        params: Params::new(alloc),
        ty,
        attribute,
        from_reference: is_reference(file_kind),
    };
    if !d.may_hold(table) {
        return Err(ElabRefused::BadPattern);
    }
    Ok(d)
}

/// Whether it is a reference file.
pub(crate) fn is_reference(file_kind: FileKind) -> bool
    ensures { result ≡ is_reference (read_file_kind file_kind) }
{
    match file_kind {
        FileKind::Proof => false,
        FileKind::Reference => true,
        FileKind::Assert => true,
    }
}
