//! The meaning of a term.
ghost use Rattle.std.specs.Prelude.{◌≡◌, length, OnErr};
ghost use Rattle.eo_term.specs.Growth.{Grows};
ghost use Rattle.eo_names.specs.Gives.{GivesTree};
ghost use Rattle.eo_names.specs.Ready.{IsReady, Keeps};
ghost use Rattle.eo_names.specs.Worlds.{world_of};
ghost use Rattle.eo_names.specs.Names.{BindingsBelow};
ghost use Rattle.eo_elab.specs.Gives.{GivesTerm, NamesGrow, atom_told};
ghost use Rattle.eo_names.specs.Scopes.{read_file_kind};
ghost use Rattle.eo_elab.specs.Worlds.{meaning_in, world_in, meant_at, reference_kind, reference_meaning};

use crate::atoms::atom;
use crate::walk::elaborate;
use crate::{ElabRefused, FileKind, Locals, Names};
use eo_names::{Scope, names_law};
use eo_sexp::{Kind, Sexp};
use eo_sig::{Signature, SignatureView};
use eo_term::{Id, Table};
use std::alloc::Global;

/// The meaning of a term of a signature or a proof, as a term of the table. Names mean what they
/// are given here, and else what the signature declares.
///
/// A refusal is the first fault, from left to right:
///
/// - `BadLiteral`: a literal or a string without an accepted value.
/// - `BadCommand`: a `let` of a wrong shape.
/// - `Redeclared`: a name that a `let` or a binder binds twice.
/// - `UnknownSymbol`: a symbol without a meaning, or a keyword.
/// - `BadArity`: a wrong number of arguments.
/// - `Tall`: a term taller than the limit.
/// - `Memory`: out of memory.
///
/// The terms that the signature and the names hold are terms of the table. All of these stay; a
/// refused call leaves the table as it was.
#[inline]
pub fn term(
    alloc: Global,
    s: &Sexp<'_>,
    locals: &Locals,
    sig: &Signature,
    table: &mut Table,
) -> Result<Id, ElabRefused>
    requires ready { IsReady (length table.old.trees) sig.now locals.now }
    ensures gives { GivesTree table.new result (meaning_in (world_of table.old sig.now locals.now) s.now) }
    ensures refused { OnErr result (table.new ≡ table.old) }
    ensures grows { Grows table.old table.new }
    ensures keeps { Keeps sig.now locals.now table.old.trees table.new.trees }
{
    names_law();
    let mark = table.mark();
    match elaborate_in(alloc, s, locals, FileKind::Proof, sig, table) {
        Ok(id) => Ok(id),
        Err(e) => {
            table.release(mark);
            Err(e)
        }
    }
}

/// The meaning of a term of a reference file, as a term of the table, by the rules that
/// [`term`] has and these: `!` gives a term attributes, which say nothing, but that `:named` in an
/// assertion makes a name for it; and `(_ bvN w)` is the bit string of w bits that N writes.
///
/// In an assertion the names that its terms are given come after those of `names`. Elsewhere
/// `names` stays as it is.
///
/// A refusal is the first fault, from left to right, as [`term`] has it. Besides,
///
/// - `BadCommand`: a `!` of a wrong shape.
/// - `Redeclared`: a name that a term is given, and that is taken, reserved or in `names`.
///
/// The terms that the signature and the names hold are terms of the table. All of these stay; a
/// refused call leaves `names` and the table as they were.
pub fn reference_term(
    alloc: Global,
    s: &Sexp<'_>,
    locals: &Locals,
    sig: &Signature,
    table: &mut Table,
    in_assert: bool,
    names: &mut Names,
) -> Result<Id, ElabRefused>
    requires ready { IsReady (length table.old.trees) sig.now locals.now }
    requires names { BindingsBelow (length table.old.trees) names.old }
    ensures gives { GivesTerm table.new names.new result (reference_meaning table.old sig.now locals.now names.old in_assert s.now) }
    ensures refused { OnErr result (table.new ≡ table.old) }
    ensures unnamed { OnErr result (names.new ≡ names.old) }
    ensures grows { Grows table.old table.new }
    ensures keeps { Keeps sig.now locals.now table.old.trees table.new.trees }
    ensures names { NamesGrow table.new names.old names.new }
{
    names_law();
    let start = table.mark();
    let before = names.len();
    let file_kind = reference_kind(in_assert);
    match elaborate_with(
        alloc,
        s,
        locals,
        file_kind,
        &SignatureView::of(sig),
        table,
        names,
    ) {
        Ok(id) => Ok(id),
        Err(e) => {
            table.release(start);
            names.truncate(before);
            Err(e)
        }
    }
}

// The kind of file, in an assertion or outside.
fn reference_kind(in_assert: bool) -> FileKind
    ensures { read_file_kind result ≡ reference_kind in_assert }
{
    if in_assert {
        FileKind::Assert
    } else {
        FileKind::Reference
    }
}

// The meaning of a term in a file of this kind. The names that its terms are given come after
// those that were given before; a refused call may have given some.
fn elaborate_with(
    alloc: Global,
    s: &Sexp<'_>,
    locals: &Locals,
    file_kind: FileKind,
    sig: &SignatureView<'_>,
    table: &mut Table,
    named_terms: &mut Names,
) -> Result<Id, ElabRefused>
    requires ready { IsReady (length table.old.trees) sig.now locals.now }
    requires named_terms { BindingsBelow (length table.old.trees) named_terms.old }
    ensures gives { GivesTerm table.new named_terms.new result (meant_at table.old sig.now locals.now named_terms.old
        (read_file_kind file_kind) s.now) }
    ensures grows { Grows table.old table.new }
    ensures keeps { Keeps sig.now locals.now table.old.trees table.new.trees }
    ensures named_terms { NamesGrow table.new named_terms.old named_terms.new }
{
    names_law();
    elaborate(
        alloc,
        s,
        &Scope::Outer(locals, file_kind),
        sig,
        table,
        named_terms,
    )
}

/// The meaning of a term in a file of this kind, outside of its assertions, as a term of the table.
/// The names that it gives itself are dropped.
///
/// A refusal is the first fault, as [`term`] and [`reference_term`] have it. The terms that the
/// signature and the names hold stay; a refused call may leave terms more in the table.
#[inline]
pub fn elaborate_in(
    alloc: Global,
    s: &Sexp<'_>,
    locals: &Locals,
    file_kind: FileKind,
    sig: &Signature,
    table: &mut Table,
) -> Result<Id, ElabRefused>
    requires ready { IsReady (length table.old.trees) sig.now locals.now }
    ensures gives { GivesTree table.new result (meaning_in (world_in table.old sig.now locals.now file_kind) s.now) }
    ensures grows { Grows table.old table.new }
    ensures keeps { Keeps sig.now locals.now table.old.trees table.new.trees }
{
    let view = SignatureView::of(sig);
    elaborate_view(alloc, s, locals, file_kind, &view, table)
}

/// The same by what a view of a signature declares, such as that of a program whose cases are read.
#[inline]
pub fn elaborate_view(
    alloc: Global,
    s: &Sexp<'_>,
    locals: &Locals,
    file_kind: FileKind,
    sig: &SignatureView<'_>,
    table: &mut Table,
) -> Result<Id, ElabRefused>
    requires ready { IsReady (length table.old.trees) sig.now locals.now }
    ensures gives { GivesTree table.new result (meaning_in (world_in table.old sig.now locals.now file_kind) s.now) }
    ensures grows { Grows table.old table.new }
    ensures keeps { Keeps sig.now locals.now table.old.trees table.new.trees }
{
    match s.list() {
        None => elaborate_atom(alloc, s.kind(), s.text(), locals, file_kind, sig, table),
        Some(_) => elaborate_unlabelled(alloc, s, locals, file_kind, sig, table),
    }
}

// The meaning of an atom in a file of this kind.
fn elaborate_atom(
    alloc: Global,
    kind: Kind,
    text: &[u8],
    locals: &Locals,
    file_kind: FileKind,
    sig: &SignatureView<'_>,
    table: &mut Table,
) -> Result<Id, ElabRefused>
    requires ready { IsReady (length table.old.trees) sig.now locals.now }
    ensures gives { GivesTree table.new result (atom_told (world_in table.old sig.now locals.now file_kind) kind text.now) }
    ensures grows { Grows table.old table.new }
    ensures keeps { Keeps sig.now locals.now table.old.trees table.new.trees }
{
    names_law();
    atom(
        alloc,
        kind,
        text,
        &Scope::Outer(locals, file_kind),
        sig,
        table,
    )
}

// The meaning of any term in a file of this kind. The names that it gives itself are dropped.
#[inline(never)]
fn elaborate_unlabelled(
    alloc: Global,
    s: &Sexp<'_>,
    locals: &Locals,
    file_kind: FileKind,
    sig: &SignatureView<'_>,
    table: &mut Table,
) -> Result<Id, ElabRefused>
    requires ready { IsReady (length table.old.trees) sig.now locals.now }
    ensures gives { GivesTree table.new result (meaning_in (world_in table.old sig.now locals.now file_kind) s.now) }
    ensures grows { Grows table.old table.new }
    ensures keeps { Keeps sig.now locals.now table.old.trees table.new.trees }
{
    let mut named_terms = Names::new(alloc);
    elaborate_with(alloc, s, locals, file_kind, sig, table, &mut named_terms)
}
