//! What a list is, by its head.
ghost use Rattle.std.specs.Prelude.{◌≡◌, ◌<◌, ◌≤◌, ℕ, List, length, IfOk, OnOk};
ghost use Rattle.eo_sexp.specs.Sexp.{sexps_of};
ghost use Rattle.eo_sig.specs.Reading.{signature, read_attribute, IsBelow};
ghost use Rattle.eo_term.specs.Growth.{tree_in};
ghost use Rattle.eo_term.specs.Tree.{Tree, Con};
ghost use Rattle.eo_names.specs.Folding.{attribute_at, least};
ghost use Rattle.eo_elab.specs.Forms.{collector_of, FormFits};
ghost use Rattle.eo_elab.specs.Gives.{FormsUnderscore, FormsList, FormsWord, UsesMeant, UsesTree};
ghost use Rattle.eo_names.specs.Scopes.{bound_in};
ghost use Rattle.eo_names.specs.Worlds.{World};
ghost use Rattle.eo_term.specs.Terms.{Terms};
ghost use Rattle.eo_names.specs.Symbols.{IsLive};
ghost use Rattle.eo_names.specs.Usage.{UseBelow, Suits};
ghost use Rattle.eo_names.specs.Ready.{IsReady};
ghost use Rattle.eo_elab.specs.Worlds.{place};

use crate::ElabRefused;
use crate::annotations::is_annotated;
use crate::bits::bit_vector_in;
use crate::shapes::{begins_with_pairs, is_let};
use eo_names::{Head, Resolved, Scope, Word, attribute_of, head_meant, least_of, word_of};
use eo_sexp::{Children, Sexp};
use eo_shape::symbol;
use eo_sig::{Attribute, SignatureView};
use eo_term::{Id, Node, Table};

/// What a list is.
#[derive(Clone, Copy)]
pub(crate) enum Form {
    /// A `let`.
    Let,
    /// A head that is a term of its own, before its arguments.
    Head,
    /// Arguments that are used.
    Arguments(Head),
    /// A term with attributes.
    Annotation,
    /// A bit string of so many bits, with this value.
    Bits { width: u8, value: u128 },
}

/// What the list of a head and its arguments is.
pub(crate) fn form_of(
    head: &Sexp<'_>,
    args: &Children<'_>,
    scope: &Scope<'_>,
    sig: &SignatureView<'_>,
    table: &Table,
) -> Result<Form, ElabRefused>
    requires ready { IsReady (length table.now.trees) sig.now (bound_in scope.now) }
    ensures form { FormsList (place table.now sig.now scope.now) table.now head.now args.now result }
    ensures some { OnOk result (1 ≤ length args.now) }
    ensures fits { IfOk result (FormFits (length table.now.trees) (length args.now)) }
{
    if args.len() == 0 {
        return Err(ElabRefused::BadArity);
    }
    match symbol(head) {
        Some(name) => form_by_word(name, args, scope, sig, table),
        None => Ok(Form::Head),
    }
}

// The same, where the head is a symbol.
fn form_by_word(
    name: &[u8],
    args: &Children<'_>,
    scope: &Scope<'_>,
    sig: &SignatureView<'_>,
    table: &Table,
) -> Result<Form, ElabRefused>
    requires ready { IsReady (length table.now.trees) sig.now (bound_in scope.now) }
    requires some { 1 ≤ length args.now }
    ensures form { FormsWord (place table.now sig.now scope.now) table.now name.now args.now result }
    ensures fits { IfOk result (FormFits (length table.now.trees) (length args.now)) }
{
    match word_of(name, scope) {
        Word::Underscore => form_of_underscore(args, scope),
        Word::Arrow => {
            if args.len() < 2 {
                return Err(ElabRefused::BadArity);
            }
            Ok(Form::Arguments(Head::Arrow))
        }
        Word::Let => {
            if !is_let(args) {
                return Err(ElabRefused::BadCommand);
            }
            Ok(Form::Let)
        }
        Word::Annotation => {
            if !is_annotated(args, scope.file_kind()) {
                return Err(ElabRefused::BadCommand);
            }
            Ok(Form::Annotation)
        }
        Word::Name => {
            let meant = head_meant(name, args.len(), scope, sig);
            let used = use_of_meaning(meant, args, sig, table)?;
            Ok(Form::Arguments(used))
        }
    }
}

// The same, where the head is `_`: in a reference file, `bvN` and a width are a bit string.
fn form_of_underscore(args: &Children<'_>, scope: &Scope<'_>) -> Result<Form, ElabRefused>
    ensures form { (w : World) (t : Terms) → FormsUnderscore w t scope.now args.now result }
    ensures fits { (n : ℕ) → IfOk result (FormFits n (length args.now)) }
{
    if let Some(bits) = bit_vector_in(args, scope.file_kind()) {
        return Ok(Form::Bits {
            width: bits.width,
            value: bits.value,
        });
    }
    if args.len() < 2 {
        return Err(ElabRefused::BadArity);
    }
    Ok(Form::Arguments(Head::Underscore))
}

// How a name with this meaning uses its arguments.
fn use_of_meaning(
    meant: Resolved,
    args: &Children<'_>,
    sig: &SignatureView<'_>,
    table: &Table,
) -> Result<Head, ElabRefused>
    requires live { IsLive (length table.now.trees) sig.now meant }
    requires below { IsBelow (length table.now.trees) sig.now }
    requires some { 1 ≤ length args.now }
    ensures used { UsesMeant sig.now table.now args.now meant result }
    ensures below { IfOk result (UseBelow (length table.now.trees)) }
    ensures suits { IfOk result (λ u. Suits u (length args.now)) }
{
    match meant {
        Resolved::Term(id) => use_of_term(id, args, sig, table),
        Resolved::Constant(k) => use_of_constant(k, args, sig),
        Resolved::Macro(n) => {
            let defined = sig.macro_of(n);
            let count = defined.params.as_slice().len();
            if args.len() != count {
                return Err(ElabRefused::BadArity);
            }
            Ok(Head::Macro(defined.tree))
        }
        Resolved::Operator(code, arity) => {
            if args.len() != arity {
                return Err(ElabRefused::BadArity);
            }
            Ok(Head::Operator(code))
        }
        Resolved::Nothing => Err(ElabRefused::UnknownSymbol),
    }
}

/// How a term that is a head uses its arguments: a constant by its attribute, any other term
/// plainly.
pub(crate) fn use_of_term(
    id: Id,
    args: &Children<'_>,
    sig: &SignatureView<'_>,
    table: &Table,
) -> Result<Head, ElabRefused>
    requires live { id < length table.now.trees }
    requires some { 1 ≤ length args.now }
    ensures used { UsesTree sig.now table.now.trees args.now (tree_in table.now id) result }
    ensures below { IfOk result (UseBelow (length table.now.trees)) }
    ensures suits { IfOk result (λ u. Suits u (length args.now)) }
{
    match table.node(id) {
        Node::Con(k) => use_of_constant(k, args, sig),
        _ => Ok(Head::Apply(id)),
    }
}

// A binder binds where its first argument is a list of pairs. The arguments are counted before
// any of them is read.
fn use_of_constant(
    k: usize,
    args: &Children<'_>,
    sig: &SignatureView<'_>,
) -> Result<Head, ElabRefused>
    requires some { 1 ≤ length args.now }
    ensures used { (ts : List Tree) → UsesTree sig.now ts args.now (Con k) result }
    ensures below { IfOk result (λ u. (n : ℕ) → UseBelow n u) }
    ensures suits { IfOk result (λ u. Suits u (length args.now)) }
{
    match collector_of(attribute_of(sig, k), args) {
        Some(collector) => Ok(Head::Bind {
            binder: k,
            collector,
        }),
        None => {
            if args.len() < least_of(k, sig) {
                return Err(ElabRefused::BadArity);
            }
            Ok(Head::Fold(k))
        }
    }
}

// The constant that makes the list of the variables, where a constant with this attribute binds
// some in these arguments.
fn collector_of(attribute: Attribute, args: &Children<'_>) -> Option<usize>
    ensures { (ts : List Tree) → result ≡ collector_of (read_attribute ts attribute) (sexps_of args.now) }
{
    match attribute {
        Attribute::Binder(collector) => {
            if begins_with_pairs(args) {
                Some(collector)
            } else {
                None
            }
        }
        _ => None,
    }
}
