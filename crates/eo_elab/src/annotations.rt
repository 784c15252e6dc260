//! Terms with attributes, and the names that terms are given (SMT-LIB 2.6, section 3.6
//! "Terms and Formulas").
ghost use Rattle.std.specs.Prelude.{◌≡◌, ◌<◌, List, length, map, false, IfOk, is_some, unwrap_or, [], codes};
ghost use Rattle.eo_sexp.specs.Sexp.{sexps_of};
ghost use Rattle.eo_term.specs.Terms.{Terms};
ghost use Rattle.eo_term.specs.Tree.{Tree};
ghost use Rattle.eo_sig.specs.Reading.{signature, macros};
ghost use Rattle.eo_sig.specs.Signature as sigs;
ghost use Rattle.eo_shape.specs.Words.{keyword_of, is_some_word};
ghost use Rattle.eo_names.specs.Contexts as contexts;
ghost use Rattle.eo_names.specs.Names.{BindingsBelow};
ghost use Rattle.eo_names.specs.Scopes.{read_file_kind};
ghost use Rattle.eo_elab.specs.Gives.{GivesNamedTerms, AddsNamedTerm, NamesGrow};
ghost use Rattle.eo_elab.specs.Meaning.{is_annotated, are_attributes, names_given};
ghost use Rattle.eo_elab.specs.Worlds.{named_term_as, named_term_told};

use crate::{ElabRefused, Names};
use eo_names::FileKind;
use eo_sexp::{Children, Kind, Sexp};
use eo_shape::symbol;
use eo_sig::{SignatureView, is_reserved};
use eo_term::{Id, Table};
use std::alloc::{AllocError, Global};

/// Whether the arguments are a term and one or more attributes, each of which is a keyword with at
/// most one value. In an assertion each `:named` is followed by a symbol.
pub(crate) fn is_annotated(args: &Children<'_>, file_kind: FileKind) -> bool
    ensures { result ≡ is_annotated (read_file_kind file_kind) (sexps_of args.now) }
{
    match args.split_first() {
        Some((_, attributes)) => {
            attributes.len() != 0
                && are_attributes(&attributes)
                && (file_kind != FileKind::Assert || are_named(&attributes))
        }
        None => false,
    }
}

// Whether these are keywords, each with at most one value.
fn are_attributes(attributes: &Children<'_>) -> bool
    ensures { result ≡ are_attributes false (sexps_of attributes.now) }
{
    let mut may_be_value = false;
    for s in attributes.again() {
        let keyword = is_keyword(&s);
        if !keyword && !may_be_value {
            return false;
        }
        may_be_value = keyword;
    }
    true
}

fn is_keyword(s: &Sexp<'_>) -> bool
    ensures { result ≡ is_some (keyword_of s.now) }
{
    match s.kind() {
        Kind::Keyword => true,
        _ => false,
    }
}

fn is_named(s: &Sexp<'_>) -> bool
    ensures { result ≡ is_some_word (codes ":named") (keyword_of s.now) }
{
    match s.kind() {
        Kind::Keyword => s.text() == b":named".as_slice(),
        _ => false,
    }
}

// Whether each `:named` is followed by a symbol.
fn are_named(attributes: &Children<'_>) -> bool
    ensures { result ≡ is_some (names_given false (sexps_of attributes.now)) }
{
    let mut named = false;
    for s in attributes.again() {
        if named {
            if symbol(&s).is_none() {
                return false;
            }
            named = false;
        } else {
            named = is_named(&s);
        }
    }
    !named
}

// The names that `:named` gives; none where one is not followed by a symbol.
fn names_given<'b>(alloc: Global, attributes: &Children<'b>) -> Result<Vec<&'b [u8]>, AllocError>
    ensures { IfOk result (λ names. map (λ name. name.now) names.items ≡ unwrap_or (names_given false (sexps_of attributes.now)) []) }
{
    let mut names = Vec::new(alloc);
    let mut named = false;
    for s in attributes.again() {
        if named {
            let Some(name) = symbol(&s) else {
                return Ok(Vec::new(alloc));
            };
            names.push(name)?;
            named = false;
        } else {
            named = is_named(&s);
        }
    }
    if named {
        return Ok(Vec::new(alloc));
    }
    Ok(names)
}

/// Gives a term the names that its attributes have, where it is in an assertion. A refused call
/// may have given it some of them.
///
/// - `Redeclared`: a name that is taken, reserved or given to a term of the command before.
/// - `Memory`: out of memory.
pub(crate) fn label(
    alloc: Global,
    id: Id,
    attributes: &Children<'_>,
    file_kind: FileKind,
    sig: &SignatureView<'_>,
    named_terms: &mut Names,
) -> Result<(), ElabRefused>
    ensures gives { (t : Terms) → GivesNamedTerms t named_terms.new id result
        (named_term_told t sig.now file_kind named_terms.old id attributes.now) }
    ensures grows { (t : Terms) → id < length t.trees → BindingsBelow (length t.trees) named_terms.old →
        NamesGrow t named_terms.old named_terms.new }
{
    match file_kind {
        FileKind::Proof | FileKind::Reference => Ok(()),
        FileKind::Assert => {
            let names = names_given(alloc, attributes)?;
            add_names(id, &names, sig, named_terms)
        }
    }
}

// Gives these names to a term.
fn add_names(
    id: Id,
    names: &[&[u8]],
    sig: &SignatureView<'_>,
    named_terms: &mut Names,
) -> Result<(), ElabRefused>
    ensures gives { (t : Terms) (x : contexts.FileKind) → GivesNamedTerms t named_terms.new id result
        (named_term_as t sig.now x named_terms.old id names.now) }
    ensures grows { (t : Terms) → id < length t.trees → BindingsBelow (length t.trees) named_terms.old →
        NamesGrow t named_terms.old named_terms.new }
{
    for name in names {
        add_name(name, id, sig, named_terms)?;
    }
    Ok(())
}

// Gives a name to a term.
fn add_name(
    name: &[u8],
    id: Id,
    sig: &SignatureView<'_>,
    named_terms: &mut Names,
) -> Result<(), ElabRefused>
    ensures adds { (t : Terms) (x : contexts.FileKind) → AddsNamedTerm t sig.now x named_terms.old named_terms.new id name.now result }
    ensures grows { (t : Terms) → id < length t.trees → BindingsBelow (length t.trees) named_terms.old →
        NamesGrow t named_terms.old named_terms.new }
{
    if !is_free(name, sig) {
        return Err(ElabRefused::Redeclared);
    }
    if named_terms.contains(name) {
        return Err(ElabRefused::Redeclared);
    }
    named_terms.push(name, id)?;
    Ok(())
}

// Whether nothing has the name, and it is not reserved.
fn is_free(name: &[u8], sig: &SignatureView<'_>) -> bool
    ensures { (ts : List Tree) → result ≡ sigs.is_free (signature ts sig.now) (macros ts sig.now) name.now }
{
    !is_reserved(name) && sig.lookup(name).is_none()
}
