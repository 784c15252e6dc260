//! Atoms as bytes.
ghost use Rattle.std.specs.Prelude.{ℤ, [], false, ◌≡◌, ◌<◌, ◌++◌, ℕ, List, length, IfOk};
ghost use Rattle.eo_term.specs.Terms.{text_at, tree_at};
ghost use Rattle.eo_term.specs.Tree.{Tree, Bits};
ghost use Rattle.eo_lit.specs.Literals.{Number};
ghost use Rattle.eo_lit.specs.Reading.{lit, HasBits};
ghost use Rattle.eo_lit.specs.Spelling.{literal_spelling, string_spelling};
ghost use Rattle.eo_sexp.specs.AtomKind as kind;
ghost use Rattle.eo_sexp.specs.Printing.{printed_atom, in_quotes};
ghost use Rattle.eo_sig.specs.Reading.{signature};
ghost use Rattle.eo_sig.specs.Signature as spec;
ghost use Rattle.eo_show.specs.Forms.{name_of};
ghost use Rattle.eo_show.specs.Members.{has_no_spelling};
ghost use Rattle.eo_show.specs.Plan.{IsLive, member_tree, IsSpelled};

use crate::Member;
use eo_base::Chars;
use eo_lit::{LitRead, write_literal, write_string};
use eo_sexp::print_symbol;
use eo_sig::Signature;
use eo_term::{Id, Node, Table, TextId};
use std::alloc::{AllocError, Global};

/// A text as a string literal, with its quotes.
pub(crate) fn spell_string(
    alloc: Global,
    table: &Table,
    text: TextId,
) -> Result<Vec<u8>, AllocError>
    requires { text < length table.now.texts }
    ensures { IfOk result (λ v. v.items ≡ in_quotes (string_spelling (text_at table.now.texts text))) }
{
    let characters = Chars::new(alloc, table.chars(text))?;
    let body = write_string(alloc, &characters)?;
    in_quotes(alloc, body.as_bytes())
}

fn in_quotes(alloc: Global, body: &[u8]) -> Result<Vec<u8>, AllocError>
    ensures { IfOk result (λ v. v.items ≡ in_quotes body.now) }
{
    let mut out = Vec::new(alloc);
    out.push(b'"')?;
    out.extend_from_slice(body)?;
    out.push(b'"')?;
    Ok(out)
}

/// A literal.
fn spell_literal(alloc: Global, literal: LitRead) -> Result<Vec<u8>, AllocError>
    requires { HasBits literal }
    ensures { IfOk result (λ v. v.items ≡ literal_spelling (lit literal)) }
{
    let text = write_literal(alloc, literal)?;
    Vec::from_slice(alloc, text.as_bytes())
}

/// The name of a constant as a symbol.
pub(crate) fn spell_constant(
    alloc: Global,
    sig: &Signature,
    constant: usize,
) -> Result<Vec<u8>, AllocError>
    ensures { (ts : List Tree) → IfOk result (λ v. v.items ≡ printed_atom kind.Symbol (name_of (signature ts sig.now) constant)) }
{
    let mut out = Vec::new(alloc);
    print_symbol(&mut out, name_of(sig, constant))?;
    Ok(out)
}

/// The name of a constant.
pub(crate) fn name_of(sig: &Signature, constant: usize) -> &[u8]
    ensures { (ts : List Tree) → result.now ≡ name_of (signature ts sig.now) constant }
{
    if constant >= sig.constants() {
        return &[];
    }
    sig.constant(constant).name.as_bytes()
}

/// A member that is an atom.
pub(crate) fn spell_leaf(
    alloc: Global,
    sig: &Signature,
    table: &Table,
    member: &Member,
) -> Result<Vec<u8>, AllocError>
    requires live { IsLive table.now member.now }
    requires spelled { has_no_spelling (signature table.now.trees sig.now) (member_tree table.now member.now) ≡ false }
    ensures { IfOk result (λ v. IsSpelled (signature table.now.trees sig.now) (member_tree table.now member.now) v.items) }
{
    match *member {
        Member::Text(text) => spell_string(alloc, table, text),
        Member::Term(id) => spell_term(alloc, sig, table, id),
    }
}

fn spell_term(alloc: Global, sig: &Signature, table: &Table, id: Id) -> Result<Vec<u8>, AllocError>
    requires live { id < length table.now.trees }
    requires spelled { has_no_spelling (signature table.now.trees sig.now) (tree_at table.now.trees id) ≡ false }
    ensures { IfOk result (λ v. IsSpelled (signature table.now.trees sig.now) (tree_at table.now.trees id) v.items) }
{
    match table.node(id) {
        Node::Con(k) => spell_constant(alloc, sig, k),
        Node::Num(z) => spell_number(alloc, z),
        Node::Bits { width, value } => spell_bits(alloc, width, value),
        Node::Str(text) => spell_string(alloc, table, text),
        Node::Par(_) => no_name(alloc),
        Node::Var { .. } => no_name(alloc),
        Node::App { .. } => no_name(alloc),
        Node::Arr { .. } => no_name(alloc),
        Node::Qar { .. } => no_name(alloc),
        Node::Op { .. } => no_name(alloc),
    }
}

fn spell_number(alloc: Global, number: i128) -> Result<Vec<u8>, AllocError>
    ensures { (z : ℤ) → z ≡ number → IfOk result (λ v. v.items ≡ literal_spelling (Number z)) }
{
    spell_literal(alloc, LitRead::Num(number))
}

fn spell_bits(alloc: Global, width: u8, value: u128) -> Result<Vec<u8>, AllocError>
    ensures { (S : spec.Signature) → IfOk result (λ v. has_no_spelling S (Bits width value) ≡ false →
        IsSpelled S (Bits width value) v.items) }
{
    if width == 0 {
        return no_name(alloc);
    }
    spell_literal(alloc, LitRead::Bits { width, value })
}

// The symbol without a byte, as what is no value is written.
fn no_name(alloc: Global) -> Result<Vec<u8>, AllocError>
    ensures { IfOk result (λ v. v.items ≡ printed_atom kind.Symbol []) }
{
    let mut out = Vec::new(alloc);
    print_symbol(&mut out, &[])?;
    Ok(out)
}
