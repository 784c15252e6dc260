//! The meaning of an atom.
ghost use Rattle.std.specs.Prelude.{◌≤◌, ◌<◌, ◌^◌, length, option_map, Ok};
ghost use Rattle.eo_base.specs.Characters.{AreCharacters};
ghost use Rattle.eo_base.specs.Checks.{value_or};
ghost use Rattle.eo_base.specs.declared.FaultName.TheVariants.{BadLiteral};
ghost use Rattle.eo_lit.specs.Literals.{literal_value, string_value};
ghost use Rattle.eo_term.specs.Tree.{Str, Bits};
ghost use Rattle.eo_term.specs.Growth.{Grows, Makes};
ghost use Rattle.eo_elab.specs.Meaning.{tree_alone, literal_tree};
ghost use Rattle.eo_sexp.specs.AtomKind as kinds;
ghost use Rattle.eo_names.specs.Symbols.{read_meant, IsLive};
ghost use Rattle.eo_names.specs.Gives.{GivesTree};
ghost use Rattle.eo_names.specs.Scopes.{bound_in};
ghost use Rattle.eo_names.specs.Ready.{IsReady};
ghost use Rattle.eo_elab.specs.Gives.{atom_told};
ghost use Rattle.eo_elab.specs.Worlds.{place, atom_in};

use crate::ElabRefused;
use eo_lit::{LitRead, StringRefused, read_literal, read_string};
use eo_names::{Resolved, Scope, Word, resolve_name, word_of};
use eo_sexp::Kind;
use eo_sig::SignatureView;
use eo_term::{Id, Node, Table};
use std::alloc::{AllocError, Global};

/// The meaning of an atom: a literal or a string is its value, and a symbol is the term that its
/// name means.
///
/// `BadLiteral`: a literal or a string without an accepted value. `BadArity`: a program, a macro
/// with parameters, an operator, or one of `_`, `->`, `let` and, in a
/// reference file, `!`. `UnknownSymbol`: any other symbol
/// that has no meaning, and a keyword.
#[tactic(auto, unfolding(crate::specs::Meaning::atom))]
#[inline(always)]
pub(crate) fn atom(
    alloc: Global,
    kind: Kind,
    text: &[u8],
    scope: &Scope<'_>,
    sig: &SignatureView<'_>,
    table: &mut Table,
) -> Result<Id, ElabRefused>
    requires { IsReady (length table.old.trees) sig.now (bound_in scope.now) }
    ensures gives { GivesTree table.new result (atom_told (place table.old sig.now scope.now) kind text.now) }
    ensures grows { Grows table.old table.new }
{
    match kind {
        Kind::Symbol => symbol(text, scope, sig, table),
        Kind::Literal => literal(text, table),
        Kind::String => string(alloc, text, table),
        Kind::Keyword => Err(ElabRefused::UnknownSymbol),
        Kind::List => Err(ElabRefused::UnknownSymbol),
    }
}

// A symbol alone.
#[tactic(auto, unfolding(crate::specs::Meaning::atom))]
fn symbol(
    name: &[u8],
    scope: &Scope<'_>,
    sig: &SignatureView<'_>,
    table: &mut Table,
) -> Result<Id, ElabRefused>
    requires { IsReady (length table.old.trees) sig.now (bound_in scope.now) }
    ensures gives { GivesTree table.new result (atom_in (place table.old sig.now scope.now) kinds.Symbol name.now) }
    ensures grows { Grows table.old table.new }
{
    match word_of(name, scope) {
        Word::Name => term_of(sig, resolve_name(name, scope, sig), table),
        Word::Underscore => Err(ElabRefused::BadArity),
        Word::Arrow => Err(ElabRefused::BadArity),
        Word::Let => Err(ElabRefused::BadArity),
        Word::Annotation => Err(ElabRefused::BadArity),
    }
}

// The term that a name means by itself.
fn term_of(sig: &SignatureView<'_>, meant: Resolved, table: &mut Table) -> Result<Id, ElabRefused>
    requires { IsLive (length table.old.trees) sig.now meant }
    ensures gives { GivesTree table.new result (tree_alone (read_meant table.old.trees sig.now meant)) }
    ensures grows { Grows table.old table.new }
{
    match meant {
        Resolved::Term(id) => Ok(id),
        Resolved::Constant(k) => Ok(table.constant(k)?),
        Resolved::Macro(_) => Err(ElabRefused::BadArity),
        Resolved::Operator(_, _) => Err(ElabRefused::BadArity),
        Resolved::Nothing => Err(ElabRefused::UnknownSymbol),
    }
}

// The value of a literal word.
#[tactic(auto, unfolding(eo_base::specs::Checks::value_or))]
fn literal(word: &[u8], table: &mut Table) -> Result<Id, ElabRefused>
    ensures gives { GivesTree table.new result (value_or BadLiteral (option_map literal_tree (literal_value word.now))) }
    ensures grows { Grows table.old table.new }
{
    let node = match read_literal(word) {
        Ok(LitRead::Num(value)) => Node::Num(value),
        Ok(LitRead::Bits { width, value }) => Node::Bits { width, value },
        Err(_) => return Err(ElabRefused::BadLiteral),
    };
    Ok(table.intern_low(node)?)
}

// The value of a string literal, from the bytes between its quotes.
#[tactic(auto, unfolding(eo_base::specs::Checks::value_or))]
fn string(alloc: Global, body: &[u8], table: &mut Table) -> Result<Id, ElabRefused>
    ensures gives { GivesTree table.new result (value_or BadLiteral (option_map Str (string_value body.now))) }
    ensures grows { Grows table.old table.new }
{
    match read_string(alloc, body) {
        Ok(characters) => Ok(string_of(characters.as_slice(), table)?),
        Err(StringRefused::Bad) => Err(ElabRefused::BadLiteral),
        Err(StringRefused::Memory(e)) => Err(ElabRefused::Memory(e)),
    }
}

// The string of these characters.
fn string_of(characters: &[u32], table: &mut Table) -> Result<Id, AllocError>
    requires { AreCharacters characters.now }
    ensures makes { Makes table.new result (Str characters.now) }
    ensures grows { Grows table.old table.new }
{
    let text = table.text(characters)?;
    table.intern_low(Node::Str(text))
}

/// A bit string of so many bits, with this value.
pub(crate) fn bit_string(width: u8, value: u128, table: &mut Table) -> Result<Id, ElabRefused>
    requires width { width ≤ 128 }
    requires value { value < 2 ^ width }
    ensures gives { GivesTree table.new result (Ok (Bits width value)) }
    ensures grows { Grows table.old table.new }
{
    Ok(table.intern_low(Node::Bits { width, value })?)
}
